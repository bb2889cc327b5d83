// The bounds of a whole program.
ghost use Rattle.std.specs.Prelude.{◌≡◌};
ghost use Rattle.std.specs.List.{fold};
ghost use Rattle.program.specs.Programs.{program_source};
ghost use Rattle.rules.specs.Known.{AreBounds, larger_bounds};

use crate::rules::Rules;
use facts::costs::TaskFacts;

// The larger of each bound and what the facts of one task more allow.
#[tactic(auto, unfolding(crate::specs::Known::larger_bounds))]
fn larger_bounds(bounds: (u16, u16), facts: &TaskFacts) -> (u16, u16)
    ensures { result ≡ larger_bounds bounds facts.now }
{
    let (stores, steps) = bounds;
    (
        stores.max(facts.most_stores()),
        steps.max(facts.most_steps()),
    )
}

// The largest that any of the facts allow.
fn largest_bounds(facts: &[TaskFacts]) -> (u16, u16)
    ensures { result ≡ fold larger_bounds (0, 0) facts.now }
{
    facts.iter().fold((0, 0), larger_bounds)
}

// D, the most stores that a visit can make, and S, the most steps that it can take: each the largest over the tasks.
#[tactic(auto, using(crate::proofs::Largest::bounds_are))]
pub fn bounds(rules: &Rules) -> (u16, u16)
    ensures { AreBounds (program_source rules.now.program) result }
{
    largest_bounds(rules.facts.as_slice())
}
