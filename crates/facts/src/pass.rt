// The pass: it works out the fact of a task, over all its paths, for any fact kind.
ghost use Rattle.std.specs.Prelude.{◌≡◌, ℕ, ◌<◌, ◌≤◌, ◌==◌, length, replicate, true, cond, Some};
ghost use Rattle.std.specs.List.{list_any};
ghost use Rattle.program.specs.Shapes.{ways};
ghost use Rattle.program.specs.Sound.{task_of};
ghost use Rattle.program.specs.Programs.{program_source};
ghost use Rattle.facts.specs.Joins.{IsJoin, IsOverPaths};
ghost use Rattle.facts.specs.Passes.{LeadsTo, Passed, inside};

use crate::kind::Kind;
use program::program::Program;
use program::statement::{Statement, Task};
use thiserror::Error;

// The least length of a scratch: as many facts as a task can have statements.
pub const LEAST_SCRATCH: usize = 64;

// The scratch has fewer than 64 facts.
#[derive(Clone, Copy, PartialEq, Eq, Debug, Error)]
#[error("the scratch has fewer than 64 facts")]
pub struct ShortScratch;

impl ShortScratch {
    // The number by which the rules tell it.
    pub fn number(self) -> u8
        ensures { result ≡ 7 }
    {
        7
    }
}

// Whether so many statements behind it may be passed over.
fn may_pass(statement: Statement, count: usize) -> bool
    requires { 0 < count }
    ensures { result ≡ list_any (λ k. k == count) (ways statement) }
{
    match statement {
        Statement::Skip { reach, .. } => usize::from(reach.count()) == count,
        _ => false,
    }
}

// The fact, joined with what left a statement if so many behind that may be passed over.
fn joined_past<K: Kind>(
    kind: &K,
    fact: K::Fact,
    statement: Statement,
    count: usize,
    left: K::Fact,
) -> K::Fact
    requires { 0 < count }
    ensures { result ≡ cond (list_any (λ k. k == count) (ways statement)) (K.join kind.now fact left) fact }
{
    if may_pass(statement, count) {
        kind.join(fact, left)
    } else {
        fact
    }
}

// The join of what left the statements that lead to a place behind the first.
fn arriving<K: Kind>(kind: &K, task: &[Statement], after: &[K::Fact], at: usize) -> K::Fact
    requires { (0 < at) × (at ≤ length task.now) × (at ≤ length after.now) }
    ensures { IsJoin (K.join kind.now) (LeadsTo task.now after.now at) result }
{
    let mut fact = after[at - 1];
    for from in at.saturating_sub(16)..at - 1 {
        fact = joined_past(kind, fact, task[from], at - 1 - from, after[from]);
    }
    fact
}

// The join over all paths of a task.
fn joined<K: Kind>(kind: &K, task: &[Statement], scratch: &mut [K::Fact]) -> K::Fact
    requires room { length task.now ≤ length scratch.old }
    requires stays { inside task.now ≡ true }
    ensures joins { IsOverPaths (K.start kind.now) (K.effect kind.now) (K.join kind.now) task.now result }
    ensures size { length scratch.new ≡ length scratch.old }
{
    let mut fact = kind.start();
    for (at, &statement) in task.iter().enumerate() {
        scratch[at] = kind.effect(statement, fact);
        fact = arriving(kind, task, scratch, at + 1);
    }
    fact
}

// Leaves start facts throughout.
fn clear<K: Kind>(kind: &K, scratch: &mut [K::Fact])
    ensures { scratch.new ≡ replicate (length scratch.old) (K.start kind.now) }
{
    let start = kind.start();
    for place in scratch.iter_mut() {
        *place = start;
    }
}

// The join, over all paths of the task, of the start fact taken along each.
#[tactic(auto, using(crate::proofs::Inside::task_inside, program::proofs::Programs::task_short))]
pub fn pass<K: Kind>(
    kind: &K,
    program: &Program,
    task: Task,
    scratch: &mut [K::Fact],
) -> Result<K::Fact, ShortScratch>
    ensures { Passed (K.start kind.now) (IsOverPaths (K.start kind.now) (K.effect kind.now) (K.join kind.now) (task_of (program_source program.now) task.number)) scratch.old result scratch.new }
{
    if scratch.len() < LEAST_SCRATCH {
        return Err(ShortScratch);
    }
    let fact = joined(kind, program.statements(task), scratch);
    clear(kind, scratch);
    Ok(fact)
}
