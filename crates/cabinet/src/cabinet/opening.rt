// How a memory becomes a cabinet.
ghost use Rattle.std.specs.Prelude.{◌≡◌, true, IfOk};
ghost use Rattle.calls.specs.Lawful.{stage_fits};
ghost use Rattle.cabinet.specs.Cabinets.{source};
ghost use Rattle.cabinet.specs.Openings.{Checks, Finds, IsOver, Opens};
ghost use Rattle.cabinet.specs.States.{stage_of};

use crate::cabinet::Cabinet;
use crate::cabinet::chain_walk::{log_astray, next_known};
use crate::cabinet::reads::next_at;
use crate::fitting::fit;
use crate::state::State;
use calls::due::Due;
use calls::unready::Unready;
use layout::layout::Layout;
use memory::interface::Memory;
use program::statement::Next;
use rules::rules::Rules;

// A memory that was not opened, handed back with the reason.
#[derive(Drop)]
pub struct Unopened<M> {
    pub why: Unready,
    pub memory: M,
}

// What a memory is opened with: the state of the cabinet over it, and the task last read.
#[derive(Clone, Copy)]
struct Found {
    state: State,
    task: Next,
}

// Whether a memory can be opened, or the first reason why not.
#[tactic(auto, using(crate::proofs::Openings::unopened_unfit, crate::proofs::Openings::unopened_words, crate::proofs::Openings::fit_readable), unfolding(crate::proofs::Openings::ill_formed))]
fn check<M: Memory>(rules: &Rules, memory: &M) -> Result<(), Unready>
    ensures { Checks M.Memory (source rules.now) memory.now result }
{
    fit(rules, memory)?;
    let layout = Layout::of(rules.program());
    if !next_known(rules, memory.read(layout.next())?) {
        return Err(Unready::NextTask);
    }
    if memory.read(layout.length())? > 8 {
        return Err(Unready::RecordLength);
    }
    if log_astray(rules, memory)? {
        return Err(Unready::Astray);
    }
    Ok(())
}

// What a memory is opened with, or why it is not opened.
#[tactic(auto, unfolding(crate::specs::Openings::IsFound))]
fn find<M: Memory>(rules: &Rules, memory: &M) -> Result<Found, Unready>
    ensures fits { IfOk result (λ found. stage_fits (source rules.now) (stage_of found.state) ≡ true) }
    ensures finds { Finds M.Memory (source rules.now) memory.now result }
{
    check(rules, memory)?;
    let layout = Layout::of(rules.program());
    let task = next_at(memory.read(layout.next())?);
    let state = match memory.read(layout.head())? {
        0 => State::Rest,
        _ => State::Applying(Due::Entry(layout.log())),
    };
    Ok(Found { state, task })
}

impl<'r, M: Memory> Cabinet<'r, M> {
    // The cabinet over a memory that was looked into.
    #[tactic(auto, using(crate::proofs::Openings::is_over))]
    fn over(rules: &'r Rules, memory: M, found: Found) -> Cabinet<'r, M>
        requires { stage_fits (source rules.now) (stage_of found.state) ≡ true }
        ensures rules { result.rules.now ≡ rules.now }
        ensures memory { result.memory ≡ memory }
        ensures over { IsOver M.Memory (source rules.now) memory found result }
    {
        let Found { state, task } = found;
        Cabinet {
            rules,
            memory,
            state,
            task,
        }
    }

    // Opens a memory for a program: at rest, or with a commit under way that is applied from its first entry on. Nothing is
    // stored.
    #[tactic(auto, unfolding(crate::specs::Openings::IsOver))]
    pub fn open(rules: &'r Rules, memory: M) -> Result<Cabinet<'r, M>, Unopened<M>>
        ensures { Opens M.Memory rules.now memory result }
    {
        match find(rules, &memory) {
            Ok(found) => Ok(Cabinet::over(rules, memory, found)),
            Err(why) => Err(Unopened { why, memory }),
        }
    }
}
