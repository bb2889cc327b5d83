// The cabinet over any memory.
ghost use Rattle.std.specs.Prelude.{◌≡◌, true};
ghost use Rattle.program.specs.Programs.{program_source};
ghost use Rattle.calls.specs.Lawful.{stage_fits};
ghost use Rattle.cabinet.specs.States.{stage_of};

use crate::state::State;
use memory::interface::Memory;
use program::statement::Next;
use rules::rules::Rules;

pub mod begin;
mod chain_walk;
pub mod handing;
pub mod opening;
mod reads;
pub mod record;
mod refusing;
pub mod relight;
mod running;
mod starting;
pub mod step;

// It has the memory to itself.
#[derive(Drop)]
pub struct Cabinet<'r, M: Memory> {
    rules: &'r Rules,
    memory: M,
    state: State,
    // the task last read
    task: Next,
    ghost fitting: { stage_fits (program_source rules.now.program) (stage_of state) ≡ true },
}
