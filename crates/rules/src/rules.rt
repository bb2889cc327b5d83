// A program, and beside it the facts of each of its tasks.
ghost use Rattle.std.specs.Prelude.{◌≡◌, map};
ghost use Rattle.words.specs.Lists.{items};
ghost use Rattle.program.specs.Programs.{program_source};
ghost use Rattle.rules.specs.Known.{task_facts};

use facts::costs::TaskFacts;
use program::program::Program;
use words::list::Short;

pub mod bounds;
pub mod make;

#[derive(Clone, Copy)]
pub struct Rules {
    program: Program,
    facts: Short<TaskFacts, 16>,
    ghost known: { items facts ≡ map task_facts (program_source program).tasks },
}
