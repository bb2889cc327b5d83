// A visit under way: its task, the statement that comes, and the run so far.
ghost use Rattle.program.specs.Sound.{task_of};
ghost use Rattle.program.specs.Programs.{program_source};
ghost use Rattle.plain.specs.Frames.{Room};

use crate::frame::Frame;
use program::program::Program;
use program::statement::Task;

pub mod steps;

#[derive(Clone, Copy)]
pub struct Visit<'p> {
    program: &'p Program,
    task: Task,
    at: usize,
    frame: Frame,
    ghost room: { Room (task_of (program_source program.now) task.number) at frame },
}
