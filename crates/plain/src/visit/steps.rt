// The statements of a visit, one after the other.
ghost use Rattle.std.specs.Prelude.{◌≡◌};
ghost use Rattle.program.specs.Runs.{value};
ghost use Rattle.words.specs.Lists.{items};
ghost use Rattle.program.specs.Sound.{task_of};
ghost use Rattle.program.specs.Programs.{program_source};
ghost use Rattle.plain.specs.Frames.{run_of};
ghost use Rattle.plain.specs.Steps.{standing, starting, coming, stepped, ends};

use crate::frame::Frame;
use crate::visit::Visit;
use program::program::Program;
use program::statement::{Operand, Statement, Task};
use words::list::Words;

impl<'p> Visit<'p> {
    // A visit of a task before its first statement.
    pub(crate) fn new(
        program: &'p Program,
        task: Task,
        row: &[u16; 8],
        variables: Words<48>,
    ) -> Visit<'p>
        ensures { standing result ≡ starting (task_of (program_source program.now) task.number) row.now (items variables) }
    {
        let frame = Frame::new(row, variables);
        Visit {
            program,
            task,
            at: 0,
            frame,
        }
    }

    // The statement that comes, if the task is not over.
    pub fn statement(&self) -> Option<Statement>
        ensures { result ≡ coming (standing self.now) }
    {
        self.program.statement(self.task, self.at)
    }

    // The value that the operand has now.
    pub fn value(&self, operand: Operand) -> u16
        ensures { result ≡ value (standing self.now).run operand }
    {
        self.frame.value(operand)
    }

    // Does the statement that comes, and answers it; past the ending nothing alters.
    pub fn step(&mut self) -> Option<Statement>
        ensures answer { result ≡ coming (standing self.old) }
        ensures after { standing self.new ≡ stepped (standing self.old) }
    {
        let statement = self.statement()?;
        let over = self.frame.passes(statement);
        self.frame.work(statement);
        self.at += 1 + over as usize;
        Some(statement)
    }

    // Does all that is left of the task.
    pub(crate) fn finish(mut self) -> Frame
        ensures { run_of result ≡ ends (standing self.entry) }
    {
        while self.step().is_some() {}
        self.frame
    }
}
