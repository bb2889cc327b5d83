// The machine's visits.
ghost use Rattle.std.specs.Prelude.{◌≡◌, ◌<◌};
ghost use Rattle.plain.specs.Frames.{run_of};
ghost use Rattle.plain.specs.Plain.{last_number, first_next, left_by};
ghost use Rattle.plain.specs.Machines.{Begun, Visited, at_start, moved_to, running};

use crate::frame::Frame;
use crate::machine::Machine;
use crate::visit::Visit;
use program::program::Program;
use program::statement::{Next, Task};
use thiserror::Error;
use words::list::Words;

// Why there is no visit.
#[derive(Clone, Copy, PartialEq, Eq, Debug, Error)]
pub enum Refusal {
    #[error("an ending stopped the program")]
    Stopped,
    #[error("the visit number is 4,294,967,295")]
    LastNumber,
}

// What comes at the first visit: task 0.
fn first_next() -> Next
    ensures { result ≡ first_next }
{
    Next::Task(Task::new(0).unwrap())
}

impl<'p> Machine<'p> {
    // The machine before its first visit.
    pub fn new(program: &'p Program) -> Machine<'p>
        ensures { running result ≡ at_start program.now }
    {
        Machine {
            program,
            number: 0,
            next: first_next(),
            emitted: Words::new(),
            variables: program.firsts(),
        }
    }

    // The next visit, before its first statement; the machine does not alter.
    pub fn begin(&self, row: &[u16; 8]) -> Result<Visit<'p>, Refusal>
        ensures { Begun row.now (running self.now) result }
    {
        match self.next {
            Next::Stopped => Err(Refusal::Stopped),
            Next::Task(_) if self.number == u32::MAX => Err(Refusal::LastNumber),
            Next::Task(task) => Ok(Visit::new(self.program, task, row, self.variables)),
        }
    }

    // Takes up where a visit has ended.
    fn settle(&mut self, end: Frame)
        requires { self.old.number < last_number }
        ensures { running self.new ≡ moved_to (running self.old) (left_by self.old.number (run_of end)) }
    {
        self.number += 1;
        self.next = end.chosen;
        self.emitted = end.emitted;
        self.variables = end.variables;
    }

    // One visit with its row.
    pub fn visit(&mut self, row: &[u16; 8]) -> Result<(), Refusal>
        ensures { Visited row.now (running self.old) result (running self.new) }
    {
        let end = self.begin(row)?.finish();
        self.settle(end);
        Ok(())
    }
}
