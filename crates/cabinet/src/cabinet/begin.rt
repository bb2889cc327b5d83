// The begin of a visit.
ghost use Rattle.std.specs.Prelude.{◌≡◌, true, length, IfOk};
ghost use Rattle.calls.specs.Calls.{Event};
ghost use Rattle.calls.specs.Lawful.{attempt_fits};
ghost use Rattle.cabinet.specs.Beginnings.{Admits, AttemptFits, Attempts, Begins, BeginsWith, Enters, Known, NextTask};
ghost use Rattle.cabinet.specs.Cabinets.{Takes, source};
ghost use Rattle.cabinet.specs.States.{attempt_of};

use crate::cabinet::Cabinet;
use crate::state::{Attempt, State};
use calls::refusal::{Refusal, Why};
use memory::fault::Fault;
use memory::interface::Memory;
use program::statement::{Next, Task};

impl<'r, M: Memory> Cabinet<'r, M> {
    // The next task, if the program has it. One that it lacks is read in no lawful memory.
    #[tactic(auto, using(crate::proofs::Beginnings::next_known_here))]
    fn next_task(&self) -> Result<Task, Why>
        ensures known { Known M.Memory self.now result }
        ensures next { NextTask M.Memory self.now result }
    {
        match self.next()? {
            Next::Stopped => Err(Why::Stopped),
            Next::Task(task) => match self.rules.facts(task) {
                Some(_) => Ok(task),
                None => Err(Why::Stopped),
            },
        }
    }

    // The task of the visit that may begin.
    #[tactic(auto, unfolding(crate::specs::Beginnings::task_to_begin, crate::specs::Beginnings::begins_with))]
    fn task_to_begin(&self) -> Result<Task, Why>
        ensures known { Known M.Memory self.now result }
        ensures begins { BeginsWith M.Memory self.now result }
    {
        match self.state {
            State::Settled | State::Rest => Ok(self.next_task()?),
            State::Running(_) | State::Logging(_) | State::Applying(_) => Err(Why::Busy),
            State::Dark => Err(Why::Memory(Fault::Dark)),
        }
    }

    // The row's eight words, where its host has taken the last visit's record and another visit may follow.
    #[tactic(auto, unfolding(crate::specs::Beginnings::admitted))]
    fn admit(&self, taken: u32, row: &[u16]) -> Result<[u16; 8], Why>
        ensures long { IfOk result (λ words. length words ≡ 8) }
        ensures admits { Admits M.Memory self.now taken row.now result }
    {
        let number = self.number()?;
        if taken != number {
            return Err(Why::NotTaken);
        }
        let Ok(row) = <[u16; 8]>::try_from(row) else {
            return Err(Why::RowLength);
        };
        if number == u32::MAX {
            return Err(Why::LastNumber);
        }
        Ok(row)
    }

    // The attempt that begins.
    #[tactic(auto, unfolding(crate::specs::Beginnings::attempted))]
    fn attempt(&self, taken: u32, row: &[u16]) -> Result<Attempt, Why>
        ensures fits { AttemptFits M.Memory self.now result }
        ensures attempts { Attempts M.Memory self.now taken row.now result }
    {
        let task = self.task_to_begin()?;
        let row = self.admit(taken, row)?;
        Ok(self.start(task, row)?)
    }

    // Runs an attempt, of the task last read.
    fn enter(&mut self, attempt: Attempt)
        requires { attempt_fits (source self.old.rules.now) (attempt_of attempt) ≡ true }
        ensures { Enters M.Memory self.old attempt self.new }
    {
        self.task = Next::Task(attempt.task);
        self.state = State::Running(attempt);
    }

    // Begins, or tells why not.
    #[tactic(auto, using(crate::proofs::Beginnings::not_begun, crate::proofs::Beginnings::entered))]
    fn begin_next(&mut self, taken: u32, row: &[u16]) -> Result<(), Why>
        ensures memory { self.new.memory ≡ self.old.memory }
        ensures begins { Begins M.Memory self.old taken row.now result self.new }
    {
        let attempt = self.attempt(taken, row)?;
        self.enter(attempt);
        Ok(())
    }

    // Begins a visit of the next task with a row. The host tells by `taken` which visit's record it has taken last.
    #[tactic(auto, unfolding(crate::specs::Beginnings::Begins))]
    pub fn begin(&mut self, taken: u32, row: &[u16]) -> Result<(), Refusal>
        ensures memory { self.new.memory ≡ self.old.memory }
        ensures takes { Takes M.Memory self.old (Event.Begin taken row.now result) self.new }
    {
        let before = self.state.phase();
        let task = self.task;
        match self.begin_next(taken, row) {
            Ok(()) => Ok(()),
            Err(why) => Err(Refusal { why, before, task }),
        }
    }
}
