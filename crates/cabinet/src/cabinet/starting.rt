// How an attempt starts.
ghost use Rattle.std.specs.Prelude.{◌≡◌, ◌<◌, true, length};
ghost use Rattle.program.specs.Sound.{Source, sound};
ghost use Rattle.cabinet.specs.Cabinets.{source};
ghost use Rattle.cabinet.specs.Starting.{Fits, IsLogged, ReadsCopies, ReadsCopy, StartFits, Starts, before_first};
ghost use Rattle.cabinet.specs.States.{attempt_of};

use crate::cabinet::Cabinet;
use crate::state::Attempt;
use facts::set::VariableSet;
use memory::fault::Fault;
use memory::interface::Memory;
use program::statement::{Task, Variable};
use words::list::Words;

impl Attempt {
    // Before the first statement, with these working copies.
    #[tactic(auto, using(crate::proofs::Starting::fits_before))]
    fn new(task: Task, row: [u16; 8], copies: [u16; 48]) -> Attempt
        ensures value { attempt_of result ≡ before_first task.number row copies }
        ensures fits { (p : Source) → sound p ≡ true → task.number < length p.tasks → Fits p (attempt_of result) }
    {
        Attempt {
            task,
            at: 0,
            inputs: row,
            locals: [0; 8],
            emitted: Words::new(),
            copies,
            set: VariableSet::empty(),
        }
    }
}

impl<'r, M: Memory> Cabinet<'r, M> {
    // The variables that a task logs.
    #[tactic(auto, using(crate::proofs::Starting::logged_told, crate::proofs::Starting::lacking_logs))]
    pub(crate) fn logged(&self, task: Task) -> VariableSet
        ensures { IsLogged (source self.now.rules.now) task.number result }
    {
        match self.rules.facts(task) {
            Some(facts) => facts.logged,
            None => VariableSet::empty(),
        }
    }

    // The working copy that a variable starts with: its word in memory if it is logged, and otherwise 0.
    fn copy(&self, logged: VariableSet, variable: Variable) -> Result<u16, Fault>
        ensures { ReadsCopy M.Memory self.now logged variable result }
    {
        if logged.contains(variable) {
            self.memory.read(self.layout().variable(variable))
        } else {
            Ok(0)
        }
    }

    // The working copies that an attempt at the task starts with.
    #[tactic(auto, using(crate::proofs::Starting::copied_none, crate::proofs::Starting::copied_more, crate::proofs::Starting::copied_all))]
    fn copies(&self, task: Task) -> Result<[u16; 48], Fault>
        ensures { ReadsCopies M.Memory self.now task result }
    {
        let logged = self.logged(task);
        let mut copies = [0; 48];
        for number in 0..self.rules.program().firsts().len() {
            let variable = Variable::new(number as u8).unwrap();
            copies[number] = self.copy(logged, variable)?;
        }
        Ok(copies)
    }

    // The attempt at a visit of the task with this row.
    pub(crate) fn start(&self, task: Task, row: [u16; 8]) -> Result<Attempt, Fault>
        ensures fits { StartFits M.Memory self.now task result }
        ensures starts { Starts M.Memory self.now task row result }
    {
        Ok(Attempt::new(task, row, self.copies(task)?))
    }
}
