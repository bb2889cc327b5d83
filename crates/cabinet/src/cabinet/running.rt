// A running step: the work of the statement that comes, on what the attempt sees.
ghost use Rattle.std.specs.Prelude.{◌≡◌, IfOk};
ghost use Rattle.cabinet.specs.Cabinets.{source};
ghost use Rattle.cabinet.specs.Running.{ReadsHolds, ReadsTurn, ReadsValue, ReadsVariable, ReadsWork, RunFits, Runs, TurnFits, comes};
ghost use Rattle.cabinet.specs.States.{attempt_of};
ghost use Rattle.cabinet.specs.Works.{OfKind};

use crate::cabinet::Cabinet;
use crate::state::{Attempt, Turn};
use crate::work::Work;
use facts::set::VariableSet;
use memory::fault::Fault;
use memory::interface::Memory;
use program::statement::{Next, Operand, Statement, Test, Variable};

impl<'r, M: Memory> Cabinet<'r, M> {
    // The word of a variable: of a logged one its working copy, of any other what stands in memory.
    #[tactic(auto, using(crate::proofs::RunningReads::sees_copy, crate::proofs::RunningReads::sees_word))]
    fn variable(
        &self,
        attempt: &Attempt,
        logged: VariableSet,
        variable: Variable,
    ) -> Result<u16, Fault>
        ensures { ReadsVariable M.Memory self.now (attempt_of attempt.now) logged variable result }
    {
        if logged.contains(variable) {
            Ok(attempt.copies[usize::from(variable.number())])
        } else {
            self.memory.read(self.layout().variable(variable))
        }
    }

    // The value of an operand.
    #[tactic(auto, using(crate::proofs::RunningReads::sees_inputs, crate::proofs::RunningReads::sees_locals))]
    fn value(&self, attempt: &Attempt, logged: VariableSet, operand: Operand) -> Result<u16, Fault>
        ensures { ReadsValue M.Memory self.now (attempt_of attempt.now) logged operand result }
    {
        match operand {
            Operand::Number(number) => Ok(number),
            Operand::Variable(variable) => self.variable(attempt, logged, variable),
            Operand::Local(local) => Ok(attempt.locals[usize::from(local.number())]),
            Operand::Input(input) => Ok(attempt.inputs[usize::from(input.number())]),
        }
    }

    fn holds(&self, attempt: &Attempt, logged: VariableSet, test: Test) -> Result<bool, Fault>
        ensures { ReadsHolds M.Memory self.now (attempt_of attempt.now) logged test result }
    {
        let left = self.value(attempt, logged, test.left)?;
        let right = self.value(attempt, logged, test.right)?;
        Ok(test.comparison.compares(left, right))
    }

    // The work of a statement.
    #[tactic(auto, unfolding(crate::specs::Works::work_of))]
    fn work(
        &self,
        attempt: &Attempt,
        logged: VariableSet,
        statement: Statement,
    ) -> Result<Work, Fault>
        ensures kind { IfOk result (OfKind statement) }
        ensures work { ReadsWork M.Memory self.now (attempt_of attempt.now) logged statement result }
    {
        match statement {
            Statement::Stop => Ok(Work::End(Next::Stopped)),
            Statement::Set {
                target,
                left,
                operator,
                right,
            } => {
                let left = self.value(attempt, logged, left)?;
                let right = self.value(attempt, logged, right)?;
                Ok(Work::Set(target, operator.result(left, right)))
            }
            Statement::Emit(operand) => Ok(Work::Emit(self.value(attempt, logged, operand)?)),
            Statement::Skip { reach, test } => {
                let over = self.holds(attempt, logged, test)?;
                Ok(Work::Pass(if over { reach.count() } else { 0 }))
            }
            Statement::Next(task) => Ok(Work::End(Next::Task(task))),
            Statement::Choose {
                test,
                then,
                otherwise,
            } => {
                let chosen = if self.holds(attempt, logged, test)? {
                    then
                } else {
                    otherwise
                };
                Ok(Work::End(Next::Task(chosen)))
            }
        }
    }

    // The statement that comes.
    #[tactic(auto, using(crate::proofs::RunningTurns::comes_there))]
    fn coming(&self, attempt: &Attempt) -> Statement
        ensures { result ≡ comes (source self.now.rules.now) (attempt_of attempt.now) }
    {
        self.rules
            .program()
            .statement(attempt.task, attempt.at)
            .unwrap_or_default()
    }

    // The turn of the statement that comes, where these variables are logged.
    #[tactic(auto, using(crate::proofs::RunningTurns::declared_comes, crate::proofs::RunningTurns::end_fits, crate::proofs::RunningTurns::on_fits), unfolding(crate::specs::Running::turn_seen))]
    fn turn(&self, attempt: &Attempt, logged: VariableSet) -> Result<Turn, Fault>
        ensures fits { TurnFits M.Memory self.now (attempt_of attempt.now) logged result }
        ensures turn { ReadsTurn M.Memory self.now (attempt_of attempt.now) logged result }
    {
        let layout = self.layout();
        match self.work(attempt, logged, self.coming(attempt))? {
            Work::End(next) => Ok(attempt.end(layout, next, self.number()?)),
            work => Ok(attempt.go_on(layout, logged, work)),
        }
    }

    // The turn of a running step: a plain step on what the attempt sees.
    #[tactic(auto, using(crate::proofs::RunningTurns::seen_turn), unfolding(crate::specs::Running::fits, crate::specs::Running::turn_fits))]
    pub(crate) fn run(&self, attempt: &Attempt) -> Result<Turn, Fault>
        ensures fits { RunFits M.Memory self.now (attempt_of attempt.now) result }
        ensures turn { Runs M.Memory self.now (attempt_of attempt.now) result }
    {
        self.turn(attempt, self.logged(attempt.task))
    }
}
