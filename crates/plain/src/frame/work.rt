// A statement at work on a frame.
ghost use Rattle.std.specs.Prelude.{◌≡◌, ◌+◌, ◌≤◌, [], length};
ghost use Rattle.words.specs.Lists.{items};
ghost use Rattle.program.specs.Shapes.{emits};
ghost use Rattle.program.specs.Runs.{value, holds, assign, after, passes};
ghost use Rattle.plain.specs.Frames.{run_of};
ghost use Rattle.plain.specs.Plain.{begun};

use crate::frame::Frame;
use program::statement::{Next, Operand, Statement, Target, Test};
use words::list::Words;

impl Frame {
    // What a visit begins with: the locals 0, the record empty.
    pub(crate) fn new(row: &[u16; 8], variables: Words<48>) -> Frame
        ensures { run_of result ≡ begun row.now (items variables) }
    {
        Frame {
            inputs: *row,
            variables,
            locals: [0; 8],
            emitted: Words::new(),
            chosen: Next::Stopped,
        }
    }

    pub(crate) fn value(&self, operand: Operand) -> u16
        ensures { result ≡ value (run_of self.now) operand }
    {
        match operand {
            Operand::Number(number) => number,
            Operand::Variable(variable) => self.variables.get(variable.number() as usize),
            Operand::Local(local) => self.locals[local.number() as usize],
            Operand::Input(input) => self.inputs[input.number() as usize],
        }
    }

    fn holds(&self, test: Test) -> bool
        ensures { result ≡ holds (run_of self.now) test }
    {
        test.comparison
            .compares(self.value(test.left), self.value(test.right))
    }

    fn assign(&mut self, target: Target, word: u16)
        ensures { run_of self.new ≡ assign target word (run_of self.old) }
    {
        match target {
            Target::Variable(variable) => self.variables.set(variable.number() as usize, word),
            Target::Local(local) => self.locals[local.number() as usize] = word,
        }
    }

    // How many statements behind it are passed over.
    pub(crate) fn passes(&self, statement: Statement) -> u8
        ensures { result ≡ passes statement (run_of self.now) }
    {
        match statement {
            Statement::Skip { reach, test } => { if self.holds(test) { reach.count() } else { 0 } }
            _ => 0,
        }
    }

    // The statement's work, for which the record has room.
    pub(crate) fn work(&mut self, statement: Statement)
        requires { length (items self.old.emitted) + emits statement ≤ 8 }
        ensures { run_of self.new ≡ after statement (run_of self.old) }
    {
        match statement {
            Statement::Stop => self.chosen = Next::Stopped,
            Statement::Set {
                target,
                left,
                operator,
                right,
            } => {
                let word = operator.result(self.value(left), self.value(right));
                self.assign(target, word);
            }
            Statement::Emit(operand) => {
                let word = self.value(operand);
                let _ = self.emitted.push(word);
            }
            Statement::Skip { .. } => {}
            Statement::Next(task) => self.chosen = Next::Task(task),
            Statement::Choose {
                test,
                then,
                otherwise,
            } => {
                let task = if self.holds(test) { then } else { otherwise };
                self.chosen = Next::Task(task);
            }
        }
    }
}
