// What the tokens of a line are read as.
ghost use Rattle.std.specs.Prelude.{◌≡◌, map};
ghost use Rattle.std.specs.Result.{result_map_both, result_err};
ghost use Rattle.text.specs.Seen.{seen};
ghost use Rattle.forms.specs.Seen.{line, sentence};
ghost use Rattle.forms.specs.Forms.{slots};
ghost use Rattle.grammar.specs.Names.{declared};
ghost use Rattle.grammar.specs.Reading.{first_of, input_named, operand_named, reach_written, read_name, read_number, read_operand, read_reach, read_sentence, read_target, read_test, read_task, slot_offence};

use crate::names::Names;
use forms::form::{Form, Phrase};
use forms::word::{input, is_name, number, reach};
use program::statement::{Comparison, Input, Operand, Reach, Statement, Target, Task, Test};
use text::lex::Token;
use text::refusal::Refusal;

// One of in0 to in7.
#[tactic(auto, using(crate::proofs::Found::index_mapped))]
fn input_named(text: &[u8]) -> Option<Input>
    ensures { result ≡ input_named text.now }
{
    input(text)
}

// The reach that a number writes.

fn reach_written(text: &[u8]) -> Option<Reach>
    ensures { result ≡ reach_written text.now }
{
    reach(text)
}

// A number.
pub(crate) fn read_word(token: Token<'_>) -> Result<u16, Refusal>
    ensures { result ≡ read_number (seen token.entry) }
{
    number(token.text()).ok_or(Refusal::Number(token.place()))
}

// How far a skip goes.
pub(crate) fn read_distance(token: Token<'_>) -> Result<Reach, Refusal>
    ensures { result ≡ read_reach (seen token.entry) }
{
    reach_written(token.text()).ok_or(Refusal::Number(token.place()))
}

impl Names<'_> {
    // A variable or a local.
    pub(crate) fn read_target(&self, token: Token<'_>) -> Result<Target, Refusal>
        ensures { result ≡ read_target (declared self.now) (seen token.entry) }
    {
        self.target(token.text())
            .ok_or(Refusal::Unknown(token.place()))
    }

    // An input, a variable or a local.
    fn operand_named(&self, name: &[u8]) -> Option<Operand>
        ensures { result ≡ operand_named (declared self.now) name.now }
    {
        match input_named(name) {
            Some(input) => Some(Operand::Input(input)),
            None => Some(self.target(name)?.into()),
        }
    }

    // One of these, or a number.
    pub(crate) fn read_operand(&self, token: Token<'_>) -> Result<Operand, Refusal>
        ensures { result ≡ read_operand (declared self.now) (seen token.entry) }
    {
        match token {
            Token::Number(..) => Ok(Operand::Number(read_word(token)?)),
            Token::Word(text, place) | Token::Comment(text, place) | Token::Sign(text, place) => {
                self.operand_named(text).ok_or(Refusal::Unknown(place))
            }
        }
    }

    // A task.
    pub(crate) fn read_task(&self, token: Token<'_>) -> Result<Task, Refusal>
        ensures { result ≡ read_task (declared self.now) (seen token.entry) }
    {
        self.task(token.text())
            .ok_or(Refusal::Unknown(token.place()))
    }

    // A comparison of two operands.
    fn test(
        &self,
        left: Token<'_>,
        comparison: Comparison,
        right: Token<'_>,
    ) -> Result<Test, Refusal>
        ensures { result ≡ read_test (declared self.now) (seen left.entry) comparison (seen right.entry) }
    {
        Ok(Test {
            left: self.read_operand(left)?,
            comparison,
            right: self.read_operand(right)?,
        })
    }

    // A name that is not declared yet.
    pub(crate) fn check_name(&self, token: Token<'_>) -> Result<(), Refusal>
        ensures { result_err result ≡ result_err (read_name (declared self.now) (seen token.entry)) }
    {
        if is_name(token.text()) && !self.has(token.text()) {
            Ok(())
        } else {
            Err(Refusal::Name(token.place()))
        }
    }

    // A statement, from the left.
    pub fn statement(&self, phrase: Phrase<'_>) -> Result<Statement, Refusal>
        ensures { result ≡ read_sentence (declared self.now) (sentence phrase.entry) }
    {
        Ok(match phrase {
            Phrase::Set(target, left, operator, right) => Statement::Set {
                target: self.read_target(target)?,
                left: self.read_operand(left)?,
                operator,
                right: self.read_operand(right)?,
            },
            Phrase::Emit(operand) => Statement::Emit(self.read_operand(operand)?),
            Phrase::Skip(reach, left, comparison, right) => Statement::Skip {
                reach: read_distance(reach)?,
                test: self.test(left, comparison, right)?,
            },
            Phrase::Next(task) => Statement::Next(self.read_task(task)?),
            Phrase::Choose(then, left, comparison, right, otherwise) => {
                let then = self.read_task(then)?;
                let test = self.test(left, comparison, right)?;
                Statement::Choose {
                    test,
                    then,
                    otherwise: self.read_task(otherwise)?,
                }
            }
            Phrase::Stop => Statement::Stop,
        })
    }
}
