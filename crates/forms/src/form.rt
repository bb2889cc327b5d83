// The form of a line, with the tokens that are still to be read.
ghost use Rattle.std.specs.Prelude.{◌≡◌, map};
ghost use Rattle.std.specs.Option.{option_map};
ghost use Rattle.text.specs.Seen.{seen, held};
ghost use Rattle.forms.specs.Forms.{form_of, next_behind, behind, FormsTell};
ghost use Rattle.forms.specs.Seen.{line, sentence};

use crate::keyword::{Keyword, comparison, operator};
use program::statement::{Comparison, Operator};
use text::lex::{Token, Tokens};

// A statement.
#[derive(Clone, Copy)]
pub enum Phrase<'t> {
    Set(Token<'t>, Token<'t>, Operator, Token<'t>),
    Emit(Token<'t>),
    Skip(Token<'t>, Token<'t>, Comparison, Token<'t>),
    Next(Token<'t>),
    Choose(Token<'t>, Token<'t>, Comparison, Token<'t>, Token<'t>),
    Stop,
}

#[derive(Clone, Copy)]
pub enum Form<'t> {
    Var(Token<'t>, Token<'t>),
    Loc(Token<'t>),
    Task(Token<'t>),
    Statement(Phrase<'t>),
}

impl<'t> Phrase<'t> {
    // What stands behind `next`, alone or with a comparison.
    fn next(rest: &[Token<'t>]) -> Option<Phrase<'t>>
        ensures { option_map sentence result ≡ next_behind (map seen rest.now) }
    {
        match rest {
            [task] => Some(Phrase::Next(*task)),
            [then, left, sign, right, otherwise] => {
                let sign = comparison(sign.text())?;
                Some(Phrase::Choose(*then, *left, sign, *right, *otherwise))
            }
            _ => None,
        }
    }
}

impl<'t> Form<'t> {
    // What stands behind a keyword.
    fn behind(keyword: Keyword, rest: &[Token<'t>]) -> Option<Form<'t>>
        ensures { option_map line result ≡ behind (Some keyword) (map seen rest.now) }
    {
        match (keyword, rest) {
            (Keyword::Var, [name, value]) => Some(Form::Var(*name, *value)),
            (Keyword::Loc, [name]) => Some(Form::Loc(*name)),
            (Keyword::Task, [name]) => Some(Form::Task(*name)),
            (Keyword::Set, [target, left, sign, right]) => {
                let sign = operator(sign.text())?;
                Some(Form::Statement(Phrase::Set(*target, *left, sign, *right)))
            }
            (Keyword::Emit, [operand]) => Some(Form::Statement(Phrase::Emit(*operand))),
            (Keyword::Skip, [reach, left, sign, right]) => {
                let sign = comparison(sign.text())?;
                Some(Form::Statement(Phrase::Skip(*reach, *left, sign, *right)))
            }
            (Keyword::Next, rest) => Some(Form::Statement(Phrase::next(rest)?)),
            (Keyword::Stop, []) => Some(Form::Statement(Phrase::Stop)),
            _ => None,
        }
    }

    // The form of a line, if it has one.
    #[tactic(auto, using(crate::proofs::Slots::forms_tell), unfolding(crate::specs::Forms::form_of))]
    pub fn of(tokens: &Tokens<'t>) -> Option<Form<'t>>
        ensures value { option_map line result ≡ form_of (held tokens.now) }
        ensures law { FormsTell }
    {
        match tokens.as_slice() {
            [] => None,
            [first, rest @ ..] => Form::behind(Keyword::of(first.text())?, rest),
        }
    }
}
