// The keywords of lines, and the signs of operators and comparisons.
ghost use Rattle.std.specs.Prelude.{◌≡◌};
ghost use Rattle.forms.specs.Forms.{keyword_of, operator_of, comparison_of};

use program::statement::{Comparison, Operator};

#[derive(Clone, Copy, PartialEq, Eq, Debug)]
pub enum Keyword {
    Var,
    Loc,
    Task,
    Set,
    Emit,
    Skip,
    Next,
    Stop,
}

impl Keyword {
    // The keyword that these bytes are.
    pub(crate) fn of(text: &[u8]) -> Option<Keyword>
        ensures { result ≡ keyword_of text.now }
    {
        match text {
            b"var" => Some(Keyword::Var),
            b"loc" => Some(Keyword::Loc),
            b"task" => Some(Keyword::Task),
            b"set" => Some(Keyword::Set),
            b"emit" => Some(Keyword::Emit),
            b"skip" => Some(Keyword::Skip),
            b"next" => Some(Keyword::Next),
            b"stop" => Some(Keyword::Stop),
            _ => None,
        }
    }
}

pub(crate) fn operator(text: &[u8]) -> Option<Operator>
    ensures { result ≡ operator_of text.now }
{
    match text {
        b"+" => Some(Operator::Plus),
        b"-" => Some(Operator::Minus),
        b"&" => Some(Operator::And),
        b"|" => Some(Operator::Or),
        b"^" => Some(Operator::Xor),
        b"/" => Some(Operator::Quotient),
        b"%" => Some(Operator::Remainder),
        _ => None,
    }
}

pub(crate) fn comparison(text: &[u8]) -> Option<Comparison>
    ensures { result ≡ comparison_of text.now }
{
    match text {
        b"=" => Some(Comparison::Equal),
        b"<" => Some(Comparison::Less),
        _ => None,
    }
}
