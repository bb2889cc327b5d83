// The tokens of a line, which are parts of the text.
ghost use Rattle.std.specs.Prelude.{◌≡◌, ◌≤◌, length};

use crate::refusal::Place;

pub mod line;

// A part of the text, by its first byte: a letter, a digit, a `#` or another.
#[derive(Clone, Copy)]
pub enum Token<'t> {
    Word(&'t [u8], Place),
    Number(&'t [u8], Place),
    Comment(&'t [u8], Place),
    Sign(&'t [u8], Place),
}

// The tokens of a line, of which no more than seven are kept: no form has more than six.
#[derive(Clone, Copy)]
pub struct Tokens<'t> {
    tokens: [Token<'t>; 7],
    count: u8,
    ghost full: { length tokens ≡ 7 },
    ghost few: { count ≤ 7 },
}
