// The line of a text in which a byte stands, and a mark under the byte.
ghost use Rattle.std.specs.Prelude.{◌≡◌, ◌≤◌, length};
ghost use Rattle.std.specs.List.{prefix_len, suffix_len};
ghost use Rattle.text.specs.Bytes.{in_line};
ghost use Rattle.fit.specs.Lines.{IsLineAt};

use crate::shown::{Blanks, Shown};
use std::fmt;

// A line, and how many of its bytes stand before the one that is meant.
#[derive(Clone, Copy)]
pub(crate) struct Marked<'t> {
    pub(crate) line: &'t [u8],
    pub(crate) column: usize,
}

// How many of these bytes stand in the line of what follows them.
fn column_of(before: &[u8]) -> usize
    ensures value { result ≡ suffix_len in_line before.now }
    ensures within { result ≤ length before.now }
{
    before
        .iter()
        .rev()
        .take_while(|&&byte| byte != b'\n')
        .count()
}

// How many bytes the first line has.
fn line_len(text: &[u8]) -> usize
    ensures value { result ≡ prefix_len in_line text.now }
    ensures within { result ≤ length text.now }
{
    text.iter().take_while(|&&byte| byte != b'\n').count()
}

// The line of the byte at a place; behind the text's end, its last line.
#[tactic(auto, using(crate::proofs::Standing::line_there))]
pub(crate) fn line_at(text: &[u8], place: usize) -> Marked<'_>
    ensures { place ≤ length text.now → IsLineAt text.now place result.line.now result.column }
{
    let (before, _) = text.split_at(place.min(text.len()));
    let column = column_of(before);
    let (_, rest) = text.split_at(before.len() - column);
    let (line, _) = rest.split_at(line_len(rest));
    Marked { line, column }
}

impl fmt::Display for Marked<'_> {
    ghost use Rattle.std.specs.Prelude.{Some};
    ghost use Rattle.fit.specs.Printed.{marked_line};

    ghost output = { λ m. Some (marked_line m.line.now m.column) };

    fn fmt<W: fmt::Write>(&self, f: &mut fmt::Formatter<W>) -> fmt::Result {
        write!(f, "{}\n{}^", Shown(self.line), Blanks(self.column))
    }
}
