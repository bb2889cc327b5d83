// What is told of a refused rule.
ghost use Rattle.std.specs.Prelude.{◌≡◌, ◌++◌, ◌∷◌};
ghost use Rattle.std.specs.Fmt.{WritesOnOk};
ghost use Rattle.text.specs.Refusals.{told_of};
ghost use Rattle.fit.specs.Printed.{mark_text};
ghost use Rattle.fit.specs.Answers.{IsInText, IsMarked};

use crate::line::{Marked, line_at};
use crate::sentence::sentence;
use std::fmt;
use text::refusal::{Refusal, Told};

// The number of a refusal, its line and its byte.
#[derive(Clone, Copy)]
struct Headline(Told);

impl fmt::Display for Headline {
    ghost use Rattle.std.specs.Prelude.{Some};
    ghost use Rattle.fit.specs.Printed.{headline};

    ghost output = { λ line. Some (headline line.0) };

    fn fmt<W: fmt::Write>(&self, f: &mut fmt::Formatter<W>) -> fmt::Result {
        let Told { number, line, byte } = self.0;
        write!(f, "refused {number} {line} {byte}")
    }
}

// A rule that is refused: what is told, the line that offends, if one is meant, and what is allowed there.
#[derive(Clone, Copy)]
pub(crate) struct Refused<'t> {
    told: Told,
    marked: Option<Marked<'t>>,
    sentence: &'static str,
}

// The line of an offence, if one is meant.
#[tactic(auto, unfolding(crate::specs::Answers::IsInText))]
fn mark_of(text: &[u8], told: Told) -> Option<Marked<'_>>
    requires { IsInText text.now told }
    ensures { IsMarked text.now told result }
{
    if told.line == 0 {
        return None;
    }
    Some(line_at(text, usize::from(told.byte)))
}

impl<'t> Refused<'t> {
    // A refusal of a text.
    pub(crate) fn new(text: &'t [u8], refusal: Refusal) -> Refused<'t>
        requires { IsInText text.now (told_of refusal) }
        ensures told { result.told ≡ told_of refusal }
        ensures marked { IsMarked text.now (told_of refusal) result.marked }
    {
        let told = refusal.told();
        let marked = mark_of(text, told);
        Refused {
            told,
            marked,
            sentence: sentence(refusal, marked),
        }
    }
}

// Writes the line of an offence, if one is meant.
fn write_mark<W: fmt::Write>(marked: Option<Marked<'_>>, f: &mut fmt::Formatter<W>) -> fmt::Result
    ensures { WritesOnOk W.write_str_gives f.old result (mark_text marked.entry) f.new }
{
    match marked {
        Some(marked) => writeln!(f, "{marked}"),
        None => Ok(()),
    }
}

impl fmt::Display for Refused<'_> {
    ghost use Rattle.std.specs.Prelude.{Some};
    ghost use Rattle.fit.specs.Printed.{refused_text};

    ghost output = { λ refused. Some (refused_text refused.told refused.marked refused.sentence.now) };

    fn fmt<W: fmt::Write>(&self, f: &mut fmt::Formatter<W>) -> fmt::Result {
        writeln!(f, "{}", Headline(self.told))?;
        write_mark(self.marked, f)?;
        f.write_str(self.sentence)
    }
}
