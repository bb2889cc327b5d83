// From a text to the rules that it says, or why it is refused.
ghost use Rattle.std.specs.Prelude.{◌≡◌, IfOk, length};
ghost use Rattle.std.specs.Result.{result_err};
ghost use Rattle.facts.specs.Most.{no_counts};
ghost use Rattle.facts.specs.Touched.{untouched};
ghost use Rattle.text.specs.Reading.{lines_left};
ghost use Rattle.rounds.specs.Rounds.{text_offence};
ghost use Rattle.rounds.specs.Laws.{TextTold};
ghost use Rattle.compile.specs.Compiling.{Leaves, ReadsText, SaysText, refusal_of, too_short};

use crate::ending::check_tasks;
use crate::passes::{check_skips, judge_lines};
use crate::reading::read_program;
use crate::scratch::clear;
use facts::most::Counts;
use facts::pass::LEAST_SCRATCH;
use facts::touched::Touches;
use grammar::names::Names;
use program::program::Program;
use rules::rules::Rules;
use text::reader::{Lines, Text};
use text::refusal::Refusal;

// What a text is compiled to: rules, and the names that the text gives to what they have.
#[derive(Clone, Copy)]
pub struct Compiled<'t> {
    pub rules: Rules,
    pub names: Names<'t>,
}

// The rounds over the lines of a text.
fn read(text: Text<'_>) -> Result<(Program, Names<'_>), Refusal>
    ensures { ReadsText text.entry.bytes.now result }
{
    let lines = Lines::of(text);
    let standing = judge_lines(lines)?;
    if standing.is_unfinished() {
        return Err(Refusal::Unfinished(text.len()));
    }
    let names = standing.names();
    let draft = read_program(lines, &names)?;
    check_skips(lines)?;
    let program = check_tasks(lines, draft)?;
    Ok((program, names))
}

// The rounds over a text.
#[tactic(auto, using(crate::proofs::Whole::unreadable, crate::proofs::Whole::readable))]
fn read_bytes(text: &[u8]) -> Result<(Program, Names<'_>), Refusal>
    ensures refusal { result_err result ≡ text_offence text.now }
    ensures says { IfOk result (λ read. SaysText text.now read.0 read.1) }
{
    read(Text::new(text)?)
}

// Compiles a text, with two scratches of at least 64 facts each.
#[tactic(auto, using(rounds::proofs::Laws::text_told))]
pub fn compile<'t>(
    text: &'t [u8],
    touched: &mut [Touches],
    most: &mut [Counts],
) -> Result<Compiled<'t>, Refusal>
    ensures refusal { result_err result ≡ refusal_of (length touched.old) (length most.old) text.now }
    ensures says { IfOk result (λ compiled. SaysText text.now compiled.rules.program compiled.names) }
    ensures touched { Leaves (too_short (length touched.old) (length most.old)) untouched touched.old touched.new }
    ensures most { Leaves (too_short (length touched.old) (length most.old)) no_counts most.old most.new }
    ensures law { TextTold text.now }
{
    if touched.len() < LEAST_SCRATCH || most.len() < LEAST_SCRATCH {
        return Err(Refusal::ShortScratch);
    }
    clear(touched, most);
    let (program, names) = read_bytes(text)?;
    match Rules::new(program, touched, most) {
        Ok(rules) => Ok(Compiled { rules, names }),
        // Both are long enough.
        Err(_) => Err(Refusal::ShortScratch),
    }
}
