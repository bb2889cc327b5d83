// The rounds of lines and of skips.
ghost use Rattle.std.specs.Prelude.{◌≡◌, true, [], None, take};
ghost use Rattle.std.specs.List.{list_any};
ghost use Rattle.std.specs.Result.{result_err};
ghost use Rattle.text.specs.Reading.{lines_left};
ghost use Rattle.text.specs.Seen.{held};
ghost use Rattle.forms.specs.Forms.{form_of};
ghost use Rattle.rounds.specs.Rounds.{first_line, forms_of, is_ending, line_round, passed_behind, skip_round};
ghost use Rattle.compile.specs.Passes.{Judged, all_formed, ends_task};

use forms::form::{Form, Phrase};
use forms::word::reach;
use grammar::standing::Standing;
use grammar::standing::judge::is_ending;
use program::statement::Reach;
use text::lex::Tokens;
use text::reader::Lines;
use text::refusal::Refusal;

// The round of lines: what stands behind the last of them.
#[tactic(auto, using(crate::proofs::Judging::judging_starts))]
pub(crate) fn judge_lines(lines: Lines<'_>) -> Result<Standing<'_>, Refusal>
    ensures { Judged (lines_left lines.entry) result }
{
    let mut left = lines;
    let mut standing = Standing::new();
    while let Some(line) = left.next() {
        standing.take(&line)?;
    }
    Ok(standing)
}

// How many statements a line may pass over.
fn passed_by(line: &Tokens<'_>) -> u8
    ensures { result ≡ passed_behind (form_of (held line.now)) }
{
    match Form::of(line) {
        Some(Form::Statement(Phrase::Skip(count, ..))) => {
            reach(count.text()).map_or(0, Reach::count)
        }
        _ => 0,
    }
}

// Whether a line is an ending.
fn is_ending_line(line: &Tokens<'_>) -> bool
    ensures { result ≡ ends_task (form_of (held line.now)) }
{
    match Form::of(line) {
        Some(Form::Statement(phrase)) => is_ending(phrase),
        _ => false,
    }
}

// Whether an ending is among the next lines, of which so many are looked at.
fn passes_ending(lines: Lines<'_>, count: u8) -> bool
    requires { all_formed (lines_left lines) ≡ true }
    ensures { result ≡ list_any is_ending (take count (forms_of (lines_left lines.entry))) }
{
    let mut left = lines;
    for _ in 0..count {
        match left.next() {
            Some(line) if is_ending_line(&line) => return true,
            Some(_) => {}
            None => return false,
        }
    }
    false
}

// The round of skips.
pub(crate) fn check_skips(lines: Lines<'_>) -> Result<(), Refusal>
    requires { first_line line_round [] (lines_left lines) ≡ None }
    ensures { result_err result ≡ first_line skip_round [] (lines_left lines.entry) }
{
    let mut left = lines;
    while let Some(line) = left.next() {
        if passes_ending(left, passed_by(&line)) {
            return Err(Refusal::Skip(line.place()));
        }
    }
    Ok(())
}
