// The round of tasks, and where a task stands in its text.
ghost use Rattle.std.specs.Prelude.{◌≡◌};
ghost use Rattle.text.specs.Seen.{held};
ghost use Rattle.forms.specs.Forms.{form_of};
ghost use Rattle.text.specs.Reading.{lines_left};
ghost use Rattle.program.specs.Drafts.{source_of};
ghost use Rattle.rounds.specs.Source as rounds;
ghost use Rattle.rounds.specs.Rounds.{forms_of};
ghost use Rattle.compile.specs.Passes.{Checked, Fine, opens_task, task_place};

use forms::form::Form;
use program::draft::Draft;
use program::draft::build::Flaw;
use program::program::Program;
use program::statement::Task;
use text::lex::Tokens;
use text::reader::Lines;
use text::refusal::{Place, Refusal};

// Whether a line opens a task.
fn opens_task(line: &Tokens<'_>) -> bool
    ensures { result ≡ opens_task (form_of (held line.now)) }
{
    matches!(Form::of(line), Some(Form::Task(_)))
}

// Where the line of a task stands.
fn task_line(lines: Lines<'_>, task: Task) -> Place
    ensures { result ≡ task_place (lines_left lines.entry) task.number }
{
    let mut left = lines;
    let mut passed = 0;
    while let Some(line) = left.next() {
        if opens_task(&line) {
            if passed == task.number() {
                return line.place();
            }
            passed += 1;
        }
    }
    Place { line: 0, byte: 0 }
}

// The program, if each of its tasks has few emits on its paths.
pub(crate) fn check_tasks(lines: Lines<'_>, draft: Draft) -> Result<Program, Refusal>
    requires fine { Fine (lines_left lines) }
    requires says { source_of draft ≡ rounds.source_of (forms_of (lines_left lines)) }
    ensures { Checked (lines_left lines.entry) result }
{
    match Program::new(draft) {
        Ok(program) => Ok(program),
        Err(flaw) => match flaw {
            Flaw::Malformed(task) => Err(Refusal::Emits(task_line(lines, task))),
            // The rounds before leave no other flaw.
            _ => Err(Refusal::Unfinished(0)),
        },
    }
}
