// The round of task names, and the program that the lines of a text say.
ghost use Rattle.std.specs.Prelude.{◌≡◌, true, [], None};
ghost use Rattle.program.specs.Drafts.{source_of};
ghost use Rattle.text.specs.Reading.{lines_left};
ghost use Rattle.forms.specs.Seen.{line};
ghost use Rattle.grammar.specs.Names.{declared, names_of};
ghost use Rattle.rounds.specs.Rounds.{first_line, forms_of, line_round};
ghost use Rattle.compile.specs.Passes.{Adds, HasRoom, Says};

use forms::form::Form;
use forms::word::number;
use grammar::names::Names;
use program::draft::Draft;
use text::reader::Lines;
use text::refusal::Refusal;

// Puts what a line says behind what the lines before it say. The draft has room, since no line passes a limit.
fn add(names: &Names<'_>, form: Form<'_>, draft: &mut Draft) -> Result<(), Refusal>
    requires { HasRoom (source_of draft.old) (line form) }
    ensures { Adds (declared names.now) (line form.entry) (source_of draft.old) result (source_of draft.new) }
{
    match form {
        Form::Var(_, value) => {
            let _ = draft.variable(number(value.text()).unwrap_or(0));
        }
        Form::Loc(_) => {
            let _ = draft.local();
        }
        Form::Task(_) => {
            let _ = draft.task();
        }
        Form::Statement(phrase) => {
            let _ = draft.statement(names.statement(phrase)?);
        }
    }
    Ok(())
}

// The program that the lines say, where no line offends and these are their names. What offends yet is a task's name.
pub(crate) fn read_program(lines: Lines<'_>, names: &Names<'_>) -> Result<Draft, Refusal>
    requires judged { first_line line_round [] (lines_left lines) ≡ None }
    requires named { declared names.now ≡ names_of (forms_of (lines_left lines)) }
    ensures { Says (lines_left lines.entry) result }
{
    let mut left = lines;
    let mut draft = Draft::new();
    while let Some(line) = left.next() {
        // Each line has a form, since the round of lines had no offence.
        let Some(form) = Form::of(&line) else {
            continue;
        };
        add(names, form, &mut draft)?;
    }
    Ok(draft)
}
