// How a line is judged by those before it.
ghost use Rattle.std.specs.Prelude.{◌≡◌, ◌≤◌, None, [], false, true, length};
ghost use Rattle.std.specs.Result.{result_err};
ghost use Rattle.text.specs.Seen.{held, seen};
ghost use Rattle.forms.specs.Seen.{line, sentence};
ghost use Rattle.forms.specs.Forms.{slots, slots_of};
ghost use Rattle.grammar.specs.Names.{declared};
ghost use Rattle.grammar.specs.Reading.{first_of, slot_offence};
ghost use Rattle.grammar.specs.Judging.{allowed, ends, full, is_unfinished, leaves_open, line_offence, point_of};
ghost use Rattle.grammar.specs.Standing.{Judges, Takes, after, point};

use crate::names::Names;
use crate::reading::{read_distance, read_word};
use crate::standing::Standing;
use forms::form::{Form, Phrase};
use text::lex::Tokens;
use text::refusal::Refusal;

// Whether a statement is an ending.
pub fn is_ending(phrase: Phrase<'_>) -> bool
    ensures { result ≡ ends (sentence phrase.entry) }
{
    match phrase {
        Phrase::Set(..) | Phrase::Emit(_) | Phrase::Skip(..) => false,
        Phrase::Next(_) | Phrase::Choose(..) | Phrase::Stop => true,
    }
}

// Whether a task is without its ending behind a line.
fn leaves_open(form: Form<'_>) -> bool
    ensures { result ≡ leaves_open (line form.entry) }
{
    match form {
        Form::Var(..) | Form::Loc(_) => false,
        Form::Task(_) => true,
        Form::Statement(phrase) => !is_ending(phrase),
    }
}

impl Names<'_> {
    // Reads a statement's tokens from the left, but for the names of tasks.
    fn check_phrase(&self, phrase: Phrase<'_>) -> Result<(), Refusal>
        ensures { result_err result ≡ first_of (slot_offence (declared self.now)) (slots_of (sentence phrase.entry)) }
    {
        match phrase {
            Phrase::Set(target, left, _, right) => {
                self.read_target(target)?;
                self.read_operand(left)?;
                self.read_operand(right)?;
            }
            Phrase::Emit(operand) => {
                self.read_operand(operand)?;
            }
            Phrase::Skip(reach, left, _, right) => {
                read_distance(reach)?;
                self.read_operand(left)?;
                self.read_operand(right)?;
            }
            Phrase::Choose(_, left, _, right, _) => {
                self.read_operand(left)?;
                self.read_operand(right)?;
            }
            Phrase::Next(_) | Phrase::Stop => {}
        }
        Ok(())
    }

    // Reads a line's tokens from the left, but for the names of tasks.
    fn check(&self, form: Form<'_>) -> Result<(), Refusal>
        ensures { result_err result ≡ first_of (slot_offence (declared self.now)) (slots (line form.entry)) }
    {
        match form {
            Form::Var(name, value) => {
                self.check_name(name)?;
                read_word(value)?;
                Ok(())
            }
            Form::Loc(name) | Form::Task(name) => self.check_name(name),
            Form::Statement(phrase) => self.check_phrase(phrase),
        }
    }
}

impl<'t> Standing<'t> {
    // Before the first line.
    pub fn new() -> Standing<'t>
        ensures { point result ≡ point_of [] }
    {
        Standing {
            names: Names::new(),
            statements: 0,
            size: 0,
            unfinished: false,
        }
    }

    // The names that the lines declare.
    pub fn names(&self) -> Names<'t>
        ensures { declared result ≡ (point self.now).names }
    {
        self.names
    }

    // Whether there is no task, or the last one has no ending.
    pub fn is_unfinished(&self) -> bool
        ensures { result ≡ is_unfinished (point self.now) }
    {
        self.names.tasks().is_empty() || self.unfinished
    }

    // Whether such a line may come here.
    fn allows(&self, form: Form<'_>) -> bool
        ensures { result ≡ allowed (point self.now) (line form.entry) }
    {
        match form {
            Form::Var(..) | Form::Loc(_) => self.names.tasks().is_empty(),
            Form::Task(_) => !self.unfinished,
            Form::Statement(_) => self.unfinished,
        }
    }

    // Whether one more of its kind passes a limit.
    fn is_full(&self, form: Form<'_>) -> bool
        ensures { result ≡ full (point self.now) (line form.entry) }
    {
        match form {
            Form::Var(..) => self.names.variables().len() >= 48,
            Form::Loc(_) => self.names.locals().len() >= 8,
            Form::Task(_) => self.names.tasks().len() >= 16,
            Form::Statement(_) => self.size >= 64 || self.statements >= 256,
        }
    }

    // The form of a line, or its offence.
    pub fn judge(&self, tokens: &Tokens<'t>) -> Result<Form<'t>, Refusal>
        ensures { Judges (point self.now) (held tokens.now) result }
    {
        let place = tokens.place();
        let form = Form::of(tokens).ok_or(Refusal::Form(place))?;
        if !self.allows(form) {
            return Err(Refusal::Form(place));
        }
        if self.is_full(form) {
            return Err(Refusal::Limit(place));
        }
        self.names.check(form)?;
        Ok(form)
    }

    // Goes on behind a line.
    fn add(&mut self, form: Form<'t>)
        requires { full (point self.old) (line form) ≡ false }
        ensures { point self.new ≡ after (line form.entry) (point self.old) }
    {
        self.unfinished = leaves_open(form);
        match form {
            Form::Var(name, _) => self.names.add_variable(name.text()),
            Form::Loc(name) => self.names.add_local(name.text()),
            Form::Task(name) => self.names.add_task(name.text()),
            Form::Statement(_) => {
                self.statements += 1;
                self.size += 1;
                return;
            }
        }
        self.size = 0;
    }

    // Judges a line and goes on behind it.
    pub fn take(&mut self, tokens: &Tokens<'t>) -> Result<(), Refusal>
        ensures { Takes (point self.old) (held tokens.now) result (point self.new) }
    {
        let form = self.judge(tokens)?;
        self.add(form);
        Ok(())
    }
}
