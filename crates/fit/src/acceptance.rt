// What is told of an accepted rule.
ghost use Rattle.std.specs.Prelude.{◌≡◌, cond, [], ◌∷◌};
ghost use Rattle.std.specs.Fmt.{WritesOnOk};
ghost use Rattle.facts.specs.Sets.{has};
ghost use Rattle.program.specs.Programs.{program_source};
ghost use Rattle.grammar.specs.Names.{declared};
ghost use Rattle.rules.specs.Known.{FactsTold};
ghost use Rattle.fit.specs.Printed.{line_if, shown};

use crate::shown::Shown;
use compile::compile::Compiled;
use facts::costs::TaskFacts;
use facts::set::VariableSet;
use grammar::names::Names;
use program::statement::{Task, Variable};
use rules::rules::Rules;
use rules::rules::bounds::bounds;
use std::fmt;

// Whether the variable of a number is in a set.
#[tactic(auto, using(crate::proofs::Logging::none_above))]
fn is_logged(set: VariableSet, number: usize) -> bool
    ensures { result ≡ has set number }
{
    match u8::try_from(number).ok().and_then(Variable::new) {
        Some(variable) => set.contains(variable),
        None => false,
    }
}

// Writes a name behind a blank, if it is wanted.
fn write_if<W: fmt::Write>(is_wanted: bool, name: &[u8], f: &mut fmt::Formatter<W>) -> fmt::Result
    ensures { WritesOnOk W.write_str_gives f.old result (cond is_wanted (32 ∷ shown name.now) []) f.new }
{
    if is_wanted {
        write!(f, " {}", Shown(name))?;
    }
    Ok(())
}

// The names of the variables in a set, each behind a blank.
#[derive(Clone, Copy)]
struct NamesIn<'a, 't> {
    set: VariableSet,
    variables: &'a [&'t [u8]],
}

impl fmt::Display for NamesIn<'_, '_> {
    ghost use Rattle.std.specs.Prelude.{Some};
    ghost use Rattle.grammar.specs.Names.{bytes_of};
    ghost use Rattle.fit.specs.Printed.{names_in};

    ghost output = { λ names. Some (names_in (has names.set) 0 (bytes_of names.variables.now)) };

    #[tactic(auto, using(crate::proofs::Logging::name_written), unfolding(crate::specs::Printed::names_in))]
    fn fmt<W: fmt::Write>(&self, f: &mut fmt::Formatter<W>) -> fmt::Result {
        for (number, &name) in self.variables.iter().enumerate() {
            write_if(is_logged(self.set, number), name, f)?;
        }
        Ok(())
    }
}

// What is known of a task.
#[derive(Clone, Copy)]
struct TaskLine<'a, 't> {
    name: &'t [u8],
    variables: &'a [&'t [u8]],
    facts: TaskFacts,
}

impl fmt::Display for TaskLine<'_, '_> {
    ghost use Rattle.std.specs.Prelude.{Some};
    ghost use Rattle.grammar.specs.Names.{bytes_of};
    ghost use Rattle.fit.specs.Printed.{task_line};

    ghost output = { λ line. Some (task_line line.name.now (bytes_of line.variables.now) line.facts) };

    fn fmt<W: fmt::Write>(&self, f: &mut fmt::Formatter<W>) -> fmt::Result {
        let names = NamesIn {
            set: self.facts.logged,
            variables: self.variables,
        };
        write!(
            f,
            "task {} logged{names} emits {} direct {}",
            Shown(self.name),
            self.facts.emits,
            self.facts.direct
        )
    }
}

// What is known of the task of a number, if there is one.
#[tactic(auto, using(crate::proofs::Tasks::no_task))]
fn facts_at(rules: &Rules, number: usize) -> Option<TaskFacts>
    ensures { FactsTold (program_source rules.now.program) number result }
{
    rules.facts(Task::new(u8::try_from(number).ok()?)?)
}

// A line for each task.
#[derive(Clone, Copy)]
struct TaskLines<'a, 't> {
    rules: &'a Rules,
    names: &'a Names<'t>,
}

impl TaskLines<'_, '_> {
    // Writes the line of the task of a number, if there is one.
    #[tactic(auto, unfolding(crate::specs::Printed::line_if))]
    fn write_line<W: fmt::Write>(
        &self,
        number: usize,
        name: &[u8],
        f: &mut fmt::Formatter<W>,
    ) -> fmt::Result
        ensures { WritesOnOk W.write_str_gives f.old result (line_if name.now (declared self.now.names.now).variables (program_source self.now.rules.now.program).tasks number) f.new }
    {
        match facts_at(self.rules, number) {
            Some(facts) => {
                let line = TaskLine {
                    name,
                    variables: self.names.variables(),
                    facts,
                };
                writeln!(f, "{line}")
            }
            None => Ok(()),
        }
    }
}

impl fmt::Display for TaskLines<'_, '_> {
    ghost use Rattle.std.specs.Prelude.{Some};
    ghost use Rattle.program.specs.Programs.{program_source};
    ghost use Rattle.grammar.specs.Names.{declared};
    ghost use Rattle.fit.specs.Printed.{task_lines};

    ghost output = { λ lines. Some (task_lines (declared lines.names.now).variables (declared lines.names.now).tasks (program_source lines.rules.now.program).tasks) };

    #[tactic(auto, using(crate::proofs::Tasks::line_written), unfolding(crate::specs::Printed::task_lines))]
    fn fmt<W: fmt::Write>(&self, f: &mut fmt::Formatter<W>) -> fmt::Result {
        for (number, &name) in self.names.tasks().iter().enumerate() {
            self.write_line(number, name, f)?;
        }
        Ok(())
    }
}

// D and S of a rule.
#[derive(Clone, Copy)]
struct Bounds(u16, u16);

impl fmt::Display for Bounds {
    ghost use Rattle.std.specs.Prelude.{Some};
    ghost use Rattle.fit.specs.Printed.{bounds_line};

    ghost output = { λ bounds. Some (bounds_line bounds.0 bounds.1) };

    fn fmt<W: fmt::Write>(&self, f: &mut fmt::Formatter<W>) -> fmt::Result {
        write!(f, "bounds {} {}", self.0, self.1)
    }
}

// A rule that is accepted.
#[derive(Clone, Copy)]
pub(crate) struct Accepted<'t>(pub(crate) Compiled<'t>);

impl fmt::Display for Accepted<'_> {
    ghost use Rattle.std.specs.Prelude.{Some};
    ghost use Rattle.program.specs.Programs.{program_source};
    ghost use Rattle.grammar.specs.Names.{declared};
    ghost use Rattle.fit.specs.Printed.{accepted_text};

    ghost output = { λ accepted. Some (accepted_text (program_source accepted.0.rules.program) (declared accepted.0.names)) };

    fn fmt<W: fmt::Write>(&self, f: &mut fmt::Formatter<W>) -> fmt::Result {
        let rules = &self.0.rules;
        let (stores, steps) = bounds(rules);
        let lines = TaskLines {
            rules,
            names: &self.0.names,
        };
        write!(f, "accepted\n{lines}{}", Bounds(stores, steps))
    }
}
