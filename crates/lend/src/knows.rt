// What is known of the rule's tasks before any visit: what they log, and what a visit can cost.
use crate::tell::Name;
use compile::compile::Compiled;
use facts::set::VariableSet;
use program::statement::{Task, Variable};
use rules::rules::bounds::bounds;
use std::fmt;

// The names of a set's variables, with blanks between them.
#[derive(Clone, Copy)]
struct Listed<'a, 't> {
    set: VariableSet,
    names: &'a [&'t [u8]],
}

impl fmt::Display for Listed<'_, '_> {
    fn fmt<W: fmt::Write>(&self, f: &mut fmt::Formatter<W>) -> fmt::Result {
        let mut blank = "";
        for (number, &name) in self.names.iter().enumerate() {
            let Some(variable) = u8::try_from(number).ok().and_then(Variable::new) else {
                continue;
            };
            if self.set.contains(variable) {
                write!(f, "{blank}{}", Name(name))?;
                blank = " ";
            }
        }
        Ok(())
    }
}

pub(crate) fn tell(rt: &impl Print, compiled: &Compiled<'_>) -> anyhow::Result<()> {
    let Compiled { rules, names } = compiled;
    for (number, &name) in names.tasks().iter().enumerate() {
        let Some(facts) = u8::try_from(number)
            .ok()
            .and_then(Task::new)
            .and_then(|task| rules.facts(task))
        else {
            continue;
        };
        println!(rt;
            "Task {} logs {}, emits at most {} and sets at most {} directly.",
            Name(name),
            Listed {
                set: facts.logged,
                names: names.variables()
            },
            facts.emits,
            facts.direct
        )?;
    }
    let (stores, steps) = bounds(rules);
    println!(rt; "So a visit takes at most {stores} stores and {steps} steps.")?;
    Ok(())
}
