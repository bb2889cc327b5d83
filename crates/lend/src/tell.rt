// Statements in words, with the values that they read and write.
use grammar::names::Names;
use plain::visit::Visit;
use program::statement::{Index, Operand, Statement, Target, Task, Test};
use std::fmt;

// A name, which is part of a text.
#[derive(Clone, Copy)]
pub(crate) struct Name<'t>(pub(crate) &'t [u8]);

impl fmt::Display for Name<'_> {
    fn fmt<W: fmt::Write>(&self, f: &mut fmt::Formatter<W>) -> fmt::Result {
        for &byte in self.0 {
            f.write_char(char::from(byte))?;
        }
        Ok(())
    }
}

fn name_of<'t, const N: u8>(index: Index<N>, names: &[&'t [u8]]) -> Name<'t> {
    Name(names.get(index.number() as usize).copied().unwrap_or(b"?"))
}

// What a program is made of, by the names that its text gives.
#[derive(Clone, Copy)]
struct Named<'n, 't, T>(T, &'n Names<'t>);

impl fmt::Display for Named<'_, '_, Operand> {
    fn fmt<W: fmt::Write>(&self, f: &mut fmt::Formatter<W>) -> fmt::Result {
        match self.0 {
            Operand::Number(number) => write!(f, "{number}"),
            Operand::Variable(variable) => write!(f, "{}", name_of(variable, self.1.variables())),
            Operand::Local(local) => write!(f, "{}", name_of(local, self.1.locals())),
            Operand::Input(input) => write!(f, "in{}", input.number()),
        }
    }
}

impl fmt::Display for Named<'_, '_, Target> {
    fn fmt<W: fmt::Write>(&self, f: &mut fmt::Formatter<W>) -> fmt::Result {
        write!(f, "{}", Named(Operand::from(self.0), self.1))
    }
}

impl fmt::Display for Named<'_, '_, Task> {
    fn fmt<W: fmt::Write>(&self, f: &mut fmt::Formatter<W>) -> fmt::Result {
        write!(f, "{}", name_of(self.0, self.1.tasks()))
    }
}

impl fmt::Display for Named<'_, '_, Test> {
    fn fmt<W: fmt::Write>(&self, f: &mut fmt::Formatter<W>) -> fmt::Result {
        let Test {
            left,
            comparison,
            right,
        } = self.0;
        write!(
            f,
            "{} {comparison} {}",
            Named(left, self.1),
            Named(right, self.1)
        )
    }
}

impl fmt::Display for Named<'_, '_, Statement> {
    fn fmt<W: fmt::Write>(&self, f: &mut fmt::Formatter<W>) -> fmt::Result {
        let names = self.1;
        match self.0 {
            Statement::Stop => f.write_str("stop"),
            Statement::Set {
                target,
                left,
                operator,
                right,
            } => write!(
                f,
                "set {} {} {operator} {}",
                Named(target, names),
                Named(left, names),
                Named(right, names)
            ),
            Statement::Emit(operand) => write!(f, "emit {}", Named(operand, names)),
            Statement::Skip { reach, test } => write!(
                f,
                "skip {} {}",
                reach.count(),
                Named(test, names)
            ),
            Statement::Next(task) => write!(f, "next {}", Named(task, names)),
            Statement::Choose {
                test,
                then,
                otherwise,
            } => write!(
                f,
                "next {} {} {}",
                Named(then, names),
                Named(test, names),
                Named(otherwise, names)
            ),
        }
    }
}

// The statement that comes at a visit, with what it reads and writes.
#[derive(Clone, Copy)]
pub(crate) struct Told<'a, 'p, 'n, 't> {
    pub(crate) statement: Statement,
    pub(crate) visit: &'a Visit<'p>,
    pub(crate) names: &'n Names<'t>,
}

impl fmt::Display for Told<'_, '_, '_, '_> {
    fn fmt<W: fmt::Write>(&self, f: &mut fmt::Formatter<W>) -> fmt::Result {
        let visit = self.visit;
        let names = self.names;
        write!(f, "{}: ", Named(self.statement, names))?;
        match self.statement {
            Statement::Stop => f.write_str("no visit follows"),
            Statement::Set {
                target,
                left,
                right,
                ..
            } => {
                // The visit one statement on, where the target has the new word.
                let mut after = *visit;
                after.step();
                write!(
                    f,
                    "reads {} and {}, ",
                    visit.value(left),
                    visit.value(right)
                )?;
                write!(
                    f,
                    "writes {} to {}",
                    after.value(target.into()),
                    Named(target, names)
                )
            }
            Statement::Emit(operand) => {
                let word = visit.value(operand);
                write!(f, "reads {word}, adds {word} to the record")
            }
            Statement::Skip { test, .. } | Statement::Choose { test, .. } => {
                write!(
                    f,
                    "reads {} and {}",
                    visit.value(test.left),
                    visit.value(test.right)
                )
            }
            Statement::Next(task) => write!(
                f,
                "task {} comes at the next visit",
                Named(task, names)
            ),
        }
    }
}
