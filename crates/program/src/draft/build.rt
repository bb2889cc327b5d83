// How a draft is made, one declaration or statement at a time.
ghost use Rattle.std.specs.Prelude.{◌≡◌, ◌<◌, length};
ghost use Rattle.program.specs.Sound.{total};
ghost use Rattle.program.specs.Drafts.{source_of, blank, with_task, with_statement, last_task, DeclaresVariable, DeclaresLocal, DeclaresTask, Taken};

use crate::draft::Draft;
use crate::span::Span;
use crate::statement::{Local, Statement, Task, Variable};
use thiserror::Error;
use words::list::{Short, Words};

// Why a draft takes nothing more, or is no program.
#[derive(Clone, Copy, PartialEq, Eq, Debug, Error)]
pub enum Flaw {
    #[error("a 49th variable")]
    Variables,
    #[error("a 9th local")]
    Locals,
    #[error("a 17th task")]
    Tasks,
    #[error("a 65th statement of a task, or a 257th in all")]
    Statements,
    #[error("a statement, or the end, before any task")]
    NoTask,
    #[error("task {} is not well formed", .0.number())]
    Malformed(Task),
}

impl Draft {
    // A draft with nothing in it.
    pub fn new() -> Draft
        ensures { source_of result ≡ blank }
    {
        Draft {
            statements: Short::new(),
            spans: Short::new(),
            locals: 0,
            firsts: Words::new(),
        }
    }

    // One variable more, with its first value.
    pub fn variable(&mut self, first: u16) -> Result<Variable, Flaw>
        ensures { DeclaresVariable first (source_of self.old) result (source_of self.new) }
    {
        let variable = Variable::new(self.firsts.len() as u8).ok_or(Flaw::Variables)?;
        let _ = self.firsts.push(first);
        Ok(variable)
    }

    // One local more.
    pub fn local(&mut self) -> Result<Local, Flaw>
        ensures { DeclaresLocal (source_of self.old) result (source_of self.new) }
    {
        let local = Local::new(self.locals).ok_or(Flaw::Locals)?;
        self.locals += 1;
        Ok(local)
    }

    // A span for one task more, as yet without statements.
    fn open(&mut self)
        requires { length (source_of self.old).tasks < 16 }
        ensures { source_of self.new ≡ with_task (source_of self.old) }
    {
        let first = self.total();
        let _ = self.spans.push(Span { first, size: 0 });
    }

    // One task more, which the statements that follow are for.
    pub fn task(&mut self) -> Result<Task, Flaw>
        ensures { DeclaresTask (source_of self.old) result (source_of self.new) }
    {
        let task = Task::new(self.tasks()).ok_or(Flaw::Tasks)?;
        self.open();
        Ok(task)
    }

    // Puts a statement behind the last task's.
    fn append(&mut self, statement: Statement)
        requires some { 0 < length (source_of self.old).tasks }
        requires room { length (last_task (source_of self.old).tasks) < 64 }
        requires space { total (source_of self.old).tasks < 256 }
        ensures { source_of self.new ≡ with_statement statement (source_of self.old) }
    {
        let last = self.spans.len() - 1;
        let span = self.spans.as_slice()[last];
        self.spans.set(
            last,
            Span {
                first: span.first,
                size: span.size + 1,
            },
        );
        let _ = self.statements.push(statement);
    }

    // One statement more in the last task.
    pub fn statement(&mut self, statement: Statement) -> Result<(), Flaw>
        ensures { Taken (source_of self.old) statement result (source_of self.new) }
    {
        if self.tasks() == 0 {
            return Err(Flaw::NoTask);
        }
        if self.last_size() >= 64 || self.total() >= 256 {
            return Err(Flaw::Statements);
        }
        self.append(statement);
        Ok(())
    }
}
