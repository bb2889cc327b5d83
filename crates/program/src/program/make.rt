// How a program is made of a draft, and what it holds.
ghost use Rattle.std.specs.Prelude.{◌≡◌, length};
ghost use Rattle.std.specs.List.{slice_get};
ghost use Rattle.words.specs.Lists.{items};
ghost use Rattle.program.specs.Drafts.{source_of};
ghost use Rattle.program.specs.Sound.{task_of};
ghost use Rattle.program.specs.Programs.{program_source, Made};

use crate::draft::Draft;
use crate::draft::build::Flaw;
use crate::program::Program;
use crate::statement::{Statement, Task};
use words::list::Words;

impl Program {
    // The draft as a program, if it has a task and every task is well formed.
    #[tactic(auto, using(crate::proofs::Programs::all_checked))]
    pub fn new(draft: Draft) -> Result<Program, Flaw>
        ensures { Made (source_of draft) result }
    {
        if draft.tasks() == 0 {
            return Err(Flaw::NoTask);
        }
        match draft.first_flawed() {
            Some(task) => Err(Flaw::Malformed(Task::new(task).unwrap())),
            None => Ok(Program { draft }),
        }
    }

    // The variables' first values.
    pub fn firsts(&self) -> Words<48>
        ensures { items result ≡ (program_source self.now).firsts }
    {
        self.draft.firsts()
    }

    // The statements of a task; one that is not there has none.
    pub fn statements(&self, task: Task) -> &[Statement]
        ensures { result.now ≡ task_of (program_source self.now) task.number }
    {
        self.draft.statements(task.number())
    }

    // The statement at a place of a task, if there is one.
    pub fn statement(&self, task: Task, place: usize) -> Option<Statement>
        ensures { result ≡ slice_get (task_of (program_source self.now) task.number) place }
    {
        self.draft.statement_at(task, place)
    }
}
