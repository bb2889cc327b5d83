// What a draft holds, for the program made of it.
ghost use Rattle.std.specs.Prelude.{◌≡◌, ◌<◌, ◌≤◌, MatchOption, length};
ghost use Rattle.std.specs.List.{slice_get};
ghost use Rattle.words.specs.Lists.{items};
ghost use Rattle.program.specs.Sound.{task_of, sound_at, total};
ghost use Rattle.program.specs.Drafts.{IsFirstFlawed, NoneIsFlawed, source_of, last_task};

use crate::check::Scope;
use crate::draft::Draft;
use crate::span::Span;
use crate::statement::{Statement, Task};
use words::list::Words;

impl Draft {
    // How many tasks there are.
    pub(crate) fn tasks(&self) -> u8
        ensures value { result ≡ length (source_of self.now).tasks }
        ensures bound { result ≤ 16 }
    {
        self.spans.len() as u8
    }

    // How many statements the last task has.
    pub(crate) fn last_size(&self) -> u16
        requires { 0 < length (source_of self.now).tasks }
        ensures { result ≡ length (last_task (source_of self.now).tasks) }
    {
        self.spans.as_slice()[self.spans.len() - 1].size
    }

    // How many statements there are in all.
    pub(crate) fn total(&self) -> u16
        ensures { result ≡ total (source_of self.now).tasks }
    {
        self.statements.len() as u16
    }

    // The variables' first values.
    pub(crate) fn firsts(&self) -> Words<48>
        ensures { items result ≡ (source_of self.now).firsts }
    {
        self.firsts
    }

    // The statements of a task; one that is not there has none.
    pub(crate) fn statements(&self, task: u8) -> &[Statement]
        ensures value { result.now ≡ task_of (source_of self.now) task }
        ensures bound { length result.now ≤ 64 }
    {
        let none = Span { first: 0, size: 0 };
        let span = self
            .spans
            .as_slice()
            .get(task as usize)
            .copied()
            .unwrap_or(none);
        let first = span.first as usize;
        let table = self.statements.as_slice();
        &table[first..first + span.size as usize]
    }

    // The statement at a place of a task, if there is one.
    pub(crate) fn statement_at(&self, task: Task, place: usize) -> Option<Statement>
        ensures { result ≡ slice_get (task_of (source_of self.now) task.number) place }
    {
        self.statements(task.number()).get(place).copied()
    }

    // The first task that is not well formed.
    pub(crate) fn first_flawed(&self) -> Option<u8>
        ensures { MatchOption result (NoneIsFlawed (source_of self.now)) (IsFirstFlawed (source_of self.now)) }
    {
        (0..self.tasks()).find(|&task| !self.task_sound(task))
    }

    // Whether a task is well formed.
    pub(crate) fn task_sound(&self, task: u8) -> bool
        ensures { result ≡ sound_at (source_of self.now) task }
    {
        let scope = Scope {
            variables: self.firsts.len() as u8,
            locals: self.locals,
            tasks: self.tasks(),
        };
        scope.makes_well_formed(self.statements(task))
    }
}
