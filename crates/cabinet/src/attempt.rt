// How an attempt goes on.
ghost use Rattle.std.specs.Prelude.{◌≡◌};
ghost use Rattle.cabinet.specs.Running.{end_turn, on_turn, turn_of};
ghost use Rattle.cabinet.specs.States.{attempt_of};
ghost use Rattle.cabinet.specs.Works.{set_copy, worked};

use crate::state::{Attempt, State, Turn};
use crate::work::Work;
use facts::set::VariableSet;
use layout::layout::Layout;
use program::statement::{Next, Target, Variable};

impl Attempt {
    // Alters the working copy of a variable, and marks it as set.
    fn set_copy(&mut self, variable: Variable, word: u16)
        ensures { attempt_of self.new ≡ set_copy variable.number word (attempt_of self.old) }
    {
        self.copies[usize::from(variable.number())] = word;
        self.set = self.set.union(VariableSet::single(variable));
    }

    // Goes on behind a statement with this work, which is no end.
    #[tactic(auto, unfolding(crate::specs::Works::worked))]
    pub(crate) fn take(&mut self, logged: VariableSet, work: Work)
        ensures { attempt_of self.new ≡ worked logged work (attempt_of self.old) }
    {
        match work {
            Work::Set(Target::Variable(variable), word) => {
                if logged.contains(variable) {
                    self.set_copy(variable, word);
                }
            }
            Work::Set(Target::Local(local), word) => self.locals[usize::from(local.number())] =
                word,
            Work::Emit(word) => {
                let _ = self.emitted.push(word);
            }
            Work::Pass(_) | Work::End(_) => {}
        }
        self.at = self.at.saturating_add(1 + usize::from(work.passed()));
    }

    // The turn of a work that is no end: the store that it makes, and the attempt behind it.
    #[tactic(auto, unfolding(crate::specs::Running::on_turn))]
    pub(crate) fn go_on(&self, layout: Layout, logged: VariableSet, work: Work) -> Turn
        ensures { turn_of result ≡ on_turn logged work (attempt_of self.now) }
    {
        let mut after = *self;
        after.take(logged, work);
        Turn {
            store: work.store(logged, layout),
            then: State::Running(after),
        }
    }

    // The turn of an ending: the entries of the attempt's commit are then to be logged.
    #[tactic(auto, unfolding(crate::specs::Running::end_turn))]
    pub(crate) fn end(&self, layout: Layout, next: Next, number: u32) -> Turn
        ensures { turn_of result ≡ end_turn number next (attempt_of self.now) }
    {
        Turn {
            store: None,
            then: State::Logging(self.log(layout, next, number)),
        }
    }
}
