// The log of a commit: its entries, and the word that is due.
ghost use Rattle.std.specs.Prelude.{◌≡◌, true, ◌/◌, ◌%◌, [], ◌∷◌, cond, length, slice_index};
ghost use Rattle.words.specs.Lists.{items, pushed};
ghost use Rattle.program.specs.Runs.{next_word};
ghost use Rattle.program.specs.Sound.{Source};
ghost use Rattle.facts.specs.Sets.{has};
ghost use Rattle.layout.specs.Places.{length_place, next_place, number_high_place, number_low_place, record_place, variable_place};
ghost use Rattle.calls.specs.Lawful.{stage_fits};
ghost use Rattle.calls.specs.Running.{entries, following, set_entries, stores_from};
ghost use Rattle.calls.specs.Stages as value;
ghost use Rattle.calls.specs.Steps.{logging_turn};
ghost use Rattle.cabinet.specs.Logs.{Adds};
ghost use Rattle.cabinet.specs.Running.{turn_of};
ghost use Rattle.cabinet.specs.States.{attempt_of, stage_of};

use crate::state::{Attempt, Log, State, Turn};
use calls::due::Due;
use layout::chain::{ENTRY_WORDS, chain_word};
use layout::layout::Layout;
use layout::store::Store;
use program::statement::{Next, Variable};
use words::list::Short;

// The first entries: the visit number that follows, what comes next, and the record's length.
fn head_entries(layout: Layout, number: u32, next: Next, length: u16) -> Short<Store, 60>
    ensures { items result ≡ record { place = number_low_place; word = following number % 65536 } ∷ record { place = number_high_place; word = following number / 65536 } ∷ record { place = next_place; word = next_word next } ∷ record { place = length_place; word = length } ∷ [] }
{
    let number = number.wrapping_add(1);
    let mut entries = Short::new();
    let _ = entries.push(Store {
        place: layout.number_low(),
        word: (number % 65536) as u16,
    });
    let _ = entries.push(Store {
        place: layout.number_high(),
        word: (number / 65536) as u16,
    });
    let _ = entries.push(Store {
        place: layout.next(),
        word: next.into(),
    });
    let _ = entries.push(Store {
        place: layout.length(),
        word: length,
    });
    entries
}

impl Attempt {
    // Adds the entries of the record's words.
    #[tactic(auto, using(crate::proofs::Logs::logs_word, crate::proofs::Logs::logs_words))]
    fn log_record(&self, layout: Layout, entries: &mut Short<Store, 60>)
        ensures { Adds 8 (stores_from record_place (items self.now.emitted)) (items entries.old) (items entries.new) }
    {
        for (at, &word) in self.emitted.as_slice().iter().enumerate() {
            let place = layout.record() + at as u16;
            let _ = entries.push(Store { place, word });
        }
    }

    // Adds a variable's entry, if it is logged and was set.
    fn log_variable(&self, layout: Layout, variable: Variable, entries: &mut Short<Store, 60>)
        ensures { items entries.new ≡ cond (has self.now.set variable.number) (pushed 60 (items entries.old) (record { place = variable_place variable.number; word = slice_index self.now.copies variable.number })) (items entries.old) }
    {
        if self.set.contains(variable) {
            let _ = entries.push(Store {
                place: layout.variable(variable),
                word: self.copies[usize::from(variable.number())],
            });
        }
    }

    // Adds the entries of the logged variables that were set.
    #[tactic(auto, using(crate::proofs::Logs::logs_no_variable, crate::proofs::Logs::logs_variable, crate::proofs::Logs::logs_variables))]
    fn log_variables(&self, layout: Layout, entries: &mut Short<Store, 60>)
        ensures { Adds 48 (set_entries self.now.set self.now.copies) (items entries.old) (items entries.new) }
    {
        for number in 0..48 {
            let variable = Variable::new(number).unwrap();
            self.log_variable(layout, variable, entries);
        }
    }

    // The log of its commit, before the first word is stored: what comes next, and the number of the last visit.
    #[tactic(auto, using(crate::proofs::Logs::log_whole))]
    pub(crate) fn log(&self, layout: Layout, next: Next, number: u32) -> Log
        ensures { stage_of (State.Logging result) ≡ value.Stage.Logging (entries number next (attempt_of self.now)) 0 }
    {
        let mut entries = head_entries(layout, number, next, self.emitted.len() as u16);
        self.log_record(layout, &mut entries);
        self.log_variables(layout, &mut entries);
        Log { entries, stored: 0 }
    }
}

impl Log {
    // Stores the word that is due, or begins the commit when all are stored.
    #[tactic(auto, using(crate::proofs::Logs::word_due, crate::proofs::Logs::head_due, crate::proofs::Logs::stored_more))]
    pub(crate) fn turn(&self, layout: Layout) -> Turn
        ensures due { (p : Source) → length p.firsts ≡ layout.variables → turn_of result ≡ logging_turn p (items self.now.entries) self.now.stored }
        ensures fits { (p : Source) → length p.firsts ≡ layout.variables → stage_fits p (stage_of (State.Logging self.now)) ≡ true → stage_fits p (stage_of result.then) ≡ true }
    {
        let log = layout.log();
        if self.stored < ENTRY_WORDS * self.entries.len() as u16 {
            let word = chain_word(self.entries.as_slice(), log, self.stored);
            let store = Store {
                place: log + self.stored,
                word,
            };
            let then = State::Logging(Log {
                stored: self.stored + 1,
                ..*self
            });
            Turn {
                store: Some(store),
                then,
            }
        } else {
            let store = Store {
                place: layout.head(),
                word: log,
            };
            Turn {
                store: Some(store),
                then: State::Applying(Due::Entry(log)),
            }
        }
    }
}
