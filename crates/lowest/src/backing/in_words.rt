// A list of words as a buffer: word p is element p.
ghost use Rattle.std.specs.Prelude.{true};
ghost use Rattle.lowest.specs.Lowest.{left_in_words};
ghost use Rattle.lowest.specs.Members.{left_in_words_allowed};

use crate::backing::{Backing, Words};

impl<'a> Backing for Words<'a> {
    ghost held = { λ b. b.0.now };

    ghost buffer = { λ b. b.0.ghost_name };

    ghost even = { λ _. true };

    ghost whole = { true };

    ghost leaves = { left_in_words };

    ghost allowed = { left_in_words_allowed };

    fn len(&self) -> usize {
        self.0.len()
    }

    fn even(&self) -> bool {
        true
    }

    fn whole(&self) -> bool {
        true
    }

    fn left_by_cut(&self, scrap: u16, old: u16, new: u16) -> u16 {
        if scrap % 2 == 1 { new } else { old }
    }

    fn get(&self, place: usize) -> u16 {
        self.0.get(place).copied().unwrap_or(0)
    }

    // By index: `get_mut` was tried, and after it the check knows nothing of the list.
    fn put(&mut self, place: usize, word: u16) {
        if place < self.0.len() {
            self.0[place] = word;
        }
    }
}
