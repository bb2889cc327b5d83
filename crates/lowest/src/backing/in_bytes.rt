// Bytes as a buffer: the word at place p has its low part in byte 2p and its high part in byte 2p + 1.
ghost use Rattle.std.specs.Prelude.{◌≡◌, false, slice_set};
ghost use Rattle.lowest.specs.Image.{none_over, put_in, words_in};
ghost use Rattle.lowest.specs.Lowest.{left_in_image};
ghost use Rattle.lowest.specs.Members.{left_in_image_allowed};

use crate::backing::{Backing, Bytes};

// By index: the rules say of each word in which two bytes it lies.
impl<'a> Backing for Bytes<'a> {
    ghost held = { λ b. words_in b.0.now };

    ghost buffer = { λ b. b.0.ghost_name };

    ghost even = { λ b. none_over b.0.now };

    ghost whole = { false };

    ghost leaves = { left_in_image };

    ghost allowed = { left_in_image_allowed };

    #[tactic(auto, using(crate::proofs::InBytes::length_words))]
    fn len(&self) -> usize {
        self.0.len() / 2
    }

    fn even(&self) -> bool {
        self.0.len() % 2 == 0
    }

    fn whole(&self) -> bool {
        false
    }

    fn left_by_cut(&self, scrap: u16, _old: u16, _new: u16) -> u16 {
        scrap
    }

    #[tactic(auto, using(crate::proofs::InBytes::get_or_words, crate::proofs::InBytes::past_words))]
    fn get(&self, place: usize) -> u16 {
        if place < self.0.len() / 2 {
            u16::from_le_bytes([self.0[2 * place], self.0[2 * place + 1]])
        } else {
            0
        }
    }

    // Beyond what every buffer promises: which bytes it puts, so that all others stay, one over too.
    #[tactic(auto, using(crate::proofs::InBytes::words_put, crate::proofs::InBytes::put_past_words, crate::proofs::InBytes::bytes_put, crate::proofs::InBytes::put_past_bytes))]
    fn put(&mut self, place: usize, word: u16)
        ensures bytes { self.new.0.now ≡ put_in self.old.0.now place word }
        ensures words { words_in self.new.0.now ≡ slice_set (words_in self.old.0.now) place word }
        ensures same { self.new.0.ghost_name ≡ self.old.0.ghost_name }
        ensures even { none_over self.new.0.now ≡ none_over self.old.0.now }
    {
        if place < self.0.len() / 2 {
            let [low, high] = word.to_le_bytes();
            self.0[2 * place] = low;
            self.0[2 * place + 1] = high;
        }
    }
}
