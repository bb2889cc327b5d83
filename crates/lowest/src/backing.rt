// The buffers that a lowest memory lies in: a list of words, or bytes, that a caller hands in.
ghost use Rattle.std.specs.Prelude.{◌≡◌, ℕ, ◌^◌, ◌<◌, Bool, List, length, slice_index, slice_set};
ghost use Rattle.memory.specs.Value.{Allowed};

mod in_bytes;
mod in_words;

pub trait Backing {
    // The words that it holds.
    ghost held: { Self → List ℕ };

    // Its ghost name: which buffer it is.
    ghost buffer: { Self → ℕ };

    // No part of a word is over.
    ghost even: { Self → Bool };

    // A store that is cut leaves the old word or the new one.
    ghost whole: { Bool };

    // What it leaves, by the last scrap given, the old word and the new.
    ghost leaves: { ℕ → ℕ → ℕ → ℕ };

    // It is one of the words that the place may then hold.
    ghost allowed: { (scrap old new : ℕ) → scrap < 2 ^ 16 → Allowed whole old new (leaves scrap old new) };

    fn len(&self) -> usize
        ensures { result ≡ length (held self.now) };

    fn even(&self) -> bool
        ensures { result ≡ even self.now };

    fn whole(&self) -> bool
        ensures { result ≡ whole };

    fn left_by_cut(&self, scrap: u16, old: u16, new: u16) -> u16
        ensures { result ≡ leaves scrap old new };

    // The word at a place, 0 past the last.
    fn get(&self, place: usize) -> u16
        ensures { result ≡ slice_index (held self.now) place };

    // Puts a word at a place; past the last nothing alters. It stays the same buffer, with as much over.
    fn put(&mut self, place: usize, word: u16)
        ensures words { held self.new ≡ slice_set (held self.old) place word }
        ensures same { buffer self.new ≡ buffer self.old }
        ensures even { even self.new ≡ even self.old };
}

// A list of words.
#[derive(Drop)]
pub struct Words<'a>(pub &'a mut [u16]);

// Bytes, two to a word.
#[derive(Drop)]
pub struct Bytes<'a>(pub &'a mut [u8]);
