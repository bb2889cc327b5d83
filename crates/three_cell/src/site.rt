// A word's three cells in the memory below: where they lie, and what is read and stored there.
ghost use Rattle.std.specs.Prelude.{◌≡◌, ◌+◌, ◌*◌, ◌^◌, ◌<◌};
ghost use Rattle.three_cell.specs.Below.{Doubts, KeepsScrap, Mends, ReadsCells, ReadsWord, Stores, StoresWord};
ghost use Rattle.cells.specs.Triple.{to_all, to_both};

use cells::triple::{Repair, Triple};
use memory::doubt::Doubt;
use memory::fault::{Fault, Raised};
use memory::interface::Memory;

// The place of a word whose three cells lie at places that a memory can have.
#[derive(Clone, Copy, PartialEq, Eq, Debug)]
pub(crate) struct Site {
    pub(crate) place: u16,
    ghost near: { 3 * place + 2 < 2 ^ 16 },
}

impl Site {
    // The places of cells A, B and C.
    fn a(self) -> u16
        ensures { result ≡ 3 * self.place }
    {
        3 * self.place
    }

    fn b(self) -> u16
        ensures { result ≡ 3 * self.place + 1 }
    {
        3 * self.place + 1
    }

    fn c(self) -> u16
        ensures { result ≡ 3 * self.place + 2 }
    {
        3 * self.place + 2
    }

    pub(crate) fn cells<M: Memory>(self, below: &M) -> Result<Triple<u16>, Fault>
        ensures { ReadsCells M.Memory below.now self.place result }
    {
        let a = below.read(self.a())?;
        let b = below.read(self.b())?;
        let c = below.read(self.c())?;
        Ok(Triple { a, b, c })
    }

    // The word, as its cells read.
    pub(crate) fn word<M: Memory>(self, below: &M) -> Result<u16, Fault>
        ensures { ReadsWord M.Memory below.now self.place result }
    {
        Ok(self.cells(below)?.value())
    }

    // The word is in doubt if its cells are not equal.
    pub(crate) fn doubt<M: Memory>(self, below: &M) -> Option<Doubt>
        ensures { Doubts M.Memory below.now self.place result }
    {
        let triple = self.cells(below).ok()?;
        match triple.repair() {
            Repair::Nothing => None,
            _ => Some(Doubt {
                place: self.place,
                old: triple.c,
                new: triple.a,
            }),
        }
    }

    // Stores a word to B, then to C. That a store keeps the scrap is told by each call: it is a fact of the memory before
    // and after, and no type has both. Inlined: a store of a word is a quarter fewer instructions so.
    #[inline]
    fn store_both<M: Memory>(self, below: &mut M, word: u16) -> Result<(), Raised>
        ensures stores { Stores M.Memory below.old self.place (to_both word) result below.new }
        ensures scrap { KeepsScrap M.Memory below.old below.new }
    {
        below.write(self.b(), word)?;
        below.write(self.c(), word)?;
        Ok(())
    }

    // Stores a word to A, then to B, then to C.
    #[tactic(auto, using(crate::proofs::Storing::stored_word))]
    pub(crate) fn store<M: Memory>(self, below: &mut M, word: u16) -> Result<(), Raised>
        ensures stores { Stores M.Memory below.old self.place (to_all word) result below.new }
        ensures scrap { KeepsScrap M.Memory below.old below.new }
        ensures above { StoresWord M.Memory below.old self.place word result below.new }
    {
        below.write(self.a(), word)?;
        self.store_both(below, word)
    }

    // Makes the cells equal.
    pub(crate) fn mend<M: Memory>(self, below: &mut M) -> Result<(), Raised>
        ensures mends { Mends M.Memory below.old self.place result below.new }
        ensures scrap { KeepsScrap M.Memory below.old below.new }
    {
        match self.cells(below)?.repair() {
            Repair::Nothing => {}
            Repair::ToA(word) => below.write(self.a(), word)?,
            Repair::ToC(word) => below.write(self.c(), word)?,
            Repair::ToBoth(word) => self.store_both(below, word)?,
        }
        Ok(())
    }
}
