// One word written, cut, relit and cut again: what any memory must show at each turn.
use memory::fault::{Cut, Fault};
use memory::interface::Memory;
use std::cmp::Ordering;
use std::process::Abort;
use std::test::Fail;

// The words of a memory of three, the one that is stored in the middle, and the one that is stored there next.
pub(crate) const FIRST: u16 = 6;

pub(crate) const OLD: u16 = 7;

pub(crate) const LAST: u16 = 8;

pub(crate) const NEW: u16 = 300;

pub(crate) const NEXT: u16 = 402;

// Even and odd, the old and the new word, and others.
pub(crate) const SCRAPS: [u16; 6] = [0, 1, OLD, NEW, 513, 65535];

// What a cut leaves in plain words: the new word if the scrap is odd.
pub(crate) fn left_in_words(scrap: u16, old: u16, new: u16) -> u16 {
    if scrap % 2 == 1 { new } else { old }
}

// What a memory is always to tell of itself.
#[derive(Clone, Copy, Debug)]
pub(crate) struct Kind {
    // its price, which is also how many places of the lowest memory a word takes
    pub(crate) price: u16,
    pub(crate) dues: u16,
    pub(crate) whole: bool,
    // the layers below it
    pub(crate) layers: u8,
}

#[derive(Clone, Copy, Debug)]
pub(crate) struct Trial {
    pub(crate) kind: Kind,
    // the charge at the write, the scrap at the making, and what the next relight brings
    pub(crate) charge: u16,
    pub(crate) scrap: u16,
    pub(crate) relight: u16,
    pub(crate) next_scrap: u16,
}

// Which of the words stood.
#[derive(Clone, Copy, Debug)]
pub(crate) struct Stood {
    pub(crate) word: u16,
    // the first relight was cut; the word counts either way
    pub(crate) cut_again: bool,
    // after the second store, which is always cut
    pub(crate) next: u16,
}

impl Kind {
    // Every charge from 0 to the price with each scrap, and every relight from 0 to the dues with each of the next scraps.
    pub(crate) fn each<C: Fn(Trial) -> Result<(), Fail>>(
        self,
        next_scraps: &[u16],
        check: C,
    ) -> Result<(), Fail>
        requires { C.IsAlwaysCallable check }
    {
        for charge in 0..=self.price {
            for scrap in SCRAPS {
                for relight in 0..=self.dues {
                    for &next_scrap in next_scraps {
                        check(Trial {
                            kind: self,
                            charge,
                            scrap,
                            relight,
                            next_scrap,
                        })?;
                    }
                }
            }
        }
        Ok(())
    }
}

impl Trial {
    // Writes the new word, relights as often as it takes, and writes once more.
    pub(crate) fn run<M: Memory>(self, rt: &impl Abort, memory: &mut M) -> Result<Stood, Fail> {
        let price = self.kind.price;
        assert_eq!(rt; u16::from(memory.price()), price);
        assert_eq!(rt; u16::from(memory.dues()), self.kind.dues);
        assert_eq!(rt; memory.whole(), self.kind.whole);
        assert!(rt; memory.lit());
        assert_eq!(rt; memory.read(1), Ok(OLD));
        assert_eq!(rt; memory.write(3, NEW), Err(Fault::Outside));
        let cut_again = match memory.write(1, NEW) {
            Ok(()) => {
                assert!(rt; self.charge >= price);
                false
            }
            Err(fault) => {
                assert!(rt; self.charge < price);
                assert_eq!(rt; fault, self.cut_at(price.saturating_add(self.charge)));
                check_dark(rt, memory);
                self.relit(rt, memory)?
            }
        };
        let word = memory.read(1)?;
        self.cut_next(rt, memory)?;
        assert_eq!(rt; memory.read(0), Ok(FIRST));
        assert_eq!(rt; memory.read(2), Ok(LAST));
        assert_eq!(rt; memory.read(3), Err(Fault::Outside));
        let next = memory.read(1)?;
        Ok(Stood {
            word,
            cut_again,
            next,
        })
    }

    // The new word where the charge was enough for it, else what its cut left.
    pub(crate) fn stored_or(self, left: u16) -> u16 {
        if self.charge < self.kind.price {
            left
        } else {
            NEW
        }
    }

    // The last scrap given before the next word is stored, where one relight is enough.
    pub(crate) fn last_scrap(self) -> u16 {
        if self.charge < self.kind.price {
            self.next_scrap
        } else {
            self.scrap
        }
    }

    // A cut at a place of the lowest memory.
    fn cut_at(self, place: u16) -> Fault {
        Fault::Cut(Cut {
            place,
            layers: self.kind.layers,
        })
    }

    // Relights, and once more with the dues if the first is cut; tells whether it was.
    fn relit<M: Memory>(self, rt: &impl Abort, memory: &mut M) -> Result<bool, Fail> {
        let Err(fault) = memory.relight(u32::from(self.relight), self.next_scrap) else {
            assert!(rt; memory.lit());
            return Ok(false);
        };
        assert!(rt; self.relight < self.kind.dues);
        self.check_inside(rt, fault)?;
        check_dark(rt, memory);
        assert_eq!(rt; memory.relight(u32::from(self.kind.dues), 0), Ok(()));
        assert!(rt; memory.lit());
        Ok(true)
    }

    // Stores the next word. What charge is left is below the price, as the dues are: power fails again, and the dues bring it back.
    fn cut_next<M: Memory>(self, rt: &impl Abort, memory: &mut M) -> Result<(), Fail> {
        let Err(fault) = memory.write(1, NEXT) else {
            return Err(Fail::new("a charge of the price was left"));
        };
        self.check_inside(rt, fault)?;
        check_dark(rt, memory);
        assert_eq!(rt;
            memory.relight(u32::from(self.kind.dues), self.next_scrap),
            Ok(())
        );
        assert!(rt; memory.lit());
        Ok(())
    }

    // A cut at the word in doubt names a place of it, the second of three.
    fn check_inside(self, rt: &impl Abort, fault: Fault) -> Result<(), Fail> {
        let Some(cut) = fault.carried() else {
            return Err(Fail::new("no cut"));
        };
        let price = self.kind.price;
        assert_eq!(rt; cut.layers, self.kind.layers);
        assert!(rt; price <= cut.place && cut.place < price.saturating_mul(2));
        Ok(())
    }

    // What stands after a cut and one relight, by the word that the cut left in its cell: before the cell in the middle
    // the old word, behind it the new, and at it the old one only if the cell holds it.
    fn expected(self, left: u16) -> u16 {
        match self.charge.cmp(&(self.kind.price / 2)) {
            Ordering::Less => OLD,
            Ordering::Equal if left == OLD => OLD,
            Ordering::Equal | Ordering::Greater => NEW,
        }
    }

    // The old word or the new stands after each cut; after the first, by the word that it left in its cell, the expected one
    // if one relight was enough.
    pub(crate) fn check(self, rt: &impl Abort, stood: Stood, left: u16) {
        assert!(rt; stood.word == OLD || stood.word == NEW, "{self:?}");
        assert!(rt; stood.next == stood.word || stood.next == NEXT, "{self:?}");
        assert!(rt;
            stood.cut_again || stood.word == self.expected(left),
            "{self:?}"
        );
    }
}

// Dark, it is neither read nor written, whatever the place.
fn check_dark<M: Memory>(rt: &impl Abort, memory: &mut M) {
    assert!(rt; !memory.lit());
    assert_eq!(rt; memory.read(1), Err(Fault::Dark));
    assert_eq!(rt; memory.read(3), Err(Fault::Dark));
    assert_eq!(rt; memory.write(0, NEW), Err(Fault::Dark));
}
