// Calls that a dark memory refuses: they ask what lies below for nothing.
ghost use Rattle.std.specs.Prelude.{◌≡◌, true};
ghost use Rattle.lowest.specs.Lowest.{left_in_words};
ghost use Rattle.lowest.specs.Members.{left_in_words_allowed};

use lowest::backing::Backing;
use lowest::memories::Lowest;
use memory::fault::Fault;
use memory::interface::Memory;
use std::cell::Cell;
use three_cell::memories::ThreeCell;

// Words that count how often their length was asked for.
#[derive(Drop)]
struct Counted<'a> {
    words: &'a mut [u16],
    asked: Cell<u32>,
}

impl<'a> Counted<'a> {
    fn of(words: &'a mut [u16]) -> Counted<'a> {
        Counted {
            words,
            asked: Cell::new(0),
        }
    }
}

impl<'a> Backing for Counted<'a> {
    ghost held = { λ b. b.words.now };

    ghost buffer = { λ b. b.words.ghost_name };

    ghost even = { λ _. true };

    ghost whole = { true };

    ghost leaves = { left_in_words };

    ghost allowed = { left_in_words_allowed };

    fn len(&self) -> usize {
        self.asked.set(self.asked.get().saturating_add(1));
        self.words.len()
    }

    fn even(&self) -> bool {
        true
    }

    fn whole(&self) -> bool {
        true
    }

    fn left_by_cut(&self, scrap: u16, old: u16, new: u16) -> u16 {
        if scrap % 2 == 1 { new } else { old }
    }

    fn get(&self, place: usize) -> u16 {
        self.words.get(place).copied().unwrap_or(0)
    }

    fn put(&mut self, place: usize, word: u16) {
        if place < self.words.len() {
            self.words[place] = word;
        }
    }
}

// Stores a word, which the charge does not pay, and then makes so many more calls; whether the memory refuses them all.
fn refuses<M: Memory>(memory: &mut M, calls: u8) -> bool {
    let mut dark = matches!(memory.write(0, 7), Err(Fault::Cut(_)));
    for _ in 0..calls {
        dark &= memory.read(0) == Err(Fault::Dark) && memory.write(0, 7) == Err(Fault::Dark);
    }
    dark
}

// How often the length of three words is asked for when so many calls are refused: of a lowest memory, and of one above it.
// No `ok` of what is made: of a value whose two variants both hold the borrowed buffer there is no proof.
fn asked_by_lowest(calls: u8) -> Option<u32> {
    let mut words = [0; 3];
    let Ok(mut memory) = Lowest::new(Counted::of(&mut words), 0, 0) else {
        return None;
    };
    refuses(&mut memory, calls).then_some(memory.into_backing().asked.get())
}

fn asked_by_three_cells(calls: u8) -> Option<u32> {
    let mut words = [0; 3];
    let Ok(below) = Lowest::new(Counted::of(&mut words), 1, 0) else {
        return None;
    };
    let Ok(mut memory) = ThreeCell::new(below) else {
        return None;
    };
    refuses(&mut memory, calls).then_some(memory.into_below().into_backing().asked.get())
}

#[test]
fn asks_nothing_below(rt: HostRuntime) {
    let once = (asked_by_lowest(0), asked_by_three_cells(0));
    assert!(rt; once.0.is_some() && once.1.is_some());
    assert_eq!(rt; (asked_by_lowest(9), asked_by_three_cells(9)), once);
}
