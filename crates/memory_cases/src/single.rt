// Three cells over plain words and over an image: cut at each cell, relit at each charge, and cut again.
use crate::make::{lowest, three_cells};
use crate::trial::{FIRST, Kind, LAST, NEW, OLD, SCRAPS, Stood, Trial, left_in_words};
use lowest::backing::{Backing, Bytes, Words};
use memory::interface::Memory;
use std::process::Abort;
use std::test::Fail;

const KIND: Kind = Kind {
    price: 3,
    dues: 2,
    whole: true,
    layers: 1,
};

// The trial over a buffer of nine cells and one place over, which is handed back.
fn run<B: Backing + Drop>(rt: &impl Abort, backing: B, trial: Trial) -> Result<(Stood, B), Fail> {
    let below = lowest(backing, trial.charge, trial.scrap)?;
    let mut memory = three_cells(below)?;
    assert_eq!(rt; memory.len(), 3);
    let stood = trial.run(rt, &mut memory)?;
    Ok((stood, memory.into_below().into_backing()))
}

// The cells of the word after the write: the one that was cut holds what its cut left, those before it the new word, those
// behind it the old.
fn cells_after(charge: u16, left: u16) -> [u16; 3] {
    match charge {
        0 => [left, OLD, OLD],
        1 => [NEW, left, OLD],
        2 => [NEW, NEW, left],
        _ => [NEW; 3],
    }
}

// How many stores make the cells equal, each for a charge of one: one to A or B where these two differ, and one to C where
// B and C do.
fn stores_owed([a, b, c]: [u16; 3]) -> u16 {
    u16::from(a != b) + u16::from(b != c)
}

// The words that stood are as in any trial, and the first relight was cut exactly when it brought less than the stores
// that it owed.
fn check(rt: &impl Abort, trial: Trial, stood: Stood, left: u16) {
    trial.check(rt, stood, left);
    let owed = stores_owed(cells_after(trial.charge, left));
    assert_eq!(rt; stood.cut_again, trial.relight < owed, "{trial:?}");
}

// At the end all cells of each word are equal, and the place over is as it was.
#[test]
fn three_cells_over_words(rt: HostRuntime) -> Result<(), Fail> {
    KIND.each(&SCRAPS, |trial| {
        let mut list = [FIRST, FIRST, FIRST, OLD, OLD, OLD, LAST, LAST, LAST, 99];
        let (stood, Words(list)) = run(&rt, Words(&mut list), trial)?;
        check(&rt, trial, stood, left_in_words(trial.scrap, OLD, NEW));
        let next = stood.next;
        let equal = [FIRST, FIRST, FIRST, next, next, next, LAST, LAST, LAST, 99];
        assert_eq!(rt; &*list, &equal[..], "{trial:?}");
        Ok(())
    })
}

// The same of the bytes.
#[test]
fn three_cells_over_an_image(rt: HostRuntime) -> Result<(), Fail> {
    KIND.each(&SCRAPS, |trial| {
        let mut bytes = [
            6u8, 0, 6, 0, 6, 0, 7, 0, 7, 0, 7, 0, 8, 0, 8, 0, 8, 0, 99, 0,
        ];
        let (stood, Bytes(bytes)) = run(&rt, Bytes(&mut bytes), trial)?;
        check(&rt, trial, stood, trial.scrap);
        let [low, high] = stood.next.to_le_bytes();
        let equal = [
            6, 0, 6, 0, 6, 0, low, high, low, high, low, high, 8, 0, 8, 0, 8, 0, 99, 0,
        ];
        assert_eq!(rt; &*bytes, &equal[..], "{trial:?}");
        Ok(())
    })
}
