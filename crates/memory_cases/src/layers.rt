// Three cells over three cells, over plain words and over an image: price 9, dues 8, and a cut at each of nine places.
use crate::make::{lowest, three_cells};
use crate::trial::{FIRST, Kind, LAST, NEW, OLD, Stood, Trial, left_in_words};
use lowest::backing::{Backing, Bytes, Words};
use memory::interface::Memory;
use std::process::Abort;
use std::test::Fail;

const KIND: Kind = Kind {
    price: 9,
    dues: 8,
    whole: true,
    layers: 2,
};

// The trial over a buffer of nine cells for each word.
fn run<B: Backing + Drop>(rt: &impl Abort, backing: B, trial: Trial) -> Result<Stood, Fail> {
    let below = lowest(backing, trial.charge, trial.scrap)?;
    let mut memory = three_cells(three_cells(below)?)?;
    assert_eq!(rt; memory.len(), 3);
    trial.run(rt, &mut memory)
}

// A cut in the first triple leaves the old word and one in the last the new; in the second, as that triple reads by itself.
#[test]
fn three_cells_over_three_cells(rt: HostRuntime) -> Result<(), Fail> {
    KIND.each(&[0, OLD, NEW], |trial| {
        let mut bytes = [[[6u8, 0]; 9], [[7, 0]; 9], [[8, 0]; 9]];
        let bytes = Bytes(bytes.as_flattened_mut().as_flattened_mut());
        let stood = run(&rt, bytes, trial)?;
        trial.check(&rt, stood, trial.scrap);
        Ok(())
    })
}

// The same over plain words, where a cut leaves the old word or the new.
#[test]
fn three_cells_over_three_cells_over_words(rt: HostRuntime) -> Result<(), Fail> {
    KIND.each(&[0, OLD, NEW], |trial| {
        let mut list = [[FIRST; 9], [OLD; 9], [LAST; 9]];
        let stood = run(&rt, Words(list.as_flattened_mut()), trial)?;
        trial.check(&rt, stood, left_in_words(trial.scrap, OLD, NEW));
        Ok(())
    })
}
