// The word that stands after a store, relit where the store was cut.
use crate::make::{lowest, three_cells};
use crate::trial::{NEW, OLD};
use lowest::backing::Words;
use memory::fault::{Cut, Fault};
use memory::through::{Stood, write_through};
use std::test::Fail;

// A store in two words, each in three cells over plain words that a cut leaves as they were.
fn stored(charge: u16, place: u16, relight: u32) -> Result<Result<Stood, Fault>, Fail> {
    let mut list = [OLD; 6];
    let mut memory = three_cells(lowest(Words(&mut list), charge, 0)?)?;
    Ok(write_through(&mut memory, place, NEW, relight, 0))
}

// Cut at its first two cells the old word stands, at its last the new one.
#[test]
fn stood_through_a_cut(rt: HostRuntime) -> Result<(), Fail> {
    for (charge, word, place) in [
        (0, OLD, Some(3)),
        (1, OLD, Some(4)),
        (2, NEW, Some(5)),
        (3, NEW, None),
    ] {
        let cut = place.map(|place| Cut { place, layers: 1 });
        assert_eq!(rt; stored(charge, 1, 2)?, Ok(Stood { word, cut }));
    }
    Ok(())
}

// Refused past the last word; and where the relight brings too little for the cell that was cut.
#[test]
fn refused_through_a_cut(rt: HostRuntime) -> Result<(), Fail> {
    let cut = Cut {
        place: 5,
        layers: 1,
    };
    assert_eq!(rt; stored(3, 2, 2)?, Err(Fault::Outside));
    assert_eq!(rt; stored(2, 1, 0)?, Err(Fault::Cut(cut)));
    Ok(())
}
