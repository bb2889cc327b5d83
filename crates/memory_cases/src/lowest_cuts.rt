// Plain words and images: a cut leaves what the last scrap given says, and no more.
use crate::make::lowest;
use crate::trial::{FIRST, Kind, LAST, NEW, NEXT, OLD, SCRAPS, Stood, Trial, left_in_words};
use lowest::backing::{Backing, Bytes, Words};
use memory::interface::Memory;
use std::process::Abort;
use std::test::Fail;

const PLAIN: Kind = Kind {
    price: 1,
    dues: 0,
    whole: true,
    layers: 0,
};

const IMAGE: Kind = Kind {
    price: 1,
    dues: 0,
    whole: false,
    layers: 0,
};

// The trial over a buffer, which is handed back.
fn run<B: Backing + Drop>(rt: &impl Abort, backing: B, trial: Trial) -> Result<(Stood, B), Fail> {
    let mut memory = lowest(backing, trial.charge, trial.scrap)?;
    let stood = trial.run(rt, &mut memory)?;
    Ok((stood, memory.into_backing()))
}

// Cut, the new word stands if the last scrap given is odd.
#[test]
fn plain_words(rt: HostRuntime) -> Result<(), Fail> {
    PLAIN.each(&SCRAPS, |trial| {
        let mut list = [FIRST, OLD, LAST];
        let (stood, Words(list)) = run(&rt, Words(&mut list), trial)?;
        let word = trial.stored_or(left_in_words(trial.scrap, OLD, NEW));
        let next = left_in_words(trial.last_scrap(), word, NEXT);
        assert_eq!(rt; (stood.word, stood.next), (word, next));
        assert_eq!(rt; &*list, &[FIRST, next, LAST][..]);
        Ok(())
    })
}

// Cut, the last scrap given stands.
#[test]
fn images(rt: HostRuntime) -> Result<(), Fail> {
    IMAGE.each(&SCRAPS, |trial| {
        let mut bytes = [6u8, 0, 7, 0, 8, 0];
        let (stood, Bytes(bytes)) = run(&rt, Bytes(&mut bytes), trial)?;
        let word = trial.stored_or(trial.scrap);
        let next = trial.last_scrap();
        assert_eq!(rt; (stood.word, stood.next), (word, next));
        let [low, high] = next.to_le_bytes();
        assert_eq!(rt; &*bytes, &[6, 0, low, high, 8, 0][..]);
        Ok(())
    })
}

// A relight's scrap is the last one given: it decides the next cut.
#[test]
fn scrap_of_the_last_relight(rt: HostRuntime) -> Result<(), Fail> {
    let mut list = [FIRST, OLD, LAST];
    let mut memory = lowest(Words(&mut list), 0, 0)?;
    assert!(rt; memory.relight(0, 1).is_ok());
    assert!(rt; memory.write(1, NEW).is_err());
    assert!(rt; memory.relight(2, 0).is_ok());
    assert_eq!(rt; memory.read(1)?, NEW);
    assert!(rt; memory.write(1, OLD).is_ok());
    assert!(rt; memory.write(0, NEW).is_ok());
    assert!(rt; memory.write(1, NEW).is_err());
    assert!(rt; memory.relight(0, 1).is_ok());
    assert_eq!(rt; memory.read(1)?, OLD);
    Ok(())
}
