// Memories that are laid: each refusal, and a cut at each store.
use crate::make::{lowest, opened, unopened};
use crate::shown::check_words;
use crate::stores::words_after;
use crate::texts::{DUE, rules_of};
use cabinet::lay::lay;
use calls::unready::Unready;
use lowest::backing::{Backing, Bytes, Words};
use memory::fault::Cut;
use memory::interface::Memory;
use rules::rules::Rules;
use std::process::Abort;
use std::test::Fail;

// The places of the stores, in their order.
const PLACES: [u16; 16] = [3, 0, 1, 2, 4, 5, 6, 7, 8, 9, 10, 11, 12, 13, 14, 3];

// The number that is told of laying, 0 if it is done, and what a cut carries.
fn told_of<M: Memory>(rules: &Rules, memory: &mut M) -> (u8, Option<Cut>) {
    match lay(rules, memory) {
        Ok(()) => (0, None),
        Err(Unready::Memory(fault)) => (fault.number(), fault.carried()),
        Err(unready) => (unready.number(), None),
    }
}

// A memory of words 9 over a buffer, which is neither laid nor opened, and is left as it was. Where it is dark, its one
// store was cut, and left a 9.
fn check_unfit<B: Backing + Drop>(
    rt: &impl Abort,
    rules: &Rules,
    backing: B,
    is_dark: bool,
    expected: u8,
) -> Result<(), Fail> {
    let mut memory = lowest(backing, 0, 9)?;
    if is_dark {
        let _ = memory.write(20, 9);
    }
    let (laid, _) = told_of(rules, &mut memory);
    let (opened, mut memory) = unopened(rules, memory)?;
    assert_eq!(rt; (laid, opened), (expected, expected));
    memory.relight(0, 0)?;
    check_words(rt, &memory, 0, &[9; 56])
}

// Torn comes first, then too short, then dark.
#[test]
fn unfit(rt: HostRuntime) -> Result<(), Fail> {
    let rules = rules_of(DUE)?;
    for is_dark in [false, true] {
        let mut bytes = [[9, 0]; 57];
        let image = Bytes(bytes.as_flattened_mut());
        check_unfit(&rt, &rules, image, is_dark, 20)?;
        let short = Bytes(bytes[1..].as_flattened_mut());
        check_unfit(&rt, &rules, short, is_dark, 20)?;
        check_unfit(&rt, &rules, Words(&mut [9; 56]), is_dark, 21)?;
    }
    check_unfit(&rt, &rules, Words(&mut [9; 57]), true, 3)
}

// The words of a memory that held 9 throughout, behind so many stores of laying.
fn words_laid(stores: usize) -> [u16; 57] {
    let mut words = [9; 57];
    for (number, place) in PLACES.iter().take(stores).enumerate() {
        if let Some(word) = words.get_mut(usize::from(*place)) {
            *word = match (number, place) {
                (0, _) => 65535,
                (_, 14) => 5,
                _ => 0,
            };
        }
    }
    words
}

// A memory that has charge for fewer stores than it takes, and is dark then. Relit, it is refused with 22, unless the last
// store was cut and its word stands, as where the scrap is odd.
fn check_cut<M: Memory + Drop>(
    rt: &impl Abort,
    rules: &Rules,
    mut memory: M,
    stores: u16,
    scrap: u16,
) -> Result<(), Fail> {
    let place = PLACES
        .get(usize::from(stores))
        .copied()
        .ok_or("no such store")?;
    let cut = Some(Cut { place, layers: 0 });
    assert!(rt; told_of(rules, &mut memory) == (5, cut));
    assert!(rt; told_of(rules, &mut memory) == (3, None));
    memory.relight(0, 0)?;
    let stood = stores.wrapping_add(scrap);
    check_words(rt, &memory, 0, &words_laid(usize::from(stood)))?;
    if stood == 16 {
        let _ = opened(rules, memory)?;
    } else {
        assert!(rt; unopened(rules, memory)?.0 == 22);
    }
    Ok(())
}

// Cut at each of the sixteen stores, and laid with as many.
#[test]
fn stores(rt: HostRuntime) -> Result<(), Fail> {
    let rules = rules_of(DUE)?;
    for number in 0..32 {
        let (stores, scrap) = (number / 2, number % 2);
        let mut list = [9; 57];
        let memory = lowest(Words(&mut list), u32::from(stores), scrap)?;
        check_cut(&rt, &rules, memory, stores, scrap)?;
    }
    let mut list = [9; 57];
    let mut memory = lowest(Words(&mut list), 16, 0)?;
    assert!(rt; told_of(&rules, &mut memory) == (0, None));
    assert!(rt; words_laid(16) == words_after(0));
    check_words(&rt, &memory, 0, &words_laid(16))
}
