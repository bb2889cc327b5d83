// The first visit of the due-date rule, cut at each of its stores: what is told, and what a dark cabinet refuses.
use crate::driver::go;
use crate::make::{PLENTY, laid, lowest, three_cells};
use crate::memories::{Case, Trial, each};
use crate::shown::{check_refused, check_relight, check_told, check_words, next};
use crate::stores::{ROW, STORES, phase_before, steps_before, words_after};
use crate::texts::{DUE, rules_of};
use cabinet::cabinet::Cabinet;
use calls::answer::Woken;
use calls::refusal::{Phase, Told};
use lowest::backing::Bytes;
use memory::fault::Cut;
use memory::interface::Memory;
use rules::rules::Rules;
use std::process::Abort;
use std::test::Fail;

// Makes the visit with this charge: how many steps go on, and what is told of the one that is cut.
fn cut_with<M: Memory>(
    cabinet: &mut Cabinet<'_, M>,
    charge: u32,
    scrap: u16,
) -> Result<(usize, Told), Fail> {
    cabinet.relight(charge, scrap)?;
    cabinet.begin(0, &ROW)?;
    let (steps, last) = go(cabinet);
    match last {
        Ok(_) => Err(Fail::new("no cut")),
        Err(refusal) => Ok((usize::from(steps), refusal.told())),
    }
}

// What is told of a cut.
fn told_cut(place: u16, layers: u8, before: Phase) -> Told {
    Told {
        number: 5,
        carried: Some(Cut { place, layers }),
        before,
        task: next(0),
    }
}

// The cut that a store meets in the lowest memory, and the state that makes the store.
fn expected(trial: Trial, price: u16) -> Result<Told, Fail> {
    let (place, _) = STORES.get(trial.store).copied().ok_or("no such store")?;
    let price = price.max(1);
    let cell = (trial.charge % u32::from(price)) as u16;
    let layers = match price {
        1 => 0,
        3 => 1,
        _ => 2,
    };
    let phase = phase_before(steps_before(trial.store));
    Ok(told_cut(place.wrapping_mul(price).wrapping_add(cell), layers, phase))
}

// By its rules.
#[derive(Clone, Copy)]
struct Cuts<'a>(&'a Rules);

impl Case for Cuts<'_> {
    // The words are looked at where a store is a cell's: the old one stands if the scrap is even, and otherwise the new.
    fn run<R: Abort, M: Memory + Drop>(&self, rt: &R, memory: M, trial: Trial) -> Result<(), Fail> {
        let price = u16::from(memory.price());
        let mut cabinet = laid(self.0, memory)?;
        let (steps, told) = cut_with(&mut cabinet, trial.charge, trial.scrap)?;
        assert_eq!(rt; told, expected(trial, price)?);
        assert!(rt; steps == steps_before(trial.store));
        check_refused(rt, &mut cabinet, Phase::Dark, 0);
        let mut memory = cabinet.into_memory();
        memory.relight(PLENTY, 0)?;
        if price > 1 {
            return Ok(());
        }
        let stood = trial.store.saturating_add(usize::from(trial.scrap));
        check_words(rt, &memory, 0, &words_after(stood))
    }
}

#[test]
fn at_each_store(rt: HostRuntime) -> Result<(), Fail> {
    let rules = rules_of(DUE)?;
    each(&rt, &Cuts(&rules), 27)
}

// Relit with less than it takes to mend the word in doubt, it is cut at the word's second cell and then at its third: 513
// stands in the second, the old word in the third.
fn check_relights<M: Memory + Drop>(
    rt: &impl Abort,
    rules: &Rules,
    memory: M,
    charge: u32,
    place: u16,
    woken: Woken,
) -> Result<(), Fail> {
    let mut cabinet = laid(rules, memory)?;
    let _ = cut_with(&mut cabinet, charge, 513)?;
    for (charge, place) in [(0, place), (1, place.wrapping_add(1))] {
        let answer = cabinet.relight(charge, 513);
        check_told(rt, answer, told_cut(place, 1, Phase::Dark));
        check_refused(rt, &mut cabinet, Phase::Dark, 0);
    }
    check_relight(rt, &mut cabinet, 2, woken);
    Ok(())
}

// Cut before while it ran, and while it was applied.
#[test]
fn at_relights(rt: HostRuntime) -> Result<(), Fail> {
    let rules = rules_of(DUE)?;
    for (charge, place, woken) in [(1, 40, Woken::Rest(0)), (61, 4, Woken::UnderWay)] {
        let mut bytes = [0u8; 342];
        let image = lowest(Bytes(&mut bytes), PLENTY, 0)?;
        check_relights(&rt, &rules, three_cells(image)?, charge, place, woken)?;
    }
    Ok(())
}
