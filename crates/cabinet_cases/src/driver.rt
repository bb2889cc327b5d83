// Visits made through cuts, on any memory.
use crate::make::{PLENTY, laid};
use crate::memories::{Case, Trial};
use crate::shown::check_as_plain;
use cabinet::cabinet::Cabinet;
use calls::answer::{Progress, Woken};
use calls::refusal::Refusal;
use memory::interface::Memory;
use plain::machine::Machine;
use rules::rules::Rules;
use std::process::Abort;
use std::test::Fail;

// Steps until one does not go on: how many did, and the answer of the last.
pub(crate) fn go<M: Memory>(cabinet: &mut Cabinet<'_, M>) -> (u16, Result<Progress, Refusal>) {
    for count in 0..400 {
        match cabinet.step() {
            Ok(Progress::Going) => {}
            last => return (count, last),
        }
    }
    (400, Ok(Progress::Going))
}

// So many steps go on, and the next settles the visit of this number.
pub(crate) fn check_settles<M: Memory>(
    rt: &impl Abort,
    cabinet: &mut Cabinet<'_, M>,
    steps: u16,
    number: u32,
) {
    assert_eq!(rt; go(cabinet), (steps, Ok(Progress::Settled(number))));
}

// Steps to the end of the visit: the number that is told, if it is not cut before.
fn settled<M: Memory>(rt: &impl Abort, cabinet: &mut Cabinet<'_, M>) -> Option<u32> {
    match go(cabinet).1 {
        Ok(Progress::Settled(number)) => Some(number),
        Ok(Progress::Going) => None,
        Err(refusal) => {
            assert!(rt; refusal.why.number() == 5);
            None
        }
    }
}

// A visit of the rules for each row, on a memory that is laid first, side by side with the plain machine.
#[derive(Clone, Copy)]
pub(crate) struct Visits<'a> {
    pub(crate) rules: &'a Rules,
    pub(crate) rows: &'a [[u16; 8]],
}

impl Trial {
    // Relights, and once more if that is cut.
    fn relit<M: Memory>(self, cabinet: &mut Cabinet<'_, M>, charge: u32) -> Result<Woken, Refusal> {
        match cabinet.relight(charge, self.scrap) {
            Ok(woken) => Ok(woken),
            Err(_) => cabinet.relight(PLENTY, self.scrap),
        }
    }

    // Relights, and begins anew with the same row if the visit is lost: the number that is told if it is over.
    fn carried_on<M: Memory>(
        self,
        cabinet: &mut Cabinet<'_, M>,
        number: u32,
        row: &[u16; 8],
        charge: u32,
    ) -> Result<Option<u32>, Refusal> {
        match self.relit(cabinet, charge)? {
            Woken::UnderWay => Ok(None),
            Woken::Rest(told) if told == number => {
                cabinet.begin(number, row)?;
                Ok(None)
            }
            Woken::Rest(told) => Ok(Some(told)),
        }
    }

    // One visit behind this number: the number that is told at its end. Power fails where the charge runs out, and may fail
    // once more.
    fn visit<M: Memory>(
        self,
        rt: &impl Abort,
        cabinet: &mut Cabinet<'_, M>,
        number: u32,
        row: &[u16; 8],
    ) -> Result<u32, Fail> {
        cabinet.relight(self.charge, self.scrap)?;
        cabinet.begin(number, row)?;
        for charge in [self.again, PLENTY, PLENTY] {
            if let Some(told) = settled(rt, cabinet) {
                return Ok(told);
            }
            if let Some(told) = self.carried_on(cabinet, number, row, charge)? {
                return Ok(told);
            }
        }
        Err(Fail::new("power failed where there was plenty"))
    }
}

impl Case for Visits<'_> {
    fn run<R: Abort, M: Memory + Drop>(&self, rt: &R, memory: M, trial: Trial) -> Result<(), Fail> {
        let mut cabinet = laid(self.rules, memory)?;
        let mut machine = Machine::new(self.rules.program());
        let mut number = 0u32;
        for row in self.rows {
            let told = trial.visit(rt, &mut cabinet, number, row)?;
            number = number.wrapping_add(1);
            assert!(rt; told == number, "{trial:?}");
            machine.visit(row)?;
        }
        check_as_plain(rt, cabinet, &machine, self.rules)
    }
}
