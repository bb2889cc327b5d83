// Cabinets left at each store of a visit: the memory is opened again and goes on.
use crate::driver::go;
use crate::make::{PLENTY, laid, opened};
use crate::memories::{Case, Trial, each};
use crate::shown::{check_as_plain, check_refused};
use crate::stores::ROW;
use crate::texts::{DUE, rules_of};
use calls::refusal::Phase;
use memory::interface::Memory;
use plain::machine::Machine;
use rules::rules::Rules;
use std::process::Abort;
use std::test::Fail;

// The memory of a cabinet that was left where the charge ran out in the first visit.
fn left<M: Memory + Drop>(rules: &Rules, memory: M, trial: Trial) -> Result<M, Fail> {
    let mut cabinet = laid(rules, memory)?;
    cabinet.relight(trial.charge, trial.scrap)?;
    cabinet.begin(0, &ROW)?;
    let _ = go(&mut cabinet);
    Ok(cabinet.into_memory())
}

// By its rules.
#[derive(Clone, Copy)]
struct Reopened<'a>(&'a Rules);

impl Case for Reopened<'_> {
    // Opened again, it is at rest or applying, as the head says. The visit is made then, if it was lost.
    fn run<R: Abort, M: Memory + Drop>(&self, rt: &R, memory: M, trial: Trial) -> Result<(), Fail> {
        let mut memory = left(self.0, memory, trial)?;
        memory.relight(PLENTY, trial.scrap)?;
        let phase = match memory.read(0)? {
            0 => Phase::Rest,
            _ => Phase::Applying,
        };
        let mut cabinet = opened(self.0, memory)?;
        check_refused(rt, &mut cabinet, phase, 0);
        let _ = cabinet.begin(0, &ROW);
        let _ = go(&mut cabinet);
        let machine = Machine::replay(self.0.program(), &[ROW]);
        check_as_plain(rt, cabinet, &machine, self.0)
    }
}

#[test]
fn at_each_store(rt: HostRuntime) -> Result<(), Fail> {
    let rules = rules_of(DUE)?;
    each(&rt, &Reopened(&rules), 28)
}
