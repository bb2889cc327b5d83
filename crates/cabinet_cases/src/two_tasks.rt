// The rule with two tasks: the task last read, a shorter record, and what stands after the stop.
use crate::driver::{check_settles, go};
use crate::make::{laid, plain_words};
use crate::shown::{check_record, check_refused, check_relight, check_words};
use crate::texts::{TWO, rules_of};
use calls::answer::Woken;
use calls::refusal::Phase;
use memory::interface::Memory;
use rules::rules::Rules;
use std::process::Abort;
use std::test::Fail;

const ROWS: [[u16; 8]; 2] = [[10, 1, 0, 0, 0, 0, 0, 0], [100, 0, 0, 0, 0, 0, 0, 0]];

// The memory's words behind both visits, the log's too: of the second visit's log five entries, and behind them three of
// the first's. The record's second word is the first visit's, beyond the length.
const WORDS: [u16; 39] = [
    0, 2, 0, 16, 1, 3, 7, 0, 0, 0, 0, 0, 0, 3, 97, 18, 1, 2, 21, 2, 0, 24, 3, 16, 27, 4, 1, 0, 5,
    3, 33, 6, 7, 36, 13, 3, 0, 14, 14,
];

// The task last read is the first until its visit is settled, though the second stands in memory before.
fn check_first<M: Memory + Drop>(rt: &impl Abort, rules: &Rules, memory: M) -> Result<(), Fail> {
    let mut cabinet = laid(rules, memory)?;
    cabinet.begin(0, &ROWS[0])?;
    for _ in 0..39 {
        cabinet.step()?;
    }
    check_refused(rt, &mut cabinet, Phase::Applying, 0);
    check_relight(rt, &mut cabinet, 9, Woken::UnderWay);
    check_refused(rt, &mut cabinet, Phase::Applying, 0);
    check_settles(rt, &mut cabinet, 8, 1);
    check_refused(rt, &mut cabinet, Phase::Settled, 1);
    check_record(rt, &cabinet, &[13, 7])
}

// Cut at its last store, which stands, the visit is over at the relight; then its next task is the one last read.
fn check_over<M: Memory + Drop>(rt: &impl Abort, rules: &Rules, memory: M) -> Result<(), Fail> {
    let mut cabinet = laid(rules, memory)?;
    cabinet.relight(33, 1)?;
    cabinet.begin(0, &ROWS[0])?;
    let (steps, _) = go(&mut cabinet);
    assert!(rt; steps == 39);
    check_refused(rt, &mut cabinet, Phase::Dark, 0);
    check_relight(rt, &mut cabinet, 0, Woken::Rest(1));
    check_refused(rt, &mut cabinet, Phase::Rest, 1);
    Ok(())
}

// Both visits, and no third.
fn check_both<M: Memory + Drop>(rt: &impl Abort, rules: &Rules, memory: M) -> Result<(), Fail> {
    let mut cabinet = laid(rules, memory)?;
    cabinet.begin(0, &ROWS[0])?;
    check_settles(rt, &mut cabinet, 39, 1);
    cabinet.begin(1, &ROWS[1])?;
    check_refused(rt, &mut cabinet, Phase::Running, 1);
    check_settles(rt, &mut cabinet, 24, 2);
    check_record(rt, &cabinet, &[3])?;
    check_refused(rt, &mut cabinet, Phase::Settled, 16);
    check_relight(rt, &mut cabinet, 0, Woken::Rest(2));
    check_refused(rt, &mut cabinet, Phase::Rest, 16);
    check_words(rt, &cabinet.into_memory(), 0, &WORDS)
}

#[test]
fn two_tasks(rt: HostRuntime) -> Result<(), Fail> {
    let rules = rules_of(TWO)?;
    let mut list = [9; 57];
    check_first(&rt, &rules, plain_words(&mut list)?)?;
    check_over(&rt, &rules, plain_words(&mut list)?)?;
    check_both(&rt, &rules, plain_words(&mut list)?)
}
