// The first visit of the due-date rule with no cut: what each step stores, and which calls are refused in between.
use crate::driver::check_settles;
use crate::make::{laid, plain_words};
use crate::shown::{check_record, check_refused, check_relight, check_words};
use crate::stores::{ROW, phase_before, stores_of, words_after};
use crate::texts::{DUE, rules_of};
use cabinet::cabinet::Cabinet;
use calls::answer::Woken;
use calls::refusal::Phase;
use memory::interface::Memory;
use rules::rules::Rules;
use std::process::Abort;
use std::test::Fail;

// Lays a memory, begins the visit and makes so many of its steps, with the charge of its 27 stores.
fn stepped<'r, M: Memory + Drop>(
    rules: &'r Rules,
    mut memory: M,
    steps: usize,
) -> Result<Cabinet<'r, M>, Fail> {
    memory.relight(16, 0)?;
    let mut cabinet = laid(rules, memory)?;
    cabinet.relight(27, 0)?;
    cabinet.begin(0, &ROW)?;
    for _ in 0..steps {
        cabinet.step()?;
    }
    Ok(cabinet)
}

// What stands in memory after so many steps.
fn check_stores<M: Memory + Drop>(
    rt: &impl Abort,
    rules: &Rules,
    memory: M,
    steps: usize,
) -> Result<M, Fail> {
    let memory = stepped(rules, memory, steps)?.into_memory();
    check_words(rt, &memory, 0, &words_after(stores_of(steps)))?;
    Ok(memory)
}

// A relight drops the attempt after so many steps; a commit that is under way is applied from its first entry on.
fn check_relit<M: Memory + Drop>(
    rt: &impl Abort,
    rules: &Rules,
    memory: M,
    steps: usize,
) -> Result<(), Fail> {
    let mut cabinet = stepped(rules, memory, steps)?;
    if phase_before(steps) == Phase::Applying {
        check_relight(rt, &mut cabinet, 7, Woken::UnderWay);
        check_settles(rt, &mut cabinet, 6, 1);
        check_refused(rt, &mut cabinet, Phase::Settled, 0);
    } else {
        let number = u32::from(steps == 31);
        check_relight(rt, &mut cabinet, 7, Woken::Rest(number));
        check_refused(rt, &mut cabinet, Phase::Rest, 0);
    }
    Ok(())
}

// Refused calls before each of the 31 steps: the visit goes on as if they had not been.
fn check_between<M: Memory + Drop>(rt: &impl Abort, rules: &Rules, memory: M) -> Result<(), Fail> {
    let mut cabinet = stepped(rules, memory, 0)?;
    for step in 0..31 {
        check_refused(rt, &mut cabinet, phase_before(step), 0);
        cabinet.step()?;
    }
    check_refused(rt, &mut cabinet, Phase::Settled, 0);
    check_record(rt, &cabinet, &[114])?;
    check_words(rt, &cabinet.into_memory(), 0, &words_after(27))
}

#[test]
fn steps(rt: HostRuntime) -> Result<(), Fail> {
    let rules = rules_of(DUE)?;
    for steps in 0..=31 {
        let mut list = [9; 57];
        let memory = check_stores(&rt, &rules, plain_words(&mut list)?, steps)?;
        check_relit(&rt, &rules, memory, steps)?;
    }
    let mut list = [9; 57];
    check_between(&rt, &rules, plain_words(&mut list)?)
}
