// Visits through cuts at each store and at each of its cells: they come to what the plain machine's come to.
use crate::driver::Visits;
use crate::make::plain_words;
use crate::memories::{Case, Trial, each};
use crate::texts::{DUE, LARGE, TWO, rules_of};
use cabinet::lay::lay;
use calls::unready::Unready;
use std::test::Fail;

// The rows of the visits, each with its day.
const ROWS: [[u16; 8]; 3] = [
    [100, 0, 0, 0, 0, 0, 0, 0],
    [7, 6, 5, 4, 3, 2, 1, 0],
    [65530, 1, 1, 1, 1, 1, 1, 1],
];

#[test]
fn due_dates(rt: HostRuntime) -> Result<(), Fail> {
    let rules = &rules_of(DUE)?;
    let rows = &ROWS;
    each(&rt, &Visits { rules, rows }, 28)
}

// The record of the second visit is shorter than that of the first.
#[test]
fn two_tasks(rt: HostRuntime) -> Result<(), Fail> {
    let rules = &rules_of(TWO)?;
    let rows = &ROWS[..2];
    each(&rt, &Visits { rules, rows }, 35)
}

// No variables and an empty record, on the least memory: 18 stores.
#[test]
fn least(rt: HostRuntime) -> Result<(), Fail> {
    let rules = &rules_of("task a\nnext a\n")?;
    let visits = Visits { rules, rows: &ROWS };
    for number in 0..228 {
        let mut list = [9; 49];
        visits.run(&rt, plain_words(&mut list)?, Trial::of(number, 1))?;
    }
    let mut list = [9; 48];
    let short = lay(rules, &mut plain_words(&mut list)?);
    assert!(rt; short == Err(Unready::Short));
    Ok(())
}

// As many variables and emits as a rule can have, on the least memory: 60 entries, and 242 stores.
#[test]
fn most(rt: HostRuntime) -> Result<(), Fail> {
    let rules = &rules_of(LARGE)?;
    let visits = Visits { rules, rows: &ROWS };
    for number in (2150..2916).step_by(5) {
        let mut list = [9; 241];
        visits.run(&rt, plain_words(&mut list)?, Trial::of(number, 1))?;
    }
    let mut list = [9; 240];
    let short = lay(rules, &mut plain_words(&mut list)?);
    assert!(rt; short == Err(Unready::Short));
    Ok(())
}
