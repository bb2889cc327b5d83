// One visit after the other.
use crate::build::{add_task, due_date, index, one_task, set_sum};
use crate::read::page;
use plain::machine::Machine;
use plain::machine::visits::Refusal;
use program::draft::Draft;
use program::draft::build::Flaw;
use program::program::Program;
use program::statement::{Operand, Statement, Target};
use std::process::Abort;
use std::test::Fail;

const ROWS: [[u16; 8]; 3] = [
    [100, 101, 102, 103, 104, 105, 106, 107],
    [200, 201, 202, 203, 204, 205, 206, 207],
    [65530, 0, 0, 0, 0, 0, 0, 65535],
];

// The pages of the rule of due dates, before the first visit and after each.
const PAGES: [[u16; 14]; 4] = [
    [0, 0, 0, 0, 0, 0, 0, 0, 0, 0, 0, 0, 0, 5],
    [1, 0, 0, 1, 114, 0, 0, 0, 0, 0, 0, 0, 114, 6],
    [2, 0, 0, 1, 214, 0, 0, 0, 0, 0, 0, 0, 214, 7],
    [3, 0, 0, 1, 8, 0, 0, 0, 0, 0, 0, 0, 8, 8],
];

// The page after the visit of the program that stops, with the first row.
const STOPPED: [u16; 13] = [1, 0, 16, 1, 105, 0, 0, 0, 0, 0, 0, 0, 105];

// var n 5, task: set n n + in0, emit n, stop.
fn stopping() -> Result<Program, Flaw> {
    let n = index(0);
    let more = Operand::Input(index(0));
    let statements = [
        set_sum(Target::Variable(n), Operand::Variable(n), more),
        Statement::Emit(Operand::Variable(n)),
        Statement::Stop,
    ];
    one_task(&statements, &[5], 0)
}

// task 0: emit 9, next 1; task 1: next 0.
fn emitting() -> Result<Program, Flaw> {
    let mut draft = Draft::new();
    let emit = Statement::Emit(Operand::Number(9));
    add_task(&mut draft, &[emit, Statement::Next(index(1))])?;
    add_task(&mut draft, &[Statement::Next(index(0))])?;
    Program::new(draft)
}

// var z 7, loc t, task 0: set z t + 0, set t t + 9, next 0.
fn remembering() -> Result<Program, Flaw> {
    let (z, t) = (index(0), index(0));
    let statements = [
        set_sum(Target::Variable(z), Operand::Local(t), Operand::Number(0)),
        set_sum(Target::Local(t), Operand::Local(t), Operand::Number(9)),
        Statement::Next(index(0)),
    ];
    one_task(&statements, &[7], 1)
}

// The visits with the first rows leave these pages.
fn check_visits<const N: usize>(
    rt: &impl Abort,
    program: &Program,
    pages: &[[u16; N]],
) -> Result<(), Fail> {
    let mut machine = Machine::new(program);
    for (row, words) in ROWS.iter().zip(pages) {
        machine.visit(row)?;
        assert_eq!(rt; page::<N>(&machine)?, *words);
    }
    Ok(())
}

// The pages of three visits are those worked out by hand.
#[test]
fn due_dates(rt: HostRuntime) -> Result<(), Fail> {
    check_visits(&rt, &due_date()?, &PAGES[1..])
}

// A visit that emits nothing leaves no word of the record before it.
#[test]
fn record_is_emptied(rt: HostRuntime) -> Result<(), Fail> {
    let pages = [
        [1, 0, 1, 1, 9, 0, 0, 0, 0, 0, 0, 0],
        [2, 0, 0, 0, 0, 0, 0, 0, 0, 0, 0, 0],
        [3, 0, 1, 1, 9, 0, 0, 0, 0, 0, 0, 0],
    ];
    check_visits(&rt, &emitting()?, &pages)
}

// What a visit leaves in a local is 0 at the next.
#[test]
fn locals_are_emptied(rt: HostRuntime) -> Result<(), Fail> {
    let pages = [
        [1, 0, 0, 0, 0, 0, 0, 0, 0, 0, 0, 0, 0],
        [2, 0, 0, 0, 0, 0, 0, 0, 0, 0, 0, 0, 0],
        [3, 0, 0, 0, 0, 0, 0, 0, 0, 0, 0, 0, 0],
    ];
    check_visits(&rt, &remembering()?, &pages)
}

// After a stop the next word is 16, and another visit is refused and alters nothing.
#[test]
fn stop(rt: HostRuntime) -> Result<(), Fail> {
    let program = stopping()?;
    let mut machine = Machine::new(&program);
    machine.visit(&ROWS[0])?;
    assert_eq!(rt; page::<13>(&machine)?, STOPPED);
    assert_eq!(rt; machine.visit(&ROWS[1]), Err(Refusal::Stopped));
    assert_eq!(rt; page::<13>(&machine)?, STOPPED);
    Ok(())
}

// A page has the low word of the visit number before the high word.
#[test]
fn visit_numbers(rt: HostRuntime) -> Result<(), Fail> {
    let program = due_date()?;
    let mut machine = Machine::new(&program);
    for _ in 0..65536 {
        machine.visit(&ROWS[0])?;
    }
    let words = page::<14>(&machine)?;
    assert_eq!(rt; words, [0, 1, 0, 1, 114, 0, 0, 0, 0, 0, 0, 0, 114, 5]);
    Ok(())
}

// A replay of no row, some or all ends where as many visits end.
#[test]
fn replays(rt: HostRuntime) -> Result<(), Fail> {
    let program = due_date()?;
    for (count, words) in PAGES.iter().enumerate() {
        let machine = Machine::replay(&program, &ROWS[..count]);
        assert_eq!(rt; page::<14>(&machine)?, *words);
    }
    Ok(())
}

// A replay past a stop stays at the stop.
#[test]
fn replay_past_a_stop(rt: HostRuntime) -> Result<(), Fail> {
    let program = stopping()?;
    let machine = Machine::replay(&program, &ROWS);
    assert_eq!(rt; page::<13>(&machine)?, STOPPED);
    Ok(())
}
