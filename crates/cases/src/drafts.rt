// How much a draft takes, and that a refused call leaves it as it was.
use crate::build::{add_task, declared, increment, index, set_sum};
use crate::read::visited;
use program::draft::Draft;
use program::draft::build::Flaw;
use program::program::Program;
use program::statement::{Operand, Statement, Target};
use std::test::Fail;

// The page after the first visit of the draft's program.
fn outcome<const N: usize>(draft: Draft) -> Result<[u16; N], Fail> {
    visited(&Program::new(draft)?, &[0; 8])
}

// One task more of 64 statements: 63 times set z z + 1, where z is the first variable, and stop.
fn add_long_task(draft: &mut Draft) -> Result<(), Flaw> {
    let z = index(0);
    draft.task()?;
    for _ in 0..63 {
        draft.statement(increment(z))?;
    }
    draft.statement(Statement::Stop)
}

// The page after a visit of such a task, where z is first 0 and the only variable.
const COUNTED: [u16; 13] = [1, 0, 16, 0, 0, 0, 0, 0, 0, 0, 0, 0, 63];

// Variables, locals and tasks are numbered in the order of their declarations.
#[test]
fn numbers(rt: HostRuntime) {
    let mut draft = Draft::new();
    assert_eq!(rt; draft.variable(8), Ok(index(0)));
    assert_eq!(rt; draft.local(), Ok(index(0)));
    assert_eq!(rt; draft.task(), Ok(index(0)));
    assert_eq!(rt; draft.variable(9), Ok(index(1)));
    assert_eq!(rt; draft.local(), Ok(index(1)));
    assert_eq!(rt; draft.task(), Ok(index(1)));
}

// A 49th variable is refused.
#[test]
fn variables(rt: HostRuntime) -> Result<(), Fail> {
    let mut draft = declared(&[7; 48], 0)?;
    add_task(&mut draft, &[Statement::Stop])?;
    let before = outcome::<60>(draft)?;
    assert_eq!(rt; draft.variable(9), Err(Flaw::Variables));
    assert_eq!(rt; outcome::<60>(draft)?, before);
    Ok(())
}

// A 9th local is refused: loc t, the 8th, set t 0 + 5, set z t + 0, stop.
#[test]
fn locals(rt: HostRuntime) -> Result<(), Fail> {
    let (z, t) = (index(0), index(7));
    let statements = [
        set_sum(Target::Local(t), Operand::Number(0), Operand::Number(5)),
        set_sum(Target::Variable(z), Operand::Local(t), Operand::Number(0)),
        Statement::Stop,
    ];
    let mut draft = declared(&[0], 8)?;
    add_task(&mut draft, &statements)?;
    assert_eq!(rt; draft.local(), Err(Flaw::Locals));
    assert_eq!(rt;
        outcome::<13>(draft)?,
        [1, 0, 16, 0, 0, 0, 0, 0, 0, 0, 0, 0, 5]
    );
    Ok(())
}

// A 17th task is refused.
#[test]
fn tasks(rt: HostRuntime) -> Result<(), Fail> {
    let mut draft = Draft::new();
    for _ in 0..16 {
        add_task(&mut draft, &[Statement::Next(index(15))])?;
    }
    assert_eq!(rt; draft.task(), Err(Flaw::Tasks));
    assert_eq!(rt;
        outcome::<12>(draft)?,
        [1, 0, 15, 0, 0, 0, 0, 0, 0, 0, 0, 0]
    );
    Ok(())
}

// A 65th statement of a task is refused.
#[test]
fn statements_of_a_task(rt: HostRuntime) -> Result<(), Fail> {
    let mut draft = declared(&[0], 0)?;
    add_long_task(&mut draft)?;
    assert_eq!(rt; draft.statement(Statement::Stop), Err(Flaw::Statements));
    assert_eq!(rt; outcome::<13>(draft)?, COUNTED);
    Ok(())
}

// A 257th statement in all is refused, so that a fifth task behind four of 64 statements stays empty.
#[test]
fn statements_in_all(rt: HostRuntime) -> Result<(), Fail> {
    let mut draft = declared(&[0], 0)?;
    for _ in 0..4 {
        add_long_task(&mut draft)?;
    }
    assert_eq!(rt; outcome::<13>(draft)?, COUNTED);
    assert_eq!(rt; draft.task(), Ok(index(4)));
    assert_eq!(rt; draft.statement(Statement::Stop), Err(Flaw::Statements));
    assert_eq!(rt; Program::new(draft).err(), Some(Flaw::Malformed(index(4))));
    Ok(())
}

// A statement before any task is refused, and so is a program with no task.
#[test]
fn no_task(rt: HostRuntime) -> Result<(), Fail> {
    assert_eq!(rt; Program::new(Draft::new()).err(), Some(Flaw::NoTask));
    let mut draft = declared(&[3], 0)?;
    assert_eq!(rt; draft.statement(Statement::Stop), Err(Flaw::NoTask));
    assert_eq!(rt; Program::new(draft).err(), Some(Flaw::NoTask));
    add_task(&mut draft, &[Statement::Next(index(0))])?;
    assert_eq!(rt;
        outcome::<13>(draft)?,
        [1, 0, 0, 0, 0, 0, 0, 0, 0, 0, 0, 0, 3]
    );
    Ok(())
}
