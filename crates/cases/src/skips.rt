// How far a skip goes.
use crate::build::{add_task, declared, equal, increment, index};
use crate::read::visited;
use program::draft::build::Flaw;
use program::program::Program;
use program::statement::{Operand, Reach, Statement};
use std::test::Fail;

// var z 0, task: skip REACH in0 = 0, so many times set z z + 1, stop.
fn skipping(reach: Reach, sets: u8) -> Result<Program, Flaw> {
    let z = index(0);
    let test = equal(Operand::Input(index(0)), Operand::Number(0));
    let mut draft = declared(&[0], 0)?;
    add_task(&mut draft, &[Statement::Skip { reach, test }])?;
    for _ in 0..sets {
        draft.statement(increment(z))?;
    }
    draft.statement(Statement::Stop)?;
    Program::new(draft)
}

// How many of so many sets behind a skip are done: z after a visit with this in0.
fn done(reach: u8, sets: u8, input: u16) -> Result<u16, Fail> {
    let reach = Reach::new(reach).ok_or("no reach")?;
    let program = skipping(reach, sets)?;
    let words = visited::<13>(&program, &[input, 0, 0, 0, 0, 0, 0, 0])?;
    Ok(words[12])
}

// A skip that is taken passes over its reach, to the ending at most; one that is not passes over nothing.
#[test]
fn taken_or_not(rt: HostRuntime) -> Result<(), Fail> {
    for (reach, sets, input, expected) in [
        (1, 1, 0, 0),
        (1, 1, 1, 1),
        (1, 2, 0, 1),
        (1, 2, 65535, 2),
        (2, 2, 0, 0),
        (15, 15, 0, 0),
        (15, 15, 1, 15),
        (15, 16, 0, 1),
        (15, 16, 1, 16),
    ] {
        assert_eq!(rt;
            done(reach, sets, input)?,
            expected,
            "skip {reach} of {sets}, in0 = {input}"
        );
    }
    Ok(())
}
