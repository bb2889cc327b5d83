// How many words a record may take.
use crate::build::{equal, index, reach};
use crate::read::visited;
use program::draft::Draft;
use program::draft::build::Flaw;
use program::program::Program;
use program::statement::{Operand, Statement};
use std::test::Fail;

// task: skip 1 in0 = 0, then emit 1, emit 2 and so on up to the last, stop.
fn emitting(last: u16) -> Result<Program, Flaw> {
    let test = equal(Operand::Input(index(0)), Operand::Number(0));
    let mut draft = Draft::new();
    draft.task()?;
    draft.statement(Statement::Skip {
        reach: reach(1),
        test,
    })?;
    for word in 1..=last {
        draft.statement(Statement::Emit(Operand::Number(word)))?;
    }
    draft.statement(Statement::Stop)?;
    Program::new(draft)
}

// Eight emits fill the record, in their order.
#[test]
fn eight_emits(rt: HostRuntime) -> Result<(), Fail> {
    let program = emitting(8)?;
    let words = visited::<12>(&program, &[1; 8])?;
    assert_eq!(rt; words, [1, 0, 16, 8, 1, 2, 3, 4, 5, 6, 7, 8]);
    let words = visited::<12>(&program, &[0; 8])?;
    assert_eq!(rt; words, [1, 0, 16, 7, 2, 3, 4, 5, 6, 7, 8, 0]);
    Ok(())
}

// Nine emits are too many, though a skip may pass over one: on the path that does not skip there are nine.
#[test]
fn nine_emits(rt: HostRuntime) {
    assert_eq!(rt; emitting(9).err(), Some(Flaw::Malformed(index(0))));
}
