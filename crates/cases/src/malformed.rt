// Tasks that are not well formed, each beside its nearest neighbour that is.
use crate::build::{add_task, declared, equal, index, reach, set_sum};
use program::draft::build::Flaw;
use program::program::Program;
use program::statement::{Operand, Reach, Statement, Target, Task};
use std::process::Abort;

const ZERO: Operand = Operand::Number(0);

const STOP: Statement = Statement::Stop;

// set TARGET 0 + 0
fn clear(target: Target) -> Statement {
    set_sum(target, ZERO, ZERO)
}

// skip REACH 0 = 0
fn skip(reach: Reach) -> Statement {
    let test = equal(ZERO, ZERO);
    Statement::Skip { reach, test }
}

// next THEN 0 = 0 OTHERWISE
fn choose(then: Task, otherwise: Task) -> Statement {
    Statement::Choose {
        test: equal(ZERO, ZERO),
        then,
        otherwise,
    }
}

// What comes of two tasks over one variable and one local.
fn made(first: &[Statement], second: &[Statement]) -> Result<(), Flaw> {
    let mut draft = declared(&[0], 1)?;
    add_task(&mut draft, first)?;
    add_task(&mut draft, second)?;
    Program::new(draft)?;
    Ok(())
}

// One task is well formed and the other is not, as the first of two tasks and as the second.
fn tell_apart(rt: &impl Abort, well: &[Statement], flawed: &[Statement]) {
    let stop = [STOP];
    assert_eq!(rt; made(well, &stop), Ok(()));
    assert_eq!(rt; made(&stop, well), Ok(()));
    assert_eq!(rt; made(flawed, &stop), Err(Flaw::Malformed(index(0))));
    assert_eq!(rt; made(&stop, flawed), Err(Flaw::Malformed(index(1))));
}

// Tasks that read the operand, one for each place where a statement has an operand.
fn readers(operand: Operand) -> [[Statement; 3]; 7] {
    let target = Target::Variable(index(0));
    let set = clear(target);
    let (left, right) = (equal(operand, ZERO), equal(ZERO, operand));
    let reach = reach(1);
    let (then, otherwise) = (index(0), index(1));
    let skip = |test| Statement::Skip { reach, test };
    let choose = |test| Statement::Choose {
        test,
        then,
        otherwise,
    };
    [
        [set_sum(target, operand, ZERO), set, STOP],
        [set_sum(target, ZERO, operand), set, STOP],
        [Statement::Emit(operand), set, STOP],
        [skip(left), set, STOP],
        [skip(right), set, STOP],
        [set, set, choose(left)],
        [set, set, choose(right)],
    ]
}

// The one operand can be read at every place, and the other at none.
fn tell_operands_apart(rt: &impl Abort, well: Operand, flawed: Operand) {
    for (task, other) in readers(well).iter().zip(&readers(flawed)) {
        tell_apart(rt, task, other);
    }
}

// A task has a statement.
#[test]
fn no_statement(rt: HostRuntime) {
    tell_apart(&rt, &[STOP], &[]);
}

// The last statement is an ending.
#[test]
fn no_ending(rt: HostRuntime) {
    let set = clear(Target::Variable(index(0)));
    tell_apart(&rt, &[STOP], &[set]);
    tell_apart(&rt, &[set, STOP], &[set, set]);
    tell_apart(&rt, &[set, STOP], &[STOP, set]);
}

// No other statement is an ending.
#[test]
fn two_endings(rt: HostRuntime) {
    let set = clear(Target::Variable(index(0)));
    tell_apart(&rt, &[set, STOP], &[STOP, STOP]);
    tell_apart(&rt, &[set, STOP], &[Statement::Next(index(0)), STOP]);
    tell_apart(&rt, &[set, STOP], &[choose(index(0), index(1)), STOP]);
}

// A skip leads to the ending at most.
#[test]
fn skips(rt: HostRuntime) {
    let set = clear(Target::Variable(index(0)));
    tell_apart(
        &rt,
        &[skip(reach(1)), set, STOP],
        &[skip(reach(2)), set, STOP],
    );
    tell_apart(
        &rt,
        &[skip(reach(2)), set, set, STOP],
        &[skip(reach(15)), set, set, STOP],
    );
    tell_apart(
        &rt,
        &[skip(reach(1)), set, STOP],
        &[set, skip(reach(1)), STOP],
    );
    tell_apart(&rt, &[STOP], &[skip(reach(1))]);
}

// A variable is declared where it is read.
#[test]
fn variables_read(rt: HostRuntime) {
    tell_operands_apart(
        &rt,
        Operand::Variable(index(0)),
        Operand::Variable(index(1)),
    );
}

// A local is declared where it is read.
#[test]
fn locals_read(rt: HostRuntime) {
    tell_operands_apart(&rt, Operand::Local(index(0)), Operand::Local(index(1)));
}

// What a set alters is declared.
#[test]
fn targets(rt: HostRuntime) {
    let (known, unknown) = (Target::Variable(index(0)), Target::Variable(index(1)));
    tell_apart(&rt, &[clear(known), STOP], &[clear(unknown), STOP]);
    let (known, unknown) = (Target::Local(index(0)), Target::Local(index(1)));
    tell_apart(&rt, &[clear(known), STOP], &[clear(unknown), STOP]);
}

// The tasks that an ending names are declared.
#[test]
fn next_tasks(rt: HostRuntime) {
    tell_apart(
        &rt,
        &[Statement::Next(index(1))],
        &[Statement::Next(index(2))],
    );
    tell_apart(
        &rt,
        &[choose(index(1), index(0))],
        &[choose(index(2), index(0))],
    );
    tell_apart(
        &rt,
        &[choose(index(0), index(1))],
        &[choose(index(0), index(2))],
    );
}
