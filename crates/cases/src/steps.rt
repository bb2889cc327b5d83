// A visit statement by statement.
use crate::build::{due_date, index};
use crate::read::page;
use plain::machine::Machine;
use plain::visit::Visit;
use program::statement::{Operand, Statement};
use std::process::Abort;
use std::test::Fail;

const ROW: [u16; 8] = [100, 0, 0, 0, 0, 0, 0, 0];

// A statement's first word, by which the table names it. It is no `Display`: a program has no names to print for what its
// statements read.
fn keyword(statement: Statement) -> &'static str {
    match statement {
        Statement::Stop => "stop",
        Statement::Set { .. } => "set",
        Statement::Emit(_) => "emit",
        Statement::Skip { .. } => "skip",
        Statement::Next(_) => "next",
        Statement::Choose { .. } => "choose",
    }
}

// The steps of the rule of due dates on day 100, and two past the ending: the first word of the statement that is to be
// done, and what t, due and n are then to be.
const STEPS: [(Option<&str>, [u16; 3]); 7] = [
    (Some("set"), [114, 0, 5]),
    (Some("set"), [114, 114, 5]),
    (Some("set"), [114, 114, 6]),
    (Some("emit"), [114, 114, 6]),
    (Some("next"), [114, 114, 6]),
    (None, [114, 114, 6]),
    (None, [114, 114, 6]),
];

// t, due and n
fn values(visit: &Visit<'_>) -> [u16; 3] {
    [
        visit.value(Operand::Local(index(0))),
        visit.value(Operand::Variable(index(0))),
        visit.value(Operand::Variable(index(1))),
    ]
}

// Each step does the statement that comes.
fn check_steps(rt: &impl Abort, visit: &mut Visit<'_>) {
    for (word, after) in STEPS {
        assert_eq!(rt; visit.statement().map(keyword), word);
        assert_eq!(rt; visit.step().map(keyword), word);
        assert_eq!(rt; values(visit), after);
    }
}

// A visit does its statements in order; past the ending nothing alters, and the machine stays as it was.
#[test]
fn in_order(rt: HostRuntime) -> Result<(), Fail> {
    let program = due_date()?;
    let machine = Machine::new(&program);
    let mut visit = machine.begin(&ROW)?;
    assert_eq!(rt; values(&visit), [0, 0, 5]);
    check_steps(&rt, &mut visit);
    assert_eq!(rt;
        page::<14>(&machine)?,
        [0, 0, 0, 0, 0, 0, 0, 0, 0, 0, 0, 0, 0, 5]
    );
    Ok(())
}
