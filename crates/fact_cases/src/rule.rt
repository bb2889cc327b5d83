// What small tasks write, read first and log.
use crate::lines::Line::{self, Choose, Emit, Next, Set, SetLocal, Skip, Stop};
use crate::lines::Name::{Input, Local, Number, Variable};
use crate::lines::{index, program};
use crate::told::{members, touches};
use std::process::Abort;
use std::test::Fail;

// A task, and the variables that it writes on every path, reads first and logs.
type Case = (&'static str, &'static [Line], [&'static [u16]; 3]);

// What comes first on the one path of a task without skips.
const ONE_PATH: [Case; 10] = [
    ("no variable", &[Stop], [&[], &[], &[]]),
    (
        "read and written by one statement",
        &[Set(0, Variable(0), Number(1)), Stop],
        [&[0], &[0], &[0]],
    ),
    (
        "so, as the right operand",
        &[Set(0, Number(1), Variable(0)), Stop],
        [&[0], &[0], &[0]],
    ),
    (
        "the last variable, so, beside another",
        &[Set(47, Variable(47), Variable(0)), Stop],
        [&[47], &[0, 47], &[47]],
    ),
    (
        "both operands, one of them written later",
        &[
            Set(2, Variable(0), Variable(1)),
            Set(1, Number(1), Number(0)),
            Stop,
        ],
        [&[1, 2], &[0, 1], &[1]],
    ),
    (
        "written and then read",
        &[Set(0, Number(1), Number(0)), Emit(Variable(0)), Stop],
        [&[0], &[], &[]],
    ),
    (
        "written, then read and written by one statement",
        &[
            Set(0, Number(1), Number(0)),
            Set(0, Variable(0), Number(1)),
            Stop,
        ],
        [&[0], &[], &[]],
    ),
    (
        "emitted and then written",
        &[Emit(Variable(0)), Set(0, Number(1), Number(0)), Stop],
        [&[0], &[0], &[0]],
    ),
    (
        "copied in turn",
        &[
            Set(0, Variable(1), Number(0)),
            Set(1, Variable(0), Number(0)),
            Next,
        ],
        [&[0, 1], &[1], &[1]],
    ),
    (
        "read and never written",
        &[Emit(Variable(0)), Emit(Variable(0)), Stop],
        [&[], &[0], &[]],
    ),
];

// What the tests of skips and endings read.
const TESTS: [Case; 6] = [
    (
        "read by the test of a skip and then written",
        &[
            Skip(1, Variable(0), Number(1)),
            Set(1, Number(1), Number(0)),
            Set(0, Number(1), Number(0)),
            Stop,
        ],
        [&[0], &[0], &[0]],
    ),
    (
        "read by the test of a skip and then written on the way on",
        &[
            Skip(1, Number(1), Variable(0)),
            Set(0, Number(1), Number(0)),
            Stop,
        ],
        [&[], &[0], &[0]],
    ),
    (
        "written and then read by the test of a skip",
        &[
            Set(0, Number(1), Number(0)),
            Skip(1, Variable(0), Variable(0)),
            Set(0, Number(1), Number(0)),
            Stop,
        ],
        [&[0], &[], &[]],
    ),
    (
        "both operands of a skip",
        &[
            Skip(1, Variable(0), Variable(1)),
            Set(0, Number(1), Number(0)),
            Set(1, Number(1), Number(0)),
            Stop,
        ],
        [&[1], &[0, 1], &[0, 1]],
    ),
    (
        "read by the test of the ending",
        &[Choose(Variable(0), Variable(1))],
        [&[], &[0, 1], &[]],
    ),
    (
        "written and then read by the test of the ending",
        &[
            Set(0, Number(1), Number(0)),
            Choose(Variable(0), Variable(1)),
        ],
        [&[0], &[1], &[]],
    ),
];

// Skips with a test that reads nothing, so that only what they pass over matters.
const WAYS: [Case; 6] = [
    (
        "read on one path and written first on the other",
        &[
            Skip(1, Number(0), Number(1)),
            Set(0, Number(1), Number(0)),
            Emit(Variable(0)),
            Stop,
        ],
        [&[], &[0], &[]],
    ),
    (
        "so, and then written on both",
        &[
            Skip(1, Number(0), Number(1)),
            Set(0, Number(1), Number(0)),
            Emit(Variable(0)),
            Set(0, Number(2), Number(0)),
            Stop,
        ],
        [&[0], &[0], &[0]],
    ),
    (
        "a read that the taken way passes over",
        &[
            Skip(1, Number(0), Number(1)),
            Emit(Variable(0)),
            Set(0, Number(1), Number(0)),
            Stop,
        ],
        [&[0], &[0], &[0]],
    ),
    (
        "a write that the taken way passes over",
        &[
            Emit(Variable(0)),
            Skip(1, Number(0), Number(1)),
            Set(0, Number(1), Number(0)),
            Stop,
        ],
        [&[], &[0], &[0]],
    ),
    (
        "a write that only the way of two skips not taken meets",
        &[
            Skip(2, Number(0), Number(1)),
            Skip(1, Number(0), Number(1)),
            Set(0, Number(1), Number(0)),
            Emit(Variable(0)),
            Stop,
        ],
        [&[], &[0], &[]],
    ),
    (
        "a write behind what either skip passes over",
        &[
            Skip(1, Number(0), Number(1)),
            Set(1, Number(1), Number(0)),
            Skip(1, Number(0), Number(1)),
            Set(2, Variable(1), Number(0)),
            Set(0, Number(1), Number(0)),
            Emit(Variable(0)),
            Stop,
        ],
        [&[0], &[1], &[]],
    ),
];

// Locals and inputs of the same number as a variable.
const OTHERS: [Case; 4] = [
    (
        "a local alone",
        &[
            SetLocal(3, Local(3), Number(1)),
            Skip(1, Local(3), Local(3)),
            Emit(Local(3)),
            SetLocal(3, Number(1), Number(0)),
            Choose(Local(3), Local(3)),
        ],
        [&[], &[], &[]],
    ),
    (
        "a local written before the variable is read",
        &[
            SetLocal(3, Number(1), Number(0)),
            Emit(Variable(3)),
            Set(3, Number(1), Number(0)),
            Stop,
        ],
        [&[3], &[3], &[3]],
    ),
    (
        "a local read or written where the variable is not",
        &[
            Set(3, Local(3), Local(3)),
            SetLocal(3, Variable(3), Number(0)),
            Stop,
        ],
        [&[3], &[], &[]],
    ),
    (
        "an input",
        &[Emit(Input(3)), Set(3, Input(3), Input(3)), Stop],
        [&[3], &[], &[]],
    ),
];

// The tasks touch what their rows say.
fn check(rt: &impl Abort, cases: &[Case]) -> Result<(), Fail> {
    for (name, task, lists) in cases {
        let touched = touches(&program(&[task])?, index(0)?)?;
        let sets = [touched.written, touched.read_first, touched.logged];
        for (set, list) in sets.iter().zip(lists) {
            assert_eq!(rt; members(*set)?.as_slice(), *list, "{name}");
        }
    }
    Ok(())
}

// A variable is read first, or logged, or neither.
#[test]
fn one_path(rt: HostRuntime) -> Result<(), Fail> {
    check(&rt, &ONE_PATH)
}

// A test reads its operands, and nothing that it reads is written by it.
#[test]
fn tests(rt: HostRuntime) -> Result<(), Fail> {
    check(&rt, &TESTS)
}

// Both ways are free at each skip.
#[test]
fn ways(rt: HostRuntime) -> Result<(), Fail> {
    check(&rt, &WAYS)
}

// Locals and inputs count nowhere.
#[test]
fn locals_and_inputs(rt: HostRuntime) -> Result<(), Fail> {
    check(&rt, &OTHERS)
}
