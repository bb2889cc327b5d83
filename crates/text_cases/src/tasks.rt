// Whole tasks: without an ending 18, with a skip beyond it 17, with more than eight emits on a path 19.
use crate::told::{Refused, check_accepted, check_refused, told};
use crate::written::times;
use std::alloc::AllocError;
use std::process::Abort;
use std::test::Fail;

// No task, or the last without an ending.
const UNFINISHED: [Refused; 13] = [
    ("var a 1\n", 18, 0, 8),
    ("loc a\n", 18, 0, 6),
    ("var a 1\nloc b\n\n# no task\n", 18, 0, 25),
    ("task a", 18, 0, 6),
    ("task a\n", 18, 0, 7),
    ("task a\nemit in0\n", 18, 0, 16),
    ("task a\nemit in0", 18, 0, 15),
    ("task a\nskip 15 1 = 1\n", 18, 0, 21),
    ("task a\nskip 15 1 = 1\nemit 1", 18, 0, 27),
    ("task a\nstop\ntask b", 18, 0, 18),
    ("task a\nnext b\ntask b\n", 18, 0, 21),
    ("task a\nstop\ntask b\nemit 1\n  # more\n\n", 18, 0, 36),
    ("var a 1\ntask b\nset a a + 1\n", 18, 0, 27),
];

// A skip goes beyond its task's ending: the lowest line.
const FAR: [Refused; 11] = [
    ("task a\nskip 1 0 = 0\nstop\n", 17, 2, 7),
    ("task a\nskip 2 0 = 0\nemit 1\nstop\n", 17, 2, 7),
    ("task a\nskip 15 0 = 0\nnext a\n", 17, 2, 7),
    (
        "task a\nemit 1\nemit 2\nskip 1 0 < 0\nnext a 0 = 0 a\n",
        17,
        4,
        21,
    ),
    (
        "task a\nskip 2 0 = 0\n# more\n\n  # and more\nemit 1\n\nstop\n",
        17,
        2,
        7,
    ),
    (
        "task a\nskip 1 0 = 0\nstop\ntask b\nemit 1\nstop\n",
        17,
        2,
        7,
    ),
    (
        "task a\nskip 1 0 = 0\nemit 1\nstop\ntask b\n   skip 2 0 = 0\nemit 1\nstop\n",
        17,
        6,
        42,
    ),
    (
        "task a\nskip 1 0 = 0\nskip 2 1 = 1\nemit 1\nstop\n",
        17,
        3,
        20,
    ),
    (
        "task a\nskip 3 1 = 1\nskip 3 0 = 0\nemit 1\nstop\n",
        17,
        2,
        7,
    ),
    (
        "task a\nstop\ntask b\nskip 2 0 = 0\nskip 1 0 = 0\nskip 1 0 = 0\nstop\ntask c\nskip 2 0 = 0\nstop\n",
        17,
        6,
        45,
    ),
    (
        "task a\nskip 1 0 = 0\nstop\ntask b\nskip 1 0 = 0\nstop\n",
        17,
        2,
        7,
    ),
];

// A skip goes to its task's ending at most.
const NEAR: [&str; 5] = [
    "task a\nskip 1 0 = 0\nemit 1\nstop\n",
    "task a\nskip 2 0 = 0\nemit 1\nemit 1\nnext a\n",
    "task a\nskip 1 0 = 0\n# more\n\nemit 1\n# and more\nnext a 0 = 0 a\n",
    "task a\nskip 3 0 = 0\nskip 2 0 = 0\nskip 1 0 = 0\nemit 1\nstop\n",
    "task a\nskip 1 0 = 0\nemit 1\nstop\ntask b\nskip 1 0 = 0\nskip 1 0 = 0\nemit 1\nstop\n",
];

// A path with more than eight emits: the first such task.
const MANY_EMITS: [Refused; 9] = [
    (
        "task a\nemit 1\nemit 1\nemit 1\nemit 1\nemit 1\nemit 1\nemit 1\nemit 1\nemit 1\nstop\n",
        19,
        1,
        0,
    ),
    (
        "task a\nemit 1\nemit 1\nemit 1\nemit 1\nemit 1\nemit 1\nemit 1\nemit 1\nemit 2\nnext a\n",
        19,
        1,
        0,
    ),
    (
        "# first\n\n  task   a\nemit 1\nemit 1\nemit 1\nemit 1\nemit 1\nemit 1\nemit 1\nemit 1\nemit 1\nstop\n",
        19,
        3,
        11,
    ),
    (
        "task a\nemit 1\nemit 1\nemit 1\nemit 1\nemit 1\nemit 1\nemit 1\nemit 1\nstop\n task b\nemit 1\nemit 1\nemit 1\nemit 1\nemit 1\nemit 1\nemit 1\nemit 1\nemit 1\nstop\n",
        19,
        11,
        69,
    ),
    (
        "task a\nemit 1\nemit 1\nemit 1\nemit 1\nemit 1\nemit 1\nemit 1\nemit 1\nemit 1\nstop\ntask b\nemit 1\nemit 1\nemit 1\nemit 1\nemit 1\nemit 1\nemit 1\nemit 1\nemit 1\nstop\n",
        19,
        1,
        0,
    ),
    (
        "task a\nstop\ntask b\nemit 1\nemit 1\nemit 1\nemit 1\nemit 1\nemit 1\nemit 1\nemit 1\nemit 1\nemit 1\nemit 1\nemit 1\nemit 1\nemit 1\nemit 1\nemit 1\nemit 1\nemit 1\nemit 1\nemit 1\nnext b\n# then\ntask c\nemit 1\nemit 1\nemit 1\nemit 1\nemit 1\nemit 1\nemit 1\nemit 1\nemit 1\nstop\n",
        19,
        3,
        12,
    ),
    (
        "task a\nskip 9 0 = 0\nemit 1\nemit 1\nemit 1\nemit 1\nemit 1\nemit 1\nemit 1\nemit 1\nemit 1\nstop\n",
        19,
        1,
        0,
    ),
    (
        "task a\nskip 5 0 = 0\nemit 1\nemit 1\nemit 1\nemit 1\nemit 1\nskip 4 0 = 0\nemit 1\nemit 1\nemit 1\nemit 1\nstop\n",
        19,
        1,
        0,
    ),
    (
        "task a\nemit 1\nemit 1\nemit 1\nemit 1\nskip 1 1 = 1\nemit 1\nemit 1\nemit 1\nemit 1\nemit 1\nstop\n",
        19,
        1,
        0,
    ),
];

const FEW_EMITS: [&str; 4] = [
    "task a\nemit 1\nemit 1\nemit 1\nemit 1\nemit 1\nemit 1\nemit 1\nemit 1\nstop\n",
    "task a\nemit 1\nemit 1\nemit 1\nemit 1\nemit 1\nemit 1\nemit 1\nemit 1\nnext b\ntask b\nemit 1\nemit 1\nemit 1\nemit 1\nemit 1\nemit 1\nemit 1\nemit 1\nnext a\n",
    "task a\nskip 8 0 = 0\nemit 1\nemit 1\nemit 1\nemit 1\nemit 1\nemit 1\nemit 1\nemit 1\nstop\n",
    "task a\n# emit 1\nemit 1\nemit 1\nemit 1\nemit 1\nskip 4 1 = 1\nemit 1\nemit 1\nemit 1\nemit 1\n# emit 1\nstop\n",
];

#[test]
fn unfinished(rt: HostRuntime) {
    check_refused(&rt, &UNFINISHED);
}

#[test]
fn skips(rt: HostRuntime) {
    check_refused(&rt, &FAR);
    check_accepted(&rt, &NEAR);
}

#[test]
fn emits(rt: HostRuntime) {
    check_refused(&rt, &MANY_EMITS);
    check_accepted(&rt, &FEW_EMITS);
}

// A skip of this reach with so many statements between it and the ending.
fn check_skip(
    rt: &(impl Abort + AllocGlobal),
    reach: usize,
    between: usize,
) -> Result<(), AllocError> {
    let alloc = rt.alloc();
    let sets = times(alloc, between, "set t t + 1\n")?;
    let text = format!(in alloc; "loc t\ntask a\nskip {reach} t < 1\n{sets}stop\n")?;
    let expected = if reach <= between {
        None
    } else {
        Some([17, 3, 13])
    };
    assert_eq!(rt; told(text.as_bytes()), expected, "{text:?}");
    Ok(())
}

#[test]
fn reaches(rt: HostRuntime) -> Result<(), Fail> {
    for reach in 1..=15 {
        for between in 0..=16 {
            check_skip(&rt, reach, between)?;
        }
    }
    Ok(())
}

// As many emits as a task may have statements, and fewer.
#[test]
fn counts(rt: HostRuntime) -> Result<(), Fail> {
    let alloc = rt.alloc();
    for emits in 0..=63 {
        let text = times(alloc, emits, "emit 1\n")?;
        let text = format!(in alloc; "task a\n{text}stop\n")?;
        let expected = if emits <= 8 { None } else { Some([19, 1, 0]) };
        assert_eq!(rt; told(text.as_bytes()), expected, "{emits} emits");
    }
    Ok(())
}
