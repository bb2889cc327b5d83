// Each limit at its edge, and one past it: 16, told at the line that passes it, whatever that line's tokens are.
use crate::told::{behind, told};
use crate::written::{joined, numbered, times};
use std::alloc::{AllocError, Global};
use std::process::Abort;
use std::test::Fail;

// What is told of a line behind so many others: a number at its first token, or nothing.
type Line = (&'static str, Option<usize>);

const BEHIND_VARIABLES: [Line; 7] = [
    ("var w 7", Some(16)),
    ("var A x", Some(16)),
    ("var v0 7", Some(16)),
    ("var w", Some(12)),
    ("stop", Some(12)),
    ("loc t\ntask a\nstop", None),
    ("task v\nstop", None),
];

const BEHIND_LOCALS: [Line; 7] = [
    ("loc u", Some(16)),
    ("loc in0", Some(16)),
    ("loc t0", Some(16)),
    ("loc u v", Some(12)),
    ("emit t7", Some(12)),
    ("var v 1\ntask a\nstop", None),
    ("task t\nstop", None),
];

const BEHIND_TASKS: [Line; 7] = [
    ("task b", Some(16)),
    ("task in0", Some(16)),
    ("task a15", Some(16)),
    ("task", Some(12)),
    ("loc t", Some(12)),
    ("stop", Some(12)),
    ("", None),
];

const BEHIND_63_STATEMENTS: [Line; 4] = [
    ("stop", None),
    ("next a", None),
    ("next a 0 = 0 a", None),
    ("stop a", Some(12)),
];

const BEHIND_64_STATEMENTS: [Line; 14] = [
    ("stop", Some(16)),
    ("next a", Some(16)),
    ("next nosuch", Some(16)),
    ("next x y = z w", Some(16)),
    ("set t t + 1", Some(16)),
    ("set x 9x + y", Some(16)),
    ("emit x", Some(16)),
    ("skip 0 x = y", Some(16)),
    ("set x 9x * y", Some(12)),
    ("emit", Some(12)),
    ("task b", Some(12)),
    ("task in0 1", Some(12)),
    ("var v 1", Some(12)),
    ("end", Some(12)),
];

const BEHIND_256_STATEMENTS: [Line; 8] = [
    ("stop", Some(16)),
    ("next nosuch", Some(16)),
    ("set x 9x + y", Some(16)),
    ("emit 1", Some(16)),
    ("skip x y = z", Some(16)),
    ("set x 9x * y", Some(12)),
    ("stop #", Some(12)),
    ("task b", Some(12)),
];

const SET: &str = "set t t + 1\n";

// Each of the lines, behind the others.
fn check_behind(
    rt: &(impl Abort + AllocGlobal),
    front: &str,
    lines: &[Line],
) -> Result<(), AllocError> {
    for (line, number) in lines {
        let text = joined(rt.alloc(), front, line)?;
        let expected = match number {
            Some(number) => Some(behind(*number, front)),
            None => None,
        };
        assert_eq!(rt; told(text.as_bytes()), expected, "{line:?}");
    }
    Ok(())
}

// A text is refused with 18: there is no task, or the last has no ending.
fn check_unfinished(rt: &impl Abort, text: &str) {
    assert_eq!(rt;
        told(text.as_bytes()),
        Some([18, 0, text.len()]),
        "{text:?}"
    );
}

// 48 variables, 8 locals and 16 tasks.
#[test]
fn declarations(rt: HostRuntime) -> Result<(), Fail> {
    let alloc = rt.alloc();
    check_behind(
        &rt,
        &numbered(alloc, 48, "var v", " 7\n")?,
        &BEHIND_VARIABLES,
    )?;
    check_behind(&rt, &numbered(alloc, 8, "loc t", "\n")?, &BEHIND_LOCALS)?;
    check_behind(
        &rt,
        &numbered(alloc, 16, "task a", "\nstop\n")?,
        &BEHIND_TASKS,
    )?;
    Ok(())
}

// 64 statements in a task.
#[test]
fn statements_in_a_task(rt: HostRuntime) -> Result<(), Fail> {
    let alloc = rt.alloc();
    let sets = times(alloc, 63, SET)?;
    let text = joined(alloc, "loc t\ntask a\n", &sets)?;
    check_behind(&rt, &text, &BEHIND_63_STATEMENTS)?;
    let text = joined(alloc, &text, SET)?;
    check_behind(&rt, &text, &BEHIND_64_STATEMENTS)?;
    check_unfinished(&rt, &text);
    Ok(())
}

// So many tasks, each of so many sets and an ending.
fn tasks(alloc: Global, count: usize, sets: usize) -> Result<String, AllocError> {
    let sets = times(alloc, sets, SET)?;
    let tasks = numbered(
        alloc,
        count,
        "task a",
        &format!(in alloc; "\n{sets}stop\n")?,
    )?;
    joined(alloc, "loc t\n", &tasks)
}

// 256 statements in all: four tasks of 64, sixteen of 16, or fifteen of 17 and one more.
#[test]
fn statements_in_all(rt: HostRuntime) -> Result<(), Fail> {
    let alloc = rt.alloc();
    assert_eq!(rt; told(tasks(alloc, 16, 15)?.as_bytes()), None);
    let text = tasks(alloc, 4, 63)?;
    assert_eq!(rt; told(text.as_bytes()), None);
    let text = joined(alloc, &text, "task e\n")?;
    check_behind(&rt, &text, &BEHIND_256_STATEMENTS)?;
    check_unfinished(&rt, &text);
    let text = joined(alloc, &tasks(alloc, 15, 16)?, "task e\n")?;
    check_behind(&rt, &text, &[("stop", None), ("stop a", Some(12))])?;
    let text = joined(alloc, &text, "emit 1\n")?;
    check_behind(&rt, &text, &BEHIND_256_STATEMENTS)?;
    check_unfinished(&rt, &text);
    Ok(())
}
