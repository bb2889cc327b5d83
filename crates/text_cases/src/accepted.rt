// What accepted texts come to: the facts of their tasks, their bounds, and their names.
use crate::told::{NO_COUNTS, untouched};
use compile::compile::{Compiled, compile};
use facts::costs::TaskFacts;
use facts::set::VariableSet;
use program::statement::Index;
use rules::rules::Rules;
use rules::rules::bounds::bounds;
use std::alloc::{AllocError, Global};
use std::process::Abort;
use std::test::Fail;

// What a task logs, by names, and what it emits and stores at most.
type Found = (&'static str, u8, u8);

// A text, what its tasks log, emit and store, and its bounds D and S.
const RULES: [(&str, &[Found], (u16, u16)); 8] = [
    // a rule of due dates
    (
        "var due 0\nvar n 5\nloc t\ntask a\nset t in0 + 14\nset due t + 0\nset n n + 1\nemit due\nnext a\n",
        &[("n", 1, 1)],
        (27, 90),
    ),
    // a skip that matters, with the last set and without
    (
        "var v 0\nvar u 0\ntask a\nskip 1 in0 = 0\nset v 1 + 0\nset u v + 0\nset v 2 + 0\nstop\n",
        &[("v", 0, 1)],
        (23, 86),
    ),
    (
        "var v 0\nvar u 0\ntask a\nskip 1 in0 = 0\nset v 1 + 0\nset u v + 0\nstop\n",
        &[("", 0, 2)],
        (20, 82),
    ),
    ("task a\nstop\n", &[("", 0, 0)], (18, 82)),
    // D is of the first task and S of the second, and the other way round
    (
        "var v 0\ntask a\nset v 1 + 0\nset v 2 + 0\nset v 3 + 0\nset v 4 + 0\nset v 5 + 0\nnext b\ntask b\nemit v\nstop\n",
        &[("", 0, 5), ("", 1, 0)],
        (23, 86),
    ),
    (
        "var v 0\ntask a\nemit v\nstop\ntask b\nset v 1 + 0\nset v 2 + 0\nset v 3 + 0\nset v 4 + 0\nset v 5 + 0\nnext a\n",
        &[("", 1, 0), ("", 0, 5)],
        (23, 86),
    ),
    // names in the order of their declarations
    (
        "var c 1\nvar a 2\nvar b 3\ntask z\nset b b + 1\nset c a + c\nset a 1 + 1\nnext y\ntask y\nset a 7 - b\nemit a\nemit a\nstop\n",
        &[("c a b", 0, 0), ("", 2, 1)],
        (30, 94),
    ),
    // locals are not logged, and an ending only reads
    (
        "var v 1\nvar u 1\nloc t\ntask a\nset t v + t\nset t t + 1\nset u t + 0\nnext a u < v a\n",
        &[("", 0, 1)],
        (19, 82),
    ),
];

// A text, its variables, locals and tasks, and its variables' first values.
const NAMES: [(&str, [&str; 3], &[u16]); 4] = [
    ("task a\nstop\n", ["", "", "a"], &[]),
    (
        "var due 0\nvar n 5\nloc t\ntask a\nset t in0 + 14\nset due t + 0\nset n n + 1\nemit due\nnext a\n",
        ["due n", "t", "a"],
        &[0, 5],
    ),
    (
        "loc set\nvar v 00007\nloc in8\nvar in 65535\nvar a 0\ntask z\nnext y\ntask y\nstop\n\n  task   x9\nstop",
        ["v in a", "set in8", "z y x9"],
        &[7, 65535, 0],
    ),
    (
        "# var b 1\nvar abcdefghijkl 12345\n# task x\ntask next\nnext next\n",
        ["abcdefghijkl", "", "next"],
        &[12345],
    ),
];

// The thing with a number that its kind has.
pub(crate) fn index<const N: u8>(number: usize) -> Result<Index<N>, Fail> {
    let number = u8::try_from(number)?;
    Ok(Index::new(number).ok_or("no such number")?)
}

// What a text compiles to.
pub(crate) fn compiled(text: &str) -> Result<Compiled<'_>, Fail> {
    let answer = compile(
        text.as_bytes(),
        &mut [untouched(); 64],
        &mut [NO_COUNTS; 64],
    );
    match answer {
        Ok(compiled) => Ok(compiled),
        Err(refusal) => Err(Fail::from(refusal)),
    }
}

// Names in a row.
fn row(alloc: Global, names: &[&[u8]]) -> Result<String, AllocError> {
    let mut row = String::new(alloc);
    for (place, name) in names.iter().enumerate() {
        if place > 0 {
            row.push(' ')?;
        }
        for byte in name.iter() {
            row.push(char::from(*byte))?;
        }
    }
    Ok(row)
}

// These are the names.
fn check_names(
    rt: &(impl Abort + AllocGlobal),
    names: &[&[u8]],
    expected: &str,
) -> Result<(), AllocError> {
    let row = row(rt.alloc(), names)?;
    assert_eq!(rt; row.as_str(), expected);
    Ok(())
}

// The facts of a task.
fn facts_of(rules: &Rules, number: usize) -> Result<Option<TaskFacts>, Fail> {
    let task = index(number)?;
    Ok(rules.facts(task))
}

// The set of these variables.
fn check_logged(
    rt: &(impl Abort + AllocGlobal),
    variables: &[&[u8]],
    set: VariableSet,
    expected: &str,
) -> Result<(), Fail> {
    let mut names = Vec::new(rt.alloc());
    for (number, name) in variables.iter().enumerate() {
        if set.contains(index(number)?) {
            names.push(*name)?;
        }
    }
    Ok(check_names(rt, &names, expected)?)
}

// A task is known as the table says.
fn check_task(
    rt: &(impl Abort + AllocGlobal),
    compiled: &Compiled<'_>,
    number: usize,
    found: Found,
) -> Result<(), Fail> {
    let (logged, emits, direct) = found;
    let facts = facts_of(&compiled.rules, number)?.ok_or("no such task")?;
    assert_eq!(rt; [facts.emits, facts.direct], [emits, direct]);
    check_logged(rt, compiled.names.variables(), facts.logged, logged)
}

// So is each, and there is no other.
fn check_tasks(
    rt: &(impl Abort + AllocGlobal),
    compiled: &Compiled<'_>,
    tasks: &[Found],
) -> Result<(), Fail> {
    for (number, found) in tasks.iter().enumerate() {
        check_task(rt, compiled, number, *found)?;
    }
    for number in tasks.len()..16 {
        assert!(rt; facts_of(&compiled.rules, number)?.is_none());
    }
    Ok(())
}

#[test]
fn rules(rt: HostRuntime) -> Result<(), Fail> {
    for (text, tasks, expected) in RULES {
        let compiled = compiled(text)?;
        check_tasks(&rt, &compiled, tasks)?;
        assert_eq!(rt; bounds(&compiled.rules), expected, "{text:?}");
    }
    Ok(())
}

#[test]
fn names(rt: HostRuntime) -> Result<(), Fail> {
    for (text, [variables, locals, tasks], firsts) in NAMES {
        let compiled = compiled(text)?;
        check_names(&rt, compiled.names.variables(), variables)?;
        check_names(&rt, compiled.names.locals(), locals)?;
        check_names(&rt, compiled.names.tasks(), tasks)?;
        assert_eq!(rt;
            compiled.rules.program().firsts().as_slice(),
            firsts,
            "{text:?}"
        );
    }
    Ok(())
}
