// Declared names: those that are none, or are declared already, are 13.
use crate::frames::{Frame, check_accepted_in, check_refused_in};
use crate::told::{Refused, check_accepted, check_refused};
use std::test::Fail;

// Another byte than a letter or a digit, no letter first, more than 12 bytes, or an input.
const NO_NAMES: [&str; 29] = [
    "A",
    "aB",
    "abC",
    "9a",
    "7",
    "a_b",
    "a-b",
    "_a",
    "-a",
    "a.",
    "a#",
    "#",
    "#a",
    "=",
    "+",
    "a=",
    "{",
    "~",
    "in0",
    "in1",
    "in2",
    "in3",
    "in4",
    "in5",
    "in6",
    "in7",
    "abcdefghijklm",
    "a123456789012",
    "abcdefghijklmnopqrstuvwxyz",
];

// Keywords are names, and so is what only begins as an input does.
const NAMES: [&str; 27] = [
    "a",
    "z",
    "i",
    "in",
    "n0",
    "a9",
    "z00",
    "abcdefghijkl",
    "a12345678901",
    "in8",
    "in9",
    "in00",
    "in07",
    "in70",
    "in77",
    "in0a",
    "in7z",
    "ain0",
    "inn",
    "var",
    "loc",
    "task",
    "set",
    "emit",
    "skip",
    "next",
    "stop",
];

const DECLARED: [Frame; 5] = [
    &["var ", " 1\n"],
    &["loc ", "\n"],
    &["task ", "\nstop\n"],
    &["var v 1\nloc  ", "  \n"],
    &["# first\ntask start\nstop\n  task ", "\nstop\n"],
];

// Names that are declared and then used.
const USED: [Frame; 3] = [
    &["var ", " 1\ntask start\nset ", " ", " + 1\nstop\n"],
    &["loc ", "\ntask start\nskip 1 0 < ", "\nemit ", "\nstop\n"],
    &["task start\nnext ", "\ntask ", "\nnext ", " 0 = 0 ", "\n"],
];

// Names that are declared already.
const REPEATED: [Refused; 13] = [
    ("var a 1\nvar a 1\n", 13, 2, 12),
    ("var a 1\nvar b 1\nvar c 1\nvar b 1\n", 13, 4, 28),
    ("loc a\nloc a\n", 13, 2, 10),
    ("var a 1\nloc a\n", 13, 2, 12),
    ("loc a\nvar a 1\n", 13, 2, 10),
    ("var a 1\ntask a\nstop\n", 13, 2, 13),
    ("loc t\ntask t\nstop\n", 13, 2, 11),
    ("task a\nstop\ntask a\nstop\n", 13, 3, 17),
    ("task a\nnext b\ntask b\nstop\ntask a\nstop\n", 13, 5, 31),
    ("loc a\ntask b\nstop\ntask a\nstop\n", 13, 4, 23),
    ("var set 1\nloc set\n", 13, 2, 14),
    ("var a 1\n# var a 1\nloc b\n\n  loc   a\n", 13, 5, 33),
    ("var abcdefghijkl 1\nloc abcdefghijkl\n", 13, 2, 23),
];

// Names that only begin alike, and names in lines that are skipped.
const ALIKE: [&str; 3] = [
    "var a 1\nvar ab 1\nvar aa 1\nloc b\nloc a0\ntask c\nstop\n",
    "var abcdefghijkl 1\nloc abcdefghijk\ntask abcdefghijkm\nstop\n",
    "# var a 1\nvar a 1\n# loc a\nloc b\ntask c\nstop\n",
];

// A name is looked at before the number behind it.
const NAME_FIRST: [Refused; 5] = [
    ("var A x\n", 13, 1, 4),
    ("var in0 65536\n", 13, 1, 4),
    ("var A a\n", 13, 1, 4),
    ("var a 1\nvar a 000001\n", 13, 2, 12),
    ("var 9 9x\n", 13, 1, 4),
];

#[test]
fn no_names(rt: HostRuntime) -> Result<(), Fail> {
    Ok(check_refused_in(&rt, 13, &DECLARED, &NO_NAMES)?)
}

#[test]
fn names(rt: HostRuntime) -> Result<(), Fail> {
    check_accepted_in(&rt, &USED, &NAMES)?;
    check_accepted(&rt, &ALIKE);
    Ok(())
}

#[test]
fn repeated(rt: HostRuntime) {
    check_refused(&rt, &REPEATED);
    check_refused(&rt, &NAME_FIRST);
}
