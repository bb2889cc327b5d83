// Targets of sets, and the tasks that a next names: unknown, or of the wrong kind, they are 14.
use crate::frames::{Frame, check_accepted_in, check_refused_in};
use crate::told::{Refused, check_accepted, check_refused};
use std::test::Fail;

// No declared variable, local or task.
const NEITHER: [&str; 22] = [
    "1",
    "7",
    "00007",
    "9x",
    "65536",
    "in0",
    "in7",
    "in8",
    "in00",
    "nosuch",
    "va",
    "vv",
    "V",
    "A",
    "-v",
    "-",
    "#",
    "#b",
    "+",
    "set",
    "task",
    "nosuchtaskatall",
];

const SETS: [Frame; 2] = [
    &[
        "var v 1\nloc t\ntask b\nstop\ntask c\nset ",
        " 1 + 2\nstop\n",
    ],
    &[
        "var v 1\nloc t\ntask b\nstop\ntask c\nset v v + 1\nset ",
        " x + 9x\nstop\n",
    ],
];

const ALLOWED_SETS: [Frame; 1] = [&[
    "var v 1\nloc t\ntask c\nset ",
    " 1 + 2\nset ",
    " ",
    " + ",
    "\nstop\n",
]];

// T before U.
const NEXTS: [Frame; 5] = [
    &["var v 1\nloc t\ntask b\nstop\ntask c\nnext ", "\n"],
    &["var v 1\nloc t\ntask b\nstop\ntask c\nnext ", " 0 = 0 b\n"],
    &[
        "var v 1\nloc t\ntask b\nstop\ntask c\nnext ",
        " 0 = 0 nosuch\n",
    ],
    &["var v 1\nloc t\ntask b\nstop\ntask c\nnext b 0 = 0 ", "\n"],
    &[
        "var v 1\nloc t\ntask b\nstop\ntask c\nnext ",
        " v < t ",
        "\ntask d\nnext nosuch\n",
    ],
];

// A task before, behind, or the same.
const ALLOWED_NEXTS: [Frame; 2] = [
    &["task b\nstop\ntask c\nnext ", "\ntask d\nstop\n"],
    &[
        "task b\nnext ",
        " 0 = 0 ",
        "\ntask c\nstop\ntask d\nnext c 1 < in0 ",
        "\n",
    ],
];

// Of many lines with such a next the lowest is told.
const LOWEST: [Refused; 4] = [
    ("task a\nnext x\ntask b\nnext y\n", 14, 2, 12),
    (
        "task a\nnext b\ntask b\nnext c\ntask d\nnext e\n",
        14,
        4,
        26,
    ),
    (
        "task a\nnext a 0 = 0 x\ntask b\nnext y 0 = 0 z\n",
        14,
        2,
        20,
    ),
    (
        "task a\nstop\ntask b\nnext a 0 < 1 c\ntask c\n  next c 0 < 1   d\n",
        14,
        6,
        58,
    ),
];

const NEXT: [&str; 5] = [
    "task a\nnext a\n",
    "task a\nnext a 0 = 0 a\n",
    "task a\nnext b\ntask b\nstop\n",
    "task next\nnext next 1 = 1 next\n",
    "task a\nnext in8\ntask in8\nnext a\n",
];

#[test]
fn sets(rt: HostRuntime) -> Result<(), Fail> {
    check_refused_in(&rt, 14, &SETS, &NEITHER)?;
    check_refused_in(&rt, 14, &SETS, &["b", "c"])?;
    check_accepted_in(&rt, &ALLOWED_SETS, &["v", "t"])?;
    Ok(())
}

#[test]
fn tasks(rt: HostRuntime) -> Result<(), Fail> {
    check_refused_in(&rt, 14, &NEXTS, &NEITHER)?;
    check_refused_in(&rt, 14, &NEXTS, &["v", "t"])?;
    check_accepted_in(&rt, &ALLOWED_NEXTS, &["b", "c", "d"])?;
    check_refused(&rt, &LOWEST);
    check_accepted(&rt, &NEXT);
    Ok(())
}
