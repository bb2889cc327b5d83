// Which of several offences is told: that of the earlier round, and in a round the first.
use crate::told::{Refused, check_refused};

// A byte before a line, and a line before what is not of its round.
const EARLY: [Refused; 12] = [
    ("foo\n#\t\n", 11, 2, 5),
    ("var a x\nvar a 9x\n# \x7f\n", 11, 3, 19),
    (
        "task a\nemit 1\nemit 1\nemit 1\nemit 1\nemit 1\nemit 1\nemit 1\nemit 1\nemit 1\nstop\n#\r",
        11,
        12,
        76,
    ),
    ("var\ta 1", 11, 1, 3),
    ("task a\nnext b\nfoo\n", 12, 3, 14),
    (
        "task a\nskip 9 0 = 0\nstop\ntask b\nemit 9x\nstop\n",
        15,
        5,
        37,
    ),
    ("task a\nnext b\ntask c\nemit x\nstop\n", 14, 4, 26),
    ("task a\nnext 7\ntask a\nstop\n", 13, 3, 19),
    (
        "task a\nemit 1\nemit 1\nemit 1\nemit 1\nemit 1\nemit 1\nemit 1\nemit 1\nemit 1\nstop\nstop\n",
        12,
        12,
        75,
    ),
    ("foo\ntask a\n", 12, 1, 0),
    ("var a x\ntask a\n", 15, 1, 6),
    ("var A 1\n", 13, 1, 4),
];

// The lowest of the lines.
const LOWEST: [Refused; 9] = [
    ("var a x\nfoo\n", 15, 1, 6),
    ("var A 1\nvar b x\nfoo\n", 13, 1, 4),
    ("foo\nvar a x\n", 12, 1, 0),
    ("task a\nemit x\nemit 9x\nstop\nfoo\n", 14, 2, 12),
    ("task a\nemit 9x\nset x 1 + 2\nfoo\n", 15, 2, 12),
    ("task a\nemit\nemit x\nemit 9x\n", 12, 2, 7),
    ("task a\nstop a\ntask a\n", 12, 2, 7),
    ("var a 1\nloc a\ntask b\nemit x\n", 13, 2, 12),
    ("loc a\n\ntask a\nset nosuch 1 * 2\n", 13, 3, 12),
];

// The form of a line, and then its tokens from the left.
const IN_A_LINE: [Refused; 19] = [
    ("task a\nset nosuch 1 * 2\nstop\n", 12, 2, 7),
    ("task a\nset 9x 9x * 9x\nstop\n", 12, 2, 7),
    ("task a\nskip x a > b\nstop\n", 12, 2, 7),
    ("task a\nnext 7 x > 9x 8\n", 12, 2, 7),
    ("task a\nemit 9x x\n", 12, 2, 7),
    ("var in0 x y\n", 12, 1, 0),
    ("task a\nstop\nvar in0 x\n", 12, 3, 12),
    ("task a\nstop\nloc A\n", 12, 3, 12),
    ("set x 9x + 9x\n", 12, 1, 0),
    ("task a\ntask in0\n", 12, 2, 7),
    ("emit 9x\n", 12, 1, 0),
    ("var in0 x\n", 13, 1, 4),
    ("var a 1\nvar a 65536\n", 13, 2, 12),
    ("task a\nset 9x 9x + 9x\nstop\n", 14, 2, 11),
    ("task a\nskip x a = b\nstop\n", 15, 2, 12),
    ("task a\nskip 0 a = b\nstop\n", 15, 2, 12),
    ("task a\nskip 16 a = b\nstop\n", 15, 2, 12),
    ("task a\nskip 1 a = 9x\nstop\n", 14, 2, 14),
    ("task a\nskip 1 9x = b\nstop\n", 15, 2, 14),
];

// The end of the text, the names of tasks, skips, and then emits.
const LATE: [Refused; 13] = [
    ("task a\nnext x\ntask b\n", 18, 0, 21),
    ("task a\nnext x\ntask b\nemit 1\n", 18, 0, 28),
    ("task a\nskip 1 0 = 0\nstop\ntask b\n", 18, 0, 32),
    (
        "task a\nemit 1\nemit 1\nemit 1\nemit 1\nemit 1\nemit 1\nemit 1\nemit 1\nemit 1\n",
        18,
        0,
        70,
    ),
    (
        "task a\nemit 1\nemit 1\nemit 1\nemit 1\nemit 1\nemit 1\nemit 1\nemit 1\nemit 1\nstop\ntask b\n",
        18,
        0,
        82,
    ),
    ("task a\nskip 1 0 = 0\nnext b\n", 14, 3, 25),
    ("task a\nskip 1 0 = 0\nstop\ntask b\nnext c\n", 14, 5, 37),
    (
        "task a\nemit 1\nemit 1\nemit 1\nemit 1\nemit 1\nemit 1\nemit 1\nemit 1\nemit 1\nnext a 0 = 0 7\n",
        14,
        11,
        83,
    ),
    (
        "task a\nemit 1\nemit 1\nemit 1\nemit 1\nemit 1\nemit 1\nemit 1\nemit 1\nemit 1\nskip 2 0 = 0\nstop\ntask b\nnext c\n",
        14,
        14,
        100,
    ),
    (
        "task a\nemit 1\nemit 1\nemit 1\nemit 1\nemit 1\nemit 1\nemit 1\nemit 1\nemit 1\nstop\ntask b\nskip 1 0 = 0\nstop\n",
        17,
        13,
        82,
    ),
    (
        "task a\nskip 10 0 = 0\nemit 1\nemit 1\nemit 1\nemit 1\nemit 1\nemit 1\nemit 1\nemit 1\nemit 1\nstop\n",
        17,
        2,
        7,
    ),
    (
        "task a\nemit 1\nemit 1\nemit 1\nemit 1\nemit 1\nemit 1\nemit 1\nemit 1\nemit 1\nskip 1 0 = 0\nstop\n",
        17,
        11,
        70,
    ),
    (
        "task a\nemit 1\nemit 1\nemit 1\nemit 1\nemit 1\nemit 1\nemit 1\nemit 1\nemit 1\nstop\ntask b\nemit 1\nemit 1\nemit 1\nemit 1\nemit 1\nemit 1\nemit 1\nemit 1\nemit 1\n skip 3 1 < 0\nstop\n",
        17,
        22,
        146,
    ),
];

#[test]
fn rounds(rt: HostRuntime) {
    check_refused(&rt, &EARLY);
    check_refused(&rt, &LATE);
}

#[test]
fn lines(rt: HostRuntime) {
    check_refused(&rt, &LOWEST);
    check_refused(&rt, &IN_A_LINE);
}
