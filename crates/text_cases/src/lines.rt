// Lines of no form allowed at that point: 12.
use crate::told::{Refused, check_refused};

// The first token is no keyword.
const KEYWORDS: [Refused; 19] = [
    ("foo\n", 12, 1, 0),
    ("Var a 1\n", 12, 1, 0),
    ("VAR a 1\n", 12, 1, 0),
    ("va a 1\n", 12, 1, 0),
    ("vars a 1\n", 12, 1, 0),
    ("var, a 1\n", 12, 1, 0),
    ("1 a 1\n", 12, 1, 0),
    ("= a\n", 12, 1, 0),
    ("in0 a\n", 12, 1, 0),
    ("x# b\n", 12, 1, 0),
    ("loc a\na in0 + 1\n", 12, 2, 6),
    ("task a\nStop\n", 12, 2, 7),
    ("task a\nSTOP\n", 12, 2, 7),
    ("task a\nstop.\n", 12, 2, 7),
    ("task a\nend\n", 12, 2, 7),
    ("task a\ngoto a\n", 12, 2, 7),
    ("task a\nemits 1\n", 12, 2, 7),
    ("task a\nstop\ntasks b\nstop\n", 12, 3, 12),
    ("task a\n  else\nstop\n", 12, 2, 9),
];

// A declaration has not its count of tokens.
const DECLARATIONS: [Refused; 7] = [
    ("var\n", 12, 1, 0),
    ("var a\n", 12, 1, 0),
    ("var a 1 2\n", 12, 1, 0),
    ("loc\n", 12, 1, 0),
    ("loc a b\n", 12, 1, 0),
    ("task\n", 12, 1, 0),
    ("task a b\n", 12, 1, 0),
];

// A statement has not its count of tokens.
const STATEMENTS: [Refused; 26] = [
    ("task a\nset\nstop\n", 12, 2, 7),
    ("task a\nset a\nstop\n", 12, 2, 7),
    ("task a\nset a 1\nstop\n", 12, 2, 7),
    ("task a\nset a 1 +\nstop\n", 12, 2, 7),
    ("task a\nset a 1 + 2 3\nstop\n", 12, 2, 7),
    ("task a\nset a 1 + 2 + 3\nstop\n", 12, 2, 7),
    ("task a\nset a 1 + 2 + 3 + 4\nstop\n", 12, 2, 7),
    ("task a\nemit\nstop\n", 12, 2, 7),
    ("task a\nemit 1 2\nstop\n", 12, 2, 7),
    ("task a\nemit 1 + 2\nstop\n", 12, 2, 7),
    ("task a\nskip\nstop\n", 12, 2, 7),
    ("task a\nskip 1\nstop\n", 12, 2, 7),
    ("task a\nskip 1 1 =\nstop\n", 12, 2, 7),
    ("task a\nskip 1 1 = 1 1\nstop\n", 12, 2, 7),
    ("task a\nskip 1 1 = 1 1 1\nstop\n", 12, 2, 7),
    ("task a\nnext\nstop\n", 12, 2, 7),
    ("task a\nnext a b\nstop\n", 12, 2, 7),
    ("task a\nnext a 1 =\nstop\n", 12, 2, 7),
    ("task a\nnext a 1 = 2\nstop\n", 12, 2, 7),
    ("task a\nnext a 1 = 2 a a\nstop\n", 12, 2, 7),
    ("task a\nnext a 1 = 2 a a a\nstop\n", 12, 2, 7),
    ("task a\nnext a 1 = 2 a a a a a\nstop\n", 12, 2, 7),
    ("task a\nstop a\nstop\n", 12, 2, 7),
    ("task a\nstop 1 = 1 a\nstop\n", 12, 2, 7),
    ("task a\nstop #\nstop\n", 12, 2, 7),
    ("task a\nstop # done\nstop\n", 12, 2, 7),
];

// OP or CMP is none of those listed.
const SIGNS: [Refused; 24] = [
    ("loc a\ntask b\nset a 1 * 2\nstop\n", 12, 3, 13),
    ("loc a\ntask b\nset a 1 = 2\nstop\n", 12, 3, 13),
    ("loc a\ntask b\nset a 1 < 2\nstop\n", 12, 3, 13),
    ("loc a\ntask b\nset a 1 ++ 2\nstop\n", 12, 3, 13),
    ("loc a\ntask b\nset a 1 +- 2\nstop\n", 12, 3, 13),
    ("loc a\ntask b\nset a 1 // 2\nstop\n", 12, 3, 13),
    ("loc a\ntask b\nset a 1 && 2\nstop\n", 12, 3, 13),
    ("loc a\ntask b\nset a 1 ! 2\nstop\n", 12, 3, 13),
    ("loc a\ntask b\nset a 1 ~ 2\nstop\n", 12, 3, 13),
    ("loc a\ntask b\nset a 1 add 2\nstop\n", 12, 3, 13),
    ("loc a\ntask b\nset a + 1 2\nstop\n", 12, 3, 13),
    ("loc a\ntask b\nset a 1 2 +\nstop\n", 12, 3, 13),
    ("loc a\ntask b\nskip 1 1 > 2\nstop\n", 12, 3, 13),
    ("loc a\ntask b\nskip 1 1 == 2\nstop\n", 12, 3, 13),
    ("loc a\ntask b\nskip 1 1 <= 2\nstop\n", 12, 3, 13),
    ("loc a\ntask b\nskip 1 1 != 2\nstop\n", 12, 3, 13),
    ("loc a\ntask b\nskip 1 1 + 2\nstop\n", 12, 3, 13),
    ("loc a\ntask b\nskip 1 = 1 2\nstop\n", 12, 3, 13),
    ("loc a\ntask b\nnext a 1 > 2 a\nstop\n", 12, 3, 13),
    ("loc a\ntask b\nnext a 1 == 2 a\nstop\n", 12, 3, 13),
    ("loc a\ntask b\nnext a 1 <= 2 a\nstop\n", 12, 3, 13),
    ("loc a\ntask b\nnext a 1 - 2 a\nstop\n", 12, 3, 13),
    ("loc a\ntask b\nnext a 1 2 = a\nstop\n", 12, 3, 13),
    ("loc a\ntask b\nnext a = 1 2 a\nstop\n", 12, 3, 13),
];

// A statement stands before the first task.
const BEFORE: [Refused; 8] = [
    ("set a 1 + 2\n", 12, 1, 0),
    ("emit 1\n", 12, 1, 0),
    ("skip 1 1 = 1\n", 12, 1, 0),
    ("next a\n", 12, 1, 0),
    ("next a 1 = 1 a\n", 12, 1, 0),
    ("stop\n", 12, 1, 0),
    ("var a 1\nset a a + 1\ntask b\nstop\n", 12, 2, 8),
    ("loc a\nstop\ntask b\nstop\n", 12, 2, 6),
];

// What may not stand behind an ending.
const BEHIND_AN_ENDING: [Refused; 12] = [
    ("task a\nstop\nvar b 1\n", 12, 3, 12),
    ("task a\nstop\nloc b\n", 12, 3, 12),
    ("task a\nstop\nset a 1 + 2\n", 12, 3, 12),
    ("task a\nstop\nemit 1\n", 12, 3, 12),
    ("task a\nstop\nskip 1 1 = 1\n", 12, 3, 12),
    ("task a\nstop\nnext a\n", 12, 3, 12),
    ("task a\nstop\nnext a 1 = 1 a\n", 12, 3, 12),
    ("task a\nstop\nstop\n", 12, 3, 12),
    ("task a\nnext a\n\n # more\nemit 1\n", 12, 5, 23),
    ("task a\nnext a\n\n # more\nstop\n", 12, 5, 23),
    ("task a\nnext a 1 < 2 a\n  skip 1 1 = 1\n", 12, 3, 24),
    ("task a\nnext a 1 < 2 a\n  next a\n", 12, 3, 24),
];

// What may not stand in a task that has no ending yet.
const IN_A_TASK: [Refused; 8] = [
    ("task a\ntask b\nstop\n", 12, 2, 7),
    ("task a\ntask a\nstop\n", 12, 2, 7),
    ("task a\nemit 1\ntask b\nstop\n", 12, 3, 14),
    ("task a\nvar b 1\nstop\n", 12, 2, 7),
    ("task a\nloc b\nstop\n", 12, 2, 7),
    ("task a\nemit 1\nvar b 1\nstop\n", 12, 3, 14),
    ("task a\nstop\ntask b\nloc c\nstop\n", 12, 4, 19),
    (
        "task a\nstop\ntask b\nemit 1\n# more\ntask c\nstop\n",
        12,
        6,
        33,
    ),
];

#[test]
fn keywords(rt: HostRuntime) {
    check_refused(&rt, &KEYWORDS);
}

#[test]
fn counts(rt: HostRuntime) {
    check_refused(&rt, &DECLARATIONS);
    check_refused(&rt, &STATEMENTS);
}

#[test]
fn signs(rt: HostRuntime) {
    check_refused(&rt, &SIGNS);
}

#[test]
fn places(rt: HostRuntime) {
    check_refused(&rt, &BEFORE);
    check_refused(&rt, &BEHIND_AN_ENDING);
    check_refused(&rt, &IN_A_TASK);
}
