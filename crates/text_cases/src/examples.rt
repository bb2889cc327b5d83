// The examples of docs/task-language.md.
use crate::told::{Refused, check_refused};

// "What is told"
const TOLD: [Refused; 13] = [
    ("", 18, 0, 0),
    ("var a 1\n", 18, 0, 8),
    ("task a\nemit in0\n", 18, 0, 16),
    ("var in3 0\n", 13, 1, 4),
    ("var a 65536\n", 15, 1, 6),
    ("# due dates\n\nloc t\ntask t\nstop\n", 13, 4, 24),
    ("task a\n  set x 1 * 2\nstop\n", 12, 2, 9),
    ("task a\nset x 1 + 2\nstop\n", 14, 2, 11),
    ("task a\nemit 9x\nstop\n", 15, 2, 12),
    ("task a\nnext 7\n", 14, 2, 12),
    ("task a\nnext a in0 = 0 b", 14, 2, 22),
    ("task a\nskip 1 in0 = 0\nstop\n", 17, 2, 7),
    ("task a\nemit 1\nstop\nemit 2\n", 12, 4, 19),
];

#[test]
fn told(rt: HostRuntime) {
    check_refused(&rt, &TOLD);
}
