// Lines that are skipped, and blanks between tokens.
use crate::told::{Refused, check_accepted, check_refused};

// Lines without a token, and lines whose first token begins with #.
const SKIPPED: [&str; 9] = [
    "# a rule\ntask a\nstop\n",
    "#\ntask a\n#\nstop\n#\n",
    "   # a rule\ntask a\n  #stop\nstop\n",
    "#! a rule\ntask a\n#task b\nstop\n",
    "##\ntask a\nstop",
    "\n\n\ntask a\n\nstop\n\n\n",
    "   \ntask a\n \nstop\n  ",
    "task a\nstop\n# stop",
    "#var in0 x\n# emit\ntask a\nstop\n#*\n",
];

// Blanks in any number; the last line may lack its end.
const BLANKS: [&str; 4] = [
    "task a\nstop",
    "  task   a  \n      stop      \n",
    "var  v   00007\nloc     t\ntask a\n set  t   v    +     in0 \nskip 1  t  <  v\nemit    t\nnext  a   t    =     v      a\n",
    " task a\n stop",
];

// Other lines are counted with those that are skipped, and a # behind the first byte of a line is a byte like others.
const BEHIND: [Refused; 29] = [
    ("# a\n# b\nx\n", 12, 3, 8),
    ("\n\n\n   x\n", 12, 4, 6),
    ("#\n\n  \n # #\nx", 12, 5, 11),
    ("# task a\nstop\n", 12, 2, 9),
    ("#task a\nstop\n", 12, 2, 8),
    ("  #task a\nemit 1\nstop\n", 12, 2, 10),
    ("task a\n#set x 1 + 2\n\n emit   x\nstop\n", 14, 4, 29),
    ("\n# first\n   var    a      x   \n", 15, 3, 26),
    ("#\n#\nvar in0 1\n", 13, 3, 8),
    ("task a\nstop # done\n", 12, 2, 7),
    ("task a\nemit 1 # out\nstop\n", 12, 2, 7),
    ("var a 1\nvar b 2 #\n", 12, 2, 8),
    ("loc a #\n", 12, 1, 0),
    ("task a # first\nstop\n", 12, 1, 0),
    ("task a\nnext a #\n", 12, 2, 7),
    ("task a\nnext a # b\n", 12, 2, 7),
    ("x#\n", 12, 1, 0),
    ("-# a\n", 12, 1, 0),
    ("task a\nnext #\n", 14, 2, 12),
    ("task a\nemit #\nstop\n", 14, 2, 12),
    ("task a\nemit #1\nstop\n", 14, 2, 12),
    ("var # 1\n", 13, 1, 4),
    ("loc #a\n", 13, 1, 4),
    ("var a #1\n", 15, 1, 6),
    ("v ar a 1\n", 12, 1, 0),
    ("vara 1\n", 12, 1, 0),
    ("task a\nset x in0+1\nstop\n", 12, 2, 7),
    ("task a\nnext a 0=0 a\n", 12, 2, 7),
    ("var a\n1\n", 12, 1, 0),
];

// Only lines that are skipped.
const NOTHING: [Refused; 9] = [
    ("", 18, 0, 0),
    ("\n", 18, 0, 1),
    ("\n\n\n", 18, 0, 3),
    (" ", 18, 0, 1),
    ("     \n     ", 18, 0, 11),
    ("#", 18, 0, 1),
    ("#\n", 18, 0, 2),
    ("# task a\n# stop\n", 18, 0, 16),
    ("#task a\n#stop", 18, 0, 13),
];

#[test]
fn skipped(rt: HostRuntime) {
    check_accepted(&rt, &SKIPPED);
    check_refused(&rt, &NOTHING);
}

#[test]
fn blanks(rt: HostRuntime) {
    check_accepted(&rt, &BLANKS);
    check_refused(&rt, &BEHIND);
}
