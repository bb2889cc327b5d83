// The rules that the cabinets run, as texts.
use compile::compile::compile;
use facts::kind::Kind;
use facts::most::Counts;
use facts::touched::Touched;
use rules::rules::Rules;
use std::test::Fail;

// The rule of due dates: `n` is logged, `due` is not.
pub(crate) const DUE: &str = "var due 0
var n 5
loc t
task a
set t in0 + 14
set due t + 0
set n n + 1
emit due
next a
";

// A rule with two tasks, the second of which stops: it emits two words and then one, logs in the first task alone, and sets
// `a` to the word that it had.
pub(crate) const TWO: &str = "var a 3
var b 7
loc t
task one
set t a + in0
emit t
emit b
set a a + 0
set b t + in1
next two
task two
emit a
set b in0 - a
stop
";

// A rule with 48 variables, all of them logged, and eight emits.
pub(crate) const LARGE: &str = "\
var a0 0\nvar a1 1\nvar a2 2\nvar a3 3\nvar a4 4\nvar a5 5\nvar a6 6\nvar a7 7\nvar b0 8\n\
var b1 9\nvar b2 10\nvar b3 11\nvar b4 12\nvar b5 13\nvar b6 14\nvar b7 15\nvar c0 16\nvar c1 17\n\
var c2 18\nvar c3 19\nvar c4 20\nvar c5 21\nvar c6 22\nvar c7 23\nvar d0 24\nvar d1 25\n\
var d2 26\nvar d3 27\nvar d4 28\nvar d5 29\nvar d6 30\nvar d7 31\nvar e0 32\nvar e1 33\n\
var e2 34\nvar e3 35\nvar e4 36\nvar e5 37\nvar e6 38\nvar e7 39\nvar f0 40\nvar f1 41\n\
var f2 42\nvar f3 43\nvar f4 44\nvar f5 45\nvar f6 46\nvar f7 47\ntask a\nset a0 a0 + in0\n\
set a1 a1 + in1\nset a2 a2 + in2\nset a3 a3 + in3\nset a4 a4 + in4\nset a5 a5 + in5\n\
set a6 a6 + in6\nset a7 a7 + in7\nset b0 b0 + in0\nset b1 b1 + in1\nset b2 b2 + in2\n\
set b3 b3 + in3\nset b4 b4 + in4\nset b5 b5 + in5\nset b6 b6 + in6\nset b7 b7 + in7\n\
set c0 c0 + in0\nset c1 c1 + in1\nset c2 c2 + in2\nset c3 c3 + in3\nset c4 c4 + in4\n\
set c5 c5 + in5\nset c6 c6 + in6\nset c7 c7 + in7\nset d0 d0 + in0\nset d1 d1 + in1\n\
set d2 d2 + in2\nset d3 d3 + in3\nset d4 d4 + in4\nset d5 d5 + in5\nset d6 d6 + in6\n\
set d7 d7 + in7\nset e0 e0 + in0\nset e1 e1 + in1\nset e2 e2 + in2\nset e3 e3 + in3\n\
set e4 e4 + in4\nset e5 e5 + in5\nset e6 e6 + in6\nset e7 e7 + in7\nset f0 f0 + in0\n\
set f1 f1 + in1\nset f2 f2 + in2\nset f3 f3 + in3\nset f4 f4 + in4\nset f5 f5 + in5\n\
set f6 f6 + in6\nset f7 f7 + in7\nemit a0\nemit a1\nemit a2\nemit a3\nemit a4\nemit a5\nemit a6\n\
emit a7\nnext a\n";

// What a text is compiled to.
pub(crate) fn rules_of(text: &str) -> Result<Rules, Fail> {
    let mut touched = [Touched.start(); 64];
    let mut most = [Counts {
        emits: 0,
        direct: 0,
    }; 64];
    match compile(text.as_bytes(), &mut touched, &mut most) {
        Ok(compiled) => Ok(compiled.rules),
        Err(refusal) => Err(Fail::from(refusal)),
    }
}
