// The rule of due dates, as a text, and how it is compiled.
use anyhow::bail;
use compile::compile::{Compiled, compile};
use facts::kind::Kind;
use facts::most::Counts;
use facts::pass::LEAST_SCRATCH;
use facts::touched::Touched;

pub(crate) const TEXT: &str = "var due 0
var n 5
loc t
task a
set t in0 + 14
set due t + 0
set n n + 1
emit due
next a
";

pub(crate) fn due_date() -> anyhow::Result<Compiled<'static>> {
    let mut touched = [Touched.start(); LEAST_SCRATCH];
    let mut most = [Counts {
        emits: 0,
        direct: 0,
    }; LEAST_SCRATCH];
    match compile(TEXT.as_bytes(), &mut touched, &mut most) {
        Ok(compiled) => Ok(compiled),
        Err(refusal) => {
            let told = refusal.told();
            bail!(
                "the rule is refused with {} at line {}, byte {}",
                told.number,
                told.line,
                told.byte
            )
        }
    }
}
