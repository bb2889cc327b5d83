// What compile tells of a text.
use compile::compile::{Compiled, compile};
use facts::kind::Kind;
use facts::most::Counts;
use facts::touched::{Touched, Touches};
use std::process::Abort;
use text::refusal::Refusal;

// A text, and the number, the line and the byte that are told of it.
pub(crate) type Refused = (&'static str, usize, usize, usize);

// The counts of no statement.
pub(crate) const NO_COUNTS: Counts = Counts {
    emits: 0,
    direct: 0,
};

// The fact of no statement.
pub(crate) fn untouched() -> Touches {
    Touched.start()
}

// The number, the line and the byte that an answer tells, if it is a refusal.
pub(crate) fn told_by(answer: Result<Compiled<'_>, Refusal>) -> Option<[usize; 3]> {
    match answer {
        Ok(_) => None,
        Err(refusal) => {
            let told = refusal.told();
            Some([
                usize::from(told.number),
                usize::from(told.line),
                usize::from(told.byte),
            ])
        }
    }
}

// The number that is told, or 0 if nothing is.
pub(crate) fn number_of(told: Option<[usize; 3]>) -> usize {
    match told {
        Some(told) => told[0],
        None => 0,
    }
}

// What is told of a text, if it is refused.
pub(crate) fn told(text: &[u8]) -> Option<[usize; 3]> {
    let answer = compile(text, &mut [untouched(); 64], &mut [NO_COUNTS; 64]);
    told_by(answer)
}

// A number, with the line and the byte right behind a part of a text.
pub(crate) fn behind(number: usize, front: &str) -> [usize; 3] {
    [number, front.split('\n').count(), front.len()]
}

// Each text is refused as the table says.
pub(crate) fn check_refused(rt: &impl Abort, texts: &[Refused]) {
    for (text, number, line, byte) in texts {
        let expected = [*number, *line, *byte];
        assert_eq!(rt; told(text.as_bytes()), Some(expected), "{text:?}");
    }
}

// Each text is accepted.
pub(crate) fn check_accepted(rt: &impl Abort, texts: &[&str]) {
    for text in texts {
        assert_eq!(rt; told(text.as_bytes()), None, "{text:?}");
    }
}
