// Tokens that are tried at many places of a text: each frame is a text without the token.
use crate::told::{behind, told};
use std::alloc::{AllocError, Global};
use std::process::Abort;

// The parts of a text, between which the token stands.
pub(crate) type Frame = &'static [&'static str];

// The text, with the token between its parts.
fn framed(alloc: Global, frame: Frame, token: &str) -> Result<String, AllocError> {
    let mut text = String::new(alloc);
    for (number, part) in frame.iter().enumerate() {
        if number > 0 {
            text.push_str(token)?;
        }
        text.push_str(part)?;
    }
    Ok(text)
}

// Each token in each frame is told with this number where it first stands.
pub(crate) fn check_refused_in(
    rt: &(impl Abort + AllocGlobal),
    number: usize,
    frames: &[Frame],
    tokens: &[&str],
) -> Result<(), AllocError> {
    for frame in frames {
        let front = frame.first().expect(rt, "a first part");
        let expected = behind(number, front);
        for token in tokens {
            let text = framed(rt.alloc(), frame, token)?;
            assert_eq!(rt; told(text.as_bytes()), Some(expected), "{text:?}");
        }
    }
    Ok(())
}

// Each token in each frame is accepted.
pub(crate) fn check_accepted_in(
    rt: &(impl Abort + AllocGlobal),
    frames: &[Frame],
    tokens: &[&str],
) -> Result<(), AllocError> {
    for frame in frames {
        for token in tokens {
            let text = framed(rt.alloc(), frame, token)?;
            assert_eq!(rt; told(text.as_bytes()), None, "{text:?}");
        }
    }
    Ok(())
}
