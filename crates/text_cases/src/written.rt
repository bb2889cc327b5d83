// Long texts.
use std::alloc::{AllocError, Global};
use std::fmt::Write;

// Two parts of a text.
pub(crate) fn joined(alloc: Global, front: &str, behind: &str) -> Result<String, AllocError> {
    let mut text = String::from_str(alloc, front)?;
    text.push_str(behind)?;
    Ok(text)
}

// The same lines, so many times.
pub(crate) fn times(alloc: Global, count: usize, lines: &str) -> Result<String, AllocError> {
    let mut text = String::new(alloc);
    for _ in 0..count {
        text.push_str(lines)?;
    }
    Ok(text)
}

// The same lines, so many times, with a number in them that is counted from 0.
pub(crate) fn numbered(
    alloc: Global,
    count: usize,
    before: &str,
    behind: &str,
) -> Result<String, AllocError> {
    let mut text = String::new(alloc);
    for number in 0..count {
        write!(text, "{before}{number}{behind}")?;
    }
    Ok(text)
}
