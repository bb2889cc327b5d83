// A second reading of task texts, by their words as strings. It knows no limits: it is given texts of few lines and
// allowed bytes.
use std::alloc::{AllocError, Global};

const INPUTS: [&str; 8] = ["in0", "in1", "in2", "in3", "in4", "in5", "in6", "in7"];

// A word, and where it stands.
#[derive(Clone, Copy)]
struct Word<'t> {
    text: &'t str,
    line: usize,
    byte: usize,
}

// What is told of a word.
fn told(number: usize, word: &Word<'_>) -> Option<[usize; 3]> {
    Some([number, word.line, word.byte])
}

// The words of a line that begins at a byte.
fn words(
    alloc: Global,
    text: &str,
    line: usize,
    start: usize,
) -> Result<Vec<Word<'_>>, AllocError> {
    let mut words = Vec::new(alloc);
    let mut byte = start;
    for part in text.split(' ') {
        if !part.is_empty() {
            words.push(Word {
                text: part,
                line,
                byte,
            })?;
        }
        byte = byte.saturating_add(part.len()).saturating_add(1);
    }
    Ok(words)
}

// The word at a place of a line, if there is one.
fn text_at<'t>(line: &[Word<'t>], place: usize) -> &'t str {
    match line.get(place) {
        Some(word) => word.text,
        None => "",
    }
}

// The lines that are not skipped.
fn lines(alloc: Global, text: &str) -> Result<Vec<Vec<Word<'_>>>, AllocError> {
    let mut lines = Vec::new(alloc);
    let mut start = 0_usize;
    for (number, line) in text.split('\n').enumerate() {
        let words = words(alloc, line, number.saturating_add(1), start)?;
        let first = text_at(&words, 0);
        if !first.is_empty() && !first.starts_with('#') {
            lines.push(words)?;
        }
        start = start.saturating_add(line.len()).saturating_add(1);
    }
    Ok(lines)
}

// What the words behind a keyword are to be, a letter for each: a name, a word, a target, an operand, a reach, or
// anything.
fn letters(line: &[Word<'_>]) -> Option<&'static str> {
    let sign = text_at(line, 3);
    let is_operator = ["+", "-", "&", "|", "^", "/", "%"].contains(&sign);
    let is_comparison = sign == "=" || sign == "<";
    match (text_at(line, 0), line.len()) {
        ("var", 3) => Some("nw"),
        ("loc" | "task", 2) => Some("n"),
        ("set", 5) if is_operator => Some("to-o"),
        ("emit", 2) => Some("o"),
        ("skip", 5) if is_comparison => Some("ro-o"),
        ("next", 2) => Some("-"),
        ("next", 6) if is_comparison => Some("-o-o-"),
        ("stop", 1) => Some(""),
        _ => None,
    }
}

fn is_name(text: &str) -> bool {
    for (place, letter) in text.bytes().enumerate() {
        if !letter.is_ascii_lowercase() && (place == 0 || !letter.is_ascii_digit()) {
            return false;
        }
    }
    (1..=12).contains(&text.len()) && !INPUTS.contains(&text)
}

fn begins_with_digit(text: &str) -> bool {
    matches!(text.as_bytes(), [b'0'..=b'9', ..])
}

// The number that it is, if it is one.
fn number(text: &str) -> Option<u16> {
    if text.len() <= 5 && begins_with_digit(text) {
        text.parse::<u16>().ok()
    } else {
        None
    }
}

// What the lines so far declare, and whether a task is without its ending.
#[derive(Drop)]
struct Reading<'t> {
    values: Vec<&'t str>,
    tasks: Vec<&'t str>,
    is_open: bool,
}

impl<'t> Reading<'t> {
    // The number of what offends, where a letter says what the word is to be.
    fn word_offence(&self, letter: u8, text: &'t str) -> Option<usize> {
        let is_value = self.values.contains(&text);
        let is_declared = is_value || self.tasks.contains(&text);
        let (offence, is_fine) = match letter {
            b'n' => (13, is_name(text) && !is_declared),
            b'w' => (15, number(text).is_some()),
            b't' => (14, is_value),
            b'o' if begins_with_digit(text) => (15, number(text).is_some()),
            b'o' => (14, is_value || INPUTS.contains(&text)),
            b'r' => (15, matches!(number(text), Some(1..=15))),
            _ => (0, true),
        };
        if is_fine { None } else { Some(offence) }
    }

    // Whether a line with this keyword may come.
    fn allows(&self, keyword: &str) -> bool {
        match keyword {
            "var" | "loc" => self.tasks.is_empty(),
            "task" => !self.is_open,
            _ => self.is_open,
        }
    }

    // What is told of a line, if it offends.
    fn offence(&self, line: &[Word<'t>]) -> Option<[usize; 3]> {
        let first = line.first()?;
        if !self.allows(first.text) {
            return told(12, first);
        }
        let Some(letters) = letters(line) else {
            return told(12, first);
        };
        for (letter, word) in letters.bytes().zip(line.iter().skip(1)) {
            if let Some(number) = self.word_offence(letter, word.text) {
                return told(number, word);
            }
        }
        None
    }

    // Goes on behind a line.
    fn take(&mut self, line: &[Word<'t>]) -> Result<(), AllocError> {
        let name = text_at(line, 1);
        match text_at(line, 0) {
            "var" | "loc" => self.values.push(name)?,
            "task" => {
                self.tasks.push(name)?;
                self.is_open = true;
            }
            "next" | "stop" => self.is_open = false,
            _ => {}
        }
        Ok(())
    }

    // The first T or U of a next that is no task's name.
    fn task_offence(&self, lines: &[Vec<Word<'t>>]) -> Option<[usize; 3]> {
        for line in lines {
            for place in [1, 5] {
                if text_at(line, 0) == "next"
                    && let Some(word) = line.get(place)
                    && !self.tasks.contains(&word.text)
                {
                    return told(14, word);
                }
            }
        }
        None
    }

    // What the rounds behind that of the lines tell.
    fn late_offence(&self, text: &str, lines: &[Vec<Word<'t>>]) -> Option<[usize; 3]> {
        if self.is_open || self.tasks.is_empty() {
            return Some([18, 0, text.len()]);
        }
        let task = self.task_offence(lines);
        if task.is_some() {
            return task;
        }
        let skip = skip_offence(lines);
        if skip.is_some() {
            return skip;
        }
        emit_offence(lines)
    }
}

// The first skip with too few statements behind it, of all from the last to the first.
fn skip_offence(lines: &[Vec<Word<'_>>]) -> Option<[usize; 3]> {
    let mut offence = None;
    let mut behind = 0_u16;
    for line in lines.iter().rev() {
        let first = line.first()?;
        match first.text {
            "next" | "stop" => behind = 0,
            _ => behind = behind.saturating_add(1),
        }
        let reach = number(text_at(line, 1)).unwrap_or(0);
        if first.text == "skip" && behind <= reach {
            offence = told(17, first);
        }
    }
    offence
}

// The first task with more than eight emits.
fn emit_offence(lines: &[Vec<Word<'_>>]) -> Option<[usize; 3]> {
    let mut task = None;
    let mut emits = 0_u16;
    for line in lines {
        let first = line.first()?;
        match first.text {
            "task" => {
                task = told(19, first);
                emits = 0;
            }
            "emit" => emits = emits.saturating_add(1),
            _ => {}
        }
        if emits > 8 {
            return task;
        }
    }
    None
}

// What is told of a text: a number, a line and a byte.
pub(crate) fn read(alloc: Global, text: &str) -> Result<Option<[usize; 3]>, AllocError> {
    let lines = lines(alloc, text)?;
    let mut reading = Reading {
        values: Vec::new(alloc),
        tasks: Vec::new(alloc),
        is_open: false,
    };
    for line in lines.iter() {
        let offence = reading.offence(line);
        if offence.is_some() {
            return Ok(offence);
        }
        reading.take(line)?;
    }
    Ok(reading.late_offence(text, &lines))
}
