// What is wrong in a refused rule, and what is allowed there: one sentence for a person, which contracts say nothing of.
use crate::line::Marked;
use text::refusal::Refusal;

// What offends: the first word of its line, and which word of the line it is, from 0.
#[derive(Clone, Copy)]
struct Spot<'t> {
    keyword: &'t [u8],
    word: usize,
}

impl<'t> Spot<'t> {
    fn of(marked: Marked<'t>) -> Spot<'t> {
        let Marked { line, column } = marked;
        let before = line.get(..column).unwrap_or(line);
        Spot {
            keyword: line
                .split(|&byte| byte == b' ')
                .find(|word| !word.is_empty())
                .unwrap_or(b""),
            word: before
                .split(|&byte| byte == b' ')
                .filter(|word| !word.is_empty())
                .count(),
        }
    }
}

// A line of no form that is allowed where it stands.
fn form_sentence(keyword: &[u8]) -> &'static str {
    match keyword {
        b"var" => {
            "A line with var is written var NAME NUMBER, has no other words, and stands before the first task."
        }
        b"loc" => {
            "A line with loc is written loc NAME, has no other words, and stands before the first task."
        }
        b"task" => {
            "A line with task is written task NAME, has no other words, and does not stand inside a task, whose last line is a next or a stop."
        }
        b"set" => {
            "A line with set is written set NAME A OP B, where OP is one of + - & | ^ / %, has no other words, and stands in a task before its last line."
        }
        b"emit" => {
            "A line with emit is written emit A, has no other words, and stands in a task before its last line."
        }
        b"skip" => {
            "A line with skip is written skip K A CMP B, where CMP is = or <, has no other words, and stands in a task before its last line."
        }
        b"next" => {
            "A line with next is written next TASK, or next TASK A CMP B TASK where CMP is = or <, has no other words, and is the last line of a task."
        }
        b"stop" => "A line with stop has no other words, and is the last line of a task.",
        _ => {
            "A line begins with one of the words var, loc, task, set, emit, skip, next and stop, or with # if it is a remark."
        }
    }
}

// A word that names nothing which may stand there.
fn unknown_sentence(spot: Spot<'_>) -> &'static str {
    match (spot.keyword, spot.word) {
        (b"set", 1) =>
            "Only a variable or a local can be set, and it is declared before the first task.",
        (b"next", 1 | 5) =>
            "No task of this text has this name, and only the name of a task may stand here.",
        _ => {
            "This has no value: only a number, one of the inputs in0 to in7, or a variable or a local that is declared before the first task may stand here."
        }
    }
}

// A word that is no number which may stand there.
fn number_sentence(spot: Spot<'_>) -> &'static str {
    match (spot.keyword, spot.word) {
        (b"skip", 1) => "How many statements a skip passes over is a number from 1 to 15.",
        _ =>
            "This is no number that is allowed: a number has 1 to 5 digits and no other signs, and is at most 65,535.",
    }
}

// A line with which there are too many of its kind.
fn limit_sentence(keyword: &[u8]) -> &'static str {
    match keyword {
        b"var" => "There are too many variables: a text has at most 48.",
        b"loc" => "There are too many locals: a text has at most 8.",
        b"task" => "There are too many tasks: a text has at most 16.",
        _ => {
            "There are too many statements: a task has at most 64, its last line included, and a text has at most 256."
        }
    }
}

pub(crate) fn sentence(refusal: Refusal, marked: Option<Marked<'_>>) -> &'static str {
    let spot = match marked {
        Some(marked) => Spot::of(marked),
        None => Spot {
            keyword: b"",
            word: 0,
        },
    };
    match refusal {
        Refusal::ShortScratch => "There is too little room to work out what the tasks can cost.",
        Refusal::TooLong => {
            "The text is too long: it has at most 16,384 characters, with the ends of its lines."
        }
        Refusal::Byte(_) => {
            "This character may not stand in a text, not even in a remark: allowed are blanks and the letters, digits and signs of a plain English keyboard, so no tabs and no accents."
        }
        Refusal::Form(_) => form_sentence(spot.keyword),
        Refusal::Name(_) => {
            "This is no new name: a name has 1 to 12 of the letters a to z and the digits 0 to 9, begins with a letter, is none of in0 to in7, and is declared only once."
        }
        Refusal::Unknown(_) => unknown_sentence(spot),
        Refusal::Number(_) => number_sentence(spot),
        Refusal::Limit(_) => limit_sentence(spot.keyword),
        Refusal::Skip(_) => {
            "This skip goes beyond the end of its task: it goes at most to the task's last line."
        }
        Refusal::Unfinished(_) => {
            "The text is not complete: it has at least one task, and the last line of each task is a next or a stop."
        }
        Refusal::Emits(_) => "This task has too many lines with emit: it has at most 8.",
    }
}
