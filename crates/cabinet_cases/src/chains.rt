// Memories that are opened: the words of the next task and of the record's length, and the chain of a log.
use crate::driver::check_settles;
use crate::make::{opened, plain_words, unopened};
use crate::shown::{check_refused, check_words};
use crate::stores::words_after;
use crate::texts::{DUE, rules_of};
use calls::refusal::Phase;
use memory::interface::Memory;
use rules::rules::Rules;
use std::process::Abort;
use std::test::Fail;

// Words at places 3, 4 and 0, and the number that is told of them: the first that is amiss, in this order.
const WORDS: [([u16; 3], u8); 16] = [
    ([1, 0, 0], 22),
    ([15, 0, 0], 22),
    ([17, 0, 0], 22),
    ([256, 0, 0], 22),
    ([65535, 0, 0], 22),
    ([1, 9, 14], 22),
    ([1, 0, 15], 22),
    ([0, 9, 0], 23),
    ([16, 65535, 0], 23),
    ([0, 256, 0], 23),
    ([0, 9, 14], 23),
    ([0, 9, 15], 23),
    ([0, 0, 1], 24),
    ([0, 0, 14], 24),
    ([16, 8, 16], 24),
    ([16, 8, 65535], 24),
];

// Logs from place 15 on that are astray.
const ASTRAY: [&[u16]; 24] = [
    // a next that is neither 0 nor the next place but two
    &[15, 1, 7, 0, 2, 7],
    &[1, 1, 7, 0, 2, 7],
    &[17, 1, 7, 0, 2, 7],
    &[19, 1, 7, 0, 2, 7],
    &[21, 1, 7, 0, 2, 7, 0, 3, 0],
    &[65535, 1, 7, 0, 2, 7],
    &[18, 1, 7, 18, 2, 7],
    &[18, 1, 7, 15, 2, 7],
    &[18, 1, 7, 24, 2, 7],
    // a place that is not in the page
    &[0, 0, 7],
    &[0, 15, 7],
    &[0, 65535, 7],
    &[18, 0, 7, 0, 1, 7],
    &[18, 14, 7, 0, 15, 7],
    // a place that does not rise
    &[18, 1, 7, 0, 1, 7],
    &[18, 2, 7, 0, 1, 7],
    &[18, 1, 7, 21, 14, 7, 0, 13, 7],
    &[18, 1, 7, 21, 6, 7, 24, 6, 7, 0, 7, 7],
    // no task, and no length
    &[0, 3, 1],
    &[0, 3, 15],
    &[0, 3, 17],
    &[18, 3, 65535, 0, 4, 0],
    &[0, 4, 9],
    &[18, 1, 7, 21, 4, 65535, 0, 14, 7],
];

// Logs that are well, though they lack entries, and the visit number behind them.
const WELL: [(&[u16], u32); 7] = [
    (&[0, 14, 7], 3),
    (&[0, 1, 1000], 1000),
    (&[18, 2, 5, 0, 13, 9], 327_683),
    (&[18, 3, 0, 0, 4, 8], 3),
    (&[0, 3, 16], 3),
    (&[18, 5, 65535, 21, 12, 1, 0, 13, 65535], 3),
    (&WHOLE, 65536),
];

// The log of all places of the page.
const WHOLE: [u16; 42] = [
    18, 1, 0, 21, 2, 1, 24, 3, 16, 27, 4, 8, 30, 5, 7, 33, 6, 7, 36, 7, 7, 39, 8, 7, 42, 9, 7, 45,
    10, 7, 48, 11, 7, 51, 12, 7, 54, 13, 7, 0, 14, 7,
];

// The words of a memory behind the third visit, with a log.
fn words_with(head: u16, log: &[u16]) -> [u16; 57] {
    let mut words = words_after(0);
    words[0] = head;
    words[1] = 3;
    for (word, logged) in words.iter_mut().skip(15).zip(log) {
        *word = *logged;
    }
    words
}

// Such words are refused with this number, and left as they were.
fn check_unopened(
    rt: &impl Abort,
    rules: &Rules,
    mut words: [u16; 57],
    expected: u8,
) -> Result<(), Fail> {
    let before = words;
    let (number, memory) = unopened(rules, plain_words(&mut words)?)?;
    assert_eq!(rt; number, expected, "{before:?}");
    check_words(rt, &memory, 0, &before)
}

// At rest, where no log is looked at.
fn check_rest<M: Memory + Drop>(
    rt: &impl Abort,
    rules: &Rules,
    memory: M,
    next: u8,
) -> Result<(), Fail> {
    let mut cabinet = opened(rules, memory)?;
    check_refused(rt, &mut cabinet, Phase::Rest, next);
    Ok(())
}

#[test]
fn refused(rt: HostRuntime) -> Result<(), Fail> {
    let rules = rules_of(DUE)?;
    for ([next, length, head], number) in WORDS {
        let mut words = words_with(head, &[0, 3, 0]);
        words[3] = next;
        words[4] = length;
        check_unopened(&rt, &rules, words, number)?;
    }
    for log in ASTRAY {
        check_unopened(&rt, &rules, words_with(15, log), 24)?;
        let mut words = words_with(0, log);
        check_rest(&rt, &rules, plain_words(&mut words)?, 0)?;
    }
    Ok(())
}

// The words behind the commit of a log, and how many entries it has.
fn applied(log: &[u16]) -> ([u16; 57], u16) {
    let mut words = words_with(0, log);
    let mut count = 0u16;
    for entry in log.chunks(3) {
        if let [_, place, word] = entry
            && let Some(old) = words.get_mut(usize::from(*place))
        {
            *old = *word;
            count = count.saturating_add(1);
        }
    }
    (words, count)
}

// Such a log is applied to its end, by a step for each entry and one for the head, and no other word is altered.
fn check_well<M: Memory + Drop>(
    rt: &impl Abort,
    rules: &Rules,
    memory: M,
    log: &[u16],
    number: u32,
) -> Result<(), Fail> {
    let (words, count) = applied(log);
    let mut cabinet = opened(rules, memory)?;
    check_refused(rt, &mut cabinet, Phase::Applying, 0);
    check_settles(rt, &mut cabinet, count, number);
    check_words(rt, &cabinet.into_memory(), 0, &words)
}

#[test]
fn well(rt: HostRuntime) -> Result<(), Fail> {
    let rules = rules_of(DUE)?;
    for (log, number) in WELL {
        let mut words = words_with(15, log);
        check_well(&rt, &rules, plain_words(&mut words)?, log, number)?;
    }
    let mut words = words_with(0, &[]);
    words[3] = 16;
    words[4] = 8;
    check_rest(&rt, &rules, plain_words(&mut words)?, 16)
}
