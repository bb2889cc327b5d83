// Begins that are refused where no visit is made, and a visit number that gets its second word.
use crate::driver::check_settles;
use crate::make::{opened, plain_words};
use crate::shown::{check_told, check_words, told};
use crate::stores::{ROW, words_after};
use crate::texts::{DUE, rules_of};
use calls::refusal::Phase;
use memory::interface::Memory;
use rules::rules::Rules;
use std::process::Abort;
use std::test::Fail;

// Words from place 1 on, the number that is taken, the length of the row, and what is told: the first that is amiss, of a
// stop, another number, another length, and the last number.
const REFUSED: [([u16; 3], u32, usize, u8); 13] = [
    ([0, 0, 0], 1, 8, 32),
    ([0, 0, 0], u32::MAX, 7, 32),
    ([0, 0, 0], 0, 0, 33),
    ([0, 0, 0], 0, 7, 33),
    ([0, 0, 0], 0, 9, 33),
    ([0, 0, 16], 0, 8, 31),
    ([0, 0, 16], 7, 0, 31),
    ([5, 1, 0], 5, 8, 32),
    ([5, 1, 0], 65541, 9, 33),
    ([65535, 65535, 0], u32::MAX, 8, 34),
    ([65535, 65535, 0], u32::MAX, 7, 33),
    ([65535, 65535, 0], 0, 7, 32),
    ([65535, 65535, 16], u32::MAX, 8, 31),
];

// The words of a memory that is laid, with these from place 1 on.
fn words_with(words: [u16; 3]) -> [u16; 57] {
    let mut list = words_after(0);
    let [low, high, next] = words;
    list[1] = low;
    list[2] = high;
    list[3] = next;
    list
}

// A begin that is refused at rest, where it stays.
fn check_refused<M: Memory + Drop>(
    rt: &impl Abort,
    rules: &Rules,
    memory: M,
    taken: u32,
    row: &[u16],
    number: u8,
) -> Result<M, Fail> {
    let mut cabinet = opened(rules, memory)?;
    let task = if number == 31 { 16 } else { 0 };
    let answer = cabinet.begin(taken, row);
    check_told(rt, answer, told(number, Phase::Rest, task));
    check_told(rt, cabinet.step(), told(35, Phase::Rest, task));
    Ok(cabinet.into_memory())
}

// Behind visit 65,535.
fn check_second_word<M: Memory + Drop>(
    rt: &impl Abort,
    rules: &Rules,
    memory: M,
) -> Result<(), Fail> {
    let mut cabinet = opened(rules, memory)?;
    cabinet.begin(65535, &ROW)?;
    check_settles(rt, &mut cabinet, 30, 65536);
    let answer = cabinet.begin(65536, &ROW[1..]);
    check_told(rt, answer, told(33, Phase::Settled, 0));
    check_words(rt, &cabinet.into_memory(), 0, &[0, 0, 1, 0, 1])
}

#[test]
fn begins(rt: HostRuntime) -> Result<(), Fail> {
    let rules = rules_of(DUE)?;
    for (words, taken, length, number) in REFUSED {
        let mut list = words_with(words);
        let row = [0; 9];
        let row = row.get(..length).unwrap_or(&row);
        let memory = plain_words(&mut list)?;
        let memory = check_refused(&rt, &rules, memory, taken, row, number)?;
        check_words(&rt, &memory, 0, &words_with(words))?;
    }
    let mut list = words_with([65535, 0, 0]);
    check_second_word(&rt, &rules, plain_words(&mut list)?)
}
