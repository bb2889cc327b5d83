// What a cabinet and its memory show, compared with what they are to show.
use cabinet::cabinet::Cabinet;
use calls::answer::Woken;
use calls::refusal::{Phase, Refusal, Told};
use memory::interface::Memory;
use plain::machine::Machine;
use program::statement::{Next, Task};
use rules::rules::Rules;
use std::process::Abort;
use std::test::Fail;

// A task as what comes next; 16 for a stop.
pub(crate) fn next(number: u8) -> Next {
    match Task::new(number) {
        Some(task) => Next::Task(task),
        None => Next::Stopped,
    }
}

// What is told of a refusal that is no cut.
pub(crate) fn told(number: u8, before: Phase, task: u8) -> Told {
    Told {
        number,
        carried: None,
        before,
        task: next(task),
    }
}

// A call is refused, with this told of it.
pub(crate) fn check_told<T: Drop>(rt: &impl Abort, answer: Result<T, Refusal>, expected: Told) {
    match answer {
        Ok(_) => panic!(rt; "accepted, and not {expected:?}"),
        Err(refusal) => assert_eq!(rt; refusal.told(), expected),
    }
}

// The numbers of a begin with nothing right, of a step, and of a record, in a state that refuses them.
fn numbers(before: Phase, task: u8) -> (u8, Option<u8>, Option<u8>) {
    match before {
        Phase::Settled | Phase::Rest if task == 16 => (31, Some(35), None),
        Phase::Settled | Phase::Rest => (32, Some(35), None),
        Phase::Running | Phase::Logging => (30, None, None),
        Phase::Applying => (30, None, Some(36)),
        Phase::Dark => (3, Some(3), Some(3)),
    }
}

// What a state refuses, with this task last read; the buffer is left as it was.
pub(crate) fn check_refused<M: Memory>(
    rt: &impl Abort,
    cabinet: &mut Cabinet<'_, M>,
    before: Phase,
    task: u8,
) {
    let (begin, step, record) = numbers(before, task);
    check_told(rt, cabinet.begin(u32::MAX, &[]), told(begin, before, task));
    if let Some(number) = step {
        check_told(rt, cabinet.step(), told(number, before, task));
    }
    let mut buffers = ([7; 7], [7; 8], [7; 9]);
    let length = told(38, before, task);
    check_told(rt, cabinet.record(&mut buffers.0), length);
    check_told(rt, cabinet.record(&mut buffers.2), length);
    if let Some(number) = record {
        let answer = cabinet.record(&mut buffers.1);
        check_told(rt, answer, told(number, before, task));
    }
    assert!(rt; buffers == ([7; 7], [7; 8], [7; 9]));
}

// A relight answers this.
pub(crate) fn check_relight<M: Memory>(
    rt: &impl Abort,
    cabinet: &mut Cabinet<'_, M>,
    charge: u32,
    woken: Woken,
) {
    assert_eq!(rt; cabinet.relight(charge, 0), Ok(woken));
}

// The memory's words from a place on.
pub(crate) fn check_words<M: Memory>(
    rt: &impl Abort,
    memory: &M,
    from: u16,
    words: &[u16],
) -> Result<(), Fail> {
    for (place, &word) in (from..).zip(words) {
        assert_eq!(rt; memory.read(place)?, word, "place {place}");
    }
    Ok(())
}

// The record is this one, with 0 beyond its length.
pub(crate) fn check_record<M: Memory>(
    rt: &impl Abort,
    cabinet: &Cabinet<'_, M>,
    record: &[u16],
) -> Result<(), Fail> {
    let mut buffer = [7; 8];
    let length = cabinet.record(&mut buffer)?;
    assert_eq!(rt; usize::from(length), record.len());
    for (at, word) in buffer.iter().enumerate() {
        assert_eq!(rt; *word, record.get(at).copied().unwrap_or(0));
    }
    Ok(())
}

// The cabinet's record and its memory's page are those of the plain machine.
pub(crate) fn check_as_plain<M: Memory + Drop>(
    rt: &impl Abort,
    cabinet: Cabinet<'_, M>,
    machine: &Machine<'_>,
    rules: &Rules,
) -> Result<(), Fail> {
    check_record(rt, &cabinet, machine.last_record().as_slice())?;
    let memory = cabinet.into_memory();
    let mut page = [0; 60];
    let end = 12 + rules.program().firsts().len();
    machine.page(&mut page[..end])?;
    check_words(rt, &memory, 1, &page[..4])?;
    check_words(rt, &memory, 13, &page[12..end])
}
