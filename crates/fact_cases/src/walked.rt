// The facts of all tasks of four statements and an ending over a small alphabet, beside those of a walk along each path.
use crate::lines::Line::{self, Choose, Emit, Set, Skip, Stop};
use crate::lines::Name::{Number, Variable};
use crate::lines::{index, program};
use crate::told::{facts, touches};
use crate::walk::{Deed, LENGTH, emits, stores, touched};
use facts::touched::Touches;
use std::process::Abort;
use std::test::Fail;

// Which of two variables are meant.
const NONE: [bool; 2] = [false, false];

const FIRST: [bool; 2] = [true, false];

const SECOND: [bool; 2] = [false, true];

const BOTH: [bool; 2] = [true, true];

// A statement, which variables it reads and writes, the words that it emits, and its reach, if it is a skip.
type Symbol = (Line, [bool; 2], [bool; 2], u8, u8);

const ALPHABET: [Symbol; 12] = [
    (Set(0, Number(1), Number(0)), NONE, FIRST, 0, 0),
    (Set(1, Number(1), Number(0)), NONE, SECOND, 0, 0),
    (Set(0, Variable(1), Number(0)), SECOND, FIRST, 0, 0),
    (Set(1, Variable(0), Variable(1)), BOTH, SECOND, 0, 0),
    (Set(0, Number(1), Variable(0)), FIRST, FIRST, 0, 0),
    (Emit(Variable(0)), FIRST, NONE, 1, 0),
    (Emit(Variable(1)), SECOND, NONE, 1, 0),
    (Skip(1, Number(0), Number(1)), NONE, NONE, 0, 1),
    (Skip(1, Variable(0), Number(1)), FIRST, NONE, 0, 1),
    (Skip(2, Number(0), Number(1)), NONE, NONE, 0, 2),
    (Skip(2, Number(1), Variable(1)), SECOND, NONE, 0, 2),
    (Skip(3, Number(0), Number(1)), NONE, NONE, 0, 3),
];

const ENDINGS: [Symbol; 2] = [
    (Stop, NONE, NONE, 0, 0),
    (Choose(Variable(0), Variable(1)), BOTH, NONE, 0, 0),
];

// How many tasks there are with one ending, those among them included whose skips lead past it.
const TASKS: usize = 12 * 12 * 12 * 12;

// The task of a number.
fn spelt(number: usize, ending: Symbol) -> [Symbol; LENGTH] {
    [
        ALPHABET[number % 12],
        ALPHABET[number / 12 % 12],
        ALPHABET[number / 144 % 12],
        ALPHABET[number / 1728 % 12],
        ending,
    ]
}

// No skip leads past the ending.
fn stays(task: &[Symbol; LENGTH]) -> bool {
    task.iter().enumerate().all(|(at, symbol)| symbol.4 == 0
        || at + usize::from(symbol.4) < LENGTH - 1)
}

fn deed((_, reads, writes, emits, reach): Symbol) -> Deed {
    Deed {
        reads,
        writes,
        emits,
        reach,
    }
}

// Whether a variable is in each of the three sets.
fn flags(touches: Touches, number: u8) -> Result<[bool; 3], Fail> {
    let variable = index(number)?;
    Ok([touches.written, touches.read_first, touches.logged].map(|set| set.contains(variable)))
}

// The facts of a task are those that the walk finds.
fn check(rt: &impl Abort, number: usize, task: [Symbol; LENGTH]) -> Result<(), Fail> {
    let program = program(&[&task.map(|symbol| symbol.0)])?;
    let deeds = task.map(deed);
    let (first, second) = (touched(&deeds, 0), touched(&deeds, 1));
    let found = touches(&program, index(0)?)?;
    assert_eq!(rt;
        [flags(found, 0)?, flags(found, 1)?],
        [first, second],
        "task {number}"
    );
    let costs = facts(&program, index(0)?)?;
    assert_eq!(rt; costs.logged, found.logged, "task {number}");
    let expected = [emits(&deeds), stores(&deeds, [first[2], second[2]])];
    assert_eq!(rt; [costs.emits, costs.direct], expected, "task {number}");
    Ok(())
}

// So it is with every task that is well formed, whatever its ending.
#[test]
fn every_path(rt: HostRuntime) -> Result<(), Fail> {
    for number in 0..TASKS {
        for ending in ENDINGS {
            let task = spelt(number, ending);
            if stays(&task) {
                check(&rt, number, task)?;
            }
        }
    }
    Ok(())
}

// At the four places twelve, eleven, nine and seven statements can stand.
#[test]
fn well_formed(rt: HostRuntime) {
    let tasks = (0..TASKS).filter(|number| stays(&spelt(*number, ENDINGS[0])));
    assert_eq!(rt; tasks.count(), 12 * 11 * 9 * 7);
}
