// The slices that the calls work in: how long they must be, and what is left in them.
use crate::lines::Line::{Set, Skip, Stop};
use crate::lines::Name::{Number, Variable};
use crate::lines::{index, program};
use crate::told::{NO_COUNTS, facts, most, touches, untouched};
use facts::most::Counts;
use facts::pass::ShortScratch;
use facts::set::VariableSet;
use facts::tasks::{facts_of, most_of, touched_of};
use facts::touched::Touches;
use program::program::Program;
use std::fmt::Debug;
use std::process::Abort;
use std::test::Fail;

const LENGTHS: [usize; 6] = [0, 1, 63, 64, 65, 100];

// Lengths of both slices of the call that makes two passes.
const PAIRS: [[usize; 2]; 8] = [
    [0, 100],
    [63, 64],
    [63, 63],
    [64, 63],
    [100, 0],
    [64, 64],
    [65, 100],
    [100, 64],
];

// Counts that no task has.
const DIRTY: Counts = Counts {
    emits: 200,
    direct: 255,
};

// What no path of the task touches.
fn dirty() -> Result<Touches, Fail> {
    let set = VariableSet::single(index(40)?);
    Ok(Touches {
        written: set,
        read_first: set,
        logged: set,
    })
}

// skip 1 v < 1, set v v + 1, set u 1 + 0, stop, where v is 0 and u 1
fn task() -> Result<Program, Fail> {
    program(&[&[
        Skip(1, Variable(0), Number(1)),
        Set(0, Variable(0), Number(1)),
        Set(1, Number(1), Number(0)),
        Stop,
    ]])
}

// An answer, or the number of its refusal.
fn by_number<T>(answer: Result<T, ShortScratch>) -> Result<T, u8> {
    answer.map_err(ShortScratch::number)
}

// The facts from the second on, so many, are all the one; those around them are all the other.
fn check_places<F: Copy + PartialEq + Debug>(
    rt: &impl Abort,
    facts: &[F],
    length: usize,
    inside: F,
    around: F,
) {
    for (place, fact) in facts.iter().enumerate() {
        let expected = if (1..=length).contains(&place) {
            inside
        } else {
            around
        };
        assert_eq!(rt; *fact, expected, "place {place} of {length}");
    }
}

// A slice is long enough for a call, or the call is refused with 7 and leaves it as it was.
#[test]
fn touched_slices(rt: HostRuntime) -> Result<(), Fail> {
    let program = task()?;
    let dirty = dirty()?;
    for length in LENGTHS {
        assert!(rt; length <= 100);
        let mut facts = [dirty; 102];
        let answer = touched_of(&program, index(0)?, &mut facts[1..=length]);
        let (expected, inside) = if length < 64 {
            (Err(7), dirty)
        } else {
            (Ok(touches(&program, index(0)?)?), untouched())
        };
        assert_eq!(rt; by_number(answer), expected, "{length} facts");
        check_places(&rt, &facts, length, inside, dirty);
    }
    Ok(())
}

// So it is with counts.
#[test]
fn counted_slices(rt: HostRuntime) -> Result<(), Fail> {
    let program = task()?;
    let logged = VariableSet::empty();
    for length in LENGTHS {
        assert!(rt; length <= 100);
        let mut counts = [DIRTY; 102];
        let answer = most_of(&program, index(0)?, logged, &mut counts[1..=length]);
        let (expected, inside) = if length < 64 {
            (Err(7), DIRTY)
        } else {
            (Ok(most(&program, index(0)?, logged)?), NO_COUNTS)
        };
        assert_eq!(rt; by_number(answer), expected, "{length} counts");
        check_places(&rt, &counts, length, inside, DIRTY);
    }
    Ok(())
}

// Both slices are long enough, or the call is refused with 7 and leaves both as they were.
#[test]
fn both_slices(rt: HostRuntime) -> Result<(), Fail> {
    let program = task()?;
    let dirty = dirty()?;
    for [of_touches, of_counts] in PAIRS {
        assert!(rt; of_touches <= 100 && of_counts <= 100);
        let mut touches = [dirty; 102];
        let mut counts = [DIRTY; 102];
        let answer = facts_of(
            &program,
            index(0)?,
            &mut touches[1..=of_touches],
            &mut counts[1..=of_counts],
        );
        let (expected, inside, zero) = if of_touches < 64 || of_counts < 64 {
            (Err(7), dirty, DIRTY)
        } else {
            (Ok(facts(&program, index(0)?)?), untouched(), NO_COUNTS)
        };
        assert_eq!(rt; by_number(answer), expected, "{of_touches} and {of_counts}");
        check_places(&rt, &touches, of_touches, inside, dirty);
        check_places(&rt, &counts, of_counts, zero, DIRTY);
    }
    Ok(())
}
