// Tasks at their limits: far skips and many, all that may be emitted, stored and logged, and tasks that are not there.
use crate::lines::Line::{self, Choose, Emit, Next, Set, SetLocal, Skip, Stop};
use crate::lines::Name::{Local, Number, Variable};
use crate::lines::{index, program};
use crate::told::{NO_COUNTS, costs, facts, members, most, touches, untouched};
use facts::set::VariableSet;
use std::array;
use std::test::Fail;
use words::list::Short;
use words::list::methods::Full;

// A statement, how often it stands before a stop, and m, w, D and S of the task.
const REPEATED: [(Line, u8, [u16; 4]); 5] = [
    (Stop, 0, [0, 0, 18, 82]),
    (Set(0, Number(1), Number(0)), 63, [0, 63, 81, 82]),
    (Set(0, Variable(0), Number(1)), 63, [0, 0, 22, 86]),
    (SetLocal(0, Local(0), Number(1)), 63, [0, 0, 18, 82]),
    (Emit(Number(9)), 8, [8, 0, 50, 114]),
];

// The reach of a skip, the sets behind it, and what the task writes and reads first, whose ending reads what they set.
const FAR: [(u8, u8, [&[u16]; 2]); 6] = [
    (1, 1, [&[], &[0]]),
    (1, 2, [&[0], &[]]),
    (14, 14, [&[], &[0]]),
    (14, 15, [&[0], &[]]),
    (15, 15, [&[], &[0]]),
    (15, 16, [&[0], &[]]),
];

// What is logged, and the most sets of other variables in a task that sets variable 0 once and variable 1 twice.
const OTHERS: [(&[u8], u8); 4] = [(&[], 3), (&[0, 2], 2), (&[1], 1), (&[1, 0], 0)];

// Puts a statement behind the others, so many times.
fn add(lines: &mut Short<Line, 64>, line: Line, times: u8) -> Result<(), Full> {
    for _ in 0..times {
        lines.push(line)?;
    }
    Ok(())
}

// A task makes up to 63 sets or 8 emits.
#[test]
fn most_counts(rt: HostRuntime) -> Result<(), Fail> {
    for (line, times, numbers) in REPEATED {
        let mut lines = Short::new();
        add(&mut lines, line, times)?;
        add(&mut lines, Stop, 1)?;
        let found = facts(&program(&[lines.as_slice()])?, index(0)?)?;
        assert_eq!(rt; costs(found), numbers);
    }
    Ok(())
}

// A task that emits eight words and logs all 48 variables takes the most steps.
#[test]
fn all_logged(rt: HostRuntime) -> Result<(), Fail> {
    let mut lines = Short::new();
    add(&mut lines, Emit(Number(9)), 8)?;
    for number in 0..48 {
        add(&mut lines, Set(number, Variable(number), Number(1)), 1)?;
    }
    add(&mut lines, Stop, 1)?;
    let found = facts(&program(&[lines.as_slice()])?, index(0)?)?;
    assert_eq!(rt; costs(found), [8, 0, 242, 306]);
    Ok(())
}

// A skip passes over just its reach: to the ending, or to the last set before it.
#[test]
fn far_skips(rt: HostRuntime) -> Result<(), Fail> {
    for (reach, sets, [written, read_first]) in FAR {
        let mut lines = Short::new();
        add(&mut lines, Skip(reach, Number(0), Number(1)), 1)?;
        add(&mut lines, Set(0, Number(1), Number(0)), sets)?;
        add(&mut lines, Choose(Variable(0), Number(1)), 1)?;
        let touched = touches(&program(&[lines.as_slice()])?, index(0)?)?;
        assert_eq!(rt;
            members(touched.written)?.as_slice(),
            written,
            "{reach} of {sets}"
        );
        assert_eq!(rt;
            members(touched.read_first)?.as_slice(),
            read_first,
            "{reach} of {sets}"
        );
        assert_eq!(rt; touched.logged, VariableSet::empty(), "{reach} of {sets}");
    }
    Ok(())
}

// Skips at all places where one may stand. Their tests read all variables, and any but the first may be passed over, as
// may the set of variable 0 behind them.
#[test]
fn many_skips(rt: HostRuntime) -> Result<(), Fail> {
    let mut lines = Short::new();
    for place in 0..62 {
        add(&mut lines, Skip(1, Variable(place % 48), Number(1)), 1)?;
    }
    add(&mut lines, Set(0, Number(1), Number(0)), 1)?;
    add(&mut lines, Stop, 1)?;
    let touched = touches(&program(&[lines.as_slice()])?, index(0)?)?;
    let all: [u16; 48] = array::from_fn(|number| number as u16);
    assert_eq!(rt; touched.written, VariableSet::empty());
    assert_eq!(rt; members(touched.read_first)?.as_slice(), all.as_slice());
    assert_eq!(rt; members(touched.logged)?.as_slice(), [0].as_slice());
    Ok(())
}

// The set of these variables.
fn set_of(numbers: &[u8]) -> Result<VariableSet, Fail> {
    let mut set = VariableSet::empty();
    for number in numbers {
        set = set.union(VariableSet::single(index(*number)?));
    }
    Ok(set)
}

// Which variables are logged is the caller's to say, where only emits and stores are asked for.
#[test]
fn any_logged(rt: HostRuntime) -> Result<(), Fail> {
    let one = Number(1);
    let program = program(&[&[Set(1, one, one), Set(0, one, one), Set(1, one, one), Stop]])?;
    for (logged, stores) in OTHERS {
        let counts = most(&program, index(0)?, set_of(logged)?)?;
        assert_eq!(rt; [counts.emits, counts.direct], [0, stores]);
    }
    Ok(())
}

// The facts are those of the task asked for; one that is not there touches and costs nothing.
#[test]
fn tasks(rt: HostRuntime) -> Result<(), Fail> {
    let first = [Emit(Variable(5)), Set(5, Number(1), Number(0)), Next];
    let second = [
        Set(6, Number(1), Number(0)),
        Set(7, Number(1), Number(0)),
        Stop,
    ];
    let program = program(&[&first, &second])?;
    assert_eq!(rt; costs(facts(&program, index(0)?)?), [1, 0, 26, 90]);
    assert_eq!(rt;
        members(touches(&program, index(0)?)?.written)?.as_slice(),
        [5].as_slice()
    );
    assert_eq!(rt; costs(facts(&program, index(1)?)?), [0, 2, 20, 82]);
    assert_eq!(rt;
        members(touches(&program, index(1)?)?.written)?.as_slice(),
        [6, 7].as_slice()
    );
    for missing in [2, 15] {
        let task = index(missing)?;
        assert_eq!(rt; touches(&program, task)?, untouched());
        assert_eq!(rt; most(&program, task, VariableSet::empty())?, NO_COUNTS);
        assert_eq!(rt; costs(facts(&program, task)?), [0, 0, 18, 82]);
    }
    Ok(())
}
