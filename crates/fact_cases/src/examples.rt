// The examples worked out by hand in docs/facts.md.
use crate::lines::Line::{self, Emit, Next, Set, SetLocal, Skip, Stop};
use crate::lines::Name::{Input, Local, Number, Variable};
use crate::lines::{index, program};
use crate::told::{costs, facts, members, most, touches};
use std::test::Fail;

// A task, the variables that it writes on every path, reads first and logs, and its m, w, D and S.
type Example = (&'static [Line], [&'static [u16]; 3], [u16; 4]);

const EXAMPLES: [Example; 3] = [
    // due 0, n 1, t 0: set t in0 + 14, set due t + 0, set n n + 1, emit due, next a
    (
        &[
            SetLocal(0, Input(0), Number(14)),
            Set(0, Local(0), Number(0)),
            Set(1, Variable(1), Number(1)),
            Emit(Variable(0)),
            Next,
        ],
        [&[0, 1], &[1], &[1]],
        [1, 1, 27, 90],
    ),
    // v 0, u 1: skip 1 in0 < 1, set v 1 + 0, set u v + 0, set v 2 + 0, stop
    (
        &[
            Skip(1, Input(0), Number(1)),
            Set(0, Number(1), Number(0)),
            Set(1, Variable(0), Number(0)),
            Set(0, Number(2), Number(0)),
            Stop,
        ],
        [&[0, 1], &[0], &[0]],
        [0, 1, 23, 86],
    ),
    // so, without its last set
    (
        &[
            Skip(1, Input(0), Number(1)),
            Set(0, Number(1), Number(0)),
            Set(1, Variable(0), Number(0)),
            Stop,
        ],
        [&[1], &[0], &[]],
        [0, 2, 20, 82],
    ),
];

// What each example touches.
#[test]
fn touched(rt: HostRuntime) -> Result<(), Fail> {
    for (task, lists, _) in EXAMPLES {
        let touched = touches(&program(&[task])?, index(0)?)?;
        assert_eq!(rt; members(touched.written)?.as_slice(), lists[0]);
        assert_eq!(rt; members(touched.read_first)?.as_slice(), lists[1]);
        assert_eq!(rt; members(touched.logged)?.as_slice(), lists[2]);
    }
    Ok(())
}

// What each example logs and costs, found at once and one by one.
#[test]
fn found(rt: HostRuntime) -> Result<(), Fail> {
    for (task, [_, _, logged], numbers) in EXAMPLES {
        let program = program(&[task])?;
        let found = facts(&program, index(0)?)?;
        assert_eq!(rt; members(found.logged)?.as_slice(), logged);
        assert_eq!(rt; costs(found), numbers);
        let counts = most(&program, index(0)?, found.logged)?;
        assert_eq!(rt; [counts.emits, counts.direct], [found.emits, found.direct]);
    }
    Ok(())
}
