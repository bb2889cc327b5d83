// The scratches of a compile: how long they must be, else 7, and what is left in them.
use crate::told::{NO_COUNTS, number_of, told_by, untouched};
use compile::compile::compile;
use facts::most::Counts;
use facts::set::VariableSet;
use facts::touched::Touches;
use program::statement::Variable;
use std::fmt::Debug;
use std::process::Abort;
use std::test::Fail;

// Texts and the numbers that are told of them, 0 where one is accepted: each number but 7 and 10.
const TEXTS: [(&[u8], usize); 12] = [
    (
        b"var v 1\ntask a\nskip 1 0 < in0\nset v v + 1\nemit v\nnext b\ntask b\nset v 1 + 2\nstop\n",
        0,
    ),
    (b"", 18),
    (b"task a\nstop\n\t", 11),
    (b"task a\nstop\nstop\n", 12),
    (b"var in0 1\n", 13),
    (b"task a\nset x 1 + 2\nstop\n", 14),
    (b"task a\nstop\ntask b\nnext c\n", 14),
    (b"var a 65536\n", 15),
    (
        b"loc a\nloc b\nloc c\nloc d\nloc e\nloc f\nloc g\nloc h\nloc i\n",
        16,
    ),
    (b"task a\nskip 1 0 = 0\nstop\n", 17),
    (b"task a\nemit 1\n", 18),
    (
        b"task a\nemit 1\nemit 1\nemit 1\nemit 1\nemit 1\nemit 1\nemit 1\nemit 1\nemit 1\nstop\n",
        19,
    ),
];

// Lengths of both scratches.
const LENGTHS: [[usize; 2]; 12] = [
    [0, 0],
    [0, 70],
    [1, 64],
    [63, 63],
    [63, 64],
    [63, 70],
    [64, 0],
    [64, 63],
    [70, 63],
    [64, 64],
    [64, 70],
    [70, 64],
];

// Counts that no task has.
const DIRTY: Counts = Counts {
    emits: 200,
    direct: 255,
};

// What no text here touches.
fn dirty() -> Result<Touches, Fail> {
    let set = VariableSet::single(Variable::new(40).ok_or("no such variable")?);
    Ok(Touches {
        written: set,
        read_first: set,
        logged: set,
    })
}

// The facts from the second on, so many, are all the one; those around them are all the other.
fn check_places<F: Copy + PartialEq + Debug>(
    rt: &impl Abort,
    facts: &[F],
    length: usize,
    inside: F,
    around: F,
) {
    for (place, fact) in facts.iter().enumerate() {
        let expected = if (1..=length).contains(&place) {
            inside
        } else {
            around
        };
        assert_eq!(rt; *fact, expected, "place {place} of {length}");
    }
}

// The scratches hold start facts where a text was compiled, else what they held.
fn check_left(
    rt: &impl Abort,
    touches: &[Touches],
    counts: &[Counts],
    lengths: [usize; 2],
    is_short: bool,
) -> Result<(), Fail> {
    let [of_touches, of_counts] = lengths;
    let dirty = dirty()?;
    if is_short {
        check_places(rt, touches, 0, dirty, dirty);
        check_places(rt, counts, 0, DIRTY, DIRTY);
    } else {
        check_places(rt, touches, of_touches, untouched(), dirty);
        check_places(rt, counts, of_counts, NO_COUNTS, DIRTY);
    }
    Ok(())
}

// A text with scratches of these lengths, which held other facts: the number that is told, and what both hold behind it.
fn check(rt: &impl Abort, text: &[u8], number: usize, lengths: [usize; 2]) -> Result<(), Fail> {
    let [of_touches, of_counts] = lengths;
    assert!(rt; of_touches <= 70 && of_counts <= 70);
    let mut touches = [dirty()?; 72];
    let mut counts = [DIRTY; 72];
    let answer = compile(
        text,
        &mut touches[1..=of_touches],
        &mut counts[1..=of_counts],
    );
    let told = told_by(answer);
    let is_short = of_touches < 64 || of_counts < 64;
    if is_short {
        assert_eq!(rt; told, Some([7, 0, 0]), "{text:?}");
    } else {
        assert_eq!(rt; number_of(told), number, "{text:?}");
    }
    check_left(rt, &touches, &counts, lengths, is_short)
}

#[test]
fn texts(rt: HostRuntime) -> Result<(), Fail> {
    for lengths in LENGTHS {
        for (text, number) in TEXTS {
            check(&rt, text, number, lengths)?;
        }
    }
    Ok(())
}

// So with texts that are too long, with bytes that no text may have.
#[test]
fn long_text(rt: HostRuntime) -> Result<(), Fail> {
    let text = vec![in rt.alloc(); b'\t'; 16_385]?;
    for lengths in LENGTHS {
        check(&rt, &text, 10, lengths)?;
    }
    Ok(())
}
