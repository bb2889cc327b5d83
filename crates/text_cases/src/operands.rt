// Operands at every place where one may stand: what begins with a digit and is no number is 15, what else is none 14.
use crate::frames::{Frame, check_accepted_in, check_refused_in};
use crate::told::{Refused, check_refused};
use std::test::Fail;

// No digit comes first, and it is neither an input nor a declared variable or local.
const UNKNOWN: [&str; 29] = [
    "-5",
    "+5",
    "-",
    "+",
    "#",
    "#1",
    "in8",
    "in9",
    "in00",
    "in",
    "in0a",
    "xin0",
    "In0",
    "b",
    "c",
    "nosuch",
    "va",
    "vv",
    "V",
    "t0",
    "v-",
    "v+1",
    "v,",
    "'",
    "(v)",
    "set",
    "abcdefghijk",
    "abcdefghijklm",
    "~",
];

// A digit comes first.
const NO_NUMBERS: [&str; 20] = [
    "9x",
    "0x10",
    "1.5",
    "1,",
    "7-",
    "7+1",
    "1v",
    "0v",
    "9in0",
    "1e3",
    "1_0",
    "65536",
    "65537",
    "99999",
    "000007",
    "000000",
    "100000",
    "065536",
    "0000065535",
    "18446744073709551616",
];

// A number, an input, or a declared variable or local.
const OPERANDS: [&str; 17] = [
    "v",
    "t",
    "abcdefghijkl",
    "in0",
    "in1",
    "in2",
    "in3",
    "in4",
    "in5",
    "in6",
    "in7",
    "0",
    "7",
    "00007",
    "00000",
    "65535",
    "09999",
];

const PLACES: [Frame; 7] = [
    &[
        "var v 1\nloc t\nvar abcdefghijkl 1\ntask b\nstop\ntask c\nset v ",
        " + ",
        "\nstop\n",
    ],
    &[
        "var v 1\nloc t\nvar abcdefghijkl 1\ntask b\nstop\ntask c\nset t v / ",
        "\nstop\n",
    ],
    &[
        "var v 1\nloc t\nvar abcdefghijkl 1\ntask b\nstop\ntask c\nemit ",
        "\nstop\n",
    ],
    &[
        "var v 1\nloc t\nvar abcdefghijkl 1\ntask b\nstop\ntask c\nskip 1 ",
        " = ",
        "\nemit 1\nstop\n",
    ],
    &[
        "var v 1\nloc t\nvar abcdefghijkl 1\ntask b\nstop\ntask c\nskip 1 v < ",
        "\nemit 1\nstop\n",
    ],
    &[
        "var v 1\nloc t\nvar abcdefghijkl 1\ntask b\nstop\ntask c\nnext b ",
        " < ",
        " c\n",
    ],
    &[
        "var v 1\nloc t\nvar abcdefghijkl 1\ntask b\nstop\ntask c\nnext b in0 = ",
        " c\n",
    ],
];

// The first token that offends is told; the names of tasks come later.
const FROM_THE_LEFT: [Refused; 21] = [
    ("var v 1\nloc t\ntask b\nset x y + z\nstop\n", 14, 4, 25),
    ("var v 1\nloc t\ntask b\nset v y + z\nstop\n", 14, 4, 27),
    ("var v 1\nloc t\ntask b\nset v v + z\nstop\n", 14, 4, 31),
    ("var v 1\nloc t\ntask b\nset x 9x + 9x\nstop\n", 14, 4, 25),
    ("var v 1\nloc t\ntask b\nset v 9x + y\nstop\n", 15, 4, 27),
    ("var v 1\nloc t\ntask b\nset v y + 9x\nstop\n", 14, 4, 27),
    (
        "var v 1\nloc t\ntask b\nset v in0 + 65536\nstop\n",
        15,
        4,
        33,
    ),
    ("var v 1\nloc t\ntask b\nset v in0 + t1\nstop\n", 14, 4, 33),
    ("var v 1\nloc t\ntask b\nskip 0 y = z\nstop\n", 15, 4, 26),
    ("var v 1\nloc t\ntask b\nskip 16 9x = z\nstop\n", 15, 4, 26),
    ("var v 1\nloc t\ntask b\nskip x y = z\nstop\n", 15, 4, 26),
    ("var v 1\nloc t\ntask b\nskip x v = t\nstop\n", 15, 4, 26),
    ("var v 1\nloc t\ntask b\nskip 1 x = 9x\nstop\n", 14, 4, 28),
    ("var v 1\nloc t\ntask b\nskip 1 9x = y\nstop\n", 15, 4, 28),
    ("var v 1\nloc t\ntask b\nskip 1 0 = y\nstop\n", 14, 4, 32),
    (
        "var v 1\nloc t\ntask b\nskip 1 0 < 000001\nstop\n",
        15,
        4,
        32,
    ),
    ("var v 1\nloc t\ntask b\nnext x y = 9x w\nstop\n", 14, 4, 28),
    ("var v 1\nloc t\ntask b\nnext x 9x = y w\nstop\n", 15, 4, 28),
    ("var v 1\nloc t\ntask b\nnext x 0 < z w\nstop\n", 14, 4, 32),
    (
        "var v 1\nloc t\ntask b\nnext 9x 0 < 9x 9x\nstop\n",
        15,
        4,
        33,
    ),
    ("var v 1\nloc t\ntask b\nnext b x = 9x b\nstop\n", 14, 4, 28),
];

#[test]
fn refused(rt: HostRuntime) -> Result<(), Fail> {
    check_refused_in(&rt, 14, &PLACES, &UNKNOWN)?;
    check_refused_in(&rt, 15, &PLACES, &NO_NUMBERS)?;
    Ok(())
}

#[test]
fn accepted(rt: HostRuntime) -> Result<(), Fail> {
    Ok(check_accepted_in(&rt, &PLACES, &OPERANDS)?)
}

#[test]
fn from_the_left(rt: HostRuntime) {
    check_refused(&rt, &FROM_THE_LEFT);
}
