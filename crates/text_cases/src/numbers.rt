// The numbers of variables and the reaches of skips: what is none is 15.
use crate::frames::{Frame, check_accepted_in, check_refused_in};
use std::test::Fail;

// What is no number, whatever it begins with.
const NO_NUMBERS: [&str; 23] = [
    "65536",
    "65540",
    "99999",
    "000007",
    "000000",
    "100000",
    "0000065535",
    "4294967296",
    "x",
    "9x",
    "a",
    "v",
    "in0",
    "-1",
    "+1",
    "1x",
    "0x10",
    "1.5",
    "1_0",
    "#",
    "#1",
    "-",
    "=",
];

const NUMBERS: [&str; 15] = [
    "0", "1", "9", "10", "99", "00007", "00000", "09999", "10000", "32767", "32768", "59999",
    "65529", "65530", "65535",
];

const VARIABLES: [Frame; 2] = [
    &["var v ", "\ntask a\nstop\n"],
    &["var v 1\nvar w  ", "  \ntask a\nstop\n"],
];

// What is no number from 1 to 15.
const NO_REACHES: [&str; 23] = [
    "0", "00000", "16", "17", "20", "99", "150", "00016", "256", "257", "271", "65535", "65536",
    "65537", "000001", "x", "1x", "v", "in1", "-1", "+1", "=", "#",
];

const REACHES: [&str; 10] = [
    "1", "2", "9", "10", "14", "15", "01", "015", "00001", "00015",
];

// Fifteen statements stand between the skip and the ending.
const SKIPS: [Frame; 1] = [&[
    "var v 1\ntask a\nskip ",
    " v = v\nset v v + 1\nset v v + 1\nset v v + 1\nset v v + 1\nset v v + 1\nset v v + 1\nset v v + 1\nset v v + 1\nset v v + 1\nset v v + 1\nset v v + 1\nset v v + 1\nset v v + 1\nset v v + 1\nset v v + 1\nstop\n",
]];

#[test]
fn numbers(rt: HostRuntime) -> Result<(), Fail> {
    check_refused_in(&rt, 15, &VARIABLES, &NO_NUMBERS)?;
    check_accepted_in(&rt, &VARIABLES, &NUMBERS)?;
    Ok(())
}

#[test]
fn reaches(rt: HostRuntime) -> Result<(), Fail> {
    check_refused_in(&rt, 15, &SKIPS, &NO_REACHES)?;
    check_accepted_in(&rt, &SKIPS, &REACHES)?;
    Ok(())
}
