// Many texts, each judged by compile and by a second reading.
ghost use Rattle.std.specs.Prelude.{◌<◌};

use crate::reader::read;
use crate::told::{number_of, told};
use std::alloc::{AllocError, Global};
use std::process::Abort;
use std::test::Fail;

// All texts of up to three of these lines.
const LINES: [&str; 20] = [
    "",
    "  # more",
    "var a 1",
    "var  b 65536",
    "loc a",
    " loc in3",
    "task a",
    "  task b  ",
    "set a in7 + 2",
    "set b a * 2",
    "emit a",
    "emit 9x",
    "skip 1 a = 000007",
    "skip 1 1 < 0",
    "skip 16 a = x",
    "next a",
    "next b 0 < in1 a",
    "stop",
    "stop # done",
    "end",
];

// What stands before the first task, what may follow it there, statements and endings; some of them offend.
const FRONTS: [&str; 4] = [
    "var a 1\nloc s\nvar b 2",
    "# a rule\n\nloc s\nvar a 1\nvar b 0\n",
    "var b 00007\nloc s\nvar a 65535",
    "var a 1\nvar b 2",
];

const DECLARATIONS: [&str; 16] = [
    "var c 65535",
    "loc t",
    "  loc   u",
    "var set 00005",
    "loc in8",
    "",
    "#",
    "# var a x",
    "var d 7",
    "var next 0",
    "loc w",
    "var e 9",
    "loc task",
    "var f 70000",
    "loc A",
    "var a 1",
];

// Lines that open the tasks of a text, in their order.
const TASKS: [[&str; 8]; 3] = [
    [
        "task x", "task x", "task x", " task  x", "task x", "task x", "task x", "task in1",
    ],
    [
        "task y", "task y", "task y", " task  y", "task y", "task y", "task y", "task x",
    ],
    [
        "task z", "task z", "task z", " task  z", "task z", "task z", "task z", "task a",
    ],
];

const STATEMENTS: [&str; 32] = [
    "set a a + 1",
    "set s a - in0",
    "set a 65535 & s",
    "set b 1 | 2",
    "set s s ^ in7",
    "set s 7 / 0",
    "set b b % 00003",
    "set b s + s",
    "set a 1 + 2",
    "set s 2 + 1",
    "emit a",
    "emit 00007",
    "  emit   s  ",
    "emit in0",
    "emit b",
    "emit 1\nemit 2\nemit 3\nemit 4\nemit 5",
    "emit s\nemit s\nemit s\nemit s",
    "skip 1 a = b",
    "skip 2 1 < in3",
    "skip 1 0 = 0",
    "skip 1 s < a",
    "skip 2 a = a",
    "skip 3 s = 0",
    "",
    "# set x 1 * 2",
    "set a b - a",
    "emit a\nemit in7\nemit 6\nemit b\nemit 65535",
    "emit b\n\nemit b\n# emit b\nemit b\nemit b\nemit b",
    "set c c + c",
    "skip 15 0 = 0",
    "emit 99999",
    "emit 1 + 2",
];

const ENDINGS: [&str; 16] = [
    "stop",
    "next x",
    "next x 1 < a x",
    "stop",
    "  stop  ",
    "next x a = s x",
    "next   x",
    "stop",
    "next x in0 < in1 x",
    "stop",
    "next x",
    "stop",
    "next y",
    "next y s = 0 z",
    "next x 1 = 1 7",
    "stop\nstop",
];

// How many texts of several tasks there are.
const COUNT: usize = 8_000;

// A row of numbers by a fixed rule.
#[derive(Drop)]
struct Numbers {
    last: u64,
}

impl Numbers {
    fn next(&mut self) -> usize {
        self.last = self
            .last
            .wrapping_mul(6_364_136_223_846_793_005)
            .wrapping_add(1_442_695_040_888_963_407);
        (self.last >> 40) as usize
    }

    // Puts one of the lines behind a text.
    fn put(&mut self, text: &mut String, lines: &[&str]) -> Result<(), AllocError> {
        let place = self.next().checked_rem(lines.len()).unwrap_or(0);
        text.push_str(lines.get(place).copied().unwrap_or(""))?;
        text.push('\n')?;
        Ok(())
    }

    // Puts fewer than so many of them.
    fn put_some(&mut self, text: &mut String, most: usize, lines: &[&str]) -> Result<(), AllocError>
        requires { 0 < most }
    {
        for _ in 0..self.next() % most {
            self.put(text, lines)?;
        }
        Ok(())
    }

    // A text of up to three tasks.
    fn text(&mut self, alloc: Global) -> Result<String, AllocError> {
        let mut text = String::new(alloc);
        self.put(&mut text, &FRONTS)?;
        self.put_some(&mut text, 4, &DECLARATIONS)?;
        let count = self.next() % 4;
        for tasks in TASKS.iter().take(count) {
            self.put(&mut text, tasks)?;
            self.put_some(&mut text, 6, &STATEMENTS)?;
            self.put(&mut text, &ENDINGS)?;
        }
        Ok(text)
    }
}

// Both tell the same of a text: the number, or 0 if it is accepted.
fn check(rt: &(impl Abort + AllocGlobal), text: &str) -> Result<usize, AllocError> {
    let told = told(text.as_bytes());
    assert_eq!(rt; told, read(rt.alloc(), text)?, "{text:?}");
    Ok(number_of(told))
}

// The text of a number: three lines.
fn spelt(alloc: Global, number: usize) -> Result<String, AllocError> {
    let mut text = String::new(alloc);
    text.push_str(LINES[number % 20])?;
    text.push('\n')?;
    text.push_str(LINES[number / 20 % 20])?;
    text.push('\n')?;
    text.push_str(LINES[number / 400 % 20])?;
    Ok(text)
}

#[test]
fn three_lines(rt: HostRuntime) -> Result<(), Fail> {
    for number in 0..20 * 20 * 20 {
        let text = spelt(rt.alloc(), number)?;
        check(&rt, &text)?;
    }
    Ok(())
}

// How often each number is told, at least.
const LEAST: [(usize, usize); 8] = [
    (0, 500),
    (12, 500),
    (13, 500),
    (14, 500),
    (15, 500),
    (17, 300),
    (18, 500),
    (19, 40),
];

#[test]
fn several_tasks(rt: HostRuntime) -> Result<(), Fail> {
    let mut numbers = Numbers { last: 1 };
    let mut counts = [0_usize; 20];
    for _ in 0..COUNT {
        let text = numbers.text(rt.alloc())?;
        let number = check(&rt, &text)?;
        if let Some(count) = counts.get_mut(number) {
            *count = count.saturating_add(1);
        }
    }
    for (number, least) in LEAST {
        let count = counts.get(number).copied().unwrap_or(0);
        assert!(rt; least <= count, "{number} is told {count} times");
    }
    Ok(())
}
