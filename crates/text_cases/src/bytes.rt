// The length of a text, and the bytes that it may have: 10 and 11.
use crate::told::told;
use std::alloc::{AllocError, Global};
use std::process::Abort;
use std::test::Fail;

// Bytes that are not allowed: the line and the place of the first.
const BYTES: [(&[u8], usize, usize); 20] = [
    (b"\x00", 1, 0),
    (b"\t", 1, 0),
    (b"\r", 1, 0),
    (b"\x1f", 1, 0),
    (b"\x7f", 1, 0),
    (b"\x80", 1, 0),
    (b"\xc8", 1, 0),
    (b"\xff", 1, 0),
    (b"\n\t", 2, 1),
    (b"\n\n\n  \xa0\n", 4, 5),
    (b"# caf\xc3\xa9\n", 1, 5),
    (b"task a\r\nstop\r\n", 1, 6),
    (b"task a\nstop\t\n", 2, 11),
    (b"task a\nstop\n\x00", 3, 12),
    (b"task a\nstop\n#\x7f", 3, 13),
    (b"var\ta 1\ntask a\nstop\n", 1, 3),
    (b"task \xe4\nstop\n", 1, 5),
    (b"foo\nbar\n\x07", 3, 8),
    (b"#\x80\n\t\x00", 1, 1),
    (b"var in0 x\nemit\n\n\x0b\n", 4, 16),
];

// A byte that is repeated so often: the number, the line and the byte that are told.
const REPEATED: [(u8, usize, [usize; 3]); 20] = [
    (b' ', 16_384, [18, 0, 16_384]),
    (b'\n', 16_384, [18, 0, 16_384]),
    (b'#', 16_384, [18, 0, 16_384]),
    (b'x', 16_384, [12, 1, 0]),
    (b'\t', 16_384, [11, 1, 0]),
    (200, 16_384, [11, 1, 0]),
    (b' ', 16_385, [10, 0, 0]),
    (b'\n', 16_385, [10, 0, 0]),
    (b'#', 16_385, [10, 0, 0]),
    (b'x', 16_385, [10, 0, 0]),
    (b'\t', 16_385, [10, 0, 0]),
    (200, 16_385, [10, 0, 0]),
    (0, 16_386, [10, 0, 0]),
    (b'\n', 32_768, [10, 0, 0]),
    (b'x', 65_535, [10, 0, 0]),
    (b' ', 65_536, [10, 0, 0]),
    (b'\n', 65_537, [10, 0, 0]),
    (9, 65_541, [10, 0, 0]),
    (b' ', 81_920, [10, 0, 0]),
    (b'#', 131_072, [10, 0, 0]),
];

// A byte that fills a text of 16,384 bytes between what stands first and what stands last, and what is told of it. One
// byte more, and it is too long.
const FILLED: [(&[u8], u8, &[u8], Option<[usize; 3]>); 15] = [
    (b"task a\nstop\n", b'\n', b"", None),
    (b"task a\nstop\n", b' ', b"", None),
    (b"task a\nstop\n#", b'~', b"", None),
    (b"", b'\n', b"task a\nstop", None),
    (b"#", b'#', b"\ntask a\nstop\n", None),
    (b"task", b' ', b"a\nstop", None),
    (b"", b'\n', b"\x00", Some([11, 16_384, 16_383])),
    (b"#", b' ', b"\r\n", Some([11, 1, 16_382])),
    (b"\t", b' ', b"\t", Some([11, 1, 0])),
    (b"", b'\n', b"x", Some([12, 16_384, 16_383])),
    (b"", b' ', b"x", Some([12, 1, 16_383])),
    (b"task a\n", b'\n', b"next b", Some([14, 16_373, 16_383])),
    (
        b"task a\n",
        b'\n',
        b"set b 1 + 2\nstop\n",
        Some([14, 16_362, 16_371]),
    ),
    (
        b"loc a\n",
        b'\n',
        b"task a\nstop",
        Some([13, 16_369, 16_378]),
    ),
    (b"task a\n", b' ', b"emit 1", Some([18, 0, 16_384])),
];

#[test]
fn first_byte(rt: HostRuntime) {
    for (text, line, byte) in BYTES {
        assert_eq!(rt; told(text), Some([11, line, byte]), "{text:?}");
    }
}

// Of all bytes those from 32 to 126 and 10 are allowed.
#[test]
fn all_bytes(rt: HostRuntime) {
    for byte in 0..=u8::MAX {
        let expected = if byte == 10 || byte >= 32 && byte <= 126 {
            [18, 0, 2]
        } else {
            [11, 1, 1]
        };
        assert_eq!(rt; told(&[b'#', byte]), Some(expected), "{byte}");
    }
}

// A text of a byte alone.
#[test]
fn lengths(rt: HostRuntime) -> Result<(), Fail> {
    for (byte, length, expected) in REPEATED {
        let text = vec![in rt.alloc(); byte; length]?;
        check(&rt, &text, Some(expected));
    }
    Ok(())
}

// What is told of a text: a number, a line and a byte, or nothing.
fn check(rt: &impl Abort, text: &[u8], expected: Option<[usize; 3]>) {
    assert_eq!(rt;
        told(text),
        expected,
        "{} bytes, of which the first is {:?}",
        text.len(),
        text.first()
    );
}

// A text of so many bytes.
fn filled(
    alloc: Global,
    length: usize,
    first: &[u8],
    byte: u8,
    last: &[u8],
) -> Result<Vec<u8>, AllocError> {
    let mut text = Vec::from_slice(alloc, first)?;
    let left = length
        .saturating_sub(first.len())
        .saturating_sub(last.len());
    for _ in 0..left {
        text.push(byte)?;
    }
    text.extend_from_slice(last)?;
    Ok(text)
}

#[test]
fn longest(rt: HostRuntime) -> Result<(), Fail> {
    for (first, byte, last, expected) in FILLED {
        let text = filled(rt.alloc(), 16_384, first, byte, last)?;
        check(&rt, &text, expected);
        let text = filled(rt.alloc(), 16_385, first, byte, last)?;
        check(&rt, &text, Some([10, 0, 0]));
    }
    Ok(())
}
