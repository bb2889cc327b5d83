// The largest text that is accepted: as many bytes, variables, locals, tasks and statements as the language allows.
ghost use Rattle.std.specs.Prelude.{◌≤◌};

use text::reader::LONGEST;

#[derive(Clone, Copy)]
pub(crate) struct Page {
    bytes: [u8; LONGEST],
    len: usize,
    ghost within: { len ≤ 16384 },
}

// A name of twelve letters, the longest that there is; names with one beginning differ in their last letters.
fn name(first: u8, number: u8) -> [u8; 12] {
    let mut name = *b"aaaaaaaaaaaa";
    name[0] = first;
    name[10] = b'a' + number / 26;
    name[11] = b'a' + number % 26;
    name
}

impl Page {
    fn put(&mut self, part: &[u8]) {
        for &byte in part {
            if self.len < LONGEST {
                self.bytes[self.len] = byte;
                self.len += 1;
            }
        }
    }

    // The declarations, which the lines of tasks name from their end.
    fn declare(&mut self) {
        for number in 0..48 {
            self.put(b"var ");
            self.put(&name(b'v', number));
            self.put(b" 65535\n");
        }
        for number in 0..8 {
            self.put(b"loc ");
            self.put(&name(b'l', number));
            self.put(b"\n");
        }
    }

    // set v47 l7 + l7
    fn set(&mut self) {
        let local = name(b'l', 7);
        self.put(b"set ");
        self.put(&name(b'v', 47));
        self.put(b" ");
        self.put(&local);
        self.put(b" + ");
        self.put(&local);
        self.put(b"\n");
    }

    // task t, with sixteen statements
    fn task(&mut self, number: u8) {
        let local = name(b'l', 7);
        let task = name(b't', 15);
        self.put(b"task ");
        self.put(&name(b't', number));
        self.put(b"\n");
        for _ in 0..15 {
            self.set();
        }
        self.put(b"next ");
        self.put(&task);
        self.put(b" ");
        self.put(&local);
        self.put(b" = ");
        self.put(&local);
        self.put(b" ");
        self.put(&task);
        self.put(b"\n");
    }

    // The text, filled up with a line of `#`.
    pub(crate) fn largest() -> Page {
        let mut page = Page {
            bytes: [b'#'; LONGEST],
            len: 0,
        };
        page.declare();
        for number in 0..16 {
            page.task(number);
        }
        page.len = LONGEST;
        page
    }

    pub(crate) fn text(&self) -> &[u8] {
        &self.bytes[..self.len]
    }
}
