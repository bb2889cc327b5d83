// Bytes as they are shown.
ghost use Rattle.std.specs.Prelude.{◌≡◌};
ghost use Rattle.fit.specs.Printed.{shown_byte};

use std::fmt;

// A sign of plain text as it is, and any other byte as a `?`.
fn shown_byte(byte: u8) -> u8
    ensures { result ≡ shown_byte byte }
{
    if (32..=126).contains(&byte) {
        byte
    } else {
        b'?'
    }
}

// Bytes that need not be text.
#[derive(Clone, Copy)]
pub(crate) struct Shown<'t>(pub(crate) &'t [u8]);

impl fmt::Display for Shown<'_> {
    ghost use Rattle.std.specs.Prelude.{Some};
    ghost use Rattle.fit.specs.Printed.{shown};

    ghost output = { λ bytes. Some (shown bytes.0.now) };

    fn fmt<W: fmt::Write>(&self, f: &mut fmt::Formatter<W>) -> fmt::Result {
        for &byte in self.0 {
            f.write_char(char::from(shown_byte(byte)))?;
        }
        Ok(())
    }
}

// So many blanks.
#[derive(Clone, Copy)]
pub(crate) struct Blanks(pub(crate) usize);

impl fmt::Display for Blanks {
    ghost use Rattle.std.specs.Prelude.{Some, replicate};

    ghost output = { λ blanks. Some (replicate blanks.0 32) };

    fn fmt<W: fmt::Write>(&self, f: &mut fmt::Formatter<W>) -> fmt::Result {
        for _blank in 0..self.0 {
            f.write_str(" ")?;
        }
        Ok(())
    }
}
