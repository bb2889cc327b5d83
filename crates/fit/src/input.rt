// The bytes of an input.
ghost use Rattle.std.specs.Prelude.{◌≡◌, ◌≤◌, IfOk, IfSome, length, take};
ghost use Rattle.fit.specs.Input.{IsReadOf};

use std::io;
use std::io::Read;

// How many bytes are read at most: with one more than a text may have, it is known to be too long.
pub(crate) const ROOM: usize = 16_385;

// Fills a buffer from its front, as far as there are bytes to read; how many.
#[tactic(auto, using(crate::proofs::Filled::filled_more))]
fn fill<R: Read>(reader: &mut R, buffer: &mut [u8]) -> io::Result<usize>
    ensures room { IfOk result (λ filled. filled ≤ length buffer.old) }
    ensures bytes { IfOk result (λ filled. IfSome (R.remaining reader.old) (λ input. take filled buffer.new ≡ take (length buffer.old) input)) }
{
    let mut filled = 0;
    while filled < buffer.len() {
        match reader.read(&mut buffer[filled..])? {
            0 => return Ok(filled),
            more => filled += more,
        }
    }
    Ok(filled)
}

// The bytes of the input, or one more than a text may have of them.
pub(crate) fn read_text<'b, R: Read>(
    reader: &mut R,
    buffer: &'b mut [u8; ROOM],
) -> io::Result<&'b [u8]>
    ensures { IfOk result (λ text. IfSome (R.remaining reader.old) (λ input. IsReadOf input text.now)) }
{
    let filled = fill(reader, buffer)?;
    Ok(&buffer[..filled])
}

#[cfg(test)]
mod tests {
    use super::*;
    use std::io::ErrorKind;
    use std::test::Fail;

    // The bytes come in two parts, the second of them longer than the room.
    #[test]
    fn parts(rt: HostRuntime) -> Result<(), Fail> {
        let mut buffer = [0; ROOM];
        let text = read_text(&mut b"task a\n".chain(&b"stop\n"[..]), &mut buffer)?;
        assert_eq!(rt; text, &b"task a\nstop\n"[..]);
        let text = read_text(&mut b"7".chain(&[8; ROOM][..]), &mut buffer)?;
        assert_eq!(rt; text.len(), ROOM);
        assert_eq!(rt; &text[..3], &b"7\x08\x08"[..]);
        Ok(())
    }

    // A reader that fails behind its first bytes.
    #[derive(Drop)]
    struct Failing(bool);

    impl Read for Failing {
        fn read(&mut self, buf: &mut [u8]) -> io::Result<usize> {
            if self.0 {
                return Err(io::Error::from(ErrorKind::TimedOut));
            }
            self.0 = true;
            Ok(buf.len().min(7))
        }
    }

    #[test]
    fn failure_told(rt: HostRuntime) {
        let mut buffer = [0; ROOM];
        let failed = read_text(&mut Failing(false), &mut buffer);
        assert_eq!(rt; failed.map_err(|e| e.kind()), Err(ErrorKind::TimedOut));
    }
}
