// The bytes of a text, and its lines, one after another.
ghost use Rattle.std.specs.Prelude.{◌≡◌, ◌≤◌, ◌<◌, ◌+◌, false, true, not, take, drop, length, ◌∷◌, [], IfOk, IfNone, MatchOption};
ghost use Rattle.std.specs.List.{prefix_len, position};
ghost use Rattle.std.specs.Option.{option_or};
ghost use Rattle.std.specs.Result.{result_err};
ghost use Rattle.text.specs.Bytes.{is_allowed, in_line};
ghost use Rattle.text.specs.Readable.{length_offence, byte_offence, byte_place};
ghost use Rattle.text.specs.Tokens.{tokens_from, front, lines_from, lines_of};
ghost use Rattle.text.specs.Runs.{AreLines};
ghost use Rattle.text.specs.Seen.{held};

use crate::lex::Tokens;
use crate::refusal::{Place, Refusal};

// The most bytes that a text may have.
pub const LONGEST: usize = 16_384;

// A text that can be read: short enough, with no byte that is not allowed.
#[derive(Clone, Copy)]
pub struct Text<'t> {
    bytes: &'t [u8],
    ghost short: { length bytes.now ≤ 16384 },
}

// What is left of a text: bytes, and where the first of them stands.
#[derive(Clone, Copy)]
pub struct Lines<'t> {
    rest: &'t [u8],
    place: Place,
    ghost within: { (place.line ≤ place.byte + 1) × (place.byte ≤ 16385) × (0 < length rest.now → place.byte + length rest.now ≤ 16384) },
}

// Whether a text may have this byte.
fn may_have(byte: u8) -> bool
    ensures { result ≡ is_allowed byte }
{
    byte == b'\n' || (32..=126).contains(&byte)
}

// The place of the first byte that is not allowed.
fn first_not_allowed(bytes: &[u8]) -> Option<usize>
    ensures { result ≡ position (λ b. not (is_allowed b)) bytes.now }
{
    bytes.iter().position(|&byte| !may_have(byte))
}

// Where the byte at a place stands.
fn place_at(bytes: &[u8], at: usize) -> Place
    requires { (at ≤ length bytes.now) × (length bytes.now ≤ 16384) }
    ensures { result ≡ byte_place bytes.now at }
{
    let ended = bytes[..at].iter().filter(|&&byte| byte == b'\n').count();
    Place {
        line: 1 + ended as u16,
        byte: at as u16,
    }
}

impl<'t> Text<'t> {
    // A text, or why these bytes are none.
    pub fn new(bytes: &'t [u8]) -> Result<Text<'t>, Refusal>
        ensures offence { result_err result ≡ option_or (length_offence bytes.now) (byte_offence bytes.now) }
        ensures kept { IfOk result (λ text. text.bytes.now ≡ bytes.now) }
    {
        if bytes.len() > LONGEST {
            return Err(Refusal::TooLong);
        }
        match first_not_allowed(bytes) {
            Some(at) => Err(Refusal::Byte(place_at(bytes, at))),
            None => Ok(Text { bytes }),
        }
    }

    // Its bytes.
    pub fn bytes(&self) -> &'t [u8]
        ensures { result.now ≡ self.now.bytes.now }
    {
        self.bytes
    }

    // How many bytes it has.
    pub fn len(&self) -> u16
        ensures { result ≡ length self.now.bytes.now }
    {
        self.bytes.len() as u16
    }
}

// How many bytes the first line has.
fn line_len(text: &[u8]) -> usize
    ensures value { result ≡ prefix_len in_line text.now }
    ensures bound { result ≤ length text.now }
{
    text.iter().take_while(|&&byte| byte != b'\n').count()
}

// What follows the byte that ended a line.
fn past_end(behind: &[u8]) -> &[u8]
    ensures { result.now ≡ drop 1 behind.now }
{
    match behind {
        [] => behind,
        [_, rest @ ..] => rest,
    }
}

impl<'t> Lines<'t> {
    ghost use Rattle.text.specs.Reading.{lines_left, IsNext};

    // The lines of a text.
    pub fn of(text: Text<'t>) -> Lines<'t>
        ensures left { lines_left result ≡ lines_of text.entry.bytes.now }

        // Its tokens are exactly its longest runs of ink, in the lines and at the places where they stand.
        ensures law { AreLines text.entry.bytes.now (lines_from false 1 0 text.entry.bytes.now) }
    {
        Lines {
            rest: text.bytes,
            place: Place { line: 1, byte: 0 },
        }
    }

    // Takes off the first line, whatever it holds.
    #[tactic(auto, using(crate::proofs::Lining::line_past))]
    fn take_line(&mut self) -> Tokens<'t>
        requires { 0 < length self.old.rest.now }
        ensures line { held result ≡ take 7 (tokens_from false self.old.place.line self.old.place.byte (front in_line self.old.rest.now)) }
        ensures rest { lines_from true self.old.place.line self.old.place.byte self.old.rest.now ≡ lines_from false self.new.place.line self.new.place.byte self.new.rest.now }
        ensures shorter { length self.new.rest.now < length self.old.rest.now }
    {
        let size = line_len(self.rest);
        let (line, behind) = self.rest.split_at(size);
        let tokens = Tokens::of(line, self.place);
        let place = Place {
            line: self.place.line + 1,
            byte: self.place.byte + size as u16 + 1,
        };
        *self = Lines {
            rest: past_end(behind),
            place,
        };
        tokens
    }

    // The next line that is not skipped.
    #[tactic(auto, using(crate::proofs::Lining::left_skipped, crate::proofs::Lining::left_next, crate::proofs::Lining::left_none))]
    pub fn next(&mut self) -> Option<Tokens<'t>>
        ensures next { MatchOption result (lines_left self.old ≡ []) (λ line. IsNext (lines_left self.old) (lines_left self.new) (held line)) }
        ensures end { IfNone result (lines_left self.new ≡ []) }
    {
        while !self.rest.is_empty() {
            let line = self.take_line();
            if !line.is_skipped() {
                return Some(line);
            }
        }
        None
    }
}
