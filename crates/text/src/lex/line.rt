// How a line is taken apart into tokens.
ghost use Rattle.std.specs.Prelude.{◌≡◌, ◌≤◌, ◌+◌, ◌<◌, ◌&&◌, not, cond, slice_index, false, map, take, drop, length, ◌∷◌, [], ◌++◌};
ghost use Rattle.std.specs.List.{prefix_len};
ghost use Rattle.text.specs.Bytes.{is_ink};
ghost use Rattle.text.specs.Tokens.{token_of, tokens_from, front, text_of, place_of, first_place, is_skipped};
ghost use Rattle.text.specs.Seen.{seen, held};

use crate::lex::{Token, Tokens};
use crate::refusal::Place;

// A part of the text as a token.
fn lex(text: &[u8], place: Place) -> Token<'_>
    ensures { seen result ≡ token_of text.now place }
{
    match text {
        [b'a'..=b'z', ..] => Token::Word(text, place),
        [b'0'..=b'9', ..] => Token::Number(text, place),
        [b'#', ..] => Token::Comment(text, place),
        _ => Token::Sign(text, place),
    }
}

// Whether a byte is part of a token.
fn ink(byte: u8) -> bool
    ensures { result ≡ is_ink byte }
{
    (33..=126).contains(&byte)
}

// How many bytes the token has that begins here.
fn token_len(line: &[u8]) -> usize
    ensures value { result ≡ prefix_len is_ink line.now }
    ensures bound { result ≤ length line.now }
{
    line.iter().take_while(|&&byte| ink(byte)).count()
}

// The token that begins at a place of a line, whose own first byte is at a place of the text.
fn token_at(line: &[u8], at: usize, place: Place) -> Token<'_>
    requires inside { at < length line.now }
    requires room { place.byte + length line.now < 65536 }
    ensures { seen result ≡ token_of (front is_ink (drop at line.now)) (record { line = place.line; byte = place.byte + at }) }
{
    let rest = &line[at..];
    let place = Place {
        line: place.line,
        byte: place.byte + at as u16,
    };
    lex(&rest[..token_len(rest)], place)
}

impl<'t> Token<'t> {
    // Its bytes.
    pub fn text(self) -> &'t [u8]
        ensures { result.now ≡ text_of (seen self.entry) }
    {
        match self {
            Token::Word(text, _)
            | Token::Number(text, _)
            | Token::Comment(text, _)
            | Token::Sign(text, _) => text,
        }
    }

    // Where its first byte stands.
    pub fn place(self) -> Place
        ensures { result ≡ place_of (seen self.entry) }
    {
        match self {
            Token::Word(_, place)
            | Token::Number(_, place)
            | Token::Comment(_, place)
            | Token::Sign(_, place) => place,
        }
    }
}

impl<'t> Tokens<'t> {
    // No tokens.
    fn new() -> Tokens<'t>
        ensures { held result ≡ [] }
    {
        Tokens {
            tokens: [Token::Sign(b"", Place { line: 0, byte: 0 }); 7],
            count: 0,
        }
    }

    // One token more, if there is room.
    #[tactic(auto, using(crate::proofs::Held::held_more, crate::proofs::Held::held_full))]
    fn push(&mut self, token: Token<'t>)
        ensures { held self.new ≡ take 7 (held self.old ++ seen token.entry ∷ []) }
    {
        let count = self.count as usize;
        if count < 7 {
            self.tokens[count] = token;
            self.count += 1;
        }
    }

    // The tokens.
    pub fn as_slice(&self) -> &[Token<'t>]
        ensures value { map seen result.now ≡ held self.now }
        ensures bound { length result.now ≤ 7 }
    {
        &self.tokens[..self.count as usize]
    }

    // Where the first token stands: nowhere, at line 0, if there is none.
    pub fn place(&self) -> Place
        ensures { result ≡ first_place (held self.now) }
    {
        match self.as_slice() {
            [] => Place { line: 0, byte: 0 },
            [first, ..] => first.place(),
        }
    }

    // Whether the line is skipped.
    pub fn is_skipped(&self) -> bool
        ensures { result ≡ is_skipped (held self.now) }
    {
        match self.as_slice() {
            [] => true,
            [Token::Comment(..), ..] => true,
            _ => false,
        }
    }

    // One token more if one begins at a place of the line, that is where ink follows none.
    fn push_begun(&mut self, line: &'t [u8], at: usize, inside: bool, place: Place)
        requires within { at < length line.now }
        requires room { place.byte + length line.now < 65536 }
        ensures { held self.new ≡ cond (is_ink (slice_index line.now at) && not inside) (take 7 (held self.old ++ token_of (front is_ink (drop at line.now)) (record { line = place.line; byte = place.byte + at }) ∷ [])) (held self.old) }
    {
        if ink(line[at]) && !inside {
            self.push(token_at(line, at, place));
        }
    }

    // The tokens of a line whose first byte is at a place.
    pub(crate) fn of(line: &'t [u8], place: Place) -> Tokens<'t>
        requires { place.byte + length line.now < 65536 }
        ensures { held result ≡ take 7 (tokens_from false place.line place.byte line.now) }
    {
        let mut tokens = Tokens::new();
        let mut inside = false;
        for (at, &byte) in line.iter().enumerate() {
            tokens.push_begun(line, at, inside, place);
            inside = ink(byte);
        }
        tokens
    }
}
