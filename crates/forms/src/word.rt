// Names and numbers.
ghost use Rattle.std.specs.Prelude.{◌≡◌, ◌≤◌, true, ◌||◌, ◌&&◌, length};
ghost use Rattle.std.specs.List.{list_all};
ghost use Rattle.std.specs.Option.{option_map};
ghost use Rattle.text.specs.Bytes.{is_letter, is_digit, within};
ghost use Rattle.forms.specs.Words.{input_of, is_name, number_of, reach_of, value};

use program::statement::{Input, Reach};

// Which of the inputs in0 to in7 it is.
pub fn input(text: &[u8]) -> Option<Input>
    ensures { option_map (λ i. i.number) result ≡ input_of text.now }
{
    match text {
        [b'i', b'n', digit @ b'0'..=b'7'] => Input::new(digit - b'0'),
        _ => None,
    }
}

// Whether each byte may stand in a name.
fn has_letters_and_digits(text: &[u8]) -> bool
    ensures { result ≡ list_all (λ b. is_letter b || is_digit b) text.now }
{
    text.iter()
        .all(|byte| byte.is_ascii_lowercase() || byte.is_ascii_digit())
}

// Whether each byte is a digit.
fn has_digits(text: &[u8]) -> bool
    ensures { result ≡ list_all is_digit text.now }
{
    text.iter().all(|byte| byte.is_ascii_digit())
}

// Whether it may be declared: 1 to 12 letters and digits, a letter first, and no input.
#[tactic(auto, using(crate::proofs::Words::name_by_first))]
pub fn is_name(text: &[u8]) -> bool
    ensures { result ≡ is_name text.now }
{
    match text {
        [first, rest @ ..] => {
            first.is_ascii_lowercase()
                && rest.len() <= 11
                && has_letters_and_digits(rest)
                && input(text).is_none()
        }
        [] => false,
    }
}

// Whether it is 1 to 5 digits.
#[tactic(auto, using(crate::proofs::Words::digits_by_first))]
fn has_few_digits(text: &[u8]) -> bool
    ensures { result ≡ (within 1 5 (length text.now) && list_all is_digit text.now) }
{
    match text {
        [first, rest @ ..] => first.is_ascii_digit() && rest.len() <= 4 && has_digits(rest),
        [] => false,
    }
}

// The number that so many digits write.
fn digits_value(digits: &[u8]) -> u32
    requires few { length digits.now ≤ 5 }
    requires digits { list_all is_digit digits.now ≡ true }
    ensures { result ≡ value digits.now }
{
    let mut value = 0;
    for digit in digits {
        value = value * 10 + u32::from(digit - b'0');
    }
    value
}

// The number that it writes: 1 to 5 digits, at most 65,535.
pub fn number(text: &[u8]) -> Option<u16>
    ensures { result ≡ number_of text.now }
{
    if has_few_digits(text) {
        u16::try_from(digits_value(text)).ok()
    } else {
        None
    }
}

// The reach that it writes: a number from 1 to 15.
pub fn reach(text: &[u8]) -> Option<Reach>
    ensures { option_map (λ r. r.count) result ≡ reach_of text.now }
{
    Reach::new(u8::try_from(number(text)?).ok()?)
}
