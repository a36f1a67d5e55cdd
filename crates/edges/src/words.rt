// The words and numbers of a command.
use super::names::{NUMBERS, PHASES};

// What a word behind a command's first says.
#[derive(Clone, Copy, PartialEq, Eq)]
pub enum Word {
    // No word, or one that stands for none: `then`, and one that begins with #.
    Missing,
    Number(u16),
    // A slot's number by its name: the first place in `NUMBERS` that has it.
    Name(usize),
    Unknown,
}

// What a digit is worth, decimal or hexadecimal in capitals.
fn digit(b: u8) -> Option<u16> {
    match b {
        b'0'..=b'9' => Some(u16::from(b - b'0')),
        b'A'..=b'F' => Some(u16::from(b - b'A') + 10),
        _ => None,
    }
}

// A number with one more digit, if it is a digit of this base, and the number not above 65535.
fn longer(n: u16, base: u16, b: u8) -> Option<u16> {
    let d = digit(b)?;
    if base <= d {
        return None;
    }
    n.checked_mul(base)?.checked_add(d)
}

// The number that some digits say.
fn digits(text: &[u8], base: u16) -> Option<u16> {
    if text.is_empty() {
        return None;
    }
    let mut n = 0;
    for b in text {
        n = longer(n, base, *b)?;
    }
    Some(n)
}

// A number: decimal, or hexadecimal in capitals with an h.
fn number(text: &[u8]) -> Option<u16> {
    match text {
        [hex @ .., b'h'] => digits(hex, 16),
        _ => digits(text, 10),
    }
}

// A number below zero is kept in two's complement.
fn negative(text: &[u8]) -> Option<u16> {
    match number(text)? {
        n @ 0..=32768 => Some(n.wrapping_neg()),
        _ => None,
    }
}

// The number of a phase.
fn phase(text: &[u8]) -> Option<u16> {
    let at = PHASES.iter().position(|(name, _)| name.as_bytes() == text)?;
    u16::try_from(at).ok()
}

fn named(text: &[u8]) -> Word {
    match NUMBERS.iter().position(|name| name.as_bytes() == text) {
        Some(at) => Word::Name(at),
        None => Word::Unknown,
    }
}

impl From<&[u8]> for Word {
    fn from(text: &[u8]) -> Word {
        match text {
            [] | [b'#', ..] | b"then" => Word::Missing,
            [b'-', rest @ ..] => negative(rest).map_or(Word::Unknown, Word::Number),
            _ => match number(text).or(phase(text)) {
                Some(n) => Word::Number(n),
                None => named(text),
            },
        }
    }
}

// A comma is a blank, and so is what is not above a space.
fn is_blank(b: &u8) -> bool {
    *b <= b' ' || *b == b','
}

// The first word of a command, if it has one.
pub fn first(text: &[u8]) -> Option<&[u8]> {
    text.split(is_blank).find(|word| !word.is_empty())
}

// What those behind it say, thirty-seven at most.
pub fn behind_first(text: &[u8]) -> [Word; 37] {
    let mut all = [Word::Missing; 37];
    let words = text.split(is_blank).filter(|word| !word.is_empty());
    for (place, word) in all.iter_mut().zip(words.skip(1)) {
        *place = Word::from(word);
    }
    all
}
