//! The words of a text, and the numbers that they write.
ghost use Rattle.std.specs.Prelude.{◌≡◌, ◌==◌, ◌∷◌, [], position, MatchOption, bytes_eq};
ghost use Rattle.std.specs.Char.{is_ascii_digit};
ghost use Rattle.std.specs.List.{list_all};
ghost use Rattle.hay_reply.specs.Reading as reading;

use crate::ClosedBy;
use hay_needle::Cookie;

fn first_mark(text: &[u8], mark: u8) -> Option<usize>
    ensures { result ≡ position (reading.is_mark mark) text.now }
{
    text.iter().position(|byte| *byte == mark)
}

/// The next part of what is left of a text, and what is left behind it.
pub fn next_part(left: Option<&[u8]>, mark: u8) -> Option<(&[u8], Option<&[u8]>)>
    ensures { MatchOption result
        (reading.left_parts mark left.entry ≡ [])
        (λ part. reading.left_parts mark left.entry ≡ part.0.now ∷ reading.left_parts mark part.1) }
{
    let text = left?;
    match first_mark(text, mark) {
        Some(at) => Some((&text[..at], Some(&text[at + 1..]))),
        None => Some((text, None)),
    }
}

/// Whether a word is this text.
pub fn is(word: &[u8], text: &str) -> bool
    ensures { result ≡ bytes_eq word.now text.now }
{
    word == text.as_bytes()
}

fn is_decimal(text: &[u8]) -> bool
    ensures { result ≡ list_all is_ascii_digit text.now }
{
    text.iter().all(|byte| byte.is_ascii_digit())
}

pub fn read_large(text: &[u8]) -> Option<u64>
    ensures { result ≡ reading.large text.now }
{
    if text.is_empty() || !is_decimal(text) {
        return None;
    }
    match str::from_utf8(text) {
        Ok(digits) => digits.parse().ok(),
        Err(_) => None,
    }
}

pub fn read_small(text: &[u8]) -> Option<u32>
    ensures { result ≡ reading.small text.now }
{
    u32::try_from(read_large(text)?).ok()
}

/// The cookie of 16 digits.
pub fn read_cookie(word: &[u8]) -> Option<Cookie>
    ensures { result ≡ reading.cookie_of_word word.now }
{
    let mut bytes = [0u8; 8];
    hex::decode_to_slice(word, &mut bytes).ok()?;
    Some(Cookie(u64::from_be_bytes(bytes)))
}

/// A volume and a machine.
pub fn read_place(word: &[u8]) -> Option<ClosedBy>
    ensures { result ≡ reading.closed_of word.now }
{
    let (volume, left) = next_part(Some(word), b':')?;
    let (machine, _) = next_part(left, b':')?;
    let volume = read_small(volume)?;
    let machine = read_small(machine)?;
    Some(ClosedBy { volume, machine })
}
