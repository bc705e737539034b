//! Reading a URL.
ghost use Rattle.std.specs.Prelude.{◌≡◌, ◌↔◌, ◌<◌, ◌≤◌, ◌+◌, ◌*◌, ◌++◌, ◌∷◌, [], length, take, codes, decimal, true, MatchOption, IfNone, IfOk, IfErr, IsTrue};
ghost use Rattle.std.specs.Char.{digit_value};
ghost use Rattle.std.specs.List.{list_all};
ghost use Rattle.std.specs.Result.{result_ok};
ghost use Rattle.std.specs.Str.Parse.{digits_value};
ghost use Rattle.hay_url.specs.Parts as parts;
ghost use Rattle.hay_url.specs.Url as spelling;

use crate::{Url, UrlFault};
use hay_needle::{Cookie, Pair};

/// The URL that has this text. It takes no memory.
pub fn read_url(text: &str) -> Result<Url, UrlFault>
    ensures url { IfOk result (λ url. spelling.url_text url ≡ text.now) }
    ensures fault { IfErr result (λ fault. spelling.IsUrlFault text.now (spelling.fault_at fault)) }
    ensures said { result_ok result ≡ spelling.url_of text.now }
{
    parse_url(text.as_bytes())
}

/// The same of bytes.
pub fn parse_url(text: &[u8]) -> Result<Url, UrlFault>
    ensures url { IfOk result (λ url. spelling.url_text url ≡ text.now) }
    ensures fault { IfErr result (λ fault. spelling.IsUrlFault text.now (spelling.fault_at fault)) }
    ensures said { result_ok result ≡ spelling.url_of text.now }
{
    match read_whole(text) {
        Ok(url) => Ok(url),
        Err(at) => Err(UrlFault::Bad { at }),
    }
}

fn read_whole(text: &[u8]) -> Result<Url, usize>
    ensures url { IfOk result (λ url. text.now ≡ codes "http://store/" ++ parts.machine_text url) }
    ensures fits { IfOk result spelling.FitsUrl }
    ensures fault { IfErr result (parts.Fault parts.Whole text.now) }
{
    if let Some(at) = first_misfit(text, b"http://store/") {
        return Err(at);
    }
    match read_from_machine(&text[13..]) {
        Ok(url) => Ok(url),
        Err(at) => Err(13 + at),
    }
}

fn read_from_machine(text: &[u8]) -> Result<Url, usize>
    ensures url { IfOk result (λ url. text.now ≡ parts.machine_text url) }
    ensures fits { IfOk result spelling.FitsUrl }
    ensures fault { IfErr result (parts.Fault parts.FromMachine text.now) }
{
    let (machine, used) = read_number(text, b'/')?;
    match read_from_volume(&text[used..]) {
        Ok((volume, pair, cookie)) => Ok(Url {
            machine,
            volume,
            pair,
            cookie,
        }),
        Err(at) => Err(used + at),
    }
}

fn read_from_volume(text: &[u8]) -> Result<(u32, Pair, Cookie), usize>
    ensures url { IfOk result (λ read. text.now ≡ parts.volume_text read.0 read.1 read.2) }
    ensures fault { IfErr result (parts.Fault parts.FromVolume text.now) }
{
    let (volume, used) = read_number(text, b',')?;
    match read_from_key(&text[used..]) {
        Ok((pair, cookie)) => Ok((volume, pair, cookie)),
        Err(at) => Err(used + at),
    }
}

fn read_from_key(text: &[u8]) -> Result<(Pair, Cookie), usize>
    ensures url { IfOk result (λ read. text.now ≡ parts.key_text read.0 read.1) }
    ensures fault { IfErr result (parts.Fault parts.FromKey text.now) }
{
    let numbers = split_numbers(text)?;
    let pair = Pair {
        key: hex_number(numbers.key),
        alt: hex_number(numbers.alt) as u32,
    };
    Ok((pair, Cookie(hex_number(numbers.cookie))))
}

/// The digits of the numbers from the key on.
#[derive(Clone, Copy)]
struct Numbers<'a> {
    key: &'a [u8],
    alt: &'a [u8],
    cookie: &'a [u8],
}

fn split_numbers(text: &[u8]) -> Result<Numbers<'_>, usize>
    ensures numbers { IfOk result (λ read. parts.Numbered text.now read.key.now read.alt.now read.cookie.now) }
    ensures fault { IfErr result (parts.Fault parts.FromKey text.now) }
{
    if let Some(at) = first_misfit(text, b"################_########_################") {
        return Err(at);
    }
    if text.len() > 42 {
        return Err(42);
    }
    Ok(Numbers {
        key: &text[..16],
        alt: &text[17..25],
        cookie: &text[26..],
    })
}

fn is_lower_hex(byte: u8) -> bool
    ensures { result ≡ parts.is_lower_hex byte }
{
    matches!(byte, b'0'..=b'9' | b'a'..=b'f')
}

fn fits_byte(want: u8, byte: u8) -> bool
    ensures { result ≡ parts.fits_byte want byte }
{
    if want == b'#' {
        is_lower_hex(byte)
    } else {
        byte == want
    }
}

/// The first place at which a text does not go on as a template, in which a number sign stands for any digit.
fn first_misfit(text: &[u8], template: &[u8]) -> Option<usize>
    ensures place { result ≡ parts.misfit template.now text.now }
    ensures long { IfNone result (length template.now ≤ length text.now) }
{
    for (at, want) in template.iter().enumerate() {
        if at >= text.len() {
            return Some(at);
        }
        if !fits_byte(*want, text[at]) {
            return Some(at);
        }
    }
    None
}

/// The number of at most 16 digits.
fn hex_number(digits: &[u8]) -> u64
    requires few { length digits.now ≤ 16 }
    requires lower { list_all parts.is_lower_hex digits.now ≡ true }
    ensures { result ≡ digits_value 16 digits.now }
{
    let mut number = 0u64;
    for digit in digits {
        number = number * 16 + u64::from(digit_of(*digit));
    }
    number
}

fn digit_of(byte: u8) -> u8
    requires { parts.is_lower_hex byte ≡ true }
    ensures { result ≡ digit_value byte }
{
    if byte <= b'9' {
        byte - b'0'
    } else {
        byte - b'a' + 10
    }
}

fn next_number(started: bool, number: u32, byte: u8) -> Option<u32>
    ensures { MatchOption result (parts.GoesOn started number byte → ⊥)
        (λ next. parts.GoesOn started number byte × (next ≡ number * 10 + digit_value byte)) }
{
    if !byte.is_ascii_digit() || started && number == 0 {
        return None;
    }
    number.checked_mul(10)?.checked_add(u32::from(byte - b'0'))
}

fn ends_number(at: usize, byte: u8, mark: u8) -> bool
    ensures { IsTrue result ↔ ((0 < at) × (byte ≡ mark)) }
{
    at > 0 && byte == mark
}

/// A number without leading zeros and the mark behind it, and how many bytes they have.
fn read_number(text: &[u8], mark: u8) -> Result<(u32, usize), usize>
    requires { mark < 48 }
    ensures within { IfOk result (λ read. read.1 ≤ length text.now) }
    ensures number { IfOk result (λ read. take read.1 text.now ≡ decimal read.0 ++ mark ∷ []) }
    ensures fault { IfErr result (parts.PartFault (parts.Number mark) text.now) }
{
    let mut number = 0;
    for (at, byte) in text.iter().enumerate() {
        if ends_number(at, *byte, mark) {
            return Ok((number, at + 1));
        }
        match next_number(at > 0, number, *byte) {
            Some(next) => number = next,
            None => return Err(at),
        }
    }
    Err(text.len())
}
