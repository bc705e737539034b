//! Numbers and cookies.
ghost use Rattle.std.specs.Prelude.{◌≡◌, ◌+◌, ◌*◌, ◌^◌, ◌≤◌, ◌<◌, nat_lt, length, if◌then◌else◌};
ghost use Rattle.std.specs.Char.{is_ascii_digit};
ghost use Rattle.std.specs.List.{list_all};
ghost use Rattle.std.specs.Str.Parse.{AllDigits, digits_value};
ghost use Rattle.hex.specs.Hex.{is_hex_digit};
ghost use Rattle.hay_script.specs.Script as grammar;

use hay_needle::{Cookie, Pair};

fn is_decimal(text: &[u8]) -> bool
    ensures { result ≡ list_all is_ascii_digit text.now }
{
    text.iter().all(|byte| byte.is_ascii_digit())
}

/// Whether all are hexadecimal digits, of either case.
pub fn is_hex(text: &[u8]) -> bool
    ensures { result ≡ list_all is_hex_digit text.now }
{
    text.iter().all(|byte| matches!(*byte, b'0'..=b'9' | b'A'..=b'F' | b'a'..=b'f'))
}

/// The number of such digits, if it fits.
pub fn read_digits(text: &[u8], radix: u32) -> Option<u64>
    requires some { 0 < length text.now }
    requires digits { AllDigits radix text.now }
    requires least { 2 ≤ radix }
    requires most { radix ≤ 16 }
    ensures { result ≡ (if nat_lt (digits_value radix text.now) (2 ^ 64) then Some (digits_value radix text.now) else None) }
{
    match str::from_utf8(text) {
        Ok(text) => u64::from_str_radix(text, radix).ok(),
        Err(_) => None,
    }
}

/// A number of 64 bits.
pub fn read_large(text: &[u8]) -> Option<u64>
    ensures { result ≡ grammar.large text.now }
{
    if text.is_empty() || text.len() > 20 || !is_decimal(text) {
        return None;
    }
    read_digits(text, 10)
}

/// A number of 32 bits.
pub fn read_small(text: &[u8]) -> Option<u32>
    ensures { result ≡ grammar.small text.now }
{
    u32::try_from(read_large(text)?).ok()
}

/// A number below a limit.
pub fn read_below(text: &[u8], limit: u32) -> Option<u32>
    ensures { result ≡ grammar.below limit text.now }
{
    read_small(text).filter(|number| *number < limit)
}

/// A number from one to this.
pub fn read_count(text: &[u8], most: u32) -> Option<u32>
    ensures { result ≡ grammar.from_one (most + 1) text.now }
{
    read_small(text).filter(|number| *number != 0 && *number <= most)
}

pub fn read_pair(key: &[u8], alt: &[u8]) -> Option<Pair>
    ensures { result ≡ grammar.pair_of_text key.now alt.now }
{
    let key = read_large(key)?;
    let alt = read_small(alt)?;
    Some(Pair { key, alt })
}

pub fn read_cookie(text: &[u8]) -> Option<Cookie>
    ensures { result ≡ grammar.cookie_of_text text.now }
{
    if text.is_empty() || text.len() > 16 || !is_hex(text) {
        return None;
    }
    Some(Cookie(read_digits(text, 16)?))
}
