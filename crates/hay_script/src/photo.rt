//! The bytes of a photo.
ghost use Rattle.std.specs.Prelude.{◌≡◌, ◌≤◌, ◌==◌, ◌&&◌, ◌∷◌, [], length, position, if◌then◌else◌, MatchOption, IfOk, IfSome};
ghost use Rattle.std.specs.List.{list_all, slice_split};
ghost use Rattle.std.specs.Str.Parse.{digits_value};
ghost use Rattle.hex.specs.Hex.{is_hex_digit};
ghost use Rattle.hay_script.specs.Script as grammar;

use crate::hexadecimal::decode;
use crate::numbers::{is_hex, read_count, read_digits};
use hay_base::NoMemory;
use hay_needle::{Bytes, MAX_PHOTO};
use std::alloc::Global;

/// The photo of a word: no bytes, one byte many times, or two digits for each byte.
pub fn read_photo(alloc: Global, text: &[u8]) -> Result<Option<Bytes>, NoMemory>
    ensures photo { IfOk result (λ photo. photo ≡ grammar.photo_of_text text.now) }
    ensures size { IfOk result (λ photo. IfSome photo (λ bytes. length bytes ≤ MAX_PHOTO)) }
{
    match text {
        [b'-'] => Ok(Some(Bytes::new(alloc))),
        [b'x', run @ ..] => read_run(alloc, run),
        _ => read_hex(alloc, text),
    }
}

fn read_hex(alloc: Global, text: &[u8]) -> Result<Option<Bytes>, NoMemory>
    ensures photo { IfOk result (λ photo. photo ≡ grammar.hex_photo text.now) }
    ensures size { IfOk result (λ photo. IfSome photo (λ bytes. length bytes ≤ MAX_PHOTO)) }
{
    if text.len() < 2 || text.len() > 2 * MAX_PHOTO as usize {
        return Ok(None);
    }
    decode(alloc, text)
}

fn first_colon(run: &[u8]) -> Option<usize>
    ensures { result ≡ position grammar.is_colon run.now }
{
    run.iter().position(|byte| *byte == b':')
}

fn split_colon(run: &[u8]) -> Option<(&[u8], &[u8])>
    ensures { MatchOption result
        (slice_split grammar.is_colon run.now ≡ run.now ∷ [])
        (λ parts. slice_split grammar.is_colon run.now ≡ parts.0.now ∷ slice_split grammar.is_colon parts.1.now) }
{
    let colon = first_colon(run)?;
    Some((&run[..colon], &run[colon + 1..]))
}

fn read_byte(digits: &[u8]) -> Option<u8>
    ensures { result ≡ (if length digits.now == 2 && list_all is_hex_digit digits.now then Some (digits_value 16 digits.now) else None) }
{
    if digits.len() != 2 || !is_hex(digits) {
        return None;
    }
    u8::try_from(read_digits(digits, 16)?).ok()
}

/// The bytes of `LEN:BB`.
fn read_run(alloc: Global, run: &[u8]) -> Result<Option<Bytes>, NoMemory>
    ensures photo { IfOk result (λ photo. photo ≡ grammar.run_of_parts (slice_split grammar.is_colon run.now)) }
    ensures size { IfOk result (λ photo. IfSome photo (λ bytes. length bytes ≤ MAX_PHOTO)) }
{
    let Some((count, digits)) = split_colon(run) else {
        return Ok(None);
    };
    let Some(byte) = read_byte(digits) else {
        return Ok(None);
    };
    let Some(count) = read_count(count, MAX_PHOTO) else {
        return Ok(None);
    };
    let bytes = vec![in alloc; byte; count as usize]?;
    Ok(Some(Bytes::from_vec(bytes)))
}
