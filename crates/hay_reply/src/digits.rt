//! Bytes as hexadecimal digits, two for each.
ghost use Rattle.std.specs.Prelude.{◌≡◌, ◌++◌, ◌*◌, ◌≤◌, ◌<◌, length, slice_index, OnOk, string_bytes};
ghost use Rattle.std.specs.Str.{IsUtf8};
ghost use Rattle.hex.specs.Hex.{encode_lower, lower_digits};

use hay_base::NoMemory;

/// So many bytes are written at a time.
const PART: usize = 512;

/// The digit of a value.
fn digit(value: u8) -> u8
    requires { value < 16 }
    ensures { result ≡ slice_index lower_digits value }
{
    if value < 10 {
        value + b'0'
    } else {
        value - 10 + b'a'
    }
}

fn encode_into(bytes: &[u8], digits: &mut [u8])
    requires { length digits.old ≡ 2 * length bytes.now }
    ensures { digits.new ≡ encode_lower bytes.now }
{
    'bytes: for i in 0..bytes.len() {
        let byte = bytes[i];
        digits[2 * i] = digit(byte / 16);
        digits[2 * i + 1] = digit(byte % 16);
    }
}

fn text_of(digits: &[u8]) -> &str
    requires { IsUtf8 digits.now }
    ensures { result.now ≡ digits.now }
{
    match str::from_utf8(digits) {
        Ok(text) => text,
        Err(_) => "",
    }
}

fn write_part(part: &[u8], out: &mut String) -> Result<(), NoMemory>
    requires { length part.now ≤ PART }
    ensures { OnOk result (string_bytes out.new ≡ string_bytes out.old ++ encode_lower part.now) }
{
    let mut room = [0; 2 * PART];
    let digits = &mut room[..2 * part.len()];
    encode_into(part, digits);
    out.push_str(text_of(digits))?;
    Ok(())
}

/// Adds the digits of bytes.
pub fn write_digits(bytes: &[u8], out: &mut String) -> Result<(), NoMemory>
    ensures { OnOk result (string_bytes out.new ≡ string_bytes out.old ++ encode_lower bytes.now) }
{
    out.reserve(bytes.len().saturating_mul(2))?;
    let mut rest = bytes;
    while !rest.is_empty() {
        let (part, behind) = rest.split_at(rest.len().min(PART));
        write_part(part, out)?;
        rest = behind;
    }
    Ok(())
}
