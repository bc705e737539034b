//! Hexadecimal digits, two for each byte.
ghost use Rattle.std.specs.Prelude.{◌≡◌, ◌*◌, length, max, unwrap_or, if◌then◌else◌, IfOk, IfSome};
ghost use Rattle.std.specs.Result.{result_ok};
ghost use Rattle.hex.specs.Hex.{decode_of, hex_digit_value};

use hay_base::NoMemory;
use hay_needle::Bytes;
use std::alloc::Global;

/// The value of a digit of either case, and 255 of another byte.
fn digit_value(byte: u8) -> u8
    ensures { result ≡ unwrap_or (hex_digit_value byte) 255 }
{
    match byte {
        b'A'..=b'F' => byte - b'A' + 10,
        b'a'..=b'f' => byte - b'a' + 10,
        b'0'..=b'9' => byte - b'0',
        _ => 255,
    }
}

fn larger(one: u8, other: u8) -> u8
    ensures { result ≡ max one other }
{
    if one < other { other } else { one }
}

/// Writes the bytes of digits, and answers whether all of them are digits. It goes on behind one that is none, so that no step waits for a test.
fn decode_into(text: &[u8], out: &mut [u8]) -> bool
    requires { length text.now ≡ 2 * length out.old }
    ensures { result_ok (decode_of text.now) ≡ (if result then Some out.new else None) }
{
    let mut worst = 0;
    'bytes: for i in 0..out.len() {
        let high = digit_value(text[2 * i]);
        let low = digit_value(text[2 * i + 1]);
        worst = larger(worst, larger(high, low));
        out[i] = high.wrapping_mul(16).wrapping_add(low);
    }
    worst < 16
}

/// The bytes of a text of digits, if it is one.
pub fn decode(alloc: Global, text: &[u8]) -> Result<Option<Bytes>, NoMemory>
    ensures bytes { IfOk result (λ bytes. bytes ≡ result_ok (decode_of text.now)) }
    ensures half { IfOk result (λ bytes. IfSome bytes (λ list. length text.now ≡ 2 * length list)) }
{
    if text.len() % 2 != 0 {
        return Ok(None);
    }
    let mut bytes = vec![in alloc; 0; text.len() / 2]?;
    if !decode_into(text, bytes.as_mut_slice()) {
        return Ok(None);
    }
    Ok(Some(Bytes::from_vec(bytes)))
}
