//! The checksum of a needle.

ghost use Rattle.std.specs.Prelude.{◌≡◌, ◌≤◌, ◌++◌, length};
ghost use Rattle.hay_needle.specs.Needle.{needle_of_view, needle_sum};
ghost use Rattle.byteorder.specs.Endian.{big_bytes};

use crate::needle::{NeedleView, Version};
use byteorder::{BigEndian, ByteOrder};
use sha2::{Digest, Sha256};

// Cookie, keys and size, as they stand in a needle.
fn fields_of(needle: &NeedleView<'_>) -> [u8; 24]
    requires { length needle.now.bytes.now ≤ u32.MAX }
    ensures { result ≡ big_bytes 8 needle.now.cookie.0 ++ big_bytes 8 needle.now.pair.key
        ++ big_bytes 4 needle.now.pair.alt ++ big_bytes 4 (length needle.now.bytes.now) }
{
    let mut out = [0; 24];
    BigEndian::write_u64(&mut out, needle.cookie.0);
    BigEndian::write_u64(&mut out[8..], needle.pair.key);
    BigEndian::write_u32(&mut out[16..], needle.pair.alt);
    BigEndian::write_u32(&mut out[20..], needle.bytes.len() as u32);
    out
}

// The checksum that the needle has by its version.
pub(crate) fn sum_of(needle: &NeedleView<'_>) -> [u8; 8]
    requires { length needle.now.bytes.now ≤ u32.MAX }
    ensures { result ≡ needle_sum (needle_of_view needle.now) }
{
    let mut hasher = Sha256::new();
    match needle.version {
        Version::One => {}
        Version::Two => hasher.update(&fields_of(needle)),
    }
    hasher.update(needle.bytes);
    let mut sum = [0; 8];
    sum.copy_from_slice(&hasher.finalize()[..8]);
    sum
}
