//! A needle as bytes.

ghost use Rattle.std.specs.Prelude.{◌≡◌, ◌+◌, ◌<◌, ◌≤◌, ◌++◌, length, vec_len, vec_capacity, OnOk, OnErr};
ghost use Rattle.hay_base.specs.declared.memory.NoMemory.{NoMemory};
ghost use Rattle.hay_needle.specs.Needle.{AppendsBehindMagic, footer_magic, head_of_needle, head_rest, live, needle_sum};
ghost use Rattle.hay_needle.specs.Sizes.{needle_total};
ghost use Rattle.byteorder.specs.Endian.{big_bytes};

use crate::needle::{Cookie, NeedleView, Pair, Version};
use crate::sum::sum_of;
use crate::total::{MAX_PHOTO, total_of};
use byteorder::{BigEndian, ByteOrder};
use hay_base::NoMemory;

/// `NEND`, which stands behind the photo.
pub(crate) const FOOTER_MAGIC: u32 = 0x4e45_4e44;

// The 28 bytes from the cookie to the size of a live needle.
#[tactic(auto, unfolding(crate::specs::Needle::head_rest))]
fn head_of(pair: Pair, cookie: Cookie, photo: &[u8]) -> [u8; 28]
    requires { length photo.now ≤ MAX_PHOTO }
    ensures { result ≡ head_rest (head_of_needle (live pair cookie photo.now)) 0 }
{
    let mut out = [0; 28];
    BigEndian::write_u64(&mut out, cookie.0);
    BigEndian::write_u64(&mut out[8..], pair.key);
    BigEndian::write_u32(&mut out[16..], pair.alt);
    // The version less 1.
    out[21] = 1;
    BigEndian::write_u32(&mut out[24..], photo.len() as u32);
    out
}

// The footer magic and the checksum of a live needle.
fn footer_of(pair: Pair, cookie: Cookie, photo: &[u8]) -> [u8; 12]
    requires { length photo.now ≤ MAX_PHOTO }
    ensures { result ≡ big_bytes 4 footer_magic ++ needle_sum (live pair cookie photo.now) }
{
    let needle = NeedleView {
        version: Version::Two,
        pair,
        cookie,
        deleted: false,
        bytes: photo,
    };
    let mut out = [0; 12];
    BigEndian::write_u32(&mut out, FOOTER_MAGIC);
    out[4..].copy_from_slice(&sum_of(&needle));
    out
}

/// Appends a live needle of version 2 from its cookie on, without the magic, and then eight zero bytes.
/// `NoMemory` changes nothing, and comes only where `out` had no room.
pub fn encode_rest(
    pair: Pair,
    cookie: Cookie,
    bytes: &[u8],
    out: &mut Vec<u8>,
) -> Result<(), NoMemory>
    requires { length bytes.now ≤ MAX_PHOTO }
    ensures ok { OnOk result (AppendsBehindMagic out.old.items out.new.items (live pair cookie bytes.now)) }
    ensures err { OnErr result (out.new.items ≡ out.old.items) }
    // Room that was reserved is enough.
    ensures full { OnErr result (vec_capacity out.old < vec_len out.old + needle_total (length bytes.now)) }
{
    let total = total_of(bytes.len() as u32) as usize;
    out.try_reserve(total)?;
    // The magic is not written here, so the padding ends eight bytes later.
    let end = out.len() + total;
    out.extend_from_slice(&head_of(pair, cookie, bytes))?;
    out.extend_from_slice(bytes)?;
    out.extend_from_slice(&footer_of(pair, cookie, bytes))?;
    out.resize(end, 0)?;
    Ok(())
}
