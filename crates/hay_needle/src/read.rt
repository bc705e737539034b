//! Reading needles.

ghost use Rattle.std.specs.Prelude.{◌≡◌, ◌+◌, ◌≤◌, length, take, IfOk, IsOkAnd};
ghost use Rattle.hay_needle.specs.Sizes.{needle_padding};
ghost use Rattle.hay_needle.specs.declared.needle.Needle.{Needle};
ghost use Rattle.hay_needle.specs.Needle.{Head, HeadBytes, BeginsWithNeedle, head_of_cell, needle_of_view};
ghost use Rattle.hay_needle.specs.Reading.{head_at, needle_at, version_of};
ghost use Rattle.hay_needle.specs.Faults.{fault_of, first_fault, head_tests, footer_tests, needle_tests};

use crate::encode::FOOTER_MAGIC;
use crate::fields::{is_zero, u32_at, u64_at};
use crate::needle::{CellHead, Cookie, NeedleView, Pair, Version};
use crate::sum::sum_of;
use crate::total::{max_photo_of, padding_of, total_of};

/// `NEEDLE01`, which begins a needle.
pub const NEEDLE_MAGIC: u64 = 0x4e45_4544_4c45_3031;

/// The number of bytes before the photo.
pub const HEAD_LEN: usize = 36;

/// Why bytes are no needle: the first of these faults, in the order of the reading.
#[derive(Clone, Copy, Debug, PartialEq, Eq)]
pub enum NeedleFault {
    /// The bytes end before the needle's head does, or, after `Reserved`, before the needle does.
    Short,
    /// They do not begin with the magic.
    Magic,
    /// The size at 32 is above 16,777,216, or above 1,048,576 where the byte at 29 is 0.
    Size,
    /// The byte at 29 is above 1, or the two behind it are not zero.
    Reserved,
    /// The footer magic does not stand behind the photo.
    Footer,
    /// The bytes behind the checksum are not zero.
    Padding,
    /// The checksum is not that of the needle's version.
    Sum,
}

fn version_of_byte(byte: u8) -> Version
    ensures { result ≡ version_of byte }
{
    if byte == 0 {
        Version::One
    } else {
        Version::Two
    }
}

#[tactic(auto, unfolding(crate::specs::Faults::head_tests, crate::specs::Reading::head_at))]
fn head(bytes: &[u8], at: u64) -> Result<CellHead, NeedleFault>
    ensures place { IfOk result (λ h. h.at ≡ at) }
    ensures fields { IfOk result (λ h. head_of_cell h ≡ head_at bytes.now) }
    ensures fault { fault_of result ≡ first_fault (head_tests bytes.now) }
{
    if bytes.len() < HEAD_LEN {
        return Err(NeedleFault::Short);
    }
    if u64_at(bytes, 0) != NEEDLE_MAGIC {
        return Err(NeedleFault::Magic);
    }
    let version = version_of_byte(bytes[29]);
    let size = u32_at(bytes, 32);
    if size > max_photo_of(version) {
        return Err(NeedleFault::Size);
    }
    if bytes[29] > 1 || !is_zero(&bytes[30..32]) {
        return Err(NeedleFault::Reserved);
    }
    Ok(CellHead {
        at,
        version,
        pair: Pair {
            key: u64_at(bytes, 16),
            alt: u32_at(bytes, 24),
        },
        cookie: Cookie(u64_at(bytes, 8)),
        size,
        deleted: bytes[28] != 0,
    })
}

#[tactic(auto, unfolding(crate::specs::Faults::footer_tests))]
fn check_footer(needle: &NeedleView<'_>, footer: &[u8]) -> Result<(), NeedleFault>
    requires size { length needle.now.bytes.now ≤ u32.MAX }
    requires footer { 12 + needle_padding (length needle.now.bytes.now) ≤ length footer.now }
    ensures { fault_of result ≡ first_fault (footer_tests (needle_of_view needle.now) footer.now) }
{
    if u32_at(footer, 0) != FOOTER_MAGIC {
        return Err(NeedleFault::Footer);
    }
    if !is_zero(&footer[12..12 + padding_of(needle.bytes.len() as u32)]) {
        return Err(NeedleFault::Padding);
    }
    if footer[4..12] != sum_of(needle)[..] {
        return Err(NeedleFault::Sum);
    }
    Ok(())
}

#[tactic(auto, using(crate::proofs::FaultLemmas::first_of_both), unfolding(crate::specs::Faults::needle_tests, crate::specs::Reading::needle_at, crate::specs::Reading::head_at))]
fn needle(bytes: &[u8]) -> Result<NeedleView<'_>, NeedleFault>
    ensures fields { IfOk result (λ v. needle_of_view v ≡ needle_at bytes.now) }
    ensures fault { fault_of result ≡ first_fault (needle_tests bytes.now) }
{
    let head = head(bytes, 0)?;
    if (bytes.len() as u64) < total_of(head.size) {
        return Err(NeedleFault::Short);
    }
    let (_, body) = bytes.split_at(HEAD_LEN);
    let (photo, footer) = body.split_at(head.size as usize);
    let needle = NeedleView {
        version: head.version,
        pair: head.pair,
        cookie: head.cookie,
        deleted: head.deleted,
        bytes: photo,
    };
    check_footer(&needle, footer)?;
    Ok(needle)
}

/// What the first 36 bytes say of the needle that stands at `at` in its file.
pub fn read_head(bytes: &[u8], at: u64) -> Result<CellHead, NeedleFault>
    ensures place { IfOk result (λ h. h.at ≡ at) }
    // What is read is a head.
    ensures found { IfOk result (λ h. HeadBytes (take 36 bytes.now) (head_of_cell h)) }
    // A head is read.
    ensures only { (h : Head) → HeadBytes (take 36 bytes.now) h → IsOkAnd result (λ cell. head_of_cell cell ≡ h) }
    // The fault is the first that the bytes have.
    ensures fault { fault_of result ≡ first_fault (head_tests bytes.now) }
{
    head(bytes, at)
}

/// The needle at the front of the bytes. What follows it is not read.
pub fn read_needle(bytes: &[u8]) -> Result<NeedleView<'_>, NeedleFault>
    // What is read is a needle.
    ensures found { IfOk result (λ v. BeginsWithNeedle bytes.now (needle_of_view v)) }
    // A needle is read, whatever follows it.
    ensures only { (n : Needle) → BeginsWithNeedle bytes.now n → IsOkAnd result (λ v. needle_of_view v ≡ n) }
    // The fault is the first that the bytes have.
    ensures fault { fault_of result ≡ first_fault (needle_tests bytes.now) }
{
    needle(bytes)
}
