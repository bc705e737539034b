//! The needles of a batch as bytes.

ghost use Rattle.std.specs.Prelude.{◌≡◌, ◌≤◌, ◌++◌, ℕ, List, length, IfOk, OnOk};
ghost use Rattle.hay_disk.specs.Gate.{end_mark};
ghost use Rattle.hay_needle.specs.Needle.{NeedleBytes, live};
ghost use Rattle.hay_batch.specs.Batches.{AreNeedles, IsBatch, batch_total};

use crate::photo::NewPhoto;
use hay_base::NoMemory;
use hay_needle::{MAX_PHOTO, NEEDLE_MAGIC, encode_rest};
use std::alloc::Global;

// The number of bytes of the end mark.
const MARK_LEN: usize = 8;

// Adds the needle of a photo.
fn push_needle(bytes: &mut Vec<u8>, photo: &NewPhoto) -> Result<(), NoMemory>
    requires { length photo.now.bytes ≤ MAX_PHOTO }
    ensures { OnOk result ((needle : List ℕ) × NeedleBytes needle (live photo.now.pair photo.now.cookie photo.now.bytes)
        × (bytes.new.items ≡ bytes.old.items ++ needle)) }
{
    bytes.extend_from_slice(&NEEDLE_MAGIC.to_be_bytes())?;
    encode_rest(photo.pair, photo.cookie, photo.bytes.as_slice(), bytes)?;
    // The end mark comes behind the last needle alone.
    bytes.truncate(bytes.len() - MARK_LEN);
    Ok(())
}

/// The needles of a batch, which take so many bytes, and the end mark.
pub(crate) fn encode_batch(
    alloc: Global,
    photos: &[NewPhoto],
    total: u64,
) -> Result<Vec<u8>, NoMemory>
    requires batch { IsBatch photos.now }
    requires total { total ≡ batch_total photos.now }
    ensures { IfOk result (λ bytes. (needles : List ℕ) × AreNeedles needles photos.now × (bytes.items ≡ needles ++ end_mark)) }
{
    let mut bytes = Vec::with_capacity(alloc, total as usize + MARK_LEN)?;
    for photo in photos {
        push_needle(&mut bytes, photo)?;
    }
    bytes.extend_from_slice(&[0; MARK_LEN])?;
    Ok(bytes)
}
