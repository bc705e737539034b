//! The photos of a batch.

ghost use Rattle.std.specs.Prelude.{◌≡◌};
ghost use Rattle.hay_batch.specs.Batches.{IsBatch, batch_total};

use hay_needle::{Bytes, Cookie, Pair, total_of};

/// The photos of a batch at most.
pub const MAX_PHOTOS: usize = 64;

/// The bytes of a batch's needles at most.
pub const MAX_TOTAL: u64 = 67_108_864;

/// A photo to store under a pair.
#[derive(Drop)]
pub struct NewPhoto {
    pub pair: Pair,
    pub cookie: Cookie,
    pub bytes: Bytes,
}

/// How many bytes the needles of a batch take.
pub fn batch_total(photos: &[NewPhoto]) -> u64
    requires { IsBatch photos.now }
    ensures { result ≡ batch_total photos.now }
{
    let mut total = 0;
    for photo in photos {
        total += total_of(photo.bytes.len() as u32);
    }
    total
}
