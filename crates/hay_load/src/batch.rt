//! Puts that are gathered into a batch.

ghost use Rattle.std.specs.Prelude.{◌≡◌, ◌++◌, ◌∷◌, [], ◌≤◌, length, IfOk, true};
ghost use Rattle.std.specs.List.{list_all};
ghost use Rattle.hay_batch.specs.Batches.{IsBatch};
ghost use Rattle.hay_load.specs.Gathering.{IsGathered, fits_behind, is_beside, joins, photo_of};

use hay_base::NoMemory;
use hay_batch::{MAX_PHOTOS, MAX_TOTAL, NewPhoto, batch_total};
use hay_needle::{Bytes, MAX_PHOTO, Pair, Settings, total_of};
use hay_url::cookie_of;
use std::alloc::Global;

/// Puts that are gathered into a batch, and the number of the line of the first.
#[derive(Drop)]
pub struct Gathered {
    pub line: u64,
    pub photos: Vec<NewPhoto>,
}

/// The photo that a put stores.
pub(crate) fn photo_of(settings: &Settings, pair: Pair, bytes: Bytes) -> NewPhoto
    ensures { result ≡ photo_of settings.now pair bytes }
{
    NewPhoto {
        pair,
        cookie: cookie_of(&settings.secret, pair.key),
        bytes,
    }
}

// Whether the photo is of the key of another, and not of its pair.
fn is_beside(photo: &NewPhoto, other: &NewPhoto) -> bool
    ensures { result ≡ is_beside photo.now other.now }
{
    other.pair.key == photo.pair.key && other.pair.alt != photo.pair.alt
}

// Whether it is so of each.
fn are_beside(photo: &NewPhoto, photos: &[NewPhoto]) -> bool
    ensures { result ≡ list_all (is_beside photo.now) photos.now }
{
    photos.iter().all(|other| is_beside(photo, other))
}

// Whether the photo fits into a batch behind these.
fn fits_behind(photo: &NewPhoto, photos: &[NewPhoto]) -> bool
    requires batch { IsBatch photos.now }
    requires size { length photo.now.bytes ≤ MAX_PHOTO }
    ensures { result ≡ fits_behind photo.now photos.now }
{
    photos.len() < MAX_PHOTOS
        && batch_total(photos) + total_of(photo.bytes.len() as u32) <= MAX_TOTAL
}

impl Gathered {
    /// One photo, which the line of this number puts.
    pub(crate) fn new(alloc: Global, line: u64, photo: NewPhoto) -> Result<Gathered, NoMemory>
        requires { length photo.bytes ≤ MAX_PHOTO }
        ensures made { IfOk result (λ made. (made.line ≡ line) × (made.photos.items ≡ photo ∷ [])) }
        ensures gathered { IfOk result (λ made. IsGathered made.photos.items) }
    {
        let mut photos = Vec::with_capacity(alloc, 1)?;
        photos.push_reserved(photo);
        Ok(Gathered { line, photos })
    }

    /// Whether the photo may be of the same batch.
    pub(crate) fn joins(&self, photo: &NewPhoto) -> bool
        requires gathered { IsGathered self.now.photos.items }
        requires size { length photo.now.bytes ≤ MAX_PHOTO }
        ensures { result ≡ joins self.now.photos.items photo.now }
    {
        let photos = self.photos.as_slice();
        are_beside(photo, photos) && fits_behind(photo, photos)
    }

    /// The batch with this photo behind the others.
    pub(crate) fn with(mut self, photo: NewPhoto) -> Result<Gathered, NoMemory>
        requires gathered { IsGathered self.photos.items }
        requires size { length photo.bytes ≤ MAX_PHOTO }
        requires joins { joins self.photos.items photo ≡ true }
        ensures made { IfOk result (λ made. (made.line ≡ self.line) × (made.photos.items ≡ self.photos.items ++ photo ∷ [])) }
        ensures gathered { IfOk result (λ made. IsGathered made.photos.items) }
    {
        self.photos.push(photo)?;
        Ok(self)
    }
}
