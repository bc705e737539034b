//! Places, and rows of them.
ghost use Rattle.std.specs.Prelude.{◌≡◌, ◌≤◌, ◌<◌, ◌++◌, ◌∷◌, [], true, length, IfOk, IsErr, IsOk};
ghost use Rattle.hay_disk.specs.Counts.{IsCounted, StaysSure};
ghost use Rattle.hay_disk.specs.Disk.{IsBut};
ghost use Rattle.hay_needle.specs.Sizes.{needle_total};
ghost use Rattle.hay_map.specs.Places.{gone_place};

use hay_disk::{Arm, Failed, Piece};
use hay_needle::MAX_PHOTO;
use std::marker::Model;

/// A needle that a volume file gave out: where it stands in the file, how many bytes its photo has, and the piece to fetch it by.
#[derive(Drop)]
pub struct Sealed<P: Piece> {
    at: u64,
    size: u32,
    piece: P,
}

impl<P: Piece> Model for Sealed<P> {
    ghost use Rattle.std.specs.Prelude.{◌≡◌, ◌≤◌};
    ghost use Rattle.hay_needle.specs.Sizes.{max_photo, needle_total};
    ghost use Rattle.hay_needle.specs.declared.needle.Version.TheVariants.{Two};
    ghost use Rattle.hay_map.specs.Sealed.{SealedNeedle};

    ghost Value = { SealedNeedle };

    ghost view = { λ s. record { at = s.at; size = s.size; bytes = P.piece_bytes s.piece } };

    ghost invariant = { λ s. (s.size ≤ max_photo Two) × (P.piece_len s.piece ≡ needle_total s.size) × (P.piece_hole s.piece ≡ 28) };
}

impl<P: Piece> Sealed<P> {
    /// The needle whose piece this is. The piece's hole is the flags byte.
    pub fn new(at: u64, size: u32, piece: P) -> Sealed<P>
        requires size { size ≤ MAX_PHOTO }
        requires len { P.piece_len piece ≡ needle_total size }
        requires hole { P.piece_hole piece ≡ 28 }
        ensures { result ≡ record { at = at; size = size; bytes = P.piece_bytes piece } }
    {
        Sealed { at, size, piece }
    }

    /// Where the needle stands in its file.
    pub fn at(&self) -> u64
        ensures { result ≡ self.now.at }
    {
        self.at
    }

    /// How many bytes the photo has.
    pub fn size(&self) -> u32
        ensures is { result ≡ self.now.size }
        ensures most { result ≤ MAX_PHOTO }
    {
        self.size
    }

    /// The same needle once more.
    pub fn dup(&self) -> Sealed<P>
        ensures { result ≡ self.now }
    {
        Sealed {
            at: self.at,
            size: self.size,
            piece: self.piece.dup(),
        }
    }

    /// Puts the needle's bytes into `out`, with any byte for the flags, and answers their number.
    pub fn fetch<A: Arm<P>>(&self, arm: &mut A, out: &mut [u8]) -> Result<usize, Failed>
        requires { length out.old ≡ needle_total self.now.size }
        ensures within { IfOk result (λ n. n ≤ length out.old) }
        ensures count { P.Tells → IfOk result (λ n. n ≡ length out.old) }
        ensures bytes { P.Tells → IfOk result (λ _. IsBut 28 self.now.bytes out.new) }
        ensures sure { A.is_sure arm.old ≡ true → IsOk result }
        ensures stays_sure { StaysSure (A.is_sure arm.old) (A.is_sure arm.new) (A.fault_count arm.old) (A.fault_count arm.new) }
        ensures counted { IsCounted (A.fault_count arm.old) (A.fault_count arm.new) (IsErr result) }
    {
        arm.fetch(&self.piece, out)
    }
}

/// Where a replica has a pair's photo.
#[derive(Drop)]
pub enum Place<P: Piece> {
    /// It never had one.
    None,
    /// A recorded needle of a photo of so many bytes stands here. Whether it was deleted was not looked at yet.
    Unseen { at: u64, size: u32 },
    Live(Sealed<P>),
    /// It was deleted.
    Gone,
}

impl<P: Piece> Place<P> {
    /// The same place once more.
    pub fn dup(&self) -> Place<P>
        ensures { result ≡ self.now }
    {
        match self {
            Place::None => Place::None,
            Place::Unseen { at, size } => Place::Unseen {
                at: *at,
                size: *size,
            },
            Place::Live(needle) => Place::Live(needle.dup()),
            Place::Gone => Place::Gone,
        }
    }

    /// The place once the photo was deleted.
    pub fn leave(&mut self)
        ensures { self.new ≡ gone_place self.old }
    {
        match self {
            Place::None => (),
            Place::Unseen { .. } => *self = Place::Gone,
            Place::Live(_) => *self = Place::Gone,
            Place::Gone => (),
        }
    }
}

impl<P: Piece> Default for Place<P> {
    fn default() -> Place<P> {
        Place::None
    }
}
