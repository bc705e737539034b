//! What a needle holds.

use hay_base::Listed;

/// The two keys of a photo.
#[derive(Clone, Copy, Debug, PartialEq, Eq, PartialOrd, Ord)]
pub struct Pair {
    pub key: u64,
    pub alt: u32,
}

/// The number that a reader of a photo has to know.
#[derive(Clone, Copy, Debug, PartialEq, Eq)]
pub struct Cookie(pub u64);

/// How a needle is spelled. Each new needle is of version 2.
#[derive(Clone, Copy, Debug, PartialEq, Eq)]
pub enum Version {
    /// The photo has at most 1,048,576 bytes, and the checksum covers it alone.
    One,
    /// The photo has at most 16,777,216 bytes, and the checksum covers its cookie, its keys and its size too.
    Two,
}

/// Bytes that a value owns, which a clause sees as a list.
pub type Bytes = Listed<u8>;

/// A photo as it was put: at most 16,777,216 bytes, and the cookie with which they are read.
#[derive(Debug, Drop)]
pub struct Photo {
    pub cookie: Cookie,
    pub bytes: Bytes,
}

/// What stands under a pair.
#[derive(Debug, Drop)]
pub enum Outcome {
    Nothing,
    Photo(Photo),
}

/// What a table gives a pair. Of two rows of one pair the later one counts.
#[derive(Debug, Drop)]
pub struct Row {
    pub pair: Pair,
    pub outcome: Outcome,
}

/// A photo as a volume file holds it, without its place there.
#[derive(Debug, Drop)]
pub struct Needle {
    pub version: Version,
    pub pair: Pair,
    pub photo: Photo,
    pub deleted: bool,
}

/// A needle and its place in the volume file.
#[derive(Debug, Drop)]
pub struct Cell {
    pub at: u64,
    pub version: Version,
    pub pair: Pair,
    pub cookie: Cookie,
    pub bytes: Bytes,
    pub deleted: bool,
}

/// A cell without its bytes.
#[derive(Clone, Copy, Debug, PartialEq, Eq)]
pub struct CellHead {
    pub at: u64,
    pub version: Version,
    pub pair: Pair,
    pub cookie: Cookie,
    pub size: u32,
    pub deleted: bool,
}

/// A needle that lies in a buffer.
#[derive(Clone, Copy, Debug)]
pub struct NeedleView<'a> {
    pub version: Version,
    pub pair: Pair,
    pub cookie: Cookie,
    pub deleted: bool,
    pub bytes: &'a [u8],
}
