//! A photo as a needle, the superblock at the front of each file, and their bytes. All numbers are big-endian.
//! It stands on `hay_base`, `byteorder` and `sha2`.
//!
//! A needle is, without gaps: the magic `NEEDLE01` (8 bytes), cookie (8), key (8), alternate key (4), flags (1: 0 is
//! live, any other byte is deleted), the version less 1 (1), zeros (2), size (4), the photo, the magic `NEND` (4), the
//! checksum (8), and zeros up to a multiple of 8. In version 1 the size is at most 1,048,576, and the checksum is the
//! first 8 bytes of SHA-256 of the photo. In version 2 the size is at most 16,777,216, and the checksum is the first 8
//! bytes of SHA-256 of cookie, key, alternate key, size and photo, as they stand in the needle. Each needle that is
//! written is of version 2.
//!
//! A superblock is: the magic `HAYSTACK` (8 bytes), version (4), kind (4), machines (4), volumes (4), replicas (4),
//! volume (4), replica (4), zero (4), capacity (8), generation (8), and the first 8 bytes of the secret's SHA-256.
//!
//! Writing gives exactly these bytes. Reading answers `Ok` exactly where they stand, with their values, and else the
//! first fault from left to right. Of several needles of one pair the last one counts.
#![tactic(auto)]

mod duplicates;
mod encode;
mod fields;
mod needle;
mod read;
mod settings;
mod sum;
mod superblock;
mod total;

pub use encode::encode_rest;
pub use fields::{u32_at, u64_at};
pub use needle::{
    Bytes, Cell, CellHead, Cookie, Needle, NeedleView, Outcome, Pair, Photo, Row, Version,
};
pub use read::{HEAD_LEN, NEEDLE_MAGIC, NeedleFault, read_head, read_needle};
pub use settings::{
    FileKind, LAST_GENERATION, MAX_CAPACITY, MAX_MACHINES, MAX_REPLICAS, MAX_VOLUMES, MIN_CAPACITY,
    Settings, Super, USUAL_CAPACITY,
};
pub use superblock::{SUPER_LEN, SUPER_MAGIC, SuperFault, read_super, write_super};
pub use total::{MAX_NEEDLE, MAX_PHOTO, total_of};
