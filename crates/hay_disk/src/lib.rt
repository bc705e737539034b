//! The outside of the store, as traits: disks of numbered files, pieces of these files and the arms that fetch them,
//! sources and sinks of bytes, and shelves of disks. It stands on std alone.
//!
//! What the traits promise:
//!
//! - A `Disk` answers what its files hold now. Whatever a stop does, each file is left as one of its images: the bytes
//!   of now wherever the file is solid, any bytes at the loose places, and a length that it had since its last sync.
//!   A sync leaves nothing loose. A disk answers `Failed` only where its count of faults rose in that call, and
//!   `NoMemory` only where it changed nothing.
//! - A `Piece` stays readable whatever becomes of its file, and keeps its length and its hole. An `Arm` gives a piece's
//!   bytes with any byte in the hole; a sure one never fails.
//! - A `Source` gives its bytes in order, each once, and a `Sink` keeps what it is given, in order; after `Failed` it
//!   has some front of it.
//! - A `Shelf` hands out the disk of each slot and the arm of each lane, once each until they are given back, with the
//!   bytes and counts with which they were given back, and nothing loose or sealed.
//!
//! Whether a disk or a piece tells its bytes is a fact about its type, and of one that doesn't, only the counts,
//! lengths and holes are promised. A source or a sink tells by an `Option`.
//!
//! Beside the traits stands `gate_append`: a record appended by it stands whole or not at all in each image.
#![tactic(auto)]

mod disk;
mod gate;
mod piece;
mod shelf;
mod stream;

pub use disk::{Disk, DiskFault, Failed};
pub use gate::gate_append;
pub use piece::{Arm, Piece};
pub use shelf::{Shelf, ShelfFault};
pub use stream::{Sink, Source};
