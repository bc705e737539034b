//! The outside of the store over the real world: files in a folder, standard input and standard output.
//! It stands on the traits of `hay_disk` and on std. Its objects tell nothing of what they hold. They promise that they
//! fail only where the system failed, and count it.
//!
//! File F of slot S is the file `S-F` in the folder. While the disk of a slot is out, the file `S.lock` is locked, so
//! that no other shelf of this or another process hands that disk out.
//!
//! Proofs end here: that the system keeps what it was told to sync is trusted.
#![tactic(auto)]

mod arm;
mod disk;
mod faults;
mod file;
mod ledger;
mod opened;
mod piece;
mod shelf;
mod slot;
mod stream;
mod system;
mod unsynced;

pub use arm::FileArm;
pub use disk::FileDisk;
pub use piece::FilePiece;
pub use shelf::FileShelf;
pub use stream::{StdinSource, StdoutSink};
pub use system::System;
pub use unsynced::Unsynced;
