//! A volume file: a superblock, the needles of its cells without gaps from 64 on, and the end mark, eight bytes that are
//! not the needle magic. What stands behind the end mark counts for nothing. Needles of both versions may stand in one
//! file, and each that is added is of version 2.
//! It stands on `hay_base`, `hay_needle` and `hay_disk`.
//!
//! An append adds one cell at the end, and whatever a stop leaves has the cells with the new one or without it. A flag
//! marks one cell as deleted and changes nothing else of it, and whatever a stop leaves has the cells with this mark or
//! without it.
//! The loose forms of both write once and don't sync, for a file that is not a current one yet.
//! Reading answers by the bytes: a cell is read exactly where a needle stands, and a scan ends exactly at the end mark
//! or at the first place where neither it nor a needle stands. On a disk that doesn't tell its bytes a cell that is read
//! is a whole needle still.
#![tactic(auto)]

mod fault;
mod flag;
mod reading;
mod scan;
mod volume;

pub use fault::{CellFault, VolumeFault};
pub use volume::VolumeFile;
