//! The Directory: which volume is the home of each pair, and which machines are drained.
//! It stands on the journal of `hay_dirfile`, which is file 0 of its disk. What it promises is said of the rows of
//! `hay_legal`: of several rows of one pair the first one counts.
//!
//! A home that was settled is in the journal, on the disk, whatever a stop leaves. A row that failed freezes the
//! Directory until it is stopped and opened again, and the opening tells whether the journal has the row. Drains are kept
//! in memory alone, and end at a stop. A home is found with one look-up in memory. Who publishes homes writes a row first, and shows
//! it once it is published: in between the row is pending, and it stays so where it cannot be published.
#![tactic(auto)]

mod directory;
mod fault;
mod homes;
mod load;
mod mode;
mod notes;
mod spread;

pub use directory::{Directory, Opened};
pub use fault::DirFault;
pub use mode::{Mode, Unsure, WrittenRow};
pub use spread::{machine_of, tries};
