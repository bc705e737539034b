//! Bulk loading. A batch is one photo at least and 64 at most, whose needles take 67,108,864 bytes at most.
//! It stands on `hay_base`, `hay_needle`, `hay_disk`, `byteorder`, `hay_mount`, `hay_head`, `hay_volume`, `hay_dirfile`,
//! `hay_index`, `hay_map` and `hay_open`.
//!
//! A store is opened on the disks of a shelf, all of them or none, and closed: then, and at a refusal, the shelf has them
//! again.
//!
//! A batch's needles are added to a volume file by one gated append, and so are its rows to a journal: whatever a stop
//! leaves has all of them or none. A batch is loaded into a store by adding its needles to each replica of the first volume
//! that has room for it, and then its rows to the Directory's journal. So whatever a stop leaves has no row of the batch, or
//! the whole batch; needles without rows are of no pair. Index files stay as they are: the needles are found when the disks
//! are opened.
#![tactic(auto)]

mod append;
mod directory;
mod disks;
mod fault;
mod filling;
mod homes;
mod load;
mod needles;
mod opening;
mod photo;
mod replica;
mod replicas;
mod rows;
mod settle;
mod shelf;
mod store;

pub use append::append_many;
pub use directory::LoadDirectory;
pub use fault::{FullTry, LoadFault, LoadOpenFault};
pub use homes::Homes;
pub use load::Loaded;
pub use photo::{MAX_PHOTOS, MAX_TOTAL, NewPhoto, batch_total};
pub use replica::LoadReplica;
pub use settle::settle_many;
pub use store::{LoadStore, LoadVolume};
