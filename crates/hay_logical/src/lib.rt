//! A logical volume: up to four replicas that have the same changes in the same order, and in memory the place of each
//! photo on each of them. It stands on `hay_physical`, and on `hay_map` for the places.
//!
//! A change is made on each replica in order, and then in memory, in one call or in two, so that it can be shown to others
//! between them. Where a replica fails, the volume is frozen by its machine: it takes no more changes, and shows what stood
//! before. So it is where the change is given up between the two. Once it was stopped and is opened again, each replica has
//! the change or lacks it, and the opening tells which. A volume that is not frozen has no change pending. What it stands for is
//! said in the words of `hay_legal`.
//!
//! A compaction of a replica goes on beside the changes, a few cells at a time, or all at once. What freezes the volume
//! ends the compactions of all replicas: a change that was broken off, or a swap of a replica's files of which no one knows
//! whether it was made.
//!
//! A volume also stands for what is known where a disk tells nothing of what it holds, as far as counts go.
#![tactic(auto)]

mod fault;
mod logical;
mod notes;
mod refusals;
mod replicas;
mod runs;
mod sights;
mod unsure;
mod written;

pub use fault::{LogicalFault, Unopened};
pub use logical::{Logical, Looked};
pub use runs::NewFiles;
pub use unsure::{Change, Unsure};
pub use written::{Erased, Written};
