//! One replica of a logical volume: its disk, and on it the current volume file, its index and the head.
//!
//! An open replica that no change has frozen stands for what its disk has: the cells of the volume file, where they end,
//! and how many of them have a record in the index. A put adds a cell and answers the piece of its needle, a delete
//! marks a cell, and a flush gives the cells without a record theirs. A change that fails freezes the replica, and in
//! whatever a stop leaves an opening finds what stood before or what the change makes of it. A flush that fails freezes
//! the index alone.
//!
//! A compaction may stand beside it, which copies the photos that stand to the files of the next generation. Puts and
//! deletes go on meanwhile, and the copier follows them. At its end the head names the new files in one step: whatever a
//! stop leaves has the old files or the new ones, with the same photos. A fault before that ends the compaction alone.
//!
//! What a recorded place means, a photo or a deleted one, is seen by its needle when it is asked for. That changes nothing, and
//! what can be seen stays so through each change of the replica, also one that fails, until a compaction takes its file away.
//!
//! It stands on `hay_open` and `hay_compact`, and by them on the files of a disk, and on `hay_map` for the needles that it
//! gives out.
#![tactic(auto)]

mod fault;
mod files;
mod replica;
mod running;
mod runs;
mod sight;
mod state;
mod swap;

pub use fault::ReplicaFault;
pub use replica::Replica;
