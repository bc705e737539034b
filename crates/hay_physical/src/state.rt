//! What a replica keeps in memory.

use hay_compact::Compactor;
use hay_head::Head;
use hay_index::IndexFile;
use hay_volume::VolumeFile;

/// The compaction that stands, or how many calls of the disk had failed when the last one ended.
#[derive(Drop)]
pub enum Copier {
    Ended { faults: u64 },
    Standing(Compactor),
}

/// The files of the current generation.
#[derive(Drop)]
pub struct OpenFiles {
    pub head: Head,
    pub volume: VolumeFile,
    pub index: IndexFile,
    /// A change failed, and what it has left is not known.
    pub frozen: bool,
    pub copier: Copier,
}

/// Whether a replica is open.
#[derive(Drop)]
pub enum Phase {
    Closed,
    Open(OpenFiles),
}
