//! What an opening answers.

use hay_disk::Piece;
use hay_head::Head;
use hay_index::IndexFile;
use hay_map::OpenCell;
use hay_volume::VolumeFile;

/// An opened disk. `cells` has the place of each cell, in order: that of a cell which has a record was not looked at.
#[derive(Drop)]
pub struct Opened<P: Piece> {
    pub head: Head,
    pub volume: VolumeFile,
    pub index: IndexFile,
    pub cells: Vec<OpenCell<P>>,
    /// How many records the index has.
    pub records: u64,
    /// How many cells have no record. They are noted in the index.
    pub orphans: u64,
}
