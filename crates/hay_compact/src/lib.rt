//! The copier of a compaction of a replica's volume file. It goes through the cells of the current generation's volume
//! file, one after another, and copies each that is the last of its pair and not deleted to the volume file of a new
//! generation, where it is written anew in version 2. It stands on hay_volume, hay_index, hay_map and the words of hay_open.
//!
//! At any time the new file's cells and the current ones that are left make the table that the current file's cells make,
//! and a pair that has nothing in the current file has nothing in the new one. A photo that is put meanwhile is a further
//! cell to examine, and a delete is repeated in the new file. At the end the new volume file and its index are whole and on
//! the disk, and each pair's place in it is known. Only the two new files are ever changed: until the head names the new
//! generation a failure costs nothing but the work.
#![tactic(auto)]

mod compactor;
mod finish;
mod standing;

pub use compactor::Compactor;
pub use finish::Finished;
