//! An index file: a superblock, blocks of records, and the end mark, eight bytes that are not a block's magic. What stands
//! behind the end mark counts for nothing. Record `i` over all blocks is pair, place and size of needle `i` of the volume file
//! of the same generation, so that a record's place is the one before plus the bytes of that needle, and the first is 64.
//! It stands on `hay_base`, `hay_needle`, `hay_disk` and `byteorder`.
//!
//! Records are noted in memory, and a flush appends all that are pending as one block. Whatever a stop leaves has the
//! records from before, with all of these or with none. Reading answers exactly the records of the blocks, or the first
//! damage: at the superblock, at the start of a block whose magic stands and whose bytes are no block, at a record that is
//! not in the row of places, or where the end mark is short.
#![tactic(auto)]

mod block;
mod fault;
mod index;
mod packed;
mod pending;
mod reading;
mod record;

pub use block::{FRONT_LEN, read_block};
pub use fault::IndexFault;
pub use index::IndexFile;
pub use pending::Pending;
pub use reading::{begins_block, whole_file};
pub use record::{RECORD_LEN, Record};

#[cfg(test)]
mod tests;
