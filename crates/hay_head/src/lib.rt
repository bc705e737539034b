//! A head file: a superblock, the rows of the generations 0, 1, .. of a replica, each with the magic `HEADROW1` and the
//! generation in eight bytes, the highest first, and the end mark, eight bytes that are not this magic. What stands
//! behind the end mark counts for nothing. The generation of the last row is the current one.
//! It stands on `hay_needle` and `hay_disk`.
//!
//! A switch adds the row of the next generation, and whatever a stop leaves names the old generation or the new one.
//! Reading answers by the bytes: the generation exactly where the file is such a head, and else the first place that is
//! damaged. Beside it stand a call that reads the superblock of any such file of rows, and a reader of its rows, which
//! takes the file in blocks.
#![tactic(auto)]

mod blocks;
mod fault;
mod head;
mod rows;

pub use blocks::{BLOCK_LEN, BlockReader};
pub use fault::HeadFault;
pub use head::Head;
pub use rows::{Slot, read_front};
