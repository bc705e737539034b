//! A block of lines over an open store: lanes of threads answer them beside each other, and the store is whole again behind them.
//!
//! It stands on `hay_cluster`, whose store it takes apart and makes again, and on `hay_locks`, which answers the lines of a block by locks
//! that are made of the store's volumes and its Directory. `run_block` promises in the words of `hay_cluster` and `hay_legal` what
//! `hay_locks` promises of the parts: where the disks tell what they have, the lines are a legal block, the notes tell of all new entries
//! and rows, and the store stands for what is known behind them. Whatever the disks tell, each line has a reply, each row that a note tells
//! is of a line that put its pair, whose home is the row's volume, no count falls, and a sure arm stays sure.
//!
//! Where memory is wanting before the first line, none is answered, and the store stands for what it stood for. Where it is wanting for the
//! notes, all lines have been answered.
//!
//! A block has one lane to eight. The arms of the other lanes wait beside the block, and each arm is back in its place behind it. `specs/Notes`
//! says what the notes are, and `specs/Rows` how the volume of a new row is found: the Directory has the home of the pair that its line put.
#![tactic(auto)]

mod arms;
mod block;
mod notes;
mod rows;

pub use block::{BlockReplies, run_block};
