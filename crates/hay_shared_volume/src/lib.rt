//! The lock of a volume as lanes share it, in their words.
//!
//! `SharedVolume` is a volume's lock, and each of its calls is one of `hay_volume_lock`, with an answer in the words of lanes (`answers`).
//! `specs/Tellings` and `Looks` say what an answer tells of the volume, as `hay_holdings` has it; `specs/Seats` which seats are of a lock,
//! and when the lock was made round a volume of a store whose disks tell what they have; `specs/Answers` which answer of a lane stands for
//! which of the lock. A refusal that the lock does not give has none, and a call relies on what the lock says of that.
//!
//! A lock is made of an open volume for one block of lines, and ends with all its seats. `specs/Making` says of which volume it was made,
//! when a volume stands for what is known of it, and what the lock leaves where it ends. In `proofs/`, `Made` has what a new lock tells,
//! `Ending` what one leaves, `Regular` that what stands is such as a block needs it, and `Sending` what threads may share.
#![tactic(auto)]

mod answers;
mod making;
mod volume;
mod words;

pub use answers::{Begin, Compaction, Delete, Finish, Flush, Looked, Put, Room, SightFault, Step};
pub use making::VolumeRoom;
pub use volume::SharedVolume;
