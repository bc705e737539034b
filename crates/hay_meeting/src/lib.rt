//! How lanes meet: what each lane saw of the volumes and of the Directory and did to them, answer by answer, as plain data, and what
//! that makes of their lines. From it the lines of all lanes are a legal block, and a line of lane 0 alone is a legal plain turn.
//!
//! It stands on hay_history, which says what a line did by its reply, and on hay_turn for whose an act is. It has no code.
#![tactic(auto)]

mod act;

pub use act::{DirAct, DirDid, VolumeAct, VolumeDid};
