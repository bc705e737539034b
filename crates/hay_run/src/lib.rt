//! The program's run: a script comes in, and a transcript goes out. It stands on `hay_cluster`, which answers one command,
//! on the lines of `hay_lines`, the texts of `hay_reply` and the rules of `hay_legal`, and on the source, the sink and the
//! shelf that `hay_disk` describes.
//!
//! What it promises, where the source, the sink and the disks tell, and the disks are void or of the run's settings: after
//! status 0 the bytes read are the whole script, and the bytes written are the transcript of turns that answer each of its
//! items in order, each turn legal from the state that the one before it left; the disks given back hold the state behind
//! the last turn. Each other status comes for its own cause alone, and the disks and arms are given back at each of them.
//!
//! Where the words ask for a check it stands on `hay_check` in place of `hay_cluster`: a line is written for each disk, and no
//! byte of a disk is changed. Where they ask for an audit it stands on `hay_frame` and `hay_audit`: the source gives a script and a
//! transcript, and a line says whether legal turns of the script may have written it.
#![tactic(auto)]

mod audit;
mod block;
mod check;
mod deal;
mod drill;
mod held;
mod lanes;
mod load;
mod program;
mod said;
mod serve;
mod stops;
mod turns;
mod words;
mod writing;

pub use hay_script::MAX_SCRIPT;
pub use program::run;
