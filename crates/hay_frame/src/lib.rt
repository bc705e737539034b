//! The frame of a script and its transcript, as a checker of transcripts is given them in one input.
//!
//! It stands on the source that `hay_disk` describes, on the numbers of `hay_script` and on the longest script of `hay_lines`.
//! `specs/Frames.antt` says which inputs are a frame. `read_frame` answers the script and the transcript of every frame, and refuses
//! all else; it holds no more than what came.
#![tactic(auto)]

mod bytes;
mod fault;
mod frame;
mod line;

pub use fault::FrameFault;
pub use frame::{FRAME, Frame, TRANSCRIPT, read_frame};
