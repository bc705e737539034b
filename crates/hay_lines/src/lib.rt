//! A script as it comes in, line by line. It stands on the grammar of `hay_script`, and on the source that `hay_disk` describes,
//! which gives any number of bytes at a time.
//!
//! It promises that each line that a script has is taken once and in order, with what it says, however the source cuts the script; that
//! a line that is too long is never held, and still known to say something or nothing; and that no more than one byte is taken
//! behind the longest script. Where it stops, what was taken until then is told.
#![tactic(auto)]

mod bytes;
mod fault;
mod lines;
mod start;

pub use fault::LineFault;
pub use lines::ScriptLines;
