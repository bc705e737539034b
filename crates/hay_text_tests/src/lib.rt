//! Tests of the texts: the lines of scripts, replies and notes, frames of transcripts, and the words of the command line; URLs, the
//! script of a day's use, and the bytes of needles and superblocks.
//! They stand apart, so that the crates below are proved once. No crate of the store stands on this one.
#![tactic(auto)]

#[cfg(test)]
mod drills;
#[cfg(test)]
mod frames;
#[cfg(test)]
mod lines;
#[cfg(test)]
mod needles;
#[cfg(test)]
mod replies;
#[cfg(test)]
mod urls;
#[cfg(test)]
mod words;
