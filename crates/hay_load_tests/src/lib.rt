//! Tests of bulk loads, over disks in memory: what is told of the lines of a script, and loads of whole scripts.
//! They stand apart, so that the crates below are proved once. No crate of the store stands on this one.
#![tactic(auto)]

#[cfg(test)]
mod lines;
#[cfg(test)]
mod scripts;
