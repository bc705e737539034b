//! Tests of the disks, in memory and in a folder: what no clause says of them.
//! They stand apart, so that the crates below are proved once. No crate of the store stands on this one.
#![tactic(auto)]

#[cfg(test)]
mod folder;
#[cfg(test)]
mod memory;
