//! Tests of one replica, over disks in memory and in a folder: what no clause says of it.
//! They stand apart, so that the crates below are proved once. No crate of the store stands on this one.
#![tactic(auto)]

#[cfg(test)]
mod checks;
#[cfg(test)]
mod common;
#[cfg(test)]
mod runs;
#[cfg(test)]
mod sights;
