//! Tests of batches, over disks in memory: what no clause says of them.
//! They stand apart, so that the crates below are proved once. No crate of the store stands on this one.
#![tactic(auto)]

#[cfg(test)]
mod appends;
#[cfg(test)]
mod loads;
