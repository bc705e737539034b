//! Tests of `hay_audit`: transcripts of rows that were worked by hand, as they stand and changed, and restarts with their notes.
//! They stand apart, so that `hay_audit` is proved once. No crate of the store stands on this one.
#![tactic(auto)]

#[cfg(test)]
mod tests;
