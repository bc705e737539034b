//! Tests of `hay_core`: a put event by event, and a hundred random lists of events beside maps.
//! They stand apart, so that `hay_core` is proved once. No crate of the store stands on this one.
#![tactic(auto)]

#[cfg(test)]
mod tests;
