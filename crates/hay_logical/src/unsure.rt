//! A change that was broken off.

use hay_core::CoreTag;
use hay_needle::Pair;

/// What the change was to do.
#[derive(Clone, Copy, Debug, PartialEq, Eq)]
pub enum Change {
    /// Adds a photo. Before it the cells of each replica ended here.
    Put { ends: [u64; 4] },
    /// Deletes the photo of this pair.
    Delete { pair: Pair },
}

/// A change that some replicas may have and others not.
#[derive(Clone, Copy, Debug, PartialEq, Eq)]
pub struct Unsure {
    pub tag: CoreTag,
    pub change: Change,
}
