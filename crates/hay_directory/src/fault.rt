//! Why a home is not settled.

/// Why a home is not settled.
#[derive(Clone, Copy, Debug, PartialEq, Eq)]
pub enum DirFault {
    /// A row failed before, and no other may follow it.
    Frozen,
    /// Memory was wanting, and nothing changed.
    NoMemory,
    /// The disk failed, and its count of faults rose to this. The Directory is frozen.
    Failed { faults: u64 },
}
