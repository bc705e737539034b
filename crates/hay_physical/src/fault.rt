//! Why a call of a replica is refused.

/// Why a replica took no change, or has no room for one.
#[derive(Clone, Copy, Debug, PartialEq, Eq)]
pub enum ReplicaFault {
    /// The disk failed, and its count of faults rose to this.
    Failed { faults: u64 },
    /// A change failed before.
    Frozen,
    /// The needle's `need` bytes and the end mark behind them do not fit between `end` and `capacity`.
    Full { end: u64, need: u64, capacity: u64 },
    /// A compaction stands, which makes this generation.
    Busy { generation: u64 },
    /// No compaction stands. When the last one ended, so many calls of the disk had failed.
    Ended { faults: u64 },
    /// The generation is the last one.
    Worn,
    /// No cell stands at this place of the current volume file.
    Damaged { at: u64 },
    /// Memory was wanting.
    NoMemory,
}
