//! What calls at a volume answer.

use hay_disk::Piece;
use hay_map::Row;

/// The places of a pair's photo, one for each replica, and the front of the volume where they are so.
#[derive(Drop)]
pub struct Looked<P: Piece> {
    pub front: u64,
    pub row: Row<P>,
}

/// Why a place was not seen.
#[derive(Clone, Copy, Debug)]
pub enum SightFault {
    /// The replica's disk failed.
    Failed { faults: u64 },
    /// A disk that does not tell what it has may be found damaged.
    Damaged { at: u64 },
    NoMemory,
}

/// Whether a volume takes a photo.
#[derive(Clone, Copy, Debug)]
pub enum Room {
    Fits,
    /// It is frozen by the machine.
    Frozen { machine: u32 },
    /// The replica on the machine lacks room.
    Lacks { machine: u32, end: u64, need: u64 },
}

/// What a put came to.
#[derive(Clone, Copy, Debug)]
pub enum Put {
    Stored { position: u64 },
    /// The volume did not take it.
    Frozen { machine: u32 },
    Lacks { machine: u32, end: u64, need: u64 },
    /// The disk on the machine failed.
    Failed { machine: u32, faults: u64 },
    NoMemory,
}

/// What a delete came to.
#[derive(Clone, Copy, Debug)]
pub enum Delete {
    Deleted { position: u64 },
    /// No photo stood, behind so many changes.
    Absent { front: u64 },
    Frozen { machine: u32 },
    Failed { machine: u32, faults: u64 },
    /// A disk that does not tell what it has may be found damaged.
    Damaged { machine: u32, at: u64 },
    NoMemory,
}

/// What a flush of a replica came to.
#[derive(Clone, Copy, Debug)]
pub enum Flush {
    Flushed { cells: u64 },
    Frozen { machine: u32 },
    /// An earlier flush had failed.
    Stuck,
    Failed { faults: u64 },
    NoMemory,
}

/// What the beginning of a compaction of a replica came to.
#[derive(Clone, Copy, Debug)]
pub enum Begin {
    Begun { generation: u64 },
    Frozen { machine: u32 },
    /// One stood, towards this generation.
    Busy { generation: u64 },
    /// There is no generation left.
    Worn,
    Failed { faults: u64 },
    NoMemory,
}

/// What a step of a compaction came to.
#[derive(Clone, Copy, Debug)]
pub enum Step {
    Stepped { cells: u64 },
    Frozen { machine: u32 },
    /// None stood that a line of the lane had begun.
    Idle,
    /// A call of the replica's disk failed, and the compaction ended.
    Failed { faults: u64 },
    /// A disk that does not tell what it has may be found damaged.
    Damaged { at: u64 },
    /// Nothing was changed, or memory was wanting behind some cells.
    NoMemory { cells: Option<u64> },
}

/// What the end of a compaction came to.
#[derive(Clone, Copy, Debug)]
pub enum Finish {
    Compacted { generation: u64 },
    Frozen { machine: u32 },
    Idle,
    /// A call of the replica's disk failed, and the compaction ended.
    Failed { faults: u64 },
    /// The switch of its head failed, and the volume is frozen.
    Poised { faults: u64 },
    /// A disk that does not tell what it has may be found damaged.
    Damaged { at: u64 },
    NoMemory,
}

/// What the end of a compaction that the line itself had begun came to.
#[derive(Clone, Copy, Debug)]
pub enum Compaction {
    Compacted { generation: u64 },
    /// It had ended, and the machine had frozen the volume.
    Frozen { machine: u32 },
    /// A delete of another line had ended it, since the replica's disk failed.
    Deleted { faults: u64 },
    /// A call of the replica's disk failed, and the compaction ended.
    Failed { faults: u64 },
    /// The switch of its head failed, and the volume is frozen.
    Poised { faults: u64 },
    /// A disk that does not tell what it has may be found damaged.
    Damaged { at: u64 },
    /// It ended, or its files are the current ones and the volume is frozen.
    NoMemory,
    /// It had never begun, which is told of none that its line began.
    Idle,
}
