//! What calls at a seat answer.

use hay_logical::LogicalFault;

/// Why a replica was not flushed, and the machine by which the volume is frozen, if it is. Where it is not, `ReadOnly` tells that an
/// earlier flush of the replica had failed.
#[derive(Clone, Copy, Debug)]
pub struct Unflushed {
    pub fault: LogicalFault,
    pub frozen: Option<u32>,
}

/// The files of a replica's compaction are the current ones, of this generation. For want of memory the volume may be frozen then.
#[derive(Clone, Copy, Debug)]
pub struct Finished {
    pub generation: u64,
    pub frozen: bool,
}

/// Why a compaction did not end with a swap of files. Where a disk failed in it, the volume may be frozen by this machine.
#[derive(Clone, Copy, Debug)]
pub struct Unfinished {
    pub fault: LogicalFault,
    pub frozen: Option<u32>,
}

/// Why the compaction that a line began did not end with a swap of files.
#[derive(Clone, Copy, Debug)]
pub enum Uncompacted {
    /// It ended now.
    Unfinished(Unfinished),
    /// It had ended, and the machine has frozen the volume.
    Frozen { machine: u32 },
    /// A delete of another line had ended it, behind which the replica's disk had this count of faults.
    Deleted { faults: u64 },
    /// It had never begun.
    Idle,
}
