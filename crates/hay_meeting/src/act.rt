//! What a lane did to a volume, or to the Directory, while it held it.
use hay_base::Listed;
use hay_core::{CoreTag, Entry};
use hay_legal::known::HomeRow;

/// What was done to a volume. Replicas and machines are numbers.
#[derive(Drop)]
pub enum VolumeDid {
    /// Nothing was changed.
    Tries,
    /// The change of the line was made; a delete ended these replicas' compactions, since their disks failed.
    Entered {
        entry: Entry,
        ended: Listed<bool>,
    },
    /// The volume was frozen by the machine with the change of the line pending; the flag tells whether a disk failed.
    Pends {
        machine: u32,
        entry: Entry,
        failed: bool,
    },
    Freezes {
        machine: u32,
    },
    /// The cells of the replica without an index record were given theirs, or that failed.
    Flushes {
        replica: u32,
    },
    Sticks {
        replica: u32,
    },
    /// A compaction of the replica began, examined so many cells, or ended.
    Begins {
        replica: u32,
    },
    Examines {
        replica: u32,
        cells: u64,
    },
    Ends {
        replica: u32,
    },
    /// The new files are the current ones, with this end and so many cells; for want of memory the volume may be frozen then.
    Swaps {
        replica: u32,
        end: u64,
        cells: u64,
        frozen: Option<u32>,
    },
    /// The volume was frozen by the machine at a failed swap of the replica.
    Poises {
        machine: u32,
        replica: u32,
    },
    /// A fuse was set on the replica's disk.
    Fuses {
        replica: u32,
    },
}

/// An act on a volume: by the seat, for the line. The counts of faults and of fuses of each replica's disk are those behind it.
#[derive(Drop)]
pub struct VolumeAct {
    pub seat: u32,
    pub tag: CoreTag,
    pub did: VolumeDid,
    pub faults: Listed<u64>,
    pub fuses: Listed<u64>,
}

/// What was done to the Directory.
#[derive(Drop)]
pub enum DirDid {
    /// Nothing was changed.
    TriesRow,
    AddsRow(HomeRow),
    /// The Directory was frozen with the row pending.
    PendsRow(HomeRow),
    /// The machine was marked as drained, or as not drained.
    Drains { machine: u32, is: bool },
    /// A fuse was set on the disk.
    FusesRow,
}

/// An act on the Directory: by the seat, for the line. The counts of faults and of fuses of its disk are those behind it.
#[derive(Drop)]
pub struct DirAct {
    pub seat: u32,
    pub tag: CoreTag,
    pub did: DirDid,
    pub faults: u64,
    pub fuses: u64,
}
