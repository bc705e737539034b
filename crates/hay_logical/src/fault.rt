//! Why a call of a logical volume is refused.

use hay_open::OpenFault;

/// Why a volume took no change, or has no room for one.
#[derive(Clone, Copy, Debug, PartialEq, Eq)]
pub enum LogicalFault {
    /// The volume is frozen by this machine, or the index of its replica there is.
    ReadOnly {
        machine: u32,
    },
    /// On this machine the needle's `need` bytes and the end mark do not fit between `end` and `capacity`.
    Full {
        machine: u32,
        end: u64,
        need: u64,
        capacity: u64,
    },
    /// No replica has a photo of the pair. `front` changes were made since the opening.
    Gone {
        front: u64,
    },
    /// The disk on this machine failed, and its count of faults rose to this.
    Failed {
        machine: u32,
        faults: u64,
    },
    /// A compaction of the replica on this machine stands, which makes this generation.
    Busy {
        machine: u32,
        generation: u64,
    },
    /// The generation of the replica on this machine is the last one.
    Worn {
        machine: u32,
    },
    /// No compaction of the replica stands.
    Idle,
    /// On this machine no cell stands at this place of the volume file.
    Damaged {
        machine: u32,
        at: u64,
    },
    /// Memory was wanting.
    NoMemory,
}

/// The replica that was not opened, and why.
#[derive(Clone, Copy, Debug, PartialEq, Eq)]
pub struct Unopened {
    pub replica: u32,
    pub fault: OpenFault,
}
