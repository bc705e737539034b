//! Why disks and arms are not taken.
use std::alloc::AllocError;

/// Why the disks and arms of a store were not taken.
#[derive(Clone, Copy, Debug, PartialEq, Eq)]
pub enum MountFault {
    /// The shelf failed, and its count of faults rose to this.
    Shelf { faults: u64 },
    /// Memory was wanting.
    NoMemory,
}

impl From<AllocError> for MountFault {
    ghost use Rattle.std.specs.Prelude.{◌≡◌};
    ghost use Rattle.hay_mount.specs.declared.fault.MountFault.{MountFault};

    ghost from_gives = { λ _ fault. fault ≡ MountFault.NoMemory };

    fn from(_error: AllocError) -> MountFault {
        MountFault::NoMemory
    }
}
