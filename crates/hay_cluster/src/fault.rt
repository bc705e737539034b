//! Why a store is not opened.
ghost use Rattle.std.specs.Prelude.{◌≡◌};
ghost use Rattle.hay_cluster.specs.Faults as faults;

use hay_dirfile::OpenFault as DirectoryFault;
use hay_mount::MountFault;
use hay_open::OpenFault;
use std::alloc::AllocError;

/// Why a store was not opened, or not restarted.
#[derive(Clone, Copy, Debug, PartialEq, Eq)]
pub enum ClusterFault {
    /// The shelf failed, and its count of faults rose to this.
    Shelf { faults: u64 },
    /// The disk in this slot failed, and its count of faults rose to this.
    Failed { slot: u32, faults: u64 },
    /// A file of the disk in this slot is damaged at this place.
    Damaged { slot: u32, file: u32, at: u64 },
    /// Memory was wanting.
    NoMemory,
}

impl From<AllocError> for ClusterFault {
    ghost use Rattle.std.specs.Prelude.{◌≡◌};
    ghost use Rattle.hay_cluster.specs.declared.fault.ClusterFault.{ClusterFault};

    ghost from_gives = { λ _ fault. fault ≡ ClusterFault.NoMemory };

    fn from(_error: AllocError) -> ClusterFault {
        ClusterFault::NoMemory
    }
}

/// A store whose disks and arms were not taken.
pub fn not_mounted(fault: MountFault) -> ClusterFault
    ensures { result ≡ faults.not_mounted fault }
{
    match fault {
        MountFault::Shelf { faults } => ClusterFault::Shelf { faults },
        MountFault::NoMemory => ClusterFault::NoMemory,
    }
}

/// A store whose disk in this slot was not opened.
pub fn not_opened(slot: u32, fault: OpenFault) -> ClusterFault
    ensures { result ≡ faults.not_opened slot fault }
{
    match fault {
        OpenFault::Failed { faults } => ClusterFault::Failed { slot, faults },
        OpenFault::Damaged { file, at } => ClusterFault::Damaged { slot, file, at },
        OpenFault::NoMemory => ClusterFault::NoMemory,
    }
}

/// A store whose Directory was not opened.
pub fn no_directory(fault: DirectoryFault) -> ClusterFault
    ensures { result ≡ faults.no_directory fault }
{
    match fault {
        DirectoryFault::Failed { faults } => ClusterFault::Failed { slot: 0, faults },
        DirectoryFault::Damaged { file, at } => ClusterFault::Damaged { slot: 0, file, at },
        DirectoryFault::NoMemory => ClusterFault::NoMemory,
    }
}
