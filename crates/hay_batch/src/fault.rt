//! Why a store is not opened, and why a batch is not loaded.
ghost use Rattle.std.specs.Prelude.{◌≡◌};
ghost use Rattle.hay_batch.specs.Faults as faults;

use hay_base::Listed;
use hay_dirfile::OpenFault as JournalFault;
use hay_mount::MountFault;
use hay_open::OpenFault;
use std::alloc::AllocError;

/// The lowest replica of a volume that lacks room for needles of `need` bytes: it is on this machine, and its cells end here.
#[derive(Clone, Copy, Debug, PartialEq, Eq)]
pub struct FullTry {
    pub volume: u32,
    pub machine: u32,
    pub end: u64,
    pub need: u64,
}

/// Why a batch is not loaded.
#[derive(Debug, Drop)]
pub enum LoadFault {
    /// A photo of the batch has a home. Of the first such photo it is this volume.
    Known { volume: u32 },
    /// No volume has room on each of its replicas. The tries are in order.
    Full { tries: Listed<FullTry> },
    /// The disk of this slot failed, and its count of faults rose to this.
    Failed { slot: u32, faults: u64 },
    /// Memory was wanting.
    NoMemory,
}

/// Why a store is not opened.
#[derive(Clone, Copy, Debug, PartialEq, Eq)]
pub enum LoadOpenFault {
    /// The shelf failed, and its count of faults rose to this.
    Shelf { faults: u64 },
    /// The disk of this slot failed or is damaged.
    Open { slot: u32, fault: OpenFault },
    /// Memory was wanting.
    NoMemory,
}

impl From<AllocError> for LoadOpenFault {
    ghost use Rattle.std.specs.Prelude.{◌≡◌};
    ghost use Rattle.hay_batch.specs.declared.fault.LoadOpenFault.{LoadOpenFault};

    ghost from_gives = { λ _ fault. fault ≡ LoadOpenFault.NoMemory };

    fn from(_error: AllocError) -> LoadOpenFault {
        LoadOpenFault::NoMemory
    }
}

/// A store whose disks were not taken.
pub(crate) fn not_mounted(fault: MountFault) -> LoadOpenFault
    ensures { result ≡ faults.not_mounted fault }
{
    match fault {
        MountFault::Shelf { faults } => LoadOpenFault::Shelf { faults },
        MountFault::NoMemory => LoadOpenFault::NoMemory,
    }
}

/// A store whose disk in this slot was not opened.
pub(crate) fn not_opened(slot: u32, fault: OpenFault) -> LoadOpenFault
    ensures { result ≡ faults.not_opened slot fault }
{
    match fault {
        OpenFault::Failed { .. } | OpenFault::Damaged { .. } => LoadOpenFault::Open { slot, fault },
        OpenFault::NoMemory => LoadOpenFault::NoMemory,
    }
}

/// The same fault of a journal's disk.
pub(crate) fn of_journal(fault: JournalFault) -> OpenFault
    ensures { result ≡ faults.of_journal fault }
{
    match fault {
        JournalFault::Failed { faults } => OpenFault::Failed { faults },
        JournalFault::Damaged { file, at } => OpenFault::Damaged { file, at },
        JournalFault::NoMemory => OpenFault::NoMemory,
    }
}
