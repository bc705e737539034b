//! Why a disk is not opened.

ghost use Rattle.std.specs.Prelude.{◌≡◌};
ghost use Rattle.hay_open.specs.Faults.{told_fault};

use hay_base::NoMemory;
use hay_disk::{Disk, DiskFault, Failed};
use std::alloc::{AllocError, AllocFailed};

/// Why a disk is not opened.
#[derive(Clone, Copy, Debug, PartialEq, Eq)]
pub enum OpenFault {
    /// The disk failed, and its count of faults, which is this now, rose.
    Failed { faults: u64 },
    /// What stands at this place of a file is not of the format.
    Damaged { file: u32, at: u64 },
    /// Memory was wanting.
    NoMemory,
}

/// The same within an opening, which tells the count of faults at its end.
#[derive(Clone, Copy, Debug, PartialEq, Eq)]
pub(crate) enum Refusal {
    Failed,
    Damaged { file: u32, at: u64 },
    NoMemory,
}

impl Refusal {
    // What the opening answers.
    pub(crate) fn told<D: Disk>(self, disk: &D) -> OpenFault
        ensures { result ≡ told_fault self (D.fault_count disk.now) }
    {
        match self {
            Refusal::Failed => OpenFault::Failed {
                faults: disk.faults(),
            },
            Refusal::Damaged { file, at } => OpenFault::Damaged { file, at },
            Refusal::NoMemory => OpenFault::NoMemory,
        }
    }
}

impl From<Failed> for Refusal {
    ghost use Rattle.std.specs.Prelude.{◌≡◌};
    ghost use Rattle.hay_open.specs.declared.fault.Refusal.{Refusal};

    ghost from_gives = { λ _ gives. gives ≡ Refusal.Failed };

    fn from(_error: Failed) -> Refusal {
        Refusal::Failed
    }
}

impl From<DiskFault> for Refusal {
    ghost use Rattle.std.specs.Prelude.{◌≡◌};
    ghost use Rattle.hay_open.specs.Faults.{disk_refusal};

    ghost from_gives = { λ fault gives. gives ≡ disk_refusal fault };

    fn from(fault: DiskFault) -> Refusal {
        match fault {
            DiskFault::Failed => Refusal::Failed,
            DiskFault::NoMemory => Refusal::NoMemory,
        }
    }
}

impl From<NoMemory> for Refusal {
    ghost use Rattle.std.specs.Prelude.{◌≡◌};
    ghost use Rattle.hay_open.specs.declared.fault.Refusal.{Refusal};

    ghost from_gives = { λ _ gives. gives ≡ Refusal.NoMemory };

    fn from(_error: NoMemory) -> Refusal {
        Refusal::NoMemory
    }
}

impl From<AllocError> for Refusal {
    ghost use Rattle.std.specs.Prelude.{◌≡◌};
    ghost use Rattle.hay_open.specs.declared.fault.Refusal.{Refusal};

    ghost from_gives = { λ _ gives. gives ≡ Refusal.NoMemory };

    fn from(_error: AllocError) -> Refusal {
        Refusal::NoMemory
    }
}

impl<T: Drop> From<AllocFailed<T>> for Refusal {
    ghost use Rattle.std.specs.Prelude.{◌≡◌};
    ghost use Rattle.hay_open.specs.declared.fault.Refusal.{Refusal};

    ghost from_gives = { λ _ gives. gives ≡ Refusal.NoMemory };

    fn from(_error: AllocFailed<T>) -> Refusal {
        Refusal::NoMemory
    }
}
