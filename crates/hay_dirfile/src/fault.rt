//! Why a journal is not opened.

ghost use Rattle.std.specs.Prelude.{◌≡◌};
ghost use Rattle.hay_dirfile.specs.Faults.{open_fault};

use hay_disk::{DiskFault, Failed};
use std::alloc::AllocFailed;

/// Why a disk is not opened. It is to move to the crate that opens whole disks.
#[derive(Clone, Copy, Debug, PartialEq, Eq)]
pub enum OpenFault {
    /// The disk failed, and its count of faults rose to this.
    Failed { faults: u64 },
    /// The bytes at this place of this file are none of its format.
    Damaged { file: u32, at: u64 },
    /// Memory was wanting.
    NoMemory,
}

/// Why no rows were read: as `OpenFault`, of the journal alone and without the count.
#[derive(Clone, Copy, Debug, PartialEq, Eq)]
pub(crate) enum RowsFault {
    Failed,
    Damaged { at: u64 },
    NoMemory,
}

/// The fault of a disk with this count of faults.
pub(crate) fn open_fault(fault: RowsFault, faults: u64) -> OpenFault
    ensures { result ≡ open_fault faults fault }
{
    match fault {
        RowsFault::Failed => OpenFault::Failed { faults },
        RowsFault::Damaged { at } => OpenFault::Damaged { file: 0, at },
        RowsFault::NoMemory => OpenFault::NoMemory,
    }
}

impl From<Failed> for RowsFault {
    ghost use Rattle.std.specs.Prelude.{◌≡◌};
    ghost use Rattle.hay_dirfile.specs.declared.fault.RowsFault.{RowsFault};

    ghost from_gives = { λ _ fault. fault ≡ RowsFault.Failed };

    fn from(_error: Failed) -> RowsFault {
        RowsFault::Failed
    }
}

impl From<DiskFault> for RowsFault {
    ghost use Rattle.std.specs.Prelude.{◌≡◌};
    ghost use Rattle.hay_dirfile.specs.Faults.{rows_fault};

    ghost from_gives = { λ fault gives. gives ≡ rows_fault fault };

    fn from(fault: DiskFault) -> RowsFault {
        match fault {
            DiskFault::Failed => RowsFault::Failed,
            DiskFault::NoMemory => RowsFault::NoMemory,
        }
    }
}

impl<T: Drop> From<AllocFailed<T>> for RowsFault {
    ghost use Rattle.std.specs.Prelude.{◌≡◌};
    ghost use Rattle.hay_dirfile.specs.declared.fault.RowsFault.{RowsFault};

    ghost from_gives = { λ _ fault. fault ≡ RowsFault.NoMemory };

    fn from(_error: AllocFailed<T>) -> RowsFault {
        RowsFault::NoMemory
    }
}
