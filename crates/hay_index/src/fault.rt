//! Why an index file was not read.

use hay_disk::DiskFault;
use std::alloc::{AllocError, AllocFailed};

/// Why no records were read.
#[derive(Clone, Copy, Debug, PartialEq, Eq)]
pub enum IndexFault {
    /// The disk failed, and its count of faults rose.
    Failed,
    /// The first damage of the file is at this place.
    Damaged { at: u64 },
    /// Memory was wanting.
    NoMemory,
}

impl From<DiskFault> for IndexFault {
    ghost use Rattle.std.specs.Prelude.{◌≡◌};
    ghost use Rattle.hay_index.specs.Faults.{index_fault};

    ghost from_gives = { λ fault gives. gives ≡ index_fault fault };

    fn from(fault: DiskFault) -> IndexFault {
        match fault {
            DiskFault::Failed => IndexFault::Failed,
            DiskFault::NoMemory => IndexFault::NoMemory,
        }
    }
}

impl From<AllocError> for IndexFault {
    ghost use Rattle.std.specs.Prelude.{◌≡◌};
    ghost use Rattle.hay_index.specs.declared.fault.IndexFault.{IndexFault};

    ghost from_gives = { λ _ fault. fault ≡ IndexFault.NoMemory };

    fn from(_error: AllocError) -> IndexFault {
        IndexFault::NoMemory
    }
}

impl<T: Drop> From<AllocFailed<T>> for IndexFault {
    ghost use Rattle.std.specs.Prelude.{◌≡◌};
    ghost use Rattle.hay_index.specs.declared.fault.IndexFault.{IndexFault};

    ghost from_gives = { λ _ fault. fault ≡ IndexFault.NoMemory };

    fn from(_error: AllocFailed<T>) -> IndexFault {
        IndexFault::NoMemory
    }
}
