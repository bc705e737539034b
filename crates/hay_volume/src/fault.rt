//! Why a call of a volume file is refused.

use hay_base::NoMemory;
use hay_disk::{DiskFault, Failed};
use std::alloc::{AllocError, AllocFailed};

/// Why no cell was added.
#[derive(Clone, Copy, Debug, PartialEq, Eq)]
pub enum VolumeFault {
    /// The disk failed, and its count of faults rose.
    Failed,
    /// The needle's `need` bytes and the end mark behind them do not fit between `end` and `capacity`.
    Full { end: u64, need: u64, capacity: u64 },
    /// Memory was wanting, and nothing changed.
    NoMemory,
}

impl From<DiskFault> for VolumeFault {
    ghost use Rattle.std.specs.Prelude.{◌≡◌};
    ghost use Rattle.hay_volume.specs.Faults.{volume_fault};

    ghost from_gives = { λ fault gives. gives ≡ volume_fault fault };

    fn from(fault: DiskFault) -> VolumeFault {
        match fault {
            DiskFault::Failed => VolumeFault::Failed,
            DiskFault::NoMemory => VolumeFault::NoMemory,
        }
    }
}

impl From<NoMemory> for VolumeFault {
    ghost use Rattle.std.specs.Prelude.{◌≡◌};
    ghost use Rattle.hay_volume.specs.declared.fault.VolumeFault.{VolumeFault};

    ghost from_gives = { λ _ fault. fault ≡ VolumeFault.NoMemory };

    fn from(_error: NoMemory) -> VolumeFault {
        VolumeFault::NoMemory
    }
}

/// Why no cell was read.
#[derive(Clone, Copy, Debug, PartialEq, Eq)]
pub enum CellFault {
    /// The disk failed, and its count of faults rose.
    Failed,
    /// The bytes that were read at this place are no needle.
    Damaged { at: u64 },
    /// Memory was wanting.
    NoMemory,
}

impl From<Failed> for CellFault {
    ghost use Rattle.std.specs.Prelude.{◌≡◌};
    ghost use Rattle.hay_volume.specs.declared.fault.CellFault.{CellFault};

    ghost from_gives = { λ _ fault. fault ≡ CellFault.Failed };

    fn from(_error: Failed) -> CellFault {
        CellFault::Failed
    }
}

impl From<DiskFault> for CellFault {
    ghost use Rattle.std.specs.Prelude.{◌≡◌};
    ghost use Rattle.hay_volume.specs.Faults.{cell_fault};

    ghost from_gives = { λ fault gives. gives ≡ cell_fault fault };

    fn from(fault: DiskFault) -> CellFault {
        match fault {
            DiskFault::Failed => CellFault::Failed,
            DiskFault::NoMemory => CellFault::NoMemory,
        }
    }
}

impl From<NoMemory> for CellFault {
    ghost use Rattle.std.specs.Prelude.{◌≡◌};
    ghost use Rattle.hay_volume.specs.declared.fault.CellFault.{CellFault};

    ghost from_gives = { λ _ fault. fault ≡ CellFault.NoMemory };

    fn from(_error: NoMemory) -> CellFault {
        CellFault::NoMemory
    }
}

impl From<AllocError> for CellFault {
    ghost use Rattle.std.specs.Prelude.{◌≡◌};
    ghost use Rattle.hay_volume.specs.declared.fault.CellFault.{CellFault};

    ghost from_gives = { λ _ fault. fault ≡ CellFault.NoMemory };

    fn from(_error: AllocError) -> CellFault {
        CellFault::NoMemory
    }
}

impl<T: Drop> From<AllocFailed<T>> for CellFault {
    ghost use Rattle.std.specs.Prelude.{◌≡◌};
    ghost use Rattle.hay_volume.specs.declared.fault.CellFault.{CellFault};

    ghost from_gives = { λ _ fault. fault ≡ CellFault.NoMemory };

    fn from(_error: AllocFailed<T>) -> CellFault {
        CellFault::NoMemory
    }
}
