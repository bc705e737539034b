//! What ends a check before all was read.

ghost use Rattle.std.specs.Prelude.{◌≡◌, ◌<◌, ◌^◌, ℕ};
ghost use Rattle.hay_check.specs.Faults.{answer};

use crate::verdict::{CheckFault, Verdict};
use hay_base::NoMemory;
use hay_disk::{Disk, DiskFault, Failed};

/// What ends a check before all was read.
#[derive(Clone, Copy, Debug, PartialEq, Eq)]
pub(crate) enum Refusal {
    Failed,
    Damaged { file: u32, at: u64 },
    NoMemory,
}

impl Refusal {
    // What the check answers.
    pub(crate) fn answer<D: Disk>(self, disk: &D) -> Result<Verdict, CheckFault>
        ensures is { result ≡ answer self (D.fault_count disk.now) }
        ensures fits { (file at : ℕ) → self ≡ Refusal.Damaged file at → at < 2 ^ 64 }
    {
        match self {
            Refusal::Failed => Err(CheckFault::Failed {
                faults: disk.faults(),
            }),
            Refusal::Damaged { file, at } => Ok(Verdict::Damaged { file, at }),
            Refusal::NoMemory => Err(CheckFault::NoMemory),
        }
    }
}

impl From<Failed> for Refusal {
    ghost use Rattle.std.specs.Prelude.{◌≡◌};
    ghost use Rattle.hay_check.specs.declared.fault.Refusal.{Refusal};

    ghost from_gives = { λ _ gives. gives ≡ Refusal.Failed };

    fn from(_error: Failed) -> Refusal {
        Refusal::Failed
    }
}

impl From<DiskFault> for Refusal {
    ghost use Rattle.std.specs.Prelude.{◌≡◌};
    ghost use Rattle.hay_check.specs.Faults.{disk_refusal};

    ghost from_gives = { λ fault gives. gives ≡ disk_refusal fault };

    fn from(fault: DiskFault) -> Refusal {
        match fault {
            DiskFault::Failed => Refusal::Failed,
            DiskFault::NoMemory => Refusal::NoMemory,
        }
    }
}

impl From<NoMemory> for Refusal {
    ghost use Rattle.std.specs.Prelude.{◌≡◌};
    ghost use Rattle.hay_check.specs.declared.fault.Refusal.{Refusal};

    ghost from_gives = { λ _ gives. gives ≡ Refusal.NoMemory };

    fn from(_error: NoMemory) -> Refusal {
        Refusal::NoMemory
    }
}
