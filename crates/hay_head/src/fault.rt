//! Why a head file is not read.

use hay_disk::Failed;

/// Why a head file is not read.
#[derive(Clone, Copy, Debug, PartialEq, Eq)]
pub enum HeadFault {
    /// The disk failed, and its count of faults rose.
    Failed,
    /// The bytes at this place are none of a head file.
    Damaged { at: u64 },
    /// Memory was wanting.
    NoMemory,
}

impl From<Failed> for HeadFault {
    ghost use Rattle.std.specs.Prelude.{◌≡◌};
    ghost use Rattle.hay_head.specs.declared.fault.HeadFault.{HeadFault};

    ghost from_gives = { λ _ fault. fault ≡ HeadFault.Failed };

    fn from(_error: Failed) -> HeadFault {
        HeadFault::Failed
    }
}
