//! Arms that fetch pieces in memory.
ghost use Rattle.std.specs.Prelude.{◌≡◌, true, OnErr, OnOk, length};

use crate::MemPiece;
use crate::failures::Failures;
use hay_base::NoMemory;
use hay_disk::{Arm, Failed};
use std::alloc::Global;

/// An arm that fails at the fetches that it was told to.
#[derive(Drop)]
pub struct MemArm {
    failures: Failures,
}

impl MemArm {
    ghost use Rattle.hay_memdisk.specs.Arm.{arm_faults, arm_is_sure, fetch_count};
    ghost use Rattle.std.specs.Prelude.{nat_le};
    ghost use Rattle.std.specs.List.{list_all};

    /// An arm that never fails.
    pub fn new(alloc: Global) -> MemArm
        ensures sure { arm_is_sure result ≡ true }
        ensures faults { arm_faults result ≡ 0 }
    {
        MemArm {
            failures: Failures::new(alloc),
        }
    }

    /// Makes it fail at these fetches, numbered from 1 since the arm was made, and no others. `NoMemory` leaves it as
    /// it was.
    pub fn fail(&mut self, fetches: &[u64]) -> Result<(), NoMemory>
        ensures sure { OnOk result (arm_is_sure self.new ≡ list_all (λ n. nat_le n (fetch_count self.old)) fetches.now) }
        ensures err { OnErr result (arm_is_sure self.new ≡ arm_is_sure self.old) }
        ensures fetches { fetch_count self.new ≡ fetch_count self.old }
        ensures faults { arm_faults self.new ≡ arm_faults self.old }
    {
        self.failures.list(fetches)
    }
}

impl Arm<MemPiece> for MemArm {
    ghost use Rattle.hay_memdisk.specs.Arm.{arm_faults, arm_is_sure};

    ghost fault_count = { arm_faults };

    ghost is_sure = { arm_is_sure };

    fn fetch(&mut self, piece: &MemPiece, out: &mut [u8]) -> Result<usize, Failed> {
        if self.failures.next_fails() {
            return Err(Failed);
        }
        out.copy_from_slice(piece.bytes);
        Ok(out.len())
    }

    fn faults(&self) -> u64 {
        self.failures.faults()
    }
}
