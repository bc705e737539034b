//! A shelf of disks that never fail.
#![tactic(auto, unfolding(crate::specs::SureShelf::sure_disks, crate::specs::SureShelf::sure_arms))]

ghost use Rattle.std.specs.Prelude.{◌≡◌, None, Some, ℕ, IfNone, IfSome, ◌⊎◌, true};

use crate::slots::Slots;
use crate::{MemArm, SureDisk};
use hay_disk::{Shelf, ShelfFault};
use std::alloc::Global;

/// A shelf of disks and arms in memory that never fail. It makes an empty disk for a slot that has none, and an arm
/// that never fails for a lane that has none.
#[derive(Drop)]
pub struct SureShelf {
    alloc: Global,
    disks: Slots<SureDisk>,
    arms: Slots<MemArm>,
}

impl SureShelf {
    ghost use Rattle.hay_memdisk.specs.SureShelf.{sure_disks, sure_arms, held_sure_disk};
    ghost use Rattle.hay_memdisk.specs.Held.{no_disk, no_arm};

    /// A shelf without disks and arms.
    pub fn new(alloc: Global) -> SureShelf
        ensures disks { (n : ℕ) → sure_disks result n ≡ no_disk }
        ensures arms { (n : ℕ) → sure_arms result n ≡ no_arm }
    {
        SureShelf {
            alloc,
            disks: Slots::new(alloc),
            arms: Slots::new(alloc),
        }
    }

    /// The disk in a slot; none where the shelf has none or it is out.
    pub fn disk(&self, slot: u32) -> Option<&SureDisk>
        ensures disk { IfSome result (λ disk. sure_disks self.now slot ≡ held_sure_disk disk.now) }
        ensures none { IfNone result ((sure_disks self.now slot ≡ no_disk) ⊎ ((sure_disks self.now slot).is_out ≡ true)) }
    {
        self.disks.get(slot)
    }
}

impl Shelf for SureShelf {
    ghost use Rattle.hay_memdisk.specs.SureShelf.{sure_disks, sure_arms};

    type Disk = SureDisk;

    type Arm = MemArm;

    ghost disks = { sure_disks };

    ghost arms = { sure_arms };

    ghost fault_count = { λ _. 0 };

    fn take_disk(&mut self, slot: u32) -> Result<SureDisk, ShelfFault> {
        match self.disks.take(slot)? {
            Some(mut disk) => {
                disk.settle();
                Ok(disk)
            }
            None => Ok(SureDisk::new(self.alloc)),
        }
    }

    fn give_disk(&mut self, slot: u32, disk: SureDisk) {
        self.disks.give(slot, disk);
    }

    fn take_arm(&mut self, lane: u32) -> Result<MemArm, ShelfFault> {
        match self.arms.take(lane)? {
            Some(arm) => Ok(arm),
            None => Ok(MemArm::new(self.alloc)),
        }
    }

    fn give_arm(&mut self, lane: u32, arm: MemArm) {
        self.arms.give(lane, arm);
    }

    fn faults(&self) -> u64 {
        0
    }
}
