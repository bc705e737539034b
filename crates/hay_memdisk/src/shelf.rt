//! A shelf of disks and arms that can be made to fail.
#![tactic(auto, unfolding(crate::specs::MemShelf::mem_disks, crate::specs::MemShelf::mem_arms))]

ghost use Rattle.std.specs.Prelude.{◌≡◌, None, Some, ℕ, IfNone, IfSome, IsErr, OnOk, ◌⊎◌, true};

use crate::slots::Slots;
use crate::{MemArm, MemDisk};
use hay_base::NoMemory;
use hay_disk::{Shelf, ShelfFault};
use std::alloc::Global;

/// A shelf of disks and arms in memory. It makes an empty disk for a slot that has none, and an arm that never fails
/// for a lane that has none.
#[derive(Drop)]
pub struct MemShelf {
    alloc: Global,
    disks: Slots<MemDisk>,
    arms: Slots<MemArm>,
}

impl MemShelf {
    ghost use Rattle.std.specs.Borrow.{sem};
    ghost use Rattle.hay_disk.specs.Disk.{KeepsOthers};
    ghost use Rattle.hay_memdisk.specs.LentDisk.{lends_disk};
    ghost use Rattle.hay_memdisk.specs.Held.{no_disk, no_arm, held_arm};
    ghost use Rattle.hay_memdisk.specs.MemShelf.{mem_disks, mem_arms, held_mem_disk};

    /// A shelf without disks and arms.
    pub fn new(alloc: Global) -> MemShelf
        ensures disks { (n : ℕ) → mem_disks result n ≡ no_disk }
        ensures arms { (n : ℕ) → mem_arms result n ≡ no_arm }
    {
        MemShelf {
            alloc,
            disks: Slots::new(alloc),
            arms: Slots::new(alloc),
        }
    }

    /// Puts a disk into a slot, in place of what the slot has. `NoMemory` leaves the shelf as it was.
    pub fn put_disk(&mut self, slot: u32, disk: MemDisk) -> Result<(), NoMemory>
        ensures ok { OnOk result (mem_disks self.new slot ≡ held_mem_disk disk) }
        ensures others { KeepsOthers slot (mem_disks self.old) (mem_disks self.new) }
        ensures refused { IsErr result → mem_disks self.new ≡ mem_disks self.old }
        ensures arms { mem_arms self.new ≡ mem_arms self.old }
    {
        self.disks.put(slot, disk)?;
        Ok(())
    }

    /// Puts an arm into a lane, in place of what the lane has. `NoMemory` leaves the shelf as it was.
    pub fn put_arm(&mut self, lane: u32, arm: MemArm) -> Result<(), NoMemory>
        ensures ok { OnOk result (mem_arms self.new lane ≡ held_arm arm) }
        ensures others { KeepsOthers lane (mem_arms self.old) (mem_arms self.new) }
        ensures refused { IsErr result → mem_arms self.new ≡ mem_arms self.old }
        ensures disks { mem_disks self.new ≡ mem_disks self.old }
    {
        self.arms.put(lane, arm)?;
        Ok(())
    }

    /// The disk in a slot; none where the shelf has none or it is out.
    pub fn disk(&self, slot: u32) -> Option<&MemDisk>
        ensures disk { IfSome result (λ disk. mem_disks self.now slot ≡ held_mem_disk disk.now) }
        ensures none { IfNone result ((mem_disks self.now slot ≡ no_disk) ⊎ ((mem_disks self.now slot).is_out ≡ true)) }
    {
        self.disks.get(slot)
    }

    /// The disk in a slot, to be changed; none where the shelf has none or it is out.
    pub fn disk_mut(&mut self, slot: u32) -> Option<&mut MemDisk>
        ensures* writes_back { sem 𝓛 (lends_disk self.entry slot result) }
        ensures disk { IfSome result (λ disk. mem_disks self.old slot ≡ held_mem_disk disk.now) }
        ensures none { IfNone result ((mem_disks self.old slot ≡ no_disk) ⊎ ((mem_disks self.old slot).is_out ≡ true)) }
    {
        self.disks.get_mut(slot)
    }

    /// The arm in a lane; none where the shelf has none or it is out.
    pub fn arm(&self, lane: u32) -> Option<&MemArm>
        ensures arm { IfSome result (λ arm. mem_arms self.now lane ≡ held_arm arm.now) }
        ensures none { IfNone result ((mem_arms self.now lane ≡ no_arm) ⊎ ((mem_arms self.now lane).is_out ≡ true)) }
    {
        self.arms.get(lane)
    }
}

impl Shelf for MemShelf {
    ghost use Rattle.hay_memdisk.specs.MemShelf.{mem_disks, mem_arms};

    type Disk = MemDisk;

    type Arm = MemArm;

    ghost disks = { mem_disks };

    ghost arms = { mem_arms };

    ghost fault_count = { λ _. 0 };

    fn take_disk(&mut self, slot: u32) -> Result<MemDisk, ShelfFault> {
        match self.disks.take(slot)? {
            Some(mut disk) => {
                disk.settle();
                Ok(disk)
            }
            None => Ok(MemDisk::new(self.alloc)),
        }
    }

    fn give_disk(&mut self, slot: u32, disk: MemDisk) {
        self.disks.give(slot, disk);
    }

    fn take_arm(&mut self, lane: u32) -> Result<MemArm, ShelfFault> {
        match self.arms.take(lane)? {
            Some(arm) => Ok(arm),
            None => Ok(MemArm::new(self.alloc)),
        }
    }

    fn give_arm(&mut self, lane: u32, arm: MemArm) {
        self.arms.give(lane, arm);
    }

    fn faults(&self) -> u64 {
        0
    }
}
