//! The disks of the first slots.
ghost use Rattle.std.specs.Prelude.{◌≡◌, ℕ, ◌<◌, ◌≤◌, ◌^◌, length, IfOk, OnOk, OnErr, IfErr};
ghost use Rattle.hay_disk.specs.Counts.{Rose};
ghost use Rattle.hay_mount.specs.Mounts.{InOrder, IsMountedDisk, IsGivenDisk, IsPutBack, AreOut, AreIn, SameFrom};

use crate::fault::MountFault;
use hay_disk::{Shelf, ShelfFault};
use std::alloc::Global;

/// Takes the disks of the first slots, so many. A refusal leaves none of them out.
pub fn take_disks<H: Shelf>(
    alloc: Global,
    shelf: &mut H,
    slots: u32,
) -> Result<Vec<H::Disk>, MountFault>
    requires disks_in { AreIn slots (H.disks shelf.old) }
    ensures disks { IfOk result (λ disks. InOrder (λ slot disk. IsMountedDisk H.Disk.Tells H.Disk.files H.Disk.drawn H.Disk.fault_count H.Disk.fuse_count (H.disks shelf.old slot)
        disk) 0 disks.items) }
    ensures count { IfOk result (λ disks. length disks.items ≡ slots) }
    ensures out { OnOk result (AreOut slots (H.disks shelf.new)) }
    ensures put_back { OnErr result ((slot : ℕ) → slot < slots → IsPutBack H.Disk.Tells (H.disks shelf.old slot) (H.disks shelf.new slot)) }
    ensures shelf { IfErr result (λ fault. (faults : ℕ) → fault ≡ MountFault.Shelf faults →
        Rose (H.fault_count shelf.old) (H.fault_count shelf.new) × (faults ≡ H.fault_count shelf.new)) }
    ensures others { SameFrom slots (H.disks shelf.old) (H.disks shelf.new) }
    ensures lanes { H.arms shelf.new ≡ H.arms shelf.old }
    ensures counted { H.fault_count shelf.old ≤ H.fault_count shelf.new }
{
    let mut disks = Vec::with_capacity(alloc, slots as usize)?;
    for slot in 0..slots {
        match shelf.take_disk(slot) {
            Ok(disk) => disks.push_reserved(disk),
            Err(ShelfFault::Failed) => {
                give_disks(shelf, disks);
                return Err(MountFault::Shelf {
                    faults: shelf.faults(),
                });
            }
            Err(ShelfFault::NoMemory) => {
                give_disks(shelf, disks);
                return Err(MountFault::NoMemory);
            }
        }
    }
    Ok(disks)
}

/// Gives the disks of the first slots back.
pub fn give_disks<H: Shelf>(shelf: &mut H, mut disks: Vec<H::Disk>)
    requires few { length disks.items < 2 ^ 32 }
    requires out { AreOut (length disks.items) (H.disks shelf.old) }
    ensures given { InOrder (λ slot disk. IsGivenDisk H.Disk.Tells H.Disk.files H.Disk.drawn H.Disk.fault_count H.Disk.fuse_count (H.disks shelf.new slot) disk) 0 disks.items }
    ensures others { SameFrom (length disks.items) (H.disks shelf.old) (H.disks shelf.new) }
    ensures lanes { H.arms shelf.new ≡ H.arms shelf.old }
    ensures counted { H.fault_count shelf.new ≡ H.fault_count shelf.old }
{
    while let Some(disk) = disks.pop() {
        shelf.give_disk(disks.len() as u32, disk);
    }
}
