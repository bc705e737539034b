//! All disks and arms at once.
ghost use Rattle.std.specs.Prelude.{◌≡◌, ℕ, ◌<◌, ◌≤◌, ◌^◌, true, false, length, IfOk, OnOk, OnErr, IfErr};
ghost use Rattle.hay_disk.specs.Counts.{Rose};
ghost use Rattle.hay_mount.specs.Mounts.{InOrder, IsMountedDisk, IsMountedArm, IsGivenDisk, IsGivenArm, IsPutBack, IsArmBack, AreOut, AreArmsOut, AreIn, AreArmsIn, SameFrom};

use crate::arms::{give_arms, take_arms};
use crate::disks::{give_disks, take_disks};
use crate::fault::MountFault;
use hay_disk::Shelf;
use std::alloc::Global;

/// The number of lanes, each of which has an arm.
pub const LANES: u32 = 8;

/// The disks by slot and the arms by lane.
#[derive(Drop)]
pub struct Mounted<D, A> {
    pub disks: Vec<D>,
    pub arms: Vec<A>,
}

/// Takes the disks of the first slots, so many, and the arms of all lanes. A refusal leaves none of them out.
pub fn mount<H: Shelf>(
    alloc: Global,
    shelf: &mut H,
    slots: u32,
) -> Result<Mounted<H::Disk, H::Arm>, MountFault>
    requires disks_in { AreIn slots (H.disks shelf.old) }
    requires arms_in { AreArmsIn 8 (H.arms shelf.old) }
    ensures disks { IfOk result (λ mounted. InOrder (λ slot disk. IsMountedDisk H.Disk.Tells H.Disk.files H.Disk.drawn H.Disk.fault_count H.Disk.fuse_count (H.disks shelf.old slot)
        disk) 0 mounted.disks.items) }
    ensures arms { IfOk result (λ mounted. InOrder (λ lane arm. IsMountedArm H.Arm.fault_count H.Arm.is_sure (H.arms shelf.old lane) arm) 0 mounted.arms.items) }
    ensures disk_count { IfOk result (λ mounted. length mounted.disks.items ≡ slots) }
    ensures arm_count { IfOk result (λ mounted. length mounted.arms.items ≡ 8) }
    ensures disks_out { OnOk result (AreOut slots (H.disks shelf.new)) }
    ensures arms_out { OnOk result (AreArmsOut 8 (H.arms shelf.new)) }

    // What a refusal leaves, and its cause.
    ensures put_back { OnErr result ((slot : ℕ) → slot < slots → IsPutBack H.Disk.Tells (H.disks shelf.old slot) (H.disks shelf.new slot)) }
    ensures arms_back { OnErr result ((lane : ℕ) → lane < 8 → IsArmBack (H.arms shelf.old lane) (H.arms shelf.new lane)) }
    ensures shelf { IfErr result (λ fault. (faults : ℕ) → fault ≡ MountFault.Shelf faults →
        Rose (H.fault_count shelf.old) (H.fault_count shelf.new) × (faults ≡ H.fault_count shelf.new)) }

    ensures other_slots { SameFrom slots (H.disks shelf.old) (H.disks shelf.new) }
    ensures other_lanes { SameFrom 8 (H.arms shelf.old) (H.arms shelf.new) }
    ensures counted { H.fault_count shelf.old ≤ H.fault_count shelf.new }
{
    let arms = take_arms(alloc, shelf, LANES)?;
    match take_disks(alloc, shelf, slots) {
        Ok(disks) => Ok(Mounted { disks, arms }),
        Err(fault) => {
            give_arms(shelf, arms);
            Err(fault)
        }
    }
}

/// Gives the disks and arms back that were taken, or others in their place.
pub fn unmount<H: Shelf>(shelf: &mut H, mounted: Mounted<H::Disk, H::Arm>)
    requires few_disks { length mounted.disks.items < 2 ^ 32 }
    requires few_arms { length mounted.arms.items < 2 ^ 32 }
    requires disks_out { AreOut (length mounted.disks.items) (H.disks shelf.old) }
    requires arms_out { AreArmsOut (length mounted.arms.items) (H.arms shelf.old) }
    ensures disks { InOrder (λ slot disk. IsGivenDisk H.Disk.Tells H.Disk.files H.Disk.drawn H.Disk.fault_count H.Disk.fuse_count (H.disks shelf.new slot) disk) 0 mounted.disks.items }
    ensures arms { InOrder (λ lane arm. IsGivenArm H.Arm.fault_count H.Arm.is_sure (H.arms shelf.new lane) arm) 0 mounted.arms.items }
    ensures other_slots { SameFrom (length mounted.disks.items) (H.disks shelf.old) (H.disks shelf.new) }
    ensures other_lanes { SameFrom (length mounted.arms.items) (H.arms shelf.old) (H.arms shelf.new) }
    ensures counted { H.fault_count shelf.new ≡ H.fault_count shelf.old }
{
    let Mounted { disks, arms } = mounted;
    give_disks(shelf, disks);
    give_arms(shelf, arms);
}
