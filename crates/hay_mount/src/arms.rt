//! The arms of the first lanes.
ghost use Rattle.std.specs.Prelude.{◌≡◌, ℕ, ◌<◌, ◌≤◌, ◌^◌, length, IfOk, OnOk, OnErr, IfErr};
ghost use Rattle.hay_disk.specs.Counts.{Rose};
ghost use Rattle.hay_mount.specs.Mounts.{InOrder, IsMountedArm, IsGivenArm, IsArmBack, AreArmsOut, AreArmsIn, SameFrom};

use crate::fault::MountFault;
use hay_disk::{Shelf, ShelfFault};
use std::alloc::Global;

/// Takes the arms of the first lanes, so many. A refusal leaves none of them out.
pub fn take_arms<H: Shelf>(
    alloc: Global,
    shelf: &mut H,
    lanes: u32,
) -> Result<Vec<H::Arm>, MountFault>
    requires arms_in { AreArmsIn lanes (H.arms shelf.old) }
    ensures arms { IfOk result (λ arms. InOrder (λ lane arm. IsMountedArm H.Arm.fault_count H.Arm.is_sure (H.arms shelf.old lane) arm) 0 arms.items) }
    ensures count { IfOk result (λ arms. length arms.items ≡ lanes) }
    ensures out { OnOk result (AreArmsOut lanes (H.arms shelf.new)) }
    ensures put_back { OnErr result ((lane : ℕ) → lane < lanes → IsArmBack (H.arms shelf.old lane) (H.arms shelf.new lane)) }
    ensures shelf { IfErr result (λ fault. (faults : ℕ) → fault ≡ MountFault.Shelf faults →
        Rose (H.fault_count shelf.old) (H.fault_count shelf.new) × (faults ≡ H.fault_count shelf.new)) }
    ensures others { SameFrom lanes (H.arms shelf.old) (H.arms shelf.new) }
    ensures slots { H.disks shelf.new ≡ H.disks shelf.old }
    ensures counted { H.fault_count shelf.old ≤ H.fault_count shelf.new }
{
    let mut arms = Vec::with_capacity(alloc, lanes as usize)?;
    for lane in 0..lanes {
        match shelf.take_arm(lane) {
            Ok(arm) => arms.push_reserved(arm),
            Err(ShelfFault::Failed) => {
                give_arms(shelf, arms);
                return Err(MountFault::Shelf {
                    faults: shelf.faults(),
                });
            }
            Err(ShelfFault::NoMemory) => {
                give_arms(shelf, arms);
                return Err(MountFault::NoMemory);
            }
        }
    }
    Ok(arms)
}

/// Gives the arms of the first lanes back.
pub fn give_arms<H: Shelf>(shelf: &mut H, mut arms: Vec<H::Arm>)
    requires few { length arms.items < 2 ^ 32 }
    requires out { AreArmsOut (length arms.items) (H.arms shelf.old) }
    ensures given { InOrder (λ lane arm. IsGivenArm H.Arm.fault_count H.Arm.is_sure (H.arms shelf.new lane) arm) 0 arms.items }
    ensures others { SameFrom (length arms.items) (H.arms shelf.old) (H.arms shelf.new) }
    ensures slots { H.disks shelf.new ≡ H.disks shelf.old }
    ensures counted { H.fault_count shelf.new ≡ H.fault_count shelf.old }
{
    while let Some(arm) = arms.pop() {
        shelf.give_arm(arms.len() as u32, arm);
    }
}
