//! Where disks and arms come from and go back to.
ghost use Rattle.std.specs.Prelude.{◌≡◌, true, false, ℕ, IfOk, OnOk, IsErr, IsErrOf};
ghost use Rattle.hay_disk.specs.Counts.{IsCounted};
ghost use Rattle.hay_disk.specs.Disk.{IsSolid, IsFree, KeepsOthers};
ghost use Rattle.hay_disk.specs.Shelf.{HeldDisk, HeldArm};

use crate::{Arm, Disk};
use std::alloc::{AllocError, AllocFailed};

/// Why a disk or an arm was not handed out.
#[derive(Clone, Copy, Debug, PartialEq, Eq)]
pub enum ShelfFault {
    /// The shelf failed, and its count of faults rose.
    Failed,
    /// Memory was wanting, and nothing changed.
    NoMemory,
}

impl From<AllocError> for ShelfFault {
    ghost use Rattle.std.specs.Prelude.{◌≡◌};
    ghost use Rattle.hay_disk.specs.declared.shelf.ShelfFault.{ShelfFault};

    ghost from_gives = { λ _ fault. fault ≡ ShelfFault.NoMemory };

    fn from(_error: AllocError) -> ShelfFault {
        ShelfFault::NoMemory
    }
}

impl<T: Drop> From<AllocFailed<T>> for ShelfFault {
    ghost use Rattle.std.specs.Prelude.{◌≡◌};
    ghost use Rattle.hay_disk.specs.declared.shelf.ShelfFault.{ShelfFault};

    ghost from_gives = { λ _ fault. fault ≡ ShelfFault.NoMemory };

    fn from(_error: AllocFailed<T>) -> ShelfFault {
        ShelfFault::NoMemory
    }
}

/// A shelf of one disk a slot and one arm a lane.
pub trait Shelf {
    type Disk: Disk;

    type Arm: Arm<<Self::Disk as Disk>::Piece>;

    /// The disk of each slot; its files and what was drawn, where disks tell.
    ghost disks: { Self → ℕ → HeldDisk };

    /// The arm of each lane.
    ghost arms: { Self → ℕ → HeldArm };

    /// How often a call of the shelf has failed.
    ghost fault_count: { Self → ℕ };

    /// Hands out the disk of a slot, as it was given back, with all that reads give solid and no piece given out.
    fn take_disk(&mut self, slot: u32) -> Result<Self::Disk, ShelfFault>
        requires { (disks self.old slot).is_out ≡ false }
        ensures now { Self.Disk.Tells → IfOk result (λ disk. (n : ℕ) → (Self.Disk.files disk n).now ≡ ((disks self.old slot).files n).now) }
        ensures solid { Self.Disk.Tells → IfOk result (λ disk. (n : ℕ) → IsSolid (Self.Disk.files disk n)) }
        ensures free { Self.Disk.Tells → IfOk result (λ disk. (n : ℕ) → IsFree (Self.Disk.files disk n)) }
        ensures drawn { Self.Disk.Tells → IfOk result (λ disk. (n : ℕ) → Self.Disk.drawn disk n ≡ (disks self.old slot).drawn n) }
        ensures faults { IfOk result (λ disk. Self.Disk.fault_count disk ≡ (disks self.old slot).fault_count) }
        ensures fuses { IfOk result (λ disk. Self.Disk.fuse_count disk ≡ (disks self.old slot).fuse_count) }
        ensures out { OnOk result ((disks self.new slot).is_out ≡ true) }
        ensures others { KeepsOthers slot (disks self.old) (disks self.new) }
        ensures lanes { arms self.new ≡ arms self.old }
        ensures refused { IsErr result → disks self.new ≡ disks self.old }
        ensures counted { IsCounted (fault_count self.old) (fault_count self.new) (IsErrOf result ShelfFault.Failed) };

    /// Takes the disk of a slot back.
    fn give_disk(&mut self, slot: u32, disk: Self::Disk)
        requires { (disks self.old slot).is_out ≡ true }
        ensures files { Self.Disk.Tells → (disks self.new slot).files ≡ Self.Disk.files disk }
        ensures drawn { Self.Disk.Tells → (n : ℕ) → (disks self.new slot).drawn n ≡ Self.Disk.drawn disk n }
        ensures faults { (disks self.new slot).fault_count ≡ Self.Disk.fault_count disk }
        ensures fuses { (disks self.new slot).fuse_count ≡ Self.Disk.fuse_count disk }
        ensures back { (disks self.new slot).is_out ≡ false }
        ensures others { KeepsOthers slot (disks self.old) (disks self.new) }
        ensures lanes { arms self.new ≡ arms self.old }
        ensures counted { fault_count self.new ≡ fault_count self.old };

    /// Hands out the arm of a lane, as it was given back.
    fn take_arm(&mut self, lane: u32) -> Result<Self::Arm, ShelfFault>
        requires { (arms self.old lane).is_out ≡ false }
        ensures faults { IfOk result (λ arm. Self.Arm.fault_count arm ≡ (arms self.old lane).fault_count) }
        ensures sure { IfOk result (λ arm. Self.Arm.is_sure arm ≡ (arms self.old lane).is_sure) }
        ensures out { OnOk result ((arms self.new lane).is_out ≡ true) }
        ensures others { KeepsOthers lane (arms self.old) (arms self.new) }
        ensures slots { disks self.new ≡ disks self.old }
        ensures refused { IsErr result → arms self.new ≡ arms self.old }
        ensures counted { IsCounted (fault_count self.old) (fault_count self.new) (IsErrOf result ShelfFault.Failed) };

    /// Takes the arm of a lane back.
    fn give_arm(&mut self, lane: u32, arm: Self::Arm)
        requires { (arms self.old lane).is_out ≡ true }
        ensures faults { (arms self.new lane).fault_count ≡ Self.Arm.fault_count arm }
        ensures sure { (arms self.new lane).is_sure ≡ Self.Arm.is_sure arm }
        ensures back { (arms self.new lane).is_out ≡ false }
        ensures others { KeepsOthers lane (arms self.old) (arms self.new) }
        ensures slots { disks self.new ≡ disks self.old }
        ensures counted { fault_count self.new ≡ fault_count self.old };

    /// How many calls of the shelf have failed.
    fn faults(&self) -> u64
        ensures { result ≡ fault_count self.now };
}
