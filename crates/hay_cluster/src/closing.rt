//! How a store is closed.
ghost use Rattle.std.specs.Prelude.{◌≡◌, ◌≤◌, ◌<◌, ◌+◌, ◌*◌, ◌^◌, ℕ, length, map, slice_get, slice_index};
ghost use Rattle.hay_mount.specs.Mounts.{AreIn, AreOut, AreArmsIn, AreArmsOut, InOrder, IsGivenArm, IsGivenDisk, SameFrom};
ghost use Rattle.hay_legal.specs.declared.known.Known.{Known};
ghost use Rattle.hay_legal.specs.Known.{disk_count};
ghost use Rattle.hay_legal.specs.Stands.{StandsOn};
ghost use Rattle.hay_directory.specs.Rows.{OpensRows};
ghost use Rattle.hay_logical.specs.Fits.{IsReplica};
ghost use Rattle.hay_cluster.specs.Draws.{drawn_in};
ghost use Rattle.hay_cluster.specs.Outside.{IsVoid, outside_of, read_of};
ghost use Rattle.hay_cluster.specs.State.{Holds, Stands};
ghost use Rattle.hay_cluster.specs.Store.{contents_in, disks_of, volume_disks};
ghost use Rattle.std.specs.List.{AllByRecursion, flat_map};

use crate::cluster::Cluster;
use hay_disk::{Arm, Disk, Shelf};
use hay_logical::Logical;
use hay_needle::{MAX_REPLICAS, MAX_VOLUMES};
use hay_reader::LaneSeat;

impl<D: Disk, A: Arm<D::Piece>> Cluster<D, A> {
    /// Gives the disks and arms back, with all that was stored wholly on the disks.
    pub fn close<H: Shelf<Disk = D, Arm = A>>(self, shelf: &mut H)
        requires disks_out { AreOut (disk_count self.settings) (H.disks shelf.old) }
        requires arms_out { AreArmsOut 8 (H.arms shelf.old) }
        ensures stands { D.Tells → (k : Known) →
            Holds D.files D.fault_count D.fuse_count A.fault_count self k →
            StandsOn (IsReplica self.settings) (OpensRows self.settings) self.settings k (outside_of (H.fault_count shelf.new) (H.disks shelf.new) (H.arms shelf.new)) }
        ensures disks { InOrder (λ slot disk. IsGivenDisk D.Tells D.files D.drawn D.fault_count D.fuse_count (H.disks shelf.new slot) disk) 0 (disks_of self) }
        ensures fault_counts { (slot : ℕ) → slot < disk_count self.settings → (H.disks shelf.new slot).fault_count ≡ slice_index (map D.fault_count (disks_of self)) slot }
        ensures fuse_counts { (slot : ℕ) → slot < disk_count self.settings → (H.disks shelf.new slot).fuse_count ≡ slice_index (map D.fuse_count (disks_of self)) slot }
        ensures arm_counts { (lane : ℕ) → lane < 8 → (H.arms shelf.new lane).fault_count ≡ slice_index (map A.fault_count self.arms) lane }
        ensures sure_arms { (lane : ℕ) (arm : A) → slice_get self.arms lane ≡ Some arm → (H.arms shelf.new lane).is_sure ≡ A.is_sure arm }
        ensures contents { D.Tells → (slot : ℕ) → slot < disk_count self.settings → read_of (H.disks shelf.new slot) ≡ contents_in D.files self slot }
        // Each disk of a store that stands for what is known is formatted.
        ensures formatted { D.Tells → (k : Known) → Stands D.files D.Piece.Tells D.fault_count D.fuse_count A.fault_count self k →
            (slot : ℕ) → slot < disk_count self.settings → IsVoid (read_of (H.disks shelf.new slot)) → ⊥ }
        ensures drawn { D.Tells → (slot : ℕ) → slot < disk_count self.settings → (H.disks shelf.new slot).drawn ≡ drawn_in D.drawn self slot }
        ensures disks_back { AreIn (disk_count self.settings) (H.disks shelf.new) }
        ensures arms_back { AreArmsIn 8 (H.arms shelf.new) }
        ensures other_slots { SameFrom (disk_count self.settings) (H.disks shelf.old) (H.disks shelf.new) }
        ensures other_lanes { SameFrom 8 (H.arms shelf.old) (H.arms shelf.new) }
        ensures counted { H.fault_count shelf.new ≡ H.fault_count shelf.old }
    {
        let Cluster {
            settings,
            directory,
            volumes,
            seats,
        } = self;
        give_volumes(shelf, volumes, settings.replicas);
        shelf.give_disk(0, directory.into_disk());
        give_seats(shelf, seats);
    }
}

// Gives the disks of these volumes back, from the last slot down.
fn give_volumes<H: Shelf>(shelf: &mut H, mut volumes: Vec<Logical<H::Disk>>, replicas: u32)
    requires few { length volumes.items ≤ MAX_VOLUMES }
    requires most { replicas ≤ MAX_REPLICAS }
    requires all { AllByRecursion (λ volume. length (volume_disks volume) ≡ replicas) volumes.items }
    requires out { AreOut (1 + length volumes.items * replicas) (H.disks shelf.old) }
    ensures given { InOrder (λ slot disk. IsGivenDisk H.Disk.Tells H.Disk.files H.Disk.drawn H.Disk.fault_count H.Disk.fuse_count (H.disks shelf.new slot) disk) 1
        (flat_map volume_disks volumes.items) }
    ensures below { H.disks shelf.new 0 ≡ H.disks shelf.old 0 }
    ensures others { SameFrom (1 + length volumes.items * replicas) (H.disks shelf.old) (H.disks shelf.new) }
    ensures lanes { H.arms shelf.new ≡ H.arms shelf.old }
    ensures counted { H.fault_count shelf.new ≡ H.fault_count shelf.old }
{
    while let Some(volume) = volumes.pop() {
        give_volume(shelf, volume, 1 + volumes.len() as u32 * replicas, replicas);
    }
}

// Gives the disks of a volume back, of which the first is in this slot.
fn give_volume<H: Shelf>(shelf: &mut H, mut volume: Logical<H::Disk>, first: u32, replicas: u32)
    requires few { first + replicas < 1000 }
    requires all { length volume.replicas ≡ replicas }
    requires out { AreOut (first + replicas) (H.disks shelf.old) }
    ensures given { InOrder (λ slot disk. IsGivenDisk H.Disk.Tells H.Disk.files H.Disk.drawn H.Disk.fault_count H.Disk.fuse_count (H.disks shelf.new slot) disk) first (volume_disks volume) }
    ensures below { (slot : ℕ) → slot < first → H.disks shelf.new slot ≡ H.disks shelf.old slot }
    ensures others { SameFrom (first + replicas) (H.disks shelf.old) (H.disks shelf.new) }
    ensures lanes { H.arms shelf.new ≡ H.arms shelf.old }
    ensures counted { H.fault_count shelf.new ≡ H.fault_count shelf.old }
{
    let mut slot = first + replicas;
    while let Some(disk) = volume.take() {
        slot -= 1;
        shelf.give_disk(slot, disk);
    }
}

// Gives the arms of the lanes back.
fn give_seats<H: Shelf>(shelf: &mut H, mut seats: Vec<LaneSeat<H::Arm>>)
    requires few { length seats.items < 2 ^ 32 }
    requires out { AreArmsOut (length seats.items) (H.arms shelf.old) }
    ensures given { InOrder (λ lane arm. IsGivenArm H.Arm.fault_count H.Arm.is_sure (H.arms shelf.new lane) arm) 0 seats.items }
    ensures others { SameFrom (length seats.items) (H.arms shelf.old) (H.arms shelf.new) }
    ensures slots { H.disks shelf.new ≡ H.disks shelf.old }
    ensures counted { H.fault_count shelf.new ≡ H.fault_count shelf.old }
{
    while let Some(seat) = seats.pop() {
        shelf.give_arm(seats.len() as u32, seat.into_arm());
    }
}
