//! Calls of one part of a store: of a volume, of the Directory.
//!
//! A volume is reached by the slice of all, which tells how much room one takes at most.
ghost use Rattle.std.specs.Prelude.{◌≡◌, ◌⊎◌, ◌≤◌, ◌<◌, ℕ, true, false, None, length, map, Err, IfOk, IfErr, OnErr, OnOk, IsErrOf};
ghost use Rattle.hay_disk.specs.Counts.{IsNext};
ghost use Rattle.hay_legal.specs.declared.known.Known.{Known};
ghost use Rattle.hay_legal.specs.Known.{NoneFalls, fuse_count, slot_of, volume_at, with_home};
ghost use Rattle.hay_legal.specs.Plain.{row_pending, with_drain, with_fuses};
ghost use Rattle.hay_logical.specs.Answers.{BreaksPutOff, DeleteRefused, IsDeleted, IsPut, PutRefused};
ghost use Rattle.hay_logical.specs.Seen.{DeleteRefusedSeen, HideSeen, PutRefusedSeen, PutSeen, SeesAt};
ghost use Rattle.hay_directory.specs.Seen.{DrainSeen, SettleRefusedSeen, SettleSeen};
ghost use Rattle.hay_directory.specs.State as directory;
ghost use Rattle.hay_cluster.specs.Causes.{EndsByFaults, IsDeleteCause, IsPutCause, IsReplicaCause, RoseIn, SetsFuse};
ghost use Rattle.hay_cluster.specs.Leaving.{AddsRow, AnySlot, DeleteKeeps, IsApart, IsBeside, IsReplicaSlot, KeepsIn, LeavesIn, PutKeeps, WorkKeeps};
ghost use Rattle.hay_cluster.specs.Maintenance.{HasSwapped, IsDone, IsRefused, MayWantMemory};
ghost use Rattle.hay_cluster.specs.Needles.{AreToldAs, DeletesAsTold, FileAt, FreezesAt, IsDamagedLookOn, LacksWork, LeadsPart, LeadsSwap, LeadsWork};
ghost use Rattle.hay_cluster.specs.Parts.{Comes, InVolume};
ghost use Rattle.hay_cluster.specs.Puts.{TakesPhoto};
ghost use Rattle.hay_cluster.specs.Seen.{Keeps, MovesDirectory, MovesVolume, WorkRefusedSeen, VolumeAt, WorkSeen, store_seen};
ghost use Rattle.hay_logical.specs.Sights.{DeleteRefusedSights, DeletesSights, StoresSights};
ghost use Rattle.hay_cluster.specs.Sights.{ChangesPhotos, DoneSights, KeepsPhotos};
ghost use Rattle.hay_cluster.specs.State.{Stands};
ghost use Rattle.hay_cluster.specs.Store.{IsUp, contents_in, disks_of};

use crate::cluster::Cluster;
use crate::maintenance::{Maintenance, maintain};
use hay_core::CoreTag;
use hay_directory::DirFault;
use hay_disk::{Arm, Disk};
use hay_logical::LogicalFault;
use hay_needle::{Cookie, MAX_PHOTO, Pair};
use std::alloc::Global;

impl<D: Disk, A: Arm<D::Piece>> Cluster<D, A> {
    /// Stores a photo in a volume, and answers the position of the change there.
    pub(crate) fn put_in(
        &mut self,
        alloc: Global,
        tag: CoreTag,
        pair: Pair,
        cookie: Cookie,
        bytes: &[u8],
        volume: u32,
    ) -> Result<u64, LogicalFault>
        requires volume { volume < self.old.settings.volumes }
        requires size { length bytes.now ≤ MAX_PHOTO }
        requires up { IsUp self.old }
        ensures moves { D.Tells → (k : Known) → Stands D.files D.Piece.Tells D.fault_count D.fuse_count A.fault_count self.old k →
            InVolume D.files D.Piece.Tells D.fault_count D.fuse_count A.fault_count k volume self.old self.new (λ before after.
            IfOk result (λ position. IsPut D.files D.Piece.Tells (volume_at k volume) tag pair cookie bytes.now position after)
            × IfErr result (PutRefused D.files D.Piece.Tells (volume_at k volume) tag pair cookie bytes.now before after)) }
        ensures causes { IfErr result (IsPutCause self.old.settings volume (map D.fault_count (disks_of self.old)) (map D.fault_count (disks_of self.new))) }
        ensures counts { NoneFalls (map D.fault_count (disks_of self.old)) (map D.fault_count (disks_of self.new)) }
        ensures fuses { map D.fuse_count (disks_of self.new) ≡ map D.fuse_count (disks_of self.old) }
        ensures beside { LeavesIn (IsBeside self.old.settings volume) (disks_of self.old) (disks_of self.new) }
        ensures kept { D.Tells → IfErr result (PutKeeps self.old.settings volume (store_seen self.old).volumes (store_seen self.new).volumes (contents_in D.files self.old)
            (contents_in D.files self.new)) }
        ensures takes { TakesPhoto self.old volume (length bytes.now) → IfErr result BreaksPutOff }
        ensures arms { self.new.arms ≡ self.old.arms }
        ensures seen { IfOk result (λ position. MovesVolume volume (PutSeen (length bytes.now) position) (store_seen self.old) (store_seen self.new)) }
        ensures refused_seen { IfErr result (λ fault. MovesVolume volume
            (λ before after. PutRefusedSeen self.old.settings volume tag (length bytes.now) before after fault) (store_seen self.old) (store_seen self.new)) }
        ensures sights { OnOk result (VolumeAt volume (λ seen. ChangesPhotos volume (StoresSights pair seen.replicas) (store_seen self.old) (store_seen self.new)) (store_seen self.old)) }
        ensures refused_sights { OnErr result (KeepsPhotos (store_seen self.old) (store_seen self.new)) }
        ensures settings { self.new.settings ≡ self.old.settings }
        ensures up { IsUp self.new }
    {
        self.volumes.as_mut_slice()[volume as usize].put(alloc, tag, pair, cookie, bytes)
    }

    /// Deletes a pair's photo from a volume, and answers the position of the change there. What it has to look at first is read
    /// into `out`.
    pub(crate) fn delete_in(
        &mut self,
        tag: CoreTag,
        pair: Pair,
        volume: u32,
        out: &mut Vec<u8>,
    ) -> Result<u64, LogicalFault>
        requires volume { volume < self.old.settings.volumes }
        requires up { IsUp self.old }
        ensures moves { D.Tells → (k : Known) → Stands D.files D.Piece.Tells D.fault_count D.fuse_count A.fault_count self.old k →
            InVolume D.files D.Piece.Tells D.fault_count D.fuse_count A.fault_count k volume self.old self.new (λ before after.
            IfOk result (λ position. IsDeleted D.files D.fault_count D.Piece.Tells (volume_at k volume) tag pair position before after)
            × IfErr result (DeleteRefused D.files D.Piece.Tells (volume_at k volume) tag pair after)) }
        ensures causes { IfErr result (IsDeleteCause self.old.settings volume (map D.fault_count (disks_of self.old)) (map D.fault_count (disks_of self.new))) }
        ensures counts { NoneFalls (map D.fault_count (disks_of self.old)) (map D.fault_count (disks_of self.new)) }
        ensures fuses { map D.fuse_count (disks_of self.new) ≡ map D.fuse_count (disks_of self.old) }
        ensures beside { LeavesIn (IsBeside self.old.settings volume) (disks_of self.old) (disks_of self.new) }
        ensures kept { D.Tells → IfErr result (DeleteKeeps self.old.settings volume (store_seen self.old).volumes (store_seen self.new).volumes (contents_in D.files self.old)
            (contents_in D.files self.new)) }
        ensures arms { self.new.arms ≡ self.old.arms }
        ensures seen { IfOk result (λ position. MovesVolume volume (HideSeen position) (store_seen self.old) (store_seen self.new)) }
        ensures refused_seen { IfErr result (λ fault. MovesVolume volume (λ before after. DeleteRefusedSeen tag pair before after fault) (store_seen self.old) (store_seen self.new)) }
        ensures sights { OnOk result (ChangesPhotos volume (DeletesSights pair self.old.settings.replicas) (store_seen self.old) (store_seen self.new)) }
        ensures damaged { D.Tells → (m place : ℕ) → result ≡ Err (LogicalFault.Damaged m place) →
            IsDamagedLookOn self.old.settings (contents_in D.files self.old) (store_seen self.old) volume pair m place }
        ensures told { D.Tells → OnOk result (DeletesAsTold self.old.settings (contents_in D.files self.old) (store_seen self.old) volume pair ((store_seen self.new).places volume)) }
        ensures refused_told { D.Tells → OnErr result (AreToldAs self.old.settings (contents_in D.files self.old) (store_seen self.old) volume pair ((store_seen self.new).places volume)) }
        ensures refused_sights { IfErr result (λ fault. VolumeAt volume
            (λ seen. ChangesPhotos volume (λ before after. DeleteRefusedSights self.old.settings volume pair seen.frozen before after fault) (store_seen self.old)
            (store_seen self.new)) (store_seen self.new)) }
        ensures ended { OnOk result (EndsByFaults self.old.settings volume (store_seen self.old) (store_seen self.new) (map D.fault_count (disks_of self.old))
            (map D.fault_count (disks_of self.new))) }
        ensures settings { self.new.settings ≡ self.old.settings }
        ensures up { IsUp self.new }
    {
        self.volumes.as_mut_slice()[volume as usize].delete(tag, pair, out)
    }

    /// Does maintenance work on a replica of a volume, and answers its number.
    pub(crate) fn maintain_in(
        &mut self,
        alloc: Global,
        volume: u32,
        replica: u32,
        work: Maintenance,
    ) -> Result<u64, LogicalFault>
        requires volume { volume < self.old.settings.volumes }
        requires replica { replica < self.old.settings.replicas }
        requires up { IsUp self.old }
        ensures moves { D.Tells → (k : Known) → Stands D.files D.Piece.Tells D.fault_count D.fuse_count A.fault_count self.old k →
            InVolume D.files D.Piece.Tells D.fault_count D.fuse_count A.fault_count k volume self.old self.new (λ before after.
            IfOk result (λ number. IsDone D.files D.Piece.Tells work (volume_at k volume) replica number after)
            × IfErr result (IsRefused D.files D.Piece.Tells work (volume_at k volume) replica before after)) }
        ensures causes { IfErr result (IsReplicaCause self.old.settings work volume replica (map D.fault_count (disks_of self.old)) (map D.fault_count (disks_of self.new))) }
        ensures counts { NoneFalls (map D.fault_count (disks_of self.old)) (map D.fault_count (disks_of self.new)) }
        ensures fuses { map D.fuse_count (disks_of self.new) ≡ map D.fuse_count (disks_of self.old) }
        ensures others { LeavesIn (IsApart self.old.settings volume replica) (disks_of self.old) (disks_of self.new) }
        ensures arms { self.new.arms ≡ self.old.arms }
        ensures seen { IfOk result (λ number. MovesVolume volume (WorkSeen work replica number) (store_seen self.old) (store_seen self.new)) }
        ensures refused_seen { IfErr result (λ fault. MovesVolume volume (WorkRefusedSeen self.old.settings work volume replica fault) (store_seen self.old) (store_seen self.new)) }
        ensures kept { D.Tells → IfErr result (WorkKeeps self.old.settings (contents_in D.files self.old) (contents_in D.files self.new)) }
        ensures damaged { D.Tells → (m place : ℕ) → result ≡ Err (LogicalFault.Damaged m place) →
            FileAt self.old.settings (contents_in D.files self.old) (store_seen self.old) volume replica (LacksWork ((store_seen self.old).places volume) replica work place) }
        ensures lead { D.Tells → IfOk result (λ number. FileAt self.old.settings (contents_in D.files self.old) (store_seen self.old) volume replica
            (λ r file. VolumeAt volume (SeesAt replica (λ r'. LeadsWork ((store_seen self.old).places volume) replica work number r r' file)) (store_seen self.new))) }
        ensures part { D.Tells → IfErr result (λ fault. MayWantMemory fault → FileAt self.old.settings (contents_in D.files self.old) (store_seen self.old) volume replica
            (λ r file. VolumeAt volume (SeesAt replica (λ r'. LeadsPart ((store_seen self.old).places volume) replica work r r' file)) (store_seen self.new))) }
        ensures froze { D.Tells → FreezesAt volume (store_seen self.old) (store_seen self.new) →
            FileAt self.old.settings (contents_in D.files self.old) (store_seen self.old) volume replica (LeadsSwap ((store_seen self.old).places volume) replica work) }
        ensures head_file { D.Tells → VolumeAt volume (λ seen. seen.frozen ≡ None) (store_seen self.new) → HasSwapped work result
            ⊎ (contents_in D.files self.new (slot_of self.old.settings volume replica) 0 ≡ contents_in D.files self.old (slot_of self.old.settings volume replica) 0) }
        ensures sights { OnOk result (VolumeAt volume (λ seen. ChangesPhotos volume (DoneSights work replica seen) (store_seen self.old) (store_seen self.new)) (store_seen self.new)) }
        ensures refused_sights { OnErr result (KeepsPhotos (store_seen self.old) (store_seen self.new)) }
        ensures settings { self.new.settings ≡ self.old.settings }
        ensures up { IsUp self.new }
    {
        maintain(
            &mut self.volumes.as_mut_slice()[volume as usize],
            alloc,
            replica,
            work,
        )
    }

    /// Sets a fuse on the disk of a replica of a volume.
    pub(crate) fn fuse_in(&mut self, volume: u32, replica: u32, calls: u32)
        requires volume { volume < self.old.settings.volumes }
        requires replica { replica < self.old.settings.replicas }
        requires up { IsUp self.old }
        ensures fused { D.Tells → (k : Known) → Stands D.files D.Piece.Tells D.fault_count D.fuse_count A.fault_count self.old k →
            (n : ℕ) × IsNext (fuse_count k (slot_of self.old.settings volume replica)) n
            × Comes D.files D.Piece.Tells D.fault_count D.fuse_count A.fault_count k (with_fuses k (slot_of self.old.settings volume replica) n) self.new }
        ensures counts { NoneFalls (map D.fault_count (disks_of self.old)) (map D.fault_count (disks_of self.new)) }
        ensures fuses { SetsFuse (slot_of self.old.settings volume replica) (map D.fuse_count (disks_of self.old)) (map D.fuse_count (disks_of self.new)) }
        ensures contents { D.Tells → KeepsIn self.old.settings AnySlot (contents_in D.files self.old) (contents_in D.files self.new) }
        ensures arms { self.new.arms ≡ self.old.arms }
        ensures seen { Keeps (store_seen self.old) (store_seen self.new) }
        ensures sights { KeepsPhotos (store_seen self.old) (store_seen self.new) }
        ensures settings { self.new.settings ≡ self.old.settings }
        ensures up { IsUp self.new }
    {
        self.volumes.as_mut_slice()[volume as usize].fuse(replica, calls);
    }

    /// Gives a pair, which has no home, one.
    pub(crate) fn settle(&mut self, tag: CoreTag, pair: Pair, volume: u32) -> Result<(), DirFault>
        requires volume { volume < self.old.settings.volumes }
        requires homeless { directory.home_of self.old.directory pair ≡ None }
        requires up { IsUp self.old }
        ensures settled { D.Tells → (k : Known) → Stands D.files D.Piece.Tells D.fault_count D.fuse_count A.fault_count self.old k →
            OnOk result (Comes D.files D.Piece.Tells D.fault_count D.fuse_count A.fault_count k (with_home k pair volume) self.new) }
        ensures no_memory { D.Tells → (k : Known) → Stands D.files D.Piece.Tells D.fault_count D.fuse_count A.fault_count self.old k →
            IsErrOf result DirFault.NoMemory → Comes D.files D.Piece.Tells D.fault_count D.fuse_count A.fault_count k k self.new }
        ensures pending { D.Tells → (k : Known) (faults : ℕ) → Stands D.files D.Piece.Tells D.fault_count D.fuse_count A.fault_count self.old k →
            result ≡ Err (DirFault.Failed faults) → Comes D.files D.Piece.Tells D.fault_count D.fuse_count A.fault_count k (row_pending k tag pair volume) self.new }
        ensures thawed { D.Tells → (k : Known) → Stands D.files D.Piece.Tells D.fault_count D.fuse_count A.fault_count self.old k → (IsErrOf result DirFault.Frozen → ⊥) → k.directory.frozen ≡ false }
        ensures frozen { D.Tells → (k : Known) → Stands D.files D.Piece.Tells D.fault_count D.fuse_count A.fault_count self.old k → IsErrOf result DirFault.Frozen
            → (k.directory.frozen ≡ true) × (self.new ≡ self.old) }
        ensures causes { (faults : ℕ) → result ≡ Err (DirFault.Failed faults) → RoseIn 0 (map D.fault_count (disks_of self.old)) (map D.fault_count (disks_of self.new)) faults }
        ensures counts { NoneFalls (map D.fault_count (disks_of self.old)) (map D.fault_count (disks_of self.new)) }
        ensures fuses { map D.fuse_count (disks_of self.new) ≡ map D.fuse_count (disks_of self.old) }
        ensures replicas { LeavesIn IsReplicaSlot (disks_of self.old) (disks_of self.new) }
        ensures refused_frozen { IsErrOf result DirFault.Frozen → disks_of self.new ≡ disks_of self.old }
        ensures volumes { self.new.volumes ≡ self.old.volumes }
        ensures arms { self.new.arms ≡ self.old.arms }
        ensures rows { D.Tells → AddsRow self.old.settings pair (contents_in D.files self.old 0) (contents_in D.files self.new 0) }
        ensures seen { OnOk result (MovesDirectory (SettleSeen pair volume) (store_seen self.old) (store_seen self.new)) }
        ensures refused_seen { IfErr result (λ fault. MovesDirectory (λ before after. SettleRefusedSeen tag pair volume before after fault) (store_seen self.old) (store_seen self.new)) }
        ensures settings { self.new.settings ≡ self.old.settings }
        ensures up { IsUp self.new }
    {
        self.directory.settle(tag, pair, volume)
    }

    /// Drains a machine, or no longer.
    pub(crate) fn set_drained(&mut self, machine: u32, is_drained: bool)
        requires machine { machine < self.old.settings.machines }
        requires up { IsUp self.old }
        ensures set { D.Tells → (k : Known) → Stands D.files D.Piece.Tells D.fault_count D.fuse_count A.fault_count self.old k
            → Comes D.files D.Piece.Tells D.fault_count D.fuse_count A.fault_count k (with_drain k machine is_drained) self.new }
        ensures counts { NoneFalls (map D.fault_count (disks_of self.old)) (map D.fault_count (disks_of self.new)) }
        ensures fuses { map D.fuse_count (disks_of self.new) ≡ map D.fuse_count (disks_of self.old) }
        ensures disks { disks_of self.new ≡ disks_of self.old }
        ensures arms { self.new.arms ≡ self.old.arms }
        ensures seen { MovesDirectory (DrainSeen machine is_drained) (store_seen self.old) (store_seen self.new) }
        ensures sights { KeepsPhotos (store_seen self.old) (store_seen self.new) }
        ensures settings { self.new.settings ≡ self.old.settings }
        ensures up { IsUp self.new }
    {
        if is_drained {
            self.directory.drain(machine);
        } else {
            self.directory.undrain(machine);
        }
    }

    /// Sets a fuse on the Directory's disk.
    pub(crate) fn fuse_directory(&mut self, calls: u32)
        requires up { IsUp self.old }
        ensures fused { D.Tells → (k : Known) → Stands D.files D.Piece.Tells D.fault_count D.fuse_count A.fault_count self.old k →
            (n : ℕ) × IsNext (fuse_count k 0) n × Comes D.files D.Piece.Tells D.fault_count D.fuse_count A.fault_count k (with_fuses k 0 n) self.new }
        ensures counts { NoneFalls (map D.fault_count (disks_of self.old)) (map D.fault_count (disks_of self.new)) }
        ensures fuses { SetsFuse 0 (map D.fuse_count (disks_of self.old)) (map D.fuse_count (disks_of self.new)) }
        ensures contents { D.Tells → KeepsIn self.old.settings AnySlot (contents_in D.files self.old) (contents_in D.files self.new) }
        ensures arms { self.new.arms ≡ self.old.arms }
        ensures seen { Keeps (store_seen self.old) (store_seen self.new) }
        ensures sights { KeepsPhotos (store_seen self.old) (store_seen self.new) }
        ensures settings { self.new.settings ≡ self.old.settings }
        ensures up { IsUp self.new }
    {
        self.directory.fuse(calls);
    }
}
