//! Opening a store on a shelf, and closing it.

ghost use Rattle.std.specs.Prelude.{◌≡◌, ◌≤◌, ◌<◌, ◌+◌, ◌*◌, ℕ, true, length, IfErr, IfOk, OnErr, OnOk};
ghost use Rattle.hay_disk.specs.Counts.{Rose};
ghost use Rattle.hay_mount.specs.Mounts.{AreIn, AreOut, IsGivenDisk, SameFrom};
ghost use Rattle.hay_open.specs.declared.fault.OpenFault.{OpenFault};
ghost use Rattle.hay_open.specs.Stored.{IsSlotFile};
ghost use Rattle.hay_batch.specs.declared.fault.LoadOpenFault.{LoadOpenFault};
ghost use Rattle.hay_batch.specs.declared.replica.LoadReplica.{LoadReplica};
ghost use Rattle.hay_batch.specs.declared.store.LoadVolume.{LoadVolume};
ghost use Rattle.hay_batch.specs.Replicas.{At};
ghost use Rattle.hay_batch.specs.Shelves.{AreSoundBelow, EachDisk, IsDamagedDisk, IsLeft, IsLimited, IsUndamagedBelow, OpensSlot, OpensStore, RecallsEnd, RecallsRows, StandsAs};
ghost use Rattle.hay_batch.specs.Shelves.{StoredStore, disk_count, reads_of, replica_super, slot_of};
ghost use Rattle.hay_batch.specs.Stores.{IsReadyStore, IsShaped, ReplicaAt};

use crate::disks::open_disks;
use crate::fault::{LoadOpenFault, not_mounted};
use crate::filling::{assemble, empty_volumes};
use crate::replica::LoadReplica;
use crate::store::{LoadStore, LoadVolume};
use hay_disk::{Disk, Shelf};
use hay_mount::{give_disks, take_disks};
use hay_needle::{MAX_REPLICAS, MAX_VOLUMES, Settings};
use std::alloc::Global;

impl<D: Disk> LoadStore<D> {
    /// Opens a store on the disks of a shelf, from slot 0 upwards: void disks are formatted, and any others must be of
    /// these settings. A refusal gives the disks back.
    pub fn open<H: Shelf<Disk = D>>(
        alloc: Global,
        settings: Settings,
        shelf: &mut H,
    ) -> Result<LoadStore<D>, LoadOpenFault>
        requires limits { IsLimited settings }
        requires disks_in { AreIn (disk_count settings) (H.disks shelf.old) }

        // Disks that are void or whole are opened as what they have.
        ensures opened { D.Tells → (s : StoredStore) → OpensStore settings (reads_of (H.disks shelf.old)) s → IfOk result (λ store. StandsAs D.files store s) }
        // Nothing that it read of a disk is damaged.
        ensures sound { D.Tells → OnOk result (IsUndamagedBelow settings (disk_count settings) (reads_of (H.disks shelf.old))) }
        // Nothing that a disk had is changed but where it was void.
        ensures disks { IfOk result (EachDisk (λ slot disk. OpensSlot D.Tells slot (H.disks shelf.old slot) (D.files disk) (D.fault_count disk) (D.fuse_count disk))) }
        ensures shape { IfOk result (λ store. (store.settings ≡ settings) × IsShaped store) }
        ensures ready { D.Tells → IfOk result (IsReadyStore D.files) }
        // Whatever the disks tell, what is kept in memory is right of rows that name volumes, and of ends behind the superblocks.
        ensures homes { IfOk result (λ store. RecallsRows D.Tells settings (reads_of (H.disks shelf.old) 0 0) store.directory.homes store.directory.rows) }
        ensures ends { IfOk result (λ store. (v j : ℕ) (r : LoadReplica D) → ReplicaAt store v j r →
            RecallsEnd D.Tells (replica_super settings v j) (reads_of (H.disks shelf.old) (slot_of settings v j)) r.volume) }
        ensures out { OnOk result (AreOut (disk_count settings) (H.disks shelf.new)) }

        // What a refusal leaves, and its cause.
        ensures left { OnErr result ((slot : ℕ) → slot < disk_count settings → IsLeft D.Tells slot (H.disks shelf.old slot) (H.disks shelf.new slot)) }
        ensures back { OnErr result (AreIn (disk_count settings) (H.disks shelf.new)) }
        ensures shelf { IfErr result (λ fault. (faults : ℕ) → fault ≡ LoadOpenFault.Shelf faults →
            Rose (H.fault_count shelf.old) (H.fault_count shelf.new) × (faults ≡ H.fault_count shelf.new)) }
        ensures failed { IfErr result (λ fault. (slot faults : ℕ) → fault ≡ LoadOpenFault.Open slot (OpenFault.Failed faults) → (slot < disk_count settings)
            × Rose (H.disks shelf.old slot).fault_count (H.disks shelf.new slot).fault_count × (faults ≡ (H.disks shelf.new slot).fault_count)
            × (D.Tells → IsUndamagedBelow settings slot (reads_of (H.disks shelf.old)) × AreSoundBelow settings slot (reads_of (H.disks shelf.new)))) }
        ensures damaged { IfErr result (λ fault. (slot file at : ℕ) → fault ≡ LoadOpenFault.Open slot (OpenFault.Damaged file at) → (slot < disk_count settings) × IsSlotFile slot file
            × (D.Tells → IsDamagedDisk settings (reads_of (H.disks shelf.old)) slot file at × IsDamagedDisk settings (reads_of (H.disks shelf.new)) slot file at
            × AreSoundBelow settings slot (reads_of (H.disks shelf.new)))) }
        ensures memory { IfErr result (λ fault. (slot : ℕ) → fault ≡ LoadOpenFault.Open slot OpenFault.NoMemory → ⊥) }

        ensures others { SameFrom (disk_count settings) (H.disks shelf.old) (H.disks shelf.new) }
        ensures lanes { H.arms shelf.new ≡ H.arms shelf.old }
        ensures counted { H.fault_count shelf.old ≤ H.fault_count shelf.new }
    {
        let volumes = empty_volumes(alloc, &settings)?;
        let mut disks = match take_disks(alloc, shelf, disk_count(&settings)) {
            Ok(disks) => disks,
            Err(fault) => return Err(not_mounted(fault)),
        };
        match open_disks(alloc, &settings, disks.as_mut_slice()) {
            Ok((kept, files)) => Ok(assemble(settings, volumes, disks, kept, files)),
            Err(fault) => {
                give_disks(shelf, disks);
                Err(fault)
            }
        }
    }

    /// Gives the disks back.
    pub fn close<H: Shelf<Disk = D>>(self, shelf: &mut H)
        requires shape { IsShaped self }
        requires out { AreOut (disk_count self.settings) (H.disks shelf.old) }
        ensures given { EachDisk (λ slot disk. IsGivenDisk D.Tells D.files D.drawn D.fault_count D.fuse_count (H.disks shelf.new slot) disk) self }
        ensures back { AreIn (disk_count self.settings) (H.disks shelf.new) }
        ensures others { SameFrom (disk_count self.settings) (H.disks shelf.old) (H.disks shelf.new) }
        ensures lanes { H.arms shelf.new ≡ H.arms shelf.old }
        ensures counted { H.fault_count shelf.new ≡ H.fault_count shelf.old }
    {
        let LoadStore {
            settings,
            directory,
            volumes,
        } = self;
        give_volumes(shelf, volumes, settings.replicas);
        shelf.give_disk(0, directory.disk);
    }
}

// How many disks a store has.
fn disk_count(settings: &Settings) -> u32
    requires { IsLimited settings.now }
    ensures is { result ≡ disk_count settings.now }
    ensures few { result ≤ 257 }
{
    1 + settings.volumes * settings.replicas
}

// Gives the disks of these volumes back, from the last slot down.
fn give_volumes<H: Shelf>(shelf: &mut H, mut volumes: Vec<LoadVolume<H::Disk>>, replicas: u32)
    requires few { length volumes.items ≤ MAX_VOLUMES }
    requires most { replicas ≤ MAX_REPLICAS }
    requires all { (v : ℕ) (w : LoadVolume H.Disk) → At volumes.items v w → length w.replicas.items ≡ replicas }
    requires out { AreOut (1 + length volumes.items * replicas) (H.disks shelf.old) }
    ensures given { (v j : ℕ) (w : LoadVolume H.Disk) (r : LoadReplica H.Disk) → At volumes.items v w → At w.replicas.items j r →
        IsGivenDisk H.Disk.Tells H.Disk.files H.Disk.drawn H.Disk.fault_count H.Disk.fuse_count (H.disks shelf.new (1 + v * replicas + j)) r.disk }
    ensures below { H.disks shelf.new 0 ≡ H.disks shelf.old 0 }
    ensures others { SameFrom (1 + length volumes.items * replicas) (H.disks shelf.old) (H.disks shelf.new) }
    ensures lanes { H.arms shelf.new ≡ H.arms shelf.old }
    ensures counted { H.fault_count shelf.new ≡ H.fault_count shelf.old }
{
    while let Some(volume) = volumes.pop() {
        give_replicas(shelf, volume.replicas, 1 + volumes.len() as u32 * replicas);
    }
}

// Gives the disks of these replicas back, of which the first is in this slot.
fn give_replicas<H: Shelf>(shelf: &mut H, mut replicas: Vec<LoadReplica<H::Disk>>, first: u32)
    requires few { first + length replicas.items < 1000 }
    requires out { (slot : ℕ) → first ≤ slot → slot < first + length replicas.items → (H.disks shelf.old slot).is_out ≡ true }
    ensures given { (j : ℕ) (r : LoadReplica H.Disk) → At replicas.items j r →
        IsGivenDisk H.Disk.Tells H.Disk.files H.Disk.drawn H.Disk.fault_count H.Disk.fuse_count (H.disks shelf.new (first + j)) r.disk }
    ensures below { (slot : ℕ) → slot < first → H.disks shelf.new slot ≡ H.disks shelf.old slot }
    ensures others { SameFrom (first + length replicas.items) (H.disks shelf.old) (H.disks shelf.new) }
    ensures lanes { H.arms shelf.new ≡ H.arms shelf.old }
    ensures counted { H.fault_count shelf.new ≡ H.fault_count shelf.old }
{
    while let Some(replica) = replicas.pop() {
        shelf.give_disk(first + replicas.len() as u32, replica.disk);
    }
}
