//! Putting the replicas of a store together of its disks.

ghost use Rattle.std.specs.Prelude.{◌≡◌, ◌≤◌, ◌<◌, ◌+◌, ◌*◌, ℕ, List, [], length, drop, reverse, IfErr, IfOk};
ghost use Rattle.std.specs.Vec.{vec_capacity};
ghost use Rattle.hay_volume.specs.declared.volume.VolumeFile.{VolumeFile};
ghost use Rattle.hay_batch.specs.declared.fault.LoadOpenFault.{LoadOpenFault};
ghost use Rattle.hay_batch.specs.declared.store.LoadVolume.{LoadVolume};
ghost use Rattle.hay_batch.specs.Filling.{AreEmpty, IsEmpty, Fills, FillsAll};
ghost use Rattle.hay_batch.specs.Replicas.{At};
ghost use Rattle.hay_batch.specs.Shelves.{IsLimited, disk_count};
ghost use Rattle.hay_batch.specs.Stores.{IsShaped, ReplicaAt};

use crate::directory::LoadDirectory;
use crate::fault::LoadOpenFault;
use crate::opening::OpenJournal;
use crate::replica::LoadReplica;
use crate::store::{LoadStore, LoadVolume};
use hay_needle::Settings;
use hay_volume::VolumeFile;
use std::alloc::Global;

/// The volumes of a store, without replicas.
pub(crate) fn empty_volumes<D: Drop>(
    alloc: Global,
    settings: &Settings,
) -> Result<Vec<LoadVolume<D>>, LoadOpenFault>
    requires { IsLimited settings.now }
    ensures count { IfOk result (λ volumes. length volumes.items ≡ settings.now.volumes) }
    ensures empty { IfOk result (λ volumes. AreEmpty settings.now.replicas volumes.items) }
    ensures no_memory { IfErr result (λ fault. fault ≡ LoadOpenFault.NoMemory) }
{
    let mut volumes = Vec::with_capacity(alloc, settings.volumes as usize)?;
    for _volume in 0..settings.volumes {
        let replicas = Vec::with_capacity(alloc, settings.replicas as usize)?;
        volumes.push_reserved(LoadVolume { replicas });
    }
    Ok(volumes)
}

// Gives a volume its replicas, of the last disks and files.
fn fill_volume<D: Drop>(
    volume: &mut LoadVolume<D>,
    replicas: u32,
    disks: &mut Vec<D>,
    files: &mut Vec<VolumeFile>,
)
    requires empty { IsEmpty replicas volume.old }
    requires disks { replicas ≤ length disks.old.items }
    requires files { replicas ≤ length files.old.items }
    ensures filled { Fills replicas (reverse disks.old.items) (reverse files.old.items) 0 volume.new }
    ensures disks { reverse disks.new.items ≡ drop replicas (reverse disks.old.items) }
    ensures files { reverse files.new.items ≡ drop replicas (reverse files.old.items) }
{
    for _replica in 0..replicas {
        let (Some(disk), Some(file)) = (disks.pop(), files.pop()) else {
            unreachable!();
        };
        volume
            .replicas
            .push_reserved(LoadReplica { disk, volume: file });
    }
}

// Gives each volume its replicas, of the last disks and files.
fn fill_volumes<D: Drop>(
    volumes: &mut [LoadVolume<D>],
    replicas: u32,
    disks: &mut Vec<D>,
    files: &mut Vec<VolumeFile>,
)
    requires empty { AreEmpty replicas volumes.old }
    requires disks { length volumes.old * replicas ≤ length disks.old.items }
    requires files { length volumes.old * replicas ≤ length files.old.items }
    ensures { FillsAll replicas (reverse disks.old.items) (reverse files.old.items) volumes.new }
{
    for volume in volumes.iter_mut() {
        fill_volume(volume, replicas, disks, files);
    }
}

/// The store of these disks, of which the first is that of the Directory, and of what was kept of them.
pub(crate) fn assemble<D: Drop>(
    settings: Settings,
    mut volumes: Vec<LoadVolume<D>>,
    mut disks: Vec<D>,
    kept: OpenJournal,
    mut files: Vec<VolumeFile>,
) -> LoadStore<D>
    requires limits { IsLimited settings }
    requires many { length volumes.items ≡ settings.volumes }
    requires empty { AreEmpty settings.replicas volumes.items }
    requires disks { length disks.items ≡ disk_count settings }
    requires files { length files.items + 1 ≡ length disks.items }
    ensures settings { result.settings ≡ settings }
    ensures shape { IsShaped result }
    ensures journal { (result.directory.journal ≡ kept.journal) × (result.directory.homes ≡ kept.homes) × (result.directory.rows ≡ kept.rows) }
    ensures directory { At disks.items 0 result.directory.disk }
    ensures replicas { (v j : ℕ) (r : LoadReplica D) → ReplicaAt result v j r →
        At disks.items (v * settings.replicas + j + 1) r.disk × At files.items (v * settings.replicas + j) r.volume }
{
    disks.reverse(); // so that the lowest slot is the last
    files.reverse();
    let Some(disk) = disks.pop() else {
        unreachable!();
    };
    fill_volumes(
        volumes.as_mut_slice(),
        settings.replicas,
        &mut disks,
        &mut files,
    );
    let directory = LoadDirectory {
        disk,
        journal: kept.journal,
        homes: kept.homes,
        rows: kept.rows,
    };
    LoadStore {
        settings,
        directory,
        volumes,
    }
}
