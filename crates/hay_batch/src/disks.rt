//! Opening the disks of a store in place, by slot.

ghost use Rattle.std.specs.Prelude.{◌≡◌, ◌≤◌, ◌<◌, ◌+◌, ℕ, length, IfErr, IfOk};
ghost use Rattle.hay_batch.specs.Replicas.{At};
ghost use Rattle.hay_batch.specs.Shelves.{IsLimited, disk_count, place_super};
ghost use Rattle.hay_batch.specs.Slots.{IsAtRest, MovesDisks, MovesFiles, OpensDisks, OpensFiles, RefusesDisks, RefusesFiles};

use crate::fault::{LoadOpenFault, not_opened, of_journal};
use crate::opening::{OpenJournal, open_file, open_journal};
use hay_disk::Disk;
use hay_needle::{FileKind, Settings, Super};
use hay_volume::VolumeFile;
use std::alloc::Global;

// What the opening of a replica is given, by its number among all.
fn super_at(settings: &Settings, place: u32) -> Super
    requires { 0 < settings.now.replicas }
    ensures { result ≡ place_super settings.now place }
{
    let replicas = settings.replicas;
    Super {
        settings: *settings,
        kind: FileKind::Volume,
        volume: place / replicas,
        replica: place % replicas,
        generation: 0,
    }
}

// Opens the disks behind the first, which are those of the replicas, and answers their volume files.
fn open_files<D: Disk>(
    alloc: Global,
    settings: &Settings,
    disks: &mut [D],
) -> Result<Vec<VolumeFile>, LoadOpenFault>
    requires replicas { 0 < settings.now.replicas }
    requires some { 0 < length disks.old }
    requires few { length disks.old ≤ 257 }
    requires rests { (place : ℕ) (d : D) → At disks.old (place + 1) d → IsAtRest D.Tells D.files d }
    ensures opened { IfOk result (λ files. OpensFiles D.Tells D.files D.fault_count D.fuse_count settings.now disks.old disks.new files.items) }
    ensures refused { IfErr result (RefusesFiles D.Tells D.files D.fault_count D.fuse_count settings.now disks.old disks.new) }
    ensures moves { MovesFiles D.Tells D.files D.fault_count D.fuse_count disks.old disks.new }
{
    let mut files = Vec::with_capacity(alloc, disks.len())?;
    for slot in 1..disks.len() {
        let sup = super_at(settings, slot as u32 - 1);
        match open_file(alloc, &mut disks[slot], &sup) {
            Ok(file) => files.push_reserved(file),
            Err(fault) => return Err(not_opened(slot as u32, fault)),
        }
    }
    Ok(files)
}

/// Opens all disks of a store, of which the first is that of the Directory, and answers what is kept of its journal, and the
/// volume files of the others.
pub(crate) fn open_disks<D: Disk>(
    alloc: Global,
    settings: &Settings,
    disks: &mut [D],
) -> Result<(OpenJournal, Vec<VolumeFile>), LoadOpenFault>
    requires limits { IsLimited settings.now }
    requires count { length disks.old ≡ disk_count settings.now }
    requires rests { (slot : ℕ) (d : D) → At disks.old slot d → IsAtRest D.Tells D.files d }
    ensures opened { IfOk result (λ opened. OpensDisks D.Tells D.files D.fault_count D.fuse_count settings.now disks.old disks.new opened.0 opened.1.items) }
    ensures refused { IfErr result (RefusesDisks D.Tells D.files D.fault_count D.fuse_count settings.now disks.old disks.new) }
    ensures moves { MovesDisks D.Tells D.files D.fault_count D.fuse_count disks.old disks.new }
{
    let kept = match open_journal(alloc, &mut disks[0], settings) {
        Ok(kept) => kept,
        Err(fault) => return Err(not_opened(0, of_journal(fault))),
    };
    let files = open_files(alloc, settings, disks)?;
    Ok((kept, files))
}
