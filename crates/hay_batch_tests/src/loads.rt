//! That a store on a shelf takes batches, and what an opening finds where a disk fails.
#![tactic(auto, using(crate::proofs::Batches::batch_of_one, crate::proofs::Batches::batch_of_two, crate::proofs::SmallStores::distinct_one, crate::proofs::SmallStores::key_one))]

ghost use Rattle.std.specs.Prelude.{◌≡◌, ◌<◌, ℕ, false, length, All, IfOk, OnOk};
ghost use Rattle.hay_memdisk.specs.MemDisk.{mem_files};
ghost use Rattle.hay_memdisk.specs.MemShelf.{mem_disks};
ghost use Rattle.hay_mount.specs.Mounts.{AreOut};
ghost use Rattle.hay_batch.specs.declared.photo.NewPhoto.{NewPhoto};
ghost use Rattle.hay_batch.specs.Batches.{AreDistinct, IsBatch};
ghost use Rattle.hay_batch.specs.Stores.{IsReadyStore, IsShaped};

use hay_batch::{FullTry, LoadFault, LoadStore, Loaded, NewPhoto};
use hay_disk::Disk;
use hay_memdisk::{MemDisk, MemShelf};
use hay_needle::{Bytes, Cookie, Pair, Settings};
use std::alloc::Global;
use std::test::Fail;

const SETTINGS: Settings = Settings {
    machines: 1,
    volumes: 2,
    replicas: 1,
    capacity: 4096,
    secret: [0; 32],
};

// How many changing calls format the disk of a replica.
const FORMAT_CALLS: u64 = 8;

// A photo of so many bytes under key 0.
fn photo(alloc: Global, alt: u32, len: usize) -> Result<NewPhoto, Fail>
    ensures pair { IfOk result (λ photo. photo.pair ≡ record { key = 0; alt = alt }) }
    ensures long { IfOk result (λ photo. length photo.bytes ≡ len) }
{
    let mut bytes = Vec::new(alloc);
    bytes.resize(len, b'a')?;
    Ok(NewPhoto {
        pair: Pair { key: 0, alt },
        cookie: Cookie(3),
        bytes: Bytes::from_vec(bytes),
    })
}

// A shelf of empty disks, where so many calls of the disk in this slot pass.
fn shelf(alloc: Global, slot: u32, calls: u64) -> Result<MemShelf, Fail>
    ensures { IfOk result (λ made. (n : ℕ) → (mem_disks made n).is_out ≡ false) }
{
    let mut disk = MemDisk::new(alloc);
    disk.fuse(calls);
    let mut made = MemShelf::new(alloc);
    made.put_disk(slot, disk)?;
    Ok(made)
}

// A store of two volumes on this shelf.
fn open(alloc: Global, shelf: &mut MemShelf) -> Result<LoadStore<MemDisk>, Fail>
    requires { (n : ℕ) → (mem_disks shelf.old n).is_out ≡ false }
    ensures settings { IfOk result (λ store. store.settings ≡ SETTINGS) }
    ensures shape { IfOk result IsShaped }
    ensures ready { IfOk result (IsReadyStore mem_files) }
    ensures out { OnOk result (AreOut 3 (mem_disks shelf.new)) }
{
    match LoadStore::open(alloc, SETTINGS, shelf) {
        Ok(store) => Ok(store),
        Err(_) => Err("a store that opens".into()),
    }
}

// A store of two volumes on empty disks, where so many calls of the disk in this slot pass.
fn store(alloc: Global, slot: u32, calls: u64) -> Result<LoadStore<MemDisk>, Fail>
    ensures shape { IfOk result IsShaped }
    ensures ready { IfOk result (IsReadyStore mem_files) }
{
    let mut shelf = shelf(alloc, slot, calls)?;
    open(alloc, &mut shelf)
}

// Two photos of one byte.
fn two(alloc: Global) -> Result<[NewPhoto; 2], Fail>
    ensures batch { IfOk result IsBatch }
    ensures key { IfOk result (All (λ (photo : NewPhoto). photo.pair.key ≡ 0)) }
    ensures distinct { IfOk result AreDistinct }
{
    Ok([photo(alloc, 1, 1)?, photo(alloc, 2, 1)?])
}

#[test]
fn a_batch_is_loaded_into_the_first_volume(rt: HostRuntime) -> Result<(), Fail> {
    let alloc = rt.alloc();
    let mut store = store(alloc, 0, 100)?;
    let loaded = store.load_batch(alloc, &two(alloc)?)?;
    assert_eq!(rt; loaded, Loaded { volume: 0, rows: 2 });
    assert_eq!(rt; store.directory.disk.bytes(0).len(), 120);
    let replica = store.volumes[0].replicas.first().ok_or("a replica")?;
    assert_eq!(rt; replica.disk.bytes(1).len(), 184);
    Ok(())
}

#[test]
fn a_store_that_was_closed_has_its_batch(rt: HostRuntime) -> Result<(), Fail> {
    let alloc = rt.alloc();
    let (loaded, mut shelf) = stopped(alloc, 2, 100, 0)?;
    assert!(rt; loaded);
    assert_eq!(rt; found(alloc, &mut shelf)?, (2, 2));
    Ok(())
}

// Behind a stop of the Directory's disk the cells stand, and all rows or none: all only where the last call before its sync passed.
#[test]
fn a_stop_leaves_the_whole_batch_or_no_row(rt: HostRuntime) -> Result<(), Fail> {
    let alloc = rt.alloc();
    for pick in 0..2 {
        for calls in 0..4 {
            let (loaded, mut shelf) = stopped(alloc, 0, 2 + calls, pick)?;
            let rows = if calls == 3 && pick == 1 { 2 } else { 0 };
            assert_eq!(rt; (loaded, found(alloc, &mut shelf)?), (false, (rows, 2)));
        }
        let (loaded, mut shelf) = stopped(alloc, 0, 6, pick)?;
        assert_eq!(rt; (loaded, found(alloc, &mut shelf)?), (true, (2, 2)));
    }
    Ok(())
}

// Behind a stop of the replica's disk no row stands, and all cells or none: all only where the last call before its sync passed.
#[test]
fn a_stop_of_a_replica_leaves_no_row(rt: HostRuntime) -> Result<(), Fail> {
    let alloc = rt.alloc();
    for pick in 0..2 {
        for calls in 0..4 {
            let (loaded, mut shelf) = stopped(alloc, 1, FORMAT_CALLS + calls, pick)?;
            let cells = if calls == 3 && pick == 1 { 2 } else { 0 };
            assert_eq!(rt; (loaded, found(alloc, &mut shelf)?), (false, (0, cells)));
        }
        let (loaded, mut shelf) = stopped(alloc, 1, FORMAT_CALLS + 4, pick)?;
        assert_eq!(rt; (loaded, found(alloc, &mut shelf)?), (true, (2, 2)));
    }
    Ok(())
}

// A stop of either disk, whatever it picks, leaves no part of a batch.
#[test]
fn no_pick_leaves_a_part_of_a_batch(rt: HostRuntime) -> Result<(), Fail> {
    let alloc = rt.alloc();
    for pick in 2..8 {
        for calls in 0..4 {
            let (loaded, mut shelf) = stopped(alloc, 0, 2 + calls, pick)?;
            let (rows, cells) = found(alloc, &mut shelf)?;
            assert!(rt;
                !loaded && rows != 1 && cells == 2,
                "rows: {calls} calls, pick {pick}"
            );
            let (loaded, mut shelf) = stopped(alloc, 1, FORMAT_CALLS + calls, pick)?;
            let (rows, cells) = found(alloc, &mut shelf)?;
            assert!(rt;
                !loaded && rows == 0 && cells != 1,
                "cells: {calls} calls, pick {pick}"
            );
        }
    }
    Ok(())
}

#[test]
fn a_volume_without_room_is_passed_over(rt: HostRuntime) -> Result<(), Fail> {
    let alloc = rt.alloc();
    let mut store = store(alloc, 0, 100)?;
    let large = [photo(alloc, 3, 3900)?];
    let first = store.load_batch(alloc, &large)?;
    assert_eq!(rt; first, Loaded { volume: 0, rows: 1 });
    let second = store.load_batch(alloc, &two(alloc)?)?;
    assert_eq!(rt; second, Loaded { volume: 1, rows: 3 });
    Ok(())
}

// Stops the disk in this slot.
fn stop(shelf: &mut MemShelf, slot: u32, pick: u64) -> Result<(), Fail>
    requires { (n : ℕ) → n < 3 → (mem_disks shelf.old n).is_out ≡ false }
    ensures { (n : ℕ) → n < 3 → (mem_disks shelf.new n).is_out ≡ false }
{
    match shelf.disk_mut(slot) {
        Some(disk) => {
            disk.power_cycle(pick);
            Ok(())
        }
        None => Err("no disk".into()),
    }
}

// Whether two photos are loaded where so many calls of the disk in this slot pass, and the store after a stop of that disk.
fn stopped(alloc: Global, slot: u32, calls: u64, pick: u64) -> Result<(bool, MemShelf), Fail>
    ensures { IfOk result (λ left. (n : ℕ) → n < 3 → (mem_disks left.1 n).is_out ≡ false) }
{
    let mut shelf = shelf(alloc, slot, calls)?;
    let mut store = open(alloc, &mut shelf)?;
    let loaded = store.load_batch(alloc, &two(alloc)?).is_ok();
    store.close(&mut shelf);
    stop(&mut shelf, slot, pick)?;
    Ok((loaded, shelf))
}

// What an opening finds then: the rows, and the cells of the first volume.
fn found(alloc: Global, shelf: &mut MemShelf) -> Result<(u64, usize), Fail>
    requires { (n : ℕ) → n < 3 → (mem_disks shelf.old n).is_out ≡ false }
{
    let mut store = match LoadStore::open(alloc, SETTINGS, shelf) {
        Ok(store) => store,
        Err(_) => return Err("a store that opens again".into()),
    };
    let rows = store.directory.rows;
    let first = store.volumes.first_mut().ok_or("a volume")?;
    let replica = first.replicas.first_mut().ok_or("a replica")?;
    let (cells, _) = replica.volume.scan_from(alloc, &mut replica.disk, 64)?;
    Ok((rows, cells.len()))
}

// Why a store that has the two photos refuses a batch.
fn refused(alloc: Global, photos: &[NewPhoto]) -> Result<LoadFault, Fail>
    requires batch { IsBatch photos.now }
    requires key { All (λ (photo : NewPhoto). photo.pair.key ≡ 0) photos.now }
    requires distinct { AreDistinct photos.now }
{
    let mut store = store(alloc, 0, 100)?;
    store.load_batch(alloc, &two(alloc)?)?;
    let fault = store.load_batch(alloc, photos).err().ok_or("a refusal")?;
    Ok(fault)
}

#[test]
fn a_known_pair_is_refused(rt: HostRuntime) -> Result<(), Fail> {
    let alloc = rt.alloc();
    let again = [photo(alloc, 1, 1)?];
    let LoadFault::Known { volume } = refused(alloc, &again)? else {
        return Err("a known pair".into());
    };
    assert_eq!(rt; volume, 0);
    Ok(())
}

#[test]
fn a_batch_without_room_names_each_try(rt: HostRuntime) -> Result<(), Fail> {
    let alloc = rt.alloc();
    let large = [photo(alloc, 3, 4000)?];
    let LoadFault::Full { tries } = refused(alloc, &large)? else {
        return Err("no room".into());
    };
    let first = FullTry {
        volume: 0,
        machine: 0,
        end: 176,
        need: 4048,
    };
    let second = FullTry {
        volume: 1,
        machine: 0,
        end: 64,
        need: 4048,
    };
    assert_eq!(rt; tries.as_slice(), [first, second].as_slice());
    Ok(())
}
