//! That batches are added, and in how many calls; and what is left where one of these fails.
#![tactic(auto, using(crate::proofs::Batches::batch_of_one, crate::proofs::Batches::batch_of_two, crate::proofs::Batches::formatted_gate))]

ghost use Rattle.std.specs.Prelude.{◌≡◌, length, IfOk};
ghost use Rattle.hay_disk.specs.Gate.{IsGate};
ghost use Rattle.hay_needle.specs.Needle.{needle_magic};
ghost use Rattle.hay_memdisk.specs.MemDisk.{mem_files};

use hay_batch::{NewPhoto, append_many, settle_many};
use hay_dirfile::{DirRow, Journal};
use hay_disk::Disk;
use hay_memdisk::MemDisk;
use hay_needle::{Bytes, Cookie, FileKind, Pair, Settings, Super};
use hay_volume::{VolumeFault, VolumeFile};
use std::alloc::Global;
use std::test::Fail;

const FIRST: Pair = Pair { key: 0, alt: 1 };

const SECOND: Pair = Pair { key: 0, alt: 2 };

const SUP: Super = Super {
    settings: Settings {
        machines: 1,
        volumes: 2,
        replicas: 1,
        capacity: 4096,
        secret: [0; 32],
    },
    kind: FileKind::Volume,
    volume: 0,
    replica: 0,
    generation: 0,
};

const JOURNAL: Super = Super {
    kind: FileKind::Journal,
    ..SUP
};

const ROWS: [DirRow; 2] = [
    DirRow {
        pair: FIRST,
        volume: 0,
    },
    DirRow {
        pair: SECOND,
        volume: 0,
    },
];

// A photo of so many bytes.
fn photo(alloc: Global, pair: Pair, len: usize) -> Result<NewPhoto, Fail>
    ensures { IfOk result (λ photo. length photo.bytes ≡ len) }
{
    let mut bytes = Vec::new(alloc);
    bytes.resize(len, b'a')?;
    Ok(NewPhoto {
        pair,
        cookie: Cookie(3),
        bytes: Bytes::from_vec(bytes),
    })
}

// A disk whose file 1 is an empty volume file.
fn formatted(alloc: Global) -> Result<(MemDisk, VolumeFile), Fail>
    ensures { IfOk result (λ made. IsGate needle_magic made.1.end (mem_files made.0 made.1.file)) }
{
    let mut disk = MemDisk::new(alloc);
    let volume = VolumeFile::format(&mut disk, 1, &SUP)?;
    disk.sync(1)?;
    Ok((disk, volume))
}

// The pairs that a scan finds.
fn found(alloc: Global, disk: &mut MemDisk) -> Result<Vec<Pair>, Fail> {
    let mut pairs = Vec::new(alloc);
    let (cells, _) = VolumeFile::adopt(1, 64, 4096).scan_from(alloc, disk, 64)?;
    for cell in cells.as_slice() {
        pairs.push(cell.pair)?;
    }
    Ok(pairs)
}

#[test]
fn a_volume_takes_batches_up_to_its_last_byte(rt: HostRuntime) -> Result<(), Fail> {
    let alloc = rt.alloc();
    let (mut disk, mut volume) = formatted(alloc)?;
    let two = [photo(alloc, FIRST, 1)?, photo(alloc, SECOND, 1)?];
    assert_eq!(rt; append_many(&mut volume, alloc, &mut disk, &two)?, 64);
    assert_eq!(rt; disk.bytes(1).len(), 184);
    let last = [photo(alloc, FIRST, 3864)?];
    assert_eq!(rt; append_many(&mut volume, alloc, &mut disk, &last)?, 176);
    assert_eq!(rt; disk.bytes(1).len(), 4096);
    let pairs = found(alloc, &mut disk)?;
    assert_eq!(rt; pairs.as_slice(), [FIRST, SECOND, FIRST].as_slice());
    Ok(())
}

#[test]
fn a_volume_without_room_is_full(rt: HostRuntime) -> Result<(), Fail> {
    let alloc = rt.alloc();
    let (mut disk, mut volume) = formatted(alloc)?;
    let two = [photo(alloc, FIRST, 1)?, photo(alloc, SECOND, 1)?];
    append_many(&mut volume, alloc, &mut disk, &two)?;
    let large = [photo(alloc, FIRST, 4000)?];
    let full = VolumeFault::Full {
        end: 176,
        need: 4048,
        capacity: 4096,
    };
    assert_eq!(rt;
        append_many(&mut volume, alloc, &mut disk, &large),
        Err(full)
    );
    Ok(())
}

// What is left of two photos where so many calls pass.
fn left(alloc: Global, calls: u64, pick: u64) -> Result<(bool, usize), Fail> {
    let (mut disk, mut volume) = formatted(alloc)?;
    let two = [photo(alloc, FIRST, 1)?, photo(alloc, SECOND, 9)?];
    disk.fuse(calls);
    let stored = append_many(&mut volume, alloc, &mut disk, &two).is_ok();
    disk.power_cycle(pick);
    Ok((stored, found(alloc, &mut disk)?.len()))
}

#[test]
fn a_stop_leaves_all_cells_or_none(rt: HostRuntime) -> Result<(), Fail> {
    let alloc = rt.alloc();
    for calls in 0..3 {
        assert_eq!(rt; left(alloc, calls, 0)?, (false, 0));
        assert_eq!(rt; left(alloc, calls, 1)?, (false, 0));
    }
    assert_eq!(rt; left(alloc, 3, 0)?, (false, 0));
    assert_eq!(rt; left(alloc, 3, 1)?, (false, 2));
    for pick in 0..16 {
        for calls in 0..4 {
            let (stored, count) = left(alloc, calls, pick)?;
            assert!(rt;
                !stored && count != 1,
                "{calls} calls, pick {pick}: {count}"
            );
        }
        assert_eq!(rt; left(alloc, 4, pick)?, (true, 2));
    }
    Ok(())
}

// The rows that are left of two where so many calls pass.
fn rows_left(alloc: Global, calls: u64, pick: u64) -> Result<(bool, usize), Fail> {
    let mut disk = MemDisk::new(alloc);
    let (mut journal, _) = Journal::open(alloc, &mut disk, &JOURNAL)?;
    disk.fuse(calls);
    let settled = settle_many(&mut journal, alloc, &mut disk, &ROWS).is_ok();
    disk.power_cycle(pick);
    let (_, rows) = Journal::open(alloc, &mut disk, &JOURNAL)?;
    Ok((settled, rows.len()))
}

#[test]
fn a_stop_leaves_all_rows_or_none(rt: HostRuntime) -> Result<(), Fail> {
    let alloc = rt.alloc();
    for calls in 0..3 {
        assert_eq!(rt; rows_left(alloc, calls, 0)?, (false, 0));
        assert_eq!(rt; rows_left(alloc, calls, 1)?, (false, 0));
    }
    assert_eq!(rt; rows_left(alloc, 3, 0)?, (false, 0));
    assert_eq!(rt; rows_left(alloc, 3, 1)?, (false, 2));
    for pick in 0..16 {
        for calls in 0..4 {
            let (stored, count) = rows_left(alloc, calls, pick)?;
            assert!(rt;
                !stored && count != 1,
                "{calls} calls, pick {pick}: {count}"
            );
        }
        assert_eq!(rt; rows_left(alloc, 4, pick)?, (true, 2));
    }
    Ok(())
}

#[test]
fn rows_are_read_again_in_order(rt: HostRuntime) -> Result<(), Fail> {
    let alloc = rt.alloc();
    let mut disk = MemDisk::new(alloc);
    let (mut journal, _) = Journal::open(alloc, &mut disk, &JOURNAL)?;
    settle_many(&mut journal, alloc, &mut disk, &ROWS)?;
    let (again, rows) = Journal::open(alloc, &mut disk, &JOURNAL)?;
    assert_eq!(rt; rows.as_slice(), ROWS.as_slice());
    assert_eq!(rt; (again, again.end), (journal, 112));
    Ok(())
}
