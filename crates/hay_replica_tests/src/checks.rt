//! What a check tells of disks that the store wrote, and of the same with a byte changed or a file cut.
#![tactic(auto, using(crate::proofs::Opens::up_open))]

ghost use Rattle.std.specs.Prelude.{IfOk};
ghost use Rattle.hay_physical.specs.OpenCopies.{IsOpenCopy};

use crate::common::{FIRST, SECOND, SUP, clear};
use hay_check::{Verdict, check_journal, check_replica};
use hay_disk::{Disk, Shelf};
use hay_filedisk::FileShelf;
use hay_memdisk::MemDisk;
use hay_needle::{Cookie, FileKind, Pair, Super, write_super};
use hay_physical::Replica;
use std::alloc::Global;
use std::fs;
use std::test::Fail;

const THIRD: Pair = Pair { key: 8, alt: 1 };

const JOURNAL: Super = Super {
    kind: FileKind::Journal,
    ..SUP
};

// One row of a journal, of pair (7, 1) and volume 0, and the end mark.
const ROW: [u8; 32] = [
    0x48, 0x4f, 0x4d, 0x45, 0x52, 0x4f, 0x57, 0x31, 0, 0, 0, 0, 0, 0, 0, 7, 0, 0, 0, 1, 0, 0, 0, 0,
    0, 0, 0, 0, 0, 0, 0, 0,
];

// The row of generation 0 of a head file, and the end mark.
const HEAD_ROW: [u8; 24] = [
    0x48, 0x45, 0x41, 0x44, 0x52, 0x4f, 0x57, 0x31, 0, 0, 0, 0, 0, 0, 0, 0, 0, 0, 0, 0, 0, 0, 0, 0,
];

// A needle of version 1 with the photo `hello`, and the end mark.
const OLD_NEEDLE: [u8; 64] = [
    0x4e, 0x45, 0x45, 0x44, 0x4c, 0x45, 0x30, 0x31, 0x90, 0x3d, 0xf1, 0xa0, 0xad, 0xe0, 0xb8, 0x76,
    0, 0, 0, 0, 0, 0, 0, 0, 0, 0, 0, 1, 0, 0, 0, 0, 0, 0, 0, 5, 0x68, 0x65, 0x6c, 0x6c, 0x6f, 0x4e,
    0x45, 0x4e, 0x44, 0x2c, 0xf2, 0x4d, 0xba, 0x5f, 0xb0, 0xa3, 0x0e, 0, 0, 0, 0, 0, 0, 0, 0, 0, 0,
    0,
];

// The disk with three photos, of one, nine and one bytes, of which the first two have records.
fn stored<D: Disk>(alloc: Global, disk: D) -> Result<Replica<D>, Fail>
    requires silent { D.Tells → ⊥ }
    ensures { IfOk result IsOpenCopy }
{
    let mut replica = Replica::new(disk, SUP);
    replica.open(alloc)?;
    replica.put(alloc, FIRST, Cookie(3), b"a")?;
    replica.put(alloc, SECOND, Cookie(4), b"bbbbbbbbb")?;
    replica.flush()?;
    replica.put(alloc, THIRD, Cookie(5), b"c")?;
    Ok(replica)
}

// The verdict with one byte of a file changed.
fn with_byte<D: Disk>(
    alloc: Global,
    disk: &mut D,
    file: u32,
    at: u64,
    byte: u8,
) -> Result<Verdict, Fail>
    requires silent { D.Tells → ⊥ }
{
    let mut old = [0];
    disk.read_into(file, at, &mut old)?;
    disk.write(file, at, &[byte])?;
    let verdict = check_replica(alloc, disk, &SUP)?;
    disk.write(file, at, &old)?;
    Ok(verdict)
}

// The verdict with a file cut to so many bytes, of which there are more.
fn with_front<D: Disk>(alloc: Global, disk: &mut D, file: u32, len: usize) -> Result<Verdict, Fail>
    requires silent { D.Tells → ⊥ }
{
    let mut bytes = Vec::new(alloc);
    bytes.resize(disk.size(file)? as usize, 0)?;
    disk.read_into(file, 0, &mut bytes)?;
    disk.remove(file)?;
    disk.write(file, 0, bytes.get(..len).ok_or("a shorter file")?)?;
    let verdict = check_replica(alloc, disk, &SUP)?;
    disk.write(file, 0, &bytes)?;
    Ok(verdict)
}

#[test]
fn a_disk_that_was_not_written_is_void(rt: HostRuntime) -> Result<(), Fail> {
    let mut disk = MemDisk::new(rt.alloc());
    assert_eq!(rt; check_replica(rt.alloc(), &mut disk, &SUP)?, Verdict::Void);
    assert_eq!(rt; check_journal(&mut disk, &JOURNAL)?, Verdict::Void);
    Ok(())
}

#[test]
fn whole_disks_are_told_by_their_numbers(rt: HostRuntime) -> Result<(), Fail> {
    let alloc = rt.alloc();
    clear(&rt, alloc, "whole")?;
    let mut shelf = FileShelf::new(rt, alloc, "whole")?;
    let mut replica = Replica::new(shelf.take_disk(1)?, SUP);
    replica.open(alloc)?;
    let mut disk = replica.into_disk();
    let fresh = Verdict::Whole {
        generation: 0,
        cells: 0,
        live: 0,
        records: 0,
        end: 64,
        old: 0,
    };
    assert_eq!(rt; check_replica(alloc, &mut disk, &SUP)?, fresh);
    let mut replica = stored(alloc, disk)?;
    replica.delete(FIRST, 64)?;
    let mut disk = replica.into_disk();
    let three = Verdict::Whole {
        generation: 0,
        cells: 3,
        live: 2,
        records: 2,
        end: 240,
        old: 0,
    };
    assert_eq!(rt; check_replica(alloc, &mut disk, &SUP)?, three);
    let mut replica = Replica::new(disk, SUP);
    replica.open(alloc)?;
    replica.flush()?;
    replica.put(alloc, FIRST, Cookie(6), b"d")?;
    let mut disk = replica.into_disk();
    let four = Verdict::Whole {
        generation: 0,
        cells: 4,
        live: 3,
        records: 3,
        end: 296,
        old: 0,
    };
    assert_eq!(rt; check_replica(alloc, &mut disk, &SUP)?, four);
    shelf.give_disk(1, disk);
    fs::remove_dir_all(&rt, "whole")?;
    Ok(())
}

#[test]
fn the_first_damage_is_told(rt: HostRuntime) -> Result<(), Fail> {
    let alloc = rt.alloc();
    clear(&rt, alloc, "changed")?;
    let mut shelf = FileShelf::new(rt, alloc, "changed")?;
    let mut disk = stored(alloc, shelf.take_disk(1)?)?.into_disk();
    // The needles stand at 64, 120 and 184, the records at 80 and 112, and the head's row at 64.
    for (number, place, byte, file, at) in [
        (0, 0, 1, 0, 0),
        (0, 43, 1, 0, 40),
        (0, 79, 1, 0, 64),
        (1, 0, 1, 1, 0),
        (1, 55, 1, 1, 48),
        (1, 64, 1, 2, 80),
        (1, 79, 9, 1, 64),
        (1, 93, 9, 1, 64),
        (1, 100, b'b', 1, 64),
        (1, 220, b'b', 1, 184),
        (1, 239, 1, 1, 184),
        (2, 15, 9, 2, 12),
        (2, 79, 0, 2, 64),
        (2, 87, 9, 2, 80),
        (2, 107, 9, 2, 80),
        (2, 123, 9, 2, 112),
        (2, 127, 1, 2, 64),
    ] {
        let verdict = with_byte(alloc, &mut disk, number, place, byte)?;
        assert_eq!(rt;
            verdict,
            Verdict::Damaged { file, at },
            "byte {place} of file {number}"
        );
    }
    for (number, len, at) in [
        (0, 40, 40),
        (0, 80, 80),
        (1, 40, 40),
        (1, 100, 64),
        (1, 244, 240),
        (2, 100, 64),
        (2, 150, 144),
    ] {
        let verdict = with_front(alloc, &mut disk, number, len)?;
        assert_eq!(rt;
            verdict,
            Verdict::Damaged { file: number, at },
            "{len} bytes of file {number}"
        );
    }
    shelf.give_disk(1, disk);
    fs::remove_dir_all(&rt, "changed")?;
    Ok(())
}

// Gives a file of a disk these bytes behind the superblock of this kind.
fn set_file(
    alloc: Global,
    disk: &mut MemDisk,
    file: u32,
    kind: FileKind,
    rest: &[u8],
) -> Result<(), Fail> {
    let mut bytes = Vec::new(alloc);
    bytes.extend_from_slice(&write_super(&Super { kind, ..SUP }))?;
    bytes.extend_from_slice(rest)?;
    disk.set_bytes(file, &bytes)?;
    Ok(())
}

#[test]
fn old_needles_are_counted(rt: HostRuntime) -> Result<(), Fail> {
    let alloc = rt.alloc();
    let mut disk = MemDisk::new(alloc);
    set_file(alloc, &mut disk, 0, FileKind::Head, &HEAD_ROW)?;
    set_file(alloc, &mut disk, 1, FileKind::Volume, &OLD_NEEDLE)?;
    set_file(alloc, &mut disk, 2, FileKind::Index, &[0; 8])?;
    let old = Verdict::Whole {
        generation: 0,
        cells: 1,
        live: 1,
        records: 0,
        end: 120,
        old: 1,
    };
    assert_eq!(rt; check_replica(alloc, &mut disk, &SUP)?, old);
    Ok(())
}

// What is told of a journal with these bytes behind its superblock.
fn journal(alloc: Global, rows: &[u8]) -> Result<Verdict, Fail> {
    let mut disk = MemDisk::new(alloc);
    set_file(alloc, &mut disk, 0, FileKind::Journal, rows)?;
    Ok(check_journal(&mut disk, &JOURNAL)?)
}

#[test]
fn rows_are_counted(rt: HostRuntime) -> Result<(), Fail> {
    let alloc = rt.alloc();
    let damaged = Verdict::Damaged { file: 0, at: 64 };
    assert_eq!(rt; journal(alloc, &[0; 8])?, Verdict::Rows { rows: 0 });
    assert_eq!(rt; journal(alloc, &ROW)?, Verdict::Rows { rows: 1 });
    assert_eq!(rt; journal(alloc, &ROW[..20])?, damaged);
    assert_eq!(rt;
        journal(alloc, &ROW[..24])?,
        Verdict::Damaged { file: 0, at: 88 }
    );
    let mut other = ROW;
    other[23] = 1;
    assert_eq!(rt;
        journal(alloc, &other)?,
        damaged,
        "a volume that there is not"
    );
    Ok(())
}
