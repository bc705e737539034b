//! What no clause says: that files keep what was written, when the system fails a call, and how many files are open.
//!
//! No test here makes the system fail a sync. What is written again behind one is told by `Unsynced`, which is tested
//! by itself.
#![tactic(auto, unfolding(hay_filedisk::specs::Shelf::file_disks, hay_filedisk::specs::Shelf::file_arms))]

ghost use Rattle.std.specs.Prelude.{◌≡◌, IfOk};

use hay_disk::{Arm, Disk, DiskFault, Failed, Piece, Shelf, ShelfFault};
use hay_filedisk::{FileDisk, FilePiece, FileShelf, System, Unsynced};
use std::alloc::Global;
use std::fs;
use std::fs::Files;
use std::io::ErrorKind;
use std::os::unix::fs::PermissionsExt;
use std::test::Fail;

// No folder of an earlier run.
fn clear(files: &impl Files, alloc: Global, folder: &str) -> Result<(), Fail> {
    match files.remove_dir_all(alloc, folder) {
        Err(error) if error.kind() != ErrorKind::NotFound => Err(error.into()),
        _ => Ok(()),
    }
}

#[test]
fn files_outlive_a_shelf(rt: HostRuntime) -> Result<(), Fail> {
    let alloc = rt.alloc();
    clear(&rt, alloc, "kept")?;
    let mut shelf = FileShelf::new(rt, alloc, "kept")?;
    let mut disk = shelf.take_disk(3)?;
    assert_eq!(rt; disk.size(1), Ok(0));
    disk.write(1, 0, b"hello world")?;
    disk.write(1, 6, b"store and more")?;
    disk.write(12, 0, b"twelve")?;
    disk.sync(1)?;
    disk.fuse(0);
    disk.sync(12)?;
    disk.power_cycle(0);
    assert_eq!(rt; disk.size(1), Ok(20));
    drop((disk, shelf));

    let mut shelf = FileShelf::new(rt, alloc, "kept")?;
    let mut disk = shelf.take_disk(3)?;
    let mut out = [0; 8];
    assert_eq!(rt; disk.read_into(1, 4, &mut out), Ok(8));
    assert_eq!(rt; &out, b"o store ");
    assert_eq!(rt; disk.read_into(1, 18, &mut out), Ok(2));
    assert_eq!(rt; &out, b"restore ");
    assert_eq!(rt; disk.read_into(1, 30, &mut out), Ok(0));
    assert_eq!(rt; disk.read_into(1, u64::MAX, &mut out), Ok(0));
    assert_eq!(rt; disk.read_into(2, 0, &mut out), Ok(0));
    assert_eq!(rt; disk.size(12), Ok(6));
    assert_eq!(rt; disk.faults(), 0);
    assert_eq!(rt;
        fs::read(&rt, "kept/3-1")?.as_slice(),
        b"hello store and more".as_slice()
    );
    shelf.give_disk(3, disk);
    fs::remove_dir_all(&rt, "kept")?;
    Ok(())
}

#[test]
fn a_disk_that_is_out_is_refused(rt: HostRuntime) -> Result<(), Fail> {
    let alloc = rt.alloc();
    clear(&rt, alloc, "locked")?;
    let mut first = FileShelf::new(rt, alloc, "locked")?;
    let mut second = FileShelf::new(rt, alloc, "locked")?;
    let disk = first.take_disk(1)?;
    let Err(fault) = second.take_disk(1) else {
        return Err(Failed.into());
    };
    assert_eq!(rt; (fault, second.faults()), (ShelfFault::Failed, 1));
    let other = second.take_disk(0)?;
    first.give_disk(1, disk);
    let disk = second.take_disk(1)?;
    assert_eq!(rt; second.faults(), 1);
    second.give_disk(0, other);
    second.give_disk(1, disk);
    fs::remove_dir_all(&rt, "locked")?;

    let mut nowhere = FileShelf::new(rt, alloc, "locked/deep")?;
    let Err(fault) = nowhere.take_disk(1) else {
        return Err(Failed.into());
    };
    assert_eq!(rt; (fault, nowhere.faults()), (ShelfFault::Failed, 1));
    Ok(())
}

// A piece of a file that was removed, and a piece past the end of the file that was made in its place.
fn pieces<R: System>(disk: &mut FileDisk<R>) -> Result<(FilePiece, FilePiece), Fail>
    ensures { IfOk result (λ pieces. (pieces.0.len ≡ 4) × (pieces.1.len ≡ 4)) }
{
    disk.write(5, 0, b"abcdefgh")?;
    disk.sync(5)?;
    let piece = disk.seal(5, 2, 4, 1)?;
    disk.write(5, 3, b"x")?;
    disk.remove(5)?;
    disk.remove(5)?;
    disk.sync(5)?;
    if disk.size(5)? != 0 {
        return Err(Failed.into());
    }
    disk.write(5, 0, b"ABCDEFGH")?;
    disk.power_cycle(0);
    let later = disk.seal(5, 6, 4, 0)?;
    Ok((piece.dup(), later))
}

#[test]
fn a_piece_outlives_its_file(rt: HostRuntime) -> Result<(), Fail> {
    let alloc = rt.alloc();
    clear(&rt, alloc, "pieces")?;
    let mut shelf = FileShelf::new(rt, alloc, "pieces")?;
    let mut arm = shelf.take_arm(0)?;
    let mut disk = shelf.take_disk(1)?;
    let (piece, later) = pieces(&mut disk)?;
    shelf.give_disk(1, disk);
    let mut out = [0; 4];
    assert_eq!(rt; arm.fetch(&piece, &mut out), Ok(4));
    assert_eq!(rt; &out, b"cxef");
    assert_eq!(rt; arm.fetch(&later, &mut out), Ok(2));
    assert_eq!(rt; &out, b"GHef");
    assert_eq!(rt; (piece.len(), piece.hole(), arm.faults()), (4, 1, 0));
    fs::remove_dir_all(&rt, "pieces")?;
    Ok(())
}

#[test]
fn calls_that_the_system_fails_are_counted(rt: HostRuntime) -> Result<(), Fail> {
    let alloc = rt.alloc();
    clear(&rt, alloc, "failing")?;
    let mut shelf = FileShelf::new(rt, alloc, "failing")?;
    let mut disk = shelf.take_disk(1)?;
    fs::create_dir(&rt, "failing/1-9")?;
    let mut out = [0; 4];
    assert_eq!(rt; disk.size(9), Err(Failed));
    assert_eq!(rt; disk.read_into(9, 0, &mut out), Err(Failed));
    assert_eq!(rt; disk.write(9, 0, b"a"), Err(DiskFault::Failed));
    assert_eq!(rt; disk.sync(9), Err(Failed));
    assert_eq!(rt; disk.remove(9), Err(Failed));
    assert!(rt; matches!(disk.seal(9, 0, 4, 0), Err(DiskFault::Failed)));
    assert!(rt; matches!(disk.seal(8, 0, 4, 0), Err(DiskFault::Failed)));
    assert_eq!(rt; disk.write(8, u64::MAX, b"a"), Err(DiskFault::Failed));
    assert_eq!(rt; disk.faults(), 8);

    // What was not synced since a power cycle fails each call.
    disk.power_cycle(0);
    assert_eq!(rt; disk.size(8), Err(Failed));
    assert_eq!(rt; disk.faults(), 9);
    fs::remove_dir(&rt, "failing/1-9")?;
    assert_eq!(rt; disk.size(8), Ok(0));
    shelf.give_disk(1, disk);
    let disk = shelf.take_disk(1)?;
    assert_eq!(rt; disk.faults(), 9);
    shelf.give_disk(1, disk);
    fs::remove_dir_all(&rt, "failing")?;
    Ok(())
}

// How many files this process has open whose paths have this part, those among them that were taken away.
fn open_files<R: System>(rt: &R, part: &str) -> Result<u32, Fail> {
    let mut count: u32 = 0;
    for entry in fs::read_dir(rt, "/proc/self/fd")? {
        let link = fs::read_link(rt, entry?.path());
        if link.is_ok_and(|path| path.as_str().contains(part)) {
            count = count.saturating_add(1);
        }
    }
    Ok(count)
}

// Writes three files, and syncs them behind each other.
fn write_three<R: System>(disk: &mut FileDisk<R>) -> Result<(), Fail> {
    disk.write(0, 0, b"head")?;
    disk.write(1, 0, b"volume")?;
    disk.write(2, 0, b"index")?;
    Ok(())
}

#[test]
fn two_files_are_open_for_good(rt: HostRuntime) -> Result<(), Fail> {
    let alloc = rt.alloc();
    clear(&rt, alloc, "few")?;
    let mut shelf = FileShelf::new(rt, alloc, "few")?;
    let mut disk = shelf.take_disk(7)?;
    assert_eq!(rt; open_files(&rt, "/few/7")?, 1);

    // What is not synced stays open.
    write_three(&mut disk)?;
    assert_eq!(rt; open_files(&rt, "/few/7")?, 4);
    disk.sync(0)?;
    disk.sync(1)?;
    assert_eq!(rt; open_files(&rt, "/few/7")?, 3);
    disk.sync(2)?;
    assert_eq!(rt; open_files(&rt, "/few/7")?, 2);

    // The file that was read last stays open, until a file has pieces.
    let mut out = [0; 4];
    assert_eq!(rt; disk.read_into(0, 0, &mut out), Ok(4));
    assert_eq!(rt; open_files(&rt, "/few/7-0")?, 1);
    assert_eq!(rt; open_files(&rt, "/few/7")?, 2);
    let piece = disk.seal(1, 0, 6, 0)?;
    let other = disk.seal(1, 2, 4, 0)?;
    assert_eq!(rt; disk.size(2), Ok(5));
    assert_eq!(rt; open_files(&rt, "/few/7-1")?, 1);
    assert_eq!(rt; open_files(&rt, "/few/7")?, 2);

    // A file that was taken away is open while it has pieces.
    disk.remove(1)?;
    drop(piece);
    assert_eq!(rt; open_files(&rt, "/few/7-1")?, 1);
    drop(other);
    assert_eq!(rt; open_files(&rt, "/few/7-1")?, 0);
    disk.power_cycle(0);
    assert_eq!(rt; open_files(&rt, "/few/7")?, 1);
    assert_eq!(rt;
        (disk.size(1), disk.size(2), disk.faults()),
        (Ok(0), Ok(5), 0)
    );
    shelf.give_disk(7, disk);
    fs::remove_dir_all(&rt, "few")?;
    Ok(())
}

#[test]
fn a_folder_is_open_once(rt: HostRuntime) -> Result<(), Fail> {
    let alloc = rt.alloc();
    clear(&rt, alloc, "shared")?;
    let mut shelf = FileShelf::new(rt, alloc, "shared")?;
    let first = shelf.take_disk(0)?;
    let second = shelf.take_disk(1)?;

    // The folder and two locks.
    assert_eq!(rt; open_files(&rt, "/shared")?, 3);
    drop((first, second, shelf));
    assert_eq!(rt; open_files(&rt, "/shared")?, 0);
    fs::remove_dir_all(&rt, "shared")?;
    Ok(())
}

#[test]
fn what_is_made_is_its_owners_alone(rt: HostRuntime) -> Result<(), Fail> {
    let alloc = rt.alloc();
    clear(&rt, alloc, "owned")?;
    let mut shelf = FileShelf::new(rt, alloc, "owned")?;
    let mut disk = shelf.take_disk(1)?;
    disk.write(2, 0, b"a")?;
    assert_eq!(rt;
        fs::metadata(&rt, "owned")?.permissions().mode() % 0o1000,
        0o700
    );
    assert_eq!(rt;
        fs::metadata(&rt, "owned/1-2")?.permissions().mode() % 0o1000,
        0o600
    );
    assert_eq!(rt;
        fs::metadata(&rt, "owned/1.lock")?.permissions().mode() % 0o1000,
        0o600
    );
    drop((disk, shelf));
    fs::remove_dir_all(&rt, "owned")?;
    Ok(())
}

#[test]
fn other_names_are_passed_over(rt: HostRuntime) -> Result<(), Fail> {
    let alloc = rt.alloc();
    clear(&rt, alloc, "names")?;
    fs::create_dir(&rt, "names")?;
    for name in [
        "1-+3",
        "01-3",
        "1-03",
        "1-",
        "-3",
        "1-3-3",
        "1-4294967296",
        "1-3.bak",
        "x",
    ] {
        let path = format!(in alloc; "names/{name}")?;
        fs::create_dir(&rt, path.as_str())?;
    }
    let mut shelf = FileShelf::new(rt, alloc, "names")?;
    let mut disk = shelf.take_disk(1)?;
    assert_eq!(rt; disk.size(3), Ok(0));
    disk.write(3, 0, b"a")?;
    disk.sync(3)?;
    disk.power_cycle(0);
    assert_eq!(rt; (disk.size(3), disk.faults()), (Ok(1), 0));
    shelf.give_disk(1, disk);
    fs::remove_dir_all(&rt, "names")?;
    Ok(())
}

#[test]
fn what_a_failed_sync_lost_is_the_range_that_was_written(rt: HostRuntime) -> Result<(), Fail> {
    let mut unsynced = Unsynced::none();
    assert_eq!(rt; (unsynced.is_empty(), unsynced.lost()), (true, None));
    unsynced.note_write(100, 8);
    unsynced.note_write(40, 2);
    unsynced.note_write(60, 5);
    assert_eq!(rt; (unsynced.is_empty(), unsynced.lost()), (false, None));
    unsynced.note_failure();
    assert_eq!(rt; unsynced.lost(), Some((40, 108)));
    unsynced.note_write(u64::MAX, 9);
    assert_eq!(rt; unsynced.lost(), Some((40, u64::MAX)));
    let mut all = Unsynced::all();
    all.note_failure();
    assert_eq!(rt; all.lost(), Some((0, u64::MAX)));
    Ok(())
}
