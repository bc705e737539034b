//! What the lines of a script are answered.

ghost use Rattle.std.specs.Prelude.{◌≡◌, IfOk, ℕ, false};
ghost use Rattle.hay_memdisk.specs.MemDisk.{mem_files};
ghost use Rattle.hay_memdisk.specs.MemShelf.{mem_disks};
ghost use Rattle.hay_load.specs.Loads.{IsLoading};

use hay_batch::LoadStore;
use hay_disk::Disk;
use hay_load::{LoadEnd, Loading};
use hay_memdisk::{MemDisk, MemShelf};
use hay_needle::Settings;
use hay_script::read_line;
use std::alloc::Global;
use std::test::Fail;

const SETTINGS: Settings = Settings {
    machines: 1,
    volumes: 2,
    replicas: 1,
    capacity: 4096,
    secret: [0; 32],
};

// A load of nothing yet, on this shelf.
fn begin(alloc: Global, shelf: &mut MemShelf) -> Result<Loading<MemDisk>, Fail>
    requires { (n : ℕ) → (mem_disks shelf.old n).is_out ≡ false }
    ensures { IfOk result (IsLoading (Unit {0}) mem_files) }
{
    match LoadStore::open(alloc, SETTINGS, shelf) {
        Ok(store) => Ok(Loading::new(store)),
        Err(_) => Err("a store that opens".into()),
    }
}

// Takes these lines in order, and what is open behind them.
fn take_all(
    alloc: Global,
    load: &mut Loading<MemDisk>,
    lines: &[&str],
    out: &mut Vec<u8>,
) -> Result<Option<LoadEnd>, Fail>
    requires { IsLoading (Unit {0}) mem_files load.old }
{
    for (place, line) in lines.iter().enumerate() {
        let said = read_line(alloc, line.as_bytes(), None)?;
        if let Err(end) = load.take(alloc, place as u64 + 1, said, out) {
            return Ok(Some(end));
        }
    }
    Ok(load.end(alloc, out).err())
}

// What is told of these lines on empty disks, where so many calls of the disk in this slot pass.
fn told(
    alloc: Global,
    slot: u32,
    calls: u64,
    lines: &[&str],
) -> Result<(Option<LoadEnd>, String), Fail> {
    let mut disk = MemDisk::new(alloc);
    disk.fuse(calls);
    let mut shelf = MemShelf::new(alloc);
    shelf.put_disk(slot, disk)?;
    let mut load = begin(alloc, &mut shelf)?;
    let mut out = Vec::new(alloc);
    let end = take_all(alloc, &mut load, lines, &mut out)?;
    let Ok(text) = String::from_utf8(out) else {
        return Err("a text".into());
    };
    Ok((end, text))
}

#[test]
fn batches_and_bad_lines_are_told_in_order(rt: HostRuntime) -> Result<(), Fail> {
    let alloc = rt.alloc();
    let lines = [
        "put 0 1 61",
        "put 0 2 62",
        "put 0 1 63",
        "read 0 1 0",
        "put 0 3 x4000:64",
    ];
    let (end, text) = told(alloc, 0, 100, &lines)?;
    assert_eq!(rt; end, None);
    assert_eq!(rt;
        text.as_str(),
        "1 loaded 0 2 2\n3 known 0\n4 bad line\n5 full 0:0:176:4048 1:0:64:4048\n"
    );
    Ok(())
}

#[test]
fn a_failure_ends_a_load(rt: HostRuntime) -> Result<(), Fail> {
    let alloc = rt.alloc();
    for calls in 0..4 {
        let (end, text) = told(alloc, 0, 2 + calls, &["put 0 1 61", "put 0 2 62"])?;
        assert_eq!(rt; end, Some(LoadEnd::Failed));
        assert_eq!(rt; text.as_str(), "1 failed dir 1\n");
    }
    let (end, text) = told(alloc, 2, 8, &["# note", "put 1 1 61", "put 0 1 61"])?;
    assert_eq!(rt; end, Some(LoadEnd::Failed));
    assert_eq!(rt; text.as_str(), "2 failed 1:0 1\n");
    Ok(())
}
