//! Loads of scripts, from an empty shelf to the status, against transcripts that were written by hand.

ghost use Rattle.std.specs.Prelude.{◌≡◌, ◌<◌, ℕ, false, IfOk};
ghost use Rattle.hay_memdisk.specs.MemShelf.{mem_disks};
ghost use Rattle.hay_batch.specs.Shelves.{IsLimited};

use hay_disk::Disk;
use hay_loading::load_store;
use hay_memdisk::{MemDisk, MemShelf, MemSink, MemSource};
use hay_needle::Settings;
use std::alloc::Global;
use std::test::Fail;

// The settings where no option is given, but for these.
fn settings(volumes: u32, capacity: u64) -> Settings
    requires some { 0 < volumes }
    requires few { volumes < 65 }
    ensures { IsLimited result }
{
    Settings {
        machines: 1,
        volumes,
        replicas: 1,
        capacity,
        secret: [0; 32],
    }
}

// The status of a load of these bytes whose source and sink fail at these calls, and what it wrote.
fn load_of(
    alloc: Global,
    settings: Settings,
    script: &[u8],
    source_fails: &[u64],
    sink_fails: &[u64],
    shelf: &mut MemShelf,
) -> Result<(u8, String), Fail>
    requires limits { IsLimited settings }
    requires disks { (slot : ℕ) → (mem_disks shelf.old slot).is_out ≡ false }
    ensures disks { (slot : ℕ) → (mem_disks shelf.new slot).is_out ≡ false }
{
    let mut bytes = Vec::new(alloc);
    bytes.extend_from_slice(script)?;
    let mut source = MemSource::new(alloc, bytes, 20);
    source.fail(source_fails)?;
    let mut sink = MemSink::new(alloc);
    sink.fail(sink_fails)?;
    let status = load_store(alloc, settings, &mut source, &mut sink, shelf);
    let Ok(text) = String::from_utf8(Vec::from_slice(alloc, sink.bytes())?) else {
        return Err("a text".into());
    };
    Ok((status, text))
}

#[test]
fn batches_are_loaded_and_told(rt: HostRuntime) -> Result<(), Fail> {
    let alloc = rt.alloc();
    let script = b"put 0 1 61\nput 0 2 62\nput 0 1 63\nread 0 1 0\nput 0 3 x4000:64\n";
    let mut shelf = MemShelf::new(alloc);
    let (status, text) = load_of(alloc, settings(2, 4096), script, &[], &[], &mut shelf)?;
    assert_eq!(rt; status, 0);
    assert_eq!(rt;
        text.as_str(),
        "haystack 1 2 1 4096\n1 loaded 0 2 2\n3 known 0\n4 bad line\n5 full 0:0:176:4048 1:0:64:4048\n"
    );
    Ok(())
}

// Stops the Directory's disk.
fn stop(shelf: &mut MemShelf, pick: u64) -> Result<(), Fail>
    requires { (slot : ℕ) → (mem_disks shelf.old slot).is_out ≡ false }
    ensures { (slot : ℕ) → (mem_disks shelf.new slot).is_out ≡ false }
{
    match shelf.disk_mut(0) {
        Some(disk) => {
            disk.power_cycle(pick);
            Ok(())
        }
        None => Err("a disk".into()),
    }
}

// What a load tells, and what one tells behind a stop, where so many calls of the Directory's disk pass.
fn failed_of(alloc: Global, calls: u64, pick: u64) -> Result<(u8, String, u8, String), Fail> {
    let script = b"put 0 1 61\nput 0 2 62\n";
    let mut disk = MemDisk::new(alloc);
    disk.fuse(calls);
    let mut shelf = MemShelf::new(alloc);
    shelf.put_disk(0, disk)?;
    let store = settings(1, 67_108_864);
    let (status, text) = load_of(alloc, store, script, &[], &[], &mut shelf)?;
    stop(&mut shelf, pick)?;
    let (again, told) = load_of(alloc, store, script, &[], &[], &mut shelf)?;
    Ok((status, text, again, told))
}

#[test]
fn a_failure_leaves_no_row_or_the_batch(rt: HostRuntime) -> Result<(), Fail> {
    let alloc = rt.alloc();
    for calls in 0..4 {
        for pick in 0..2 {
            let (status, text, again, told) = failed_of(alloc, 2 + calls, pick)?;
            assert_eq!(rt; status, 6);
            assert_eq!(rt; text.as_str(), "haystack 1 1 1 67108864\n1 failed dir 1\n");
            assert_eq!(rt; again, 0);
            let kept = calls == 3 && pick == 1;
            assert_eq!(rt;
                told.as_str(),
                if kept {
                    "haystack 1 1 1 67108864\n1 known 0\n"
                } else {
                    "haystack 1 1 1 67108864\n1 loaded 0 2 2\n"
                }
            );
        }
    }
    Ok(())
}

#[test]
fn statuses_have_their_causes(rt: HostRuntime) -> Result<(), Fail> {
    let alloc = rt.alloc();
    let script = b"put 0 1 61\nput 1 1 61\nfly\n";
    let store = settings(1, 4096);
    let header = "haystack 1 1 1 4096\n";
    let mut shelf = MemShelf::new(alloc);
    let (status, text) = load_of(alloc, store, script, &[], &[1], &mut shelf)?;
    assert_eq!(rt; (status, text.as_str()), (3, "haystack 1"));
    let mut shelf = MemShelf::new(alloc);
    let (status, text) = load_of(alloc, store, script, &[], &[2], &mut shelf)?;
    assert_eq!(rt;
        (status, text.as_str()),
        (3, "haystack 1 1 1 4096\n1 loade")
    );
    // The second put is read whole, and whether a third is in its batch is not known.
    let mut shelf = MemShelf::new(alloc);
    let (status, text) = load_of(alloc, store, script, &[2], &[], &mut shelf)?;
    assert_eq!(rt; (status, text.as_str()), (4, header));
    let mut shelf = MemShelf::new(alloc);
    let (status, text) = load_of(alloc, store, script, &[], &[], &mut shelf)?;
    assert_eq!(rt;
        (status, text.as_str()),
        (
            0,
            "haystack 1 1 1 4096\n1 loaded 0 1 1\n2 loaded 0 1 2\n3 bad line\n"
        )
    );
    // The store is opened again, but not with other settings.
    let (status, text) = load_of(alloc, store, b"put 1 1 61", &[], &[], &mut shelf)?;
    assert_eq!(rt;
        (status, text.as_str()),
        (0, "haystack 1 1 1 4096\n1 known 0\n")
    );
    let (status, text) = load_of(alloc, settings(1, 8192), script, &[], &[], &mut shelf)?;
    assert_eq!(rt; status, 6);
    assert!(rt;
        text.as_str()
            .starts_with("haystack 1 1 1 8192\nopen damaged 0 0 ")
    );
    Ok(())
}
