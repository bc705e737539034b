//! What no clause says of a compaction: which damaged needles stop it.
#![tactic(auto, using(crate::proofs::Opens::up_open))]

ghost use Rattle.std.specs.Prelude.{IfOk};
ghost use Rattle.hay_physical.specs.OpenCopies.{IsOpenCopy};

use crate::common::{FIRST, SECOND, SUP, clear};
use hay_disk::{Disk, Shelf};
use hay_filedisk::FileShelf;
use hay_needle::Cookie;
use hay_physical::{Replica, ReplicaFault};
use std::alloc::Global;
use std::fs;
use std::test::Fail;

/// What becomes of the first pair's photo behind its put.
#[derive(Clone, Copy)]
enum Fate {
    Stands,
    Deleted,
    Superseded,
}

// The replica of a disk with a photo of one byte at 64, which has another byte now, and one of nine at 120; and a third at 184,
// if that supersedes the first one.
fn damaged<D: Disk>(alloc: Global, disk: D, fate: Fate) -> Result<Replica<D>, Fail>
    requires silent { D.Tells → ⊥ }
    ensures { IfOk result IsOpenCopy }
{
    let mut replica = Replica::new(disk, SUP);
    replica.open(alloc)?;
    replica.put(alloc, FIRST, Cookie(3), b"a")?;
    replica.put(alloc, SECOND, Cookie(4), b"bbbbbbbbb")?;
    match fate {
        Fate::Stands => {}
        Fate::Deleted => replica.delete(FIRST, 64)?,
        Fate::Superseded => {
            replica.put(alloc, FIRST, Cookie(5), b"c")?;
        }
    }
    replica.flush()?;
    let mut disk = replica.into_disk();
    disk.write(1, 100, b"b")?;
    let mut replica = Replica::new(disk, SUP);
    replica.open(alloc)?;
    Ok(replica)
}

// Examines the next cell, where `latest` is the place of the last one of its pair, or none where that is deleted. Whether there
// was one.
fn examine<D: Disk>(replica: &mut Replica<D>, latest: Option<u64>) -> Result<bool, ReplicaFault>
    requires open { IsOpenCopy replica.old }
    requires silent { D.Tells → ⊥ }
    ensures { IsOpenCopy replica.new }
{
    let Some(cell) = replica.peek()? else {
        return Ok(false);
    };
    replica.copy(cell, latest)?;
    Ok(true)
}

#[test]
fn a_damaged_needle_that_is_deleted_stops_none(rt: HostRuntime) -> Result<(), Fail> {
    let alloc = rt.alloc();
    clear(&rt, alloc, "deleted")?;
    let mut shelf = FileShelf::new(rt, alloc, "deleted")?;
    let mut replica = damaged(alloc, shelf.take_disk(1)?, Fate::Deleted)?;
    replica.begin(alloc)?;
    assert_eq!(rt; examine(&mut replica, None), Ok(true));
    assert_eq!(rt; examine(&mut replica, Some(120)), Ok(true));
    assert_eq!(rt; examine(&mut replica, None), Ok(false));
    assert_eq!(rt; replica.finish()?.len(), 1);
    assert_eq!(rt; replica.generation(), 1);
    shelf.give_disk(1, replica.into_disk());
    fs::remove_dir_all(&rt, "deleted")?;
    Ok(())
}

#[test]
fn a_damaged_needle_that_is_superseded_stops_none(rt: HostRuntime) -> Result<(), Fail> {
    let alloc = rt.alloc();
    clear(&rt, alloc, "superseded")?;
    let mut shelf = FileShelf::new(rt, alloc, "superseded")?;
    let mut replica = damaged(alloc, shelf.take_disk(1)?, Fate::Superseded)?;
    replica.begin(alloc)?;
    assert_eq!(rt; examine(&mut replica, Some(184)), Ok(true));
    assert_eq!(rt; examine(&mut replica, Some(120)), Ok(true));
    assert_eq!(rt; examine(&mut replica, Some(184)), Ok(true));
    assert_eq!(rt; examine(&mut replica, None), Ok(false));
    assert_eq!(rt; replica.finish()?.len(), 2);
    shelf.give_disk(1, replica.into_disk());
    fs::remove_dir_all(&rt, "superseded")?;
    Ok(())
}

#[test]
fn a_damaged_needle_that_stands_stops_one(rt: HostRuntime) -> Result<(), Fail> {
    let alloc = rt.alloc();
    clear(&rt, alloc, "stands")?;
    let mut shelf = FileShelf::new(rt, alloc, "stands")?;
    let mut replica = damaged(alloc, shelf.take_disk(1)?, Fate::Stands)?;
    replica.begin(alloc)?;
    let refusal = Err(ReplicaFault::Damaged { at: 64 });
    assert_eq!(rt; examine(&mut replica, Some(64)), refusal);
    assert!(rt; replica.standing().is_none());
    assert!(rt; !replica.is_frozen());
    shelf.give_disk(1, replica.into_disk());
    fs::remove_dir_all(&rt, "stands")?;
    Ok(())
}
