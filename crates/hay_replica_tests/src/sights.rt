//! What no clause says: that a cell is seen, and when a look at it is refused.
#![tactic(auto, using(crate::proofs::Opens::up_open))]

ghost use Rattle.std.specs.Prelude.{IfOk};
ghost use Rattle.hay_memdisk.specs.MemDisk.{mem_files};
ghost use Rattle.hay_physical.specs.OpenCopies.{IsOpenCopy};
ghost use Rattle.hay_physical.specs.Replicas.{MaySee};

use crate::common::{FIRST, SECOND, SUP, clear};
use hay_disk::{Disk, Shelf};
use hay_filedisk::FileShelf;
use hay_map::Place;
use hay_memdisk::MemDisk;
use hay_needle::Cookie;
use hay_physical::{Replica, ReplicaFault};
use std::alloc::Global;
use std::fs;
use std::test::Fail;

/// What a look answered.
#[derive(Clone, Copy, Debug, PartialEq, Eq)]
enum Sight {
    Live { at: u64, size: u32 },
    Gone,
    Unknown,
    Refused(ReplicaFault),
}

// What a look answered, and how many bytes it read.
fn look<D: Disk>(replica: &mut Replica<D>, alloc: Global, at: u64, size: u32) -> (Sight, usize)
    requires open { IsOpenCopy replica.old }
    requires silent { D.Tells → ⊥ }
    ensures { IsOpenCopy replica.new }
{
    let mut out = Vec::new(alloc);
    let sight = match replica.cell(at, size, &mut out) {
        Ok(Place::Live(needle)) => Sight::Live {
            at: needle.at(),
            size: needle.size(),
        },
        Ok(Place::Gone) => Sight::Gone,
        Ok(Place::None | Place::Unseen { .. }) => Sight::Unknown,
        Err(fault) => Sight::Refused(fault),
    };
    (sight, out.len())
}

// The replica of a disk, with a photo of one byte of the first pair at 64, and one of nine of the second behind it.
fn stored<D: Disk>(alloc: Global, replica: &mut Replica<D>) -> Result<(), Fail>
    requires { IsOpenCopy replica.old }
    ensures { IsOpenCopy replica.new }
{
    replica.put(alloc, FIRST, Cookie(3), b"a")?;
    replica.put(alloc, SECOND, Cookie(4), b"bbbbbbbbb")?;
    Ok(())
}

// Whether a look finds damage.
fn is_damaged<D: Disk>(replica: &mut Replica<D>, alloc: Global, at: u64, size: u32) -> bool
    requires open { IsOpenCopy replica.old }
    requires silent { D.Tells → ⊥ }
    ensures { IsOpenCopy replica.new }
{
    let (sight, _) = look(replica, alloc, at, size);
    sight == Sight::Refused(ReplicaFault::Damaged { at })
}

// Looks for another size, a larger photo than any, a longer needle, and where no needle stands.
fn misfits<D: Disk>(replica: &mut Replica<D>, alloc: Global) -> [bool; 5]
    requires open { IsOpenCopy replica.old }
    requires silent { D.Tells → ⊥ }
    ensures { IsOpenCopy replica.new }
{
    let other_size = is_damaged(replica, alloc, 64, 2);
    let too_large = is_damaged(replica, alloc, 64, u32::MAX);
    let longer = is_damaged(replica, alloc, 120, 1);
    let at_the_end = is_damaged(replica, alloc, 184, 1);
    let behind = is_damaged(replica, alloc, 4096, 1);
    [other_size, too_large, longer, at_the_end, behind]
}

#[test]
fn a_needle_is_seen_as_what_it_is(rt: HostRuntime) -> Result<(), Fail> {
    let alloc = rt.alloc();
    clear(&rt, alloc, "seen")?;
    let mut shelf = FileShelf::new(rt, alloc, "seen")?;
    let mut replica = Replica::new(shelf.take_disk(1)?, SUP);
    replica.open(alloc)?;
    stored(alloc, &mut replica)?;
    let live = (Sight::Live { at: 64, size: 1 }, 56);
    assert_eq!(rt; look(&mut replica, alloc, 64, 1), live);
    assert_eq!(rt; misfits(&mut replica, alloc), [true; 5]);
    assert_eq!(rt; look(&mut replica, alloc, 64, 1), live);
    let behind = (Sight::Live { at: 120, size: 9 }, 64);
    assert_eq!(rt; look(&mut replica, alloc, 120, 9), behind);
    shelf.give_disk(1, replica.into_disk());
    fs::remove_dir_all(&rt, "seen")?;
    Ok(())
}

#[test]
fn a_deleted_needle_is_seen_as_gone(rt: HostRuntime) -> Result<(), Fail> {
    let alloc = rt.alloc();
    clear(&rt, alloc, "gone")?;
    let mut shelf = FileShelf::new(rt, alloc, "gone")?;
    let mut replica = Replica::new(shelf.take_disk(1)?, SUP);
    replica.open(alloc)?;
    stored(alloc, &mut replica)?;
    replica.delete(FIRST, 64)?;
    assert_eq!(rt; look(&mut replica, alloc, 64, 1), (Sight::Gone, 56));
    replica.freeze();
    assert_eq!(rt; look(&mut replica, alloc, 64, 1), (Sight::Gone, 56));
    shelf.give_disk(1, replica.into_disk());
    fs::remove_dir_all(&rt, "gone")?;
    Ok(())
}

#[test]
fn a_damaged_needle_is_not_shown(rt: HostRuntime) -> Result<(), Fail> {
    let alloc = rt.alloc();
    clear(&rt, alloc, "damaged")?;
    let mut shelf = FileShelf::new(rt, alloc, "damaged")?;
    let mut replica = Replica::new(shelf.take_disk(1)?, SUP);
    replica.open(alloc)?;
    stored(alloc, &mut replica)?;
    replica.flush()?;
    let mut disk = replica.into_disk();
    disk.write(1, 100, b"b")?;
    let mut replica = Replica::new(disk, SUP);
    replica.open(alloc)?;
    assert!(rt; is_damaged(&mut replica, alloc, 64, 1));
    assert!(rt; !replica.is_frozen());
    shelf.give_disk(1, replica.into_disk());
    fs::remove_dir_all(&rt, "damaged")?;
    Ok(())
}

// A replica of which the disk's call of this number fails, and the place of its one photo.
fn failing(alloc: Global, call: u64) -> Result<(Replica<MemDisk>, u64), Fail>
    ensures open { IfOk result (λ made. IsOpenCopy made.0) }
    ensures sees { IfOk result (λ made. MaySee mem_files made.0 made.1 1) }
{
    let mut disk = MemDisk::new(alloc);
    disk.fail(&[call])?;
    let mut replica = Replica::new(disk, SUP);
    replica.open(alloc)?;
    let needle = replica.put(alloc, FIRST, Cookie(3), b"a")?;
    Ok((replica, needle.at()))
}

// Why a look is refused where the disk's call of this number fails, and whether the replica is frozen then.
fn refused(alloc: Global, call: u64) -> Result<(Option<ReplicaFault>, bool), Fail> {
    let (mut replica, at) = failing(alloc, call)?;
    let mut out = Vec::new(alloc);
    let fault = replica.cell(at, 1, &mut out).err();
    Ok((fault, replica.is_frozen()))
}

#[test]
fn a_look_fails_where_the_disk_does(rt: HostRuntime) -> Result<(), Fail> {
    let failed = Some(ReplicaFault::Failed { faults: 1 });
    assert_eq!(rt; refused(rt.alloc(), 15)?, (failed, false));
    assert_eq!(rt; refused(rt.alloc(), 16)?, (failed, false));
    assert_eq!(rt; refused(rt.alloc(), 17)?, (None, false));
    Ok(())
}
