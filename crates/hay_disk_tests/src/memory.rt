//! What no clause says: that calls succeed, which of them fail, and what a stop takes.
ghost use Rattle.std.specs.Prelude.{◌≡◌, ◌≤◌, ◌<◌, ◌+◌, false, length, IfOk, OnOk};
ghost use Rattle.hay_disk.specs.Disk.{IsFree, IsSolid};
ghost use Rattle.hay_disk.specs.Gate.{IsGate};
ghost use Rattle.hay_memdisk.specs.MemDisk.{mem_files};
ghost use Rattle.hay_memdisk.specs.MemShelf.{mem_disks};

use hay_disk::{Arm, Disk, DiskFault, Failed, Piece, Shelf, Sink, Source, gate_append};
use hay_memdisk::{MemArm, MemDisk, MemShelf, MemSink, MemSource, SureShelf};
use std::alloc::Global;
use std::process::Abort;
use std::test::Fail;

const MAGIC: u64 = 0x4e45_4544_4c45_3031;

const BODY: [u8; 16] = [7, 7, 7, 7, 7, 7, 7, 7, 0, 0, 0, 0, 0, 0, 0, 0];

// A disk whose file 1 is eight zeros on the disk, then written over by ff in its first half and past its end.
fn written(alloc: Global) -> Result<MemDisk, Fail> {
    let mut disk = MemDisk::new(alloc);
    disk.set_bytes(1, &[0; 8])?;
    disk.write(1, 0, &[0xff; 4])?;
    disk.write(1, 8, &[0xff; 4])?;
    Ok(disk)
}

// A disk whose file 1 is a log without records.
fn empty_log(alloc: Global) -> Result<MemDisk, Fail>
    ensures { IfOk result (λ disk. IsGate MAGIC 0 (mem_files disk 1)) }
{
    let mut disk = MemDisk::new(alloc);
    disk.set_bytes(1, &[0; 8])?;
    Ok(disk)
}

// Whether a record stands after an append with this fuse and a stop with this pick.
fn stands_after(alloc: Global, calls: u64, pick: u64) -> Result<bool, Fail> {
    let mut disk = empty_log(alloc)?;
    disk.fuse(calls);
    let appended = gate_append(&mut disk, 1, 0, MAGIC, &BODY);
    let faults = disk.faults();
    disk.power_cycle(pick);
    let stands = disk.bytes(1).starts_with(b"NEEDLE01");
    if appended.is_ok() != (calls == 4) || faults != (calls < 4) as u64 {
        return Err(Failed.into());
    }
    Ok(stands)
}

#[test]
fn a_stop_takes_what_was_not_synced(rt: HostRuntime) -> Result<(), Fail> {
    for (pick, bytes) in [
        (0, &[0_u8; 8] as &[u8]),
        (
            1,
            &[0xff, 0xff, 0xff, 0xff, 0, 0, 0, 0, 0xff, 0xff, 0xff, 0xff],
        ),
    ] {
        let mut disk = written(rt.alloc())?;
        disk.power_cycle(pick);
        assert_eq!(rt; disk.bytes(1), bytes, "at {pick}");
    }
    Ok(())
}

// Marks what a stop with this pick leaves of the first half: the zeros, what was written, or other bytes. The second half stays,
// the end is one that the file had, and another stop with the pick leaves the same.
fn mark_left(rt: &impl Abort, alloc: Global, pick: u64, kinds: &mut [u8; 3]) -> Result<(), Fail> {
    let mut disk = written(alloc)?;
    disk.power_cycle(pick);
    let mut again = written(alloc)?;
    again.power_cycle(pick);
    let left = disk.bytes(1);
    assert_eq!(rt; left, again.bytes(1));
    assert!(rt; 8 <= left.len() && left.len() <= 12);
    assert_eq!(rt; &left[4..8], [0; 4].as_slice());
    let kind = match &left[..4] {
        [0, 0, 0, 0] => 0,
        [0xff, 0xff, 0xff, 0xff] => 1,
        _ => 2,
    };
    kinds[kind] = 1;
    Ok(())
}

#[test]
fn a_stop_leaves_the_same_by_the_same_pick(rt: HostRuntime) -> Result<(), Fail> {
    let mut kinds = [0; 3];
    for pick in 2..60 {
        mark_left(&rt, rt.alloc(), pick, &mut kinds)?;
    }
    assert_eq!(rt; kinds, [1; 3]);
    Ok(())
}

#[test]
fn a_stop_keeps_a_record_or_loses_it(rt: HostRuntime) -> Result<(), Fail> {
    for (calls, pick, stands) in [
        (0, 0, false),
        (0, 1, false),
        (1, 1, false),
        (2, 1, false),
        (3, 0, false),
        (3, 1, true),
        (4, 0, true),
    ] {
        assert_eq!(rt;
            stands_after(rt.alloc(), calls, pick)?,
            stands,
            "at {calls} {pick}"
        );
    }
    Ok(())
}

#[test]
fn a_removed_file_stays_away(rt: HostRuntime) -> Result<(), Fail> {
    for pick in 0..4 {
        let mut disk = written(rt.alloc())?;
        disk.remove(1)?;
        disk.power_cycle(pick);
        assert_eq!(rt; disk.bytes(1), [].as_slice());
    }
    Ok(())
}

#[test]
fn reads_are_counted_until_the_power_cycle(rt: HostRuntime) -> Result<(), Fail> {
    let mut disk = written(rt.alloc())?;
    let mut out = [0; 5];
    disk.read_into(1, 0, &mut out)?;
    disk.read_into(1, 9, &mut out)?;
    disk.read_into(2, 0, &mut out)?;
    assert_eq!(rt; disk.drawn(1), 8);
    assert_eq!(rt; disk.drawn(2), 0);
    disk.power_cycle(1);
    assert_eq!(rt; disk.drawn(1), 0);
    Ok(())
}

// A disk behind two syncs of three writes, and a stop that takes a fourth: behind six calls.
fn stopped(alloc: Global) -> Result<MemDisk, Fail>
    ensures { IfOk result (λ disk. IsFree (mem_files disk 1)) }
{
    let mut disk = MemDisk::new(alloc);
    disk.write(1, 0, b"aaaaaaaa")?;
    disk.sync(1)?;
    disk.write(1, 6, b"c")?;
    disk.write(1, 2, b"b")?;
    disk.sync(1)?;
    disk.write(1, 0, b"dddddddddd")?;
    disk.power_cycle(0);
    Ok(disk)
}

#[test]
fn a_sync_keeps_what_was_written_since_the_last(rt: HostRuntime) -> Result<(), Fail> {
    let mut disk = stopped(rt.alloc())?;
    assert_eq!(rt; disk.bytes(1), b"aabaaaca".as_slice());
    disk.fail(&[7])?;
    assert_eq!(rt; disk.write(1, 0, b"eeee"), Err(DiskFault::Failed));
    disk.sync(1)?;
    disk.write(1, 0, b"ffffffff")?;
    disk.power_cycle(0);
    assert_eq!(rt; disk.bytes(1), b"eebaaaca".as_slice());
    Ok(())
}

// A fuse lets a sync pass and makes a remove fail, until the power cycle.
fn fuse_blows(rt: &impl Abort, disk: &mut MemDisk) {
    disk.fuse(1);
    assert_eq!(rt; (disk.sync(1), disk.remove(1)), (Ok(()), Err(Failed)));
    assert_eq!(rt; disk.faults(), 3);
    disk.power_cycle(0);
    assert_eq!(rt; (disk.remove(1), disk.size(1)), (Ok(()), Ok(0)));
}

// A write that fails stores its first half, and each fault is counted.
fn disk_fails(rt: &impl Abort, alloc: Global) -> Result<(), Fail> {
    let mut disk = MemDisk::new(alloc);
    disk.set_bytes(1, b"abcdefgh")?;
    disk.fail(&[2, 4])?;
    assert_eq!(rt; [disk.size(1), disk.size(1)], [Ok(8), Err(Failed)]);
    let mut out = [0; 3];
    let read = disk.read_into(1, 6, &mut out);
    assert_eq!(rt; (read, out), (Ok(2), [b'g', b'h', 0]));
    assert_eq!(rt; disk.write(1, 2, b"1234"), Err(DiskFault::Failed));
    assert_eq!(rt; disk.bytes(1), b"ab12efgh".as_slice());
    fuse_blows(rt, &mut disk);
    Ok(())
}

// A disk with two files, which are on the disk.
fn two_files(alloc: Global) -> Result<MemDisk, Fail>
    ensures first { IfOk result (λ disk. IsFree (mem_files disk 1)) }
    ensures second { IfOk result (λ disk. IsSolid (mem_files disk 2) × (4 ≤ length (mem_files disk 2).now)) }
{
    let mut disk = MemDisk::new(alloc);
    disk.set_bytes(1, b"abcdefgh")?;
    disk.set_bytes(2, b"ijkl")?;
    Ok(disk)
}

// Which of six calls succeed, one of each kind that can fail, where these are to fail.
fn calls_pass(alloc: Global, failing: &[u64]) -> Result<[bool; 6], Fail> {
    let mut disk = two_files(alloc)?;
    disk.fail(&[1, 2, 3])?;
    disk.fail(failing)?;
    let sealed = disk.seal(2, 0, 4, 1).is_ok();
    let sized = disk.size(1).is_ok();
    let read = disk.read_into(1, 0, &mut [0; 2]).is_ok();
    let written = disk.write(1, 0, b"xy").is_ok();
    let synced = disk.sync(1).is_ok();
    let removed = disk.remove(1).is_ok();
    Ok([sealed, sized, read, written, synced, removed])
}

#[test]
fn a_disk_fails_at_the_calls_listed_and_no_other(rt: HostRuntime) -> Result<(), Fail> {
    let alloc = rt.alloc();
    for n in 1..8 {
        assert_eq!(rt;
            calls_pass(alloc, &[n])?,
            [n != 1, n != 2, n != 3, n != 4, n != 5, n != 6],
            "at {n}"
        );
    }
    assert_eq!(rt;
        calls_pass(alloc, &[6, 2])?,
        [true, false, true, true, true, false]
    );
    Ok(())
}

// Which of five changing calls succeed, and of a read between them.
fn changes_pass(disk: &mut MemDisk) -> [bool; 6]
    requires { IsFree (mem_files disk.old 1) }
{
    let written = disk.write(1, 0, b"abc").is_ok();
    let synced = disk.sync(1).is_ok();
    let read = disk.read_into(1, 0, &mut [0; 2]).is_ok();
    let removed = disk.remove(1).is_ok();
    let other_synced = disk.sync(2).is_ok();
    let other_removed = disk.remove(2).is_ok();
    [written, synced, read, removed, other_synced, other_removed]
}

#[test]
fn a_fuse_lets_so_many_changes_pass_until_the_power_cycle(rt: HostRuntime) -> Result<(), Fail> {
    for calls in 0..6 {
        let mut disk = MemDisk::new(rt.alloc());
        disk.fuse(5 - calls);
        disk.fuse(calls);
        assert_eq!(rt;
            changes_pass(&mut disk),
            [calls > 0, calls > 1, true, calls > 2, calls > 3, calls > 4],
            "behind {calls}"
        );
        disk.power_cycle(0);
        assert_eq!(rt; changes_pass(&mut disk), [true; 6], "behind {calls}");
    }
    Ok(())
}

// A piece outlives its file, and an arm fails at the fetches listed.
fn arm_fails(rt: &impl Abort, alloc: Global) -> Result<(), Fail> {
    let mut disk = MemDisk::new(alloc);
    disk.set_bytes(1, b"abcdefgh")?;
    let piece = disk.seal(1, 2, 4, 1)?;
    disk.remove(1)?;
    let copy = piece.dup();
    let mut arm = MemArm::new(alloc);
    arm.fail(&[2])?;
    let mut out = [0; 4];
    let fetched = arm.fetch(&piece, &mut out);
    assert_eq!(rt; (fetched, out), (Ok(4), *b"cdef"));
    let again = [arm.fetch(&copy, &mut out), arm.fetch(&copy, &mut out)];
    assert_eq!(rt; (again, arm.faults()), ([Err(Failed), Ok(4)], 1));
    Ok(())
}

// A source gives its bytes a step at a time, and fails at the reads listed.
fn source_fails(rt: &impl Abort, alloc: Global) -> Result<(), Fail> {
    let mut source = MemSource::new(alloc, b"hello".to_vec(alloc)?, 2);
    source.fail(&[2])?;
    let mut out = [0; 8];
    for (from, answer) in [
        (0, Ok(2)),
        (0, Err(Failed)),
        (2, Ok(2)),
        (4, Ok(1)),
        (5, Ok(0)),
    ] {
        let room = out.get_mut(from..).ok_or("no room")?;
        assert_eq!(rt; source.read(room), answer, "from {from}");
    }
    assert_eq!(rt; (out, source.faults()), (*b"hello\0\0\0", 1));
    Ok(())
}

// A sink keeps half of what fails, and fails at the writes listed.
fn sink_fails(rt: &impl Abort, alloc: Global) -> Result<(), Fail> {
    let mut sink = MemSink::new(alloc);
    sink.fail(&[2])?;
    for (bytes, answer) in [
        (b"one ".as_slice(), Ok(())),
        (b"two ", Err(Failed)),
        (b"three", Ok(())),
    ] {
        assert_eq!(rt; sink.write(bytes), answer);
    }
    assert_eq!(rt; sink.bytes(), b"one twthree".as_slice());
    assert_eq!(rt; sink.faults(), 1);
    Ok(())
}

// Puts bytes into the disk of a slot.
fn fill(shelf: &mut MemShelf, slot: u32) -> Result<(), Fail>
    ensures { OnOk result ((mem_disks shelf.new slot).is_out ≡ false) }
{
    match shelf.disk_mut(slot) {
        Some(disk) => {
            disk.set_bytes(1, b"de")?;
            Ok(())
        }
        None => Err(Failed.into()),
    }
}

// A shelf hands out what was put on it.
fn shelf_takes(rt: &impl Abort, alloc: Global, shelf: &mut MemShelf) -> Result<(), Fail> {
    shelf.put_disk(4, MemDisk::new(alloc))?;
    fill(shelf, 4)?;
    assert_eq!(rt; shelf.take_disk(4)?.bytes(1), b"de".as_slice());
    let mut arm = MemArm::new(alloc);
    arm.fail(&[1])?;
    shelf.put_arm(2, arm)?;
    assert!(rt; shelf.arm(2).is_some());
    assert_eq!(rt; shelf.take_arm(2)?.faults(), 0);
    Ok(())
}

// A shelf hands out what it was given, with nothing loose.
fn shelf_hands_out(rt: &impl Abort, alloc: Global) -> Result<(), Fail> {
    let mut shelf = MemShelf::new(alloc);
    let mut disk = shelf.take_disk(3)?;
    assert!(rt; shelf.disk(3).is_none());
    disk.write(1, 0, b"abc")?;
    shelf.give_disk(3, disk);
    let mut disk = shelf.take_disk(3)?;
    disk.power_cycle(0);
    assert_eq!(rt; disk.bytes(1), b"abc".as_slice());
    shelf.give_disk(3, disk);
    shelf_takes(rt, alloc, &mut shelf)
}

fn sure_shelf_hands_out(rt: &impl Abort, alloc: Global) -> Result<(), Fail> {
    let mut shelf = SureShelf::new(alloc);
    let mut disk = shelf.take_disk(0)?;
    disk.write(1, 0, b"abc")?;
    shelf.give_disk(0, disk);
    assert!(rt; shelf.disk(0).is_some());
    assert_eq!(rt; shelf.take_disk(0)?.bytes(1), b"abc".as_slice());
    let arm = shelf.take_arm(0)?;
    shelf.give_arm(0, arm);
    Ok(())
}

#[test]
fn calls_fail_where_they_were_told_to(rt: HostRuntime) -> Result<(), Fail> {
    let alloc = rt.alloc();
    disk_fails(&rt, alloc)?;
    arm_fails(&rt, alloc)?;
    source_fails(&rt, alloc)?;
    sink_fails(&rt, alloc)?;
    shelf_hands_out(&rt, alloc)?;
    sure_shelf_hands_out(&rt, alloc)
}
