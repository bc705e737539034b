//! What compactions leave in the files of a replica, byte by byte.

use super::store::{RUN, Store, store_of};
use super::told::{holds, same, same_len};
use hay_memdisk::MemDisk;
use std::alloc::Global;
use std::process::Abort;
use std::sync::Wait;
use std::test::Fail;
use std::thread::Threads;

/// The bytes of a file of the disk in slot 1 from one place up to another.
fn part_of(store: &Store, file: u32, from: usize, to: usize) -> &[u8] {
    store.bytes(1, file).get(from..to).unwrap_or(&[])
}

/// A superblock of the disk in slot 1, of another generation, and these parts of a file behind it.
fn file_of(
    alloc: Global,
    store: &Store,
    file: u32,
    generation: u64,
    parts: &[&[u8]],
) -> Result<Vec<u8>, Fail> {
    let mut bytes = part_of(store, file, 0, 48).to_vec(alloc)?;
    bytes.extend_from_slice(&generation.to_be_bytes())?;
    bytes.extend_from_slice(part_of(store, file, 56, 64))?;
    bytes.extend_from_slice(parts.concat(alloc)?.as_slice())?;
    Ok(bytes)
}

/// Cells of 56, 56, 64, 48 and 56 bytes from 64, 120, 176, 240 and 288 on. The second, the third and the last stay: the first is
/// overwritten, and the fourth deleted.
const FIVE_CELLS: &[u8] =
    b"put 0 1 61\nput 0 2 62\nput 0 1 x9:63\nput 0 3 -\nput 0 4 x8:64\ndel 0 3\n";

/// An index block with the records of the three cells, of key 0.
const RECORDS: &[u8] =
    b"INDEXBLK\0\0\0\0\0\0\0\x03\0\0\0\0\0\0\0\0\0\0\0\x02\0\0\0\0\0\0\0\0\0\0\0\x40\0\0\0\x01\0\0\0\0\0\0\0\0\0\0\0\0\0\0\0\x01\0\0\0\0\0\0\0\0\0\0\0\x78\0\0\0\x09\0\0\0\0\0\0\0\0\0\0\0\0\0\0\0\x04\0\0\0\0\0\0\0\0\0\0\0\xb8\0\0\0\x08\0\0\0\0";

/// The last row of a head of generation 1, and the end mark.
const LAST_ROW: &[u8] = b"HEADROW1\0\0\0\0\0\0\0\x01\0\0\0\0\0\0\0\0";

/// Runs the script of five cells and these lines, and looks for the three cells alone in the files of generation 1.
fn try_three(
    rt: &(impl Abort + Threads + Wait + Sync),
    alloc: Global,
    lines: &[u8],
) -> Result<(), Fail> {
    let five = store_of(rt, alloc, RUN, FIVE_CELLS)?;
    let cells = [
        part_of(&five, 1, 120, 240),
        part_of(&five, 1, 288, 344),
        &[0; 8],
    ];
    let volume = file_of(alloc, &five, 1, 1, &cells)?;
    let index = file_of(alloc, &five, 2, 1, &[RECORDS, &[0; 8]])?;
    let script = [FIVE_CELLS, lines].concat(alloc)?;
    let store = store_of(rt, alloc, RUN, script.as_slice())?;
    same(rt, store.bytes(1, 3), volume.as_slice());
    same(rt, store.bytes(1, 4), index.as_slice());
    let head = store.bytes(1, 0);
    holds(rt, head.ends_with(LAST_ROW), "the last row of a head", head);
    same_lens(rt, &store, &[104, 0, 0]);
    Ok(())
}

/// Compares the lengths of the first files.
fn same_lens(rt: &impl Abort, store: &Store, lens: &[usize]) {
    for (found, wanted) in store.lens().iter().zip(lens) {
        same_len(rt, *found, *wanted);
    }
}

/// In one command or in parts, over an index that lags or not, on a store that was opened again, and over what a compaction
/// left that a stop broke off.
#[test]
fn a_compaction_keeps_the_live_cells_alone(rt: HostRuntime) -> Result<(), Fail> {
    for lines in [
        b"compact 0 0\n".as_slice(),
        b"begin 0 0\nfinish 0 0\n".as_slice(),
        b"begin 0 0\nstep 0 0 2\nstep 0 0 4294967295\nfinish 0 0\n".as_slice(),
        b"flush 0 0\ncompact 0 0\n".as_slice(),
        b"flush 0 0\nrestart 0\ncompact 0 0\n".as_slice(),
        b"begin 0 0\nstep 0 0 4\nrestart 1\ncompact 0 0\n".as_slice(),
    ] {
        try_three(&rt, rt.alloc(), lines)?;
    }
    Ok(())
}

/// The room of old cells comes back, generation by generation, and that of an overwritten cell that was copied with the next.
#[test]
fn a_compaction_gives_room_back(rt: HostRuntime) -> Result<(), Fail> {
    for (script, lens) in [
        // One flagged cell was copied.
        (
            b"put 0 1 61\nbegin 0 0\nstep 0 0 1\nput 0 1 62\ndel 0 1\nfinish 0 0\n".as_slice(),
            [104, 0, 0, 128, 120, 0, 0],
        ),
        // An overwritten cell was copied.
        (
            b"put 0 1 61\nbegin 0 0\nstep 0 0 1\nput 0 1 x9:62\nfinish 0 0\n".as_slice(),
            [104, 0, 0, 192, 152, 0, 0],
        ),
        (
            b"put 0 1 61\nbegin 0 0\nstep 0 0 1\nput 0 1 x9:62\nfinish 0 0\ncompact 0 0\n".as_slice(),
            [120, 0, 0, 0, 0, 136, 120],
        ),
        // Nothing is left.
        (
            b"put 0 1 61\nput 0 1 62\ndel 0 1\ncompact 0 0\n".as_slice(),
            [104, 0, 0, 72, 72, 0, 0],
        ),
        (
            b"compact 0 0\ncompact 0 0\n".as_slice(),
            [120, 0, 0, 0, 0, 72, 72],
        ),
    ] {
        let store = store_of(&rt, rt.alloc(), RUN, script)?;
        same_lens(&rt, &store, &lens);
    }
    Ok(())
}

/// The head of a replica of a generation.
fn head_of(alloc: Global, fresh: &Store, generation: u64) -> Result<Vec<u8>, Fail> {
    let mut head = part_of(fresh, 0, 0, 64).to_vec(alloc)?;
    for row in 0..=generation {
        head.extend_from_slice(b"HEADROW1")?;
        head.extend_from_slice(&row.to_be_bytes())?;
    }
    head.extend_from_slice(&[0; 8])?;
    Ok(head)
}

/// The disk of a replica without cells, at a generation whose files these are.
fn disk_at(
    alloc: Global,
    fresh: &Store,
    generation: u64,
    files: [(u32, u32); 2],
) -> Result<MemDisk, Fail> {
    let mut disk = MemDisk::new(alloc);
    disk.set_bytes(0, head_of(alloc, fresh, generation)?.as_slice())?;
    for (file, first) in files {
        let bytes = file_of(alloc, fresh, first, generation, &[&[0; 8]])?;
        disk.set_bytes(file, bytes.as_slice())?;
    }
    Ok(disk)
}

/// Runs a script over a replica of this generation, and looks for what is told.
fn try_at(
    rt: &(impl Abort + Threads + Wait + Sync),
    alloc: Global,
    generation: u64,
    files: [(u32, u32); 2],
    script: &[u8],
    told: &str,
) -> Result<(), Fail> {
    let fresh = store_of(rt, alloc, RUN, b"")?;
    let mut store = fresh.with_file(1, 3, &[])?;
    store.put_disk(1, disk_at(alloc, &fresh, generation, files)?)?;
    store.run(rt, RUN, script)?.tells(rt, 0, told);
    Ok(())
}

/// The generation before it has one compaction left.
#[test]
fn the_last_generation_is_worn(rt: HostRuntime) -> Result<(), Fail> {
    try_at(
        &rt,
        rt.alloc(),
        65_535,
        [(131_071, 1), (131_072, 2)],
        b"begin 0 0\ncompact 0 0\nstep 0 0 1\nput 0 1 61\nread 0 1 903df1a0ade0b876\n",
        "1 worn 0:0\n2 worn 0:0\n3 idle 0:0\n4 stored 0 1 1 903df1a0ade0b876\n5 photo 0 0 1 1 61\n",
    )?;
    try_at(
        &rt,
        rt.alloc(),
        65_534,
        [(131_069, 1), (131_070, 2)],
        b"compact 0 0\nrestart 0\nbegin 0 0\n",
        "1 compacted 0:0 65535\n2 restarted 0\n3 worn 0:0\n",
    )
}
