//! A block as the format has it, and what is damage.
use crate::block::encode_whole;
use crate::fault::IndexFault;
use crate::packed::PackedRecord;
use crate::pending::Pending;
use crate::reading::read_index;
use crate::record::Record;
use hay_base::NoMemory;
use hay_needle::{FileKind, Pair, Settings, Super, write_super};
use std::alloc::Global;
use std::mem::size_of;
use std::test::*;

const SUP: Super = Super {
    settings: Settings {
        machines: 1,
        volumes: 1,
        replicas: 1,
        capacity: 67_108_864,
        secret: [0; 32],
    },
    kind: FileKind::Index,
    volume: 0,
    replica: 0,
    generation: 0,
};

// The needles of a photo of 5 bytes and of one of 9 bytes take 56 and 64 bytes.
const FIRST: Record = Record {
    pair: Pair {
        key: 0x0102_0304_0506_0708,
        alt: 9,
    },
    at: 64,
    size: 5,
};

const SECOND: Record = Record {
    pair: Pair { key: 3, alt: 4 },
    at: 120,
    size: 9,
};

// One block with the first record: magic, count, key, alternate key, zero, offset, size, zero, and the end mark.
const BLOCK: [u8; 56] = [
    0x49, 0x4e, 0x44, 0x45, 0x58, 0x42, 0x4c, 0x4b, 0, 0, 0, 0, 0, 0, 0, 1, 1, 2, 3, 4, 5, 6, 7, 8,
    0, 0, 0, 9, 0, 0, 0, 0, 0, 0, 0, 0, 0, 0, 0, 64, 0, 0, 0, 5, 0, 0, 0, 0, 0, 0, 0, 0, 0, 0, 0,
    0,
];

// An index file with these bytes behind its superblock.
fn file(alloc: Global, bytes: &[u8]) -> Result<Vec<u8>, NoMemory> {
    let mut file = Vec::new(alloc);
    file.extend_from_slice(&write_super(&SUP))?;
    file.extend_from_slice(bytes)?;
    Ok(file)
}

// The file of a block of these records.
fn with_records(alloc: Global, records: &[Record]) -> Result<Vec<u8>, NoMemory> {
    let mut pending = Pending::new(alloc);
    for record in records {
        pending.push(*record)?;
    }
    let block = encode_whole(alloc, pending.as_slice())?;
    file(alloc, block.as_slice())
}

// What is read of a file: how many records, or the place of the damage.
fn read(alloc: Global, bytes: &[u8]) -> Result<usize, Option<u64>> {
    match read_index(alloc, bytes, &SUP) {
        Ok((records, _)) => Ok(records.len()),
        Err(IndexFault::Damaged { at }) => Err(Some(at)),
        Err(_) => Err(None),
    }
}

// The same of its first `len` bytes.
fn read_front(alloc: Global, bytes: &[u8], len: usize) -> Result<usize, Option<u64>> {
    match bytes.get(..len) {
        Some(front) => read(alloc, front),
        None => Err(None),
    }
}

// The same with one byte changed.
fn read_changed(alloc: Global, bytes: &[u8], at: usize, byte: u8) -> Result<usize, Option<u64>> {
    let mut changed = Vec::new(alloc);
    for (i, old) in bytes.iter().enumerate() {
        let new = if i == at { byte } else { *old };
        if changed.push(new).is_err() {
            return Err(None);
        }
    }
    read(alloc, changed.as_slice())
}

#[test]
fn blocks_and_damage(rt: HostRuntime) -> Result<(), Fail> {
    let alloc = rt.alloc();
    let one = file(alloc, &BLOCK).ok().ok_or("memory")?;
    let same = with_records(alloc, &[FIRST]).ok().ok_or("memory")?;
    assert!(rt; one == same, "a block's bytes");
    let two = with_records(alloc, &[FIRST, SECOND]).ok().ok_or("memory")?;
    assert_eq!(rt; read(alloc, &one), Ok(1));
    assert_eq!(rt; read(alloc, &two), Ok(2));
    assert_eq!(rt;
        read_front(alloc, &one, 72),
        Err(Some(64)),
        "past the file's end"
    );
    assert_eq!(rt;
        read_front(alloc, &one, 115),
        Err(Some(112)),
        "a short end mark"
    );
    assert_eq!(rt;
        read_front(alloc, &one, 63),
        Err(Some(63)),
        "a short superblock"
    );
    for (at, byte, place) in [
        (12, 9, 12),
        (79, 0, 64),
        (79, 3, 64),
        (95, 1, 64),
        (111, 1, 64),
        (103, 65, 80),
        (135, 1, 112),
    ] {
        assert_eq!(rt;
            read_changed(alloc, &two, at, byte),
            Err(Some(place)),
            "byte {at}"
        );
    }
    let stray = with_records(alloc, &[FIRST, FIRST]).ok().ok_or("memory")?;
    assert_eq!(rt; read(alloc, &stray), Err(Some(112)));
    Ok(())
}

#[test]
fn packed_without_gaps(rt: HostRuntime) -> Result<(), Fail> {
    assert_eq!(rt; size_of::<PackedRecord>(), 24);
    Ok(())
}
