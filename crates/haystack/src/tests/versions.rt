//! Volume files with needles of version 1 and of version 2, byte by byte, and needles that are of neither.

use super::store::{RUN, Store};
use super::told::{same, same_len};
use hay_memdisk::MemDisk;
use std::alloc::Global;
use std::process::Abort;
use std::sync::Wait;
use std::test::Fail;
use std::thread::Threads;

/// The superblock of a volume file of the settings where none are said, of generation 0.
const SUPER: &[u8; 64] =
    b"HAYSTACK\0\0\0\x01\0\0\0\x01\0\0\0\x01\0\0\0\x01\0\0\0\x01\0\0\0\0\0\0\0\0\0\0\0\0\0\0\0\0\x04\0\0\0\0\0\0\0\0\0\0\0\x66\x68\x7a\xad\xf8\x62\xbd\x77";

/// The needle of `hello` under key 0 and alternate key 1, of version 1.
const OLD_HELLO: &[u8; 56] =
    b"NEEDLE01\x90\x3d\xf1\xa0\xad\xe0\xb8\x76\0\0\0\0\0\0\0\0\0\0\0\x01\0\0\0\0\0\0\0\x05helloNEND\x2c\xf2\x4d\xba\x5f\xb0\xa3\x0e\0\0\0";

/// The same photo as a needle of version 2.
const HELLO: &[u8; 56] =
    b"NEEDLE01\x90\x3d\xf1\xa0\xad\xe0\xb8\x76\0\0\0\0\0\0\0\0\0\0\0\x01\0\x01\0\0\0\0\0\x05helloNEND\xc2\x4c\x35\x22\xd1\x5a\x0d\xe8\0\0\0";

/// The needle of `a` under key 0 and alternate key 2, of version 2.
const LETTER: &[u8; 56] =
    b"NEEDLE01\x90\x3d\xf1\xa0\xad\xe0\xb8\x76\0\0\0\0\0\0\0\0\0\0\0\x02\0\x01\0\0\0\0\0\x01aNEND\x32\x7e\x45\x32\x5a\x80\x8c\x91\0\0\0\0\0\0\0";

/// An index block with the records of `hello` at 64 and of `a` at 120.
const RECORDS: &[u8] =
    b"INDEXBLK\0\0\0\0\0\0\0\x02\0\0\0\0\0\0\0\0\0\0\0\x01\0\0\0\0\0\0\0\0\0\0\0\x40\0\0\0\x05\0\0\0\0\0\0\0\0\0\0\0\0\0\0\0\x02\0\0\0\0\0\0\0\0\0\0\0\x78\0\0\0\x01\0\0\0\0";

/// The rows of key 0 with the alternate keys 1 and 2, each of 24 bytes.
const ROWS: &[u8; 48] =
    b"HOMEROW1\0\0\0\0\0\0\0\0\0\0\0\x01\0\0\0\0HOMEROW1\0\0\0\0\0\0\0\0\0\0\0\x02\0\0\0\0";

/// A file of this kind and generation: its superblock, these parts and the end mark.
fn file_of(alloc: Global, kind: u8, generation: u8, parts: &[&[u8]]) -> Result<Vec<u8>, Fail> {
    let mut superblock = *SUPER;
    superblock[15] = kind;
    superblock[55] = generation;
    let all = parts.concat(alloc)?;
    Ok([superblock.as_slice(), all.as_slice(), &[0; 8]].concat(alloc)?)
}

/// A volume file of generation 0 with these needles.
fn volume_of(alloc: Global, needles: &[&[u8]]) -> Result<Vec<u8>, Fail> {
    file_of(alloc, 1, 0, needles)
}

/// The Directory's disk with these rows.
fn directory_of(alloc: Global, rows: &[u8]) -> Result<MemDisk, Fail> {
    let mut disk = MemDisk::new(alloc);
    disk.set_bytes(0, file_of(alloc, 4, 0, &[rows])?.as_slice())?;
    Ok(disk)
}

/// The disk of a replica of generation 0 with this volume file, and with this block in its index.
fn replica_of(alloc: Global, volume: &[u8], block: &[u8]) -> Result<MemDisk, Fail> {
    let head = file_of(alloc, 3, 0, &[b"HEADROW1\0\0\0\0\0\0\0\0"])?;
    let index = file_of(alloc, 2, 0, &[block])?;
    let mut disk = MemDisk::new(alloc);
    disk.set_bytes(0, head.as_slice())?;
    disk.set_bytes(1, volume)?;
    disk.set_bytes(2, index.as_slice())?;
    Ok(disk)
}

/// A store of generation 0 whose journal has the first rows.
fn old_store(alloc: Global, rows: usize, volume: &[u8], block: &[u8]) -> Result<Store, Fail> {
    let rows = ROWS.get(..rows.saturating_mul(24)).unwrap_or(&[]);
    let mut store = Store::new(alloc);
    store.put_disk(0, directory_of(alloc, rows)?)?;
    store.put_disk(1, replica_of(alloc, volume, block)?)?;
    Ok(store)
}

/// What was stored in version 1 is read, and behind a compaction it is there in version 2.
#[test]
fn an_old_store_is_read_and_made_anew(rt: HostRuntime) -> Result<(), Fail> {
    let alloc = rt.alloc();
    let volume = volume_of(alloc, &[OLD_HELLO])?;
    same_len(&rt, volume.len(), 128);
    let mut store = old_store(alloc, 1, volume.as_slice(), b"")?;
    let script = b"read 0 1 903df1a0ade0b876\ncompact 0 0\nread 0 1 903df1a0ade0b876\n";
    let told = "1 photo 0 0 0 1 68656c6c6f\n2 compacted 0:0 1\n3 photo 0 0 0 1 68656c6c6f\n";
    store.run(&rt, RUN, script)?.tells(&rt, 0, told);
    for (found, wanted) in store.lens().into_iter().zip([104, 0, 0, 128, 120]) {
        same_len(&rt, found, wanted);
    }
    let made = file_of(alloc, 1, 1, &[HELLO])?;
    same(&rt, store.bytes(1, 3), made.as_slice());
    same(&rt, made.get(93..94).unwrap_or(&[]), &[1]);
    Ok(())
}

/// A needle of version 2 is appended behind one of version 1, which stays as it was, and an opening by records finds both.
#[test]
fn both_versions_stand_in_one_file(rt: HostRuntime) -> Result<(), Fail> {
    let alloc = rt.alloc();
    let volume = volume_of(alloc, &[OLD_HELLO])?;
    let mut store = old_store(alloc, 1, volume.as_slice(), b"")?;
    let script =
        b"put 0 2 61\nread 0 1 903df1a0ade0b876\nread 0 2 903df1a0ade0b876\nflush 0 0\nrestart 0\nread 0 1 903df1a0ade0b876\nread 0 2 903df1a0ade0b876\n";
    let told =
        "1 stored 0 1 2 903df1a0ade0b876\n2 photo 0 0 1 2 68656c6c6f\n3 photo 0 0 1 2 61\n4 flushed 0:0 2\n5 restarted 2\n6 photo 0 0 0 2 68656c6c6f\n7 photo 0 0 0 2 61\n";
    store.run(&rt, RUN, script)?.tells(&rt, 0, told);
    let both = volume_of(alloc, &[OLD_HELLO, LETTER])?;
    same(&rt, store.bytes(1, 1), both.as_slice());
    let index = file_of(alloc, 2, 0, &[RECORDS])?;
    same(&rt, store.bytes(1, 2), index.as_slice());
    Ok(())
}

/// A delete writes the flag of a needle of version 1 and nothing else of it.
#[test]
fn an_old_needle_is_deleted_in_its_place(rt: HostRuntime) -> Result<(), Fail> {
    let alloc = rt.alloc();
    let volume = volume_of(alloc, &[OLD_HELLO, LETTER])?;
    let mut store = old_store(alloc, 2, volume.as_slice(), b"")?;
    let script =
        b"del 0 1\nread 0 1 903df1a0ade0b876\nrestart 0\nread 0 1 903df1a0ade0b876\nread 0 2 903df1a0ade0b876\n";
    let told =
        "1 deleted 0 1 2\n2 gone 0 0 1 2\n3 restarted 2\n4 gone 0 0 0 2\n5 photo 0 0 0 2 61\n";
    store.run(&rt, RUN, script)?.tells(&rt, 0, told);
    let mut flagged = *OLD_HELLO;
    flagged[28] = 1;
    let volume = volume_of(alloc, &[&flagged, LETTER])?;
    same(&rt, store.bytes(1, 1), volume.as_slice());
    Ok(())
}

/// Bytes of `hello`'s needle with one changed.
struct Wrong {
    needle: &'static [u8; 56],
    at: usize,
    byte: u8,
}

const WRONG: [Wrong; 13] = [
    // A size of 1,048,581 in version 1, and one of 16,777,221 in version 2.
    Wrong {
        needle: OLD_HELLO,
        at: 33,
        byte: 0x10,
    },
    Wrong {
        needle: HELLO,
        at: 32,
        byte: 0x01,
    },
    // Versions 3 and 256.
    Wrong {
        needle: OLD_HELLO,
        at: 29,
        byte: 2,
    },
    Wrong {
        needle: HELLO,
        at: 29,
        byte: 2,
    },
    Wrong {
        needle: HELLO,
        at: 29,
        byte: 0xff,
    },
    // Bytes that are zero in both versions.
    Wrong {
        needle: OLD_HELLO,
        at: 30,
        byte: 1,
    },
    Wrong {
        needle: HELLO,
        at: 30,
        byte: 1,
    },
    Wrong {
        needle: OLD_HELLO,
        at: 31,
        byte: 1,
    },
    Wrong {
        needle: HELLO,
        at: 31,
        byte: 1,
    },
    // The checksum of the other version.
    Wrong {
        needle: OLD_HELLO,
        at: 29,
        byte: 1,
    },
    Wrong {
        needle: HELLO,
        at: 29,
        byte: 0,
    },
    // Another cookie than version 2's checksum is of, and another photo than version 1's.
    Wrong {
        needle: HELLO,
        at: 8,
        byte: 0x91,
    },
    Wrong {
        needle: OLD_HELLO,
        at: 36,
        byte: b'j',
    },
];

/// Runs a script over a store whose volume file has these needles, which is left as it was.
fn try_left(
    rt: &(impl Abort + Threads + Wait + Sync),
    alloc: Global,
    needles: &[&[u8]],
    block: &[u8],
    script: &[u8],
    status: u8,
    told: &str,
) -> Result<(), Fail> {
    let volume = volume_of(alloc, needles)?;
    let mut store = old_store(alloc, needles.len(), volume.as_slice(), block)?;
    store.run(rt, RUN, script)?.tells(rt, status, told);
    same(rt, store.bytes(1, 1), volume.as_slice());
    Ok(())
}

/// A needle that no record names is damage at its place, and the opening changes nothing.
///
/// A recorded needle that is not the last one is not read at the opening, but when it is needed: then the photo is not shown, the
/// other one is, and a compaction stops at the needle and leaves the old file.
fn try_wrong(
    rt: &(impl Abort + Threads + Wait + Sync),
    alloc: Global,
    needle: &[u8],
) -> Result<(), Fail> {
    let told = "open damaged 1 1 120\n";
    try_left(rt, alloc, &[LETTER, needle], b"", b"", 6, told)?;
    let script =
        b"read 0 1 903df1a0ade0b876\nread 0 2 903df1a0ade0b876\ncompact 0 0\nread 0 2 903df1a0ade0b876\n";
    let told =
        "1 unreadable 0 0 2 0:damage:64\n2 photo 0 0 0 2 61\n3 damaged 0:0 64\n4 photo 0 0 0 2 61\n";
    try_left(rt, alloc, &[needle, LETTER], RECORDS, script, 0, told)
}

#[test]
fn a_needle_of_no_version_is_damage_at_its_place(rt: HostRuntime) -> Result<(), Fail> {
    for wrong in &WRONG {
        let mut needle = *wrong.needle;
        let byte = needle.get_mut(wrong.at).ok_or("no such byte")?;
        *byte = wrong.byte;
        try_wrong(&rt, rt.alloc(), &needle)?;
    }
    Ok(())
}

/// The needle of so many bytes 61 under key 0 and alternate key 1, with this byte behind the flags and this checksum.
fn large_needle(
    alloc: Global,
    version: u8,
    size: u32,
    sum: u64,
    padding: &[u8],
) -> Result<Vec<u8>, Fail> {
    let mut photo = Vec::new(alloc);
    photo.resize(size as usize, 0x61)?;
    Ok([
        b"NEEDLE01\x90\x3d\xf1\xa0\xad\xe0\xb8\x76\0\0\0\0\0\0\0\0\0\0\0\x01\0".as_slice(),
        &[version, 0, 0],
        &size.to_be_bytes(),
        photo.as_slice(),
        b"NEND",
        &sum.to_be_bytes(),
        padding,
    ]
    .concat(alloc)?)
}

/// A large needle: its version, how many bytes its photo has, its checksum and its padding; and what a read of it is told.
struct Large {
    version: u8,
    size: u32,
    sum: u64,
    padding: &'static [u8],
    status: u8,
    told: &'static str,
}

const LARGE: [Large; 4] = [
    Large {
        version: 0,
        size: 1_048_576,
        sum: 0x9bc1_b2a2_88b2_6af7,
        padding: &[],
        status: 0,
        told: "1 photo 0 0 0 1 x1048576:61\n",
    },
    Large {
        version: 0,
        size: 1_048_577,
        sum: 0x4a3f_0c0c_213a_dea1,
        padding: &[0; 7],
        status: 6,
        told: "open damaged 1 1 64\n",
    },
    Large {
        version: 1,
        size: 16_777_216,
        sum: 0xf1e8_6b2c_e945_362d,
        padding: &[],
        status: 0,
        told: "1 photo 0 0 0 1 x16777216:61\n",
    },
    Large {
        version: 1,
        size: 16_777_217,
        sum: 0x114a_d8d0_e657_92b3,
        padding: &[0; 7],
        status: 6,
        told: "open damaged 1 1 64\n",
    },
];

/// In each version the largest photo is read, and one of a byte more is damage, though its checksum is right.
#[test]
fn each_version_has_its_largest_photo(rt: HostRuntime) -> Result<(), Fail> {
    let alloc = rt.alloc();
    let script = b"read 0 1 903df1a0ade0b876\n";
    for large in &LARGE {
        let Large {
            version,
            size,
            sum,
            padding,
            ..
        } = large;
        let needle = large_needle(alloc, *version, *size, *sum, padding)?;
        try_left(
            &rt,
            alloc,
            &[needle.as_slice()],
            b"",
            script,
            large.status,
            large.told,
        )?;
    }
    Ok(())
}
