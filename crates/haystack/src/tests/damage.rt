//! Stores of which a file is cut, or a byte of it changed: what an opening tells of each.

use super::store::{RUN, Ran, Store, store_of};
use super::told::same_len;
use std::alloc::Global;
use std::process::Abort;
use std::sync::Wait;
use std::test::Fail;
use std::thread::Threads;

/// The file and the place that an opening names, or none where it succeeds.
type Damage = Option<(u32, usize)>;

/// A file of the store of `put 0 1 61; flush 0 0`.
#[derive(Clone, Copy)]
pub(super) enum StoreFile {
    Journal,
    Head,
    Volume,
    Index,
}

pub(super) const STORE_FILES: [StoreFile; 4] = [
    StoreFile::Journal,
    StoreFile::Head,
    StoreFile::Volume,
    StoreFile::Index,
];

impl StoreFile {
    pub(super) fn slot(self) -> u32 {
        match self {
            StoreFile::Journal => 0,
            _ => 1,
        }
    }

    pub(super) fn number(self) -> u32 {
        match self {
            StoreFile::Journal | StoreFile::Head => 0,
            StoreFile::Volume => 1,
            StoreFile::Index => 2,
        }
    }

    pub(super) fn len(self) -> usize {
        match self {
            StoreFile::Journal => 96,
            StoreFile::Head => 88,
            StoreFile::Volume => 128,
            StoreFile::Index => 120,
        }
    }

    /// What is told where the file is cut to so many bytes. Without its first file a disk is void.
    fn cut(self, len: usize) -> Damage {
        match (self, len) {
            (StoreFile::Journal | StoreFile::Head, 0) => None,
            (_, 0..64) => Some((self.number(), len)),
            (StoreFile::Journal, 64..88) => Some((0, 64)),
            (StoreFile::Journal, _) => Some((0, 88)),
            (StoreFile::Head, 64..80) => Some((0, 64)),
            (StoreFile::Head, _) => Some((0, 80)),
            (StoreFile::Volume, 64..100) => Some((1, 64)),
            (StoreFile::Volume, _) => Some((1, 120)),
            (StoreFile::Index, 64..112) => Some((2, 64)),
            (StoreFile::Index, _) => Some((2, 112)),
        }
    }

    /// What is told where these bits of a byte are turned.
    fn flipped(self, at: usize, mask: u8) -> Damage {
        if at < 64 {
            return Some((self.number(), field_of(at)));
        }
        match self {
            StoreFile::Journal => journal_flipped(at),
            StoreFile::Head => head_flipped(at),
            StoreFile::Volume => volume_flipped(at, mask),
            StoreFile::Index => index_flipped(at),
        }
    }
}

/// Where the field of a superblock begins that has this byte.
pub(super) fn field_of(at: usize) -> usize {
    if (8..40).contains(&at) {
        at / 4 * 4
    } else {
        at / 8 * 8
    }
}

/// The row's volume is no volume; its pair may be any.
fn journal_flipped(at: usize) -> Damage {
    match at {
        84..88 => Some((0, 64)),
        _ => None,
    }
}

/// The first row is missing, or not of generation 0.
fn head_flipped(at: usize) -> Damage {
    match at {
        64..80 => Some((0, 64)),
        _ => None,
    }
}

/// No needle stands where the record says, or one that does not fit it. A needle's photo, cookie and checksum are not looked at, and
/// its flags may be any.
fn volume_flipped(at: usize, mask: u8) -> Damage {
    match at {
        93 if mask == 0x01 => None, // the other version
        64..72 | 93..97 => Some((1, 64)),
        80..92 | 97..100 => Some((2, 80)),
        _ => None,
    }
}

/// Without its magic the block is none. Its count and its zeros are the block's, the rest is the record's.
fn index_flipped(at: usize) -> Damage {
    match at {
        72..80 | 92..96 | 108..112 => Some((2, 64)),
        80..112 => Some((2, 80)),
        _ => None,
    }
}

/// A run under these words over the store without a script, with these bytes in place of a file.
pub(super) fn over_damaged(
    rt: &(impl Threads + Wait + Sync),
    words: &[&str],
    store: &Store,
    file: StoreFile,
    bytes: &[u8],
) -> Result<Ran, Fail> {
    let mut copy = store.with_file(file.slot(), file.number(), bytes)?;
    copy.run(rt, words, b"")
}

/// What an opening tells.
fn line_of(alloc: Global, file: StoreFile, damage: Damage) -> Result<String, Fail> {
    match damage {
        Some((number, at)) => {
            let slot = file.slot();
            Ok(format!(in alloc; "open damaged {slot} {number} {at}\n")?)
        }
        None => Ok(String::new(alloc)),
    }
}

/// Tries the store with these bytes in place of a file.
fn try_bytes(
    rt: &(impl Abort + Threads + Wait + Sync),
    alloc: Global,
    store: &Store,
    file: StoreFile,
    bytes: &[u8],
    damage: Damage,
) -> Result<(), Fail> {
    let line = line_of(alloc, file, damage)?;
    let status = if damage.is_some() { 6 } else { 0 };
    over_damaged(rt, RUN, store, file, bytes)?.tells(rt, status, line.as_str());
    Ok(())
}

/// These bytes with bits of one turned.
pub(super) fn turned(alloc: Global, whole: &[u8], at: usize, mask: u8) -> Result<Vec<u8>, Fail> {
    let mut bytes = whole.to_vec(alloc)?;
    if let Some(byte) = bytes.get_mut(at) {
        *byte ^= mask;
    }
    Ok(bytes)
}

/// Tries each cut of a file, and each byte of it with its lowest bit turned, and its highest.
fn try_file(
    rt: &(impl Abort + Threads + Wait + Sync),
    alloc: Global,
    store: &Store,
    file: StoreFile,
) -> Result<(), Fail> {
    let whole = store.bytes(file.slot(), file.number());
    same_len(rt, whole.len(), file.len());
    for at in 0..whole.len() {
        try_bytes(rt, alloc, store, file, &whole[..at], file.cut(at))?;
        for mask in [0x01, 0x80] {
            let bytes = turned(alloc, whole, at, mask)?;
            let damage = file.flipped(at, mask);
            try_bytes(rt, alloc, store, file, bytes.as_slice(), damage)?;
        }
    }
    Ok(())
}

#[test]
fn each_damage_is_told_at_its_place(rt: HostRuntime) -> Result<(), Fail> {
    let store = store_of(&rt, rt.alloc(), RUN, b"put 0 1 61\nflush 0 0\n")?;
    for file in STORE_FILES {
        try_file(&rt, rt.alloc(), &store, file)?;
    }
    Ok(())
}

/// The store of a photo with a record, with another byte in its photo on the first replica.
fn with_another_photo(
    rt: &(impl Abort + Threads + Wait + Sync),
    alloc: Global,
    words: &[&str],
) -> Result<Store, Fail> {
    let store = store_of(rt, alloc, words, b"put 0 1 61\nflush 0 0\n")?;
    let mut bytes = store.bytes(1, 1).to_vec(alloc)?;
    bytes.truncate(100);
    bytes.extend_from_slice(
        b"bNEND\xdf\xbb\x28\xe7\xd8\x1a\xfc\xfe\0\0\0\0\0\0\0\0\0\0\0\0\0\0\0",
    )?;
    store.with_file(1, 1, bytes.as_slice())
}

/// It is neither shown nor deleted, since its needle is not what the record says.
#[test]
fn a_damaged_photo_is_not_shown(rt: HostRuntime) -> Result<(), Fail> {
    let mut store = with_another_photo(&rt, rt.alloc(), RUN)?;
    let ran = store.run(&rt, RUN, b"read 0 1 903df1a0ade0b876\ndel 0 1\n")?;
    ran.tells(&rt, 0, "1 unreadable 0 0 1 0:damage:64\n2 damaged 0:0 64\n");
    Ok(())
}

/// Where one replica is damaged, the other shows the photo.
#[test]
fn a_damaged_replica_is_passed_over(rt: HostRuntime) -> Result<(), Fail> {
    let words = &["run", "--machines", "2", "--replicas", "2"];
    let mut store = with_another_photo(&rt, rt.alloc(), words)?;
    store.answers(
        &rt,
        words,
        b"# skip\nread 0 1 903df1a0ade0b876\n",
        0,
        b"haystack 2 1 2 67108864\n2 photo 0 1 0 1 61\n",
    )
}
