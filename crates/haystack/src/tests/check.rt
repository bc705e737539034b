//! Checks of stores: what is told of each disk, at which status, and that nothing is changed.

use super::damage::{STORE_FILES, StoreFile, field_of, over_damaged, turned};
use super::store::{NO_FAULTS, RUN, Ran, Store, Streams, store_of};
use super::told::{same, same_len, same_status};
use hay_lanes::OpenGate;
use hay_memdisk::MemDisk;
use std::alloc::Global;
use std::process::Abort;
use std::sync::Wait;
use std::test::Fail;
use std::thread::Threads;

/// A store under these words that a script made, what a check of it writes, and its status.
struct Checked {
    words: &'static [&'static str],
    script: &'static [u8],
    check: &'static [&'static str],
    status: u8,
    written: &'static str,
}

const CHECK: &[&str] = &["check"];

const CHECKED: [Checked; 7] = [
    Checked {
        words: RUN,
        script: b"put 0 1 61\nput 0 2 62\nflush 0 0\nput 0 3 63\ndel 0 1\n",
        check: CHECK,
        status: 0,
        written: "haystack 1 1 1 67108864\ncheck 0 rows 3\ncheck 1 whole 0 3 2 2 232 0\n",
    },
    // Only formatted.
    Checked {
        words: RUN,
        script: b"",
        check: CHECK,
        status: 0,
        written: "haystack 1 1 1 67108864\ncheck 0 rows 0\ncheck 1 whole 0 0 0 0 64 0\n",
    },
    // Behind two compactions, the first of which leaves two cells of three.
    Checked {
        words: RUN,
        script: b"put 0 1 61\nput 0 1 62\nput 0 2 x7:63\nput 0 3 x9:64\ndel 0 2\ncompact 0 0\nput 0 1 -\ncompact 0 0\n",
        check: CHECK,
        status: 0,
        written: "haystack 1 1 1 67108864\ncheck 0 rows 3\ncheck 1 whole 2 2 2 2 176 0\n",
    },
    // The photos of a store of two volumes on two replicas: keys 0 and 1, the replicas of volume 1 in slots 3 and 4.
    Checked {
        words: &["run", "--machines", "2", "--volumes", "2", "--replicas=2"],
        script: b"put 0 1 61\nput 1 1 62\nput 1 2 63\nflush 1 0\n",
        check: &["check", "--volumes", "2", "--replicas", "2", "--machines=2"],
        status: 0,
        written: "haystack 2 2 2 67108864\ncheck 0 rows 3\ncheck 1 whole 0 1 1 0 120 0\ncheck 2 whole 0 1 1 0 120 0\ncheck 3 whole 0 2 2 0 176 0\ncheck 4 whole 0 2 2 2 176 0\n",
    },
    // Other settings than those of the store.
    Checked {
        words: RUN,
        script: b"put 0 1 61\n",
        check: &["check", "--capacity", "8192"],
        status: 8,
        written: "haystack 1 1 1 8192\ncheck 0 damaged 0 40\ncheck 1 damaged 0 40\n",
    },
    // The disks of another volume are void, and a damaged one does not hide them.
    Checked {
        words: RUN,
        script: b"put 0 1 61\n",
        check: &["check", "--volumes", "2"],
        status: 8,
        written: "haystack 1 2 1 67108864\ncheck 0 damaged 0 20\ncheck 1 damaged 0 20\ncheck 2 void\n",
    },
    Checked {
        words: RUN,
        script: b"put 0 1 61\ndel 0 1\nput 0 1 62\n",
        check: &[
            "check",
            "--secret",
            "0000000000000000000000000000000000000000000000000000000000000001",
        ],
        status: 8,
        written: "haystack 1 1 1 67108864\ncheck 0 damaged 0 56\ncheck 1 damaged 0 56\n",
    },
];

/// The bytes of the first files of the first disks, each with its length.
fn bytes_of(alloc: Global, store: &Store) -> Result<Vec<u8>, Fail> {
    let mut all = Vec::new(alloc);
    for slot in 0..5 {
        for file in 0..8 {
            let bytes = store.bytes(slot, file);
            all.extend_from_slice(&bytes.len().to_be_bytes())?;
            all.extend_from_slice(bytes)?;
        }
    }
    Ok(all)
}

/// Checks the store twice with these words, and looks for the status and what is written, and that no file is changed.
fn try_check(
    rt: &(impl Abort + Threads + Wait + Sync),
    alloc: Global,
    store: &mut Store,
    words: &[&str],
    status: u8,
    told: &str,
) -> Result<(), Fail> {
    let before = bytes_of(alloc, store)?;
    for _ in 0..2 {
        store.answers(rt, words, b"put 0 9 61\n", status, told.as_bytes())?;
    }
    same(rt, bytes_of(alloc, store)?.as_slice(), before.as_slice());
    Ok(())
}

#[test]
fn stores_are_told_and_left(rt: HostRuntime) -> Result<(), Fail> {
    let alloc = rt.alloc();
    for case in &CHECKED {
        let mut store = store_of(&rt, alloc, case.words, case.script)?;
        try_check(
            &rt,
            alloc,
            &mut store,
            case.check,
            case.status,
            case.written,
        )?;
    }
    Ok(())
}

/// A void disk is not formatted.
#[test]
fn an_empty_shelf_stays_empty(rt: HostRuntime) -> Result<(), Fail> {
    let told = "haystack 1 1 1 67108864\ncheck 0 void\ncheck 1 void\n";
    let mut store = Store::new(rt.alloc());
    try_check(&rt, rt.alloc(), &mut store, CHECK, 0, told)
}

/// A check over the empty store whose disk in a slot fails at this call, and its output at this one. The source fails at once.
fn faulty(
    rt: &(impl Threads + Wait + Sync),
    alloc: Global,
    slot: u32,
    failed_call: u64,
    failed_write: u64,
) -> Result<Ran, Fail> {
    let mut disk = MemDisk::new(alloc);
    disk.fail(&[failed_call])?;
    let mut store = Store::new(alloc);
    store.put_disk(slot, disk)?;
    let streams = Streams {
        failed_read: 1,
        failed_write,
        ..NO_FAULTS
    };
    store.run_with(rt, CHECK, b"", streams, &OpenGate)
}

/// The source is not read, though it fails at once.
#[test]
fn a_fault_ends_the_check(rt: HostRuntime) -> Result<(), Fail> {
    for (slot, failed_call, failed_write, status, told) in [
        (0, 1, 0, 6, "open failed 0 1\n"),
        (1, 1, 0, 6, "check 0 void\nopen failed 1 1\n"),
        (0, 0, 4, 0, "check 0 void\ncheck 1 void\n"),
    ] {
        let ran = faulty(&rt, rt.alloc(), slot, failed_call, failed_write)?;
        ran.tells(&rt, status, told);
    }
    Ok(())
}

/// The last line, which tells of the disk, is cut short too.
#[test]
fn a_check_is_cut_where_the_output_ends(rt: HostRuntime) -> Result<(), Fail> {
    let void = b"haystack 1 1 1 67108864\ncheck 0 void\ncheck 1 void\n" as &[u8];
    for (failed_call, failed_write, whole) in [
        (0, 1, void),
        (0, 2, void),
        (0, 3, void),
        (1, 2, b"haystack 1 1 1 67108864\nopen failed 0 1\n"),
    ] {
        faulty(&rt, rt.alloc(), 0, failed_call, failed_write)?.is_cut_of(&rt, whole);
    }
    Ok(())
}

#[test]
fn words_of_a_check_are_those_of_a_run(rt: HostRuntime) -> Result<(), Fail> {
    for words in [
        &["check", "check"] as &[&str],
        &["check", "--volumes", "0"],
        &["check", "--machines", "2", "--replicas", "3"],
        &["check", "--slot", "1"],
        &["Check"],
    ] {
        Store::new(rt.alloc()).answers(&rt, words, b"", 2, b"")?;
    }
    Ok(())
}

/// These bytes up to a place, and others in place of as many behind it; where there are none, the file ends there.
fn patched(alloc: Global, whole: &[u8], at: usize, patch: &[u8]) -> Result<Vec<u8>, Fail> {
    let front = whole.get(..at).unwrap_or(&[]);
    let rest = whole.get(at.saturating_add(patch.len())..).unwrap_or(&[]);
    let kept = if patch.is_empty() { &[] } else { rest };
    Ok([front, patch, kept].concat(alloc)?)
}

/// The volume file of `put 0 1 61`, or of that and a flush, changed as the worked rows say.
#[test]
fn worked_damage_is_told(rt: HostRuntime) -> Result<(), Fail> {
    let alloc = rt.alloc();
    let flushed: &[u8] = b"put 0 1 61\nflush 0 0\n";
    let plain: &[u8] = b"put 0 1 61\n";
    for (script, file, at, patch, status, told) in [
        (
            plain,
            1,
            40,
            b"" as &[u8],
            8,
            "check 0 rows 1\ncheck 1 damaged 1 40\n",
        ),
        (
            flushed,
            2,
            100,
            b"",
            8,
            "check 0 rows 1\ncheck 1 damaged 2 64\n",
        ),
        (
            plain,
            1,
            120,
            b"NEEDLE01",
            8,
            "check 0 rows 1\ncheck 1 damaged 1 120\n",
        ),
        (
            plain,
            1,
            120,
            &[0xff; 8],
            0,
            "check 0 rows 1\ncheck 1 whole 0 1 1 0 120 0\n",
        ),
        (
            flushed,
            1,
            100,
            b"b",
            8,
            "check 0 rows 1\ncheck 1 damaged 1 64\n",
        ),
        (
            plain,
            1,
            100,
            b"b",
            8,
            "check 0 rows 1\ncheck 1 damaged 1 64\n",
        ),
    ] {
        let store = store_of(&rt, alloc, RUN, script)?;
        let bytes = patched(alloc, store.bytes(1, file), at, patch)?;
        let mut copy = store.with_file(1, file, bytes.as_slice())?;
        copy.run(&rt, CHECK, b"")?.tells(&rt, status, told);
    }
    Ok(())
}

/// What is told of the disk that has a changed file.
#[derive(Clone, Copy)]
enum Told {
    Void,
    Rows(u64),
    /// Of one cell: whether it is live, and its records.
    Cell { live: u64, records: u64 },
    Damaged { file: u32, at: usize },
}

impl Told {
    fn line(self, alloc: Global) -> Result<String, Fail> {
        Ok(match self {
            Told::Void => String::from_str(alloc, "void")?,
            Told::Rows(rows) => format!(in alloc; "rows {rows}")?,
            Told::Cell { live, records } => format!(in alloc; "whole 0 1 {live} {records} 120 0")?,
            Told::Damaged { file, at } => format!(in alloc; "damaged {file} {at}")?,
        })
    }

    fn is_damaged(self) -> bool {
        matches!(self, Told::Damaged { .. })
    }
}

/// The store's cell with its record.
const SOUND: Told = Told::Cell {
    live: 1,
    records: 1,
};

/// What is told where a file is cut to so many bytes.
fn cut(file: StoreFile, len: usize) -> Told {
    let at = match (file, len) {
        (StoreFile::Journal | StoreFile::Head, 0) => return Told::Void,
        (_, 0..64) => len,
        (StoreFile::Journal, 88..) => 88,
        (StoreFile::Head, 80..) => 80,
        (StoreFile::Volume, 120..) => 120,
        (StoreFile::Index, 112..) => 112,
        _ => 64,
    };
    Told::Damaged {
        file: file.number(),
        at,
    }
}

/// What is told where a bit of a byte is turned.
fn flipped(file: StoreFile, at: usize) -> Told {
    if at < 64 {
        return Told::Damaged {
            file: file.number(),
            at: field_of(at),
        };
    }
    match file {
        StoreFile::Journal => journal_flipped(at),
        StoreFile::Head => head_flipped(at),
        StoreFile::Volume => volume_flipped(at),
        StoreFile::Index => index_flipped(at),
    }
}

/// Without its magic the row is none, and its volume is no volume. Its pair may be any.
fn journal_flipped(at: usize) -> Told {
    match at {
        64..72 => Told::Rows(0),
        84..88 => Told::Damaged { file: 0, at: 64 },
        _ => Told::Rows(1),
    }
}

/// The first row is missing, or not of generation 0.
fn head_flipped(at: usize) -> Told {
    match at {
        64..80 => Told::Damaged { file: 0, at: 64 },
        _ => SOUND,
    }
}

/// Without its magic the needle is none, and the record is of no cell. Of a needle only the flags may be any.
fn volume_flipped(at: usize) -> Told {
    match at {
        64..72 => Told::Damaged { file: 2, at: 80 },
        92 => Told::Cell {
            live: 0,
            records: 1,
        },
        72..120 => Told::Damaged { file: 1, at: 64 },
        _ => SOUND,
    }
}

/// Without its magic the block is none. Its count and its zeros are the block's, the rest is the record's.
fn index_flipped(at: usize) -> Told {
    match at {
        64..72 => Told::Cell {
            live: 1,
            records: 0,
        },
        72..80 | 92..96 | 108..112 => Told::Damaged { file: 2, at: 64 },
        80..112 => Told::Damaged { file: 2, at: 80 },
        _ => SOUND,
    }
}

/// The lines that a check writes where this is told of the disk of a file.
fn lines_of(alloc: Global, file: StoreFile, told: Told) -> Result<String, Fail> {
    let line = told.line(alloc)?;
    if file.slot() == 0 {
        Ok(format!(in alloc; "check 0 {line}\ncheck 1 whole 0 1 1 1 120 0\n")?)
    } else {
        Ok(format!(in alloc; "check 0 rows 1\ncheck 1 {line}\n")?)
    }
}

/// Checks the store with these bytes in place of a file, and opens it: where no disk is damaged it is opened.
fn try_bytes(
    rt: &(impl Abort + Threads + Wait + Sync),
    alloc: Global,
    store: &Store,
    file: StoreFile,
    bytes: &[u8],
    told: Told,
) -> Result<(), Fail> {
    let lines = lines_of(alloc, file, told)?;
    let status = if told.is_damaged() { 8 } else { 0 };
    over_damaged(rt, CHECK, store, file, bytes)?.tells(rt, status, lines.as_str());
    let opened = over_damaged(rt, RUN, store, file, bytes)?.status;
    if opened != 6 || !told.is_damaged() {
        same_status(rt, opened, 0);
    }
    Ok(())
}

/// Tries each cut of a file, and each byte of it with its lowest bit turned, and its highest.
fn try_file(
    rt: &(impl Abort + Threads + Wait + Sync),
    alloc: Global,
    store: &Store,
    file: StoreFile,
) -> Result<(), Fail> {
    let whole = store.bytes(file.slot(), file.number());
    same_len(rt, whole.len(), file.len());
    for at in 0..whole.len() {
        try_bytes(rt, alloc, store, file, &whole[..at], cut(file, at))?;
        for mask in [0x01, 0x80] {
            let bytes = turned(alloc, whole, at, mask)?;
            let told = flipped(file, at);
            try_bytes(rt, alloc, store, file, bytes.as_slice(), told)?;
        }
    }
    Ok(())
}

/// Each cut and each turned bit of the table, of all bytes of the store's files.
#[test]
fn each_damage_is_told_by_a_check(rt: HostRuntime) -> Result<(), Fail> {
    let store = store_of(&rt, rt.alloc(), RUN, b"put 0 1 61\nflush 0 0\n")?;
    for file in STORE_FILES {
        try_file(&rt, rt.alloc(), &store, file)?;
    }
    Ok(())
}
