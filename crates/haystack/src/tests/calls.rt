//! The changing calls that commands make of a replica's disk, counted by fuses.

use super::store::{RUN, Store, store_of};
use super::told::{holds, same_len};
use std::alloc::Global;
use std::process::Abort;
use std::sync::Wait;
use std::test::Fail;
use std::thread::Threads;

/// Cells of 56 bytes from 64, 120 and 176 on, of which the last is deleted, and the files of a compaction that was broken off.
const THREE_CELLS: &str = "put 0 1 61\nput 0 2 62\nput 0 3 63\ndel 0 3\nbegin 0 0\nrestart 1\n";

/// A command over the three cells, and its changing calls: those whose failure leaves the volume open, then those whose failure
/// freezes it, then those whose failure is no refusal.
#[derive(Clone, Copy)]
struct Counted {
    before: &'static str,
    line: u64,
    command: &'static str,
    done: &'static str,
    open: u64,
    frozen: u64,
    quiet: u64,
}

/// A compaction begins with four calls: it takes two files away, and writes two. Each of the two live cells is copied by one, and
/// the deleted one by none. Its end writes one block of records and syncs two files, appends a row to the head by four, and takes
/// two files away.
const COUNTED: [Counted; 10] = [
    Counted {
        before: "",
        line: 8,
        command: "begin 0 0",
        done: "begun 0:0 1",
        open: 4,
        frozen: 0,
        quiet: 0,
    },
    Counted {
        before: "begin 0 0\n",
        line: 9,
        command: "step 0 0 1",
        done: "stepped 0:0 1",
        open: 1,
        frozen: 0,
        quiet: 0,
    },
    Counted {
        before: "begin 0 0\n",
        line: 9,
        command: "step 0 0 9",
        done: "stepped 0:0 3",
        open: 2,
        frozen: 0,
        quiet: 0,
    },
    Counted {
        before: "begin 0 0\nstep 0 0 2\n",
        line: 10,
        command: "step 0 0 1",
        done: "stepped 0:0 1",
        open: 0,
        frozen: 0,
        quiet: 0,
    },
    Counted {
        before: "begin 0 0\n",
        line: 9,
        command: "finish 0 0",
        done: "compacted 0:0 1",
        open: 5,
        frozen: 4,
        quiet: 2,
    },
    Counted {
        before: "begin 0 0\nstep 0 0 3\n",
        line: 10,
        command: "finish 0 0",
        done: "compacted 0:0 1",
        open: 3,
        frozen: 4,
        quiet: 2,
    },
    Counted {
        before: "",
        line: 8,
        command: "compact 0 0",
        done: "compacted 0:0 1",
        open: 9,
        frozen: 4,
        quiet: 2,
    },
    // A delete writes a flag and syncs it, and then writes that of the copy, if there is one.
    Counted {
        before: "begin 0 0\nstep 0 0 1\n",
        line: 10,
        command: "del 0 1",
        done: "deleted 0 1 3",
        open: 0,
        frozen: 2,
        quiet: 1,
    },
    Counted {
        before: "begin 0 0\nstep 0 0 1\n",
        line: 10,
        command: "del 0 2",
        done: "deleted 0 1 3",
        open: 0,
        frozen: 2,
        quiet: 0,
    },
    // A put is an append to the old file alone.
    Counted {
        before: "begin 0 0\nstep 0 0 1\n",
        line: 10,
        command: "put 0 1 65",
        done: "stored 0 1 3 903df1a0ade0b876",
        open: 0,
        frozen: 4,
        quiet: 0,
    },
];

/// What a put is told that shows so many faults, or none where the volume is frozen.
fn refusal(alloc: Global, faults: u64) -> Result<String, Fail> {
    if faults == 0 {
        Ok(String::from_str(alloc, "readonly 0:0")?)
    } else {
        Ok(format!(in alloc; "failed 0:0 {faults}")?)
    }
}

/// The reply to the command behind so many calls, and how many faults a put behind it shows, or 0 where the volume is frozen.
fn reply_behind(counted: &Counted, calls: u64) -> (&'static str, u64) {
    let closed = counted.open.saturating_add(counted.frozen);
    if calls < counted.open {
        ("failed 0:0 1", 2)
    } else if calls < closed {
        ("failed 0:0 1", 0)
    } else {
        let left = closed.saturating_add(counted.quiet).saturating_sub(calls);
        (counted.done, left.saturating_add(1))
    }
}

/// Tries a command behind so many calls, and a put that shows what the fuse has left of the volume.
fn try_calls(
    rt: &(impl Abort + Threads + Wait + Sync),
    alloc: Global,
    counted: &Counted,
    calls: u64,
) -> Result<(), Fail> {
    let (reply, faults) = reply_behind(counted, calls);
    let next = refusal(alloc, faults)?;
    let (before, command, line) = (counted.before, counted.command, counted.line);
    let behind = line.saturating_add(1);
    let script = format!(in alloc;
        "{THREE_CELLS}{before}fuse 0 0 {calls}\n{command}\nput 0 2 64\n"
    )?;
    let end = format!(in alloc; " fused 0:0 {calls}\n{line} {reply}\n{behind} {next}\n")?;
    let ran = Store::new(alloc).run(rt, RUN, script.as_bytes())?;
    ran.ends(rt, 0, end.as_str());
    Ok(())
}

#[test]
fn compactions_make_the_listed_calls(rt: HostRuntime) -> Result<(), Fail> {
    for counted in &COUNTED {
        let all = counted.open.saturating_add(counted.frozen);
        for calls in 0..=all.saturating_add(counted.quiet) {
            try_calls(&rt, rt.alloc(), counted, calls)?;
        }
    }
    Ok(())
}

/// How many bytes the first five files of the replica have behind a compaction with so many calls: as reads give them, and as a
/// stop leaves them that takes all that was not synced. A write that fails stores the first half of its bytes.
const LENS: [([usize; 5], [usize; 5]); 16] = [
    // It takes two files away,
    ([88, 240, 72, 72, 72], [88, 240, 72, 72, 72]),
    ([88, 240, 72, 0, 72], [88, 240, 72, 0, 72]),
    // writes the new volume file and the new index,
    ([88, 240, 72, 36, 0], [88, 240, 72, 0, 0]),
    ([88, 240, 72, 72, 36], [88, 240, 72, 0, 0]),
    // copies two cells,
    ([88, 240, 72, 96, 72], [88, 240, 72, 0, 0]),
    ([88, 240, 72, 152, 72], [88, 240, 72, 0, 0]),
    // writes a block of two records,
    ([88, 240, 72, 184, 108], [88, 240, 72, 0, 0]),
    // syncs the index, and the volume file,
    ([88, 240, 72, 184, 152], [88, 240, 72, 0, 0]),
    ([88, 240, 72, 184, 152], [88, 240, 72, 0, 152]),
    // appends a row to the head: what is behind its magic and a sync, the magic and a sync,
    ([96, 240, 72, 184, 152], [88, 240, 72, 184, 152]),
    ([104, 240, 72, 184, 152], [88, 240, 72, 184, 152]),
    ([104, 240, 72, 184, 152], [104, 240, 72, 184, 152]),
    ([104, 240, 72, 184, 152], [104, 240, 72, 184, 152]),
    // and takes the old files away.
    ([104, 240, 72, 184, 152], [104, 240, 72, 184, 152]),
    ([104, 0, 72, 184, 152], [104, 0, 72, 184, 152]),
    ([104, 0, 0, 184, 152], [104, 0, 0, 184, 152]),
];

/// Makes a compaction of the three cells with so many calls, and these lines behind it, and compares the lengths of the files.
fn try_lens(
    rt: &(impl Abort + Threads + Wait + Sync),
    alloc: Global,
    calls: usize,
    lines: &str,
    wanted: &[usize; 5],
) -> Result<(), Fail> {
    let script = format!(in alloc; "{THREE_CELLS}fuse 0 0 {calls}\ncompact 0 0\n{lines}")?;
    let store = store_of(rt, alloc, RUN, script.as_bytes())?;
    for (len, wanted) in store.lens().iter().zip(wanted) {
        same_len(rt, *len, *wanted);
    }
    Ok(())
}

#[test]
fn a_compaction_makes_its_calls_in_order(rt: HostRuntime) -> Result<(), Fail> {
    for (calls, (read, kept)) in LENS.iter().enumerate() {
        try_lens(&rt, rt.alloc(), calls, "", read)?;
        try_lens(&rt, rt.alloc(), calls, "restart 0\n", kept)?;
    }
    Ok(())
}

/// The first lines of a mix that may be acknowledged before its compaction, by how many they are.
const ACKNOWLEDGED: [&str; 5] = [
    "",
    "2 stored 0 1 1 903df1a0ade0b876\n",
    "2 stored 0 1 1 903df1a0ade0b876\n3 stored 0 2 1 903df1a0ade0b876\n",
    "2 stored 0 1 1 903df1a0ade0b876\n3 stored 0 2 1 903df1a0ade0b876\n4 flushed 0:0 2\n",
    "2 stored 0 1 1 903df1a0ade0b876\n3 stored 0 2 1 903df1a0ade0b876\n4 flushed 0:0 2\n5 deleted 0 3 1\n",
];

/// A mix behind a fuse: how many of the lines before the compaction are acknowledged, the lines behind these, and the ends that a
/// restart and a read may have, by the note.
type Mix = (usize, &'static str, [&'static str; 2]);

/// Two puts of a pair make eight calls, a flush four, and a delete two.
fn mixed(calls: u64) -> Mix {
    match calls {
        0..4 => (
            0,
            "2 failed 0:0 1\n3 readonly 0:0\n4 readonly 0:0\n5 readonly 0:0\n6 readonly 0:0\n7 readonly 0:0\n8 restarted 1\n",
            [
                "lost 0:0 2\n9 gone 0 0 0 1\n",
                "kept 0:0 2\n9 photo 0 0 0 1 61\n",
            ],
        ),
        4..8 => (
            1,
            "3 failed 0:0 1\n4 readonly 0:0\n5 readonly 0:0\n6 readonly 0:0\n7 readonly 0:0\n8 restarted 1\n",
            [
                "lost 0:0 3\n9 photo 0 0 0 1 61\n",
                "kept 0:0 3\n9 photo 0 0 0 1 62\n",
            ],
        ),
        8..12 => (
            2,
            "4 failed 0:0 1\n5 failed 0:0 2\n6 readonly 0:0\n7 readonly 0:0\n8 restarted 1\n",
            [
                "lost 0:0 5\n9 photo 0 0 0 1 62\n",
                "kept 0:0 5\n9 gone 0 0 0 1\n",
            ],
        ),
        12..14 => (
            3,
            "5 failed 0:0 1\n6 readonly 0:0\n7 readonly 0:0\n8 restarted 1\n",
            [
                "lost 0:0 5\n9 photo 0 0 0 1 62\n",
                "kept 0:0 5\n9 gone 0 0 0 1\n",
            ],
        ),
        _ => mixed_behind(calls),
    }
}

/// The compaction has no cell to copy, and no block of records to write.
fn mixed_behind(calls: u64) -> Mix {
    let ends = [
        "8 restarted 2\nlost 0:0 7\n9 gone 0 0 0 2\n",
        "8 restarted 2\nkept 0:0 7\n9 gone 0 0 0 2\n",
    ];
    match calls {
        14..20 => (4, "6 failed 0:0 1\n7 failed 0:0 2\n", ends),
        20..24 => (
            4,
            "6 failed 0:0 1\n7 readonly 0:0\n",
            ["8 restarted 1\n9 gone 0 0 0 1\n"; 2],
        ),
        24 => (4, "6 compacted 0:0 1\n7 failed 0:0 3\n", ends),
        25 => (4, "6 compacted 0:0 1\n7 failed 0:0 2\n", ends),
        26..30 => (4, "6 compacted 0:0 1\n7 failed 0:0 1\n", ends),
        _ => (
            4,
            "6 compacted 0:0 1\n7 stored 0 4 2 903df1a0ade0b876\n",
            ["8 restarted 2\n9 gone 0 0 0 2\n"; 2],
        ),
    }
}

/// The transcript of a mix, up to the note.
fn front_of(alloc: Global, calls: u64, done: usize, rest: &str) -> Result<String, Fail> {
    let mut front = format!(in alloc; "haystack 1 1 1 67108864\n1 fused 0:0 {calls}\n")?;
    if let Some(lines) = ACKNOWLEDGED.get(done) {
        front.push_str(lines)?;
    }
    front.push_str(rest)?;
    Ok(front)
}

/// Runs the mix behind so many calls, and looks for one of the two ends.
fn try_mix(
    rt: &(impl Abort + Threads + Wait + Sync),
    alloc: Global,
    calls: u64,
    pick: u64,
) -> Result<(), Fail> {
    let script = format!(in alloc;
        "fuse 0 0 {calls}\nput 0 1 61\nput 0 1 62\nflush 0 0\ndel 0 1\ncompact 0 0\nput 0 2 63\nrestart {pick}\nread 0 1 903df1a0ade0b876\n"
    )?;
    let (done, rest, [lost, kept]) = mixed(calls);
    let front = front_of(alloc, calls, done, rest)?;
    let ran = Store::new(alloc).run(rt, RUN, script.as_bytes())?;
    ran.begins(rt, 0, front.as_bytes());
    let end = ran.written.get(front.len()..).unwrap_or(&[]);
    let is_told = end == lost.as_bytes() || end == kept.as_bytes();
    holds(rt, is_told, front.as_str(), end);
    Ok(())
}

#[test]
fn a_stop_anywhere_agrees_with_its_note(rt: HostRuntime) -> Result<(), Fail> {
    for calls in 0..31 {
        for pick in 0..2 {
            try_mix(&rt, rt.alloc(), calls, pick)?;
        }
    }
    Ok(())
}
