//! Runs of the public call over memory disks, against transcripts that were written by hand.

mod audits;
mod calls;
mod cases;
mod check;
mod compactions;
mod damage;
mod devices;
mod drills;
mod faults;
mod gates;
mod lanes;
mod loads;
mod openings;
mod store;
mod told;
mod versions;

use cases::{CASES, Case};
use hay_lanes::{Gate, OpenGate};
use hay_memdisk::SureShelf;
use std::alloc::Global;
use std::process::Abort;
use std::sync::Wait;
use std::test::Fail;
use std::thread::Threads;
use store::{NO_FAULTS, RUN, Ran, Store, Streams, run_on, store_of};
use told::{same_len, same_status};

/// A run on an empty store, over a source that gives so many bytes at a time, where each lane passes this gate.
fn try_case_at(
    rt: &(impl Abort + Threads + Wait + Sync),
    alloc: Global,
    case: &Case,
    step: usize,
    gate: &(impl Gate + Sync),
) -> Result<(), Fail> {
    let mut store = Store::new(alloc);
    let streams = Streams { step, ..NO_FAULTS };
    let ran = store.run_with(rt, case.words, case.script, streams, gate)?;
    ran.is(rt, 0, case.transcript);
    Ok(())
}

/// The same, where all lanes pass.
fn try_case(
    rt: &(impl Abort + Threads + Wait + Sync),
    alloc: Global,
    case: &Case,
    step: usize,
) -> Result<(), Fail> {
    try_case_at(rt, alloc, case, step, &OpenGate)
}

#[test]
fn transcripts_are_exact(rt: HostRuntime) -> Result<(), Fail> {
    for case in &CASES {
        for step in [1, 7, 4096] {
            try_case(&rt, rt.alloc(), case, step)?;
        }
    }
    Ok(())
}

/// Runs a script on an empty store, and looks for the transcript and for how many bytes the volume file has.
fn try_sized(
    rt: &(impl Abort + Threads + Wait + Sync),
    alloc: Global,
    script: &[u8],
    told: &str,
    len: usize,
) -> Result<(), Fail> {
    let mut store = Store::new(alloc);
    store.run(rt, RUN, script)?.tells(rt, 0, told);
    same_len(rt, store.bytes(1, 1).len(), len);
    Ok(())
}

#[test]
fn sizes_are_exact(rt: HostRuntime) -> Result<(), Fail> {
    for (script, told, len) in [
        // 64 + 48 + 1,048,624 + 1,048,632 + 8
        (
            b"put 0 1 -\nput 0 2 x1048576:61\nput 0 3 x1048577:61\nread 0 1 903df1a0ade0b876\nread 0 2 903df1a0ade0b876\n" as &[u8],
            "1 stored 0 1 1 903df1a0ade0b876\n2 stored 0 2 2 903df1a0ade0b876\n3 stored 0 3 3 903df1a0ade0b876\n4 photo 0 0 3 3 -\n5 photo 0 0 3 3 x1048576:61\n",
            2_097_376,
        ),
        (
            b"put 0 1 x1:61\nput 0 2 x7:61\nput 0 3 x8:61\nput 0 4 x9:61\n",
            "1 stored 0 1 1 903df1a0ade0b876\n2 stored 0 2 2 903df1a0ade0b876\n3 stored 0 3 3 903df1a0ade0b876\n4 stored 0 4 4 903df1a0ade0b876\n",
            304,
        ),
    ] {
        try_sized(&rt, rt.alloc(), script, told, len)?;
    }
    Ok(())
}

/// Its file has 64 + 16,777,264 + 8 bytes.
#[test]
fn the_largest_photo_is_stored_whole(rt: HostRuntime) -> Result<(), Fail> {
    try_sized(
        &rt,
        rt.alloc(),
        b"put 0 1 x16777216:61\nput 0 2 x16777217:61\nread 0 1 903df1a0ade0b876\n",
        "1 stored 0 1 1 903df1a0ade0b876\n2 bad line\n3 photo 0 0 1 1 x16777216:61\n",
        16_777_336,
    )
}

/// The digits of the largest photo, in a line of 33,554,560 bytes and in one of a byte more.
#[test]
fn the_longest_line_is_read(rt: HostRuntime) -> Result<(), Fail> {
    let mut script = Vec::new(rt.alloc());
    for (head, spaces) in [("put 0 1 ", 120), ("put 0 2 ", 121)] {
        script.extend_from_slice(head.as_bytes())?;
        script.resize(script.len() + 33_554_432, b'6')?;
        script.resize(script.len() + spaces, b' ')?;
        script.push(b'\n')?;
    }
    script.extend_from_slice(b"read 0 1 903df1a0ade0b876\n")?;
    try_sized(
        &rt,
        rt.alloc(),
        script.as_slice(),
        "1 stored 0 1 1 903df1a0ade0b876\n2 bad line\n3 photo 0 0 1 1 x16777216:66\n",
        16_777_336,
    )
}

/// A run of one put on an empty store, where these calls of the streams fail.
fn faulty(
    rt: &(impl Threads + Wait + Sync),
    alloc: Global,
    words: &[&str],
    failed_read: u64,
    failed_write: u64,
) -> Result<Ran, Fail> {
    let streams = Streams {
        step: 11,
        failed_read,
        failed_write,
    };
    let mut store = Store::new(alloc);
    store.run_with(rt, words, b"put 0 1 61\n", streams, &OpenGate)
}

#[test]
fn statuses_have_their_causes(rt: HostRuntime) -> Result<(), Fail> {
    for (words, failed_read, failed_write, status) in [
        (&[] as &[&str], 0, 0, 2),
        (&["fly"], 0, 0, 2),
        (&["run", "run"], 0, 0, 2),
        (&["run", "--volumes", "0"], 0, 0, 2),
        (&["run", "--capacity", "4095"], 0, 0, 2),
        (&["drill", "0", "0"], 0, 0, 2),
        (&["run", "--machines", "2", "--replicas", "3"], 0, 0, 2),
        (RUN, 0, 1, 3),
        (RUN, 0, 2, 3),
        (RUN, 2, 0, 4),
    ] {
        let ran = faulty(&rt, rt.alloc(), words, failed_read, failed_write)?;
        same_status(&rt, ran.status, status);
    }
    Ok(())
}

/// The store is opened again, but not with other settings.
#[test]
fn a_store_is_opened_by_its_settings(rt: HostRuntime) -> Result<(), Fail> {
    let mut store = Store::new(rt.alloc());
    for (words, status) in [(RUN, 0), (RUN, 0), (&["run", "--capacity", "8192"], 6)] {
        let ran = store.run(&rt, words, b"put 0 1 61\n")?;
        same_status(&rt, ran.status, status);
    }
    Ok(())
}

/// The disks of a shelf on which no call fails.
#[test]
fn a_full_volume_names_its_numbers(rt: HostRuntime) -> Result<(), Fail> {
    let alloc = rt.alloc();
    let mut script = Vec::new(alloc);
    for _ in 0..63 {
        script.extend_from_slice(b"put 0 1 x1048576:61\n")?;
    }
    script.extend_from_slice(
        b"put 0 1 x1048576:62\nput 0 2 x1045433:62\nput 0 2 x1045432:63\nput 0 3 -\nread 0 2 903df1a0ade0b876\n",
    )?;
    let mut shelf = SureShelf::new(alloc);
    let ran = run_on(
        &rt,
        alloc,
        RUN,
        script.as_slice(),
        NO_FAULTS,
        &mut shelf,
        &OpenGate,
    )?;
    ran.ends(
        &rt,
        0,
        "63 stored 0 63 1 903df1a0ade0b876\n64 full 0:0:66063376:1048624\n65 full 0:0:66063376:1045488\n66 stored 0 64 2 903df1a0ade0b876\n67 full 0:0:67108856:48\n68 photo 0 0 64 2 x1045432:63\n",
    );
    Ok(())
}

/// What is told behind the fuse of a stop in an append: of `put 0 1 62`, behind so many of its device calls, or of the put behind it.
fn stopped(calls: u64, pick: u64) -> &'static str {
    match (calls, pick) {
        (3, 1) => "3 failed 0:0 1\n4 readonly 0:0\n5 restarted 1\nkept 0:0 3\n6 photo 0 0 0 1 62\n",
        (4, _) =>
            "3 stored 0 2 1 903df1a0ade0b876\n4 failed 0:0 1\n5 restarted 2\nlost 0:0 4\n6 photo 0 0 0 2 62\n",
        _ => "3 failed 0:0 1\n4 readonly 0:0\n5 restarted 1\nlost 0:0 3\n6 photo 0 0 0 1 61\n",
    }
}

/// Runs a script in which the disk lets so many calls pass, and looks for what is told behind the fuse.
fn try_stop(
    rt: &(impl Abort + Threads + Wait + Sync),
    alloc: Global,
    calls: u64,
    pick: u64,
) -> Result<(), Fail> {
    let script = format!(in alloc;
        "put 0 1 61\nfuse 0 0 {calls}\nput 0 1 62\nput 0 2 63\nrestart {pick}\nread 0 1 903df1a0ade0b876\n"
    )?;
    let fused = format!(in alloc; "1 stored 0 1 1 903df1a0ade0b876\n2 fused 0:0 {calls}\n")?;
    let told = [fused.as_str(), stopped(calls, pick)].concat(alloc)?;
    let mut store = Store::new(alloc);
    let ran = store.run(rt, RUN, script.as_bytes())?;
    ran.tells(rt, 0, told.as_str());
    Ok(())
}

#[test]
fn a_stop_keeps_an_append_or_loses_it(rt: HostRuntime) -> Result<(), Fail> {
    for calls in 0..5 {
        for pick in 0..2 {
            try_stop(&rt, rt.alloc(), calls, pick)?;
        }
    }
    Ok(())
}

#[test]
fn the_store_outlives_the_run(rt: HostRuntime) -> Result<(), Fail> {
    let mut store = store_of(&rt, rt.alloc(), RUN, b"put 0 1 68656c6c6f\n")?;
    let ran = store.run(&rt, RUN, b"read 0 1 903df1a0ade0b876\n")?;
    ran.tells(&rt, 0, "1 photo 0 0 0 1 68656c6c6f\n");
    store.answers(
        &rt,
        &["run", "--capacity=8192"],
        b"read 0 1 0\n",
        6,
        b"haystack 1 1 1 8192\nopen damaged 0 0 40\n",
    )
}

/// A run over the volume file of `put 0 1 61`, which is cut at this place, with these bytes behind it.
fn damaged(
    rt: &(impl Abort + Threads + Wait + Sync),
    alloc: Global,
    at: usize,
    patch: &[u8],
) -> Result<Ran, Fail> {
    let store = store_of(rt, alloc, RUN, b"put 0 1 61\n")?;
    let mut bytes = store.bytes(1, 1).to_vec(alloc)?;
    bytes.truncate(at);
    bytes.extend_from_slice(patch)?;
    let mut second = store.with_file(1, 1, bytes.as_slice())?;
    second.run(rt, RUN, b"")
}

#[test]
fn damage_is_told_at_its_place(rt: HostRuntime) -> Result<(), Fail> {
    for (at, patch, status, told) in [
        // The superblock is cut.
        (40, b"" as &[u8], 6, "open damaged 1 1 40\n"),
        // A needle's magic without its needle.
        (120, b"NEEDLE01", 6, "open damaged 1 1 120\n"),
        // Any other eight bytes end the cells.
        (120, &[0xff; 8], 0, ""),
        // Another photo than the checksum is of.
        (
            100,
            b"bNEND\xdf\xbb\x28\xe7\xd8\x1a\xfc\xfe\0\0\0\0\0\0\0\0\0\0\0\0\0\0\0\0",
            6,
            "open damaged 1 1 64\n",
        ),
    ] {
        damaged(&rt, rt.alloc(), at, patch)?.tells(&rt, status, told);
    }
    Ok(())
}

#[test]
fn a_fault_of_a_stream_ends_the_run(rt: HostRuntime) -> Result<(), Fail> {
    let ran = faulty(&rt, rt.alloc(), RUN, 2, 0)?;
    ran.tells(&rt, 4, "1 stored 0 1 1 903df1a0ade0b876\n");
    let ran = faulty(&rt, rt.alloc(), RUN, 0, 1)?;
    ran.is_cut_of(&rt, b"haystack 1 1 1 67108864\n");
    Ok(())
}
