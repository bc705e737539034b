//! Disks and arms that fail where a test says so.

use super::store::{RUN, Store};
use std::alloc::Global;
use std::process::Abort;
use std::sync::Wait;
use std::test::Fail;
use std::thread::Threads;

/// Runs `put 0 1 61` where the empty disk in a slot fails behind so many changing calls, and looks for what is told.
fn try_fused(
    rt: &(impl Abort + Threads + Wait + Sync),
    alloc: Global,
    slot: u32,
    calls: u64,
    status: u8,
    told: &str,
) -> Result<(), Fail> {
    let mut store = Store::new(alloc);
    store.put_fused(slot, calls)?;
    store.run(rt, RUN, b"put 0 1 61\n")?.tells(rt, status, told);
    Ok(())
}

/// The Directory's disk is formatted by a write and a sync, and a replica's by two removals and three files.
#[test]
fn formatting_makes_the_listed_calls(rt: HostRuntime) -> Result<(), Fail> {
    for (slot, listed, unopened, refused) in [
        (0, 2, "open failed 0 1\n", "1 failed dir 1\n"),
        (1, 8, "open failed 1 1\n", "1 failed 0:0 1\n"),
    ] {
        for calls in 0..listed {
            try_fused(&rt, rt.alloc(), slot, calls, 6, unopened)?;
        }
        try_fused(&rt, rt.alloc(), slot, listed, 0, refused)?;
    }
    Ok(())
}

/// Replicas whose fetch fails are passed over, and told where all fail.
#[test]
fn failed_fetches_are_laid_to_the_arm(rt: HostRuntime) -> Result<(), Fail> {
    let mut store = Store::new(rt.alloc());
    store.put_arm(0, &[1, 3, 4])?;
    store.answers(
        &rt,
        &["run", "--machines", "2", "--replicas", "2"],
        b"put 0 1 61\nread 0 1 903df1a0ade0b876\nread 0 1 903df1a0ade0b876\n",
        0,
        b"haystack 2 1 2 67108864\n1 stored 0 1 1 903df1a0ade0b876\n2 photo 0 1 1 1 61\n3 unreadable 0 1 1 1:arm:2 0:arm:3\n",
    )
}
