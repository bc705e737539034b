//! Loads, and runs over the stores that they leave.

use super::store::{RUN, Store};
use std::alloc::Global;
use std::process::Abort;
use std::sync::Wait;
use std::test::Fail;
use std::thread::Threads;

const LOAD: &[&str] = &["load", "--volumes", "2", "--capacity", "4096"];

const TWO: &[&str] = &["run", "--volumes", "2", "--capacity", "4096"];

/// The header, and the lines of a load of three batches and a bad line.
const TOLD: &[u8] =
    b"haystack 1 2 1 4096\n1 loaded 0 2 2\n3 known 0\n4 bad line\n5 full 0:0:176:4048 1:0:64:4048\n";

#[test]
fn a_load_is_read_by_a_run(rt: HostRuntime) -> Result<(), Fail> {
    let mut store = Store::new(rt.alloc());
    store.answers(
        &rt,
        LOAD,
        b"put 0 1 61\nput 0 2 62\nput 0 1 63\nread 0 1 0\nput 0 3 x4000:64\n",
        0,
        TOLD,
    )?;
    store.answers(
        &rt,
        TWO,
        b"read 0 1 903df1a0ade0b876\nread 0 2 903df1a0ade0b876\nread 0 3 903df1a0ade0b876\n",
        0,
        b"haystack 1 2 1 4096\n1 photo 0 0 0 2 61\n2 photo 0 0 0 2 62\n3 unknown 2\n",
    )
}

/// A load where so many calls of the Directory's disk pass, and what a run reads behind a stop.
fn try_failed(
    rt: &(impl Abort + Threads + Wait + Sync),
    alloc: Global,
    calls: u64,
    pick: u64,
    read: &str,
) -> Result<(), Fail> {
    let mut store = Store::new(alloc);
    store.put_fused(0, calls)?;
    let load = store.run(rt, &["load"], b"put 0 1 61\nput 0 2 62\n")?;
    load.tells(rt, 6, "1 failed dir 1\n");
    store.stop_directory(pick);
    let reads = b"read 0 1 903df1a0ade0b876\nread 0 2 903df1a0ade0b876\n";
    store.run(rt, RUN, reads)?.tells(rt, 0, read);
    Ok(())
}

#[test]
fn a_failed_load_leaves_no_photo_or_all(rt: HostRuntime) -> Result<(), Fail> {
    for calls in 0..4 {
        for pick in 0..2 {
            let kept = calls == 3 && pick == 1;
            let read = if kept {
                "1 photo 0 0 0 2 61\n2 photo 0 0 0 2 62\n"
            } else {
                "1 unknown 0\n2 unknown 0\n"
            };
            try_failed(&rt, rt.alloc(), 2 + calls, pick, read)?;
        }
    }
    Ok(())
}
