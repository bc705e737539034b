//! How many bytes of a volume file an opening reads, and the first read of a photo behind it.

use super::store::{Store, store_of};
use super::told::{holds, same_status};
use std::alloc::Global;
use std::process::Abort;
use std::sync::Wait;
use std::test::Fail;
use std::thread::Threads;

const TWO: &[&str] = &["run", "--machines", "2", "--replicas", "2"];

/// Scripts that ask for nothing.
const NOTHING: [&[u8]; 2] = [b"", b"# nothing\n\n"];

/// How many bytes of the two volume files an opening reads for a script that asks for nothing.
fn opening(
    rt: &(impl Abort + Threads + Wait + Sync),
    store: &mut Store,
    script: &[u8],
) -> Result<[u64; 2], Fail> {
    let before = [store.drawn(1), store.drawn(2)];
    store.answers(rt, TWO, script, 0, b"haystack 2 1 2 67108864\n")?;
    Ok([
        store.drawn(1).saturating_sub(before[0]),
        store.drawn(2).saturating_sub(before[1]),
    ])
}

/// Opens the store that a script leaves for scripts that ask for nothing: of each volume file so many bytes are read at least, and so
/// many at most.
fn try_openings(
    rt: &(impl Abort + Threads + Wait + Sync),
    alloc: Global,
    script: &[u8],
    least: u64,
    most: u64,
) -> Result<(), Fail> {
    let mut store = store_of(rt, alloc, TWO, script)?;
    for nothing in NOTHING {
        for read in opening(rt, &mut store, nothing)? {
            holds(
                rt,
                least <= read && read <= most,
                "bytes read",
                &read.to_be_bytes(),
            );
        }
    }
    Ok(())
}

#[test]
fn an_opening_reads_little_where_each_needle_has_a_record(rt: HostRuntime) -> Result<(), Fail> {
    let script = b"put 0 1 x1000000:61\nflush 0 0\nflush 0 1\n";
    try_openings(&rt, rt.alloc(), script, 1, 128)
}

/// A needle of 1,000,048 bytes has no record.
#[test]
fn an_opening_reads_a_needle_without_a_record(rt: HostRuntime) -> Result<(), Fail> {
    let script = b"put 0 1 x1000000:61\n";
    try_openings(&rt, rt.alloc(), script, 1_000_048, 128 + 1_000_048)
}

/// Of three needles of 56 bytes two have records, one of them of a photo that was deleted.
#[test]
fn an_opening_reads_what_a_lagging_index_lacks(rt: HostRuntime) -> Result<(), Fail> {
    let script = b"put 0 1 61\nput 0 2 62\nflush 0 0\nflush 0 1\nput 0 3 63\ndel 0 1\n";
    try_openings(&rt, rt.alloc(), script, 56, 128 + 56)
}

/// The first read of a photo reads its needle of 56 bytes once from the file, and never by the arm, whose first fetch fails.
#[test]
fn a_first_read_reads_the_needle_once(rt: HostRuntime) -> Result<(), Fail> {
    let mut store = Store::new(rt.alloc());
    store.put_arm(0, &[1])?;
    let script = b"put 0 1 61\nflush 0 0\nflush 0 1\n";
    same_status(&rt, store.run(&rt, TWO, script)?.status, 0);
    let opened = opening(&rt, &mut store, NOTHING[0])?;
    let before = store.drawn(2);
    store.answers(
        &rt,
        TWO,
        b"read 0 1 903df1a0ade0b876\n",
        0,
        b"haystack 2 1 2 67108864\n1 photo 0 1 0 1 61\n",
    )?;
    let read = store.drawn(2).saturating_sub(before);
    holds(
        &rt,
        read == opened[1].saturating_add(56),
        "bytes read",
        &read.to_be_bytes(),
    );
    Ok(())
}
