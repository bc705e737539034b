//! Drills, against summaries that were worked out by hand.

use super::store::{NO_FAULTS, Ran, Store, Streams};
use hay_lanes::OpenGate;
use std::sync::Wait;
use std::test::Fail;
use std::thread::Threads;

/// What drills write: of one photo, of two and of eight whose keys go on at 0, and of 200.
const SUMMARIES: [(&str, &str, &[u8]); 4] = [
    (
        "1",
        "0",
        b"drill 1 0\nstored 5\ndeleted 1\nphoto 6 141312\ngone 2\nflushed 16\ncompacted 16\nrows 4\nother 0\n",
    ),
    (
        "2",
        "18446744073709551615",
        b"drill 2 18446744073709551615\nstored 9\ndeleted 1\nphoto 14 315392\ngone 2\nflushed 16\ncompacted 16\nrows 8\nother 0\n",
    ),
    (
        "8",
        "18446744073709551612",
        b"drill 8 18446744073709551612\nstored 34\ndeleted 2\nphoto 60 1327104\ngone 4\nflushed 16\ncompacted 16\nrows 32\nother 0\n",
    ),
    (
        "200",
        "0",
        b"drill 200 0\nstored 840\ndeleted 29\nphoto 1542 33865728\ngone 58\nflushed 16\ncompacted 16\nrows 800\nother 0\n",
    ),
];

/// A drill over a store, where this write fails. No read of the source is to pass.
fn drilled(
    rt: &(impl Threads + Wait + Sync),
    store: &mut Store,
    words: &[&str],
    failed_write: u64,
) -> Result<Ran, Fail> {
    let streams = Streams {
        failed_read: 1,
        failed_write,
        ..NO_FAULTS
    };
    store.run_with(rt, words, b"", streams, &OpenGate)
}

#[test]
fn summaries_are_exact(rt: HostRuntime) -> Result<(), Fail> {
    for (count, first, summary) in SUMMARIES {
        let mut store = Store::new(rt.alloc());
        drilled(&rt, &mut store, &["drill", count, first], 0)?.is(&rt, 0, summary);
    }
    Ok(())
}

#[test]
fn a_summary_is_cut_where_the_output_ends(rt: HostRuntime) -> Result<(), Fail> {
    let mut store = Store::new(rt.alloc());
    drilled(&rt, &mut store, &["drill", "1", "0"], 1)?.is_cut_of(&rt, SUMMARIES[0].2);
    Ok(())
}

/// The Directory's disk lets no changing call pass.
#[test]
fn a_refused_opening_is_told_alone(rt: HostRuntime) -> Result<(), Fail> {
    let mut store = Store::new(rt.alloc());
    store.put_fused(0, 0)?;
    drilled(&rt, &mut store, &["drill", "1", "0"], 0)?.is(&rt, 6, b"open failed 0 1\n");
    Ok(())
}
