//! Audits: what is said of a transcript, at which status.

use super::cases::{CASES, Case};
use super::store::{NO_FAULTS, Ran, Store, Streams};
use hay_lanes::OpenGate;
use std::alloc::Global;
use std::sync::Wait;
use std::test::Fail;
use std::thread::Threads;

/// What an audit under these words is given, what it writes, and its status.
struct Audited {
    words: &'static [&'static str],
    input: &'static str,
    status: u8,
    written: &'static str,
}

const AUDIT: &[&str] = &["audit"];

const AUDITED: [Audited; 14] = [
    Audited {
        words: AUDIT,
        input: "script 45\nput 0 1 68656c6c6f\nread 0 1 903df1a0ade0b876\nhaystack 1 1 1 67108864\n1 stored 0 1 1 903df1a0ade0b876\n2 photo 0 0 1 1 68656c6c6f\n",
        status: 0,
        written: "lawful 2\n",
    },
    // Another photo.
    Audited {
        words: AUDIT,
        input: "script 45\nput 0 1 68656c6c6f\nread 0 1 903df1a0ade0b876\nhaystack 1 1 1 67108864\n1 stored 0 1 1 903df1a0ade0b876\n2 photo 0 0 1 1 68656c6c70\n",
        status: 9,
        written: "unlawful 1\n",
    },
    // The transcript goes on.
    Audited {
        words: AUDIT,
        input: "script 11\nput 0 1 61\nhaystack 1 1 1 67108864\n1 stored 0 1 1 903df1a0ade0b876\n\n",
        status: 9,
        written: "unlawful 1\n",
    },
    // A deleted photo is shown.
    Audited {
        words: AUDIT,
        input: "script 90\nput 0 1 61\nput 0 1 62\nread 0 1 903df1a0ade0b876\ndel 0 1\nread 0 1 903df1a0ade0b876\ndel 0 1\nhaystack 1 1 1 67108864\n1 stored 0 1 1 903df1a0ade0b876\n2 stored 0 2 1 903df1a0ade0b876\n3 photo 0 0 2 1 62\n4 deleted 0 3 1\n5 photo 0 0 3 1 62\n6 gone 0 3 1\n",
        status: 9,
        written: "unlawful 4\n",
    },
    Audited {
        words: AUDIT,
        input: "script 90\nput 0 1 61\nput 0 1 62\nread 0 1 903df1a0ade0b876\ndel 0 1\nread 0 1 903df1a0ade0b876\ndel 0 1\nhaystack 1 1 1 67108864\n1 stored 0 1 1 903df1a0ade0b876\n2 stored 0 2 1 903df1a0ade0b876\n3 photo 0 0 2 1 62\n4 deleted 0 3 1\n5 gone 0 0 3 1\n6 gone 0 3 1\n",
        status: 0,
        written: "lawful 6\n",
    },
    // The transcript of a store with other settings.
    Audited {
        words: &["audit", "--capacity", "8192"],
        input: "script 0\nhaystack 1 1 1 67108864\n",
        status: 9,
        written: "unlawful 0\n",
    },
    Audited {
        words: &["audit", "--machines=2", "--replicas", "2"],
        input: "script 0\nhaystack 2 1 2 67108864\n",
        status: 0,
        written: "lawful 0\n",
    },
    // Memory was wanting.
    Audited {
        words: AUDIT,
        input: "script 11\nput 0 1 61\nhaystack 1 1 1 67108864\n1 nomem\n",
        status: 11,
        written: "open 0\n",
    },
    // A block.
    Audited {
        words: AUDIT,
        input: "script 33\nput 0 1 61\nlanes 1\n0 del 0 1\nend\nhaystack 1 1 1 67108864\n1 stored 0 1 1 903df1a0ade0b876\n3 deleted 0 2 1\n",
        status: 11,
        written: "open 1\n",
    },
    // No frames.
    Audited {
        words: AUDIT,
        input: "",
        status: 10,
        written: "",
    },
    Audited {
        words: AUDIT,
        input: "script 3",
        status: 10,
        written: "",
    },
    Audited {
        words: AUDIT,
        input: "script 3\nab",
        status: 10,
        written: "",
    },
    Audited {
        words: AUDIT,
        input: "script 1073741825\n",
        status: 10,
        written: "",
    },
    // An audit has no folder.
    Audited {
        words: &["audit", "--folder", "store"],
        input: "script 0\nhaystack 1 1 1 67108864\n",
        status: 2,
        written: "",
    },
];

#[test]
fn transcripts_are_judged(rt: HostRuntime) -> Result<(), Fail> {
    for case in &AUDITED {
        let ran = Store::new(rt.alloc()).run(&rt, case.words, case.input.as_bytes())?;
        ran.is(&rt, case.status, case.written.as_bytes());
    }
    Ok(())
}

/// What an audit says of a transcript that was written by hand, and its status.
fn judged(rt: &(impl Threads + Wait + Sync), alloc: Global, case: &Case) -> Result<Ran, Fail> {
    let options = case.words.get(1..).unwrap_or(&[]);
    let words = [AUDIT, options].concat(alloc)?;
    let first = format!(in alloc; "script {}\n", case.script.len())?;
    let frame = [first.as_bytes(), case.script, case.transcript].concat(alloc)?;
    Store::new(alloc).run(rt, words.as_slice(), frame.as_slice())
}

/// Each is lawful, but for the one that begins with a block.
#[test]
fn transcripts_of_runs_are_lawful(rt: HostRuntime) -> Result<(), Fail> {
    for case in &CASES {
        let ran = judged(&rt, rt.alloc(), case)?;
        if case.script.starts_with(b"lanes 2") {
            ran.is(&rt, 11, b"open 0\n");
        } else {
            ran.begins(&rt, 0, b"lawful ");
        }
    }
    Ok(())
}

/// An audit where these calls of the streams fail.
fn faulty(
    rt: &(impl Threads + Wait + Sync),
    alloc: Global,
    failed_read: u64,
    failed_write: u64,
) -> Result<Ran, Fail> {
    let streams = Streams {
        failed_read,
        failed_write,
        ..NO_FAULTS
    };
    let frame = b"script 0\nhaystack 1 1 1 67108864\n";
    Store::new(alloc).run_with(rt, AUDIT, frame, streams, &OpenGate)
}

/// In the first line, in the transcript, and at its end.
#[test]
fn a_fault_of_a_stream_ends_an_audit(rt: HostRuntime) -> Result<(), Fail> {
    for call in [1, 10, 11] {
        faulty(&rt, rt.alloc(), call, 0)?.is(&rt, 4, b"");
    }
    faulty(&rt, rt.alloc(), 0, 1)?.is(&rt, 3, b"lawf");
    Ok(())
}
