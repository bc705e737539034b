//! Blocks of lanes. Where what the lanes print depends on how they meet, all that they may print is listed.

use super::cases::Case;
use super::store::{NO_FAULTS, RUN, Ran, Store, Streams};
use super::told::{holds, same_status};
use super::try_case;
use hay_lanes::OpenGate;
use hay_memdisk::MemDisk;
use std::alloc::Global;
use std::process::Abort;
use std::sync::Wait;
use std::test::Fail;
use std::thread::Threads;

const TWO: &[&str] = &["run", "--volumes", "2"];

/// Blocks of which every order of the lanes prints the same.
const BLOCKS: [Case; 14] = [
    // A block without lines, and one that the script's end closes.
    Case {
        words: RUN,
        script: b"lanes 2\nend\nput 0 1 61\nlanes 8\n",
        transcript: b"haystack 1 1 1 67108864\n3 stored 0 1 1 903df1a0ade0b876\n",
    },
    // The script's end closes a block with lines.
    Case {
        words: RUN,
        script: b"lanes 1\n0 put 0 1 61\n0 read 0 1 903df1a0ade0b876",
        transcript: b"haystack 1 1 1 67108864\n2 stored 0 1 1 903df1a0ade0b876\n3 photo 0 0 1 1 61\nlog 0 0 2\nrows 0 2:0\n",
    },
    // Lines that a block doesn't take, and skipped ones.
    Case {
        words: RUN,
        script: b"lanes 2\nput 0 1 61\n1 put 0 1 61\n# no line\n2 put 0 1 62\n0 restart\n0 begin 0 0\nlanes 2\n1 del 0 1\nend\nend\n",
        transcript: b"haystack 1 1 1 67108864\n2 bad line\n3 stored 0 1 1 903df1a0ade0b876\n5 bad line\n6 bad line\n7 bad line\n8 bad line\n9 deleted 0 2 1\nlog 0 0 3 9\nrows 0 3:0\n11 bad line\n",
    },
    // Only bad lines: no note.
    Case {
        words: RUN,
        script: b"lanes 3\nread 0 1 0\nx\nend\nurl 0 1\n",
        transcript: b"haystack 1 1 1 67108864\n2 bad line\n3 bad line\n5 unknown 0\n",
    },
    // Every command of a lane.
    Case {
        words: RUN,
        script: b"lanes 1\n0 put 0 1 61\n0 url 0 1\n0 get http://store/0/0,0000000000000000_00000001_903df1a0ade0b876\n0 read 0 1 0\n0 flush 0 0\n0 compact 0 0\n0 del 0 1\n0 del 0 1\n0 read 0 1 0\n0 read 0 2 0\n0 get http://store/1/0,0000000000000000_00000001_903df1a0ade0b876\n0 compact 1 0\nend\n",
        transcript: b"haystack 1 1 1 67108864\n2 stored 0 1 1 903df1a0ade0b876\n3 url 1 http://store/0/0,0000000000000000_00000001_903df1a0ade0b876\n4 photo 0 0 1 1 61\n5 wrong cookie 0 0 1 1\n6 flushed 0:0 1\n7 compacted 0:0 1\n8 deleted 0 2 1\n9 gone 0 2 1\n10 gone 0 0 2 1\n11 unknown 1\n12 nowhere\n13 nowhere\nlog 0 0 2 8\nrows 0 2:0\n",
    },
    // Two lanes on two volumes, whose pairs have their homes.
    Case {
        words: TWO,
        script: b"put 0 1 61\nput 1 1 61\nlanes 2\n0 put 0 1 62\n1 put 1 1 62\n0 read 0 1 903df1a0ade0b876\n1 del 1 1\nend\nread 0 1 903df1a0ade0b876\nread 1 1 0\n",
        transcript: b"haystack 1 2 1 67108864\n1 stored 0 1 1 903df1a0ade0b876\n2 stored 1 1 2 fb7815c6d6df3fef\n4 stored 0 2 2 903df1a0ade0b876\n5 stored 1 2 2 fb7815c6d6df3fef\n6 photo 0 0 2 2 62\n7 deleted 1 3 2\nlog 0 1 4\nlog 1 1 5 7\n9 photo 0 0 2 2 62\n10 gone 1 0 3 2\n",
    },
    // Eight lanes.
    Case {
        words: &["run", "--volumes", "8"],
        script: b"put 0 1 61\nput 1 1 61\nput 2 1 61\nput 3 1 61\nput 4 1 61\nput 5 1 61\nput 6 1 61\nput 7 1 61\nlanes 8\n7 del 7 1\n6 del 6 1\n5 del 5 1\n4 del 4 1\n3 del 3 1\n2 del 2 1\n1 del 1 1\n0 del 0 1\nend\n",
        transcript: b"haystack 1 8 1 67108864\n1 stored 0 1 1 903df1a0ade0b876\n2 stored 1 1 2 fb7815c6d6df3fef\n3 stored 2 1 3 72702844b7b9c5d0\n4 stored 3 1 4 43175876f02b2f02\n5 stored 4 1 5 568bdbbed9891355\n6 stored 5 1 6 ce96746d34268b2d\n7 stored 6 1 7 712330b423b2135b\n8 stored 7 1 8 b9b44932bfcab1d8\n10 deleted 7 2 8\n11 deleted 6 2 8\n12 deleted 5 2 8\n13 deleted 4 2 8\n14 deleted 3 2 8\n15 deleted 2 2 8\n16 deleted 1 2 8\n17 deleted 0 2 8\nlog 0 1 17\nlog 1 1 16\nlog 2 1 15\nlog 3 1 14\nlog 4 1 13\nlog 5 1 12\nlog 6 1 11\nlog 7 1 10\n",
    },
    // A restart behind a block, and a block behind a restart: the log begins anew, and the rows stay.
    Case {
        words: RUN,
        script: b"lanes 2\n1 put 0 1 61\nend\nrestart 1\nlanes 2\n0 read 0 1 903df1a0ade0b876\n1 read 0 1 903df1a0ade0b876\nend\nlanes 1\n0 put 0 1 62\nend\n",
        transcript: b"haystack 1 1 1 67108864\n2 stored 0 1 1 903df1a0ade0b876\nlog 0 0 2\nrows 0 2:0\n4 restarted 1\n6 photo 0 0 0 1 61\n7 photo 0 0 0 1 61\n10 stored 0 1 1 903df1a0ade0b876\nlog 0 0 10\n",
    },
    // A disk that fails in a block freezes its volume, and a restart tells what is left of the change.
    Case {
        words: TWO,
        script: b"put 0 1 61\nput 1 1 61\nfuse 0 0 0\nlanes 2\n0 put 0 1 62\n0 put 0 1 63\n0 read 0 1 903df1a0ade0b876\n1 put 1 1 62\nend\nrestart 0\nread 0 1 903df1a0ade0b876\n",
        transcript: b"haystack 1 2 1 67108864\n1 stored 0 1 1 903df1a0ade0b876\n2 stored 1 1 2 fb7815c6d6df3fef\n3 fused 0:0 0\n5 failed 0:0 1\n6 readonly 0:0\n7 photo 0 0 1 2 61\n8 stored 1 2 2 fb7815c6d6df3fef\nlog 1 1 8\n10 restarted 2\nlost 0:0 5\n11 photo 0 0 0 2 61\n",
    },
    // The Directory's disk fails in a block.
    Case {
        words: RUN,
        script: b"put 0 1 61\nfuse dir 0\nlanes 2\n1 put 0 2 62\n1 put 0 3 63\n0 put 0 1 62\nend\n",
        transcript: b"haystack 1 1 1 67108864\n1 stored 0 1 1 903df1a0ade0b876\n2 fused dir 0\n4 failed dir 1\n5 readonly dir\n6 stored 0 2 1 903df1a0ade0b876\nlog 0 1 6\n",
    },
    // A full disk.
    Case {
        words: &["run", "--volumes", "2", "--capacity", "4096"],
        script: b"put 0 1 x3976:61\nput 1 1 61\nlanes 2\n0 put 0 1 -\n0 read 0 1 903df1a0ade0b876\n1 put 1 1 62\nend\n",
        transcript: b"haystack 1 2 1 4096\n1 stored 0 1 1 903df1a0ade0b876\n2 stored 1 1 2 fb7815c6d6df3fef\n4 full 0:0:4088:48\n5 photo 0 0 1 2 x3976:61\n6 stored 1 2 2 fb7815c6d6df3fef\nlog 1 1 6\n",
    },
    // Two replicas: a lane reads at that of its line, and work on one goes on beside puts to the other volume.
    Case {
        words: &[
            "run",
            "--machines",
            "2",
            "--volumes",
            "2",
            "--replicas",
            "2",
        ],
        script: b"put 0 1 61\nput 1 1 61\nlanes 2\n0 read 0 1 903df1a0ade0b876\n0 read 0 1 903df1a0ade0b876\n1 flush 1 0\n1 compact 1 1\n1 put 1 1 62\nend\n",
        transcript: b"haystack 2 2 2 67108864\n1 stored 0 1 1 903df1a0ade0b876\n2 stored 1 1 2 fb7815c6d6df3fef\n4 photo 0 0 1 2 61\n5 photo 0 1 1 2 61\n6 flushed 1:0 1\n7 compacted 1:1 1\n8 stored 1 2 2 fb7815c6d6df3fef\nlog 1 1 8\n",
    },
    // A drained machine takes no change in a block either.
    Case {
        words: &["run", "--machines", "2", "--volumes", "2"],
        script: b"put 0 1 61\nput 1 1 61\ndrain 0\nlanes 2\n0 put 0 1 62\n1 put 1 1 62\nend\nundrain 0\nlanes 2\n0 put 0 1 63\nend\n",
        transcript: b"haystack 2 2 1 67108864\n1 stored 0 1 1 903df1a0ade0b876\n2 stored 1 1 2 fb7815c6d6df3fef\n3 drained 0\n5 readonly 0:0\n6 stored 1 2 2 fb7815c6d6df3fef\nlog 1 1 6\n8 undrained 0\n10 stored 0 2 2 903df1a0ade0b876\nlog 0 1 10\n",
    },
    // A compaction that stands before a block is met there.
    Case {
        words: RUN,
        script: b"put 0 1 61\nbegin 0 0\nlanes 2\n0 compact 0 0\n0 put 0 1 62\nend\nstep 0 0 1\nfinish 0 0\nread 0 1 903df1a0ade0b876\n",
        transcript: b"haystack 1 1 1 67108864\n1 stored 0 1 1 903df1a0ade0b876\n2 begun 0:0 1\n4 busy 0:0 1\n5 stored 0 2 1 903df1a0ade0b876\nlog 0 1 5\n7 stepped 0:0 1\n8 compacted 0:0 1\n9 photo 0 0 2 1 62\n",
    },
];

#[test]
fn blocks_are_exact(rt: HostRuntime) -> Result<(), Fail> {
    for case in &BLOCKS {
        for step in [1, 4096] {
            try_case(&rt, rt.alloc(), case, step)?;
        }
    }
    Ok(())
}

/// What three lanes may print that put one pair and read it, by the order of the two puts in the log: their replies, what the read
/// shows, the log, and the read behind the block.
struct Order {
    stored: &'static str,
    shown: [&'static str; 4],
    logged: &'static str,
    left: &'static str,
}

/// The read meets no row, a row without a photo, the first photo or the last.
const ORDERS: [Order; 2] = [
    Order {
        stored: "haystack 1 1 1 67108864\n2 stored 0 1 1 903df1a0ade0b876\n3 stored 0 2 1 903df1a0ade0b876\n",
        shown: [
            "4 unknown 0\n",
            "4 gone 0 0 0 1\n",
            "4 photo 0 0 1 1 61\n",
            "4 photo 0 0 2 1 62\n",
        ],
        logged: "log 0 0 2 3\n",
        left: "6 photo 0 0 2 1 62\n",
    },
    Order {
        stored: "haystack 1 1 1 67108864\n2 stored 0 2 1 903df1a0ade0b876\n3 stored 0 1 1 903df1a0ade0b876\n",
        shown: [
            "4 unknown 0\n",
            "4 gone 0 0 0 1\n",
            "4 photo 0 0 1 1 62\n",
            "4 photo 0 0 2 1 61\n",
        ],
        logged: "log 0 0 3 2\n",
        left: "6 photo 0 0 2 1 61\n",
    },
];

/// The row is the one line's or the other's.
const ROWS: [&str; 2] = ["rows 0 2:0\n", "rows 0 3:0\n"];

/// Whether three lanes may print this.
fn may_be_met(alloc: Global, written: &[u8], order: &Order) -> Result<bool, Fail> {
    for row in ROWS {
        for shown in order.shown {
            let told = [order.stored, shown, order.logged, row, order.left].concat(alloc)?;
            if written == told.as_bytes() {
                return Ok(true);
            }
        }
    }
    Ok(false)
}

/// Lets three lanes meet, and looks for one of the transcripts.
fn try_meeting(rt: &(impl Abort + Threads + Wait + Sync), alloc: Global) -> Result<(), Fail> {
    let script =
        b"lanes 3\n0 put 0 1 61\n1 put 0 1 62\n2 read 0 1 903df1a0ade0b876\nend\nread 0 1 903df1a0ade0b876\n";
    let ran = Store::new(alloc).run(rt, RUN, script)?;
    let written = ran.written.as_slice();
    let [first, second] = &ORDERS;
    let is_met = may_be_met(alloc, written, first)? || may_be_met(alloc, written, second)?;
    holds(rt, is_met, "three lanes", written);
    same_status(rt, ran.status, 0);
    Ok(())
}

#[test]
fn lanes_that_meet_agree(rt: HostRuntime) -> Result<(), Fail> {
    for _ in 0..16 {
        try_meeting(&rt, rt.alloc())?;
    }
    Ok(())
}

/// A block where the output fails at this call.
fn cut(rt: &(impl Threads + Wait + Sync), alloc: Global, failed_write: u64) -> Result<Ran, Fail> {
    let mut store = Store::new(alloc);
    store.put_disk(1, MemDisk::new(alloc))?;
    let streams = Streams {
        step: 11,
        failed_write,
        ..NO_FAULTS
    };
    let script = b"lanes 2\n0 put 0 1 61\nx\nend\nread 0 1 903df1a0ade0b876\n";
    store.run_with(rt, RUN, script, streams, &OpenGate)
}

/// The header, two replies, two notes and a reply are a call each.
#[test]
fn a_block_is_cut_where_the_sink_fails(rt: HostRuntime) -> Result<(), Fail> {
    let whole =
        b"haystack 1 1 1 67108864\n2 stored 0 1 1 903df1a0ade0b876\n3 bad line\nlog 0 0 2\nrows 0 2:0\n5 photo 0 0 1 1 61\n";
    let mut len = 0;
    for call in 1..7 {
        let ran = cut(&rt, rt.alloc(), call)?;
        ran.is_cut_of(&rt, whole);
        holds(
            &rt,
            len <= ran.written.len(),
            "a shorter transcript",
            ran.written.as_slice(),
        );
        len = ran.written.len();
    }
    cut(&rt, rt.alloc(), 7)?.is(&rt, 0, whole);
    Ok(())
}

/// The replies to a put of each of two lanes, which bring their volumes to this position.
fn stored(alloc: Global, position: u64) -> Result<String, Fail> {
    let line = position.saturating_mul(2);
    let next = line.saturating_add(1);
    Ok(format!(in alloc;
        "{line} stored 0 {position} 2 903df1a0ade0b876\n{next} stored 1 {position} 2 fb7815c6d6df3fef\n"
    )?)
}

/// The log of a volume whose put stood before the block, and whose lines of the block are each second one from this one on.
fn log_of(alloc: Global, volume: u64, first: u64) -> Result<String, Fail> {
    let mut log = format!(in alloc; "log {volume} 1")?;
    for nth in 0..200_u64 {
        let line = nth.saturating_mul(2).saturating_add(first);
        write!(log, " {line}")?;
    }
    log.push_str("\n")?;
    Ok(log)
}

/// What two lanes of 200 puts each to a volume of its own print: every reply is known before.
fn many(alloc: Global) -> Result<String, Fail> {
    let mut told = String::from_str(
        alloc,
        "haystack 1 2 1 67108864\n1 stored 0 1 1 903df1a0ade0b876\n2 stored 1 1 2 fb7815c6d6df3fef\n",
    )?;
    for position in 2..202 {
        told.push_str(stored(alloc, position)?.as_str())?;
    }
    told.push_str(log_of(alloc, 0, 4)?.as_str())?;
    told.push_str(log_of(alloc, 1, 5)?.as_str())?;
    Ok(told)
}

#[test]
fn long_lanes_keep_their_order(rt: HostRuntime) -> Result<(), Fail> {
    let alloc = rt.alloc();
    let mut script = String::from_str(alloc, "put 0 1 61\nput 1 1 61\nlanes 2\n")?;
    for _ in 0..200 {
        script.push_str("0 put 0 1 61\n1 put 1 1 62\n")?;
    }
    let told = many(alloc)?;
    Store::new(alloc).answers(&rt, TWO, script.as_bytes(), 0, told.as_bytes())
}
