//! Blocks of which a gate chooses how the lanes meet.

use super::cases::Case;
use super::told::holds;
use super::try_case_at;
use hay_lanes::{Gate, Point};
use std::alloc::Global;
use std::process::Abort;
use std::sync::Wait;
use std::sync::atomic::{AtomicU64, Ordering};
use std::test::Fail;
use std::thread;
use std::thread::Threads;

/// How often a lane that is held looks again before it goes on.
const TURNS: u32 = 10_000_000;

/// Where a lane is in a line.
#[derive(Clone, Copy, PartialEq, Eq)]
struct Place {
    lane: u32,
    line: u64,
    point: Point,
}

/// Keeps the lane that comes to a place there until another place was passed.
#[derive(Drop)]
struct Hold {
    at: Place,
    until: Place,
    passed: AtomicU64,
}

impl Hold {
    fn new(at: Place, until: Place) -> Hold {
        Hold {
            at,
            until,
            passed: AtomicU64::new(0),
        }
    }

    /// Whether the other place was passed in time.
    fn wait(&self) -> bool {
        for _ in 0..TURNS {
            if self.passed.load(Ordering::SeqCst) > 0 {
                return true;
            }
            thread::yield_now();
        }
        false
    }
}

/// A gate with two holds, that tells when one of them was given up.
#[derive(Drop)]
struct Meeting {
    holds: [Hold; 2],
    given_up: AtomicU64,
}

impl Meeting {
    fn new(first: (Place, Place), second: (Place, Place)) -> Meeting {
        Meeting {
            holds: [Hold::new(first.0, first.1), Hold::new(second.0, second.1)],
            given_up: AtomicU64::new(0),
        }
    }

    fn note(&self, here: Place) {
        for hold in &self.holds {
            if hold.until == here {
                hold.passed.store(1, Ordering::SeqCst);
            }
        }
    }
}

impl Gate for Meeting {
    fn pass(&self, lane: u32, line: u64, point: Point) {
        let here = Place { lane, line, point };
        self.note(here);
        for hold in &self.holds {
            if hold.at == here && !hold.wait() {
                self.given_up.store(1, Ordering::SeqCst);
            }
        }
    }
}

const fn lane_at(lane: u32, line: u64, point: Point) -> Place {
    Place { lane, line, point }
}

/// Runs a block whose lanes meet so. No hold is given up.
fn meets(
    rt: &(impl Abort + Threads + Wait + Sync),
    alloc: Global,
    case: &Case,
    first: (Place, Place),
    second: (Place, Place),
) -> Result<(), Fail> {
    let gate = Meeting::new(first, second);
    try_case_at(rt, alloc, case, 4096, &gate)?;
    let given_up = gate.given_up.load(Ordering::SeqCst);
    holds(rt, given_up == 0, "a hold was given up", case.script);
    Ok(())
}

/// A read that looked before a compaction takes the place of the old file shows the photo that it saw.
#[test]
fn a_read_goes_on_across_a_swap(rt: HostRuntime) -> Result<(), Fail> {
    let case = Case {
        words: &["run"],
        script: b"put 0 1 61\nlanes 2\n0 read 0 1 903df1a0ade0b876\n1 compact 0 0\n1 put 0 1 62\nend\n",
        transcript: b"haystack 1 1 1 67108864\n1 stored 0 1 1 903df1a0ade0b876\n3 photo 0 0 1 1 61\n4 compacted 0:0 1\n5 stored 0 2 1 903df1a0ade0b876\nlog 0 1 5\n",
    };
    let looked = lane_at(0, 3, Point::Looked);
    meets(
        &rt,
        rt.alloc(),
        &case,
        (lane_at(1, 4, Point::Start), looked),
        (looked, lane_at(1, 5, Point::Answered)),
    )
}

/// A lane's read shows what another lane has been answered before it began.
#[test]
fn a_read_shows_the_put_of_another_lane(rt: HostRuntime) -> Result<(), Fail> {
    let case = Case {
        words: &["run"],
        script: b"lanes 2\n0 put 0 1 61\n0 read 0 1 903df1a0ade0b876\n1 put 0 1 62\nend\n",
        transcript: b"haystack 1 1 1 67108864\n2 stored 0 1 1 903df1a0ade0b876\n3 photo 0 0 2 1 62\n4 stored 0 2 1 903df1a0ade0b876\nlog 0 0 2 4\nrows 0 2:0\n",
    };
    meets(
        &rt,
        rt.alloc(),
        &case,
        (lane_at(1, 4, Point::Start), lane_at(0, 2, Point::Answered)),
        (lane_at(0, 3, Point::Start), lane_at(1, 4, Point::Answered)),
    )
}

/// A put goes on while another lane holds the other volume: no one lock is round all of them.
#[test]
fn puts_to_two_volumes_go_on_beside_each_other(rt: HostRuntime) -> Result<(), Fail> {
    let case = Case {
        words: &["run", "--machines", "2", "--volumes", "2"],
        script: b"put 0 1 61\ndrain 0\nput 0 2 62\nundrain 0\nlanes 2\n0 put 0 1 63\n1 put 0 2 64\nend\n",
        transcript: b"haystack 2 2 1 67108864\n1 stored 0 1 1 903df1a0ade0b876\n2 drained 0\n3 stored 1 1 2 903df1a0ade0b876\n4 undrained 0\n6 stored 0 2 2 903df1a0ade0b876\n7 stored 1 2 2 903df1a0ade0b876\nlog 0 1 6\nlog 1 1 7\n",
    };
    let held = lane_at(0, 6, Point::Held);
    meets(
        &rt,
        rt.alloc(),
        &case,
        (lane_at(1, 7, Point::Start), held),
        (held, lane_at(1, 7, Point::Answered)),
    )
}

/// A read takes no lock: it goes on while another lane holds its volume.
#[test]
fn a_read_goes_on_beside_a_put(rt: HostRuntime) -> Result<(), Fail> {
    let case = Case {
        words: &["run"],
        script: b"put 0 1 61\nlanes 2\n0 put 0 1 62\n1 read 0 1 903df1a0ade0b876\nend\n",
        transcript: b"haystack 1 1 1 67108864\n1 stored 0 1 1 903df1a0ade0b876\n3 stored 0 2 1 903df1a0ade0b876\n4 photo 0 0 1 1 61\nlog 0 1 3\n",
    };
    let held = lane_at(0, 3, Point::Held);
    meets(
        &rt,
        rt.alloc(),
        &case,
        (lane_at(1, 4, Point::Start), held),
        (held, lane_at(1, 4, Point::Answered)),
    )
}

/// Whether a hold saw its other place passed.
fn is_passed(hold: &Hold) -> bool {
    hold.passed.load(Ordering::SeqCst) > 0
}

/// Looks whether a run passes the gate before a line and behind its answer.
fn try_line(
    rt: &(impl Abort + Threads + Wait + Sync),
    alloc: Global,
    case: &Case,
    line: u64,
    passes: bool,
) -> Result<(), Fail> {
    let nowhere = lane_at(8, 0, Point::Held);
    let started = lane_at(0, line, Point::Start);
    let answered = lane_at(0, line, Point::Answered);
    let gate = Meeting::new((nowhere, started), (nowhere, answered));
    try_case_at(rt, alloc, case, 4096, &gate)?;
    let [first, second] = &gate.holds;
    let agrees = is_passed(first) == passes && is_passed(second) == passes;
    holds(rt, agrees, "a line and the gate", case.script);
    Ok(())
}

/// A command outside of blocks is lane 0's: it passes the gate before it and behind its answer. An empty line passes none.
#[test]
fn plain_commands_pass_the_gate(rt: HostRuntime) -> Result<(), Fail> {
    let case = Case {
        words: &["run"],
        script: b"put 0 1 61\n\nrestart 0\n",
        transcript: b"haystack 1 1 1 67108864\n1 stored 0 1 1 903df1a0ade0b876\n3 restarted 1\n",
    };
    for (line, passes) in [(1, true), (2, false), (3, true)] {
        try_line(&rt, rt.alloc(), &case, line, passes)?;
    }
    Ok(())
}
