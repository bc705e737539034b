//! The door in front of the tickets: of those that want a turn, all but one wait here asleep. No proof rests on it.

use std::hint;
use std::sync::Wait;
use std::sync::atomic::{AtomicU64, Ordering};

const FREE: u64 = 0;

const TAKEN: u64 = 1;

// It is taken, and others may be asleep.
const AWAITED: u64 = 2;

// It is taken, and one that waits asks that it be left to those that do.
const ASKED: u64 = 3;

// It is free for those that wait.
const LEFT: u64 = 4;

// How often a seat looks at a door that is taken before it sleeps.
const LOOKS: u32 = 100;

// After so many sleeps a seat asks.
const SLEEPS: u32 = 2;

/// At most one is behind it.
#[derive(Drop)]
pub(crate) struct Door {
    state: AtomicU64,
}

impl Door {
    pub(crate) fn new() -> Door {
        Door {
            state: AtomicU64::new(FREE),
        }
    }

    fn changes(&self, from: u64, to: u64) -> bool {
        self.state
            .compare_exchange(from, to, Ordering::SeqCst, Ordering::SeqCst)
            .is_ok()
    }

    // Looks for a short time, since most turns are short.
    fn is_entered_soon(&self) -> bool {
        for _ in 0..LOOKS {
            if self.state.load(Ordering::SeqCst) == FREE && self.changes(FREE, TAKEN) {
                return true;
            }
            hint::spin_loop();
        }
        false
    }

    // Enters where that may be. One that slept may have the door that was left. Others may be asleep behind it.
    fn is_entered(&self, seen: u64, sleeps: u32) -> bool {
        (seen == FREE || (seen == LEFT && sleeps > 0)) && self.changes(seen, AWAITED)
    }

    // Sleeps, unless the door is no more as it was seen.
    fn sleep<R: Wait>(&self, rt: &R, seen: u64, sleeps: u32) {
        let wanted = if sleeps < SLEEPS { AWAITED } else { ASKED };
        if seen == FREE || (seen < wanted && !self.changes(seen, wanted)) {
            return;
        }
        self.state.park(rt, (seen.max(wanted) & 0xffff_ffff) as u32);
    }

    /// Waits until no other is behind the door. Whoever comes first enters, but that it is left now and then to those that wait.
    pub(crate) fn enter<R: Wait>(&self, rt: &R) {
        if self.changes(FREE, TAKEN) || self.is_entered_soon() {
            return;
        }
        let mut sleeps = 0u32;
        for _ in rt.forever() {
            let seen = self.state.load(Ordering::SeqCst);
            if self.is_entered(seen, sleeps) {
                return;
            }
            self.sleep(rt, seen, sleeps);
            sleeps = sleeps.saturating_add(1);
        }
        unreachable!()
    }

    /// Opens the door, and wakes one that sleeps. While it is taken, none but those that wait change what stands there, and only upwards.
    pub(crate) fn leave(&self) {
        if self.changes(TAKEN, FREE) {
            return;
        }
        if !self.changes(AWAITED, FREE) {
            self.state.store(LEFT, Ordering::SeqCst);
        }
        self.state.wake_one();
    }
}
