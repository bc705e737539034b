//! Random holdings, by a linear congruence.
ghost use Rattle.std.specs.Prelude.{◌<◌};

use super::plain::{Change, Plain};

#[derive(Clone, Copy)]
pub enum Job {
    Change(Change),
    Flush(u32),
    Start(u32),
    Step(u32, u64),
    Finish(u32),
}

/// What befalls a holding, and behind how many of its device calls.
#[derive(Clone, Copy)]
pub enum Strike {
    Never,
    Stops(u64),
    Fails(u64),
    ReadFails(u64),
}

#[derive(Drop)]
pub struct Draw {
    state: u64,
}

impl Draw {
    pub fn new(seed: u64) -> Draw {
        Draw { state: seed }
    }

    fn below(&mut self, count: u64) -> u64
        requires { 0 < count }
        ensures { result < count }
    {
        self.state = self
            .state
            .wrapping_mul(6_364_136_223_846_793_005)
            .wrapping_add(1_442_695_040_888_963_407);
        (self.state >> 33) % count
    }

    pub fn is_one_in(&mut self, count: u64) -> bool
        requires { 0 < count }
    {
        self.below(count) == 0
    }

    fn job(&mut self) -> Job {
        let pair = self.below(3) as u8;
        let side = self.below(2) as u32;
        match self.below(16) {
            0..=5 => Job::Change(Change {
                pair,
                photo: Some(self.below(99) as u8 + 1),
            }),
            6..=8 => Job::Change(Change { pair, photo: None }),
            9 => Job::Flush(side),
            10 | 11 => Job::Start(side),
            12 | 13 => Job::Step(side, self.below(4)),
            _ => Job::Finish(side),
        }
    }

    // Of a delete beside a compaction the calls behind the first two are not known.
    fn strike(&mut self, job: Job, plain: &Plain, compacts: bool) -> Strike {
        let calls = match job {
            Job::Change(change) if change.photo.is_some() || !compacts => plain.calls(change),
            Job::Change(_) => 2,
            _ => 9,
        };
        let call = self.below(calls.max(1));
        match (self.below(12), job) {
            (0, _) => Strike::Fails(call),
            (1, _) => Strike::Stops(call),
            (2, Job::Change(change)) if change.photo.is_some() => {
                Strike::ReadFails(self.below(5) + 4)
            }
            (2, Job::Step(_, _) | Job::Finish(_)) => Strike::ReadFails(call),
            _ => Strike::Never,
        }
    }

    /// A holding, and what befalls it.
    pub fn round(&mut self, plain: &Plain, compacts: bool) -> (Job, Strike) {
        let job = self.job();
        let strike = self.strike(job, plain, compacts);
        (job, strike)
    }
}
