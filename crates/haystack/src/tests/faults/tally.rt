//! How often the scripts met what they are to meet.

use super::replica::Done;
use super::script::Work;

/// How many commands failed, by kind, and how many replicas kept or lost a change behind a restart.
#[derive(Drop)]
pub struct Tally {
    pub changes: u64,
    pub flushes: u64,
    pub begins: u64,
    pub steps: u64,
    pub finishes: u64,
    /// A compaction that failed in the head switch.
    pub switches: u64,
    /// A delete that was acknowledged, and ended a compaction.
    pub repeats: u64,
    /// A compaction that was acknowledged, and left old files.
    pub removals: u64,
    pub kept: u64,
    pub lost: u64,
}

impl Tally {
    pub fn new() -> Tally {
        Tally {
            changes: 0,
            flushes: 0,
            begins: 0,
            steps: 0,
            finishes: 0,
            switches: 0,
            repeats: 0,
            removals: 0,
            kept: 0,
            lost: 0,
        }
    }

    /// Counts work on a replica that failed, or at which a call failed.
    pub fn count(&mut self, work: Work, done: Done, rose: bool) {
        match (done, work) {
            (Done::Unsure, _) => self.switches = self.switches.saturating_add(1),
            (Done::Failed, Work::Flush) => self.flushes = self.flushes.saturating_add(1),
            (Done::Failed, Work::Begin) => self.begins = self.begins.saturating_add(1),
            (Done::Failed, Work::Step(_)) => self.steps = self.steps.saturating_add(1),
            (Done::Failed, _) => self.finishes = self.finishes.saturating_add(1),
            _ if rose => self.removals = self.removals.saturating_add(1),
            _ => {}
        }
    }

    /// Counts a change that a replica kept, or lost.
    pub fn note(&mut self, is_kept: bool) {
        if is_kept {
            self.kept = self.kept.saturating_add(1);
        } else {
            self.lost = self.lost.saturating_add(1);
        }
    }

    pub fn add(&mut self, other: &Tally) {
        self.changes = self.changes.saturating_add(other.changes);
        self.flushes = self.flushes.saturating_add(other.flushes);
        self.begins = self.begins.saturating_add(other.begins);
        self.steps = self.steps.saturating_add(other.steps);
        self.finishes = self.finishes.saturating_add(other.finishes);
        self.switches = self.switches.saturating_add(other.switches);
        self.repeats = self.repeats.saturating_add(other.repeats);
        self.removals = self.removals.saturating_add(other.removals);
        self.kept = self.kept.saturating_add(other.kept);
        self.lost = self.lost.saturating_add(other.lost);
    }

    /// The least of the counts.
    pub fn least(&self) -> u64 {
        self.changes
            .min(self.flushes)
            .min(self.begins)
            .min(self.steps)
            .min(self.finishes)
            .min(self.switches)
            .min(self.repeats)
            .min(self.removals)
            .min(self.kept)
            .min(self.lost)
    }
}
