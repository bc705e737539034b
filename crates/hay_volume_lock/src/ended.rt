//! Compactions that deletes ended.
ghost use Rattle.std.specs.Prelude.{◌≡◌, ◌<◌, ℕ, Some, None};
ghost use Rattle.hay_volume_lock.specs.Ended.{ended_at};

use std::marker::Model;

/// How often the disk of each replica had failed behind the last delete that ended its compaction, by the lane that had begun it.
/// Clauses see the counts by replica and lane.
#[derive(Drop)]
pub struct Ended {
    counts: [[Option<u64>; 8]; 4],
}

impl Model for Ended {
    ghost use Rattle.std.specs.Prelude.{◌≡◌, ℕ, List, Option, length};
    ghost use Rattle.std.specs.List.{AllByRecursion};

    ghost Value = { List (List (Option ℕ)) };

    ghost view = { λ e. e.counts };

    ghost invariant = { λ e. (length e.counts ≡ 4) × AllByRecursion (λ row. length row ≡ 8) e.counts };
}

impl Ended {
    /// None was ended.
    pub(crate) fn none() -> Ended
        ensures { (j lane : ℕ) → ended_at result j lane ≡ None }
    {
        Ended {
            counts: [[None; 8]; 4],
        }
    }

    /// The count of a replica's disk behind the delete that ended a compaction of the lane last.
    pub(crate) fn of(&self, replica: u32, lane: u32) -> Option<u64>
        requires replica { replica < 4 }
        requires lane { lane < 8 }
        ensures { result ≡ ended_at self.now replica lane }
    {
        self.counts[replica as usize][lane as usize]
    }

    /// Sets it. There are no counts for other lanes than eight.
    pub(crate) fn set(&mut self, replica: u32, lane: u32, faults: u64)
        requires { replica < 4 }
        ensures set { lane < 8 → ended_at self.new replica lane ≡ Some faults }
        ensures others { (j other : ℕ) → (j ≡ replica → other ≡ lane → ⊥) → ended_at self.new j other ≡ ended_at self.old j other }
    {
        if lane < 8 {
            self.counts[replica as usize][lane as usize] = Some(faults);
        }
    }
}
