//! What of a file may not be on the disk.
ghost use Rattle.std.specs.Prelude.{◌≡◌, ◌↔◌, ◌≤◌, ◌<◌, ◌+◌, ◌-◌, ◌^◌, ℕ, true, false, min, IsTrue, IfSome, IfNone};
ghost use Rattle.hay_filedisk.specs.Unsynced.{IsUnsynced, AreWithin, has_failed};

/// The range of a file that was written since its last good sync, and whether a sync has failed since.
///
/// A sync that fails may leave pages that the system takes for written, so that the next one answers Ok without them.
/// So behind a failed sync the range is written again before another is believed.
#[derive(Clone, Copy, Debug, PartialEq, Eq)]
pub struct Unsynced {
    from: u64,
    to: u64,
    has_failed: bool,
}

impl Unsynced {
    /// All is on the disk.
    pub fn none() -> Unsynced
        ensures empty { (k : ℕ) → IsUnsynced result k → ⊥ }
        ensures failed { has_failed result ≡ false }
    {
        Unsynced {
            from: 0,
            to: 0,
            has_failed: false,
        }
    }

    /// Any of the file may have been written.
    pub fn all() -> Unsynced
        ensures all { (k : ℕ) → k < 2 ^ 64 - 1 → IsUnsynced result k }
        ensures failed { has_failed result ≡ false }
    {
        Unsynced {
            from: 0,
            to: u64::MAX,
            has_failed: false,
        }
    }

    pub fn is_empty(&self) -> bool
        ensures empty { IsTrue result → (k : ℕ) → IsUnsynced self.now k → ⊥ }
        ensures some { ((k : ℕ) → IsUnsynced self.now k → ⊥) → IsTrue result }
    {
        self.to <= self.from
    }

    /// Notes that bytes were written at a place, or some of them.
    pub fn note_write(&mut self, at: u64, len: usize)
        ensures kept { (k : ℕ) → IsUnsynced self.old k → IsUnsynced self.new k }
        ensures written { (k : ℕ) → at ≤ k → k < min (2 ^ 64 - 1) (at + len) → IsUnsynced self.new k }
        ensures least { (low high : ℕ) → low ≤ at → at + len ≤ high → AreWithin self.old low high → AreWithin self.new low high }
        ensures failed { has_failed self.new ≡ has_failed self.old }
    {
        let end = at.saturating_add(len as u64);
        if self.to <= self.from {
            self.from = at;
            self.to = end;
        } else {
            self.from = self.from.min(at);
            self.to = self.to.max(end);
        }
    }

    /// Notes that a sync has failed.
    pub fn note_failure(&mut self)
        ensures { self.new ≡ record self.old { has_failed = true } }
    {
        self.has_failed = true;
    }

    /// The range that has to be written again before a sync of the file is believed, if there is one: its start and its end.
    pub fn lost(&self) -> Option<(u64, u64)>
        ensures range { IfSome result (λ range. (k : ℕ) → IsUnsynced self.now k ↔ ((range.0 ≤ k) × (k < range.1))) }
        ensures failed { IfSome result (λ _. has_failed self.now ≡ true) }
        ensures none { IfNone result (has_failed self.now ≡ false) }
    {
        if self.has_failed {
            Some((self.from, self.to))
        } else {
            None
        }
    }
}
