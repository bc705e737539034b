//! Counts of faults.
ghost use Rattle.std.specs.Prelude.{◌≡◌, ◌≤◌, Ok, IfOk, IsErr};
ghost use Rattle.hay_disk.specs.Counts.{IsCounted, Rose};

use hay_disk::Failed;
use std::io;

/// How often a call has failed. It stays at its greatest value.
#[derive(Clone, Copy, Debug)]
pub(crate) struct Faults {
    count: u64,
}

impl Faults {
    pub(crate) const NONE: Faults = Faults { count: 0 };

    pub(crate) fn count(&self) -> u64
        ensures { result ≡ self.now.count }
    {
        self.count
    }

    /// Counts a fault.
    pub(crate) fn add(&mut self)
        ensures later { self.old.count ≤ self.new.count }
        ensures rose { Rose self.old.count self.new.count }
    {
        self.count = self.count.saturating_add(1);
    }

    /// Counts a call that failed.
    pub(crate) fn note<T: Drop>(&mut self, outcome: io::Result<T>) -> Result<T, Failed>
        ensures ok { IfOk result (λ value. outcome ≡ Ok value) }
        ensures counted { IsCounted self.old.count self.new.count (IsErr result) }
    {
        match outcome {
            Ok(value) => Ok(value),
            Err(_) => {
                self.add();
                Err(Failed)
            }
        }
    }
}
