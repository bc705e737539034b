//! Which calls of an object are to fail.
ghost use Rattle.std.specs.Prelude.{◌≡◌, ◌≤◌, ◌<◌, ◌+◌, ◌-◌, ◌^◌, ◌↔◌, true, false, [], ℕ, Contains, OnOk, OnErr};
ghost use Rattle.hay_disk.specs.Counts.{Rose};

use hay_base::NoMemory;
use std::alloc::Global;

/// The calls that were made, those that are to fail, by their numbers from 1, and how many did.
#[derive(Drop)]
pub(crate) struct Failures {
    alloc: Global,
    listed: Vec<u64>,
    calls: u64,
    faults: u64,
}

impl Failures {
    ghost use Rattle.hay_memdisk.specs.Failures.{is_over, fault_count};

    /// No call is to fail.
    pub(crate) fn new(alloc: Global) -> Failures
        ensures over { is_over result ≡ true }
        ensures faults { fault_count result ≡ 0 }
    {
        Failures {
            alloc,
            listed: Vec::new(alloc),
            calls: 0,
            faults: 0,
        }
    }

    /// Lists the calls that are to fail, in place of those listed before.
    pub(crate) fn list(&mut self, calls: &[u64]) -> Result<(), NoMemory>
        ensures ok { OnOk result (self.new.listed.items ≡ calls.now) }
        ensures err { OnErr result (self.new.listed.items ≡ self.old.listed.items) }
        ensures calls { self.new.calls ≡ self.old.calls }
        ensures faults { fault_count self.new ≡ fault_count self.old }
    {
        self.listed = calls.to_vec(self.alloc)?;
        Ok(())
    }

    /// Counts a call, and says whether it fails. If it does, it is counted as a fault.
    pub(crate) fn next_fails(&mut self) -> bool
        ensures counts { self.old.calls < 2 ^ 64 - 1 → self.new.calls ≡ self.old.calls + 1 }
        ensures fails { self.old.calls < 2 ^ 64 - 1 → (result ≡ true) ↔ Contains self.old.listed.items (self.old.calls + 1) }
        ensures over { is_over self.old ≡ true → result ≡ false }
        ensures stays_over { is_over self.old ≡ true → is_over self.new ≡ true }
        ensures later { fault_count self.old ≤ fault_count self.new }
        ensures rose { result ≡ true → Rose (fault_count self.old) (fault_count self.new) }
        ensures passed { result ≡ false → fault_count self.new ≡ fault_count self.old }
    {
        let Some(number) = self.calls.checked_add(1) else {
            return false;
        };
        self.calls = number;
        if !self.listed.contains(&number) {
            return false;
        }
        self.fault();
        true
    }

    /// Counts a fault.
    pub(crate) fn fault(&mut self)
        ensures rose { Rose (fault_count self.old) (fault_count self.new) }
        ensures later { fault_count self.old ≤ fault_count self.new }
        ensures calls { self.new.calls ≡ self.old.calls }
        ensures listed { self.new.listed.items ≡ self.old.listed.items }
    {
        self.faults = self.faults.saturating_add(1);
    }

    /// How many calls have failed.
    pub(crate) fn faults(&self) -> u64
        ensures { result ≡ fault_count self.now }
    {
        self.faults
    }
}
