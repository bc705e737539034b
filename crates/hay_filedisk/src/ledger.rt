//! What a shelf keeps of the disks or arms that it hands out.
ghost use Rattle.std.specs.Prelude.{◌≡◌, true, false, ℕ, IfOk, OnOk, OnErr};

use crate::faults::Faults;
use std::alloc::{AllocError, Global};
use std::collections::BTreeMap;

/// The counts with which a disk or an arm was given back, and whether it is out. Arms have no fuses.
#[derive(Clone, Copy, Debug)]
pub(crate) struct Held {
    pub(crate) faults: Faults,
    pub(crate) fuses: u64,
    pub(crate) is_out: bool,
}

const NEVER_OUT: Held = Held {
    faults: Faults::NONE,
    fuses: 0,
    is_out: false,
};

/// What was handed out, by number.
#[derive(Debug, Drop)]
pub(crate) struct Ledger {
    held: BTreeMap<u32, Held>,
}

impl Ledger {
    ghost use Rattle.hay_disk.specs.Disk.{KeepsOthers};
    ghost use Rattle.hay_filedisk.specs.Ledger.{held_at, never_out};

    pub(crate) fn new(alloc: Global) -> Ledger
        ensures { (n : ℕ) → held_at result n ≡ never_out }
    {
        Ledger {
            held: BTreeMap::new(alloc),
        }
    }

    /// Notes that a number is out, and answers what was kept of it.
    pub(crate) fn lend(&mut self, number: u32) -> Result<Held, AllocError>
        ensures held { IfOk result (λ held. held ≡ held_at self.old number) }
        ensures out { OnOk result ((held_at self.new number).is_out ≡ true) }
        ensures others { KeepsOthers number (held_at self.old) (held_at self.new) }
        ensures err { OnErr result (held_at self.new ≡ held_at self.old) }
    {
        let held = match self.held.get(&number) {
            Some(held) => *held,
            None => NEVER_OUT,
        };
        let lent = Held {
            faults: held.faults,
            fuses: held.fuses,
            is_out: true,
        };
        self.held.insert(number, lent)?;
        Ok(held)
    }

    /// Notes that a number is back, and its counts.
    pub(crate) fn take_back(&mut self, number: u32, faults: Faults, fuses: u64)
        requires { (held_at self.old number).is_out ≡ true }
        ensures back { held_at self.new number ≡ record { faults = faults; fuses = fuses; is_out = false } }
        ensures others { KeepsOthers number (held_at self.old) (held_at self.new) }
    {
        if let Some(held) = self.held.get_mut(&number) {
            *held = Held {
                faults,
                fuses,
                is_out: false,
            };
        }
    }
}
