//! Counts of disks that failed.

ghost use Rattle.std.specs.Prelude.{◌≡◌, IfOk};
ghost use Rattle.hay_legal.specs.Known as known;
ghost use Rattle.hay_audit_steps.specs.Next as next;

use crate::lay::{count_at, set_count};
use crate::state::{State, drop_state};
use hay_base::{Listed, NoMemory};
use std::alloc::Global;

pub(crate) fn has_risen(before: u64, after: u64) -> bool
    ensures { result ≡ known.has_risen before after }
{
    before < after || after == u64::MAX
}

/// The count of a disk rose to this.
pub(crate) fn rises_to(state: &State, slot: usize, faults: u64) -> bool
    ensures { result ≡ next.rises_to state.now slot faults }
{
    let before = count_at(&state.faults, slot);
    slot < state.faults.len() && (before <= faults && has_risen(before, faults))
}

pub(crate) fn with_fault(state: State, slot: usize, faults: u64) -> State
    ensures { result ≡ next.with_fault state slot faults }
{
    State {
        volumes: state.volumes,
        directory: state.directory,
        drained: state.drained,
        faults: set_count(state.faults, slot, faults),
        arms: state.arms,
        fuses: state.fuses,
    }
}

/// The state with the count of a disk, where the test holds.
pub(crate) fn fault_if(
    alloc: Global,
    test: bool,
    state: State,
    slot: usize,
    faults: u64,
) -> Result<Listed<State>, NoMemory>
    ensures { IfOk result (λ states. states ≡ next.keep_if test (next.with_fault state slot faults)) }
{
    if test {
        Listed::one(alloc, with_fault(state, slot, faults))
    } else {
        drop_state(state);
        Ok(Listed::new(alloc))
    }
}
