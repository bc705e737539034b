//! Replicas that were passed over, each laid to its disk or to the lane's arm.

ghost use Rattle.std.specs.Prelude.{◌≡◌, ◌<◌, ◌++◌, ◌==◌, ◌-◌, ◌^◌, length, max, slice_index, slice_set, IfOk, OnOk};
ghost use Rattle.hay_audit_steps.specs.Laid as laid;

use crate::state::{State, drop_state};
use hay_base::{Duplicate, Listed, NoMemory};
use std::alloc::Global;

/// The lowest count that a rise may leave.
fn next_count(count: u64) -> u64
    ensures { result ≡ laid.next_count count }
{
    if count == u64::MAX { count } else { count + 1 }
}

/// The counts, one of them set.
pub(crate) fn set_count(counts: Listed<u64>, index: usize, count: u64) -> Listed<u64>
    ensures { result ≡ slice_set counts index count }
{
    let mut counts = counts.into_vec();
    if index < counts.len() {
        counts[index] = count;
    }
    Listed::from_vec(counts)
}

pub(crate) fn count_at(counts: &Listed<u64>, index: usize) -> u64
    ensures { result ≡ slice_index counts.now index }
{
    match counts.as_slice().get(index) {
        Some(count) => *count,
        None => 0,
    }
}

pub(crate) fn raise_disk(before: &State, slot: usize, state: State) -> State
    ensures { result ≡ laid.raise_disk before.now slot state }
{
    let count = count_at(&state.faults, slot).max(next_count(count_at(&before.faults, slot)));
    State {
        volumes: state.volumes,
        directory: state.directory,
        drained: state.drained,
        faults: set_count(state.faults, slot, count),
        arms: state.arms,
        fuses: state.fuses,
    }
}

fn raise_arm(lane: usize, state: State) -> State
    ensures { result ≡ laid.raise_arm lane state }
{
    let count = next_count(count_at(&state.arms, lane));
    State {
        volumes: state.volumes,
        directory: state.directory,
        drained: state.drained,
        faults: state.faults,
        arms: set_count(state.arms, lane, count),
        fuses: state.fuses,
    }
}

/// Adds the state where the disk was passed over, if there is such a disk.
fn add_on_disk(
    alloc: Global,
    before: &State,
    slot: usize,
    state: &State,
    out: &mut Listed<State>,
) -> Result<(), NoMemory>
    ensures { OnOk result (out.new ≡ out.old ++ laid.on_disk before.now slot state.now) }
{
    if slot < state.faults.len() {
        out.push(raise_disk(before, slot, state.duplicate(alloc)?))?;
    }
    Ok(())
}

fn add_on_arm(lane: usize, state: State, out: &mut Listed<State>) -> Result<(), NoMemory>
    ensures { OnOk result (out.new ≡ out.old ++ laid.on_arm lane state) }
{
    if lane < state.arms.len() {
        out.push(raise_arm(lane, state))?;
        return Ok(());
    }
    drop_state(state);
    Ok(())
}

/// Adds the states where one more disk was passed over.
fn lay_state(
    alloc: Global,
    before: &State,
    lane: usize,
    slot: usize,
    state: State,
    out: &mut Listed<State>,
) -> Result<(), NoMemory>
    ensures { OnOk result (out.new ≡ out.old ++ (laid.on_disk before.now slot state ++ laid.on_arm lane state)) }
{
    let Ok(()) = add_on_disk(alloc, before, slot, &state, out) else {
        drop_state(state);
        return Err(NoMemory);
    };
    add_on_arm(lane, state, out)
}

fn lay_once(
    alloc: Global,
    before: &State,
    lane: usize,
    slot: usize,
    states: Listed<State>,
) -> Result<Listed<State>, NoMemory>
    ensures { IfOk result (λ next. next ≡ laid.laid_once before.now lane slot states) }
{
    let mut out = Listed::new(alloc);
    for state in states.into_vec() {
        lay_state(alloc, before, lane, slot, state, &mut out)?;
    }
    Ok(out)
}

/// The states behind replicas that were passed over.
pub(crate) fn lay(
    alloc: Global,
    before: &State,
    lane: usize,
    slots: &[usize],
) -> Result<Listed<State>, NoMemory>
    ensures { IfOk result (λ next. next ≡ laid.laid before.now lane slots.now) }
{
    let mut states = Listed::one(alloc, before.duplicate(alloc)?)?;
    let mut left = slots.len();
    while left > 0 {
        left -= 1;
        states = lay_once(alloc, before, lane, slots[left], states)?;
    }
    Ok(states)
}
