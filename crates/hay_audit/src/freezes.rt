//! Volumes that are frozen.

ghost use Rattle.std.specs.Prelude.{◌≡◌, map, IfOk, slice_set, slice_index_or};
ghost use Rattle.hay_legal.specs.Known as known;
ghost use Rattle.hay_legal.specs.Plain as plain;
ghost use Rattle.hay_audit.specs.Frozen as frozen;

use crate::change::no_volume;
use crate::replicas::{Change, change_replica, changed};
use crate::state::{ReplicaState, State, VolumeState, drop_state, with_volumes};
use hay_base::{Listed, NoMemory};
use hay_legal::known::Pending;
use std::alloc::Global;
use std::mem;

fn without_runs(
    alloc: Global,
    replicas: Listed<ReplicaState>,
) -> Result<Listed<ReplicaState>, NoMemory>
    ensures { IfOk result (λ after. after ≡ map plain.without_run replicas) }
{
    let mut after = Listed::new(alloc);
    for replica in replicas.into_vec() {
        after.push(changed(Change::NoRun, replica))?;
    }
    Ok(after)
}

/// The later change, if there is one.
fn later_of(before: Option<Pending>, pending: Option<Pending>) -> Option<Pending>
    ensures { result ≡ frozen.later_of before pending }
{
    match pending {
        Some(pending) => Some(pending),
        None => before,
    }
}

/// A volume that this machine froze, with the change that is pending now, if there is one.
fn freeze(
    alloc: Global,
    volume: VolumeState,
    machine: u32,
    pending: Option<Pending>,
) -> Result<VolumeState, NoMemory>
    ensures { IfOk result (λ after. after ≡ frozen.frozen_by machine pending volume) }
{
    let VolumeState {
        log,
        frozen: _,
        pending: before,
        replicas,
    } = volume;
    Ok(VolumeState {
        log,
        frozen: Some(machine),
        pending: later_of(before, pending),
        replicas: without_runs(alloc, replicas)?,
    })
}

#[tactic(auto, using(crate::proofs::Lists::set_twice, crate::proofs::Lists::set_beyond))]
fn freeze_in(
    alloc: Global,
    volumes: Listed<VolumeState>,
    volume: u32,
    machine: u32,
    pending: Option<Pending>,
) -> Result<Listed<VolumeState>, NoMemory>
    ensures { IfOk result (λ after. after ≡ slice_set volumes volume (frozen.frozen_by machine pending (slice_index_or volumes volume known.empty_volume))) }
{
    let at = volume as usize;
    let mut volumes = volumes.into_vec();
    if at >= volumes.len() {
        return Ok(Listed::from_vec(volumes));
    }
    let old = mem::replace(&mut volumes[at], no_volume(alloc));
    volumes[at] = freeze(alloc, old, machine, pending)?;
    Ok(Listed::from_vec(volumes))
}

/// The state with a frozen volume.
pub(crate) fn frozen_by(
    alloc: Global,
    state: State,
    volume: u32,
    machine: u32,
    pending: Option<Pending>,
) -> Result<State, NoMemory>
    ensures { IfOk result (λ after. after ≡ plain.change_volume state volume (frozen.frozen_by machine pending)) }
{
    let mut state = state;
    let volumes = mem::replace(&mut state.volumes, Listed::new(alloc));
    let Ok(volumes) = freeze_in(alloc, volumes, volume, machine, pending) else {
        drop_state(state);
        return Err(NoMemory);
    };
    Ok(with_volumes(state, volumes))
}

/// The state behind a head switch that failed.
pub(crate) fn poised_by(
    alloc: Global,
    state: State,
    volume: u32,
    machine: u32,
    replica: u32,
) -> Result<State, NoMemory>
    ensures { IfOk result (λ after. after ≡ plain.poised_by machine state volume replica) }
{
    let after = frozen_by(alloc, state, volume, machine, None)?;
    Ok(change_replica(alloc, after, volume, replica, Change::Poised))
}
