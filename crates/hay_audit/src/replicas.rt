//! What is known of one replica, and what a line changes on it.

ghost use Rattle.std.specs.Prelude.{◌≡◌, slice_index_or, slice_set};
ghost use Rattle.hay_legal.specs.Known as known;
ghost use Rattle.hay_legal.specs.Plain as plain;
ghost use Rattle.hay_audit.specs.Replicas as replicas;

use crate::change::no_volume;
use crate::first::fresh_replica;
use crate::state::{ReplicaState, State, VolumeState};
use hay_base::Listed;
use hay_legal::known::Run;
use std::alloc::Global;
use std::mem;

/// What is known of a replica, but for its photos.
#[derive(Clone, Copy)]
pub(crate) struct Standing {
    pub cells: u64,
    pub bare: u64,
    pub generation: u64,
    pub stuck: bool,
    pub run: Option<Run>,
}

/// What a line changes on one replica.
#[derive(Clone, Copy)]
pub(crate) enum Change {
    /// Each cell has a record.
    Flushed,
    Stuck,
    Run(Run),
    NoRun,
    /// It stands before a swap or behind it.
    Poised,
    /// A run came by some cells.
    Copied {
        cells: u64,
        run: Run,
    },
    /// It has a new file.
    Swapped {
        end: u64,
        cells: u64,
        generation: u64,
    },
}

fn standing_by(replica: &ReplicaState) -> Standing
    ensures { result ≡ replicas.standing_by replica.now }
{
    Standing {
        cells: replica.cells,
        bare: replica.bare,
        generation: replica.generation,
        stuck: replica.stuck,
        run: replica.run,
    }
}

fn no_standing() -> Standing
    ensures { result ≡ replicas.standing_by known.empty_replica }
{
    Standing {
        cells: 0,
        bare: 0,
        generation: 0,
        stuck: false,
        run: None,
    }
}

fn standing_in(volume: &VolumeState, replica: u32) -> Standing
    ensures { result ≡ replicas.standing_by (known.replica_at volume.now replica) }
{
    match volume.replicas.as_slice().get(replica as usize) {
        Some(replica) => standing_by(replica),
        None => no_standing(),
    }
}

pub(crate) fn standing_of(state: &State, volume: u32, replica: u32) -> Standing
    ensures { result ≡ replicas.standing_by (plain.replica_of state.now volume replica) }
{
    match state.volumes.as_slice().get(volume as usize) {
        Some(volume) => standing_in(volume, replica),
        None => no_standing(),
    }
}

pub(crate) fn changed(change: Change, replica: ReplicaState) -> ReplicaState
    ensures { result ≡ replicas.changed change replica }
{
    let mut replica = replica;
    match change {
        Change::Flushed => replica.bare = 0,
        Change::Stuck => replica.stuck = true,
        Change::Run(run) => replica.run = Some(run),
        Change::NoRun => replica.run = None,
        Change::Poised => replica.poised = true,
        Change::Copied { cells, run } => {
            replica.cells = cells;
            replica.run = Some(run);
        }
        Change::Swapped {
            end,
            cells,
            generation,
        } => {
            replica.end = end;
            replica.cells = cells;
            replica.bare = 0;
            replica.generation = generation;
            replica.stuck = false;
            replica.run = None;
        }
    }
    replica
}

/// The replicas, one of them changed.
#[tactic(auto, using(crate::proofs::Lists::set_twice, crate::proofs::Lists::set_beyond))]
fn change_among(
    alloc: Global,
    all: Listed<ReplicaState>,
    replica: u32,
    change: Change,
) -> Listed<ReplicaState>
    ensures { result ≡ slice_set all replica (replicas.changed change (slice_index_or all replica known.empty_replica)) }
{
    let at = replica as usize;
    let mut all = all.into_vec();
    if at >= all.len() {
        return Listed::from_vec(all);
    }
    let old = mem::replace(&mut all[at], fresh_replica(alloc));
    all[at] = changed(change, old);
    Listed::from_vec(all)
}

fn change_on(alloc: Global, volume: VolumeState, replica: u32, change: Change) -> VolumeState
    ensures { result ≡ known.with_replica volume replica (replicas.changed change (known.replica_at volume replica)) }
{
    let VolumeState {
        log,
        frozen,
        pending,
        replicas,
    } = volume;
    VolumeState {
        log,
        frozen,
        pending,
        replicas: change_among(alloc, replicas, replica, change),
    }
}

#[tactic(auto, using(crate::proofs::Lists::set_twice, crate::proofs::Lists::set_beyond))]
fn change_in(
    alloc: Global,
    volumes: Listed<VolumeState>,
    volume: u32,
    replica: u32,
    change: Change,
) -> Listed<VolumeState>
    ensures { result ≡ slice_set volumes volume (known.with_replica (slice_index_or volumes volume known.empty_volume) replica
        (replicas.changed change (known.replica_at (slice_index_or volumes volume known.empty_volume) replica))) }
{
    let at = volume as usize;
    let mut volumes = volumes.into_vec();
    if at >= volumes.len() {
        return Listed::from_vec(volumes);
    }
    let old = mem::replace(&mut volumes[at], no_volume(alloc));
    volumes[at] = change_on(alloc, old, replica, change);
    Listed::from_vec(volumes)
}

/// The state with one replica changed.
pub(crate) fn change_replica(
    alloc: Global,
    state: State,
    volume: u32,
    replica: u32,
    change: Change,
) -> State
    ensures { result ≡ plain.change_replica state volume replica (replicas.changed change) }
{
    let State {
        volumes,
        directory,
        drained,
        faults,
        arms,
        fuses,
    } = state;
    State {
        volumes: change_in(alloc, volumes, volume, replica, change),
        directory,
        drained,
        faults,
        arms,
        fuses,
    }
}
