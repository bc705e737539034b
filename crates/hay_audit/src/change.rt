//! Changes of a state.

ghost use Rattle.std.specs.Prelude.{◌≡◌, ◌++◌, ◌∷◌, ◌<◌, ◌+◌, ◌^◌, [], map, length, IfOk, OnOk, slice_set, option_map, slice_index_or, true};
ghost use Rattle.std.specs.List.{AllByRecursion as Each};
ghost use Rattle.hay_legal.specs.Known as known;
ghost use Rattle.hay_legal.specs.Plain as plain;
ghost use Rattle.hay_core.specs.declared.entry.Entry.TheVariants as entry;
ghost use Rattle.hay_audit.specs.Sizes.{MayGrow, RunMayGrow, VolumeMayGrow};
ghost use Rattle.hay_audit_steps.specs.Next as next;

use crate::freezes::frozen_by;
use crate::pairs::{Log, Rows};
use crate::state::{Directory, ReplicaState, State, VolumeState, drop_state, with_volumes};
use hay_base::{Listed, NoMemory};
use hay_core::{CoreTag, Entry, Logged};
use hay_legal::known::{HomeRow, Pending, PendingRow, Run};
use hay_needle::{Bytes, Cookie, Pair, Settings, total_of};
use hay_url::cookie_of;
use std::alloc::Global;
use std::mem;

fn grown_run(run: Option<Run>) -> Option<Run>
    requires { RunMayGrow run }
    ensures { result ≡ option_map plain.run_grown run }
{
    match run {
        Some(run) => Some(Run {
            goal: run.goal,
            left: run.left + 1,
        }),
        None => None,
    }
}

/// A replica with one cell more.
fn grown(size: u32, replica: ReplicaState) -> ReplicaState
    requires { MayGrow replica }
    ensures { result ≡ plain.grown size replica }
{
    ReplicaState {
        base: replica.base,
        end: replica.end + total_of(size),
        cells: replica.cells + 1,
        bare: replica.bare + 1,
        generation: replica.generation,
        stuck: replica.stuck,
        run: grown_run(replica.run),
        poised: replica.poised,
    }
}

fn all_grown(
    alloc: Global,
    size: u32,
    replicas: Listed<ReplicaState>,
) -> Result<Listed<ReplicaState>, NoMemory>
    requires { Each MayGrow replicas }
    ensures { IfOk result (λ after. after ≡ map (plain.grown size) replicas) }
{
    let mut after = Listed::new(alloc);
    for replica in replicas.into_vec() {
        after.push(grown(size, replica))?;
    }
    Ok(after)
}

/// The rows, with the pair's home if it has none.
fn settle(rows: Rows, pair: Pair, volume: u32) -> Result<Rows, NoMemory>
    ensures { IfOk result (λ settled. settled ≡ known.settled rows pair volume) }
{
    if rows.home(pair).is_none() {
        rows.with(HomeRow { pair, volume })
    } else {
        Ok(rows)
    }
}

/// A volume behind a put.
fn with_put(
    alloc: Global,
    volume: VolumeState,
    tag: CoreTag,
    pair: Pair,
    cookie: Cookie,
    bytes: Bytes,
    size: u32,
) -> Result<VolumeState, NoMemory>
    requires size { size ≡ length bytes }
    requires grow { VolumeMayGrow volume }
    ensures { IfOk result (λ after. after ≡ plain.with_put volume tag pair cookie bytes) }
{
    let VolumeState {
        log,
        frozen,
        pending,
        replicas,
    } = volume;
    let logged = Logged {
        tag,
        entry: Entry::Put {
            pair,
            cookie,
            bytes,
        },
    };
    Ok(VolumeState {
        log: log.with(logged)?,
        frozen,
        pending,
        replicas: all_grown(alloc, size, replicas)?,
    })
}

pub(crate) fn no_volume(alloc: Global) -> VolumeState
    ensures { result ≡ known.empty_volume }
{
    VolumeState {
        log: Log::new(alloc),
        frozen: None,
        pending: None,
        replicas: Listed::new(alloc),
    }
}

/// The volumes, with a photo put on one of them.
#[tactic(auto, using(crate::proofs::Lists::set_twice, crate::proofs::Lists::set_beyond))]
fn put_on(
    alloc: Global,
    volumes: Listed<VolumeState>,
    tag: CoreTag,
    pair: Pair,
    bytes: Bytes,
    size: u32,
    number: u32,
    cookie: Cookie,
) -> Result<Listed<VolumeState>, NoMemory>
    requires size { size ≡ length bytes }
    requires grow { Each VolumeMayGrow volumes }
    ensures { IfOk result (λ after. after ≡ slice_set volumes number (plain.with_put (slice_index_or volumes number known.empty_volume) tag pair cookie bytes)) }
{
    let at = number as usize;
    let mut volumes = volumes.into_vec();
    if at >= volumes.len() {
        return Ok(Listed::from_vec(volumes));
    }
    let volume = mem::replace(&mut volumes[at], no_volume(alloc));
    volumes[at] = with_put(alloc, volume, tag, pair, cookie, bytes, size)?;
    Ok(Listed::from_vec(volumes))
}

/// The state behind a put that was stored on one of its volumes.
pub fn stored(
    alloc: Global,
    state: State,
    tag: CoreTag,
    pair: Pair,
    bytes: Bytes,
    size: u32,
    number: u32,
    cookie: Cookie,
) -> Result<State, NoMemory>
    requires size { size ≡ length bytes }
    requires grow { Each VolumeMayGrow state.volumes }
    ensures { IfOk result (λ after. after ≡ next.stored state tag pair bytes number cookie) }
{
    let mut state = state;
    let volumes = mem::replace(&mut state.volumes, Listed::new(alloc));
    let Ok(volumes) = put_on(alloc, volumes, tag, pair, bytes, size, number, cookie) else {
        drop_state(state);
        return Err(NoMemory);
    };
    with_home(with_volumes(state, volumes), pair, number)
}

/// The state, with the pair's home if it has none.
fn with_home(state: State, pair: Pair, volume: u32) -> Result<State, NoMemory>
    ensures { IfOk result (λ after. after ≡ known.with_home state pair volume) }
{
    let State {
        volumes,
        directory,
        drained,
        faults,
        arms,
        fuses,
    } = state;
    let Directory {
        rows,
        frozen,
        pending,
    } = directory;
    Ok(State {
        volumes,
        directory: Directory {
            rows: settle(rows, pair, volume)?,
            frozen,
            pending,
        },
        drained,
        faults,
        arms,
        fuses,
    })
}

/// The state behind a put that failed on a machine.
pub(crate) fn put_frozen(
    alloc: Global,
    settings: &Settings,
    state: State,
    tag: CoreTag,
    pair: Pair,
    bytes: Bytes,
    volume: u32,
    machine: u32,
) -> Result<State, NoMemory>
    ensures { IfOk result (λ after. after ≡ plain.put_frozen settings.now state tag pair bytes volume machine true) }
{
    let pending = Pending {
        tag,
        entry: Entry::Put {
            pair,
            cookie: cookie_of(&settings.secret, pair.key),
            bytes,
        },
        failed: true,
    };
    let frozen = frozen_by(alloc, state, volume, machine, Some(pending))?;
    with_home(frozen, pair, volume)
}

/// The state behind a row that could not be written.
pub(crate) fn row_pending(state: State, tag: CoreTag, pair: Pair, volume: u32) -> State
    ensures { result ≡ plain.row_pending state tag pair volume }
{
    let State {
        volumes,
        directory,
        drained,
        faults,
        arms,
        fuses,
    } = state;
    State {
        volumes,
        directory: Directory {
            rows: directory.rows,
            frozen: true,
            pending: Some(PendingRow {
                tag,
                row: HomeRow { pair, volume },
            }),
        },
        drained,
        faults,
        arms,
        fuses,
    }
}
