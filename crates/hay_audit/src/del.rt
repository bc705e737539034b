//! Behind a deletion.

ghost use Rattle.std.specs.Prelude.{◌≡◌, ◌<◌, ◌∷◌, ◌++◌, [], List, true, false, map, length, slice_index_or, slice_set, IfOk, OnOk, if◌then◌else◌};
ghost use Rattle.hay_legal.specs.declared.known.ReplicaKnown.{ReplicaKnown};
ghost use Rattle.hay_legal.specs.Known as known;
ghost use Rattle.hay_legal.specs.Plain as plain;
ghost use Rattle.hay_core.specs.declared.entry.Entry.TheVariants as entry;
ghost use Rattle.hay_audit_steps.specs.Next as next;
ghost use Rattle.hay_audit.specs.Deleting as deleting;

use crate::change::no_volume;
use crate::closed::closed;
use crate::faults::{rises_to, with_fault};
use crate::freezes::frozen_by;
use crate::lay::raise_disk;
use crate::looks::{front_of, home_of, rows_of};
use crate::photos::stands_there;
use crate::plain::{keep_if, next_unknown};
use crate::puts::is_at;
use crate::replicas::{Change, changed};
use crate::spread::{replica_on, slot_of};
use crate::state::{ReplicaState, State, VolumeState, drop_state, with_volumes};
use hay_base::{Duplicate, Listed, NoMemory};
use hay_core::{CoreTag, Entry, Logged};
use hay_legal::known::Pending;
use hay_needle::{Pair, Settings};
use hay_reply::{ClosedBy, Reply};
use std::alloc::Global;
use std::mem;

// RUNS THAT MAY HAVE ENDED

fn onto(alloc: Global, ended: bool, rest: &[bool]) -> Result<Listed<bool>, NoMemory>
    ensures { IfOk result (λ all. all ≡ ended ∷ rest.now) }
{
    let mut all = Listed::one(alloc, ended)?;
    for flag in rest {
        all.push(*flag)?;
    }
    Ok(all)
}

fn onto_each(
    alloc: Global,
    ended: bool,
    choices: &[Listed<bool>],
    out: &mut Listed<Listed<bool>>,
) -> Result<(), NoMemory>
    ensures { OnOk result (out.new ≡ out.old ++ map (λ rest. ended ∷ rest) choices.now) }
{
    for choice in choices {
        out.push(onto(alloc, ended, choice.as_slice())?)?;
    }
    Ok(())
}

/// Each choice, without a run that has ended before it, and with one if there may be one.
fn with_next(
    alloc: Global,
    may_end: bool,
    choices: Listed<Listed<bool>>,
) -> Result<Listed<Listed<bool>>, NoMemory>
    ensures { IfOk result (λ all. all ≡ map (λ ended. false ∷ ended) choices ++ (if may_end then map (λ ended. true ∷ ended) choices else [])) }
{
    let mut all = Listed::new(alloc);
    onto_each(alloc, false, choices.as_slice(), &mut all)?;
    if may_end {
        onto_each(alloc, true, choices.as_slice(), &mut all)?;
    }
    Ok(all)
}

/// The slot of a replica's disk, however large.
fn wide_slot(settings: &Settings, volume: u32, replica: usize) -> u128
    ensures { result ≡ known.slot_of settings.now volume replica }
{
    1 + u128::from(volume) * u128::from(settings.replicas) + replica as u128
}

fn may_end(
    settings: &Settings,
    state: &State,
    volume: u32,
    replica: usize,
    here: &ReplicaState,
) -> bool
    ensures { result ≡ deleting.may_end settings.now state.now volume replica here.now }
{
    here.run.is_some() && wide_slot(settings, volume, replica) < state.faults.len() as u128
}

/// Which runs may have ended: each choice.
fn endings(
    alloc: Global,
    settings: &Settings,
    state: &State,
    volume: u32,
    replicas: &[ReplicaState],
) -> Result<Listed<Listed<bool>>, NoMemory>
    ensures { IfOk result (λ choices. choices ≡ next.endings settings.now state.now volume 0 replicas.now) }
{
    let mut choices = Listed::one(alloc, Listed::new(alloc))?;
    let mut left = replicas.len();
    while left > 0 {
        left -= 1;
        let may = may_end(settings, state, volume, left, &replicas[left]);
        choices = with_next(alloc, may, choices)?;
    }
    Ok(choices)
}

// A DELETION

/// The replica, whose run may have ended.
fn ended_if(ended: bool, replica: ReplicaState) -> ReplicaState
    ensures { result ≡ deleting.ended_if ended replica }
{
    if ended {
        changed(Change::NoRun, replica)
    } else {
        replica
    }
}

/// The first answer, and those behind it: no run has ended that is not told of.
#[tactic(auto, using(crate::proofs::Endings::none_ended))]
fn first_of(ended: &[bool]) -> (bool, &[bool])
    ensures { (replica : ReplicaKnown) (others : List ReplicaKnown)
        → plain.ended_where ended.now (replica ∷ others) ≡ deleting.ended_if result.0 replica ∷ plain.ended_where (result.1).now others }
{
    match ended.split_first() {
        Some((first, rest)) => (*first, rest),
        None => (false, ended),
    }
}

#[tactic(auto, using(crate::proofs::Endings::none_left))]
fn ended_where(
    alloc: Global,
    ended: &[bool],
    replicas: Listed<ReplicaState>,
) -> Result<Listed<ReplicaState>, NoMemory>
    ensures { IfOk result (λ after. after ≡ plain.ended_where ended.now replicas) }
{
    let mut after = Listed::new(alloc);
    let mut left = ended;
    for replica in replicas.into_vec() {
        let (first, rest) = first_of(left);
        after.push(ended_if(first, replica))?;
        left = rest;
    }
    Ok(after)
}

fn with_del(
    alloc: Global,
    volume: VolumeState,
    ended: &[bool],
    tag: CoreTag,
    pair: Pair,
) -> Result<VolumeState, NoMemory>
    ensures { IfOk result (λ after. after ≡ plain.with_del ended.now tag pair volume) }
{
    let VolumeState {
        log,
        frozen,
        pending,
        replicas,
    } = volume;
    let logged = Logged {
        tag,
        entry: Entry::Del { pair },
    };
    Ok(VolumeState {
        log: log.with(logged)?,
        frozen,
        pending,
        replicas: ended_where(alloc, ended, replicas)?,
    })
}

#[tactic(auto, using(crate::proofs::Lists::set_twice, crate::proofs::Lists::set_beyond))]
fn del_in(
    alloc: Global,
    volumes: Listed<VolumeState>,
    volume: u32,
    ended: &[bool],
    tag: CoreTag,
    pair: Pair,
) -> Result<Listed<VolumeState>, NoMemory>
    ensures { IfOk result (λ after. after ≡ slice_set volumes volume (plain.with_del ended.now tag pair (slice_index_or volumes volume known.empty_volume))) }
{
    let at = volume as usize;
    let mut volumes = volumes.into_vec();
    if at >= volumes.len() {
        return Ok(Listed::from_vec(volumes));
    }
    let old = mem::replace(&mut volumes[at], no_volume(alloc));
    volumes[at] = with_del(alloc, old, ended, tag, pair)?;
    Ok(Listed::from_vec(volumes))
}

/// The state with the pair's photo deleted, and no count risen.
fn without_photo(
    alloc: Global,
    state: State,
    volume: u32,
    ended: &[bool],
    tag: CoreTag,
    pair: Pair,
) -> Result<State, NoMemory>
    ensures { IfOk result (λ after. after ≡ plain.change_volume state volume (plain.with_del ended.now tag pair)) }
{
    let mut state = state;
    let volumes = mem::replace(&mut state.volumes, Listed::new(alloc));
    let Ok(volumes) = del_in(alloc, volumes, volume, ended, tag, pair) else {
        drop_state(state);
        return Err(NoMemory);
    };
    Ok(with_volumes(state, volumes))
}

#[tactic(auto, using(crate::proofs::Endings::raise_beyond))]
fn raise_if(
    settings: &Settings,
    before: &State,
    volume: u32,
    replica: usize,
    ended: bool,
    state: State,
) -> State
    ensures { result ≡ deleting.raise_if settings.now before.now volume replica ended state }
{
    let slot = wide_slot(settings, volume, replica);
    if !ended || slot >= state.faults.len() as u128 {
        return state;
    }
    raise_disk(before, slot as usize, state)
}

/// The counts of the runs' disks rose that ended.
#[tactic(auto, using(crate::proofs::Endings::raise_next))]
fn raise_ended(
    settings: &Settings,
    before: &State,
    volume: u32,
    ended: &[bool],
    state: State,
) -> State
    ensures { result ≡ next.raise_ended settings.now before.now volume 0 ended.now state }
{
    let mut state = state;
    let mut left = ended.len();
    while left > 0 {
        left -= 1;
        state = raise_if(settings, before, volume, left, ended[left], state);
    }
    state
}

fn deleted(
    alloc: Global,
    settings: &Settings,
    state: &State,
    tag: CoreTag,
    pair: Pair,
    volume: u32,
    ended: &[bool],
) -> Result<State, NoMemory>
    ensures { IfOk result (λ after. after ≡ next.deleted settings.now state.now tag pair volume ended.now) }
{
    let copy = state.duplicate(alloc)?;
    let after = without_photo(alloc, copy, volume, ended, tag, pair)?;
    Ok(raise_ended(settings, state, volume, ended, after))
}

fn all_deleted(
    alloc: Global,
    settings: &Settings,
    state: &State,
    tag: CoreTag,
    pair: Pair,
    volume: u32,
    choices: &[Listed<bool>],
) -> Result<Listed<State>, NoMemory>
    ensures { IfOk result (λ states. states ≡ map (next.deleted settings.now state.now tag pair volume) choices.now) }
{
    let mut states = Listed::new(alloc);
    for ended in choices {
        let after = deleted(alloc, settings, state, tag, pair, volume, ended.as_slice())?;
        states.push(after)?;
    }
    Ok(states)
}

// EACH REPLY

fn is_home(settings: &Settings, state: &State, pair: Pair, volume: u32, rows: u64) -> bool
    requires { 0 < settings.now.machines }
    ensures { result ≡ next.is_home settings.now state.now pair volume rows }
{
    is_at(home_of(state, pair), volume)
        && (closed(settings, state, volume).is_none() && rows == rows_of(state))
}

fn is_closed_home(settings: &Settings, state: &State, pair: Pair, tries: &[ClosedBy]) -> bool
    requires { 0 < settings.now.machines }
    ensures { result ≡ next.is_closed_home settings.now state.now pair tries.now }
{
    match tries {
        [by] => {
            is_at(home_of(state, pair), by.volume)
                && is_at(closed(settings, state, by.volume), by.machine)
        }
        _ => false,
    }
}

fn replicas_of(state: &State, volume: u32) -> &[ReplicaState]
    ensures { result.now ≡ (known.volume_at state.now volume).replicas }
{
    match state.volumes.as_slice().get(volume as usize) {
        Some(volume) => volume.replicas.as_slice(),
        None => &[],
    }
}

/// The states behind a deletion, by the runs that may have ended.
fn deleted_each(
    alloc: Global,
    settings: &Settings,
    state: &State,
    tag: CoreTag,
    pair: Pair,
    volume: u32,
) -> Result<Listed<State>, NoMemory>
    ensures { IfOk result (λ states. states ≡ map (next.deleted settings.now state.now tag pair volume)
        (next.endings settings.now state.now volume 0 (known.volume_at state.now volume).replicas)) }
{
    let choices = endings(alloc, settings, state, volume, replicas_of(state, volume))?;
    all_deleted(
        alloc,
        settings,
        state,
        tag,
        pair,
        volume,
        choices.as_slice(),
    )
}

fn next_deleted(
    alloc: Global,
    settings: &Settings,
    state: State,
    tag: CoreTag,
    pair: Pair,
    volume: u32,
    position: u64,
    rows: u64,
) -> Result<Listed<State>, NoMemory>
    requires { 0 < settings.now.machines }
    ensures { IfOk result (λ states. states ≡ deleting.next_deleted settings.now state tag pair volume position rows) }
{
    if !is_home(settings, &state, pair, volume, rows)
        || !stands_there(&state, pair, volume)
        || u128::from(position) != u128::from(front_of(&state, volume)) + 1
    {
        drop_state(state);
        return Ok(Listed::new(alloc));
    }
    let states = deleted_each(alloc, settings, &state, tag, pair, volume);
    drop_state(state);
    states
}

/// The state with the deletion pending that failed on a machine.
fn del_frozen(
    alloc: Global,
    state: State,
    tag: CoreTag,
    pair: Pair,
    volume: u32,
    machine: u32,
) -> Result<State, NoMemory>
    ensures { IfOk result (λ after. after ≡ plain.change_volume state volume (plain.frozen_with machine tag (entry.Del pair) true)) }
{
    let pending = Pending {
        tag,
        entry: Entry::Del { pair },
        failed: true,
    };
    frozen_by(alloc, state, volume, machine, Some(pending))
}

/// Adds the state with the deletion pending, where there was a photo to delete.
fn add_pending(
    alloc: Global,
    state: State,
    tag: CoreTag,
    pair: Pair,
    volume: u32,
    machine: u32,
    slot: usize,
    faults: u64,
    out: &mut Listed<State>,
) -> Result<(), NoMemory>
    ensures { OnOk result (out.new ≡ out.old ++ next.keep_if (next.stands_there state pair volume)
        (next.with_fault (plain.change_volume state volume (plain.frozen_with machine tag (entry.Del pair) true)) slot faults)) }
{
    if !stands_there(&state, pair, volume) {
        drop_state(state);
        return Ok(());
    }
    let after = del_frozen(alloc, state, tag, pair, volume, machine)?;
    out.push(with_fault(after, slot, faults))?;
    Ok(())
}

/// A copy of the state alone, with this count of the disk.
fn listed_copy(
    alloc: Global,
    state: &State,
    slot: usize,
    faults: u64,
) -> Result<Listed<State>, NoMemory>
    ensures { IfOk result (λ states. states ≡ next.with_fault state.now slot faults ∷ []) }
{
    let copy = state.duplicate(alloc)?;
    let states = Listed::one(alloc, with_fault(copy, slot, faults))?;
    Ok(states)
}

/// The states behind a deletion for which this disk failed.
fn del_failed(
    alloc: Global,
    state: State,
    tag: CoreTag,
    pair: Pair,
    volume: u32,
    machine: u32,
    slot: usize,
    faults: u64,
) -> Result<Listed<State>, NoMemory>
    ensures { IfOk result (λ states. states ≡ next.with_fault state slot faults ∷ next.keep_if (next.stands_there state pair volume)
        (next.with_fault (plain.change_volume state volume (plain.frozen_with machine tag (entry.Del pair) true)) slot faults)) }
{
    let Ok(mut states) = listed_copy(alloc, &state, slot, faults) else {
        drop_state(state);
        return Err(NoMemory);
    };
    add_pending(
        alloc,
        state,
        tag,
        pair,
        volume,
        machine,
        slot,
        faults,
        &mut states,
    )?;
    Ok(states)
}

/// Behind a deletion that failed on a replica.
fn next_failed(
    alloc: Global,
    settings: &Settings,
    state: State,
    tag: CoreTag,
    pair: Pair,
    volume: u32,
    machine: u32,
    faults: u64,
) -> Result<Listed<State>, NoMemory>
    requires { 0 < settings.now.machines }
    ensures { IfOk result (λ states. states ≡ next.del_failed_by settings.now state tag pair volume machine faults (known.replica_on settings.now volume machine)) }
{
    let Some(replica) = replica_on(settings, volume, machine) else {
        drop_state(state);
        return Ok(Listed::new(alloc));
    };
    let slot = slot_of(settings, volume, replica);
    if !is_at(home_of(&state, pair), volume)
        || closed(settings, &state, volume).is_some()
        || !rises_to(&state, slot, faults)
    {
        drop_state(state);
        return Ok(Listed::new(alloc));
    }
    del_failed(alloc, state, tag, pair, volume, machine, slot, faults)
}

/// Behind a deletion.
pub(crate) fn next_del(
    alloc: Global,
    settings: &Settings,
    state: State,
    tag: CoreTag,
    pair: Pair,
    reply: &Reply,
) -> Result<Listed<State>, NoMemory>
    requires { 0 < settings.now.machines }
    ensures { IfOk result (λ states. states ≡ next.next_del settings.now state tag pair reply.now) }
{
    match reply {
        Reply::Deleted {
            volume,
            position,
            rows,
        } => next_deleted(alloc, settings, state, tag, pair, *volume, *position, *rows),
        Reply::Absent {
            volume,
            front,
            rows,
        } => {
            let test = is_home(settings, &state, pair, *volume, *rows)
                && (!stands_there(&state, pair, *volume) && *front == front_of(&state, *volume));
            keep_if(alloc, test, state)
        }
        Reply::Unknown { rows } => next_unknown(alloc, state, pair, *rows),
        Reply::ReadOnly { tries } => {
            let test = is_closed_home(settings, &state, pair, tries.as_slice());
            keep_if(alloc, test, state)
        }
        Reply::Failed {
            volume,
            machine,
            faults,
        } => next_failed(
            alloc, settings, state, tag, pair, *volume, *machine, *faults,
        ),
        _ => {
            drop_state(state);
            Ok(Listed::new(alloc))
        }
    }
}
