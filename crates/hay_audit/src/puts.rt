//! Behind a put.

ghost use Rattle.std.specs.Prelude.{◌≡◌, ◌<◌, ◌^◌, ◌+◌, ◌==◌, ◌&&◌, length, IfOk, IsTrue, ◌↔◌};
ghost use Rattle.std.specs.List.{AllByRecursion as Each};
ghost use Rattle.hay_legal.specs.Known as known;
ghost use Rattle.hay_audit_steps.specs.Next as next;
ghost use Rattle.hay_audit_steps.specs.BoxNext as box_next;
ghost use Rattle.hay_audit_steps.specs.Rooms as rooms;
ghost use Rattle.hay_audit.specs.Sizes.{VolumeMayGrow};
ghost use Rattle.hay_url.specs.Url as url;

use crate::boxes::{BoxState, drop_box, push_boxes, ranged_all};
use crate::change::{put_frozen, row_pending, stored};
use crate::closed::taker_of;
use crate::cuts::try_cuts;
use crate::faults::{rises_to, with_fault};
use crate::looks::{front_of, home_of, rows_of};
use crate::plain::keep_if;
use crate::refusals::{as_closed, tries_of, want_room};
use crate::rooms::refused_boxes;
use crate::spread::{replica_on, slot_of};
use crate::state::{ReplicaState, State, VolumeState, drop_state};
use hay_base::{Duplicate, Listed, NoMemory};
use hay_core::CoreTag;
use hay_needle::{Bytes, Cookie, Pair, Settings};
use hay_reply::Reply;
use hay_url::cookie_of;
use std::alloc::Global;

/// What a stored put is told.
#[derive(Clone, Copy)]
pub(crate) struct Told {
    pub volume: u32,
    pub position: u64,
    pub rows: u64,
    pub cookie: Cookie,
}

pub(crate) fn is_at(number: Option<u32>, other: u32) -> bool
    ensures { result ≡ next.is_at number other }
{
    match number {
        None => false,
        Some(number) => number == other,
    }
}

pub(crate) fn cookie_eq(a: Cookie, b: Cookie) -> bool
    ensures { result ≡ next.cookie_eq a b }
{
    a.0 == b.0
}

fn is_dir_open(state: &State, pair: Pair) -> bool
    ensures { result ≡ next.is_dir_open state.now pair }
{
    home_of(state, pair).is_some() || !state.directory.frozen
}

/// How many rows there are, once the pair has a home.
fn settled_rows(state: &State, pair: Pair, volume: u32) -> u128
    ensures { result ≡ length (known.settled state.now.directory.rows pair volume) }
{
    let rows = u128::from(rows_of(state));
    if home_of(state, pair).is_some() {
        rows
    } else {
        rows + 1
    }
}

fn is_stored_so(settings: &Settings, state: &State, pair: Pair, told: Told) -> bool
    ensures { result ≡ (next.is_dir_open state.now pair && (next.cookie_eq told.cookie (url.cookie_of settings.now.secret pair.key)
        && ((told.position == length (known.volume_at state.now told.volume).log + 1) && (told.rows == length (known.settled state.now.directory.rows pair told.volume))))) }
{
    is_dir_open(state, pair)
        && (cookie_eq(told.cookie, cookie_of(&settings.secret, pair.key))
            && (u128::from(told.position) == u128::from(front_of(state, told.volume)) + 1
                && u128::from(told.rows) == settled_rows(state, pair, told.volume)))
}

/// The state behind a put that was answered stored, by the volume that takes it.
fn stored_if(
    alloc: Global,
    settings: &Settings,
    state: State,
    tag: CoreTag,
    pair: Pair,
    photo: &Bytes,
    told: Told,
    taker: Option<u32>,
) -> Result<Listed<State>, NoMemory>
    requires size { length photo.now < 2 ^ 32 }
    requires grow { Each VolumeMayGrow state.volumes }
    ensures { IfOk result (λ states. states ≡ box_next.stored_if settings.now state tag pair photo.now told.volume told.position told.rows told.cookie taker) }
{
    if !is_at(taker, told.volume) || !is_stored_so(settings, &state, pair, told) {
        drop_state(state);
        return Ok(Listed::new(alloc));
    }
    let Ok(bytes) = photo.duplicate(alloc) else {
        drop_state(state);
        return Err(NoMemory);
    };
    let size = bytes.len() as u32;
    let after = stored(
        alloc,
        state,
        tag,
        pair,
        bytes,
        size,
        told.volume,
        told.cookie,
    )?;
    Listed::one(alloc, after)
}

/// The state behind a put that failed on a replica, by the volume that would take it.
fn failed_if(
    alloc: Global,
    settings: &Settings,
    state: State,
    tag: CoreTag,
    pair: Pair,
    photo: &Bytes,
    volume: u32,
    machine: u32,
    faults: u64,
    taker: Option<u32>,
) -> Result<Listed<State>, NoMemory>
    requires { 0 < settings.now.machines }
    ensures { IfOk result (λ states. states ≡ rooms.failed_if settings.now state tag pair photo.now volume machine faults taker (known.replica_on settings.now volume machine)) }
{
    let Some(replica) = replica_on(settings, volume, machine) else {
        drop_state(state);
        return Ok(Listed::new(alloc));
    };
    let slot = slot_of(settings, volume, replica);
    if !is_at(taker, volume) || !is_dir_open(&state, pair) || !rises_to(&state, slot, faults) {
        drop_state(state);
        return Ok(Listed::new(alloc));
    }
    let Ok(bytes) = photo.duplicate(alloc) else {
        drop_state(state);
        return Err(NoMemory);
    };
    let after = put_frozen(alloc, settings, state, tag, pair, bytes, volume, machine)?;
    Listed::one(alloc, with_fault(after, slot, faults))
}

/// Behind a put whose row could not be written.
fn next_row_failed(
    alloc: Global,
    state: State,
    tag: CoreTag,
    pair: Pair,
    faults: u64,
    taker: Option<u32>,
) -> Result<Listed<State>, NoMemory>
    ensures { IfOk result (λ states. states ≡ next.row_failed_by state tag pair faults taker) }
{
    let Some(volume) = taker else {
        drop_state(state);
        return Ok(Listed::new(alloc));
    };
    let is_missing = home_of(&state, pair).is_none();
    if is_missing && (!state.directory.frozen && rises_to(&state, 0, faults)) {
        let after = row_pending(state, tag, pair, volume);
        Listed::one(alloc, with_fault(after, 0, faults))
    } else {
        drop_state(state);
        Ok(Listed::new(alloc))
    }
}

/// The states behind a put that no try refused, by the volume that takes it.
fn put_by(
    alloc: Global,
    settings: &Settings,
    state: State,
    tag: CoreTag,
    pair: Pair,
    photo: &Bytes,
    reply: &Reply,
    taker: Option<u32>,
) -> Result<Listed<State>, NoMemory>
    requires machines { 0 < settings.now.machines }
    requires size { length photo.now < 2 ^ 32 }
    requires grow { Each VolumeMayGrow state.volumes }
    ensures { IfOk result (λ states. states ≡ rooms.put_by settings.now state tag pair photo.now reply.now taker) }
{
    match reply {
        Reply::Stored {
            volume,
            position,
            rows,
            cookie,
        } => {
            let told = Told {
                volume: *volume,
                position: *position,
                rows: *rows,
                cookie: *cookie,
            };
            stored_if(alloc, settings, state, tag, pair, photo, told, taker)
        }
        Reply::ReadOnlyDir => {
            let test = home_of(&state, pair).is_none()
                && (taker.is_some() && state.directory.frozen);
            keep_if(alloc, test, state)
        }
        Reply::Failed {
            volume,
            machine,
            faults,
        } => failed_if(
            alloc, settings, state, tag, pair, photo, *volume, *machine, *faults, taker,
        ),
        Reply::FailedDir { faults } => { next_row_failed(alloc, state, tag, pair, *faults, taker) }
        _ => {
            drop_state(state);
            Ok(Listed::new(alloc))
        }
    }
}

/// The boxes behind a put that no try refused.
fn taken_boxes(
    alloc: Global,
    settings: &Settings,
    state: BoxState,
    tag: CoreTag,
    pair: Pair,
    photo: &Bytes,
    reply: &Reply,
) -> Result<Listed<BoxState>, NoMemory>
    requires machines { 0 < settings.now.machines }
    requires volumes { 0 < settings.now.volumes }
    requires size { length photo.now < 2 ^ 32 }
    requires grow { Each VolumeMayGrow state.base.volumes }
    ensures { IfOk result (λ made. made ≡ rooms.taken_boxes settings.now tag pair photo.now reply.now state) }
{
    let taker = taker_of(settings, &state, pair, photo.len() as u32);
    let BoxState { base, low, high } = state;
    let states = put_by(alloc, settings, base, tag, pair, photo, reply, taker)?;
    ranged_all(alloc, states, low, high)
}

/// Behind a put of a box of which each state takes the photo, or refuses it, in one way.
fn put_box(
    alloc: Global,
    settings: &Settings,
    state: BoxState,
    tag: CoreTag,
    pair: Pair,
    photo: &Bytes,
    reply: &Reply,
) -> Result<Listed<BoxState>, NoMemory>
    requires machines { 0 < settings.now.machines }
    requires volumes { 0 < settings.now.volumes }
    requires size { length photo.now < 2 ^ 32 }
    requires grow { Each VolumeMayGrow state.base.volumes }
    ensures { IfOk result (λ made. made ≡ rooms.put_box settings.now tag pair photo.now reply.now state) }
{
    let size = photo.len() as u32;
    match reply {
        Reply::Full { tries } => {
            let refused = tries.as_slice();
            let rest = want_room(refused);
            refused_boxes(alloc, settings, pair, size, refused, rest, state)
        }
        Reply::ReadOnly { tries } => {
            let Ok(refused) = as_closed(alloc, tries.as_slice()) else {
                drop_box(state);
                return Err(NoMemory);
            };
            refused_boxes(alloc, settings, pair, size, refused.as_slice(), true, state)
        }
        _ => taken_boxes(alloc, settings, state, tag, pair, photo, reply),
    }
}

/// Behind a put.
#[tactic(auto, using(crate::proofs::Parting::parts_grow))]
pub(crate) fn put_boxes(
    alloc: Global,
    settings: &Settings,
    state: BoxState,
    tag: CoreTag,
    pair: Pair,
    photo: &Bytes,
    reply: &Reply,
) -> Result<Listed<BoxState>, NoMemory>
    requires machines { 0 < settings.now.machines }
    requires volumes { 0 < settings.now.volumes }
    requires size { length photo.now < 2 ^ 32 }
    requires grow { Each VolumeMayGrow state.base.volumes }
    ensures { IfOk result (λ made. made ≡ rooms.put_boxes settings.now tag pair photo.now reply.now state) }
{
    let Ok(tries) = tries_of(alloc, settings, &state.base, pair) else {
        drop_box(state);
        return Err(NoMemory);
    };
    let parts = try_cuts(alloc, settings, photo.len() as u32, tries.as_slice(), state)?;
    let mut made = Listed::new(alloc);
    for part in parts.into_vec() {
        push_boxes(
            put_box(alloc, settings, part, tag, pair, photo, reply)?,
            &mut made,
        )?;
    }
    Ok(made)
}
