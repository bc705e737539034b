//! Who refuses a put, and who takes it.

ghost use Rattle.std.specs.Prelude.{◌≡◌, ◌<◌, find, map, is_none, option_map};
ghost use Rattle.std.specs.List.{enumerate_from};
ghost use Rattle.hay_legal.specs.Known as known;
ghost use Rattle.hay_reply.specs.declared.Refused.TheVariants as refused_of;
ghost use Rattle.hay_audit_steps.specs.Next as next;
ghost use Rattle.hay_audit_steps.specs.Rooms as rooms;
ghost use Rattle.hay_audit.specs.Ranging as ranging;
ghost use Rattle.hay_audit.specs.Refusing as refusing;

use crate::boxes::BoxState;
use crate::looks::{frozen_of, home_of, lacking, volume_of};
use crate::spread::{machine_of, try_at};
use crate::state::State;
use hay_needle::{Pair, Settings, total_of};
use hay_reply::Refused;

pub(crate) fn is_drained(state: &State, machine: u32) -> bool
    ensures { result ≡ known.is_drained state.now machine }
{
    match state.drained.as_slice().get(machine as usize) {
        Some(drained) => *drained,
        None => false,
    }
}

/// The first of a volume's machines that is drained.
#[tactic(auto, using(crate::proofs::Lists::range_next))]
fn drained_of(settings: &Settings, state: &State, volume: u32) -> Option<u32>
    requires { 0 < settings.now.machines }
    ensures { result ≡ known.drained_of settings.now state.now volume }
{
    for j in 0..settings.replicas {
        let machine = machine_of(settings, volume, j as usize);
        if is_drained(state, machine) {
            return Some(machine);
        }
    }
    None
}

/// The machine by which a volume is closed to puts and deletes.
pub(crate) fn closed(settings: &Settings, state: &State, volume: u32) -> Option<u32>
    requires { 0 < settings.now.machines }
    ensures { result ≡ known.closed settings.now state.now volume }
{
    match frozen_of(state, volume) {
        Some(machine) => Some(machine),
        None => drained_of(settings, state, volume),
    }
}

/// The lowest replica of a volume without room for a photo of this size, and its end, with the lowest sizes.
#[tactic(auto, using(crate::proofs::Lowest::lacking_nowhere))]
pub(crate) fn lacking_of(
    settings: &Settings,
    state: &BoxState,
    volume: u32,
    size: u32,
) -> Option<(usize, u128)>
    ensures { option_map (λ at. (at.0, (at.1).end)) (find (λ at. known.lacks_room settings.now size at.1) (enumerate_from 0 (ranging.low_replicas state.now volume))) ≡ result }
{
    let Some(here) = volume_of(&state.base, volume) else {
        return None;
    };
    let replicas = here.replicas.as_slice();
    match state.low.as_slice().get(volume as usize) {
        Some(lows) => lacking(settings, size, replicas, lows.as_slice()),
        None => lacking(settings, size, replicas, &[]),
    }
}

/// With the lowest sizes a volume takes a photo of this size.
#[tactic(auto, using(crate::proofs::Lowest::takes_low))]
fn takes(settings: &Settings, state: &BoxState, volume: u32, size: u32) -> bool
    requires { 0 < settings.now.machines }
    ensures { result ≡ is_none (known.refusal_of settings.now (rooms.lowest state.now) size volume) }
{
    closed(settings, &state.base, volume).is_none()
        && lacking_of(settings, state, volume, size).is_none()
}

fn has_no_room_so(
    settings: &Settings,
    volume: u32,
    size: u32,
    least: Option<(usize, u128)>,
    refused: &Refused,
) -> bool
    requires { 0 < settings.now.machines }
    ensures { result ≡ refusing.refuses (ranging.room_refused settings.now volume size least) refused.now }
{
    let Some((j, end)) = least else {
        return false;
    };
    match refused {
        Refused::NoRoom {
            volume: told_volume,
            machine,
            end: told_end,
            need,
        } => {
            volume == *told_volume
                && (machine_of(settings, volume, j) == *machine
                    && (end == u128::from(*told_end) && total_of(size) == *need))
        }
        Refused::Closed { .. } => false,
    }
}

fn is_closed_so(volume: u32, machine: u32, refused: &Refused) -> bool
    ensures { result ≡ next.same_refused (refused_of.Closed volume machine) refused.now }
{
    match refused {
        Refused::NoRoom { .. } => false,
        Refused::Closed {
            volume: told_volume,
            machine: told_machine,
        } => volume == *told_volume && machine == *told_machine,
    }
}

/// With the lowest sizes a volume refuses a photo of this size, and so.
#[tactic(auto, using(crate::proofs::Lowest::refusal_low))]
pub(crate) fn refuses(
    settings: &Settings,
    state: &BoxState,
    size: u32,
    volume: u32,
    refused: &Refused,
) -> bool
    requires { 0 < settings.now.machines }
    ensures { result ≡ refusing.refuses (known.refusal_of settings.now (rooms.lowest state.now) size volume) refused.now }
{
    match closed(settings, &state.base, volume) {
        Some(machine) => is_closed_so(volume, machine, refused),
        None => {
            let least = lacking_of(settings, state, volume, size);
            has_no_room_so(settings, volume, size, least, refused)
        }
    }
}

#[tactic(auto, using(crate::proofs::Lists::range_next))]
fn first_taker(settings: &Settings, state: &BoxState, pair: Pair, size: u32) -> Option<u32>
    requires machines { 0 < settings.now.machines }
    requires volumes { 0 < settings.now.volumes }
    ensures { result ≡ find (λ v. is_none (known.refusal_of settings.now (rooms.lowest state.now) size v)) (known.all_tries settings.now pair) }
{
    for turn in 0..settings.volumes {
        let volume = try_at(settings, pair, turn);
        if takes(settings, state, volume, size) {
            return Some(volume);
        }
    }
    None
}

/// The volume that takes a photo, with the lowest sizes.
pub(crate) fn taker_of(settings: &Settings, state: &BoxState, pair: Pair, size: u32) -> Option<u32>
    requires machines { 0 < settings.now.machines }
    requires volumes { 0 < settings.now.volumes }
    ensures { result ≡ known.taker_of settings.now (rooms.lowest state.now) pair size }
{
    let Some(volume) = home_of(&state.base, pair) else {
        return first_taker(settings, state, pair, size);
    };
    if takes(settings, state, volume, size) {
        Some(volume)
    } else {
        None
    }
}
