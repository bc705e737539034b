//! Behind a put that was refused, or that failed.

ghost use Rattle.std.specs.Prelude.{◌≡◌, ◌<◌, map, IfOk};
ghost use Rattle.std.specs.List.{list_any};
ghost use Rattle.hay_legal.specs.Known as known;
ghost use Rattle.hay_legal.specs.Plain as plain;
ghost use Rattle.hay_audit_steps.specs.Next as next;
ghost use Rattle.hay_audit_steps.specs.Rooms as rooms;

use crate::boxes::BoxState;
use crate::closed::refuses;
use crate::looks::home_of;
use crate::spread::try_at;
use crate::state::State;
use hay_base::{Listed, NoMemory};
use hay_needle::{Pair, Settings};
use hay_reply::{ClosedBy, Refused};
use std::alloc::Global;

#[tactic(auto, using(crate::proofs::Lists::range_next))]
fn all_tries(alloc: Global, settings: &Settings, pair: Pair) -> Result<Listed<u32>, NoMemory>
    requires { 0 < settings.now.volumes }
    ensures { IfOk result (λ tries. tries ≡ known.all_tries settings.now pair) }
{
    let mut tries = Listed::new(alloc);
    for turn in 0..settings.volumes {
        tries.push(try_at(settings, pair, turn))?;
    }
    Ok(tries)
}

/// The volumes that a put of the pair tries.
pub(crate) fn tries_of(
    alloc: Global,
    settings: &Settings,
    state: &State,
    pair: Pair,
) -> Result<Listed<u32>, NoMemory>
    requires { 0 < settings.now.volumes }
    ensures { IfOk result (λ tries. tries ≡ known.tries_of settings.now state.now pair) }
{
    match home_of(state, pair) {
        Some(volume) => Listed::one(alloc, volume),
        None => all_tries(alloc, settings, pair),
    }
}

/// Each try refuses, and so.
#[tactic(auto, using(crate::proofs::Refusing::other_length, crate::proofs::Refusing::refused_next))]
fn are_refused_so(
    settings: &Settings,
    state: &BoxState,
    size: u32,
    tries: &[u32],
    refused: &[Refused],
) -> bool
    requires { 0 < settings.now.machines }
    ensures { result ≡ next.refuse_so (map (known.refusal_of settings.now (rooms.lowest state.now) size) tries.now) refused.now }
{
    if tries.len() != refused.len() {
        return false;
    }
    for (i, refusal) in refused.iter().enumerate() {
        if !refuses(settings, state, size, tries[i], refusal) {
            return false;
        }
    }
    true
}

pub(crate) fn refuse_so(
    alloc: Global,
    settings: &Settings,
    state: &BoxState,
    pair: Pair,
    size: u32,
    refused: &[Refused],
) -> Result<bool, NoMemory>
    requires machines { 0 < settings.now.machines }
    requires volumes { 0 < settings.now.volumes }
    ensures { IfOk result (λ so. so ≡ next.refuse_so (map (known.refusal_of settings.now (rooms.lowest state.now) size) (known.tries_of settings.now state.now.base pair)) refused.now) }
{
    let tries = tries_of(alloc, settings, &state.base, pair)?;
    Ok(are_refused_so(settings, state, size, tries.as_slice(), refused))
}

/// Some try wants room.
pub(crate) fn want_room(refused: &[Refused]) -> bool
    ensures { result ≡ list_any plain.wants_room refused.now }
{
    refused
        .iter()
        .any(|refusal| matches!(refusal, Refused::NoRoom { .. }))
}

pub(crate) fn as_closed(alloc: Global, tries: &[ClosedBy]) -> Result<Listed<Refused>, NoMemory>
    ensures { IfOk result (λ refused. refused ≡ map plain.as_closed tries.now) }
{
    let mut refused = Listed::new(alloc);
    for by in tries {
        refused.push(Refused::Closed {
            volume: by.volume,
            machine: by.machine,
        })?;
    }
    Ok(refused)
}
