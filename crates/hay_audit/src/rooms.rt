//! Boxes whose tries refuse a photo, by the ends that are printed.

ghost use Rattle.std.specs.Prelude.{◌≡◌, ◌++◌, ◌<◌, flat_map, None, IfOk, OnOk};
ghost use Rattle.hay_legal.specs.Known as known;
ghost use Rattle.hay_audit_steps.specs.Rooms as rooms;
ghost use Rattle.hay_audit.specs.Ranging as ranging;

use crate::boxes::{BoxState, Slack, drop_box, set_slack, slack_at};
use crate::closed::{closed, lacking_of};
use crate::looks::end_of;
use crate::refusals::{refuse_so, tries_of};
use hay_base::{Listed, NoMemory};
use hay_needle::{Pair, Settings};
use hay_reply::Refused;
use std::alloc::Global;

fn at_slack(slack: Slack, end: u64) -> Slack
    ensures { result ≡ ranging.with_end end slack }
{
    Slack {
        end,
        cells: slack.cells,
        bare: slack.bare,
    }
}

/// The box where a replica ends so much above the lowest.
fn with_end(alloc: Global, state: BoxState, volume: u32, replica: usize, end: u64) -> BoxState
    ensures { result ≡ rooms.with_end state volume replica end }
{
    let BoxState { base, low, high } = state;
    let least = at_slack(slack_at(low.as_slice(), volume, replica), end);
    let most = at_slack(slack_at(high.as_slice(), volume, replica), end);
    BoxState {
        base,
        low: set_slack(alloc, low, volume, replica, least),
        high: set_slack(alloc, high, volume, replica, most),
    }
}

/// Adds the sizes of the box with this end of a replica.
fn at_end(
    alloc: Global,
    state: BoxState,
    volume: u32,
    replica: usize,
    end: u64,
    out: &mut Listed<BoxState>,
) -> Result<(), NoMemory>
    ensures { OnOk result (out.new ≡ out.old ++ rooms.at_end state volume replica end) }
{
    let base = end_of(&state.base, volume, replica);
    let low = slack_at(state.low.as_slice(), volume, replica);
    let high = slack_at(state.high.as_slice(), volume, replica);
    let least = u128::from(base) + u128::from(low.end);
    let most = u128::from(base) + u128::from(high.end);
    if least <= u128::from(end) && u128::from(end) <= most {
        out.push(with_end(alloc, state, volume, replica, end - base))?;
        return Ok(());
    }
    drop_box(state);
    Ok(())
}

/// Adds the sizes with which a volume that is open may refuse so.
#[tactic(auto, using(crate::proofs::Lowest::first_lacking))]
fn full_at(
    alloc: Global,
    settings: &Settings,
    size: u32,
    volume: u32,
    state: BoxState,
    refused: &Refused,
    out: &mut Listed<BoxState>,
) -> Result<(), NoMemory>
    ensures { OnOk result (out.new ≡ out.old ++ rooms.refused_at settings.now size state volume None refused.now) }
{
    let Refused::NoRoom { end, .. } = refused else {
        drop_box(state);
        return Ok(());
    };
    match lacking_of(settings, &state, volume, size) {
        Some((j, _)) => at_end(alloc, state, volume, j, *end, out),
        None => {
            drop_box(state);
            Ok(())
        }
    }
}

/// Adds the sizes with which a volume may refuse so.
fn refused_at(
    alloc: Global,
    settings: &Settings,
    size: u32,
    volume: u32,
    state: BoxState,
    refused: &Refused,
    out: &mut Listed<BoxState>,
) -> Result<(), NoMemory>
    requires { 0 < settings.now.machines }
    ensures { OnOk result (out.new ≡ out.old ++ rooms.refused_at settings.now size state volume (known.closed settings.now state.base volume) refused.now) }
{
    if closed(settings, &state.base, volume).is_none() {
        return full_at(alloc, settings, size, volume, state, refused, out);
    }
    if matches!(refused, Refused::Closed { .. }) {
        out.push(state)?;
        return Ok(());
    }
    drop_box(state);
    Ok(())
}

fn refuse_at(
    alloc: Global,
    settings: &Settings,
    size: u32,
    volume: u32,
    states: Listed<BoxState>,
    refused: &Refused,
) -> Result<Listed<BoxState>, NoMemory>
    requires { 0 < settings.now.machines }
    ensures { IfOk result (λ parts. parts ≡ flat_map (λ state. rooms.refused_at settings.now size state volume (known.closed settings.now state.base volume) refused.now) states) }
{
    let mut parts = Listed::new(alloc);
    for state in states.into_vec() {
        refused_at(alloc, settings, size, volume, state, refused, &mut parts)?;
    }
    Ok(parts)
}

/// The sizes with which each try may refuse so.
#[tactic(auto, using(crate::proofs::Cutting::other_count, crate::proofs::Cutting::refused_more, crate::proofs::Cutting::refused_none, crate::proofs::Lists::flat_one))]
fn all_refused_at(
    alloc: Global,
    settings: &Settings,
    size: u32,
    tries: &[u32],
    refused: &[Refused],
    state: BoxState,
) -> Result<Listed<BoxState>, NoMemory>
    requires { 0 < settings.now.machines }
    ensures { IfOk result (λ parts. parts ≡ rooms.all_refused_at settings.now size tries.now refused.now state) }
{
    if tries.len() != refused.len() {
        drop_box(state);
        return Ok(Listed::new(alloc));
    }
    let mut states = Listed::one(alloc, state)?;
    for (i, refusal) in refused.iter().enumerate() {
        states = refuse_at(alloc, settings, size, tries[i], states, refusal)?;
    }
    Ok(states)
}

/// Adds the box, where each try refuses just so, and the rest is said of them.
fn refuse_box(
    alloc: Global,
    settings: &Settings,
    pair: Pair,
    size: u32,
    refused: &[Refused],
    rest: bool,
    state: BoxState,
    out: &mut Listed<BoxState>,
) -> Result<(), NoMemory>
    requires machines { 0 < settings.now.machines }
    requires volumes { 0 < settings.now.volumes }
    ensures { OnOk result (out.new ≡ out.old ++ rooms.refuse_box settings.now pair size refused.now rest state) }
{
    let Ok(so) = refuse_so(alloc, settings, &state, pair, size, refused) else {
        drop_box(state);
        return Err(NoMemory);
    };
    if so && rest {
        out.push(state)?;
        return Ok(());
    }
    drop_box(state);
    Ok(())
}

/// The boxes behind a put that each of these tries refused so.
pub(crate) fn refused_boxes(
    alloc: Global,
    settings: &Settings,
    pair: Pair,
    size: u32,
    refused: &[Refused],
    rest: bool,
    state: BoxState,
) -> Result<Listed<BoxState>, NoMemory>
    requires machines { 0 < settings.now.machines }
    requires volumes { 0 < settings.now.volumes }
    ensures { IfOk result (λ made. made ≡ rooms.refused_boxes settings.now pair size refused.now rest state) }
{
    let Ok(tries) = tries_of(alloc, settings, &state.base, pair) else {
        drop_box(state);
        return Err(NoMemory);
    };
    let states = all_refused_at(alloc, settings, size, tries.as_slice(), refused, state)?;
    let mut made = Listed::new(alloc);
    for state in states.into_vec() {
        refuse_box(alloc, settings, pair, size, refused, rest, state, &mut made)?;
    }
    Ok(made)
}
