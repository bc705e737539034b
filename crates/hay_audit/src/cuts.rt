//! Boxes that are cut until each of their states takes a photo, or refuses it, in one way.

ghost use Rattle.std.specs.Prelude.{◌≡◌, ◌++◌, ◌+◌, ◌-◌, ◌<◌, ◌≤◌, ◌^◌, flat_map, IfOk, IsTrue, OnOk};
ghost use Rattle.hay_audit_steps.specs.Boxes as boxes;
ghost use Rattle.hay_audit_steps.specs.Rooms as rooms;
ghost use Rattle.hay_audit.specs.Ranging.{IsDecidedAt};

use crate::boxes::{BoxState, Slack, drop_box, push_boxes, set_slack, slack_at};
use crate::looks::{end_of, replica_count};
use hay_base::{Duplicate, Listed, NoMemory};
use hay_needle::{Settings, total_of};
use std::alloc::Global;

/// The box up to an end of a replica.
fn up_to(alloc: Global, state: BoxState, volume: u32, replica: usize, most: u64) -> BoxState
    ensures { result ≡ boxes.up_to state volume replica most }
{
    let BoxState { base, low, high } = state;
    let old = slack_at(high.as_slice(), volume, replica);
    let slack = Slack {
        end: old.end.min(most),
        cells: old.cells,
        bare: old.bare,
    };
    BoxState {
        base,
        low,
        high: set_slack(alloc, high, volume, replica, slack),
    }
}

/// The box above an end of a replica.
fn above(alloc: Global, state: BoxState, volume: u32, replica: usize, most: u64) -> BoxState
    requires { most + 1 < 2 ^ 64 }
    ensures { result ≡ boxes.above state volume replica most }
{
    let BoxState { base, low, high } = state;
    let old = slack_at(low.as_slice(), volume, replica);
    let slack = Slack {
        end: old.end.max(most + 1),
        cells: old.cells,
        bare: old.bare,
    };
    BoxState {
        base,
        low: set_slack(alloc, low, volume, replica, slack),
        high,
    }
}

/// Adds the box, if it has an end there.
fn push_where_end(
    state: BoxState,
    volume: u32,
    replica: usize,
    out: &mut Listed<BoxState>,
) -> Result<(), NoMemory>
    ensures { OnOk result (out.new ≡ out.old ++ rooms.where_end volume replica state) }
{
    let low = slack_at(state.low.as_slice(), volume, replica);
    let high = slack_at(state.high.as_slice(), volume, replica);
    if low.end <= high.end {
        out.push(state)?;
        return Ok(());
    }
    drop_box(state);
    Ok(())
}

fn has_place(ranges: &[Listed<Slack>], volume: u32, replica: usize) -> bool
    ensures { IsTrue result → boxes.IsPlace ranges.now volume replica }
{
    match ranges.get(volume as usize) {
        Some(row) => replica < row.len(),
        None => false,
    }
}

/// Adds the part of the box up to an end, if it has one.
fn push_up_to(
    alloc: Global,
    state: &BoxState,
    volume: u32,
    replica: usize,
    most: u64,
    out: &mut Listed<BoxState>,
) -> Result<(), NoMemory>
    ensures { OnOk result (out.new ≡ out.old ++ rooms.where_end volume replica (boxes.up_to state.now volume replica most)) }
{
    let copy = state.duplicate(alloc)?;
    let part = up_to(alloc, copy, volume, replica, most);
    push_where_end(part, volume, replica, out)
}

/// The ends of the box lie on one side.
fn is_decided(state: &BoxState, volume: u32, replica: usize, most: u64) -> bool
    ensures { IsTrue result → IsDecidedAt state.now volume replica most }
{
    if !has_place(state.low.as_slice(), volume, replica)
        || !has_place(state.high.as_slice(), volume, replica)
    {
        return false;
    }
    let low = slack_at(state.low.as_slice(), volume, replica);
    let high = slack_at(state.high.as_slice(), volume, replica);
    low.end <= high.end && (high.end <= most || most < low.end)
}

/// Adds the parts up to an end and above it.
#[tactic(auto, using(crate::proofs::Cutting::not_cut))]
fn cut_at(
    alloc: Global,
    state: BoxState,
    volume: u32,
    replica: usize,
    most: u64,
    out: &mut Listed<BoxState>,
) -> Result<(), NoMemory>
    requires { most + 1 < 2 ^ 64 }
    ensures { OnOk result (out.new ≡ out.old ++ rooms.cut_at volume replica most state) }
{
    if is_decided(&state, volume, replica, most) {
        out.push(state)?;
        return Ok(());
    }
    let Ok(()) = push_up_to(alloc, &state, volume, replica, most, out) else {
        drop_box(state);
        return Err(NoMemory);
    };
    push_where_end(
        above(alloc, state, volume, replica, most),
        volume,
        replica,
        out,
    )
}

/// The room that is left, where this much is needed.
fn room_left(capacity: u64, need: u128) -> u64
    requires some { 0 < need }
    requires within { need ≤ capacity }
    ensures left { result ≡ capacity - need }
    ensures small { result + 1 < 2 ^ 64 }
{
    (u128::from(capacity) - need) as u64
}

/// Adds the parts in which a replica has room for a photo of this size, and in which it has none.
fn room_cut(
    alloc: Global,
    settings: &Settings,
    size: u32,
    volume: u32,
    replica: usize,
    state: BoxState,
    out: &mut Listed<BoxState>,
) -> Result<(), NoMemory>
    ensures { OnOk result (out.new ≡ out.old ++ rooms.room_cut settings.now size volume replica state) }
{
    let end = end_of(&state.base, volume, replica);
    let need = u128::from(end) + u128::from(total_of(size)) + 8;
    if u128::from(settings.capacity) < need {
        out.push(state)?;
        return Ok(());
    }
    let most = room_left(settings.capacity, need);
    cut_at(alloc, state, volume, replica, most, out)
}

fn cut_all(
    alloc: Global,
    settings: &Settings,
    size: u32,
    volume: u32,
    replica: usize,
    states: Listed<BoxState>,
) -> Result<Listed<BoxState>, NoMemory>
    ensures { IfOk result (λ parts. parts ≡ flat_map (rooms.room_cut settings.now size volume replica) states) }
{
    let mut parts = Listed::new(alloc);
    for state in states.into_vec() {
        room_cut(alloc, settings, size, volume, replica, state, &mut parts)?;
    }
    Ok(parts)
}

/// The parts by what has room on each replica of a volume.
#[tactic(auto, using(crate::proofs::Cutting::cuts_all, crate::proofs::Cutting::cuts_more, crate::proofs::Cutting::cuts_none))]
fn volume_cuts(
    alloc: Global,
    settings: &Settings,
    size: u32,
    volume: u32,
    state: BoxState,
) -> Result<Listed<BoxState>, NoMemory>
    ensures { IfOk result (λ parts. parts ≡ rooms.volume_cuts settings.now size volume (rooms.replicas_at state volume) state) }
{
    let count = replica_count(&state.base, volume);
    let mut states = Listed::one(alloc, state)?;
    for j in 0..count {
        states = cut_all(alloc, settings, size, volume, j, states)?;
    }
    Ok(states)
}

fn cut_volume(
    alloc: Global,
    settings: &Settings,
    size: u32,
    volume: u32,
    states: Listed<BoxState>,
) -> Result<Listed<BoxState>, NoMemory>
    ensures { IfOk result (λ parts. parts ≡ flat_map (λ state. rooms.volume_cuts settings.now size volume (rooms.replicas_at state volume) state) states) }
{
    let mut parts = Listed::new(alloc);
    for state in states.into_vec() {
        push_boxes(
            volume_cuts(alloc, settings, size, volume, state)?,
            &mut parts,
        )?;
    }
    Ok(parts)
}

/// The parts by what has room on each replica of each of these volumes.
#[tactic(auto, using(crate::proofs::Cutting::tries_more, crate::proofs::Cutting::tries_none, crate::proofs::Lists::flat_one))]
pub(crate) fn try_cuts(
    alloc: Global,
    settings: &Settings,
    size: u32,
    tries: &[u32],
    state: BoxState,
) -> Result<Listed<BoxState>, NoMemory>
    ensures { IfOk result (λ parts. parts ≡ rooms.try_cuts settings.now size tries.now state) }
{
    let mut states = Listed::one(alloc, state)?;
    for volume in tries {
        states = cut_volume(alloc, settings, size, *volume, states)?;
    }
    Ok(states)
}
