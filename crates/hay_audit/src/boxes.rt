//! States of which some sizes are known by their ranges.

ghost use Rattle.std.specs.Prelude.{◌≡◌, ◌∷◌, ◌++◌, map, replicate, slice_set, slice_index_or, length, IfOk, OnOk, []};
ghost use Rattle.hay_audit_steps.specs.BoxPlain as box_plain;
ghost use Rattle.hay_audit_steps.specs.Boxes as boxes;
ghost use Rattle.hay_audit_steps.specs.Slacks as slacks;
ghost use Rattle.hay_audit.specs.Ranging as ranging;

use crate::state::{State, VolumeState, drop_state};
use hay_base::{Duplicate, Listed, NoMemory};
use std::alloc::Global;
use std::marker::Model;
use std::mem;

/// How much above the lowest the sizes of a replica may lie.
#[derive(Clone, Copy)]
pub struct Slack {
    pub end: u64,
    pub cells: u64,
    pub bare: u64,
}

impl Model for Slack {
    ghost use Rattle.hay_audit_steps.specs.Slacks.{Slack as SlackOf};

    ghost Value = { SlackOf };

    ghost view = { λ s. record { end = s.end; cells = s.cells; bare = s.bare } };

    ghost inverse = { λ s. record { end = s.end; cells = s.cells; bare = s.bare } };
}

impl Duplicate for Slack {
    fn duplicate(&self, _alloc: Global) -> Result<Slack, NoMemory> {
        Ok(*self)
    }
}

/// The lowest state, and for each replica of each volume the least and the most that its sizes lie above.
#[derive(Drop)]
pub struct BoxState {
    pub base: State,
    pub low: Listed<Listed<Slack>>,
    pub high: Listed<Listed<Slack>>,
}

impl Model for BoxState {
    ghost use Rattle.hay_audit_steps.specs.Boxes.{Box};

    ghost Value = { Box };

    ghost view = { λ b. record { base = b.base; low = b.low; high = b.high } };
}

impl Duplicate for BoxState {
    fn duplicate(&self, alloc: Global) -> Result<BoxState, NoMemory> {
        let low = self.low.duplicate(alloc)?;
        let high = self.high.duplicate(alloc)?;
        let base = self.base.duplicate(alloc)?;
        Ok(BoxState { base, low, high })
    }
}

/// Ends a box that no turn leaves.
pub(crate) fn drop_box(_state: BoxState) {}

pub(crate) fn no_slack() -> Slack
    ensures { result ≡ slacks.no_slack }
{
    Slack {
        end: 0,
        cells: 0,
        bare: 0,
    }
}

/// The bound at a replica of a volume: none where there is none.
pub(crate) fn slack_in(row: &[Slack], replica: usize) -> Slack
    ensures { result ≡ slice_index_or row.now replica slacks.no_slack }
{
    match row.get(replica) {
        Some(slack) => *slack,
        None => no_slack(),
    }
}

/// The bound at a replica.
pub(crate) fn slack_at(ranges: &[Listed<Slack>], volume: u32, replica: usize) -> Slack
    ensures { result ≡ boxes.slack_at ranges.now volume replica }
{
    match ranges.get(volume as usize) {
        Some(row) => slack_in(row.as_slice(), replica),
        None => no_slack(),
    }
}

#[tactic(auto, using(crate::proofs::Lists::set_beyond))]
fn set_in(row: Listed<Slack>, replica: usize, slack: Slack) -> Listed<Slack>
    ensures { result ≡ slice_set row replica slack }
{
    let mut row = row.into_vec();
    if replica >= row.len() {
        return Listed::from_vec(row);
    }
    row[replica] = slack;
    Listed::from_vec(row)
}

/// The bounds, with another one at a replica.
#[tactic(auto, using(crate::proofs::Lists::set_twice, crate::proofs::Lists::set_beyond))]
pub(crate) fn set_slack(
    alloc: Global,
    ranges: Listed<Listed<Slack>>,
    volume: u32,
    replica: usize,
    slack: Slack,
) -> Listed<Listed<Slack>>
    ensures { result ≡ boxes.set_slack ranges volume replica slack }
{
    let at = volume as usize;
    let mut ranges = ranges.into_vec();
    if at >= ranges.len() {
        return Listed::from_vec(ranges);
    }
    let row = mem::replace(&mut ranges[at], Listed::new(alloc));
    ranges[at] = set_in(row, replica, slack);
    Listed::from_vec(ranges)
}

/// Adds a state with copies of these ranges above it.
fn push_ranged(
    alloc: Global,
    base: State,
    low: &Listed<Listed<Slack>>,
    high: &Listed<Listed<Slack>>,
    out: &mut Listed<BoxState>,
) -> Result<(), NoMemory>
    ensures { OnOk result (out.new ≡ out.old ++ ranging.ranging low.now high.now base ∷ []) }
{
    let Ok(low) = low.duplicate(alloc) else {
        drop_state(base);
        return Err(NoMemory);
    };
    let Ok(high) = high.duplicate(alloc) else {
        drop_state(base);
        return Err(NoMemory);
    };
    out.push(BoxState { base, low, high })
}

/// Adds each of the states so.
fn push_ranged_each(
    alloc: Global,
    states: Vec<State>,
    low: &Listed<Listed<Slack>>,
    high: &Listed<Listed<Slack>>,
    out: &mut Listed<BoxState>,
) -> Result<(), NoMemory>
    ensures { OnOk result (out.new ≡ out.old ++ map (ranging.ranging low.now high.now) states.items) }
{
    for base in states {
        push_ranged(alloc, base, low, high, out)?;
    }
    Ok(())
}

/// Each of the states, with the same ranges above it.
pub(crate) fn ranged_all(
    alloc: Global,
    states: Listed<State>,
    low: Listed<Listed<Slack>>,
    high: Listed<Listed<Slack>>,
) -> Result<Listed<BoxState>, NoMemory>
    ensures { IfOk result (λ made. made ≡ map (ranging.ranging low high) states) }
{
    let mut made = Listed::new(alloc);
    let mut states = states.into_vec();
    let Some(last) = states.pop() else {
        return Ok(made);
    };
    let Ok(()) = push_ranged_each(alloc, states, &low, &high, &mut made) else {
        drop_state(last);
        return Err(NoMemory);
    };
    made.push(BoxState {
        base: last,
        low,
        high,
    })?;
    Ok(made)
}

/// Adds boxes behind others.
pub(crate) fn push_boxes(
    states: Listed<BoxState>,
    out: &mut Listed<BoxState>,
) -> Result<(), NoMemory>
    ensures { OnOk result (out.new ≡ out.old ++ states) }
{
    for state in states.into_vec() {
        out.push(state)?;
    }
    Ok(())
}

#[tactic(auto, using(crate::proofs::Lists::replicate_next))]
fn no_slack_each(alloc: Global, count: usize) -> Result<Listed<Slack>, NoMemory>
    ensures { IfOk result (λ row. row ≡ replicate count slacks.no_slack) }
{
    let mut row = Listed::new(alloc);
    for _i in 0..count {
        row.push(no_slack())?;
    }
    Ok(row)
}

fn no_slacks(alloc: Global, volumes: &[VolumeState]) -> Result<Listed<Listed<Slack>>, NoMemory>
    ensures { IfOk result (λ ranges. ranges ≡ map box_plain.no_slacks volumes.now) }
{
    let mut ranges = Listed::new(alloc);
    for volume in volumes {
        ranges.push(no_slack_each(alloc, volume.replicas.len())?)?;
    }
    Ok(ranges)
}

/// The box of one state alone.
pub(crate) fn exact_box(alloc: Global, state: State) -> Result<BoxState, NoMemory>
    ensures { IfOk result (λ made. made ≡ box_plain.exact_box state) }
{
    let Ok(low) = no_slacks(alloc, state.volumes.as_slice()) else {
        drop_state(state);
        return Err(NoMemory);
    };
    let Ok(high) = no_slacks(alloc, state.volumes.as_slice()) else {
        drop_state(state);
        return Err(NoMemory);
    };
    Ok(BoxState {
        base: state,
        low,
        high,
    })
}
