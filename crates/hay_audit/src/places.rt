//! Boxes behind a line that changes the sizes of one replica.

ghost use Rattle.std.specs.Prelude.{◌≡◌, ◌≤◌, ◌<◌, ◌+◌, ◌^◌, ◌==◌, ◌∷◌, [], map, IfOk, IsTrue};
ghost use Rattle.hay_legal.specs.Known as known;
ghost use Rattle.hay_legal.specs.Plain as plain;
ghost use Rattle.hay_audit_steps.specs.BoxNext as box_next;
ghost use Rattle.hay_audit_steps.specs.Boxes as boxes;
ghost use Rattle.hay_audit_steps.specs.Places as places;
ghost use Rattle.hay_audit.specs.Ranging as ranging;
ghost use Rattle.hay_audit.specs.Replicas as replicas;
ghost use Rattle.hay_audit.specs.Sizes.{IsSmallAt};

use crate::boxes::{BoxState, Slack, drop_box, no_slack, set_slack, slack_at};
use crate::looks::end_of;
use crate::replicas::{Change, change_replica, standing_of};
use crate::state::{State, VolumeState};
use crate::table::{Table, behind_log};
use crate::upkeep::{Spot, is_named, is_open, is_resting};
use hay_base::{Listed, NoMemory};
use hay_legal::known::Run;
use hay_needle::LAST_GENERATION;
use std::alloc::Global;

/// The least and the most that the sizes of a replica lie above the lowest.
#[derive(Clone, Copy)]
struct Range {
    low: Slack,
    high: Slack,
}

fn range_at(state: &BoxState, spot: Spot) -> Range
    ensures low { result.low ≡ boxes.slack_at state.now.low spot.volume spot.replica }
    ensures high { result.high ≡ boxes.slack_at state.now.high spot.volume spot.replica }
{
    let at = spot.replica as usize;
    Range {
        low: slack_at(state.low.as_slice(), spot.volume, at),
        high: slack_at(state.high.as_slice(), spot.volume, at),
    }
}

/// The box with a change of a replica, and another range there.
fn with_range(
    alloc: Global,
    state: BoxState,
    spot: Spot,
    change: Change,
    range: Range,
) -> Result<Listed<BoxState>, NoMemory>
    ensures { IfOk result (λ made. made ≡ ranging.with_range state spot.volume spot.replica (replicas.changed change) range.low range.high ∷ []) }
{
    let BoxState { base, low, high } = state;
    let at = spot.replica as usize;
    let made = BoxState {
        base: change_replica(alloc, base, spot.volume, spot.replica, change),
        low: set_slack(alloc, low, spot.volume, at, range.low),
        high: set_slack(alloc, high, spot.volume, at, range.high),
    };
    Listed::one(alloc, made)
}

fn is_between(low: u128, number: u64, high: u128) -> bool
    requires low { low < 2 ^ 65 }
    requires high { high < 2 ^ 65 }
    ensures { result ≡ places.is_between low number high }
{
    let number = u128::from(number);
    low <= number && number <= high
}

fn without_bare(slack: Slack) -> Slack
    ensures { result ≡ ranging.without_bare slack }
{
    Slack {
        end: slack.end,
        cells: slack.cells,
        bare: 0,
    }
}

fn with_cells(slack: Slack, cells: u64) -> Slack
    ensures { result ≡ ranging.with_cells cells slack }
{
    Slack {
        end: slack.end,
        cells,
        bare: slack.bare,
    }
}

/// Behind a flush that told how many cells had no record.
pub(crate) fn flushed_boxes(
    alloc: Global,
    state: BoxState,
    spot: Spot,
    volume: u32,
    machine: u32,
    records: u64,
) -> Result<Listed<BoxState>, NoMemory>
    ensures { IfOk result (λ made. made ≡ places.flushed_boxes state spot.volume spot.machine spot.replica volume machine records) }
{
    let here = standing_of(&state.base, spot.volume, spot.replica);
    let range = range_at(&state, spot);
    let least = u128::from(here.bare) + u128::from(range.low.bare);
    let most = u128::from(here.bare) + u128::from(range.high.bare);
    let test = is_named(spot, volume, machine)
        && (is_open(&state.base, spot.volume) && !here.stuck);
    if !test || !is_between(least, records, most) {
        drop_box(state);
        return Ok(Listed::new(alloc));
    }
    let none = Range {
        low: without_bare(range.low),
        high: without_bare(range.high),
    };
    with_range(alloc, state, spot, Change::Flushed, none)
}

/// All cells that were left were copied, and these were so many.
fn copied_all(
    alloc: Global,
    state: BoxState,
    spot: Spot,
    run: Run,
    cells: u64,
) -> Result<Listed<BoxState>, NoMemory>
    requires cells { (plain.replica_of state.base spot.volume spot.replica).cells < 2 ^ 63 }
    requires high { (boxes.slack_at state.high spot.volume spot.replica).cells < 2 ^ 62 }
    ensures { IfOk result (λ made. made ≡ ranging.all_copied state spot.volume spot.replica run cells) }
{
    let here = standing_of(&state.base, spot.volume, spot.replica);
    let range = range_at(&state, spot);
    if cells < run.left
        || cells - run.left < range.low.cells
        || range.high.cells < cells - run.left
    {
        drop_box(state);
        return Ok(Listed::new(alloc));
    }
    let change = Change::Copied {
        cells: here.cells + (cells - run.left),
        run: Run {
            goal: run.goal,
            left: 0,
        },
    };
    let known = Range {
        low: with_cells(range.low, 0),
        high: with_cells(range.high, 0),
    };
    with_range(alloc, state, spot, change, known)
}

/// As many cells were copied as were asked for.
fn copied_some(
    alloc: Global,
    state: BoxState,
    spot: Spot,
    run: Run,
    asked: u32,
) -> Result<Listed<BoxState>, NoMemory>
    requires cells { (plain.replica_of state.base spot.volume spot.replica).cells < 2 ^ 63 }
    requires left { run.left < 2 ^ 63 }
    requires high { (boxes.slack_at state.high spot.volume spot.replica).cells < 2 ^ 62 }
    ensures { IfOk result (λ made. made ≡ ranging.some_copied state spot.volume spot.replica run asked) }
{
    let here = standing_of(&state.base, spot.volume, spot.replica);
    let range = range_at(&state, spot);
    let asked = u64::from(asked);
    let more = range.low.cells.max(asked.saturating_sub(run.left));
    if range.high.cells < more {
        drop_box(state);
        return Ok(Listed::new(alloc));
    }
    let change = Change::Copied {
        cells: here.cells + more,
        run: Run {
            goal: run.goal,
            left: run.left + more - asked,
        },
    };
    let fewer = Range {
        low: with_cells(range.low, 0),
        high: with_cells(range.high, range.high.cells - more),
    };
    with_range(alloc, state, spot, change, fewer)
}

fn copied_boxes(
    alloc: Global,
    state: BoxState,
    spot: Spot,
    run: Run,
    asked: u32,
    cells: u64,
) -> Result<Listed<BoxState>, NoMemory>
    requires cells { (plain.replica_of state.base spot.volume spot.replica).cells < 2 ^ 63 }
    requires left { run.left < 2 ^ 63 }
    requires high { (boxes.slack_at state.high spot.volume spot.replica).cells < 2 ^ 62 }
    ensures { IfOk result (λ made. made ≡ map (places.with_part state spot.volume spot.replica)
        (places.copied_parts (places.part_at state spot.volume spot.replica) run asked cells)) }
{
    if cells < u64::from(asked) {
        return copied_all(alloc, state, spot, run, cells);
    }
    if cells != u64::from(asked) {
        drop_box(state);
        return Ok(Listed::new(alloc));
    }
    let made = copied_some(alloc, state, spot, run, asked)?;
    Ok(made)
}

/// Behind a step that told how many cells were copied.
pub(crate) fn stepped_boxes(
    alloc: Global,
    state: BoxState,
    spot: Spot,
    asked: u32,
    volume: u32,
    machine: u32,
    cells: u64,
) -> Result<Listed<BoxState>, NoMemory>
    requires { IsSmallAt state spot.volume spot.replica }
    ensures { IfOk result (λ made. made ≡ places.stepped_boxes state spot.volume spot.machine spot.replica asked volume machine cells) }
{
    let here = standing_of(&state.base, spot.volume, spot.replica);
    if !is_named(spot, volume, machine) || !is_open(&state.base, spot.volume) {
        drop_box(state);
        return Ok(Listed::new(alloc));
    }
    match here.run {
        Some(run) => copied_boxes(alloc, state, spot, run, asked, cells),
        None => {
            drop_box(state);
            Ok(Listed::new(alloc))
        }
    }
}

// WHAT STANDS ON A REPLICA

/// The sizes of a file with what stands on a replica, and no more.
#[derive(Clone, Copy)]
struct Sizes {
    end: u128,
    cells: u64,
}

fn table_in(alloc: Global, volume: &VolumeState, replica: u32) -> Result<Table, NoMemory>
    ensures { IfOk result (λ table. table ≡ known.now volume.now (known.replica_at volume.now replica)) }
{
    match volume.replicas.as_slice().get(replica as usize) {
        Some(replica) => behind_log(alloc, &replica.base, &volume.log),
        None => behind_log(alloc, &Table::new(alloc), &volume.log),
    }
}

fn table_of(alloc: Global, state: &State, volume: u32, replica: u32) -> Result<Table, NoMemory>
    ensures { IfOk result (λ table. table ≡ known.now (known.volume_at state.now volume) (plain.replica_of state.now volume replica)) }
{
    match state.volumes.as_slice().get(volume as usize) {
        Some(volume) => table_in(alloc, volume, replica),
        None => Ok(Table::new(alloc)),
    }
}

fn tight_sizes(alloc: Global, state: &State, spot: Spot) -> Result<Sizes, NoMemory>
    ensures end { IfOk result (λ sizes. sizes.end ≡ box_next.least_end state.now spot.volume spot.replica) }
    ensures cells { IfOk result (λ sizes. sizes.cells ≡ box_next.least_cells state.now spot.volume spot.replica) }
{
    let table = table_of(alloc, state, spot.volume, spot.replica)?;
    Ok(Sizes {
        end: table.live_end(),
        cells: table.len() as u64,
    })
}

/// The replica has a new file of these sizes.
#[tactic(auto, using(crate::proofs::Swapped::swap_is))]
fn swapped(
    alloc: Global,
    state: BoxState,
    spot: Spot,
    end: u64,
    cells: u64,
    generation: u64,
    range: Range,
) -> Result<Listed<BoxState>, NoMemory>
    requires { generation ≡ (plain.replica_of state.base spot.volume spot.replica).generation + 1 }
    ensures { IfOk result (λ made. made ≡ ranging.with_range state spot.volume spot.replica (plain.swapped end cells) range.low range.high ∷ []) }
{
    let change = Change::Swapped {
        end,
        cells,
        generation,
    };
    with_range(alloc, state, spot, change, range)
}

fn is_next(spot: Spot, state: &State, generation: u64) -> bool
    ensures { result ≡ generation == (plain.replica_of state.now spot.volume spot.replica).generation + 1 }
{
    let here = standing_of(state, spot.volume, spot.replica);
    u128::from(generation) == u128::from(here.generation) + 1
}

fn as_number(end: u128) -> u64
    requires { end < 2 ^ 64 }
    ensures { result ≡ end }
{
    end as u64
}

/// Behind a compaction in one command.
pub(crate) fn compacted_boxes(
    alloc: Global,
    state: BoxState,
    spot: Spot,
    volume: u32,
    machine: u32,
    generation: u64,
) -> Result<Listed<BoxState>, NoMemory>
    requires { box_next.least_end state.base spot.volume spot.replica < 2 ^ 64 }
    ensures { IfOk result (λ made. made ≡ places.compacted_boxes state spot.volume spot.machine spot.replica volume machine generation) }
{
    let base = &state.base;
    let test = is_named(spot, volume, machine)
        && (is_open(base, spot.volume)
            && (is_resting(base, spot) && is_next(spot, base, generation)));
    if !test {
        drop_box(state);
        return Ok(Listed::new(alloc));
    }
    let Ok(sizes) = tight_sizes(alloc, base, spot) else {
        drop_box(state);
        return Err(NoMemory);
    };
    let end = as_number(sizes.end);
    let none = Range {
        low: no_slack(),
        high: no_slack(),
    };
    let made = swapped(alloc, state, spot, end, sizes.cells, generation, none)?;
    Ok(made)
}

fn may_finish(state: &State, spot: Spot) -> bool
    ensures { result ≡ box_next.may_finish state.now spot.volume spot.replica }
{
    let here = standing_of(state, spot.volume, spot.replica);
    here.run.is_some() && here.generation < LAST_GENERATION
}

/// A compaction that stands on an open volume may end so.
fn is_finish(state: &State, spot: Spot, volume: u32, machine: u32, generation: u64) -> bool
    ensures { result ≡ ranging.is_finish state.now spot.volume spot.machine spot.replica volume machine generation }
{
    is_named(spot, volume, machine)
        && (is_open(state, spot.volume)
            && (may_finish(state, spot) && is_next(spot, state, generation)))
}

fn most_end(state: &BoxState, spot: Spot) -> u64
    requires { IsSmallAt state.now spot.volume spot.replica }
    ensures { result ≡ box_next.most_end state.now spot.volume spot.replica }
{
    let at = spot.replica as usize;
    end_of(&state.base, spot.volume, at) + slack_at(state.high.as_slice(), spot.volume, at).end
}

fn most_cells(state: &BoxState, spot: Spot) -> u64
    requires { IsSmallAt state.now spot.volume spot.replica }
    ensures { result ≡ box_next.most_cells state.now spot.volume spot.replica }
{
    let here = standing_of(&state.base, spot.volume, spot.replica);
    let at = spot.replica as usize;
    here.cells + slack_at(state.high.as_slice(), spot.volume, at).cells
}

fn fits_file(sizes: Sizes, end: u64, cells: u64) -> bool
    ensures same { result ≡ ranging.fits_file sizes.end sizes.cells end cells }
    ensures end { IsTrue result → sizes.end ≤ end }
    ensures cells { IsTrue result → sizes.cells ≤ cells }
{
    sizes.end <= u128::from(end) && sizes.cells <= cells
}

/// Behind the end of a compaction, which leaves ranges of sizes.
#[tactic(auto, using(crate::proofs::Swapped::no_file, crate::proofs::Swapped::no_finish))]
pub(crate) fn finished_boxes(
    alloc: Global,
    state: BoxState,
    spot: Spot,
    volume: u32,
    machine: u32,
    generation: u64,
) -> Result<Listed<BoxState>, NoMemory>
    requires { IsSmallAt state spot.volume spot.replica }
    ensures { IfOk result (λ made. made ≡ box_next.finished_boxes state spot.volume spot.machine spot.replica volume machine generation) }
{
    if !is_finish(&state.base, spot, volume, machine, generation) {
        drop_box(state);
        return Ok(Listed::new(alloc));
    }
    let most = most_end(&state, spot);
    let many = most_cells(&state, spot);
    let Ok(sizes) = tight_sizes(alloc, &state.base, spot) else {
        drop_box(state);
        return Err(NoMemory);
    };
    if !fits_file(sizes, most, many) {
        drop_box(state);
        return Ok(Listed::new(alloc));
    }
    let end = as_number(sizes.end);
    let above = Range {
        low: no_slack(),
        high: Slack {
            end: most - end,
            cells: many - sizes.cells,
            bare: 0,
        },
    };
    let made = swapped(alloc, state, spot, end, sizes.cells, generation, above)?;
    Ok(made)
}
