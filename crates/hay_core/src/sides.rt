//! What becomes of one replica.

ghost use Rattle.std.specs.Prelude.{◌≡◌, ◌+◌, ◌<◌, ◌^◌, ℕ, Some, IfOk};
ghost use Rattle.hay_core.specs.declared.calls.Effect.TheVariants as effects;
ghost use Rattle.hay_core.specs.Calls as calls;
ghost use Rattle.hay_core.specs.Sides as sides;
ghost use Rattle.hay_core.specs.Transitions as steps;

use crate::calls::{Copied, DeviceCall, Effect, Harm};
use crate::machine::{Doubt, Mapped, Side, Spot, Work};
use crate::needles::{flag_last, rows_of, spot_in, spots_of, stands};
use hay_base::{Duplicate, Listed, NoMemory};
use hay_needle::Pair;
use std::alloc::Global;
use std::mem;

/// A sync makes sure what was in doubt.
pub(crate) fn settle(alloc: Global, doubt: &Doubt, side: Side) -> Result<Side, NoMemory>
    ensures { IfOk result (λ next. next ≡ sides.settle doubt.now side) }
{
    let mut side = side;
    match doubt {
        Doubt::Sure => {}
        Doubt::Cell(needle) => {
            side.current.push(needle.duplicate(alloc)?)?;
            side.settled = true;
        }
        Doubt::Flag(pair) => {
            side.current = flag_last(alloc, *pair, side.current.as_slice())?;
            side.settled = true;
        }
        Doubt::Head => {
            let count = side.fresh.len() as u64;
            let fresh = mem::replace(&mut side.fresh, Listed::new(alloc));
            let old = mem::replace(&mut side.current, fresh);
            side.past.push(old)?;
            side.rows = count;
            side.most = count;
            side.copy = None;
        }
    }
    side.doubt = Doubt::Sure;
    Ok(side)
}

/// The number of needles that are examined, once this call has copied one.
fn examined_by(work: &Work, call: &DeviceCall, copied: &Copied, side: &Side) -> Option<u64>
    requires next { calls.call_of work.now side.now ≡ Some call.now }
    requires copies { call.now.effect ≡ effects.Copies copied.now }
    ensures { result ≡ sides.examined_more side.now.copy copied.now.passed }
{
    match side.copy {
        None => None,
        Some(examined) => Some(
            examined
                .saturating_add(copied.passed)
                .min(side.current.len() as u64),
        ),
    }
}

fn made(alloc: Global, work: &Work, call: &DeviceCall, side: Side) -> Result<Side, NoMemory>
    requires { calls.call_of work.now side ≡ Some call.now }
    ensures { IfOk result (λ next. next ≡ sides.made call.now.effect side) }
{
    let mut side = side;
    match &call.effect {
        Effect::Quiet => {}
        Effect::Doubts(doubt) => side.doubt = doubt.duplicate(alloc)?,
        Effect::Settles(doubt) => return settle(alloc, doubt, side),
        Effect::MarksRows => side.most = side.current.len() as u64,
        Effect::SettlesRows => side.rows = side.most,
        Effect::Repeats(pair) => side.fresh = flag_last(alloc, *pair, side.fresh.as_slice())?,
        Effect::Makes => {
            side.copy = Some(0);
            side.fresh = Listed::new(alloc);
        }
        Effect::Copies(copied) => {
            side.copy = examined_by(work, call, copied, &side);
            side.fresh.push(copied.needle.duplicate(alloc)?)?;
        }
    }
    Ok(side)
}

fn broken(alloc: Global, effect: &Effect, side: Side) -> Result<Side, NoMemory>
    ensures { IfOk result (λ next. next ≡ sides.broken effect.now side) }
{
    let mut side = side;
    match effect {
        Effect::Doubts(doubt) => side.doubt = doubt.duplicate(alloc)?,
        Effect::MarksRows => side.most = side.current.len() as u64,
        Effect::Repeats(_) => side.copy = None,
        Effect::Quiet
        | Effect::Settles(_)
        | Effect::SettlesRows
        | Effect::Makes
        | Effect::Copies(_) => {}
    }
    Ok(side)
}

fn progress_after(work: &Work, call: &DeviceCall, progress: u64, side: &Side) -> u64
    requires { calls.call_from work.now (Some progress) side.now ≡ Some call.now }
    ensures { result ≡ sides.progress_after work.now call.now.effect progress }
{
    match work {
        Work::Step { cells, .. } => match &call.effect {
            Effect::Copies(copied) => progress.saturating_add(copied.passed).min(*cells),
            _ => progress + 1,
        },
        Work::Finish { .. } => match &call.effect {
            Effect::Copies(_) => progress,
            Effect::Settles(_) => 0,
            _ => progress + 1,
        },
        _ => progress + 1,
    }
}

fn next_progress(work: &Work, call: &DeviceCall, side: &Side) -> Option<u64>
    requires { calls.call_of work.now side.now ≡ Some call.now }
    ensures { result ≡ sides.next_progress work.now call.now.effect side.now.progress }
{
    match side.progress {
        None => None,
        Some(progress) => Some(progress_after(work, call, progress, side)),
    }
}

/// The side, once it has made this call.
pub(crate) fn after_ok(
    alloc: Global,
    work: &Work,
    call: &DeviceCall,
    side: &Side,
) -> Result<Side, NoMemory>
    requires { calls.call_of work.now side.now ≡ Some call.now }
    ensures { IfOk result (λ next. next ≡ sides.after_ok work.now call.now side.now) }
{
    let mut next = made(alloc, work, call, side.duplicate(alloc)?)?;
    next.progress = next_progress(work, call, side);
    Ok(next)
}

/// The side, once this call of it has failed.
pub(crate) fn after_failed(
    alloc: Global,
    work: &Work,
    call: &DeviceCall,
    side: &Side,
) -> Result<Side, NoMemory>
    requires { calls.call_of work.now side.now ≡ Some call.now }
    ensures { IfOk result (λ next. next ≡ sides.after_failed work.now call.now side.now) }
{
    let mut next = broken(alloc, &call.effect, side.duplicate(alloc)?)?;
    match call.harm {
        Harm::Freezes | Harm::Fails => {}
        Harm::Ends => next.copy = None,
        Harm::GoesOn => next.progress = next_progress(work, call, side),
    }
    Ok(next)
}

fn passed_at_end(work: &Work, side: &Side) -> Option<u64>
    ensures { result ≡ sides.passed_at_end work.now side.now }
{
    match work {
        Work::Step { cells, .. } => {
            let Some(progress) = side.progress else {
                return side.copy;
            };
            let Some(examined) = side.copy else {
                return None;
            };
            let passed = examined.saturating_add(cells.saturating_sub(progress));
            Some(passed.min(side.current.len() as u64))
        }
        _ => side.copy,
    }
}

/// The side behind a holding.
pub(crate) fn ended(alloc: Global, work: &Work, failed: bool, side: &Side) -> Result<Side, NoMemory>
    ensures { IfOk result (λ next. next ≡ sides.ended work.now failed side.now) }
{
    let mut next = side.duplicate(alloc)?;
    if !failed {
        next.copy = passed_at_end(work, side);
    }
    next.progress = None;
    Ok(next)
}

fn takes_part(work: &Work, number: usize, side: &Side) -> bool
    ensures { result ≡ steps.takes_part work.now number side.now }
{
    match work {
        Work::Put { .. } => true,
        Work::Del { pair } => stands(*pair, side),
        Work::Flush { side }
        | Work::Start { side }
        | Work::Step { side, .. }
        | Work::Finish { side } => *side as usize == number,
    }
}

/// The side of this number, at the start of a holding.
pub(crate) fn begun(
    alloc: Global,
    work: &Work,
    number: usize,
    side: &Side,
) -> Result<Side, NoMemory>
    ensures { IfOk result (λ next. next ≡ steps.begun_side (steps.takes_part work.now number side.now) side.now) }
{
    let part = takes_part(work, number, side);
    let mut next = side.duplicate(alloc)?;
    next.progress = if part { Some(0) } else { None };
    next.settled = !part;
    Ok(next)
}

/// The side without a compaction.
pub(crate) fn no_copy(alloc: Global, side: &Side) -> Result<Side, NoMemory>
    ensures { IfOk result (λ next. next ≡ sides.no_copy side.now) }
{
    let mut next = side.duplicate(alloc)?;
    next.copy = None;
    Ok(next)
}

/// The side, without a compaction where it has a part in the holding.
pub(crate) fn ended_copy(alloc: Global, side: &Side) -> Result<Side, NoMemory>
    ensures { IfOk result (λ next. next ≡ steps.ended_copy side.now) }
{
    let mut next = side.duplicate(alloc)?;
    if side.progress.is_some() {
        next.copy = None;
    }
    Ok(next)
}

fn map_now(alloc: Global, side: &Side) -> Result<Listed<Mapped>, NoMemory>
    ensures { IfOk result (λ spots. spots ≡ (sides.map_now side.now).spots) }
{
    spots_of(alloc, side.past.len() as u64, side.current.as_slice())
}

/// The side, once its change is published.
pub(crate) fn published(alloc: Global, work: &Work, side: &Side) -> Result<Side, NoMemory>
    ensures { IfOk result (λ next. next ≡ steps.publish_pair work.now side.now) }
{
    let mut next = side.duplicate(alloc)?;
    match work {
        Work::Put { pair, .. } => {
            let spots = map_now(alloc, side)?;
            let spot = spot_in(spots.as_slice(), *pair);
            next.spots.push(Mapped { pair: *pair, spot })?;
        }
        Work::Del { pair } => next.spots.push(Mapped {
            pair: *pair,
            spot: Spot::Gone,
        })?,
        Work::Finish { .. } => {
            if side.progress.is_some() {
                next.spots = map_now(alloc, side)?;
            }
        }
        Work::Flush { .. } | Work::Start { .. } | Work::Step { .. } => {}
    }
    Ok(next)
}

/// The side behind a stop, which keeps what is in doubt, or drops it.
pub(crate) fn stopped(alloc: Global, keep: bool, rows: bool, side: &Side) -> Result<Side, NoMemory>
    ensures { IfOk result (λ next. next ≡ sides.stopped keep rows side.now) }
{
    let mut next = side.duplicate(alloc)?;
    if keep {
        let doubt = side.doubt.duplicate(alloc)?;
        next = settle(alloc, &doubt, next)?;
    }
    let records = if rows { next.most } else { next.rows };
    next.doubt = Doubt::Sure;
    next.rows = records;
    next.most = records;
    next.copy = None;
    next.progress = None;
    next.is_open = false;
    Ok(next)
}

/// The side, opened.
pub(crate) fn opened(alloc: Global, side: &Side) -> Result<Side, NoMemory>
    ensures { IfOk result (λ next. next ≡ sides.opened side.now) }
{
    let spots = map_now(alloc, side)?;
    let base = rows_of(alloc, side.current.as_slice())?;
    let mut next = side.duplicate(alloc)?;
    next.spots = spots;
    next.base = base;
    next.is_open = true;
    Ok(next)
}
