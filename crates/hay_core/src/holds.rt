//! The sides of a volume in a holding.

ghost use Rattle.std.specs.Prelude.{◌≡◌, ◌∷◌, [], IfOk, map, option_map, is_some, slice_get, if◌then◌else◌};
ghost use Rattle.std.specs.List.{list_any};
ghost use Rattle.hay_core.specs.Calls as calls;
ghost use Rattle.hay_core.specs.Sides as sides;
ghost use Rattle.hay_core.specs.Transitions as steps;

use crate::calls::{Harm, call_of, closing_count};
use crate::machine::{Side, Work};
use crate::needles::stands;
use crate::sides::{after_failed, after_ok, begun, ended, ended_copy, no_copy, published};
use hay_base::{Duplicate, Listed, NoMemory};
use hay_needle::Pair;
use std::alloc::Global;

fn some_stands(pair: Pair, list: &[Side]) -> bool
    ensures { result ≡ list_any (sides.stands pair) list.now }
{
    for side in list {
        if stands(pair, side) {
            return true;
        }
    }
    false
}

fn copies_at(number: u32, list: &[Side]) -> Option<bool>
    ensures { result ≡ option_map (λ s. is_some s.copy) (slice_get list.now number) }
{
    match list.get(number as usize) {
        None => None,
        Some(side) => Some(side.copy.is_some()),
    }
}

/// Whether the work can begin on these sides.
pub(crate) fn can_begin(work: &Work, list: &[Side]) -> bool
    ensures { result ≡ steps.can_begin work.now list.now }
{
    match work {
        Work::Put { .. } => true,
        Work::Del { pair } => some_stands(*pair, list),
        Work::Flush { side } => (*side as usize) < list.len(),
        Work::Start { side } => copies_at(*side, list) == Some(false),
        Work::Step { side, .. } | Work::Finish { side } => copies_at(*side, list) == Some(true),
    }
}

/// The sides at the start of a holding.
pub(crate) fn begun_sides(
    alloc: Global,
    work: &Work,
    list: &[Side],
) -> Result<Listed<Side>, NoMemory>
    ensures { IfOk result (λ next. next ≡ steps.begun_sides work.now 0 list.now) }
{
    let mut next = Listed::new(alloc);
    for (i, side) in list.iter().enumerate() {
        next.push(begun(alloc, work, i, side)?)?;
    }
    Ok(next)
}

/// A side behind its next device call and, where it has one left, what a failure of that call does.
#[derive(Drop)]
struct Called {
    side: Side,
    harm: Option<Harm>,
}

fn side_called(alloc: Global, work: &Work, made: bool, side: &Side) -> Result<Called, NoMemory>
    ensures side { IfOk result (λ c. c.side ∷ [] ≡ steps.at_first work.now (if made then sides.after_ok work.now else sides.after_failed work.now) (side.now ∷ [])) }
    ensures harm { IfOk result (λ c. c.harm ≡ option_map (λ call. call.harm) (calls.call_of work.now side.now)) }
{
    match call_of(alloc, work, side)? {
        None => Ok(Called {
            side: side.duplicate(alloc)?,
            harm: None,
        }),
        Some(call) => {
            let next = if made {
                after_ok(alloc, work, &call, side)?
            } else {
                after_failed(alloc, work, &call, side)?
            };
            Ok(Called {
                side: next,
                harm: Some(call.harm),
            })
        }
    }
}

/// All sides behind the next device call and, where one is left, what a failure of that call does.
#[derive(Drop)]
pub(crate) struct AllCalled {
    pub(crate) sides: Listed<Side>,
    pub(crate) harm: Option<Harm>,
}

pub(crate) fn all_called(
    alloc: Global,
    work: &Work,
    made: bool,
    list: &[Side],
) -> Result<AllCalled, NoMemory>
    ensures sides { IfOk result (λ all. all.sides ≡ steps.at_first work.now (if made then sides.after_ok work.now else sides.after_failed work.now) list.now) }
    ensures harm { IfOk result (λ all. all.harm ≡ option_map (λ call. call.harm) (steps.first_call work.now list.now)) }
{
    let mut sides = Listed::new(alloc);
    let mut harm = None;
    for side in list {
        if harm.is_some() {
            sides.push(side.duplicate(alloc)?)?;
        } else {
            let called = side_called(alloc, work, made, side)?;
            sides.push(called.side)?;
            harm = called.harm;
        }
    }
    Ok(AllCalled { sides, harm })
}

/// Whether a side has a device call left.
pub(crate) fn has_call_left(alloc: Global, work: &Work, list: &[Side]) -> Result<bool, NoMemory>
    ensures { IfOk result (λ left. left ≡ is_some (steps.first_call work.now list.now)) }
{
    for side in list {
        if call_of(alloc, work, side)?.is_some() {
            return Ok(true);
        }
    }
    Ok(false)
}

fn some_settled(list: &[Side]) -> bool
    ensures { result ≡ list_any (λ s. s.settled) list.now }
{
    for side in list {
        if side.settled {
            return true;
        }
    }
    false
}

fn is_before_head(side: &Side) -> bool
    ensures { result ≡ steps.before_head side.now }
{
    match side.progress {
        None => false,
        Some(progress) => side.copy.is_some() && progress <= closing_count(side.fresh.as_slice()),
    }
}

fn first_is_before_head(alloc: Global, work: &Work, list: &[Side]) -> Result<bool, NoMemory>
    ensures { IfOk result (λ is. is ≡ steps.first_passes work.now steps.before_head list.now) }
{
    for side in list {
        if call_of(alloc, work, side)?.is_some() {
            return Ok(is_before_head(side));
        }
    }
    Ok(false)
}

/// Whether a read of the work may fail.
pub(crate) fn may_read(alloc: Global, work: &Work, list: &[Side]) -> Result<bool, NoMemory>
    ensures { IfOk result (λ may. may ≡ steps.may_read work.now list.now) }
{
    match work {
        Work::Put { .. } => Ok(some_settled(list)),
        Work::Del { .. } | Work::Flush { .. } | Work::Start { .. } => Ok(false),
        Work::Step { .. } => Ok(true),
        Work::Finish { .. } => first_is_before_head(alloc, work, list),
    }
}

/// The sides without compactions.
pub(crate) fn no_copies(alloc: Global, list: &[Side]) -> Result<Listed<Side>, NoMemory>
    ensures { IfOk result (λ next. next ≡ map sides.no_copy list.now) }
{
    let mut next = Listed::new(alloc);
    for side in list {
        next.push(no_copy(alloc, side)?)?;
    }
    Ok(next)
}

/// The sides, without compactions where they have a part in the holding.
pub(crate) fn ended_copies(alloc: Global, list: &[Side]) -> Result<Listed<Side>, NoMemory>
    ensures { IfOk result (λ next. next ≡ map steps.ended_copy list.now) }
{
    let mut next = Listed::new(alloc);
    for side in list {
        next.push(ended_copy(alloc, side)?)?;
    }
    Ok(next)
}

/// The sides, once the work is published.
pub(crate) fn published_sides(
    alloc: Global,
    work: &Work,
    list: &[Side],
) -> Result<Listed<Side>, NoMemory>
    ensures { IfOk result (λ next. next ≡ map (steps.publish_pair work.now) list.now) }
{
    let mut next = Listed::new(alloc);
    for side in list {
        next.push(published(alloc, work, side)?)?;
    }
    Ok(next)
}

/// The sides behind a holding.
pub(crate) fn ended_sides(
    alloc: Global,
    work: &Work,
    failed: bool,
    list: &[Side],
) -> Result<Listed<Side>, NoMemory>
    ensures { IfOk result (λ next. next ≡ map (sides.ended work.now failed) list.now) }
{
    let mut next = Listed::new(alloc);
    for side in list {
        next.push(ended(alloc, work, failed, side)?)?;
    }
    Ok(next)
}
