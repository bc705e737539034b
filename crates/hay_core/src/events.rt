//! What each event makes of a volume: the volume behind it, or `None` where it is not enabled.

ghost use Rattle.std.specs.Prelude.{◌≡◌, ◌++◌, IfOk};
ghost use Rattle.hay_core.specs.Transitions as steps;

use crate::calls::Harm;
use crate::entry::{CoreTag, Entry, Logged};
use crate::holds::{
    all_called, begun_sides, can_begin, ended_copies, ended_sides, has_call_left, may_read,
    no_copies, published_sides,
};
use crate::machine::{Core, Hold, Side, Work};
use hay_base::{Duplicate, Listed, NoMemory};
use std::alloc::Global;

pub(crate) fn begin(
    alloc: Global,
    tag: CoreTag,
    work: &Work,
    core: &Core,
) -> Result<Option<Core>, NoMemory>
    ensures { IfOk result (λ next. steps.stepped next core.now ≡ steps.begin tag work.now core.now) }
{
    if !core.up || core.hold.is_some() || core.frozen || !can_begin(work, core.sides.as_slice()) {
        return Ok(None);
    }
    let sides = begun_sides(alloc, work, core.sides.as_slice())?;
    let work = work.duplicate(alloc)?;
    let mut next = core.duplicate(alloc)?;
    next.sides = sides;
    next.hold = Some(Hold {
        tag,
        work,
        failed: false,
        published: false,
    });
    Ok(Some(next))
}

pub(crate) fn device_ok(alloc: Global, core: &Core) -> Result<Option<Core>, NoMemory>
    ensures { IfOk result (λ next. steps.stepped next core.now ≡ steps.device_ok core.now.hold core.now) }
{
    let Some(hold) = &core.hold else {
        return Ok(None);
    };
    let all = all_called(alloc, &hold.work, true, core.sides.as_slice())?;
    if hold.failed || all.harm.is_none() {
        return Ok(None);
    }
    let mut next = core.duplicate(alloc)?;
    next.sides = all.sides;
    Ok(Some(next))
}

/// The volume with these sides, once a call or a read of the holding has failed.
fn harmed(
    alloc: Global,
    hold: &Hold,
    harm: Harm,
    sides: Listed<Side>,
    core: &Core,
) -> Result<Core, NoMemory>
    ensures { IfOk result (λ next. next ≡ steps.harmed hold.now harm sides core.now) }
{
    let mut held = hold.duplicate(alloc)?;
    let mut next = core.duplicate(alloc)?;
    match harm {
        Harm::Freezes => {
            next.sides = no_copies(alloc, sides.as_slice())?;
            next.frozen = true;
            held.failed = true;
        }
        Harm::Fails | Harm::Ends => {
            next.sides = sides;
            held.failed = true;
        }
        Harm::GoesOn => next.sides = sides,
    }
    next.hold = Some(held);
    Ok(next)
}

pub(crate) fn device_failed(alloc: Global, core: &Core) -> Result<Option<Core>, NoMemory>
    ensures { IfOk result (λ next. steps.stepped next core.now ≡ steps.device_failed core.now.hold core.now) }
{
    let Some(hold) = &core.hold else {
        return Ok(None);
    };
    let all = all_called(alloc, &hold.work, false, core.sides.as_slice())?;
    let Some(harm) = all.harm else {
        return Ok(None);
    };
    if hold.failed {
        return Ok(None);
    }
    Ok(Some(harmed(alloc, hold, harm, all.sides, core)?))
}

fn read_harmed(alloc: Global, hold: &Hold, core: &Core) -> Result<Core, NoMemory>
    ensures { IfOk result (λ next. next ≡ steps.read_harmed hold.now hold.now.work core.now) }
{
    match &hold.work {
        Work::Put { .. } => harmed(
            alloc,
            hold,
            Harm::Freezes,
            core.sides.duplicate(alloc)?,
            core,
        ),
        _ => harmed(
            alloc,
            hold,
            Harm::Ends,
            ended_copies(alloc, core.sides.as_slice())?,
            core,
        ),
    }
}

pub(crate) fn read_failed(alloc: Global, core: &Core) -> Result<Option<Core>, NoMemory>
    ensures { IfOk result (λ next. steps.stepped next core.now ≡ steps.read_failed core.now.hold core.now) }
{
    let Some(hold) = &core.hold else {
        return Ok(None);
    };
    if hold.failed || hold.published || !may_read(alloc, &hold.work, core.sides.as_slice())? {
        return Ok(None);
    }
    Ok(Some(read_harmed(alloc, hold, core)?))
}

fn publishes(work: &Work) -> bool
    ensures { result ≡ steps.publishes work.now }
{
    match work {
        Work::Put { .. } | Work::Del { .. } | Work::Finish { .. } => true,
        Work::Flush { .. } | Work::Start { .. } | Work::Step { .. } => false,
    }
}

fn change_of(alloc: Global, tag: CoreTag, work: &Work) -> Result<Option<Logged>, NoMemory>
    ensures { IfOk result (λ change. change ≡ steps.change_of tag work.now) }
{
    let entry = match work {
        Work::Put { pair, photo } => Entry::Put {
            pair: *pair,
            cookie: photo.cookie,
            bytes: photo.bytes.duplicate(alloc)?,
        },
        Work::Del { pair } => Entry::Del { pair: *pair },
        Work::Flush { .. } | Work::Start { .. } | Work::Step { .. } | Work::Finish { .. } =>
            return Ok(None),
    };
    Ok(Some(Logged { tag, entry }))
}

/// The change under way that is not published.
pub(crate) fn change(alloc: Global, core: &Core) -> Result<Option<Logged>, NoMemory>
    ensures { IfOk result (λ change. change ≡ steps.change core.now) }
{
    match &core.hold {
        None => core.pending.duplicate(alloc),
        Some(hold) => {
            if hold.published {
                Ok(None)
            } else {
                change_of(alloc, hold.tag, &hold.work)
            }
        }
    }
}

fn longer_log(alloc: Global, hold: &Hold, log: &Listed<Logged>) -> Result<Listed<Logged>, NoMemory>
    ensures { IfOk result (λ next. next ≡ log.now ++ steps.entry_list (steps.change_of hold.now.tag hold.now.work)) }
{
    let mut next = log.duplicate(alloc)?;
    if let Some(entry) = change_of(alloc, hold.tag, &hold.work)? {
        next.push(entry)?;
    }
    Ok(next)
}

pub(crate) fn publish(alloc: Global, core: &Core) -> Result<Option<Core>, NoMemory>
    ensures { IfOk result (λ next. steps.stepped next core.now ≡ steps.publish core.now.hold core.now) }
{
    let Some(hold) = &core.hold else {
        return Ok(None);
    };
    let left = has_call_left(alloc, &hold.work, core.sides.as_slice())?;
    if hold.failed || hold.published || !publishes(&hold.work) || left {
        return Ok(None);
    }
    let log = longer_log(alloc, hold, &core.log)?;
    let sides = published_sides(alloc, &hold.work, core.sides.as_slice())?;
    let mut held = hold.duplicate(alloc)?;
    held.published = true;
    let mut next = core.duplicate(alloc)?;
    next.log = log;
    next.sides = sides;
    next.hold = Some(held);
    Ok(Some(next))
}

pub(crate) fn end_hold(alloc: Global, core: &Core) -> Result<Option<Core>, NoMemory>
    ensures { IfOk result (λ next. steps.stepped next core.now ≡ steps.end_hold core.now.hold core.now) }
{
    let Some(hold) = &core.hold else {
        return Ok(None);
    };
    let left = has_call_left(alloc, &hold.work, core.sides.as_slice())?;
    let told = hold.published || !publishes(&hold.work);
    if !hold.failed && (left || !told) {
        return Ok(None);
    }
    let sides = ended_sides(alloc, &hold.work, hold.failed, core.sides.as_slice())?;
    let pending = change(alloc, core)?;
    let mut next = core.duplicate(alloc)?;
    next.sides = sides;
    next.pending = pending;
    next.hold = None;
    Ok(Some(next))
}
