//! The device calls of a holding.

ghost use Rattle.std.specs.Prelude.{◌≡◌, Some, IfOk, length, slice_get};
ghost use Rattle.hay_core.specs.Calls as calls;

use crate::machine::{Doubt, Side, Work};
use crate::needles::{is_live, lacks, left_behind};
use hay_base::{Duplicate, NoMemory};
use hay_needle::{Needle, Pair, Photo, Version};
use std::alloc::Global;

/// A needle that a compaction copies, and how many needles are examined with it: those before it are skipped.
#[derive(Drop)]
pub struct Copied {
    pub needle: Needle,
    pub passed: u64,
}

/// What a device call does where it is made.
#[derive(Drop)]
pub enum Effect {
    /// A write or a removal that nothing rests on yet, or a sync behind one.
    Quiet,
    /// A write that the sync behind it makes sure.
    Doubts(Doubt),
    Settles(Doubt),
    /// The magic of an index block, and the sync behind it.
    MarksRows,
    SettlesRows,
    /// The flag of the pair's last needle in the next generation's file.
    Repeats(Pair),
    /// The next generation's files stand, and are empty.
    Makes,
    Copies(Copied),
}

/// What a failed device call does to its holding.
#[derive(Clone, Copy)]
pub enum Harm {
    /// The holding has failed, and the volume is frozen.
    Freezes,
    /// The holding has failed.
    Fails,
    /// The holding has failed, and the compaction is over.
    Ends,
    GoesOn,
}

#[derive(Drop)]
pub struct DeviceCall {
    pub effect: Effect,
    pub harm: Harm,
}

/// The next needle that is copied, within the first `budget` ones.
pub(crate) fn copy_next(
    alloc: Global,
    budget: u64,
    needles: &[Needle],
) -> Result<Option<Copied>, NoMemory>
    ensures { IfOk result (λ next. next ≡ calls.copy_next budget needles.now) }
{
    for (i, needle) in needles.iter().enumerate() {
        if i as u64 >= budget {
            return Ok(None);
        }
        if is_live(needle, &needles[i + 1..]) {
            let needle = needle.duplicate(alloc)?;
            let passed = i as u64 + 1;
            return Ok(Some(Copied { needle, passed }));
        }
    }
    Ok(None)
}

fn called(harm: Harm, effect: Effect) -> Option<DeviceCall>
    ensures { result ≡ Some (calls.call harm effect) }
{
    Some(DeviceCall { effect, harm })
}

fn gated(progress: u64, harm: Harm, magic: Effect, sync: Effect) -> Option<DeviceCall>
    ensures { result ≡ slice_get (calls.gated harm magic sync) progress }
{
    match progress {
        0 | 1 => called(harm, Effect::Quiet),
        2 => called(harm, magic),
        3 => called(harm, sync),
        _ => None,
    }
}

fn put_call(
    alloc: Global,
    progress: u64,
    pair: Pair,
    photo: &Photo,
) -> Result<Option<DeviceCall>, NoMemory>
    ensures { IfOk result (λ call. call ≡ slice_get (calls.put_calls (calls.live_needle pair photo.now)) progress) }
{
    let needle = Needle {
        version: Version::Two,
        pair,
        photo: photo.duplicate(alloc)?,
        deleted: false,
    };
    let magic = Effect::Doubts(Doubt::Cell(needle.duplicate(alloc)?));
    let sync = Effect::Settles(Doubt::Cell(needle));
    Ok(gated(progress, Harm::Freezes, magic, sync))
}

fn delete_call(progress: u64, pair: Pair, side: &Side) -> Option<DeviceCall>
    ensures { result ≡ slice_get (calls.delete_calls pair side.now) progress }
{
    match progress {
        0 => called(Harm::Freezes, Effect::Doubts(Doubt::Flag(pair))),
        1 => called(Harm::Freezes, Effect::Settles(Doubt::Flag(pair))),
        2 if side.copy.is_some() && !lacks(pair, side.fresh.as_slice()) => called(
            Harm::GoesOn,
            Effect::Repeats(pair),
        ),
        _ => None,
    }
}

fn flush_call(progress: u64, side: &Side) -> Option<DeviceCall>
    ensures { result ≡ slice_get (calls.flush_calls side.now) progress }
{
    if side.rows < side.current.len() as u64 {
        gated(
            progress,
            Harm::Fails,
            Effect::MarksRows,
            Effect::SettlesRows,
        )
    } else {
        None
    }
}

fn start_call(progress: u64) -> Option<DeviceCall>
    ensures { result ≡ slice_get calls.start_calls progress }
{
    match progress {
        0..=2 => called(Harm::Ends, Effect::Quiet),
        3 => called(Harm::Ends, Effect::Makes),
        _ => None,
    }
}

fn copy_call(next: Option<Copied>) -> Option<DeviceCall>
    ensures { result ≡ calls.copy_call next }
{
    match next {
        None => None,
        Some(copied) => called(Harm::Ends, Effect::Copies(copied)),
    }
}

fn step_call(alloc: Global, budget: u64, side: &Side) -> Result<Option<DeviceCall>, NoMemory>
    ensures { IfOk result (λ call. call ≡ calls.step_call side.now.copy budget side.now) }
{
    match side.copy {
        None => Ok(None),
        Some(examined) => {
            let left = left_behind(examined, side.current.as_slice());
            Ok(copy_call(copy_next(alloc, budget, left)?))
        }
    }
}

/// How many calls a finish makes between its copies and the head row.
pub(crate) fn closing_count(copied: &[Needle]) -> u64
    ensures { result ≡ length (calls.closing_calls copied.now) }
{
    if copied.is_empty() { 2 } else { 3 }
}

fn closing_call(progress: u64, copied: &[Needle]) -> Option<DeviceCall>
    ensures { result ≡ slice_get (calls.finish_calls copied.now) progress }
{
    let closing = closing_count(copied);
    if progress < closing {
        called(Harm::Ends, Effect::Quiet)
    } else {
        gated(
            progress - closing,
            Harm::Freezes,
            Effect::Doubts(Doubt::Head),
            Effect::Settles(Doubt::Head),
        )
    }
}

fn finish_call(alloc: Global, progress: u64, side: &Side) -> Result<Option<DeviceCall>, NoMemory>
    ensures { IfOk result (λ call. call ≡ calls.finish_call side.now.copy progress side.now) }
{
    let Some(examined) = side.copy else {
        return Ok(removal(progress));
    };
    let all = side.current.len() as u64;
    let left = left_behind(examined, side.current.as_slice());
    match copy_next(alloc, all, left)? {
        None => Ok(closing_call(progress, side.fresh.as_slice())),
        Some(copied) => Ok(copy_call(Some(copied))),
    }
}

fn removal(progress: u64) -> Option<DeviceCall>
    ensures { result ≡ slice_get calls.removals progress }
{
    match progress {
        0 | 1 => called(Harm::GoesOn, Effect::Quiet),
        _ => None,
    }
}

/// The device call of the work that is next on this side, if there is one.
pub(crate) fn call_of(
    alloc: Global,
    work: &Work,
    side: &Side,
) -> Result<Option<DeviceCall>, NoMemory>
    ensures { IfOk result (λ call. call ≡ calls.call_of work.now side.now) }
{
    let Some(progress) = side.progress else {
        return Ok(None);
    };
    match work {
        Work::Put { pair, photo } => put_call(alloc, progress, *pair, photo),
        Work::Del { pair } => Ok(delete_call(progress, *pair, side)),
        Work::Flush { .. } => Ok(flush_call(progress, side)),
        Work::Start { .. } => Ok(start_call(progress)),
        Work::Step { cells, .. } => step_call(alloc, cells.saturating_sub(progress), side),
        Work::Finish { .. } => finish_call(alloc, progress, side),
    }
}
