//! Readers, stops and openings.

ghost use Rattle.std.specs.Prelude.{◌≡◌, IfOk, length, map};
ghost use Rattle.std.specs.Option.{option_copied};
ghost use Rattle.std.specs.List.{list_all};
ghost use Rattle.hay_core.specs.Spots as spots;
ghost use Rattle.hay_core.specs.Sides as sides;
ghost use Rattle.hay_core.specs.Transitions as steps;

use crate::events::change;
use crate::machine::{Core, CoreReply, Reader, Side, Spot};
use crate::needles::{shown, spot_in};
use crate::sides::{opened, stopped};
use hay_base::{Duplicate, Listed, NoMemory};
use hay_needle::Pair;
use std::alloc::Global;

fn row_of(alloc: Global, pair: Pair, list: &[Side]) -> Result<Listed<Spot>, NoMemory>
    ensures { IfOk result (λ row. row ≡ map (λ s. spots.spot_in s.spots pair) list.now) }
{
    let mut row = Listed::new(alloc);
    for side in list {
        row.push(spot_in(side.spots.as_slice(), pair))?;
    }
    Ok(row)
}

fn with_reader(
    alloc: Global,
    reader: &Reader,
    readers: &[Reader],
) -> Result<Listed<Reader>, NoMemory>
    ensures { IfOk result (λ next. next ≡ steps.with_reader reader.now readers.now) }
{
    let mut next = Listed::new(alloc);
    let mut found = false;
    for other in readers {
        if !found && other.number == reader.number {
            found = true;
            next.push(reader.duplicate(alloc)?)?;
        } else {
            next.push(other.duplicate(alloc)?)?;
        }
    }
    if !found {
        next.push(reader.duplicate(alloc)?)?;
    }
    Ok(next)
}

pub(crate) fn look_up(
    alloc: Global,
    number: u32,
    pair: Pair,
    core: &Core,
) -> Result<Option<Core>, NoMemory>
    ensures { IfOk result (λ next. steps.stepped next core.now ≡ steps.look_up number pair core.now) }
{
    if !core.up {
        return Ok(None);
    }
    let reader = Reader {
        number,
        pair,
        front: core.log.len() as u64,
        row: row_of(alloc, pair, core.sides.as_slice())?,
    };
    let readers = with_reader(alloc, &reader, core.readers.as_slice())?;
    let mut next = core.duplicate(alloc)?;
    next.readers = readers;
    Ok(Some(next))
}

fn reader_by(number: u32, readers: &[Reader]) -> Option<&Reader>
    ensures { option_copied result ≡ steps.reader_by number readers.now }
{
    for reader in readers {
        if reader.number == number {
            return Some(reader);
        }
    }
    None
}

/// The reply to a fetch, which changes nothing.
pub(crate) fn fetch(
    alloc: Global,
    number: u32,
    replica: u32,
    core: &Core,
) -> Result<CoreReply, NoMemory>
    ensures { IfOk result (λ reply. reply ≡ (steps.fetch_by replica (steps.reader_by number core.now.readers) core.now).reply) }
{
    let Some(reader) = reader_by(number, core.readers.as_slice()) else {
        return Ok(CoreReply::NotEnabled);
    };
    let Some(side) = core.sides.as_slice().get(replica as usize) else {
        return Ok(CoreReply::NotEnabled);
    };
    match reader.row.as_slice().get(replica as usize) {
        None => Ok(CoreReply::NotEnabled),
        Some(spot) => Ok(CoreReply::Shown(shown(alloc, side, *spot)?)),
    }
}

fn stopped_sides(
    alloc: Global,
    keep: &[bool],
    rows: &[bool],
    list: &[Side],
) -> Result<Listed<Side>, NoMemory>
    requires keeps { length keep.now ≡ length list.now }
    requires chooses { length rows.now ≡ length list.now }
    ensures { IfOk result (λ next. next ≡ steps.stopped_sides keep.now rows.now list.now) }
{
    let mut next = Listed::new(alloc);
    for (i, side) in list.iter().enumerate() {
        next.push(stopped(alloc, keep[i], rows[i], side)?)?;
    }
    Ok(next)
}

pub(crate) fn stop(
    alloc: Global,
    keep: &[bool],
    rows: &[bool],
    core: &Core,
) -> Result<Option<Core>, NoMemory>
    ensures { IfOk result (λ next. steps.stepped next core.now ≡ steps.stop keep.now rows.now core.now) }
{
    if keep.len() != core.sides.len() || rows.len() != core.sides.len() {
        return Ok(None);
    }
    let sides = stopped_sides(alloc, keep, rows, core.sides.as_slice())?;
    let pending = change(alloc, core)?;
    let mut next = core.duplicate(alloc)?;
    next.sides = sides;
    next.pending = pending;
    next.hold = None;
    next.readers = Listed::new(alloc);
    next.up = false;
    Ok(Some(next))
}

fn all_open(list: &[Side]) -> bool
    ensures { result ≡ list_all (λ s. s.is_open) list.now }
{
    for side in list {
        if !side.is_open {
            return false;
        }
    }
    true
}

// The sides, of which this one is opened.
fn with_opened(alloc: Global, replica: usize, list: &[Side]) -> Result<Listed<Side>, NoMemory>
    ensures { IfOk result (λ next. next ≡ steps.at_side replica sides.opened list.now) }
{
    let mut next = Listed::new(alloc);
    for (i, side) in list.iter().enumerate() {
        let side = if i == replica {
            opened(alloc, side)?
        } else {
            side.duplicate(alloc)?
        };
        next.push(side)?;
    }
    Ok(next)
}

pub(crate) fn open_call(alloc: Global, replica: u32, core: &Core) -> Result<Option<Core>, NoMemory>
    ensures { IfOk result (λ next. steps.stepped next core.now ≡ steps.open_call replica core.now) }
{
    let Some(side) = core.sides.as_slice().get(replica as usize) else {
        return Ok(None);
    };
    if side.is_open {
        return Ok(None);
    }
    let sides = with_opened(alloc, replica as usize, core.sides.as_slice())?;
    let up = all_open(sides.as_slice());
    let mut next = core.duplicate(alloc)?;
    next.sides = sides;
    if up {
        next.log = Listed::new(alloc);
        next.pending = None;
        next.frozen = false;
        next.up = true;
    }
    Ok(Some(next))
}
