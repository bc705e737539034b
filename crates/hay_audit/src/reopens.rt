//! The boxes behind a restart.

ghost use Rattle.std.specs.Prelude.{◌≡◌, ◌++◌, ◌∷◌, [], ◌<◌, ◌≤◌, drop, flat_map, length, map, IfOk, IfSome, IfNone, OnOk, Some, None};
ghost use Rattle.hay_reply.specs.declared.Reply.TheVariants as reply_of;
ghost use Rattle.hay_audit_steps.specs.BoxReopen as box_reopen;
ghost use Rattle.hay_audit.specs.Choosing as choosing;
ghost use Rattle.hay_audit.specs.Restarting as restarting;
ghost use Rattle.hay_audit.specs.Sizes.{IsSmall};

use crate::boxes::{BoxState, Slack, drop_box};
use crate::first::undrained;
use crate::keeps::{new_row, volume_kept};
use crate::looks::rows_of;
use crate::pairs::{Log, Rows};
use crate::parts::{PartState, push_each, reopened_choices};
use crate::state::{Directory, ReplicaState, State, VolumeState, drop_state, with_volumes};
use hay_base::{Duplicate, Listed, NoMemory};
use hay_legal::known::HomeRow;
use hay_needle::Settings;
use hay_reply::Note;
use std::alloc::Global;

/// Each list with each of these choices behind it.
fn push_all(
    alloc: Global,
    fronts: Listed<Listed<Listed<PartState>>>,
    choices: Listed<Listed<PartState>>,
) -> Result<Listed<Listed<Listed<PartState>>>, NoMemory>
    ensures { IfOk result (λ made. made ≡ flat_map (λ front. map (choosing.behind front) choices) fronts) }
{
    let mut made = Listed::new(alloc);
    let mut fronts = fronts.into_vec();
    let Some(last) = fronts.pop() else {
        return Ok(made);
    };
    for front in fronts {
        push_each(alloc, front, choices.duplicate(alloc)?, &mut made)?;
    }
    push_each(alloc, last, choices, &mut made)?;
    Ok(made)
}

/// What a restart may find of the volumes, and how many notes tell of them.
#[derive(Drop)]
struct Stores {
    stores: Listed<Listed<Listed<PartState>>>,
    used: usize,
}

/// What a restart may find of all volumes, if the first notes tell so of each.
fn reopened_stores(
    alloc: Global,
    settings: &Settings,
    state: &BoxState,
    notes: &[Note],
) -> Result<Option<Stores>, NoMemory>
    requires machines { 0 < settings.now.machines }
    requires many { length state.now.base.volumes ≡ settings.now.volumes }
    requires lows { length state.now.low ≡ settings.now.volumes }
    requires highs { length state.now.high ≡ settings.now.volumes }
    requires small { IsSmall state.now }
    ensures some { IfOk result (λ made. IfSome made (λ all. box_reopen.reopened_stores settings.now 0 state.now.base.volumes state.now.low state.now.high notes.now
        ≡ Some (record { value = all.stores; rest = drop all.used notes.now }))) }
    ensures within { IfOk result (λ made. IfSome made (λ all. all.used ≤ length notes.now)) }
    ensures none { IfOk result (λ made. IfNone made (box_reopen.reopened_stores settings.now 0 state.now.base.volumes state.now.low state.now.high notes.now ≡ None)) }
{
    let mut stores = Listed::one(alloc, Listed::new(alloc))?;
    let mut used = 0;
    let volumes = state.base.volumes.as_slice();
    let lows = state.low.as_slice();
    let highs = state.high.as_slice();
    for v in 0..settings.volumes {
        let at = v as usize;
        let volume = &volumes[at];
        let low = lows[at].as_slice();
        let high = highs[at].as_slice();
        let Some(told) = volume_kept(alloc, settings, v, volume, &notes[used..])? else {
            return Ok(None);
        };
        let choices = reopened_choices(alloc, volume, told.kept.as_slice(), low, high)?;
        stores = push_all(alloc, stores, choices)?;
        used += told.used;
    }
    Ok(Some(Stores { stores, used }))
}

fn bases_of(alloc: Global, parts: Listed<PartState>) -> Result<Listed<ReplicaState>, NoMemory>
    ensures { IfOk result (λ made. made ≡ map box_reopen.base_of parts) }
{
    let mut made = Listed::new(alloc);
    for part in parts.into_vec() {
        made.push(part.base)?;
    }
    Ok(made)
}

fn lows_of(alloc: Global, parts: &[PartState]) -> Result<Listed<Slack>, NoMemory>
    ensures { IfOk result (λ made. made ≡ map box_reopen.low_of parts.now) }
{
    let mut made = Listed::new(alloc);
    for part in parts {
        made.push(part.low)?;
    }
    Ok(made)
}

fn highs_of(alloc: Global, parts: &[PartState]) -> Result<Listed<Slack>, NoMemory>
    ensures { IfOk result (λ made. made ≡ map box_reopen.high_of parts.now) }
{
    let mut made = Listed::new(alloc);
    for part in parts {
        made.push(part.high)?;
    }
    Ok(made)
}

/// A volume behind a restart.
fn open_volume(alloc: Global, parts: Listed<PartState>) -> Result<VolumeState, NoMemory>
    ensures { IfOk result (λ opened. opened ≡ box_reopen.volume_of parts) }
{
    let replicas = bases_of(alloc, parts)?;
    Ok(VolumeState {
        log: Log::new(alloc),
        frozen: None,
        pending: None,
        replicas,
    })
}

fn open_volumes(
    alloc: Global,
    store: Listed<Listed<PartState>>,
) -> Result<Listed<VolumeState>, NoMemory>
    ensures { IfOk result (λ opened. opened ≡ map box_reopen.volume_of store) }
{
    let mut opened = Listed::new(alloc);
    for parts in store.into_vec() {
        opened.push(open_volume(alloc, parts)?)?;
    }
    Ok(opened)
}

/// The least that the sizes of the replicas of each volume lie above the lowest.
fn all_lows(alloc: Global, store: &[Listed<PartState>]) -> Result<Listed<Listed<Slack>>, NoMemory>
    ensures { IfOk result (λ made. made ≡ map (λ parts. map box_reopen.low_of parts) store.now) }
{
    let mut made = Listed::new(alloc);
    for parts in store {
        made.push(lows_of(alloc, parts.as_slice())?)?;
    }
    Ok(made)
}

/// The most.
fn all_highs(alloc: Global, store: &[Listed<PartState>]) -> Result<Listed<Listed<Slack>>, NoMemory>
    ensures { IfOk result (λ made. made ≡ map (λ parts. map box_reopen.high_of parts) store.now) }
{
    let mut made = Listed::new(alloc);
    for parts in store {
        made.push(highs_of(alloc, parts.as_slice())?)?;
    }
    Ok(made)
}

/// The volumes behind a restart, with the ranges of their replicas.
#[derive(Drop)]
struct Opened {
    volumes: Listed<VolumeState>,
    low: Listed<Listed<Slack>>,
    high: Listed<Listed<Slack>>,
}

fn open_store(alloc: Global, store: Listed<Listed<PartState>>) -> Result<Opened, NoMemory>
    ensures volumes { IfOk result (λ opened. opened.volumes ≡ map box_reopen.volume_of store) }
    ensures low { IfOk result (λ opened. opened.low ≡ map (λ parts. map box_reopen.low_of parts) store) }
    ensures high { IfOk result (λ opened. opened.high ≡ map (λ parts. map box_reopen.high_of parts) store) }
{
    let low = all_lows(alloc, store.as_slice())?;
    let high = all_highs(alloc, store.as_slice())?;
    let volumes = open_volumes(alloc, store)?;
    Ok(Opened { volumes, low, high })
}

/// A store with these volumes.
fn with_store(
    alloc: Global,
    frame: State,
    store: Listed<Listed<PartState>>,
) -> Result<BoxState, NoMemory>
    ensures { IfOk result (λ made. made ≡ choosing.stored_box frame store) }
{
    let Ok(opened) = open_store(alloc, store) else {
        drop_state(frame);
        return Err(NoMemory);
    };
    Ok(BoxState {
        base: with_volumes(frame, opened.volumes),
        low: opened.low,
        high: opened.high,
    })
}

/// Adds a store with these volumes.
fn push_store(
    alloc: Global,
    frame: &State,
    store: Listed<Listed<PartState>>,
    out: &mut Listed<BoxState>,
) -> Result<(), NoMemory>
    ensures { OnOk result (out.new ≡ out.old ++ choosing.stored_box frame.now store ∷ []) }
{
    let made = with_store(alloc, frame.duplicate(alloc)?, store)?;
    out.push(made)?;
    Ok(())
}

fn with_stores(
    alloc: Global,
    frame: State,
    stores: Listed<Listed<Listed<PartState>>>,
) -> Result<Listed<BoxState>, NoMemory>
    ensures { IfOk result (λ made. made ≡ map (choosing.stored_box frame) stores) }
{
    let mut made = Listed::new(alloc);
    let mut stores = stores.into_vec();
    let Some(last) = stores.pop() else {
        drop_state(frame);
        return Ok(made);
    };
    for store in stores {
        let Ok(()) = push_store(alloc, &frame, store, &mut made) else {
            drop_state(frame);
            return Err(NoMemory);
        };
    }
    made.push(with_store(alloc, frame, last)?)?;
    Ok(made)
}

fn with_row(rows: Rows, row: Option<HomeRow>) -> Result<Rows, NoMemory>
    ensures { IfOk result (λ after. after ≡ rows ++ restarting.row_list row) }
{
    match row {
        Some(row) => rows.add(row),
        None => Ok(rows),
    }
}

/// The store without its volumes, with a row that was kept, and no drain.
fn frame_of(alloc: Global, state: State, row: Option<HomeRow>) -> Result<State, NoMemory>
    ensures { IfOk result (λ frame. frame ≡ choosing.frame_of state (restarting.row_list row)) }
{
    let State {
        volumes: _,
        directory,
        drained,
        faults,
        arms,
        fuses,
    } = state;
    Ok(State {
        volumes: Listed::new(alloc),
        directory: Directory {
            rows: with_row(directory.rows, row)?,
            frozen: false,
            pending: None,
        },
        drained: undrained(alloc, drained.len())?,
        faults,
        arms,
        fuses,
    })
}

fn rows_with(state: &State, row: &Option<HomeRow>) -> u128
    ensures { result ≡ length (state.now.directory.rows ++ restarting.row_list row.now) }
{
    let rows = u128::from(rows_of(state));
    if row.is_some() { rows + 1 } else { rows }
}

/// Behind a restart with these notes.
pub(crate) fn restart_boxes(
    alloc: Global,
    settings: &Settings,
    state: BoxState,
    rows: u64,
    notes: &[Note],
) -> Result<Listed<BoxState>, NoMemory>
    requires machines { 0 < settings.now.machines }
    requires many { length state.base.volumes ≡ settings.now.volumes }
    requires lows { length state.low ≡ settings.now.volumes }
    requires highs { length state.high ≡ settings.now.volumes }
    requires small { IsSmall state }
    ensures { IfOk result (λ made. made ≡ box_reopen.restart_boxes settings.now state (reply_of.Restarted rows) notes.now) }
{
    let Ok(found) = reopened_stores(alloc, settings, &state, notes) else {
        drop_box(state);
        return Err(NoMemory);
    };
    let Some(all) = found else {
        drop_box(state);
        return Ok(Listed::new(alloc));
    };
    let Some(row) = new_row(&state.base.directory.pending, &notes[all.used..]) else {
        drop_box(state);
        return Ok(Listed::new(alloc));
    };
    if u128::from(rows) != rows_with(&state.base, &row) {
        drop_box(state);
        return Ok(Listed::new(alloc));
    }
    let frame = frame_of(alloc, state.base, row)?;
    let made = with_stores(alloc, frame, all.stores)?;
    Ok(made)
}
