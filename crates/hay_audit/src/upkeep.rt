//! Behind a line that keeps up one replica: flushes, compactions and fuses.

ghost use Rattle.std.specs.Prelude.{◌≡◌, ◌<◌, ◌∷◌, [], IfOk, IfSome, option_map};
ghost use Rattle.hay_legal.specs.Known as known;
ghost use Rattle.hay_legal.specs.Plain as plain;
ghost use Rattle.hay_audit_steps.specs.Next as next;
ghost use Rattle.hay_audit.specs.Upkeep as upkeep;
ghost use Rattle.hay_audit.specs.Upkeep.{IsSizelessWork};
ghost use Rattle.hay_audit.specs.declared.upkeep.Work.TheVariants as work_of;
ghost use Rattle.hay_audit.specs.Replicas as replicas;

use crate::faults::{fault_if, rises_to, with_fault};
use crate::freezes::poised_by;
use crate::fuses::fused;
use crate::looks::frozen_of;
use crate::plain::keep_if;
use crate::puts::is_at;
use crate::replicas::{Change, Standing, change_replica, standing_of};
use crate::spread::{replica_on, slot_of};
use crate::state::{State, drop_state};
use hay_base::{Duplicate, Listed, NoMemory};
use hay_legal::known::Run;
use hay_needle::{LAST_GENERATION, Settings};
use hay_reply::{ClosedBy, Reply};
use std::alloc::Global;

/// A replica of a volume, and the machine that a line named it by.
#[derive(Clone, Copy)]
pub(crate) struct Spot {
    pub volume: u32,
    pub machine: u32,
    pub replica: u32,
}

/// What a line does with one replica.
#[derive(Clone, Copy)]
pub(crate) enum Work {
    Flush,
    Compact,
    Begin,
    Step { cells: u32 },
    Finish,
    Fuse { calls: u32 },
}

pub(crate) fn is_named(spot: Spot, volume: u32, machine: u32) -> bool
    ensures { result ≡ next.names spot.volume spot.machine volume machine }
{
    volume == spot.volume && machine == spot.machine
}

pub(crate) fn is_open(state: &State, volume: u32) -> bool
    ensures { result ≡ next.is_open state.now volume }
{
    frozen_of(state, volume).is_none()
}

fn is_frozen_by(state: &State, spot: Spot, tries: &[ClosedBy]) -> bool
    ensures { result ≡ next.is_frozen_by state.now spot.volume tries.now }
{
    match tries {
        [by] => by.volume == spot.volume && is_at(frozen_of(state, spot.volume), by.machine),
        _ => false,
    }
}

fn is_stuck_on(state: &State, spot: Spot, tries: &[ClosedBy]) -> bool
    ensures { result ≡ next.is_stuck_on state.now spot.volume spot.machine spot.replica tries.now }
{
    match tries {
        [by] => {
            is_named(spot, by.volume, by.machine)
                && (is_open(state, spot.volume)
                    && standing_of(state, spot.volume, spot.replica).stuck)
        }
        _ => false,
    }
}

fn is_idle(state: &State, spot: Spot) -> bool
    ensures { result ≡ next.is_idle state.now spot.volume spot.replica }
{
    standing_of(state, spot.volume, spot.replica).run.is_none()
}

pub(crate) fn is_resting(state: &State, spot: Spot) -> bool
    ensures { result ≡ next.is_resting state.now spot.volume spot.replica }
{
    is_idle(state, spot)
        && standing_of(state, spot.volume, spot.replica).generation < LAST_GENERATION
}

fn is_worn(state: &State, spot: Spot) -> bool
    ensures { result ≡ upkeep.is_worn state.now spot }
{
    is_idle(state, spot)
        && standing_of(state, spot.volume, spot.replica).generation == LAST_GENERATION
}

fn is_busy(run: Option<Run>, generation: u64) -> bool
    ensures { result ≡ next.is_busy run generation }
{
    match run {
        None => false,
        Some(run) => run.goal == generation,
    }
}

/// The count of the replica's disk rose to this.
fn rises(settings: &Settings, state: &State, spot: Spot, faults: u64) -> bool
    ensures { result ≡ next.rises_to state.now (known.slot_of settings.now spot.volume spot.replica) faults }
{
    rises_to(state, slot_of(settings, spot.volume, spot.replica), faults)
}

/// The state with a change of the replica, whose disk failed.
fn failed_with(
    alloc: Global,
    settings: &Settings,
    state: State,
    spot: Spot,
    change: Change,
    faults: u64,
) -> State
    ensures { result ≡ next.with_fault (plain.change_replica state spot.volume spot.replica (replicas.changed change)) (known.slot_of settings.now spot.volume spot.replica) faults }
{
    let slot = slot_of(settings, spot.volume, spot.replica);
    let after = change_replica(alloc, state, spot.volume, spot.replica, change);
    with_fault(after, slot, faults)
}

/// The state with a change of the replica, where the test holds.
fn change_if(
    alloc: Global,
    test: bool,
    state: State,
    spot: Spot,
    change: Change,
) -> Result<Listed<State>, NoMemory>
    ensures { IfOk result (λ states. states ≡ next.keep_if test (plain.change_replica state spot.volume spot.replica (replicas.changed change))) }
{
    if !test {
        drop_state(state);
        return Ok(Listed::new(alloc));
    }
    let after = change_replica(alloc, state, spot.volume, spot.replica, change);
    Listed::one(alloc, after)
}

fn fail_if(
    alloc: Global,
    settings: &Settings,
    test: bool,
    state: State,
    spot: Spot,
    change: Change,
    faults: u64,
) -> Result<Listed<State>, NoMemory>
    ensures { IfOk result (λ states. states ≡ next.keep_if test
        (next.with_fault (plain.change_replica state spot.volume spot.replica (replicas.changed change)) (known.slot_of settings.now spot.volume spot.replica) faults)) }
{
    if !test {
        drop_state(state);
        return Ok(Listed::new(alloc));
    }
    let after = failed_with(alloc, settings, state, spot, change, faults);
    Listed::one(alloc, after)
}

fn next_flush(
    alloc: Global,
    settings: &Settings,
    state: State,
    spot: Spot,
    reply: &Reply,
) -> Result<Listed<State>, NoMemory>
    requires { IsSizelessWork work_of.Flush reply.now }
    ensures { IfOk result (λ states. states ≡ next.next_flush settings.now state spot.volume spot.machine spot.replica reply.now) }
{
    let here = standing_of(&state, spot.volume, spot.replica);
    match reply {
        Reply::ReadOnly { tries } => {
            let by = tries.as_slice();
            let test = is_frozen_by(&state, spot, by) || is_stuck_on(&state, spot, by);
            keep_if(alloc, test, state)
        }
        Reply::Failed {
            volume,
            machine,
            faults,
        } => {
            let test = is_named(spot, *volume, *machine)
                && (is_open(&state, spot.volume)
                    && (!here.stuck && rises(settings, &state, spot, *faults)));
            fail_if(alloc, settings, test, state, spot, Change::Stuck, *faults)
        }
        _ => {
            drop_state(state);
            Ok(Listed::new(alloc))
        }
    }
}

/// A compaction that is not begun, for this.
fn is_refused_start(state: &State, spot: Spot, reply: &Reply) -> bool
    ensures { result ≡ upkeep.is_refused_start state.now spot reply.now }
{
    match reply {
        Reply::ReadOnly { tries } => is_frozen_by(state, spot, tries.as_slice()),
        Reply::Busy {
            volume,
            machine,
            generation,
        } => {
            let here = standing_of(state, spot.volume, spot.replica);
            is_named(spot, *volume, *machine)
                && (is_open(state, spot.volume) && is_busy(here.run, *generation))
        }
        Reply::Worn { volume, machine } => {
            is_named(spot, *volume, *machine)
                && (is_open(state, spot.volume) && is_worn(state, spot))
        }
        _ => false,
    }
}

/// A compaction that is not gone on with, for this.
fn is_refused_run(state: &State, spot: Spot, reply: &Reply) -> bool
    ensures { result ≡ upkeep.is_refused_run state.now spot reply.now }
{
    match reply {
        Reply::ReadOnly { tries } => is_frozen_by(state, spot, tries.as_slice()),
        Reply::Idle { volume, machine } => {
            is_named(spot, *volume, *machine)
                && (is_open(state, spot.volume) && is_idle(state, spot))
        }
        _ => false,
    }
}

fn next_begun(
    alloc: Global,
    state: State,
    spot: Spot,
    volume: u32,
    machine: u32,
    generation: u64,
) -> Result<Listed<State>, NoMemory>
    ensures { IfOk result (λ states. states ≡ upkeep.next_begun state spot volume machine generation) }
{
    let here = standing_of(&state, spot.volume, spot.replica);
    let test = is_named(spot, volume, machine)
        && (is_open(&state, spot.volume)
            && (is_resting(&state, spot)
                && u128::from(generation) == u128::from(here.generation) + 1));
    let run = Run {
        goal: generation,
        left: here.cells,
    };
    change_if(alloc, test, state, spot, Change::Run(run))
}

fn next_begin(
    alloc: Global,
    settings: &Settings,
    state: State,
    spot: Spot,
    reply: &Reply,
) -> Result<Listed<State>, NoMemory>
    ensures { IfOk result (λ states. states ≡ next.next_begin settings.now state spot.volume spot.machine spot.replica reply.now) }
{
    match reply {
        Reply::Begun {
            volume,
            machine,
            generation,
        } => next_begun(alloc, state, spot, *volume, *machine, *generation),
        Reply::Failed {
            volume,
            machine,
            faults,
        } => {
            let test = is_named(spot, *volume, *machine)
                && (is_open(&state, spot.volume)
                    && (is_resting(&state, spot) && rises(settings, &state, spot, *faults)));
            let slot = slot_of(settings, spot.volume, spot.replica);
            fault_if(alloc, test, state, slot, *faults)
        }
        _ => keep_if(alloc, is_refused_start(&state, spot, reply), state),
    }
}

fn next_step(
    alloc: Global,
    settings: &Settings,
    state: State,
    spot: Spot,
    asked: u32,
    reply: &Reply,
) -> Result<Listed<State>, NoMemory>
    requires { IsSizelessWork (work_of.Step asked) reply.now }
    ensures { IfOk result (λ states. states ≡ next.next_step settings.now state spot.volume spot.machine spot.replica asked reply.now) }
{
    let here = standing_of(&state, spot.volume, spot.replica);
    match reply {
        Reply::Failed {
            volume,
            machine,
            faults,
        } => {
            let test = is_named(spot, *volume, *machine)
                && (is_open(&state, spot.volume)
                    && (here.run.is_some() && rises(settings, &state, spot, *faults)));
            fail_if(alloc, settings, test, state, spot, Change::NoRun, *faults)
        }
        _ => keep_if(alloc, is_refused_run(&state, spot, reply), state),
    }
}

/// The state alone in which the replica stands before a swap that failed.
fn not_swapped(
    alloc: Global,
    settings: &Settings,
    state: &State,
    spot: Spot,
    faults: u64,
) -> Result<Listed<State>, NoMemory>
    ensures { IfOk result (λ states. states ≡ next.with_fault (plain.change_replica state.now spot.volume spot.replica plain.without_run)
        (known.slot_of settings.now spot.volume spot.replica) faults ∷ []) }
{
    let copy = state.duplicate(alloc)?;
    let before = failed_with(alloc, settings, copy, spot, Change::NoRun, faults);
    let states = Listed::one(alloc, before)?;
    Ok(states)
}

/// A swap failed, and the replica stands before it, or no one knows where.
fn swap_failed(
    alloc: Global,
    settings: &Settings,
    state: State,
    spot: Spot,
    faults: u64,
) -> Result<Listed<State>, NoMemory>
    ensures { IfOk result (λ states. states ≡ next.swap_failed settings.now state spot.volume spot.machine spot.replica faults) }
{
    let slot = slot_of(settings, spot.volume, spot.replica);
    let Ok(mut states) = not_swapped(alloc, settings, &state, spot, faults) else {
        drop_state(state);
        return Err(NoMemory);
    };
    let poised = poised_by(alloc, state, spot.volume, spot.machine, spot.replica)?;
    states.push(with_fault(poised, slot, faults))?;
    Ok(states)
}

fn next_compact(
    alloc: Global,
    settings: &Settings,
    state: State,
    spot: Spot,
    reply: &Reply,
) -> Result<Listed<State>, NoMemory>
    requires { IsSizelessWork work_of.Compact reply.now }
    ensures { IfOk result (λ states. states ≡ next.next_compact settings.now state spot.volume spot.machine spot.replica reply.now) }
{
    match reply {
        Reply::Failed {
            volume,
            machine,
            faults,
        } => {
            if is_named(spot, *volume, *machine)
                && (is_open(&state, spot.volume)
                    && (is_resting(&state, spot) && rises(settings, &state, spot, *faults)))
            {
                swap_failed(alloc, settings, state, spot, *faults)
            } else {
                drop_state(state);
                Ok(Listed::new(alloc))
            }
        }
        _ => keep_if(alloc, is_refused_start(&state, spot, reply), state),
    }
}

fn next_finish(
    alloc: Global,
    settings: &Settings,
    state: State,
    spot: Spot,
    reply: &Reply,
) -> Result<Listed<State>, NoMemory>
    ensures { IfOk result (λ states. states ≡ next.next_finish settings.now state spot.volume spot.machine spot.replica reply.now) }
{
    let here = standing_of(&state, spot.volume, spot.replica);
    match reply {
        Reply::Failed {
            volume,
            machine,
            faults,
        } => {
            if is_named(spot, *volume, *machine)
                && (is_open(&state, spot.volume)
                    && (here.run.is_some() && rises(settings, &state, spot, *faults)))
            {
                swap_failed(alloc, settings, state, spot, *faults)
            } else {
                drop_state(state);
                Ok(Listed::new(alloc))
            }
        }
        _ => keep_if(alloc, is_refused_run(&state, spot, reply), state),
    }
}

fn next_fuse(
    alloc: Global,
    settings: &Settings,
    state: State,
    spot: Spot,
    asked: u32,
    reply: &Reply,
) -> Result<Listed<State>, NoMemory>
    ensures { IfOk result (λ states. states ≡ next.next_fuse settings.now state spot.volume spot.machine spot.replica asked reply.now) }
{
    match reply {
        Reply::Fused {
            volume,
            machine,
            calls,
        } => {
            let test = is_named(spot, *volume, *machine) && *calls == asked;
            let slot = slot_of(settings, spot.volume, spot.replica);
            keep_if(alloc, test, fused(state, slot))
        }
        _ => {
            drop_state(state);
            Ok(Listed::new(alloc))
        }
    }
}

fn next_work(
    alloc: Global,
    settings: &Settings,
    state: State,
    spot: Spot,
    work: Work,
    reply: &Reply,
) -> Result<Listed<State>, NoMemory>
    requires { IsSizelessWork work reply.now }
    ensures { IfOk result (λ states. states ≡ upkeep.next_work settings.now state spot.volume spot.machine work spot.replica reply.now) }
{
    match work {
        Work::Flush => next_flush(alloc, settings, state, spot, reply),
        Work::Compact => next_compact(alloc, settings, state, spot, reply),
        Work::Begin => next_begin(alloc, settings, state, spot, reply),
        Work::Step { cells } => next_step(alloc, settings, state, spot, cells, reply),
        Work::Finish => next_finish(alloc, settings, state, spot, reply),
        Work::Fuse { calls } => next_fuse(alloc, settings, state, spot, calls, reply),
    }
}

/// The replica of a volume on a machine, if there is one.
pub(crate) fn spot_on(settings: &Settings, volume: u32, machine: u32) -> Option<Spot>
    requires { 0 < settings.now.machines }
    ensures replica { option_map (λ spot. spot.replica) result ≡ known.replica_on settings.now volume machine }
    ensures named { IfSome result (λ spot. (spot.volume ≡ volume) × (spot.machine ≡ machine)) }
{
    let replica = replica_on(settings, volume, machine)?;
    Some(Spot {
        volume,
        machine,
        replica,
    })
}

/// Behind a line that names a replica by its volume and a machine.
pub(crate) fn next_on_replica(
    alloc: Global,
    settings: &Settings,
    state: State,
    volume: u32,
    machine: u32,
    work: Work,
    reply: &Reply,
) -> Result<Listed<State>, NoMemory>
    requires machines { 0 < settings.now.machines }
    requires sizeless { IsSizelessWork work reply.now }
    ensures { IfOk result (λ states. states ≡ next.on_replica state (known.replica_on settings.now volume machine) (upkeep.next_work settings.now state volume machine work) reply.now) }
{
    let Some(spot) = spot_on(settings, volume, machine) else {
        return keep_if(alloc, matches!(reply, Reply::Nowhere), state);
    };
    next_work(alloc, settings, state, spot, work, reply)
}
