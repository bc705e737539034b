//! Behind drains and fuses.

ghost use Rattle.std.specs.Prelude.{◌≡◌, ◌==◌, ◌&&◌, nat_lt, ◌+◌, ◌-◌, ◌^◌, if◌then◌else◌, IfOk, slice_set};
ghost use Rattle.hay_legal.specs.Plain as plain;
ghost use Rattle.hay_audit_steps.specs.Next as next;

use crate::lay::{count_at, set_count};
use crate::plain::keep_if;
use crate::state::{State, drop_state};
use hay_base::{Listed, NoMemory};
use hay_needle::Settings;
use hay_reply::Reply;
use std::alloc::Global;

/// One fuse more, up to the greatest number.
fn one_more(fuses: u64) -> u64
    ensures { result ≡ (if fuses == 2 ^ 64 - 1 then 2 ^ 64 - 1 else fuses + 1) }
{
    if fuses == u64::MAX {
        u64::MAX
    } else {
        fuses + 1
    }
}

/// One fuse more is set on a disk.
pub(crate) fn fused(state: State, slot: usize) -> State
    ensures { result ≡ next.fused state slot }
{
    let count = one_more(count_at(&state.fuses, slot));
    State {
        volumes: state.volumes,
        directory: state.directory,
        drained: state.drained,
        faults: state.faults,
        arms: state.arms,
        fuses: set_count(state.fuses, slot, count),
    }
}

fn set_drain(drained: Listed<bool>, machine: u32, is: bool) -> Listed<bool>
    ensures { result ≡ slice_set drained machine is }
{
    let mut drained = drained.into_vec();
    let at = machine as usize;
    if at < drained.len() {
        drained[at] = is;
    }
    Listed::from_vec(drained)
}

fn with_drain(state: State, machine: u32, is: bool) -> State
    ensures { result ≡ plain.with_drain state machine is }
{
    State {
        volumes: state.volumes,
        directory: state.directory,
        drained: set_drain(state.drained, machine, is),
        faults: state.faults,
        arms: state.arms,
        fuses: state.fuses,
    }
}

/// The machine that was asked for is told, and there is one.
fn is_told(settings: &Settings, asked: u32, told: u32) -> bool
    ensures { result ≡ ((told == asked) && nat_lt asked settings.now.machines) }
{
    told == asked && asked < settings.machines
}

pub(crate) fn next_drain(
    alloc: Global,
    settings: &Settings,
    state: State,
    asked: u32,
    reply: &Reply,
) -> Result<Listed<State>, NoMemory>
    ensures { IfOk result (λ states. states ≡ next.next_drain settings.now state asked reply.now) }
{
    match reply {
        Reply::Drained { machine } => {
            let test = is_told(settings, asked, *machine);
            keep_if(alloc, test, with_drain(state, asked, true))
        }
        Reply::Nowhere => keep_if(alloc, asked >= settings.machines, state),
        _ => {
            drop_state(state);
            Ok(Listed::new(alloc))
        }
    }
}

pub(crate) fn next_undrain(
    alloc: Global,
    settings: &Settings,
    state: State,
    asked: u32,
    reply: &Reply,
) -> Result<Listed<State>, NoMemory>
    ensures { IfOk result (λ states. states ≡ next.next_undrain settings.now state asked reply.now) }
{
    match reply {
        Reply::Undrained { machine } => {
            let test = is_told(settings, asked, *machine);
            keep_if(alloc, test, with_drain(state, asked, false))
        }
        Reply::Nowhere => keep_if(alloc, asked >= settings.machines, state),
        _ => {
            drop_state(state);
            Ok(Listed::new(alloc))
        }
    }
}

pub(crate) fn next_fuse_dir(
    alloc: Global,
    state: State,
    asked: u32,
    reply: &Reply,
) -> Result<Listed<State>, NoMemory>
    ensures { IfOk result (λ states. states ≡ next.next_fuse_dir state asked reply.now) }
{
    match reply {
        Reply::FusedDir { calls } => keep_if(alloc, *calls == asked, fused(state, 0)),
        _ => {
            drop_state(state);
            Ok(Listed::new(alloc))
        }
    }
}
