//! The states behind a plain line.

ghost use Rattle.std.specs.Prelude.{◌≡◌, ◌<◌, IfOk};
ghost use Rattle.hay_audit_steps.specs.BoxNext.{IsSizeless};
ghost use Rattle.hay_audit_steps.specs.Next as next;
ghost use Rattle.hay_audit.specs.Outside.{IsNamed, IsUnnamed};
ghost use Rattle.hay_legal.specs.declared.turn.Item.TheVariants as item_of;

use crate::del::next_del;
use crate::fuses::{next_drain, next_fuse_dir, next_undrain};
use crate::looks::{home_of, rows_of};
use crate::shows::next_show;
use crate::spread::start_of;
use crate::state::{State, drop_state};
use crate::upkeep::{Work, next_on_replica};
use crate::urls::{next_get, next_url};
use hay_base::{Listed, NoMemory};
use hay_core::CoreTag;
use hay_legal::turn::Item;
use hay_needle::{Pair, Settings};
use hay_reply::Reply;
use hay_script::Command;
use std::alloc::Global;

/// The state, where the test holds.
pub(crate) fn keep_if(alloc: Global, test: bool, state: State) -> Result<Listed<State>, NoMemory>
    ensures { IfOk result (λ states. states ≡ next.keep_if test state) }
{
    if test {
        Listed::one(alloc, state)
    } else {
        drop_state(state);
        Ok(Listed::new(alloc))
    }
}

pub(crate) fn next_unknown(
    alloc: Global,
    state: State,
    pair: Pair,
    rows: u64,
) -> Result<Listed<State>, NoMemory>
    ensures { IfOk result (λ states. states ≡ next.next_unknown state pair rows) }
{
    let test = home_of(&state, pair).is_none() && rows == rows_of(&state);
    keep_if(alloc, test, state)
}

/// Behind a line that names one replica.
fn next_named(
    alloc: Global,
    settings: &Settings,
    state: State,
    line: u64,
    command: &Command,
    reply: &Reply,
) -> Result<Listed<State>, NoMemory>
    requires machines { 0 < settings.now.machines }
    requires named { IsNamed command.now }
    requires sizeless { IsSizeless (item_of.Command command.now) reply.now }
    ensures { IfOk result (λ states. states ≡ next.next_plain settings.now line (item_of.Command command.now) reply.now state) }
{
    match command {
        Command::Flush { volume, machine } => {
            let work = Work::Flush;
            next_on_replica(alloc, settings, state, *volume, *machine, work, reply)
        }
        Command::Compact { volume, machine } => {
            let work = Work::Compact;
            next_on_replica(alloc, settings, state, *volume, *machine, work, reply)
        }
        Command::Begin { volume, machine } => {
            let work = Work::Begin;
            next_on_replica(alloc, settings, state, *volume, *machine, work, reply)
        }
        Command::Step {
            volume,
            machine,
            cells,
        } => {
            let work = Work::Step { cells: *cells };
            next_on_replica(alloc, settings, state, *volume, *machine, work, reply)
        }
        Command::Finish { volume, machine } => {
            let work = Work::Finish;
            next_on_replica(alloc, settings, state, *volume, *machine, work, reply)
        }
        Command::Fuse {
            volume,
            machine,
            calls,
        } => {
            let work = Work::Fuse { calls: *calls };
            next_on_replica(alloc, settings, state, *volume, *machine, work, reply)
        }
        _ => unreachable!(),
    }
}

/// Behind a line that names no replica, and neither stores nor restarts.
fn next_unnamed(
    alloc: Global,
    settings: &Settings,
    state: State,
    line: u64,
    command: &Command,
    reply: &Reply,
) -> Result<Listed<State>, NoMemory>
    requires machines { 0 < settings.now.machines }
    requires replicas { 0 < settings.now.replicas }
    requires unnamed { IsUnnamed command.now }
    ensures { IfOk result (λ states. states ≡ next.next_plain settings.now line (item_of.Command command.now) reply.now state) }
{
    match command {
        Command::Read { pair, cookie } => {
            let start = start_of(settings, line);
            next_show(alloc, settings, state, line, start, *pair, *cookie, reply)
        }
        Command::Get { url } => next_get(alloc, settings, state, line, url, reply),
        Command::Del { pair } => {
            let tag = CoreTag { lane: 0, line };
            next_del(alloc, settings, state, tag, *pair, reply)
        }
        Command::Url { pair } => next_url(alloc, settings, state, line, *pair, reply),
        Command::Drain { machine } => next_drain(alloc, settings, state, *machine, reply),
        Command::Undrain { machine } => next_undrain(alloc, settings, state, *machine, reply),
        Command::FuseDir { calls } => next_fuse_dir(alloc, state, *calls, reply),
        Command::Put { .. }
        | Command::Flush { .. }
        | Command::Compact { .. }
        | Command::Begin { .. }
        | Command::Step { .. }
        | Command::Finish { .. }
        | Command::Fuse { .. }
        | Command::Restart { .. } => unreachable!(),
    }
}

fn next_command(
    alloc: Global,
    settings: &Settings,
    state: State,
    line: u64,
    command: &Command,
    reply: &Reply,
) -> Result<Listed<State>, NoMemory>
    requires machines { 0 < settings.now.machines }
    requires replicas { 0 < settings.now.replicas }
    requires sizeless { IsSizeless (item_of.Command command.now) reply.now }
    ensures { IfOk result (λ states. states ≡ next.next_plain settings.now line (item_of.Command command.now) reply.now state) }
{
    match command {
        Command::Read { .. }
        | Command::Get { .. }
        | Command::Del { .. }
        | Command::Url { .. }
        | Command::Drain { .. }
        | Command::Undrain { .. }
        | Command::FuseDir { .. } => { next_unnamed(alloc, settings, state, line, command, reply) }
        Command::Flush { .. }
        | Command::Compact { .. }
        | Command::Begin { .. }
        | Command::Step { .. }
        | Command::Finish { .. }
        | Command::Fuse { .. } => next_named(alloc, settings, state, line, command, reply),
        Command::Restart { .. } => {
            drop_state(state);
            Ok(Listed::new(alloc))
        }
        Command::Put { .. } => unreachable!(),
    }
}

/// The states behind a plain line whose reply looks at no sizes.
pub(crate) fn next_plain(
    alloc: Global,
    settings: &Settings,
    state: State,
    line: u64,
    item: &Item,
    reply: &Reply,
) -> Result<Listed<State>, NoMemory>
    requires machines { 0 < settings.now.machines }
    requires replicas { 0 < settings.now.replicas }
    requires sizeless { IsSizeless item.now reply.now }
    ensures { IfOk result (λ states. states ≡ next.next_plain settings.now line item.now reply.now state) }
{
    match item {
        Item::Bad => keep_if(alloc, matches!(reply, Reply::BadLine), state),
        Item::Command(command) => { next_command(alloc, settings, state, line, command, reply) }
    }
}
