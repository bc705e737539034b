//! The boxes behind a plain line.

ghost use Rattle.std.specs.Prelude.{◌≡◌, ◌<◌, map, IfOk};
ghost use Rattle.hay_legal.specs.declared.turn.Item.TheVariants as item_of;
ghost use Rattle.hay_script.specs.declared.Command.TheVariants as command_of;
ghost use Rattle.hay_audit_steps.specs.BoxNext.{IsSizeless};
ghost use Rattle.hay_audit_steps.specs.BoxPlain as box_plain;
ghost use Rattle.hay_audit_steps.specs.Next as next;
ghost use Rattle.hay_audit.specs.Outside.{IsWithinItem};
ghost use Rattle.hay_audit.specs.Ranging as ranging;
ghost use Rattle.hay_audit.specs.Sizes.{IsSmall};

use crate::boxes::{BoxState, drop_box, ranged_all};
use crate::places::{compacted_boxes, finished_boxes, flushed_boxes, stepped_boxes};
use crate::plain::next_plain;
use crate::puts::put_boxes;
use crate::upkeep::spot_on;
use hay_base::{Listed, NoMemory};
use hay_core::CoreTag;
use hay_legal::turn::Item;
use hay_needle::Settings;
use hay_reply::Reply;
use hay_script::Command;
use std::alloc::Global;

/// Behind a line whose reply looks at no sizes: the ranges stay.
fn next_sizeless(
    alloc: Global,
    settings: &Settings,
    state: BoxState,
    line: u64,
    item: &Item,
    reply: &Reply,
) -> Result<Listed<BoxState>, NoMemory>
    requires machines { 0 < settings.now.machines }
    requires replicas { 0 < settings.now.replicas }
    requires sizeless { IsSizeless item.now reply.now }
    ensures { IfOk result (λ made. made ≡ map (ranging.ranging state.low state.high) (next.next_plain settings.now line item.now reply.now state.base)) }
{
    let BoxState { base, low, high } = state;
    let states = next_plain(alloc, settings, base, line, item, reply)?;
    ranged_all(alloc, states, low, high)
}

fn next_flushed(
    alloc: Global,
    settings: &Settings,
    state: BoxState,
    line: u64,
    volume: u32,
    machine: u32,
    reply: &Reply,
) -> Result<Listed<BoxState>, NoMemory>
    requires machines { 0 < settings.now.machines }
    requires replicas { 0 < settings.now.replicas }
    ensures { IfOk result (λ made. made ≡ box_plain.box_plain settings.now line (item_of.Command (command_of.Flush volume machine)) reply.now state) }
{
    match reply {
        Reply::Flushed {
            volume: told,
            machine: on,
            records,
        } => match spot_on(settings, volume, machine) {
            Some(spot) => flushed_boxes(alloc, state, spot, *told, *on, *records),
            None => {
                drop_box(state);
                Ok(Listed::new(alloc))
            }
        },
        _ => {
            let item = Item::Command(Command::Flush { volume, machine });
            next_sizeless(alloc, settings, state, line, &item, reply)
        }
    }
}

#[tactic(auto, using(crate::proofs::Small::small_at))]
fn next_stepped(
    alloc: Global,
    settings: &Settings,
    state: BoxState,
    line: u64,
    volume: u32,
    machine: u32,
    asked: u32,
    reply: &Reply,
) -> Result<Listed<BoxState>, NoMemory>
    requires machines { 0 < settings.now.machines }
    requires replicas { 0 < settings.now.replicas }
    requires small { IsSmall state }
    ensures { IfOk result (λ made. made ≡ box_plain.box_plain settings.now line (item_of.Command (command_of.Step volume machine asked)) reply.now state) }
{
    match reply {
        Reply::Stepped {
            volume: told,
            machine: on,
            cells,
        } => match spot_on(settings, volume, machine) {
            Some(spot) => stepped_boxes(alloc, state, spot, asked, *told, *on, *cells),
            None => {
                drop_box(state);
                Ok(Listed::new(alloc))
            }
        },
        _ => {
            let item = Item::Command(Command::Step {
                volume,
                machine,
                cells: asked,
            });
            next_sizeless(alloc, settings, state, line, &item, reply)
        }
    }
}

fn next_compacted(
    alloc: Global,
    settings: &Settings,
    state: BoxState,
    line: u64,
    volume: u32,
    machine: u32,
    reply: &Reply,
) -> Result<Listed<BoxState>, NoMemory>
    requires machines { 0 < settings.now.machines }
    requires replicas { 0 < settings.now.replicas }
    requires small { IsSmall state }
    ensures { IfOk result (λ made. made ≡ box_plain.box_plain settings.now line (item_of.Command (command_of.Compact volume machine)) reply.now state) }
{
    match reply {
        Reply::Compacted {
            volume: told,
            machine: on,
            generation,
        } => match spot_on(settings, volume, machine) {
            Some(spot) => compacted_boxes(alloc, state, spot, *told, *on, *generation),
            None => {
                drop_box(state);
                Ok(Listed::new(alloc))
            }
        },
        _ => {
            let item = Item::Command(Command::Compact { volume, machine });
            next_sizeless(alloc, settings, state, line, &item, reply)
        }
    }
}

#[tactic(auto, using(crate::proofs::Small::small_at))]
fn next_finished(
    alloc: Global,
    settings: &Settings,
    state: BoxState,
    line: u64,
    volume: u32,
    machine: u32,
    reply: &Reply,
) -> Result<Listed<BoxState>, NoMemory>
    requires machines { 0 < settings.now.machines }
    requires replicas { 0 < settings.now.replicas }
    requires small { IsSmall state }
    ensures { IfOk result (λ made. made ≡ box_plain.box_plain settings.now line (item_of.Command (command_of.Finish volume machine)) reply.now state) }
{
    match reply {
        Reply::Compacted {
            volume: told,
            machine: on,
            generation,
        } => match spot_on(settings, volume, machine) {
            Some(spot) => finished_boxes(alloc, state, spot, *told, *on, *generation),
            None => {
                drop_box(state);
                Ok(Listed::new(alloc))
            }
        },
        _ => {
            let item = Item::Command(Command::Finish { volume, machine });
            next_sizeless(alloc, settings, state, line, &item, reply)
        }
    }
}

/// The boxes behind a plain line that was answered so.
#[tactic(auto, using(crate::proofs::Sizeless::line_keeps, crate::proofs::Walking::put_small))]
pub(crate) fn next_boxes(
    alloc: Global,
    settings: &Settings,
    state: BoxState,
    line: u64,
    item: &Item,
    reply: &Reply,
) -> Result<Listed<BoxState>, NoMemory>
    requires machines { 0 < settings.now.machines }
    requires volumes { 0 < settings.now.volumes }
    requires replicas { 0 < settings.now.replicas }
    requires within { IsWithinItem item.now }
    requires small { IsSmall state }
    ensures { IfOk result (λ made. made ≡ box_plain.box_plain settings.now line item.now reply.now state) }
{
    match item {
        Item::Command(Command::Put { pair, photo }) => {
            let tag = CoreTag { lane: 0, line };
            put_boxes(alloc, settings, state, tag, *pair, photo, reply)
        }
        Item::Command(Command::Flush { volume, machine }) => {
            next_flushed(alloc, settings, state, line, *volume, *machine, reply)
        }
        Item::Command(
            Command::Step {
                volume,
                machine,
                cells,
            },
        ) => {
            next_stepped(
                alloc, settings, state, line, *volume, *machine, *cells, reply,
            )
        }
        Item::Command(Command::Compact { volume, machine }) => {
            next_compacted(alloc, settings, state, line, *volume, *machine, reply)
        }
        Item::Command(Command::Finish { volume, machine }) => {
            next_finished(alloc, settings, state, line, *volume, *machine, reply)
        }
        Item::Bad | Item::Command(_) => {
            let made = next_sizeless(alloc, settings, state, line, item, reply)?;
            Ok(made)
        }
    }
}
