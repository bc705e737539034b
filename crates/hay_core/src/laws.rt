//! What every list of events keeps of a volume.

ghost use Rattle.std.specs.Prelude.{◌≡◌, ℕ, IfOk, OnErr, take};
ghost use Rattle.hay_core.specs.Goodness.{CoreGood};
ghost use Rattle.hay_core.specs.Refusals.{RefusalsKeepGood};
ghost use Rattle.hay_core.specs.Invariants.{KeepsEntries, KeepsGood, LogGrows, OpensTables, RisesByOpening, ShowsFronts};
ghost use Rattle.hay_core.specs.Transitions as steps;

use crate::machine::{Core, CoreReply, Event};
use hay_base::NoMemory;
use std::alloc::Global;

/// All events in order, and a reply for each. Without memory the volume stands behind the first ones of them.
pub fn run_events(
    alloc: Global,
    core: &mut Core,
    events: &[Event],
) -> Result<Vec<CoreReply>, NoMemory>
    ensures core { IfOk result (λ replies. core.new ≡ steps.after_events core.old events.now) }
    ensures replies { IfOk result (λ replies. replies.items ≡ steps.replies_to core.old events.now) }
    ensures err { OnErr result ((n : ℕ) × (core.new ≡ steps.after_events core.old (take n events.now))) }

    // Whatever the events are, from a good volume on:
    ensures good { CoreGood core.old → KeepsGood core.old events.now }
    ensures shown { CoreGood core.old → ShowsFronts core.old events.now }
    ensures opened { CoreGood core.old → OpensTables core.old events.now }
    ensures rises { CoreGood core.old → RisesByOpening core.old events.now }
    ensures grows { CoreGood core.old → LogGrows core.old events.now }
    ensures kept { CoreGood core.old → KeepsEntries core.old events.now }

    // What want of memory may do of itself, without an event, keeps goodness too.
    ensures refused { CoreGood core.old → RefusalsKeepGood core.old }
{
    all_steps(alloc, core, events)
}

fn all_steps(alloc: Global, core: &mut Core, events: &[Event]) -> Result<Vec<CoreReply>, NoMemory>
    ensures core { IfOk result (λ replies. core.new ≡ steps.after_events core.old events.now) }
    ensures replies { IfOk result (λ replies. replies.items ≡ steps.replies_to core.old events.now) }
    ensures err { OnErr result ((n : ℕ) × (core.new ≡ steps.after_events core.old (take n events.now))) }
{
    let mut replies = Vec::new(alloc);
    for event in events {
        let reply = core.step(alloc, event)?;
        replies.push(reply)?;
    }
    Ok(replies)
}
