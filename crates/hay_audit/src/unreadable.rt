//! Behind a read or a get that no replica answered.

ghost use Rattle.std.specs.Prelude.{◌≡◌, ◌<◌, length, IfOk, IsTrue};
ghost use Rattle.hay_legal.specs.Known as known;
ghost use Rattle.hay_legal.specs.Plain as plain;
ghost use Rattle.hay_audit_steps.specs.Next as next;

use crate::faults::has_risen;
use crate::lay::{count_at, set_count};
use crate::shows::replica_from;
use crate::spread::{machine_of, slot_of};
use crate::state::State;
use hay_base::{Listed, NoMemory};
use hay_needle::Settings;
use hay_reply::{Cause, Passed};
use std::alloc::Global;

/// The replicas in the order in which a reader tries them.
#[tactic(auto, using(crate::proofs::Lists::range_next))]
pub(crate) fn order_from(
    alloc: Global,
    settings: &Settings,
    start: u32,
) -> Result<Listed<u32>, NoMemory>
    ensures { IfOk result (λ order. order ≡ plain.order_from settings.now start) }
{
    let mut order = Listed::new(alloc);
    for i in 0..settings.replicas {
        order.push(replica_from(settings, start, i))?;
    }
    Ok(order)
}

fn may_cause(settings: &Settings, state: &State, volume: u32, replica: u32, cause: Cause) -> bool
    ensures { result ≡ next.may_cause settings.now state.now 0 volume replica cause }
{
    match cause {
        Cause::Arm { faults } => {
            !state.arms.is_empty() && has_risen(count_at(&state.arms, 0), faults)
        }
        Cause::Disk { faults } => {
            let slot = slot_of(settings, volume, replica);
            slot < state.faults.len() && has_risen(count_at(&state.faults, slot), faults)
        }
        Cause::Damage { .. } => false,
    }
}

/// Each replica was passed over, for its cause.
#[tactic(auto, using(crate::proofs::Passing::other_length))]
pub(crate) fn may_pass(
    settings: &Settings,
    state: &State,
    volume: u32,
    order: &[u32],
    causes: &[Passed],
) -> bool
    requires { 0 < settings.now.machines }
    ensures may { result ≡ next.may_pass settings.now state.now 0 volume order.now causes.now }
    ensures each { IsTrue result → length order.now ≡ length causes.now }
{
    if order.len() != causes.len() {
        return false;
    }
    for (i, passed) in causes.iter().enumerate() {
        let machine = machine_of(settings, volume, order[i] as usize);
        if passed.machine != machine
            || !may_cause(settings, state, volume, order[i], passed.cause)
        {
            return false;
        }
    }
    true
}

fn arm_rises(before: Cause, after: Cause) -> bool
    ensures { result ≡ next.arm_rises before after }
{
    match (before, after) {
        (Cause::Arm { faults }, Cause::Arm { faults: later }) => {
            faults < later || later == u64::MAX
        }
        (Cause::Arm { .. }, Cause::Disk { .. } | Cause::Damage { .. })
        | (Cause::Disk { .. } | Cause::Damage { .. }, _) => true,
    }
}

fn rises_on(cause: Cause, causes: &[Passed]) -> bool
    ensures { result ≡ next.rises_on cause causes.now }
{
    for passed in causes {
        if !arm_rises(cause, passed.cause) {
            return false;
        }
    }
    true
}

/// Of two failures of the arm the later has the greater count.
#[tactic(auto, using(crate::proofs::Lists::all_behind))]
pub(crate) fn arms_rise(causes: &[Passed]) -> bool
    ensures { result ≡ next.arms_rise causes.now }
{
    for (i, passed) in causes.iter().enumerate() {
        if !rises_on(passed.cause, &causes[i + 1..]) {
            return false;
        }
    }
    true
}

fn caused(settings: &Settings, volume: u32, replica: u32, cause: Cause, state: State) -> State
    ensures { result ≡ next.caused settings.now 0 volume replica cause state }
{
    let mut state = state;
    match cause {
        Cause::Arm { faults } => {
            let count = count_at(&state.arms, 0).max(faults);
            state.arms = set_count(state.arms, 0, count);
        }
        Cause::Disk { faults } => {
            let slot = slot_of(settings, volume, replica);
            let count = count_at(&state.faults, slot).max(faults);
            state.faults = set_count(state.faults, slot, count);
        }
        Cause::Damage { .. } => {}
    }
    state
}

/// The lowest counts behind these causes.
#[tactic(auto, using(crate::proofs::Passing::none_caused))]
pub(crate) fn all_caused(
    settings: &Settings,
    volume: u32,
    order: &[u32],
    causes: &[Passed],
    state: State,
) -> State
    requires { length order.now ≡ length causes.now }
    ensures { result ≡ next.all_caused settings.now 0 volume order.now causes.now state }
{
    let mut state = state;
    let mut left = order.len();
    while left > 0 {
        left -= 1;
        state = caused(settings, volume, order[left], causes[left].cause, state);
    }
    state
}
