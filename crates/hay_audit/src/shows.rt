//! Behind a read or a get.

ghost use Rattle.std.specs.Prelude.{◌≡◌, ◌<◌, ◌+◌, ◌%◌, IfOk};
ghost use Rattle.hay_legal.specs.Plain as plain;
ghost use Rattle.hay_legal.specs.Known as known;
ghost use Rattle.hay_audit_steps.specs.Laid as laid;
ghost use Rattle.hay_audit_steps.specs.Next as next;
ghost use Rattle.hay_audit.specs.Showing as showing;
ghost use Rattle.hay_audit.specs.Wanted.{fits};

use crate::lay::lay;
use crate::looks::{front_of, home_of, rows_of};
use crate::photos::{Wanted, stands};
use crate::plain::{keep_if, next_unknown};
use crate::puts::is_at;
use crate::spread::{replica_on, slot_of};
use crate::state::{State, drop_state};
use crate::unreadable::{all_caused, arms_rise, may_pass, order_from};
use hay_base::{Listed, NoMemory};
use hay_needle::{Cookie, Pair, Settings};
use hay_reply::{Passed, Reply};
use std::alloc::Global;

/// Where a reader looked, and the fronts that it saw.
#[derive(Clone, Copy)]
pub(crate) struct Sight {
    pub volume: u32,
    pub machine: u32,
    pub front: u64,
    pub rows: u64,
}

fn is_seen(state: &State, pair: Pair, sight: Sight) -> bool
    ensures { result ≡ next.is_seen state.now pair sight.volume sight.front sight.rows }
{
    is_at(home_of(state, pair), sight.volume)
        && (sight.front == front_of(state, sight.volume) && sight.rows == rows_of(state))
}

/// The replica that a reader tries at this turn.
pub(crate) fn replica_from(settings: &Settings, start: u32, turn: u32) -> u32
    requires { 0 < settings.now.replicas }
    ensures { result ≡ (start + turn) % settings.now.replicas }
{
    let replicas = settings.replicas;
    let replica = (u64::from(start) + u64::from(turn)) % u64::from(replicas);
    replica as u32
}

/// The disks of the replicas that are tried before this one.
#[tactic(auto, using(crate::proofs::Lists::range_next))]
fn slots_before(
    alloc: Global,
    settings: &Settings,
    volume: u32,
    start: u32,
    replica: u32,
) -> Result<Listed<usize>, NoMemory>
    ensures { IfOk result (λ slots. slots ≡ next.slots_before settings.now volume start replica) }
{
    let mut slots = Listed::new(alloc);
    for i in 0..settings.replicas {
        let at = replica_from(settings, start, i);
        if at == replica {
            return Ok(slots);
        }
        slots.push(slot_of(settings, volume, at))?;
    }
    Ok(slots)
}

/// The states behind a reader that passed over these disks: the state alone, where it passed over none.
fn laid_behind(
    alloc: Global,
    state: State,
    slots: &Listed<usize>,
) -> Result<Listed<State>, NoMemory>
    ensures { IfOk result (λ states. states ≡ laid.laid state 0 slots.now) }
{
    if slots.is_empty() {
        return Listed::one(alloc, state);
    }
    let states = lay(alloc, &state, 0, slots.as_slice());
    drop_state(state);
    states
}

/// Behind a reader that saw this.
pub(crate) fn next_shown(
    alloc: Global,
    settings: &Settings,
    state: State,
    line: u64,
    start: u32,
    pair: Pair,
    sight: Sight,
    wanted: &Wanted<'_>,
) -> Result<Listed<State>, NoMemory>
    requires { 0 < settings.now.machines }
    ensures { IfOk result (λ states. states ≡ next.next_shown settings.now state (record { lane = 0; line = line }) start pair sight.volume sight.machine sight.front sight.rows (fits wanted.now)) }
{
    let Some(replica) = replica_on(settings, sight.volume, sight.machine) else {
        drop_state(state);
        return Ok(Listed::new(alloc));
    };
    if is_seen(&state, pair, sight) && stands(wanted, &state, sight.volume, replica, pair) {
        let Ok(slots) = slots_before(alloc, settings, sight.volume, start, replica) else {
            drop_state(state);
            return Err(NoMemory);
        };
        laid_behind(alloc, state, &slots)
    } else {
        drop_state(state);
        Ok(Listed::new(alloc))
    }
}

fn sight_at(volume: &u32, machine: &u32, front: &u64, rows: &u64) -> Sight
    ensures { result ≡ record { volume = volume.now; machine = machine.now; front = front.now; rows = rows.now } }
{
    Sight {
        volume: *volume,
        machine: *machine,
        front: *front,
        rows: *rows,
    }
}

/// Behind a reader that no replica answered.
fn next_unreadable(
    alloc: Global,
    settings: &Settings,
    state: State,
    start: u32,
    pair: Pair,
    volume: u32,
    front: u64,
    rows: u64,
    causes: &Listed<Passed>,
) -> Result<Listed<State>, NoMemory>
    requires { 0 < settings.now.machines }
    ensures { IfOk result (λ states. states ≡ showing.next_unreadable settings.now state 0 start pair volume front rows causes.now) }
{
    let sight = Sight {
        volume,
        machine: 0,
        front,
        rows,
    };
    let Ok(order) = order_from(alloc, settings, start) else {
        drop_state(state);
        return Err(NoMemory);
    };
    let order = order.as_slice();
    let causes = causes.as_slice();
    if is_seen(&state, pair, sight)
        && (may_pass(settings, &state, volume, order, causes) && arms_rise(causes))
    {
        Listed::one(alloc, all_caused(settings, volume, order, causes, state))
    } else {
        drop_state(state);
        Ok(Listed::new(alloc))
    }
}

/// Behind a reader that was shown nothing.
fn next_unshown(
    alloc: Global,
    settings: &Settings,
    state: State,
    start: u32,
    pair: Pair,
    reply: &Reply,
) -> Result<Listed<State>, NoMemory>
    requires { 0 < settings.now.machines }
    ensures { IfOk result (λ states. states ≡ showing.next_unshown settings.now state 0 start pair reply.now) }
{
    match reply {
        Reply::Unreadable {
            volume,
            front,
            rows,
            causes,
        } => next_unreadable(
            alloc, settings, state, start, pair, *volume, *front, *rows, causes,
        ),
        Reply::Unknown { rows } => next_unknown(alloc, state, pair, *rows),
        _ => {
            drop_state(state);
            Ok(Listed::new(alloc))
        }
    }
}

/// Behind a reader that starts at this replica.
pub(crate) fn next_show(
    alloc: Global,
    settings: &Settings,
    state: State,
    line: u64,
    start: u32,
    pair: Pair,
    cookie: Cookie,
    reply: &Reply,
) -> Result<Listed<State>, NoMemory>
    requires { 0 < settings.now.machines }
    ensures { IfOk result (λ states. states ≡ next.next_show settings.now state (record { lane = 0; line = line }) start pair cookie reply.now) }
{
    match reply {
        Reply::Photo {
            volume,
            machine,
            front,
            rows,
            photo,
        } => {
            let sight = sight_at(volume, machine, front, rows);
            let bytes = photo.as_slice();
            let wanted = Wanted::Photo { cookie, bytes };
            next_shown(alloc, settings, state, line, start, pair, sight, &wanted)
        }
        Reply::Gone {
            volume,
            machine,
            front,
            rows,
        } => {
            let sight = sight_at(volume, machine, front, rows);
            let wanted = Wanted::Nothing;
            next_shown(alloc, settings, state, line, start, pair, sight, &wanted)
        }
        Reply::WrongCookie {
            volume,
            machine,
            front,
            rows,
        } => {
            let sight = sight_at(volume, machine, front, rows);
            let wanted = Wanted::Other { cookie };
            next_shown(alloc, settings, state, line, start, pair, sight, &wanted)
        }
        _ => next_unshown(alloc, settings, state, start, pair, reply),
    }
}
