//! Behind a line that asks for a URL, or for a URL's photo.

ghost use Rattle.std.specs.Prelude.{◌≡◌, ◌<◌, ◌%◌, IfOk};
ghost use Rattle.hay_legal.specs.Known as known;
ghost use Rattle.hay_audit_steps.specs.Next as next;
ghost use Rattle.hay_audit.specs.Links as urls;

use crate::looks::{home_of, is_same, rows_of};
use crate::plain::{keep_if, next_unknown};
use crate::puts::{cookie_eq, is_at};
use crate::shows::next_show;
use crate::spread::{machine_of, replica_on, start_of};
use crate::state::{State, drop_state};
use hay_base::{Listed, NoMemory};
use hay_needle::{Pair, Settings};
use hay_reply::Reply;
use hay_url::{Url, cookie_of};
use std::alloc::Global;

/// The machine of the replica with which a reader of this line starts.
fn start_machine(settings: &Settings, volume: u32, line: u64) -> u32
    requires machines { 0 < settings.now.machines }
    requires replicas { 0 < settings.now.replicas }
    ensures { result ≡ known.machine_of settings.now volume (line % settings.now.replicas) }
{
    machine_of(settings, volume, start_of(settings, line) as usize)
}

/// This is the URL of the pair, and so many rows there are.
fn is_url(settings: &Settings, state: &State, line: u64, pair: Pair, rows: u64, url: &Url) -> bool
    requires machines { 0 < settings.now.machines }
    requires replicas { 0 < settings.now.replicas }
    ensures { result ≡ urls.is_url settings.now state.now line pair rows url.now }
{
    is_at(home_of(state, pair), url.volume)
        && (is_same(url.pair, pair)
            && (cookie_eq(url.cookie, cookie_of(&settings.secret, pair.key))
                && (url.machine == start_machine(settings, url.volume, line)
                    && rows == rows_of(state))))
}

/// Behind a line that asks for a URL.
pub(crate) fn next_url(
    alloc: Global,
    settings: &Settings,
    state: State,
    line: u64,
    pair: Pair,
    reply: &Reply,
) -> Result<Listed<State>, NoMemory>
    requires machines { 0 < settings.now.machines }
    requires replicas { 0 < settings.now.replicas }
    ensures { IfOk result (λ states. states ≡ next.next_url settings.now state (record { lane = 0; line = line }) pair reply.now) }
{
    match reply {
        Reply::Url { rows, url } => {
            let test = is_url(settings, &state, line, pair, *rows, url);
            keep_if(alloc, test, state)
        }
        Reply::Unknown { rows } => next_unknown(alloc, state, pair, *rows),
        _ => {
            drop_state(state);
            Ok(Listed::new(alloc))
        }
    }
}

/// The reply shows the URL's volume.
fn is_shown(url: &Url, reply: &Reply) -> bool
    ensures { result ≡ next.get_shows url.now reply.now }
{
    match reply {
        Reply::Photo { volume, .. }
        | Reply::Gone { volume, .. }
        | Reply::WrongCookie { volume, .. }
        | Reply::Unreadable { volume, .. } => *volume == url.volume,
        Reply::Unknown { .. } => true,
        _ => false,
    }
}

/// Behind a get.
pub(crate) fn next_get(
    alloc: Global,
    settings: &Settings,
    state: State,
    line: u64,
    url: &Url,
    reply: &Reply,
) -> Result<Listed<State>, NoMemory>
    requires machines { 0 < settings.now.machines }
    requires replicas { 0 < settings.now.replicas }
    ensures { IfOk result (λ states. states ≡ next.get_by settings.now state (record { lane = 0; line = line }) url.now (known.replica_on settings.now url.now.volume url.now.machine) reply.now) }
{
    let Some(start) = replica_on(settings, url.volume, url.machine) else {
        return keep_if(alloc, matches!(reply, Reply::Nowhere), state);
    };
    if let Reply::Moved { volume, rows } = reply {
        let test = is_at(home_of(&state, url.pair), *volume)
            && (*volume != url.volume && *rows == rows_of(&state));
        return keep_if(alloc, test, state);
    }
    if is_shown(url, reply) {
        next_show(
            alloc, settings, state, line, start, url.pair, url.cookie, reply,
        )
    } else {
        drop_state(state);
        Ok(Listed::new(alloc))
    }
}
