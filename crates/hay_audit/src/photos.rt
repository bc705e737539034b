//! What stands at a pair.

ghost use Rattle.std.specs.Prelude.{◌≡◌, map};
ghost use Rattle.hay_needle.specs.declared.needle.Outcome.TheVariants as outcome;
ghost use Rattle.std.specs.Option.{option_copied};
ghost use Rattle.hay_needle.specs.Tables.{look_after, outcome_at, outcome_by};
ghost use Rattle.hay_core.specs.Entries.{entry_row, logged_row};
ghost use Rattle.std.specs.List.{list_any};
ghost use Rattle.hay_legal.specs.Known as known;
ghost use Rattle.hay_legal.specs.Plain as plain;
ghost use Rattle.hay_audit_steps.specs.Next as next;
ghost use Rattle.hay_audit.specs.Wanted.{fits};

use crate::looks::volume_of;
use crate::pairs::Log;
use crate::state::{ReplicaState, State, VolumeState};
use hay_core::Entry;
use hay_needle::{Cookie, Pair, Photo};

/// What a reply says that stands there.
#[derive(Drop)]
pub(crate) enum Wanted<'a> {
    Photo { cookie: Cookie, bytes: &'a [u8] },
    Nothing,
    /// A photo with another cookie.
    Other { cookie: Cookie },
    /// Some photo.
    Any,
}

fn fits_photo(wanted: &Wanted<'_>, own: Cookie, photo: &[u8]) -> bool
    ensures { result ≡ fits wanted.now (outcome.Photo (record { cookie = own; bytes = photo.now })) }
{
    match wanted {
        Wanted::Photo { cookie, bytes } => own.0 == cookie.0 && photo == *bytes,
        Wanted::Nothing => false,
        Wanted::Other { cookie } => own.0 != cookie.0,
        Wanted::Any => true,
    }
}

fn fits_nothing(wanted: &Wanted<'_>) -> bool
    ensures { result ≡ fits wanted.now outcome.Nothing }
{
    match wanted {
        Wanted::Nothing => true,
        Wanted::Photo { .. } | Wanted::Other { .. } | Wanted::Any => false,
    }
}

fn entry_fits(wanted: &Wanted<'_>, entry: &Entry) -> bool
    ensures { result ≡ fits wanted.now (entry_row entry.now).outcome }
{
    match entry {
        Entry::Put { cookie, bytes, .. } => fits_photo(wanted, *cookie, bytes.as_slice()),
        Entry::Del { .. } => fits_nothing(wanted),
    }
}

fn base_fits(wanted: &Wanted<'_>, base: Option<&Photo>) -> bool
    ensures { result ≡ fits wanted.now (outcome_by (option_copied base.entry)) }
{
    match base {
        Some(photo) => fits_photo(wanted, photo.cookie, photo.bytes.as_slice()),
        None => fits_nothing(wanted),
    }
}

/// Whether this stands at the pair behind a log, where `base` stood before.
fn log_fits(wanted: &Wanted<'_>, log: &Log, base: Option<&Photo>, pair: Pair) -> bool
    ensures { result ≡ fits wanted.now (look_after (map logged_row log.now) pair (outcome_by (option_copied base.entry))) }
{
    match log.last_of(pair) {
        Some(logged) => entry_fits(wanted, &logged.entry),
        None => base_fits(wanted, base),
    }
}

#[tactic(auto, using(crate::proofs::Tables::stands_now))]
fn has_pair(volume: &VolumeState, replica: &ReplicaState, pair: Pair) -> bool
    ensures { result ≡ plain.has_pair volume.now pair replica.now }
{
    log_fits(&Wanted::Any, &volume.log, replica.base.get(pair), pair)
}

fn some_has_pair(volume: &VolumeState, pair: Pair) -> bool
    ensures { result ≡ list_any (plain.has_pair volume.now pair) volume.now.replicas }
{
    for replica in volume.replicas.as_slice() {
        if has_pair(volume, replica, pair) {
            return true;
        }
    }
    false
}

/// Whether a photo stands at the pair on some replica.
pub(crate) fn stands_there(state: &State, pair: Pair, volume: u32) -> bool
    ensures { result ≡ next.stands_there state.now pair volume }
{
    match state.volumes.as_slice().get(volume as usize) {
        Some(volume) => some_has_pair(volume, pair),
        None => false,
    }
}

/// What stood at the pair on a replica before the log.
fn base_of(volume: &VolumeState, replica: usize, pair: Pair) -> Option<&Photo>
    ensures { outcome_by (option_copied result) ≡ outcome_at (known.replica_at volume.now replica).base pair }
{
    match volume.replicas.as_slice().get(replica) {
        Some(replica) => replica.base.get(pair),
        None => None,
    }
}

/// Whether this stands at the pair on a replica.
#[tactic(auto, using(crate::proofs::Tables::stands_now))]
pub(crate) fn stands(
    wanted: &Wanted<'_>,
    state: &State,
    volume: u32,
    replica: u32,
    pair: Pair,
) -> bool
    ensures { result ≡ fits wanted.now (outcome_at (known.now (known.volume_at state.now volume) (known.replica_at (known.volume_at state.now volume) replica)) pair) }
{
    match volume_of(state, volume) {
        Some(volume) => {
            let base = base_of(volume, replica as usize, pair);
            log_fits(wanted, &volume.log, base, pair)
        }
        None => fits_nothing(wanted),
    }
}

/// Whether a photo stands at the pair on the replica of this number.
#[tactic(auto, using(crate::proofs::Tables::stands_now))]
pub(crate) fn has_pair_at(volume: &VolumeState, replica: usize, pair: Pair) -> bool
    ensures { result ≡ plain.has_pair volume.now pair (known.replica_at volume.now replica) }
{
    let base = base_of(volume, replica, pair);
    log_fits(&Wanted::Any, &volume.log, base, pair)
}
