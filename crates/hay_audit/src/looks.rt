//! What stands in a state.

ghost use Rattle.std.specs.Prelude.{◌≡◌, ◌<◌, ◌+◌, ◌^◌, nat_lt, length, Some, None, is_none, is_some, option_map, find, if◌then◌else◌};
ghost use Rattle.std.specs.Option.{option_copied};
ghost use Rattle.std.specs.List.{enumerate_from};
ghost use Rattle.hay_needle.specs.Sizes.{needle_total};
ghost use Rattle.hay_needle.specs.Tables.{pair_eq};
ghost use Rattle.hay_audit_steps.specs.Boxes.{fill_replicas};
ghost use Rattle.hay_audit.specs.Ranging as ranging;
ghost use Rattle.hay_legal.specs.Known as known;

use crate::boxes::{Slack, slack_in};
use crate::state::{ReplicaState, State, VolumeState};
use hay_needle::{Pair, Settings, total_of};

pub(crate) fn is_same(a: Pair, b: Pair) -> bool
    ensures { result ≡ pair_eq a b }
{
    a.key == b.key && a.alt == b.alt
}

pub(crate) fn home_of(state: &State, pair: Pair) -> Option<u32>
    ensures { result ≡ known.home_of state.now pair }
{
    state.directory.rows.home(pair)
}

pub(crate) fn rows_of(state: &State) -> u64
    ensures { result ≡ length state.now.directory.rows }
{
    state.directory.rows.len() as u64
}

/// A volume, if there is one of this number.
pub(crate) fn volume_of(state: &State, volume: u32) -> Option<&VolumeState>
    ensures { (if is_some result then option_copied result else Some known.empty_volume) ≡ Some (known.volume_at state.now volume) }
{
    state.volumes.as_slice().get(volume as usize)
}

/// The machine by which a volume is frozen.
pub(crate) fn frozen_of(state: &State, volume: u32) -> Option<u32>
    ensures { result ≡ (known.volume_at state.now volume).frozen }
{
    match state.volumes.as_slice().get(volume as usize) {
        Some(volume) => volume.frozen,
        None => None,
    }
}

/// The front of a volume.
pub(crate) fn front_of(state: &State, volume: u32) -> u64
    ensures { result ≡ length (known.volume_at state.now volume).log }
{
    match state.volumes.as_slice().get(volume as usize) {
        Some(volume) => volume.log.len() as u64,
        None => 0,
    }
}

/// How many replicas a volume has.
pub(crate) fn replica_count(state: &State, volume: u32) -> usize
    ensures { result ≡ length (known.volume_at state.now volume).replicas }
{
    match state.volumes.as_slice().get(volume as usize) {
        Some(volume) => volume.replicas.len(),
        None => 0,
    }
}

fn end_in(volume: &VolumeState, replica: usize) -> u64
    ensures { result ≡ (known.replica_at volume.now replica).end }
{
    match volume.replicas.as_slice().get(replica) {
        Some(replica) => replica.end,
        None => 64,
    }
}

/// Where a replica ends.
pub(crate) fn end_of(state: &State, volume: u32, replica: usize) -> u64
    ensures { result ≡ ranging.end_of state.now volume replica }
{
    match state.volumes.as_slice().get(volume as usize) {
        Some(volume) => end_in(volume, replica),
        None => 64,
    }
}

/// A photo of this size has no room on a replica that ends there.
pub(crate) fn lacks_room(settings: &Settings, size: u32, end: u128) -> bool
    requires { end < 2 ^ 65 }
    ensures { result ≡ nat_lt settings.now.capacity (end + needle_total size + 8) }
{
    u128::from(settings.capacity) < end + u128::from(total_of(size)) + 8
}

/// The lowest replica without room for a photo of this size, and its end, where the ends lie so much above.
#[tactic(auto, using(crate::proofs::Lowest::lacking_next, crate::proofs::Lowest::lacking_none))]
pub(crate) fn lacking(
    settings: &Settings,
    size: u32,
    replicas: &[ReplicaState],
    lows: &[Slack],
) -> Option<(usize, u128)>
    ensures { option_map (λ at. (at.0, (at.1).end)) (find (λ at. known.lacks_room settings.now size at.1) (enumerate_from 0 (fill_replicas lows.now replicas.now))) ≡ result }
{
    for (j, replica) in replicas.iter().enumerate() {
        let end = u128::from(replica.end) + u128::from(slack_in(lows, j).end);
        if lacks_room(settings, size, end) {
            return Some((j, end));
        }
    }
    None
}
