//! How many notes a restart tells.

ghost use Rattle.std.specs.Prelude.{◌≡◌, ◌+◌, ◌<◌, ◌≤◌, ◌^◌};
ghost use Rattle.hay_audit_steps.specs.Reached as reached;

use crate::state::{State, VolumeState};

fn volume_notes(volume: &VolumeState) -> u128
    ensures value { result ≡ reached.volume_note_count volume.now }
    ensures small { result < 2 ^ 64 }
{
    if volume.pending.is_some() {
        volume.replicas.len() as u128
    } else {
        0
    }
}

fn volumes_notes(volumes: &[VolumeState]) -> u128
    ensures value { result ≡ reached.volumes_note_count volumes.now }
    ensures small { result + 2 ^ 64 ≤ 2 ^ 128 }
{
    // their number has 64 bits
    let _many = volumes.len();
    let mut count: u128 = 0;
    for volume in volumes {
        count += volume_notes(volume);
    }
    count
}

/// How many notes a restart tells.
pub(crate) fn note_count(state: &State) -> u128
    ensures { result ≡ reached.note_count state.now }
{
    let count = volumes_notes(state.volumes.as_slice());
    if state.directory.pending.is_some() {
        count + 1
    } else {
        count
    }
}
