//! How pairs are spread over volumes, and volumes over machines.

ghost use Rattle.std.specs.Prelude.{◌≡◌, ◌<◌, ◌==◌, ◌%◌, find};
ghost use Rattle.hay_legal.specs.Known as known;

use hay_needle::{Pair, Settings};

pub(crate) fn machine_of(settings: &Settings, volume: u32, replica: usize) -> u32
    requires { 0 < settings.now.machines }
    ensures { result ≡ known.machine_of settings.now volume replica }
{
    let machines = settings.machines;
    let machine = (u128::from(volume) + replica as u128) % u128::from(machines);
    machine as u32
}

/// The replica of a volume on a machine, if there is one.
pub(crate) fn replica_on(settings: &Settings, volume: u32, machine: u32) -> Option<u32>
    requires { 0 < settings.now.machines }
    ensures { result ≡ known.replica_on settings.now volume machine }
{
    if volume < settings.volumes {
        replica_among(settings, volume, machine)
    } else {
        None
    }
}

#[tactic(auto, using(crate::proofs::Lists::range_next))]
fn replica_among(settings: &Settings, volume: u32, machine: u32) -> Option<u32>
    requires { 0 < settings.now.machines }
    ensures { result ≡ find (λ j. known.machine_of settings.now volume j == machine) (known.replicas_of settings.now) }
{
    for j in 0..settings.replicas {
        if machine_of(settings, volume, j as usize) == machine {
            return Some(j);
        }
    }
    None
}

/// The volume that a put of a pair tries at this turn.
pub(crate) fn try_at(settings: &Settings, pair: Pair, turn: u32) -> u32
    requires { 0 < settings.now.volumes }
    ensures { result ≡ known.try_at settings.now pair turn }
{
    let volumes = settings.volumes;
    let volume = (u128::from(pair.key) + u128::from(turn)) % u128::from(volumes);
    volume as u32
}

/// The replica with which a reader of this line starts.
pub(crate) fn start_of(settings: &Settings, line: u64) -> u32
    requires { 0 < settings.now.replicas }
    ensures { result ≡ line % settings.now.replicas }
{
    (line % u64::from(settings.replicas)) as u32
}

/// The slot of a replica's disk.
pub(crate) fn slot_of(settings: &Settings, volume: u32, replica: u32) -> usize
    ensures { result ≡ known.slot_of settings.now volume replica }
{
    1 + volume as usize * settings.replicas as usize + replica as usize
}
