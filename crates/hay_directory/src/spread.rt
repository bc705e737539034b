//! How pairs are spread over volumes, and volumes over machines.
ghost use Rattle.std.specs.Prelude.{◌≡◌, ◌<◌};
ghost use Rattle.hay_needle.specs.declared.needle.Pair.{Pair};
ghost use Rattle.hay_legal.specs.Known as known;

use hay_needle::Settings;

/// The volume that a put of a pair with this key tries at this turn, if the pair has no home.
pub fn tries(settings: &Settings, key: u64, turn: u32) -> u32
    requires { 0 < settings.now.volumes }
    ensures is { (pair : Pair) → pair.key ≡ key → result ≡ known.try_at settings.now pair turn }
    ensures below { result < settings.now.volumes }
{
    let volumes = settings.volumes;
    let volume = (u128::from(key) + u128::from(turn)) % u128::from(volumes);
    volume as u32
}

/// The machine of a replica of a volume.
pub fn machine_of(settings: &Settings, volume: u32, replica: u32) -> u32
    requires { 0 < settings.now.machines }
    ensures is { result ≡ known.machine_of settings.now volume replica }
    ensures below { result < settings.now.machines }
{
    let machines = settings.machines;
    let machine = (u64::from(volume) + u64::from(replica)) % u64::from(machines);
    machine as u32
}
