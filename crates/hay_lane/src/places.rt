//! Where replicas are, and which machines are drained.
ghost use Rattle.std.specs.Prelude.{◌≡◌, ◌<◌, IfSome, length};
ghost use Rattle.hay_legal.specs.Known as known;
ghost use Rattle.hay_legal.specs.Plain as plain;
ghost use Rattle.hay_meeting.specs.Facts.{drained_in};

use hay_core::CoreTag;
use hay_directory::machine_of;
use hay_needle::Settings;

/// The replica of a volume on a machine, if there is one.
pub(crate) fn replica_on(settings: &Settings, volume: u32, machine: u32) -> Option<u32>
    requires { 0 < settings.now.machines }
    ensures is { result ≡ known.replica_on settings.now volume machine }
    ensures within { IfSome result (λ replica. (replica < settings.now.replicas) × (volume < settings.now.volumes) × (known.machine_of settings.now volume replica ≡ machine)) }
{
    if volume >= settings.volumes {
        return None;
    }
    for replica in 0..settings.replicas {
        if machine_of(settings, volume, replica) == machine {
            return Some(replica);
        }
    }
    None
}

/// The drained machine of the lowest replica of a volume that is on one.
pub(crate) fn drained_by(settings: &Settings, drained: &[bool], volume: u32) -> Option<u32>
    requires some { 0 < settings.now.machines }
    requires all { length drained.now ≡ settings.now.machines }
    ensures is { result ≡ drained_in settings.now drained.now volume }
{
    for replica in 0..settings.replicas {
        let machine = machine_of(settings, volume, replica);
        if drained[machine as usize] {
            return Some(machine);
        }
    }
    None
}

/// The replica from which a line reads first.
pub(crate) fn start_of(settings: &Settings, tag: CoreTag) -> u32
    requires { 0 < settings.now.replicas }
    ensures is { result ≡ plain.start_of settings.now tag }
{
    (tag.line % u64::from(settings.replicas)) as u32
}
