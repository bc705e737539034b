//! Where pairs and replicas are, and which volumes take a photo.
ghost use Rattle.std.specs.Prelude.{◌≡◌, ◌<◌, None, Some, map, find, slice_index_or, false, IfNone, IfSome};
ghost use Rattle.hay_legal.specs.declared.known.Known.{Known};
ghost use Rattle.hay_legal.specs.Known as known;
ghost use Rattle.hay_legal.specs.Suiting.{IsOn, Refuses};
ghost use Rattle.hay_reply.specs.Fits.{FitsRefused};
ghost use Rattle.hay_directory.specs.State as directory;
ghost use Rattle.hay_cluster.specs.Lacks as lacks;
ghost use Rattle.hay_cluster.specs.Puts.{TakesPhoto};
ghost use Rattle.hay_cluster.specs.Seen as seen;
ghost use Rattle.hay_cluster.specs.Seen.{RefusesPhoto, TakesPhotoAt, home_seen, store_seen};
ghost use Rattle.hay_cluster.specs.State.{Stands};
ghost use Rattle.hay_cluster.specs.Store.{IsBuilt, IsUp};

use crate::cluster::Cluster;
use hay_directory::machine_of;
use hay_disk::{Arm, Disk};
use hay_logical::LogicalFault;
use hay_needle::{Pair, Settings};
use hay_reply::Refused;

/// The replica of a volume on a machine, if there is one.
pub(crate) fn replica_on(settings: &Settings, volume: u32, machine: u32) -> Option<u32>
    requires { IsBuilt settings.now }
    ensures is { result ≡ known.replica_on settings.now volume machine }
    ensures within { IfSome result (λ replica. (replica < settings.now.replicas) × (volume < settings.now.volumes)) }
{
    if volume >= settings.volumes {
        return None;
    }
    for replica in 0..settings.replicas {
        if machine_of(settings, volume, replica) == machine {
            return Some(replica);
        }
    }
    None
}

impl<D: Disk, A: Arm<D::Piece>> Cluster<D, A> {
    /// The home of a pair, which is a volume that there is.
    pub(crate) fn home(&self, pair: Pair) -> Option<u32>
        ensures known { D.Tells → (k : Known) → Stands D.files D.Piece.Tells D.fault_count D.fuse_count A.fault_count self.now k → result ≡ known.home_of k pair }
        ensures within { IfSome result (λ volume. volume < self.now.settings.volumes) }
        ensures homeless { result ≡ None → directory.home_of self.now.directory pair ≡ None }
        ensures seen { result ≡ home_seen (store_seen self.now) pair }
    {
        self.directory.home(pair)
    }

    /// The drained machine of the lowest replica of a volume that is on one.
    pub(crate) fn drained_by(&self, volume: u32) -> Option<u32>
        ensures { result ≡ find (λ m. slice_index_or self.now.directory.drained m false) (map (known.machine_of self.now.settings volume) (known.replicas_of self.now.settings)) }
    {
        for replica in 0..self.settings.replicas {
            let machine = machine_of(&self.settings, volume, replica);
            if self.directory.drained(machine) {
                return Some(machine);
            }
        }
        None
    }

    /// The machine by which a volume is closed to changes.
    pub(crate) fn closed_by(&self, volume: u32) -> Option<u32>
        requires volume { volume < self.now.settings.volumes }
        ensures known { D.Tells → (k : Known) → Stands D.files D.Piece.Tells D.fault_count D.fuse_count A.fault_count self.now k → result ≡ known.closed self.now.settings k volume }
        ensures on { IfSome result (IsOn self.now.settings volume) }
        ensures opens { IfNone result (seen.IsOpenTo self.now.settings (store_seen self.now) volume) }
        ensures closes { IfSome result (seen.Closes self.now.settings (store_seen self.now) volume) }
    {
        match self.volumes.as_slice()[volume as usize].frozen() {
            Some(machine) => Some(machine),
            None => self.drained_by(volume),
        }
    }

    /// Why a volume does not take a photo of this size, if it does not.
    pub(crate) fn refusal(&self, volume: u32, size: u32) -> Option<Refused>
        requires volume { volume < self.now.settings.volumes }
        requires up { IsUp self.now }
        ensures known { D.Tells → (k : Known) → Stands D.files D.Piece.Tells D.fault_count D.fuse_count A.fault_count self.now k → result ≡ known.refusal_of self.now.settings k size volume }
        ensures takes { IfNone result (TakesPhoto self.now volume size) }
        ensures refuses { IfSome result (Refuses self.now.settings size volume) }
        ensures takes_seen { IfNone result (TakesPhotoAt self.now.settings (store_seen self.now) size volume) }
        ensures refuses_seen { IfSome result (RefusesPhoto self.now.settings (store_seen self.now) size volume) }
        ensures fits { IfSome result FitsRefused }
    {
        if let Some(machine) = self.closed_by(volume) {
            return Some(Refused::Closed { volume, machine });
        }
        match self.volumes.as_slice()[volume as usize].room(size) {
            Ok(()) => None,
            Err(fault) => Some(lack_of(volume, fault)),
        }
    }
}

// What a volume without room is refused for.
fn lack_of(volume: u32, fault: LogicalFault) -> Refused
    requires { lacks.LacksRoom fault }
    ensures is { lacks.lack_of volume fault ≡ Some result }
    ensures fits { FitsRefused result }
{
    match fault {
        LogicalFault::Full {
            machine,
            end,
            need,
            capacity: _,
        } => Refused::NoRoom {
            volume,
            machine,
            end,
            need,
        },
        LogicalFault::ReadOnly { machine } => Refused::Closed { volume, machine },
        LogicalFault::Gone { .. }
        | LogicalFault::Failed { .. }
        | LogicalFault::Busy { .. }
        | LogicalFault::Worn { .. }
        | LogicalFault::Idle
        | LogicalFault::Damaged { .. }
        | LogicalFault::NoMemory => unreachable!(),
    }
}
