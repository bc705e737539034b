//! What a volume goes by where a change is refused.
ghost use Rattle.std.specs.Prelude.{◌≡◌, ◌<◌, ◌⊎◌, ℕ, List, true, false, length};
ghost use Rattle.hay_map.specs.Places.{place_in};
ghost use Rattle.hay_physical.specs.OpenCopies.{Copy, is_frozen};
ghost use Rattle.hay_logical.specs.Fits.{At};
ghost use Rattle.hay_logical.specs.Notes.{is_live};
ghost use Rattle.hay_logical.specs.Refusals.{IsRefusal, IsUntouched, RefusesPut, answer_at, unfinished_by};
ghost use Rattle.hay_logical.specs.Volumes.{IsOfSettings};

use crate::fault::LogicalFault;
use crate::notes::machine_of;
use crate::replicas::Broken;
use crate::runs::Unswapped;
use hay_disk::{Disk, Piece};
use hay_map::{Place, Row};
use hay_needle::{MAX_REPLICAS, Settings};
use hay_physical::{Replica, ReplicaFault};

/// A refusal that freezes the volume by this machine.
#[derive(Clone, Copy, Debug, PartialEq, Eq)]
pub(crate) struct Refusal {
    pub machine: u32,
    pub fault: LogicalFault,
}

/// Why a compaction did not end with a swap, and the machine that freezes the volume then, if one does.
#[derive(Clone, Copy, Debug, PartialEq, Eq)]
pub(crate) struct Unfinished {
    pub frozen: Option<u32>,
    pub fault: LogicalFault,
}

/// What is answered where the replica on this machine refused.
pub(crate) fn answer_at(machine: u32, fault: ReplicaFault) -> LogicalFault
    ensures { result ≡ answer_at machine fault }
{
    match fault {
        ReplicaFault::Failed { faults } | ReplicaFault::Ended { faults } => {
            LogicalFault::Failed { machine, faults }
        }
        ReplicaFault::Frozen => LogicalFault::ReadOnly { machine },
        ReplicaFault::Full {
            end,
            need,
            capacity,
        } => LogicalFault::Full {
            machine,
            end,
            need,
            capacity,
        },
        ReplicaFault::Busy { generation } => LogicalFault::Busy {
            machine,
            generation,
        },
        ReplicaFault::Worn => LogicalFault::Worn { machine },
        ReplicaFault::Damaged { at } => LogicalFault::Damaged { machine, at },
        ReplicaFault::NoMemory => LogicalFault::NoMemory,
    }
}

/// Whether some replica has a photo.
pub(crate) fn has_live<P: Piece>(row: &Row<P>) -> bool
    ensures some { result ≡ true → (j : ℕ) × (j < length row.now) × (is_live (place_in row.now j) ≡ true) }
    ensures none { result ≡ false → (j : ℕ) → j < length row.now → is_live (place_in row.now j) ≡ false }
{
    for j in 0..row.len() {
        match row.place(j) {
            Place::Live(_) => return true,
            Place::None | Place::Gone | Place::Unseen { .. } => {}
        }
    }
    false
}

/// Whether a put was broken off before it changed anything.
pub(crate) fn is_untouched<D: Disk>(replicas: &[Replica<D>], broken: &Broken) -> bool
    requires { broken.now.at < length replicas.now }
    ensures untouched { result ≡ true → IsUntouched replicas.now broken.now }
    ensures touched { result ≡ false → broken.now.fault ≡ ReplicaFault.NoMemory → (broken.now.at ≡ 0) → (r : Copy D) → At replicas.now 0 r → is_frozen r ≡ true }
{
    match broken.fault {
        ReplicaFault::NoMemory => {
            if broken.at != 0 {
                return false;
            }
            !replicas[0].is_frozen()
        }
        ReplicaFault::Failed { .. }
        | ReplicaFault::Frozen
        | ReplicaFault::Full { .. }
        | ReplicaFault::Busy { .. }
        | ReplicaFault::Ended { .. }
        | ReplicaFault::Worn
        | ReplicaFault::Damaged { .. } => false,
    }
}

/// What a put that was broken off is answered.
pub(crate) fn put_refusal(settings: &Settings, number: u32, broken: &Broken) -> Refusal
    requires of { IsOfSettings settings.now number }
    requires within { broken.now.at < MAX_REPLICAS }
    requires refuses { RefusesPut broken.now.fault }
    ensures { IsRefusal settings.now number broken.now result }
{
    match broken.fault {
        ReplicaFault::Failed { faults } => {
            let machine = machine_of(settings, number, broken.at);
            Refusal {
                machine,
                fault: LogicalFault::Failed { machine, faults },
            }
        }
        ReplicaFault::NoMemory => Refusal {
            machine: machine_of(settings, number, 0),
            fault: LogicalFault::NoMemory,
        },
        ReplicaFault::Frozen
        | ReplicaFault::Full { .. }
        | ReplicaFault::Busy { .. }
        | ReplicaFault::Ended { .. }
        | ReplicaFault::Worn
        | ReplicaFault::Damaged { .. } => unreachable!(),
    }
}

/// What a compaction is answered that no swap ended.
pub(crate) fn unfinished_by(
    settings: &Settings,
    number: u32,
    replica: u32,
    unswapped: Unswapped,
) -> Unfinished
    requires of { IsOfSettings settings.now number }
    requires within { replica < MAX_REPLICAS }
    ensures { result ≡ unfinished_by settings.now number replica unswapped }
{
    let machine = machine_of(settings, number, replica);
    match unswapped {
        Unswapped::Refused(fault) => Unfinished {
            frozen: None,
            fault: answer_at(machine, fault),
        },
        Unswapped::Unsure { faults } => Unfinished {
            frozen: Some(machine),
            fault: LogicalFault::Failed { machine, faults },
        },
    }
}
