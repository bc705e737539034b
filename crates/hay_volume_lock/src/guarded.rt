//! What stands behind the lock.

use crate::act::Act;
use crate::ended::Ended;
use crate::told::Places;
use hay_core::CoreTag;
use hay_disk::{Disk, Piece};
use hay_front::{Front, Seat};
use hay_logical::Logical;
use hay_needle::Settings;
use hay_turn::Kept;

/// What stood where the lock was made: the volume, and what was published of its rows. No value is made.
pub struct Opened<D: Disk<Piece = P>, P: Piece> {
    pub volume: Logical<D>,
    pub view: Seat<Places<D>>,
}

/// A volume with the front of its rows. End the front by its `close`.
pub struct Guarded<D: Disk<Piece = P>, P: Piece> {
    pub settings: Settings,
    pub logical: Logical<D>,
    pub front: Front<Places<D>>,
    /// The line that began the compaction of each replica last.
    pub begun: [CoreTag; 4],
    /// How often disks had failed behind deletes that ended compactions.
    pub ended: Ended,
}

impl<D: Disk<Piece = P>, P: Piece> Kept for Guarded<D, P> {
    ghost use Rattle.hay_volume_lock.specs.Keeping.{IsKept};

    type Start = Opened<D, P>;

    type Act = Act<D>;

    ghost by = { λ act. act.seat };

    ghost stands = { λ opened acts kept. IsKept D.Tells D.files P.Tells D.fault_count D.fuse_count opened acts kept };
}
