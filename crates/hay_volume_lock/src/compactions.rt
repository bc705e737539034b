//! Compactions at a seat: their steps.
ghost use Rattle.std.specs.Prelude.{◌≡◌, ◌<◌, ℕ, Some, None, IfSome, IfNone, length};
ghost use Rattle.hay_legal.specs.declared.known.Run.{Run};
ghost use Rattle.hay_legal.specs.declared.known.VolumeKnown.{VolumeKnown};
ghost use Rattle.hay_legal.specs.Known.{replica_at};
ghost use Rattle.hay_logical.specs.Answers.{IsRunFault};
ghost use Rattle.hay_logical.specs.Fits.{At};
ghost use Rattle.hay_logical.specs.Stands.{IsTightAt, Stands};
ghost use Rattle.hay_logical.specs.Volumes.{IsOpenVolume, IsSame, KeepsCounts};
ghost use Rattle.hay_physical.specs.OpenCopies.{Copy};
ghost use Rattle.hay_volume_lock.specs.Acts.{act_of};
ghost use Rattle.hay_volume_lock.specs.Answers.{IsAlways, IsTold, UnfusedHolding};
ghost use Rattle.hay_volume_lock.specs.Compactions.{Examines, FailedHere, IsBarred, MayGoOn, StepAnswer, StillGoes, step_made};
ghost use Rattle.hay_volume_lock.specs.Refusing.{OfOpened, RefusesRun};
ghost use Rattle.hay_volume_lock.specs.Seats.{HasReplica, IsSameSeat, MayAct};

use crate::act::{Act, Made};
use crate::lock::VolumeLock;
use crate::seat::VolumeSeat;
use hay_core::CoreTag;
use hay_disk::{Disk, Piece};
use hay_logical::{Logical, LogicalFault};
use std::sync::Wait;

/// How many cells a step examined, and why no more.
#[derive(Clone, Copy, Debug)]
pub struct Examined {
    pub cells: u64,
    pub refused: Option<LogicalFault>,
}

// Why no compaction of the replica goes on that a line of this lane began, if none does.
pub(crate) fn barred<D: Disk>(
    logical: &Logical<D>,
    begun: CoreTag,
    lane: u32,
    replica: u32,
) -> Option<LogicalFault>
    requires within { replica < logical.now.settings.replicas }
    requires open { IsOpenVolume logical.now }
    ensures barred { D.Tells → (k : VolumeKnown) → Stands D.files D.Piece.Tells logical.now k → IfSome result (IsBarred k replica lane begun) }
    ensures free { D.Tells → (k : VolumeKnown) → Stands D.files D.Piece.Tells logical.now k → IfNone result (MayGoOn k replica lane begun) }
    ensures own { IfNone result (begun.lane ≡ lane) }
    ensures refusals { IfSome result (RefusesRun logical.now.settings logical.now.number replica) }
    ensures quiet { (m f : ℕ) → result ≡ Some (LogicalFault.Failed m f) → ⊥ }
{
    if let Some(machine) = logical.frozen() {
        return Some(LogicalFault::ReadOnly { machine });
    }
    if begun.lane != lane {
        return Some(LogicalFault::Idle);
    }
    match logical.standing(replica) {
        Some(_) => None,
        None => Some(LogicalFault::Idle),
    }
}

// Examines so many cells for the compaction that stands, one after another, so that it is known how many where memory is wanting.
fn examine<D: Disk>(logical: &mut Logical<D>, replica: u32, cells: u32) -> Examined
    requires within { replica < logical.old.settings.replicas }
    requires open { IsOpenVolume logical.old }
    ensures told { D.Tells → (k : VolumeKnown) (run : Run) → Stands D.files D.Piece.Tells logical.old k → k.frozen ≡ None → (replica_at k replica).run ≡ Some run →
        Examines D.files D.Piece.Tells k replica run cells logical.old logical.new result.cells result.refused }
    ensures causes { IfSome result.refused (IsRunFault D.fault_count logical.old.settings logical.old.number replica logical.old.replicas logical.new.replicas) }
    ensures tight { D.Tells → (k : VolumeKnown) (run : Run) → Stands D.files D.Piece.Tells logical.old k → k.frozen ≡ None → (replica_at k replica).run ≡ Some run →
        StillGoes result.refused → (j : ℕ) → IsTightAt D.files logical.old j → IsTightAt D.files logical.new j }
    ensures others { (j : ℕ) → (j ≡ replica → ⊥) → (r r' : Copy D) → At logical.old.replicas j r → At logical.new.replicas j r' → r' ≡ r }
    ensures still { logical.new ≡ record logical.old { replicas = logical.new.replicas } }
    ensures open { IsOpenVolume logical.new }
    ensures counts { KeepsCounts D.fault_count D.fuse_count logical.old.replicas logical.new.replicas }
    ensures same { IsSame logical.old logical.new }
{
    for examined in 0..cells {
        match logical.step(replica, 1) {
            Ok(1) => {}
            Ok(_) => {
                return Examined {
                    cells: examined as u64,
                    refused: None,
                };
            }
            Err(fault) => {
                return Examined {
                    cells: examined as u64,
                    refused: Some(fault),
                };
            }
        }
    }
    Examined {
        cells: cells as u64,
        refused: None,
    }
}

// What a step did.
fn step_did(examined: &Examined, replica: u32) -> Made
    ensures { result ≡ step_made replica examined.now }
{
    let cells = examined.cells;
    match examined.refused {
        None => Made::Examines { replica, cells },
        Some(LogicalFault::NoMemory) => Made::Examines { replica, cells },
        Some(LogicalFault::Failed { .. }) => Made::Ends { replica },
        Some(LogicalFault::Damaged { .. }) => Made::Ends { replica },
        Some(LogicalFault::ReadOnly { .. }) => Made::Tries,
        Some(LogicalFault::Idle) => Made::Tries,
        Some(LogicalFault::Full { .. }) => Made::Tries,
        Some(LogicalFault::Gone { .. }) => Made::Tries,
        Some(LogicalFault::Busy { .. }) => Made::Tries,
        Some(LogicalFault::Worn { .. }) => Made::Tries,
    }
}

impl<D: Disk<Piece = P>, P: Piece> VolumeLock<D, P> {
    /// Examines so many cells, or all that are left, for the compaction of a replica that a line of the lane began. `Idle` comes where
    /// none stands. `Failed` ends it, and `NoMemory` leaves it behind some of the cells.
    pub fn step<R: Wait>(
        &self,
        rt: &R,
        seat: &mut VolumeSeat<D, P>,
        tag: CoreTag,
        replica: u32,
        cells: u32,
    ) -> Examined
        requires may { MayAct self.now tag seat.old }
        requires within { HasReplica seat.old replica }
        ensures stepped { IsTold D.Tells D.files P.Tells D.fault_count D.fuse_count seat.old.start (λ volume. StepAnswer volume tag replica cells result seat.old.sight seat.new.sight) }
        ensures causes { (m f : ℕ) → result.refused ≡ Some (LogicalFault.Failed m f) →
            IsAlways D.fault_count D.fuse_count seat.old.start (λ volume. FailedHere volume tag replica m f seat.old.sight seat.new.sight) }
        ensures refusals { OfOpened seat.old.start (λ settings v. IfSome result.refused (RefusesRun settings v replica)) }
        ensures held { UnfusedHolding tag seat.old.sight seat.new.sight }
        ensures same { IsSameSeat seat.old seat.new }
    {
        let mut kept = self.turn.hold(rt, &mut seat.turn);
        kept.front.show_all(rt, &mut seat.view);
        let begun = kept.begun[replica as usize];
        if let Some(refusal) = barred(&kept.logical, begun, tag.lane, replica) {
            self.turn.free(&mut seat.turn, kept, None);
            return Examined {
                cells: 0,
                refused: Some(refusal),
            };
        }
        let examined = examine(&mut kept.logical, replica, cells);
        let act = Act::new(tag, step_did(&examined, replica), &kept.logical);
        self.turn.free(&mut seat.turn, kept, Some(act));
        examined
    }
}
