//! Compactions at a seat: how a line's own ends.
ghost use Rattle.std.specs.Prelude.{◌≡◌, ◌<◌, ◌↔◌, ℕ, false, Option, Some, None, Err, IfErr, IfSome, IfNone, IsTrue};
ghost use Rattle.hay_legal.specs.declared.known.VolumeKnown.{VolumeKnown};
ghost use Rattle.hay_legal.specs.Known.{replica_at};
ghost use Rattle.hay_logical.specs.Answers.{IsRunning};
ghost use Rattle.hay_logical.specs.Stands.{Stands};
ghost use Rattle.hay_logical.specs.Volumes.{IsOpenVolume};
ghost use Rattle.hay_volume_lock.specs.Answers.{IsAlways, IsTold, UnfusedHolding};
ghost use Rattle.hay_volume_lock.specs.Compactions.{FailedHere, MayGoOn};
ghost use Rattle.hay_volume_lock.specs.Finishes.{CompactAnswer, IsLost};
ghost use Rattle.hay_volume_lock.specs.Refusing.{OfOpened, RefusesEnd};
ghost use Rattle.hay_volume_lock.specs.Seats.{HasReplica, IsSameSeat, MayAct};
ghost use Rattle.hay_volume_lock.specs.declared.refusals.Uncompacted.TheVariants as lost_as;
ghost use Rattle.hay_volume_lock.specs.declared.refusals.Unfinished.{Unfinished as RefusedSo};

use crate::act::{Act, Made};
use crate::changes::front_tag;
use crate::ended::Ended;
use crate::finishes::{moved, unfinished_did};
use crate::lock::VolumeLock;
use crate::refusals::{Finished, Uncompacted, Unfinished};
use crate::seat::VolumeSeat;
use hay_core::CoreTag;
use hay_disk::{Disk, Piece};
use hay_logical::{Logical, LogicalFault, NewFiles};
use std::marker::Model;
use std::sync::Wait;

fn is_own(begun: CoreTag, tag: CoreTag) -> bool
    ensures { IsTrue result ↔ (begun ≡ tag) }
{
    begun == tag
}

// Whether the compaction of the replica stands that the line began.
fn stands_own<D: Disk>(logical: &Logical<D>, begun: CoreTag, tag: CoreTag, replica: u32) -> bool
    requires within { replica < logical.now.settings.replicas }
    requires open { IsOpenVolume logical.now }
    ensures own { IsTrue result → begun ≡ tag }
    ensures stands { D.Tells → (k : VolumeKnown) → Stands D.files D.Piece.Tells logical.now k → IsTrue result → IsRunning k replica }
    ensures away { D.Tells → (k : VolumeKnown) → Stands D.files D.Piece.Tells logical.now k → result ≡ false → begun ≡ tag → (replica_at k replica).run ≡ None }
{
    if !is_own(begun, tag) {
        return false;
    }
    match logical.standing(replica) {
        Some(_) => true,
        None => false,
    }
}

// What has become of the compaction of the replica that the line began, if it does not stand.
fn lost<D: Disk>(
    logical: &Logical<D>,
    ended: &Ended,
    begun: CoreTag,
    tag: CoreTag,
    replica: u32,
) -> Option<Uncompacted>
    requires within { replica < logical.now.settings.replicas }
    requires most { replica < 4 }
    requires few { tag.lane < 8 }
    requires open { IsOpenVolume logical.now }
    ensures lost { D.Tells → (k : VolumeKnown) → Stands D.files D.Piece.Tells logical.now k → IfSome result (IsLost k replica tag begun ended.now) }
    ensures free { D.Tells → (k : VolumeKnown) → Stands D.files D.Piece.Tells logical.now k → IfNone result (MayGoOn k replica tag.lane begun) }
    ensures own { IfNone result (begun ≡ tag) }
    ensures refusals { IfSome result (RefusesEnd logical.now.settings logical.now.number replica) }
    ensures quiet { (unfinished : RefusedSo) → result ≡ Some (lost_as.Unfinished unfinished) → ⊥ }
{
    if let Some(machine) = logical.frozen() {
        return Some(Uncompacted::Frozen { machine });
    }
    if stands_own(logical, begun, tag, replica) {
        return None;
    }
    match ended.of(replica, tag.lane) {
        Some(faults) => Some(Uncompacted::Deleted { faults }),
        None => Some(Uncompacted::Idle),
    }
}

impl<D: Disk<Piece = P>, P: Piece> VolumeLock<D, P> {
    /// Ends the compaction of a replica that the line itself began, as `finish` does. Where it has ended, a refusal tells how. There are
    /// no counts of deletes that ended compactions for other lanes than eight.
    pub fn compact<R: Wait>(
        &self,
        rt: &R,
        seat: &mut VolumeSeat<D, P>,
        tag: CoreTag,
        replica: u32,
    ) -> Result<Finished, Uncompacted>
        requires may { MayAct self.now tag seat.old }
        requires within { HasReplica seat.old replica }
        requires few { tag.lane < 8 }
        ensures compacted { IsTold D.Tells D.files P.Tells D.fault_count D.fuse_count seat.old.start (λ volume. CompactAnswer volume tag replica result seat.old.sight seat.new.sight) }
        ensures causes { (m f : ℕ) (frozen : Option ℕ) → result ≡ Err (lost_as.Unfinished (record { fault = LogicalFault.Failed m f; frozen = frozen })) →
            IsAlways D.fault_count D.fuse_count seat.old.start (λ volume. FailedHere volume tag replica m f seat.old.sight seat.new.sight) }
        ensures refusals { OfOpened seat.old.start (λ settings v. IfErr result (RefusesEnd settings v replica)) }
        ensures held { UnfusedHolding tag seat.old.sight seat.new.sight }
        ensures same { IsSameSeat seat.old seat.new }
    {
        let mut kept = self.turn.hold(rt, &mut seat.turn);
        kept.front.show_all(rt, &mut seat.view);
        let begun = kept.begun[replica as usize];
        if let Some(refusal) = lost(&kept.logical, &kept.ended, begun, tag, replica) {
            self.turn.free(&mut seat.turn, kept, None);
            return Err(refusal);
        }
        let files = match kept.logical.finish_files(replica) {
            Ok(files) => files,
            Err(fault) => {
                let frozen = kept.logical.frozen();
                let did = unfinished_did(&fault, frozen, replica);
                let act = Act::new(tag, did, &kept.logical);
                self.turn.free(&mut seat.turn, kept, Some(act));
                return Err(Uncompacted::Unfinished(Unfinished { fault, frozen }));
            }
        };
        let NewFiles {
            generation,
            cells,
            end,
            count,
        } = files;
        let op = moved(replica, cells);
        let Ok(_receipt) = kept.front.publish(rt, &mut seat.view, front_tag(tag), op) else {
            kept.logical.freeze();
            let did = Made::Swaps {
                replica,
                end,
                cells: count,
                frozen: kept.logical.frozen(),
            };
            let act = Act::new(tag, did, &kept.logical);
            self.turn.free(&mut seat.turn, kept, Some(act));
            return Ok(Finished {
                generation,
                frozen: true,
            });
        };
        let did = Made::Swaps {
            replica,
            end,
            cells: count,
            frozen: None,
        };
        let act = Act::new(tag, did, &kept.logical);
        self.turn.free(&mut seat.turn, kept, Some(act));
        Ok(Finished {
            generation,
            frozen: false,
        })
    }
}
