//! Places that are seen at a seat.
ghost use Rattle.std.specs.Prelude.{◌≡◌, ◌<◌, ◌↔◌, ◌⊎◌, [], ℕ, length, IsTrue, IfOk, IfErr, Some, Err};
ghost use Rattle.hay_compact.specs.Finishing.{IsSeen};
ghost use Rattle.hay_logical.specs.ReplicaCalls.{IsSeenBy};
ghost use Rattle.hay_map.specs.Places.{place_in};
ghost use Rattle.hay_volume_lock.specs.Answers.{FailedLook, IsAlways, IsTold, UnfusedHolding};
ghost use Rattle.hay_volume_lock.specs.Changes.{SeeAnswer, freezes_by};
ghost use Rattle.hay_volume_lock.specs.Refusing.{OfOpened, RefusesSight};
ghost use Rattle.hay_volume_lock.specs.Seats.{HasReplica, IsSameSeat, MayAct};
ghost use Rattle.hay_volume_lock.specs.Tries.{tried_made};
ghost use Rattle.hay_volume_lock.specs.declared.guarded.Opened.{Opened};

use crate::act::Made;
use crate::changes::front_tag;
use crate::lock::VolumeLock;
use crate::seat::VolumeSeat;
use crate::tries::{act_made, faults_of};
use hay_core::CoreTag;
use hay_disk::{Disk, Piece};
use hay_logical::{LogicalFault, Looked};
use hay_map::{MapOp, Place, Row};
use hay_needle::Pair;
use hay_views::{Past, Published};
use std::marker::Model;
use std::sync::Wait;

// Whether a place was looked at.
pub(crate) fn is_seen<P: Piece>(row: &Row<P>, replica: u32) -> bool
    requires { replica < length row.now }
    ensures { IsTrue result ↔ IsSeen (place_in row.now replica) }
{
    match row.place(replica as usize) {
        Place::Unseen { .. } => false,
        Place::None => true,
        Place::Live(_) => true,
        Place::Gone => true,
    }
}

// What is published of a place that was seen.
pub(crate) fn sight_of<P: Piece>(looked: &Looked<P>, pair: Pair, replica: u32) -> Published<P>
    requires { replica < length looked.now.row }
    ensures { result ≡ record { change = MapOp.Seen pair replica (place_in looked.now.row replica); entered = [] } }
{
    Published {
        change: MapOp::Seen {
            pair,
            replica,
            place: looked.row.place(replica as usize).dup(),
        },
        entered: Past::new(),
    }
}

// What a look did that was refused.
pub(crate) fn sight_did(fault: &LogicalFault) -> Option<Made>
    ensures { result ≡ tried_made fault.now }
{
    match fault {
        LogicalFault::Failed { .. } => Some(Made::Tries),
        LogicalFault::NoMemory => None,
        LogicalFault::ReadOnly { .. } => None,
        LogicalFault::Full { .. } => None,
        LogicalFault::Gone { .. } => None,
        LogicalFault::Busy { .. } => None,
        LogicalFault::Worn { .. } => None,
        LogicalFault::Idle => None,
        LogicalFault::Damaged { .. } => None,
    }
}

// A volume that was frozen, unless it was so before.
pub(crate) fn freeze_did(before: Option<u32>, frozen: Option<u32>) -> Option<Made>
    ensures { result ≡ freezes_by before frozen }
{
    if before.is_some() {
        return None;
    }
    let machine = frozen?;
    Some(Made::Freezes { machine })
}

impl<D: Disk<Piece = P>, P: Piece> VolumeLock<D, P> {
    /// Sees the place of a pair's photo on a replica, where it was not looked at yet, by one read of its needle, which `out` then
    /// has, and publishes it. The seat is shown it. For want of memory to publish it the volume is frozen.
    pub fn see<R: Wait>(
        &self,
        rt: &R,
        seat: &mut VolumeSeat<D, P>,
        tag: CoreTag,
        pair: Pair,
        replica: u32,
        out: &mut Vec<u8>,
    ) -> Result<Looked<P>, LogicalFault>
        requires may { MayAct self.now tag seat.old }
        requires within { HasReplica seat.old replica }
        ensures seen { IsTold D.Tells D.files P.Tells D.fault_count D.fuse_count seat.old.start (λ volume. SeeAnswer volume tag P.Tells pair replica result seat.old.sight seat.new.sight) }
        ensures causes { (m f : ℕ) → result ≡ Err (LogicalFault.Failed m f) →
            IsAlways D.fault_count D.fuse_count seat.old.start (λ volume. FailedLook volume tag replica m f seat.old.sight seat.new.sight) }
        ensures long { (opened : Opened D P) → seat.old.start ≡ Some opened → IfOk result (λ looked. length looked.row ≡ opened.volume.settings.replicas) }
        // On any disk the place is one that was seen. What `out` has then is its needle, where it was not looked at before.
        ensures sighted { IfOk result (λ looked. IsSeen (place_in looked.row replica)) }
        ensures needle { IfOk result (λ looked. (out.new.items ≡ out.old.items) ⊎ IsSeenBy D.Tells P.Tells out.new.items (place_in looked.row replica)) }
        ensures refusals { OfOpened seat.old.start (λ settings v. IfErr result (RefusesSight settings v)) }
        ensures held { UnfusedHolding tag seat.old.sight seat.new.sight }
        ensures same { IsSameSeat seat.old seat.new }
    {
        let mut kept = self.turn.hold(rt, &mut seat.turn);
        kept.front.show_all(rt, &mut seat.view);
        let looked = kept.logical.look(pair);
        if is_seen(&looked.row, replica) {
            self.turn.free(&mut seat.turn, kept, None);
            return Ok(looked);
        }
        let replicas = kept.settings.replicas;
        let before = faults_of(&kept.logical, replicas);
        let seen = match kept.logical.see(replica, pair, out) {
            Ok(seen) => seen,
            Err(fault) => {
                let made = act_made(&kept.logical, replicas, &before, tag, sight_did(&fault));
                self.turn.free(&mut seat.turn, kept, made);
                return Err(fault);
            }
        };
        if kept.front.is_closed() {
            let made = act_made(&kept.logical, replicas, &before, tag, None);
            self.turn.free(&mut seat.turn, kept, made);
            return Ok(seen);
        }
        let op = sight_of(&seen, pair, replica);
        let frozen = kept.logical.frozen();
        let Ok(_receipt) = kept.front.publish(rt, &mut seat.view, front_tag(tag), op) else {
            kept.logical.freeze();
            let did = freeze_did(frozen, kept.logical.frozen());
            let made = act_made(&kept.logical, replicas, &before, tag, did);
            self.turn.free(&mut seat.turn, kept, made);
            return Err(LogicalFault::NoMemory);
        };
        let made = act_made(&kept.logical, replicas, &before, tag, None);
        self.turn.free(&mut seat.turn, kept, made);
        Ok(seen)
    }
}
