//! The lock, and the calls at a seat.
ghost use Rattle.std.specs.Prelude.{◌≡◌, ℕ, Option, Err, IfErr, IfSome};
ghost use Rattle.hay_core.specs.declared.entry.CoreTag.{CoreTag};
ghost use Rattle.hay_holdings.specs.Volumes.{Fused};
ghost use Rattle.hay_logical.specs.Volumes.{IsMachineOf};
ghost use Rattle.hay_volume_lock.specs.Answers.{BeginAnswer, FailedLook, FlushAnswer, FlushRefused, FrozenAnswer, IsAlways, IsTold, OneHolding, RoomAnswer, UnfusedHolding};
ghost use Rattle.hay_volume_lock.specs.Refusing.{OfOpened, RefusesBegin, RefusesFlush, RefusesRoom};
ghost use Rattle.hay_volume_lock.specs.Seats.{HasReplica, IsSameSeat, MayAct, Rests};

use crate::act::{Act, Made};
use crate::guarded::Guarded;
use crate::refusals::Unflushed;
use crate::seat::VolumeSeat;
use crate::tries::{act_made, begin_did, faults_of, flush_answer, flush_did, note_begun};
use hay_core::CoreTag;
use hay_disk::{Disk, Piece};
use hay_logical::LogicalFault;
use hay_turn::Turn;
use std::alloc::Global;
use std::marker::Model;
use std::sync::Wait;

/// A volume behind its lock. Clauses see which lock it is.
pub struct VolumeLock<D: Disk<Piece = P>, P: Piece> {
    pub(crate) turn: Turn<Guarded<D, P>>,
}

impl<D: Disk<Piece = P>, P: Piece> Model for VolumeLock<D, P> {
    ghost use Rattle.hay_turn.specs.Seats.{TurnId};

    ghost Value = { TurnId };

    ghost view = { λ l. l.turn };
}

impl<D: Disk<Piece = P>, P: Piece> VolumeLock<D, P> {
    /// The machine by which the volume is frozen.
    pub fn frozen<R: Wait>(&self, rt: &R, seat: &mut VolumeSeat<D, P>) -> Option<u32>
        requires rests { Rests self.now seat.old }
        ensures frozen { (tag : CoreTag) → IsTold D.Tells D.files P.Tells D.fault_count D.fuse_count seat.old.start (λ volume. FrozenAnswer volume tag result seat.old.sight seat.new.sight) }
        ensures on { OfOpened seat.old.start (λ settings v. IfSome result (IsMachineOf settings v)) }
        ensures held { (tag : CoreTag) → UnfusedHolding tag seat.old.sight seat.new.sight }
        ensures same { IsSameSeat seat.old seat.new }
    {
        let kept = self.turn.hold(rt, &mut seat.turn);
        kept.front.show_all(rt, &mut seat.view);
        let machine = kept.logical.frozen();
        self.turn.free(&mut seat.turn, kept, None);
        machine
    }

    /// Whether the volume takes a photo of this size.
    pub fn room<R: Wait>(
        &self,
        rt: &R,
        seat: &mut VolumeSeat<D, P>,
        size: u32,
    ) -> Result<(), LogicalFault>
        requires rests { Rests self.now seat.old }
        ensures room { (tag : CoreTag) → IsTold D.Tells D.files P.Tells D.fault_count D.fuse_count seat.old.start (λ volume. RoomAnswer volume tag size result seat.old.sight seat.new.sight) }
        ensures refusals { OfOpened seat.old.start (λ settings v. IfErr result (RefusesRoom settings v size)) }
        ensures held { (tag : CoreTag) → UnfusedHolding tag seat.old.sight seat.new.sight }
        ensures same { IsSameSeat seat.old seat.new }
    {
        let kept = self.turn.hold(rt, &mut seat.turn);
        kept.front.show_all(rt, &mut seat.view);
        let answer = kept.logical.room(size);
        self.turn.free(&mut seat.turn, kept, None);
        answer
    }

    /// Gives the cells of a replica without an index record theirs, and answers how many these were. `ReadOnly` comes where the
    /// volume is frozen, or the replica's index, which `Failed` freezes: a refusal tells which.
    pub fn flush<R: Wait>(
        &self,
        rt: &R,
        seat: &mut VolumeSeat<D, P>,
        tag: CoreTag,
        replica: u32,
    ) -> Result<u64, Unflushed>
        requires may { MayAct self.now tag seat.old }
        requires within { HasReplica seat.old replica }
        ensures flushed { IsTold D.Tells D.files P.Tells D.fault_count D.fuse_count seat.old.start (λ volume. FlushAnswer volume tag replica result seat.old.sight seat.new.sight) }
        ensures causes { (m f : ℕ) (frozen : Option ℕ) → result ≡ Err (record { fault = LogicalFault.Failed m f; frozen = frozen }) →
            IsAlways D.fault_count D.fuse_count seat.old.start (λ volume. FlushRefused volume tag replica (LogicalFault.Failed m f) frozen seat.old.sight seat.new.sight) }
        ensures refusals { OfOpened seat.old.start (λ settings v. IfErr result (λ unflushed. RefusesFlush settings v replica unflushed.fault)) }
        ensures held { UnfusedHolding tag seat.old.sight seat.new.sight }
        ensures same { IsSameSeat seat.old seat.new }
    {
        let mut kept = self.turn.hold(rt, &mut seat.turn);
        kept.front.show_all(rt, &mut seat.view);
        let before = faults_of(&kept.logical, kept.settings.replicas);
        let answer = kept.logical.flush(replica);
        let frozen = kept.logical.frozen();
        let did = flush_did(&answer, replica);
        let made = act_made(&kept.logical, kept.settings.replicas, &before, tag, did);
        self.turn.free(&mut seat.turn, kept, made);
        flush_answer(answer, frozen)
    }

    /// Begins a compaction of a replica for the line, and answers the generation that it makes. `Busy` comes where one stands, and
    /// `Worn` where the replica's generation is the last one. A refusal leaves what stood.
    pub fn begin<R: Wait>(
        &self,
        rt: &R,
        alloc: Global,
        seat: &mut VolumeSeat<D, P>,
        tag: CoreTag,
        replica: u32,
    ) -> Result<u64, LogicalFault>
        requires may { MayAct self.now tag seat.old }
        requires within { HasReplica seat.old replica }
        ensures begun { IsTold D.Tells D.files P.Tells D.fault_count D.fuse_count seat.old.start (λ volume. BeginAnswer volume tag replica result seat.old.sight seat.new.sight) }
        ensures causes { (m f : ℕ) → result ≡ Err (LogicalFault.Failed m f) →
            IsAlways D.fault_count D.fuse_count seat.old.start (λ volume. FailedLook volume tag replica m f seat.old.sight seat.new.sight) }
        ensures refusals { OfOpened seat.old.start (λ settings v. IfErr result (RefusesBegin settings v replica)) }
        ensures held { UnfusedHolding tag seat.old.sight seat.new.sight }
        ensures same { IsSameSeat seat.old seat.new }
    {
        let mut kept = self.turn.hold(rt, &mut seat.turn);
        kept.front.show_all(rt, &mut seat.view);
        let before = faults_of(&kept.logical, kept.settings.replicas);
        let answer = kept.logical.begin(alloc, replica);
        note_begun(&mut kept.begun, &answer, tag, replica);
        let did = begin_did(&answer, replica);
        let made = act_made(&kept.logical, kept.settings.replicas, &before, tag, did);
        self.turn.free(&mut seat.turn, kept, made);
        answer
    }

    /// Sets a fuse on a replica's disk for the line.
    pub fn fuse<R: Wait>(
        &self,
        rt: &R,
        seat: &mut VolumeSeat<D, P>,
        tag: CoreTag,
        replica: u32,
        calls: u32,
    )
        requires may { MayAct self.now tag seat.old }
        requires within { HasReplica seat.old replica }
        ensures fused { IsAlways D.fault_count D.fuse_count seat.old.start (λ volume. Fused volume.settings volume.start volume.number tag replica seat.old.sight seat.new.sight) }
        ensures held { OneHolding tag seat.old.sight seat.new.sight }
        ensures same { IsSameSeat seat.old seat.new }
    {
        let mut kept = self.turn.hold(rt, &mut seat.turn);
        kept.front.show_all(rt, &mut seat.view);
        kept.logical.fuse(replica, calls);
        let act = Act::new(tag, Made::Fuses { replica }, &kept.logical);
        self.turn.free(&mut seat.turn, kept, Some(act));
    }
}
