//! Deletes at a seat.
ghost use Rattle.std.specs.Prelude.{◌≡◌, ◌≤◌, ◌<◌, ◌∷◌, [], ℕ, length, map, IfErr, Err};
ghost use Rattle.hay_core.specs.declared.entry.Entry.TheVariants as change;
ghost use Rattle.hay_logical.specs.Answers.{has_ended};
ghost use Rattle.hay_physical.specs.OpenCopies.{goal_of};
ghost use Rattle.hay_volume_lock.specs.Answers.{IsAlways, IsTold, UnfusedHolding};
ghost use Rattle.hay_volume_lock.specs.Acts.{counts};
ghost use Rattle.hay_volume_lock.specs.Changes.{DiskFailed};
ghost use Rattle.hay_volume_lock.specs.Deletes.{DeleteAnswer, delete_made, noted, over_since};
ghost use Rattle.hay_volume_lock.specs.Ended.{ended_at};
ghost use Rattle.hay_volume_lock.specs.Refusing.{OfOpened, RefusesDelete};
ghost use Rattle.hay_volume_lock.specs.Seats.{IsSameSeat, MayAct};

use crate::act::{Act, Made};
use crate::changes::{front_tag, pended};
use crate::ended::Ended;
use crate::lock::VolumeLock;
use crate::seat::VolumeSeat;
use crate::sights::{freeze_did, is_seen, sight_did, sight_of};
use crate::tries::{act_made, faults_of};
use arrayvec::ArrayVec;
use hay_core::{CoreTag, Entry};
use hay_disk::{Disk, Piece};
use hay_logical::{Change, Logical, LogicalFault};
use hay_map::MapOp;
use hay_needle::{MAX_REPLICAS, Pair};
use hay_views::{Moment, Past, Published};
use std::marker::Model;
use std::sync::Wait;

// What is published of a photo that was deleted.
fn deletion<P: Piece>(pair: Pair, entry: &Entry) -> Published<P>
    ensures change { result.change ≡ MapOp.Del pair }
    ensures entered { result.entered ≡ entry.now ∷ [] }
{
    let mut entered = Past::new();
    entered.add(entry);
    Published {
        change: MapOp::Del { pair },
        entered,
    }
}

// What a delete did that was refused.
fn delete_did(fault: &LogicalFault, frozen: Option<u32>, entry: &Entry) -> Option<Made>
    ensures { result ≡ delete_made frozen entry.now fault.now }
{
    match fault {
        LogicalFault::Failed { .. } => {
            let Some(pending) = pended(frozen, entry, true) else {
                return Some(Made::Tries);
            };
            Some(pending)
        }
        LogicalFault::NoMemory => None,
        LogicalFault::ReadOnly { .. } => None,
        LogicalFault::Full { .. } => None,
        LogicalFault::Gone { .. } => None,
        LogicalFault::Busy { .. } => None,
        LogicalFault::Worn { .. } => None,
        LogicalFault::Idle => None,
        LogicalFault::Damaged { .. } => None,
    }
}

// The generation that the compaction of each replica makes, if one stands.
fn runs_of<D: Disk>(logical: &Logical<D>, replicas: u32) -> ArrayVec<Option<u64>, 4>
    requires all { length logical.now.replicas ≡ replicas }
    requires most { replicas ≤ MAX_REPLICAS }
    ensures { result.items ≡ map goal_of logical.now.replicas }
{
    let mut runs = ArrayVec::new();
    for replica in 0..replicas {
        runs.push(logical.standing(replica));
    }
    runs
}

fn is_over(run: Option<u64>, now: Option<u64>) -> bool
    ensures { result ≡ has_ended run now }
{
    run.is_some() && now.is_none()
}

// Of each replica, whether its compaction stood before and stands no more.
fn over_of<D: Disk>(
    logical: &Logical<D>,
    replicas: u32,
    runs: &ArrayVec<Option<u64>, 4>,
) -> ArrayVec<bool, 4>
    requires all { length logical.now.replicas ≡ replicas }
    requires most { replicas ≤ MAX_REPLICAS }
    requires runs { length runs.now.items ≡ replicas }
    ensures { result.items ≡ over_since runs.now.items logical.now.replicas }
{
    let mut over = ArrayVec::new();
    for replica in 0..replicas {
        let run = runs.as_slice()[replica as usize];
        over.push(is_over(run, logical.standing(replica)));
    }
    over
}

// The same, for clauses alone.
fn past_of(over: &[bool]) -> Past<bool>
    ensures { result ≡ over.now }
{
    let mut past = Past::new();
    for is_over in over {
        past.add(is_over);
    }
    past
}

// Keeps the counts of the disks of replicas whose compactions ended, for the lanes that had begun them.
fn note_ended<D: Disk>(
    logical: &Logical<D>,
    replicas: u32,
    over: &[bool],
    begun: &[CoreTag; 4],
    ended: &mut Ended,
)
    requires all { length logical.now.replicas ≡ replicas }
    requires most { replicas ≤ MAX_REPLICAS }
    requires over { length over.now ≡ replicas }
    ensures { (j lane : ℕ) → j < replicas → lane < 8 →
        ended_at ended.new j lane ≡ noted over.now begun.now (counts D.fault_count logical.now.replicas) ended.old j lane }
{
    for replica in 0..replicas {
        let at = replica as usize;
        if over[at] {
            ended.set(replica, begun[at].lane, logical.faults(replica));
        }
    }
}

impl<D: Disk<Piece = P>, P: Piece> VolumeLock<D, P> {
    /// Deletes a pair's photo from each replica that has it, in order, and from the rows that are published, and answers the position of
    /// the change. Each place that was not looked at yet is seen first, and published; `out` has a needle then. `Failed` may leave the
    /// delete pending and freeze the volume, and so may `NoMemory`.
    pub fn delete<R: Wait>(
        &self,
        rt: &R,
        seat: &mut VolumeSeat<D, P>,
        tag: CoreTag,
        pair: Pair,
        out: &mut Vec<u8>,
    ) -> Result<u64, LogicalFault>
        requires may { MayAct self.now tag seat.old }
        ensures deleted { IsTold D.Tells D.files P.Tells D.fault_count D.fuse_count seat.old.start (λ volume. DeleteAnswer volume tag pair result seat.old.sight seat.new.sight) }
        ensures causes { (m f : ℕ) → result ≡ Err (LogicalFault.Failed m f) →
            IsAlways D.fault_count D.fuse_count seat.old.start (λ volume. DiskFailed volume tag m f seat.old.sight seat.new.sight) }
        ensures refusals { OfOpened seat.old.start (λ settings v. IfErr result (RefusesDelete settings v)) }
        ensures held { UnfusedHolding tag seat.old.sight seat.new.sight }
        ensures same { IsSameSeat seat.old seat.new }
    {
        let mut kept = self.turn.hold(rt, &mut seat.turn);
        kept.front.show_all(rt, &mut seat.view);
        if let Some(machine) = kept.logical.frozen() {
            self.turn.free(&mut seat.turn, kept, None);
            return Err(LogicalFault::ReadOnly { machine });
        }
        let replicas = kept.settings.replicas;
        let before = faults_of(&kept.logical, replicas);
        for replica in 0..replicas {
            let looked = kept.logical.look(pair);
            if !is_seen(&looked.row, replica) {
                let seen = match kept.logical.see(replica, pair, out) {
                    Ok(seen) => seen,
                    Err(fault) => {
                        let made = act_made(
                            &kept.logical,
                            replicas,
                            &before,
                            tag,
                            sight_did(&fault),
                        );
                        self.turn.free(&mut seat.turn, kept, made);
                        return Err(fault);
                    }
                };
                let op = sight_of(&seen, pair, replica);
                let Ok(_receipt) = kept.front.publish(rt, &mut seat.view, front_tag(tag), op) else {
                    kept.logical.freeze();
                    let did = freeze_did(None, kept.logical.frozen());
                    let made = act_made(&kept.logical, replicas, &before, tag, did);
                    self.turn.free(&mut seat.turn, kept, made);
                    return Err(LogicalFault::NoMemory);
                };
            }
        }
        let entry = Entry::Del { pair };
        let runs = runs_of(&kept.logical, replicas);
        let erased = match kept.logical.erase_seen(tag, pair) {
            Ok(erased) => erased,
            Err(fault) => {
                let did = delete_did(&fault, kept.logical.frozen(), &entry);
                let made = act_made(&kept.logical, replicas, &before, tag, did);
                self.turn.free(&mut seat.turn, kept, made);
                return Err(fault);
            }
        };
        let Ok(_receipt) = kept
            .front
            .publish(rt, &mut seat.view, front_tag(tag), deletion(pair, &entry))
        else {
            kept.logical.give_up(tag, Change::Delete { pair });
            let did = pended(kept.logical.frozen(), &entry, false);
            let made = act_made(&kept.logical, replicas, &before, tag, did);
            self.turn.free(&mut seat.turn, kept, made);
            return Err(LogicalFault::NoMemory);
        };
        let position = kept.logical.hide(erased);
        let over = over_of(&kept.logical, replicas, &runs);
        note_ended(
            &kept.logical,
            replicas,
            over.as_slice(),
            &kept.begun,
            &mut kept.ended,
        );
        let did = Made::Enters {
            entry: Moment::of(&entry),
            ended: past_of(over.as_slice()),
        };
        let act = Act::new(tag, did, &kept.logical);
        self.turn.free(&mut seat.turn, kept, Some(act));
        Ok(position)
    }
}
