//! Changes at a seat.
ghost use Rattle.std.specs.Prelude.{◌≡◌, ◌≤◌, ◌∷◌, [], ℕ, length, IfOk, IfErr, Err};
ghost use Rattle.hay_core.specs.declared.entry.Entry.TheVariants as change;
ghost use Rattle.hay_volume_lock.specs.Answers.{IsAlways, IsTold, UnfusedHolding};
ghost use Rattle.hay_volume_lock.specs.Changes.{DiskFailed, PutAnswer, pends_by, put_made};
ghost use Rattle.hay_volume_lock.specs.Refusing.{OfOpened, RefusesPut};
ghost use Rattle.hay_volume_lock.specs.Seats.{IsSameSeat, MayAct};

use crate::act::{Act, Made};
use crate::lock::VolumeLock;
use crate::seat::VolumeSeat;
use crate::tries::{act_made, faults_of};
use hay_base::NoMemory;
use hay_core::{CoreTag, Entry};
use hay_disk::{Disk, Piece};
use hay_front::Tag;
use hay_lanes::{Gate, Point};
use hay_logical::{Change, LogicalFault, Written};
use hay_map::MapOp;
use hay_needle::{Bytes, Cookie, MAX_PHOTO, Pair};
use hay_views::{Moment, Past, Published};
use std::alloc::Global;
use std::marker::Model;
use std::sync::Wait;

pub(crate) fn front_tag(tag: CoreTag) -> Tag
    ensures { result ≡ record { seat = tag.lane; lane = tag.lane; line = tag.line } }
{
    Tag {
        seat: tag.lane,
        lane: tag.lane,
        line: tag.line,
    }
}

// The entry of a put. It has a copy of the photo's bytes for as long as the call.
fn put_entry(alloc: Global, pair: Pair, cookie: Cookie, bytes: &[u8]) -> Result<Entry, NoMemory>
    ensures { IfOk result (λ entry. entry ≡ change.Put pair cookie bytes.now) }
{
    let bytes = Bytes::from_vec(bytes.to_vec(alloc)?);
    Ok(Entry::Put {
        pair,
        cookie,
        bytes,
    })
}

// What is published of a photo that was written.
fn published<P: Piece>(written: &Written<P>, entry: &Entry) -> Published<P>
    ensures change { result.change ≡ MapOp.Put written.now.pair written.now.row }
    ensures entered { result.entered ≡ entry.now ∷ [] }
{
    let mut entered = Past::new();
    entered.add(entry);
    Published {
        change: MapOp::Put {
            pair: written.pair,
            row: written.row.dup(),
        },
        entered,
    }
}

// A change that is pending where the volume is frozen by this machine.
pub(crate) fn pended(frozen: Option<u32>, entry: &Entry, failed: bool) -> Option<Made>
    ensures { result ≡ pends_by frozen entry.now failed }
{
    let machine = frozen?;
    Some(Made::Pends {
        machine,
        entry: Moment::of(entry),
        failed,
    })
}

// What a put did that was refused.
fn put_did(fault: &LogicalFault, frozen: Option<u32>, entry: &Entry) -> Option<Made>
    ensures { result ≡ put_made frozen entry.now fault.now }
{
    match fault {
        LogicalFault::Failed { machine, .. } => pended(Some(*machine), entry, true),
        LogicalFault::NoMemory => pended(frozen, entry, false),
        LogicalFault::ReadOnly { .. } => None,
        LogicalFault::Full { .. } => None,
        LogicalFault::Gone { .. } => None,
        LogicalFault::Busy { .. } => None,
        LogicalFault::Worn { .. } => None,
        LogicalFault::Idle => None,
        LogicalFault::Damaged { .. } => None,
    }
}

impl<D: Disk<Piece = P>, P: Piece> VolumeLock<D, P> {
    /// Stores a photo on each replica in order, publishes its places, and answers the position of the change. `Failed` leaves the
    /// put pending and freezes the volume, and so may `NoMemory`. The gate is passed where the lock is held and nothing is written yet.
    pub fn put<R: Wait, G: Gate>(
        &self,
        rt: &R,
        alloc: Global,
        seat: &mut VolumeSeat<D, P>,
        tag: CoreTag,
        pair: Pair,
        cookie: Cookie,
        bytes: &[u8],
        gate: &G,
    ) -> Result<u64, LogicalFault>
        requires may { MayAct self.now tag seat.old }
        requires size { length bytes.now ≤ MAX_PHOTO }
        ensures put { IsTold D.Tells D.files P.Tells D.fault_count D.fuse_count seat.old.start (λ volume. PutAnswer volume tag pair cookie bytes.now result seat.old.sight seat.new.sight) }
        ensures causes { (m f : ℕ) → result ≡ Err (LogicalFault.Failed m f) →
            IsAlways D.fault_count D.fuse_count seat.old.start (λ volume. DiskFailed volume tag m f seat.old.sight seat.new.sight) }
        ensures refusals { OfOpened seat.old.start (λ settings v. IfErr result (RefusesPut settings v (length bytes.now))) }
        ensures held { UnfusedHolding tag seat.old.sight seat.new.sight }
        ensures same { IsSameSeat seat.old seat.new }
    {
        let mut kept = self.turn.hold(rt, &mut seat.turn);
        kept.front.show_all(rt, &mut seat.view);
        gate.pass(tag.lane, tag.line, Point::Held);
        if let Some(machine) = kept.logical.frozen() {
            self.turn.free(&mut seat.turn, kept, None);
            return Err(LogicalFault::ReadOnly { machine });
        }
        let Ok(entry) = put_entry(alloc, pair, cookie, bytes) else {
            self.turn.free(&mut seat.turn, kept, None);
            return Err(LogicalFault::NoMemory);
        };
        let replicas = kept.settings.replicas;
        let before = faults_of(&kept.logical, replicas);
        let written = match kept.logical.write(alloc, tag, pair, cookie, bytes) {
            Ok(written) => written,
            Err(fault) => {
                let did = put_did(&fault, kept.logical.frozen(), &entry);
                let made = act_made(&kept.logical, replicas, &before, tag, did);
                self.turn.free(&mut seat.turn, kept, made);
                return Err(fault);
            }
        };
        let op = published(&written, &entry);
        let Ok(_receipt) = kept.front.publish(rt, &mut seat.view, front_tag(tag), op) else {
            kept.logical
                .give_up(tag, Change::Put { ends: written.ends });
            let did = pended(kept.logical.frozen(), &entry, false);
            let made = act_made(&kept.logical, replicas, &before, tag, did);
            self.turn.free(&mut seat.turn, kept, made);
            return Err(LogicalFault::NoMemory);
        };
        let position = kept.logical.show(written);
        let did = Made::Enters {
            entry: Moment::of(&entry),
            ended: Past::new(),
        };
        let act = Act::new(tag, did, &kept.logical);
        self.turn.free(&mut seat.turn, kept, Some(act));
        Ok(position)
    }
}
