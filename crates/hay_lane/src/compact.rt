//! Whole compactions.
ghost use Rattle.std.specs.Prelude.{◌≡◌, ◌<◌, Some};
ghost use Rattle.hay_script.specs.declared.Command.TheVariants as asks;
ghost use Rattle.hay_legal.specs.Known as known;
ghost use Rattle.hay_legal.specs.Suiting.{Suits};
ghost use Rattle.hay_meeting.specs.Acts.{Start};
ghost use Rattle.hay_holdings.specs.Lines.{IsAnswered};
ghost use Rattle.hay_lane.specs.Fuses.{IsUnfused};
ghost use Rattle.hay_lane.specs.Lanes.{IsOf, IsSeated, sight};
ghost use Rattle.hay_reply.specs.Fits.{FitsReply};
ghost use Rattle.hay_shared_volume.specs.Seats.{IsSeatOf, WasAt, sight_of};

use crate::calls::DirectoryCalls;
use crate::lane::{Lane, Shared};
use crate::places::replica_on;
use crate::replies::{begin_reply, compaction_reply};
use hay_core::CoreTag;
use hay_disk::{Arm, Disk, Piece};
use hay_reply::Reply;
use hay_shared_volume::{Begin, Compaction, SharedVolume};
use hay_volume_lock::VolumeSeat;
use std::alloc::Global;
use std::sync::Wait;

impl<D: Disk<Piece = P>, P: Piece, L: DirectoryCalls> Shared<SharedVolume<D, P>, L> {
    /// Begins a compaction and finishes it. Other lanes may come between.
    pub fn compact<R: Wait, A: Arm<P>>(
        &self,
        rt: &R,
        alloc: Global,
        lane: &mut Lane<VolumeSeat<D, P>, L::Seat, A>,
        tag: CoreTag,
        volume: u32,
        machine: u32,
    ) -> Reply
        requires seated { IsSeated IsSeatOf L.fits self.now tag.lane lane.old }
        ensures seated { IsSeated IsSeatOf L.fits self.now tag.lane lane.new }
        ensures same { (start : Start) → IsOf (WasAt D.Tells D.files P.Tells D.fault_count D.fuse_count) L.is_at self.now.settings start lane.old
            → IsOf (WasAt D.Tells D.files P.Tells D.fault_count D.fuse_count) L.is_at self.now.settings start lane.new }
        ensures unfused { IsUnfused sight_of L.sight lane.old → IsUnfused sight_of L.sight lane.new }
        ensures arm { lane.new.arm ≡ lane.old.arm }
        ensures answered { (start : Start) → IsOf (WasAt D.Tells D.files P.Tells D.fault_count D.fuse_count) L.is_at self.now.settings start lane.old →
            IsAnswered self.now.settings start self.now.drained.items tag (asks.Compact volume machine) result
            (sight sight_of L.sight A.fault_count lane.old) (sight sight_of L.sight A.fault_count lane.new) }
        ensures suits { Suits self.now.settings tag.line (asks.Compact volume machine) result }
        ensures fits { FitsReply result }
    {
        let Some(replica) = replica_on(&self.settings, volume, machine) else {
            return Reply::Nowhere;
        };
        self.compact_replica(rt, alloc, lane, tag, volume, machine, replica)
    }

    // The same of the replica on the machine. One that was lost is begun anew, which never happens over disks that tell what they have.
    fn compact_replica<R: Wait, A: Arm<P>>(
        &self,
        rt: &R,
        alloc: Global,
        lane: &mut Lane<VolumeSeat<D, P>, L::Seat, A>,
        tag: CoreTag,
        volume: u32,
        machine: u32,
        replica: u32,
    ) -> Reply
        requires seated { IsSeated IsSeatOf L.fits self.now tag.lane lane.old }
        requires volume { volume < self.now.settings.volumes }
        requires replica { replica < self.now.settings.replicas }
        requires there { known.replica_on self.now.settings volume machine ≡ Some replica }
        requires on { known.machine_of self.now.settings volume replica ≡ machine }
        ensures seated { IsSeated IsSeatOf L.fits self.now tag.lane lane.new }
        ensures same { (start : Start) → IsOf (WasAt D.Tells D.files P.Tells D.fault_count D.fuse_count) L.is_at self.now.settings start lane.old
            → IsOf (WasAt D.Tells D.files P.Tells D.fault_count D.fuse_count) L.is_at self.now.settings start lane.new }
        ensures unfused { IsUnfused sight_of L.sight lane.old → IsUnfused sight_of L.sight lane.new }
        ensures arm { lane.new.arm ≡ lane.old.arm }
        ensures answered { (start : Start) → IsOf (WasAt D.Tells D.files P.Tells D.fault_count D.fuse_count) L.is_at self.now.settings start lane.old →
            IsAnswered self.now.settings start self.now.drained.items tag (asks.Compact volume machine) result
            (sight sight_of L.sight A.fault_count lane.old) (sight sight_of L.sight A.fault_count lane.new) }
        ensures suits { Suits self.now.settings tag.line (asks.Compact volume machine) result }
        ensures fits { FitsReply result }
    {
        for _ in rt.forever() {
            let answer = self.begin_at(rt, alloc, lane, tag, volume, replica);
            let Begin::Begun { generation: _ } = answer else {
                return begin_reply(alloc, volume, machine, answer);
            };
            let ended = self.compact_at(rt, lane, tag, volume, replica);
            match ended {
                Compaction::Idle => {}
                _ => return compaction_reply(alloc, volume, machine, ended),
            }
        }
        unreachable!()
    }
}
