//! Flushes, compactions step by step, fuses and drains.
ghost use Rattle.std.specs.Prelude.{◌≡◌};
ghost use Rattle.hay_script.specs.declared.Command.TheVariants as asks;
ghost use Rattle.hay_legal.specs.Suiting.{Suits};
ghost use Rattle.hay_meeting.specs.Acts.{Start};
ghost use Rattle.hay_holdings.specs.Lines.{IsAnswered};
ghost use Rattle.hay_lane.specs.Fuses.{IsUnfused};
ghost use Rattle.hay_lane.specs.Lanes.{IsOf, IsSeated, sight};
ghost use Rattle.hay_reply.specs.Fits.{FitsReply};
ghost use Rattle.hay_shared_volume.specs.Seats.{IsSeatOf, WasAt, sight_of};

use crate::calls::DirectoryCalls;
use crate::lane::{Lane, Shared};
use crate::places::replica_on;
use crate::replies::{begin_reply, finish_reply, flush_reply, step_reply};
use hay_core::CoreTag;
use hay_disk::{Arm, Disk, Piece};
use hay_reply::Reply;
use hay_shared_volume::SharedVolume;
use hay_volume_lock::VolumeSeat;
use std::alloc::Global;
use std::sync::Wait;

impl<D: Disk<Piece = P>, P: Piece, L: DirectoryCalls> Shared<SharedVolume<D, P>, L> {
    /// Gives the cells of a replica without an index record theirs.
    pub fn flush<R: Wait, A: Arm<P>>(
        &self,
        rt: &R,
        alloc: Global,
        lane: &mut Lane<VolumeSeat<D, P>, L::Seat, A>,
        tag: CoreTag,
        volume: u32,
        machine: u32,
    ) -> Reply
        requires seated { IsSeated IsSeatOf L.fits self.now tag.lane lane.old }
        ensures seated { IsSeated IsSeatOf L.fits self.now tag.lane lane.new }
        ensures same { (start : Start) → IsOf (WasAt D.Tells D.files P.Tells D.fault_count D.fuse_count) L.is_at self.now.settings start lane.old
            → IsOf (WasAt D.Tells D.files P.Tells D.fault_count D.fuse_count) L.is_at self.now.settings start lane.new }
        ensures unfused { IsUnfused sight_of L.sight lane.old → IsUnfused sight_of L.sight lane.new }
        ensures arm { lane.new.arm ≡ lane.old.arm }
        ensures answered { (start : Start) → IsOf (WasAt D.Tells D.files P.Tells D.fault_count D.fuse_count) L.is_at self.now.settings start lane.old →
            IsAnswered self.now.settings start self.now.drained.items tag (asks.Flush volume machine) result
            (sight sight_of L.sight A.fault_count lane.old) (sight sight_of L.sight A.fault_count lane.new) }
        ensures suits { Suits self.now.settings tag.line (asks.Flush volume machine) result }
        ensures fits { FitsReply result }
    {
        let Some(replica) = replica_on(&self.settings, volume, machine) else {
            return Reply::Nowhere;
        };
        let answer = self.flush_at(rt, lane, tag, volume, replica);
        flush_reply(alloc, volume, machine, answer)
    }

    /// Begins a compaction.
    pub fn begin<R: Wait, A: Arm<P>>(
        &self,
        rt: &R,
        alloc: Global,
        lane: &mut Lane<VolumeSeat<D, P>, L::Seat, A>,
        tag: CoreTag,
        volume: u32,
        machine: u32,
    ) -> Reply
        requires seated { IsSeated IsSeatOf L.fits self.now tag.lane lane.old }
        ensures seated { IsSeated IsSeatOf L.fits self.now tag.lane lane.new }
        ensures same { (start : Start) → IsOf (WasAt D.Tells D.files P.Tells D.fault_count D.fuse_count) L.is_at self.now.settings start lane.old
            → IsOf (WasAt D.Tells D.files P.Tells D.fault_count D.fuse_count) L.is_at self.now.settings start lane.new }
        ensures arm { lane.new.arm ≡ lane.old.arm }
        ensures answered { (start : Start) → IsOf (WasAt D.Tells D.files P.Tells D.fault_count D.fuse_count) L.is_at self.now.settings start lane.old →
            IsAnswered self.now.settings start self.now.drained.items tag (asks.Begin volume machine) result
            (sight sight_of L.sight A.fault_count lane.old) (sight sight_of L.sight A.fault_count lane.new) }
        ensures suits { Suits self.now.settings tag.line (asks.Begin volume machine) result }
        ensures fits { FitsReply result }
    {
        let Some(replica) = replica_on(&self.settings, volume, machine) else {
            return Reply::Nowhere;
        };
        let answer = self.begin_at(rt, alloc, lane, tag, volume, replica);
        begin_reply(alloc, volume, machine, answer)
    }

    /// Examines so many cells of a compaction that a line of the lane began.
    pub fn step<R: Wait, A: Arm<P>>(
        &self,
        rt: &R,
        alloc: Global,
        lane: &mut Lane<VolumeSeat<D, P>, L::Seat, A>,
        tag: CoreTag,
        volume: u32,
        machine: u32,
        cells: u32,
    ) -> Reply
        requires seated { IsSeated IsSeatOf L.fits self.now tag.lane lane.old }
        ensures seated { IsSeated IsSeatOf L.fits self.now tag.lane lane.new }
        ensures same { (start : Start) → IsOf (WasAt D.Tells D.files P.Tells D.fault_count D.fuse_count) L.is_at self.now.settings start lane.old
            → IsOf (WasAt D.Tells D.files P.Tells D.fault_count D.fuse_count) L.is_at self.now.settings start lane.new }
        ensures arm { lane.new.arm ≡ lane.old.arm }
        ensures answered { (start : Start) → IsOf (WasAt D.Tells D.files P.Tells D.fault_count D.fuse_count) L.is_at self.now.settings start lane.old →
            IsAnswered self.now.settings start self.now.drained.items tag (asks.Step volume machine cells) result
            (sight sight_of L.sight A.fault_count lane.old) (sight sight_of L.sight A.fault_count lane.new) }
        ensures suits { Suits self.now.settings tag.line (asks.Step volume machine cells) result }
        ensures fits { FitsReply result }
    {
        let Some(replica) = replica_on(&self.settings, volume, machine) else {
            return Reply::Nowhere;
        };
        let answer = self.step_at(rt, lane, tag, volume, replica, cells);
        step_reply(alloc, volume, machine, answer)
    }

    /// Finishes it.
    pub fn finish<R: Wait, A: Arm<P>>(
        &self,
        rt: &R,
        alloc: Global,
        lane: &mut Lane<VolumeSeat<D, P>, L::Seat, A>,
        tag: CoreTag,
        volume: u32,
        machine: u32,
    ) -> Reply
        requires seated { IsSeated IsSeatOf L.fits self.now tag.lane lane.old }
        ensures seated { IsSeated IsSeatOf L.fits self.now tag.lane lane.new }
        ensures same { (start : Start) → IsOf (WasAt D.Tells D.files P.Tells D.fault_count D.fuse_count) L.is_at self.now.settings start lane.old
            → IsOf (WasAt D.Tells D.files P.Tells D.fault_count D.fuse_count) L.is_at self.now.settings start lane.new }
        ensures arm { lane.new.arm ≡ lane.old.arm }
        ensures answered { (start : Start) → IsOf (WasAt D.Tells D.files P.Tells D.fault_count D.fuse_count) L.is_at self.now.settings start lane.old →
            IsAnswered self.now.settings start self.now.drained.items tag (asks.Finish volume machine) result
            (sight sight_of L.sight A.fault_count lane.old) (sight sight_of L.sight A.fault_count lane.new) }
        ensures suits { Suits self.now.settings tag.line (asks.Finish volume machine) result }
        ensures fits { FitsReply result }
    {
        let Some(replica) = replica_on(&self.settings, volume, machine) else {
            return Reply::Nowhere;
        };
        let answer = self.finish_at(rt, lane, tag, volume, replica);
        finish_reply(alloc, volume, machine, answer)
    }

    /// Sets a fuse on the disk of the replica of a volume on a machine.
    pub fn fuse<R: Wait, A: Arm<P>>(
        &self,
        rt: &R,
        lane: &mut Lane<VolumeSeat<D, P>, L::Seat, A>,
        tag: CoreTag,
        volume: u32,
        machine: u32,
        calls: u32,
    ) -> Reply
        requires seated { IsSeated IsSeatOf L.fits self.now tag.lane lane.old }
        ensures seated { IsSeated IsSeatOf L.fits self.now tag.lane lane.new }
        ensures same { (start : Start) → IsOf (WasAt D.Tells D.files P.Tells D.fault_count D.fuse_count) L.is_at self.now.settings start lane.old
            → IsOf (WasAt D.Tells D.files P.Tells D.fault_count D.fuse_count) L.is_at self.now.settings start lane.new }
        ensures arm { lane.new.arm ≡ lane.old.arm }
        ensures answered { (start : Start) → IsOf (WasAt D.Tells D.files P.Tells D.fault_count D.fuse_count) L.is_at self.now.settings start lane.old →
            IsAnswered self.now.settings start self.now.drained.items tag (asks.Fuse volume machine calls) result
            (sight sight_of L.sight A.fault_count lane.old) (sight sight_of L.sight A.fault_count lane.new) }
        ensures suits { Suits self.now.settings tag.line (asks.Fuse volume machine calls) result }
        ensures fits { FitsReply result }
    {
        let Some(replica) = replica_on(&self.settings, volume, machine) else {
            return Reply::Nowhere;
        };
        self.fuse_at(rt, lane, tag, volume, replica, calls);
        Reply::Fused {
            volume,
            machine,
            calls,
        }
    }

    /// Sets a fuse on the Directory's disk.
    pub fn fuse_dir<R: Wait, A: Arm<P>>(
        &self,
        rt: &R,
        lane: &mut Lane<VolumeSeat<D, P>, L::Seat, A>,
        tag: CoreTag,
        calls: u32,
    ) -> Reply
        requires seated { IsSeated IsSeatOf L.fits self.now tag.lane lane.old }
        ensures seated { IsSeated IsSeatOf L.fits self.now tag.lane lane.new }
        ensures same { (start : Start) → IsOf (WasAt D.Tells D.files P.Tells D.fault_count D.fuse_count) L.is_at self.now.settings start lane.old
            → IsOf (WasAt D.Tells D.files P.Tells D.fault_count D.fuse_count) L.is_at self.now.settings start lane.new }
        ensures arm { lane.new.arm ≡ lane.old.arm }
        ensures answered { (start : Start) → IsOf (WasAt D.Tells D.files P.Tells D.fault_count D.fuse_count) L.is_at self.now.settings start lane.old →
            IsAnswered self.now.settings start self.now.drained.items tag (asks.FuseDir calls) result (sight sight_of L.sight A.fault_count lane.old) (sight sight_of L.sight A.fault_count lane.new) }
        ensures suits { Suits self.now.settings tag.line (asks.FuseDir calls) result }
        ensures fits { FitsReply result }
    {
        self.fuse_directory(rt, lane, tag, calls);
        Reply::FusedDir { calls }
    }

    /// Closes a machine to changes. The machines that are shared as drained change behind the block.
    pub fn drain<R: Wait, A: Arm<P>>(
        &self,
        rt: &R,
        lane: &mut Lane<VolumeSeat<D, P>, L::Seat, A>,
        tag: CoreTag,
        machine: u32,
    ) -> Reply
        requires seated { IsSeated IsSeatOf L.fits self.now tag.lane lane.old }
        ensures seated { IsSeated IsSeatOf L.fits self.now tag.lane lane.new }
        ensures same { (start : Start) → IsOf (WasAt D.Tells D.files P.Tells D.fault_count D.fuse_count) L.is_at self.now.settings start lane.old
            → IsOf (WasAt D.Tells D.files P.Tells D.fault_count D.fuse_count) L.is_at self.now.settings start lane.new }
        ensures arm { lane.new.arm ≡ lane.old.arm }
        ensures answered { (start : Start) → IsOf (WasAt D.Tells D.files P.Tells D.fault_count D.fuse_count) L.is_at self.now.settings start lane.old →
            IsAnswered self.now.settings start self.now.drained.items tag (asks.Drain machine) result (sight sight_of L.sight A.fault_count lane.old) (sight sight_of L.sight A.fault_count lane.new) }
        ensures suits { Suits self.now.settings tag.line (asks.Drain machine) result }
        ensures fits { FitsReply result }
    {
        if machine >= self.settings.machines {
            return Reply::Nowhere;
        }
        self.drain_machine(rt, lane, tag, machine);
        Reply::Drained { machine }
    }

    /// Opens a machine to changes again.
    pub fn undrain<R: Wait, A: Arm<P>>(
        &self,
        rt: &R,
        lane: &mut Lane<VolumeSeat<D, P>, L::Seat, A>,
        tag: CoreTag,
        machine: u32,
    ) -> Reply
        requires seated { IsSeated IsSeatOf L.fits self.now tag.lane lane.old }
        ensures seated { IsSeated IsSeatOf L.fits self.now tag.lane lane.new }
        ensures same { (start : Start) → IsOf (WasAt D.Tells D.files P.Tells D.fault_count D.fuse_count) L.is_at self.now.settings start lane.old
            → IsOf (WasAt D.Tells D.files P.Tells D.fault_count D.fuse_count) L.is_at self.now.settings start lane.new }
        ensures arm { lane.new.arm ≡ lane.old.arm }
        ensures answered { (start : Start) → IsOf (WasAt D.Tells D.files P.Tells D.fault_count D.fuse_count) L.is_at self.now.settings start lane.old →
            IsAnswered self.now.settings start self.now.drained.items tag (asks.Undrain machine) result
            (sight sight_of L.sight A.fault_count lane.old) (sight sight_of L.sight A.fault_count lane.new) }
        ensures suits { Suits self.now.settings tag.line (asks.Undrain machine) result }
        ensures fits { FitsReply result }
    {
        if machine >= self.settings.machines {
            return Reply::Nowhere;
        }
        self.undrain_machine(rt, lane, tag, machine);
        Reply::Undrained { machine }
    }
}
