//! The answer of any line but a restart's.
ghost use Rattle.std.specs.Prelude.{◌≡◌, ◌≢◌, ℕ};
ghost use Rattle.hay_script.specs.declared.Command.TheVariants as asks;
ghost use Rattle.hay_script.specs.Script.{IsWithin};
ghost use Rattle.hay_legal.specs.declared.turn.Item.TheVariants as items;
ghost use Rattle.hay_history.specs.Commands.{MayStandInLane};
ghost use Rattle.hay_legal.specs.Suiting.{Suits};
ghost use Rattle.hay_meeting.specs.Acts.{Start};
ghost use Rattle.hay_holdings.specs.Lines.{IsAnswered};
ghost use Rattle.hay_lane.specs.Fuses.{IsUnfused};
ghost use Rattle.hay_lane.specs.Blames.{Blames, causes_told};
ghost use Rattle.hay_lane.specs.Lanes.{IsLaterArm, IsOf, IsSeated, sight};
ghost use Rattle.hay_reply.specs.Fits.{FitsReply};
ghost use Rattle.hay_shared_volume.specs.Seats.{IsSeatOf, WasAt, sight_of};

use crate::calls::DirectoryCalls;
use crate::lane::{Lane, Shared};
use hay_core::CoreTag;
use hay_disk::{Arm, Disk, Piece};
use hay_lanes::Gate;
use hay_reply::Reply;
use hay_script::Command;
use hay_shared_volume::SharedVolume;
use hay_volume_lock::VolumeSeat;
use std::alloc::Global;
use std::sync::Wait;

impl<D: Disk<Piece = P>, P: Piece, L: DirectoryCalls> Shared<SharedVolume<D, P>, L> {
    /// Answers a line of this command. The gate is passed behind a read's look, and where a put holds the home that its pair had.
    pub fn answer<R: Wait, A: Arm<P>, G: Gate>(
        &self,
        rt: &R,
        alloc: Global,
        lane: &mut Lane<VolumeSeat<D, P>, L::Seat, A>,
        tag: CoreTag,
        command: &Command,
        gate: &G,
    ) -> Reply
        requires seated { IsSeated IsSeatOf L.fits self.now tag.lane lane.old }
        requires within { IsWithin command.now }
        requires no_restart { (pick : ℕ) → command.now ≢ asks.Restart pick }
        ensures seated { IsSeated IsSeatOf L.fits self.now tag.lane lane.new }
        ensures same { (start : Start) → IsOf (WasAt D.Tells D.files P.Tells D.fault_count D.fuse_count) L.is_at self.now.settings start lane.old
            → IsOf (WasAt D.Tells D.files P.Tells D.fault_count D.fuse_count) L.is_at self.now.settings start lane.new }
        // A line that a lane may have sets no fuse.
        ensures unfused { MayStandInLane (items.Command command.now) → IsUnfused sight_of L.sight lane.old → IsUnfused sight_of L.sight lane.new }
        ensures arm { IsLaterArm A.is_sure A.fault_count lane.old.arm lane.new.arm }
        ensures answered { (start : Start) → IsOf (WasAt D.Tells D.files P.Tells D.fault_count D.fuse_count) L.is_at self.now.settings start lane.old →
            IsAnswered self.now.settings start self.now.drained.items tag command.now result (sight sight_of L.sight A.fault_count lane.old) (sight sight_of L.sight A.fault_count lane.new) }
        ensures suits { Suits self.now.settings tag.line command.now result }
        // Of what it tells of an arm's failures, each is of the lane's own, in this call.
        ensures blames { Blames A.is_sure A.fault_count lane.old.arm lane.new.arm (causes_told result) }
        ensures fits { FitsReply result }
    {
        match command {
            Command::Put { pair, photo } => {
                self.put(rt, alloc, lane, tag, *pair, photo.as_slice(), gate)
            }
            Command::Read { pair, cookie } => self.read(rt, alloc, lane, tag, *pair, *cookie, gate),
            Command::Get { url } => self.get(rt, alloc, lane, tag, url, gate),
            Command::Del { pair } => self.delete(rt, alloc, lane, tag, *pair),
            Command::Url { pair } => self.url(rt, lane, tag, *pair),
            Command::Flush { volume, machine } => self.flush(
                rt, alloc, lane, tag, *volume, *machine,
            ),
            Command::Compact { volume, machine } => {
                self.compact(rt, alloc, lane, tag, *volume, *machine)
            }
            Command::Begin { volume, machine } => self.begin(
                rt, alloc, lane, tag, *volume, *machine,
            ),
            Command::Step {
                volume,
                machine,
                cells,
            } => self.step(rt, alloc, lane, tag, *volume, *machine, *cells),
            Command::Finish { volume, machine } => {
                self.finish(rt, alloc, lane, tag, *volume, *machine)
            }
            Command::Drain { machine } => self.drain(rt, lane, tag, *machine),
            Command::Undrain { machine } => self.undrain(rt, lane, tag, *machine),
            Command::Fuse {
                volume,
                machine,
                calls,
            } => self.fuse(rt, lane, tag, *volume, *machine, *calls),
            Command::FuseDir { calls } => self.fuse_dir(rt, lane, tag, *calls),
            Command::Restart { pick: _ } => unreachable!(),
        }
    }
}
