//! Deletes, and the URLs of photos.
ghost use Rattle.std.specs.Prelude.{◌≡◌, ◌<◌, Some, None};
ghost use Rattle.hay_script.specs.declared.Command.TheVariants as asks;
ghost use Rattle.hay_legal.specs.Suiting.{IsOn, Suits};
ghost use Rattle.hay_meeting.specs.Acts.{Start};
ghost use Rattle.hay_meeting.specs.Facts.{drained_in};
ghost use Rattle.hay_meeting.specs.Sights.{Sight};
ghost use Rattle.hay_holdings.specs.Lines.{Closes, IsAnswered, Sees};
ghost use Rattle.hay_holdings.specs.Sights.{AtVolume};
ghost use Rattle.hay_lane.specs.Fuses.{IsUnfused};
ghost use Rattle.hay_lane.specs.Lanes.{IsOf, IsSeated, sight};
ghost use Rattle.hay_reply.specs.Fits.{FitsReply};
ghost use Rattle.hay_shared_volume.specs.Seats.{IsSeatOf, WasAt, sight_of};

use crate::calls::DirectoryCalls;
use crate::lane::{Lane, Shared};
use crate::places::{drained_by, start_of};
use crate::replies::{delete_reply, read_only};
use hay_core::CoreTag;
use hay_directory::machine_of;
use hay_disk::{Arm, Disk, Piece};
use hay_needle::Pair;
use hay_reply::Reply;
use hay_shared_volume::SharedVolume;
use hay_url::{Url, cookie_of};
use hay_volume_lock::VolumeSeat;
use std::alloc::Global;
use std::sync::Wait;

impl<D: Disk<Piece = P>, P: Piece, L: DirectoryCalls> Shared<SharedVolume<D, P>, L> {
    /// The URL by which a photo is read.
    pub fn url<R: Wait, A: Arm<P>>(
        &self,
        rt: &R,
        lane: &mut Lane<VolumeSeat<D, P>, L::Seat, A>,
        tag: CoreTag,
        pair: Pair,
    ) -> Reply
        requires seated { IsSeated IsSeatOf L.fits self.now tag.lane lane.old }
        ensures seated { IsSeated IsSeatOf L.fits self.now tag.lane lane.new }
        ensures same { (start : Start) → IsOf (WasAt D.Tells D.files P.Tells D.fault_count D.fuse_count) L.is_at self.now.settings start lane.old
            → IsOf (WasAt D.Tells D.files P.Tells D.fault_count D.fuse_count) L.is_at self.now.settings start lane.new }
        ensures unfused { IsUnfused sight_of L.sight lane.old → IsUnfused sight_of L.sight lane.new }
        ensures arm { lane.new.arm ≡ lane.old.arm }
        ensures answered { (start : Start) → IsOf (WasAt D.Tells D.files P.Tells D.fault_count D.fuse_count) L.is_at self.now.settings start lane.old →
            IsAnswered self.now.settings start self.now.drained.items tag (asks.Url pair) result (sight sight_of L.sight A.fault_count lane.old) (sight sight_of L.sight A.fault_count lane.new) }
        ensures suits { Suits self.now.settings tag.line (asks.Url pair) result }
        ensures fits { FitsReply result }
    {
        let (rows, home) = self.home_in_view(rt, lane, tag, pair);
        let Some(volume) = home else {
            return Reply::Unknown { rows };
        };
        let first = start_of(&self.settings, tag);
        Reply::Url {
            rows,
            url: Url {
                machine: machine_of(&self.settings, volume, first),
                volume,
                pair,
                cookie: cookie_of(&self.settings.secret, pair.key),
            },
        }
    }

    /// Deletes the photo of a pair.
    pub fn delete<R: Wait, A: Arm<P>>(
        &self,
        rt: &R,
        alloc: Global,
        lane: &mut Lane<VolumeSeat<D, P>, L::Seat, A>,
        tag: CoreTag,
        pair: Pair,
    ) -> Reply
        requires seated { IsSeated IsSeatOf L.fits self.now tag.lane lane.old }
        ensures seated { IsSeated IsSeatOf L.fits self.now tag.lane lane.new }
        ensures same { (start : Start) → IsOf (WasAt D.Tells D.files P.Tells D.fault_count D.fuse_count) L.is_at self.now.settings start lane.old
            → IsOf (WasAt D.Tells D.files P.Tells D.fault_count D.fuse_count) L.is_at self.now.settings start lane.new }
        ensures unfused { IsUnfused sight_of L.sight lane.old → IsUnfused sight_of L.sight lane.new }
        ensures arm { lane.new.arm ≡ lane.old.arm }
        ensures answered { (start : Start) → IsOf (WasAt D.Tells D.files P.Tells D.fault_count D.fuse_count) L.is_at self.now.settings start lane.old →
            IsAnswered self.now.settings start self.now.drained.items tag (asks.Del pair) result (sight sight_of L.sight A.fault_count lane.old) (sight sight_of L.sight A.fault_count lane.new) }
        ensures suits { Suits self.now.settings tag.line (asks.Del pair) result }
        ensures fits { FitsReply result }
    {
        let (rows, home) = self.home_in_view(rt, lane, tag, pair);
        let Some(volume) = home else {
            return Reply::Unknown { rows };
        };
        self.delete_home(rt, alloc, lane, tag, pair, volume, rows)
    }

    // Deletes the photo of a pair from its home, which the lane saw at so many rows.
    fn delete_home<R: Wait, A: Arm<P>>(
        &self,
        rt: &R,
        alloc: Global,
        lane: &mut Lane<VolumeSeat<D, P>, L::Seat, A>,
        tag: CoreTag,
        pair: Pair,
        volume: u32,
        rows: u64,
    ) -> Reply
        requires seated { IsSeated IsSeatOf L.fits self.now tag.lane lane.old }
        requires volume { volume < self.now.settings.volumes }
        ensures seated { IsSeated IsSeatOf L.fits self.now tag.lane lane.new }
        ensures same { (start : Start) → IsOf (WasAt D.Tells D.files P.Tells D.fault_count D.fuse_count) L.is_at self.now.settings start lane.old
            → IsOf (WasAt D.Tells D.files P.Tells D.fault_count D.fuse_count) L.is_at self.now.settings start lane.new }
        ensures unfused { IsUnfused sight_of L.sight lane.old → IsUnfused sight_of L.sight lane.new }
        ensures arm { lane.new.arm ≡ lane.old.arm }
        ensures answered { (start : Start) (a : Sight) → IsOf (WasAt D.Tells D.files P.Tells D.fault_count D.fuse_count) L.is_at self.now.settings start lane.old →
            Sees self.now.settings start self.now.drained.items tag pair rows (Some volume) a (sight sight_of L.sight A.fault_count lane.old) →
            IsAnswered self.now.settings start self.now.drained.items tag (asks.Del pair) result a (sight sight_of L.sight A.fault_count lane.new) }
        ensures suits { Suits self.now.settings tag.line (asks.Del pair) result }
        ensures fits { FitsReply result }
    {
        let Some(machine) = drained_by(&self.settings, self.drained.as_slice(), volume) else {
            let answer = self.delete_at(rt, alloc, lane, tag, volume, pair);
            return delete_reply(alloc, volume, rows, answer);
        };
        let machine = self.closed_at(rt, lane, tag, volume, machine);
        read_only(alloc, volume, machine)
    }

    /// The machine by which a volume is closed to changes of which this machine is drained: a freeze goes before a drain.
    pub(crate) fn closed_at<R: Wait, A: Arm<P>>(
        &self,
        rt: &R,
        lane: &mut Lane<VolumeSeat<D, P>, L::Seat, A>,
        tag: CoreTag,
        volume: u32,
        machine: u32,
    ) -> u32
        requires seated { IsSeated IsSeatOf L.fits self.now tag.lane lane.old }
        requires volume { volume < self.now.settings.volumes }
        requires drained { drained_in self.now.settings self.now.drained.items volume ≡ Some machine }
        ensures seated { IsSeated IsSeatOf L.fits self.now tag.lane lane.new }
        ensures same { (start : Start) → IsOf (WasAt D.Tells D.files P.Tells D.fault_count D.fuse_count) L.is_at self.now.settings start lane.old
            → IsOf (WasAt D.Tells D.files P.Tells D.fault_count D.fuse_count) L.is_at self.now.settings start lane.new }
        ensures unfused { IsUnfused sight_of L.sight lane.old → IsUnfused sight_of L.sight lane.new }
        ensures arm { lane.new.arm ≡ lane.old.arm }
        ensures on { IsOn self.now.settings volume result }
        ensures tells { (start : Start) → IsOf (WasAt D.Tells D.files P.Tells D.fault_count D.fuse_count) L.is_at self.now.settings start lane.old →
            AtVolume volume (Closes self.now.settings start self.now.drained.items volume tag result) (sight sight_of L.sight A.fault_count lane.old) (sight sight_of L.sight A.fault_count lane.new) }
    {
        match self.frozen_at(rt, lane, tag, volume) {
            Some(frozen) => frozen,
            None => machine,
        }
    }
}
