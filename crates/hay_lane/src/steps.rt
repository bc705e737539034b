//! One call of a line, as a step of its lane.
ghost use Rattle.std.specs.Prelude.{◌≡◌, ◌⊎◌, [], ◌<◌, ◌≤◌, true, false, length, IfOk, IfSome};
ghost use Rattle.hay_meeting.specs.Acts.{Start};
ghost use Rattle.hay_holdings.specs.Rows.{Drained, FusedDir, HomeShown};
ghost use Rattle.hay_holdings.specs.Sights.{AtDirectory, AtVolume};
ghost use Rattle.hay_lane.specs.Fuses.{IsUnfused};
ghost use Rattle.hay_lane.specs.Lanes.{IsOf, IsSeated, sight};
ghost use Rattle.hay_map.specs.Places.{place_in};
ghost use Rattle.hay_reader.specs.Tried.{CanShow};
ghost use Rattle.hay_shared_volume.specs.Looks.{LookTells, SeeTells, WasSeen};
ghost use Rattle.hay_logical.specs.Volumes.{IsMachineOf};
ghost use Rattle.hay_shared_volume.specs.Naming.{NamesBegin, NamesCompaction, NamesDelete, NamesFinish, NamesFlush, NamesPut, NamesRoom, NamesStep};
ghost use Rattle.hay_shared_volume.specs.Tellings.{BeginTells, CompactionTells, DeleteTells, FinishTells, FlushTells, FrozenTells, FuseTells, PutTells, RoomTells, StepTells};
ghost use Rattle.hay_lane.specs.Tellings.{SettleTells};
ghost use Rattle.hay_shared_volume.specs.Seats.{IsSeatOf, WasAt, sight_of};

use crate::calls::DirectoryCalls;
use crate::lane::{Lane, Shared};
use hay_core::CoreTag;
use hay_directory::DirFault;
use hay_disk::{Arm, Disk, Piece};
use hay_lanes::Gate;
use hay_needle::{Cookie, MAX_PHOTO, Pair};
use hay_shared_volume::{
    Begin, Compaction, Delete, Finish, Flush, Looked, Put, Room, SharedVolume, SightFault, Step,
};
use hay_volume_lock::VolumeSeat;
use std::alloc::Global;
use std::sync::Wait;

impl<D: Disk<Piece = P>, P: Piece, L: DirectoryCalls> Shared<SharedVolume<D, P>, L> {
    /// The places of a pair's photo in a volume that the lane is shown.
    pub(crate) fn look_at<R: Wait, A: Arm<P>>(
        &self,
        rt: &R,
        lane: &mut Lane<VolumeSeat<D, P>, L::Seat, A>,
        tag: CoreTag,
        volume: u32,
        pair: Pair,
    ) -> Looked<P>
        requires seated { IsSeated IsSeatOf L.fits self.now tag.lane lane.old }
        requires volume { volume < self.now.settings.volumes }
        ensures seated { IsSeated IsSeatOf L.fits self.now tag.lane lane.new }
        ensures same { (start : Start) → IsOf (WasAt D.Tells D.files P.Tells D.fault_count D.fuse_count) L.is_at self.now.settings start lane.old
            → IsOf (WasAt D.Tells D.files P.Tells D.fault_count D.fuse_count) L.is_at self.now.settings start lane.new }
        ensures unfused { IsUnfused sight_of L.sight lane.old → IsUnfused sight_of L.sight lane.new }
        ensures arm { lane.new.arm ≡ lane.old.arm }
        ensures long { length result.row ≡ self.now.settings.replicas }
        ensures tells { (start : Start) → IsOf (WasAt D.Tells D.files P.Tells D.fault_count D.fuse_count) L.is_at self.now.settings start lane.old →
            AtVolume volume (LookTells P.Tells (record { settings = self.now.settings; start = start; number = volume }) pair result)
            (sight sight_of L.sight A.fault_count lane.old) (sight sight_of L.sight A.fault_count lane.new) }
    {
        let seat = &mut lane.volumes.as_mut_slice()[volume as usize];
        self.volumes.as_slice()[volume as usize].look(rt, seat, pair)
    }

    /// Sees the place of a pair's photo on a replica of a volume.
    pub(crate) fn see_at<R: Wait, A: Arm<P>>(
        &self,
        rt: &R,
        lane: &mut Lane<VolumeSeat<D, P>, L::Seat, A>,
        tag: CoreTag,
        volume: u32,
        pair: Pair,
        replica: u32,
        out: &mut Vec<u8>,
    ) -> Result<Looked<P>, SightFault>
        requires seated { IsSeated IsSeatOf L.fits self.now tag.lane lane.old }
        requires volume { volume < self.now.settings.volumes }
        requires replica { replica < self.now.settings.replicas }
        requires empty { out.old.items ≡ [] }
        ensures seated { IsSeated IsSeatOf L.fits self.now tag.lane lane.new }
        ensures same { (start : Start) → IsOf (WasAt D.Tells D.files P.Tells D.fault_count D.fuse_count) L.is_at self.now.settings start lane.old
            → IsOf (WasAt D.Tells D.files P.Tells D.fault_count D.fuse_count) L.is_at self.now.settings start lane.new }
        ensures unfused { IsUnfused sight_of L.sight lane.old → IsUnfused sight_of L.sight lane.new }
        ensures arm { lane.new.arm ≡ lane.old.arm }
        ensures long { IfOk result (λ looked. length looked.row ≡ self.now.settings.replicas) }
        ensures seen { IfOk result (λ looked. WasSeen (place_in looked.row replica)) }
        ensures needle { IfOk result (λ looked. (out.new.items ≡ []) ⊎ CanShow out.new.items (place_in looked.row replica)) }
        ensures tells { (start : Start) → IsOf (WasAt D.Tells D.files P.Tells D.fault_count D.fuse_count) L.is_at self.now.settings start lane.old →
            AtVolume volume (SeeTells P.Tells (record { settings = self.now.settings; start = start; number = volume }) pair tag replica out.new.items result)
            (sight sight_of L.sight A.fault_count lane.old) (sight sight_of L.sight A.fault_count lane.new) }
    {
        let seat = &mut lane.volumes.as_mut_slice()[volume as usize];
        self.volumes.as_slice()[volume as usize].see(rt, seat, tag, pair, replica, out)
    }

    /// The machine by which a volume is frozen.
    pub(crate) fn frozen_at<R: Wait, A: Arm<P>>(
        &self,
        rt: &R,
        lane: &mut Lane<VolumeSeat<D, P>, L::Seat, A>,
        tag: CoreTag,
        volume: u32,
    ) -> Option<u32>
        requires seated { IsSeated IsSeatOf L.fits self.now tag.lane lane.old }
        requires volume { volume < self.now.settings.volumes }
        ensures seated { IsSeated IsSeatOf L.fits self.now tag.lane lane.new }
        ensures same { (start : Start) → IsOf (WasAt D.Tells D.files P.Tells D.fault_count D.fuse_count) L.is_at self.now.settings start lane.old
            → IsOf (WasAt D.Tells D.files P.Tells D.fault_count D.fuse_count) L.is_at self.now.settings start lane.new }
        ensures unfused { IsUnfused sight_of L.sight lane.old → IsUnfused sight_of L.sight lane.new }
        ensures arm { lane.new.arm ≡ lane.old.arm }
        ensures names { IfSome result (IsMachineOf self.now.settings volume) }
        ensures tells { (start : Start) → IsOf (WasAt D.Tells D.files P.Tells D.fault_count D.fuse_count) L.is_at self.now.settings start lane.old →
            AtVolume volume (FrozenTells (record { settings = self.now.settings; start = start; number = volume }) tag result)
            (sight sight_of L.sight A.fault_count lane.old) (sight sight_of L.sight A.fault_count lane.new) }
    {
        let seat = &mut lane.volumes.as_mut_slice()[volume as usize];
        self.volumes.as_slice()[volume as usize].frozen(rt, seat, tag)
    }

    /// Whether a photo of this size has room in a volume.
    pub(crate) fn room_at<R: Wait, A: Arm<P>>(
        &self,
        rt: &R,
        lane: &mut Lane<VolumeSeat<D, P>, L::Seat, A>,
        tag: CoreTag,
        volume: u32,
        size: u32,
    ) -> Room
        requires seated { IsSeated IsSeatOf L.fits self.now tag.lane lane.old }
        requires volume { volume < self.now.settings.volumes }
        requires size { size ≤ MAX_PHOTO }
        ensures seated { IsSeated IsSeatOf L.fits self.now tag.lane lane.new }
        ensures same { (start : Start) → IsOf (WasAt D.Tells D.files P.Tells D.fault_count D.fuse_count) L.is_at self.now.settings start lane.old
            → IsOf (WasAt D.Tells D.files P.Tells D.fault_count D.fuse_count) L.is_at self.now.settings start lane.new }
        ensures unfused { IsUnfused sight_of L.sight lane.old → IsUnfused sight_of L.sight lane.new }
        ensures arm { lane.new.arm ≡ lane.old.arm }
        ensures names { NamesRoom self.now.settings volume size result }
        ensures tells { (start : Start) → IsOf (WasAt D.Tells D.files P.Tells D.fault_count D.fuse_count) L.is_at self.now.settings start lane.old →
            AtVolume volume (RoomTells (record { settings = self.now.settings; start = start; number = volume }) tag size result)
            (sight sight_of L.sight A.fault_count lane.old) (sight sight_of L.sight A.fault_count lane.new) }
    {
        let seat = &mut lane.volumes.as_mut_slice()[volume as usize];
        self.volumes.as_slice()[volume as usize].room(rt, seat, tag, size)
    }

    /// Stores a photo in a volume. The gate is passed while the volume is held, and nothing is written yet.
    pub(crate) fn put_at<R: Wait, A: Arm<P>, G: Gate>(
        &self,
        rt: &R,
        alloc: Global,
        lane: &mut Lane<VolumeSeat<D, P>, L::Seat, A>,
        tag: CoreTag,
        volume: u32,
        pair: Pair,
        cookie: Cookie,
        bytes: &[u8],
        gate: &G,
    ) -> Put
        requires seated { IsSeated IsSeatOf L.fits self.now tag.lane lane.old }
        requires volume { volume < self.now.settings.volumes }
        requires size { length bytes.now ≤ MAX_PHOTO }
        ensures seated { IsSeated IsSeatOf L.fits self.now tag.lane lane.new }
        ensures same { (start : Start) → IsOf (WasAt D.Tells D.files P.Tells D.fault_count D.fuse_count) L.is_at self.now.settings start lane.old
            → IsOf (WasAt D.Tells D.files P.Tells D.fault_count D.fuse_count) L.is_at self.now.settings start lane.new }
        ensures unfused { IsUnfused sight_of L.sight lane.old → IsUnfused sight_of L.sight lane.new }
        ensures arm { lane.new.arm ≡ lane.old.arm }
        ensures names { NamesPut self.now.settings volume (length bytes.now) result }
        ensures tells { (start : Start) → IsOf (WasAt D.Tells D.files P.Tells D.fault_count D.fuse_count) L.is_at self.now.settings start lane.old →
            AtVolume volume (PutTells (record { settings = self.now.settings; start = start; number = volume }) tag pair cookie bytes.now result)
            (sight sight_of L.sight A.fault_count lane.old) (sight sight_of L.sight A.fault_count lane.new) }
    {
        let seat = &mut lane.volumes.as_mut_slice()[volume as usize];
        self.volumes.as_slice()[volume as usize].put(
            rt, alloc, seat, tag, pair, cookie, bytes, gate,
        )
    }

    /// Deletes a pair's photo from a volume.
    pub(crate) fn delete_at<R: Wait, A: Arm<P>>(
        &self,
        rt: &R,
        alloc: Global,
        lane: &mut Lane<VolumeSeat<D, P>, L::Seat, A>,
        tag: CoreTag,
        volume: u32,
        pair: Pair,
    ) -> Delete
        requires seated { IsSeated IsSeatOf L.fits self.now tag.lane lane.old }
        requires volume { volume < self.now.settings.volumes }
        ensures seated { IsSeated IsSeatOf L.fits self.now tag.lane lane.new }
        ensures same { (start : Start) → IsOf (WasAt D.Tells D.files P.Tells D.fault_count D.fuse_count) L.is_at self.now.settings start lane.old
            → IsOf (WasAt D.Tells D.files P.Tells D.fault_count D.fuse_count) L.is_at self.now.settings start lane.new }
        ensures unfused { IsUnfused sight_of L.sight lane.old → IsUnfused sight_of L.sight lane.new }
        ensures arm { lane.new.arm ≡ lane.old.arm }
        ensures names { NamesDelete self.now.settings volume result }
        ensures tells { (start : Start) → IsOf (WasAt D.Tells D.files P.Tells D.fault_count D.fuse_count) L.is_at self.now.settings start lane.old →
            AtVolume volume (DeleteTells (record { settings = self.now.settings; start = start; number = volume }) tag pair result)
            (sight sight_of L.sight A.fault_count lane.old) (sight sight_of L.sight A.fault_count lane.new) }
    {
        let seat = &mut lane.volumes.as_mut_slice()[volume as usize];
        self.volumes.as_slice()[volume as usize].delete(rt, alloc, seat, tag, pair)
    }

    /// Flushes a replica of a volume.
    pub(crate) fn flush_at<R: Wait, A: Arm<P>>(
        &self,
        rt: &R,
        lane: &mut Lane<VolumeSeat<D, P>, L::Seat, A>,
        tag: CoreTag,
        volume: u32,
        replica: u32,
    ) -> Flush
        requires seated { IsSeated IsSeatOf L.fits self.now tag.lane lane.old }
        requires volume { volume < self.now.settings.volumes }
        requires replica { replica < self.now.settings.replicas }
        ensures seated { IsSeated IsSeatOf L.fits self.now tag.lane lane.new }
        ensures same { (start : Start) → IsOf (WasAt D.Tells D.files P.Tells D.fault_count D.fuse_count) L.is_at self.now.settings start lane.old
            → IsOf (WasAt D.Tells D.files P.Tells D.fault_count D.fuse_count) L.is_at self.now.settings start lane.new }
        ensures unfused { IsUnfused sight_of L.sight lane.old → IsUnfused sight_of L.sight lane.new }
        ensures arm { lane.new.arm ≡ lane.old.arm }
        ensures names { NamesFlush self.now.settings volume result }
        ensures tells { (start : Start) → IsOf (WasAt D.Tells D.files P.Tells D.fault_count D.fuse_count) L.is_at self.now.settings start lane.old →
            AtVolume volume (FlushTells (record { settings = self.now.settings; start = start; number = volume }) tag replica result)
            (sight sight_of L.sight A.fault_count lane.old) (sight sight_of L.sight A.fault_count lane.new) }
    {
        let seat = &mut lane.volumes.as_mut_slice()[volume as usize];
        self.volumes.as_slice()[volume as usize].flush(rt, seat, tag, replica)
    }

    /// Sets a fuse on the disk of a replica of a volume.
    pub(crate) fn fuse_at<R: Wait, A: Arm<P>>(
        &self,
        rt: &R,
        lane: &mut Lane<VolumeSeat<D, P>, L::Seat, A>,
        tag: CoreTag,
        volume: u32,
        replica: u32,
        calls: u32,
    )
        requires seated { IsSeated IsSeatOf L.fits self.now tag.lane lane.old }
        requires volume { volume < self.now.settings.volumes }
        requires replica { replica < self.now.settings.replicas }
        ensures seated { IsSeated IsSeatOf L.fits self.now tag.lane lane.new }
        ensures same { (start : Start) → IsOf (WasAt D.Tells D.files P.Tells D.fault_count D.fuse_count) L.is_at self.now.settings start lane.old
            → IsOf (WasAt D.Tells D.files P.Tells D.fault_count D.fuse_count) L.is_at self.now.settings start lane.new }
        ensures arm { lane.new.arm ≡ lane.old.arm }
        ensures tells { (start : Start) → IsOf (WasAt D.Tells D.files P.Tells D.fault_count D.fuse_count) L.is_at self.now.settings start lane.old →
            AtVolume volume (FuseTells (record { settings = self.now.settings; start = start; number = volume }) tag replica)
            (sight sight_of L.sight A.fault_count lane.old) (sight sight_of L.sight A.fault_count lane.new) }
    {
        let seat = &mut lane.volumes.as_mut_slice()[volume as usize];
        self.volumes.as_slice()[volume as usize].fuse(rt, seat, tag, replica, calls);
    }

    /// Begins a compaction of a replica of a volume.
    pub(crate) fn begin_at<R: Wait, A: Arm<P>>(
        &self,
        rt: &R,
        alloc: Global,
        lane: &mut Lane<VolumeSeat<D, P>, L::Seat, A>,
        tag: CoreTag,
        volume: u32,
        replica: u32,
    ) -> Begin
        requires seated { IsSeated IsSeatOf L.fits self.now tag.lane lane.old }
        requires volume { volume < self.now.settings.volumes }
        requires replica { replica < self.now.settings.replicas }
        ensures seated { IsSeated IsSeatOf L.fits self.now tag.lane lane.new }
        ensures same { (start : Start) → IsOf (WasAt D.Tells D.files P.Tells D.fault_count D.fuse_count) L.is_at self.now.settings start lane.old
            → IsOf (WasAt D.Tells D.files P.Tells D.fault_count D.fuse_count) L.is_at self.now.settings start lane.new }
        ensures unfused { IsUnfused sight_of L.sight lane.old → IsUnfused sight_of L.sight lane.new }
        ensures arm { lane.new.arm ≡ lane.old.arm }
        ensures names { NamesBegin self.now.settings volume result }
        ensures tells { (start : Start) → IsOf (WasAt D.Tells D.files P.Tells D.fault_count D.fuse_count) L.is_at self.now.settings start lane.old →
            AtVolume volume (BeginTells (record { settings = self.now.settings; start = start; number = volume }) tag replica result)
            (sight sight_of L.sight A.fault_count lane.old) (sight sight_of L.sight A.fault_count lane.new) }
    {
        let seat = &mut lane.volumes.as_mut_slice()[volume as usize];
        self.volumes.as_slice()[volume as usize].begin(rt, alloc, seat, tag, replica)
    }

    /// Examines so many cells for a compaction.
    pub(crate) fn step_at<R: Wait, A: Arm<P>>(
        &self,
        rt: &R,
        lane: &mut Lane<VolumeSeat<D, P>, L::Seat, A>,
        tag: CoreTag,
        volume: u32,
        replica: u32,
        cells: u32,
    ) -> Step
        requires seated { IsSeated IsSeatOf L.fits self.now tag.lane lane.old }
        requires volume { volume < self.now.settings.volumes }
        requires replica { replica < self.now.settings.replicas }
        ensures seated { IsSeated IsSeatOf L.fits self.now tag.lane lane.new }
        ensures same { (start : Start) → IsOf (WasAt D.Tells D.files P.Tells D.fault_count D.fuse_count) L.is_at self.now.settings start lane.old
            → IsOf (WasAt D.Tells D.files P.Tells D.fault_count D.fuse_count) L.is_at self.now.settings start lane.new }
        ensures arm { lane.new.arm ≡ lane.old.arm }
        ensures names { NamesStep self.now.settings volume result }
        ensures tells { (start : Start) → IsOf (WasAt D.Tells D.files P.Tells D.fault_count D.fuse_count) L.is_at self.now.settings start lane.old →
            AtVolume volume (StepTells (record { settings = self.now.settings; start = start; number = volume }) tag replica cells result)
            (sight sight_of L.sight A.fault_count lane.old) (sight sight_of L.sight A.fault_count lane.new) }
    {
        let seat = &mut lane.volumes.as_mut_slice()[volume as usize];
        self.volumes.as_slice()[volume as usize].step(rt, seat, tag, replica, cells)
    }

    /// Finishes a compaction.
    pub(crate) fn finish_at<R: Wait, A: Arm<P>>(
        &self,
        rt: &R,
        lane: &mut Lane<VolumeSeat<D, P>, L::Seat, A>,
        tag: CoreTag,
        volume: u32,
        replica: u32,
    ) -> Finish
        requires seated { IsSeated IsSeatOf L.fits self.now tag.lane lane.old }
        requires volume { volume < self.now.settings.volumes }
        requires replica { replica < self.now.settings.replicas }
        ensures seated { IsSeated IsSeatOf L.fits self.now tag.lane lane.new }
        ensures same { (start : Start) → IsOf (WasAt D.Tells D.files P.Tells D.fault_count D.fuse_count) L.is_at self.now.settings start lane.old
            → IsOf (WasAt D.Tells D.files P.Tells D.fault_count D.fuse_count) L.is_at self.now.settings start lane.new }
        ensures arm { lane.new.arm ≡ lane.old.arm }
        ensures names { NamesFinish self.now.settings volume result }
        ensures tells { (start : Start) → IsOf (WasAt D.Tells D.files P.Tells D.fault_count D.fuse_count) L.is_at self.now.settings start lane.old →
            AtVolume volume (FinishTells (record { settings = self.now.settings; start = start; number = volume }) tag replica result)
            (sight sight_of L.sight A.fault_count lane.old) (sight sight_of L.sight A.fault_count lane.new) }
    {
        let seat = &mut lane.volumes.as_mut_slice()[volume as usize];
        self.volumes.as_slice()[volume as usize].finish(rt, seat, tag, replica)
    }

    /// Finishes the compaction that the line itself began.
    pub(crate) fn compact_at<R: Wait, A: Arm<P>>(
        &self,
        rt: &R,
        lane: &mut Lane<VolumeSeat<D, P>, L::Seat, A>,
        tag: CoreTag,
        volume: u32,
        replica: u32,
    ) -> Compaction
        requires seated { IsSeated IsSeatOf L.fits self.now tag.lane lane.old }
        requires volume { volume < self.now.settings.volumes }
        requires replica { replica < self.now.settings.replicas }
        ensures seated { IsSeated IsSeatOf L.fits self.now tag.lane lane.new }
        ensures same { (start : Start) → IsOf (WasAt D.Tells D.files P.Tells D.fault_count D.fuse_count) L.is_at self.now.settings start lane.old
            → IsOf (WasAt D.Tells D.files P.Tells D.fault_count D.fuse_count) L.is_at self.now.settings start lane.new }
        ensures unfused { IsUnfused sight_of L.sight lane.old → IsUnfused sight_of L.sight lane.new }
        ensures arm { lane.new.arm ≡ lane.old.arm }
        ensures names { NamesCompaction self.now.settings volume result }
        ensures tells { (start : Start) → IsOf (WasAt D.Tells D.files P.Tells D.fault_count D.fuse_count) L.is_at self.now.settings start lane.old →
            AtVolume volume (CompactionTells (record { settings = self.now.settings; start = start; number = volume }) tag replica result)
            (sight sight_of L.sight A.fault_count lane.old) (sight sight_of L.sight A.fault_count lane.new) }
    {
        let seat = &mut lane.volumes.as_mut_slice()[volume as usize];
        self.volumes.as_slice()[volume as usize].compact(rt, seat, tag, replica)
    }

    /// How many rows there are, and the home of a pair among them.
    pub(crate) fn home_in_view<R: Wait, A: Arm<P>>(
        &self,
        rt: &R,
        lane: &mut Lane<VolumeSeat<D, P>, L::Seat, A>,
        tag: CoreTag,
        pair: Pair,
    ) -> (u64, Option<u32>)
        requires seated { IsSeated IsSeatOf L.fits self.now tag.lane lane.old }
        ensures seated { IsSeated IsSeatOf L.fits self.now tag.lane lane.new }
        ensures same { (start : Start) → IsOf (WasAt D.Tells D.files P.Tells D.fault_count D.fuse_count) L.is_at self.now.settings start lane.old
            → IsOf (WasAt D.Tells D.files P.Tells D.fault_count D.fuse_count) L.is_at self.now.settings start lane.new }
        ensures unfused { IsUnfused sight_of L.sight lane.old → IsUnfused sight_of L.sight lane.new }
        ensures arm { lane.new.arm ≡ lane.old.arm }
        ensures below { IfSome result.1 (λ home. home < self.now.settings.volumes) }
        ensures tells { (start : Start) → IsOf (WasAt D.Tells D.files P.Tells D.fault_count D.fuse_count) L.is_at self.now.settings start lane.old →
            AtDirectory (HomeShown start pair result.0 result.1) (sight sight_of L.sight A.fault_count lane.old) (sight sight_of L.sight A.fault_count lane.new) }
    {
        self.directory.home(rt, &mut lane.directory, pair)
    }

    /// Gives a pair a home, unless it has one.
    pub(crate) fn settle_home<R: Wait, A: Arm<P>>(
        &self,
        rt: &R,
        lane: &mut Lane<VolumeSeat<D, P>, L::Seat, A>,
        tag: CoreTag,
        pair: Pair,
        volume: u32,
    ) -> Result<(u32, u64), DirFault>
        requires seated { IsSeated IsSeatOf L.fits self.now tag.lane lane.old }
        requires volume { volume < self.now.settings.volumes }
        ensures seated { IsSeated IsSeatOf L.fits self.now tag.lane lane.new }
        ensures same { (start : Start) → IsOf (WasAt D.Tells D.files P.Tells D.fault_count D.fuse_count) L.is_at self.now.settings start lane.old
            → IsOf (WasAt D.Tells D.files P.Tells D.fault_count D.fuse_count) L.is_at self.now.settings start lane.new }
        ensures unfused { IsUnfused sight_of L.sight lane.old → IsUnfused sight_of L.sight lane.new }
        ensures arm { lane.new.arm ≡ lane.old.arm }
        ensures below { IfOk result (λ answer. answer.0 < self.now.settings.volumes) }
        ensures tells { (start : Start) → IsOf (WasAt D.Tells D.files P.Tells D.fault_count D.fuse_count) L.is_at self.now.settings start lane.old →
            AtDirectory (SettleTells start tag (record { pair = pair; volume = volume }) result) (sight sight_of L.sight A.fault_count lane.old) (sight sight_of L.sight A.fault_count lane.new) }
    {
        self.directory
            .settle(rt, &mut lane.directory, tag, pair, volume)
    }

    /// Closes a machine to changes.
    pub(crate) fn drain_machine<R: Wait, A: Arm<P>>(
        &self,
        rt: &R,
        lane: &mut Lane<VolumeSeat<D, P>, L::Seat, A>,
        tag: CoreTag,
        machine: u32,
    )
        requires seated { IsSeated IsSeatOf L.fits self.now tag.lane lane.old }
        requires machine { machine < self.now.settings.machines }
        ensures seated { IsSeated IsSeatOf L.fits self.now tag.lane lane.new }
        ensures same { (start : Start) → IsOf (WasAt D.Tells D.files P.Tells D.fault_count D.fuse_count) L.is_at self.now.settings start lane.old
            → IsOf (WasAt D.Tells D.files P.Tells D.fault_count D.fuse_count) L.is_at self.now.settings start lane.new }
        ensures arm { lane.new.arm ≡ lane.old.arm }
        ensures tells { (start : Start) → IsOf (WasAt D.Tells D.files P.Tells D.fault_count D.fuse_count) L.is_at self.now.settings start lane.old →
            AtDirectory (Drained start tag machine true) (sight sight_of L.sight A.fault_count lane.old) (sight sight_of L.sight A.fault_count lane.new) }
    {
        self.directory.drain(rt, &mut lane.directory, tag, machine);
    }

    /// Opens a machine to changes again.
    pub(crate) fn undrain_machine<R: Wait, A: Arm<P>>(
        &self,
        rt: &R,
        lane: &mut Lane<VolumeSeat<D, P>, L::Seat, A>,
        tag: CoreTag,
        machine: u32,
    )
        requires seated { IsSeated IsSeatOf L.fits self.now tag.lane lane.old }
        requires machine { machine < self.now.settings.machines }
        ensures seated { IsSeated IsSeatOf L.fits self.now tag.lane lane.new }
        ensures same { (start : Start) → IsOf (WasAt D.Tells D.files P.Tells D.fault_count D.fuse_count) L.is_at self.now.settings start lane.old
            → IsOf (WasAt D.Tells D.files P.Tells D.fault_count D.fuse_count) L.is_at self.now.settings start lane.new }
        ensures arm { lane.new.arm ≡ lane.old.arm }
        ensures tells { (start : Start) → IsOf (WasAt D.Tells D.files P.Tells D.fault_count D.fuse_count) L.is_at self.now.settings start lane.old →
            AtDirectory (Drained start tag machine false) (sight sight_of L.sight A.fault_count lane.old) (sight sight_of L.sight A.fault_count lane.new) }
    {
        self.directory
            .undrain(rt, &mut lane.directory, tag, machine);
    }

    /// Sets a fuse on the Directory's disk.
    pub(crate) fn fuse_directory<R: Wait, A: Arm<P>>(
        &self,
        rt: &R,
        lane: &mut Lane<VolumeSeat<D, P>, L::Seat, A>,
        tag: CoreTag,
        calls: u32,
    )
        requires seated { IsSeated IsSeatOf L.fits self.now tag.lane lane.old }
        ensures seated { IsSeated IsSeatOf L.fits self.now tag.lane lane.new }
        ensures same { (start : Start) → IsOf (WasAt D.Tells D.files P.Tells D.fault_count D.fuse_count) L.is_at self.now.settings start lane.old
            → IsOf (WasAt D.Tells D.files P.Tells D.fault_count D.fuse_count) L.is_at self.now.settings start lane.new }
        ensures arm { lane.new.arm ≡ lane.old.arm }
        ensures tells { (start : Start) → IsOf (WasAt D.Tells D.files P.Tells D.fault_count D.fuse_count) L.is_at self.now.settings start lane.old →
            AtDirectory (FusedDir start tag) (sight sight_of L.sight A.fault_count lane.old) (sight sight_of L.sight A.fault_count lane.new) }
    {
        self.directory.fuse(rt, &mut lane.directory, tag, calls);
    }
}
