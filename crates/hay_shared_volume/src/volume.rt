//! A volume's lock that lanes share.
ghost use Rattle.std.specs.Prelude.{◌≡◌, ◌⊎◌, ◌≤◌, ◌<◌, [], ℕ, IfOk, IfSome, length};
ghost use Rattle.hay_map.specs.Places.{place_in};
ghost use Rattle.hay_needle.specs.declared.settings.Settings.{Settings};
ghost use Rattle.hay_logical.specs.Volumes.{IsMachineOf};
ghost use Rattle.hay_reader.specs.Tried.{CanShow};
ghost use Rattle.hay_volume_lock.specs.Acts.{SetNoFuse};
ghost use Rattle.hay_shared_volume.specs.Looks.{LookTells, SeeTells, WasSeen};
ghost use Rattle.hay_shared_volume.specs.Naming.{NamesBegin, NamesCompaction, NamesDelete, NamesFinish, NamesFlush, NamesPut, NamesRoom, NamesStep};
ghost use Rattle.hay_shared_volume.specs.Seats.{IsSeatOf, WasAt};
ghost use Rattle.hay_shared_volume.specs.Tellings.{BeginTells, CompactionTells, DeleteTells, FinishTells, FlushTells, FrozenTells, FuseTells, PutTells, RoomTells, Stays, StepTells, StoreVolume};

use crate::answers::{
    Begin, Compaction, Delete, Finish, Flush, Looked, Put, Room, SightFault, Step,
};
use crate::words::{
    begin_of, compaction_of, delete_of, finish_of, flush_of, looked_of, put_of, room_of,
    sight_fault_of, step_of,
};
use hay_core::CoreTag;
use hay_disk::{Disk, Piece};
use hay_lanes::Gate;
use hay_needle::{Cookie, MAX_PHOTO, Pair, Settings};
use hay_volume_lock::{VolumeLock, VolumeSeat};
use std::alloc::Global;
use std::snapshot::Snapshot;
use std::sync::Wait;

/// A volume's lock that lanes share, and what its first seat was when it was made, for clauses alone.
pub struct SharedVolume<D: Disk<Piece = P>, P: Piece> {
    pub settings: Settings,
    pub lock: VolumeLock<D, P>,
    pub first: Snapshot<VolumeSeat<D, P>>,
}

/// Each call holds the volume once, for a line of the seat's lane. But for `fuse`, none sets a fuse.
impl<D: Disk<Piece = P>, P: Piece> SharedVolume<D, P> {
    /// The places of a pair's photo that the seat is shown, without the lock.
    pub fn look<R: Wait>(&self, rt: &R, seat: &mut VolumeSeat<D, P>, pair: Pair) -> Looked<P>
        requires fits { (v : ℕ) × (settings : Settings) × (lane : ℕ) × IsSeatOf v self.now settings lane seat.old }
        ensures stays { (v : ℕ) → Stays (IsSeatOf v) (WasAt D.Tells D.files P.Tells D.fault_count D.fuse_count) self.now seat.old seat.new }
        ensures unfused { SetNoFuse seat.old.sight.own → SetNoFuse seat.new.sight.own }
        ensures long { (v : ℕ) (settings : Settings) (lane : ℕ) → IsSeatOf v self.now settings lane seat.old → length result.row ≡ settings.replicas }
        ensures tells { (volume : StoreVolume) → WasAt D.Tells D.files P.Tells D.fault_count D.fuse_count seat.old volume → LookTells P.Tells volume pair result seat.old.sight seat.new.sight }
    {
        looked_of(seat.look(rt, pair))
    }

    /// Sees the place of a pair's photo on a replica, by its needle, which `out` then has. A place that had been seen is left as it
    /// is, and `out` too.
    pub fn see<R: Wait>(
        &self,
        rt: &R,
        seat: &mut VolumeSeat<D, P>,
        tag: CoreTag,
        pair: Pair,
        replica: u32,
        out: &mut Vec<u8>,
    ) -> Result<Looked<P>, SightFault>
        requires fits { (v : ℕ) × (settings : Settings) × IsSeatOf v self.now settings tag.lane seat.old × (replica < settings.replicas) }
        requires empty { out.old.items ≡ [] }
        ensures stays { (v : ℕ) → Stays (IsSeatOf v) (WasAt D.Tells D.files P.Tells D.fault_count D.fuse_count) self.now seat.old seat.new }
        ensures unfused { SetNoFuse seat.old.sight.own → SetNoFuse seat.new.sight.own }
        ensures long { (v : ℕ) (settings : Settings) (lane : ℕ) → IsSeatOf v self.now settings lane seat.old → IfOk result (λ looked. length looked.row ≡ settings.replicas) }
        ensures seen { IfOk result (λ looked. WasSeen (place_in looked.row replica)) }
        ensures needle { IfOk result (λ looked. (out.new.items ≡ []) ⊎ CanShow out.new.items (place_in looked.row replica)) }
        ensures tells { (volume : StoreVolume) → WasAt D.Tells D.files P.Tells D.fault_count D.fuse_count seat.old volume
            → SeeTells P.Tells volume pair tag replica out.new.items result seat.old.sight seat.new.sight }
    {
        match self.lock.see(rt, seat, tag, pair, replica, out) {
            Ok(looked) => Ok(looked_of(looked)),
            Err(fault) => Err(sight_fault_of(fault)),
        }
    }

    /// The machine by which the volume is frozen.
    pub fn frozen<R: Wait>(&self, rt: &R, seat: &mut VolumeSeat<D, P>, tag: CoreTag) -> Option<u32>
        requires fits { (v : ℕ) × (settings : Settings) × IsSeatOf v self.now settings tag.lane seat.old }
        ensures stays { (v : ℕ) → Stays (IsSeatOf v) (WasAt D.Tells D.files P.Tells D.fault_count D.fuse_count) self.now seat.old seat.new }
        ensures unfused { SetNoFuse seat.old.sight.own → SetNoFuse seat.new.sight.own }
        ensures names { (v : ℕ) (settings : Settings) → IsSeatOf v self.now settings tag.lane seat.old → IfSome result (IsMachineOf settings v) }
        ensures tells { (volume : StoreVolume) → WasAt D.Tells D.files P.Tells D.fault_count D.fuse_count seat.old volume → FrozenTells volume tag result seat.old.sight seat.new.sight }
    {
        self.lock.frozen(rt, seat)
    }

    /// Whether a photo of this size has room.
    pub fn room<R: Wait>(
        &self,
        rt: &R,
        seat: &mut VolumeSeat<D, P>,
        tag: CoreTag,
        size: u32,
    ) -> Room
        requires fits { (v : ℕ) × (settings : Settings) × IsSeatOf v self.now settings tag.lane seat.old }
        requires size { size ≤ MAX_PHOTO }
        ensures stays { (v : ℕ) → Stays (IsSeatOf v) (WasAt D.Tells D.files P.Tells D.fault_count D.fuse_count) self.now seat.old seat.new }
        ensures unfused { SetNoFuse seat.old.sight.own → SetNoFuse seat.new.sight.own }
        ensures names { (v : ℕ) (settings : Settings) → IsSeatOf v self.now settings tag.lane seat.old → NamesRoom settings v size result }
        ensures tells { (volume : StoreVolume) → WasAt D.Tells D.files P.Tells D.fault_count D.fuse_count seat.old volume → RoomTells volume tag size result seat.old.sight seat.new.sight }
    {
        room_of(self.lock.room(rt, seat, size))
    }

    /// Stores a photo. The gate is passed while the lock is held, and nothing is written yet.
    pub fn put<R: Wait, G: Gate>(
        &self,
        rt: &R,
        alloc: Global,
        seat: &mut VolumeSeat<D, P>,
        tag: CoreTag,
        pair: Pair,
        cookie: Cookie,
        bytes: &[u8],
        gate: &G,
    ) -> Put
        requires fits { (v : ℕ) × (settings : Settings) × IsSeatOf v self.now settings tag.lane seat.old }
        requires size { length bytes.now ≤ MAX_PHOTO }
        ensures stays { (v : ℕ) → Stays (IsSeatOf v) (WasAt D.Tells D.files P.Tells D.fault_count D.fuse_count) self.now seat.old seat.new }
        ensures unfused { SetNoFuse seat.old.sight.own → SetNoFuse seat.new.sight.own }
        ensures names { (v : ℕ) (settings : Settings) → IsSeatOf v self.now settings tag.lane seat.old → NamesPut settings v (length bytes.now) result }
        ensures tells { (volume : StoreVolume) → WasAt D.Tells D.files P.Tells D.fault_count D.fuse_count seat.old volume
            → PutTells volume tag pair cookie bytes.now result seat.old.sight seat.new.sight }
    {
        put_of(
            self.lock
                .put(rt, alloc, seat, tag, pair, cookie, bytes, gate),
        )
    }

    /// Deletes a pair's photo.
    pub fn delete<R: Wait>(
        &self,
        rt: &R,
        alloc: Global,
        seat: &mut VolumeSeat<D, P>,
        tag: CoreTag,
        pair: Pair,
    ) -> Delete
        requires fits { (v : ℕ) × (settings : Settings) × IsSeatOf v self.now settings tag.lane seat.old }
        ensures stays { (v : ℕ) → Stays (IsSeatOf v) (WasAt D.Tells D.files P.Tells D.fault_count D.fuse_count) self.now seat.old seat.new }
        ensures unfused { SetNoFuse seat.old.sight.own → SetNoFuse seat.new.sight.own }
        ensures names { (v : ℕ) (settings : Settings) → IsSeatOf v self.now settings tag.lane seat.old → NamesDelete settings v result }
        ensures tells { (volume : StoreVolume) → WasAt D.Tells D.files P.Tells D.fault_count D.fuse_count seat.old volume → DeleteTells volume tag pair result seat.old.sight seat.new.sight }
    {
        let mut needle = Vec::new(alloc);
        delete_of(self.lock.delete(rt, seat, tag, pair, &mut needle))
    }

    /// Gives the cells of a replica without an index record theirs.
    pub fn flush<R: Wait>(
        &self,
        rt: &R,
        seat: &mut VolumeSeat<D, P>,
        tag: CoreTag,
        replica: u32,
    ) -> Flush
        requires fits { (v : ℕ) × (settings : Settings) × IsSeatOf v self.now settings tag.lane seat.old × (replica < settings.replicas) }
        ensures stays { (v : ℕ) → Stays (IsSeatOf v) (WasAt D.Tells D.files P.Tells D.fault_count D.fuse_count) self.now seat.old seat.new }
        ensures unfused { SetNoFuse seat.old.sight.own → SetNoFuse seat.new.sight.own }
        ensures names { (v : ℕ) (settings : Settings) → IsSeatOf v self.now settings tag.lane seat.old → NamesFlush settings v result }
        ensures tells { (volume : StoreVolume) → WasAt D.Tells D.files P.Tells D.fault_count D.fuse_count seat.old volume → FlushTells volume tag replica result seat.old.sight seat.new.sight }
    {
        flush_of(self.lock.flush(rt, seat, tag, replica))
    }

    /// Sets a fuse on a replica's disk.
    pub fn fuse<R: Wait>(
        &self,
        rt: &R,
        seat: &mut VolumeSeat<D, P>,
        tag: CoreTag,
        replica: u32,
        calls: u32,
    )
        requires fits { (v : ℕ) × (settings : Settings) × IsSeatOf v self.now settings tag.lane seat.old × (replica < settings.replicas) }
        ensures stays { (v : ℕ) → Stays (IsSeatOf v) (WasAt D.Tells D.files P.Tells D.fault_count D.fuse_count) self.now seat.old seat.new }
        ensures tells { (volume : StoreVolume) → WasAt D.Tells D.files P.Tells D.fault_count D.fuse_count seat.old volume → FuseTells volume tag replica seat.old.sight seat.new.sight }
    {
        self.lock.fuse(rt, seat, tag, replica, calls);
    }

    /// Begins a compaction of a replica.
    pub fn begin<R: Wait>(
        &self,
        rt: &R,
        alloc: Global,
        seat: &mut VolumeSeat<D, P>,
        tag: CoreTag,
        replica: u32,
    ) -> Begin
        requires fits { (v : ℕ) × (settings : Settings) × IsSeatOf v self.now settings tag.lane seat.old × (replica < settings.replicas) }
        ensures stays { (v : ℕ) → Stays (IsSeatOf v) (WasAt D.Tells D.files P.Tells D.fault_count D.fuse_count) self.now seat.old seat.new }
        ensures unfused { SetNoFuse seat.old.sight.own → SetNoFuse seat.new.sight.own }
        ensures names { (v : ℕ) (settings : Settings) → IsSeatOf v self.now settings tag.lane seat.old → NamesBegin settings v result }
        ensures tells { (volume : StoreVolume) → WasAt D.Tells D.files P.Tells D.fault_count D.fuse_count seat.old volume → BeginTells volume tag replica result seat.old.sight seat.new.sight }
    {
        begin_of(self.lock.begin(rt, alloc, seat, tag, replica))
    }

    /// Examines so many cells for the compaction of a replica that a line of the lane began.
    pub fn step<R: Wait>(
        &self,
        rt: &R,
        seat: &mut VolumeSeat<D, P>,
        tag: CoreTag,
        replica: u32,
        cells: u32,
    ) -> Step
        requires fits { (v : ℕ) × (settings : Settings) × IsSeatOf v self.now settings tag.lane seat.old × (replica < settings.replicas) }
        ensures stays { (v : ℕ) → Stays (IsSeatOf v) (WasAt D.Tells D.files P.Tells D.fault_count D.fuse_count) self.now seat.old seat.new }
        ensures unfused { SetNoFuse seat.old.sight.own → SetNoFuse seat.new.sight.own }
        ensures names { (v : ℕ) (settings : Settings) → IsSeatOf v self.now settings tag.lane seat.old → NamesStep settings v result }
        ensures tells { (volume : StoreVolume) → WasAt D.Tells D.files P.Tells D.fault_count D.fuse_count seat.old volume → StepTells volume tag replica cells result seat.old.sight seat.new.sight }
    {
        step_of(self.lock.step(rt, seat, tag, replica, cells))
    }

    /// Finishes it.
    pub fn finish<R: Wait>(
        &self,
        rt: &R,
        seat: &mut VolumeSeat<D, P>,
        tag: CoreTag,
        replica: u32,
    ) -> Finish
        requires fits { (v : ℕ) × (settings : Settings) × IsSeatOf v self.now settings tag.lane seat.old × (replica < settings.replicas) }
        ensures stays { (v : ℕ) → Stays (IsSeatOf v) (WasAt D.Tells D.files P.Tells D.fault_count D.fuse_count) self.now seat.old seat.new }
        ensures unfused { SetNoFuse seat.old.sight.own → SetNoFuse seat.new.sight.own }
        ensures names { (v : ℕ) (settings : Settings) → IsSeatOf v self.now settings tag.lane seat.old → NamesFinish settings v result }
        ensures tells { (volume : StoreVolume) → WasAt D.Tells D.files P.Tells D.fault_count D.fuse_count seat.old volume → FinishTells volume tag replica result seat.old.sight seat.new.sight }
    {
        finish_of(self.lock.finish(rt, seat, tag, replica))
    }

    /// Finishes the compaction of a replica that the line itself began. What it tells is of one that stood behind all that the lane had
    /// seen.
    pub fn compact<R: Wait>(
        &self,
        rt: &R,
        seat: &mut VolumeSeat<D, P>,
        tag: CoreTag,
        replica: u32,
    ) -> Compaction
        requires fits { (v : ℕ) × (settings : Settings) × IsSeatOf v self.now settings tag.lane seat.old × (replica < settings.replicas) }
        ensures stays { (v : ℕ) → Stays (IsSeatOf v) (WasAt D.Tells D.files P.Tells D.fault_count D.fuse_count) self.now seat.old seat.new }
        ensures unfused { SetNoFuse seat.old.sight.own → SetNoFuse seat.new.sight.own }
        ensures names { (v : ℕ) (settings : Settings) → IsSeatOf v self.now settings tag.lane seat.old → NamesCompaction settings v result }
        ensures tells { (volume : StoreVolume) → WasAt D.Tells D.files P.Tells D.fault_count D.fuse_count seat.old volume → CompactionTells volume tag replica result seat.old.sight seat.new.sight }
    {
        compaction_of(self.lock.compact(rt, seat, tag, replica))
    }
}
