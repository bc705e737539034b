//! A block of lines over the volumes of a store, with the Directory behind its lock.
ghost use Rattle.std.specs.Prelude.{◌≡◌, ◌<◌, ◌≤◌, ◌^◌, [], length, map, reverse, vec_len, vec_capacity, IfOk, OnErr};
ghost use Rattle.std.specs.List.{AllByRecursion};
ghost use Rattle.hay_block.specs.Frames.{AreFit, HasRoom, IsFrame, IsSameStore, RanAll};
ghost use Rattle.hay_block.specs.Lines.{IsServed};
ghost use Rattle.hay_shared_volume.specs.Making.{AreSeated, IsVolumeOf, VolumeStands, count_of};
ghost use Rattle.hay_block.specs.Stores.{AreVolumes};
ghost use Rattle.hay_shared_volume.specs.Seats.{IsSeatOf, WasAt, sight_of};

use crate::frame::{Frame, run_from};
use crate::parts::{apart, joined, seat_rooms};
use crate::text::ReplyText;
use crate::worker::Job;
use hay_base::NoMemory;
use hay_disk::{Arm, Disk, Piece};
use hay_front::Tag;
use hay_lane::{DirectoryCalls, Lane, Shared};
use hay_lanes::Gate;
use hay_logical::Logical;
use hay_needle::Settings;
use hay_reader::LaneSeat;
use hay_script::MAX_LANES;
use hay_shared_volume::SharedVolume;
use hay_volume_lock::VolumeSeat;
use std::alloc::Global;
use std::sync::Wait;
use std::thread::Threads;

/// Room for a block, so that locks alone may want memory behind it.
pub(crate) struct Rooms<V, S: Drop, T: Drop, A> {
    pub locks: Vec<V>,
    pub seats: Vec<Vec<S>>,
    pub lanes: Vec<Lane<S, T, A>>,
    pub tags: Vec<Vec<Tag>>,
    pub directory: Vec<T>,
    pub arms: Vec<LaneSeat<A>>,
}

impl<V, S: Drop, T: Drop, A: Drop> Rooms<V, S, T, A> {
    pub(crate) fn new(
        alloc: Global,
        lanes: usize,
        volumes: usize,
    ) -> Result<Rooms<V, S, T, A>, NoMemory>
        ensures { IfOk result (HasRoom lanes volumes) }
    {
        let seats = seat_rooms(alloc, lanes, volumes)?;
        let tags = Vec::with_capacity(alloc, volumes)?;
        let directory = Vec::with_capacity(alloc, lanes)?;
        let arms = Vec::with_capacity(alloc, lanes)?;
        let empty = Vec::with_capacity(alloc, lanes)?;
        let locks = Vec::with_capacity(alloc, volumes)?;
        Ok(Rooms {
            locks,
            seats,
            lanes: empty,
            tags,
            directory,
            arms,
        })
    }

    /// Lets the room go.
    pub(crate) fn destroy_empty(self)
        requires { self.locks.items ≡ [] }
    {
        let Rooms {
            locks,
            seats: _,
            lanes: _,
            tags: _,
            directory: _,
            arms: _,
        } = self;
        locks.destroy_empty();
    }
}

/// The Directory's lock with its seats, the volumes of a store in their order, and the arms of lanes.
pub(crate) struct Locked<D, T: Drop, A, W> {
    pub lock: D,
    pub seats: Vec<T>,
    pub volumes: Vec<W>,
    pub arms: Vec<LaneSeat<A>>,
}

// The frame in which no volume has a lock yet.
fn frame_of<D, P, L, T, A>(
    settings: Settings,
    drained: Vec<bool>,
    locks: Vec<SharedVolume<D, P>>,
    tags: Vec<Vec<Tag>>,
    lanes: Vec<Lane<VolumeSeat<D, P>, T, A>>,
    lock: L,
    mut volumes: Vec<Logical<D>>,
) -> Frame<SharedVolume<D, P>, L, VolumeSeat<D, P>, T, A, Logical<D>>
where
    D: Disk<Piece = P>,
    P: Piece,
    L: DirectoryCalls<Seat = T>,
    T: Drop,
    A: Arm<P>,
    requires fit { AreFit settings }
    requires drains { length drained.items ≡ settings.machines }
    requires locks { (locks.items ≡ []) × (settings.volumes ≤ vec_capacity locks) }
    requires tags { (tags.items ≡ []) × (settings.volumes ≤ vec_capacity tags) }
    requires blank { AllByRecursion (λ l. l.volumes.items ≡ []) lanes.items }
    requires seats { AreSeated L.fits lock settings (length lanes.items) (map (λ l. l.directory) lanes.items) }
    requires volumes { AreVolumes IsVolumeOf settings volumes.items }
    ensures frame { IsFrame IsSeatOf L.fits IsVolumeOf result }
    ensures shared { result.shared ≡ record { settings = settings; volumes = locks; directory = lock; drained = drained } }
    ensures lanes { result.lanes ≡ lanes }
    ensures tags { result.tags ≡ tags }
    ensures waiting { result.waiting.items ≡ reverse volumes.items }
{
    volumes.reverse();
    Frame {
        shared: Shared {
            settings,
            volumes: locks,
            directory: lock,
            drained,
        },
        lanes,
        waiting: volumes,
        tags,
    }
}

/// Makes the locks of all volumes, answers all lines of all lanes, and ends those locks. Behind `NoMemory` all stands as it stood, and no
/// line was answered. Else the tags of the changes of each volume stand beside the replies.
pub(crate) fn run_locked<D, P, L, T, A, G, R>(
    rt: &R,
    alloc: Global,
    settings: Settings,
    drained: Vec<bool>,
    rooms: Rooms<SharedVolume<D, P>, VolumeSeat<D, P>, T, A>,
    locked: Locked<L, T, A, Logical<D>>,
    jobs: &[Vec<Job>],
    gate: &G,
) -> (
    Locked<L, T, A, Logical<D>>,
    Vec<Vec<Tag>>,
    Result<Vec<Vec<ReplyText>>, NoMemory>,
)
where
    D: Disk<Piece = P> + Send + Sync,
    P: Piece + Send + Sync,
    L: DirectoryCalls<Seat = T> + Send + Sync,
    T: Send + Drop,
    A: Arm<P> + Send + Drop,
    G: Gate + Sync,
    R: Threads + Wait + Sync,
    requires fit { AreFit settings }
    requires drains { length drained.items ≡ settings.machines }
    requires room { HasRoom (length jobs.now) settings.volumes rooms }
    requires volumes { AreVolumes IsVolumeOf settings locked.volumes.items }
    requires seats { AreSeated L.fits locked.lock settings (length jobs.now) locked.seats.items }
    requires arms { length locked.arms.items ≡ length jobs.now }
    requires some { 0 < length jobs.now }
    requires few { length jobs.now ≤ MAX_LANES }
    requires served { AllByRecursion (λ js. AllByRecursion (λ job. IsServed job.item) js.items) jobs.now }
    ensures lock { result.0.lock ≡ locked.lock }
    ensures volumes { AreVolumes IsVolumeOf settings result.0.volumes.items }
    ensures seats { AreSeated L.fits locked.lock settings (length jobs.now) result.0.seats.items }
    ensures arms { length result.0.arms.items ≡ length jobs.now }
    ensures answered { IfOk result.2 (λ replies. RanAll (IsSeatOf {P = P}) L.fits (WasAt D.Tells D.files P.Tells D.fault_count D.fuse_count) L.is_at sight_of L.sight A.is_sure
        A.fault_count (VolumeStands D.Tells D.files P.Tells) (count_of D.fault_count) (count_of D.fuse_count)
        settings locked.lock drained locked.volumes.items locked.seats.items locked.arms.items
        result.0.volumes.items result.1.items result.0.seats.items result.0.arms.items (map (λ js. js.items) jobs.now) (map (λ rs. rs.items) replies.items)) }
    ensures refused { OnErr result.2 (IsSameStore (VolumeStands D.Tells D.files P.Tells) (count_of D.fault_count) (count_of D.fuse_count) settings locked result.0) }
{
    let Rooms {
        locks,
        seats: seat_rooms,
        lanes,
        tags,
        directory,
        arms: arm_room,
    } = rooms;
    let Locked {
        lock,
        seats,
        volumes,
        arms,
    } = locked;
    let lanes = joined(seat_rooms, seats, arms, lanes);
    let frame = frame_of::<D, P, L, T, A>(settings, drained, locks, tags, lanes, lock, volumes);
    let (frame, answer) = run_from(rt, alloc, frame, jobs, gate);
    let (locked, tags) = locked_of(frame, directory, arm_room);
    (locked, tags, answer)
}

// What the frame has where no volume has a lock.
fn locked_of<V, D, S: Drop, T: Drop, A: Drop, W>(
    frame: Frame<V, D, S, T, A, W>,
    seats: Vec<T>,
    arms: Vec<LaneSeat<A>>,
) -> (Locked<D, T, A, W>, Vec<Vec<Tag>>)
    requires none { frame.shared.volumes.items ≡ [] }
    requires seats { (seats.items ≡ []) × (vec_len frame.lanes ≤ vec_capacity seats) }
    requires arms { (arms.items ≡ []) × (vec_len frame.lanes ≤ vec_capacity arms) }
    ensures lock { result.0.lock ≡ frame.shared.directory }
    ensures seats { result.0.seats.items ≡ map (λ l. l.directory) frame.lanes.items }
    ensures arms { result.0.arms.items ≡ map (λ l. l.arm) frame.lanes.items }
    ensures volumes { result.0.volumes.items ≡ reverse frame.waiting.items }
    ensures tags { result.1.items ≡ reverse frame.tags.items }
{
    let Frame {
        shared,
        lanes,
        waiting: mut volumes,
        mut tags,
    } = frame;
    let Shared {
        settings: _,
        volumes: locks,
        directory: lock,
        drained: _,
    } = shared;
    locks.destroy_empty();
    volumes.reverse();
    tags.reverse();
    let (seats, arms) = apart(lanes, seats, arms);
    let locked = Locked {
        lock,
        seats,
        volumes,
        arms,
    };
    (locked, tags)
}
