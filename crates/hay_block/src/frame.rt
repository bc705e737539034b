//! The locks of all volumes: one is made behind the other, the lines are answered, and the locks end in the opposite order.
ghost use Rattle.std.specs.Prelude.{◌≡◌, ◌-◌, ◌<◌, ◌≤◌, ◌^◌, [], Some, length, map, slice_get, vec_len, vec_capacity, IfOk, OnErr};
ghost use Rattle.std.specs.List.{AllByRecursion};
ghost use Rattle.hay_block.specs.Frames.{AreSameLocks, EndsLast, HaveRoom, IsBack, IsFrame, RanFrom};
ghost use Rattle.hay_block.specs.Lines.{IsServed};
ghost use Rattle.hay_shared_volume.specs.Seats.{IsSeatOf, WasAt, sight_of};
ghost use Rattle.hay_shared_volume.specs.Making.{IsMadeOf, IsVolumeOf, VolumeStands, count_of};
ghost use Rattle.hay_shared_volume.specs.declared.volume.SharedVolume.{SharedVolume};
ghost use Rattle.hay_logical.specs.Volumes.{Volume};

use crate::run::run_lines;
use crate::seating::{give_seats, take_seats};
use crate::text::ReplyText;
use crate::worker::Job;
use hay_base::NoMemory;
use hay_disk::{Arm, Disk, Piece};
use hay_front::Tag;
use hay_lane::{DirectoryCalls, Lane, Shared};
use hay_lanes::Gate;
use hay_logical::Logical;
use hay_script::MAX_LANES;
use hay_shared_volume::{SharedVolume, VolumeRoom};
use hay_volume_lock::VolumeSeat;
use std::alloc::Global;
use std::sync::Wait;
use std::thread::Threads;

/// The locks that are made, the lanes with their seats at them, the volumes that wait for one, the next last, and the tags of changes of
/// those whose locks have ended, in the order in which they did.
pub(crate) struct Frame<V, D, S: Drop, T: Drop, A, W> {
    pub shared: Shared<V, D>,
    pub lanes: Vec<Lane<S, T, A>>,
    pub waiting: Vec<W>,
    pub tags: Vec<Vec<Tag>>,
}

// Answers all lines of all lanes at the locks of all volumes.
fn answer_lines<D, P, L, T, A, G, R>(
    rt: &R,
    alloc: Global,
    frame: Frame<SharedVolume<D, P>, L, VolumeSeat<D, P>, T, A, Logical<D>>,
    jobs: &[Vec<Job>],
    gate: &G,
) -> (
    Frame<SharedVolume<D, P>, L, VolumeSeat<D, P>, T, A, Logical<D>>,
    Result<Vec<Vec<ReplyText>>, NoMemory>,
)
where
    D: Disk<Piece = P> + Send + Sync,
    P: Piece + Send + Sync,
    L: DirectoryCalls<Seat = T> + Send + Sync,
    T: Send + Drop,
    A: Arm<P> + Send + Drop,
    G: Gate + Sync,
    R: Threads + Wait + Sync,
    requires frame { IsFrame IsSeatOf L.fits IsVolumeOf frame }
    requires none { frame.waiting.items ≡ [] }
    requires lanes { vec_len frame.lanes ≡ length jobs.now }
    requires few { length jobs.now < 2 ^ 32 }
    requires served { AllByRecursion (λ js. AllByRecursion (λ job. IsServed job.item) js.items) jobs.now }
    ensures frame { IsFrame IsSeatOf L.fits IsVolumeOf result.0 }
    ensures shared { result.0.shared ≡ frame.shared }
    ensures lanes { vec_len result.0.lanes ≡ vec_len frame.lanes }
    ensures answered { IfOk result.1 (λ replies. RanFrom IsSeatOf L.fits (WasAt D.Tells D.files P.Tells D.fault_count D.fuse_count) L.is_at sight_of L.sight A.is_sure A.fault_count
        (VolumeStands D.Tells D.files P.Tells) (count_of D.fault_count) (count_of D.fuse_count)
        frame result.0 (map (λ js. js.items) jobs.now) (map (λ rs. rs.items) replies.items)) }
    ensures refused { OnErr result.1 (IsBack (VolumeStands D.Tells D.files P.Tells) (count_of D.fault_count) (count_of D.fuse_count) frame result.0) }
{
    let Frame {
        shared,
        lanes,
        waiting,
        tags,
    } = frame;
    match run_lines(rt, alloc, &shared, lanes, jobs, gate) {
        Ok((lanes, replies)) => {
            let frame = Frame {
                shared,
                lanes,
                waiting,
                tags,
            };
            (frame, Ok(replies))
        }
        Err((lanes, error)) => {
            let frame = Frame {
                shared,
                lanes,
                waiting,
                tags,
            };
            (frame, Err(error))
        }
    }
}

// Ends the lock of the last volume that has one.
fn end_lock<D, P, L, T, A, R>(
    rt: &R,
    mut frame: Frame<SharedVolume<D, P>, L, VolumeSeat<D, P>, T, A, Logical<D>>,
    taken: Vec<VolumeSeat<D, P>>,
    room: VolumeRoom<D, P>,
) -> Frame<SharedVolume<D, P>, L, VolumeSeat<D, P>, T, A, Logical<D>>
where
    D: Disk<Piece = P>,
    P: Piece,
    L: DirectoryCalls<Seat = T>,
    T: Drop,
    A: Arm<P>,
    R: Wait,
    requires frame { IsFrame IsSeatOf L.fits IsVolumeOf frame }
    requires some { 0 < vec_len frame.shared.volumes }
    requires taken { (taken.items ≡ []) × (vec_len frame.lanes ≤ vec_capacity taken) }
    requires made { (before : Volume D P) × (lock : SharedVolume D P) × (slice_get frame.shared.volumes.items (vec_len frame.shared.volumes - 1) ≡ Some lock)
        × IsMadeOf lock room before frame.shared.settings (vec_len frame.shared.volumes - 1) (vec_len frame.lanes) }
    ensures frame { IsFrame IsSeatOf L.fits IsVolumeOf result }
    ensures lanes { vec_len result.lanes ≡ vec_len frame.lanes }
    ensures ends { (before : Volume D P) (lock : SharedVolume D P) → slice_get frame.shared.volumes.items (vec_len frame.shared.volumes - 1) ≡ Some lock →
        IsMadeOf lock room before frame.shared.settings (vec_len frame.shared.volumes - 1) (vec_len frame.lanes) →
        EndsLast IsSeatOf L.fits (WasAt D.Tells D.files P.Tells D.fault_count D.fuse_count) L.is_at sight_of L.sight A.is_sure A.fault_count (VolumeStands D.Tells D.files P.Tells)
        (count_of D.fault_count) (count_of D.fuse_count) (vec_len frame.shared.volumes - 1) before frame result }
{
    let Some(lock) = frame.shared.volumes.pop() else {
        unreachable!()
    };
    let seats = take_seats(frame.lanes.as_mut_slice(), taken);
    let (volume, tags) = lock.close(rt, seats, room);
    frame.waiting.push_reserved(volume);
    frame.tags.push_reserved(tags);
    frame
}

/// Makes the locks of all volumes that wait for one, answers all lines of all lanes, and ends those locks. Behind `NoMemory` all stands as
/// it stood, and no line was answered.
pub(crate) fn run_from<D, P, L, T, A, G, R>(
    rt: &R,
    alloc: Global,
    mut frame: Frame<SharedVolume<D, P>, L, VolumeSeat<D, P>, T, A, Logical<D>>,
    jobs: &[Vec<Job>],
    gate: &G,
) -> (
    Frame<SharedVolume<D, P>, L, VolumeSeat<D, P>, T, A, Logical<D>>,
    Result<Vec<Vec<ReplyText>>, NoMemory>,
)
where
    D: Disk<Piece = P> + Send + Sync,
    P: Piece + Send + Sync,
    L: DirectoryCalls<Seat = T> + Send + Sync,
    T: Send + Drop,
    A: Arm<P> + Send + Drop,
    G: Gate + Sync,
    R: Threads + Wait + Sync,
    requires frame { IsFrame IsSeatOf L.fits IsVolumeOf frame }
    requires untold { frame.tags.items ≡ [] }
    requires rooms { HaveRoom frame.shared.settings.volumes frame.lanes.items }
    requires lanes { vec_len frame.lanes ≡ length jobs.now }
    requires some { 0 < length jobs.now }
    requires few { length jobs.now ≤ MAX_LANES }
    requires served { AllByRecursion (λ js. AllByRecursion (λ job. IsServed job.item) js.items) jobs.now }
    ensures frame { IsFrame IsSeatOf L.fits IsVolumeOf result.0 }
    ensures shared { AreSameLocks frame.shared result.0.shared }
    ensures lanes { vec_len result.0.lanes ≡ vec_len frame.lanes }
    ensures answered { IfOk result.1 (λ replies. RanFrom IsSeatOf L.fits (WasAt D.Tells D.files P.Tells D.fault_count D.fuse_count) L.is_at sight_of L.sight A.is_sure A.fault_count
        (VolumeStands D.Tells D.files P.Tells) (count_of D.fault_count) (count_of D.fuse_count)
        frame result.0 (map (λ js. js.items) jobs.now) (map (λ rs. rs.items) replies.items)) }
    ensures refused { OnErr result.1 (IsBack (VolumeStands D.Tells D.files P.Tells) (count_of D.fault_count) (count_of D.fuse_count) frame result.0) }
{
    if frame.waiting.is_empty() {
        return answer_lines(rt, alloc, frame, jobs, gate);
    }
    let Some(volume) = frame.waiting.pop() else {
        unreachable!()
    };
    let Ok(taken) = Vec::with_capacity(alloc, frame.lanes.len()) else {
        frame.waiting.push_reserved(volume);
        return (frame, Err(NoMemory));
    };
    let lanes = frame.lanes.len() as u32;
    match SharedVolume::new(rt, alloc, frame.shared.settings, volume, lanes) {
        Ok((lock, seats, room)) => {
            frame.shared.volumes.push_reserved(lock);
            give_seats(frame.lanes.as_mut_slice(), seats);
            let (frame, answer) = run_from(rt, alloc, frame, jobs, gate);
            (end_lock(rt, frame, taken, room), answer)
        }
        Err((volume, error)) => {
            frame.waiting.push_reserved(volume);
            (frame, Err(error))
        }
    }
}
