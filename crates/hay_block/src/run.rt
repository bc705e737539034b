//! The lines of all lanes, answered beside each other.
ghost use Rattle.std.specs.Prelude.{◌≡◌, ◌<◌, ◌≤◌, ◌^◌, [], ℕ, Some, length, map, slice_get, vec_len, vec_capacity, IfOk, IfErr};
ghost use Rattle.std.specs.List.{AllByRecursion};
ghost use Rattle.hay_lanes.specs.Lanes.{AnswersLanes};
ghost use Rattle.hay_lane.specs.Lanes.{IsSeated};
ghost use Rattle.hay_block.specs.Lines.{Answers, IsServed};
ghost use Rattle.hay_block.specs.Workers.{at_locks, parts_of};
ghost use Rattle.hay_shared_volume.specs.Seats.{IsSeatOf, WasAt, sight_of};

use crate::text::ReplyText;
use crate::worker::{Job, LaneWorker};
use hay_base::NoMemory;
use hay_disk::{Arm, Disk, Piece};
use hay_lane::{DirectoryCalls, Lane, Shared};
use hay_lanes::{Gate, run_lanes};
use hay_shared_volume::SharedVolume;
use hay_volume_lock::VolumeSeat;
use std::alloc::Global;
use std::sync::Wait;
use std::thread::Threads;

// The workers of lanes.
fn workers_of<'a, D: Disk<Piece = P>, P: Piece, L, T: Drop, A: Drop>(
    shared: &'a Shared<SharedVolume<D, P>, L>,
    lanes: Vec<Lane<VolumeSeat<D, P>, T, A>>,
    mut workers: Vec<LaneWorker<'a, D, P, L, T, A>>,
) -> Vec<LaneWorker<'a, D, P, L, T, A>>
    requires { (workers.items ≡ []) × (vec_len lanes ≤ vec_capacity workers) }
    ensures { map parts_of result.items ≡ map (at_locks shared.now) lanes.items }
{
    for lane in lanes {
        workers.push_reserved(LaneWorker { shared, lane });
    }
    workers
}

// The lanes of workers.
fn lanes_of<D: Disk<Piece = P>, P: Piece, L, T: Drop, A: Drop>(
    workers: Vec<LaneWorker<D, P, L, T, A>>,
    mut lanes: Vec<Lane<VolumeSeat<D, P>, T, A>>,
) -> Vec<Lane<VolumeSeat<D, P>, T, A>>
    requires { (lanes.items ≡ []) × (vec_len workers ≤ vec_capacity lanes) }
    ensures { result.items ≡ map (λ w. w.lane) workers.entry.items }
{
    for worker in workers {
        let LaneWorker { shared: _, lane } = worker;
        lanes.push_reserved(lane);
    }
    lanes
}

/// Answers all lines of all lanes: lane `i` those of list `i`, in their order. `NoMemory` gives the lanes back, and no line was
/// answered.
pub fn run_lines<D, P, L, T, A, G, R>(
    rt: &R,
    alloc: Global,
    shared: &Shared<SharedVolume<D, P>, L>,
    lanes: Vec<Lane<VolumeSeat<D, P>, T, A>>,
    jobs: &[Vec<Job>],
    gate: &G,
) -> Result<
    (Vec<Lane<VolumeSeat<D, P>, T, A>>, Vec<Vec<ReplyText>>),
    (Vec<Lane<VolumeSeat<D, P>, T, A>>, NoMemory),
>
where
    D: Disk<Piece = P> + Send + Sync,
    P: Piece + Send + Sync,
    L: DirectoryCalls<Seat = T> + Send + Sync,
    T: Send + Drop,
    A: Arm<P> + Send + Drop,
    G: Gate + Sync,
    R: Threads + Wait + Sync,
    requires lanes { vec_len lanes ≡ length jobs.now }
    requires few { length jobs.now < 2 ^ 32 }
    requires seated { (lane : ℕ) (l : _) → slice_get lanes.items lane ≡ Some l → IsSeated IsSeatOf L.fits shared.now lane l }
    requires served { AllByRecursion (λ js. AllByRecursion (λ job. IsServed job.item) js.items) jobs.now }
    ensures answered { IfOk result (λ r. AnswersLanes (λ old lane job new reply. Answers IsSeatOf L.fits (WasAt D.Tells D.files P.Tells D.fault_count D.fuse_count) L.is_at sight_of
        L.sight A.is_sure A.fault_count shared.now lane job old new reply)
        lanes.items (map (λ js. js.items) jobs.now) r.0.items (map (λ rs. rs.items) r.1.items)) }
    ensures refused { IfErr result (λ r. r.0.items ≡ lanes.items) }
{
    let Ok(room) = Vec::with_capacity(alloc, lanes.len()) else {
        return Err((lanes, NoMemory));
    };
    let Ok(back) = Vec::with_capacity(alloc, lanes.len()) else {
        return Err((lanes, NoMemory));
    };
    let workers = workers_of(shared, lanes, room);
    match run_lanes(rt, alloc, workers, jobs, gate) {
        Ok((workers, replies)) => Ok((lanes_of(workers, back), replies)),
        Err((workers, error)) => Err((lanes_of(workers, back), error)),
    }
}
