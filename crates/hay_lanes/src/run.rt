//! Running all lanes.
ghost use Rattle.std.specs.Prelude.{◌≡◌, ◌<◌, ◌≤◌, ◌^◌, [], length, map, vec_len, vec_capacity, IfOk, IfErr, Some, slice_get, ℕ};
ghost use Rattle.std.specs.List.{AllZip};
ghost use Rattle.hay_lanes.specs.Lanes.{AnswersAll, AnswersLanes, MayAnswerLanes};
ghost use Rattle.hay_lanes.specs.LaneStates.{IsReady};

use crate::gate::{Gate, Point};
use crate::work::Work;
use hay_base::NoMemory;
use std::alloc::Global;
use std::sync::Wait;
use std::thread;
use std::thread::Threads;

// A worker at its lane, with room for its answers.
#[derive(Drop)]
struct LaneState<W: Work> {
    worker: W,
    outs: Vec<W::Out>,
}

// Answers all jobs of a lane, in order.
fn answer_all<W: Work, R: Wait, G: Gate>(
    rt: &R,
    alloc: Global,
    lane: u32,
    jobs: &[W::Job],
    gate: &G,
    state: &mut LaneState<W>,
)
    requires { IsReady W.may_answer lane jobs.now state.old }
    ensures { AnswersAll W.answers lane state.old.worker jobs.now state.new.worker state.new.outs.items }
{
    for job in jobs {
        gate.pass(lane, W::line(job), Point::Start);
        let out = state.worker.answer(rt, alloc, lane, job, gate);
        state.outs.push_reserved(out);
        gate.pass(lane, W::line(job), Point::Answered);
    }
}

// Room for the answers of each lane.
fn rooms_for<W: Work>(alloc: Global, jobs: &[Vec<W::Job>]) -> Result<Vec<Vec<W::Out>>, NoMemory>
    ensures { IfOk result (λ rooms. AllZip (λ js room. (room.items ≡ []) × (length js.items ≤ vec_capacity room)) jobs.now rooms.items) }
{
    let mut rooms = Vec::with_capacity(alloc, jobs.len())?;
    for lane in jobs {
        rooms.push_reserved(Vec::with_capacity(alloc, lane.len())?);
    }
    Ok(rooms)
}

// Seats each worker at its lane.
fn states_of<W: Work>(
    workers: Vec<W>,
    rooms: Vec<Vec<W::Out>>,
    mut states: Vec<LaneState<W>>,
) -> Vec<LaneState<W>>
    requires lanes { length rooms.items ≡ length workers.items }
    requires room { (states.items ≡ []) × (vec_len workers ≤ vec_capacity states) }
    ensures workers { map (λ b. b.worker) result.items ≡ workers.items }
    ensures outs { map (λ b. b.outs) result.items ≡ rooms.items }
{
    let mut rooms = rooms.into_iter();
    for worker in workers {
        let Some(outs) = rooms.next() else {
            unreachable!()
        };
        states.push_reserved(LaneState { worker, outs });
    }
    states
}

// The workers, and what they answered.
fn parts_of<W: Work>(
    states: Vec<LaneState<W>>,
    mut workers: Vec<W>,
    mut answers: Vec<Vec<W::Out>>,
) -> (Vec<W>, Vec<Vec<W::Out>>)
    requires workers { (workers.items ≡ []) × (vec_len states ≤ vec_capacity workers) }
    requires answers { (answers.items ≡ []) × (vec_len states ≤ vec_capacity answers) }
    ensures workers { result.0.items ≡ map (λ b. b.worker) states.items }
    ensures outs { result.1.items ≡ map (λ b. b.outs) states.items }
{
    for state in states {
        let LaneState { worker, outs } = state;
        workers.push_reserved(worker);
        answers.push_reserved(outs);
    }
    (workers, answers)
}

// Answers all jobs of one lane.
fn answer_lane<W: Work, R: Wait, G: Gate>(
    rt: &R,
    alloc: Global,
    lane: usize,
    jobs: &[Vec<W::Job>],
    gate: &G,
    state: &mut LaneState<W>,
)
    requires lane { (lane < length jobs.now) × (length jobs.now < 2 ^ 32) }
    requires ready { (js : _) → slice_get jobs.now lane ≡ Some js → IsReady W.may_answer lane js.items state.old }
    ensures { (js : _) → slice_get jobs.now lane ≡ Some js → AnswersAll W.answers lane state.old.worker js.items state.new.worker state.new.outs.items }
{
    answer_all(rt, alloc, lane as u32, jobs[lane].as_slice(), gate, state);
}

// Answers all jobs of all lanes, each lane in a thread of its own where one can be made.
fn answer_lanes<W: Work, R: Threads + Wait + Sync, G: Gate + Sync>(
    rt: &R,
    alloc: Global,
    jobs: &[Vec<W::Job>],
    gate: &G,
    mut states: Vec<LaneState<W>>,
) -> Vec<LaneState<W>>
    requires lanes { (length states.items ≡ length jobs.now) × (length jobs.now < 2 ^ 32) }
    requires ready { (lane : ℕ) (state js : _) → slice_get states.items lane ≡ Some state → slice_get jobs.now lane ≡ Some js → IsReady W.may_answer lane js.items state }
    ensures same { length result.items ≡ length states.items }
    ensures answered { (lane : ℕ) (state after js : _) → slice_get states.items lane ≡ Some state → slice_get result.items lane ≡ Some after → slice_get jobs.now lane ≡ Some js
        → AnswersAll W.answers lane state.worker js.items after.worker after.outs.items }
{
    let one_lane = |lane: usize, state: &mut LaneState<W>|
        requires { (lane < length jobs.now) × (length jobs.now < 2 ^ 32) × ((js : _) → slice_get jobs.now lane ≡ Some js → IsReady W.may_answer lane js.items state.old) }
        ensures { (js : _) → slice_get jobs.entry.now lane ≡ Some js → AnswersAll W.answers lane state.old.worker js.items state.new.worker state.new.outs.items }
    { answer_lane(rt, alloc, lane, jobs, gate, state) };
    let threads = jobs.len().max(1);
    thread::for_each_mut(rt, states.as_mut_slice(), threads, &one_lane);
    states
}

/// Answers all jobs of all lanes: worker `i` those of list `i`. Each lane has a thread of its own where threads can be made,
/// and else it has its turn in the caller's. The memory for the answers' lists is taken before the first job. `NoMemory` gives
/// the workers back, and no job was answered.
pub fn run_lanes<W: Work, G: Gate + Sync, R: Threads + Wait + Sync>(
    rt: &R,
    alloc: Global,
    workers: Vec<W>,
    jobs: &[Vec<W::Job>],
    gate: &G,
) -> Result<(Vec<W>, Vec<Vec<W::Out>>), (Vec<W>, NoMemory)>
    requires workers { vec_len workers ≡ length jobs.now }
    requires few { length jobs.now < 2 ^ 32 }
    requires may { MayAnswerLanes W.may_answer workers.items (map (λ v. v.items) jobs.now) }
    ensures answered { IfOk result (λ r. AnswersLanes W.answers workers.items (map (λ v. v.items) jobs.now) r.0.items (map (λ v. v.items) r.1.items)) }
    ensures refused { IfErr result (λ r. r.0.items ≡ workers.items) }
{
    let Ok(rooms) = rooms_for::<W>(alloc, jobs) else {
        return Err((workers, NoMemory));
    };
    let Ok(states) = Vec::with_capacity(alloc, jobs.len()) else {
        return Err((workers, NoMemory));
    };
    let Ok(after) = Vec::with_capacity(alloc, jobs.len()) else {
        return Err((workers, NoMemory));
    };
    let Ok(answers) = Vec::with_capacity(alloc, jobs.len()) else {
        return Err((workers, NoMemory));
    };
    let states = states_of(workers, rooms, states);
    let states = answer_lanes(rt, alloc, jobs, gate, states);
    Ok(parts_of(states, after, answers))
}
