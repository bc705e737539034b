//! All lanes of a board, from the first post to the last.
ghost use Rattle.std.specs.Prelude.{◌≡◌, ◌<◌, ◌≤◌, ◌^◌, [], length, map, vec_len, vec_capacity, All, IfOk, Ok, Err, MatchResult};
ghost use Rattle.hay_thread_tests.specs.Workers.{IsRunOf};

use crate::board::Board;
use crate::locked::LockedBoard;
use crate::worker::{BoardWorker, Line, Posted};
use hay_base::NoMemory;
use hay_front::{Front, Seat, Tag};
use hay_lanes::{Gate, run_lanes};
use hay_turn::{Turn, TurnSeat};
use std::alloc::Global;
use std::sync::Wait;
use std::thread::Threads;

type Answers = Vec<Vec<Option<Posted>>>;

/// What each lane was answered, and the tags of the posts that count.
#[derive(Drop)]
pub struct BoardRun {
    pub outs: Answers,
    pub log: Vec<Tag>,
}

// Gives each worker its seats.
fn workers_of<'a>(
    turn: &'a Turn<LockedBoard>,
    seats: Vec<TurnSeat<LockedBoard>>,
    views: Vec<Seat<Board>>,
    mut workers: Vec<BoardWorker<'a>>,
) -> Vec<BoardWorker<'a>>
    requires as_many { length views.items ≡ length seats.items }
    requires room { (workers.items ≡ []) × (vec_len seats ≤ vec_capacity workers) }
    ensures seats { map (λ worker. worker.seat) result.items ≡ seats.items }
    ensures views { map (λ worker. worker.view) result.items ≡ views.items }
    ensures turn { All (λ worker. worker.turn.now ≡ turn.now) result.items }
{
    let mut views = views.into_iter();
    for seat in seats {
        let Some(view) = views.next() else {
            unreachable!()
        };
        workers.push_reserved(BoardWorker { turn, seat, view });
    }
    workers
}

// The seats of all workers, in order.
fn seats_of(
    workers: Vec<BoardWorker<'_>>,
    mut seats: Vec<TurnSeat<LockedBoard>>,
) -> Vec<TurnSeat<LockedBoard>>
    requires { (seats.items ≡ []) × (vec_len workers ≤ vec_capacity seats) }
    ensures { result.items ≡ map (λ worker. worker.seat) workers.entry.items }
{
    for worker in workers {
        let BoardWorker {
            turn: _,
            seat,
            view: _,
        } = worker;
        seats.push_reserved(seat);
    }
    seats
}

// The workers, which come back either way, and what they answered.
fn workers_and_answers<'a>(
    ran: Result<(Vec<BoardWorker<'a>>, Answers), (Vec<BoardWorker<'a>>, NoMemory)>,
) -> (Vec<BoardWorker<'a>>, Result<Answers, NoMemory>)
    ensures { MatchResult ran.entry (λ r. (result.0 ≡ r.0) × (result.1 ≡ Ok r.1)) (λ r. (result.0 ≡ r.0) × (result.1 ≡ Err r.1)) }
{
    match ran {
        Ok((workers, outs)) => (workers, Ok(outs)),
        Err((workers, error)) => (workers, Err(error)),
    }
}

pub(crate) fn empty_board(alloc: Global) -> Board
    ensures { result.seats.items ≡ [] }
{
    Board {
        seats: Vec::new(alloc),
    }
}

/// Makes the posts of all lanes, a lane to each list of lines. There is one history, in which each lane's posts that it was answered
/// stand once, in its order, each at the place that the lane was told, and no others stand there; the log has the tags of those that
/// count.
pub fn run_board<R: Threads + Wait + Sync, G: Gate + Sync>(
    rt: &R,
    alloc: Global,
    jobs: &[Vec<Line>],
    gate: &G,
) -> Result<BoardRun, NoMemory>
    requires some { 0 < length jobs.now }
    requires few { length jobs.now < 2 ^ 32 }
    ensures { IfOk result (λ told. IsRunOf (map (λ v. v.items) jobs.now) (map (λ v. v.items) told.outs.items) told.log.items) }
{
    let lanes = jobs.len() as u32;
    let room = Vec::with_capacity(alloc, jobs.len())?;
    let seats_room = Vec::with_capacity(alloc, jobs.len())?;
    let (front, views) = Front::new(rt, alloc, empty_board(alloc), empty_board(alloc), lanes)?;
    let (turn, seats) = match Turn::new(alloc, LockedBoard { front, posts: 0 }, lanes) {
        Ok(made) => made,
        Err((locked, error)) => {
            locked.close(rt, views);
            return Err(error);
        }
    };
    let workers = workers_of(&turn, seats, views, room);
    let (workers, outs) = workers_and_answers(run_lanes(rt, alloc, workers, jobs, gate));
    let seats = seats_of(workers, seats_room);
    let locked = turn.close(seats);
    let log = locked.close(rt, Vec::new(alloc));
    let outs = outs?;
    Ok(BoardRun { outs, log })
}
