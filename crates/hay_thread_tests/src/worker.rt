//! A lane's worker, which posts.
ghost use Rattle.hay_thread_tests.specs.Workers.{IsAt, GoesOn};

use crate::board::Board;
use crate::locked::{Act, LockedBoard};
use hay_front::{Seat, Tag};
use hay_lanes::{Gate, Point, Work};
use hay_turn::{Turn, TurnSeat};
use std::alloc::Global;
use std::sync::Wait;

/// A worker with its seat at the lock and its seat of the board's front.
#[derive(Drop)]
pub struct BoardWorker<'a> {
    pub turn: &'a Turn<LockedBoard>,
    pub seat: TurnSeat<LockedBoard>,
    pub view: Seat<Board>,
}

/// A post to make, at a line of the lane's script.
#[derive(Clone, Copy, Debug, PartialEq, Eq)]
pub struct Line {
    pub line: u64,
    pub counted: bool,
}

/// The place of a post among all, and the front and the row that a look at it showed.
#[derive(Clone, Copy, Debug, PartialEq, Eq)]
pub struct Posted {
    pub place: usize,
    pub front: u64,
    pub row: Option<u32>,
}

impl<'a> Work for BoardWorker<'a> {
    type Job = Line;

    type Out = Option<Posted>;

    ghost may_answer = { λ worker lane line. IsAt lane worker.turn.now worker.seat worker.view };

    ghost answers = { λ worker lane line after out. GoesOn lane line out (worker.turn.now, worker.seat, worker.view) (after.turn.now, after.seat, after.view) };

    fn line(job: &Line) -> u64 {
        job.line
    }

    fn answer<R: Wait, G: Gate>(
        &mut self,
        rt: &R,
        _alloc: Global,
        lane: u32,
        job: &Line,
        gate: &G,
    ) -> Option<Posted> {
        let tag = Tag {
            seat: lane,
            lane,
            line: job.line,
        };
        let act = Act {
            tag,
            counted: job.counted,
        };
        let mut locked = self.turn.hold(rt, &mut self.seat);
        gate.pass(lane, job.line, Point::Held);
        let place = locked.post(rt, &mut self.view, act);
        let made = if place.is_some() { Some(act) } else { None };
        self.turn.free(&mut self.seat, locked, made);
        let place = place?;
        let (front, row) = self.view.look(rt, &place);
        gate.pass(lane, job.line, Point::Looked);
        Some(Posted { place, front, row })
    }
}
