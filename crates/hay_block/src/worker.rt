//! A lane's worker.
ghost use Rattle.std.specs.Prelude.{◌≡◌};
ghost use Rattle.hay_lane.specs.Lanes.{IsSeated};
ghost use Rattle.hay_block.specs.Lines.{Answers, IsServed};
ghost use Rattle.hay_shared_volume.specs.Seats.{IsSeatOf, WasAt, sight_of};

use crate::text::ReplyText;
use hay_core::CoreTag;
use hay_disk::{Arm, Disk, Piece};
use hay_lane::{DirectoryCalls, Lane, Shared};
use hay_lanes::{Gate, Work};
use hay_legal::turn::Item;
use hay_reply::Reply;
use hay_shared_volume::SharedVolume;
use hay_volume_lock::VolumeSeat;
use std::alloc::Global;
use std::sync::Wait;

/// A line of a lane, and what it asks for.
#[derive(Drop)]
pub struct Job {
    pub line: u64,
    pub item: Item,
}

/// A lane, and the locks that it shares with all others.
#[derive(Drop)]
pub struct LaneWorker<'a, D: Disk<Piece = P>, P: Piece, L, T: Drop, A> {
    pub shared: &'a Shared<SharedVolume<D, P>, L>,
    pub lane: Lane<VolumeSeat<D, P>, T, A>,
}

impl<'a, D, P, L, T, A> Work for LaneWorker<'a, D, P, L, T, A>
where
    D: Disk<Piece = P> + Send + Sync,
    P: Piece + Send + Sync,
    L: DirectoryCalls<Seat = T> + Send + Sync,
    T: Send + Drop,
    A: Arm<P> + Send + Drop,
{
    type Job = Job;

    type Out = ReplyText;

    ghost may_answer = { λ w lane job. IsSeated IsSeatOf L.fits w.shared.now lane w.lane × IsServed job.item };

    ghost answers = { λ w lane job after out. (after.shared.now ≡ w.shared.now) × Answers IsSeatOf L.fits (WasAt D.Tells D.files P.Tells D.fault_count D.fuse_count) L.is_at
        sight_of L.sight A.is_sure A.fault_count w.shared.now lane job w.lane after.lane out };

    fn line(job: &Job) -> u64 {
        job.line
    }

    fn answer<R: Wait, G: Gate>(
        &mut self,
        rt: &R,
        alloc: Global,
        lane: u32,
        job: &Job,
        gate: &G,
    ) -> ReplyText {
        let tag = CoreTag {
            lane,
            line: job.line,
        };
        match &job.item {
            Item::Command(command) => {
                let reply = self
                    .shared
                    .answer(rt, alloc, &mut self.lane, tag, command, gate);
                ReplyText::new(alloc, reply)
            }
            Item::Bad => ReplyText::new(alloc, Reply::BadLine),
        }
    }
}
