//! Compactions at a seat: how they end.
ghost use Rattle.std.specs.Prelude.{◌≡◌, [], ℕ, Option, IfErr, Err};
ghost use Rattle.hay_map.specs.declared.view.MapOp.TheVariants as change;
ghost use Rattle.hay_volume_lock.specs.Answers.{IsAlways, IsTold, UnfusedHolding};
ghost use Rattle.hay_volume_lock.specs.Compactions.{FailedHere, unswapped_made};
ghost use Rattle.hay_volume_lock.specs.Finishes.{FinishAnswer};
ghost use Rattle.hay_volume_lock.specs.Refusing.{OfOpened, RefusesRun};
ghost use Rattle.hay_volume_lock.specs.Seats.{HasReplica, IsSameSeat, MayAct};

use crate::act::{Act, Made};
use crate::changes::front_tag;
use crate::compactions::barred;
use crate::lock::VolumeLock;
use crate::refusals::{Finished, Unfinished};
use crate::seat::VolumeSeat;
use hay_base::Listed;
use hay_core::CoreTag;
use hay_disk::{Disk, Piece};
use hay_logical::{LogicalFault, NewFiles};
use hay_map::{MapOp, OpenCell};
use hay_views::{Past, Published};
use std::marker::Model;
use std::sync::Wait;

// What was done where a compaction did not end with a swap.
pub(crate) fn unfinished_did(fault: &LogicalFault, frozen: Option<u32>, replica: u32) -> Made
    ensures { result ≡ unswapped_made replica fault.now frozen }
{
    match fault {
        LogicalFault::Failed { .. } => match frozen {
            Some(machine) => Made::Poises { machine, replica },
            None => Made::Ends { replica },
        },
        LogicalFault::NoMemory => Made::Ends { replica },
        LogicalFault::Damaged { .. } => Made::Ends { replica },
        LogicalFault::ReadOnly { .. } => Made::Tries,
        LogicalFault::Idle => Made::Tries,
        LogicalFault::Full { .. } => Made::Tries,
        LogicalFault::Gone { .. } => Made::Tries,
        LogicalFault::Busy { .. } => Made::Tries,
        LogicalFault::Worn { .. } => Made::Tries,
    }
}

// The places to which the photos moved, as they are published.
pub(crate) fn moved<P: Piece>(replica: u32, cells: Listed<OpenCell<P>>) -> Published<P>
    ensures { result ≡ record { change = change.Swap replica cells; entered = [] } }
{
    Published {
        change: MapOp::Swap { replica, cells },
        entered: Past::new(),
    }
}

impl<D: Disk<Piece = P>, P: Piece> VolumeLock<D, P> {
    /// Ends the compaction of a replica that a line of the lane began: its files are the current ones then, and where the photos stand
    /// is published. For want of memory to publish it the volume is frozen. `Idle` comes where none stands. Any other refusal but
    /// `ReadOnly` ends the compaction, and `Failed` freezes the volume where the replica may stand before the swap or behind it.
    pub fn finish<R: Wait>(
        &self,
        rt: &R,
        seat: &mut VolumeSeat<D, P>,
        tag: CoreTag,
        replica: u32,
    ) -> Result<Finished, Unfinished>
        requires may { MayAct self.now tag seat.old }
        requires within { HasReplica seat.old replica }
        ensures finished { IsTold D.Tells D.files P.Tells D.fault_count D.fuse_count seat.old.start (λ volume. FinishAnswer volume tag replica result seat.old.sight seat.new.sight) }
        ensures causes { (m f : ℕ) (frozen : Option ℕ) → result ≡ Err (record { fault = LogicalFault.Failed m f; frozen = frozen }) →
            IsAlways D.fault_count D.fuse_count seat.old.start (λ volume. FailedHere volume tag replica m f seat.old.sight seat.new.sight) }
        ensures refusals { OfOpened seat.old.start (λ settings v. IfErr result (λ unfinished. RefusesRun settings v replica unfinished.fault)) }
        ensures held { UnfusedHolding tag seat.old.sight seat.new.sight }
        ensures same { IsSameSeat seat.old seat.new }
    {
        let mut kept = self.turn.hold(rt, &mut seat.turn);
        kept.front.show_all(rt, &mut seat.view);
        let begun = kept.begun[replica as usize];
        if let Some(fault) = barred(&kept.logical, begun, tag.lane, replica) {
            self.turn.free(&mut seat.turn, kept, None);
            return Err(Unfinished {
                fault,
                frozen: None,
            });
        }
        let files = match kept.logical.finish_files(replica) {
            Ok(files) => files,
            Err(fault) => {
                let frozen = kept.logical.frozen();
                let did = unfinished_did(&fault, frozen, replica);
                let act = Act::new(tag, did, &kept.logical);
                self.turn.free(&mut seat.turn, kept, Some(act));
                return Err(Unfinished { fault, frozen });
            }
        };
        let NewFiles {
            generation,
            cells,
            end,
            count,
        } = files;
        let op = moved(replica, cells);
        let Ok(_receipt) = kept.front.publish(rt, &mut seat.view, front_tag(tag), op) else {
            kept.logical.freeze();
            let did = Made::Swaps {
                replica,
                end,
                cells: count,
                frozen: kept.logical.frozen(),
            };
            let act = Act::new(tag, did, &kept.logical);
            self.turn.free(&mut seat.turn, kept, Some(act));
            return Ok(Finished {
                generation,
                frozen: true,
            });
        };
        let did = Made::Swaps {
            replica,
            end,
            cells: count,
            frozen: None,
        };
        let act = Act::new(tag, did, &kept.logical);
        self.turn.free(&mut seat.turn, kept, Some(act));
        Ok(Finished {
            generation,
            frozen: false,
        })
    }
}
