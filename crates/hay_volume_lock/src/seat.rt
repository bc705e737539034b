//! A lane's seat at a volume.
ghost use Rattle.std.specs.Prelude.{◌≡◌, ◌+◌, ◌<◌, ℕ, Some, length};
ghost use Rattle.hay_needle.specs.Tables.{outcome_at};
ghost use Rattle.hay_map.specs.Places.{place_in};
ghost use Rattle.hay_meeting.specs.Facts.{table_shown};
ghost use Rattle.hay_holdings.specs.Volumes.{ShownAt};
ghost use Rattle.hay_volume_lock.specs.Answers.{IsTold, OneLook};
ghost use Rattle.hay_volume_lock.specs.Rows.{PlaceTells};
ghost use Rattle.hay_volume_lock.specs.Seats.{IsSameSeat};
ghost use Rattle.hay_volume_lock.specs.declared.guarded.Opened.{Opened};

use crate::guarded::Guarded;
use crate::told::Places;
use hay_disk::{Disk, Piece};
use hay_front::Seat;
use hay_logical::Looked;
use hay_needle::Pair;
use hay_turn::TurnSeat;
use std::marker::Model;
use std::sync::Wait;

/// A seat at the lock, and one at the published rows, and how many changes stood where the lock was made. Clauses see what its lane knows of the volume.
#[derive(Drop)]
pub struct VolumeSeat<D: Disk<Piece = P>, P: Piece> {
    pub(crate) turn: TurnSeat<Guarded<D, P>>,
    pub(crate) view: Seat<Places<D>>,
    pub(crate) stood: u64,
}

// The changes that stood at first and those that were published since.
fn all_changes<R: Wait>(rt: &R, stood: u64, published: u64) -> u64
    ensures { result ≡ stood + published }
{
    let Some(changes) = stood.checked_add(published) else {
        // There are fewer changes than numbers of 64 bits.
        for _ in rt.forever() {}
        unreachable!()
    };
    changes
}

impl<D: Disk<Piece = P>, P: Piece> Model for VolumeSeat<D, P> {
    ghost use Rattle.hay_holdings.specs.Holdings.{sight_of};
    ghost use Rattle.hay_views.specs.MapPasts.{entered_by};
    ghost use Rattle.hay_volume_lock.specs.Seats.{IsSeated, Seated};

    ghost Value = { Seated D P };

    ghost view = { λ s. record { lock = s.turn.turn; number = s.turn.number; seats = s.turn.seats; start = s.turn.start; holds = s.turn.holds; sight = sight_of s.turn (entered_by s.view.deeds) } };

    ghost invariant = { λ s. IsSeated s.turn s.stood s.view };
}

impl<D: Disk<Piece = P>, P: Piece> VolumeSeat<D, P> {
    /// The places of a pair's photo that are published, and how many changes were made since the opening. It takes no memory and no
    /// lock, and shows all that this seat was shown before. A place that was not looked at yet tells nothing.
    pub fn look<R: Wait>(&mut self, rt: &R, pair: Pair) -> Looked<P>
        ensures shown { IsTold D.Tells D.files P.Tells D.fault_count D.fuse_count self.old.start (λ volume.
            ShownAt volume.settings volume.start volume.number pair result.front (λ j. outcome_at (table_shown volume.start volume.number j self.new.sight.shown) pair) self.old.sight self.new.sight) }
        ensures places { IsTold D.Tells D.files P.Tells D.fault_count D.fuse_count self.old.start (λ volume. (j : ℕ) → j < volume.settings.replicas →
            PlaceTells P.Tells pair (place_in result.row j) (outcome_at (table_shown volume.start volume.number j self.new.sight.shown) pair)) }
        ensures long { (opened : Opened D P) → self.old.start ≡ Some opened → length result.row ≡ opened.volume.settings.replicas }
        ensures looked { OneLook self.old.sight self.new.sight }
        ensures same { IsSameSeat self.old self.new }
    {
        let (published, row) = self.view.look(rt, &pair);
        Looked {
            front: all_changes(rt, self.stood, published),
            row,
        }
    }
}
