//! The rows of places of a volume, as a view.
ghost use Rattle.std.specs.Prelude.{◌≡◌, IfOk, OnOk, OnErr};
ghost use Rattle.hay_map.specs.Rows.{ChangesRows, FitsRows, KeepsRows};
ghost use Rattle.hay_views.specs.MapPasts.{MapPast, AllFit, IsMapOf, IsRowOf, begun_at, fits, is_entry, with_published};

use crate::past::{Moment, Past};
use hay_base::NoMemory;
use hay_core::Entry;
use hay_disk::Piece;
use hay_front::View;
use hay_map::{MapOp, MapView, Row};
use hay_needle::Pair;
use std::alloc::Global;
use std::marker::Model;
use std::snapshot::Snapshot;

/// A change that is published, and what it enters in the log: one entry, or none. The entry is for clauses alone.
#[derive(Drop)]
pub struct Published<P: Piece> {
    pub change: MapOp<P>,
    pub entered: Past<Entry>,
}

/// What whoever publishes tells of the changes so far, beside that they fit. A seat is told it of those that it is shown. No value is
/// made.
pub trait Telling<P: Piece> {
    ghost use Rattle.std.specs.Prelude.{List};
    ghost use Rattle.hay_views.specs.declared.places.Published.{Published};
    ghost use Rattle.hay_views.specs.MapPasts.{MapPast};

    /// What stood when the views were made. A view has it for clauses alone.
    type Start;

    ghost told: { MapPast P Self.Start → List (Published P) → Type 0 };
}

/// The rows of a map. Clauses see what stood at first, what the rows were then, and what was changed since.
#[derive(Drop)]
pub struct PlaceView<P: Piece, F: Telling<P>> {
    replicas: u32,
    map: MapView<P>,
    start: Moment<F::Start>,
    first: Snapshot<MapView<P>>,
    made: Past<MapOp<P>>,
}

impl<P: Piece, F: Telling<P>> Model for PlaceView<P, F> {
    ghost use Rattle.std.specs.Prelude.{◌≡◌};
    ghost use Rattle.hay_views.specs.MapPasts.{MapPast, IsMapOf};

    ghost Value = { MapPast P F.Start };

    ghost view = { λ v. record { start = v.start; first = v.first.value; made = v.made } };

    ghost invariant = { λ v. (v.replicas ≡ v.map.replicas) × IsMapOf (record { start = v.start; first = v.first.value; made = v.made }) v.map };
}

// Whether a change can be made where rows have so many places.
fn is_fit<P: Piece>(change: &MapOp<P>, replicas: u32) -> bool
    ensures { result ≡ fits replicas change.now }
{
    match change {
        MapOp::Put { row, .. } => row.len() == replicas as usize,
        MapOp::Del { .. } => true,
        MapOp::Seen { replica, .. } => *replica < replicas,
        MapOp::Swap { replica, .. } => *replica < replicas,
    }
}

// Makes a change that fits. `NoMemory` leaves each row as it was.
fn make<P: Piece>(map: &mut MapView<P>, change: &MapOp<P>) -> Result<(), NoMemory>
    requires { FitsRows map.old.replicas change.now }
    ensures ok { OnOk result (ChangesRows change.now map.old map.new) }
    ensures err { OnErr result (KeepsRows map.old map.new) }
{
    match change {
        MapOp::Put { pair, row } => map.put(*pair, row),
        MapOp::Del { pair } => {
            map.del(*pair);
            Ok(())
        }
        MapOp::Seen {
            pair,
            replica,
            place,
        } => map.see(*pair, *replica, place.dup()),
        MapOp::Swap { replica, cells } => {
            map.swap(*replica, cells.as_slice());
            Ok(())
        }
    }
}

impl<P: Piece, F: Telling<P>> PlaceView<P, F> {
    // The rows of a map that has those of the first one.
    fn of(start: &F::Start, first: &MapView<P>, map: MapView<P>, replicas: u32) -> PlaceView<P, F>
        requires replicas { replicas ≡ map.replicas }
        requires same { IsMapOf (begun_at start.now first.now) map }
        ensures { result ≡ begun_at start.now first.now }
    {
        PlaceView {
            replicas,
            map,
            start: Moment::of(start),
            first: Snapshot::of(first),
            made: Past::new(),
        }
    }

    /// Two views of the rows of a map, which has so many replicas, and of what stands then.
    pub fn two(
        alloc: Global,
        start: &F::Start,
        map: MapView<P>,
        replicas: u32,
    ) -> Result<(PlaceView<P, F>, PlaceView<P, F>), NoMemory>
        requires { replicas ≡ map.replicas }
        ensures { IfOk result (λ views. (views.0 ≡ begun_at start.now map) × (views.1 ≡ begun_at start.now map)) }
    {
        let copy = map.copy(alloc)?;
        let second = PlaceView::of(start, &map, copy, replicas);
        let first = Snapshot::of(&map);
        let view = PlaceView {
            replicas,
            map,
            start: Moment::of(start),
            first,
            made: Past::new(),
        };
        Ok((view, second))
    }
}

impl<P: Piece, F: Telling<P>> View for PlaceView<P, F> {
    type Key = Pair;

    type Row = Row<P>;

    type Op = Published<P>;

    type Deed = Published<P>;

    type Means = PlaceView<P, F>;

    type Start = F::Start;

    ghost means = { λ v. v };

    ghost deed = { λ published. published };

    ghost row_is = { λ past pair row. IsRowOf past pair row };

    ghost after = { λ past published. with_published past published };

    ghost is_counted = { λ published. is_entry published.change };

    ghost fact = { λ start past published. (start ≡ past.start) × AllFit past published × F.told past published };

    fn row(&self, key: &Pair) -> Row<P> {
        self.map.row(*key)
    }

    fn apply(&mut self, op: &Published<P>) -> Result<(), NoMemory> {
        if !is_fit(&op.change, self.replicas) {
            self.made.add(&op.change);
            return Ok(());
        }
        make(&mut self.map, &op.change)?;
        self.made.add(&op.change);
        Ok(())
    }

    fn counts(op: &Published<P>) -> bool {
        match &op.change {
            MapOp::Put { .. } => true,
            MapOp::Del { .. } => true,
            MapOp::Seen { .. } => false,
            MapOp::Swap { .. } => false,
        }
    }
}
