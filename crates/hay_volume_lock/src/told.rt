//! What the published rows tell.
ghost use Rattle.std.specs.Prelude.{◌≡◌, IfOk};
ghost use Rattle.hay_views.specs.MapPasts.{begun_at};

use hay_base::NoMemory;
use hay_disk::Disk;
use hay_front::View;
use hay_logical::Logical;
use hay_map::{MapView, Row};
use hay_needle::Pair;
use hay_views::{PlaceView, Published, Telling};
use std::alloc::Global;
use std::marker::Model;
use std::snapshot::Snapshot;

/// The rows that are published tell what the changes so far made of what the volume stood for where it was opened. No value is made.
#[derive(Drop)]
pub struct Told<D: Disk> {
    marker: Snapshot<D>,
}

impl<D: Disk> Telling<D::Piece> for Told<D> {
    ghost use Rattle.hay_volume_lock.specs.Rows.{RowsTell};

    type Start = Logical<D>;

    ghost told = { λ past published. RowsTell D.Tells D.files D.Piece.Tells past published };
}

/// The rows of a volume, as they are published. A type of its own, so that the types of seats and fronts have short names.
#[derive(Drop)]
pub struct Places<D: Disk> {
    view: PlaceView<D::Piece, Told<D>>,
}

impl<D: Disk> Model for Places<D> {
    ghost use Rattle.hay_logical.specs.Volumes.{Volume};
    ghost use Rattle.hay_views.specs.MapPasts.{MapPast};

    ghost Value = { MapPast D.Piece (Volume D D.Piece) };

    ghost view = { λ p. p.view };
}

impl<D: Disk> Places<D> {
    /// Two views of the rows of a map, which has so many replicas, and of the volume.
    pub(crate) fn two(
        alloc: Global,
        start: &Logical<D>,
        map: MapView<D::Piece>,
        replicas: u32,
    ) -> Result<(Places<D>, Places<D>), NoMemory>
        requires { replicas ≡ map.replicas }
        ensures { IfOk result (λ views. (views.0 ≡ begun_at start.now map) × (views.1 ≡ begun_at start.now map)) }
    {
        let (first, second) = PlaceView::two(alloc, start, map, replicas)?;
        Ok((Places { view: first }, Places { view: second }))
    }
}

impl<D: Disk> View for Places<D> {
    ghost use Rattle.hay_views.specs.MapPasts.{AllFit, IsRowOf, is_entry, with_published};
    ghost use Rattle.hay_volume_lock.specs.Rows.{RowsTell};

    type Key = Pair;

    type Row = Row<D::Piece>;

    type Op = Published<D::Piece>;

    type Deed = Published<D::Piece>;

    type Means = Places<D>;

    type Start = Logical<D>;

    ghost means = { λ v. v };

    ghost deed = { λ published. published };

    ghost row_is = { λ past pair row. IsRowOf past pair row };

    ghost after = { λ past published. with_published past published };

    ghost is_counted = { λ published. is_entry published.change };

    ghost fact = { λ start past published. (start ≡ past.start) × AllFit past published × RowsTell D.Tells D.files D.Piece.Tells past published };

    fn row(&self, key: &Pair) -> Row<D::Piece> {
        self.view.row(key)
    }

    fn apply(&mut self, op: &Published<D::Piece>) -> Result<(), NoMemory> {
        self.view.apply(op)
    }

    fn counts(op: &Published<D::Piece>) -> bool {
        <PlaceView<D::Piece, Told<D>> as View>::counts(op)
    }
}
