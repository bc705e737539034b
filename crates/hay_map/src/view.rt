//! The rows of a logical volume by pair.
ghost use Rattle.std.specs.Prelude.{◌≡◌, ◌≤◌, ◌<◌, ◌⊎◌, true, length, map, replicate, slice_set, if◌then◌else◌, IfOk, IsOk, OnOk, OnErr};
ghost use Rattle.hay_needle.specs.declared.needle.Pair.{Pair};
ghost use Rattle.hay_needle.specs.Tables.{pair_eq};
ghost use Rattle.hay_map.specs.Places.{gone_place, has_stood, place_in};
ghost use Rattle.hay_map.specs.MapRows.{offset_of};
ghost use Rattle.hay_map.specs.Rows.{row_at, has_row, last_place, KeepsRows, ChangesRows, FitsRows, HasRoom, NeedsNoMemory, AllKnown, SetsPlace, SetsRow, LeavesReplica};
ghost use Rattle.hay_map.specs.Rows.{GivesReplica, MovesPlace, MovesReplica};
ghost use Rattle.hay_map.specs.declared.place.Place.TheVariants as place_is;
ghost use Rattle.hay_map.specs.declared.view.MapOp.TheVariants as map_op;

use crate::places::{dup_each, leave_each, push_none, set_at};
use crate::{Place, Row};
use hay_base::{Listed, NoMemory};
use hay_disk::Piece;
use hay_needle::Pair;
use std::alloc::Global;
use std::collections::HashMap;
use std::marker::Model;

/// The place of a pair in a file that was opened. Of two cells of one pair the later one counts.
#[derive(Drop)]
pub struct OpenCell<P: Piece> {
    pub pair: Pair,
    pub place: Place<P>,
}

/// A change of the rows.
#[derive(Drop)]
pub enum MapOp<P: Piece> {
    /// The pair has this row.
    Put {
        pair: Pair,
        row: Row<P>,
    },
    /// The pair's photo was deleted from every replica.
    Del {
        pair: Pair,
    },
    /// The pair has this place on a replica.
    Seen {
        pair: Pair,
        replica: u32,
        place: Place<P>,
    },
    /// A replica has the places of these cells, and of every other pair no photo. A pair without a place there gets none.
    Swap {
        replica: u32,
        cells: Listed<OpenCell<P>>,
    },
}

/// The row of each pair. A pair without one has no photo on any replica.
///
/// The rows stand in one vector, and a hash map has where each begins.
#[derive(Drop)]
pub struct MapView<P: Piece> {
    replicas: usize,
    blank: Row<P>,
    offsets: HashMap<(u64, u32), usize>,
    places: Vec<Place<P>>,
}

impl<P: Piece> Model for MapView<P> {
    ghost use Rattle.std.specs.Prelude.{◌-◌};
    ghost use Rattle.std.specs.HashMap.{spare};
    ghost use Rattle.std.specs.Vec.{vec_len, vec_capacity};
    ghost use Rattle.hay_map.specs.MapRows.{MapRows, IsKept};

    ghost Value = { MapRows P };

    ghost view = { λ m. record {
      replicas = m.replicas;
      blank = m.blank;
      offsets = m.offsets.entries;
      places = m.places.items;
      spare_offsets = spare m.offsets;
      spare_places = vec_capacity m.places - vec_len m.places;
    } };

    ghost invariant = { λ m. IsKept (record {
      replicas = m.replicas;
      blank = m.blank;
      offsets = m.offsets.entries;
      places = m.places.items;
      spare_offsets = spare m.offsets;
      spare_places = vec_capacity m.places - vec_len m.places;
    }) };
}

impl<P: Piece> MapView<P> {
    /// No rows, of 1 to 4 replicas. It takes no memory.
    pub fn new(alloc: Global, replicas: u32) -> MapView<P>
        requires some { 1 ≤ replicas }
        requires most { replicas ≤ 4 }
        ensures replicas { result.replicas ≡ replicas }
        ensures rows { (pair : Pair) → row_at result pair ≡ replicate replicas place_is.None }
    {
        MapView {
            replicas: replicas as usize,
            blank: Row::none(replicas as usize),
            offsets: HashMap::new(alloc),
            places: Vec::new(alloc),
        }
    }

    /// The same rows once more.
    pub fn copy(&self, alloc: Global) -> Result<MapView<P>, NoMemory>
        ensures replicas { IfOk result (λ copy. copy.replicas ≡ self.now.replicas) }
        ensures rows { IfOk result (λ copy. (pair : Pair) → row_at copy pair ≡ row_at self.now pair) }
    {
        Ok(MapView {
            replicas: self.replicas,
            blank: self.blank.dup(),
            offsets: self.offsets.clone()?,
            places: dup_each(alloc, self.places.as_slice())?,
        })
    }

    /// The row of a pair: one look-up. It takes no memory.
    pub fn row(&self, pair: Pair) -> Row<P>
        ensures row { result ≡ row_at self.now pair }
        ensures long { length result ≡ self.now.replicas }
    {
        match self.offset(pair) {
            Some(at) => Row::part(self.places.as_slice(), at, self.replicas),
            None => self.blank.dup(),
        }
    }

    /// Makes room for the row of one more pair.
    pub fn reserve(&mut self) -> Result<(), NoMemory>
        ensures rows { KeepsRows self.old self.new }
        ensures room { OnOk result (HasRoom self.new) }
        ensures known { (pair : Pair) → has_row self.new pair ≡ has_row self.old pair }
        ensures enough { HasRoom self.old → IsOk result }
    {
        self.offsets.reserve(1)?;
        self.places.reserve(self.replicas)?;
        Ok(())
    }

    /// Gives a pair a row, where `NoMemory` leaves each row as it was.
    pub fn put(&mut self, pair: Pair, row: &Row<P>) -> Result<(), NoMemory>
        requires { length row.now ≡ self.old.replicas }
        ensures ok { OnOk result (ChangesRows (map_op.Put pair row.now) self.old self.new) }
        ensures known { OnOk result (has_row self.new pair ≡ true) }
        ensures err { OnErr result (KeepsRows self.old self.new) }
        ensures memory { NeedsNoMemory (map_op.Put pair row.now) self.old → IsOk result }
    {
        self.add(pair)?;
        self.set_row(pair, row);
        Ok(())
    }

    /// Deletes a pair's photo from every replica. It takes no memory.
    pub fn del(&mut self, pair: Pair)
        ensures { ChangesRows (map_op.Del pair) self.old self.new }
    {
        if self.offset(pair).is_some() {
            let row = self.row(pair).gone();
            self.set_row(pair, &row);
        }
    }

    /// Gives a pair this place on a replica. `NoMemory` leaves each row as it was.
    pub fn see(&mut self, pair: Pair, replica: u32, place: Place<P>) -> Result<(), NoMemory>
        requires { replica < self.old.replicas }
        ensures ok { OnOk result (ChangesRows (map_op.Seen pair replica place) self.old self.new) }
        ensures known { OnOk result (has_row self.new pair ≡ true) }
        ensures err { OnErr result (KeepsRows self.old self.new) }
        ensures memory { NeedsNoMemory (map_op.Seen pair replica place) self.old → IsOk result }
    {
        self.add(pair)?;
        self.set_place(pair, replica as usize, place);
        Ok(())
    }

    /// Gives a replica the places of the cells that were opened. `NoMemory` leaves each row as it was.
    pub fn load(&mut self, replica: u32, cells: &[OpenCell<P>]) -> Result<(), NoMemory>
        requires { replica < self.old.replicas }
        ensures ok { OnOk result (GivesReplica replica cells.now self.old self.new) }
        ensures known { OnOk result (AllKnown self.new cells.now) }
        ensures err { OnErr result (KeepsRows self.old self.new) }
        ensures memory { AllKnown self.old cells.now → IsOk result }
    {
        self.expect(cells.len());
        self.add_all(cells)?;
        self.set_all(replica as usize, cells);
        Ok(())
    }

    /// Gives a replica the places of these cells, and no photo of any other pair. A pair that had no place there gets none. It
    /// takes no memory.
    pub fn swap(&mut self, replica: u32, cells: &[OpenCell<P>])
        requires { replica < self.old.replicas }
        ensures { ChangesRows (map_op.Swap replica cells.now) self.old self.new }
    {
        self.leave_replica(replica as usize);
        self.move_all(replica as usize, cells);
    }

    /// Changes the rows. `NoMemory` leaves each row as it was.
    pub fn apply(&mut self, change: MapOp<P>) -> Result<(), NoMemory>
        requires { FitsRows self.old.replicas change }
        ensures ok { OnOk result (ChangesRows change self.old self.new) }
        ensures err { OnErr result (KeepsRows self.old self.new) }
        ensures memory { NeedsNoMemory change self.old → IsOk result }
    {
        match change {
            MapOp::Put { pair, row } => self.put(pair, &row),
            MapOp::Del { pair } => {
                self.del(pair);
                Ok(())
            }
            MapOp::Seen {
                pair,
                replica,
                place,
            } => self.see(pair, replica, place),
            MapOp::Swap { replica, cells } => {
                self.swap(replica, cells.as_slice());
                Ok(())
            }
        }
    }

    // Where the pair's row begins.
    fn offset(&self, pair: Pair) -> Option<usize>
        ensures { result ≡ offset_of self.now pair }
    {
        self.offsets.get(&(pair.key, pair.alt)).copied()
    }

    // Sees to it that the pair has a row.
    fn add(&mut self, pair: Pair) -> Result<(), NoMemory>
        ensures rows { KeepsRows self.old self.new }
        ensures known { OnOk result (has_row self.new pair ≡ true) }
        ensures memory { (has_row self.old pair ≡ true) ⊎ HasRoom self.old → IsOk result }
    {
        if self.offset(pair).is_some() {
            return Ok(());
        }
        self.reserve()?;
        let at = self.places.len();
        push_none(&mut self.places, self.replicas);
        self.offsets.insert((pair.key, pair.alt), at)?;
        Ok(())
    }

    // Makes room for so many rows at once where there are none yet, if there is memory for that.
    fn expect(&mut self, rows: usize)
        ensures { KeepsRows self.old self.new }
    {
        if !self.places.is_empty() {
            return;
        }
        let _ = self.offsets.reserve(rows);
        let _ = self.places.reserve(rows.saturating_mul(self.replicas));
    }

    fn add_all(&mut self, cells: &[OpenCell<P>]) -> Result<(), NoMemory>
        ensures rows { KeepsRows self.old self.new }
        ensures known { OnOk result (AllKnown self.new cells.now) }
        ensures memory { AllKnown self.old cells.now → IsOk result }
    {
        for cell in cells {
            self.add(cell.pair)?;
        }
        Ok(())
    }

    fn set_place(&mut self, pair: Pair, replica: usize, place: Place<P>)
        requires known { has_row self.old pair ≡ true }
        requires replica { replica < self.old.replicas }
        ensures set { SetsPlace pair replica place self.old self.new }
        ensures long { (other : Pair) → length (row_at self.old other) ≡ self.old.replicas }
    {
        if let Some(at) = self.offset(pair) {
            set_at(self.places.as_mut_slice(), at + replica, place);
        }
    }

    fn set_row(&mut self, pair: Pair, row: &Row<P>)
        requires known { has_row self.old pair ≡ true }
        requires long { length row.now ≡ self.old.replicas }
        ensures { SetsRow pair row.now self.old self.new }
    {
        for replica in 0..self.replicas {
            self.set_place(pair, replica, row.place(replica).dup());
        }
    }

    fn set_all(&mut self, replica: usize, cells: &[OpenCell<P>])
        requires known { AllKnown self.old cells.now }
        requires replica { replica < self.old.replicas }
        ensures { GivesReplica replica cells.now self.old self.new }
    {
        for cell in cells {
            self.set_place(cell.pair, replica, cell.place.dup());
        }
    }

    // Whether a pair has a place on a replica.
    fn has_place(&self, pair: Pair, replica: usize) -> bool
        requires { replica < self.now.replicas }
        ensures { result ≡ has_stood (place_in (row_at self.now pair) replica) }
    {
        match self.row(pair).place(replica) {
            Place::None => false,
            Place::Unseen { .. } => true,
            Place::Live(_) => true,
            Place::Gone => true,
        }
    }

    fn move_place(&mut self, pair: Pair, replica: usize, place: Place<P>)
        requires { replica < self.old.replicas }
        ensures { MovesPlace pair replica place self.old self.new }
    {
        if self.has_place(pair, replica) {
            self.set_place(pair, replica, place);
        }
    }

    fn move_all(&mut self, replica: usize, cells: &[OpenCell<P>])
        requires replica { replica < self.old.replicas }
        requires long { (other : Pair) → length (row_at self.old other) ≡ self.old.replicas }
        ensures { MovesReplica replica cells.now self.old self.new }
    {
        for cell in cells {
            self.move_place(cell.pair, replica, cell.place.dup());
        }
    }

    fn leave_replica(&mut self, replica: usize)
        requires { replica < self.old.replicas }
        ensures { LeavesReplica replica self.old self.new }
    {
        leave_each(self.places.as_mut_slice(), self.replicas, replica);
    }
}
