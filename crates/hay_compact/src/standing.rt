//! Where each pair's last cell stands in the new volume file.

ghost use Rattle.std.specs.Prelude.{◌≡◌, None, Some, OnOk, IsSome, if◌then◌else◌};
ghost use Rattle.hay_needle.specs.Tables.{pair_eq};
ghost use Rattle.hay_needle.specs.declared.needle.Pair.{Pair};
ghost use Rattle.hay_compact.specs.Standing.{HasRoom, last_in, place_in};

use hay_base::NoMemory;
use hay_needle::Pair;
use std::alloc::Global;
use std::collections::BTreeMap;
use std::marker::Model;

/// The place of a pair's last cell, and whether that cell is deleted.
#[derive(Clone, Copy)]
pub(crate) struct LastCell {
    pub(crate) at: u64,
    pub(crate) deleted: bool,
}

/// Each pair's last cell in the new file.
#[derive(Drop)]
pub(crate) struct Standing {
    cells: BTreeMap<Pair, Option<LastCell>>,
}

impl Model for Standing {
    ghost use Rattle.hay_compact.specs.Standing.{LastCells};

    ghost Value = { LastCells };

    ghost view = { λ standing. standing.cells.entries };
}

#[tactic(auto, unfolding(crate::specs::Standing::last_in, crate::specs::Standing::place_in, crate::specs::Standing::HasRoom))]
impl Standing {
    // No cell.
    pub(crate) fn new(alloc: Global) -> Standing
        ensures { (pair : Pair) → last_in result pair ≡ None }
    {
        Standing {
            cells: BTreeMap::new(alloc),
        }
    }

    // The last cell of a pair.
    pub(crate) fn last(&self, pair: Pair) -> Option<LastCell>
        ensures last { result ≡ last_in self.now pair }
        ensures room { IsSome result → HasRoom self.now pair }
    {
        match self.cells.get(&pair) {
            Some(last) => *last,
            None => None,
        }
    }

    // The place of a pair's photo: that of its last cell, where that is not deleted.
    pub(crate) fn place(&self, pair: Pair) -> Option<u64>
        ensures place { result ≡ place_in self.now pair }
    {
        match self.last(pair) {
            Some(last) if !last.deleted => Some(last.at),
            _ => None,
        }
    }

    // Makes room for the last cell of a pair. `NoMemory` changes nothing.
    pub(crate) fn reserve(&mut self, pair: Pair) -> Result<(), NoMemory>
        ensures room { OnOk result (HasRoom self.new pair) }
        ensures same { (other : Pair) → last_in self.new other ≡ last_in self.old other }
    {
        if !self.cells.contains_key(&pair) {
            self.cells.insert(pair, None)?;
        }
        Ok(())
    }

    // Gives a pair another last cell. It takes no memory.
    pub(crate) fn set(&mut self, pair: Pair, last: LastCell)
        requires { HasRoom self.old pair }
        ensures { (other : Pair) → last_in self.new other ≡ (if pair_eq pair other then Some last else last_in self.old other) }
    {
        match self.cells.insert(pair, Some(last)) {
            Ok(_) => (),
            Err(_) => unreachable!(), // only a new pair wants memory
        }
    }
}
