//! The homes of pairs in memory.
ghost use Rattle.std.specs.Prelude.{◌≡◌, ◌≤◌, ◌<◌, ◌+◌, ◌^◌, ℕ, [], ◌∷◌, length, map, OnOk, OnErr, IfOk, IsOk, None, Some};
ghost use Rattle.std.specs.Option.{option_or};
ghost use Rattle.hay_needle.specs.declared.needle.Pair.{Pair};
ghost use Rattle.hay_legal.specs.Known.{home_in};
ghost use Rattle.hay_directory.specs.Homes.{home_among, KeepsHomes, SetsHome};
ghost use Rattle.hay_directory.specs.Rows.{home_row};

use hay_base::NoMemory;
use hay_dirfile::DirRow;
use hay_needle::Pair;
use std::alloc::Global;
use std::collections::HashMap;
use std::marker::Model;

/// The volume of the first row of each pair.
#[derive(Drop)]
pub struct Homes {
    volumes: HashMap<(u64, u32), u32>,
}

impl Model for Homes {
    ghost use Rattle.std.specs.HashMap.{spare};
    ghost use Rattle.hay_directory.specs.Homes.{KeptHomes};

    ghost Value = { KeptHomes };

    ghost view = { λ h. record { volumes = h.volumes.entries; room = spare h.volumes } };
}

impl Homes {
    /// No homes. It takes no memory.
    pub fn new(alloc: Global) -> Homes
        ensures { result.volumes ≡ [] }
    {
        Homes {
            volumes: HashMap::new(alloc),
        }
    }

    /// The homes by these rows. Room for all is taken at once, if there is memory for that.
    pub fn of_rows(alloc: Global, rows: &[DirRow]) -> Result<Homes, NoMemory>
        ensures { IfOk result (λ homes. (pair : Pair) → home_among homes.volumes pair ≡ home_in (map home_row rows.now) pair) }
    {
        let mut homes = Homes::new(alloc);
        let _ = homes.reserve(rows.len());
        for row in rows {
            homes.add_row(*row)?;
        }
        Ok(homes)
    }

    /// The home of a pair.
    pub fn get(&self, pair: Pair) -> Option<u32>
        ensures { result ≡ home_among self.now.volumes pair }
    {
        self.volumes.get(&(pair.key, pair.alt)).copied()
    }

    /// How many pairs have a home.
    pub fn len(&self) -> usize
        ensures is { result ≡ length self.now.volumes }
        ensures few { result < 2 ^ 63 }
    {
        self.volumes.len()
    }

    /// The volumes by pair once more.
    pub fn copy(&self) -> Result<HashMap<(u64, u32), u32>, NoMemory>
        ensures { IfOk result (λ copy. copy.entries ≡ self.now.volumes) }
    {
        Ok(self.volumes.clone()?)
    }

    /// Makes room for the homes of so many more pairs.
    pub fn reserve(&mut self, pairs: usize) -> Result<(), NoMemory>
        ensures kept { KeepsHomes self.old.volumes self.new.volumes }
        ensures len { length self.new.volumes ≡ length self.old.volumes }
        ensures room { OnOk result (pairs ≤ self.new.room) }
    {
        self.volumes.reserve(pairs)?;
        Ok(())
    }

    /// Gives a pair a home. `NoMemory` changes nothing.
    pub fn insert(&mut self, pair: Pair, volume: u32) -> Result<(), NoMemory>
        ensures ok { OnOk result (SetsHome pair (Some volume) self.old.volumes self.new.volumes) }
        ensures more { OnOk result (home_among self.old.volumes pair ≡ None → length self.new.volumes ≡ length self.old.volumes + 1) }
        ensures err { OnErr result (self.new.volumes ≡ self.old.volumes) }
        ensures room { 1 ≤ self.old.room → IsOk result }
    {
        self.volumes.insert((pair.key, pair.alt), volume)?;
        Ok(())
    }

    // Adds a row behind the others: a pair that has a home keeps it.
    fn add_row(&mut self, row: DirRow) -> Result<(), NoMemory>
        ensures { OnOk result ((pair : Pair) → home_among self.new.volumes pair ≡ option_or (home_among self.old.volumes pair) (home_in (home_row row ∷ []) pair)) }
    {
        if self.get(row.pair).is_some() {
            return Ok(());
        }
        self.insert(row.pair, row.volume)
    }
}
