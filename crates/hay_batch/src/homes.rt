//! The homes of pairs in memory.

ghost use Rattle.std.specs.Prelude.{◌≡◌, ◌∷◌, [], OnOk};
ghost use Rattle.std.specs.Option.{option_or};
ghost use Rattle.hay_needle.specs.declared.needle.Pair.{Pair};
ghost use Rattle.hay_batch.specs.Homes.{home_among, home_in};

use hay_base::NoMemory;
use hay_dirfile::DirRow;
use hay_needle::Pair;
use std::alloc::Global;
use std::collections::HashMap;
use std::marker::Model;

/// The volume of the first row of each pair.
#[derive(Drop)]
pub struct Homes {
    volumes: HashMap<(u64, u32), u32>,
}

impl Model for Homes {
    ghost use Rattle.std.specs.Prelude.{List, ℕ};

    ghost Value = { List ((ℕ × ℕ) × ℕ) };

    ghost view = { λ h. h.volumes.entries };
}

impl Homes {
    /// No homes. It takes no memory.
    pub fn new(alloc: Global) -> Homes
        ensures { result ≡ [] }
    {
        Homes {
            volumes: HashMap::new(alloc),
        }
    }

    /// The home of a pair.
    pub fn get(&self, pair: Pair) -> Option<u32>
        ensures { result ≡ home_among self.now pair }
    {
        self.volumes.get(&(pair.key, pair.alt)).copied()
    }

    /// Adds rows behind the others: a pair that has a home keeps it. `NoMemory` may leave some of them.
    pub fn add_rows(&mut self, rows: &[DirRow]) -> Result<(), NoMemory>
        ensures { OnOk result ((pair : Pair) → home_among self.new pair ≡ option_or (home_among self.old pair) (home_in rows.now pair)) }
    {
        for row in rows {
            self.add_row(*row)?;
        }
        Ok(())
    }

    // Adds a row behind the others.
    fn add_row(&mut self, row: DirRow) -> Result<(), NoMemory>
        ensures { OnOk result ((pair : Pair) → home_among self.new pair ≡ option_or (home_among self.old pair) (home_in (row ∷ []) pair)) }
    {
        if self.get(row.pair).is_some() {
            return Ok(());
        }
        self.volumes
            .insert((row.pair.key, row.pair.alt), row.volume)?;
        Ok(())
    }
}
