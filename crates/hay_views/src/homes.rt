//! The homes of pairs, as a view.
ghost use Rattle.std.specs.Prelude.{◌≡◌, ◌++◌, ◌∷◌, [], true, Some, map, IfOk, OnOk, OnErr};
ghost use Rattle.hay_legal.specs.declared.known.HomeRow.{HomeRow};
ghost use Rattle.hay_directory.specs.Homes.{HomesWithin, home_among, SetsHome};
ghost use Rattle.hay_directory.specs.Rows.{RowsWithin, home_row};
ghost use Rattle.hay_views.specs.HomeLooks.{AreWithin, IsHomeOf, rows_among, with_row};

use crate::past::Past;
use hay_base::NoMemory;
use hay_dirfile::DirRow;
use hay_front::View;
use hay_legal::known::HomeRow;
use hay_needle::Pair;
use std::alloc::Global;
use std::collections::HashMap;
use std::marker::Model;

/// The volume of the first row of each pair, and how many volumes there are. Clauses see the rows.
#[derive(Drop)]
pub struct HomeView {
    volumes: u32,
    homes: HashMap<(u64, u32), u32>,
    rows: Past<HomeRow>,
}

impl Model for HomeView {
    ghost use Rattle.std.specs.Prelude.{◌≡◌};
    ghost use Rattle.hay_needle.specs.declared.needle.Pair.{Pair};
    ghost use Rattle.hay_legal.specs.Known.{home_in};
    ghost use Rattle.hay_directory.specs.Homes.{home_among};
    ghost use Rattle.hay_views.specs.HomeLooks.{HomesAt};

    ghost Value = { HomesAt };

    ghost view = { λ v. record { volumes = v.volumes; rows = v.rows } };

    ghost invariant = { λ v. (pair : Pair) → home_among v.homes.entries pair ≡ home_in v.rows pair };
}

fn home_of(homes: &HashMap<(u64, u32), u32>, pair: Pair) -> Option<u32>
    ensures { result ≡ home_among homes.now.entries pair }
{
    homes.get(&(pair.key, pair.alt)).copied()
}

fn settle(homes: &mut HashMap<(u64, u32), u32>, row: DirRow) -> Result<(), NoMemory>
    ensures ok { OnOk result (SetsHome row.pair (Some row.volume) homes.old.entries homes.new.entries) }
    ensures err { OnErr result (homes.new.entries ≡ homes.old.entries) }
{
    homes.insert((row.pair.key, row.pair.alt), row.volume)?;
    Ok(())
}

impl HomeView {
    /// No rows, and so many volumes. It takes no memory.
    pub fn new(alloc: Global, volumes: u32) -> HomeView
        ensures { result ≡ record { volumes = volumes; rows = [] } }
    {
        HomeView {
            volumes,
            homes: HashMap::new(alloc),
            rows: Past::new(),
        }
    }

    /// The homes by these rows, and so many volumes.
    pub fn of_rows(alloc: Global, volumes: u32, rows: &[DirRow]) -> Result<HomeView, NoMemory>
        ensures { IfOk result (λ view. view ≡ record { volumes = volumes; rows = map home_row rows.now }) }
    {
        let mut view = HomeView::new(alloc, volumes);
        for row in rows {
            view.add(*row)?;
        }
        Ok(view)
    }

    /// The homes of a table of volumes by pair, and so many volumes. It takes no memory.
    pub fn of_table(volumes: u32, homes: HashMap<(u64, u32), u32>) -> HomeView
        ensures is { result ≡ record { volumes = volumes; rows = rows_among homes.entries } }
        ensures within { HomesWithin volumes homes.entries → RowsWithin volumes (rows_among homes.entries) }
    {
        let mut rows = Past::new();
        for (key, volume) in &homes {
            rows.add(&HomeRow {
                pair: Pair {
                    key: key.0,
                    alt: key.1,
                },
                volume: *volume,
            });
        }
        HomeView {
            volumes,
            homes,
            rows,
        }
    }

    // Adds a row behind the others. A pair that has a home keeps it. `NoMemory` changes nothing.
    fn add(&mut self, row: DirRow) -> Result<(), NoMemory>
        ensures ok { OnOk result (self.new ≡ with_row self.old (home_row row)) }
        ensures err { OnErr result (self.new ≡ self.old) }
    {
        let added = HomeRow {
            pair: row.pair,
            volume: row.volume,
        };
        if home_of(&self.homes, row.pair).is_some() {
            self.rows.add(&added);
            return Ok(());
        }
        settle(&mut self.homes, row)?;
        self.rows.add(&added);
        Ok(())
    }
}

impl View for HomeView {
    type Key = Pair;

    type Row = Option<u32>;

    type Op = DirRow;

    type Deed = HomeRow;

    type Means = HomeView;

    type Start = ();

    ghost means = { λ v. v };

    ghost deed = { λ row. home_row row };

    ghost row_is = { λ homes pair home. IsHomeOf homes pair home };

    ghost after = { λ homes row. with_row homes row };

    ghost is_counted = { λ row. true };

    ghost fact = { λ start stood added. AreWithin start stood added };

    fn row(&self, key: &Pair) -> Option<u32> {
        home_of(&self.homes, *key)
    }

    fn apply(&mut self, op: &DirRow) -> Result<(), NoMemory> {
        self.add(*op)
    }

    fn counts(_op: &DirRow) -> bool {
        true
    }
}
