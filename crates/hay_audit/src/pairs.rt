//! Lists that are looked up by pair.

ghost use Rattle.std.specs.Prelude.{◌≡◌, ◌++◌, ◌∷◌, [], None, length, map, IfOk};
ghost use Rattle.std.specs.Option.{option_copied};
ghost use Rattle.hay_needle.specs.declared.needle.Outcome.{Outcome};
ghost use Rattle.hay_needle.specs.Tables.{look_after};
ghost use Rattle.hay_core.specs.Entries.{entry_row, logged_row};
ghost use Rattle.hay_legal.specs.Known as known;
ghost use Rattle.hay_audit.specs.Keyed as keyed;

use hay_base::{Duplicate, Listed, NoMemory};
use hay_core::{Entry, Logged};
use hay_legal::known::HomeRow;
use hay_needle::Pair;
use std::alloc::Global;
use std::collections::HashMap;
use std::marker::Model;

/// The rows of the Directory, with the home of each pair that has one.
#[derive(Drop)]
pub struct Rows {
    rows: Listed<HomeRow>,
    homes: HashMap<(u64, u32), u32>,
}

impl Model for Rows {
    ghost use Rattle.std.specs.Prelude.{List};
    ghost use Rattle.hay_legal.specs.declared.known.HomeRow.{HomeRow};
    ghost use Rattle.hay_audit.specs.Keyed.{AreHomes};

    ghost Value = { List HomeRow };

    ghost view = { λ r. r.rows };

    ghost invariant = { λ r. AreHomes r.homes.entries r.rows };
}

impl Rows {
    pub(crate) fn new(alloc: Global) -> Rows
        ensures { result ≡ [] }
    {
        Rows {
            rows: Listed::new(alloc),
            homes: HashMap::new(alloc),
        }
    }

    pub(crate) fn len(&self) -> usize
        ensures { result ≡ length self.now }
    {
        self.rows.len()
    }

    pub(crate) fn as_slice(&self) -> &[HomeRow]
        ensures { result.now ≡ self.now }
    {
        self.rows.as_slice()
    }

    /// The volume of the first row of a pair: one look-up.
    pub(crate) fn home(&self, pair: Pair) -> Option<u32>
        ensures { result ≡ known.home_in self.now pair }
    {
        self.homes.get(&(pair.key, pair.alt)).copied()
    }

    /// The rows, and behind them one of a pair that has none.
    pub(crate) fn with(self, row: HomeRow) -> Result<Rows, NoMemory>
        requires { known.home_in self row.pair ≡ None }
        ensures { IfOk result (λ rows. rows ≡ self ++ row ∷ []) }
    {
        let Rows {
            mut rows,
            mut homes,
        } = self;
        rows.push(row)?;
        homes.insert((row.pair.key, row.pair.alt), row.volume)?;
        Ok(Rows { rows, homes })
    }

    /// The rows, and one behind them.
    pub(crate) fn add(self, row: HomeRow) -> Result<Rows, NoMemory>
        ensures { IfOk result (λ rows. rows ≡ self ++ row ∷ []) }
    {
        if self.home(row.pair).is_none() {
            return self.with(row);
        }
        let Rows { mut rows, homes } = self;
        rows.push(row)?;
        Ok(Rows { rows, homes })
    }
}

// `HomeRow` has no `Duplicate` there
fn copy_rows(alloc: Global, rows: &[HomeRow]) -> Result<Listed<HomeRow>, NoMemory>
    ensures { IfOk result (λ copy. copy ≡ rows.now) }
{
    let mut copy = Listed::new(alloc);
    for row in rows {
        copy.push(*row)?;
    }
    Ok(copy)
}

impl Duplicate for Rows {
    fn duplicate(&self, alloc: Global) -> Result<Rows, NoMemory> {
        Ok(Rows {
            rows: copy_rows(alloc, self.rows.as_slice())?,
            homes: self.homes.clone()?,
        })
    }
}

/// The entries of a volume's log, with the place of the last of each pair.
#[derive(Drop)]
pub struct Log {
    entries: Listed<Logged>,
    last: HashMap<(u64, u32), usize>,
}

impl Model for Log {
    ghost use Rattle.std.specs.Prelude.{List};
    ghost use Rattle.hay_core.specs.declared.entry.Logged.{Logged};
    ghost use Rattle.hay_audit.specs.Keyed.{AreLast};

    ghost Value = { List Logged };

    ghost view = { λ l. l.entries };

    ghost invariant = { λ l. AreLast l.last.entries l.entries };
}

fn pair_of(entry: &Entry) -> Pair
    ensures { result ≡ (entry_row entry.now).pair }
{
    match entry {
        Entry::Put { pair, .. } => *pair,
        Entry::Del { pair } => *pair,
    }
}

impl Log {
    pub(crate) fn new(alloc: Global) -> Log
        ensures { result ≡ [] }
    {
        Log {
            entries: Listed::new(alloc),
            last: HashMap::new(alloc),
        }
    }

    pub(crate) fn len(&self) -> usize
        ensures { result ≡ length self.now }
    {
        self.entries.len()
    }

    pub(crate) fn as_slice(&self) -> &[Logged]
        ensures { result.now ≡ self.now }
    {
        self.entries.as_slice()
    }

    /// The last entry of a pair: one look-up.
    pub(crate) fn last_of(&self, pair: Pair) -> Option<&Logged>
        ensures { (before : Outcome) → look_after (map logged_row self.now) pair before ≡ keyed.told (option_copied result) before }
    {
        match self.last.get(&(pair.key, pair.alt)) {
            Some(at) => self.entries.as_slice().get(*at),
            None => None,
        }
    }

    /// The entries, and one behind them.
    pub(crate) fn with(self, logged: Logged) -> Result<Log, NoMemory>
        ensures { IfOk result (λ log. log ≡ self ++ logged ∷ []) }
    {
        let Log {
            mut entries,
            mut last,
        } = self;
        let pair = pair_of(&logged.entry);
        let at = entries.len();
        entries.push(logged)?;
        last.insert((pair.key, pair.alt), at)?;
        Ok(Log { entries, last })
    }
}

impl Duplicate for Log {
    fn duplicate(&self, alloc: Global) -> Result<Log, NoMemory> {
        Ok(Log {
            entries: self.entries.duplicate(alloc)?,
            last: self.last.clone()?,
        })
    }
}
