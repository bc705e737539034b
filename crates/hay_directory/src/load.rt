//! Loading the rows of a journal.
ghost use Rattle.std.specs.Prelude.{◌≡◌, ◌≤◌, ◌<◌, ◌^◌, ℕ, List, [], length, map, Err, IfOk, OnOk};
ghost use Rattle.hay_needle.specs.declared.settings.Settings.{Settings};
ghost use Rattle.hay_disk.specs.Counts.{Rose};
ghost use Rattle.hay_disk.specs.Disk.{IsFree, IsImage, IsSolid, KeepsOthers};
ghost use Rattle.hay_dirfile.specs.Journal.{IsDamagedJournal};
ghost use Rattle.hay_legal.specs.declared.known.HomeRow.{HomeRow};
ghost use Rattle.std.specs.List.{AllByRecursion};
ghost use Rattle.hay_reply.specs.Fits.{FitsNote};
ghost use Rattle.hay_directory.specs.Notes.{notes_by};
ghost use Rattle.hay_needle.specs.declared.needle.Pair.{Pair};
ghost use Rattle.hay_legal.specs.Known.{home_in};
ghost use Rattle.hay_directory.specs.Homes.{home_among};
ghost use Rattle.hay_directory.specs.Rows.{FileHasRows, RowsWithin, home_row, journal_super};
ghost use Rattle.hay_directory.specs.State.{FindsRows};

use crate::homes::Homes;
use crate::mode::Unsure;
use crate::notes::notes_of;
use hay_base::Listed;
use hay_dirfile::{DirRow, Journal, OpenFault};
use hay_disk::Disk;
use hay_needle::{FileKind, Settings, Super};
use hay_reply::Note;
use std::alloc::Global;

/// What an opening makes of a journal.
#[derive(Drop)]
pub struct Loaded {
    pub journal: Journal,
    pub homes: Homes,
    pub count: u64,
    pub rows: Vec<DirRow>,
    pub notes: Listed<Note>,
}

/// Opens a journal and keeps its homes in memory. The notes tell of a row that was pending, if there was one.
pub fn load<D: Disk>(
    alloc: Global,
    disk: &mut D,
    settings: &Settings,
    unsure: Option<Unsure>,
) -> Result<Loaded, OpenFault>
    requires solid { D.Tells → IsSolid (D.files disk.old 0) }
    requires free { D.Tells → IsFree (D.files disk.old 0) }
    ensures found { D.Tells → IfOk result (λ loaded. FindsRows settings.now (D.files disk.old 0) (D.files disk.new 0) loaded.journal.end loaded.homes.volumes loaded.count
        (map home_row loaded.rows.items)) }
    ensures homes { IfOk result (λ loaded. (pair : Pair) → home_among loaded.homes.volumes pair ≡ home_in (map home_row loaded.rows.items) pair) }
    ensures within { IfOk result (λ loaded. RowsWithin settings.now.volumes (map home_row loaded.rows.items)) }
    ensures count { IfOk result (λ loaded. loaded.count ≡ length loaded.rows.items) }
    ensures few { IfOk result (λ loaded. loaded.count < 2 ^ 63) }
    ensures notes { IfOk result (λ loaded. loaded.notes ≡ notes_by unsure (home_among loaded.homes.volumes)) }
    ensures fits { IfOk result (λ loaded. AllByRecursion FitsNote loaded.notes) }
    ensures failed { (faults : ℕ) → result ≡ Err (OpenFault.Failed faults) →
        (faults ≡ D.fault_count disk.new) × Rose (D.fault_count disk.old) (D.fault_count disk.new) }
    ensures damaged { D.Tells → (file at : ℕ) → result ≡ Err (OpenFault.Damaged file at) →
        (file ≡ 0) × (0 < length (D.files disk.old 0).now) × IsDamagedJournal (journal_super settings.now) (D.files disk.old 0).now at }
    ensures file { (file at : ℕ) → result ≡ Err (OpenFault.Damaged file at) → file ≡ 0 }
    ensures undamaged { D.Tells → 0 < length (D.files disk.old 0).now → OnOk result ((at : ℕ) → IsDamagedJournal (journal_super settings.now) (D.files disk.old 0).now at → ⊥) }
    ensures undamaged_now { D.Tells → OnOk result ((at : ℕ) → IsDamagedJournal (journal_super settings.now) (D.files disk.new 0).now at → ⊥) }
    ensures nothing { D.Tells → (D.files disk.old 0).now ≡ [] → (image : List ℕ) (rows : List HomeRow) →
        (other : Settings) → IsImage (D.files disk.new 0) image → FileHasRows other image rows → rows ≡ [] }
    ensures whole { D.Tells → (rows : List HomeRow) (file at : ℕ) → FileHasRows settings.now (D.files disk.old 0).now rows →
        result ≡ Err (OpenFault.Damaged file at) → ⊥ }
    ensures same { D.Tells → 0 < length (D.files disk.old 0).now → D.files disk.new ≡ D.files disk.old }
    ensures others { D.Tells → KeepsOthers 0 (D.files disk.old) (D.files disk.new) }
    ensures later { D.fault_count disk.old ≤ D.fault_count disk.new }
    ensures fuses { D.fuse_count disk.new ≡ D.fuse_count disk.old }
{
    let sup = super_of(settings);
    let (journal, rows) = Journal::open(alloc, disk, &sup)?;
    let listed = rows.as_slice();
    let Ok(homes) = Homes::of_rows(alloc, listed) else {
        return Err(OpenFault::NoMemory);
    };
    let Ok(notes) = notes_of(alloc, unsure, &homes) else {
        return Err(OpenFault::NoMemory);
    };
    let count = row_count(listed);
    Ok(Loaded {
        journal,
        homes,
        count,
        rows,
        notes,
    })
}

// How many rows there are: few enough, as each takes memory.
fn row_count(rows: &[DirRow]) -> u64
    ensures is { result ≡ length rows.now }
    ensures few { result < 2 ^ 63 }
{
    rows.len() as u64
}

// What stands at the front of a journal.
fn super_of(settings: &Settings) -> Super
    ensures { result ≡ journal_super settings.now }
{
    Super {
        settings: *settings,
        kind: FileKind::Journal,
        volume: 0,
        replica: 0,
        generation: 0,
    }
}
