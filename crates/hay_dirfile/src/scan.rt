//! Reading the rows of a journal.

ghost use Rattle.std.specs.Prelude.{◌≡◌, ◌⊎◌, ◌≤◌, ◌<◌, ◌+◌, ℕ, List, Ok, Err, IfOk, IfErr, OnOk, IsErr, IsErrOf};
ghost use Rattle.std.specs.List.{All};
ghost use Rattle.hay_disk.specs.Counts.{IsCounted};
ghost use Rattle.hay_disk.specs.Disk.{KeepsOthers};
ghost use Rattle.hay_disk.specs.Gate.{IsClosed, HasBytesAt};
ghost use Rattle.hay_needle.specs.Super.{super_bytes};
ghost use Rattle.hay_head.specs.Blocks.{HasBlockOf, Reaches, block_end};
ghost use Rattle.hay_head.specs.declared.blocks.TheConstants.{BLOCK_LEN};
ghost use Rattle.hay_dirfile.specs.Journal.{journal_magic, journal_row, journal_end, IsRowOf, IsJournal, IsBrokenRow, IsDamagedJournal};
ghost use Rattle.hay_dirfile.specs.declared.row.DirRow.{DirRow};

use crate::fault::RowsFault;
use crate::row::{DirRow, ROW_LEN, ROW_MAGIC, row_in};
use hay_disk::{Disk, Failed};
use hay_head::{BlockReader, Slot, read_front};
use hay_needle::{SUPER_LEN, Super};
use std::alloc::Global;

/// The number of the journal on its disk.
pub const JOURNAL_FILE: u32 = 0;

/// What stands where a row or the end mark is due.
pub enum Due {
    Row(DirRow),
    Mark,
    Broken,
}

/// Reads where a row or the end mark of a journal of so many volumes is due. The next one may be read behind a row.
///
/// `Failed` leaves a reader that may read there again.
pub fn read_row<D: Disk>(
    reader: &mut BlockReader,
    disk: &mut D,
    at: u64,
    volumes: u32,
) -> Result<Due, Failed>
    requires file { reader.old.file ≡ 0 }
    requires reaches { Reaches reader.old at }
    requires block { D.Tells → HasBlockOf (D.files disk.old 0).now reader.old }
    ensures row { D.Tells → (row : DirRow) → result ≡ Ok (Due.Row row) → IsRowOf volumes row × HasBytesAt at (journal_row row) (D.files disk.old 0).now }
    ensures within { (row : DirRow) → result ≡ Ok (Due.Row row) → row.volume < volumes }
    ensures mark { D.Tells → result ≡ Ok Due.Mark → IsClosed journal_magic at (D.files disk.old 0).now }
    ensures broken { D.Tells → result ≡ Ok Due.Broken → IsBrokenRow volumes at (D.files disk.old 0).now }
    ensures file { reader.new.file ≡ 0 }
    ensures reaches { Reaches reader.new at }
    ensures next { (row : DirRow) → result ≡ Ok (Due.Row row) → Reaches reader.new (at + 24) }
    ensures block { D.Tells → HasBlockOf (D.files disk.old 0).now reader.new }
    ensures same { D.Tells → D.files disk.new ≡ D.files disk.old }
    ensures drawn { D.Tells → D.drawn disk.new 0 + block_end reader.old ≤ D.drawn disk.old 0 + block_end reader.new }
    ensures drawn_others { D.Tells → KeepsOthers 0 (D.drawn disk.old) (D.drawn disk.new) }
    ensures counted { IsCounted (D.fault_count disk.old) (D.fault_count disk.new) (IsErr result) }
    ensures fuses { D.fuse_count disk.new ≡ D.fuse_count disk.old }
{
    let mut bytes = [0; ROW_LEN];
    match reader.read_slot(disk, at, ROW_MAGIC, &mut bytes)? {
        Slot::Row => match row_in(&bytes, volumes) {
            Some(row) => Ok(Due::Row(row)),
            None => Ok(Due::Broken),
        },
        Slot::Mark => Ok(Due::Mark),
        Slot::Broken => Ok(Due::Broken),
    }
}

/// Reads the rows of a journal, and answers them and where they end: there the end mark stands.
pub(crate) fn read_rows<D: Disk>(
    alloc: Global,
    disk: &mut D,
    sup: &Super,
) -> Result<(Vec<DirRow>, u64), RowsFault>
    ensures rows { D.Tells → IfOk result (λ scan. IsJournal (super_bytes sup.now) sup.now.settings.volumes (D.files disk.old 0).now scan.0.items) }
    ensures within { IfOk result (λ scan. All (λ row. row.volume < sup.now.settings.volumes) scan.0.items) }
    ensures end { D.Tells → IfOk result (λ scan. scan.1 ≡ journal_end scan.0.items) }
    ensures damaged { D.Tells → (at : ℕ) → result ≡ Err (RowsFault.Damaged at) → IsDamagedJournal sup.now (D.files disk.old 0).now at }
    ensures only { D.Tells → (rows : List DirRow) → IsJournal (super_bytes sup.now) sup.now.settings.volumes (D.files disk.old 0).now rows →
        IfErr result (λ fault. (fault ≡ RowsFault.Failed) ⊎ (fault ≡ RowsFault.NoMemory)) }
    ensures undamaged { D.Tells → OnOk result ((at : ℕ) → IsDamagedJournal sup.now (D.files disk.old 0).now at → ⊥) }
    ensures exact { D.Tells → (rows : List DirRow) → IsJournal (super_bytes sup.now) sup.now.settings.volumes (D.files disk.old 0).now rows →
        IfOk result (λ scan. scan.0.items ≡ rows) }
    ensures same { D.Tells → D.files disk.new ≡ D.files disk.old }
    ensures drawn { D.Tells → IfOk result (λ scan. D.drawn disk.new 0 ≤ D.drawn disk.old 0 + scan.1 + BLOCK_LEN) }
    ensures drawn_others { D.Tells → KeepsOthers 0 (D.drawn disk.old) (D.drawn disk.new) }
    ensures counted { IsCounted (D.fault_count disk.old) (D.fault_count disk.new) (IsErrOf result RowsFault.Failed) }
    ensures fuses { D.fuse_count disk.new ≡ D.fuse_count disk.old }
{
    if let Some(at) = read_front(disk, JOURNAL_FILE, sup)? {
        return Err(RowsFault::Damaged { at });
    }
    let volumes = sup.settings.volumes;
    let mut rows = Vec::new(alloc);
    let mut end = SUPER_LEN as u64;
    let mut reader = BlockReader::new(JOURNAL_FILE, end);
    'rows: loop {
        match read_row(&mut reader, disk, end, volumes)? {
            Due::Row(row) => rows.push(row)?,
            Due::Mark => return Ok((rows, end)),
            Due::Broken => return Err(RowsFault::Damaged { at: end }),
        }
        let Some(next) = end.checked_add(ROW_LEN as u64) else {
            return Err(RowsFault::Damaged { at: end });
        };
        end = next;
    }
}
