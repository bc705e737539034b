//! One gated append of many rows.

ghost use Rattle.std.specs.Prelude.{◌≡◌, ◌⊎◌, ◌≤◌, ◌<◌, ◌+◌, ◌*◌, ◌++◌, List, ℕ, length, All, OnOk, OnErr, IsErrOf};
ghost use Rattle.hay_disk.specs.Counts.{IsCounted};
ghost use Rattle.hay_disk.specs.Disk.{IsImage, IsSolid, IsSolidIn, Changes, KeepsOthers};
ghost use Rattle.hay_disk.specs.Gate.{IsGate};
ghost use Rattle.hay_disk.specs.declared.disk.DiskFault.{DiskFault};
ghost use Rattle.hay_dirfile.specs.Journal.{journal_magic, journal_end, IsJournal};
ghost use Rattle.hay_dirfile.specs.declared.row.DirRow.{DirRow};

use crate::photo::MAX_PHOTOS;
use crate::rows::{ROW_MAGIC, encode_rows};
use hay_dirfile::{DirRow, JOURNAL_FILE, Journal, ROW_LEN};
use hay_disk::{Disk, DiskFault, gate_append};
use std::alloc::Global;

// The number of bytes of a magic.
const MAGIC_LEN: usize = 8;

/// Adds rows at the end. They are on the disk then, and the next row may follow.
/// A value that was refused with `Failed` must not be used for another row.
pub fn settle_many<D: Disk>(
    journal: &mut Journal,
    alloc: Global,
    disk: &mut D,
    rows: &[DirRow],
) -> Result<(), DiskFault>
    requires some { 0 < length rows.now }
    requires most { length rows.now ≤ MAX_PHOTOS }
    requires gate { D.Tells → IsGate journal_magic journal.old.end (D.files disk.old 0) }

    ensures moved { D.Tells → OnOk result (journal.new ≡ record { end = journal.old.end + 24 * length rows.now }) }
    ensures stayed { OnErr result (journal.new ≡ journal.old) }
    ensures no_memory { D.Tells → IsErrOf result DiskFault.NoMemory → D.files disk.new ≡ D.files disk.old }

    // At `Ok` the journal has these rows too, all of it is on the disk, and the next row may follow.
    ensures added { D.Tells → OnOk result ((superblock : List ℕ) (volumes : ℕ) (old : List DirRow) → All (λ row. row.volume < volumes) rows.now →
        journal.old.end ≡ journal_end old →
        IsJournal superblock volumes (D.files disk.old 0).now old →
        IsJournal superblock volumes (D.files disk.new 0).now (old ++ rows.now)) }
    ensures solid { D.Tells → OnOk result (IsSolid (D.files disk.new 0)) }
    ensures next { D.Tells → OnOk result (IsGate journal_magic journal.new.end (D.files disk.new 0)) }

    // Whatever a stop leaves, then or after a refusal, has the rows from before, with all of these or with none.
    ensures left { D.Tells → (superblock : List ℕ) (volumes : ℕ) (old : List DirRow) (image : List ℕ) → All (λ row. row.volume < volumes) rows.now →
        journal.old.end ≡ journal_end old →
        IsJournal superblock volumes (D.files disk.old 0).now old →
        IsSolidIn 0 journal.old.end (D.files disk.old 0) →
        IsImage (D.files disk.new 0) image →
        IsJournal superblock volumes image old ⊎ IsJournal superblock volumes image (old ++ rows.now) }

    ensures changes { D.Tells → Changes journal.old.end (24 * length rows.now + 8) (D.files disk.old 0) (D.files disk.new 0) }
    ensures others { D.Tells → KeepsOthers 0 (D.files disk.old) (D.files disk.new) }
    ensures drawn { D.Tells → (n : ℕ) → D.drawn disk.new n ≡ D.drawn disk.old n }
    ensures counted { IsCounted (D.fault_count disk.old) (D.fault_count disk.new) (IsErrOf result DiskFault.Failed) }
    ensures fuses { D.fuse_count disk.new ≡ D.fuse_count disk.old }
{
    let bytes = encode_rows(alloc, rows)?;
    let body = &bytes.as_slice()[MAGIC_LEN..];
    gate_append(disk, JOURNAL_FILE, journal.end, ROW_MAGIC, body)?;
    journal.end = journal.end.saturating_add((ROW_LEN * rows.len()) as u64);
    Ok(())
}
