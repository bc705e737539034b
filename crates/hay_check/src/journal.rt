//! Checking the journal of the Directory's disk.

ghost use Rattle.std.specs.Prelude.{◌≡◌, ◌≤◌, ◌+◌, ℕ, List, length, Err, IfOk, IsErrOf};
ghost use Rattle.hay_disk.specs.Counts.{IsCounted};
ghost use Rattle.hay_needle.specs.Super.{super_bytes};
ghost use Rattle.hay_dirfile.specs.Journal.{IsDamagedJournal, IsJournal};
ghost use Rattle.hay_dirfile.specs.declared.row.DirRow.{DirRow};

use crate::fault::Refusal;
use hay_dirfile::{Due, JOURNAL_FILE, ROW_LEN, read_row};
use hay_disk::Disk;
use hay_head::{BlockReader, read_front};
use hay_needle::{SUPER_LEN, Super};

/// How many rows a journal has.
pub(crate) fn count_rows<D: Disk>(disk: &mut D, sup: &Super) -> Result<u64, Refusal>
    ensures rows { D.Tells → IfOk result (λ count. (rows : List DirRow) × IsJournal (super_bytes sup.now) sup.now.settings.volumes (D.files disk.old 0).now rows × (count ≡ length rows)) }
    ensures damaged { D.Tells → (file at : ℕ) → result ≡ Err (Refusal.Damaged file at) → (file ≡ 0) × IsDamagedJournal sup.now (D.files disk.old 0).now at }
    ensures file { (file at : ℕ) → result ≡ Err (Refusal.Damaged file at) → file ≡ 0 }
    ensures memory { IsErrOf result Refusal.NoMemory → ⊥ }
    ensures same { D.Tells → D.files disk.new ≡ D.files disk.old }
    ensures counted { IsCounted (D.fault_count disk.old) (D.fault_count disk.new) (IsErrOf result Refusal.Failed) }
    ensures fuses { D.fuse_count disk.new ≡ D.fuse_count disk.old }
{
    if let Some(at) = read_front(disk, JOURNAL_FILE, sup)? {
        return Err(Refusal::Damaged {
            file: JOURNAL_FILE,
            at,
        });
    }
    let volumes = sup.settings.volumes;
    let first = SUPER_LEN as u64;
    let mut end = first;
    let mut reader = BlockReader::new(JOURNAL_FILE, end);
    'rows: loop {
        match read_row(&mut reader, disk, end, volumes)? {
            Due::Row(_) => (),
            Due::Mark => return Ok((end - first) / ROW_LEN as u64),
            Due::Broken => {
                return Err(Refusal::Damaged {
                    file: JOURNAL_FILE,
                    at: end,
                });
            }
        }
        let Some(next) = end.checked_add(ROW_LEN as u64) else {
            return Err(Refusal::Damaged {
                file: JOURNAL_FILE,
                at: end,
            });
        };
        end = next;
    }
}
