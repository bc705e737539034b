//! A journal and its end.

ghost use Rattle.std.specs.Prelude.{◌≡◌, ◌⊎◌, ◌≤◌, ◌<◌, ◌+◌, ◌-◌, List, [], ◌∷◌, ◌++◌, ℕ, length, Ok, Err, IfOk, IfErr, OnOk, OnErr, IsErrOf};
ghost use Rattle.std.specs.List.{All};
ghost use Rattle.hay_disk.specs.Counts.{IsCounted, Rose};
ghost use Rattle.hay_disk.specs.Disk.{IsImage, IsSolid, IsSolidIn, IsFree, IsFreeIn, Changes, KeepsOthers};
ghost use Rattle.hay_disk.specs.Gate.{IsGate, end_mark};
ghost use Rattle.hay_needle.specs.Super.{SuperFits, super_bytes};
ghost use Rattle.hay_head.specs.declared.blocks.TheConstants.{BLOCK_LEN};
ghost use Rattle.hay_dirfile.specs.Journal.{journal_magic, journal_end, IsJournal, IsDamagedJournal};
ghost use Rattle.hay_dirfile.specs.declared.row.DirRow.{DirRow};

use crate::fault::{OpenFault, RowsFault, open_fault};
use crate::row::{DirRow, ROW_LEN, ROW_MAGIC, row_body};
use crate::scan::{JOURNAL_FILE, read_rows};
use hay_disk::{Disk, DiskFault, gate_append};
use hay_needle::{SUPER_LEN, Super, write_super};
use std::alloc::Global;

/// The journal of a disk, which is its file 0. Its next row comes at `end`.
#[derive(Clone, Copy, Debug, PartialEq, Eq)]
pub struct Journal {
    pub end: u64,
}

impl Journal {
    /// Opens a journal, and answers its rows in order. A file of size 0 is formatted: a superblock and the end mark are
    /// written in one write, and are on the disk then.
    ///
    /// `Damaged` names the first place that is none of a journal with this superblock: that of the superblock's first
    /// fault, or that of the first row that is cut off or whose volume there is not. `NoMemory` leaves the files as
    /// they were.
    pub fn open<D: Disk>(
        alloc: Global,
        disk: &mut D,
        sup: &Super,
    ) -> Result<(Journal, Vec<DirRow>), OpenFault>
        requires solid { D.Tells → IsSolid (D.files disk.old 0) }
        requires free { D.Tells → IsFree (D.files disk.old 0) }

        // At `Ok` the file is a journal of these rows, all of it is on the disk, and the next row may follow.
        ensures rows { D.Tells → IfOk result (λ opened. IsJournal (super_bytes sup.now) sup.now.settings.volumes (D.files disk.new 0).now opened.1.items) }
        ensures end { D.Tells → IfOk result (λ opened. opened.0.end ≡ journal_end opened.1.items) }
        ensures rest { D.Tells → IfOk result (λ _. IsSolid (D.files disk.new 0)) }
        ensures next { D.Tells → IfOk result (λ opened. IsGate journal_magic opened.0.end (D.files disk.new 0)) }
        // Whatever the disk tells, each row is of a volume that there is.
        ensures within { IfOk result (λ opened. All (λ row. row.volume < sup.now.settings.volumes) opened.1.items) }

        // A file of size 0 has no rows. Any other stays as it is.
        ensures void { D.Tells → (D.files disk.old 0).now ≡ [] → IfOk result (λ opened. opened.1.items ≡ []) }
        ensures same { D.Tells → 0 < length (D.files disk.old 0).now → D.files disk.new ≡ D.files disk.old }
        ensures damaged { D.Tells → (file at : ℕ) → result ≡ Err (OpenFault.Damaged file at) →
            (file ≡ 0) × (0 < length (D.files disk.old 0).now) × IsDamagedJournal sup.now (D.files disk.old 0).now at }
        // Whatever the disk tells, it has this file alone.
        ensures file { (file at : ℕ) → result ≡ Err (OpenFault.Damaged file at) → file ≡ 0 }
        ensures undamaged { D.Tells → 0 < length (D.files disk.old 0).now → OnOk result ((at : ℕ) → IsDamagedJournal sup.now (D.files disk.old 0).now at → ⊥) }

        // What was opened is not damaged now.
        ensures undamaged_now { D.Tells → OnOk result ((at : ℕ) → IsDamagedJournal sup.now (D.files disk.new 0).now at → ⊥) }
        // Whatever a stop leaves of a file of size 0 has no rows, then or after a refusal.
        ensures nothing { D.Tells → (D.files disk.old 0).now ≡ [] → (superblock image : List ℕ) (volumes : ℕ) (rows : List DirRow) →
            IsImage (D.files disk.new 0) image → IsJournal superblock volumes image rows → rows ≡ [] }

        // A journal is opened with its rows, unless the disk fails or memory is wanting.
        ensures exact { D.Tells → (rows : List DirRow) → IsJournal (super_bytes sup.now) sup.now.settings.volumes (D.files disk.old 0).now rows →
            IfOk result (λ opened. opened.1.items ≡ rows) }
        ensures only { D.Tells → (rows : List DirRow) (file at : ℕ) → IsJournal (super_bytes sup.now) sup.now.settings.volumes (D.files disk.old 0).now rows →
            result ≡ Err (OpenFault.Damaged file at) → ⊥ }

        ensures failed { (faults : ℕ) → result ≡ Err (OpenFault.Failed faults) →
            (faults ≡ D.fault_count disk.new) × Rose (D.fault_count disk.old) (D.fault_count disk.new) }
        ensures later { D.fault_count disk.old ≤ D.fault_count disk.new }
        ensures no_memory { D.Tells → IsErrOf result OpenFault.NoMemory → D.files disk.new ≡ D.files disk.old }
        ensures changes { D.Tells → Changes 0 72 (D.files disk.old 0) (D.files disk.new 0) }
        ensures others { D.Tells → KeepsOthers 0 (D.files disk.old) (D.files disk.new) }
        ensures drawn { D.Tells → IfOk result (λ opened. D.drawn disk.new 0 ≤ D.drawn disk.old 0 + opened.0.end + BLOCK_LEN) }
        ensures drawn_others { D.Tells → KeepsOthers 0 (D.drawn disk.old) (D.drawn disk.new) }
        ensures fuses { D.fuse_count disk.new ≡ D.fuse_count disk.old }
    {
        match open_rows(alloc, disk, sup) {
            Ok((rows, end)) => Ok((Journal { end }, rows)),
            Err(fault) => Err(open_fault(fault, disk.faults())),
        }
    }

    /// Adds a row at the end. It is on the disk then, and the next row may follow.
    /// A value that was refused with `Failed` must not be used for another row.
    pub fn settle_row<D: Disk>(&mut self, disk: &mut D, row: DirRow) -> Result<(), DiskFault>
        requires gate { D.Tells → IsGate journal_magic self.old.end (D.files disk.old 0) }

        ensures moved { D.Tells → OnOk result (self.new ≡ record { end = self.old.end + 24 }) }
        ensures stayed { OnErr result (self.new ≡ self.old) }
        ensures no_memory { D.Tells → IsErrOf result DiskFault.NoMemory → D.files disk.new ≡ D.files disk.old }

        // At `Ok` the journal has one more row, all of it is on the disk, and the next row may follow.
        ensures added { D.Tells → OnOk result ((superblock : List ℕ) (volumes : ℕ) (rows : List DirRow) → row.volume < volumes →
            self.old.end ≡ journal_end rows →
            IsJournal superblock volumes (D.files disk.old 0).now rows →
            IsJournal superblock volumes (D.files disk.new 0).now (rows ++ row ∷ [])) }
        ensures solid { D.Tells → OnOk result (IsSolid (D.files disk.new 0)) }
        ensures next { D.Tells → OnOk result (IsGate journal_magic self.new.end (D.files disk.new 0)) }

        // Whatever a stop leaves, then or after a refusal, has the rows from before, with the new one or without.
        ensures left { D.Tells → (superblock : List ℕ) (volumes : ℕ) (rows : List DirRow) (image : List ℕ) → row.volume < volumes →
            self.old.end ≡ journal_end rows →
            IsJournal superblock volumes (D.files disk.old 0).now rows →
            IsSolidIn 0 self.old.end (D.files disk.old 0) →
            IsImage (D.files disk.new 0) image →
            IsJournal superblock volumes image rows ⊎ IsJournal superblock volumes image (rows ++ row ∷ []) }

        ensures changes { D.Tells → Changes self.old.end 32 (D.files disk.old 0) (D.files disk.new 0) }
        ensures others { D.Tells → KeepsOthers 0 (D.files disk.old) (D.files disk.new) }
        ensures drawn { D.Tells → (n : ℕ) → D.drawn disk.new n ≡ D.drawn disk.old n }
        ensures counted { IsCounted (D.fault_count disk.old) (D.fault_count disk.new) (IsErrOf result DiskFault.Failed) }
        ensures fuses { D.fuse_count disk.new ≡ D.fuse_count disk.old }
    {
        gate_append(disk, JOURNAL_FILE, self.end, ROW_MAGIC, &row_body(row))?;
        self.end = self.end.saturating_add(ROW_LEN as u64);
        Ok(())
    }
}

// Formats a journal of size 0, and else reads it: the rows, and where they end.
fn open_rows<D: Disk>(
    alloc: Global,
    disk: &mut D,
    sup: &Super,
) -> Result<(Vec<DirRow>, u64), RowsFault>
    requires free { D.Tells → IsFree (D.files disk.old 0) }
    ensures rows { D.Tells → IfOk result (λ scan. IsJournal (super_bytes sup.now) sup.now.settings.volumes (D.files disk.new 0).now scan.0.items) }
    ensures within { IfOk result (λ scan. All (λ row. row.volume < sup.now.settings.volumes) scan.0.items) }
    ensures end { D.Tells → IfOk result (λ scan. scan.1 ≡ journal_end scan.0.items) }
    ensures rest { D.Tells → IsSolid (D.files disk.old 0) → IfOk result (λ _. IsSolid (D.files disk.new 0)) }
    ensures free { D.Tells → IsFree (D.files disk.new 0) }
    ensures void { D.Tells → (D.files disk.old 0).now ≡ [] → IfOk result (λ scan. scan.0.items ≡ []) }
    ensures same { D.Tells → 0 < length (D.files disk.old 0).now → D.files disk.new ≡ D.files disk.old }
    ensures damaged { D.Tells → (at : ℕ) → result ≡ Err (RowsFault.Damaged at) →
        (0 < length (D.files disk.old 0).now) × IsDamagedJournal sup.now (D.files disk.old 0).now at }
    ensures undamaged { D.Tells → 0 < length (D.files disk.old 0).now → OnOk result ((at : ℕ) → IsDamagedJournal sup.now (D.files disk.old 0).now at → ⊥) }
    ensures undamaged_now { D.Tells → OnOk result ((at : ℕ) → IsDamagedJournal sup.now (D.files disk.new 0).now at → ⊥) }
    ensures exact { D.Tells → (rows : List DirRow) → IsJournal (super_bytes sup.now) sup.now.settings.volumes (D.files disk.old 0).now rows →
        IfOk result (λ scan. scan.0.items ≡ rows) }
    ensures only { D.Tells → (rows : List DirRow) → IsJournal (super_bytes sup.now) sup.now.settings.volumes (D.files disk.old 0).now rows →
        IfErr result (λ fault. (fault ≡ RowsFault.Failed) ⊎ (fault ≡ RowsFault.NoMemory)) }
    ensures no_memory { D.Tells → IsErrOf result RowsFault.NoMemory → D.files disk.new ≡ D.files disk.old }
    ensures changes { D.Tells → Changes 0 72 (D.files disk.old 0) (D.files disk.new 0) }
    ensures others { D.Tells → KeepsOthers 0 (D.files disk.old) (D.files disk.new) }
    ensures drawn { D.Tells → IfOk result (λ scan. D.drawn disk.new 0 ≤ D.drawn disk.old 0 + scan.1 + BLOCK_LEN) }
    ensures drawn_others { D.Tells → KeepsOthers 0 (D.drawn disk.old) (D.drawn disk.new) }
    ensures counted { IsCounted (D.fault_count disk.old) (D.fault_count disk.new) (IsErrOf result RowsFault.Failed) }
    ensures fuses { D.fuse_count disk.new ≡ D.fuse_count disk.old }
{
    if disk.size(JOURNAL_FILE)? > 0 {
        return read_rows(alloc, disk, sup);
    }
    format(disk, sup)?;
    Ok((Vec::new(alloc), SUPER_LEN as u64))
}

// Writes a journal without rows over the front of the file, and has it on the disk.
fn format<D: Disk>(disk: &mut D, sup: &Super) -> Result<(), DiskFault>
    requires { D.Tells → IsFreeIn 0 72 (D.files disk.old 0) }
    ensures empty { D.Tells → OnOk result (IsJournal (super_bytes sup.now) sup.now.settings.volumes (D.files disk.new 0).now []) }
    ensures solid { D.Tells → OnOk result (IsSolid (D.files disk.new 0)) }
    ensures undamaged_now { D.Tells → OnOk result ((at : ℕ) → IsDamagedJournal sup.now (D.files disk.new 0).now at → ⊥) }
    ensures no_memory { D.Tells → IsErrOf result DiskFault.NoMemory → D.files disk.new ≡ D.files disk.old }
    ensures changes { D.Tells → Changes 0 72 (D.files disk.old 0) (D.files disk.new 0) }
    ensures others { D.Tells → KeepsOthers 0 (D.files disk.old) (D.files disk.new) }
    ensures drawn { D.Tells → (n : ℕ) → D.drawn disk.new n ≡ D.drawn disk.old n }
    ensures counted { IsCounted (D.fault_count disk.old) (D.fault_count disk.new) (IsErrOf result DiskFault.Failed) }
    ensures fuses { D.fuse_count disk.new ≡ D.fuse_count disk.old }
{
    read_numbers(sup);
    disk.write(JOURNAL_FILE, 0, &empty_file(sup))?;
    disk.sync(JOURNAL_FILE)?;
    Ok(())
}

// The numbers behind a reference fit their types, once each was read.
fn read_numbers(sup: &Super)
    ensures { SuperFits sup.now }
{
    let _machines = sup.settings.machines;
    let _volumes = sup.settings.volumes;
    let _replicas = sup.settings.replicas;
    let _capacity = sup.settings.capacity;
    let _volume = sup.volume;
    let _replica = sup.replica;
    let _generation = sup.generation;
}

// The bytes of a journal without rows.
fn empty_file(sup: &Super) -> [u8; 72]
    ensures { result ≡ super_bytes sup.now ++ end_mark }
{
    let mut bytes = [0; 72];
    bytes[..SUPER_LEN].copy_from_slice(&write_super(sup));
    bytes
}
