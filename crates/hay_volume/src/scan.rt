//! Reading the cells of a volume file one after another.

ghost use Rattle.std.specs.Prelude.{◌≡◌, ◌⊎◌, ◌≤◌, ◌<◌, ◌+◌, ◌-◌, ◌^◌, List, ℕ, length, map, take, drop, vec_len, Err, IsErrOf, IfOk, IfSome, IfNone};
ghost use Rattle.std.specs.Bool.{OnTrue, OnFalse};
ghost use Rattle.hay_disk.specs.Counts.{IsCounted};
ghost use Rattle.hay_disk.specs.Disk.{KeepsOthers};
ghost use Rattle.hay_disk.specs.Gate.{IsClosed, magic_bytes};
ghost use Rattle.hay_needle.specs.Needle.{BeginsWithNeedle, needle_magic};
ghost use Rattle.hay_needle.specs.Sizes.{needle_total};
ghost use Rattle.hay_needle.specs.declared.needle.Cell.{Cell};
ghost use Rattle.hay_needle.specs.declared.needle.Needle.{Needle};
ghost use Rattle.hay_volume.specs.Cells.{HasCells, IsBrokenAt, IsDamagedCell, StandsCell, cell_head};
ghost use Rattle.hay_volume.specs.Needles.{AreHeadsFrom};

use crate::fault::CellFault;
use crate::reading::{read_rest, read_up_to};
use crate::volume::VolumeFile;
use hay_disk::Disk;
use hay_needle::{CellHead, HEAD_LEN, NEEDLE_MAGIC, read_head, total_of, u64_at};
use std::alloc::Global;

// Whether a needle's magic stands at `at`. `bytes` then has it.
fn begins_cell<D: Disk>(
    disk: &mut D,
    file: u32,
    at: u64,
    bytes: &mut Vec<u8>,
) -> Result<bool, CellFault>
    ensures mark { D.Tells → IfOk result (λ begins. OnFalse begins (IsClosed needle_magic at (D.files disk.old file).now)) }
    ensures magic { D.Tells → IfOk result (λ begins. OnTrue begins (take 8 (drop at (D.files disk.old file).now) ≡ magic_bytes needle_magic)) }
    ensures read { D.Tells → IfOk result (λ _. bytes.new.items ≡ take 8 (drop at (D.files disk.old file).now)) }
    ensures eight { IfOk result (λ _. vec_len bytes.new ≡ 8) }
    ensures place { (k : ℕ) → result ≡ Err (CellFault.Damaged k) → k ≡ at }
    ensures short { D.Tells → IsErrOf result (CellFault.Damaged at) → length (D.files disk.old file).now < at + 8 }
    ensures same { D.Tells → D.files disk.new ≡ D.files disk.old }
    ensures drawn { D.Tells → D.drawn disk.new file ≤ D.drawn disk.old file + 8 }
    ensures drawn_others { D.Tells → KeepsOthers file (D.drawn disk.old) (D.drawn disk.new) }
    ensures counted { IsCounted (D.fault_count disk.old) (D.fault_count disk.new) (IsErrOf result CellFault.Failed) }
    ensures fuses { D.fuse_count disk.new ≡ D.fuse_count disk.old }
{
    bytes.clear();
    read_up_to(disk, file, at, 8, bytes)?;
    if bytes.len() < 8 {
        return Err(CellFault::Damaged { at });
    }
    if u64_at(bytes.as_slice(), 0) != NEEDLE_MAGIC {
        return Ok(false);
    }
    Ok(true)
}

// The cell whose magic stands at `at`, which `bytes` has.
fn read_cell<D: Disk>(
    disk: &mut D,
    file: u32,
    at: u64,
    bytes: &mut Vec<u8>,
) -> Result<CellHead, CellFault>
    requires { vec_len bytes.old ≡ 8 }
    ensures place { IfOk result (λ head. head.at ≡ at) }
    ensures cell { D.Tells → bytes.old.items ≡ take 8 (drop at (D.files disk.old file).now)
        → IfOk result (λ head. (cell : Cell) × StandsCell at (D.files disk.old file).now cell × (head ≡ cell_head cell)) }
    ensures damage { (k : ℕ) → result ≡ Err (CellFault.Damaged k) → k ≡ at }
    ensures damaged { D.Tells → bytes.old.items ≡ take 8 (drop at (D.files disk.old file).now) → IsErrOf result (CellFault.Damaged at)
        → (n : Needle) → BeginsWithNeedle (drop at (D.files disk.old file).now) n → ⊥ }
    ensures same { D.Tells → D.files disk.new ≡ D.files disk.old }
    ensures drawn { D.Tells → IfOk result (λ head. D.drawn disk.new file + 8 ≤ D.drawn disk.old file + needle_total head.size) }
    ensures drawn_others { D.Tells → KeepsOthers file (D.drawn disk.old) (D.drawn disk.new) }
    ensures counted { IsCounted (D.fault_count disk.old) (D.fault_count disk.new) (IsErrOf result CellFault.Failed) }
    ensures fuses { D.fuse_count disk.new ≡ D.fuse_count disk.old }
{
    read_up_to(disk, file, at, HEAD_LEN, bytes)?;
    let Ok(head) = read_head(bytes.as_slice(), at) else {
        return Err(CellFault::Damaged { at });
    };
    read_rest(disk, file, head, bytes)?;
    Ok(head)
}

// The cell at `at`, or none where the end mark stands there.
fn next_cell<D: Disk>(
    disk: &mut D,
    file: u32,
    at: u64,
    bytes: &mut Vec<u8>,
) -> Result<Option<CellHead>, CellFault>
    ensures cell { D.Tells → IfOk result (λ next. IfSome next (λ head. (cell : Cell) × StandsCell at (D.files disk.old file).now cell × (head ≡ cell_head cell))) }
    ensures place { IfOk result (λ next. IfSome next (λ head. head.at ≡ at)) }
    ensures mark { D.Tells → IfOk result (λ next. IfNone next (IsClosed needle_magic at (D.files disk.old file).now)) }
    ensures damaged { D.Tells → (k : ℕ) → result ≡ Err (CellFault.Damaged k) → (k ≡ at) × IsBrokenAt at (D.files disk.old file).now }
    ensures same { D.Tells → D.files disk.new ≡ D.files disk.old }
    ensures drawn_cell { D.Tells → IfOk result (λ next. IfSome next (λ head. D.drawn disk.new file ≤ D.drawn disk.old file + needle_total head.size)) }
    ensures drawn_mark { D.Tells → IfOk result (λ next. IfNone next (D.drawn disk.new file ≤ D.drawn disk.old file + 8)) }
    ensures drawn_others { D.Tells → KeepsOthers file (D.drawn disk.old) (D.drawn disk.new) }
    ensures counted { IsCounted (D.fault_count disk.old) (D.fault_count disk.new) (IsErrOf result CellFault.Failed) }
    ensures fuses { D.fuse_count disk.new ≡ D.fuse_count disk.old }
{
    if !begins_cell(disk, file, at, bytes)? {
        return Ok(None);
    }
    let head = read_cell(disk, file, at, bytes)?;
    Ok(Some(head))
}

impl VolumeFile {
    /// Reads the cells from `at` on, and answers them and where they end: there the end mark stands.
    ///
    /// `Damaged` comes exactly where the magic stands and no needle, or where the file ends before the end mark.
    pub fn scan_from<D: Disk>(
        &self,
        alloc: Global,
        disk: &mut D,
        at: u64,
    ) -> Result<(Vec<CellHead>, u64), CellFault>
        ensures cells { D.Tells → IfOk result (λ scan. (cells : List Cell) × HasCells at (D.files disk.old self.now.file).now cells scan.1 × (scan.0.items ≡ map cell_head cells)) }
        ensures mark { D.Tells → IfOk result (λ scan. IsClosed needle_magic scan.1 (D.files disk.old self.now.file).now) }
        ensures damaged { D.Tells → (k : ℕ) → result ≡ Err (CellFault.Damaged k) → IsDamagedCell at (D.files disk.old self.now.file).now k }
        // On any disk they stand one behind another.
        ensures row { IfOk result (λ scan. AreHeadsFrom at scan.0.items scan.1) }

        ensures same { D.Tells → D.files disk.new ≡ D.files disk.old }
        // No more is read than the needles and the end mark.
        ensures drawn { D.Tells → IfOk result (λ scan. D.drawn disk.new self.now.file + at ≤ D.drawn disk.old self.now.file + scan.1 + 8) }
        ensures drawn_others { D.Tells → KeepsOthers self.now.file (D.drawn disk.old) (D.drawn disk.new) }
        ensures counted { IsCounted (D.fault_count disk.old) (D.fault_count disk.new) (IsErrOf result CellFault.Failed) }
        ensures fuses { D.fuse_count disk.new ≡ D.fuse_count disk.old }
    {
        let mut heads = Vec::new(alloc);
        let mut bytes = Vec::new(alloc);
        let mut end = at;
        'cells: loop {
            let Some(head) = next_cell(disk, self.file, end, &mut bytes)? else {
                return Ok((heads, end));
            };
            heads.push(head)?;
            let Some(next) = end.checked_add(total_of(head.size)) else {
                return Err(CellFault::Damaged { at: end });
            };
            end = next;
        }
    }
}
