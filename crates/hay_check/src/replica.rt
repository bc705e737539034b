//! Checking the disk of a replica that is not void.

ghost use Rattle.std.specs.Prelude.{◌≡◌, ◌⊎◌, ◌≤◌, ◌+◌, ℕ, Err, IfOk, IsErrOf};
ghost use Rattle.hay_disk.specs.Counts.{IsCounted};
ghost use Rattle.hay_open.specs.Stored.{Stored, IsReplicaFile, IsStored};
ghost use Rattle.hay_check.specs.Damage.{IsFirstDamage};
ghost use Rattle.hay_check.specs.Verdicts.{IsReplicaVerdict, whole_of};

use crate::counts::{live_count, old_count};
use crate::fault::Refusal;
use crate::listing::check_index;
use crate::verdict::Verdict;
use crate::volume::{Cells, read_cells};
use hay_disk::Disk;
use hay_needle::Super;
use hay_open::{index_file, index_super};
use std::alloc::Global;

/// Reads all files of a disk that its head names. `Ok` is that of a whole disk.
pub(crate) fn check_disk<D: Disk>(
    alloc: Global,
    disk: &mut D,
    sup: &Super,
) -> Result<Verdict, Refusal>
    ensures whole { D.Tells → IfOk result (λ verdict. (s : Stored) × IsStored sup.now (λ n. (D.files disk.old n).now) s × (verdict ≡ whole_of s)) }
    ensures kind { IfOk result IsReplicaVerdict }
    ensures file { (file at : ℕ) → result ≡ Err (Refusal.Damaged file at) → IsReplicaFile file }
    ensures damaged { D.Tells → (file at : ℕ) → result ≡ Err (Refusal.Damaged file at) → IsFirstDamage sup.now (λ n. (D.files disk.old n).now) file at }
    ensures same { D.Tells → D.files disk.new ≡ D.files disk.old }
    ensures counted { IsCounted (D.fault_count disk.old) (D.fault_count disk.new) (IsErrOf result Refusal.Failed) }
    ensures fuses { D.fuse_count disk.new ≡ D.fuse_count disk.old }
{
    let Cells {
        generation,
        heads,
        end,
    } = read_cells(alloc, disk, sup)?;
    let heads = heads.as_slice();
    let records = check_index(
        alloc,
        disk,
        index_file(generation),
        &index_super(sup, generation),
        heads,
    )?;
    let live = live_count(alloc, heads)?;
    Ok(Verdict::Whole {
        generation,
        cells: heads.len() as u64,
        live: live as u64,
        records: records as u64,
        end,
        old: old_count(heads) as u64,
    })
}
