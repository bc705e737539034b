//! Telling whether a disk is void, whole or damaged, and where, by reads alone: no call is made that changes the disk. It
//! stands on `hay_head`, `hay_dirfile`, `hay_volume`, `hay_index` and, for what a replica's disk has, `hay_open`.
//!
//! A disk is void where its file 0 is empty. A replica's disk is read whole, in the order of its files: the head; the
//! superblock of the volume file that it names, all needles with their checksums, and their end mark; the superblock of the
//! index, and its blocks, each of whose records is to be pair, place and size of the cell of its number. The first place that
//! is not of this form is the damage; where there is none the disk is whole, and an opening of it finds what the numbers say.
//! Of the Directory's disk the journal is read, and its rows are counted.
#![tactic(auto)]

ghost use Rattle.std.specs.Prelude.{◌≡◌, ◌⊎◌, ◌≤◌, ◌<◌, ◌+◌, ℕ, Ok, IfOk, IfErr, IsErrOf};
ghost use Rattle.hay_disk.specs.Counts.{Rose};
ghost use Rattle.hay_check.specs.declared.verdict.Verdict.{Verdict};
ghost use Rattle.hay_check.specs.Verdicts.{CheckOf, IsJournalVerdict, IsReplicaVerdict, JournalCheckOf, OpensWhole};

mod counts;
mod fault;
mod journal;
mod listing;
mod replica;
mod verdict;
mod volume;

use crate::fault::Refusal;
use crate::journal::count_rows;
use crate::replica::check_disk;
use hay_disk::{Disk, Failed};
use hay_needle::Super;
use hay_open::{HEAD_FILE, read_numbers};
use std::alloc::Global;
pub use verdict::{CheckFault, Verdict};

/// Checks the disk of a replica. The superblock gives the settings, the volume and the replica.
pub fn check_replica<D: Disk>(
    alloc: Global,
    disk: &mut D,
    sup: &Super,
) -> Result<Verdict, CheckFault>
    // The verdict is that of what the disk has, which has no other.
    ensures verdict { D.Tells → IfOk result (CheckOf sup.now (λ n. (D.files disk.old n).now)) }
    ensures only { D.Tells → (v : Verdict) → CheckOf sup.now (λ n. (D.files disk.old n).now) v → IfOk result (λ told. told ≡ v) }

    // Whatever the disk tells, it is a verdict on a replica's disk, whose numbers fit each other.
    ensures kind { IfOk result IsReplicaVerdict }

    // A disk that is whole is opened as what it has, and without damage.
    ensures opens { D.Tells → (generation cells live records end old : ℕ) → result ≡ Ok (Verdict.Whole generation cells live records end old) →
        OpensWhole sup.now (λ n. (D.files disk.old n).now) (Verdict.Whole generation cells live records end old) }

    ensures same { D.Tells → D.files disk.new ≡ D.files disk.old }
    ensures failed { IfErr result (λ fault. (faults : ℕ) → fault ≡ CheckFault.Failed faults → Rose (D.fault_count disk.old) (D.fault_count disk.new) × (faults ≡ D.fault_count disk.new)) }
    ensures counts { D.fault_count disk.old ≤ D.fault_count disk.new }
    ensures fuses { D.fuse_count disk.new ≡ D.fuse_count disk.old }
{
    read_numbers(sup);
    match disk.size(HEAD_FILE) {
        Ok(0) => Ok(Verdict::Void),
        Ok(_) => match check_disk(alloc, disk, sup) {
            Ok(verdict) => Ok(verdict),
            Err(refusal) => refusal.answer(disk),
        },
        Err(Failed) => Refusal::Failed.answer(disk),
    }
}

/// Checks the disk of the Directory. It takes no memory.
pub fn check_journal<D: Disk>(disk: &mut D, sup: &Super) -> Result<Verdict, CheckFault>
    // The verdict is that of what the disk has, which has no other.
    ensures verdict { D.Tells → IfOk result (JournalCheckOf sup.now (λ n. (D.files disk.old n).now)) }
    ensures only { D.Tells → (v : Verdict) → JournalCheckOf sup.now (λ n. (D.files disk.old n).now) v → IfOk result (λ told. told ≡ v) }

    // Whatever the disk tells, it is a verdict on the Directory's disk.
    ensures kind { IfOk result IsJournalVerdict }

    ensures memory { IsErrOf result CheckFault.NoMemory → ⊥ }
    ensures same { D.Tells → D.files disk.new ≡ D.files disk.old }
    ensures failed { IfErr result (λ fault. (faults : ℕ) → fault ≡ CheckFault.Failed faults → Rose (D.fault_count disk.old) (D.fault_count disk.new) × (faults ≡ D.fault_count disk.new)) }
    ensures counts { D.fault_count disk.old ≤ D.fault_count disk.new }
    ensures fuses { D.fuse_count disk.new ≡ D.fuse_count disk.old }
{
    read_numbers(sup);
    match disk.size(HEAD_FILE) {
        Ok(0) => Ok(Verdict::Void),
        Ok(_) => match count_rows(disk, sup) {
            Ok(rows) => Ok(Verdict::Rows { rows }),
            Err(refusal) => refusal.answer(disk),
        },
        Err(Failed) => Refusal::Failed.answer(disk),
    }
}
