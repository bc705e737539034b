//! Opening a replica's disk: formatting a void one, and else reading its head, the superblock of its volume file and its
//! index, looking at the head of the last recorded needle, and scanning the cells behind it, which no record names. It
//! stands on `hay_head`, `hay_volume`, `hay_index` and `hay_map`.
//!
//! Over a disk that is whole it answers the last cell of each pair: of one that has no record whether it was deleted, or
//! the piece by which its photo is fetched; of one that has a record where it stands, deleted or not. Needles that it need
//! not read are not read: over a disk that is not whole it names damage exactly where something that it does read is not
//! of the format, at the first such place in the order in which it reads: the head file; the superblock of the volume
//! file; the index; the head of the last recorded needle; the cells behind that needle.
#![tactic(auto)]

ghost use Rattle.std.specs.Prelude.{◌≡◌, ◌⊎◌, ◌≤◌, ◌<◌, ◌+◌, ℕ, List, false, Err, IfOk, IfErr, OnOk, OnErr, IsErrOf, ◌*◌, length};
ghost use Rattle.hay_needle.specs.declared.settings.Super.{Super};
ghost use Rattle.hay_needle.specs.declared.needle.Pair.{Pair};
ghost use Rattle.hay_disk.specs.Counts.{Rose};
ghost use Rattle.hay_disk.specs.Disk.{IsFree, IsSolid, MayLeave};
ghost use Rattle.hay_map.specs.declared.place.Place.TheVariants as place;
ghost use Rattle.hay_map.specs.Rows.{last_place};
ghost use Rattle.hay_needle.specs.Sizes.{needle_total};
ghost use Rattle.hay_open.specs.Damage.{IsOpeningDamage};
ghost use Rattle.hay_open.specs.Finds.{ArePlacesWithin, IsReady, MayFlagEach, OpenedAs, ReadsWhole, drawn_most};
ghost use Rattle.hay_open.specs.Stored.{Stored, IsReplicaFile, IsVoid, OpensAs, PlaceOf, fresh_stored, last_cell};
ghost use Rattle.hay_open.specs.Stored as stored;

mod fault;
mod files;
mod format;
mod listing;
mod opened;
mod places;
mod read;
mod record;

use crate::fault::Refusal;
use crate::format::format_disk;
use crate::read::read_disk;
pub use fault::OpenFault;
pub use files::{
    HEAD_FILE, head_super, index_file, index_super, read_numbers, volume_file, volume_super,
};
use hay_disk::{Disk, Failed};
use hay_needle::{LAST_GENERATION, Super};
pub use opened::Opened;
pub use record::head_at;
use std::alloc::Global;

/// Opens the disk of a replica. The superblock gives the settings, the volume and the replica.
pub fn open_replica<D: Disk>(
    alloc: Global,
    disk: &mut D,
    sup: &Super,
) -> Result<Opened<D::Piece>, OpenFault>
    requires solid { D.Tells → (n : ℕ) → IsSolid (D.files disk.old n) }
    requires free { D.Tells → (n : ℕ) → IsFree (D.files disk.old n) }

    // A disk that is void or whole is opened as what it has.
    ensures opened { D.Tells → (s : Stored) → OpensAs sup.now (λ n. (D.files disk.old n).now) s →
        IfOk result (λ opened. OpenedAs sup.now (D.files disk.new) opened s) }
    ensures places { D.Tells → (s : Stored) → OpensAs sup.now (λ n. (D.files disk.old n).now) s →
        IfOk result (λ opened. (pair : Pair) → PlaceOf D.Piece.Tells (last_cell s.cells pair) (last_place opened.cells.items pair place.None)) }

    // No more is read of the volume file than its superblock, the head of the last recorded needle, the cells that have no
    // record, which are noted in the index, and the magic behind them.
    ensures drawn { D.Tells → IfOk result (λ opened. D.drawn disk.new opened.volume.file ≤ D.drawn disk.old opened.volume.file + drawn_most opened.index.pending) }

    // What is opened was void, or all that the opening reads of it is of the format.
    ensures whole { D.Tells → IfOk result (λ opened.
        IsVoid (λ n. (D.files disk.old n).now) ⊎ ReadsWhole D.Piece.Tells sup.now (λ n. (D.files disk.old n).now) opened) }
    // So it is of each disk as it is then: one that was void is formatted.
    ensures reads { D.Tells → IfOk result (ReadsWhole D.Piece.Tells sup.now (λ n. (D.files disk.new n).now)) }
    ensures undamaged { D.Tells → OnOk result ((file at : ℕ) → IsOpeningDamage sup.now (λ n. (D.files disk.old n).now) file at → ⊥) }
    ensures undamaged_now { D.Tells → OnOk result ((file at : ℕ) → IsOpeningDamage sup.now (λ n. (D.files disk.new n).now) file at → ⊥) }

    // Whatever the disk had, a row, a cell and a block may be appended to what was opened, and all of the disk is solid.
    ensures ready { D.Tells → IfOk result (λ opened. IsReady (D.files disk.new) opened) }
    ensures flags { D.Tells → IfOk result (MayFlagEach (D.files disk.new)) }
    ensures open { IfOk result (λ opened. opened.index.frozen ≡ false) }
    ensures capacity { IfOk result (λ opened. opened.volume.capacity ≡ sup.now.settings.capacity) }
    ensures most { IfOk result (λ opened. opened.head.generation ≤ LAST_GENERATION) }
    // The cells that have no record stand there, and so does each needle that a place has.
    ensures number { IfOk result (λ opened. opened.volume.file ≡ stored.volume_file opened.head.generation) }
    ensures from { IfOk result (λ opened. 64 + length opened.index.pending * needle_total 0 ≤ opened.volume.end) }
    ensures within { IfOk result (λ opened. ArePlacesWithin opened.volume.end opened.cells.items) }
    ensures solid { D.Tells → OnOk result ((n : ℕ) → IsSolid (D.files disk.new n)) }

    // A disk that is not void keeps its bytes, and all of it stays on the disk. Of one that is void only the files 0, 1 and 2
    // change, and it is void still where memory was wanting.
    ensures kept { D.Tells → (IsVoid (λ n. (D.files disk.old n).now) → ⊥) → (n : ℕ) → (D.files disk.new n).now ≡ (D.files disk.old n).now }
    ensures stays { D.Tells → (IsVoid (λ n. (D.files disk.old n).now) → ⊥) → (n : ℕ) → IsSolid (D.files disk.new n) }
    ensures others { D.Tells → IsVoid (λ n. (D.files disk.old n).now) → (n : ℕ) → 2 < n → D.files disk.new n ≡ D.files disk.old n }
    ensures void { D.Tells → IsVoid (λ n. (D.files disk.old n).now) → IsErrOf result OpenFault.NoMemory → D.files disk.new 0 ≡ D.files disk.old 0 }

    // Whatever a stop leaves of a disk that was void, an opening of it finds nothing, by whatever superblock.
    ensures nothing { D.Tells → IsVoid (λ n. (D.files disk.old n).now) → (image : ℕ → List ℕ) → MayLeave (D.files disk.new) image →
        (other : Super) (s : Stored) → OpensAs other image s → s ≡ fresh_stored }

    // Whatever the disk tells, damage is named in a file of a replica. It comes only where the disk is neither void nor
    // whole, and is named at its place.
    ensures file { (file at : ℕ) → result ≡ Err (OpenFault.Damaged file at) → IsReplicaFile file }
    ensures damaged { D.Tells → (file at : ℕ) → result ≡ Err (OpenFault.Damaged file at) → IsOpeningDamage sup.now (λ n. (D.files disk.old n).now) file at }
    ensures only { D.Tells → (s : Stored) → OpensAs sup.now (λ n. (D.files disk.old n).now) s →
        (file at : ℕ) → result ≡ Err (OpenFault.Damaged file at) → ⊥ }

    ensures failed { IfErr result (λ fault. (faults : ℕ) → fault ≡ OpenFault.Failed faults → Rose (D.fault_count disk.old) (D.fault_count disk.new) × (faults ≡ D.fault_count disk.new)) }
    ensures counts { D.fault_count disk.old ≤ D.fault_count disk.new }
    ensures fuses { D.fuse_count disk.new ≡ D.fuse_count disk.old }
{
    match disk.size(HEAD_FILE) {
        Ok(0) => match format_disk(alloc, disk, sup) {
            Ok(opened) => Ok(opened),
            Err(refusal) => Err(refusal.told(disk)),
        },
        Ok(_) => match read_disk(alloc, disk, sup) {
            Ok(opened) => Ok(opened),
            Err(refusal) => Err(refusal.told(disk)),
        },
        Err(Failed) => Err(Refusal::Failed.told(disk)),
    }
}
