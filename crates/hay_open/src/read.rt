//! Opening a disk that is not void.

ghost use Rattle.std.specs.Prelude.{◌≡◌, ◌⊎◌, ◌≤◌, ◌+◌, ℕ, false, Err, IfOk, OnOk, IsErrOf, ◌*◌, length};
ghost use Rattle.hay_needle.specs.declared.needle.Pair.{Pair};
ghost use Rattle.hay_disk.specs.Counts.{IsCounted};
ghost use Rattle.hay_disk.specs.Disk.{IsFree, IsSolid};
ghost use Rattle.hay_map.specs.declared.place.Place.TheVariants as place;
ghost use Rattle.hay_map.specs.Rows.{last_place};
ghost use Rattle.hay_needle.specs.Sizes.{needle_total};
ghost use Rattle.hay_open.specs.Damage.{IsDamagedFront, IsReadingDamage};
ghost use Rattle.hay_open.specs.Finds.{ArePlacesWithin, IsReady, MayFlagEach, OpenedAs, ReadsWhole, drawn_most};
ghost use Rattle.hay_open.specs.Stored.{Stored, IsReplicaFile, IsStored, PlaceOf, last_cell};
ghost use Rattle.hay_open.specs.Stored as stored;

use crate::fault::Refusal;
use crate::listing::{Listing, read_listing};
use crate::opened::Opened;
use crate::places::open_cells;
use hay_disk::Disk;
use hay_needle::{LAST_GENERATION, Super};
use hay_volume::VolumeFile;
use std::alloc::Global;

// Reads what the files of a disk list, and gives out the pieces of the photos that have no record.
pub(crate) fn read_disk<D: Disk>(
    alloc: Global,
    disk: &mut D,
    sup: &Super,
) -> Result<Opened<D::Piece>, Refusal>
    requires solid { D.Tells → (n : ℕ) → IsSolid (D.files disk.old n) }
    requires free { D.Tells → (n : ℕ) → IsFree (D.files disk.old n) }
    ensures opened { D.Tells → (s : Stored) → IsStored sup.now (λ n. (D.files disk.old n).now) s →
        IfOk result (λ opened. OpenedAs sup.now (D.files disk.new) opened s) }
    ensures places { D.Tells → (s : Stored) → IsStored sup.now (λ n. (D.files disk.old n).now) s →
        IfOk result (λ opened. (pair : Pair) → PlaceOf D.Piece.Tells (last_cell s.cells pair) (last_place opened.cells.items pair place.None)) }
    ensures flags { D.Tells → IfOk result (MayFlagEach (D.files disk.new)) }
    ensures ready { D.Tells → IfOk result (λ opened. IsReady (D.files disk.new) opened) }
    ensures whole { D.Tells → IfOk result (ReadsWhole D.Piece.Tells sup.now (λ n. (D.files disk.old n).now)) }
    ensures front { D.Tells → OnOk result ((file at : ℕ) → IsDamagedFront sup.now (λ n. (D.files disk.old n).now) file at → ⊥) }
    ensures open { IfOk result (λ opened. opened.index.frozen ≡ false) }
    ensures capacity { IfOk result (λ opened. opened.volume.capacity ≡ sup.now.settings.capacity) }
    ensures most { IfOk result (λ opened. opened.head.generation ≤ LAST_GENERATION) }
    ensures number { IfOk result (λ opened. opened.volume.file ≡ stored.volume_file opened.head.generation) }
    ensures from { IfOk result (λ opened. 64 + length opened.index.pending * needle_total 0 ≤ opened.volume.end) }
    ensures within { IfOk result (λ opened. ArePlacesWithin opened.volume.end opened.cells.items) }
    ensures kept { D.Tells → (n : ℕ) → (D.files disk.new n).now ≡ (D.files disk.old n).now }
    ensures solid { D.Tells → (n : ℕ) → IsSolid (D.files disk.new n) }
    ensures file { (file at : ℕ) → result ≡ Err (Refusal.Damaged file at) → IsReplicaFile file }
    ensures damaged { D.Tells → (file at : ℕ) → result ≡ Err (Refusal.Damaged file at) → IsReadingDamage sup.now (λ n. (D.files disk.old n).now) file at }
    ensures only { D.Tells → (s : Stored) → IsStored sup.now (λ n. (D.files disk.old n).now) s → (file at : ℕ) → result ≡ Err (Refusal.Damaged file at) → ⊥ }
    ensures drawn { D.Tells → IfOk result (λ opened. D.drawn disk.new opened.volume.file ≤ D.drawn disk.old opened.volume.file + drawn_most opened.index.pending) }
    ensures counted { IsCounted (D.fault_count disk.old) (D.fault_count disk.new) (IsErrOf result Refusal.Failed) }
    ensures fuses { D.fuse_count disk.new ≡ D.fuse_count disk.old }
{
    let listing = read_listing(alloc, disk, sup)?;
    let cells = open_cells(alloc, disk, &listing)?;
    let Listing {
        head,
        volume,
        index,
        rows: _,
        recorded,
        orphans,
        end,
    } = listing;
    Ok(Opened {
        head,
        volume: VolumeFile::adopt(volume, end, sup.settings.capacity),
        index,
        cells,
        records: recorded as u64,
        orphans: orphans.len() as u64,
    })
}
