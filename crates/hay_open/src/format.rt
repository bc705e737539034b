//! Formatting a void disk.

ghost use Rattle.std.specs.Prelude.{◌≡◌, ◌≤◌, ◌<◌, ℕ, List, [], false, IfOk, OnOk, Err, IsErrOf, ◌+◌, ◌*◌, length};
ghost use Rattle.hay_needle.specs.declared.settings.Super.{Super};
ghost use Rattle.hay_disk.specs.Counts.{IsCounted};
ghost use Rattle.hay_disk.specs.Disk.{IsFree, IsSolid, MayLeave};
ghost use Rattle.hay_needle.specs.Sizes.{needle_total};
ghost use Rattle.hay_open.specs.Damage.{IsReadingDamage};
ghost use Rattle.hay_open.specs.Finds.{ArePlacesWithin, OpenedAs, ReadsWhole};
ghost use Rattle.hay_open.specs.Stored.{IsVoid, OpensAs, Stored, fresh_stored};
ghost use Rattle.hay_open.specs.Stored as stored;

use crate::fault::Refusal;
use crate::files::{HEAD_FILE, head_super, index_file, index_super, volume_file, volume_super};
use crate::opened::Opened;
use hay_disk::Disk;
use hay_head::Head;
use hay_index::IndexFile;
use hay_needle::{LAST_GENERATION, Super};
use hay_volume::VolumeFile;
use std::alloc::Global;

// Formats a disk whose head file is empty: whatever its files 1 and 2 had is taken away, and each file is on the disk
// before the next is written, the head file last.
pub(crate) fn format_disk<D: Disk>(
    alloc: Global,
    disk: &mut D,
    sup: &Super,
) -> Result<Opened<D::Piece>, Refusal>
    requires solid { D.Tells → (n : ℕ) → IsSolid (D.files disk.old n) }
    requires free { D.Tells → (n : ℕ) → IsFree (D.files disk.old n) }
    ensures opened { D.Tells → IfOk result (λ opened. OpenedAs sup.now (D.files disk.new) opened fresh_stored) }
    ensures none { IfOk result (λ opened. opened.cells.items ≡ []) }
    ensures open { IfOk result (λ opened. opened.index.frozen ≡ false) }
    ensures capacity { IfOk result (λ opened. opened.volume.capacity ≡ sup.now.settings.capacity) }
    ensures most { IfOk result (λ opened. opened.head.generation ≤ LAST_GENERATION) }
    ensures number { IfOk result (λ opened. opened.volume.file ≡ stored.volume_file opened.head.generation) }
    ensures from { IfOk result (λ opened. 64 + length opened.index.pending * needle_total 0 ≤ opened.volume.end) }
    ensures within { IfOk result (λ opened. ArePlacesWithin opened.volume.end opened.cells.items) }
    ensures solid { D.Tells → OnOk result ((n : ℕ) → IsSolid (D.files disk.new n)) }
    ensures others { D.Tells → (n : ℕ) → 2 < n → D.files disk.new n ≡ D.files disk.old n }
    ensures void { D.Tells → IsErrOf result Refusal.NoMemory → D.files disk.new 0 ≡ D.files disk.old 0 }
    ensures nothing { D.Tells → IsVoid (λ n. (D.files disk.old n).now) → (image : ℕ → List ℕ) → MayLeave (D.files disk.new) image →
        (other : Super) (s : Stored) → OpensAs other image s → s ≡ fresh_stored }
    ensures reads { D.Tells → IfOk result (ReadsWhole D.Piece.Tells sup.now (λ n. (D.files disk.new n).now)) }
    ensures whole { D.Tells → OnOk result ((file at : ℕ) → IsReadingDamage sup.now (λ n. (D.files disk.new n).now) file at → ⊥) }
    ensures drawn { D.Tells → OnOk result ((n : ℕ) → D.drawn disk.new n ≡ D.drawn disk.old n) }
    ensures undamaged { (file at : ℕ) → result ≡ Err (Refusal.Damaged file at) → ⊥ }
    ensures counted { IsCounted (D.fault_count disk.old) (D.fault_count disk.new) (IsErrOf result Refusal.Failed) }
    ensures fuses { D.fuse_count disk.new ≡ D.fuse_count disk.old }
{
    let (volume_number, index_number) = (volume_file(0), index_file(0));
    disk.remove(volume_number)?;
    disk.remove(index_number)?;
    let volume = VolumeFile::format(disk, volume_number, &volume_super(sup, 0))?;
    disk.sync(volume_number)?;
    let index = IndexFile::format(alloc, disk, index_number, &index_super(sup, 0))?;
    disk.sync(index_number)?;
    let head = Head::format(disk, &head_super(sup))?;
    Ok(Opened {
        head,
        volume,
        index,
        cells: Vec::new(alloc),
        records: 0,
        orphans: 0,
    })
}
