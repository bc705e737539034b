//! One gated append of many needles.

ghost use Rattle.std.specs.Prelude.{◌≡◌, ◌⊎◌, ◌≤◌, ◌<◌, ◌+◌, ◌++◌, List, ℕ, IfOk, IfErr, OnOk, OnErr, IsErrOf, Err};
ghost use Rattle.hay_disk.specs.Counts.{IsCounted};
ghost use Rattle.hay_disk.specs.Disk.{IsImage, IsSolid, IsSolidIn, Changes, KeepsOthers};
ghost use Rattle.hay_disk.specs.Gate.{IsGate};
ghost use Rattle.hay_needle.specs.Needle.{needle_magic};
ghost use Rattle.hay_needle.specs.declared.needle.Cell.{Cell};
ghost use Rattle.hay_volume.specs.Cells.{IsVolume};
ghost use Rattle.hay_volume.specs.declared.fault.VolumeFault.{VolumeFault};
ghost use Rattle.hay_batch.specs.Batches.{IsBatch, batch_total, new_cells};

use crate::needles::encode_batch;
use crate::photo::{NewPhoto, batch_total};
use hay_disk::{Disk, gate_append};
use hay_needle::NEEDLE_MAGIC;
use hay_volume::{VolumeFault, VolumeFile};
use std::alloc::Global;

// The number of bytes of a magic, and of the end mark.
const MAGIC_LEN: usize = 8;

/// Adds the cells of a batch at the end, in version 2, and answers the place of the first. All of them are on the disk
/// then. A value whose append failed must not be used for another.
pub fn append_many<D: Disk>(
    volume: &mut VolumeFile,
    alloc: Global,
    disk: &mut D,
    photos: &[NewPhoto],
) -> Result<u64, VolumeFault>
    requires batch { IsBatch photos.now }
    requires gate { D.Tells → IsGate needle_magic volume.old.end (D.files disk.old volume.old.file) }

    // `Full` comes exactly where the needles and the end mark do not fit, and it comes first.
    ensures full { let need = batch_total photos.now in volume.old.capacity < volume.old.end + need + 8
        → result ≡ Err (VolumeFault.Full volume.old.end need volume.old.capacity) }
    ensures room { volume.old.end + batch_total photos.now + 8 ≤ volume.old.capacity
        → IfErr result (λ fault. (fault ≡ VolumeFault.Failed) ⊎ (fault ≡ VolumeFault.NoMemory)) }

    // A refusal leaves the value as it was, and but for `Failed` the files too.
    ensures place { IfOk result (λ at. at ≡ volume.old.end) }
    ensures moved { OnOk result (volume.new ≡ record volume.old { end = volume.old.end + batch_total photos.now }) }
    ensures stayed { OnErr result (volume.new ≡ volume.old) }
    ensures kept { D.Tells → IfErr result (λ fault. (fault ≡ VolumeFault.Failed → ⊥) → D.files disk.new ≡ D.files disk.old) }

    // At `Ok` the file has these cells too, all of it is on the disk, and the next append may follow.
    ensures added { D.Tells → OnOk result ((superblock : List ℕ) (cells : List Cell) →
        IsVolume superblock (D.files disk.old volume.old.file).now cells volume.old.end →
        IsVolume superblock (D.files disk.new volume.old.file).now (cells ++ new_cells volume.old.end photos.now) volume.new.end) }
    ensures solid { D.Tells → OnOk result (IsSolid (D.files disk.new volume.old.file)) }
    ensures next { D.Tells → OnOk result (IsGate needle_magic volume.new.end (D.files disk.new volume.old.file)) }

    // Whatever a stop leaves, then or after any refusal, has the cells from before, with all of these or with none.
    ensures left { D.Tells → (superblock : List ℕ) (cells : List Cell) (image : List ℕ) →
        IsVolume superblock (D.files disk.old volume.old.file).now cells volume.old.end →
        IsSolidIn 0 volume.old.end (D.files disk.old volume.old.file) →
        IsImage (D.files disk.new volume.old.file) image →
        IsVolume superblock image cells volume.old.end
        ⊎ IsVolume superblock image (cells ++ new_cells volume.old.end photos.now) (volume.old.end + batch_total photos.now) }

    ensures changes { D.Tells → Changes volume.old.end (batch_total photos.now + 8) (D.files disk.old volume.old.file) (D.files disk.new volume.old.file) }
    ensures others { D.Tells → KeepsOthers volume.old.file (D.files disk.old) (D.files disk.new) }
    ensures drawn { D.Tells → (n : ℕ) → D.drawn disk.new n ≡ D.drawn disk.old n }
    ensures counted { IsCounted (D.fault_count disk.old) (D.fault_count disk.new) (IsErrOf result VolumeFault.Failed) }
    ensures fuses { D.fuse_count disk.new ≡ D.fuse_count disk.old }
{
    let need = batch_total(photos);
    if volume.capacity < need + 8 || volume.capacity - (need + 8) < volume.end {
        return Err(VolumeFault::Full {
            end: volume.end,
            need,
            capacity: volume.capacity,
        });
    }
    let needles = encode_batch(alloc, photos, need)?;
    let body = &needles.as_slice()[MAGIC_LEN..];
    gate_append(disk, volume.file, volume.end, NEEDLE_MAGIC, body)?;
    let at = volume.end;
    volume.end += need;
    Ok(at)
}
