//! The gated append: a record stands whole or not at all, whatever a stop leaves.
ghost use Rattle.std.specs.Prelude.{◌≡◌, ◌≤◌, ◌<◌, ◌+◌, List, ℕ, length, OnOk, IsErrOf};
ghost use Rattle.hay_disk.specs.Counts.{IsCounted};
ghost use Rattle.hay_disk.specs.Disk.{IsImage, IsSolid, Changes, KeepsOthers, overwrite};
ghost use Rattle.hay_disk.specs.Gate.{IsGate, IsWholeOrClosed, EndsInMark, record_of, LogGrows, LogStays};

use crate::{Disk, DiskFault};

/// Appends a record at `end`: first its body behind the place of its magic, and once that is on the disk, the magic.
/// The body ends in eight zero bytes, and the next record's magic comes over these.
///
/// `Failed` leaves a file of which a stop leaves the whole record, or no magic at `end`. `NoMemory` comes only from the
/// first write, and changes nothing.
pub fn gate_append<D: Disk>(
    disk: &mut D,
    file: u32,
    end: u64,
    magic: u64,
    body: &[u8],
) -> Result<(), DiskFault>
    requires gate { D.Tells → IsGate magic end (D.files disk.old file) }
    requires mark { EndsInMark body.now }

    // The record stands, all of the file is on the disk, and the next record may follow.
    ensures stands { D.Tells → OnOk result ((D.files disk.new file).now ≡ overwrite end (record_of magic body.now) (D.files disk.old file).now) }
    ensures solid { D.Tells → OnOk result (IsSolid (D.files disk.new file)) }
    ensures next { D.Tells → 0 < magic → OnOk result (IsGate magic (end + length body.now) (D.files disk.new file)) }
    ensures grows { D.Tells → 0 < magic → OnOk result (LogGrows magic end body.now (D.files disk.old file).now (D.files disk.new file).now) }

    // Whatever a stop leaves, then or after any refusal, has the whole record or no magic at the end.
    ensures whole { D.Tells → (image : List ℕ) → IsImage (D.files disk.new file) image → IsWholeOrClosed magic end body.now image }
    ensures stays { D.Tells → 0 < magic → LogStays magic end body.now (D.files disk.old file) (D.files disk.new file) }

    ensures changes { D.Tells → Changes end (8 + length body.now) (D.files disk.old file) (D.files disk.new file) }
    ensures others { D.Tells → KeepsOthers file (D.files disk.old) (D.files disk.new) }
    ensures no_memory { D.Tells → IsErrOf result DiskFault.NoMemory → D.files disk.new ≡ D.files disk.old }
    ensures drawn { D.Tells → (n : ℕ) → D.drawn disk.new n ≡ D.drawn disk.old n }
    ensures counted { IsCounted (D.fault_count disk.old) (D.fault_count disk.new) (IsErrOf result DiskFault.Failed) }
    ensures fuses { D.fuse_count disk.new ≡ D.fuse_count disk.old }
{
    let behind = end.saturating_add(8);
    disk.write(file, behind, body)?;
    disk.sync(file)?; // the body before the magic
    disk.write(file, end, &magic.to_be_bytes())?;
    disk.sync(file)?; // the magic before the answer
    Ok(())
}
