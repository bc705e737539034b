//! Reading needles from a volume file.

ghost use Rattle.std.specs.Prelude.{◌≡◌, ◌⊎◌, ◌≤◌, ◌<◌, ◌+◌, ◌-◌, ◌^◌, ℕ, min, length, take, drop, vec_len, vec_capacity, Err, IsErr, IsErrOf, IfOk, IfSome, IfNone, OnOk};
ghost use Rattle.hay_disk.specs.Counts.{IsCounted};
ghost use Rattle.hay_disk.specs.Disk.{KeepsOthers};
ghost use Rattle.hay_disk.specs.Gate.{HasBytesAt};
ghost use Rattle.hay_needle.specs.Needle.{BeginsWithNeedle, HeadBytes, NeedleBytes, head_of_cell, head_of_needle};
ghost use Rattle.hay_needle.specs.Sizes.{needle_total};
ghost use Rattle.hay_needle.specs.declared.needle.Cell.{Cell};
ghost use Rattle.hay_needle.specs.declared.needle.Needle.{Needle};
ghost use Rattle.hay_volume.specs.Cells.{IsCellAt, cell_head};

use crate::fault::CellFault;
use crate::volume::VolumeFile;
use hay_disk::{Disk, DiskFault, Failed};
use hay_needle::{CellHead, HEAD_LEN, MAX_NEEDLE, MAX_PHOTO, read_head, read_needle, total_of};

impl VolumeFile {
    /// Reads the cell that stands at `at`. `out` then has its whole needle, and nothing else.
    ///
    /// `Damaged` comes exactly where no needle stands there. `NoMemory` leaves `out` as it was.
    pub fn cell_at<D: Disk>(
        &self,
        disk: &mut D,
        at: u64,
        out: &mut Vec<u8>,
    ) -> Result<CellHead, CellFault>
        // On any disk what is read is a whole needle, and where the disk tells, it stands there.
        ensures cell { IfOk result (λ head. (cell : Cell) × IsCellAt at out.new.items cell × (head ≡ cell_head cell)) }
        ensures stands { D.Tells → OnOk result (HasBytesAt at out.new.items (D.files disk.old self.now.file).now) }

        ensures place { (k : ℕ) → result ≡ Err (CellFault.Damaged k) → k ≡ at }
        ensures damaged { D.Tells → IsErrOf result (CellFault.Damaged at)
            → (n : Needle) → BeginsWithNeedle (drop at (D.files disk.old self.now.file).now) n → ⊥ }

        ensures no_memory { IsErrOf result CellFault.NoMemory → out.new.items ≡ out.old.items }
        // Room that was reserved is enough.
        ensures full { IsErrOf result CellFault.NoMemory → vec_capacity out.old < vec_len out.old + MAX_NEEDLE }

        ensures same { D.Tells → D.files disk.new ≡ D.files disk.old }
        ensures drawn { D.Tells → IfOk result (λ head. D.drawn disk.new self.now.file ≤ D.drawn disk.old self.now.file + needle_total head.size) }
        ensures drawn_others { D.Tells → KeepsOthers self.now.file (D.drawn disk.old) (D.drawn disk.new) }
        ensures counted { IsCounted (D.fault_count disk.old) (D.fault_count disk.new) (IsErrOf result CellFault.Failed) }
        ensures fuses { D.fuse_count disk.new ≡ D.fuse_count disk.old }
    {
        let mut front = [0; HEAD_LEN];
        let got = disk.read_into(self.file, at, &mut front)?;
        let Ok(head) = read_head(&front[..got], at) else {
            return Err(CellFault::Damaged { at });
        };
        let total = total_of(head.size) as usize;
        out.try_reserve(total)?;
        out.clear();
        out.extend_from_slice(&front)?;
        read_rest(disk, self.file, head, out)?;
        Ok(head)
    }

    /// Reads the cell of a photo of `size` bytes that stands at `at`, by one read of its needle's bytes and no others. `out`
    /// then has this needle, and nothing else.
    ///
    /// `Damaged` comes exactly where no needle of a photo of this size stands there. `NoMemory` leaves `out` as it was.
    pub fn cell_within<D: Disk>(
        &self,
        disk: &mut D,
        at: u64,
        size: u32,
        out: &mut Vec<u8>,
    ) -> Result<CellHead, CellFault>
        // On any disk what is read is a whole needle of this size, and where the disk tells, it stands there.
        ensures cell { IfOk result (λ head. (cell : Cell) × IsCellAt at out.new.items cell × (head ≡ cell_head cell)) }
        ensures size { IfOk result (λ head. head.size ≡ size) }
        ensures most { OnOk result (size ≤ MAX_PHOTO) }
        ensures stands { D.Tells → OnOk result (HasBytesAt at out.new.items (D.files disk.old self.now.file).now) }

        ensures place { (k : ℕ) → result ≡ Err (CellFault.Damaged k) → k ≡ at }
        ensures damaged { D.Tells → IsErrOf result (CellFault.Damaged at)
            → (n : Needle) → BeginsWithNeedle (drop at (D.files disk.old self.now.file).now) n → length n.photo.bytes ≡ size → ⊥ }

        ensures no_memory { IsErrOf result CellFault.NoMemory → out.new.items ≡ out.old.items }
        // Room that was reserved is enough.
        ensures full { IsErrOf result CellFault.NoMemory → vec_capacity out.old < vec_len out.old + needle_total size }

        ensures same { D.Tells → D.files disk.new ≡ D.files disk.old }
        ensures drawn { D.Tells → D.drawn disk.new self.now.file ≤ D.drawn disk.old self.now.file + needle_total size }
        ensures drawn_others { D.Tells → KeepsOthers self.now.file (D.drawn disk.old) (D.drawn disk.new) }
        ensures counted { IsCounted (D.fault_count disk.old) (D.fault_count disk.new) (IsErrOf result CellFault.Failed) }
        ensures fuses { D.fuse_count disk.new ≡ D.fuse_count disk.old }
    {
        if size > MAX_PHOTO {
            return Err(CellFault::Damaged { at });
        }
        let total = total_of(size) as usize;
        out.try_reserve(total)?;
        out.clear();
        read_up_to(disk, self.file, at, total, out)?;
        match sized_head(at, size, out.as_slice()) {
            Some(head) => Ok(head),
            None => Err(CellFault::Damaged { at }),
        }
    }
}

// The head of the needle of a photo of `size` bytes with which the bytes, which stand at `at`, begin.
fn sized_head(at: u64, size: u32, bytes: &[u8]) -> Option<CellHead>
    ensures cell { IfSome result (λ head. (n : Needle) × BeginsWithNeedle bytes.now n × (head.at ≡ at) × (head_of_cell head ≡ head_of_needle n)) }
    ensures size { IfSome result (λ head. head.size ≡ size) }
    ensures none { IfNone result ((n : Needle) → BeginsWithNeedle bytes.now n → length n.photo.bytes ≡ size → ⊥) }
{
    let Ok(view) = read_needle(bytes) else {
        return None;
    };
    if view.bytes.len() != size as usize {
        return None;
    }
    Some(CellHead {
        at,
        version: view.version,
        pair: view.pair,
        cookie: view.cookie,
        size,
        deleted: view.deleted,
    })
}

// Reads a needle on behind its head, which `bytes` has.
pub(crate) fn read_rest<D: Disk>(
    disk: &mut D,
    file: u32,
    head: CellHead,
    bytes: &mut Vec<u8>,
) -> Result<(), CellFault>
    requires { HeadBytes bytes.old.items (head_of_cell head) }
    ensures needle { OnOk result ((n : Needle) × NeedleBytes bytes.new.items n × (head_of_cell head ≡ head_of_needle n)) }
    ensures stands { D.Tells → bytes.old.items ≡ take 36 (drop head.at (D.files disk.old file).now)
        → OnOk result (HasBytesAt head.at bytes.new.items (D.files disk.old file).now) }
    ensures place { (k : ℕ) → result ≡ Err (CellFault.Damaged k) → k ≡ head.at }
    ensures damaged { D.Tells → bytes.old.items ≡ take 36 (drop head.at (D.files disk.old file).now) → IsErrOf result (CellFault.Damaged head.at)
        → (n : Needle) → BeginsWithNeedle (drop head.at (D.files disk.old file).now) n → ⊥ }
    ensures longer { IsErrOf result CellFault.NoMemory → vec_capacity bytes.old < needle_total head.size }
    ensures same { D.Tells → D.files disk.new ≡ D.files disk.old }
    ensures drawn { D.Tells → D.drawn disk.new file + 36 ≤ D.drawn disk.old file + needle_total head.size }
    ensures drawn_others { D.Tells → KeepsOthers file (D.drawn disk.old) (D.drawn disk.new) }
    ensures counted { IsCounted (D.fault_count disk.old) (D.fault_count disk.new) (IsErrOf result CellFault.Failed) }
    ensures fuses { D.fuse_count disk.new ≡ D.fuse_count disk.old }
{
    read_up_to(disk, file, head.at, total_of(head.size) as usize, bytes)?;
    let Ok(_) = read_needle(bytes.as_slice()) else {
        return Err(CellFault::Damaged { at: head.at });
    };
    Ok(())
}

// Reads into `out` behind its first `have` bytes, which stand at `at`, and answers how many bytes came.
fn read_behind<D: Disk>(
    disk: &mut D,
    file: u32,
    at: u64,
    have: usize,
    out: &mut [u8],
) -> Result<usize, Failed>
    requires { have ≤ length out.old }
    ensures keeps { OnOk result (take have out.new ≡ take have out.old) }
    ensures within { IfOk result (λ got. have + got ≤ length out.old) }
    ensures read { D.Tells → IfOk result (λ got. take have out.old ≡ take have (drop at (D.files disk.old file).now)
        → take (have + got) out.new ≡ take (length out.old) (drop at (D.files disk.old file).now)) }
    ensures same { D.Tells → D.files disk.new ≡ D.files disk.old }
    ensures drawn { D.Tells → D.drawn disk.new file ≤ D.drawn disk.old file + (length out.old - have) }
    ensures drawn_others { D.Tells → KeepsOthers file (D.drawn disk.old) (D.drawn disk.new) }
    ensures counted { IsCounted (D.fault_count disk.old) (D.fault_count disk.new) (IsErr result) }
    ensures fuses { D.fuse_count disk.new ≡ D.fuse_count disk.old }
{
    let place = at.saturating_add(have as u64);
    let got = disk.read_into(file, place, &mut out[have..])?;
    Ok(got)
}

// Reads on behind the bytes from `at` on that are read already, until there are `len` of them or the file ends.
pub(crate) fn read_up_to<D: Disk>(
    disk: &mut D,
    file: u32,
    at: u64,
    len: usize,
    bytes: &mut Vec<u8>,
) -> Result<(), DiskFault>
    requires { vec_len bytes.old ≤ len }
    ensures keeps { OnOk result (take (vec_len bytes.old) bytes.new.items ≡ bytes.old.items) }
    ensures read { D.Tells → bytes.old.items ≡ take (vec_len bytes.old) (drop at (D.files disk.old file).now)
        → OnOk result (bytes.new.items ≡ take len (drop at (D.files disk.old file).now)) }
    ensures longer { IsErrOf result DiskFault.NoMemory → vec_capacity bytes.old < len }
    ensures within { OnOk result (vec_len bytes.new ≤ len) }
    ensures same { D.Tells → D.files disk.new ≡ D.files disk.old }
    ensures drawn { D.Tells → D.drawn disk.new file ≤ D.drawn disk.old file + (len - vec_len bytes.old) }
    ensures drawn_others { D.Tells → KeepsOthers file (D.drawn disk.old) (D.drawn disk.new) }
    ensures counted { IsCounted (D.fault_count disk.old) (D.fault_count disk.new) (IsErrOf result DiskFault.Failed) }
    ensures fuses { D.fuse_count disk.new ≡ D.fuse_count disk.old }
{
    let have = bytes.len();
    bytes.resize(len, 0)?;
    let got = read_behind(disk, file, at, have, bytes.as_mut_slice())?;
    bytes.truncate(have + got);
    Ok(())
}
