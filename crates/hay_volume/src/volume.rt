//! A volume file and its end.

ghost use Rattle.std.specs.Prelude.{◌≡◌, ◌⊎◌, ◌≤◌, ◌<◌, ◌+◌, ◌-◌, ◌^◌, List, [], ◌∷◌, ◌++◌, ℕ, length, IfOk, IfErr, OnOk, OnErr, IsErrOf, Err};
ghost use Rattle.hay_disk.specs.Counts.{IsCounted};
ghost use Rattle.hay_disk.specs.Disk.{IsImage, IsSolid, IsSolidIn, IsFreeIn, Changes, KeepsOthers, overwrite};
ghost use Rattle.hay_disk.specs.Gate.{IsGate, end_mark};
ghost use Rattle.hay_needle.specs.Needle.{live, needle_magic};
ghost use Rattle.hay_needle.specs.Sizes.{needle_total};
ghost use Rattle.hay_needle.specs.Super.{super_bytes};
ghost use Rattle.hay_needle.specs.declared.needle.Cell.{Cell};
ghost use Rattle.hay_needle.specs.declared.needle.Cookie.{Cookie};
ghost use Rattle.hay_needle.specs.declared.needle.Pair.{Pair};
ghost use Rattle.hay_volume.specs.Cells.{IsMarked, IsVolume, StandsCell, live_cell};

use crate::fault::VolumeFault;
use hay_disk::{Disk, DiskFault, gate_append};
use hay_needle::{
    Cookie, MAX_PHOTO, NEEDLE_MAGIC, Pair, SUPER_LEN, Super, encode_rest, total_of, write_super,
};
use std::alloc::Global;

// The number of bytes of the end mark.
const MARK_LEN: u64 = 8;

/// A volume file of a disk. Its next cell comes at `end`, and the end mark behind that cell is to end at `capacity` at
/// the latest.
#[derive(Clone, Copy, Debug, PartialEq, Eq)]
pub struct VolumeFile {
    pub file: u32,
    pub end: u64,
    pub capacity: u64,
}

impl VolumeFile {
    /// Writes a superblock and the end mark at the front of the file, in one write. It does not sync.
    pub fn format<D: Disk>(disk: &mut D, file: u32, sup: &Super) -> Result<VolumeFile, DiskFault>
        requires { D.Tells → IsFreeIn 0 72 (D.files disk.old file) }

        ensures made { IfOk result (λ volume. volume ≡ record { file = file; end = 64; capacity = sup.now.settings.capacity }) }
        ensures written { D.Tells → OnOk result ((D.files disk.new file).now ≡ overwrite 0 (super_bytes sup.now ++ end_mark) (D.files disk.old file).now) }
        ensures void { D.Tells → (D.files disk.old file).now ≡ [] → OnOk result ((D.files disk.new file).now ≡ super_bytes sup.now ++ end_mark) }
        ensures empty { D.Tells → OnOk result (IsVolume (super_bytes sup.now) (D.files disk.new file).now [] 64) }

        ensures no_memory { D.Tells → IsErrOf result DiskFault.NoMemory → D.files disk.new ≡ D.files disk.old }
        ensures changes { D.Tells → Changes 0 72 (D.files disk.old file) (D.files disk.new file) }
        ensures others { D.Tells → KeepsOthers file (D.files disk.old) (D.files disk.new) }
        ensures drawn { D.Tells → (n : ℕ) → D.drawn disk.new n ≡ D.drawn disk.old n }
        ensures counted { IsCounted (D.fault_count disk.old) (D.fault_count disk.new) (IsErrOf result DiskFault.Failed) }
        ensures fuses { D.fuse_count disk.new ≡ D.fuse_count disk.old }
    {
        disk.write(file, 0, &empty_file(sup))?;
        Ok(VolumeFile {
            file,
            end: SUPER_LEN as u64,
            capacity: sup.settings.capacity,
        })
    }

    /// The volume file with these fields.
    pub fn adopt(file: u32, end: u64, capacity: u64) -> VolumeFile
        ensures { result ≡ record { file = file; end = end; capacity = capacity } }
    {
        VolumeFile {
            file,
            end,
            capacity,
        }
    }

    /// The file's number on its disk.
    pub fn file(&self) -> u32
        ensures { result ≡ self.now.file }
    {
        self.file
    }

    /// Where the cells end.
    pub fn end(&self) -> u64
        ensures { result ≡ self.now.end }
    {
        self.end
    }

    /// How many bytes the file may have.
    pub fn capacity(&self) -> u64
        ensures { result ≡ self.now.capacity }
    {
        self.capacity
    }

    /// Adds the cell of a photo at the end, in version 2, and answers its place. All of it is on the disk then.
    /// A value whose append failed must not be used for another.
    pub fn append<D: Disk>(
        &mut self,
        alloc: Global,
        disk: &mut D,
        pair: Pair,
        cookie: Cookie,
        bytes: &[u8],
    ) -> Result<u64, VolumeFault>
        requires size { length bytes.now ≤ MAX_PHOTO }
        requires gate { D.Tells → IsGate needle_magic self.old.end (D.files disk.old self.old.file) }

        // `Full` comes exactly where the needle and the end mark do not fit, and it comes first.
        ensures full { let need = needle_total (length bytes.now) in self.old.capacity < self.old.end + need + 8
            → result ≡ Err (VolumeFault.Full self.old.end need self.old.capacity) }
        ensures room { self.old.end + needle_total (length bytes.now) + 8 ≤ self.old.capacity
            → IfErr result (λ fault. (fault ≡ VolumeFault.Failed) ⊎ (fault ≡ VolumeFault.NoMemory)) }

        // A refusal leaves the value as it was, and but for `Failed` the files too.
        ensures place { IfOk result (λ at. at ≡ self.old.end) }
        ensures moved { OnOk result (self.new ≡ record self.old { end = self.old.end + needle_total (length bytes.now) }) }
        ensures stayed { OnErr result (self.new ≡ self.old) }
        ensures kept { D.Tells → IfErr result (λ fault. (fault ≡ VolumeFault.Failed → ⊥) → D.files disk.new ≡ D.files disk.old) }

        // At `Ok` the file has one more cell, whatever it had before, all of it is on the disk, and the next append may follow.
        ensures stands { D.Tells → IfOk result (λ at. StandsCell at (D.files disk.new self.old.file).now (live_cell at pair cookie bytes.now)) }
        ensures added { D.Tells → OnOk result ((superblock : List ℕ) (cells : List Cell) →
            IsVolume superblock (D.files disk.old self.old.file).now cells self.old.end →
            IsVolume superblock (D.files disk.new self.old.file).now (cells ++ live_cell self.old.end pair cookie bytes.now ∷ []) self.new.end) }
        ensures solid { D.Tells → OnOk result (IsSolid (D.files disk.new self.old.file)) }
        ensures next { D.Tells → OnOk result (IsGate needle_magic self.new.end (D.files disk.new self.old.file)) }

        // Whatever a stop leaves, then or after any refusal, has the cells from before, with the new one or without.
        ensures left { D.Tells → (superblock : List ℕ) (cells : List Cell) (image : List ℕ) →
            IsVolume superblock (D.files disk.old self.old.file).now cells self.old.end →
            IsSolidIn 0 self.old.end (D.files disk.old self.old.file) →
            IsImage (D.files disk.new self.old.file) image →
            IsVolume superblock image cells self.old.end
            ⊎ IsVolume superblock image (cells ++ live_cell self.old.end pair cookie bytes.now ∷ []) (self.old.end + needle_total (length bytes.now)) }

        ensures changes { D.Tells → Changes self.old.end (needle_total (length bytes.now) + 8) (D.files disk.old self.old.file) (D.files disk.new self.old.file) }
        ensures others { D.Tells → KeepsOthers self.old.file (D.files disk.old) (D.files disk.new) }
        ensures drawn { D.Tells → (n : ℕ) → D.drawn disk.new n ≡ D.drawn disk.old n }
        ensures counted { IsCounted (D.fault_count disk.old) (D.fault_count disk.new) (IsErrOf result VolumeFault.Failed) }
        ensures fuses { D.fuse_count disk.new ≡ D.fuse_count disk.old }
    {
        let need = total_of(bytes.len() as u32);
        if self.capacity < need + 8 || self.capacity - (need + 8) < self.end {
            return Err(VolumeFault::Full {
                end: self.end,
                need,
                capacity: self.capacity,
            });
        }
        let mut body = Vec::new(alloc);
        encode_rest(pair, cookie, bytes, &mut body)?;
        gate_append(disk, self.file, self.end, NEEDLE_MAGIC, body.as_slice())?;
        let at = self.end;
        self.end += need;
        Ok(at)
    }

    /// Writes a live needle of version 2 at the end and the end mark behind it, which `needle` both has, in one write,
    /// and answers the needle's place. It does not sync, so the file must not be a current one.
    /// A value whose append failed must not be used for another.
    pub fn append_loose<D: Disk>(&mut self, disk: &mut D, needle: &[u8]) -> Result<u64, VolumeFault>
        requires marked { (pair : Pair) × (cookie : Cookie) × (photo : List ℕ) × IsMarked needle.now (live pair cookie photo) }
        requires inside { D.Tells → self.old.end ≤ length (D.files disk.old self.old.file).now }
        requires free { D.Tells → IsFreeIn self.old.end (length needle.now) (D.files disk.old self.old.file) }

        // `Full` comes exactly where the needle and the end mark do not fit, and it comes first.
        ensures full { self.old.capacity < self.old.end + length needle.now
            → result ≡ Err (VolumeFault.Full self.old.end (length needle.now - 8) self.old.capacity) }
        ensures room { self.old.end + length needle.now ≤ self.old.capacity
            → IfErr result (λ fault. (fault ≡ VolumeFault.Failed) ⊎ (fault ≡ VolumeFault.NoMemory)) }

        // A refusal leaves the value as it was, and but for `Failed` the files too.
        ensures place { IfOk result (λ at. at ≡ self.old.end) }
        ensures moved { OnOk result (self.new ≡ record self.old { end = self.old.end + (length needle.now - 8) }) }
        ensures stayed { OnErr result (self.new ≡ self.old) }
        ensures kept { D.Tells → IfErr result (λ fault. (fault ≡ VolumeFault.Failed → ⊥) → D.files disk.new ≡ D.files disk.old) }

        // At `Ok` the file has one more cell.
        ensures added { D.Tells → OnOk result ((superblock : List ℕ) (cells : List Cell) (pair : Pair) (cookie : Cookie) (photo : List ℕ) →
            IsMarked needle.now (live pair cookie photo) →
            IsVolume superblock (D.files disk.old self.old.file).now cells self.old.end →
            IsVolume superblock (D.files disk.new self.old.file).now (cells ++ live_cell self.old.end pair cookie photo ∷ []) self.new.end) }

        ensures changes { D.Tells → Changes self.old.end (length needle.now) (D.files disk.old self.old.file) (D.files disk.new self.old.file) }
        ensures others { D.Tells → KeepsOthers self.old.file (D.files disk.old) (D.files disk.new) }
        ensures drawn { D.Tells → (n : ℕ) → D.drawn disk.new n ≡ D.drawn disk.old n }
        ensures counted { IsCounted (D.fault_count disk.old) (D.fault_count disk.new) (IsErrOf result VolumeFault.Failed) }
        ensures fuses { D.fuse_count disk.new ≡ D.fuse_count disk.old }
    {
        let all = needle.len() as u64;
        let need = all - MARK_LEN;
        if self.capacity < all || self.capacity - all < self.end {
            return Err(VolumeFault::Full {
                end: self.end,
                need,
                capacity: self.capacity,
            });
        }
        let at = self.end;
        disk.write(self.file, at, needle)?;
        self.end = at + need;
        Ok(at)
    }
}

// The bytes of a volume file without cells.
fn empty_file(sup: &Super) -> [u8; 72]
    ensures { result ≡ super_bytes sup.now ++ end_mark }
{
    let mut bytes = [0; 72];
    bytes[..SUPER_LEN].copy_from_slice(&write_super(sup));
    bytes
}
