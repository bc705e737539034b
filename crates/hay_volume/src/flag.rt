//! Marking a cell as deleted.

ghost use Rattle.std.specs.Prelude.{◌≡◌, ◌≤◌, ◌<◌, ◌+◌, ◌-◌, Bool, true, false, List, ℕ, Some, length, drop, slice_get, OnOk, IsErr};
ghost use Rattle.hay_disk.specs.Counts.{IsCounted};
ghost use Rattle.hay_disk.specs.Disk.{IsImage, IsSolid, IsFreeIn, Changes, KeepsOthers, overwrite};
ghost use Rattle.hay_disk.specs.Gate.{IsGate};
ghost use Rattle.hay_needle.specs.Needle.{BeginsWithNeedle, needle_magic};
ghost use Rattle.hay_needle.specs.declared.needle.Cell.{Cell};
ghost use Rattle.hay_needle.specs.declared.needle.Needle.{Needle};
ghost use Rattle.hay_volume.specs.Cells.{HasPlace, IsVolume, with_flag};

use crate::volume::VolumeFile;
use hay_disk::{Disk, DiskFault, Failed};

// The place of the flags in a needle.
const FLAGS_AT: u64 = 28;

// Writes over bytes that stand in the file.
fn write_over<D: Disk>(disk: &mut D, file: u32, at: u64, bytes: &[u8]) -> Result<(), Failed>
    requires inside { D.Tells → at + length bytes.now ≤ length (D.files disk.old file).now }
    requires free { D.Tells → IsFreeIn at (length bytes.now) (D.files disk.old file) }
    ensures written { D.Tells → OnOk result ((D.files disk.new file).now ≡ overwrite at bytes.now (D.files disk.old file).now) }
    ensures changes { D.Tells → Changes at (length bytes.now) (D.files disk.old file) (D.files disk.new file) }
    ensures others { D.Tells → KeepsOthers file (D.files disk.old) (D.files disk.new) }
    ensures drawn { D.Tells → (n : ℕ) → D.drawn disk.new n ≡ D.drawn disk.old n }
    ensures counted { IsCounted (D.fault_count disk.old) (D.fault_count disk.new) (IsErr result) }
    ensures fuses { D.fuse_count disk.new ≡ D.fuse_count disk.old }
{
    match disk.write(file, at, bytes) {
        Ok(()) => Ok(()),
        Err(DiskFault::Failed) => Err(Failed),
        Err(DiskFault::NoMemory) => Err(Failed), // no disk wants memory for bytes that stand in the file
    }
}

impl VolumeFile {
    // Writes the flag of the cell at `at`.
    fn write_flag<D: Disk>(&self, disk: &mut D, at: u64) -> Result<(), Failed>
        requires inside { D.Tells → at + 28 < length (D.files disk.old self.now.file).now }
        requires free { D.Tells → (D.files disk.old self.now.file).sealed (at + 28) ≡ false }

        ensures flagged { D.Tells → OnOk result ((superblock : List ℕ) (cells : List Cell) (end : ℕ) →
            IsVolume superblock (D.files disk.old self.now.file).now cells end → HasPlace at cells →
            IsVolume superblock (D.files disk.new self.now.file).now (with_flag at true cells) end) }
        ensures byte { D.Tells → OnOk result (slice_get (D.files disk.new self.now.file).now (at + 28) ≡ Some 1) }
        ensures either { D.Tells → (superblock : List ℕ) (cells : List Cell) (end : ℕ) →
            IsVolume superblock (D.files disk.old self.now.file).now cells end → HasPlace at cells →
            (deleted : Bool) × IsVolume superblock (D.files disk.new self.now.file).now (with_flag at deleted cells) end }

        ensures changes { D.Tells → Changes (at + 28) 1 (D.files disk.old self.now.file) (D.files disk.new self.now.file) }
        ensures others { D.Tells → KeepsOthers self.now.file (D.files disk.old) (D.files disk.new) }
        ensures drawn { D.Tells → (n : ℕ) → D.drawn disk.new n ≡ D.drawn disk.old n }
        ensures counted { IsCounted (D.fault_count disk.old) (D.fault_count disk.new) (IsErr result) }
        ensures fuses { D.fuse_count disk.new ≡ D.fuse_count disk.old }
    {
        write_over(disk, self.file, at.saturating_add(FLAGS_AT), &[1])
    }

    /// Marks the cell at `at` as deleted, in one write. It does not sync, so the file must not be a current one.
    pub fn flag_loose<D: Disk>(&self, disk: &mut D, at: u64) -> Result<(), Failed>
        requires stands { D.Tells → (n : Needle) × BeginsWithNeedle (drop at (D.files disk.old self.now.file).now) n }
        requires free { D.Tells → (D.files disk.old self.now.file).sealed (at + 28) ≡ false }

        // At `Ok` the cell is deleted, and its byte of flags is 1. `Failed` leaves the same cells, that one deleted or not.
        ensures flagged { D.Tells → OnOk result ((superblock : List ℕ) (cells : List Cell) (end : ℕ) →
            IsVolume superblock (D.files disk.old self.now.file).now cells end → HasPlace at cells →
            IsVolume superblock (D.files disk.new self.now.file).now (with_flag at true cells) end) }
        ensures byte { D.Tells → OnOk result (slice_get (D.files disk.new self.now.file).now (at + 28) ≡ Some 1) }
        ensures either { D.Tells → (superblock : List ℕ) (cells : List Cell) (end : ℕ) →
            IsVolume superblock (D.files disk.old self.now.file).now cells end → HasPlace at cells →
            (deleted : Bool) × IsVolume superblock (D.files disk.new self.now.file).now (with_flag at deleted cells) end }

        ensures changes { D.Tells → Changes (at + 28) 1 (D.files disk.old self.now.file) (D.files disk.new self.now.file) }
        ensures others { D.Tells → KeepsOthers self.now.file (D.files disk.old) (D.files disk.new) }
        ensures drawn { D.Tells → (n : ℕ) → D.drawn disk.new n ≡ D.drawn disk.old n }
        ensures counted { IsCounted (D.fault_count disk.old) (D.fault_count disk.new) (IsErr result) }
        ensures fuses { D.fuse_count disk.new ≡ D.fuse_count disk.old }
    {
        self.write_flag(disk, at)
    }

    /// Marks the cell at `at` as deleted, and has the mark on the disk.
    pub fn flag<D: Disk>(&mut self, disk: &mut D, at: u64) -> Result<(), Failed>
        requires inside { D.Tells → at + 28 < length (D.files disk.old self.old.file).now }
        requires free { D.Tells → (D.files disk.old self.old.file).sealed (at + 28) ≡ false }

        // At `Ok` the cell is deleted, its byte of flags is 1, and all of the file is on the disk.
        ensures flagged { D.Tells → OnOk result ((superblock : List ℕ) (cells : List Cell) (end : ℕ) →
            IsVolume superblock (D.files disk.old self.old.file).now cells end → HasPlace at cells →
            IsVolume superblock (D.files disk.new self.old.file).now (with_flag at true cells) end) }
        ensures byte { D.Tells → OnOk result (slice_get (D.files disk.new self.old.file).now (at + 28) ≡ Some 1) }
        ensures solid { D.Tells → OnOk result (IsSolid (D.files disk.new self.old.file)) }

        // Whatever a stop leaves, then or after a refusal, has the same cells, that one deleted or not.
        ensures left { D.Tells → (superblock : List ℕ) (cells : List Cell) (end : ℕ) (image : List ℕ) →
            IsVolume superblock (D.files disk.old self.old.file).now cells end → HasPlace at cells →
            IsSolid (D.files disk.old self.old.file) → IsImage (D.files disk.new self.old.file) image →
            (deleted : Bool) × IsVolume superblock image (with_flag at deleted cells) end }

        // An append may follow where one could before.
        ensures gate { D.Tells → (end : ℕ) → at + 29 ≤ end → IsGate needle_magic end (D.files disk.old self.old.file) → IsGate needle_magic end (D.files disk.new self.old.file) }
        ensures stayed { self.new ≡ self.old }
        ensures changes { D.Tells → Changes (at + 28) 1 (D.files disk.old self.old.file) (D.files disk.new self.old.file) }
        ensures others { D.Tells → KeepsOthers self.old.file (D.files disk.old) (D.files disk.new) }
        ensures drawn { D.Tells → (n : ℕ) → D.drawn disk.new n ≡ D.drawn disk.old n }
        ensures counted { IsCounted (D.fault_count disk.old) (D.fault_count disk.new) (IsErr result) }
        ensures fuses { D.fuse_count disk.new ≡ D.fuse_count disk.old }
    {
        self.write_flag(disk, at)?;
        disk.sync(self.file)?;
        Ok(())
    }
}
