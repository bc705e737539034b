//! Disks of numbered files.
ghost use Rattle.std.specs.Prelude.{◌≡◌, ◌⊎◌, ◌≤◌, ◌<◌, ◌+◌, ◌-◌, ◌^◌, ◌++◌, min, false, ℕ, length, take, drop, IfOk, OnOk, IsErrOf, IsErr};
ghost use Rattle.hay_disk.specs.Counts.{IsCounted, IsNext};
ghost use Rattle.hay_disk.specs.Disk.{FileState, IsImage, MayLeave, IsSolid, IsSolidIn, IsFree, IsFreeIn, Changes, Keeps, Removes, Seals, KeepsOthers, overwrite};

use crate::Piece;
use std::alloc::{AllocError, AllocFailed};

/// The call failed, and the count of faults of the object that it used rose.
#[derive(Clone, Copy, Debug, PartialEq, Eq)]
pub struct Failed;

/// Why a call that may take memory was refused.
#[derive(Clone, Copy, Debug, PartialEq, Eq)]
pub enum DiskFault {
    /// The disk failed, and its count of faults rose.
    Failed,
    /// Memory was wanting, and nothing changed.
    NoMemory,
}

impl From<Failed> for DiskFault {
    ghost use Rattle.std.specs.Prelude.{◌≡◌};
    ghost use Rattle.hay_disk.specs.declared.disk.DiskFault.{DiskFault};

    ghost from_gives = { λ _ fault. fault ≡ DiskFault.Failed };

    fn from(_error: Failed) -> DiskFault {
        DiskFault::Failed
    }
}

impl From<AllocError> for DiskFault {
    ghost use Rattle.std.specs.Prelude.{◌≡◌};
    ghost use Rattle.hay_disk.specs.declared.disk.DiskFault.{DiskFault};

    ghost from_gives = { λ _ fault. fault ≡ DiskFault.NoMemory };

    fn from(_error: AllocError) -> DiskFault {
        DiskFault::NoMemory
    }
}

impl<T: Drop> From<AllocFailed<T>> for DiskFault {
    ghost use Rattle.std.specs.Prelude.{◌≡◌};
    ghost use Rattle.hay_disk.specs.declared.disk.DiskFault.{DiskFault};

    ghost from_gives = { λ _ fault. fault ≡ DiskFault.NoMemory };

    fn from(_error: AllocFailed<T>) -> DiskFault {
        DiskFault::NoMemory
    }
}

/// A disk of files with numbers. A file that does not exist has size 0. Offsets and lengths are in bytes.
///
/// The changing calls are `write`, `remove` and `sync`. What they changed may be lost at a stop until the file's next
/// `sync` that answers Ok.
pub trait Disk: Drop {
    type Piece: Piece;

    /// Whether disks of this type tell what their files hold.
    ghost Tells: { Type 0 };

    /// The files, where the disk tells.
    ghost files: { Self → ℕ → FileState };

    /// How many bytes reads of a file gave since the last power cycle, where the disk tells.
    ghost drawn: { Self → ℕ → ℕ };

    /// How often a call has failed.
    ghost fault_count: { Self → ℕ };

    /// How many fuses were set.
    ghost fuse_count: { Self → ℕ };

    /// The length of a file.
    fn size(&mut self, file: u32) -> Result<u64, Failed>
        ensures size { Tells → IfOk result (λ size. size ≡ length (files self.old file).now) }
        ensures same { Tells → files self.new ≡ files self.old }
        ensures drawn { Tells → (n : ℕ) → drawn self.new n ≡ drawn self.old n }
        ensures counted { IsCounted (fault_count self.old) (fault_count self.new) (IsErr result) }
        ensures fuses { fuse_count self.new ≡ fuse_count self.old };

    /// Reads from an offset on, as many bytes as `out` has room for, or fewer where the file ends, and answers how many.
    fn read_into(&mut self, file: u32, at: u64, out: &mut [u8]) -> Result<usize, Failed>
        ensures within { IfOk result (λ n. n ≤ length out.old) }
        ensures count { Tells → IfOk result (λ n. n ≡ min (length out.old) (length (files self.old file).now - at)) }
        ensures bytes { Tells → IfOk result (λ n. out.new ≡ take n (drop at (files self.old file).now) ++ drop n out.old) }
        ensures drawn { Tells → IfOk result (λ n. drawn self.new file ≡ min (2 ^ 64 - 1) (drawn self.old file + n)) }
        ensures drawn_others { Tells → KeepsOthers file (drawn self.old) (drawn self.new) }
        ensures drawn_failed { Tells → IsErr result → (n : ℕ) → drawn self.new n ≡ drawn self.old n }
        ensures same { Tells → files self.new ≡ files self.old }
        ensures counted { IsCounted (fault_count self.old) (fault_count self.new) (IsErr result) }
        ensures fuses { fuse_count self.new ≡ fuse_count self.old };

    /// Writes over what stands at an offset, and past the end. The range is loose until the next sync.
    /// `Failed` leaves any bytes in the range, and any length between the old and the new one.
    fn write(&mut self, file: u32, at: u64, bytes: &[u8]) -> Result<(), DiskFault>
        requires inside { Tells → at ≤ length (files self.old file).now }
        requires free { Tells → IsFreeIn at (length bytes.now) (files self.old file) }
        ensures written { Tells → OnOk result ((files self.new file).now ≡ overwrite at bytes.now (files self.old file).now) }
        ensures changes { Tells → Changes at (length bytes.now) (files self.old file) (files self.new file) }
        ensures others { Tells → KeepsOthers file (files self.old) (files self.new) }

        // Want of memory comes only where the file would become longer, and only from a disk that tells so.
        ensures told { IsErrOf result DiskFault.NoMemory → Tells }
        ensures no_memory { Tells → IsErrOf result DiskFault.NoMemory → (files self.new ≡ files self.old) × (length (files self.old file).now < at + length bytes.now) }
        ensures drawn { Tells → (n : ℕ) → drawn self.new n ≡ drawn self.old n }
        ensures counted { IsCounted (fault_count self.old) (fault_count self.new) (IsErrOf result DiskFault.Failed) }
        ensures fuses { fuse_count self.new ≡ fuse_count self.old };

    /// Makes nothing of the file loose. `Failed` leaves what is loose as it was.
    fn sync(&mut self, file: u32) -> Result<(), Failed>
        ensures solid { Tells → OnOk result (IsSolid (files self.new file)) }
        ensures keeps { Tells → Keeps (files self.old file) (files self.new file) }
        ensures others { Tells → KeepsOthers file (files self.old) (files self.new) }
        ensures drawn { Tells → (n : ℕ) → drawn self.new n ≡ drawn self.old n }
        ensures counted { IsCounted (fault_count self.old) (fault_count self.new) (IsErr result) }
        ensures fuses { fuse_count self.new ≡ fuse_count self.old };

    /// Takes a file away. `Failed` leaves it or takes it away. Pieces given out before stay readable.
    fn remove(&mut self, file: u32) -> Result<(), Failed>
        ensures removed { Tells → OnOk result (Removes (files self.old file) (files self.new file)) }
        ensures free { Tells → OnOk result (IsFree (files self.new file)) }
        ensures failed { Tells → IsErr result → Removes (files self.old file) (files self.new file) ⊎ (files self.new file ≡ files self.old file) }
        ensures others { Tells → KeepsOthers file (files self.old) (files self.new) }
        ensures drawn { Tells → (n : ℕ) → drawn self.new n ≡ drawn self.old n }
        ensures counted { IsCounted (fault_count self.old) (fault_count self.new) (IsErr result) }
        ensures fuses { fuse_count self.new ≡ fuse_count self.old };

    /// A piece of the file, `len` bytes from `at` on. Its byte at `hole`, counted from its start, may change.
    fn seal(
        &mut self,
        file: u32,
        at: u64,
        len: usize,
        hole: usize,
    ) -> Result<Self::Piece, DiskFault>
        requires inside { Tells → at + len ≤ length (files self.old file).now }
        requires solid { Tells → IsSolidIn at len (files self.old file) }
        requires hole { hole < len }
        ensures len { IfOk result (λ piece. Self.Piece.piece_len piece ≡ len) }
        ensures hole { IfOk result (λ piece. Self.Piece.piece_hole piece ≡ hole) }
        ensures bytes { Tells → IfOk result (λ piece. Self.Piece.Tells × (Self.Piece.piece_bytes piece ≡ take len (drop at (files self.old file).now))) }
        ensures seals { Tells → Seals at len hole (files self.old file) (files self.new file) }
        ensures others { Tells → KeepsOthers file (files self.old) (files self.new) }
        ensures refused { Tells → IsErr result → files self.new ≡ files self.old }
        ensures drawn { Tells → (n : ℕ) → drawn self.new n ≡ drawn self.old n }
        ensures counted { IsCounted (fault_count self.old) (fault_count self.new) (IsErrOf result DiskFault.Failed) }
        ensures fuses { fuse_count self.new ≡ fuse_count self.old };

    /// Lets this many changing calls pass, and then makes each fail until the next power cycle. It takes the place of
    /// an earlier fuse. A disk may ignore it.
    fn fuse(&mut self, calls: u64)
        ensures same { Tells → files self.new ≡ files self.old }
        ensures drawn { Tells → (n : ℕ) → drawn self.new n ≡ drawn self.old n }
        ensures faults { fault_count self.new ≡ fault_count self.old }
        ensures fuses { IsNext (fuse_count self.old) (fuse_count self.new) };

    /// How many calls have failed.
    fn faults(&self) -> u64
        ensures { result ≡ fault_count self.now };

    /// Stops the disk and starts it again. Each file is one of its images, `pick` chooses among these, and there is no
    /// fuse any more.
    fn power_cycle(&mut self, pick: u64)
        ensures left { Tells → MayLeave (files self.old) (λ n. (files self.new n).now) }
        ensures solid { Tells → (n : ℕ) → IsSolid (files self.new n) }
        ensures free { Tells → (n : ℕ) → IsFree (files self.new n) }
        ensures drawn { Tells → (n : ℕ) → drawn self.new n ≡ 0 }
        ensures faults { fault_count self.new ≡ fault_count self.old }
        ensures fuses { fuse_count self.new ≡ fuse_count self.old };

    /// A stop may leave the files as they are now.
    ghost may_leave_now: { (disk : Self) (n : ℕ) → Tells → IsImage (files disk n) (files disk n).now };

    /// A file's length is a number of 64 bits.
    ghost fits: { (disk : Self) (n : ℕ) → Tells → length (files disk n).now < 2 ^ 64 };
}
