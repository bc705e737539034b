//! An index file, its end, and the records that it has not yet.

ghost use Rattle.std.specs.Prelude.{◌≡◌, ◌⊎◌, ◌<◌, ◌≤◌, ◌+◌, ◌*◌, List, [], ◌∷◌, ◌++◌, ℕ, Bool, true, false, length, Ok, IfOk, OnOk, OnErr, IsErrOf, ◌^◌};
ghost use Rattle.hay_disk.specs.Counts.{IsCounted};
ghost use Rattle.hay_disk.specs.Disk.{IsImage, IsSolid, IsSolidIn, IsFreeIn, Changes, KeepsOthers, overwrite};
ghost use Rattle.hay_disk.specs.Gate.{IsGate, end_mark};
ghost use Rattle.hay_disk.specs.declared.disk.DiskFault.{DiskFault};
ghost use Rattle.hay_needle.specs.Super.{super_bytes};
ghost use Rattle.hay_index.specs.Records.{AreInRow, IsIndex, index_magic};
ghost use Rattle.hay_index.specs.declared.record.Record.{Record};

use crate::block::{INDEX_MAGIC, encode_rest, encode_whole};
use crate::pending::Pending;
use crate::record::Record;
use hay_base::NoMemory;
use hay_disk::{Disk, DiskFault, gate_append};
use hay_needle::{SUPER_LEN, Super, write_super};
use std::alloc::Global;

// The number of bytes of the end mark.
const MARK_LEN: usize = 8;

/// An index file of a disk. Its next block comes at `end`.
#[derive(Debug, Drop)]
pub struct IndexFile {
    pub file: u32,
    pub end: u64,
    /// Records that were noted and not flushed.
    pub pending: Pending,
    /// A flush failed.
    pub frozen: bool,
}

impl IndexFile {
    /// Writes a superblock and the end mark at the front of the file, in one write. It does not sync.
    pub fn format<D: Disk>(
        alloc: Global,
        disk: &mut D,
        file: u32,
        sup: &Super,
    ) -> Result<IndexFile, DiskFault>
        requires { D.Tells → IsFreeIn 0 72 (D.files disk.old file) }

        ensures made { IfOk result (λ index. index ≡ record { file = file; end = 64; pending = []; frozen = false }) }
        ensures written { D.Tells → OnOk result ((D.files disk.new file).now ≡ overwrite 0 (super_bytes sup.now ++ end_mark) (D.files disk.old file).now) }
        ensures void { D.Tells → (D.files disk.old file).now ≡ [] → OnOk result ((D.files disk.new file).now ≡ super_bytes sup.now ++ end_mark) }
        ensures empty { D.Tells → OnOk result (IsIndex (super_bytes sup.now) (D.files disk.new file).now [] 64) }

        ensures no_memory { D.Tells → IsErrOf result DiskFault.NoMemory → D.files disk.new ≡ D.files disk.old }
        ensures changes { D.Tells → Changes 0 72 (D.files disk.old file) (D.files disk.new file) }
        ensures others { D.Tells → KeepsOthers file (D.files disk.old) (D.files disk.new) }
        ensures drawn { D.Tells → (n : ℕ) → D.drawn disk.new n ≡ D.drawn disk.old n }
        ensures counted { IsCounted (D.fault_count disk.old) (D.fault_count disk.new) (IsErrOf result DiskFault.Failed) }
        ensures fuses { D.fuse_count disk.new ≡ D.fuse_count disk.old }
    {
        disk.write(file, 0, &empty_file(sup))?;
        Ok(IndexFile {
            file,
            end: SUPER_LEN as u64,
            pending: Pending::new(alloc),
            frozen: false,
        })
    }

    /// Whether a flush failed.
    pub fn is_frozen(&self) -> bool
        ensures { result ≡ self.now.frozen }
    {
        self.frozen
    }

    /// How many records wait for a flush.
    pub fn pending(&self) -> usize
        ensures { result ≡ length self.now.pending }
    {
        self.pending.len()
    }

    /// Adds a pending record. `NoMemory` changes nothing.
    pub fn note(&mut self, row: Record) -> Result<(), NoMemory>
        ensures ok { OnOk result (self.new ≡ record self.old { pending = self.old.pending ++ row ∷ [] }) }
        ensures err { OnErr result (self.new ≡ self.old) }
    {
        self.pending.push(row)
    }

    /// Takes the last pending record away, without memory.
    pub fn unnote(&mut self)
        requires { 0 < length self.old.pending }
        ensures { (row : Record) × (self.old ≡ record self.new { pending = self.new.pending ++ row ∷ [] }) }
    {
        self.pending.pop();
    }

    /// Appends the pending records as one block, and answers their number. All of it is on the disk then. Where none is
    /// pending it answers 0 and calls nothing. `Failed` freezes the value.
    pub fn flush<D: Disk>(&mut self, disk: &mut D) -> Result<u64, DiskFault>
        requires open { self.old.frozen ≡ false }
        requires gate { D.Tells → IsGate index_magic self.old.end (D.files disk.old self.old.file) }

        ensures number { IfOk result (λ n. n ≡ length self.old.pending) }
        ensures moved { OnOk result (self.new ≡ record self.old { end = self.new.end; pending = [] }) }
        ensures nothing { self.old.pending ≡ [] → (result ≡ Ok 0) × (self.new ≡ self.old) × (disk.new ≡ disk.old) }
        ensures froze { IsErrOf result DiskFault.Failed → self.new ≡ record self.old { frozen = true } }
        ensures stayed { IsErrOf result DiskFault.NoMemory → self.new ≡ self.old }
        ensures kept { D.Tells → IsErrOf result DiskFault.NoMemory → D.files disk.new ≡ D.files disk.old }

        // At `Ok` the file has these records too, all of it is on the disk, and the next block may follow.
        ensures added { D.Tells → OnOk result ((superblock : List ℕ) (records : List Record) →
            IsIndex superblock (D.files disk.old self.old.file).now records self.old.end →
            AreInRow 64 (records ++ self.old.pending) →
            IsIndex superblock (D.files disk.new self.old.file).now (records ++ self.old.pending) self.new.end) }
        ensures solid { D.Tells → OnOk result (0 < length self.old.pending → IsSolid (D.files disk.new self.old.file)) }
        ensures next { D.Tells → OnOk result (IsGate index_magic self.new.end (D.files disk.new self.old.file)) }

        // Whatever a stop leaves, then or after a refusal, has the records from before, with all of these or with none.
        ensures left { D.Tells → (superblock : List ℕ) (records : List Record) (image : List ℕ) →
            IsIndex superblock (D.files disk.old self.old.file).now records self.old.end →
            AreInRow 64 (records ++ self.old.pending) →
            IsSolidIn 0 self.old.end (D.files disk.old self.old.file) →
            IsImage (D.files disk.new self.old.file) image →
            IsIndex superblock image records self.old.end
            ⊎ IsIndex superblock image (records ++ self.old.pending) (self.old.end + 16 + 32 * length self.old.pending) }

        ensures changes { D.Tells → Changes self.old.end (24 + 32 * length self.old.pending) (D.files disk.old self.old.file) (D.files disk.new self.old.file) }
        ensures others { D.Tells → KeepsOthers self.old.file (D.files disk.old) (D.files disk.new) }
        ensures drawn { D.Tells → (n : ℕ) → D.drawn disk.new n ≡ D.drawn disk.old n }
        ensures counted { IsCounted (D.fault_count disk.old) (D.fault_count disk.new) (IsErrOf result DiskFault.Failed) }
        ensures fuses { D.fuse_count disk.new ≡ D.fuse_count disk.old }
    {
        if self.pending.is_empty() {
            return Ok(0);
        }
        let body = encode_rest(self.pending.allocator(), self.pending.as_slice())?;
        if let Err(fault) = gate_append(disk, self.file, self.end, INDEX_MAGIC, body.as_slice()) {
            return Err(self.refused(fault));
        }
        Ok(self.flushed(body.len()))
    }

    /// Writes the block of the pending records whole, in one write, and answers their number. It does not sync, so the file
    /// must not be a current one. Where none is pending it answers 0 and calls nothing. `Failed` freezes the value.
    pub fn flush_loose<D: Disk>(&mut self, disk: &mut D) -> Result<u64, DiskFault>
        requires open { self.old.frozen ≡ false }
        requires inside { D.Tells → self.old.end ≤ length (D.files disk.old self.old.file).now }
        requires free { D.Tells → IsFreeIn self.old.end (24 + 32 * length self.old.pending) (D.files disk.old self.old.file) }

        ensures number { IfOk result (λ n. n ≡ length self.old.pending) }
        ensures moved { OnOk result (self.new ≡ record self.old { end = self.new.end; pending = [] }) }
        ensures nothing { self.old.pending ≡ [] → (result ≡ Ok 0) × (self.new ≡ self.old) × (disk.new ≡ disk.old) }
        ensures froze { IsErrOf result DiskFault.Failed → self.new ≡ record self.old { frozen = true } }
        ensures stayed { IsErrOf result DiskFault.NoMemory → self.new ≡ self.old }
        ensures kept { D.Tells → IsErrOf result DiskFault.NoMemory → D.files disk.new ≡ D.files disk.old }

        // At `Ok` the file has these records too.
        ensures added { D.Tells → OnOk result ((superblock : List ℕ) (records : List Record) →
            IsIndex superblock (D.files disk.old self.old.file).now records self.old.end →
            AreInRow 64 (records ++ self.old.pending) →
            IsIndex superblock (D.files disk.new self.old.file).now (records ++ self.old.pending) self.new.end) }

        ensures changes { D.Tells → Changes self.old.end (24 + 32 * length self.old.pending) (D.files disk.old self.old.file) (D.files disk.new self.old.file) }
        ensures others { D.Tells → KeepsOthers self.old.file (D.files disk.old) (D.files disk.new) }
        ensures drawn { D.Tells → (n : ℕ) → D.drawn disk.new n ≡ D.drawn disk.old n }
        ensures counted { IsCounted (D.fault_count disk.old) (D.fault_count disk.new) (IsErrOf result DiskFault.Failed) }
        ensures fuses { D.fuse_count disk.new ≡ D.fuse_count disk.old }
    {
        if self.pending.is_empty() {
            return Ok(0);
        }
        let block = encode_whole(self.pending.allocator(), self.pending.as_slice())?;
        if let Err(fault) = disk.write(self.file, self.end, block.as_slice()) {
            return Err(self.refused(fault));
        }
        Ok(self.flushed(block.len() - MARK_LEN))
    }

    // Why a flush is refused. A failed one freezes the value.
    fn refused(&mut self, fault: DiskFault) -> DiskFault
        requires { self.old.frozen ≡ false }
        ensures same { result ≡ fault }
        ensures froze { fault ≡ DiskFault.Failed → self.new ≡ record self.old { frozen = true } }
        ensures stayed { fault ≡ DiskFault.NoMemory → self.new ≡ self.old }
    {
        self.frozen = fault == DiskFault::Failed;
        fault
    }

    // Behind a block of the pending records that took so many bytes: none is pending now. Answers how many there were.
    fn flushed(&mut self, len: usize) -> u64
        ensures number { result ≡ length self.old.pending }
        ensures moved { self.new ≡ record self.old { end = self.new.end; pending = [] } }
        ensures end { self.old.end + len < 2 ^ 64 → self.new.end ≡ self.old.end + len }
    {
        let count = self.pending.len() as u64;
        self.end = self.end.saturating_add(len as u64);
        self.pending.clear();
        count
    }
}

// The bytes of an index file without records.
fn empty_file(sup: &Super) -> [u8; 72]
    ensures { result ≡ super_bytes sup.now ++ end_mark }
{
    let mut bytes = [0; 72];
    bytes[..SUPER_LEN].copy_from_slice(&write_super(sup));
    bytes
}
