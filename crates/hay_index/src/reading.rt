//! Reading the records of an index file.

ghost use Rattle.std.specs.Prelude.{◌≡◌, ◌≤◌, ◌<◌, ◌+◌, ◌*◌, ◌++◌, ◌^◌, List, [], ℕ, false, length, take, drop, Err, IsErrOf, IfOk, OnOk};
ghost use Rattle.std.specs.Bool.{OnTrue, OnFalse};
ghost use Rattle.hay_disk.specs.Counts.{IsCounted};
ghost use Rattle.hay_disk.specs.Disk.{KeepsOthers};
ghost use Rattle.hay_disk.specs.Gate.{IsClosed, magic_bytes};
ghost use Rattle.hay_disk.specs.declared.disk.DiskFault.{DiskFault};
ghost use Rattle.hay_needle.specs.Super.{super_bytes};
ghost use Rattle.hay_index.specs.Records.{AreInRow, HasStray, IsBrokenBehind, IsDamagedIndex, IsIndex, index_magic, place_behind};
ghost use Rattle.hay_index.specs.declared.record.Record.{Record};
ghost use Rattle.hay_index.specs.declared.fault.IndexFault.{IndexFault};

use crate::block::{FRONT_LEN, INDEX_MAGIC, read_block};
use crate::fault::IndexFault;
use crate::index::IndexFile;
use crate::pending::Pending;
use crate::record::{RECORD_LEN, Record};
use hay_disk::{Disk, DiskFault};
use hay_needle::{SUPER_LEN, Super, read_super, total_of, u64_at};
use std::alloc::Global;

impl IndexFile {
    /// Reads the records of all blocks. The value has none pending, and its next block comes behind these.
    ///
    /// `Damaged` comes exactly where the file is damaged, at the place of its first damage.
    pub fn read_all<D: Disk>(
        alloc: Global,
        disk: &mut D,
        file: u32,
        sup: &Super,
    ) -> Result<(IndexFile, Vec<Record>), IndexFault>
        ensures made { IfOk result (λ read. read.0 ≡ record { file = file; end = read.0.end; pending = []; frozen = false }) }
        ensures index { D.Tells → IfOk result (λ read. IsIndex (super_bytes sup.now) (D.files disk.old file).now read.1.items read.0.end) }
        // On any disk the records that are read are in the row.
        ensures row { IfOk result (λ read. AreInRow 64 read.1.items) }
        ensures damaged { D.Tells → (k : ℕ) → result ≡ Err (IndexFault.Damaged k) → IsDamagedIndex sup.now (D.files disk.old file).now k }
        ensures undamaged { D.Tells → OnOk result ((k : ℕ) → IsDamagedIndex sup.now (D.files disk.old file).now k → ⊥) }
        // A file has one reading: over an index file its records and its end are read, and no damage is found.
        ensures only { D.Tells → (records : List Record) (end : ℕ) → IsIndex (super_bytes sup.now) (D.files disk.old file).now records end
            → IfOk result (λ read. (read.1.items ≡ records) × (read.0.end ≡ end)) }
        ensures sound { D.Tells → (records : List Record) (end k : ℕ) → IsIndex (super_bytes sup.now) (D.files disk.old file).now records end
            → result ≡ Err (IndexFault.Damaged k) → ⊥ }

        ensures same { D.Tells → D.files disk.new ≡ D.files disk.old }
        ensures drawn { D.Tells → D.drawn disk.new file ≤ D.drawn disk.old file + length (D.files disk.old file).now }
        ensures drawn_others { D.Tells → KeepsOthers file (D.drawn disk.old) (D.drawn disk.new) }
        ensures counted { IsCounted (D.fault_count disk.old) (D.fault_count disk.new) (IsErrOf result IndexFault.Failed) }
        ensures fuses { D.fuse_count disk.new ≡ D.fuse_count disk.old }
    {
        let bytes = whole_file(alloc, disk, file)?;
        let (records, end) = read_index(alloc, bytes.as_slice(), sup)?;
        let index = IndexFile {
            file,
            end,
            pending: Pending::new(alloc),
            frozen: false,
        };
        Ok((index, records))
    }
}

/// All bytes of a file, read at once.
pub fn whole_file<D: Disk>(alloc: Global, disk: &mut D, file: u32) -> Result<Vec<u8>, DiskFault>
    ensures read { D.Tells → IfOk result (λ bytes. bytes.items ≡ (D.files disk.old file).now) }
    ensures same { D.Tells → D.files disk.new ≡ D.files disk.old }
    ensures drawn { D.Tells → D.drawn disk.new file ≤ D.drawn disk.old file + length (D.files disk.old file).now }
    ensures drawn_others { D.Tells → KeepsOthers file (D.drawn disk.old) (D.drawn disk.new) }
    ensures counted { IsCounted (D.fault_count disk.old) (D.fault_count disk.new) (IsErrOf result DiskFault.Failed) }
    ensures fuses { D.fuse_count disk.new ≡ D.fuse_count disk.old }
{
    let size = disk.size(file)?;
    let mut bytes = Vec::new(alloc);
    bytes.resize(size as usize, 0)?;
    let got = disk.read_into(file, 0, bytes.as_mut_slice())?;
    bytes.truncate(got);
    Ok(bytes)
}

// The records of a file that has these bytes, and where its blocks end.
pub(crate) fn read_index(
    alloc: Global,
    bytes: &[u8],
    sup: &Super,
) -> Result<(Vec<Record>, u64), IndexFault>
    ensures index { IfOk result (λ read. IsIndex (super_bytes sup.now) bytes.now read.0.items read.1) }
    ensures damaged { (k : ℕ) → result ≡ Err (IndexFault.Damaged k) → IsDamagedIndex sup.now bytes.now k }
    ensures undamaged { OnOk result ((k : ℕ) → IsDamagedIndex sup.now bytes.now k → ⊥) }
    ensures only { (records : List Record) (end : ℕ) → IsIndex (super_bytes sup.now) bytes.now records end → IfOk result (λ read. (read.0.items ≡ records) × (read.1 ≡ end)) }
    ensures sound { (records : List Record) (end k : ℕ) → IsIndex (super_bytes sup.now) bytes.now records end → result ≡ Err (IndexFault.Damaged k) → ⊥ }
    ensures never { IsErrOf result IndexFault.Failed → ⊥ }
{
    if let Err(fault) = read_super(bytes, sup) {
        return Err(IndexFault::Damaged { at: fault.place() });
    }
    read_blocks(alloc, bytes)
}

// The records of the blocks behind a superblock, and where these end.
fn read_blocks(alloc: Global, bytes: &[u8]) -> Result<(Vec<Record>, u64), IndexFault>
    requires { 64 ≤ length bytes.now }
    ensures index { IfOk result (λ read. IsIndex (take 64 bytes.now) bytes.now read.0.items read.1) }
    ensures damaged { (k : ℕ) → result ≡ Err (IndexFault.Damaged k) → IsBrokenBehind (take 64 bytes.now) bytes.now k }
    ensures never { IsErrOf result IndexFault.Failed → ⊥ }
{
    let mut records = Vec::new(alloc);
    let mut end = SUPER_LEN;
    'scan: loop {
        if !begins_block(bytes, end)? {
            return Ok((records, end as u64));
        }
        let Some(block) = read_block(alloc, &bytes[end..])? else {
            return Err(IndexFault::Damaged { at: end as u64 });
        };
        append_block(&mut records, block.as_slice(), (end + FRONT_LEN) as u64)?;
        end += FRONT_LEN + RECORD_LEN * block.len();
    }
}

/// Whether a block's magic stands at `at`. `Damaged` comes where the bytes end before the eight of a magic.
pub fn begins_block(bytes: &[u8], at: usize) -> Result<bool, IndexFault>
    requires { at ≤ length bytes.now }
    ensures mark { IfOk result (λ begins. OnFalse begins (IsClosed index_magic at bytes.now)) }
    ensures magic { IfOk result (λ begins. OnTrue begins (take 8 (drop at bytes.now) ≡ magic_bytes index_magic)) }
    ensures place { (k : ℕ) → result ≡ Err (IndexFault.Damaged k) → k ≡ at }
    ensures short { IsErrOf result (IndexFault.Damaged at) → length bytes.now < at + 8 }
    ensures never { IsErrOf result IndexFault.Failed → ⊥ }
{
    if bytes.len() - at < 8 {
        return Err(IndexFault::Damaged { at: at as u64 });
    }
    Ok(u64_at(bytes, at) == INDEX_MAGIC)
}

// Adds the records of a block, the first of which stands at `first` in the file, if they are in the row.
fn append_block(records: &mut Vec<Record>, block: &[Record], first: u64) -> Result<(), IndexFault>
    requires row { AreInRow 64 records.old.items }
    requires fits { first + 32 * length block.now < 2 ^ 64 }
    ensures added { OnOk result (records.new.items ≡ records.old.items ++ block.now) }
    ensures row { OnOk result (AreInRow 64 records.new.items) }
    ensures stray { (k : ℕ) → result ≡ Err (IndexFault.Damaged k) → HasStray records.old.items block.now first k }
    ensures never { IsErrOf result IndexFault.Failed → ⊥ }
{
    let mut at = first;
    for row in block {
        if row.at as u128 != next_place(records.as_slice()) {
            return Err(IndexFault::Damaged { at });
        }
        records.push(*row)?;
        at += RECORD_LEN as u64;
    }
    Ok(())
}

// The place of the next needle behind those of these records.
fn next_place(records: &[Record]) -> u128
    requires { AreInRow 64 records.now }
    ensures { result ≡ place_behind 64 records.now }
{
    match records.last() {
        None => SUPER_LEN as u128,
        Some(last) => last.at as u128 + total_of(last.size) as u128,
    }
}
