//! Comparing an index file with the cells of its volume file.

ghost use Rattle.std.specs.Prelude.{◌≡◌, ◌⊎◌, ◌≤◌, ◌<◌, ◌+◌, ◌*◌, ◌++◌, ◌^◌, ◌↔◌, ℕ, List, length, map, take, drop, Err, OnOk, IfOk, IsErrOf, IsTrue};
ghost use Rattle.hay_disk.specs.Counts.{IsCounted};
ghost use Rattle.hay_needle.specs.Super.{super_bytes};
ghost use Rattle.hay_index.specs.declared.record.Record.{Record};
ghost use Rattle.hay_index.specs.declared.fault.IndexFault.{IndexFault};
ghost use Rattle.hay_open.specs.Listing.{head_record};
ghost use Rattle.hay_check.specs.Listing.{HasMisfit, IsBrokenBehind, IsDamagedListing, ListsFirst};

use crate::fault::Refusal;
use hay_disk::Disk;
use hay_index::{FRONT_LEN, IndexFault, RECORD_LEN, Record, begins_block, read_block, whole_file};
use hay_needle::{CellHead, SUPER_LEN, Super, read_super};
use std::alloc::Global;

// Whether a record is that of a cell.
fn is_row_of(row: &Record, head: &CellHead) -> bool
    ensures { IsTrue result ↔ (row.now ≡ head_record head.now) }
{
    *row == Record {
        pair: head.pair,
        at: head.at,
        size: head.size,
    }
}

// Compares the records of a block, the first of which stands at `first` in the file, with these cells.
fn compare_block(block: &[Record], heads: &[CellHead], first: u64) -> Result<(), IndexFault>
    requires { first + 32 * length block.now < 2 ^ 64 }
    ensures fit { OnOk result ((rest : List Record) × (map head_record heads.now ≡ block.now ++ rest)) }
    ensures misfit { (k : ℕ) → result ≡ Err (IndexFault.Damaged k) → HasMisfit (map head_record heads.now) block.now first k }
    ensures never { IsErrOf result IndexFault.Failed → ⊥ }
{
    let mut at = first;
    for (i, row) in block.iter().enumerate() {
        match heads.get(i) {
            Some(head) if is_row_of(row, head) => (),
            _ => return Err(IndexFault::Damaged { at }),
        }
        at += RECORD_LEN as u64;
    }
    Ok(())
}

// Compares the records of the blocks behind a superblock with these cells, and answers how many they are.
fn compare_blocks(alloc: Global, bytes: &[u8], heads: &[CellHead]) -> Result<usize, IndexFault>
    requires { 64 ≤ length bytes.now }
    ensures lists { IfOk result (λ count. ListsFirst (take 64 bytes.now) bytes.now (map head_record heads.now) count) }
    ensures damaged { (k : ℕ) → result ≡ Err (IndexFault.Damaged k) → IsBrokenBehind (take 64 bytes.now) bytes.now (map head_record heads.now) k }
    ensures never { IsErrOf result IndexFault.Failed → ⊥ }
{
    let mut count = 0;
    let mut end = SUPER_LEN;
    'scan: loop {
        if !begins_block(bytes, end)? {
            return Ok(count);
        }
        let Some(block) = read_block(alloc, &bytes[end..])? else {
            return Err(IndexFault::Damaged { at: end as u64 });
        };
        let rest = &heads[count..];
        compare_block(block.as_slice(), rest, (end + FRONT_LEN) as u64)?;
        count += block.len();
        end += FRONT_LEN + RECORD_LEN * block.len();
    }
}

// Compares an index file that has these bytes with these cells, and answers how many records it has.
fn compare_bytes(
    alloc: Global,
    bytes: &[u8],
    sup: &Super,
    heads: &[CellHead],
) -> Result<usize, IndexFault>
    ensures lists { IfOk result (λ count. ListsFirst (super_bytes sup.now) bytes.now (map head_record heads.now) count) }
    ensures damaged { (k : ℕ) → result ≡ Err (IndexFault.Damaged k) → IsDamagedListing sup.now bytes.now (map head_record heads.now) k }
    ensures never { IsErrOf result IndexFault.Failed → ⊥ }
{
    if let Err(fault) = read_super(bytes, sup) {
        return Err(IndexFault::Damaged { at: fault.place() });
    }
    compare_blocks(alloc, bytes, heads)
}

/// Compares an index file with these cells, and answers how many of them have a record.
pub(crate) fn check_index<D: Disk>(
    alloc: Global,
    disk: &mut D,
    file: u32,
    sup: &Super,
    heads: &[CellHead],
) -> Result<usize, Refusal>
    ensures lists { D.Tells → IfOk result (λ count. ListsFirst (super_bytes sup.now) (D.files disk.old file).now (map head_record heads.now) count) }
    ensures most { IfOk result (λ count. count ≤ length heads.now) }
    ensures file { (number at : ℕ) → result ≡ Err (Refusal.Damaged number at) → number ≡ file }
    ensures damaged { D.Tells → (number at : ℕ) → result ≡ Err (Refusal.Damaged number at) → (number ≡ file) × IsDamagedListing sup.now (D.files disk.old file).now (map head_record heads.now) at }
    ensures same { D.Tells → D.files disk.new ≡ D.files disk.old }
    ensures counted { IsCounted (D.fault_count disk.old) (D.fault_count disk.new) (IsErrOf result Refusal.Failed) }
    ensures fuses { D.fuse_count disk.new ≡ D.fuse_count disk.old }
{
    let bytes = whole_file(alloc, disk, file)?;
    match compare_bytes(alloc, bytes.as_slice(), sup, heads) {
        Ok(count) => Ok(count),
        Err(IndexFault::Damaged { at }) => Err(Refusal::Damaged { file, at }),
        Err(_) => Err(Refusal::NoMemory),
    }
}
