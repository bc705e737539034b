//! Blocks of records as bytes.

ghost use Rattle.std.specs.Prelude.{◌≡◌, ◌≤◌, ◌*◌, ◌++◌, List, [], length, take, drop, All, OnOk, IfOk, IfSome, IfNone};
ghost use Rattle.std.specs.List.{flat_map};
ghost use Rattle.hay_disk.specs.Gate.{end_mark, magic_bytes, record_of as gated};
ghost use Rattle.hay_index.specs.Records.{BeginsWithBlock, RecordFits, block_rest, index_magic, record_bytes};
ghost use Rattle.hay_index.specs.declared.record.Record.{Record};

use crate::packed::PackedRecord;
use crate::record::{RECORD_LEN, Record, bytes_of, record_of};
use hay_needle::u64_at;
use std::alloc::{AllocError, Global};

/// `INDEXBLK`, which begins a block.
pub(crate) const INDEX_MAGIC: u64 = 0x494e_4445_5842_4c4b;

/// The number of bytes before a block's records: the magic and their number.
pub const FRONT_LEN: usize = 16;

// The number of bytes of the magic.
const MAGIC_LEN: usize = 8;

// The number of bytes behind the magic but for the records: their number, and the end mark.
const REST_LEN: usize = 16;

// Adds the block of these records from behind its magic on, and the end mark.
fn push_rest(out: &mut Vec<u8>, records: &[PackedRecord]) -> Result<(), AllocError>
    ensures bytes { OnOk result (out.new.items ≡ out.old.items ++ (block_rest records.now ++ end_mark)) }
    ensures fit { OnOk result (All RecordFits records.now) }
{
    out.extend_from_slice(&(records.len() as u64).to_be_bytes())?;
    for record in records {
        out.extend_from_slice(&bytes_of(record.record()))?;
    }
    out.extend_from_slice(&[0; 8])?;
    Ok(())
}

// The block of these records from behind its magic on, and the end mark.
pub(crate) fn encode_rest(alloc: Global, records: &[PackedRecord]) -> Result<Vec<u8>, AllocError>
    ensures bytes { IfOk result (λ body. body.items ≡ block_rest records.now ++ end_mark) }
    ensures fit { OnOk result (All RecordFits records.now) }
{
    let mut body = Vec::with_capacity(alloc, REST_LEN + RECORD_LEN * records.len())?;
    push_rest(&mut body, records)?;
    Ok(body)
}

// The block of these records, and the end mark.
pub(crate) fn encode_whole(alloc: Global, records: &[PackedRecord]) -> Result<Vec<u8>, AllocError>
    ensures bytes { IfOk result (λ block. block.items ≡ gated index_magic (block_rest records.now ++ end_mark)) }
    ensures fit { OnOk result (All RecordFits records.now) }
{
    let len = MAGIC_LEN + REST_LEN + RECORD_LEN * records.len();
    let mut block = Vec::with_capacity(alloc, len)?;
    block.extend_from_slice(&INDEX_MAGIC.to_be_bytes())?;
    push_rest(&mut block, records)?;
    Ok(block)
}

// So many records that the bytes are, without gaps.
fn records_of(alloc: Global, bytes: &[u8], count: usize) -> Result<Option<Vec<Record>>, AllocError>
    requires { length bytes.now ≡ 32 * count }
    ensures found { IfOk result (λ found. IfSome found (λ records. bytes.now ≡ flat_map record_bytes records.items)) }
    ensures count { IfOk result (λ found. IfSome found (λ records. length records.items ≡ count)) }
    ensures fit { IfOk result (λ found. IfSome found (λ records. All RecordFits records.items)) }
    ensures none { IfOk result (λ found. IfNone found ((records : List Record) → bytes.now ≡ flat_map record_bytes records → ⊥)) }
{
    let mut records = Vec::new(alloc);
    for i in 0..count {
        let at = RECORD_LEN * i;
        let Some(record) = record_of(&bytes[at..at + RECORD_LEN]) else {
            return Ok(None);
        };
        records.push(record)?;
    }
    Ok(Some(records))
}

/// The records of the block whose magic stands at the front of the bytes, if a block stands there.
pub fn read_block(alloc: Global, bytes: &[u8]) -> Result<Option<Vec<Record>>, AllocError>
    requires { take 8 bytes.now ≡ magic_bytes index_magic }
    ensures found { IfOk result (λ found. IfSome found (λ records. BeginsWithBlock bytes.now records.items)) }
    ensures none { IfOk result (λ found. IfNone found ((records : List Record) → BeginsWithBlock bytes.now records → ⊥)) }
{
    if bytes.len() < FRONT_LEN {
        return Ok(None);
    }
    let body = &bytes[FRONT_LEN..];
    let count = u64_at(bytes, 8);
    if count == 0 || count > (body.len() / RECORD_LEN) as u64 {
        return Ok(None);
    }
    let count = count as usize;
    records_of(alloc, &body[..RECORD_LEN * count], count)
}
