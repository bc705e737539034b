//! The rows of a batch as bytes.

ghost use Rattle.std.specs.Prelude.{◌≡◌, ◌≤◌, ◌++◌, length, All, IfOk, OnOk};
ghost use Rattle.std.specs.List.{flat_map};
ghost use Rattle.hay_disk.specs.Gate.{end_mark};
ghost use Rattle.hay_dirfile.specs.Journal.{journal_row};
ghost use Rattle.hay_batch.specs.Batches.{RowFits};

use crate::photo::MAX_PHOTOS;
use byteorder::{BigEndian, ByteOrder};
use hay_dirfile::{DirRow, ROW_LEN};
use std::alloc::{AllocError, Global};

/// `HOMEROW1`, which begins each row.
pub(crate) const ROW_MAGIC: u64 = 0x484f_4d45_524f_5731;

// The number of bytes of the end mark.
const MARK_LEN: usize = 8;

// The bytes of a row.
#[tactic(auto, unfolding(hay_dirfile::specs::Journal::journal_row, hay_dirfile::specs::Journal::row_fields))]
fn row_bytes(row: DirRow) -> [u8; 24]
    ensures bytes { result ≡ journal_row row }
    ensures fits { RowFits row }
{
    let mut bytes = [0; ROW_LEN];
    BigEndian::write_u64(&mut bytes, ROW_MAGIC);
    BigEndian::write_u64(&mut bytes[8..], row.pair.key);
    BigEndian::write_u32(&mut bytes[16..], row.pair.alt);
    BigEndian::write_u32(&mut bytes[20..], row.volume);
    bytes
}

/// These rows, and the end mark.
pub(crate) fn encode_rows(alloc: Global, rows: &[DirRow]) -> Result<Vec<u8>, AllocError>
    requires { length rows.now ≤ MAX_PHOTOS }
    ensures bytes { IfOk result (λ bytes. bytes.items ≡ flat_map journal_row rows.now ++ end_mark) }
    ensures fit { OnOk result (All RowFits rows.now) }
{
    let mut bytes = Vec::with_capacity(alloc, ROW_LEN * rows.len() + MARK_LEN)?;
    for row in rows {
        bytes.extend_from_slice(&row_bytes(*row))?;
    }
    bytes.extend_from_slice(&[0; MARK_LEN])?;
    Ok(bytes)
}
