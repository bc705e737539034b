//! A row of the journal, and its bytes.

ghost use Rattle.std.specs.Prelude.{◌≡◌, ◌++◌, ◌<◌, ◌+◌, ℕ, length, take, IfSome, IfNone};
ghost use Rattle.hay_disk.specs.Gate.{magic_bytes, end_mark};
ghost use Rattle.hay_dirfile.specs.Journal.{journal_magic, journal_row, row_fields, IsRowOf};
ghost use Rattle.hay_dirfile.specs.declared.row.DirRow.{DirRow};

use byteorder::{BigEndian, ByteOrder};
use hay_needle::{Pair, u32_at, u64_at};

/// `HOMEROW1`, which begins each row.
pub(crate) const ROW_MAGIC: u64 = 0x484f_4d45_524f_5731;

/// The number of bytes of a row.
pub const ROW_LEN: usize = 24;

/// The photos of this pair are kept in this volume.
#[derive(Clone, Copy, Debug, PartialEq, Eq)]
pub struct DirRow {
    pub pair: Pair,
    pub volume: u32,
}

/// The bytes of a row behind its magic, and the end mark.
#[tactic(auto, unfolding(crate::specs::Journal::row_fields))]
pub(crate) fn row_body(row: DirRow) -> [u8; 24]
    ensures bytes { result ≡ row_fields row ++ end_mark }
    ensures fits { (volumes : ℕ) → row.volume < volumes → IsRowOf volumes row }
{
    let mut bytes = [0; 24];
    BigEndian::write_u64(&mut bytes, row.pair.key);
    BigEndian::write_u32(&mut bytes[8..], row.pair.alt);
    BigEndian::write_u32(&mut bytes[12..], row.volume);
    bytes
}

/// The row of these bytes, unless there is no such volume.
pub(crate) fn row_in(bytes: &[u8], volumes: u32) -> Option<DirRow>
    requires long { length bytes.now ≡ 24 }
    requires magic { take 8 bytes.now ≡ magic_bytes journal_magic }
    ensures row { IfSome result (λ row. IsRowOf volumes row × (bytes.now ≡ journal_row row)) }
    ensures none { IfNone result ((row : DirRow) → IsRowOf volumes row → bytes.now ≡ journal_row row → ⊥) }
{
    let row = DirRow {
        pair: Pair {
            key: u64_at(bytes, 8),
            alt: u32_at(bytes, 16),
        },
        volume: u32_at(bytes, 20),
    };
    if row.volume >= volumes {
        return None;
    }
    Some(row)
}
