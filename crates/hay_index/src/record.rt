//! One record, and its 32 bytes.

ghost use Rattle.std.specs.Prelude.{◌≡◌, length, IfSome, IfNone, OnSome};
ghost use Rattle.hay_index.specs.Records.{RecordFits, record_bytes};
ghost use Rattle.hay_index.specs.declared.record.Record.{Record};

use byteorder::{BigEndian, ByteOrder};
use hay_needle::{Pair, u32_at, u64_at};

/// The number of bytes of a record.
pub const RECORD_LEN: usize = 32;

/// A needle's pair, its place in the volume file, and the number of its photo's bytes.
#[derive(Clone, Copy, Debug, PartialEq, Eq)]
pub struct Record {
    pub pair: Pair,
    pub at: u64,
    pub size: u32,
}

// The bytes of a record.
#[tactic(auto, unfolding(crate::specs::Records::record_bytes))]
pub(crate) fn bytes_of(row: Record) -> [u8; 32]
    ensures bytes { result ≡ record_bytes row }
    ensures fits { RecordFits row }
{
    let mut out = [0; RECORD_LEN];
    BigEndian::write_u64(&mut out, row.pair.key);
    BigEndian::write_u32(&mut out[8..], row.pair.alt);
    BigEndian::write_u64(&mut out[16..], row.at);
    BigEndian::write_u32(&mut out[24..], row.size);
    out
}

// The record that the bytes are.
pub(crate) fn record_of(bytes: &[u8]) -> Option<Record>
    requires { length bytes.now ≡ 32 }
    ensures found { IfSome result (λ row. bytes.now ≡ record_bytes row) }
    ensures fits { IfSome result RecordFits }
    ensures none { IfNone result ((row : Record) → bytes.now ≡ record_bytes row → ⊥) }
{
    if u32_at(bytes, 12) != 0 || u32_at(bytes, 28) != 0 {
        return None;
    }
    Some(Record {
        pair: Pair {
            key: u64_at(bytes, 0),
            alt: u32_at(bytes, 8),
        },
        at: u64_at(bytes, 16),
        size: u32_at(bytes, 24),
    })
}
