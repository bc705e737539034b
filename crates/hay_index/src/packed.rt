//! A record in 24 bytes.

ghost use Rattle.std.specs.Prelude.{◌≡◌};
ghost use Rattle.hay_index.specs.declared.record.Record.{Record};

use crate::record::Record;
use hay_needle::Pair;
use std::marker::Model;

// One more than the greatest half.
const HALF: u64 = 1 << 32;

/// A number in two halves, so that a struct of it and of `u32` has no gaps.
#[derive(Debug, Drop)]
struct Halves {
    high: u32,
    low: u32,
}

impl Model for Halves {
    ghost use Rattle.std.specs.Prelude.{ℕ, ◌+◌, ◌*◌, ◌^◌};

    ghost Value = { ℕ };

    ghost view = { λ halves. halves.high * 2 ^ 32 + halves.low };
}

impl Halves {
    fn new(number: u64) -> Halves
        ensures { result ≡ number }
    {
        Halves {
            high: (number / HALF) as u32,
            low: (number % HALF) as u32,
        }
    }

    fn number(&self) -> u64
        ensures { result ≡ self.now }
    {
        u64::from(self.high) * HALF + u64::from(self.low)
    }
}

/// A record in no more bytes than its numbers take, which a clause sees as the record.
#[derive(Debug, Drop)]
pub(crate) struct PackedRecord {
    key: Halves,
    alt: u32,
    at: Halves,
    size: u32,
}

impl Model for PackedRecord {
    ghost use Rattle.hay_index.specs.declared.record.Record.{Record};

    ghost Value = { Record };

    ghost view = { λ packed. record { pair = record { key = packed.key; alt = packed.alt }; at = packed.at; size = packed.size } };
}

impl PackedRecord {
    /// The record, packed.
    pub(crate) fn new(row: Record) -> PackedRecord
        ensures { result ≡ row }
    {
        PackedRecord {
            key: Halves::new(row.pair.key),
            alt: row.pair.alt,
            at: Halves::new(row.at),
            size: row.size,
        }
    }

    /// The record.
    pub(crate) fn record(&self) -> Record
        ensures { result ≡ self.now }
    {
        Record {
            pair: Pair {
                key: self.key.number(),
                alt: self.alt,
            },
            at: self.at.number(),
            size: self.size,
        }
    }
}
