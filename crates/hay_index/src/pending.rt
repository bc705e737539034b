//! The records that no block has yet.

ghost use Rattle.std.specs.Prelude.{◌≡◌, ◌↔◌, ◌++◌, ◌∷◌, ◌<◌, [], length, IsTrue, IfOk, OnOk, OnErr};
ghost use Rattle.hay_index.specs.declared.record.Record.{Record};

use crate::packed::PackedRecord;
use crate::record::Record;
use hay_base::NoMemory;
use std::alloc::{AllocError, Global};
use std::marker::Model;

/// Records in order, which a clause sees as a list.
#[derive(Debug, Drop)]
pub struct Pending {
    records: Vec<PackedRecord>,
}

impl Model for Pending {
    ghost use Rattle.std.specs.Prelude.{List};
    ghost use Rattle.hay_index.specs.declared.record.Record.{Record};

    ghost Value = { List Record };

    ghost view = { λ pending. pending.records.items };
}

impl Pending {
    /// No records.
    pub fn new(alloc: Global) -> Pending
        ensures { result ≡ [] }
    {
        Pending {
            records: Vec::new(alloc),
        }
    }

    /// The records in order.
    pub(crate) fn as_slice(&self) -> &[PackedRecord]
        ensures { result.now ≡ self.now }
    {
        self.records.as_slice()
    }

    /// A copy of the records in order.
    pub fn to_vec(&self, alloc: Global) -> Result<Vec<Record>, AllocError>
        ensures { IfOk result (λ records. records.items ≡ self.now) }
    {
        unpacked(alloc, self.as_slice())
    }

    /// How many there are.
    pub fn len(&self) -> usize
        ensures { result ≡ length self.now }
    {
        self.records.len()
    }

    /// Whether there is none.
    pub fn is_empty(&self) -> bool
        ensures { IsTrue result ↔ (self.now ≡ []) }
    {
        self.records.is_empty()
    }

    /// Adds a record at the end. `NoMemory` changes nothing.
    pub(crate) fn push(&mut self, row: Record) -> Result<(), NoMemory>
        ensures ok { OnOk result (self.new ≡ self.old ++ row ∷ []) }
        ensures err { OnErr result (self.new ≡ self.old) }
    {
        self.records.push(PackedRecord::new(row))?;
        Ok(())
    }

    /// Takes the last record away.
    pub(crate) fn pop(&mut self)
        requires { 0 < length self.old }
        ensures { (row : Record) × (self.old ≡ self.new ++ row ∷ []) }
    {
        self.records.pop();
    }

    /// Takes all records away, and gives their room back.
    pub(crate) fn clear(&mut self)
        ensures { self.new ≡ [] }
    {
        self.records.clear();
        self.records.shrink_to_fit();
    }

    pub(crate) fn allocator(&self) -> Global {
        *self.records.allocator()
    }
}

// These records in order.
fn unpacked(alloc: Global, records: &[PackedRecord]) -> Result<Vec<Record>, AllocError>
    ensures { IfOk result (λ rows. rows.items ≡ records.now) }
{
    let mut rows = Vec::with_capacity(alloc, records.len())?;
    for record in records {
        rows.push(record.record())?;
    }
    Ok(rows)
}
