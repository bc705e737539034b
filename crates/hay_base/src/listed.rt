//! A list that stands inside another value.

ghost use Rattle.std.specs.Prelude.{◌≡◌, ◌↔◌, ◌++◌, ◌∷◌, [], length, IfOk, IsTrue, OnOk, OnErr};

use crate::duplicate::Duplicate;
use crate::memory::NoMemory;
use std::alloc::Global;
use std::marker::Model;

/// Items in order, which a clause sees as a list.
#[derive(Debug, Drop)]
pub struct Listed<T> {
    items: Vec<T>,
}

impl<T> Model for Listed<T> {
    ghost use Rattle.std.specs.Prelude.{List};

    ghost Value = { List T };

    ghost view = { λ l. l.items.items };
}

impl<T> Listed<T> {
    /// A list without items.
    pub fn new(alloc: Global) -> Listed<T>
        ensures { result ≡ [] }
    {
        Listed {
            items: Vec::new(alloc),
        }
    }

    /// The list of a vector's items.
    pub fn from_vec(items: Vec<T>) -> Listed<T>
        ensures { result ≡ items.items }
    {
        Listed { items }
    }

    /// The items in a vector.
    pub fn into_vec(self) -> Vec<T>
        ensures { result.items ≡ self }
    {
        self.items
    }

    pub fn as_slice(&self) -> &[T]
        ensures { result.now ≡ self.now }
    {
        self.items.as_slice()
    }

    pub fn len(&self) -> usize
        ensures { result ≡ length self.now }
    {
        self.items.len()
    }

    pub fn is_empty(&self) -> bool
        ensures { IsTrue result ↔ (self.now ≡ []) }
    {
        self.items.is_empty()
    }
}

impl<T: Drop> Listed<T> {
    /// A list of one item.
    pub fn one(alloc: Global, item: T) -> Result<Listed<T>, NoMemory>
        ensures { IfOk result (λ list. list ≡ item ∷ []) }
    {
        let mut items = Vec::new(alloc);
        items.push(item)?;
        Ok(Listed { items })
    }

    /// Adds an item at the end. `NoMemory` changes nothing.
    pub fn push(&mut self, item: T) -> Result<(), NoMemory>
        ensures ok { OnOk result (self.new ≡ self.old ++ item ∷ []) }
        ensures err { OnErr result (self.new ≡ self.old) }
    {
        self.items.push(item)?;
        Ok(())
    }
}

fn duplicate_all<T: Duplicate>(alloc: Global, items: &[T]) -> Result<Listed<T>, NoMemory>
    ensures { IfOk result (λ copy. copy ≡ items.now) }
{
    let mut copy = Listed::new(alloc);
    for item in items {
        copy.push(item.duplicate(alloc)?)?;
    }
    Ok(copy)
}

impl<T: Duplicate> Duplicate for Listed<T> {
    fn duplicate(&self, alloc: Global) -> Result<Listed<T>, NoMemory> {
        duplicate_all(alloc, self.as_slice())
    }
}
