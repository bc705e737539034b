//! Entries of a volume's log.

use hay_base::{Duplicate, NoMemory};
use hay_needle::{Bytes, Cookie, Pair};
use std::alloc::Global;

/// Who asked for a change: a lane, and the line of the script.
#[derive(Clone, Copy, Debug, PartialEq, Eq)]
pub struct CoreTag {
    pub lane: u32,
    pub line: u64,
}

/// A change of a volume.
#[derive(Drop)]
pub enum Entry {
    /// The pair has this photo.
    Put {
        pair: Pair,
        cookie: Cookie,
        bytes: Bytes,
    },
    /// The pair has no photo.
    Del {
        pair: Pair,
    },
}

/// An entry, and who asked for it.
#[derive(Drop)]
pub struct Logged {
    pub tag: CoreTag,
    pub entry: Entry,
}

impl Duplicate for Entry {
    fn duplicate(&self, alloc: Global) -> Result<Entry, NoMemory> {
        match self {
            Entry::Put {
                pair,
                cookie,
                bytes,
            } => Ok(Entry::Put {
                pair: *pair,
                cookie: *cookie,
                bytes: bytes.duplicate(alloc)?,
            }),
            Entry::Del { pair } => Ok(Entry::Del { pair: *pair }),
        }
    }
}

impl Duplicate for Logged {
    fn duplicate(&self, alloc: Global) -> Result<Logged, NoMemory> {
        Ok(Logged {
            tag: self.tag,
            entry: self.entry.duplicate(alloc)?,
        })
    }
}
