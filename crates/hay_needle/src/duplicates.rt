//! Copies of what a needle holds.

use crate::needle::{Needle, Outcome, Pair, Photo, Row};
use hay_base::{Duplicate, NoMemory};
use std::alloc::Global;

impl Duplicate for Pair {
    fn duplicate(&self, _alloc: Global) -> Result<Pair, NoMemory> {
        Ok(*self)
    }
}

impl Duplicate for Photo {
    fn duplicate(&self, alloc: Global) -> Result<Photo, NoMemory> {
        Ok(Photo {
            cookie: self.cookie,
            bytes: self.bytes.duplicate(alloc)?,
        })
    }
}

impl Duplicate for Outcome {
    fn duplicate(&self, alloc: Global) -> Result<Outcome, NoMemory> {
        match self {
            Outcome::Nothing => Ok(Outcome::Nothing),
            Outcome::Photo(photo) => Ok(Outcome::Photo(photo.duplicate(alloc)?)),
        }
    }
}

impl Duplicate for Row {
    fn duplicate(&self, alloc: Global) -> Result<Row, NoMemory> {
        Ok(Row {
            pair: self.pair,
            outcome: self.outcome.duplicate(alloc)?,
        })
    }
}

impl Duplicate for Needle {
    fn duplicate(&self, alloc: Global) -> Result<Needle, NoMemory> {
        Ok(Needle {
            version: self.version,
            pair: self.pair,
            photo: self.photo.duplicate(alloc)?,
            deleted: self.deleted,
        })
    }
}
