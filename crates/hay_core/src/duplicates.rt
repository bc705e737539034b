//! Copies of a volume's parts.

use crate::machine::{Core, Doubt, Hold, Mapped, Reader, Side, Spot, Work};
use hay_base::{Duplicate, NoMemory};
use std::alloc::Global;

impl Duplicate for Work {
    fn duplicate(&self, alloc: Global) -> Result<Work, NoMemory> {
        match self {
            Work::Put { pair, photo } => Ok(Work::Put {
                pair: *pair,
                photo: photo.duplicate(alloc)?,
            }),
            Work::Del { pair } => Ok(Work::Del { pair: *pair }),
            Work::Flush { side } => Ok(Work::Flush { side: *side }),
            Work::Start { side } => Ok(Work::Start { side: *side }),
            Work::Step { side, cells } => Ok(Work::Step {
                side: *side,
                cells: *cells,
            }),
            Work::Finish { side } => Ok(Work::Finish { side: *side }),
        }
    }
}

impl Duplicate for Hold {
    fn duplicate(&self, alloc: Global) -> Result<Hold, NoMemory> {
        Ok(Hold {
            tag: self.tag,
            work: self.work.duplicate(alloc)?,
            failed: self.failed,
            published: self.published,
        })
    }
}

impl Duplicate for Doubt {
    fn duplicate(&self, alloc: Global) -> Result<Doubt, NoMemory> {
        match self {
            Doubt::Sure => Ok(Doubt::Sure),
            Doubt::Cell(needle) => Ok(Doubt::Cell(needle.duplicate(alloc)?)),
            Doubt::Flag(pair) => Ok(Doubt::Flag(*pair)),
            Doubt::Head => Ok(Doubt::Head),
        }
    }
}

impl Duplicate for Spot {
    fn duplicate(&self, _alloc: Global) -> Result<Spot, NoMemory> {
        Ok(*self)
    }
}

impl Duplicate for Mapped {
    fn duplicate(&self, _alloc: Global) -> Result<Mapped, NoMemory> {
        Ok(*self)
    }
}

impl Duplicate for Reader {
    fn duplicate(&self, alloc: Global) -> Result<Reader, NoMemory> {
        Ok(Reader {
            number: self.number,
            pair: self.pair,
            front: self.front,
            row: self.row.duplicate(alloc)?,
        })
    }
}

impl Duplicate for Side {
    fn duplicate(&self, alloc: Global) -> Result<Side, NoMemory> {
        let base = self.base.duplicate(alloc)?;
        let past = self.past.duplicate(alloc)?;
        let current = self.current.duplicate(alloc)?;
        let fresh = self.fresh.duplicate(alloc)?;
        let spots = self.spots.duplicate(alloc)?;
        let doubt = self.doubt.duplicate(alloc)?;
        Ok(Side {
            base,
            past,
            current,
            fresh,
            rows: self.rows,
            most: self.most,
            doubt,
            copy: self.copy,
            spots,
            is_open: self.is_open,
            progress: self.progress,
            settled: self.settled,
        })
    }
}

impl Duplicate for Core {
    fn duplicate(&self, alloc: Global) -> Result<Core, NoMemory> {
        let log = self.log.duplicate(alloc)?;
        let sides = self.sides.duplicate(alloc)?;
        let readers = self.readers.duplicate(alloc)?;
        let pending = self.pending.duplicate(alloc)?;
        let hold = self.hold.duplicate(alloc)?;
        Ok(Core {
            log,
            sides,
            hold,
            readers,
            frozen: self.frozen,
            pending,
            up: self.up,
        })
    }
}
