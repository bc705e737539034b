//! A replica as the list of changing calls has it: what a command calls of its disk, and what is left of its cells.

use super::script::Pair;
use std::alloc::Global;
use std::collections::BTreeMap;
use std::test::Fail;

/// What the last change of a pair made of it.
#[derive(Clone, Copy)]
pub enum Content {
    Photo { line: u64 },
    Gone,
}

impl Content {
    pub fn is_gone(self) -> bool {
        matches!(self, Content::Gone)
    }
}

/// How maintenance work on a replica ends.
#[derive(Clone, Copy)]
pub enum Done {
    Flushed(u64),
    Begun(u64),
    Stepped(u64),
    Compacted(u64),
    Busy(u64),
    Idle,
    ReadOnly,
    Failed,
    /// The head may name either generation.
    Unsure,
}

/// A disk's fuse, if one is set, and its count of faults.
#[derive(Drop)]
struct Device {
    fuse: Option<u64>,
    faults: u64,
}

impl Device {
    /// Makes changing calls up to the first that fails, and answers whether none did.
    fn calls(&mut self, calls: u64) -> bool {
        match self.fuse {
            Some(left) if left < calls => {
                self.fuse = Some(0);
                self.faults = self.faults.saturating_add(1);
                false
            }
            Some(left) => {
                self.fuse = Some(left.saturating_sub(calls));
                true
            }
            None => true,
        }
    }
}

#[derive(Clone, Copy)]
struct Cell {
    pair: Pair,
    deleted: bool,
}

/// The place of a pair's last cell.
fn latest(cells: &[Cell], pair: Pair) -> Option<usize> {
    let mut found = None;
    for (at, cell) in cells.iter().enumerate() {
        if cell.pair == pair {
            found = Some(at);
        }
    }
    found
}

/// The cells of a generation, the last of which have no record.
#[derive(Drop)]
struct Files {
    generation: u64,
    cells: Vec<Cell>,
    bare: u64,
}

/// A compaction: how many cells it has examined, and those that it copied.
#[derive(Drop)]
struct Run {
    goal: u64,
    examined: usize,
    copies: Vec<Cell>,
}

/// How the examination of a cell ends.
#[derive(Clone, Copy)]
enum Examined {
    Passed,
    AtEnd,
    Failed,
}

#[derive(Drop)]
pub struct Replica {
    alloc: Global,
    /// A pair stands here from its first put on, also where that put failed and was lost: it has its row.
    contents: BTreeMap<Pair, Content>,
    disk: Device,
    files: Files,
    run: Option<Run>,
    /// Whether a flush failed since the last restart.
    stuck: bool,
    /// How many cells have no record if a failed flush wrote its block.
    bare_if_flushed: Option<u64>,
    /// What is current if a failed switch wrote its row.
    files_if_switched: Option<Files>,
}

impl Replica {
    pub fn new(alloc: Global) -> Replica {
        Replica {
            alloc,
            contents: BTreeMap::new(alloc),
            disk: Device {
                fuse: None,
                faults: 0,
            },
            files: Files {
                generation: 0,
                cells: Vec::new(alloc),
                bare: 0,
            },
            run: None,
            stuck: false,
            bare_if_flushed: None,
            files_if_switched: None,
        }
    }

    pub fn content(&self, pair: Pair) -> Content {
        self.contents.get(&pair).copied().unwrap_or(Content::Gone)
    }

    pub fn faults(&self) -> u64 {
        self.disk.faults
    }

    pub fn fuse(&mut self, calls: u64) {
        self.disk.fuse = Some(calls);
    }

    pub fn drop_run(&mut self) {
        self.run = None;
    }

    pub fn stop(&mut self) {
        self.disk.fuse = None;
        self.run = None;
        self.stuck = false;
    }

    /// Makes the calls of a change, and answers whether none failed that refuses it.
    pub fn change(&mut self, pair: Pair, content: Content) -> bool {
        if !content.is_gone() {
            return self.disk.calls(4);
        }
        if self.content(pair).is_gone() {
            return true;
        }
        if !self.disk.calls(2) {
            return false;
        }
        self.repeat_delete(pair);
        true
    }

    /// Repeats a delete in the compaction that stands, which ends where that fails.
    fn repeat_delete(&mut self, pair: Pair) {
        let Some(run) = &mut self.run else {
            return;
        };
        let Some(at) = latest(run.copies.as_slice(), pair) else {
            return;
        };
        let Some(cell) = run.copies.get_mut(at) else {
            return;
        };
        cell.deleted = true;
        if !self.disk.calls(1) {
            self.run = None;
        }
    }

    /// The replica has a change.
    pub fn set(&mut self, pair: Pair, content: Content) -> Result<(), Fail> {
        self.contents.insert(pair, content).ok().ok_or("memory")?;
        if content.is_gone() {
            if let Some(at) = latest(self.files.cells.as_slice(), pair) {
                if let Some(cell) = self.files.cells.get_mut(at) {
                    cell.deleted = true;
                }
            }
            return Ok(());
        }
        self.files.cells.push(Cell {
            pair,
            deleted: false,
        })?;
        self.files.bare = self.files.bare.saturating_add(1);
        self.bare_if_flushed = self.bare_if_flushed.map(|bare| bare.saturating_add(1));
        Ok(())
    }

    /// How many cells have no record behind a restart, if the flush that failed before it wrote its block.
    pub fn bare_if_flushed(&self) -> Option<u64> {
        if self.stuck {
            return None;
        }
        self.bare_if_flushed
    }

    /// The generation, if a switch that failed wrote its row.
    pub fn generation_if_switched(&self) -> Option<u64> {
        self.files_if_switched
            .as_ref()
            .map(|files| files.generation)
    }

    /// Settles whether a failed flush wrote its block.
    pub fn settle_flush(&mut self, wrote: bool) {
        if let Some(bare) = self.bare_if_flushed.take() {
            if wrote {
                self.files.bare = bare;
            }
        }
    }

    /// Settles whether a failed switch wrote its row.
    pub fn settle_switch(&mut self, wrote: bool) {
        if let Some(files) = self.files_if_switched.take() {
            if wrote {
                self.files = files;
            }
        }
    }

    /// A block of records is appended by four calls.
    pub fn flush(&mut self) -> Done {
        let records = self.files.bare;
        if self.stuck {
            return Done::ReadOnly;
        }
        if records == 0 {
            return Done::Flushed(0);
        }
        if self.disk.calls(4) {
            self.files.bare = 0;
            Done::Flushed(records)
        } else {
            self.stuck = true;
            self.bare_if_flushed = Some(0);
            Done::Failed
        }
    }

    /// Two files are taken away, and two written.
    pub fn begin(&mut self) -> Done {
        if let Some(run) = &self.run {
            return Done::Busy(run.goal);
        }
        if !self.disk.calls(4) {
            return Done::Failed;
        }
        let goal = self.files.generation.saturating_add(1);
        self.run = Some(Run {
            goal,
            examined: 0,
            copies: Vec::new(self.alloc),
        });
        Done::Begun(goal)
    }

    /// A cell that is the last of its pair and not deleted is copied by one call.
    fn examine(&mut self, run: &mut Run) -> Result<Examined, Fail> {
        let cells = self.files.cells.as_slice();
        let Some(cell) = cells.get(run.examined).copied() else {
            return Ok(Examined::AtEnd);
        };
        if !cell.deleted && latest(cells, cell.pair) == Some(run.examined) {
            if !self.disk.calls(1) {
                return Ok(Examined::Failed);
            }
            run.copies.push(cell)?;
        }
        run.examined = run.examined.saturating_add(1);
        Ok(Examined::Passed)
    }

    pub fn step(&mut self, cells: u64) -> Result<Done, Fail> {
        let Some(mut run) = self.run.take() else {
            return Ok(Done::Idle);
        };
        let mut examined = 0_u64;
        for _ in 0..cells {
            match self.examine(&mut run)? {
                Examined::Passed => examined = examined.saturating_add(1),
                Examined::AtEnd => break,
                Examined::Failed => return Ok(Done::Failed),
            }
        }
        self.run = Some(run);
        Ok(Done::Stepped(examined))
    }

    /// What is left is copied, a block of records written if a cell was copied, and both files are synced; the row of the head
    /// is appended by four calls, and the old files are taken away, where a failure is no refusal.
    pub fn finish(&mut self) -> Result<Done, Fail> {
        let left = self.files.cells.len() as u64;
        match self.step(left)? {
            Done::Stepped(_) => {}
            refused => return Ok(refused),
        }
        let Some(run) = self.run.take() else {
            return Ok(Done::Idle);
        };
        let Run {
            goal,
            examined: _,
            copies,
        } = run;
        if !self.disk.calls(if copies.is_empty() { 2 } else { 3 }) {
            return Ok(Done::Failed);
        }
        let files = Files {
            generation: goal,
            cells: copies,
            bare: 0,
        };
        if !self.disk.calls(4) {
            self.files_if_switched = Some(files);
            return Ok(Done::Unsure);
        }
        for _ in 0..2 {
            let _ = self.disk.calls(1);
        }
        self.files = files;
        self.stuck = false;
        self.bare_if_flushed = None;
        Ok(Done::Compacted(goal))
    }

    pub fn compact(&mut self) -> Result<Done, Fail> {
        match self.begin() {
            Done::Begun(_) => self.finish(),
            refused => Ok(refused),
        }
    }
}
