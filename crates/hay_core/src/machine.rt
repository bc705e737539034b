//! A logical volume: its replicas, its log, and who holds or reads it.

ghost use Rattle.std.specs.Prelude.{◌≡◌, ◌≤◌, IfOk, OnErr, replicate};
ghost use Rattle.hay_core.specs.Goodness.{CoreGood};
ghost use Rattle.hay_core.specs.Transitions as steps;

use crate::entry::{CoreTag, Logged};
use crate::events::{begin, device_failed, device_ok, end_hold, publish, read_failed};
use crate::readers::{fetch, look_up, open_call, stop};
use hay_base::{Listed, NoMemory};
use hay_needle::{Needle, Outcome, Pair, Photo, Row};
use std::alloc::Global;

/// What the volume's lock is held for.
#[derive(Drop)]
pub enum Work {
    Put { pair: Pair, photo: Photo },
    Del { pair: Pair },
    /// Records of all needles in the index.
    Flush { side: u32 },
    /// A compaction begins.
    Start { side: u32 },
    /// The compaction examines so many needles more.
    Step { side: u32, cells: u64 },
    /// The compaction ends, and the new files take the place of the old ones.
    Finish { side: u32 },
}

/// One holding of the volume's lock.
#[derive(Drop)]
pub struct Hold {
    pub tag: CoreTag,
    pub work: Work,
    /// A call failed that ends the work.
    pub failed: bool,
    pub published: bool,
}

/// What a write did that no sync has made sure.
#[derive(Drop)]
pub enum Doubt {
    Sure,
    /// A needle at the end of the current file.
    Cell(Needle),
    /// The flag of the pair's last needle in the current file.
    Flag(Pair),
    /// The row of the head file that names the next generation.
    Head,
}

/// What the map gives a pair.
#[derive(Clone, Copy, PartialEq, Eq)]
pub enum Spot {
    Absent,
    /// The needle of this number, from 0, in the file of this generation.
    Live { generation: u64, number: u64 },
    Gone,
}

/// A pair and its spot. Of two of one pair the later one counts.
#[derive(Clone, Copy, PartialEq, Eq)]
pub struct Mapped {
    pub pair: Pair,
    pub spot: Spot,
}

/// One replica.
#[derive(Drop)]
pub struct Side {
    /// Its table when it was opened.
    pub base: Listed<Row>,
    /// The needles of the generations before the current one.
    pub past: Listed<Listed<Needle>>,
    /// The needles of the current file, but for what is in doubt.
    pub current: Listed<Needle>,
    /// The needles of the next generation's file, where a compaction stands.
    pub fresh: Listed<Needle>,
    /// How many records surely stand in the index.
    pub rows: u64,
    /// How many records perhaps stand there.
    pub most: u64,
    pub doubt: Doubt,
    /// How many current needles a standing compaction has examined.
    pub copy: Option<u64>,
    pub spots: Listed<Mapped>,
    pub is_open: bool,
    /// How far it is in the present holding: the number of its next device call, in a step of a compaction the number of
    /// needles that were examined in it. `None` where it has no part.
    pub progress: Option<u64>,
    /// Whether the change under way stands in its needles. So it does where the side has no part in it.
    pub settled: bool,
}

/// Who has looked a pair up, and what was seen.
#[derive(Drop)]
pub struct Reader {
    pub number: u32,
    pub pair: Pair,
    /// How many entries the log had.
    pub front: u64,
    /// The pair's spot on each replica.
    pub row: Listed<Spot>,
}

/// One logical volume.
#[derive(Drop)]
pub struct Core {
    /// What was published since all replicas were opened.
    pub log: Listed<Logged>,
    pub sides: Listed<Side>,
    pub hold: Option<Hold>,
    pub readers: Listed<Reader>,
    pub frozen: bool,
    /// A put or delete that was neither published nor surely dropped.
    pub pending: Option<Logged>,
    /// All replicas are open.
    pub up: bool,
}

/// One atomic step.
#[derive(Drop)]
pub enum Event {
    Begin {
        tag: CoreTag,
        work: Work,
    },
    /// The next device call of the holding is made.
    DeviceOk,
    /// The next device call of the holding fails.
    DeviceFailed,
    /// A read of the holding fails.
    ReadFailed,
    Publish,
    EndHold,
    Look {
        reader: u32,
        pair: Pair,
    },
    /// The reader fetches what it saw on this replica.
    Fetch {
        reader: u32,
        replica: u32,
    },
    /// Everything stops. Of each replica: whether its doubt is kept, and whether the records that perhaps stand do.
    Stop {
        keep: Listed<bool>,
        rows: Listed<bool>,
    },
    OpenCall {
        replica: u32,
    },
}

/// The answer of a step.
#[derive(Drop)]
pub enum CoreReply {
    Done,
    Shown(Outcome),
    /// The event can't happen now, and changed nothing.
    NotEnabled,
}

fn new_side(alloc: Global) -> Side
    ensures { result ≡ steps.new_side }
{
    Side {
        base: Listed::new(alloc),
        past: Listed::new(alloc),
        current: Listed::new(alloc),
        fresh: Listed::new(alloc),
        rows: 0,
        most: 0,
        doubt: Doubt::Sure,
        copy: None,
        spots: Listed::new(alloc),
        is_open: true,
        progress: None,
        settled: false,
    }
}

fn new_sides(alloc: Global, replicas: u32) -> Result<Listed<Side>, NoMemory>
    ensures { IfOk result (λ sides. sides ≡ replicate replicas steps.new_side) }
{
    let mut sides = Listed::new(alloc);
    for _ in 0..replicas {
        sides.push(new_side(alloc))?;
    }
    Ok(sides)
}

fn change_by(alloc: Global, event: &Event, core: &mut Core) -> Result<CoreReply, NoMemory>
    ensures core { IfOk result (λ reply. core.new ≡ (steps.after_event core.old event.now).core) }
    ensures reply { IfOk result (λ reply. reply ≡ (steps.after_event core.old event.now).reply) }
    ensures err { OnErr result (core.new ≡ core.old) }
{
    let next = match event {
        Event::Begin { tag, work } => begin(alloc, *tag, work, core)?,
        Event::DeviceOk => device_ok(alloc, core)?,
        Event::DeviceFailed => device_failed(alloc, core)?,
        Event::ReadFailed => read_failed(alloc, core)?,
        Event::Publish => publish(alloc, core)?,
        Event::EndHold => end_hold(alloc, core)?,
        Event::Look { reader, pair } => look_up(alloc, *reader, *pair, core)?,
        Event::Fetch { reader, replica } => return fetch(alloc, *reader, *replica, core),
        Event::Stop { keep, rows } => stop(alloc, keep.as_slice(), rows.as_slice(), core)?,
        Event::OpenCall { replica } => open_call(alloc, *replica, core)?,
    };
    match next {
        None => Ok(CoreReply::NotEnabled),
        Some(next) => {
            *core = next;
            Ok(CoreReply::Done)
        }
    }
}

impl Core {
    /// A volume of so many replicas, one to four. It is up, and all of it is empty.
    pub fn new(alloc: Global, replicas: u32) -> Result<Core, NoMemory>
        requires { (1 ≤ replicas) × (replicas ≤ 4) }
        ensures new { IfOk result (λ core. core ≡ steps.new_core replicas) }
        ensures good { IfOk result CoreGood }
    {
        Ok(Core {
            log: Listed::new(alloc),
            sides: new_sides(alloc, replicas)?,
            hold: None,
            readers: Listed::new(alloc),
            frozen: false,
            pending: None,
            up: true,
        })
    }

    /// One event. `NotEnabled` and want of memory leave the volume as it was.
    pub fn step(&mut self, alloc: Global, event: &Event) -> Result<CoreReply, NoMemory>
        ensures core { IfOk result (λ reply. self.new ≡ (steps.after_event self.old event.now).core) }
        ensures reply { IfOk result (λ reply. reply ≡ (steps.after_event self.old event.now).reply) }
        ensures err { OnErr result (self.new ≡ self.old) }
        ensures good { CoreGood self.old → CoreGood self.new }
    {
        change_by(alloc, event, self)
    }
}
