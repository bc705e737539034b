//! A run's turns.
use crate::known::Known;
use hay_base::Listed;
use hay_reply::{LineVolume, Note, Reply};
use hay_script::Command;

/// What a line asks for.
#[derive(Drop)]
pub enum Item {
    Command(Command),
    Bad,
}

/// A line of a block, and what it was answered.
#[derive(Drop)]
pub struct LaneItem {
    pub line: u64,
    pub lane: u32,
    pub item: Item,
    pub reply: Reply,
}

/// The lines of a volume's new entries.
#[derive(Drop)]
pub struct LogNote {
    pub volume: u32,
    pub from: u64,
    pub lines: Listed<u64>,
}

/// The lines of new rows.
#[derive(Drop)]
pub struct RowNote {
    pub from: u64,
    pub rows: Listed<LineVolume>,
}

/// A part of a run, and what the store stands at behind it.
#[derive(Drop)]
pub enum Turn {
    Plain {
        line: u64,
        item: Item,
        reply: Reply,
        after: Known,
    },
    Lanes {
        items: Listed<LaneItem>,
        logs: Listed<LogNote>,
        rows: RowNote,
        after: Known,
    },
    Restart {
        line: u64,
        pick: u64,
        reply: Reply,
        notes: Listed<Note>,
        after: Known,
    },
}
