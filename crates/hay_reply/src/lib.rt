//! What a run answers: the reply to a command, the notes between replies, and their texts.
//!
//! It stands on the values of `hay_needle`, on `hay_url` and on `hex`. `specs/Replies.antt` has the one text of each reply and note; what is
//! written is that text, and want of memory leaves what is written to as it was. `read_reply` and `read_note` are exact: they give the value whose
//! text it is, and none exactly where no value has the text; `specs/Fits.antt` says which values there are.
#![tactic(auto)]

mod digits;
mod groups;
mod lists;
mod phrases;
mod read;
mod words;
mod write;

use hay_base::Listed;
use hay_needle::{Bytes, Cookie};
use hay_url::Url;
pub use read::{read_note, read_reply};
pub use write::{header_line, note_text, numbered_line, reply_text};

/// Why a try does not take a photo.
#[derive(Drop)]
pub enum Refused {
    NoRoom {
        volume: u32,
        machine: u32,
        end: u64,
        need: u64,
    },
    Closed {
        volume: u32,
        machine: u32,
    },
}

/// A volume, and the machine by which it is closed.
#[derive(Clone, Copy)]
pub struct ClosedBy {
    pub volume: u32,
    pub machine: u32,
}

/// Why a replica was passed over.
#[derive(Clone, Copy)]
pub enum Cause {
    Arm { faults: u64 },
    Disk { faults: u64 },
    Damage { at: u64 },
}

/// A replica's machine, and why it was passed over.
#[derive(Clone, Copy)]
pub struct Passed {
    pub machine: u32,
    pub cause: Cause,
}

/// A line, and the volume that its pair got.
#[derive(Clone, Copy)]
pub struct LineVolume {
    pub line: u64,
    pub volume: u32,
}

/// What a command was answered.
#[derive(Drop)]
pub enum Reply {
    Stored {
        volume: u32,
        position: u64,
        rows: u64,
        cookie: Cookie,
    },
    Deleted {
        volume: u32,
        position: u64,
        rows: u64,
    },
    Photo {
        volume: u32,
        machine: u32,
        front: u64,
        rows: u64,
        photo: Bytes,
    },
    Gone {
        volume: u32,
        machine: u32,
        front: u64,
        rows: u64,
    },
    Absent {
        volume: u32,
        front: u64,
        rows: u64,
    },
    WrongCookie {
        volume: u32,
        machine: u32,
        front: u64,
        rows: u64,
    },
    Unknown {
        rows: u64,
    },
    Moved {
        volume: u32,
        rows: u64,
    },
    Url {
        rows: u64,
        url: Url,
    },
    Full {
        tries: Listed<Refused>,
    },
    ReadOnly {
        tries: Listed<ClosedBy>,
    },
    ReadOnlyDir,
    Failed {
        volume: u32,
        machine: u32,
        faults: u64,
    },
    FailedDir {
        faults: u64,
    },
    Unreadable {
        volume: u32,
        front: u64,
        rows: u64,
        causes: Listed<Passed>,
    },
    Damaged {
        volume: u32,
        machine: u32,
        at: u64,
    },
    Flushed {
        volume: u32,
        machine: u32,
        records: u64,
    },
    Begun {
        volume: u32,
        machine: u32,
        generation: u64,
    },
    Stepped {
        volume: u32,
        machine: u32,
        cells: u64,
    },
    Compacted {
        volume: u32,
        machine: u32,
        generation: u64,
    },
    Busy {
        volume: u32,
        machine: u32,
        generation: u64,
    },
    Idle {
        volume: u32,
        machine: u32,
    },
    Worn {
        volume: u32,
        machine: u32,
    },
    Drained {
        machine: u32,
    },
    Undrained {
        machine: u32,
    },
    Fused {
        volume: u32,
        machine: u32,
        calls: u32,
    },
    FusedDir {
        calls: u32,
    },
    Nowhere,
    Restarted {
        rows: u64,
    },
    BadLine,
    NoMem,
}

/// A line without a number.
#[derive(Drop)]
pub enum Note {
    Kept {
        volume: u32,
        machine: u32,
        line: u64,
    },
    Lost {
        volume: u32,
        machine: u32,
        line: u64,
    },
    KeptDir {
        line: u64,
    },
    LostDir {
        line: u64,
    },
    Log {
        volume: u32,
        from: u64,
        lines: Listed<u64>,
    },
    Rows {
        from: u64,
        rows: Listed<LineVolume>,
    },
    OpenShelf {
        faults: u64,
    },
    OpenFailed {
        slot: u32,
        faults: u64,
    },
    OpenDamaged {
        slot: u32,
        file: u32,
        at: u64,
    },
}
