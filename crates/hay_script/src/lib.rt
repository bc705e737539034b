//! The script: what each of its lines says.
//!
//! It stands on the values of `hay_needle`, on `hay_url` for the line `get`, on `hex`, and on `memchr`. `specs/Script.antt` has the grammar, as what a
//! line's words say. `read_line` answers just that, for every line of any bytes; want of memory is its only refusal.
#![tactic(auto)]

mod commands;
mod hexadecimal;
mod numbers;
mod photo;
mod read;
mod words;

use hay_needle::{Bytes, Cookie, Pair};
use hay_url::Url;
pub use read::read_line;
pub use words::{MAX_COMMANDS, MAX_LANES, MAX_LINE, MAX_SCRIPT};

/// A command of a script.
#[derive(Debug, Drop)]
pub enum Command {
    /// `put K A PHOTO`: stores a photo, or another in its place.
    Put {
        pair: Pair,
        photo: Bytes,
    },
    /// `read K A COOKIE`: shows a photo.
    Read {
        pair: Pair,
        cookie: Cookie,
    },
    /// `get URL`: shows the photo of a URL.
    Get {
        url: Url,
    },
    /// `del K A`: deletes a photo.
    Del {
        pair: Pair,
    },
    /// `url K A`: builds a URL.
    Url {
        pair: Pair,
    },
    /// `flush V M`: writes the records of a replica's index.
    Flush {
        volume: u32,
        machine: u32,
    },
    /// `compact V M`: a replica's whole compaction.
    Compact {
        volume: u32,
        machine: u32,
    },
    /// `begin V M`: begins a compaction.
    Begin {
        volume: u32,
        machine: u32,
    },
    /// `step V M N`: examines so many cells of a compaction, at least one.
    Step {
        volume: u32,
        machine: u32,
        cells: u32,
    },
    /// `finish V M`: ends a compaction.
    Finish {
        volume: u32,
        machine: u32,
    },
    /// `drain M`: a machine takes no more changes.
    Drain {
        machine: u32,
    },
    /// `undrain M`: it takes them again.
    Undrain {
        machine: u32,
    },
    /// `fuse V M N`: a replica's disk fails after so many changing calls.
    Fuse {
        volume: u32,
        machine: u32,
        calls: u32,
    },
    /// `fuse dir N`: the directory's disk does.
    FuseDir {
        calls: u32,
    },
    /// `restart P`: power is cut and comes back, and what unfinished writes leave is chosen by the pick, 0 where it is left out.
    Restart {
        pick: u64,
    },
}

/// What a line says.
#[derive(Debug, Drop)]
pub enum Line {
    /// Nothing: it has no words, or is a comment.
    Skip,
    /// No line of the grammar.
    Bad,
    /// A command outside of a block.
    Plain(Command),
    /// A command in a lane of a block.
    InLane { lane: u32, command: Command },
    /// `lanes N`: a block of 1 to `MAX_LANES` lanes begins.
    Lanes(u32),
    /// `end`: the block is whole.
    End,
}
