//! An open file of a slot.
ghost use Rattle.std.specs.Prelude.{◌≤◌, length, IfOk};

use crate::opened::{read_whole, rewrite, write_whole};
use crate::unsynced::Unsynced;
use std::fs::File;
use std::io;
use std::sync::Arc;

/// An open file, what of it may not be on the disk, and whether pieces of it were given.
#[derive(Drop)]
pub(crate) struct SlotFile {
    pub(crate) opened: Arc<File>,
    pub(crate) unsynced: Unsynced,
    /// It may have been made since it was synced.
    pub(crate) is_new: bool,
    pub(crate) has_pieces: bool,
}

impl SlotFile {
    /// Whether nothing is lost by closing it.
    pub(crate) fn is_resting(&self) -> bool {
        !self.has_pieces && !self.is_new && self.unsynced.is_empty()
    }

    pub(crate) fn size(&self) -> io::Result<u64> {
        Ok(self.opened.metadata()?.len())
    }

    pub(crate) fn read(&self, at: u64, out: &mut [u8]) -> io::Result<usize>
        ensures within { IfOk result (λ n. n ≤ length out.old) }
    {
        read_whole(&self.opened, at, out)
    }

    pub(crate) fn write(&mut self, at: u64, bytes: &[u8]) -> io::Result<()> {
        self.unsynced.note_write(at, bytes.len());
        write_whole(&self.opened, at, bytes)
    }

    /// The file, for a piece.
    pub(crate) fn share(&mut self) -> io::Result<Arc<File>> {
        let shared = self.opened.clone()?;
        self.has_pieces = true;
        Ok(shared)
    }

    /// Syncs the file. Where a sync has failed before, what that one was to sync is written again first.
    pub(crate) fn sync(&mut self) -> io::Result<()> {
        let synced = self.send();
        match &synced {
            Ok(()) => {
                self.unsynced = Unsynced::none();
                self.is_new = false;
            }
            Err(_) => self.unsynced.note_failure(),
        }
        synced
    }

    fn send(&self) -> io::Result<()> {
        if let Some((from, to)) = self.unsynced.lost() {
            rewrite(&self.opened, from, to)?;
        }
        if self.is_new {
            self.opened.sync_all()
        } else {
            self.opened.sync_data()
        }
    }
}
