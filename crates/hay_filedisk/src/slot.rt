//! The files of one slot in a folder.
ghost use Rattle.std.specs.Prelude.{◌≤◌, length, IfOk};

use crate::file::SlotFile;
use crate::system::{System, lock, open_found, open_or_make};
use crate::unsynced::Unsynced;
use std::alloc::{AllocError, Global};
use std::collections::BTreeMap;
use std::fs::File;
use std::io::ErrorKind;
use std::sync::Arc;
use std::{fs, io};

/// The files of a slot, which no other holder of this lock touches.
///
/// A file is opened when it is used. It stays open while it has writes that are not synced, and once a piece of it was
/// given, until it is taken away. Of the others the one that was used last stays open, but only where no file has pieces.
/// So where all is synced, two files are open for good: the lock, and the one that is read.
#[derive(Drop)]
pub(crate) struct SlotFiles<R> {
    rt: R,
    alloc: Global,
    path: String,
    slot: u32,
    _lock: File,
    folder: Arc<File>,
    open: BTreeMap<u32, SlotFile>,
    is_settled: bool,
    /// A file was made or taken away since the folder was synced.
    folder_changed: bool,
}

// The number that a text is, in digits alone, the first of which is 0 in 0 alone.
fn number_in(text: &str) -> Option<u32> {
    match text.as_bytes() {
        b"0" | [b'1'..=b'9', ..] => text.parse().ok(),
        _ => None,
    }
}

impl<R: System> SlotFiles<R> {
    /// Locks the slot, and syncs its files.
    pub(crate) fn take(
        rt: R,
        alloc: Global,
        path: &str,
        folder: Arc<File>,
        slot: u32,
    ) -> io::Result<SlotFiles<R>> {
        let lock = lock(&rt, format!(in alloc; "{path}/{slot}.lock")?.as_str())?;
        let mut files = SlotFiles {
            rt,
            alloc,
            path: String::from_str(alloc, path)?,
            slot,
            _lock: lock,
            folder,
            open: BTreeMap::new(alloc),
            is_settled: false,
            folder_changed: false,
        };
        files.settle()?;
        Ok(files)
    }

    /// Closes the files, but for those with writes that are not synced. Before the next call all are synced.
    pub(crate) fn close(&mut self) {
        self.open.retain(|_, file| {
            file.has_pieces = false;
            !file.is_resting()
        });
        self.is_settled = false;
    }

    // Syncs the files of the slot, unless they were since they were closed.
    fn settle(&mut self) -> io::Result<()> {
        if self.is_settled {
            return Ok(());
        }
        self.settle_all()
    }

    // The locals of reading a folder are large and are cleared when a function begins: so it is one of its own.
    fn settle_all(&mut self) -> io::Result<()> {
        for entry in fs::read_dir(&self.rt, self.path.as_str())? {
            let number = match entry {
                Ok(entry) => self.number_of(entry.file_name()),
                Err(error) if error.kind() == ErrorKind::InvalidFilename => None, // no text
                Err(error) => return Err(error),
            };
            if let Some(number) = number {
                self.settle_file(number)?;
            }
        }
        self.folder.sync_all()?;
        self.folder_changed = false;
        self.is_settled = true;
        Ok(())
    }

    // Syncs a file. Of one that is not open it is not known what an earlier process wrote of it, and whether it made it.
    fn settle_file(&mut self, number: u32) -> io::Result<()> {
        let is_known = self.open.contains_key(&number);
        if let Some(file) = self.open_file(number)? {
            if !is_known {
                file.unsynced = Unsynced::all();
                file.is_new = true;
            }
            file.sync()?;
        }
        self.close_resting(number);
        Ok(())
    }

    // The number of the slot's file that has this name.
    fn number_of(&self, name: &str) -> Option<u32> {
        let (slot, file) = name.split_once('-')?;
        if number_in(slot)? == self.slot {
            number_in(file)
        } else {
            None
        }
    }

    fn path_of(&self, number: u32) -> Result<String, AllocError> {
        format!(in self.alloc; "{}/{}-{}", self.path, self.slot, number)
    }

    // Keeps a file that was opened.
    fn keep(&mut self, number: u32, opened: File, is_new: bool) -> io::Result<()> {
        let file = SlotFile {
            opened: Arc::new(self.alloc, opened)?,
            unsynced: Unsynced::none(),
            is_new,
            has_pieces: false,
        };
        self.open.insert(number, file)?;
        Ok(())
    }

    // The file, open, if there is one.
    fn open_file(&mut self, number: u32) -> io::Result<Option<&mut SlotFile>> {
        if !self.open.contains_key(&number) {
            let path = self.path_of(number)?;
            match open_found(&self.rt, path.as_str())? {
                Some(opened) => self.keep(number, opened, false)?,
                None => return Ok(None),
            }
        }
        Ok(self.open.get_mut(&number))
    }

    // The file, if there is one, when all are synced.
    fn find(&mut self, number: u32) -> io::Result<Option<&mut SlotFile>> {
        self.settle()?;
        self.open_file(number)
    }

    // Makes the file where it is missing.
    fn make(&mut self, number: u32) -> io::Result<()> {
        if self.find(number)?.is_some() {
            return Ok(());
        }
        let path = self.path_of(number)?;
        self.folder_changed = true;
        let made = open_or_make(&self.rt, path.as_str())?;
        self.keep(number, made, true)
    }

    // Closes the files that have nothing to be synced and no pieces, but for the one that was used last where none has pieces.
    fn close_resting(&mut self, used: u32) {
        let has_pieces = self.open.values().any(|file| file.has_pieces);
        self.open.retain(|number, file| !file.is_resting() || (*number == used && !has_pieces));
    }

    pub(crate) fn size(&mut self, number: u32) -> io::Result<u64> {
        let size = match self.find(number)? {
            Some(file) => file.size(),
            None => Ok(0),
        };
        self.close_resting(number);
        size
    }

    pub(crate) fn read(&mut self, number: u32, at: u64, out: &mut [u8]) -> io::Result<usize>
        ensures within { IfOk result (λ n. n ≤ length out.old) }
    {
        let read = match self.find(number)? {
            Some(file) => file.read(at, out),
            None => Ok(0),
        };
        self.close_resting(number);
        read
    }

    pub(crate) fn write(&mut self, number: u32, at: u64, bytes: &[u8]) -> io::Result<()> {
        self.make(number)?;
        let written = match self.open.get_mut(&number) {
            Some(file) => file.write(at, bytes),
            None => Err(ErrorKind::NotFound.into()),
        };
        self.close_resting(number);
        written
    }

    /// Syncs the file, and then the folder, if a file was made or taken away.
    pub(crate) fn sync(&mut self, number: u32) -> io::Result<()> {
        if let Some(file) = self.find(number)? {
            file.sync()?;
        }
        self.close_resting(number);
        if self.folder_changed {
            self.folder.sync_all()?;
            self.folder_changed = false;
        }
        Ok(())
    }

    /// Takes the file away. Where that fails, what is known of it stays.
    pub(crate) fn remove(&mut self, number: u32) -> io::Result<()> {
        let path = self.path_of(number)?;
        self.folder_changed = true;
        match fs::remove_file(&self.rt, path.as_str()) {
            Err(error) if error.kind() != ErrorKind::NotFound => Err(error),
            Ok(()) | Err(_) => {
                self.open.remove(&number);
                Ok(())
            }
        }
    }

    /// The file, shared. There must be one.
    pub(crate) fn share(&mut self, number: u32) -> io::Result<Arc<File>> {
        let shared = match self.find(number)? {
            Some(file) => file.share(),
            None => Err(ErrorKind::NotFound.into()),
        };
        self.close_resting(number);
        shared
    }
}
