//! Disks of files in a folder.
ghost use Rattle.std.specs.Prelude.{ℕ};
ghost use Rattle.hay_disk.specs.Disk.{empty_file};

use crate::faults::Faults;
use crate::piece::FilePiece;
use crate::slot::SlotFiles;
use crate::system::System;
use hay_disk::{Disk, DiskFault, Failed};

/// The files of a slot in a folder. A call fails where the system fails it, or where memory for it is wanting.
///
/// It ignores fuses. A power cycle closes the files and leaves them as they are; the next call syncs them first.
#[derive(Drop)]
pub struct FileDisk<R> {
    pub(crate) files: SlotFiles<R>,
    pub(crate) faults: Faults,
    pub(crate) fuses: u64,
}

impl<R: System> Disk for FileDisk<R> {
    type Piece = FilePiece;

    ghost Tells = { ⊥ };

    ghost files = { λ _ _. empty_file };

    ghost drawn = { λ _ _. 0 };

    ghost fault_count = { λ disk. disk.faults.count };

    ghost fuse_count = { λ disk. disk.fuses };

    ghost may_leave_now = { λ _ _ told. absurd told };

    ghost fits = { λ _ _ told. absurd told };

    fn size(&mut self, file: u32) -> Result<u64, Failed> {
        let size = self.files.size(file);
        self.faults.note(size)
    }

    fn read_into(&mut self, file: u32, at: u64, out: &mut [u8]) -> Result<usize, Failed> {
        let read = self.files.read(file, at, out);
        self.faults.note(read)
    }

    fn write(&mut self, file: u32, at: u64, bytes: &[u8]) -> Result<(), DiskFault> {
        let written = self.files.write(file, at, bytes);
        self.faults.note(written)?;
        Ok(())
    }

    fn sync(&mut self, file: u32) -> Result<(), Failed> {
        let synced = self.files.sync(file);
        self.faults.note(synced)
    }

    fn remove(&mut self, file: u32) -> Result<(), Failed> {
        let removed = self.files.remove(file);
        self.faults.note(removed)
    }

    fn seal(
        &mut self,
        file: u32,
        at: u64,
        len: usize,
        hole: usize,
    ) -> Result<FilePiece, DiskFault> {
        let shared = self.files.share(file);
        let shared = self.faults.note(shared)?;
        Ok(FilePiece {
            file: Some(shared),
            at,
            len,
            hole,
        })
    }

    fn fuse(&mut self, _calls: u64) {
        self.fuses = self.fuses.saturating_add(1);
    }

    fn faults(&self) -> u64 {
        self.faults.count()
    }

    fn power_cycle(&mut self, _pick: u64) {
        self.files.close();
    }
}
