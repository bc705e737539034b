//! A shelf of disks in a folder.
#![tactic(auto, unfolding(crate::specs::Shelf::file_disks, crate::specs::Shelf::file_arms))]

ghost use Rattle.std.specs.Prelude.{◌≡◌, ℕ, false, IfOk};

use crate::arm::FileArm;
use crate::disk::FileDisk;
use crate::faults::Faults;
use crate::ledger::Ledger;
use crate::slot::SlotFiles;
use crate::system::{System, open_folder};
use hay_base::NoMemory;
use hay_disk::{Shelf, ShelfFault};
use std::alloc::Global;
use std::fs::File;
use std::io;
use std::io::ErrorKind;
use std::sync::Arc;

/// Disks that keep their files in one folder. A disk that is out is locked against other shelves, of this process or of
/// another, and `Failed` answers for one that another has out. A slot or a lane that was never out has no faults.
#[derive(Drop)]
pub struct FileShelf<R> {
    rt: R,
    alloc: Global,
    path: String,
    /// The folder, once it is open. The disks share it.
    folder: Option<Arc<File>>,
    disks: Ledger,
    arms: Ledger,
    faults: Faults,
}

impl<R: System> FileShelf<R> {
    ghost use Rattle.hay_filedisk.specs.Shelf.{file_disks, file_arms};
    ghost use Rattle.hay_filedisk.specs.Shelf.{disk_of, arm_of};
    ghost use Rattle.hay_filedisk.specs.Ledger.{never_out};

    /// A shelf of the disks in a folder. A folder that is missing is made when a disk is taken.
    pub fn new(rt: R, alloc: Global, folder: &str) -> Result<FileShelf<R>, NoMemory>
        ensures disks { IfOk result (λ shelf. (n : ℕ) → file_disks shelf n ≡ disk_of never_out) }
        ensures arms { IfOk result (λ shelf. (n : ℕ) → file_arms shelf n ≡ arm_of never_out) }
    {
        Ok(FileShelf {
            rt,
            alloc,
            path: String::from_str(alloc, folder)?,
            folder: None,
            disks: Ledger::new(alloc),
            arms: Ledger::new(alloc),
            faults: Faults::NONE,
        })
    }
}

// The folder, which is opened once.
fn shared_folder<R: System>(
    rt: &R,
    alloc: Global,
    path: &str,
    folder: &mut Option<Arc<File>>,
) -> io::Result<Arc<File>> {
    if let Some(opened) = &*folder {
        return Ok(opened.clone()?);
    }
    let opened = Arc::new(alloc, open_folder(rt, path)?)?;
    *folder = Some(opened.clone()?);
    Ok(opened)
}

// Takes the files of a slot.
fn files_of<R: System>(
    rt: &R,
    alloc: Global,
    path: &str,
    folder: &mut Option<Arc<File>>,
    slot: u32,
) -> io::Result<SlotFiles<R>> {
    let folder = shared_folder(rt, alloc, path, folder)?;
    SlotFiles::take(rt.clone()?, alloc, path, folder, slot)
}

impl<R: System> Shelf for FileShelf<R> {
    ghost use Rattle.hay_filedisk.specs.Shelf.{file_disks, file_arms};

    type Disk = FileDisk<R>;

    type Arm = FileArm;

    ghost disks = { file_disks };

    ghost arms = { file_arms };

    ghost fault_count = { λ shelf. shelf.faults.count };

    fn take_disk(&mut self, slot: u32) -> Result<FileDisk<R>, ShelfFault> {
        let taken = files_of(
            &self.rt,
            self.alloc,
            self.path.as_str(),
            &mut self.folder,
            slot,
        );
        let files = match taken {
            Ok(files) => files,
            Err(error) if error.kind() == ErrorKind::OutOfMemory => {
                return Err(ShelfFault::NoMemory);
            }
            Err(_) => {
                self.faults.add();
                return Err(ShelfFault::Failed);
            }
        };
        let held = self.disks.lend(slot)?;
        Ok(FileDisk {
            files,
            faults: held.faults,
            fuses: held.fuses,
        })
    }

    fn give_disk(&mut self, slot: u32, disk: FileDisk<R>) {
        self.disks.take_back(slot, disk.faults, disk.fuses);
    }

    fn take_arm(&mut self, lane: u32) -> Result<FileArm, ShelfFault> {
        let held = self.arms.lend(lane)?;
        Ok(FileArm {
            faults: held.faults,
        })
    }

    fn give_arm(&mut self, lane: u32, arm: FileArm) {
        self.arms.take_back(lane, arm.faults, 0);
    }

    fn faults(&self) -> u64 {
        self.faults.count()
    }
}
