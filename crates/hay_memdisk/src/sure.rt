//! A disk in memory that never fails.
#![tactic(auto, unfolding(crate::specs::Sure::sure_files, crate::specs::Sure::sure_drawn))]

ghost use Rattle.std.specs.Prelude.{◌≡◌, ◌≤◌, ◌<◌, ◌+◌, ◌-◌, true, false, ℕ, length, OnOk, OnErr, IsSome};

use crate::MemPiece;
use crate::file::{MemFile, Seal};
use hay_base::NoMemory;
use hay_disk::{Disk, DiskFault, Failed};
use std::alloc::{AllocError, Global};
use std::collections::BTreeMap;

/// A disk in memory that tells what it holds and never fails. It ignores fuses, but counts them. Its power cycle
/// leaves what that of a `MemDisk` does.
#[derive(Drop)]
pub struct SureDisk {
    alloc: Global,
    files: BTreeMap<u32, MemFile>,
    fuses: u64,
}

impl SureDisk {
    ghost use Rattle.hay_disk.specs.Disk.{Changes, KeepsOthers, IsSolid, IsFree, empty_file, overwrite};
    ghost use Rattle.hay_memdisk.specs.Sure.{sure_files, sure_drawn, sure_fuses, sure_has};

    /// A disk without files.
    pub fn new(alloc: Global) -> SureDisk
        ensures files { (n : ℕ) → sure_files result n ≡ empty_file }
        ensures drawn { (n : ℕ) → sure_drawn result n ≡ 0 }
        ensures fuses { sure_fuses result ≡ 0 }
    {
        SureDisk {
            alloc,
            files: BTreeMap::new(alloc),
            fuses: 0,
        }
    }

    /// The bytes of a file, as reads give them.
    pub fn bytes(&self, file: u32) -> &[u8]
        ensures { result.now ≡ (sure_files self.now file).now }
    {
        match self.files.get(&file) {
            Some(found) => found.bytes(),
            None => &[],
        }
    }

    /// How many bytes reads of a file gave since the last power cycle, or the greatest number of 64 bits where they are
    /// more.
    pub fn drawn(&self, file: u32) -> u64
        ensures { result ≡ sure_drawn self.now file }
    {
        match self.files.get(&file) {
            Some(found) => found.drawn(),
            None => 0,
        }
    }

    // Makes room for a file that is not there yet.
    fn open(&mut self, file: u32) -> Result<(), AllocError>
        ensures has { OnOk result (sure_has self.new file ≡ true) }
        ensures absent { OnErr result (length (sure_files self.old file).now ≡ 0) }
        ensures files { (n : ℕ) → sure_files self.new n ≡ sure_files self.old n }
        ensures same { sure_files self.new ≡ sure_files self.old }
        ensures drawn { (n : ℕ) → sure_drawn self.new n ≡ sure_drawn self.old n }
        ensures fuses { sure_fuses self.new ≡ sure_fuses self.old }
    {
        if !self.files.contains_key(&file) {
            self.files.insert(file, MemFile::new(self.alloc))?;
        }
        Ok(())
    }

    // Puts these bytes in place of a whole file, on the disk, and forgets the pieces given out of it.
    pub(crate) fn set_bytes(&mut self, file: u32, bytes: &[u8]) -> Result<(), AllocError>
        ensures now { OnOk result ((sure_files self.new file).now ≡ bytes.now) }
        ensures solid { OnOk result (IsSolid (sure_files self.new file)) }
        ensures free { OnOk result (IsFree (sure_files self.new file)) }
        ensures others { KeepsOthers file (sure_files self.old) (sure_files self.new) }
        ensures same { OnErr result (sure_files self.new ≡ sure_files self.old) }
        ensures drawn { (n : ℕ) → sure_drawn self.new n ≡ sure_drawn self.old n }
        ensures fuses { sure_fuses self.new ≡ sure_fuses self.old }
    {
        self.open(file)?;
        if let Some(found) = self.files.get_mut(&file) {
            found.set_bytes(self.alloc, bytes)?;
        }
        Ok(())
    }

    // Writes to a file for which there is room.
    fn write_open(&mut self, file: u32, at: u64, bytes: &[u8]) -> Result<(), AllocError>
        requires has { sure_has self.old file ≡ true }
        requires inside { at ≤ length (sure_files self.old file).now }
        ensures written { OnOk result ((sure_files self.new file).now ≡ overwrite at bytes.now (sure_files self.old file).now) }
        ensures changes { Changes at (length bytes.now) (sure_files self.old file) (sure_files self.new file) }
        ensures others { KeepsOthers file (sure_files self.old) (sure_files self.new) }
        ensures same { OnErr result (sure_files self.new ≡ sure_files self.old) }
        ensures grows { OnErr result (length (sure_files self.old file).now < at + length bytes.now) }
        ensures drawn { (n : ℕ) → sure_drawn self.new n ≡ sure_drawn self.old n }
        ensures fuses { sure_fuses self.new ≡ sure_fuses self.old }
    {
        if let Some(found) = self.files.get_mut(&file) {
            found.write(at as usize, bytes)?;
        }
        Ok(())
    }

    // A write that fails: the first half of the bytes is there if there is room, and the whole range is loose.
    pub(crate) fn tear(&mut self, file: u32, at: u64, bytes: &[u8])
        requires { at ≤ length (sure_files self.old file).now }
        ensures changes { Changes at (length bytes.now) (sure_files self.old file) (sure_files self.new file) }
        ensures others { KeepsOthers file (sure_files self.old) (sure_files self.new) }
        ensures drawn { (n : ℕ) → sure_drawn self.new n ≡ sure_drawn self.old n }
        ensures fuses { sure_fuses self.new ≡ sure_fuses self.old }
    {
        let _ = self.open(file);
        if let Some(found) = self.files.get_mut(&file) {
            found.tear(at as usize, bytes);
        }
    }

    // Makes all that reads give solid, and forgets the pieces given out.
    pub(crate) fn settle(&mut self)
        ensures now { (n : ℕ) → (sure_files self.new n).now ≡ (sure_files self.old n).now }
        ensures solid { (n : ℕ) → IsSolid (sure_files self.new n) }
        ensures free { (n : ℕ) → IsFree (sure_files self.new n) }
        ensures drawn { (n : ℕ) → sure_drawn self.new n ≡ sure_drawn self.old n }
        ensures fuses { sure_fuses self.new ≡ sure_fuses self.old }
    {
        self.files.retain(|_, file| {
            file.settle();
            true
        });
    }
}

impl Disk for SureDisk {
    ghost use Rattle.hay_memdisk.specs.Sure.{sure_files, sure_drawn, sure_fuses};
    ghost use Rattle.hay_memdisk.specs.SureLaws.{may_leave_now, fits};

    type Piece = MemPiece;

    ghost Tells = { Unit {0} };

    ghost files = { sure_files };

    ghost drawn = { sure_drawn };

    ghost fault_count = { λ _. 0 };

    ghost fuse_count = { sure_fuses };

    ghost may_leave_now = { λ disk n _. may_leave_now disk n };

    ghost fits = { λ disk n _. fits disk n };

    fn size(&mut self, file: u32) -> Result<u64, Failed> {
        Ok(self.bytes(file).len() as u64)
    }

    fn read_into(&mut self, file: u32, at: u64, out: &mut [u8]) -> Result<usize, Failed> {
        match self.files.get_mut(&file) {
            Some(found) => Ok(found.read_into(at as usize, out)),
            None => Ok(0),
        }
    }

    fn write(&mut self, file: u32, at: u64, bytes: &[u8]) -> Result<(), DiskFault> {
        if bytes.is_empty() {
            return Ok(());
        }
        self.open(file)?;
        self.write_open(file, at, bytes)?;
        Ok(())
    }

    fn sync(&mut self, file: u32) -> Result<(), Failed> {
        if let Some(found) = self.files.get_mut(&file) {
            found.sync();
        }
        Ok(())
    }

    fn remove(&mut self, file: u32) -> Result<(), Failed> {
        if let Some(found) = self.files.get_mut(&file) {
            found.remove();
        }
        Ok(())
    }

    fn seal(&mut self, file: u32, at: u64, len: usize, hole: usize) -> Result<MemPiece, DiskFault> {
        match self.files.get_mut(&file) {
            Some(found) => Ok(found.seal(
                self.alloc,
                Seal {
                    at: at as usize,
                    len,
                    hole,
                },
            )?),
            None => unreachable!(),
        }
    }

    fn fuse(&mut self, _calls: u64) {
        self.fuses = self.fuses.saturating_add(1);
    }

    fn faults(&self) -> u64 {
        0
    }

    fn power_cycle(&mut self, pick: u64) {
        self.files.retain(move |number, file| {
            file.power_cycle(pick, *number);
            true
        });
    }
}
