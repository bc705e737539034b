//! A disk in memory whose calls can be made to fail.
#![tactic(auto, unfolding(crate::specs::MemDisk::mem_files, crate::specs::MemDisk::mem_drawn))]

ghost use Rattle.std.specs.Prelude.{◌≡◌, ◌≤◌, ◌<◌, ◌+◌, ◌-◌, ◌^◌, ◌↔◌, true, false, Some, ℕ, Contains, length, OnOk, OnErr};

use crate::failures::Failures;
use crate::{MemPiece, SureDisk};
use hay_base::NoMemory;
use hay_disk::{Disk, DiskFault, Failed};
use std::alloc::Global;

/// A disk in memory that tells what it holds, and fails where it was told to: at the calls of a list, and at the
/// changing calls behind a fuse.
///
/// A write that fails stores the first half of its bytes, rounded down, where it finds room for them, and makes its
/// whole range loose. A sync or a remove that fails changes nothing.
///
/// What a power cycle leaves depends on its pick. With 0 each loose byte has its value of the last sync, and each file
/// its length of that time. With 1 each file is as reads give it. With any other number each range of loose bytes has,
/// by a choice drawn from the pick, the bytes of the last sync, those that the last write was asked to put there, or
/// drawn bytes, and each file a drawn length that it had since its last sync. The same pick on the same history leaves
/// the same. A removed file stays away.
#[derive(Drop)]
pub struct MemDisk {
    disk: SureDisk,
    failures: Failures,
    fuse: Option<u64>,
}

impl MemDisk {
    ghost use Rattle.hay_disk.specs.Counts.{Rose};
    ghost use Rattle.hay_disk.specs.Disk.{IsSolid, IsFree, KeepsOthers, empty_file};
    ghost use Rattle.hay_memdisk.specs.MemDisk.{mem_files, mem_drawn, mem_faults, mem_fuses, mem_listed};

    /// A disk without files that never fails.
    pub fn new(alloc: Global) -> MemDisk
        ensures files { (n : ℕ) → mem_files result n ≡ empty_file }
        ensures drawn { (n : ℕ) → mem_drawn result n ≡ 0 }
        ensures faults { mem_faults result ≡ 0 }
        ensures fuses { mem_fuses result ≡ 0 }
    {
        MemDisk {
            disk: SureDisk::new(alloc),
            failures: Failures::new(alloc),
            fuse: None,
        }
    }

    /// Makes it fail at these calls, numbered from 1 since the disk was made, and at no others of the list before. It
    /// numbers the calls that can fail: `size`, `read_into`, `write`, `remove`, `sync` and `seal`. `NoMemory` leaves the
    /// list as it was.
    pub fn fail(&mut self, calls: &[u64]) -> Result<(), NoMemory>
        ensures listed { OnOk result (mem_listed self.new ≡ calls.now) }
        ensures err { OnErr result (mem_listed self.new ≡ mem_listed self.old) }
        ensures files { mem_files self.new ≡ mem_files self.old }
        ensures drawn { mem_drawn self.new ≡ mem_drawn self.old }
        ensures faults { mem_faults self.new ≡ mem_faults self.old }
        ensures fuses { mem_fuses self.new ≡ mem_fuses self.old }
    {
        self.failures.list(calls)
    }

    /// The bytes of a file, as reads give them.
    pub fn bytes(&self, file: u32) -> &[u8]
        ensures { result.now ≡ (mem_files self.now file).now }
    {
        self.disk.bytes(file)
    }

    /// How many bytes reads of a file gave since the last power cycle, or the greatest number of 64 bits where they are
    /// more.
    pub fn drawn(&self, file: u32) -> u64
        ensures { result ≡ mem_drawn self.now file }
    {
        self.disk.drawn(file)
    }

    /// Puts these bytes in place of a whole file, on the disk, and forgets the pieces given out of it, which stay as
    /// they are. `NoMemory` changes nothing. It is no call of the list, nor of a fuse.
    pub fn set_bytes(&mut self, file: u32, bytes: &[u8]) -> Result<(), NoMemory>
        ensures now { OnOk result ((mem_files self.new file).now ≡ bytes.now) }
        ensures solid { OnOk result (IsSolid (mem_files self.new file)) }
        ensures free { OnOk result (IsFree (mem_files self.new file)) }
        ensures others { KeepsOthers file (mem_files self.old) (mem_files self.new) }
        ensures err { OnErr result (mem_files self.new ≡ mem_files self.old) }
        ensures drawn { (n : ℕ) → mem_drawn self.new n ≡ mem_drawn self.old n }
        ensures faults { mem_faults self.new ≡ mem_faults self.old }
        ensures fuses { mem_fuses self.new ≡ mem_fuses self.old }
    {
        self.disk.set_bytes(file, bytes)?;
        Ok(())
    }

    // Makes all that reads give solid, and forgets the pieces given out.
    pub(crate) fn settle(&mut self)
        ensures now { (n : ℕ) → (mem_files self.new n).now ≡ (mem_files self.old n).now }
        ensures solid { (n : ℕ) → IsSolid (mem_files self.new n) }
        ensures free { (n : ℕ) → IsFree (mem_files self.new n) }
        ensures drawn { (n : ℕ) → mem_drawn self.new n ≡ mem_drawn self.old n }
        ensures faults { mem_faults self.new ≡ mem_faults self.old }
        ensures fuses { mem_fuses self.new ≡ mem_fuses self.old }
    {
        self.disk.settle();
    }

    // Counts a call, and says whether it fails.
    fn call_fails(&mut self) -> bool
        ensures fails { self.old.failures.calls < 2 ^ 64 - 1 → (result ≡ true) ↔ Contains self.old.failures.listed.items (self.old.failures.calls + 1) }
        ensures fuse { self.new.fuse ≡ self.old.fuse }
        ensures files { self.new.disk ≡ self.old.disk }
        ensures later { mem_faults self.old ≤ mem_faults self.new }
        ensures rose { result ≡ true → Rose (mem_faults self.old) (mem_faults self.new) }
    {
        self.failures.next_fails()
    }

    // Counts a changing call, and says whether the list or the fuse makes it fail.
    fn change_fails(&mut self) -> bool
        ensures blown { self.old.fuse ≡ Some 0 → result ≡ true }
        ensures listed { self.old.failures.calls < 2 ^ 64 - 1 → Contains self.old.failures.listed.items (self.old.failures.calls + 1) → result ≡ true }
        ensures burnt { (n : ℕ) → self.old.fuse ≡ Some (n + 1) → self.new.fuse ≡ Some n }
        ensures files { self.new.disk ≡ self.old.disk }
        ensures later { mem_faults self.old ≤ mem_faults self.new }
        ensures rose { result ≡ true → Rose (mem_faults self.old) (mem_faults self.new) }
    {
        let blown = self.burn();
        if self.call_fails() {
            return true;
        }
        if blown {
            self.failures.fault();
        }
        blown
    }

    // Counts a changing call off the fuse, and says whether none was left.
    fn burn(&mut self) -> bool
        ensures blown { (result ≡ true) ↔ (self.old.fuse ≡ Some 0) }
        ensures left { (n : ℕ) → self.old.fuse ≡ Some (n + 1) → self.new.fuse ≡ Some n }
        ensures stays { result ≡ true → self.new.fuse ≡ Some 0 }
        ensures disk { self.new.disk ≡ self.old.disk }
        ensures failures { self.new.failures ≡ self.old.failures }
    {
        match self.fuse {
            None => false,
            Some(0) => true,
            Some(left) => {
                self.fuse = Some(left - 1);
                false
            }
        }
    }
}

impl Disk for MemDisk {
    ghost use Rattle.hay_memdisk.specs.MemDisk.{mem_files, mem_drawn, mem_faults, mem_fuses};
    ghost use Rattle.hay_memdisk.specs.MemLaws.{may_leave_now, fits};

    type Piece = MemPiece;

    ghost Tells = { Unit {0} };

    ghost files = { mem_files };

    ghost drawn = { mem_drawn };

    ghost fault_count = { mem_faults };

    ghost fuse_count = { mem_fuses };

    ghost may_leave_now = { λ disk n _. may_leave_now disk n };

    ghost fits = { λ disk n _. fits disk n };

    fn size(&mut self, file: u32) -> Result<u64, Failed> {
        if self.call_fails() {
            return Err(Failed);
        }
        self.disk.size(file)
    }

    fn read_into(&mut self, file: u32, at: u64, out: &mut [u8]) -> Result<usize, Failed> {
        if self.call_fails() {
            return Err(Failed);
        }
        self.disk.read_into(file, at, out)
    }

    fn write(&mut self, file: u32, at: u64, bytes: &[u8]) -> Result<(), DiskFault> {
        if self.change_fails() {
            self.disk.tear(file, at, bytes);
            return Err(DiskFault::Failed);
        }
        self.disk.write(file, at, bytes)
    }

    fn sync(&mut self, file: u32) -> Result<(), Failed> {
        if self.change_fails() {
            return Err(Failed);
        }
        self.disk.sync(file)
    }

    fn remove(&mut self, file: u32) -> Result<(), Failed> {
        if self.change_fails() {
            return Err(Failed);
        }
        self.disk.remove(file)
    }

    fn seal(&mut self, file: u32, at: u64, len: usize, hole: usize) -> Result<MemPiece, DiskFault> {
        if self.call_fails() {
            return Err(DiskFault::Failed);
        }
        self.disk.seal(file, at, len, hole)
    }

    fn fuse(&mut self, calls: u64) {
        self.disk.fuse(calls);
        self.fuse = Some(calls);
    }

    fn faults(&self) -> u64 {
        self.failures.faults()
    }

    fn power_cycle(&mut self, pick: u64) {
        self.fuse = None;
        self.disk.power_cycle(pick);
    }
}
