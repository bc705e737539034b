//! Reading a file in blocks.

ghost use Rattle.std.specs.Prelude.{◌≡◌, ◌≤◌, ◌<◌, ◌+◌, ◌-◌, ◌++◌, min, ℕ, List, length, take, drop, Ok, IsErr, IfOk, OnOk};
ghost use Rattle.hay_disk.specs.Counts.{IsCounted};
ghost use Rattle.hay_disk.specs.Disk.{KeepsOthers};
ghost use Rattle.hay_disk.specs.Gate.{IsClosed, HasBytesAt, magic_bytes};
ghost use Rattle.hay_head.specs.Rows.{IsCutAt};
ghost use Rattle.hay_head.specs.declared.blocks.TheConstants.{BLOCK_LEN};

use crate::rows::{Slot, slot_in};
use hay_disk::{Disk, Failed};

/// The number of bytes that are read at once.
pub const BLOCK_LEN: usize = 32_768;

/// Reads a file in blocks, from one place to later ones. Each byte is read from the disk once. It takes no memory: the
/// room for a block is in the reader.
#[derive(Drop)]
pub struct BlockReader {
    file: u32,
    /// Where the block begins in the file.
    start: u64,
    /// The number of bytes of the block, which are the first ones of the room.
    len: usize,
    room: [u8; BLOCK_LEN],
    ghost within: { len ≤ BLOCK_LEN },
}

impl BlockReader {
    ghost use Rattle.hay_head.specs.Blocks.{HasBlockOf, Reaches, block_end};

    /// A reader whose first block begins at `start`.
    pub fn new(file: u32, start: u64) -> BlockReader
        ensures file { result.file ≡ file }
        ensures reaches { Reaches result start }
        ensures end { block_end result ≡ start }
        ensures block { (bytes : List ℕ) → HasBlockOf bytes result }
    {
        BlockReader {
            file,
            start,
            len: 0,
            room: [0; BLOCK_LEN],
        }
    }

    /// Reads what stands at `at`, where a row with this magic or the end mark is due. A row is as long as `out`, which
    /// then has it. The next one may be read behind a row.
    ///
    /// `Failed` leaves a reader that may read there again.
    pub fn read_slot<D: Disk>(
        &mut self,
        disk: &mut D,
        at: u64,
        magic: u64,
        out: &mut [u8],
    ) -> Result<Slot, Failed>
        requires long { 8 ≤ length out.old }
        requires fits { length out.old ≤ BLOCK_LEN }
        requires reaches { Reaches self.old at }
        requires block { D.Tells → HasBlockOf (D.files disk.old self.old.file).now self.old }
        ensures row { D.Tells → result ≡ Ok Slot.Row → HasBytesAt at out.new (D.files disk.old self.old.file).now }
        ensures magic { result ≡ Ok Slot.Row → take 8 out.new ≡ magic_bytes magic }
        ensures mark { D.Tells → result ≡ Ok Slot.Mark → IsClosed magic at (D.files disk.old self.old.file).now }
        ensures broken { D.Tells → result ≡ Ok Slot.Broken → IsCutAt magic (length out.old) at (D.files disk.old self.old.file).now }
        ensures file { self.new.file ≡ self.old.file }
        ensures reaches { Reaches self.new at }
        ensures next { result ≡ Ok Slot.Row → Reaches self.new (at + length out.old) }
        ensures block { D.Tells → HasBlockOf (D.files disk.old self.old.file).now self.new }
        ensures same { D.Tells → D.files disk.new ≡ D.files disk.old }
        ensures drawn { D.Tells → D.drawn disk.new self.old.file + block_end self.old ≤ D.drawn disk.old self.old.file + block_end self.new }
        ensures drawn_others { D.Tells → KeepsOthers self.old.file (D.drawn disk.old) (D.drawn disk.new) }
        ensures counted { IsCounted (D.fault_count disk.old) (D.fault_count disk.new) (IsErr result) }
        ensures fuses { D.fuse_count disk.new ≡ D.fuse_count disk.old }
    {
        let got = self.read_into(disk, at, out)?;
        Ok(slot_in(out, got, magic))
    }

    // Reads from `at` on, as many bytes as `out` has room for, or fewer where the file ends, and answers how many.
    fn read_into<D: Disk>(&mut self, disk: &mut D, at: u64, out: &mut [u8]) -> Result<usize, Failed>
        requires fits { length out.old ≤ BLOCK_LEN }
        requires reaches { Reaches self.old at }
        requires block { D.Tells → HasBlockOf (D.files disk.old self.old.file).now self.old }
        ensures within { IfOk result (λ n. n ≤ length out.old) }
        ensures count { D.Tells → IfOk result (λ n. n ≡ min (length out.old) (length (D.files disk.old self.old.file).now - at)) }
        ensures bytes { D.Tells → IfOk result (λ n. out.new ≡ take n (drop at (D.files disk.old self.old.file).now) ++ drop n out.old) }
        ensures file { self.new.file ≡ self.old.file }
        ensures reaches { Reaches self.new at }
        ensures next { IfOk result (λ n. Reaches self.new (at + n)) }
        ensures block { D.Tells → HasBlockOf (D.files disk.old self.old.file).now self.new }
        ensures same { D.Tells → D.files disk.new ≡ D.files disk.old }
        ensures drawn { D.Tells → D.drawn disk.new self.old.file + block_end self.old ≤ D.drawn disk.old self.old.file + block_end self.new }
        ensures drawn_others { D.Tells → KeepsOthers self.old.file (D.drawn disk.old) (D.drawn disk.new) }
        ensures counted { IsCounted (D.fault_count disk.old) (D.fault_count disk.new) (IsErr result) }
        ensures fuses { D.fuse_count disk.new ≡ D.fuse_count disk.old }
    {
        self.reach(disk, at, out.len())?;
        Ok(self.copy_into(at, out))
    }

    // Has the block reach `want` bytes beyond `at`, or the end of the file.
    fn reach<D: Disk>(&mut self, disk: &mut D, at: u64, want: usize) -> Result<(), Failed>
        requires fits { want ≤ BLOCK_LEN }
        requires reaches { Reaches self.old at }
        requires block { D.Tells → HasBlockOf (D.files disk.old self.old.file).now self.old }
        ensures count { D.Tells → OnOk result (min want (block_end self.new - at) ≡ min want (length (D.files disk.old self.old.file).now - at)) }
        ensures file { self.new.file ≡ self.old.file }
        ensures reaches { Reaches self.new at }
        ensures block { D.Tells → HasBlockOf (D.files disk.old self.old.file).now self.new }
        ensures same { D.Tells → D.files disk.new ≡ D.files disk.old }
        ensures drawn { D.Tells → D.drawn disk.new self.old.file + block_end self.old ≤ D.drawn disk.old self.old.file + block_end self.new }
        ensures drawn_others { D.Tells → KeepsOthers self.old.file (D.drawn disk.old) (D.drawn disk.new) }
        ensures counted { IsCounted (D.fault_count disk.old) (D.fault_count disk.new) (IsErr result) }
        ensures fuses { D.fuse_count disk.new ≡ D.fuse_count disk.old }
    {
        if self.len - self.place_of(at) >= want {
            return Ok(());
        }
        self.begin_at(at);
        self.fill(disk)
    }

    // Drops what the block has before `at`.
    fn begin_at(&mut self, at: u64)
        requires { Reaches self.old at }
        ensures file { self.new.file ≡ self.old.file }
        ensures start { self.new.start ≡ at }
        ensures end { block_end self.new ≡ block_end self.old }
        ensures keeps { take self.new.len self.new.room ≡ take self.new.len (drop (at - self.old.start) self.old.room) }
    {
        let place = self.place_of(at);
        self.room.copy_within(place..self.len, 0);
        self.len -= place;
        self.start = at;
    }

    // Reads on behind the block.
    fn fill<D: Disk>(&mut self, disk: &mut D) -> Result<(), Failed>
        requires { D.Tells → HasBlockOf (D.files disk.old self.old.file).now self.old }
        ensures count { D.Tells → OnOk result (self.new.len ≡ min BLOCK_LEN (length (D.files disk.old self.old.file).now - self.old.start)) }
        ensures file { self.new.file ≡ self.old.file }
        ensures start { self.new.start ≡ self.old.start }
        ensures grows { self.old.len ≤ self.new.len }
        ensures block { D.Tells → HasBlockOf (D.files disk.old self.old.file).now self.new }
        ensures same { D.Tells → D.files disk.new ≡ D.files disk.old }
        ensures drawn { D.Tells → D.drawn disk.new self.old.file + block_end self.old ≤ D.drawn disk.old self.old.file + block_end self.new }
        ensures drawn_others { D.Tells → KeepsOthers self.old.file (D.drawn disk.old) (D.drawn disk.new) }
        ensures counted { IsCounted (D.fault_count disk.old) (D.fault_count disk.new) (IsErr result) }
        ensures fuses { D.fuse_count disk.new ≡ D.fuse_count disk.old }
    {
        let end = self.start.saturating_add(self.len as u64);
        let got = read_behind(disk, self.file, end, self.len, &mut self.room)?;
        self.len += got;
        Ok(())
    }

    // Copies from `at` on, as many bytes as `out` has room for, or fewer where the block ends, and answers how many.
    fn copy_into(&self, at: u64, out: &mut [u8]) -> usize
        requires { Reaches self.now at }
        ensures count { result ≡ min (length out.old) (block_end self.now - at) }
        ensures bytes { out.new ≡ take result (drop (at - self.now.start) self.now.room) ++ drop result out.old }
    {
        let place = self.place_of(at);
        let count = out.len().min(self.len - place);
        out[..count].copy_from_slice(&self.room[place..place + count]);
        count
    }

    // Where the byte at `at` stands in the block.
    fn place_of(&self, at: u64) -> usize
        requires { Reaches self.now at }
        ensures { result + self.now.start ≡ at }
    {
        (at - self.start) as usize
    }
}

// Reads from `at` on into `room` behind its first `len` bytes, and answers how many bytes came.
fn read_behind<D: Disk>(
    disk: &mut D,
    file: u32,
    at: u64,
    len: usize,
    room: &mut [u8],
) -> Result<usize, Failed>
    requires { len ≤ length room.old }
    ensures keeps { take len room.new ≡ take len room.old }
    ensures within { IfOk result (λ got. len + got ≤ length room.old) }
    ensures count { D.Tells → IfOk result (λ got. got ≡ min (length room.old - len) (length (D.files disk.old file).now - at)) }
    ensures read { D.Tells → IfOk result (λ got. take (len + got) room.new ≡ take len room.old ++ take got (drop at (D.files disk.old file).now)) }
    ensures same { D.Tells → D.files disk.new ≡ D.files disk.old }
    ensures drawn { D.Tells → IfOk result (λ got. D.drawn disk.new file ≤ D.drawn disk.old file + got) }
    ensures drawn_failed { D.Tells → IsErr result → D.drawn disk.new file ≡ D.drawn disk.old file }
    ensures drawn_others { D.Tells → KeepsOthers file (D.drawn disk.old) (D.drawn disk.new) }
    ensures counted { IsCounted (D.fault_count disk.old) (D.fault_count disk.new) (IsErr result) }
    ensures fuses { D.fuse_count disk.new ≡ D.fuse_count disk.old }
{
    let got = disk.read_into(file, at, &mut room[len..])?;
    Ok(got)
}
