//! A head file and its current generation.

ghost use Rattle.std.specs.Prelude.{◌≡◌, ◌⊎◌, ◌≤◌, ◌<◌, ◌+◌, ◌*◌, List, ◌++◌, ℕ, Ok, Err, IfOk, IfErr, OnOk, OnErr, IsErr, IsErrOf};
ghost use Rattle.std.specs.Int.{bytes_high_first};
ghost use Rattle.hay_disk.specs.Counts.{IsCounted};
ghost use Rattle.hay_disk.specs.Disk.{IsImage, IsSolid, IsSolidIn, IsFree, IsFreeIn, Changes, KeepsOthers, overwrite};
ghost use Rattle.hay_disk.specs.Gate.{IsClosed, IsGate, HasBytesAt, end_mark};
ghost use Rattle.hay_needle.specs.Super.{super_bytes};
ghost use Rattle.hay_head.specs.Blocks.{HasBlockOf, Reaches, block_end};
ghost use Rattle.hay_head.specs.declared.blocks.TheConstants.{BLOCK_LEN};
ghost use Rattle.hay_head.specs.Head.{head_magic, head_row, row_place, IsHead, IsBrokenRow, IsDamagedHead};

use crate::blocks::BlockReader;
use crate::fault::HeadFault;
use crate::rows::{Slot, has_number, read_front};
use hay_disk::{Disk, DiskFault, Failed, gate_append};
use hay_needle::{LAST_GENERATION, SUPER_LEN, Super, write_super};

// `HEADROW1`, which begins each row.
const ROW_MAGIC: u64 = 0x4845_4144_524f_5731;

// The number of bytes of a row.
const ROW_LEN: usize = 16;

// The number of the head file on its disk.
const FILE: u32 = 0;

/// The head file of a disk, which is its file 0, with the generation of its last row.
#[derive(Clone, Copy, Debug, PartialEq, Eq)]
pub struct Head {
    pub generation: u64,
}

impl Head {
    /// Writes a superblock, the row of generation 0 and the end mark at the front of the file, in one write, and has
    /// them on the disk.
    pub fn format<D: Disk>(disk: &mut D, sup: &Super) -> Result<Head, DiskFault>
        requires { D.Tells → IsFreeIn 0 88 (D.files disk.old 0) }

        ensures made { IfOk result (λ head. head ≡ record { generation = 0 }) }
        ensures written { D.Tells → OnOk result ((D.files disk.new 0).now ≡ overwrite 0 (super_bytes sup.now ++ (head_row 0 ++ end_mark)) (D.files disk.old 0).now) }
        ensures fresh { D.Tells → OnOk result (IsHead (super_bytes sup.now) (D.files disk.new 0).now 0) }
        ensures solid { D.Tells → OnOk result (IsSolid (D.files disk.new 0)) }
        ensures next { D.Tells → IsFree (D.files disk.old 0) → OnOk result (IsGate head_magic (row_place 1) (D.files disk.new 0)) }

        ensures no_memory { D.Tells → IsErrOf result DiskFault.NoMemory → D.files disk.new ≡ D.files disk.old }
        ensures changes { D.Tells → Changes 0 88 (D.files disk.old 0) (D.files disk.new 0) }
        ensures others { D.Tells → KeepsOthers 0 (D.files disk.old) (D.files disk.new) }
        ensures drawn { D.Tells → (n : ℕ) → D.drawn disk.new n ≡ D.drawn disk.old n }
        ensures counted { IsCounted (D.fault_count disk.old) (D.fault_count disk.new) (IsErrOf result DiskFault.Failed) }
        ensures fuses { D.fuse_count disk.new ≡ D.fuse_count disk.old }
    {
        disk.write(FILE, 0, &fresh_file(sup))?;
        disk.sync(FILE)?;
        Ok(Head { generation: 0 })
    }

    /// Reads a head file. `Damaged` names the first place that is none of a head file with this superblock: that of the
    /// superblock's first fault, or that of the first row that is not the next one, is cut off or is missing.
    /// It takes no memory.
    pub fn read<D: Disk>(disk: &mut D, sup: &Super) -> Result<Head, HeadFault>
        ensures head { D.Tells → IfOk result (λ head. IsHead (super_bytes sup.now) (D.files disk.old 0).now head.generation) }
        ensures damaged { D.Tells → (at : ℕ) → result ≡ Err (HeadFault.Damaged at) → IsDamagedHead sup.now (D.files disk.old 0).now at }
        ensures undamaged { D.Tells → OnOk result ((at : ℕ) → IsDamagedHead sup.now (D.files disk.old 0).now at → ⊥) }

        // A head file is read, unless the disk fails.
        ensures exact { D.Tells → (generation : ℕ) → IsHead (super_bytes sup.now) (D.files disk.old 0).now generation →
            IfOk result (λ head. head.generation ≡ generation) }
        ensures only { D.Tells → (generation : ℕ) → IsHead (super_bytes sup.now) (D.files disk.old 0).now generation →
            IfErr result (λ fault. fault ≡ HeadFault.Failed) }
        ensures memory { IsErrOf result HeadFault.NoMemory → ⊥ }

        // Whatever the disk tells, no later generation is read than the last.
        ensures most { IfOk result (λ head. head.generation ≤ LAST_GENERATION) }

        // Where nothing of it is loose or sealed, the next row may be appended.
        ensures next { D.Tells → IsSolid (D.files disk.old 0) → IsFree (D.files disk.old 0) →
            IfOk result (λ head. IsGate head_magic (row_place (head.generation + 1)) (D.files disk.new 0)) }

        ensures same { D.Tells → D.files disk.new ≡ D.files disk.old }
        ensures drawn { D.Tells → IfOk result (λ head. D.drawn disk.new 0 ≤ D.drawn disk.old 0 + row_place (head.generation + 1) + BLOCK_LEN) }
        ensures drawn_others { D.Tells → KeepsOthers 0 (D.drawn disk.old) (D.drawn disk.new) }
        ensures counted { IsCounted (D.fault_count disk.old) (D.fault_count disk.new) (IsErrOf result HeadFault.Failed) }
        ensures fuses { D.fuse_count disk.new ≡ D.fuse_count disk.old }
    {
        if let Some(at) = read_front(disk, FILE, sup)? {
            return Err(HeadFault::Damaged { at });
        }
        let mut rows = 0;
        let mut reader = BlockReader::new(FILE, SUPER_LEN as u64);
        'rows: loop {
            match read_row(&mut reader, disk, rows)? {
                Slot::Row => rows += 1,
                Slot::Mark => {
                    return Ok(Head {
                        generation: rows - 1,
                    });
                }
                Slot::Broken => return Err(HeadFault::Damaged { at: place_of(rows) }),
            }
        }
    }

    /// The current generation.
    pub fn current(&self) -> u64
        ensures { result ≡ self.now.generation }
    {
        self.generation
    }

    /// Adds the row of the next generation. It is on the disk then, and the next switch may follow.
    pub fn switch<D: Disk>(&mut self, disk: &mut D, generation: u64) -> Result<(), DiskFault>
        requires follows { generation ≡ self.old.generation + 1 }
        requires most { generation ≤ LAST_GENERATION }
        requires gate { D.Tells → IsGate head_magic (row_place generation) (D.files disk.old 0) }

        ensures moved { OnOk result (self.new ≡ record { generation = generation }) }
        ensures stayed { OnErr result (self.new ≡ self.old) }
        ensures no_memory { D.Tells → IsErrOf result DiskFault.NoMemory → D.files disk.new ≡ D.files disk.old }

        // At `Ok` the file names the new generation, all of it is on the disk, and the next switch may follow.
        ensures switched { D.Tells → OnOk result ((superblock : List ℕ) →
            IsHead superblock (D.files disk.old 0).now self.old.generation →
            IsHead superblock (D.files disk.new 0).now generation) }
        ensures solid { D.Tells → OnOk result (IsSolid (D.files disk.new 0)) }
        ensures next { D.Tells → OnOk result (IsGate head_magic (row_place (generation + 1)) (D.files disk.new 0)) }

        // Whatever a stop leaves, then or after a refusal, names the old generation or the new one.
        ensures left { D.Tells → (superblock : List ℕ) (image : List ℕ) →
            IsHead superblock (D.files disk.old 0).now self.old.generation →
            IsSolidIn 0 (row_place generation) (D.files disk.old 0) →
            IsImage (D.files disk.new 0) image →
            IsHead superblock image self.old.generation ⊎ IsHead superblock image generation }

        ensures changes { D.Tells → Changes (row_place generation) 24 (D.files disk.old 0) (D.files disk.new 0) }
        ensures others { D.Tells → KeepsOthers 0 (D.files disk.old) (D.files disk.new) }
        ensures drawn { D.Tells → (n : ℕ) → D.drawn disk.new n ≡ D.drawn disk.old n }
        ensures counted { IsCounted (D.fault_count disk.old) (D.fault_count disk.new) (IsErrOf result DiskFault.Failed) }
        ensures fuses { D.fuse_count disk.new ≡ D.fuse_count disk.old }
    {
        let row = row_body(generation);
        gate_append(disk, FILE, place_of(generation), ROW_MAGIC, &row)?;
        self.generation = generation;
        Ok(())
    }
}

// Where the row of a generation is due.
fn place_of(generation: u64) -> u64
    requires { generation ≤ LAST_GENERATION + 1 }
    ensures { result ≡ row_place generation }
{
    SUPER_LEN as u64 + generation * ROW_LEN as u64
}

// The bytes of a row behind its magic, and the end mark.
fn row_body(generation: u64) -> [u8; ROW_LEN]
    ensures { result ≡ bytes_high_first 8 generation ++ end_mark }
{
    let mut bytes = [0; ROW_LEN];
    bytes[..8].copy_from_slice(&generation.to_be_bytes());
    bytes
}

// The bytes of a head file with the row of generation 0.
fn fresh_file(sup: &Super) -> [u8; 88]
    ensures { result ≡ super_bytes sup.now ++ (head_row 0 ++ end_mark) }
{
    let mut bytes = [0; 88];
    bytes[..SUPER_LEN].copy_from_slice(&write_super(sup));
    bytes[SUPER_LEN..].copy_from_slice(&first_row());
    bytes
}

// The row of generation 0 and the end mark.
#[tactic(auto, unfolding(crate::specs::Head::head_row))]
fn first_row() -> [u8; 24]
    ensures { result ≡ head_row 0 ++ end_mark }
{
    let mut bytes = [0; 24];
    bytes[..8].copy_from_slice(&ROW_MAGIC.to_be_bytes());
    bytes
}

// Whether the row of generation `next` stands where it is due, or the end mark behind at least one row.
fn read_row<D: Disk>(reader: &mut BlockReader, disk: &mut D, next: u64) -> Result<Slot, Failed>
    requires most { next ≤ LAST_GENERATION + 1 }
    requires file { reader.old.file ≡ 0 }
    requires reaches { Reaches reader.old (row_place next) }
    requires block { D.Tells → HasBlockOf (D.files disk.old 0).now reader.old }
    ensures row { D.Tells → result ≡ Ok Slot.Row → HasBytesAt (row_place next) (head_row next) (D.files disk.old 0).now }
    ensures most { result ≡ Ok Slot.Row → next ≤ LAST_GENERATION }
    ensures mark { D.Tells → result ≡ Ok Slot.Mark → IsClosed head_magic (row_place next) (D.files disk.old 0).now }
    ensures some { result ≡ Ok Slot.Mark → 0 < next }
    ensures broken { D.Tells → result ≡ Ok Slot.Broken → IsBrokenRow next (D.files disk.old 0).now }
    ensures file { reader.new.file ≡ 0 }
    ensures reaches { Reaches reader.new (row_place next) }
    ensures next { result ≡ Ok Slot.Row → Reaches reader.new (row_place (next + 1)) }
    ensures block { D.Tells → HasBlockOf (D.files disk.old 0).now reader.new }
    ensures same { D.Tells → D.files disk.new ≡ D.files disk.old }
    ensures drawn { D.Tells → D.drawn disk.new 0 + block_end reader.old ≤ D.drawn disk.old 0 + block_end reader.new }
    ensures drawn_others { D.Tells → KeepsOthers 0 (D.drawn disk.old) (D.drawn disk.new) }
    ensures counted { IsCounted (D.fault_count disk.old) (D.fault_count disk.new) (IsErr result) }
    ensures fuses { D.fuse_count disk.new ≡ D.fuse_count disk.old }
{
    let mut bytes = [0; ROW_LEN];
    match reader.read_slot(disk, place_of(next), ROW_MAGIC, &mut bytes)? {
        Slot::Row if next <= LAST_GENERATION && has_number(&bytes, 8, next) => Ok(Slot::Row),
        Slot::Mark if next > 0 => Ok(Slot::Mark),
        _ => Ok(Slot::Broken),
    }
}
