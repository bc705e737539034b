//! Reading the head of a replica's disk and the cells of its volume file.

ghost use Rattle.std.specs.Prelude.{◌≡◌, ◌⊎◌, ◌≤◌, ℕ, List, map, take, Err, OnOk, IfOk, IsErrOf};
ghost use Rattle.hay_disk.specs.Counts.{IsCounted};
ghost use Rattle.hay_disk.specs.Gate.{IsClosed};
ghost use Rattle.hay_needle.specs.Needle.{needle_magic};
ghost use Rattle.hay_needle.specs.Super.{super_bytes};
ghost use Rattle.hay_needle.specs.declared.needle.Cell.{Cell};
ghost use Rattle.hay_head.specs.Head.{IsDamagedHead, IsHead};
ghost use Rattle.hay_head.specs.Rows.{IsSuperFaultAt};
ghost use Rattle.hay_volume.specs.Cells.{HasCells, IsDamagedCell, cell_head};
ghost use Rattle.hay_volume.specs.Needles.{AreHeadsFrom};
ghost use Rattle.hay_open.specs.Stored.{IsReplicaFile};
ghost use Rattle.hay_open.specs.Stored as stored;
ghost use Rattle.hay_check.specs.Damage.{HoldsCells, IsDamagedFront, IsDamagedVolume};

use crate::fault::Refusal;
use hay_disk::Disk;
use hay_head::{Head, HeadFault, read_front};
use hay_needle::{CellHead, LAST_GENERATION, SUPER_LEN, Super};
use hay_open::{HEAD_FILE, head_super, volume_file, volume_super};
use hay_volume::{CellFault, VolumeFile};
use std::alloc::Global;

/// The cells of the volume file that the head names.
#[derive(Drop)]
pub(crate) struct Cells {
    pub generation: u64,
    pub heads: Vec<CellHead>,
    /// Where the cells end.
    pub end: u64,
}

// The generation that the head file names.
fn read_generation<D: Disk>(disk: &mut D, sup: &Super) -> Result<u64, Refusal>
    ensures head { D.Tells → IfOk result (λ generation. IsHead (super_bytes (stored.head_super sup.now)) (D.files disk.old 0).now generation) }
    ensures most { IfOk result (λ generation. generation ≤ LAST_GENERATION) }
    ensures file { (file at : ℕ) → result ≡ Err (Refusal.Damaged file at) → file ≡ 0 }
    ensures damaged { D.Tells → (file at : ℕ) → result ≡ Err (Refusal.Damaged file at) → (file ≡ 0) × IsDamagedHead (stored.head_super sup.now) (D.files disk.old 0).now at }
    ensures same { D.Tells → D.files disk.new ≡ D.files disk.old }
    ensures counted { IsCounted (D.fault_count disk.old) (D.fault_count disk.new) (IsErrOf result Refusal.Failed) }
    ensures fuses { D.fuse_count disk.new ≡ D.fuse_count disk.old }
{
    match Head::read(disk, &head_super(sup)) {
        Ok(head) => Ok(head.generation),
        Err(HeadFault::Failed) => Err(Refusal::Failed),
        Err(HeadFault::NoMemory) => Err(Refusal::NoMemory),
        Err(HeadFault::Damaged { at }) => Err(Refusal::Damaged {
            file: HEAD_FILE,
            at,
        }),
    }
}

// The cells of a volume file behind its superblock, and where they end.
fn scan<D: Disk>(alloc: Global, disk: &mut D, file: u32) -> Result<(Vec<CellHead>, u64), Refusal>
    ensures cells { D.Tells → IfOk result (λ scan. (cells : List Cell) × HasCells 64 (D.files disk.old file).now cells scan.1 × (scan.0.items ≡ map cell_head cells)) }
    ensures mark { D.Tells → IfOk result (λ scan. IsClosed needle_magic scan.1 (D.files disk.old file).now) }
    ensures row { IfOk result (λ scan. AreHeadsFrom 64 scan.0.items scan.1) }
    ensures file { (number at : ℕ) → result ≡ Err (Refusal.Damaged number at) → number ≡ file }
    ensures damaged { D.Tells → (number at : ℕ) → result ≡ Err (Refusal.Damaged number at) → (number ≡ file) × IsDamagedCell 64 (D.files disk.old file).now at }
    ensures same { D.Tells → D.files disk.new ≡ D.files disk.old }
    ensures counted { IsCounted (D.fault_count disk.old) (D.fault_count disk.new) (IsErrOf result Refusal.Failed) }
    ensures fuses { D.fuse_count disk.new ≡ D.fuse_count disk.old }
{
    let first = SUPER_LEN as u64;
    let volume = VolumeFile::adopt(file, first, first);
    match volume.scan_from(alloc, disk, first) {
        Ok(scan) => Ok(scan),
        Err(CellFault::Failed) => Err(Refusal::Failed),
        Err(CellFault::NoMemory) => Err(Refusal::NoMemory),
        Err(CellFault::Damaged { at }) => Err(Refusal::Damaged { file, at }),
    }
}

// The cells of a volume file with this superblock, and where they end.
fn read_volume<D: Disk>(
    alloc: Global,
    disk: &mut D,
    file: u32,
    sup: &Super,
) -> Result<(Vec<CellHead>, u64), Refusal>
    ensures begins { D.Tells → OnOk result (take 64 (D.files disk.old file).now ≡ super_bytes sup.now) }
    ensures cells { D.Tells → IfOk result (λ scan. (cells : List Cell) × HasCells 64 (D.files disk.old file).now cells scan.1 × (scan.0.items ≡ map cell_head cells)) }
    ensures mark { D.Tells → IfOk result (λ scan. IsClosed needle_magic scan.1 (D.files disk.old file).now) }
    ensures row { IfOk result (λ scan. AreHeadsFrom 64 scan.0.items scan.1) }
    ensures file { (number at : ℕ) → result ≡ Err (Refusal.Damaged number at) → number ≡ file }
    ensures damaged { D.Tells → (number at : ℕ) → result ≡ Err (Refusal.Damaged number at) → (number ≡ file) × IsDamagedVolume sup.now (D.files disk.old file).now at }
    ensures same { D.Tells → D.files disk.new ≡ D.files disk.old }
    ensures counted { IsCounted (D.fault_count disk.old) (D.fault_count disk.new) (IsErrOf result Refusal.Failed) }
    ensures fuses { D.fuse_count disk.new ≡ D.fuse_count disk.old }
{
    match read_front(disk, file, sup)? {
        None => scan(alloc, disk, file),
        Some(at) => Err(Refusal::Damaged { file, at }),
    }
}

/// Reads the head of a replica's disk, and all needles of the volume file that it names.
pub(crate) fn read_cells<D: Disk>(
    alloc: Global,
    disk: &mut D,
    sup: &Super,
) -> Result<Cells, Refusal>
    ensures cells { D.Tells → IfOk result (λ read. (cells : List Cell) × HoldsCells sup.now (λ n. (D.files disk.old n).now) read.generation cells read.end
        × (read.heads.items ≡ map cell_head cells)) }
    ensures row { IfOk result (λ read. AreHeadsFrom 64 read.heads.items read.end) }
    ensures most { IfOk result (λ read. read.generation ≤ LAST_GENERATION) }
    ensures file { (file at : ℕ) → result ≡ Err (Refusal.Damaged file at) → IsReplicaFile file }
    ensures damaged { D.Tells → (file at : ℕ) → result ≡ Err (Refusal.Damaged file at) → IsDamagedFront sup.now (λ n. (D.files disk.old n).now) file at }
    ensures same { D.Tells → D.files disk.new ≡ D.files disk.old }
    ensures counted { IsCounted (D.fault_count disk.old) (D.fault_count disk.new) (IsErrOf result Refusal.Failed) }
    ensures fuses { D.fuse_count disk.new ≡ D.fuse_count disk.old }
{
    let generation = read_generation(disk, sup)?;
    let (heads, end) = read_volume(
        alloc,
        disk,
        volume_file(generation),
        &volume_super(sup, generation),
    )?;
    Ok(Cells {
        generation,
        heads,
        end,
    })
}
