//! Reading what the files of a replica list: the generation, the records of its index, and the cells that have no record.

ghost use Rattle.std.specs.Prelude.{◌≡◌, ◌⊎◌, ◌≤◌, ◌+◌, ◌++◌, ℕ, [], false, List, length, map, take, slice_get, Some, Err, OnOk, IfOk, IfErr, IsErrOf, ◌*◌, ◌<◌, ◌^◌, ◌-◌};
ghost use Rattle.hay_disk.specs.Counts.{IsCounted};
ghost use Rattle.hay_disk.specs.Disk.{KeepsOthers};
ghost use Rattle.hay_disk.specs.Gate.{IsClosed};
ghost use Rattle.hay_needle.specs.Needle.{needle_magic};
ghost use Rattle.hay_needle.specs.declared.needle.Cell.{Cell};
ghost use Rattle.hay_needle.specs.Sizes.{needle_total};
ghost use Rattle.hay_needle.specs.Super.{super_bytes};
ghost use Rattle.hay_head.specs.Head.{IsDamagedHead, IsHead};
ghost use Rattle.hay_head.specs.Rows.{IsSuperFaultAt};
ghost use Rattle.hay_index.specs.declared.record.Record.{Record};
ghost use Rattle.hay_index.specs.Records.{AreInRow, IsIndex};
ghost use Rattle.hay_index.specs.Records as index_specs;
ghost use Rattle.hay_volume.specs.Cells.{HasCells, cell_head};
ghost use Rattle.hay_volume.specs.Cells as volume_specs;
ghost use Rattle.hay_volume.specs.Needles.{AreHeadsFrom};
ghost use Rattle.hay_open.specs.Damage.{FitsNeedle, HasOrphans, IsDamagedFront, IsDamagedRest, IsMisfit, IsRecorded, LastFits};
ghost use Rattle.hay_open.specs.Damage as damage;
ghost use Rattle.hay_open.specs.Finds.{drawn_most};
ghost use Rattle.hay_open.specs.Listing.{IsListing, IsMisfitIn, LiesInRow, ListsCells, head_record};
ghost use Rattle.hay_open.specs.Stored.{Stored, IsReplicaFile, IsStored};
ghost use Rattle.hay_open.specs.Stored as stored;

use crate::fault::Refusal;
use crate::files::{HEAD_FILE, head_super, index_file, index_super, volume_file, volume_super};
use crate::record::fitting_head;
use hay_disk::Disk;
use hay_head::{Head, HeadFault, read_front};
use hay_index::{IndexFault, IndexFile, Record};
use hay_needle::{CellHead, LAST_GENERATION, SUPER_LEN, Super, total_of};
use hay_volume::{CellFault, VolumeFile};
use std::alloc::Global;

/// What the files of a replica list.
#[derive(Drop)]
pub(crate) struct Listing {
    pub head: Head,
    /// The number of the volume file.
    pub volume: u32,
    /// The index, in which the cells without a record are noted.
    pub index: IndexFile,
    /// The records of all cells. The first ones, `recorded` of them, are those of the index.
    pub rows: Vec<Record>,
    pub recorded: usize,
    /// The cells that have no record.
    pub orphans: Vec<CellHead>,
    /// Where the cells end.
    pub end: u64,
}

// What the head and the index say.
#[derive(Drop)]
struct Recorded {
    head: Head,
    index: IndexFile,
    records: Vec<Record>,
}

// Reads the head file.
fn read_head_file<D: Disk>(disk: &mut D, sup: &Super) -> Result<Head, Refusal>
    ensures head { D.Tells → IfOk result (λ head. IsHead (super_bytes (stored.head_super sup.now)) (D.files disk.old 0).now head.generation) }
    ensures most { IfOk result (λ head. head.generation ≤ LAST_GENERATION) }
    ensures file { (file at : ℕ) → result ≡ Err (Refusal.Damaged file at) → file ≡ 0 }
    ensures damaged { D.Tells → (file at : ℕ) → result ≡ Err (Refusal.Damaged file at) → (file ≡ 0) × IsDamagedHead (stored.head_super sup.now) (D.files disk.old 0).now at }
    ensures undamaged { D.Tells → OnOk result ((at : ℕ) → IsDamagedHead (stored.head_super sup.now) (D.files disk.old 0).now at → ⊥) }
    ensures only { D.Tells → (generation : ℕ) → IsHead (super_bytes (stored.head_super sup.now)) (D.files disk.old 0).now generation
        → (file at : ℕ) → result ≡ Err (Refusal.Damaged file at) → ⊥ }
    ensures same { D.Tells → D.files disk.new ≡ D.files disk.old }
    ensures drawn_others { D.Tells → KeepsOthers 0 (D.drawn disk.old) (D.drawn disk.new) }
    ensures counted { IsCounted (D.fault_count disk.old) (D.fault_count disk.new) (IsErrOf result Refusal.Failed) }
    ensures fuses { D.fuse_count disk.new ≡ D.fuse_count disk.old }
{
    match Head::read(disk, &head_super(sup)) {
        Ok(head) => Ok(head),
        Err(HeadFault::Failed) => Err(Refusal::Failed),
        Err(HeadFault::NoMemory) => Err(Refusal::NoMemory),
        Err(HeadFault::Damaged { at }) => Err(Refusal::Damaged {
            file: HEAD_FILE,
            at,
        }),
    }
}

// Tests the superblock of the volume file.
fn check_front<D: Disk>(disk: &mut D, file: u32, sup: &Super) -> Result<(), Refusal>
    ensures begins { D.Tells → OnOk result (take 64 (D.files disk.old file).now ≡ super_bytes sup.now) }
    ensures file { (number at : ℕ) → result ≡ Err (Refusal.Damaged number at) → number ≡ file }
    ensures damaged { D.Tells → (number at : ℕ) → result ≡ Err (Refusal.Damaged number at) → (number ≡ file) × IsSuperFaultAt sup.now (D.files disk.old file).now at }
    ensures undamaged { D.Tells → OnOk result ((at : ℕ) → IsSuperFaultAt sup.now (D.files disk.old file).now at → ⊥) }
    ensures only { D.Tells → take 64 (D.files disk.old file).now ≡ super_bytes sup.now → (number at : ℕ) → result ≡ Err (Refusal.Damaged number at) → ⊥ }
    ensures same { D.Tells → D.files disk.new ≡ D.files disk.old }
    ensures drawn { D.Tells → D.drawn disk.new file ≤ D.drawn disk.old file + 64 }
    ensures counted { IsCounted (D.fault_count disk.old) (D.fault_count disk.new) (IsErrOf result Refusal.Failed) }
    ensures fuses { D.fuse_count disk.new ≡ D.fuse_count disk.old }
{
    match read_front(disk, file, sup)? {
        None => Ok(()),
        Some(at) => Err(Refusal::Damaged { file, at }),
    }
}

// Reads the index file.
fn read_index<D: Disk>(
    alloc: Global,
    disk: &mut D,
    file: u32,
    sup: &Super,
) -> Result<(IndexFile, Vec<Record>), Refusal>
    ensures made { IfOk result (λ read. read.0 ≡ record { file = file; end = read.0.end; pending = []; frozen = false }) }
    ensures index { D.Tells → IfOk result (λ read. IsIndex (super_bytes sup.now) (D.files disk.old file).now read.1.items read.0.end) }
    ensures row { IfOk result (λ read. AreInRow 64 read.1.items) }
    ensures file { (number at : ℕ) → result ≡ Err (Refusal.Damaged number at) → number ≡ file }
    ensures damaged { D.Tells → (number at : ℕ) → result ≡ Err (Refusal.Damaged number at) → (number ≡ file) × index_specs.IsDamagedIndex sup.now (D.files disk.old file).now at }
    ensures undamaged { D.Tells → OnOk result ((at : ℕ) → index_specs.IsDamagedIndex sup.now (D.files disk.old file).now at → ⊥) }
    ensures only { D.Tells → (records : List Record) (end : ℕ) → IsIndex (super_bytes sup.now) (D.files disk.old file).now records end
        → (number at : ℕ) → result ≡ Err (Refusal.Damaged number at) → ⊥ }
    ensures same { D.Tells → D.files disk.new ≡ D.files disk.old }
    ensures drawn_others { D.Tells → KeepsOthers file (D.drawn disk.old) (D.drawn disk.new) }
    ensures counted { IsCounted (D.fault_count disk.old) (D.fault_count disk.new) (IsErrOf result Refusal.Failed) }
    ensures fuses { D.fuse_count disk.new ≡ D.fuse_count disk.old }
{
    match IndexFile::read_all(alloc, disk, file, sup) {
        Ok(read) => Ok(read),
        Err(IndexFault::Failed) => Err(Refusal::Failed),
        Err(IndexFault::NoMemory) => Err(Refusal::NoMemory),
        Err(IndexFault::Damaged { at }) => Err(Refusal::Damaged { file, at }),
    }
}

// Reads the head file, the superblock of its volume file, and its index.
fn read_recorded<D: Disk>(alloc: Global, disk: &mut D, sup: &Super) -> Result<Recorded, Refusal>
    ensures is { D.Tells → IfOk result (λ read. IsRecorded sup.now (λ n. (D.files disk.old n).now) read.head.generation read.records.items read.index.end) }
    ensures index { IfOk result (λ read. read.index ≡ record { file = read.index.file; end = read.index.end; pending = []; frozen = false }) }
    ensures number { IfOk result (λ read. read.index.file ≡ stored.index_file read.head.generation) }
    ensures row { IfOk result (λ read. AreInRow 64 read.records.items) }
    ensures most { IfOk result (λ read. read.head.generation ≤ LAST_GENERATION) }
    ensures file { (file at : ℕ) → result ≡ Err (Refusal.Damaged file at) → IsReplicaFile file }
    ensures damaged { D.Tells → (file at : ℕ) → result ≡ Err (Refusal.Damaged file at) → IsDamagedFront sup.now (λ n. (D.files disk.old n).now) file at }
    ensures undamaged { D.Tells → OnOk result ((file at : ℕ) → IsDamagedFront sup.now (λ n. (D.files disk.old n).now) file at → ⊥) }
    ensures only { D.Tells → (generation : ℕ) (records : List Record) (end : ℕ) → IsRecorded sup.now (λ n. (D.files disk.old n).now) generation records end
        → (file at : ℕ) → result ≡ Err (Refusal.Damaged file at) → ⊥ }
    ensures same { D.Tells → D.files disk.new ≡ D.files disk.old }
    ensures drawn { D.Tells → IfOk result (λ read. D.drawn disk.new (stored.volume_file read.head.generation) ≤ D.drawn disk.old (stored.volume_file read.head.generation) + 64) }
    ensures counted { IsCounted (D.fault_count disk.old) (D.fault_count disk.new) (IsErrOf result Refusal.Failed) }
    ensures fuses { D.fuse_count disk.new ≡ D.fuse_count disk.old }
{
    let head = read_head_file(disk, sup)?;
    let generation = head.generation;
    check_front(
        disk,
        volume_file(generation),
        &volume_super(sup, generation),
    )?;
    let (index, records) = read_index(
        alloc,
        disk,
        index_file(generation),
        &index_super(sup, generation),
    )?;
    Ok(Recorded {
        head,
        index,
        records,
    })
}

// Looks at the needle of the last record, if there is one.
fn check_last<D: Disk>(
    disk: &mut D,
    volume: u32,
    index: u32,
    records: &[Record],
) -> Result<(), Refusal>
    ensures fits { D.Tells → OnOk result (LastFits records.now (D.files disk.old volume).now) }
    ensures file { (file at : ℕ) → result ≡ Err (Refusal.Damaged file at) → (file ≡ volume) ⊎ (file ≡ index) }
    ensures damaged { D.Tells → (file at : ℕ) → result ≡ Err (Refusal.Damaged file at) →
        (number : ℕ) × (r : Record) × (number + 1 ≡ length records.now) × (slice_get records.now number ≡ Some r)
        × IsMisfitIn (λ n. (D.files disk.old n).now) volume index r number file at }
    ensures same { D.Tells → D.files disk.new ≡ D.files disk.old }
    ensures drawn { D.Tells → OnOk result (D.drawn disk.new volume ≤ D.drawn disk.old volume + 36) }
    ensures counted { IsCounted (D.fault_count disk.old) (D.fault_count disk.new) (IsErrOf result Refusal.Failed) }
    ensures fuses { D.fuse_count disk.new ≡ D.fuse_count disk.old }
{
    match records.last() {
        None => Ok(()),
        Some(last) => {
            fitting_head(disk, volume, index, last, records.len() as u64 - 1)?;
            Ok(())
        }
    }
}

// Where the last recorded needle ends.
fn scan_start(records: &[Record]) -> u64
    requires { AreInRow 64 records.now }
    ensures is { result ≡ damage.scan_start records.now }
    ensures from { 64 ≤ result }
{
    match records.last() {
        None => SUPER_LEN as u64,
        Some(last) => last.at.saturating_add(total_of(last.size)),
    }
}

// The cells of a volume file from `at` on, and where they end.
fn scan<D: Disk>(
    alloc: Global,
    disk: &mut D,
    file: u32,
    at: u64,
) -> Result<(Vec<CellHead>, u64), Refusal>
    ensures cells { D.Tells → IfOk result (λ scan. (cells : List Cell) × HasCells at (D.files disk.old file).now cells scan.1 × (scan.0.items ≡ map cell_head cells)) }
    ensures mark { D.Tells → IfOk result (λ scan. IsClosed needle_magic scan.1 (D.files disk.old file).now) }
    ensures row { IfOk result (λ scan. AreHeadsFrom at scan.0.items scan.1) }
    ensures start { OnOk result (at < 2 ^ 64 - 1) }
    ensures file { (number k : ℕ) → result ≡ Err (Refusal.Damaged number k) → number ≡ file }
    ensures damaged { D.Tells → (number k : ℕ) → result ≡ Err (Refusal.Damaged number k) → (number ≡ file) × volume_specs.IsDamagedCell at (D.files disk.old file).now k }
    ensures same { D.Tells → D.files disk.new ≡ D.files disk.old }
    ensures drawn { D.Tells → IfOk result (λ scan. D.drawn disk.new file + at ≤ D.drawn disk.old file + scan.1 + 8) }
    ensures counted { IsCounted (D.fault_count disk.old) (D.fault_count disk.new) (IsErrOf result Refusal.Failed) }
    ensures fuses { D.fuse_count disk.new ≡ D.fuse_count disk.old }
{
    let from = VolumeFile::adopt(file, at, at);
    match from.scan_from(alloc, disk, at) {
        Ok((cells, end)) => {
            if at == u64::MAX {
                // No disk that tells what it holds has a file that goes on there.
                return Err(Refusal::Damaged { file, at });
            }
            Ok((cells, end))
        }
        Err(CellFault::Failed) => Err(Refusal::Failed),
        Err(CellFault::NoMemory) => Err(Refusal::NoMemory),
        Err(CellFault::Damaged { at }) => Err(Refusal::Damaged { file, at }),
    }
}

// Adds the records of these cells, and notes them in the index.
fn note_orphans(
    index: &mut IndexFile,
    rows: &mut Vec<Record>,
    orphans: &[CellHead],
) -> Result<(), Refusal>
    ensures rows { OnOk result (rows.new.items ≡ rows.old.items ++ map head_record orphans.now) }
    ensures noted { OnOk result (index.new ≡ record index.old { pending = index.old.pending ++ map head_record orphans.now }) }
    ensures memory { IfErr result (λ fault. fault ≡ Refusal.NoMemory) }
{
    for head in orphans {
        let row = Record {
            pair: head.pair,
            at: head.at,
            size: head.size,
        };
        rows.push(row)?;
        index.note(row)?;
    }
    Ok(())
}

/// Reads what the files of a replica list.
pub(crate) fn read_listing<D: Disk>(
    alloc: Global,
    disk: &mut D,
    sup: &Super,
) -> Result<Listing, Refusal>
    ensures listing { D.Tells → IfOk result (λ listing. IsListing sup.now (λ n. (D.files disk.old n).now) listing) }
    ensures open { IfOk result (λ listing. listing.index.frozen ≡ false) }
    ensures within { IfOk result (λ listing. listing.recorded ≤ length listing.rows.items) }
    ensures most { IfOk result (λ listing. listing.head.generation ≤ LAST_GENERATION) }
    ensures number { IfOk result (λ listing. listing.volume ≡ stored.volume_file listing.head.generation) }
    ensures row { IfOk result LiesInRow }
    ensures from { IfOk result (λ listing. 64 + length listing.index.pending * needle_total 0 ≤ listing.end) }
    ensures file { (file at : ℕ) → result ≡ Err (Refusal.Damaged file at) → IsReplicaFile file }
    ensures damaged { D.Tells → (file at : ℕ) → result ≡ Err (Refusal.Damaged file at) →
        IsDamagedFront sup.now (λ n. (D.files disk.old n).now) file at
        ⊎ ((generation : ℕ) × (records : List Record) × (end : ℕ) × IsRecorded sup.now (λ n. (D.files disk.old n).now) generation records end
        × IsDamagedRest sup.now (λ n. (D.files disk.old n).now) generation records file at) }
    ensures undamaged { D.Tells → OnOk result ((file at : ℕ) → IsDamagedFront sup.now (λ n. (D.files disk.old n).now) file at → ⊥) }
    ensures only { D.Tells → (s : Stored) → IsStored sup.now (λ n. (D.files disk.old n).now) s → (file at : ℕ) → result ≡ Err (Refusal.Damaged file at) → ⊥ }
    ensures same { D.Tells → D.files disk.new ≡ D.files disk.old }
    ensures drawn { D.Tells → IfOk result (λ listing. D.drawn disk.new listing.volume ≤ D.drawn disk.old listing.volume + drawn_most listing.index.pending) }
    ensures counted { IsCounted (D.fault_count disk.old) (D.fault_count disk.new) (IsErrOf result Refusal.Failed) }
    ensures fuses { D.fuse_count disk.new ≡ D.fuse_count disk.old }
{
    let Recorded {
        head,
        mut index,
        records,
    } = read_recorded(alloc, disk, sup)?;
    let volume = volume_file(head.generation);
    check_last(disk, volume, index.file, records.as_slice())?;
    let (orphans, end) = scan(alloc, disk, volume, scan_start(records.as_slice()))?;
    let recorded = records.len();
    let mut rows = records;
    note_orphans(&mut index, &mut rows, orphans.as_slice())?;
    Ok(Listing {
        head,
        volume,
        index,
        rows,
        recorded,
        orphans,
        end,
    })
}
