//! The end of a compaction.

ghost use Rattle.std.specs.Prelude.{◌≡◌, ◌≤◌, List, [], ℕ, All, map, drop, false, IfOk, OnOk, IsErrOf};
ghost use Rattle.hay_disk.specs.Counts.{IsCounted};
ghost use Rattle.hay_disk.specs.Disk.{KeepsOthers};
ghost use Rattle.hay_map.specs.declared.place.Place.TheVariants as place;
ghost use Rattle.hay_map.specs.Rows.{last_place};
ghost use Rattle.hay_needle.specs.declared.needle.Cell.{Cell};
ghost use Rattle.hay_needle.specs.declared.needle.Pair.{Pair};
ghost use Rattle.hay_needle.specs.declared.settings.Super.{Super};
ghost use Rattle.hay_index.specs.declared.record.Record.{Record};
ghost use Rattle.hay_open.specs.Finds.{ArePlacesWithin};
ghost use Rattle.hay_open.specs.Stored.{Stored, VolumeRests, cell_record, volume_file};
ghost use Rattle.hay_volume.specs.Cells.{IsVolume};
ghost use Rattle.hay_compact.specs.Copying.{AreOfVersionTwo, IsMaking, KeepsOtherFiles, Making, RowWithin};
ghost use Rattle.hay_compact.specs.Finishing.{ArePhotos, ArePlacesSoFar, AreThePlaces, CanSeal, IsDue, IsFinished, IsSeen};

use crate::compactor::Compactor;
use crate::standing::Standing;
use hay_disk::{Disk, DiskFault, Piece};
use hay_index::{IndexFile, Record};
use hay_map::{OpenCell, Place, Sealed};
use hay_needle::{MAX_PHOTO, total_of};
use hay_volume::VolumeFile;
use std::alloc::Global;

// The place of the flags in a needle.
const FLAGS_AT: usize = 28;

/// The files of the new generation, and the place of each pair whose photo stands.
#[derive(Drop)]
pub struct Finished<P: Piece> {
    pub volume: VolumeFile,
    pub index: IndexFile,
    pub places: Vec<OpenCell<P>>,
}

impl Compactor {
    /// Ends the compaction, once all cells are examined: the index has a record for each cell and is on the disk, the new
    /// volume file is on the disk, and the needle of each pair whose photo stands is sealed, but for its flags. One write where
    /// a cell was copied, and two syncs behind it.
    pub fn finish<D: Disk>(self, disk: &mut D) -> Result<Finished<D::Piece>, DiskFault>
        requires { D.Tells → IsMaking (D.files disk.old) self }

        ensures finished { D.Tells → IfOk result (λ finished. (sup : Super) (fresh : List Cell) →
            Making sup (D.files disk.old) self fresh →
            IsFinished D.Piece.Tells sup (D.files disk.new) finished self fresh) }
        ensures thawed { IfOk result (λ finished. finished.index.frozen ≡ false) }
        ensures flushed { IfOk result (λ finished. finished.index.pending ≡ []) }
        ensures capacity { IfOk result (λ finished. finished.volume.capacity ≡ self.capacity) }
        // On any disk the new volume file is that of the generation, and no longer than what was examined.
        ensures named { IfOk result (λ finished. finished.volume.file ≡ volume_file self.generation) }
        ensures from { IfOk result (λ finished. 64 ≤ finished.volume.end) }
        ensures shorter { IfOk result (λ finished. finished.volume.end ≤ self.next) }
        ensures photos { IfOk result (λ finished. ArePhotos finished.places.items) }
        ensures within { IfOk result (λ finished. ArePlacesWithin finished.volume.end finished.places.items) }
        // Each cell of the new volume file is of version 2.
        ensures anew { D.Tells → IfOk result (λ finished. (superblock : List ℕ) (cells : List Cell) (end : ℕ) →
            IsVolume superblock (D.files disk.new finished.volume.file).now cells end → AreOfVersionTwo cells) }

        ensures others { D.Tells → KeepsOtherFiles self.generation (D.files disk.old) (D.files disk.new) }
        ensures drawn { D.Tells → (n : ℕ) → D.drawn disk.new n ≡ D.drawn disk.old n }
        ensures counted { IsCounted (D.fault_count disk.old) (D.fault_count disk.new) (IsErrOf result DiskFault.Failed) }
        ensures fuses { D.fuse_count disk.new ≡ D.fuse_count disk.old }
    {
        let Compactor {
            generation: _,
            capacity,
            volume,
            mut index,
            standing,
            next: _,
            bytes,
            anew: _,
        } = self;
        let alloc = *bytes.allocator();
        let file = volume.file();
        let records = index.pending.to_vec(alloc)?;
        index.flush_loose(disk)?;
        disk.sync(index.file)?;
        disk.sync(file)?;
        let places = seal_all(alloc, disk, file, records.as_slice(), &standing)?;
        Ok(Finished {
            volume: VolumeFile::adopt(file, volume.end(), capacity),
            index,
            places,
        })
    }
}

// Seals the needle of each of these records that is the last of its pair and not deleted.
fn seal_all<D: Disk>(
    alloc: Global,
    disk: &mut D,
    file: u32,
    records: &[Record],
    standing: &Standing,
) -> Result<Vec<OpenCell<D::Piece>>, DiskFault>
    requires small { All (λ (row : Record). row.size ≤ MAX_PHOTO) records.now }
    requires ready { D.Tells → (sup : Super) × (s : Stored) × CanSeal sup (D.files disk.old file) standing.now s × (records.now ≡ map cell_record s.cells) }
    ensures places { D.Tells → IfOk result (λ places. (sup : Super) (s : Stored) → CanSeal sup (D.files disk.old file) standing.now s → records.now ≡ map cell_record s.cells
        → AreThePlaces D.Piece.Tells s.cells places.items) }
    ensures seen { D.Tells → IfOk result (λ places. (sup : Super) (s : Stored) → CanSeal sup (D.files disk.old file) standing.now s → records.now ≡ map cell_record s.cells
        → (pair : Pair) → IsSeen (last_place places.items pair place.Gone)) }
    ensures photos { IfOk result (λ places. ArePhotos places.items) }
    ensures within { (end : ℕ) → All (RowWithin end) records.now → IfOk result (λ places. ArePlacesWithin end places.items) }
    ensures rests { D.Tells → (sup : Super) (s : Stored) → VolumeRests sup (D.files disk.old file) s → records.now ≡ map cell_record s.cells → VolumeRests sup (D.files disk.new file) s }
    ensures others { D.Tells → KeepsOthers file (D.files disk.old) (D.files disk.new) }
    ensures drawn { D.Tells → (n : ℕ) → D.drawn disk.new n ≡ D.drawn disk.old n }
    ensures counted { IsCounted (D.fault_count disk.old) (D.fault_count disk.new) (IsErrOf result DiskFault.Failed) }
    ensures fuses { D.fuse_count disk.new ≡ D.fuse_count disk.old }
{
    let mut places = Vec::new(alloc);
    for row in records {
        seal_next(disk, file, *row, standing, &mut places)?;
    }
    Ok(places)
}

// Seals the needle of a record, if it is the last of its pair and not deleted.
fn seal_next<D: Disk>(
    disk: &mut D,
    file: u32,
    row: Record,
    standing: &Standing,
    places: &mut Vec<OpenCell<D::Piece>>,
) -> Result<(), DiskFault>
    requires small { row.size ≤ MAX_PHOTO }
    requires ready { D.Tells → (sup : Super) × (s : Stored) × (rest : List Cell) × CanSeal sup (D.files disk.old file) standing.now s × IsDue s row rest }
    ensures places { D.Tells → OnOk result ((sup : Super) (s : Stored) (rest : List Cell) → CanSeal sup (D.files disk.old file) standing.now s → IsDue s row rest
        → ArePlacesSoFar D.Piece.Tells s.cells rest places.old.items → ArePlacesSoFar D.Piece.Tells s.cells (drop 1 rest) places.new.items) }
    ensures photos { ArePhotos places.old.items → ArePhotos places.new.items }
    ensures within { (end : ℕ) → RowWithin end row → ArePlacesWithin end places.old.items → ArePlacesWithin end places.new.items }
    ensures rests { D.Tells → (sup : Super) (s : Stored) (rest : List Cell) → VolumeRests sup (D.files disk.old file) s → IsDue s row rest → VolumeRests sup (D.files disk.new file) s }
    ensures others { D.Tells → KeepsOthers file (D.files disk.old) (D.files disk.new) }
    ensures drawn { D.Tells → (n : ℕ) → D.drawn disk.new n ≡ D.drawn disk.old n }
    ensures counted { IsCounted (D.fault_count disk.old) (D.fault_count disk.new) (IsErrOf result DiskFault.Failed) }
    ensures fuses { D.fuse_count disk.new ≡ D.fuse_count disk.old }
{
    if standing.place(row.pair) != Some(row.at) {
        return Ok(());
    }
    let total = total_of(row.size) as usize;
    let piece = disk.seal(file, row.at, total, FLAGS_AT)?;
    places.push(OpenCell {
        pair: row.pair,
        place: Place::Live(Sealed::new(row.at, row.size, piece)),
    })?;
    Ok(())
}
