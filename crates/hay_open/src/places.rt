//! The places of the cells that were listed.

ghost use Rattle.std.specs.Prelude.{◌≡◌, ◌⊎◌, ◌≤◌, ◌<◌, ◌+◌, ◌++◌, ◌∷◌, ℕ, [], List, length, map, take, drop, Some, Err, OnOk, IfOk, IfErr, IsErrOf, vec_len};
ghost use Rattle.std.specs.Vec.{vec_capacity};
ghost use Rattle.std.specs.List.{AllZip};
ghost use Rattle.hay_map.specs.declared.view.OpenCell.{OpenCell};
ghost use Rattle.hay_needle.specs.declared.needle.Cell.{Cell};
ghost use Rattle.hay_needle.specs.declared.needle.Pair.{Pair};
ghost use Rattle.hay_needle.specs.Sizes.{needle_total};
ghost use Rattle.hay_disk.specs.Counts.{IsCounted};
ghost use Rattle.hay_disk.specs.Disk.{IsSolid, KeepsOthers, Seals};
ghost use Rattle.hay_volume.specs.Cells.{HasCells, StandsCell, cell_head};
ghost use Rattle.hay_index.specs.declared.record.Record.{Record};
ghost use Rattle.hay_index.specs.Records.{AreInRow, place_behind};
ghost use Rattle.hay_map.specs.declared.place.Place.{Place};
ghost use Rattle.hay_map.specs.declared.place.Place.TheVariants as place;
ghost use Rattle.hay_map.specs.Rows.{last_place};
ghost use Rattle.hay_open.specs.Finds.{AddsAt, AreCellsOf, AreOfRows, IsOrphanOf, StandsAt, unseen_cell};
ghost use Rattle.hay_open.specs.Listing.{ArePlaced, GivesPieces, HoldsRows, ListsCells, head_record};
ghost use Rattle.hay_open.specs.Stored.{PlaceOf, cell_record, last_cell};

use crate::fault::Refusal;
use crate::listing::Listing;
use hay_disk::{Disk, Piece};
use hay_index::Record;
use hay_map::{OpenCell, Place, Sealed};
use hay_needle::{CellHead, MAX_PHOTO, total_of};
use std::alloc::Global;

// The place of the flags in a needle.
const FLAGS_AT: usize = 28;

// The place of a cell: its piece is given out, unless it is deleted.
fn place_of<D: Disk>(disk: &mut D, file: u32, head: CellHead) -> Result<Place<D::Piece>, Refusal>
    requires size { head.size ≤ MAX_PHOTO }
    requires inside { D.Tells → head.at + needle_total head.size ≤ length (D.files disk.old file).now }
    requires solid { D.Tells → IsSolid (D.files disk.old file) }
    ensures place { D.Tells → (cell : Cell) → StandsCell head.at (D.files disk.old file).now cell → head ≡ cell_head cell
        → IfOk result (λ place. PlaceOf D.Piece.Tells (Some cell) place) }
    ensures at { IfOk result (StandsAt head.at) }
    ensures seals { D.Tells → Seals head.at (needle_total head.size) 28 (D.files disk.old file) (D.files disk.new file) }
    ensures others { D.Tells → KeepsOthers file (D.files disk.old) (D.files disk.new) }
    ensures undamaged { (number at : ℕ) → result ≡ Err (Refusal.Damaged number at) → ⊥ }
    ensures drawn { D.Tells → (n : ℕ) → D.drawn disk.new n ≡ D.drawn disk.old n }
    ensures counted { IsCounted (D.fault_count disk.old) (D.fault_count disk.new) (IsErrOf result Refusal.Failed) }
    ensures fuses { D.fuse_count disk.new ≡ D.fuse_count disk.old }
{
    if head.deleted {
        return Ok(Place::Gone);
    }
    let piece = disk.seal(file, head.at, total_of(head.size) as usize, FLAGS_AT)?;
    Ok(Place::Live(Sealed::new(head.at, head.size, piece)))
}

// A recorded cell, which is not looked at.
fn unseen<P: Piece>(row: &Record) -> OpenCell<P>
    ensures { result ≡ unseen_cell row.now }
{
    OpenCell {
        pair: row.pair,
        place: Place::Unseen {
            at: row.at,
            size: row.size,
        },
    }
}

// Adds recorded cells, in order, for which there is room.
fn add_recorded<P: Piece>(rows: &[Record], cells: &mut Vec<OpenCell<P>>)
    requires room { vec_len cells.old + length rows.now ≤ vec_capacity cells.old }
    ensures { cells.new.items ≡ cells.old.items ++ map unseen_cell rows.now }
{
    for row in rows {
        cells.push_reserved(unseen(row));
    }
}

// Adds the place of a cell that has no record.
fn open_orphan<D: Disk>(
    disk: &mut D,
    file: u32,
    head: CellHead,
    cells: &mut Vec<OpenCell<D::Piece>>,
) -> Result<(), Refusal>
    requires stands { D.Tells → (cell : Cell) × StandsCell head.at (D.files disk.old file).now cell × (head ≡ cell_head cell) }
    requires solid { D.Tells → IsSolid (D.files disk.old file) }
    ensures added { OnOk result ((place : Place D.Piece) × (cells.new.items ≡ cells.old.items ++ record { pair = head.pair; place = place } ∷ []) × StandsAt head.at place
        × (D.Tells → (cell : Cell) → StandsCell head.at (D.files disk.old file).now cell → head ≡ cell_head cell → PlaceOf D.Piece.Tells (Some cell) place)) }
    ensures at { OnOk result (AddsAt head.at cells.old.items cells.new.items) }
    ensures file { (number at : ℕ) → result ≡ Err (Refusal.Damaged number at) → number ≡ file }
    ensures seals { D.Tells → Seals head.at (needle_total head.size) 28 (D.files disk.old file) (D.files disk.new file) }
    ensures others { D.Tells → KeepsOthers file (D.files disk.old) (D.files disk.new) }
    ensures undamaged { D.Tells → (number at : ℕ) → result ≡ Err (Refusal.Damaged number at) → ⊥ }
    ensures drawn { D.Tells → (n : ℕ) → D.drawn disk.new n ≡ D.drawn disk.old n }
    ensures counted { IsCounted (D.fault_count disk.old) (D.fault_count disk.new) (IsErrOf result Refusal.Failed) }
    ensures fuses { D.fuse_count disk.new ≡ D.fuse_count disk.old }
{
    if head.size > MAX_PHOTO {
        // No disk that tells what it holds has such a cell.
        return Err(Refusal::Damaged { file, at: head.at });
    }
    let place = place_of(disk, file, head)?;
    cells.push(OpenCell {
        pair: head.pair,
        place,
    })?;
    Ok(())
}

// Adds the places of the cells that have no record, in order.
fn open_orphans<D: Disk>(
    disk: &mut D,
    listing: &Listing,
    cells: &mut Vec<OpenCell<D::Piece>>,
) -> Result<(), Refusal>
    requires behind { drop listing.now.recorded listing.now.rows.items ≡ map head_record listing.now.orphans.items }
    requires row { D.Tells → AreInRow 64 listing.now.rows.items }
    requires orphans { D.Tells → (from : ℕ) × (orphans : List Cell) × HasCells from (D.files disk.old listing.now.volume).now orphans (place_behind 64 listing.now.rows.items)
        × (listing.now.orphans.items ≡ map cell_head orphans) × (drop listing.now.recorded listing.now.rows.items ≡ map cell_record orphans) }
    requires solid { D.Tells → IsSolid (D.files disk.old listing.now.volume) }
    ensures places { D.Tells → (whole : List Cell) → ListsCells (D.files disk.old listing.now.volume).now listing.now whole →
        ArePlaced D.Piece.Tells whole listing.now.recorded cells.old.items →
        OnOk result ((pair : Pair) → PlaceOf D.Piece.Tells (last_cell whole pair) (last_place cells.new.items pair place.None)) }
    ensures seen { D.Tells → (orphans : List Cell) (from end : ℕ) → HasCells from (D.files disk.old listing.now.volume).now orphans end → listing.now.orphans.items ≡ map cell_head orphans →
        OnOk result ((seen : List (OpenCell D.Piece)) × (cells.new.items ≡ cells.old.items ++ seen) × AllZip (IsOrphanOf D.Piece.Tells) orphans seen) }
    ensures rows { OnOk result (AreOfRows listing.now.rows.items cells.old.items → AreOfRows listing.now.rows.items cells.new.items) }
    ensures file { (number at : ℕ) → result ≡ Err (Refusal.Damaged number at) → number ≡ listing.now.volume }
    ensures pieces { D.Tells → GivesPieces listing.now.volume listing.now.rows.items (place_behind 64 listing.now.rows.items) (D.files disk.old) (D.files disk.new) }
    ensures undamaged { D.Tells → (number at : ℕ) → result ≡ Err (Refusal.Damaged number at) → ⊥ }
    ensures drawn { D.Tells → (n : ℕ) → D.drawn disk.new n ≡ D.drawn disk.old n }
    ensures counted { IsCounted (D.fault_count disk.old) (D.fault_count disk.new) (IsErrOf result Refusal.Failed) }
    ensures fuses { D.fuse_count disk.new ≡ D.fuse_count disk.old }
{
    for head in listing.orphans.as_slice() {
        open_orphan(disk, listing.volume, *head, cells)?;
    }
    Ok(())
}

/// The places of the cells that were listed.
pub(crate) fn open_cells<D: Disk>(
    alloc: Global,
    disk: &mut D,
    listing: &Listing,
) -> Result<Vec<OpenCell<D::Piece>>, Refusal>
    requires within { listing.now.recorded ≤ length listing.now.rows.items }
    requires behind { drop listing.now.recorded listing.now.rows.items ≡ map head_record listing.now.orphans.items }
    requires holds { D.Tells → HoldsRows (D.files disk.old listing.now.volume).now listing.now }
    requires solid { D.Tells → IsSolid (D.files disk.old listing.now.volume) }
    ensures places { D.Tells → (whole : List Cell) → ListsCells (D.files disk.old listing.now.volume).now listing.now whole →
        IfOk result (λ cells. (pair : Pair) → PlaceOf D.Piece.Tells (last_cell whole pair) (last_place cells.items pair place.None)) }
    ensures seen { D.Tells → (orphans : List Cell) (from end : ℕ) → HasCells from (D.files disk.old listing.now.volume).now orphans end → listing.now.orphans.items ≡ map cell_head orphans →
        IfOk result (λ cells. AreCellsOf D.Piece.Tells (take listing.now.recorded listing.now.rows.items) orphans cells.items) }
    ensures rows { IfOk result (λ cells. AreOfRows listing.now.rows.items cells.items) }
    ensures file { (number at : ℕ) → result ≡ Err (Refusal.Damaged number at) → number ≡ listing.now.volume }
    ensures pieces { D.Tells → GivesPieces listing.now.volume listing.now.rows.items (place_behind 64 listing.now.rows.items) (D.files disk.old) (D.files disk.new) }
    ensures undamaged { D.Tells → (number at : ℕ) → result ≡ Err (Refusal.Damaged number at) → ⊥ }
    ensures drawn { D.Tells → (n : ℕ) → D.drawn disk.new n ≡ D.drawn disk.old n }
    ensures counted { IsCounted (D.fault_count disk.old) (D.fault_count disk.new) (IsErrOf result Refusal.Failed) }
    ensures fuses { D.fuse_count disk.new ≡ D.fuse_count disk.old }
{
    let mut cells = Vec::with_capacity(alloc, listing.rows.len())?;
    add_recorded(&listing.rows.as_slice()[..listing.recorded], &mut cells);
    open_orphans(disk, listing, &mut cells)?;
    Ok(cells)
}
