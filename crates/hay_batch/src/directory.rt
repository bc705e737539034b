//! The Directory to which batches are added.

ghost use Rattle.std.specs.Prelude.{◌≡◌, ◌<◌, ◌++◌, ◌+◌, ◌-◌, ◌^◌, min, ℕ, List, None, All, length, IfNone, IfSome, IfOk, OnOk, IsErrOf, map};
ghost use Rattle.hay_disk.specs.Counts.{IsCounted};
ghost use Rattle.hay_disk.specs.declared.disk.DiskFault.{DiskFault};
ghost use Rattle.hay_dirfile.specs.declared.row.DirRow.{DirRow};
ghost use Rattle.hay_batch.specs.declared.photo.NewPhoto.{NewPhoto};
ghost use Rattle.hay_batch.specs.Batches.{IsBatch, new_row};
ghost use Rattle.hay_batch.specs.Directories.{HoldsRows, IsFirstHome, IsReady, MaySettle};
ghost use Rattle.hay_batch.specs.Homes.{AddsHomes, home_among};

use crate::homes::Homes;
use crate::photo::NewPhoto;
use crate::settle::settle_many;
use hay_dirfile::{DirRow, Journal};
use hay_disk::{Disk, DiskFault};
use std::alloc::{AllocError, Global};

/// The disk of the Directory that was opened, its journal, the homes by the journal's rows, and how many rows there are.
#[derive(Drop)]
pub struct LoadDirectory<D> {
    pub disk: D,
    pub journal: Journal,
    pub homes: Homes,
    pub rows: u64,
}

// The rows by which these photos are kept in a volume.
fn rows_of(alloc: Global, photos: &[NewPhoto], volume: u32) -> Result<Vec<DirRow>, AllocError>
    requires { IsBatch photos.now }
    ensures { IfOk result (λ rows. rows.items ≡ map (new_row volume) photos.now) }
{
    let mut rows = Vec::with_capacity(alloc, photos.len())?;
    for photo in photos {
        rows.push_reserved(DirRow {
            pair: photo.pair,
            volume,
        });
    }
    Ok(rows)
}

impl<D> LoadDirectory<D> {
    // The home of the first of these photos that has one.
    pub(crate) fn first_home(&self, photos: &[NewPhoto]) -> Option<u32>
        ensures some { IfSome result (IsFirstHome self.now.homes photos.now) }
        ensures none { IfNone result (All (λ (photo : NewPhoto). home_among self.now.homes photo.pair ≡ None) photos.now) }
    {
        for photo in photos {
            if let Some(volume) = self.homes.get(photo.pair) {
                return Some(volume);
            }
        }
        None
    }
}

impl<D: Disk> LoadDirectory<D> {
    // Adds the rows by which a batch is kept in a volume. One that refused must not be used for another batch.
    pub(crate) fn settle(
        &mut self,
        alloc: Global,
        photos: &[NewPhoto],
        volume: u32,
    ) -> Result<(), DiskFault>
        requires batch { IsBatch photos.now }
        requires ready { D.Tells → IsReady D.files self.old }
        ensures settled { D.Tells → OnOk result ((superblock : List ℕ) (volumes : ℕ) (rows : List DirRow) → volume < volumes →
            HoldsRows D.files superblock volumes rows self.old → HoldsRows D.files superblock volumes (rows ++ map (new_row volume) photos.now) self.new) }
        ensures next { D.Tells → OnOk result (IsReady D.files self.new) }
        // Whatever the disk tells, the homes are known then, and the rows are counted.
        ensures homes { OnOk result (AddsHomes (map (new_row volume) photos.now) self.old.homes self.new.homes) }
        ensures rows { OnOk result (self.new.rows ≡ min (self.old.rows + length photos.now) (2 ^ 64 - 1)) }
        ensures left { D.Tells → MaySettle D.files volume photos.now self.old self.new }
        ensures counted { IsCounted (D.fault_count self.old.disk) (D.fault_count self.new.disk) (IsErrOf result DiskFault.Failed) }
        ensures fuses { D.fuse_count self.new.disk ≡ D.fuse_count self.old.disk }
    {
        let rows = rows_of(alloc, photos, volume)?;
        let Ok(()) = self.homes.add_rows(rows.as_slice()) else {
            return Err(DiskFault::NoMemory);
        };
        settle_many(&mut self.journal, alloc, &mut self.disk, rows.as_slice())?;
        self.rows = self.rows.saturating_add(rows.len() as u64);
        Ok(())
    }
}
