//! The photos of a replica.

ghost use Rattle.std.specs.Prelude.{◌≡◌, [], length, IfOk, IsTrue, OnOk};
ghost use Rattle.std.specs.FinMap.Entries.{find};
ghost use Rattle.std.specs.Option.{option_copied};
ghost use Rattle.hay_needle.specs.Sizes.{needle_total};
ghost use Rattle.hay_needle.specs.Tables as tables;
ghost use Rattle.hay_core.specs.Entries as entries;

use crate::pairs::Log;
use crate::same::Same;
use hay_base::{Duplicate, NoMemory};
use hay_core::Entry;
use hay_needle::{Pair, Photo};
use std::alloc::Global;
use std::collections::BTreeMap;
use std::marker::Model;

/// The photos that stand, each at its pair: a look-up takes the steps of a search.
#[derive(Drop)]
pub struct Table {
    photos: BTreeMap<Pair, Photo>,
}

impl Model for Table {
    ghost use Rattle.std.specs.Prelude.{List};
    ghost use Rattle.hay_needle.specs.declared.needle.Pair.{Pair};
    ghost use Rattle.hay_needle.specs.declared.needle.Photo.{Photo};

    ghost Value = { List (Pair × Photo) };

    ghost view = { λ t. t.photos.entries };
}

/// The bytes of a needle, however large its photo.
fn total_of(size: usize) -> u128
    ensures { result ≡ needle_total size }
{
    let size = size as u128;
    48 + size + (8 - size % 8) % 8
}

#[tactic(auto, using(crate::proofs::ByPair::find_is))]
fn photo_at(photos: &BTreeMap<Pair, Photo>, pair: Pair) -> Option<&Photo>
    ensures { option_copied result ≡ find tables.pair_cmp pair photos.now.entries }
{
    photos.get(&pair)
}

fn live_end_of(photos: &BTreeMap<Pair, Photo>) -> u128
    ensures { result ≡ tables.live_end photos.now.entries }
{
    let mut end: u128 = 64;
    for (_pair, photo) in photos {
        end += total_of(photo.bytes.len());
    }
    end
}

fn copy_of(alloc: Global, photos: &BTreeMap<Pair, Photo>) -> Result<BTreeMap<Pair, Photo>, NoMemory>
    ensures { IfOk result (λ copy. copy.entries ≡ photos.now.entries) }
{
    // the pairs rise
    let _count = photos.len();
    let mut copy = BTreeMap::new(alloc);
    for (pair, photo) in photos {
        copy.insert(*pair, photo.duplicate(alloc)?)?;
    }
    Ok(copy)
}

fn put(photos: &mut BTreeMap<Pair, Photo>, pair: Pair, photo: Photo) -> Result<(), NoMemory>
    ensures { OnOk result (photos.new.entries ≡ tables.with_photo photos.old.entries pair photo) }
{
    photos.insert(pair, photo)?;
    Ok(())
}

fn remove(photos: &mut BTreeMap<Pair, Photo>, pair: Pair)
    ensures { photos.new.entries ≡ tables.without_pair photos.old.entries pair }
{
    // the pairs rise
    let _count = photos.len();
    let _photo = photos.remove(&pair);
}

fn same_photo(photo: &Photo, other: &Photo) -> bool
    ensures { IsTrue result → photo.now ≡ other.now }
{
    photo.cookie == other.cookie && photo.bytes.as_slice() == other.bytes.as_slice()
}

fn same_photos(photos: &BTreeMap<Pair, Photo>, others: &BTreeMap<Pair, Photo>) -> bool
    ensures { IsTrue result → photos.now.entries ≡ others.now.entries }
{
    let mut left = others.iter();
    for (pair, photo) in photos {
        let Some((other, found)) = left.next() else {
            return false;
        };
        if pair != other || !same_photo(photo, found) {
            return false;
        }
    }
    left.next().is_none()
}

impl Table {
    pub(crate) fn new(alloc: Global) -> Table
        ensures { result ≡ [] }
    {
        Table {
            photos: BTreeMap::new(alloc),
        }
    }

    pub(crate) fn len(&self) -> usize
        ensures { result ≡ length self.now }
    {
        self.photos.len()
    }

    /// The photo at a pair.
    pub(crate) fn get(&self, pair: Pair) -> Option<&Photo>
        ensures { tables.outcome_by (option_copied result) ≡ tables.outcome_at self.now pair }
    {
        photo_at(&self.photos, pair)
    }

    /// Where a file ends that has these photos alone.
    pub(crate) fn live_end(&self) -> u128
        ensures { result ≡ tables.live_end self.now }
    {
        live_end_of(&self.photos)
    }

    /// The photos, with one that was put or without one that was deleted.
    pub(crate) fn apply(&mut self, alloc: Global, entry: &Entry) -> Result<(), NoMemory>
        ensures { OnOk result (self.new ≡ entries.apply_entry self.old entry.now) }
    {
        match entry {
            Entry::Put {
                pair,
                cookie,
                bytes,
            } => {
                let photo = Photo {
                    cookie: *cookie,
                    bytes: bytes.duplicate(alloc)?,
                };
                put(&mut self.photos, *pair, photo)
            }
            Entry::Del { pair } => {
                remove(&mut self.photos, *pair);
                Ok(())
            }
        }
    }
}

impl Duplicate for Table {
    fn duplicate(&self, alloc: Global) -> Result<Table, NoMemory> {
        Ok(Table {
            photos: copy_of(alloc, &self.photos)?,
        })
    }
}

impl Same for Table {
    fn is_same(&self, other: &Table) -> bool {
        same_photos(&self.photos, &other.photos)
    }
}

/// What stands behind all entries of a log.
pub(crate) fn behind_log(alloc: Global, base: &Table, log: &Log) -> Result<Table, NoMemory>
    ensures { IfOk result (λ table. table ≡ entries.after (entries.entries_of log.now) (length log.now) base.now) }
{
    let mut table = base.duplicate(alloc)?;
    for logged in log.as_slice() {
        table.apply(alloc, &logged.entry)?;
    }
    Ok(table)
}
