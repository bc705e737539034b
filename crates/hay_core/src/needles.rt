//! What needles and maps say of a pair.

ghost use Rattle.std.specs.Prelude.{◌≡◌, ◌∷◌, drop, slice_get, IfOk};
ghost use Rattle.hay_needle.specs.Tables as tables;
ghost use Rattle.hay_core.specs.Spots as spots;
ghost use Rattle.hay_core.specs.Sides as sides;

use crate::machine::{Mapped, Side, Spot};
use hay_base::{Duplicate, Listed, NoMemory};
use hay_needle::{Needle, Outcome, Pair, Row};
use std::alloc::Global;

pub(crate) fn is_same(a: Pair, b: Pair) -> bool
    ensures { result ≡ tables.pair_eq a b }
{
    a.key == b.key && a.alt == b.alt
}

/// Whether none of the needles has the pair.
pub(crate) fn lacks(pair: Pair, needles: &[Needle]) -> bool
    ensures { result ≡ tables.lacks pair needles.now }
{
    for needle in needles {
        if is_same(needle.pair, pair) {
            return false;
        }
    }
    true
}

/// Whether the needle, with these behind it, is the last of its pair and not deleted.
pub(crate) fn is_live(needle: &Needle, behind: &[Needle]) -> bool
    ensures { result ≡ tables.is_live needle.now behind.now }
{
    !needle.deleted && lacks(needle.pair, behind)
}

/// Whether the last needle of the pair is not deleted.
pub(crate) fn stands(pair: Pair, side: &Side) -> bool
    ensures { result ≡ sides.stands pair side.now }
{
    stands_in(pair, side.current.as_slice())
}

fn stands_in(pair: Pair, needles: &[Needle]) -> bool
    ensures { result ≡ sides.is_photo (tables.look (tables.rows_of needles.now) pair) }
{
    let mut found = false;
    for needle in needles {
        if is_same(needle.pair, pair) {
            found = !needle.deleted;
        }
    }
    found
}

// The needle as it stands with these behind it, once the last one of the pair is flagged.
fn flagged_before(
    alloc: Global,
    pair: Pair,
    needle: &Needle,
    behind: &[Needle],
) -> Result<Needle, NoMemory>
    ensures { IfOk result (λ n. tables.flag_last pair (needle.now ∷ behind.now) ≡ n ∷ tables.flag_last pair behind.now) }
{
    let mut copy = needle.duplicate(alloc)?;
    if is_same(needle.pair, pair) && lacks(pair, behind) {
        copy.deleted = true;
    }
    Ok(copy)
}

/// The needles, the last one of the pair flagged as deleted.
pub(crate) fn flag_last(
    alloc: Global,
    pair: Pair,
    needles: &[Needle],
) -> Result<Listed<Needle>, NoMemory>
    ensures { IfOk result (λ flagged. flagged ≡ tables.flag_last pair needles.now) }
{
    let mut flagged = Listed::new(alloc);
    for (i, needle) in needles.iter().enumerate() {
        flagged.push(flagged_before(alloc, pair, needle, &needles[i + 1..])?)?;
    }
    Ok(flagged)
}

/// The needles that are left behind the first ones.
pub(crate) fn left_behind(examined: u64, needles: &[Needle]) -> &[Needle]
    ensures { result.now ≡ drop examined needles.now }
{
    if examined >= needles.len() as u64 {
        &needles[needles.len()..]
    } else {
        &needles[examined as usize..]
    }
}

fn row_of(alloc: Global, needle: &Needle) -> Result<Row, NoMemory>
    ensures { IfOk result (λ row. row ≡ tables.needle_row needle.now) }
{
    let outcome = if needle.deleted {
        Outcome::Nothing
    } else {
        Outcome::Photo(needle.photo.duplicate(alloc)?)
    };
    Ok(Row {
        pair: needle.pair,
        outcome,
    })
}

/// The table of the needles.
pub(crate) fn rows_of(alloc: Global, needles: &[Needle]) -> Result<Listed<Row>, NoMemory>
    ensures { IfOk result (λ rows. rows ≡ tables.rows_of needles.now) }
{
    let mut rows = Listed::new(alloc);
    for needle in needles {
        rows.push(row_of(alloc, needle)?)?;
    }
    Ok(rows)
}

/// What the map gives the pair.
pub(crate) fn spot_in(mapped: &[Mapped], pair: Pair) -> Spot
    ensures { result ≡ spots.spot_in mapped.now pair }
{
    let mut spot = Spot::Absent;
    for entry in mapped {
        if is_same(entry.pair, pair) {
            spot = entry.spot;
        }
    }
    spot
}

/// The map of a generation's needles.
pub(crate) fn spots_of(
    alloc: Global,
    generation: u64,
    needles: &[Needle],
) -> Result<Listed<Mapped>, NoMemory>
    ensures { IfOk result (λ mapped. mapped ≡ spots.spots_of generation 0 needles.now) }
{
    let mut mapped = Listed::new(alloc);
    for (i, needle) in needles.iter().enumerate() {
        let number = i as u64;
        let spot = if needle.deleted {
            Spot::Gone
        } else {
            Spot::Live { generation, number }
        };
        mapped.push(Mapped {
            pair: needle.pair,
            spot,
        })?;
    }
    Ok(mapped)
}

/// What a reader sees at a spot.
pub(crate) fn shown(alloc: Global, side: &Side, spot: Spot) -> Result<Outcome, NoMemory>
    ensures { IfOk result (λ outcome. outcome ≡ sides.shown side.now spot) }
{
    match spot {
        Spot::Absent | Spot::Gone => Ok(Outcome::Nothing),
        Spot::Live { generation, number } => photo_in(alloc, side, generation, number),
    }
}

fn photo_in(alloc: Global, side: &Side, generation: u64, number: u64) -> Result<Outcome, NoMemory>
    ensures { IfOk result (λ outcome. outcome ≡ sides.photo_of (spots.needle_at (sides.files_of side.now) generation number)) }
{
    let past = side.past.as_slice();
    if generation < past.len() as u64 {
        photo_at(alloc, past[generation as usize].as_slice(), number)
    } else if generation == past.len() as u64 {
        photo_at(alloc, side.current.as_slice(), number)
    } else {
        Ok(Outcome::Nothing)
    }
}

fn photo_at(alloc: Global, needles: &[Needle], number: u64) -> Result<Outcome, NoMemory>
    ensures { IfOk result (λ outcome. outcome ≡ sides.photo_of (slice_get needles.now number)) }
{
    if number < needles.len() as u64 {
        Ok(Outcome::Photo(needles[number as usize].photo.duplicate(alloc)?))
    } else {
        Ok(Outcome::Nothing)
    }
}
