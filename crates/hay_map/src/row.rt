//! Rows of places.
ghost use Rattle.std.specs.Prelude.{◌≡◌, ◌≤◌, ◌<◌, ◌+◌, ◌++◌, ◌∷◌, [], length, map, replicate, take, drop};
ghost use Rattle.hay_map.specs.Places.{place_in, gone_place};
ghost use Rattle.hay_map.specs.declared.place.Place.TheVariants as place_is;

use crate::Place;
use hay_disk::Piece;
use std::marker::Model;

/// The places of a pair, one for each replica and four at most. A clause sees a list.
#[derive(Drop)]
pub struct Row<P: Piece> {
    first: Place<P>,
    second: Place<P>,
    third: Place<P>,
    fourth: Place<P>,
    count: usize,
}

impl<P: Piece> Model for Row<P> {
    ghost use Rattle.std.specs.Prelude.{List, [], ◌∷◌, ◌≤◌, take};
    ghost use Rattle.hay_map.specs.declared.place.Place.{Place};

    ghost Value = { List (Place P) };

    ghost view = { λ r. take r.count (r.first ∷ r.second ∷ r.third ∷ r.fourth ∷ []) };

    ghost invariant = { λ r. r.count ≤ 4 };
}

// The place once the photo was deleted.
fn gone_from<P: Piece>(place: &Place<P>) -> Place<P>
    ensures { result ≡ gone_place place.now }
{
    let mut left = place.dup();
    left.leave();
    left
}

impl<P: Piece> Row<P> {
    /// A row without places.
    pub fn new() -> Row<P>
        ensures { result ≡ [] }
    {
        Row {
            first: Place::None,
            second: Place::None,
            third: Place::None,
            fourth: Place::None,
            count: 0,
        }
    }

    /// A row of so many replicas, without photos.
    pub(crate) fn none(replicas: usize) -> Row<P>
        requires { replicas ≤ 4 }
        ensures { result ≡ replicate replicas place_is.None }
    {
        Row {
            first: Place::None,
            second: Place::None,
            third: Place::None,
            fourth: Place::None,
            count: replicas,
        }
    }

    /// These places once more.
    pub(crate) fn of(places: &[Place<P>]) -> Row<P>
        requires { length places.now ≤ 4 }
        ensures { result ≡ places.now }
    {
        let mut row = Row::new();
        for place in places {
            row.push(place.dup());
        }
        row
    }

    /// So many places from `at` on, once more.
    pub(crate) fn part(places: &[Place<P>], at: usize, count: usize) -> Row<P>
        requires { (at + count ≤ length places.now) × (count ≤ 4) }
        ensures { result ≡ take count (drop at places.now) }
    {
        Row::of(&places[at..at + count])
    }

    /// Adds the place of the next replica.
    pub fn push(&mut self, place: Place<P>)
        requires { length self.old < 4 }
        ensures { self.new ≡ self.old ++ place ∷ [] }
    {
        match self.count {
            0 => self.first = place,
            1 => self.second = place,
            2 => self.third = place,
            _ => self.fourth = place,
        }
        self.count += 1;
    }

    /// The number of places.
    pub fn len(&self) -> usize
        ensures is { result ≡ length self.now }
        ensures most { result ≤ 4 }
    {
        self.count
    }

    /// The place of a replica.
    pub fn place(&self, replica: usize) -> &Place<P>
        requires { replica < length self.now }
        ensures { result.now ≡ place_in self.now replica }
    {
        match replica {
            0 => &self.first,
            1 => &self.second,
            2 => &self.third,
            _ => &self.fourth,
        }
    }

    /// The same places once more.
    pub fn dup(&self) -> Row<P>
        ensures { result ≡ self.now }
    {
        Row {
            first: self.first.dup(),
            second: self.second.dup(),
            third: self.third.dup(),
            fourth: self.fourth.dup(),
            count: self.count,
        }
    }

    /// The places once the photo was deleted from every replica.
    pub fn gone(&self) -> Row<P>
        ensures { result ≡ map gone_place self.now }
    {
        Row {
            first: gone_from(&self.first),
            second: gone_from(&self.second),
            third: gone_from(&self.third),
            fourth: gone_from(&self.fourth),
            count: self.count,
        }
    }
}
