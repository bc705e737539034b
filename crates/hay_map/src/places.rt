//! Vectors of places.
ghost use Rattle.std.specs.Prelude.{◌≡◌, ◌≤◌, ◌<◌, ◌+◌, ◌%◌, ◌==◌, ◌++◌, ℕ, length, replicate, vec_len, slice_set, IfOk, if◌then◌else◌};
ghost use Rattle.std.specs.Vec.{vec_capacity};
ghost use Rattle.hay_map.specs.Places.{gone_place, place_in};
ghost use Rattle.hay_map.specs.declared.place.Place.TheVariants as place_is;

use crate::Place;
use hay_disk::Piece;
use std::alloc::{AllocError, Global};

// The same places once more.
pub fn dup_each<P: Piece>(alloc: Global, places: &[Place<P>]) -> Result<Vec<Place<P>>, AllocError>
    ensures { IfOk result (λ copy. copy.items ≡ places.now) }
{
    let mut copy = Vec::with_capacity(alloc, places.len())?;
    for place in places {
        copy.push_reserved(place.dup());
    }
    Ok(copy)
}

// Adds so many places without photos, for which there is room.
pub fn push_none<P: Piece>(places: &mut Vec<Place<P>>, count: usize)
    requires { vec_len places.old + count ≤ vec_capacity places.old }
    ensures { places.new.items ≡ places.old.items ++ replicate count place_is.None }
{
    for _ in 0..count {
        places.push_reserved(Place::None);
    }
}

// Leaves each place of a replica, where a row has so many.
pub fn leave_each<P: Piece>(places: &mut [Place<P>], replicas: usize, replica: usize)
    requires { 0 < replicas }
    ensures { (k : ℕ) → place_in places.new k ≡ (if k % replicas == replica then gone_place (place_in places.old k) else place_in places.old k) }
{
    for (k, place) in places.iter_mut().enumerate() {
        if k % replicas == replica {
            place.leave();
        }
    }
}

pub fn set_at<P: Piece>(places: &mut [Place<P>], at: usize, place: Place<P>)
    requires { at < length places.old }
    ensures { places.new ≡ slice_set places.old at place }
{
    places[at] = place;
}
