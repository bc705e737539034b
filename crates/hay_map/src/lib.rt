//! Where the photos of a logical volume stand: by pair a row of places, one for each replica.
//!
//! A live place has the piece by which its photo is fetched, with one look-up and no memory. What a map means is plain: the row of each
//! pair. It stands on hay_base, hay_needle and hay_disk.
#![tactic(auto)]

mod place;
mod places;
mod row;
mod view;

pub use place::{Place, Sealed};
pub use row::Row;
pub use view::{MapOp, MapView, OpenCell};
