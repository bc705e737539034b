//! What a volume and the Directory publish for readers that do not hold their locks, as views of `hay_front`: the rows of places of a
//! volume, and the homes of pairs.
//!
//! A view has in memory what is looked up, and for clauses alone what stood at first and each change since. So a seat that has seen
//! the first n changes that were published is shown the row that a map has behind these n, and the home by the rows that stood and
//! these n: `proofs/PlaceLaw` and `proofs/HomeLaw` say so in the terms of `hay_map` and `hay_legal`. A change that does not fit the
//! map changes no row; whoever publishes shows that each one fits, and may tell more of the changes, by `Telling`. A change of places
//! is published with what it enters in the log of its volume, one entry or none, and as many entries were entered as changes count.
//! Of several rows of one pair the first one counts. A home that is shown is a volume that there is, whatever any disk tells.
//!
//! It stands on hay_map, hay_directory and hay_front. A look takes no memory. What a view has for clauses takes none either.
#![tactic(auto)]

mod homes;
mod past;
mod places;

pub use homes::HomeView;
pub use past::{Moment, Past};
pub use places::{PlaceView, Published, Telling};
