//! Changes that stand on each replica, and not yet in the rows.

use hay_disk::Piece;
use hay_map::Row;
use hay_needle::Pair;

/// A photo that was written to each replica.
#[derive(Drop)]
pub struct Written<P: Piece> {
    pub pair: Pair,
    pub row: Row<P>,
    /// Of the change, once it is shown.
    pub position: u64,
    /// Before it the cells of each replica ended here.
    pub ends: [u64; 4],
}

/// A photo that was deleted from each replica.
#[derive(Debug, Drop)]
pub struct Erased {
    pub pair: Pair,
    /// Of the change, once it is shown.
    pub position: u64,
}
