//! Tables of photos.

use hay_needle::{Pair, Photo};
use std::marker::Model;

/// The photos that stand, each pair once, in the order of the pairs.
#[derive(Drop)]
pub struct Table {
    photos: Vec<(Pair, Photo)>,
}

impl Model for Table {
    ghost use Rattle.std.specs.Prelude.{List};
    ghost use Rattle.hay_needle.specs.declared.needle.Pair.{Pair};
    ghost use Rattle.hay_needle.specs.declared.needle.Photo.{Photo};

    ghost Value = { List (Pair × Photo) };

    ghost view = { λ t. t.photos.items };
}
