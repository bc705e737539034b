//! Pieces of files in memory.
ghost use Rattle.std.specs.Prelude.{◌≡◌, ◌<◌, length, refl};

use hay_disk::Piece;

/// A copy of a part of a file, shared by its duplicates. It is never freed.
#[derive(Clone, Copy)]
pub struct MemPiece {
    pub(crate) bytes: &'static [u8],
    pub(crate) hole: usize,
    ghost inside: { hole < length bytes.now },
}

impl Piece for MemPiece {
    ghost Tells = { Unit {0} };

    ghost piece_len = { λ piece. length piece.bytes.now };

    ghost piece_hole = { λ piece. piece.hole };

    ghost piece_bytes = { λ piece. piece.bytes.now };

    ghost hole_inside = { λ piece. piece.inside };

    ghost is_long = { λ _ _. refl };

    fn len(&self) -> usize {
        self.bytes.len()
    }

    fn hole(&self) -> usize {
        self.hole
    }

    fn dup(&self) -> MemPiece {
        *self
    }
}
