//! Pieces of files.
ghost use Rattle.std.specs.Prelude.{◌<◌, []};

use hay_disk::Piece;
use std::fs::File;
use std::sync::Arc;

/// A part of a file. All pieces of a file and its disk share one open file, so a piece can be read after the file was
/// removed.
#[derive(Drop)]
pub struct FilePiece {
    // None where the count of the pieces of a file was full.
    pub(crate) file: Option<Arc<File>>,
    pub(crate) at: u64,
    pub(crate) len: usize,
    pub(crate) hole: usize,
    ghost inside: { hole < len },
}

impl Piece for FilePiece {
    ghost Tells = { ⊥ };

    ghost piece_len = { λ piece. piece.len };

    ghost piece_hole = { λ piece. piece.hole };

    ghost piece_bytes = { λ _. [] };

    ghost hole_inside = { λ piece. piece.inside };

    ghost is_long = { λ _ told. absurd told };

    fn len(&self) -> usize {
        self.len
    }

    fn hole(&self) -> usize {
        self.hole
    }

    fn dup(&self) -> FilePiece {
        let file = match &self.file {
            Some(file) => file.clone().ok(),
            None => None,
        };
        FilePiece {
            file,
            at: self.at,
            len: self.len,
            hole: self.hole,
        }
    }
}
