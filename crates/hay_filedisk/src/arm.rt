//! Arms that fetch pieces of files.
ghost use Rattle.std.specs.Prelude.{◌≤◌, length, IfOk, false};

use crate::faults::Faults;
use crate::opened::read_whole;
use crate::piece::FilePiece;
use hay_disk::{Arm, Failed};
use std::io;
use std::io::ErrorKind;

/// An arm that reads at a place of a file, as other arms and the disk may do at the same time. It gives fewer bytes than
/// the piece has where the file ends before.
#[derive(Debug, Drop)]
pub struct FileArm {
    pub(crate) faults: Faults,
}

fn read_piece(piece: &FilePiece, out: &mut [u8]) -> io::Result<usize>
    ensures within { IfOk result (λ n. n ≤ length out.old) }
{
    match &piece.file {
        Some(file) => read_whole(file, piece.at, out),
        None => Err(ErrorKind::NotFound.into()),
    }
}

impl Arm<FilePiece> for FileArm {
    ghost fault_count = { λ arm. arm.faults.count };

    ghost is_sure = { λ _. false };

    fn fetch(&mut self, piece: &FilePiece, out: &mut [u8]) -> Result<usize, Failed> {
        self.faults.note(read_piece(piece, out))
    }

    fn faults(&self) -> u64 {
        self.faults.count()
    }
}
