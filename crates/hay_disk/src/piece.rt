//! Pieces of files, and the arms that fetch them.
ghost use Rattle.std.specs.Prelude.{◌≡◌, ◌≤◌, ◌<◌, List, ℕ, Bool, true, length, IfOk, IsErr, IsOk};
ghost use Rattle.hay_disk.specs.Counts.{IsCounted, StaysSure};
ghost use Rattle.hay_disk.specs.Disk.{IsBut};

use crate::Failed;

/// A part of a file that was given out, with one place in it whose byte may change: its hole.
pub trait Piece: Drop {
    /// Whether pieces of this type tell their bytes.
    ghost Tells: { Type 0 };

    ghost piece_len: { Self → ℕ };

    ghost piece_hole: { Self → ℕ };

    /// The bytes, as they were when the piece was given out.
    ghost piece_bytes: { Self → List ℕ };

    /// The number of bytes.
    fn len(&self) -> usize
        ensures { result ≡ piece_len self.now };

    /// The place of the hole, counted from the piece's start.
    fn hole(&self) -> usize
        ensures { result ≡ piece_hole self.now };

    /// The same piece once more.
    fn dup(&self) -> Self
        ensures len { piece_len result ≡ piece_len self.now }
        ensures hole { piece_hole result ≡ piece_hole self.now }
        ensures bytes { piece_bytes result ≡ piece_bytes self.now };

    ghost hole_inside: { (piece : Self) → piece_hole piece < piece_len piece };

    ghost is_long: { (piece : Self) → Tells → length (piece_bytes piece) ≡ piece_len piece };
}

/// Fetches the bytes of pieces.
pub trait Arm<P: Piece>: Drop {
    /// How often a fetch has failed.
    ghost fault_count: { Self → ℕ };

    /// Whether no fetch fails any more.
    ghost is_sure: { Self → Bool };

    /// Puts the piece's bytes into `out`, with any byte at the hole, and answers their number. Of a piece that doesn't
    /// tell its bytes it may give fewer.
    fn fetch(&mut self, piece: &P, out: &mut [u8]) -> Result<usize, Failed>
        requires { P.piece_len piece.now ≡ length out.old }
        ensures within { IfOk result (λ n. n ≤ length out.old) }
        ensures count { P.Tells → IfOk result (λ n. n ≡ length out.old) }
        ensures bytes { P.Tells → IfOk result (λ _. IsBut (P.piece_hole piece.now) (P.piece_bytes piece.now) out.new) }
        ensures sure { is_sure self.old ≡ true → IsOk result }
        ensures stays_sure { StaysSure (is_sure self.old) (is_sure self.new) (fault_count self.old) (fault_count self.new) }
        ensures counted { IsCounted (fault_count self.old) (fault_count self.new) (IsErr result) };

    /// How many fetches have failed.
    fn faults(&self) -> u64
        ensures { result ≡ fault_count self.now };
}
