//! Where bytes are read from and written to, in order.
ghost use Rattle.std.specs.Prelude.{◌≡◌, ◌≤◌, ◌<◌, List, [], ℕ, Option, length, take, IfOk, OnOk, OnErr, IsErr};
ghost use Rattle.hay_disk.specs.Counts.{IsCounted};
ghost use Rattle.hay_disk.specs.Streams.{Took, IsSpent, Wrote, WrotePart};

use crate::Failed;

/// Gives bytes in order, each once.
pub trait Source {
    /// The bytes left, where the source tells.
    ghost left: { Self → Option (List ℕ) };

    /// How often a read has failed.
    ghost fault_count: { Self → ℕ };

    /// Takes some bytes into the front of `out`, and answers how many. `Ok(0)` for an `out` that is not empty is the
    /// end. `Failed` takes none.
    fn read(&mut self, out: &mut [u8]) -> Result<usize, Failed>
        ensures within { IfOk result (λ n. n ≤ length out.old) }
        ensures took { IfOk result (λ n. Took (left self.old) (take n out.new) (left self.new)) }
        ensures end { IfOk result (λ n. n ≡ 0 → 0 < length out.old → IsSpent (left self.old)) }
        ensures failed { OnErr result (Took (left self.old) [] (left self.new)) }
        ensures counted { IsCounted (fault_count self.old) (fault_count self.new) (IsErr result) };

    /// How many reads have failed.
    fn faults(&self) -> u64
        ensures { result ≡ fault_count self.now };
}

/// Keeps the bytes that it is given, in order.
pub trait Sink {
    /// The bytes written, where the sink tells.
    ghost written: { Self → Option (List ℕ) };

    /// How often a write has failed.
    ghost fault_count: { Self → ℕ };

    /// Writes the bytes behind those written before. `Failed` writes some front of them.
    fn write(&mut self, bytes: &[u8]) -> Result<(), Failed>
        ensures wrote { OnOk result (Wrote (written self.old) bytes.now (written self.new)) }
        ensures failed { OnErr result (WrotePart (written self.old) bytes.now (written self.new)) }
        ensures counted { IsCounted (fault_count self.old) (fault_count self.new) (IsErr result) };

    /// How many writes have failed.
    fn faults(&self) -> u64
        ensures { result ≡ fault_count self.now };
}
