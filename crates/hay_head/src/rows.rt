//! Reading the parts of a file of rows.

ghost use Rattle.std.specs.Prelude.{◌≡◌, ◌≢◌, ◌⊎◌, ◌≤◌, ◌<◌, ◌+◌, ℕ, length, take, drop, IsErr, IfOk, IfSome, IfNone, IsNone};
ghost use Rattle.std.specs.Bool.{OnTrue, OnFalse};
ghost use Rattle.hay_disk.specs.Counts.{IsCounted};
ghost use Rattle.hay_disk.specs.Disk.{KeepsOthers};
ghost use Rattle.hay_disk.specs.Gate.{magic_bytes};
ghost use Rattle.hay_needle.specs.Super.{super_bytes};
ghost use Rattle.hay_head.specs.Rows.{IsSuperFaultAt};

use hay_disk::{Disk, Failed};
use hay_needle::{SUPER_LEN, Super, read_super, u64_at};

/// What stands where a row or the end mark is due.
#[derive(Clone, Copy, Debug, PartialEq, Eq)]
pub enum Slot {
    /// A row's magic, and as many bytes as a row has.
    Row,
    /// Eight bytes that are not the magic.
    Mark,
    /// Neither: the file ends too early.
    Broken,
}

/// Compares the front of a file with the superblock that is wanted, and answers the place of the first fault, if any.
pub fn read_front<D: Disk>(disk: &mut D, file: u32, sup: &Super) -> Result<Option<u64>, Failed>
    ensures stands { D.Tells → IfOk result (λ fault. IfNone fault (take 64 (D.files disk.old file).now ≡ super_bytes sup.now)) }
    ensures fault { D.Tells → IfOk result (λ fault. IfSome fault (λ at. IsSuperFaultAt sup.now (D.files disk.old file).now at)) }
    ensures only { D.Tells → take 64 (D.files disk.old file).now ≡ super_bytes sup.now → IfOk result (λ fault. IsNone fault) }
    ensures none { D.Tells → IfOk result (λ fault. IfNone fault ((at : ℕ) → IsSuperFaultAt sup.now (D.files disk.old file).now at → ⊥)) }
    ensures same { D.Tells → D.files disk.new ≡ D.files disk.old }
    ensures drawn { D.Tells → D.drawn disk.new file ≤ D.drawn disk.old file + 64 }
    ensures drawn_others { D.Tells → KeepsOthers file (D.drawn disk.old) (D.drawn disk.new) }
    ensures counted { IsCounted (D.fault_count disk.old) (D.fault_count disk.new) (IsErr result) }
    ensures fuses { D.fuse_count disk.new ≡ D.fuse_count disk.old }
{
    let mut bytes = [0; SUPER_LEN];
    let got = disk.read_into(file, 0, &mut bytes)?;
    match read_super(&bytes[..got], sup) {
        Ok(()) => Ok(None),
        Err(fault) => Ok(Some(fault.place())),
    }
}

// What the first `got` bytes show, where a row of as many bytes as there are or the end mark is due.
pub(crate) fn slot_in(bytes: &[u8], got: usize, magic: u64) -> Slot
    requires { 8 ≤ length bytes.now }
    ensures row { result ≡ Slot.Row → (length bytes.now ≤ got) × (take 8 bytes.now ≡ magic_bytes magic) }
    ensures mark { result ≡ Slot.Mark → (8 ≤ got) × (take 8 bytes.now ≢ magic_bytes magic) }
    ensures broken { result ≡ Slot.Broken → (got < 8) ⊎ ((take 8 bytes.now ≡ magic_bytes magic) × (8 ≤ got) × (got < length bytes.now)) }
{
    if got < 8 {
        return Slot::Broken;
    }
    if !has_number(bytes, 0, magic) {
        return Slot::Mark;
    }
    if got < bytes.len() {
        return Slot::Broken;
    }
    Slot::Row
}

// Whether the eight bytes from `at` on are this number, the highest first.
pub(crate) fn has_number(bytes: &[u8], at: usize, number: u64) -> bool
    requires { at + 8 ≤ length bytes.now }
    ensures is { OnTrue result (take 8 (drop at bytes.now) ≡ magic_bytes number) }
    ensures only { OnFalse result (take 8 (drop at bytes.now) ≢ magic_bytes number) }
{
    if u64_at(bytes, at) != number {
        return false;
    }
    true
}
