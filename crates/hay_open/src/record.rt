//! Records and the needles that they name.

ghost use Rattle.std.specs.Prelude.{◌≡◌, ◌⊎◌, ◌≤◌, ◌<◌, ◌+◌, ℕ, List, length, take, drop, Err, IsErr, IsErrOf, IfOk, OnOk, IfSome, IfNone};
ghost use Rattle.hay_needle.specs.Needle.{Head, HeadBytes, head_of_cell};
ghost use Rattle.hay_disk.specs.Counts.{IsCounted};
ghost use Rattle.hay_disk.specs.Disk.{KeepsOthers};
ghost use Rattle.hay_index.specs.declared.record.Record.{Record};
ghost use Rattle.hay_index.specs.Records.{BeginsWithBlock, IsIndex};
ghost use Rattle.hay_open.specs.Damage.{IsRecordAt};
ghost use Rattle.hay_open.specs.Listing.{IsMisfitIn, head_record};

use crate::fault::Refusal;
use hay_disk::{Disk, Failed};
use hay_index::Record;
use hay_needle::{CellHead, HEAD_LEN, MAX_PHOTO, SUPER_LEN, read_head, u64_at};

// The number of bytes of a block before its records, of which the last eight are how many records it has.
const FRONT_LEN: usize = 16;

// The number of bytes of a record.
const RECORD_LEN: u64 = 32;

/// The head of the needle at a place, if one stands there. Nothing else is read.
pub fn head_at<D: Disk>(disk: &mut D, file: u32, at: u64) -> Result<Option<CellHead>, Failed>
    ensures place { IfOk result (λ seen. IfSome seen (λ head. head.at ≡ at)) }
    ensures size { IfOk result (λ seen. IfSome seen (λ head. head.size ≤ MAX_PHOTO)) }
    ensures stands { D.Tells → IfOk result (λ seen. IfSome seen (λ head. HeadBytes (take 36 (drop at (D.files disk.old file).now)) (head_of_cell head))) }
    ensures none { D.Tells → IfOk result (λ seen. IfNone seen ((head : Head) → HeadBytes (take 36 (drop at (D.files disk.old file).now)) head → ⊥)) }
    ensures drawn { D.Tells → D.drawn disk.new file ≤ D.drawn disk.old file + 36 }
    ensures drawn_others { D.Tells → KeepsOthers file (D.drawn disk.old) (D.drawn disk.new) }
    ensures same { D.Tells → D.files disk.new ≡ D.files disk.old }
    ensures counted { IsCounted (D.fault_count disk.old) (D.fault_count disk.new) (IsErr result) }
    ensures fuses { D.fuse_count disk.new ≡ D.fuse_count disk.old }
{
    let mut bytes = [0; HEAD_LEN];
    let got = disk.read_into(file, at, &mut bytes)?;
    match read_head(&bytes[..got], at) {
        Ok(head) => Ok(Some(head)),
        Err(_) => Ok(None),
    }
}

// How many records the block has that stands at `at` in an index file: one at least.
fn block_len<D: Disk>(disk: &mut D, file: u32, at: u64) -> Result<u64, Failed>
    ensures count { D.Tells → (block : List Record) → BeginsWithBlock (drop at (D.files disk.old file).now) block → IfOk result (λ count. count ≡ length block) }
    ensures some { IfOk result (λ count. 1 ≤ count) }
    ensures same { D.Tells → D.files disk.new ≡ D.files disk.old }
    ensures counted { IsCounted (D.fault_count disk.old) (D.fault_count disk.new) (IsErr result) }
    ensures fuses { D.fuse_count disk.new ≡ D.fuse_count disk.old }
{
    let mut front = [0; FRONT_LEN];
    disk.read_into(file, at, &mut front)?;
    Ok(u64_at(&front, 8).max(1))
}

// Where the record of a number stands in an index file.
fn record_place<D: Disk>(disk: &mut D, file: u32, number: u64) -> Result<u64, Failed>
    ensures place { D.Tells → (superblock : List ℕ) (records : List Record) (end : ℕ) → IsIndex superblock (D.files disk.old file).now records end → number < length records
        → IfOk result (λ at. IsRecordAt superblock (D.files disk.old file).now number at) }
    ensures same { D.Tells → D.files disk.new ≡ D.files disk.old }
    ensures counted { IsCounted (D.fault_count disk.old) (D.fault_count disk.new) (IsErr result) }
    ensures fuses { D.fuse_count disk.new ≡ D.fuse_count disk.old }
{
    let mut start = SUPER_LEN as u64;
    let mut left = number;
    'blocks: loop {
        let count = block_len(disk, file, start)?;
        let first = start.saturating_add(FRONT_LEN as u64);
        if left < count {
            return Ok(first.saturating_add(left.saturating_mul(RECORD_LEN)));
        }
        left -= count;
        start = first.saturating_add(count.saturating_mul(RECORD_LEN));
    }
}

// The head of the needle that a record of an index names. It has the record's pair and size.
pub(crate) fn fitting_head<D: Disk>(
    disk: &mut D,
    volume: u32,
    index: u32,
    row: &Record,
    number: u64,
) -> Result<CellHead, Refusal>
    ensures fits { IfOk result (λ head. head_record head ≡ row.now) }
    ensures size { IfOk result (λ head. head.size ≤ MAX_PHOTO) }
    ensures stands { D.Tells → IfOk result (λ head. HeadBytes (take 36 (drop row.now.at (D.files disk.old volume).now)) (head_of_cell head)) }
    ensures file { (file at : ℕ) → result ≡ Err (Refusal.Damaged file at) → (file ≡ volume) ⊎ (file ≡ index) }
    ensures damaged { D.Tells → (file at : ℕ) → result ≡ Err (Refusal.Damaged file at) → IsMisfitIn (λ n. (D.files disk.old n).now) volume index row.now number file at }
    ensures drawn { D.Tells → OnOk result (D.drawn disk.new volume ≤ D.drawn disk.old volume + 36) }
    ensures same { D.Tells → D.files disk.new ≡ D.files disk.old }
    ensures counted { IsCounted (D.fault_count disk.old) (D.fault_count disk.new) (IsErrOf result Refusal.Failed) }
    ensures fuses { D.fuse_count disk.new ≡ D.fuse_count disk.old }
{
    let Some(head) = head_at(disk, volume, row.at)? else {
        return Err(Refusal::Damaged {
            file: volume,
            at: row.at,
        });
    };
    if head.pair != row.pair || head.size != row.size {
        let at = record_place(disk, index, number)?;
        return Err(Refusal::Damaged { file: index, at });
    }
    Ok(head)
}
