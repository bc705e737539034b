//! Lists of groups.
ghost use Rattle.std.specs.Prelude.{◌≡◌, IfOk};
ghost use Rattle.hay_reply.specs.Reading as reading;

use crate::words::{is, next_part, read_large, read_place, read_small};
use crate::{Cause, ClosedBy, LineVolume, Passed, Refused};
use hay_base::{Listed, NoMemory};
use std::alloc::Global;

/// A group that a word writes.
pub trait Written: Sized + Drop {
    ghost use Rattle.std.specs.Prelude.{List, ℕ, Option};

    ghost of_word: { List ℕ → Option Self };

    fn read(word: &[u8]) -> Option<Self>
        ensures said { result ≡ of_word word.now };
}

impl Written for u64 {
    ghost of_word = { reading.large };

    fn read(word: &[u8]) -> Option<u64> {
        read_large(word)
    }
}

impl Written for ClosedBy {
    ghost of_word = { reading.closed_of };

    fn read(word: &[u8]) -> Option<ClosedBy> {
        read_place(word)
    }
}

impl Written for LineVolume {
    ghost of_word = { reading.row_of };

    fn read(word: &[u8]) -> Option<LineVolume> {
        let (line, left) = next_part(Some(word), b':')?;
        let (volume, _) = next_part(left, b':')?;
        let line = read_large(line)?;
        let volume = read_small(volume)?;
        Some(LineVolume { line, volume })
    }
}

impl Written for Refused {
    ghost of_word = { reading.refused_of };

    fn read(word: &[u8]) -> Option<Refused> {
        let (volume, left) = next_part(Some(word), b':')?;
        let (machine, left) = next_part(left, b':')?;
        let (end, left) = next_part(left, b':')?;
        let Some((need, _)) = next_part(left, b':') else {
            let volume = read_small(volume)?;
            let machine = read_small(machine)?;
            return Some(Refused::Closed { volume, machine });
        };
        let volume = read_small(volume)?;
        let machine = read_small(machine)?;
        let end = read_large(end)?;
        let need = read_large(need)?;
        Some(Refused::NoRoom {
            volume,
            machine,
            end,
            need,
        })
    }
}

fn cause_of(kind: &[u8], number: u64) -> Cause
    ensures { result ≡ reading.cause_of kind.now number }
{
    if is(kind, "arm") {
        Cause::Arm { faults: number }
    } else if is(kind, "disk") {
        Cause::Disk { faults: number }
    } else {
        Cause::Damage { at: number }
    }
}

impl Written for Passed {
    ghost of_word = { reading.passed_of };

    fn read(word: &[u8]) -> Option<Passed> {
        let (machine, left) = next_part(Some(word), b':')?;
        let (kind, left) = next_part(left, b':')?;
        let (number, _) = next_part(left, b':')?;
        let machine = read_small(machine)?;
        let cause = cause_of(kind, read_large(number)?);
        Some(Passed { machine, cause })
    }
}

/// The groups of all words that are left, if each is one.
pub fn read_groups<G: Written>(
    alloc: Global,
    left: Option<&[u8]>,
) -> Result<Option<Listed<G>>, NoMemory>
    ensures { IfOk result (λ read. read ≡ reading.all_of G.of_word (reading.left_parts 32 left.entry)) }
{
    let mut groups = Listed::new(alloc);
    let mut left = left;
    while let Some((word, behind)) = next_part(left, b' ') {
        let Some(group) = G::read(word) else {
            return Ok(None);
        };
        groups.push(group)?;
        left = behind;
    }
    Ok(Some(groups))
}
