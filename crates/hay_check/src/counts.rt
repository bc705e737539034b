//! Counting cells.

ghost use Rattle.std.specs.Prelude.{◌≡◌, ◌≤◌, List, length, map, count_by, IfOk};
ghost use Rattle.hay_needle.specs.declared.needle.Cell.{Cell};
ghost use Rattle.hay_needle.specs.declared.needle.CellHead.{CellHead};
ghost use Rattle.hay_volume.specs.Cells.{cell_head};
ghost use Rattle.hay_check.specs.Verdicts as verdicts;

use hay_base::NoMemory;
use hay_needle::{CellHead, Version};
use std::alloc::Global;
use std::collections::BTreeSet;

/// How many pairs have a photo: those whose last cell is not deleted.
pub(crate) fn live_count(alloc: Global, heads: &[CellHead]) -> Result<usize, NoMemory>
    ensures is { (cells : List Cell) → heads.now ≡ map cell_head cells → IfOk result (λ count. count ≡ verdicts.live_count cells) }
    ensures most { IfOk result (λ count. count ≤ length heads.now) }
{
    let mut live = BTreeSet::new(alloc);
    for head in heads {
        if head.deleted {
            live.remove(&head.pair);
        } else {
            live.insert(head.pair)?;
        }
    }
    Ok(live.len())
}

/// How many cells are of version 1.
pub(crate) fn old_count(heads: &[CellHead]) -> usize
    ensures is { result ≡ count_by (λ (head : CellHead). verdicts.is_old head.version) heads.now }
    ensures most { result ≤ length heads.now }
{
    let mut old = 0;
    for head in heads {
        if head.version == Version::One {
            old += 1;
        }
    }
    old
}
