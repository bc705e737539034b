//! The notes behind a block.
ghost use Rattle.std.specs.Prelude.{◌≡◌, ◌<◌, ◌≤◌, ◌^◌, length, map, IfOk};
ghost use Rattle.std.specs.List.{AllZip};
ghost use Rattle.hay_legal.specs.declared.known.VolumeKnown.{VolumeKnown};
ghost use Rattle.hay_block.specs.Stores.{line_of_tag, notes_from};
ghost use Rattle.hay_shared_volume.specs.Making.{VolumeStands};

use hay_base::{Listed, NoMemory};
use hay_disk::Disk;
use hay_front::Tag;
use hay_legal::turn::LogNote;
use hay_logical::Logical;
use std::alloc::Global;

/// How many changes each volume has behind it.
pub(crate) fn fronts_of<D: Disk>(
    alloc: Global,
    volumes: &[Logical<D>],
) -> Result<Vec<u64>, NoMemory>
    ensures { IfOk result (λ fronts. AllZip (λ volume front. (known : VolumeKnown) → VolumeStands D.Tells D.files D.Piece.Tells volume known → front ≡ length known.log) volumes.now fronts.items) }
{
    let mut fronts = Vec::with_capacity(alloc, volumes.len())?;
    for volume in volumes {
        fronts.push_reserved(volume.front());
    }
    Ok(fronts)
}

// The lines of tags.
fn lines_of(alloc: Global, tags: &[Tag]) -> Result<Vec<u64>, NoMemory>
    ensures { IfOk result (λ lines. lines.items ≡ map line_of_tag tags.now) }
{
    let mut lines = Vec::with_capacity(alloc, tags.len())?;
    for tag in tags {
        lines.push_reserved(tag.line);
    }
    Ok(lines)
}

/// A note on each volume to which changes were entered, by its front before.
pub(crate) fn log_notes(
    alloc: Global,
    fronts: &[u64],
    tags: &[Vec<Tag>],
) -> Result<Vec<LogNote>, NoMemory>
    requires few { length fronts.now < 2 ^ 32 }
    requires as_many { length tags.now ≡ length fronts.now }
    ensures { IfOk result (λ notes. notes.items ≡ notes_from 0 fronts.now (map (λ own. map line_of_tag own.items) tags.now)) }
{
    let mut notes = Vec::with_capacity(alloc, tags.len())?;
    for i in 0..tags.len() {
        let lines = lines_of(alloc, tags[i].as_slice())?;
        if !lines.is_empty() {
            notes.push_reserved(LogNote {
                volume: i as u32,
                from: fronts[i],
                lines: Listed::from_vec(lines),
            });
        }
    }
    Ok(notes)
}
