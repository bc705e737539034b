//! What an opening tells.
ghost use Rattle.std.specs.Prelude.{◌≡◌, IfOk};
ghost use Rattle.std.specs.List.{AllByRecursion};
ghost use Rattle.hay_reply.specs.Fits.{FitsNote};
ghost use Rattle.hay_directory.specs.Homes.{home_among};
ghost use Rattle.hay_directory.specs.Notes.{notes_by};

use crate::homes::Homes;
use crate::mode::Unsure;
use hay_base::{Listed, NoMemory};
use hay_reply::Note;
use std::alloc::Global;

/// The note of a row that was pending, if there was one. It was kept where its pair has a home now.
pub fn notes_of(
    alloc: Global,
    unsure: Option<Unsure>,
    homes: &Homes,
) -> Result<Listed<Note>, NoMemory>
    ensures are { IfOk result (λ notes. notes ≡ notes_by unsure (home_among homes.now.volumes)) }
    ensures fits { IfOk result (AllByRecursion FitsNote) }
{
    let Some(Unsure { tag, row }) = unsure else {
        return Ok(Listed::new(alloc));
    };
    let line = tag.line;
    let note = if homes.get(row.pair).is_some() {
        Note::KeptDir { line }
    } else {
        Note::LostDir { line }
    };
    Listed::one(alloc, note)
}
