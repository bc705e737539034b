//! The notes behind a block.
ghost use Rattle.std.specs.Prelude.{◌≡◌, ◌++◌, map, IfOk, OnOk};
ghost use Rattle.std.specs.List.{AllByRecursion};
ghost use Rattle.hay_reply.specs.Fits.{FitsNote, FitsRow, IsLarge};
ghost use Rattle.hay_directory.specs.State.{home_of};
ghost use Rattle.hay_cluster_block.specs.Notes.{AreWithin, entered_notes, entered_rows, note_of_log, notes_of_rows};

use crate::rows::added_rows;
use hay_base::{Listed, NoMemory};
use hay_block::{BlockNotes, Job};
use hay_directory::Directory;
use hay_disk::Disk;
use hay_legal::turn::LogNote;
use hay_reply::{LineVolume, Note};
use std::alloc::Global;

// Reads lines, which are numbers of 64 bits.
fn read_lines(lines: &[u64])
    ensures { AllByRecursion IsLarge lines.now }
{
    for line in lines {
        let _line = *line;
    }
}

// The note on the new entries of a volume.
fn noted(log: LogNote) -> Note
    ensures is { result ≡ note_of_log log }
    ensures fits { FitsNote result }
{
    let LogNote {
        volume,
        from,
        lines,
    } = log;
    read_lines(lines.as_slice());
    Note::Log {
        volume,
        from,
        lines,
    }
}

// The notes on volumes, with room for one more.
fn log_notes(alloc: Global, logs: Vec<LogNote>) -> Result<Vec<Note>, NoMemory>
    ensures are { IfOk result (λ notes. notes.items ≡ map note_of_log logs.items) }
    ensures fits { IfOk result (λ notes. AllByRecursion FitsNote notes.items) }
{
    let mut notes = Vec::with_capacity(alloc, logs.len())?;
    for log in logs {
        notes.push_reserved(noted(log));
    }
    Ok(notes)
}

// Adds the note on new rows, where there are any.
fn add_rows(notes: &mut Vec<Note>, from: u64, rows: Vec<LineVolume>) -> Result<(), NoMemory>
    requires { AllByRecursion FitsRow rows.items }
    ensures are { OnOk result (notes.new.items ≡ notes.old.items ++ notes_of_rows from rows.items) }
    ensures fits { AllByRecursion FitsNote notes.old.items → OnOk result (AllByRecursion FitsNote notes.new.items) }
{
    if !rows.is_empty() {
        notes.push(Note::Rows {
            from,
            rows: Listed::from_vec(rows),
        })?;
    }
    Ok(())
}

/// The notes behind a block of these lines, which left this Directory.
pub(crate) fn notes_of<D: Disk>(
    alloc: Global,
    directory: &Directory<D>,
    jobs: &[Vec<Job>],
    entered: BlockNotes,
) -> Result<Vec<Note>, NoMemory>
    ensures are { IfOk result (λ notes. notes.items ≡ entered_notes (home_of directory.now) jobs.now entered) }
    ensures within { IfOk result (λ notes. AreWithin directory.now.settings.volumes (entered_rows (home_of directory.now) jobs.now entered)) }
    ensures fits { IfOk result (λ notes. AllByRecursion FitsNote notes.items) }
{
    let BlockNotes { logs, rows, added } = entered;
    let added = added_rows(alloc, directory, jobs, added.as_slice())?;
    let mut notes = log_notes(alloc, logs)?;
    add_rows(&mut notes, rows, added)?;
    Ok(notes)
}
