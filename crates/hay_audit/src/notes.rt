//! The notes of a restart.

ghost use Rattle.std.specs.Prelude.{◌≡◌, ◌≢◌, ◌≤◌, ℕ, List, ◌++◌, length, drop, flat_map, IfOk, IfSome, IfNone};
ghost use Rattle.std.specs.List.{AllByRecursion as Each};
ghost use Rattle.hay_reply.specs.declared.Note.{Note as NoteOf};
ghost use Rattle.hay_reply.specs.Fits.{FitsNote, FitsRow, IsLarge, IsSmall};
ghost use Rattle.hay_reply.specs.Replies as texts;

use crate::answers::find_feed;
use crate::fits::{large, small};
use hay_base::{Listed, NoMemory};
use hay_reply::{LineVolume, Note, read_note};
use std::alloc::Global;

/// A note, and the place behind its line.
#[derive(Drop)]
struct Told {
    note: Note,
    behind: usize,
}

/// Notes, and the place behind their lines.
#[derive(Drop)]
pub(crate) struct Notes {
    pub notes: Listed<Note>,
    pub behind: usize,
}

fn fit_lines(lines: &[u64])
    ensures { Each IsLarge lines.now }
{
    for line in lines {
        large(*line);
    }
}

fn fit_row(row: LineVolume)
    ensures { FitsRow row }
{
    large(row.line);
    small(row.volume);
}

fn fit_rows(rows: &[LineVolume])
    ensures { Each FitsRow rows.now }
{
    for row in rows {
        fit_row(*row);
    }
}

fn fit_kept(volume: u32, machine: u32, line: u64)
    ensures volume { IsSmall volume }
    ensures machine { IsSmall machine }
    ensures line { IsLarge line }
{
    small(volume);
    small(machine);
    large(line);
}

/// The numbers of a note are those of its fields' types.
fn fit_note(note: &Note)
    ensures { FitsNote note.now }
{
    match note {
        Note::Kept {
            volume,
            machine,
            line,
        }
        | Note::Lost {
            volume,
            machine,
            line,
        } => fit_kept(*volume, *machine, *line),
        Note::KeptDir { line } | Note::LostDir { line } => large(*line),
        Note::Log {
            volume,
            from,
            lines,
        } => {
            small(*volume);
            large(*from);
            fit_lines(lines.as_slice());
        }
        Note::Rows { from, rows } => {
            large(*from);
            fit_rows(rows.as_slice());
        }
        Note::OpenShelf { faults } => large(*faults),
        Note::OpenFailed { slot, faults } => {
            small(*slot);
            large(*faults);
        }
        Note::OpenDamaged { slot, file, at } => {
            small(*slot);
            small(*file);
            large(*at);
        }
    }
}

/// The note at the front of a text, if one is there.
fn read_one(alloc: Global, text: &[u8]) -> Result<Option<Told>, NoMemory>
    ensures some { IfOk result (λ read. IfSome read (λ told. (told.behind ≤ length text.now) × FitsNote told.note × (texts.note_line told.note ++ drop told.behind text.now ≡ text.now))) }
    ensures none { IfOk result (λ read. IfNone read ((note : NoteOf) (rest : List ℕ) → FitsNote note → texts.note_line note ++ rest ≢ text.now)) }
{
    let Some(feed) = find_feed(text) else {
        return Ok(None);
    };
    let Some(note) = read_note(alloc, &text[..feed])? else {
        return Ok(None);
    };
    fit_note(&note);
    Ok(Some(Told {
        note,
        behind: feed + 1,
    }))
}

/// So many notes at the front of a text, if they are there.
pub(crate) fn read_notes(alloc: Global, text: &[u8], count: u128) -> Result<Option<Notes>, NoMemory>
    ensures some { IfOk result (λ read. IfSome read (λ told. (told.behind ≤ length text.now) × (length told.notes ≡ count) × Each FitsNote told.notes
        × (flat_map texts.note_line told.notes ++ drop told.behind text.now ≡ text.now))) }
    ensures none { IfOk result (λ read. IfNone read ((notes : List NoteOf) (rest : List ℕ) → length notes ≡ count → Each FitsNote notes → flat_map texts.note_line notes ++ rest ≢ text.now)) }
{
    let mut notes = Listed::new(alloc);
    let mut behind = 0;
    while (notes.len() as u128) < count {
        let Some(told) = read_one(alloc, &text[behind..])? else {
            return Ok(None);
        };
        notes.push(told.note)?;
        behind += told.behind;
    }
    Ok(Some(Notes { notes, behind }))
}
