//! What a run writes: lines of replies and notes.
ghost use Rattle.std.specs.Prelude.{◌≡◌, ◌⊎◌, ◌≤◌, List, ◌++◌, Some, None, Err, flat_map, map, IfOk, IfSome, OnOk, OnErr, IsErrOf};
ghost use Rattle.hay_disk.specs.Counts.{Rose};
ghost use Rattle.hay_disk.specs.Streams.{Wrote, WrotePart};
ghost use Rattle.hay_reply.specs.declared.Note.{Note};
ghost use Rattle.hay_reply.specs.Fits.{FitsNote};
ghost use Rattle.hay_reply.specs.Replies as texts;
ghost use Rattle.hay_legal.specs.declared.turn.LaneItem.{LaneItem};
ghost use Rattle.hay_legal.specs.Items.{InBlock};
ghost use Rattle.hay_legal.specs.Transcript.{answered_line};
ghost use Rattle.hay_run.specs.Blocks.{AreAnswered, ArePlaces, answered_text, bad_text};
ghost use Rattle.hay_run.specs.Stops.{note_of};
ghost use Rattle.hay_run.specs.Turns.{Appends};

use crate::block::BlockLine;
use crate::deal::Place;
use crate::stops::Stop;
use hay_base::NoMemory;
use hay_block::ReplyText;
use hay_cluster::ClusterFault;
use hay_cluster_block::BlockReplies;
use hay_disk::{Failed, Sink};
use hay_needle::Settings;
use hay_reply::{Note, Reply, header_line, note_text, numbered_line};
use std::alloc::Global;

/// Writes a text.
pub fn write_text<K: Sink>(sink: &mut K, text: &[u8]) -> Result<(), Stop>
    ensures wrote { OnOk result (Wrote (K.written sink.old) text.now (K.written sink.new)) }
    ensures part { OnErr result (WrotePart (K.written sink.old) text.now (K.written sink.new)) }
    ensures stops { OnErr result (result ≡ Err Stop.Output) }
    ensures cause { OnErr result (Rose (K.fault_count sink.old) (K.fault_count sink.new)) }
    ensures count { K.fault_count sink.old ≤ K.fault_count sink.new }
    ensures appends { Appends (K.written sink.old) (K.written sink.new) }
{
    match sink.write(text) {
        Ok(()) => Ok(()),
        Err(Failed) => Err(Stop::Output),
    }
}

/// Writes the first line of the transcript.
pub fn write_header<K: Sink>(alloc: Global, settings: &Settings, sink: &mut K) -> Result<(), Stop>
    ensures wrote { OnOk result (Wrote (K.written sink.old) (texts.header_line settings.now) (K.written sink.new)) }
    ensures part { OnErr result (WrotePart (K.written sink.old) (texts.header_line settings.now) (K.written sink.new)) }
    ensures stops { OnErr result ((result ≡ Err Stop.Output) ⊎ (result ≡ Err Stop.NoMemory)) }
    ensures cause { IsErrOf result Stop.Output → Rose (K.fault_count sink.old) (K.fault_count sink.new) }
    ensures count { K.fault_count sink.old ≤ K.fault_count sink.new }
    ensures appends { Appends (K.written sink.old) (K.written sink.new) }
{
    let mut text = Vec::new(alloc);
    header_line(alloc, settings, &mut text)?;
    write_text(sink, text.as_slice())
}

/// Writes the line of a reply.
pub fn write_reply<K: Sink>(
    alloc: Global,
    number: u64,
    reply: &Reply,
    sink: &mut K,
) -> Result<(), Stop>
    ensures wrote { OnOk result (Wrote (K.written sink.old) (texts.numbered_line number reply.now) (K.written sink.new)) }
    ensures part { OnErr result (WrotePart (K.written sink.old) (texts.numbered_line number reply.now) (K.written sink.new)) }
    ensures stops { OnErr result ((result ≡ Err Stop.Output) ⊎ (result ≡ Err Stop.NoMemory)) }
    ensures cause { IsErrOf result Stop.Output → Rose (K.fault_count sink.old) (K.fault_count sink.new) }
    ensures count { K.fault_count sink.old ≤ K.fault_count sink.new }
    ensures appends { Appends (K.written sink.old) (K.written sink.new) }
{
    let mut text = Vec::new(alloc);
    numbered_line(alloc, number, reply, &mut text)?;
    write_text(sink, text.as_slice())
}

/// Adds the line of a note.
fn add_note(alloc: Global, note: &Note, text: &mut Vec<u8>) -> Result<(), NoMemory>
    ensures { OnOk result (text.new.items ≡ text.old.items ++ texts.note_line note.now) }
{
    note_text(alloc, note, text)?;
    text.push(b'\n')?;
    Ok(())
}

/// Adds the lines of notes.
fn add_notes(alloc: Global, notes: &[Note], text: &mut Vec<u8>) -> Result<(), NoMemory>
    ensures { OnOk result (text.new.items ≡ text.old.items ++ flat_map texts.note_line notes.now) }
{
    for note in notes {
        add_note(alloc, note, text)?;
    }
    Ok(())
}

/// Writes the reply to a restart, and the notes behind it.
pub fn write_restarted<K: Sink>(
    alloc: Global,
    number: u64,
    rows: u64,
    notes: &[Note],
    sink: &mut K,
) -> Result<(), Stop>
    ensures wrote { OnOk result (Wrote (K.written sink.old) (texts.numbered_line number (Reply.Restarted rows) ++ flat_map texts.note_line notes.now) (K.written sink.new)) }
    ensures part { OnErr result (WrotePart (K.written sink.old) (texts.numbered_line number (Reply.Restarted rows) ++ flat_map texts.note_line notes.now) (K.written sink.new)) }
    ensures stops { OnErr result ((result ≡ Err Stop.Output) ⊎ (result ≡ Err Stop.NoMemory)) }
    ensures cause { IsErrOf result Stop.Output → Rose (K.fault_count sink.old) (K.fault_count sink.new) }
    ensures count { K.fault_count sink.old ≤ K.fault_count sink.new }
    ensures appends { Appends (K.written sink.old) (K.written sink.new) }
{
    let mut text = Vec::new(alloc);
    numbered_line(alloc, number, &Reply::Restarted { rows }, &mut text)?;
    add_notes(alloc, notes, &mut text)?;
    write_text(sink, text.as_slice())
}

/// Writes the line of a note.
fn write_note<K: Sink>(alloc: Global, note: &Note, sink: &mut K) -> Result<(), Stop>
    ensures wrote { OnOk result (Wrote (K.written sink.old) (texts.note_line note.now) (K.written sink.new)) }
    ensures part { OnErr result (WrotePart (K.written sink.old) (texts.note_line note.now) (K.written sink.new)) }
    ensures stops { OnErr result ((result ≡ Err Stop.Output) ⊎ (result ≡ Err Stop.NoMemory)) }
    ensures cause { IsErrOf result Stop.Output → Rose (K.fault_count sink.old) (K.fault_count sink.new) }
    ensures count { K.fault_count sink.old ≤ K.fault_count sink.new }
    ensures appends { Appends (K.written sink.old) (K.written sink.new) }
{
    let mut text = Vec::new(alloc);
    add_note(alloc, note, &mut text)?;
    write_text(sink, text.as_slice())
}

/// Writes the line of a reply that a lane made into text.
fn write_line<K: Sink>(
    alloc: Global,
    number: u64,
    reply: &ReplyText,
    sink: &mut K,
) -> Result<(), Stop>
    ensures wrote { OnOk result (Wrote (K.written sink.old) (texts.numbered_line number reply.now) (K.written sink.new)) }
    ensures part { OnErr result (WrotePart (K.written sink.old) (texts.numbered_line number reply.now) (K.written sink.new)) }
    ensures stops { OnErr result ((result ≡ Err Stop.Output) ⊎ (result ≡ Err Stop.NoMemory)) }
    ensures cause { IsErrOf result Stop.Output → Rose (K.fault_count sink.old) (K.fault_count sink.new) }
    ensures count { K.fault_count sink.old ≤ K.fault_count sink.new }
    ensures appends { Appends (K.written sink.old) (K.written sink.new) }
{
    let mut text = Vec::new(alloc);
    reply.numbered_line(alloc, number, &mut text)?;
    write_text(sink, text.as_slice())
}

/// Writes the replies to the lines of a block, which stand at these places, in the order of the lines.
fn write_replies<K: Sink>(
    alloc: Global,
    places: &[Place],
    replies: &[Vec<ReplyText>],
    sink: &mut K,
) -> Result<(), Stop>
    requires { (lines : List InBlock) × (items : List LaneItem) × ArePlaces lines places.now × AreAnswered lines (map (λ own. own.items) replies.now) items }
    ensures wrote { (lines : List InBlock) (items : List LaneItem) → ArePlaces lines places.now → AreAnswered lines (map (λ own. own.items) replies.now) items →
        OnOk result (Wrote (K.written sink.old) (flat_map answered_line items) (K.written sink.new)) }
    ensures part { (lines : List InBlock) (items : List LaneItem) → ArePlaces lines places.now → AreAnswered lines (map (λ own. own.items) replies.now) items →
        OnErr result (WrotePart (K.written sink.old) (flat_map answered_line items) (K.written sink.new)) }
    ensures stops { OnErr result ((result ≡ Err Stop.Output) ⊎ (result ≡ Err Stop.NoMemory)) }
    ensures cause { IsErrOf result Stop.Output → Rose (K.fault_count sink.old) (K.fault_count sink.new) }
    ensures count { K.fault_count sink.old ≤ K.fault_count sink.new }
    ensures appends { Appends (K.written sink.old) (K.written sink.new) }
{
    for place in places {
        let own = replies[place.lane as usize].as_slice();
        write_line(alloc, place.line, &own[place.nth], sink)?;
    }
    Ok(())
}

// Writes that a line is bad.
fn write_bad<K: Sink>(alloc: Global, number: u64, sink: &mut K) -> Result<(), Stop>
    ensures wrote { OnOk result (Wrote (K.written sink.old) (texts.numbered_line number Reply.BadLine) (K.written sink.new)) }
    ensures part { OnErr result (WrotePart (K.written sink.old) (texts.numbered_line number Reply.BadLine) (K.written sink.new)) }
    ensures stops { OnErr result ((result ≡ Err Stop.Output) ⊎ (result ≡ Err Stop.NoMemory)) }
    ensures cause { IsErrOf result Stop.Output → Rose (K.fault_count sink.old) (K.fault_count sink.new) }
    ensures count { K.fault_count sink.old ≤ K.fault_count sink.new }
    ensures appends { Appends (K.written sink.old) (K.written sink.new) }
{
    write_reply(alloc, number, &Reply::BadLine, sink)
}

/// Writes that each of these lines of a block is bad.
pub fn write_bad_lines<K: Sink>(
    alloc: Global,
    lines: &[BlockLine],
    sink: &mut K,
) -> Result<(), Stop>
    ensures wrote { OnOk result (Wrote (K.written sink.old) (flat_map bad_text lines.now) (K.written sink.new)) }
    ensures part { OnErr result (WrotePart (K.written sink.old) (flat_map bad_text lines.now) (K.written sink.new)) }
    ensures stops { OnErr result ((result ≡ Err Stop.Output) ⊎ (result ≡ Err Stop.NoMemory)) }
    ensures cause { IsErrOf result Stop.Output → Rose (K.fault_count sink.old) (K.fault_count sink.new) }
    ensures count { K.fault_count sink.old ≤ K.fault_count sink.new }
    ensures appends { Appends (K.written sink.old) (K.written sink.new) }
{
    for line in lines {
        write_bad(alloc, line.line, sink)?;
    }
    Ok(())
}

/// Writes the lines of notes.
fn write_notes<K: Sink>(alloc: Global, notes: &[Note], sink: &mut K) -> Result<(), Stop>
    ensures wrote { OnOk result (Wrote (K.written sink.old) (flat_map texts.note_line notes.now) (K.written sink.new)) }
    ensures part { OnErr result (WrotePart (K.written sink.old) (flat_map texts.note_line notes.now) (K.written sink.new)) }
    ensures stops { OnErr result ((result ≡ Err Stop.Output) ⊎ (result ≡ Err Stop.NoMemory)) }
    ensures cause { IsErrOf result Stop.Output → Rose (K.fault_count sink.old) (K.fault_count sink.new) }
    ensures count { K.fault_count sink.old ≤ K.fault_count sink.new }
    ensures appends { Appends (K.written sink.old) (K.written sink.new) }
{
    for note in notes {
        write_note(alloc, note, sink)?;
    }
    Ok(())
}

/// Writes what a block was answered: the replies to its lines, which stand at these places, in the order of the lines, and the notes
/// behind them. Where the notes wanted memory the replies are written, and the run stops.
pub fn write_answers<K: Sink>(
    alloc: Global,
    places: &[Place],
    answers: &BlockReplies,
    sink: &mut K,
) -> Result<(), Stop>
    requires { (lines : List InBlock) × (items : List LaneItem) × ArePlaces lines places.now × AreAnswered lines (map (λ own. own.items) answers.now.replies.items) items }
    ensures wrote { (lines : List InBlock) (items : List LaneItem) (notes : List Note) → ArePlaces lines places.now →
        AreAnswered lines (map (λ own. own.items) answers.now.replies.items) items → IfOk answers.now.notes (λ own. own.items ≡ notes) →
        OnOk result (Wrote (K.written sink.old) (answered_text items notes) (K.written sink.new)) }
    ensures part { (lines : List InBlock) (items : List LaneItem) (notes : List Note) → ArePlaces lines places.now →
        AreAnswered lines (map (λ own. own.items) answers.now.replies.items) items → IfOk answers.now.notes (λ own. own.items ≡ notes) →
        OnErr result (WrotePart (K.written sink.old) (answered_text items notes) (K.written sink.new)) }
    ensures stops { OnErr result ((result ≡ Err Stop.Output) ⊎ (result ≡ Err Stop.NoMemory)) }
    ensures cause { IsErrOf result Stop.Output → Rose (K.fault_count sink.old) (K.fault_count sink.new) }
    ensures count { K.fault_count sink.old ≤ K.fault_count sink.new }
    ensures appends { Appends (K.written sink.old) (K.written sink.new) }
{
    write_replies(alloc, places, answers.replies.as_slice(), sink)?;
    match &answers.notes {
        Ok(notes) => write_notes(alloc, notes.as_slice(), sink),
        Err(NoMemory) => Err(Stop::NoMemory),
    }
}

/// How a refused opening is told, unless memory was wanting.
fn refusal_note(fault: ClusterFault) -> Option<Note>
    ensures is { result ≡ note_of fault }
    ensures fits { IfSome result FitsNote }
{
    match fault {
        ClusterFault::NoMemory => None,
        ClusterFault::Shelf { faults } => Some(Note::OpenShelf { faults }),
        ClusterFault::Failed { slot, faults } => Some(Note::OpenFailed { slot, faults }),
        ClusterFault::Damaged { slot, file, at } => Some(Note::OpenDamaged { slot, file, at }),
    }
}

/// Writes how an opening was refused, and answers why the run stops. Where memory was wanting nothing is written.
pub fn write_refusal<K: Sink>(alloc: Global, fault: ClusterFault, sink: &mut K) -> Stop
    ensures told { result ≡ Stop.Store → (note : Note) × (note_of fault ≡ Some note) × Wrote (K.written sink.old) (texts.note_line note) (K.written sink.new) }
    ensures part { (note : Note) → note_of fault ≡ Some note → (result ≡ Stop.Store) ⊎ WrotePart (K.written sink.old) (texts.note_line note) (K.written sink.new) }
    ensures fits { (note : Note) → note_of fault ≡ Some note → FitsNote note }
    ensures wanting { note_of fault ≡ None → (result ≡ Stop.NoMemory) × (sink.new ≡ sink.old) }
    ensures stops { (result ≡ Stop.Output) ⊎ (result ≡ Stop.NoMemory) ⊎ (result ≡ Stop.Store) }
    ensures cause { result ≡ Stop.Output → Rose (K.fault_count sink.old) (K.fault_count sink.new) }
    ensures count { K.fault_count sink.old ≤ K.fault_count sink.new }
    ensures appends { Appends (K.written sink.old) (K.written sink.new) }
{
    let Some(note) = refusal_note(fault) else {
        return Stop::NoMemory;
    };
    match write_note(alloc, &note, sink) {
        Ok(()) => Stop::Store,
        Err(stop) => stop,
    }
}
