//! What a load writes: the header, lines of replies, and how a refused opening is told.
ghost use Rattle.std.specs.Prelude.{◌≡◌, ◌⊎◌, ◌<◌, ◌≤◌, ◌++◌, length, Some, None, Err, IfSome, OnOk, OnErr, IsErrOf};
ghost use Rattle.hay_disk.specs.Counts.{Rose};
ghost use Rattle.hay_disk.specs.Streams.{Wrote, WrotePart};
ghost use Rattle.hay_reply.specs.declared.Note.{Note};
ghost use Rattle.hay_reply.specs.Fits.{FitsNote};
ghost use Rattle.hay_reply.specs.Replies as texts;
ghost use Rattle.hay_loading.specs.Lines.{Appends};
ghost use Rattle.hay_loading.specs.Stops.{note_of};

use crate::stops::Stop;
use hay_base::NoMemory;
use hay_batch::LoadOpenFault;
use hay_disk::{Failed, Sink};
use hay_needle::Settings;
use hay_open::OpenFault;
use hay_reply::{Note, header_line, note_text};
use std::alloc::Global;

/// Writes a text. Where it is empty no call is made.
pub fn write_text<K: Sink>(sink: &mut K, text: &[u8]) -> Result<(), Stop>
    ensures wrote { OnOk result (Wrote (K.written sink.old) text.now (K.written sink.new)) }
    ensures part { OnErr result (WrotePart (K.written sink.old) text.now (K.written sink.new)) }
    ensures some { OnErr result (0 < length text.now) }
    ensures stops { OnErr result (result ≡ Err Stop.Output) }
    ensures cause { OnErr result (Rose (K.fault_count sink.old) (K.fault_count sink.new)) }
    ensures count { K.fault_count sink.old ≤ K.fault_count sink.new }
    ensures appends { Appends (K.written sink.old) (K.written sink.new) }
{
    if text.is_empty() {
        return Ok(());
    }
    match sink.write(text) {
        Ok(()) => Ok(()),
        Err(Failed) => Err(Stop::Output),
    }
}

/// Writes the first line.
pub fn write_header<K: Sink>(alloc: Global, settings: &Settings, sink: &mut K) -> Result<(), Stop>
    ensures wrote { OnOk result (Wrote (K.written sink.old) (texts.header_line settings.now) (K.written sink.new)) }
    ensures part { OnErr result (WrotePart (K.written sink.old) (texts.header_line settings.now) (K.written sink.new)) }
    ensures stops { OnErr result ((result ≡ Err Stop.Output) ⊎ (result ≡ Err Stop.NoMemory)) }
    ensures cause { IsErrOf result Stop.Output → Rose (K.fault_count sink.old) (K.fault_count sink.new) }
    ensures count { K.fault_count sink.old ≤ K.fault_count sink.new }
    ensures appends { Appends (K.written sink.old) (K.written sink.new) }
{
    let mut text = Vec::new(alloc);
    header_line(alloc, settings, &mut text)?;
    write_text(sink, text.as_slice())
}

/// Adds the line of a note.
fn add_note(alloc: Global, note: &Note, text: &mut Vec<u8>) -> Result<(), NoMemory>
    ensures { OnOk result (text.new.items ≡ text.old.items ++ texts.note_line note.now) }
{
    note_text(alloc, note, text)?;
    text.push(b'\n')?;
    Ok(())
}

/// Writes the line of a note.
fn write_note<K: Sink>(alloc: Global, note: &Note, sink: &mut K) -> Result<(), Stop>
    ensures wrote { OnOk result (Wrote (K.written sink.old) (texts.note_line note.now) (K.written sink.new)) }
    ensures part { IsErrOf result Stop.Output → WrotePart (K.written sink.old) (texts.note_line note.now) (K.written sink.new) }
    ensures wanting { IsErrOf result Stop.NoMemory → sink.new ≡ sink.old }
    ensures stops { OnErr result ((result ≡ Err Stop.Output) ⊎ (result ≡ Err Stop.NoMemory)) }
    ensures cause { IsErrOf result Stop.Output → Rose (K.fault_count sink.old) (K.fault_count sink.new) }
    ensures count { K.fault_count sink.old ≤ K.fault_count sink.new }
    ensures appends { Appends (K.written sink.old) (K.written sink.new) }
{
    let mut text = Vec::new(alloc);
    add_note(alloc, note, &mut text)?;
    write_text(sink, text.as_slice())
}

/// How a refused opening is told, unless memory was wanting.
fn refusal_note(fault: LoadOpenFault) -> Option<Note>
    ensures is { result ≡ note_of fault }
    ensures fits { IfSome result FitsNote }
{
    match fault {
        LoadOpenFault::Shelf { faults } => Some(Note::OpenShelf { faults }),
        LoadOpenFault::Open { slot, fault } => match fault {
            OpenFault::Failed { faults } => Some(Note::OpenFailed { slot, faults }),
            OpenFault::Damaged { file, at } => Some(Note::OpenDamaged { slot, file, at }),
            OpenFault::NoMemory => None,
        },
        LoadOpenFault::NoMemory => None,
    }
}

/// Writes how an opening was refused, and answers why the load stops. Where memory was wanting nothing is written.
pub fn write_refusal<K: Sink>(alloc: Global, fault: LoadOpenFault, sink: &mut K) -> Stop
    ensures told { result ≡ Stop.Store → (note : Note) × (note_of fault ≡ Some note) × Wrote (K.written sink.old) (texts.note_line note) (K.written sink.new) }
    ensures part { result ≡ Stop.Output → (note : Note) × (note_of fault ≡ Some note) × WrotePart (K.written sink.old) (texts.note_line note) (K.written sink.new) }
    ensures fits { (note : Note) → note_of fault ≡ Some note → FitsNote note }
    ensures wanting { result ≡ Stop.NoMemory → sink.new ≡ sink.old }
    ensures stops { (result ≡ Stop.Output) ⊎ (result ≡ Stop.NoMemory) ⊎ (result ≡ Stop.Store) }
    ensures cause { result ≡ Stop.Output → Rose (K.fault_count sink.old) (K.fault_count sink.new) }
    ensures count { K.fault_count sink.old ≤ K.fault_count sink.new }
    ensures appends { Appends (K.written sink.old) (K.written sink.new) }
{
    let Some(note) = refusal_note(fault) else {
        return Stop::NoMemory;
    };
    match write_note(alloc, &note, sink) {
        Ok(()) => Stop::Store,
        Err(stop) => stop,
    }
}
