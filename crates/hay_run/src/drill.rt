//! What a drill tells of its run: the summary of a transcript, or its last line.
ghost use Rattle.std.specs.Prelude.{◌≡◌, ◌⊎◌, ◌≤◌, ◌<◌, ◌^◌, ◌∷◌, [], ℕ, List, ◌++◌, length, flat_map, Err, IfOk, IfSome, IfNone, OnOk, OnErr, IsErrOf, codes, decimal, position};
ghost use Rattle.std.specs.List.{AllByRecursion};
ghost use Rattle.hay_disk.specs.Counts.{Rose};
ghost use Rattle.hay_disk.specs.Streams.{Wrote, WrotePart};
ghost use Rattle.hay_needle.specs.declared.settings.Settings.{Settings};
ghost use Rattle.hay_reply.specs.declared.Note.{Note as NoteOf};
ghost use Rattle.hex.specs.Hex.{IsBytes};
ghost use Rattle.hay_reply.specs.Fits.{FitsReply, IsLarge, IsSmall};
ghost use Rattle.hay_reply.specs.Reading.{is_mark};
ghost use Rattle.hay_reply.specs.Replies as texts;
ghost use Rattle.hay_legal.specs.declared.turn.Turn.{Turn};
ghost use Rattle.hay_legal.specs.Transcript.{transcript_text};
ghost use Rattle.hay_drill.specs.Summary as sums;
ghost use Rattle.hay_run.specs.Drills as drills;
ghost use Rattle.hay_run.specs.Told as lines;
ghost use Rattle.hay_run.specs.Told.{Told, FitsTold, IsMeasured, IsOneLine};
ghost use Rattle.hay_run.specs.Turns.{Appends, FitsAnswers};

use crate::stops::Stop;
use crate::writing::write_text;
use hay_base::NoMemory;
use hay_disk::Sink;
use hay_drill::{Summary, summary_text};
use hay_reply::{Reply, read_note, read_reply};
use std::alloc::Global;

/// What lines of a transcript sum up to, and the rows that the last restart among them told.
#[derive(Clone, Copy)]
struct Tally {
    summary: Summary,
    rows: u64,
}

/// A number of a summary is below this.
const LIMIT: u128 = 18_446_744_073_709_551_616;

/// All numbers of a summary together.
fn total_of(summary: &Summary) -> u128
    ensures is { result ≡ sums.total summary.now }
    ensures below { result < 2 ^ 68 }
{
    u128::from(summary.stored)
        + u128::from(summary.deleted)
        + u128::from(summary.photos)
        + u128::from(summary.photo_bytes)
        + u128::from(summary.gone)
        + u128::from(summary.flushed)
        + u128::from(summary.compacted)
        + u128::from(summary.rows)
        + u128::from(summary.other)
}

/// A reply adds no more.
fn most_of(reply: &Reply) -> u128
    ensures most { sums.total (sums.of_reply reply.now) ≤ result }
    ensures below { result < 2 ^ 65 }
{
    match reply {
        Reply::Photo { photo, .. } => photo.len() as u128 + 1,
        _ => 1,
    }
}

fn small(_number: u32)
    ensures { IsSmall _number }
{}

fn large(_number: u64)
    ensures { IsLarge _number }
{}

fn bytes(_bytes: &[u8])
    ensures { IsBytes _bytes.now }
{}

/// What the types of its numbers say of a photo, and of the reply to a restart.
fn fit_measured(reply: &Reply)
    ensures { IsMeasured reply.now → FitsReply reply.now }
{
    match reply {
        Reply::Photo {
            volume,
            machine,
            front,
            rows,
            photo,
        } => {
            small(*volume);
            small(*machine);
            large(*front);
            large(*rows);
            bytes(photo.as_slice());
            large(photo.len() as u64);
        }
        Reply::Restarted { rows } => large(*rows),
        _ => {}
    }
}

/// Counts a reply. A number that gets too large is want of memory.
fn count_reply(reply: &Reply, tally: &mut Tally) -> Result<(), NoMemory>
    ensures { (line : ℕ) → OnOk result (tally.new ≡ lines.counted tally.old (Told.Replied line reply.now)) }
{
    if total_of(&tally.summary) + most_of(reply) >= LIMIT {
        return Err(NoMemory);
    }
    tally.summary.count(reply);
    if let Reply::Restarted { rows } = reply {
        tally.rows = *rows;
    }
    Ok(())
}

fn count_note(alloc: Global, text: &[u8], tally: &mut Tally) -> Result<(), NoMemory>
    ensures { (note : NoteOf) → FitsTold (Told.Noted note) → text.now ≡ texts.note_text note → OnOk result (tally.new ≡ lines.counted tally.old (Told.Noted note)) }
{
    let Some(note) = read_note(alloc, text)? else {
        return Ok(());
    };
    if total_of(&tally.summary) + 1 >= LIMIT {
        return Err(NoMemory);
    }
    tally.summary.count_note(&note);
    Ok(())
}

/// The place of the first byte that is no digit.
fn find_other(line: &[u8]) -> Option<usize>
    ensures { result ≡ position lines.is_other line.now }
{
    line.iter().position(|byte| !byte.is_ascii_digit())
}

/// What stands behind a line's number, if it has one.
fn behind_number(line: &[u8]) -> Option<&[u8]>
    ensures number { (n : ℕ) (text : List ℕ) → line.now ≡ decimal n ++ codes " " ++ text → IfSome result (λ behind. behind.now ≡ text) }
    ensures found { (n : ℕ) (text : List ℕ) → line.now ≡ decimal n ++ codes " " ++ text → IfNone result ⊥ }
    ensures note { (note : NoteOf) → line.now ≡ texts.note_text note → IfSome result (λ behind. ⊥) }
{
    match find_other(line) {
        Some(at) => {
            if at == 0 {
                return None;
            }
            Some(&line[at + 1..])
        }
        None => None,
    }
}

/// Counts a line, which stands here without its line feed.
fn count_line(alloc: Global, line: &[u8], tally: &mut Tally) -> Result<(), NoMemory>
    ensures { (told : Told) → FitsTold told → line.now ++ 10 ∷ [] ≡ lines.told_line told → OnOk result (tally.new ≡ lines.counted tally.old told) }
{
    let Some(text) = behind_number(line) else {
        return count_note(alloc, line, tally);
    };
    match read_reply(alloc, text)? {
        Some(reply) => {
            fit_measured(&reply);
            count_reply(&reply, tally)
        }
        None => Ok(()),
    }
}

/// The place of the first line feed.
fn find_feed(text: &[u8]) -> Option<usize>
    ensures { result ≡ position (is_mark 10) text.now }
{
    text.iter().position(|byte| *byte == b'\n')
}

/// The first line of a text, without its line feed, and what stands behind it.
fn first_line(text: &[u8]) -> Option<(&[u8], &[u8])>
    ensures some { IfSome result (λ cut. IsOneLine cut.0.now × (cut.0.now ++ 10 ∷ cut.1.now ≡ text.now)) }
    ensures none { IfNone result (IsOneLine text.now) }
{
    match find_feed(text) {
        Some(at) => Some((&text[..at], &text[at + 1..])),
        None => None,
    }
}

/// Counts the lines of a text.
fn count_lines(alloc: Global, text: &[u8]) -> Result<Tally, NoMemory>
    ensures { (told : List Told) → AllByRecursion FitsTold told → text.now ≡ flat_map lines.told_line told → IfOk result (λ tally. tally ≡ lines.counted_all lines.no_tally told) }
{
    let mut tally = Tally {
        summary: Summary::new(),
        rows: 0,
    };
    let mut left = text;
    while let Some((line, behind)) = first_line(left) {
        count_line(alloc, line, &mut tally)?;
        left = behind;
    }
    Ok(tally)
}

/// What stands behind the first line of a text.
fn behind_first(text: &[u8]) -> &[u8]
    ensures { (line behind : List ℕ) → IsOneLine line → text.now ≡ line ++ 10 ∷ behind → result.now ≡ behind }
{
    match first_line(text) {
        Some((_, behind)) => behind,
        None => text,
    }
}

/// The summary of a transcript, whose first line is the header.
fn summary_of(alloc: Global, transcript: &[u8]) -> Result<Summary, NoMemory>
    ensures { (settings : Settings) (turns : List Turn) → AllByRecursion FitsAnswers turns → transcript.now ≡ transcript_text settings turns
        → IfOk result (λ summary. summary ≡ drills.summary_of turns) }
{
    let mut tally = count_lines(alloc, behind_first(transcript))?;
    tally.summary.rows = tally.rows;
    Ok(tally.summary)
}

/// Writes the summary of a transcript.
pub fn write_summary<K: Sink>(
    alloc: Global,
    count: u32,
    first: u64,
    transcript: &[u8],
    sink: &mut K,
) -> Result<(), Stop>
    ensures wrote { (settings : Settings) (turns : List Turn) → AllByRecursion FitsAnswers turns → transcript.now ≡ transcript_text settings turns →
        OnOk result (Wrote (K.written sink.old) (sums.summary_text count first (drills.summary_of turns)) (K.written sink.new)) }
    ensures part { (settings : Settings) (turns : List Turn) → AllByRecursion FitsAnswers turns → transcript.now ≡ transcript_text settings turns →
        IsErrOf result Stop.Output → WrotePart (K.written sink.old) (sums.summary_text count first (drills.summary_of turns)) (K.written sink.new) }
    ensures none { IsErrOf result Stop.NoMemory → K.written sink.new ≡ K.written sink.old }
    ensures stops { OnErr result ((result ≡ Err Stop.Output) ⊎ (result ≡ Err Stop.NoMemory)) }
    ensures cause { IsErrOf result Stop.Output → Rose (K.fault_count sink.old) (K.fault_count sink.new) }
    ensures count { K.fault_count sink.old ≤ K.fault_count sink.new }
    ensures appends { Appends (K.written sink.old) (K.written sink.new) }
{
    let summary = summary_of(alloc, transcript)?;
    let mut text = Vec::new(alloc);
    summary_text(alloc, count, first, &summary, &mut text)?;
    write_text(sink, text.as_slice())
}

/// The last line of a text, with its line feed.
fn last_line(text: &[u8]) -> &[u8]
    ensures { (front line : List ℕ) → IsOneLine line → text.now ≡ front ++ line ++ 10 ∷ [] → (front ≡ []) ⊎ ((before : List ℕ) × (front ≡ before ++ 10 ∷ [])) → result.now ≡ line ++ 10 ∷ [] }
{
    let mut last = text;
    let mut left = text;
    while let Some((_, behind)) = first_line(left) {
        last = left;
        left = behind;
    }
    last
}

/// Writes the last line of a transcript, and answers why the drill stops.
fn write_last<K: Sink>(transcript: &[u8], sink: &mut K) -> Stop
    ensures told { (front line : List ℕ) → IsOneLine line → transcript.now ≡ front ++ line ++ 10 ∷ [] → (front ≡ []) ⊎ ((before : List ℕ) × (front ≡ before ++ 10 ∷ [])) →
        ((result ≡ Stop.Store) × Wrote (K.written sink.old) (line ++ 10 ∷ []) (K.written sink.new))
        ⊎ ((result ≡ Stop.Output) × WrotePart (K.written sink.old) (line ++ 10 ∷ []) (K.written sink.new)) }
    ensures stops { (result ≡ Stop.Store) ⊎ (result ≡ Stop.Output) }
    ensures cause { result ≡ Stop.Output → Rose (K.fault_count sink.old) (K.fault_count sink.new) }
    ensures count { K.fault_count sink.old ≤ K.fault_count sink.new }
    ensures appends { Appends (K.written sink.old) (K.written sink.new) }
{
    match write_text(sink, last_line(transcript)) {
        Ok(()) => Stop::Store,
        Err(stop) => stop,
    }
}

/// Tells of a run that stopped so, where its transcript ends with the line that tells why its store was not opened, and answers why the
/// drill stops. The script of a drill is in memory, and no longer than one may be: every other stop is for want of memory.
pub fn tell_stop<K: Sink>(stop: Stop, transcript: &[u8], sink: &mut K) -> Stop
    ensures told { ((stop ≡ Stop.Store) × ((front line : List ℕ) → IsOneLine line → transcript.now ≡ front ++ line ++ 10 ∷ [] → (front ≡ []) ⊎ ((before : List ℕ) × (front ≡ before ++ 10 ∷ [])) →
        ((result ≡ Stop.Store) × Wrote (K.written sink.old) (line ++ 10 ∷ []) (K.written sink.new))
        ⊎ ((result ≡ Stop.Output) × WrotePart (K.written sink.old) (line ++ 10 ∷ []) (K.written sink.new))))
        ⊎ ((result ≡ Stop.NoMemory) × (K.written sink.new ≡ K.written sink.old) × (stop ≡ Stop.Store → ⊥)) }
    ensures stops { ((result ≡ Stop.Store) ⊎ (result ≡ Stop.Output)) ⊎ (result ≡ Stop.NoMemory) }
    ensures cause { result ≡ Stop.Output → Rose (K.fault_count sink.old) (K.fault_count sink.new) }
    ensures count { K.fault_count sink.old ≤ K.fault_count sink.new }
    ensures appends { Appends (K.written sink.old) (K.written sink.new) }
{
    match stop {
        Stop::Store => write_last(transcript, sink),
        Stop::Output | Stop::Input | Stop::NoMemory | Stop::TooLong => Stop::NoMemory,
    }
}
