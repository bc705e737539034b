//! The texts of replies and notes.
ghost use Rattle.std.specs.Prelude.{◌≡◌, ◌++◌, ◌==◌, OnOk, OnErr, string_bytes};
ghost use Rattle.std.specs.List.{list_all};
ghost use Rattle.hay_reply.specs.Replies as texts;

use crate::digits::write_digits;
use crate::groups::write_groups;
use crate::phrases::{
    write_at, write_one, write_place, write_sight, write_three, write_two, write_word,
};
use crate::{Note, Reply};
use hay_base::NoMemory;
use hay_needle::Settings;
use hay_url::{cookie_text, url_text};
use std::alloc::Global;

/// Adds a text, which becomes all of what is written to where that was empty. `NoMemory` adds nothing.
fn add(text: String, out: &mut Vec<u8>) -> Result<(), NoMemory>
    ensures ok { OnOk result (out.new.items ≡ out.old.items ++ string_bytes text) }
    ensures err { OnErr result (out.new.items ≡ out.old.items) }
{
    if out.is_empty() {
        *out = text.into_bytes();
    } else {
        out.extend_from_slice(text.as_bytes())?;
    }
    Ok(())
}

/// Adds the text of a reply, without its line's number. `NoMemory` adds nothing.
pub fn reply_text(alloc: Global, reply: &Reply, out: &mut Vec<u8>) -> Result<(), NoMemory>
    ensures ok { OnOk result (out.new.items ≡ out.old.items ++ texts.reply_text reply.now) }
    ensures err { OnErr result (out.new.items ≡ out.old.items) }
{
    let mut text = String::new(alloc);
    write_reply(alloc, reply, &mut text)?;
    add(text, out)
}

/// Adds the text of a note, without its line feed. `NoMemory` adds nothing.
pub fn note_text(alloc: Global, note: &Note, out: &mut Vec<u8>) -> Result<(), NoMemory>
    ensures ok { OnOk result (out.new.items ≡ out.old.items ++ texts.note_text note.now) }
    ensures err { OnErr result (out.new.items ≡ out.old.items) }
{
    let mut text = String::new(alloc);
    write_note(note, &mut text)?;
    add(text, out)
}

/// Adds a line of the transcript: the number of the script's line, and its reply. `NoMemory` adds nothing.
pub fn numbered_line(
    alloc: Global,
    line: u64,
    reply: &Reply,
    out: &mut Vec<u8>,
) -> Result<(), NoMemory>
    ensures ok { OnOk result (out.new.items ≡ out.old.items ++ texts.numbered_line line reply.now) }
    ensures err { OnErr result (out.new.items ≡ out.old.items) }
{
    let mut text = String::new(alloc);
    write!(text, "{line} ")?;
    write_reply(alloc, reply, &mut text)?;
    writeln!(text)?;
    add(text, out)
}

/// Adds the first line of the transcript. `NoMemory` adds nothing.
pub fn header_line(alloc: Global, settings: &Settings, out: &mut Vec<u8>) -> Result<(), NoMemory>
    ensures ok { OnOk result (out.new.items ≡ out.old.items ++ texts.header_line settings.now) }
    ensures err { OnErr result (out.new.items ≡ out.old.items) }
{
    let Settings {
        machines,
        volumes,
        replicas,
        capacity,
        secret: _,
    } = settings;
    let mut text = String::new(alloc);
    writeln!(text, "haystack {machines} {volumes} {replicas} {capacity}")?;
    add(text, out)
}

fn write_reply(alloc: Global, reply: &Reply, out: &mut String) -> Result<(), NoMemory>
    ensures { OnOk result (string_bytes out.new ≡ string_bytes out.old ++ texts.reply_text reply.now) }
{
    match reply {
        Reply::Stored {
            volume,
            position,
            rows,
            cookie,
        } => {
            write_three("stored", *volume, *position, *rows, out)?;
            out.push_str(" ")?;
            cookie_text(alloc, *cookie, out)
        }
        Reply::Deleted {
            volume,
            position,
            rows,
        } => write_three("deleted", *volume, *position, *rows, out),
        Reply::Photo {
            volume,
            machine,
            front,
            rows,
            photo,
        } => {
            write_sight("photo", *volume, *machine, *front, *rows, out)?;
            out.push_str(" ")?;
            write_data(alloc, photo.as_slice(), out)
        }
        Reply::Gone {
            volume,
            machine,
            front,
            rows,
        } => write_sight("gone", *volume, *machine, *front, *rows, out),
        Reply::Absent {
            volume,
            front,
            rows,
        } => write_three("gone", *volume, *front, *rows, out),
        Reply::WrongCookie {
            volume,
            machine,
            front,
            rows,
        } => write_sight("wrong cookie", *volume, *machine, *front, *rows, out),
        Reply::Unknown { rows } => write_one("unknown", *rows, out),
        Reply::Moved { volume, rows } => write_two("moved", *volume, *rows, out),
        Reply::Url { rows, url } => {
            write_one("url", *rows, out)?;
            out.push_str(" ")?;
            url_text(alloc, url, out)
        }
        Reply::Full { tries } => {
            out.push_str("full")?;
            write_groups(tries, out)
        }
        Reply::ReadOnly { tries } => {
            out.push_str("readonly")?;
            write_groups(tries, out)
        }
        Reply::ReadOnlyDir => write_word("readonly dir", out),
        Reply::FailedDir { faults } => write_one("failed dir", *faults, out),
        Reply::Unreadable {
            volume,
            front,
            rows,
            causes,
        } => {
            write_three("unreadable", *volume, *front, *rows, out)?;
            write_groups(causes, out)
        }
        Reply::Drained { machine } => write_one("drained", u64::from(*machine), out),
        Reply::Undrained { machine } => write_one("undrained", u64::from(*machine), out),
        Reply::FusedDir { calls } => write_one("fused dir", u64::from(*calls), out),
        Reply::Nowhere => write_word("nowhere", out),
        Reply::Restarted { rows } => write_one("restarted", *rows, out),
        Reply::BadLine => write_word("bad line", out),
        Reply::NoMem => write_word("nomem", out),
        Reply::Failed { .. }
        | Reply::Damaged { .. }
        | Reply::Flushed { .. }
        | Reply::Begun { .. }
        | Reply::Stepped { .. }
        | Reply::Compacted { .. }
        | Reply::Busy { .. }
        | Reply::Idle { .. }
        | Reply::Worn { .. }
        | Reply::Fused { .. } => write_of_replica(reply, out),
    }
}

/// Adds the text of a reply that names a replica, as its volume and its machine.
fn write_of_replica(reply: &Reply, out: &mut String) -> Result<(), NoMemory>
    requires { texts.NamesReplica reply.now }
    ensures { OnOk result (string_bytes out.new ≡ string_bytes out.old ++ texts.reply_text reply.now) }
{
    match reply {
        Reply::Failed {
            volume,
            machine,
            faults,
        } => write_at("failed", *volume, *machine, *faults, out),
        Reply::Damaged {
            volume,
            machine,
            at,
        } => write_at("damaged", *volume, *machine, *at, out),
        Reply::Flushed {
            volume,
            machine,
            records,
        } => write_at("flushed", *volume, *machine, *records, out),
        Reply::Begun {
            volume,
            machine,
            generation,
        } => write_at("begun", *volume, *machine, *generation, out),
        Reply::Stepped {
            volume,
            machine,
            cells,
        } => write_at("stepped", *volume, *machine, *cells, out),
        Reply::Compacted {
            volume,
            machine,
            generation,
        } => write_at("compacted", *volume, *machine, *generation, out),
        Reply::Busy {
            volume,
            machine,
            generation,
        } => write_at("busy", *volume, *machine, *generation, out),
        Reply::Fused {
            volume,
            machine,
            calls,
        } => write_at("fused", *volume, *machine, u64::from(*calls), out),
        Reply::Idle { volume, machine } => write_place("idle", *volume, *machine, out),
        Reply::Worn { volume, machine } => write_place("worn", *volume, *machine, out),
        _ => unreachable!(),
    }
}

fn write_note(note: &Note, out: &mut String) -> Result<(), NoMemory>
    ensures { OnOk result (string_bytes out.new ≡ string_bytes out.old ++ texts.note_text note.now) }
{
    match note {
        Note::Kept {
            volume,
            machine,
            line,
        } => write_at("kept", *volume, *machine, *line, out),
        Note::Lost {
            volume,
            machine,
            line,
        } => write_at("lost", *volume, *machine, *line, out),
        Note::KeptDir { line } => write_one("kept dir", *line, out),
        Note::LostDir { line } => write_one("lost dir", *line, out),
        Note::Log {
            volume,
            from,
            lines,
        } => {
            write_two("log", *volume, *from, out)?;
            write_groups(lines, out)
        }
        Note::Rows { from, rows } => {
            write_one("rows", *from, out)?;
            write_groups(rows, out)
        }
        Note::OpenShelf { faults } => write_one("open shelf", *faults, out),
        Note::OpenFailed { slot, faults } => write_two("open failed", *slot, *faults, out),
        Note::OpenDamaged { slot, file, at } => {
            write_three("open damaged", *slot, u64::from(*file), *at, out)
        }
    }
}

fn are_all(byte: u8, bytes: &[u8]) -> bool
    ensures { result ≡ list_all (λ other. other == byte) bytes.now }
{
    for other in bytes {
        if *other != byte {
            return false;
        }
    }
    true
}

/// At least 16 bytes that are all equal are written once.
fn write_data(alloc: Global, photo: &[u8], out: &mut String) -> Result<(), NoMemory>
    ensures { OnOk result (string_bytes out.new ≡ string_bytes out.old ++ texts.data_text photo.now) }
{
    let [first, rest @ ..] = photo else {
        write!(out, "-")?;
        return Ok(());
    };
    if photo.len() >= 16 && are_all(*first, rest) {
        let count = photo.len();
        let byte = hex::encode(alloc, [*first])?;
        write!(out, "x{count}:{byte}")?;
    } else {
        write_digits(photo, out)?;
    }
    Ok(())
}
