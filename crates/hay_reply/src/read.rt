//! Reading replies and notes.
ghost use Rattle.std.specs.Prelude.{◌≡◌, ◌≢◌, IfOk, IfSome, IfNone, IsTrue, ◌↔◌, MatchOption, option_map};
ghost use Rattle.std.specs.Result.{result_ok};
ghost use Rattle.hex.specs.Hex.{decode_of};
ghost use Rattle.hay_reply.specs.declared.Reply.{Reply};
ghost use Rattle.hay_reply.specs.declared.Reply.TheVariants.{Photo};
ghost use Rattle.hay_reply.specs.declared.Note.{Note};
ghost use Rattle.hay_reply.specs.declared.Note.TheVariants.{Kept, KeptDir, Lost, LostDir};
ghost use Rattle.hay_reply.specs.Fits as fits;
ghost use Rattle.hay_reply.specs.Reading as reading;
ghost use Rattle.hay_reply.specs.Replies as texts;

use crate::lists::read_groups;
use crate::words::{is, next_part, read_cookie, read_large, read_place, read_small};
use crate::{ClosedBy, Note, Reply, note_text, reply_text};
use hay_base::{Listed, NoMemory};
use hay_needle::Bytes;
use hay_url::parse_url;
use hex::FromHexError;
use std::alloc::Global;

/// The reply that has this text, if one has.
pub fn read_reply(alloc: Global, text: &[u8]) -> Result<Option<Reply>, NoMemory>
    ensures some { IfOk result (λ read. IfSome read (λ reply. texts.reply_text reply ≡ text.now)) }
    ensures none { IfOk result (λ read. IfNone read ((reply : Reply) → fits.FitsReply reply → texts.reply_text reply ≢ text.now)) }
{
    let Some(reply) = likely_reply(alloc, text)? else {
        return Ok(None);
    };
    if writes_reply(alloc, &reply, text)? {
        Ok(Some(reply))
    } else {
        Ok(None)
    }
}

/// The note that has this text, if one has.
pub fn read_note(alloc: Global, text: &[u8]) -> Result<Option<Note>, NoMemory>
    ensures some { IfOk result (λ read. IfSome read (λ note. texts.note_text note ≡ text.now)) }
    ensures none { IfOk result (λ read. IfNone read ((note : Note) → fits.FitsNote note → texts.note_text note ≢ text.now)) }
{
    let Some(note) = likely_note(alloc, text)? else {
        return Ok(None);
    };
    if writes_note(alloc, &note, text)? {
        Ok(Some(note))
    } else {
        Ok(None)
    }
}

fn writes_reply(alloc: Global, reply: &Reply, text: &[u8]) -> Result<bool, NoMemory>
    ensures { IfOk result (λ same. IsTrue same ↔ (texts.reply_text reply.now ≡ text.now)) }
{
    let mut again = Vec::new(alloc);
    reply_text(alloc, reply, &mut again)?;
    Ok(again.as_slice() == text)
}

/// The one reply that a text may have.
fn likely_reply(alloc: Global, text: &[u8]) -> Result<Option<Reply>, NoMemory>
    ensures { IfOk result (λ read. read ≡ reading.reply_of (reading.words_of text.now)) }
{
    let Some((head, left)) = next_part(Some(text), b' ') else {
        return Ok(None);
    };
    if is(head, "stored") {
        Ok(read_stored(left))
    } else if is(head, "deleted") {
        Ok(read_deleted(left))
    } else if is(head, "photo") {
        read_photo_reply(alloc, left)
    } else if is(head, "gone") {
        Ok(read_gone(left))
    } else if is(head, "wrong") {
        Ok(read_wrong(left))
    } else if is(head, "moved") {
        Ok(read_moved(left))
    } else if is(head, "url") {
        Ok(read_url_reply(left))
    } else if is(head, "full") {
        Ok(read_groups(alloc, left)?.map(|tries| Reply::Full { tries }))
    } else if is(head, "readonly") {
        Ok(Some(read_only(read_groups(alloc, left)?)))
    } else if is(head, "unreadable") {
        read_unreadable(alloc, left)
    } else {
        Ok(read_short(head, left))
    }
}

fn read_only(tries: Option<Listed<ClosedBy>>) -> Reply
    ensures { Some result ≡ reading.readonly_by tries }
{
    match tries {
        Some(tries) => Reply::ReadOnly { tries },
        None => Reply::ReadOnlyDir,
    }
}

fn read_stored(left: Option<&[u8]>) -> Option<Reply>
    ensures { result ≡ reading.stored_of (reading.left_parts 32 left.entry) }
{
    let (volume, left) = next_part(left, b' ')?;
    let (position, left) = next_part(left, b' ')?;
    let (rows, left) = next_part(left, b' ')?;
    let (cookie, _) = next_part(left, b' ')?;
    let volume = read_small(volume)?;
    let position = read_large(position)?;
    let rows = read_large(rows)?;
    let cookie = read_cookie(cookie)?;
    Some(Reply::Stored {
        volume,
        position,
        rows,
        cookie,
    })
}

fn read_deleted(left: Option<&[u8]>) -> Option<Reply>
    ensures { result ≡ reading.deleted_of (reading.left_parts 32 left.entry) }
{
    let (volume, left) = next_part(left, b' ')?;
    let (position, left) = next_part(left, b' ')?;
    let (rows, _) = next_part(left, b' ')?;
    let volume = read_small(volume)?;
    let position = read_large(position)?;
    let rows = read_large(rows)?;
    Some(Reply::Deleted {
        volume,
        position,
        rows,
    })
}

fn read_wrong(left: Option<&[u8]>) -> Option<Reply>
    ensures { result ≡ reading.wrong_of (reading.left_parts 32 left.entry) }
{
    let (_word, left) = next_part(left, b' ')?;
    let (volume, left) = next_part(left, b' ')?;
    let (machine, left) = next_part(left, b' ')?;
    let (front, left) = next_part(left, b' ')?;
    let (rows, _) = next_part(left, b' ')?;
    let volume = read_small(volume)?;
    let machine = read_small(machine)?;
    let front = read_large(front)?;
    let rows = read_large(rows)?;
    Some(Reply::WrongCookie {
        volume,
        machine,
        front,
        rows,
    })
}

fn read_moved(left: Option<&[u8]>) -> Option<Reply>
    ensures { result ≡ reading.moved_of (reading.left_parts 32 left.entry) }
{
    let (volume, left) = next_part(left, b' ')?;
    let (rows, _) = next_part(left, b' ')?;
    let volume = read_small(volume)?;
    let rows = read_large(rows)?;
    Some(Reply::Moved { volume, rows })
}

fn read_url_reply(left: Option<&[u8]>) -> Option<Reply>
    ensures { result ≡ reading.url_reply_of (reading.left_parts 32 left.entry) }
{
    let (rows, left) = next_part(left, b' ')?;
    let (url, _) = next_part(left, b' ')?;
    let rows = read_large(rows)?;
    let url = parse_url(url).ok()?;
    Some(Reply::Url { rows, url })
}

fn read_gone(left: Option<&[u8]>) -> Option<Reply>
    ensures { result ≡ reading.gone_of (reading.left_parts 32 left.entry) }
{
    let (volume, left) = next_part(left, b' ')?;
    let (second, left) = next_part(left, b' ')?;
    let (third, left) = next_part(left, b' ')?;
    let Some((rows, _)) = next_part(left, b' ') else {
        let volume = read_small(volume)?;
        let front = read_large(second)?;
        let rows = read_large(third)?;
        return Some(Reply::Absent {
            volume,
            front,
            rows,
        });
    };
    let volume = read_small(volume)?;
    let machine = read_small(second)?;
    let front = read_large(third)?;
    let rows = read_large(rows)?;
    Some(Reply::Gone {
        volume,
        machine,
        front,
        rows,
    })
}

fn read_photo_reply(alloc: Global, left: Option<&[u8]>) -> Result<Option<Reply>, NoMemory>
    ensures { IfOk result (λ read. read ≡ reading.photo_reply_of (reading.left_parts 32 left.entry)) }
{
    let Some(shown) = read_shown(left) else {
        return Ok(None);
    };
    let photo = read_photo(alloc, shown.photo)?;
    Ok(photo.map(|photo| Reply::Photo {
        volume: shown.volume,
        machine: shown.machine,
        front: shown.front,
        rows: shown.rows,
        photo,
    }))
}

fn read_short(head: &[u8], left: Option<&[u8]>) -> Option<Reply>
    ensures { result ≡ reading.short_of head.now (reading.left_parts 32 left.entry) }
{
    let Some((first, left)) = next_part(left, b' ') else {
        return read_alone(head);
    };
    match next_part(left, b' ') {
        None => read_with_one(head, first),
        Some((second, _)) => read_with_two(head, first, second),
    }
}

fn read_alone(head: &[u8]) -> Option<Reply>
    ensures { result ≡ reading.alone_of head.now }
{
    if is(head, "nowhere") {
        Some(Reply::Nowhere)
    } else if is(head, "nomem") {
        Some(Reply::NoMem)
    } else {
        None
    }
}

fn read_with_one(head: &[u8], first: &[u8]) -> Option<Reply>
    ensures { result ≡ reading.one_of head.now first.now }
{
    if is(head, "unknown") {
        read_large(first).map(|rows| Reply::Unknown { rows })
    } else if is(head, "drained") {
        read_small(first).map(|machine| Reply::Drained { machine })
    } else if is(head, "undrained") {
        read_small(first).map(|machine| Reply::Undrained { machine })
    } else if is(head, "restarted") {
        read_large(first).map(|rows| Reply::Restarted { rows })
    } else if is(head, "idle") {
        let ClosedBy { volume, machine } = read_place(first)?;
        Some(Reply::Idle { volume, machine })
    } else if is(head, "worn") {
        let ClosedBy { volume, machine } = read_place(first)?;
        Some(Reply::Worn { volume, machine })
    } else if is(head, "bad") {
        Some(Reply::BadLine)
    } else {
        None
    }
}

fn read_with_two(head: &[u8], first: &[u8], second: &[u8]) -> Option<Reply>
    ensures { result ≡ reading.two_of head.now first.now second.now }
{
    if is(first, "dir") {
        return read_of_directory(head, second);
    }
    let ClosedBy { volume, machine } = read_place(first)?;
    if is(head, "fused") {
        let calls = read_small(second)?;
        return Some(Reply::Fused {
            volume,
            machine,
            calls,
        });
    }
    of_replica(head, volume, machine, read_large(second)?)
}

fn read_of_directory(head: &[u8], number: &[u8]) -> Option<Reply>
    ensures { result ≡ reading.of_directory head.now number.now }
{
    if is(head, "failed") {
        read_large(number).map(|faults| Reply::FailedDir { faults })
    } else if is(head, "fused") {
        read_small(number).map(|calls| Reply::FusedDir { calls })
    } else {
        None
    }
}

fn of_replica(head: &[u8], volume: u32, machine: u32, number: u64) -> Option<Reply>
    ensures { result ≡ reading.of_replica head.now volume machine number }
{
    if is(head, "failed") {
        Some(Reply::Failed {
            volume,
            machine,
            faults: number,
        })
    } else if is(head, "damaged") {
        Some(Reply::Damaged {
            volume,
            machine,
            at: number,
        })
    } else if is(head, "flushed") {
        Some(Reply::Flushed {
            volume,
            machine,
            records: number,
        })
    } else if is(head, "begun") {
        Some(Reply::Begun {
            volume,
            machine,
            generation: number,
        })
    } else if is(head, "stepped") {
        Some(Reply::Stepped {
            volume,
            machine,
            cells: number,
        })
    } else if is(head, "compacted") {
        Some(Reply::Compacted {
            volume,
            machine,
            generation: number,
        })
    } else if is(head, "busy") {
        Some(Reply::Busy {
            volume,
            machine,
            generation: number,
        })
    } else {
        None
    }
}

/// A photo's place and fronts, and the word of its bytes.
#[derive(Clone, Copy)]
struct Shown<'a> {
    volume: u32,
    machine: u32,
    front: u64,
    rows: u64,
    photo: &'a [u8],
}

fn read_shown(left: Option<&[u8]>) -> Option<Shown<'_>>
    ensures { MatchOption result
        (reading.photo_reply_of (reading.left_parts 32 left.entry) ≡ None)
        (λ shown. reading.photo_reply_of (reading.left_parts 32 left.entry)
        ≡ option_map (Photo shown.volume shown.machine shown.front shown.rows) (reading.photo_of shown.photo.now)) }
{
    let (volume, left) = next_part(left, b' ')?;
    let (machine, left) = next_part(left, b' ')?;
    let (front, left) = next_part(left, b' ')?;
    let (rows, left) = next_part(left, b' ')?;
    let (photo, _) = next_part(left, b' ')?;
    let volume = read_small(volume)?;
    let machine = read_small(machine)?;
    let front = read_large(front)?;
    let rows = read_large(rows)?;
    Some(Shown {
        volume,
        machine,
        front,
        rows,
        photo,
    })
}

fn read_unreadable(alloc: Global, left: Option<&[u8]>) -> Result<Option<Reply>, NoMemory>
    ensures { IfOk result (λ read. read ≡ reading.unreadable_of (reading.left_parts 32 left.entry)) }
{
    let Some((volume, left)) = next_part(left, b' ') else {
        return Ok(None);
    };
    let Some((front, left)) = next_part(left, b' ') else {
        return Ok(None);
    };
    let Some((rows, left)) = next_part(left, b' ') else {
        return Ok(None);
    };
    let (Some(volume), Some(front), Some(rows)) = (
        read_small(volume),
        read_large(front),
        read_large(rows),
    ) else {
        return Ok(None);
    };
    Ok(read_groups(alloc, left)?.map(|causes| Reply::Unreadable {
        volume,
        front,
        rows,
        causes,
    }))
}

fn writes_note(alloc: Global, note: &Note, text: &[u8]) -> Result<bool, NoMemory>
    ensures { IfOk result (λ same. IsTrue same ↔ (texts.note_text note.now ≡ text.now)) }
{
    let mut again = Vec::new(alloc);
    note_text(alloc, note, &mut again)?;
    Ok(again.as_slice() == text)
}

/// The one note that a text may have.
fn likely_note(alloc: Global, text: &[u8]) -> Result<Option<Note>, NoMemory>
    ensures { IfOk result (λ read. read ≡ reading.note_of (reading.words_of text.now)) }
{
    let Some((head, left)) = next_part(Some(text), b' ') else {
        return Ok(None);
    };
    if is(head, "log") {
        read_log(alloc, left)
    } else if is(head, "rows") {
        read_rows(alloc, left)
    } else if is(head, "open") {
        Ok(read_open(left))
    } else {
        Ok(read_change(head, left))
    }
}

fn read_log(alloc: Global, left: Option<&[u8]>) -> Result<Option<Note>, NoMemory>
    ensures { IfOk result (λ read. read ≡ reading.log_of (reading.left_parts 32 left.entry)) }
{
    let Some((volume, left)) = next_part(left, b' ') else {
        return Ok(None);
    };
    let Some((from, left)) = next_part(left, b' ') else {
        return Ok(None);
    };
    let (Some(volume), Some(from)) = (read_small(volume), read_large(from)) else {
        return Ok(None);
    };
    Ok(read_groups(alloc, left)?.map(|lines| Note::Log {
        volume,
        from,
        lines,
    }))
}

fn read_rows(alloc: Global, left: Option<&[u8]>) -> Result<Option<Note>, NoMemory>
    ensures { IfOk result (λ read. read ≡ reading.rows_of (reading.left_parts 32 left.entry)) }
{
    let Some((from, left)) = next_part(left, b' ') else {
        return Ok(None);
    };
    let Some(from) = read_large(from) else {
        return Ok(None);
    };
    Ok(read_groups(alloc, left)?.map(|rows| Note::Rows { from, rows }))
}

fn read_open(left: Option<&[u8]>) -> Option<Note>
    ensures { result ≡ reading.open_of (reading.left_parts 32 left.entry) }
{
    let (_kind, left) = next_part(left, b' ')?;
    let (first, left) = next_part(left, b' ')?;
    let Some((second, left)) = next_part(left, b' ') else {
        return read_large(first).map(|faults| Note::OpenShelf { faults });
    };
    let slot = read_small(first)?;
    let Some((at, _)) = next_part(left, b' ') else {
        let faults = read_large(second)?;
        return Some(Note::OpenFailed { slot, faults });
    };
    let file = read_small(second)?;
    let at = read_large(at)?;
    Some(Note::OpenDamaged { slot, file, at })
}

fn read_change(head: &[u8], left: Option<&[u8]>) -> Option<Note>
    ensures { result ≡ reading.change_of head.now (reading.left_parts 32 left.entry) }
{
    let (first, left) = next_part(left, b' ')?;
    let (second, _) = next_part(left, b' ')?;
    if is(head, "kept") {
        read_kept(first, second)
    } else if is(head, "lost") {
        read_lost(first, second)
    } else {
        None
    }
}

fn read_kept(first: &[u8], second: &[u8]) -> Option<Note>
    ensures { result ≡ reading.changed_of Kept KeptDir first.now second.now }
{
    if is(first, "dir") {
        return read_large(second).map(|line| Note::KeptDir { line });
    }
    let ClosedBy { volume, machine } = read_place(first)?;
    let line = read_large(second)?;
    Some(Note::Kept {
        volume,
        machine,
        line,
    })
}

fn read_lost(first: &[u8], second: &[u8]) -> Option<Note>
    ensures { result ≡ reading.changed_of Lost LostDir first.now second.now }
{
    if is(first, "dir") {
        return read_large(second).map(|line| Note::LostDir { line });
    }
    let ClosedBy { volume, machine } = read_place(first)?;
    let line = read_large(second)?;
    Some(Note::Lost {
        volume,
        machine,
        line,
    })
}

fn read_hex(alloc: Global, digits: &[u8]) -> Result<Option<Bytes>, NoMemory>
    ensures { IfOk result (λ photo. photo ≡ result_ok (decode_of digits.now)) }
{
    match hex::decode(alloc, digits) {
        Ok(bytes) => Ok(Some(Bytes::from_vec(bytes))),
        Err(FromHexError::OutOfMemory) => Err(NoMemory),
        Err(_) => Ok(None),
    }
}

fn read_run(alloc: Global, run: &[u8]) -> Result<Option<Bytes>, NoMemory>
    ensures { IfOk result (λ photo. photo ≡ reading.run_by (reading.parts_of 58 run.now)) }
{
    let Some((count, left)) = next_part(Some(run), b':') else {
        return Ok(None);
    };
    let Some((digits, _)) = next_part(left, b':') else {
        return Ok(None);
    };
    let Some(count) = read_large(count) else {
        return Ok(None);
    };
    let Some(bytes) = read_hex(alloc, digits)? else {
        return Ok(None);
    };
    let [byte, ..] = bytes.as_slice() else {
        return Ok(None);
    };
    let photo = vec![in alloc; *byte; count as usize]?;
    Ok(Some(Bytes::from_vec(photo)))
}

/// The bytes of a photo, all of them or a run of one.
fn read_photo(alloc: Global, word: &[u8]) -> Result<Option<Bytes>, NoMemory>
    ensures { IfOk result (λ photo. photo ≡ reading.photo_of word.now) }
{
    match word {
        [b'-'] => Ok(Some(Bytes::new(alloc))),
        [b'x', run @ ..] => read_run(alloc, run),
        _ => read_hex(alloc, word),
    }
}
