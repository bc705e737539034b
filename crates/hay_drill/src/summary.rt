//! The summary.
ghost use Rattle.std.specs.Prelude.{◌≡◌, ◌^◌, ◌<◌, ◌++◌, OnOk, OnErr, string_bytes};
ghost use Rattle.hay_drill.specs.Summary as summaries;

use hay_base::NoMemory;
use hay_reply::{Note, Reply};
use std::alloc::Global;

/// How often each kind of reply came.
#[derive(Clone, Copy, Debug, PartialEq, Eq)]
pub struct Summary {
    pub stored: u64,
    pub deleted: u64,
    pub photos: u64,
    /// The bytes of these photos.
    pub photo_bytes: u64,
    /// Reads and deletes that found nothing.
    pub gone: u64,
    pub flushed: u64,
    pub compacted: u64,
    /// The Directory's rows at the end, which no reply adds.
    pub rows: u64,
    /// Replies of any other kind, but for the one to a restart, and notes on changes that had failed.
    pub other: u64,
}

const NOTHING: Summary = Summary {
    stored: 0,
    deleted: 0,
    photos: 0,
    photo_bytes: 0,
    gone: 0,
    flushed: 0,
    compacted: 0,
    rows: 0,
    other: 0,
};

const ONE_OTHER: Summary = Summary {
    other: 1,
    ..NOTHING
};

/// What a reply adds.
fn of_reply(reply: &Reply) -> Summary
    ensures { result ≡ summaries.of_reply reply.now }
{
    match reply {
        Reply::Stored { .. } => Summary {
            stored: 1,
            ..NOTHING
        },
        Reply::Deleted { .. } => Summary {
            deleted: 1,
            ..NOTHING
        },
        Reply::Photo { photo, .. } => Summary {
            photos: 1,
            photo_bytes: photo.len() as u64,
            ..NOTHING
        },
        Reply::Gone { .. } | Reply::Absent { .. } => Summary { gone: 1, ..NOTHING },
        Reply::Flushed { .. } => Summary {
            flushed: 1,
            ..NOTHING
        },
        Reply::Compacted { .. } => Summary {
            compacted: 1,
            ..NOTHING
        },
        Reply::Restarted { .. } => NOTHING,
        Reply::WrongCookie { .. } | Reply::Unknown { .. } | Reply::Moved { .. } => ONE_OTHER,
        Reply::Url { .. } | Reply::Full { .. } | Reply::ReadOnly { .. } => ONE_OTHER,
        Reply::ReadOnlyDir | Reply::Failed { .. } | Reply::FailedDir { .. } => ONE_OTHER,
        Reply::Unreadable { .. } | Reply::Damaged { .. } | Reply::Begun { .. } => ONE_OTHER,
        Reply::Stepped { .. } | Reply::Busy { .. } | Reply::Idle { .. } => ONE_OTHER,
        Reply::Worn { .. } | Reply::Drained { .. } | Reply::Undrained { .. } => ONE_OTHER,
        Reply::Fused { .. } | Reply::FusedDir { .. } | Reply::Nowhere => ONE_OTHER,
        Reply::BadLine | Reply::NoMem => ONE_OTHER,
    }
}

/// What a note adds.
fn of_note(note: &Note) -> Summary
    ensures { result ≡ summaries.of_note note.now }
{
    match note {
        Note::Kept { .. } | Note::Lost { .. } => ONE_OTHER,
        Note::KeptDir { .. } | Note::LostDir { .. } => ONE_OTHER,
        Note::Log { .. } | Note::Rows { .. } => NOTHING,
        Note::OpenShelf { .. } | Note::OpenFailed { .. } | Note::OpenDamaged { .. } => NOTHING,
    }
}

impl Summary {
    /// The summary of no reply.
    pub fn new() -> Summary
        ensures { result ≡ summaries.nothing }
    {
        NOTHING
    }

    fn add(&mut self, more: Summary)
        requires { summaries.total (summaries.plus self.old more) < 2 ^ 64 }
        ensures { self.new ≡ summaries.plus self.old more }
    {
        self.stored += more.stored;
        self.deleted += more.deleted;
        self.photos += more.photos;
        self.photo_bytes += more.photo_bytes;
        self.gone += more.gone;
        self.flushed += more.flushed;
        self.compacted += more.compacted;
        self.rows += more.rows;
        self.other += more.other;
    }

    /// Adds what a reply adds.
    pub fn count(&mut self, reply: &Reply)
        requires { summaries.total (summaries.plus self.old (summaries.of_reply reply.now)) < 2 ^ 64 }
        ensures { self.new ≡ summaries.plus self.old (summaries.of_reply reply.now) }
    {
        self.add(of_reply(reply));
    }

    /// Adds what a note adds.
    pub fn count_note(&mut self, note: &Note)
        requires { summaries.total (summaries.plus self.old (summaries.of_note note.now)) < 2 ^ 64 }
        ensures { self.new ≡ summaries.plus self.old (summaries.of_note note.now) }
    {
        self.add(of_note(note));
    }
}

fn write_summary(
    count: u32,
    first: u64,
    summary: &Summary,
    out: &mut String,
) -> Result<(), NoMemory>
    ensures { OnOk result (string_bytes out.new ≡ string_bytes out.old ++ summaries.summary_text count first summary.now) }
{
    let Summary {
        stored,
        deleted,
        photos,
        photo_bytes,
        gone,
        flushed,
        compacted,
        rows,
        other,
    } = summary;
    writeln!(out, "drill {count} {first}")?;
    writeln!(out, "stored {stored}")?;
    writeln!(out, "deleted {deleted}")?;
    writeln!(out, "photo {photos} {photo_bytes}")?;
    writeln!(out, "gone {gone}")?;
    writeln!(out, "flushed {flushed}")?;
    writeln!(out, "compacted {compacted}")?;
    writeln!(out, "rows {rows}")?;
    writeln!(out, "other {other}")?;
    Ok(())
}

/// Adds the nine lines of a summary of a script of so many photos from the first key on. `NoMemory` adds nothing.
pub fn summary_text(
    alloc: Global,
    count: u32,
    first: u64,
    summary: &Summary,
    out: &mut Vec<u8>,
) -> Result<(), NoMemory>
    ensures ok { OnOk result (out.new.items ≡ out.old.items ++ summaries.summary_text count first summary.now) }
    ensures err { OnErr result (out.new.items ≡ out.old.items) }
{
    let mut text = String::new(alloc);
    write_summary(count, first, summary, &mut text)?;
    out.extend_from_slice(text.as_bytes())?;
    Ok(())
}
