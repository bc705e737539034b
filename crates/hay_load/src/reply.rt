//! What a batch or a bad line is answered.

ghost use Rattle.std.specs.Prelude.{◌≡◌, ◌++◌, map, IfOk, OnOk, OnErr};
ghost use Rattle.std.specs.List.{AllByRecursion};
ghost use Rattle.hay_reply.specs.Fits.{FitsRefused};
ghost use Rattle.hay_load.specs.Replies as texts;

use hay_base::{Listed, NoMemory};
use hay_batch::FullTry;
use hay_reply::{Refused, Reply, numbered_line};
use std::alloc::Global;

/// What a batch or a bad line is answered.
#[derive(Drop)]
pub enum LoadReply {
    /// The batch was loaded into this volume: so many photos, and so many rows there are now.
    Loaded { volume: u32, photos: u64, rows: u64 },
    /// A photo of the batch has a home. Of the first such photo it is this volume.
    Known { volume: u32 },
    /// A reply of a run: no try has room, a bad line, or a disk that failed.
    Other(Reply),
}

// A try without room, as a run tells it.
fn no_room(full: FullTry) -> Refused
    ensures is { result ≡ texts.refused_of full }
    ensures fits { FitsRefused result }
{
    Refused::NoRoom {
        volume: full.volume,
        machine: full.machine,
        end: full.end,
        need: full.need,
    }
}

// The tries without room, as a run tells them.
fn refused_of(alloc: Global, tries: &[FullTry]) -> Result<Listed<Refused>, NoMemory>
    ensures are { IfOk result (λ refused. refused ≡ map texts.refused_of tries.now) }
    ensures fit { IfOk result (AllByRecursion FitsRefused) }
{
    let mut refused = Listed::new(alloc);
    for full in tries {
        refused.push(no_room(*full))?;
    }
    Ok(refused)
}

/// A batch for which no try has room.
pub(crate) fn full_reply(alloc: Global, tries: &[FullTry]) -> Result<LoadReply, NoMemory>
    ensures is { IfOk result (λ reply. reply ≡ texts.full_reply tries.now) }
    ensures fits { IfOk result texts.FitsLoad }
{
    let tries = refused_of(alloc, tries)?;
    Ok(LoadReply::Other(Reply::Full { tries }))
}

/// Adds the line of a reply: the number of the group's first line, and the reply. `NoMemory` adds nothing.
pub fn load_line(
    alloc: Global,
    line: u64,
    reply: &LoadReply,
    out: &mut Vec<u8>,
) -> Result<(), NoMemory>
    ensures ok { OnOk result (out.new.items ≡ out.old.items ++ texts.load_line line reply.now) }
    ensures err { OnErr result (out.new.items ≡ out.old.items) }
{
    let mut text = String::new(alloc);
    match reply {
        LoadReply::Loaded {
            volume,
            photos,
            rows,
        } => writeln!(text, "{line} loaded {volume} {photos} {rows}")?,
        LoadReply::Known { volume } => writeln!(text, "{line} known {volume}")?,
        LoadReply::Other(reply) => return numbered_line(alloc, line, reply, out),
    }
    out.extend_from_slice(text.as_bytes())?;
    Ok(())
}
