//! Replies as texts, so that the lanes make them beside each other.
ghost use Rattle.std.specs.Prelude.{◌≡◌, ◌++◌, OnOk, codes, decimal, IfOk};
ghost use Rattle.hay_reply.specs.Replies as texts;

use hay_base::NoMemory;
use hay_reply::{Reply, numbered_line, reply_text};
use std::alloc::Global;
use std::marker::Model;
use std::snapshot::Snapshot;

// What is kept of a reply: its text, or itself where memory was wanting for that.
#[derive(Drop)]
enum Kept {
    Text(Vec<u8>),
    Whole(Reply),
}

/// A reply, of which its text is kept and none of its bytes beside it. Where memory was wanting for the text it is kept as it is.
#[derive(Drop)]
pub struct ReplyText {
    kept: Kept,
    reply: Snapshot<Reply>,
}

impl Model for ReplyText {
    ghost use Rattle.hay_reply.specs.declared.Reply.{Reply};

    ghost Value = { Reply };

    ghost use Rattle.hay_block.specs.Texts.{Keeps};

    ghost view = { λ r. r.reply.value };

    ghost invariant = { λ r. Keeps r.kept r.reply.value };
}

// The text of a reply, in as much room as it takes.
fn text_of(alloc: Global, reply: &Reply) -> Result<Vec<u8>, NoMemory>
    ensures { IfOk result (λ text. text.items ≡ texts.reply_text reply.now) }
{
    let mut text = Vec::new(alloc);
    reply_text(alloc, reply, &mut text)?;
    text.shrink_to_fit();
    Ok(text)
}

// Adds the line of a reply that has this text. `NoMemory` may have added a part.
fn add_line(alloc: Global, line: u64, text: &[u8], out: &mut Vec<u8>) -> Result<(), NoMemory>
    ensures { OnOk result (out.new.items ≡ out.old.items ++ decimal line ++ codes " " ++ text.now ++ codes "\n") }
{
    let mut number = String::new(alloc);
    write!(number, "{line} ")?;
    out.reserve(number.len().saturating_add(text.len()).saturating_add(1))?;
    out.extend_from_slice(number.as_bytes())?;
    out.extend_from_slice(text)?;
    out.push(b'\n')?;
    Ok(())
}

impl ReplyText {
    /// Keeps a reply.
    pub fn new(alloc: Global, reply: Reply) -> ReplyText
        ensures { result ≡ reply }
    {
        let told = Snapshot::of(&reply);
        match text_of(alloc, &reply) {
            Ok(text) => ReplyText {
                kept: Kept::Text(text),
                reply: told,
            },
            Err(NoMemory) => ReplyText {
                kept: Kept::Whole(reply),
                reply: told,
            },
        }
    }

    /// Adds its line of the transcript, behind the number of the script's line.
    pub fn numbered_line(&self, alloc: Global, line: u64, out: &mut Vec<u8>) -> Result<(), NoMemory>
        ensures { OnOk result (out.new.items ≡ out.old.items ++ texts.numbered_line line self.now) }
    {
        match &self.kept {
            Kept::Text(text) => add_line(alloc, line, text.as_slice(), out),
            Kept::Whole(reply) => numbered_line(alloc, line, reply, out),
        }
    }
}
