//! The replies of a transcript.

ghost use Rattle.std.specs.Prelude.{◌≡◌, ◌≢◌, ◌<◌, ◌≤◌, ℕ, List, ◌++◌, length, drop, IfOk, IfSome, IfNone, codes, decimal};
ghost use Rattle.hay_reply.specs.declared.Reply.{Reply as ReplyOf};
ghost use Rattle.hay_reply.specs.Fits.{FitsReply};
ghost use Rattle.hay_reply.specs.Replies as texts;
ghost use Rattle.hay_audit.specs.Feeds as feeds;

use hay_base::NoMemory;
use hay_reply::{Reply, read_reply};
use std::alloc::Global;

/// A reply, and the place behind its line.
#[derive(Drop)]
pub(crate) struct Answer {
    pub reply: Reply,
    pub behind: usize,
}

/// Ends an answer. A place in another function that drops one costs its proof seconds.
pub(crate) fn drop_answer(_answer: Answer) {}

pub(crate) fn find_feed(text: &[u8]) -> Option<usize>
    ensures is { feeds.feed_at text.now ≡ result }
    ensures within { IfSome result (λ n. n < length text.now) }
{
    for (i, byte) in text.iter().enumerate() {
        if *byte == b'\n' {
            return Some(i);
        }
    }
    None
}

/// What stands behind a line's number.
fn behind_number(alloc: Global, line: u64, text: &[u8]) -> Result<Option<usize>, NoMemory>
    ensures some { IfOk result (λ at. IfSome at (λ n. (n ≤ length text.now) × (text.now ≡ (decimal line ++ codes " ") ++ drop n text.now))) }
    ensures none { IfOk result (λ at. IfNone at ((rest : List ℕ) → text.now ≢ (decimal line ++ codes " ") ++ rest)) }
{
    let mut head = String::new(alloc);
    write!(head, "{line} ")?;
    if text.starts_with(head.as_bytes()) {
        Ok(Some(head.len()))
    } else {
        Ok(None)
    }
}

/// The reply of a line at the front of a text, if one is there.
pub(crate) fn read_answer(alloc: Global, line: u64, text: &[u8]) -> Result<Option<Answer>, NoMemory>
    ensures some { IfOk result (λ read. IfSome read (λ answer. (answer.behind ≤ length text.now) × (texts.numbered_line line answer.reply ++ drop answer.behind text.now ≡ text.now))) }
    ensures none { IfOk result (λ read. IfNone read ((reply : ReplyOf) (rest : List ℕ) → FitsReply reply → texts.numbered_line line reply ++ rest ≢ text.now)) }
{
    let Some(feed) = find_feed(text) else {
        return Ok(None);
    };
    let front = &text[..feed];
    let Some(start) = behind_number(alloc, line, front)? else {
        return Ok(None);
    };
    let Some(reply) = read_reply(alloc, &front[start..])? else {
        return Ok(None);
    };
    Ok(Some(Answer {
        reply,
        behind: feed + 1,
    }))
}
