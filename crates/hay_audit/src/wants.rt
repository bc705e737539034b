//! The lines of a transcript that tell of want of memory.

ghost use Rattle.std.specs.Prelude.{◌≡◌, ◌≢◌, ◌<◌, ◌^◌, ℕ, IfOk, IfSome, IfNone, OnOk};
ghost use Rattle.std.specs.Char.{is_ascii_digit};
ghost use Rattle.std.specs.List.{list_all};
ghost use Rattle.hay_reply.specs.Reading as reading;
ghost use Rattle.hay_audit.specs.Wants as wants;
ghost use Rattle.hay_audit.specs.Wants.{AreWanting, WantsMore};

use crate::answers::find_feed;
use hay_base::NoMemory;
use std::alloc::Global;
use std::collections::BTreeSet;

/// What stands before the first space.
fn first_word(text: &[u8]) -> &[u8]
    ensures { wants.before_space text.now ≡ result.now }
{
    for (i, byte) in text.iter().enumerate() {
        if *byte == b' ' {
            return &text[..i];
        }
    }
    text
}

fn is_decimal(text: &[u8]) -> bool
    ensures { result ≡ list_all is_ascii_digit text.now }
{
    text.iter().all(|byte| byte.is_ascii_digit())
}

fn read_number(text: &[u8]) -> Option<u64>
    ensures { result ≡ reading.large text.now }
{
    if text.is_empty() || !is_decimal(text) {
        return None;
    }
    match str::from_utf8(text) {
        Ok(digits) => digits.parse().ok(),
        Err(_) => None,
    }
}

/// The number of the line that this text says wanted memory.
#[tactic(auto, using(crate::proofs::Wanting::other_text))]
fn line_of(alloc: Global, text: &[u8]) -> Result<Option<u64>, NoMemory>
    ensures some { IfOk result (λ line. IfSome line (λ n. text.now ≡ wants.wanting_text n)) }
    ensures none { IfOk result (λ line. IfNone line ((n : ℕ) → n < 2 ^ 64 → text.now ≢ wants.wanting_text n)) }
    ensures below { IfOk result (λ line. IfSome line (λ n. n < 2 ^ 64)) }
{
    let Some(number) = read_number(first_word(text)) else {
        return Ok(None);
    };
    let mut told = String::new(alloc);
    write!(told, "{number} nomem")?;
    if told.as_bytes() == text {
        Ok(Some(number))
    } else {
        Ok(None)
    }
}

fn add(alloc: Global, text: &[u8], lines: &mut BTreeSet<u64>) -> Result<(), NoMemory>
    ensures { OnOk result (WantsMore text.now lines.old lines.new) }
{
    let Some(line) = line_of(alloc, text)? else {
        return Ok(());
    };
    lines.insert(line)?;
    Ok(())
}

/// The numbers of the lines that wanted memory.
pub(crate) fn wanting(alloc: Global, transcript: &[u8]) -> Result<BTreeSet<u64>, NoMemory>
    ensures { IfOk result (λ lines. AreWanting transcript.now lines) }
{
    let mut lines = BTreeSet::new(alloc);
    let mut at = 0;
    while at <= transcript.len() {
        let text = &transcript[at..];
        let Some(feed) = find_feed(text) else {
            add(alloc, text, &mut lines)?;
            return Ok(lines);
        };
        add(alloc, &text[..feed], &mut lines)?;
        at += feed + 1;
    }
    Ok(lines)
}
