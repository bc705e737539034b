//! Whether a transcript is one that legal turns of a script may have written.

ghost use Rattle.std.specs.Prelude.{◌≡◌, ◌<◌, ◌≤◌, ◌+◌, ◌^◌};
ghost use Rattle.std.specs.Prelude.{ℕ, List, ◌++◌, length, map, ◌≢◌, IfOk, IfSome, IfNone, OnOk, IsTrue, IsFalse};
ghost use Rattle.hay_script.specs.Script.{IsWithin, IsWithinLine};
ghost use Rattle.hay_script.specs.declared.Line.{Line as LineOf};
ghost use Rattle.hay_script.specs.declared.Line.TheVariants as line;
ghost use Rattle.hay_reply.specs.declared.Reply.TheVariants as reply_of;
ghost use Rattle.hay_legal.specs.Items.Asked.{Alone};
ghost use Rattle.hay_audit_steps.specs.Boxes.{Has};
ghost use Rattle.hay_audit_steps.specs.Judged.{Begins, IsOpenItem, IsUsed, JudgementOf};
ghost use Rattle.hay_audit_steps.specs.Reached.{AllAdvance, IsNoRestart};
ghost use Rattle.hay_audit.specs.Behind.{Tells, Walks};
ghost use Rattle.hay_audit.specs.Candidates.{AreKept, AreSmall, Goes, IsKept, SaidBy, all_standing, judged_as, placed, standing};
ghost use Rattle.hay_audit.specs.Outside.{IsRestart, IsWithinItem};
ghost use Rattle.hay_audit.specs.Sizes.{IsSmall};
ghost use Rattle.hay_audit.specs.Wants.{AreWanting};

use crate::answers::{drop_answer, read_answer};
use crate::boxes::{BoxState, drop_box, exact_box};
use crate::counts::note_count;
use crate::first::fresh_state;
use crate::fits::fits;
use crate::items::next_line;
use crate::joins::join;
use crate::notes::read_notes;
use crate::reopens::restart_boxes;
use crate::steps::next_boxes;
use crate::wants::wanting;
use hay_base::{Listed, NoMemory};
use hay_legal::turn::Item;
use hay_needle::Settings;
use hay_reply::{Reply, header_line};
use hay_script::{Command, Line, MAX_SCRIPT, read_line};
use std::alloc::Global;
use std::collections::BTreeSet;

/// What is said of a transcript.
#[derive(Clone, Copy, Debug, PartialEq, Eq)]
pub enum Judgement {
    /// So many turns, all of the script, have it as their text.
    Lawful { turns: u64 },
    /// So many turns of the script, and no more, have a text at its front; or all have, and it goes on behind them.
    Unlawful { turns: u64 },
    /// So many have, and what comes next is open: a block, or a command that wanted memory.
    Open { turns: u64 },
}

/// The states in which the store may stand, and the place behind what has been read.
#[derive(Drop)]
pub(crate) struct Candidate {
    pub state: BoxState,
    pub at: usize,
}

/// What a line asks for.
#[derive(Drop)]
pub(crate) enum Said {
    Nothing,
    Asks(Item),
    /// It begins a block.
    Lanes,
}

/// What a judge comes to behind a line.
#[derive(Drop)]
pub(crate) enum Walk {
    /// These candidates, behind so many turns.
    On {
        candidates: Listed<Candidate>,
        turns: u64,
    },
    /// The judgement.
    Ends(Judgement),
}

fn said_by(line: Line) -> Said
    requires { IsWithinLine line }
    ensures { SaidBy line result }
{
    match line {
        Line::Skip => Said::Nothing,
        Line::Lanes(_) => Said::Lanes,
        Line::Plain(command) => Said::Asks(Item::Command(command)),
        Line::Bad | Line::InLane { .. } | Line::End => Said::Asks(Item::Bad),
    }
}

fn push_all(
    states: Listed<BoxState>,
    at: usize,
    out: &mut Listed<Candidate>,
) -> Result<(), NoMemory>
    ensures { OnOk result (out.new ≡ out.old ++ map (placed at) states) }
{
    for state in states.into_vec() {
        out.push(Candidate { state, at })?;
    }
    Ok(())
}

fn is_restart(item: &Item) -> bool
    ensures yes { IsTrue result → IsRestart item.now }
    ensures no { IsFalse result → IsNoRestart item.now }
{
    match item {
        Item::Command(Command::Restart { .. }) => true,
        Item::Bad | Item::Command(_) => false,
    }
}

/// Adds what a box comes to behind a restart that was answered with so many rows, by the notes at the front of this text.
fn tell_restart(
    alloc: Global,
    settings: &Settings,
    text: &[u8],
    state: BoxState,
    rows: u64,
    at: usize,
    out: &mut Listed<Candidate>,
) -> Result<(), NoMemory>
    requires machines { 0 < settings.now.machines }
    requires many { length state.base.volumes ≡ settings.now.volumes }
    requires lows { length state.low ≡ settings.now.volumes }
    requires highs { length state.high ≡ settings.now.volumes }
    requires small { IsSmall state }
    requires place { at + length text.now < 2 ^ 64 }
    ensures { OnOk result (Tells settings.now text.now state rows at out.old out.new) }
{
    let count = note_count(&state.base);
    let Ok(read) = read_notes(alloc, text, count) else {
        drop_box(state);
        return Err(NoMemory);
    };
    let Some(told) = read else {
        drop_box(state);
        return Ok(());
    };
    let states = restart_boxes(alloc, settings, state, rows, told.notes.as_slice())?;
    push_all(states, at + told.behind, out)?;
    Ok(())
}

/// The rows of a reply to a restart. A place in another function that drops a reply costs its proof seconds.
fn rows_told(reply: Reply) -> Option<u64>
    ensures some { IfSome result (λ rows. reply ≡ reply_of.Restarted rows) }
    ensures none { IfNone result ((rows : ℕ) → reply ≢ reply_of.Restarted rows) }
{
    match reply {
        Reply::Restarted { rows } => Some(rows),
        _ => None,
    }
}

/// Adds what a candidate comes to behind a restart.
fn advance_restart(
    alloc: Global,
    settings: &Settings,
    transcript: &[u8],
    line: u64,
    item: &Item,
    candidate: Candidate,
    out: &mut Listed<Candidate>,
) -> Result<(), NoMemory>
    requires machines { 0 < settings.now.machines }
    requires restart { IsRestart item.now }
    requires shut { IsOpenItem transcript.now (Alone line item.now) → ⊥ }
    requires kept { IsKept settings.now transcript.now candidate }
    requires small { IsSmall candidate.state }
    ensures went { OnOk result (Goes settings.now line item.now transcript.now candidate out.old out.new) }
    ensures kept { OnOk result (AreKept settings.now transcript.now out.old → AreKept settings.now transcript.now out.new) }
{
    let Candidate { state, at } = candidate;
    let Ok(read) = read_answer(alloc, line, &transcript[at..]) else {
        drop_box(state);
        return Err(NoMemory);
    };
    let Some(answer) = read else {
        drop_box(state);
        return Ok(());
    };
    fits(&answer.reply);
    let behind = at + answer.behind;
    let Some(rows) = rows_told(answer.reply) else {
        drop_box(state);
        return Ok(());
    };
    tell_restart(
        alloc,
        settings,
        &transcript[behind..],
        state,
        rows,
        behind,
        out,
    )?;
    Ok(())
}

/// Adds what a candidate comes to behind a line that is no restart.
fn advance_plain(
    alloc: Global,
    settings: &Settings,
    transcript: &[u8],
    line: u64,
    item: &Item,
    candidate: Candidate,
    out: &mut Listed<Candidate>,
) -> Result<(), NoMemory>
    requires machines { 0 < settings.now.machines }
    requires volumes { 0 < settings.now.volumes }
    requires replicas { 0 < settings.now.replicas }
    requires plain { IsNoRestart item.now }
    requires within { IsWithinItem item.now }
    requires shut { IsOpenItem transcript.now (Alone line item.now) → ⊥ }
    requires kept { IsKept settings.now transcript.now candidate }
    requires small { IsSmall candidate.state }
    ensures went { OnOk result (Goes settings.now line item.now transcript.now candidate out.old out.new) }
    ensures kept { OnOk result (AreKept settings.now transcript.now out.old → AreKept settings.now transcript.now out.new) }
{
    let Candidate { state, at } = candidate;
    let Ok(read) = read_answer(alloc, line, &transcript[at..]) else {
        drop_box(state);
        return Err(NoMemory);
    };
    let Some(answer) = read else {
        drop_box(state);
        return Ok(());
    };
    fits(&answer.reply);
    let behind = at + answer.behind;
    let made = next_boxes(alloc, settings, state, line, item, &answer.reply);
    drop_answer(answer);
    let states = made?;
    push_all(states, behind, out)?;
    Ok(())
}

/// Adds what a candidate comes to behind this item.
fn advance_one(
    alloc: Global,
    settings: &Settings,
    transcript: &[u8],
    line: u64,
    item: &Item,
    candidate: Candidate,
    out: &mut Listed<Candidate>,
) -> Result<(), NoMemory>
    requires machines { 0 < settings.now.machines }
    requires volumes { 0 < settings.now.volumes }
    requires replicas { 0 < settings.now.replicas }
    requires within { IsWithinItem item.now }
    requires shut { IsOpenItem transcript.now (Alone line item.now) → ⊥ }
    requires kept { IsKept settings.now transcript.now candidate }
    requires small { IsSmall candidate.state }
    ensures went { OnOk result (Goes settings.now line item.now transcript.now candidate out.old out.new) }
    ensures kept { OnOk result (AreKept settings.now transcript.now out.old → AreKept settings.now transcript.now out.new) }
{
    if is_restart(item) {
        return advance_restart(alloc, settings, transcript, line, item, candidate, out);
    }
    advance_plain(alloc, settings, transcript, line, item, candidate, out)
}

/// What all candidates come to behind this item.
fn advance_all(
    alloc: Global,
    settings: &Settings,
    transcript: &[u8],
    line: u64,
    item: &Item,
    candidates: Listed<Candidate>,
) -> Result<Listed<Candidate>, NoMemory>
    requires machines { 0 < settings.now.machines }
    requires volumes { 0 < settings.now.volumes }
    requires replicas { 0 < settings.now.replicas }
    requires within { IsWithinItem item.now }
    requires shut { IsOpenItem transcript.now (Alone line item.now) → ⊥ }
    requires kept { AreKept settings.now transcript.now candidates }
    requires small { AreSmall candidates }
    ensures went { IfOk result (λ next. AllAdvance Has settings.now (Alone line item.now) (all_standing transcript.now candidates) (all_standing transcript.now next)) }
    ensures kept { IfOk result (AreKept settings.now transcript.now) }
{
    let mut out = Listed::new(alloc);
    for candidate in candidates.into_vec() {
        advance_one(alloc, settings, transcript, line, item, candidate, &mut out)?;
    }
    Ok(out)
}

/// The same without those for which others stand. They are looked for where a line gives more candidates than there were,
/// and behind a restart, where no more is told of what the store was doing.
fn advance(
    alloc: Global,
    settings: &Settings,
    transcript: &[u8],
    line: u64,
    item: &Item,
    candidates: Listed<Candidate>,
) -> Result<Listed<Candidate>, NoMemory>
    requires machines { 0 < settings.now.machines }
    requires volumes { 0 < settings.now.volumes }
    requires replicas { 0 < settings.now.replicas }
    requires within { IsWithinItem item.now }
    requires shut { IsOpenItem transcript.now (Alone line item.now) → ⊥ }
    requires kept { AreKept settings.now transcript.now candidates }
    requires small { AreSmall candidates }
    ensures went { IfOk result (λ next. AllAdvance Has settings.now (Alone line item.now) (all_standing transcript.now candidates) (all_standing transcript.now next)) }
    ensures kept { IfOk result (AreKept settings.now transcript.now) }
{
    let count = candidates.len();
    let next = advance_all(alloc, settings, transcript, line, item, candidates)?;
    if next.len() <= count && !is_restart(item) {
        return Ok(next);
    }
    let joined = join(alloc, next)?;
    Ok(joined)
}

/// Whether some candidate has used the whole transcript.
fn is_used(settings: &Settings, transcript: &[u8], candidates: &[Candidate]) -> bool
    requires { AreKept settings.now transcript.now candidates.now }
    ensures yes { IsTrue result → IsUsed Has (all_standing transcript.now candidates.now) }
    ensures no { IsFalse result → IsUsed Has (all_standing transcript.now candidates.now) → ⊥ }
{
    for candidate in candidates {
        if candidate.at == transcript.len() {
            return true;
        }
    }
    false
}

/// Whether a line of the transcript says that this item wanted memory.
fn is_open(wanting: &BTreeSet<u64>, transcript: &[u8], number: u64, item: &Item) -> bool
    requires { AreWanting transcript.now wanting.now }
    ensures yes { IsTrue result → IsOpenItem transcript.now (Alone number item.now) }
    ensures no { IsFalse result → IsOpenItem transcript.now (Alone number item.now) → ⊥ }
{
    match item {
        Item::Command(_) => wanting.contains(&number),
        Item::Bad => false,
    }
}

/// What the candidates come to behind a line that says this.
fn walk_line(
    alloc: Global,
    settings: &Settings,
    transcript: &[u8],
    wanting: &BTreeSet<u64>,
    number: u64,
    said: Said,
    candidates: Listed<Candidate>,
    turns: u64,
) -> Result<Walk, NoMemory>
    requires machines { 0 < settings.now.machines }
    requires volumes { 0 < settings.now.volumes }
    requires replicas { 0 < settings.now.replicas }
    requires kept { AreKept settings.now transcript.now candidates }
    requires small { AreSmall candidates }
    requires few { turns + 1 < 2 ^ 64 }
    requires told { (text : LineOf) × SaidBy text said }
    requires wanting { AreWanting transcript.now wanting.now }
    ensures { IfOk result (Walks settings.now transcript.now candidates number turns said) }
{
    let open = Walk::Ends(Judgement::Open { turns });
    let item = match said {
        Said::Nothing => return Ok(Walk::On { candidates, turns }),
        Said::Lanes => return Ok(open),
        Said::Asks(item) => item,
    };
    if is_open(wanting, transcript, number, &item) {
        return Ok(open);
    }
    let next = advance(alloc, settings, transcript, number, &item, candidates)?;
    if next.is_empty() {
        return Ok(Walk::Ends(Judgement::Unlawful { turns }));
    }
    Ok(Walk::On {
        candidates: next,
        turns: turns + 1,
    })
}

/// The judgement by the lines of a script, from a first candidate.
fn run(
    alloc: Global,
    settings: &Settings,
    script: &[u8],
    transcript: &[u8],
    first: Candidate,
) -> Result<Judgement, NoMemory>
    requires machines { 0 < settings.now.machines }
    requires volumes { 0 < settings.now.volumes }
    requires replicas { 0 < settings.now.replicas }
    requires long { length script.now ≤ MAX_SCRIPT }
    requires begins { Begins Has settings.now transcript.now (standing transcript.now first) }
    requires kept { IsKept settings.now transcript.now first }
    ensures { IfOk result (λ judgement. JudgementOf settings.now script.now transcript.now (judged_as judgement)) }
{
    let wanting = wanting(alloc, transcript)?;
    let mut candidates = Listed::one(alloc, first)?;
    let mut at = 0;
    let mut number: u64 = 1;
    let mut turns: u64 = 0;
    while at < script.len() {
        let (text, behind) = next_line(alloc, script, at)?;
        let said = said_by(read_line(alloc, text.as_slice(), None)?);
        match walk_line(
            alloc, settings, transcript, &wanting, number, said, candidates, turns,
        )? {
            Walk::Ends(judgement) => return Ok(judgement),
            Walk::On {
                candidates: next,
                turns: more,
            } => {
                candidates = next;
                turns = more;
            }
        }
        at = behind;
        number += 1;
    }
    if is_used(settings, transcript, candidates.as_slice()) {
        Ok(Judgement::Lawful { turns })
    } else {
        Ok(Judgement::Unlawful { turns })
    }
}

/// The judgement of a transcript of a script, over a store on void disks as formatted. The script has at most `MAX_SCRIPT` bytes,
/// so that no size of the store is too large for a number.
pub fn audit(
    alloc: Global,
    settings: &Settings,
    script: &[u8],
    transcript: &[u8],
) -> Result<Judgement, NoMemory>
    requires machines { 0 < settings.now.machines }
    requires volumes { 0 < settings.now.volumes }
    requires replicas { 0 < settings.now.replicas }
    requires long { length script.now ≤ MAX_SCRIPT }
    ensures { IfOk result (λ judgement. JudgementOf settings.now script.now transcript.now (judged_as judgement)) }
{
    let mut header = Vec::new(alloc);
    header_line(alloc, settings, &mut header)?;
    if !transcript.starts_with(header.as_slice()) {
        return Ok(Judgement::Unlawful { turns: 0 });
    }
    let first = Candidate {
        state: exact_box(alloc, fresh_state(alloc, settings)?)?,
        at: header.len(),
    };
    run(alloc, settings, script, transcript, first)
}
