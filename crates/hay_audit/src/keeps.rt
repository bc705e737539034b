//! What the notes of a restart say was kept, and whether it may have been.

ghost use Rattle.std.specs.Prelude.{◌≡◌, ◌<◌, ◌≤◌, ◌||◌, not, nat_lt, true, false, drop, length, slice_get, IfOk, IfSome, IfNone, Some, None, option_map};
ghost use Rattle.std.specs.Option.{option_copied};
ghost use Rattle.hay_legal.specs.Known as known;
ghost use Rattle.hay_legal.specs.Restarts as restarts;
ghost use Rattle.hay_audit_steps.specs.BoxReopen as box_reopen;
ghost use Rattle.hay_audit_steps.specs.Reopen as reopen;
ghost use Rattle.hay_audit.specs.Restarting as restarting;

use crate::photos::has_pair_at;
use crate::spread::{machine_of, replica_on};
use crate::state::{ReplicaState, VolumeState};
use hay_base::{Listed, NoMemory};
use hay_core::Entry;
use hay_legal::known::{HomeRow, Pending, PendingRow};
use hay_needle::Settings;
use hay_reply::Note;
use std::alloc::Global;

/// What a note says of a replica's pending change.
fn kept_by(volume: u32, machine: u32, line: u64, note: &Note) -> Option<bool>
    ensures { result ≡ reopen.kept_by volume machine line note.now }
{
    match note {
        Note::Kept {
            volume: v,
            machine: m,
            line: n,
        } => {
            if *v == volume && (*m == machine && *n == line) {
                Some(true)
            } else {
                None
            }
        }
        Note::Lost {
            volume: v,
            machine: m,
            line: n,
        } => {
            if *v == volume && (*m == machine && *n == line) {
                Some(false)
            } else {
                None
            }
        }
        Note::KeptDir { .. }
        | Note::LostDir { .. }
        | Note::Log { .. }
        | Note::Rows { .. }
        | Note::OpenShelf { .. }
        | Note::OpenFailed { .. }
        | Note::OpenDamaged { .. } => None,
    }
}

/// What the first notes say of the replicas, one for each.
fn read_kept(
    alloc: Global,
    settings: &Settings,
    volume: u32,
    line: u64,
    replicas: &[ReplicaState],
    notes: &[Note],
) -> Result<Option<Listed<bool>>, NoMemory>
    requires { 0 < settings.now.machines }
    ensures some { IfOk result (λ read. IfSome read (λ kept. reopen.read_kept settings.now volume line 0 replicas.now notes.now
        ≡ Some (record { value = kept; rest = drop (length replicas.now) notes.now }))) }
    ensures none { IfOk result (λ read. IfNone read (reopen.read_kept settings.now volume line 0 replicas.now notes.now ≡ None)) }
    ensures within { IfOk result (λ read. IfSome read (λ kept. length replicas.now ≤ length notes.now)) }
{
    let mut all = Listed::new(alloc);
    for j in 0..replicas.len() {
        if j >= notes.len() {
            return Ok(None);
        }
        let Some(kept) = kept_by(volume, machine_of(settings, volume, j), line, &notes[j]) else {
            return Ok(None);
        };
        all.push(kept)?;
    }
    Ok(Some(all))
}

/// The answer of this number is this one.
fn is_said(flag: bool, kept: &[bool], j: usize) -> bool
    ensures { result ≡ reopen.says flag (slice_get kept.now j) }
{
    match kept.get(j) {
        Some(answer) => *answer == flag,
        None => false,
    }
}

/// A deletion that had nothing to delete there.
fn nothing_at(volume: &VolumeState, change: &Entry, j: usize) -> bool
    ensures { result ≡ restarts.nothing_at volume.now change.now j }
{
    match change {
        Entry::Put { .. } => false,
        Entry::Del { pair } => !has_pair_at(volume, j, *pair),
    }
}

fn all_kept(kept: &[bool], count: usize) -> bool
    ensures { result ≡ reopen.all_below (λ j. reopen.says true (slice_get kept.now j)) count }
{
    let mut left = count;
    while left > 0 {
        left -= 1;
        if !is_said(true, kept, left) {
            return false;
        }
    }
    true
}

fn nothing_kept(volume: &VolumeState, change: &Entry, kept: &[bool]) -> bool
    ensures { result ≡ reopen.all_below (λ j. not (restarts.nothing_at volume.now change.now j) || reopen.says true (slice_get kept.now j)) (length kept.now) }
{
    let mut left = kept.len();
    while left > 0 {
        left -= 1;
        if nothing_at(volume, change, left) && !is_said(true, kept, left) {
            return false;
        }
    }
    true
}

fn none_above(volume: &VolumeState, change: &Entry, failed_at: usize, kept: &[bool]) -> bool
    ensures { result ≡ reopen.all_below (λ j. not (nat_lt failed_at j) || (restarts.nothing_at volume.now change.now j || reopen.says false (slice_get kept.now j))) (length kept.now) }
{
    let mut left = kept.len();
    while left > 0 {
        left -= 1;
        if failed_at < left && !nothing_at(volume, change, left) && !is_said(false, kept, left) {
            return false;
        }
    }
    true
}

/// Whether a change that failed may be kept so: where the volume's machine stands, and below.
fn kept_on(
    settings: &Settings,
    number: u32,
    volume: &VolumeState,
    change: &Entry,
    kept: &[bool],
) -> bool
    requires { 0 < settings.now.machines }
    ensures { result ≡ reopen.kept_on settings.now number volume.now change.now volume.now.frozen kept.now }
{
    let Some(machine) = volume.frozen else {
        return false;
    };
    let Some(failed_at) = replica_on(settings, number, machine) else {
        return false;
    };
    let failed_at = failed_at as usize;
    all_kept(kept, failed_at)
        && (nothing_kept(volume, change, kept) && none_above(volume, change, failed_at, kept))
}

/// A put that wanted memory is kept on the first so many replicas.
#[tactic(auto, using(crate::proofs::Reopened::front_next, crate::proofs::Reopened::front_end))]
fn is_front(kept: &[bool]) -> bool
    ensures { result ≡ box_reopen.is_front kept.now }
{
    let mut kept_all = true;
    for flag in kept {
        if *flag && !kept_all {
            return false;
        }
        kept_all = *flag;
    }
    true
}

/// Whether a change that wanted memory may be kept so: a put on the first so many replicas, a deletion on all.
fn kept_first(change: &Entry, kept: &[bool]) -> bool
    ensures { result ≡ box_reopen.kept_first change.now kept.now }
{
    match change {
        Entry::Put { .. } => is_front(kept),
        Entry::Del { .. } => all_kept(kept, kept.len()),
    }
}

fn may_keep(
    settings: &Settings,
    number: u32,
    volume: &VolumeState,
    pending: &Pending,
    kept: &[bool],
) -> bool
    requires { 0 < settings.now.machines }
    ensures { result ≡ box_reopen.may_keep settings.now number volume.now pending.now pending.now.failed kept.now }
{
    if pending.failed {
        kept_on(settings, number, volume, &pending.entry, kept)
    } else {
        kept_first(&pending.entry, kept)
    }
}

/// Which replicas kept a volume's pending change, and how many notes tell of it.
#[derive(Drop)]
pub(crate) struct KeptBy {
    pub kept: Listed<bool>,
    pub used: usize,
}

/// What the first notes say of a volume's pending change, if one is pending, and if it may have been kept so.
pub(crate) fn volume_kept(
    alloc: Global,
    settings: &Settings,
    number: u32,
    volume: &VolumeState,
    notes: &[Note],
) -> Result<Option<KeptBy>, NoMemory>
    requires { 0 < settings.now.machines }
    ensures some { IfOk result (λ made. IfSome made (λ told. box_reopen.volume_kept settings.now number volume.now notes.now volume.now.pending
        ≡ Some (record { value = told.kept; rest = drop told.used notes.now }))) }
    ensures within { IfOk result (λ made. IfSome made (λ told. told.used ≤ length notes.now)) }
    ensures none { IfOk result (λ made. IfNone made (box_reopen.volume_kept settings.now number volume.now notes.now volume.now.pending ≡ None)) }
{
    let Some(pending) = &volume.pending else {
        return Ok(Some(KeptBy {
            kept: Listed::new(alloc),
            used: 0,
        }));
    };
    let replicas = volume.replicas.as_slice();
    let Some(kept) = read_kept(alloc, settings, number, pending.tag.line, replicas, notes)? else {
        return Ok(None);
    };
    if !may_keep(settings, number, volume, pending, kept.as_slice()) {
        return Ok(None);
    }
    Ok(Some(KeptBy {
        kept,
        used: replicas.len(),
    }))
}

/// The row that the last notes say was kept, if one was pending. With none, the notes say nothing so.
pub(crate) fn new_row(pending: &Option<PendingRow>, notes: &[Note]) -> Option<Option<HomeRow>>
    ensures { option_map restarting.row_list result ≡ reopen.new_rows pending.now notes.now }
{
    let Some(pending) = pending else {
        return if notes.is_empty() { Some(None) } else { None };
    };
    match notes {
        [Note::KeptDir { line }] => {
            if *line == pending.tag.line {
                Some(Some(pending.row))
            } else {
                None
            }
        }
        [Note::LostDir { line }] => {
            if *line == pending.tag.line {
                Some(None)
            } else {
                None
            }
        }
        _ => None,
    }
}
