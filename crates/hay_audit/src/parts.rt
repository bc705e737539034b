//! Volumes behind a restart, with the ranges of their replicas.

ghost use Rattle.std.specs.Prelude.{◌≡◌, ◌++◌, ◌∷◌, ◌<◌, ◌^◌, [], map, flat_map, if◌then◌else◌, IfOk, OnOk};
ghost use Rattle.std.specs.Option.{option_copied};
ghost use Rattle.std.specs.List.{AllByRecursion as Each};
ghost use Rattle.hay_legal.specs.Restarts as restarts;
ghost use Rattle.hay_audit_steps.specs.BoxReopen as box_reopen;
ghost use Rattle.hay_audit_steps.specs.Boxes as boxes;
ghost use Rattle.hay_audit_steps.specs.Parts as parts;
ghost use Rattle.hay_audit_steps.specs.Reopen as reopen;
ghost use Rattle.hay_audit_steps.specs.Slacks.{Slack as SlackOf};
ghost use Rattle.hay_audit.specs.Choosing as choosing;
ghost use Rattle.hay_audit.specs.Restarting as restarting;
ghost use Rattle.hay_audit.specs.Sizes.{ChangeMayGrow, IsSlight, MayGrow, VolumeMayGrow};

use crate::boxes::{Slack, no_slack};
use crate::state::{ReplicaState, VolumeState};
use crate::table::behind_log;
use hay_base::{Duplicate, Listed, NoMemory};
use hay_core::Entry;
use hay_legal::known::Pending;
use hay_needle::total_of;
use std::alloc::Global;
use std::marker::Model;

/// A replica, and how much its sizes lie above the lowest.
#[derive(Drop)]
pub struct PartState {
    pub base: ReplicaState,
    pub low: Slack,
    pub high: Slack,
}

impl Model for PartState {
    ghost use Rattle.hay_audit_steps.specs.Parts.{Part};

    ghost Value = { Part };

    ghost view = { λ p. record { base = p.base; low = p.low; high = p.high } };
}

impl Duplicate for PartState {
    fn duplicate(&self, alloc: Global) -> Result<PartState, NoMemory> {
        Ok(PartState {
            base: self.base.duplicate(alloc)?,
            low: self.low,
            high: self.high,
        })
    }
}

/// What a kept change adds to a file.
#[derive(Clone, Copy)]
struct Added {
    end: u64,
    cells: u64,
}

fn added_by(change: Option<&Entry>) -> Added
    requires { Each ChangeMayGrow (restarting.change_list (option_copied change)) }
    ensures end { result.end ≡ restarts.added_end (restarting.change_list (option_copied change.entry)) }
    ensures small { result.end < 2 ^ 34 }
    ensures cells { result.cells ≡ restarts.added_cells (restarting.change_list (option_copied change.entry)) }
    ensures one { result.cells < 2 }
{
    match change {
        Some(Entry::Put { bytes, .. }) => Added {
            end: total_of(bytes.len() as u32),
            cells: 1,
        },
        Some(Entry::Del { .. }) | None => Added { end: 0, cells: 0 },
    }
}

fn reopened_replica(
    alloc: Global,
    volume: &VolumeState,
    old: &ReplicaState,
    change: Option<&Entry>,
) -> Result<ReplicaState, NoMemory>
    requires grow { MayGrow old.now }
    requires change { Each ChangeMayGrow (restarting.change_list (option_copied change)) }
    ensures { IfOk result (λ replica. replica ≡ reopen.reopened_replica volume.now old.now (restarting.change_list (option_copied change.entry))) }
{
    let mut base = behind_log(alloc, &old.base, &volume.log)?;
    if let Some(change) = change {
        base.apply(alloc, change)?;
    }
    let added = added_by(change);
    Ok(ReplicaState {
        base,
        end: old.end + added.end,
        cells: old.cells + added.cells,
        bare: old.bare + added.cells,
        generation: old.generation,
        stuck: false,
        run: None,
        poised: false,
    })
}

fn without_bare(slack: Slack, bare: u64) -> Slack
    ensures { result ≡ choosing.with_bare bare slack }
{
    Slack {
        end: slack.end,
        cells: slack.cells,
        bare,
    }
}

/// A replica that stands as it was. Where it was stuck, fewer cells may be without a record.
fn as_it_was(
    alloc: Global,
    volume: &VolumeState,
    old: &ReplicaState,
    low: Slack,
    high: Slack,
    change: Option<&Entry>,
) -> Result<PartState, NoMemory>
    requires grow { MayGrow old.now }
    requires slight { IsSlight high }
    requires change { Each ChangeMayGrow (restarting.change_list (option_copied change)) }
    ensures { IfOk result (λ part. part ≡ parts.as_it_was volume.now (boxes.part_of old.now low high) (restarting.change_list (option_copied change.entry)) old.now.stuck) }
{
    let mut base = reopened_replica(alloc, volume, old, change)?;
    if !old.stuck {
        return Ok(PartState { base, low, high });
    }
    let most = old.bare + high.bare + added_by(change).cells;
    base.bare = 0;
    Ok(PartState {
        base,
        low: without_bare(low, 0),
        high: without_bare(high, most),
    })
}

/// A poised replica that has its new file, where its sizes leave room for this.
fn as_swapped(
    alloc: Global,
    volume: &VolumeState,
    old: &ReplicaState,
    high: Slack,
    change: Option<&Entry>,
) -> Result<Option<PartState>, NoMemory>
    requires grow { MayGrow old.now }
    requires slight { IsSlight high }
    ensures { IfOk result (λ made. (low : SlackOf) → choosing.part_list made ≡ choosing.swapped_parts volume.now (boxes.part_of old.now low high)
        (restarting.change_list (option_copied change.entry))) }
{
    if !old.poised {
        return Ok(None);
    }
    let mut base = behind_log(alloc, &old.base, &volume.log)?;
    let end = base.live_end();
    let cells = base.len() as u64;
    let most_end = old.end + high.end;
    let most_cells = old.cells + high.cells;
    if u128::from(most_end) < end || most_cells < cells {
        return Ok(None);
    }
    if let Some(change) = change {
        base.apply(alloc, change)?;
    }
    let end = end as u64;
    Ok(Some(PartState {
        base: ReplicaState {
            base,
            end,
            cells,
            bare: 0,
            generation: old.generation + 1,
            stuck: false,
            run: None,
            poised: false,
        },
        low: no_slack(),
        high: Slack {
            end: most_end - end,
            cells: most_cells - cells,
            bare: 0,
        },
    }))
}

fn listed(
    alloc: Global,
    first: PartState,
    second: Option<PartState>,
) -> Result<Listed<PartState>, NoMemory>
    ensures { IfOk result (λ made. made ≡ first ∷ choosing.part_list second) }
{
    let mut made = Listed::one(alloc, first)?;
    let Some(part) = second else {
        return Ok(made);
    };
    made.push(part)?;
    Ok(made)
}

/// What a restart may find of a replica.
fn reopened_parts(
    alloc: Global,
    volume: &VolumeState,
    old: &ReplicaState,
    low: Slack,
    high: Slack,
    change: Option<&Entry>,
) -> Result<Listed<PartState>, NoMemory>
    requires grow { MayGrow old.now }
    requires slight { IsSlight high }
    requires change { Each ChangeMayGrow (restarting.change_list (option_copied change)) }
    ensures { IfOk result (λ made. made ≡ parts.reopened_parts volume.now (boxes.part_of old.now low high) (restarting.change_list (option_copied change.entry))) }
{
    let first = as_it_was(alloc, volume, old, low, high, change)?;
    let swapped = as_swapped(alloc, volume, old, high, change)?;
    let made = listed(alloc, first, swapped)?;
    Ok(made)
}

/// Adds a list with each of these behind it.
pub(crate) fn push_each<T: Duplicate>(
    alloc: Global,
    front: Listed<T>,
    choices: Listed<T>,
    out: &mut Listed<Listed<T>>,
) -> Result<(), NoMemory>
    ensures { OnOk result (out.new ≡ out.old ++ map (choosing.behind front) choices) }
{
    let mut choices = choices.into_vec();
    let Some(last) = choices.pop() else {
        return Ok(());
    };
    for choice in choices {
        let mut copy = front.duplicate(alloc)?;
        copy.push(choice)?;
        out.push(copy)?;
    }
    let mut whole = front;
    whole.push(last)?;
    out.push(whole)
}

/// The pending change, if the replica of this number kept it.
fn kept_change<'a>(pending: &'a Option<Pending>, kept: &[bool], j: usize) -> Option<&'a Entry>
    ensures { restarting.change_list (option_copied result) ≡ restarts.kept_entry pending.now (restarts.is_kept kept.now j) }
{
    let Some(pending) = pending else {
        return None;
    };
    match kept.get(j) {
        Some(true) => Some(&pending.entry),
        Some(false) | None => None,
    }
}

/// Each list with each thing behind it that a restart may find of a replica.
fn choose(
    alloc: Global,
    volume: &VolumeState,
    old: &ReplicaState,
    low: Slack,
    high: Slack,
    change: Option<&Entry>,
    fronts: Listed<Listed<PartState>>,
) -> Result<Listed<Listed<PartState>>, NoMemory>
    requires grow { MayGrow old.now }
    requires slight { IsSlight high }
    requires change { Each ChangeMayGrow (restarting.change_list (option_copied change)) }
    ensures { IfOk result (λ made. made ≡ flat_map (λ front. map (choosing.behind front)
        (parts.reopened_parts volume.now (boxes.part_of old.now low high) (restarting.change_list (option_copied change.entry)))) fronts) }
{
    let mut made = Listed::new(alloc);
    for front in fronts.into_vec() {
        let choices = reopened_parts(alloc, volume, old, low, high, change)?;
        push_each(alloc, front, choices, &mut made)?;
    }
    Ok(made)
}

/// What a restart may find of a volume's replicas, where these kept its pending change.
pub(crate) fn reopened_choices(
    alloc: Global,
    volume: &VolumeState,
    kept: &[bool],
    lows: &[Slack],
    highs: &[Slack],
) -> Result<Listed<Listed<PartState>>, NoMemory>
    requires grow { VolumeMayGrow volume.now }
    requires slight { Each IsSlight highs.now }
    ensures { IfOk result (λ made. made ≡ parts.reopened_choices volume.now kept.now 0 (box_reopen.parts_of volume.now.replicas lows.now highs.now)) }
{
    let replicas = volume.replicas.as_slice();
    let count = replicas.len().min(lows.len()).min(highs.len());
    let mut made = Listed::one(alloc, Listed::new(alloc))?;
    for j in 0..count {
        let old = &replicas[j];
        let change = kept_change(&volume.pending, kept, j);
        made = choose(alloc, volume, old, lows[j], highs[j], change, made)?;
    }
    Ok(made)
}
