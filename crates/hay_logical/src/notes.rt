//! What an opening tells of a change that was broken off before the stop.
ghost use Rattle.std.specs.Prelude.{◌≡◌, ◌≤◌, ◌<◌, ℕ, length, map, IfOk};
ghost use Rattle.std.specs.List.{AllByRecursion};
ghost use Rattle.hay_reply.specs.Fits.{FitsNote};
ghost use Rattle.hay_legal.specs.Known.{machine_of};
ghost use Rattle.hay_legal.specs.Restarts.{replica_notes};
ghost use Rattle.hay_physical.specs.OpenCopies.{Copy, IsOpenCopy};
ghost use Rattle.hay_logical.specs.Fits.{At};
ghost use Rattle.hay_logical.specs.Volumes.{IsOfSettings};
ghost use Rattle.hay_logical.specs.Notes.{KeptIn, NotesTell, keeps, may_be_live};
ghost use Rattle.hay_logical.specs.Seen.{replica_seen};
ghost use Rattle.hay_logical.specs.Sights.{sight, sights_of};

use crate::unsure::{Change, Unsure};
use arrayvec::ArrayVec;
use hay_base::{Listed, NoMemory};
use hay_disk::{Disk, Piece};
use hay_map::{MapView, Place};
use hay_needle::{MAX_REPLICAS, Settings};
use hay_physical::Replica;
use hay_reply::Note;
use std::alloc::Global;

/// The machine of a replica.
pub(crate) fn machine_of(settings: &Settings, number: u32, replica: u32) -> u32
    requires of { IsOfSettings settings.now number }
    requires within { replica < MAX_REPLICAS }
    ensures { result ≡ machine_of settings.now number replica }
{
    (number + replica) % settings.machines
}

// Whether a place is that of a photo, for all that was seen.
fn may_be_live<P: Piece>(place: &Place<P>) -> bool
    ensures { result ≡ may_be_live (sight place.now) }
{
    match place {
        Place::Live(_) | Place::Unseen { .. } => true,
        Place::None | Place::Gone => false,
    }
}

// Whether a replica whose cells end here has the change.
fn is_kept<P: Piece>(change: &Change, rows: &MapView<P>, replica: usize, end: u64) -> bool
    requires within { replica < rows.now.replicas }
    requires most { replica < MAX_REPLICAS }
    ensures { result ≡ keeps change.now (sights_of rows.now) replica end }
{
    match change {
        Change::Put { ends } => ends[replica] < end,
        Change::Delete { pair } => {
            let row = rows.row(*pair);
            !may_be_live(row.place(replica))
        }
    }
}

// Which replicas have the change.
fn kept_in<D: Disk>(
    change: &Change,
    replicas: &[Replica<D>],
    rows: &MapView<D::Piece>,
) -> ArrayVec<bool, 4>
    requires most { length replicas.now ≤ MAX_REPLICAS }
    requires open { (j : ℕ) (r : Copy D) → At replicas.now j r → IsOpenCopy r }
    requires width { rows.now.replicas ≡ length replicas.now }
    ensures { KeptIn change.now (sights_of rows.now) (map replica_seen replicas.now) result.items }
{
    let mut kept = ArrayVec::new();
    for (j, replica) in replicas.iter().enumerate() {
        kept.push(is_kept(change, rows, j, replica.end()));
    }
    kept
}

// One note for each replica.
fn notes_from(
    alloc: Global,
    settings: &Settings,
    number: u32,
    line: u64,
    kept: &[bool],
) -> Result<Listed<Note>, NoMemory>
    requires of { IsOfSettings settings.now number }
    requires most { length kept.now ≤ MAX_REPLICAS }
    ensures are { IfOk result (λ notes. notes ≡ replica_notes settings.now number line 0 kept.now) }
    ensures fits { IfOk result (AllByRecursion FitsNote) }
{
    let mut notes = Vec::new(alloc);
    for (j, is) in kept.iter().enumerate() {
        let machine = machine_of(settings, number, j as u32);
        notes.push(if *is {
            Note::Kept {
                volume: number,
                machine,
                line,
            }
        } else {
            Note::Lost {
                volume: number,
                machine,
                line,
            }
        })?;
    }
    Ok(Listed::from_vec(notes))
}

/// The notes of an opening: of each replica, whether it has the change that was broken off.
pub(crate) fn notes_of<D: Disk>(
    alloc: Global,
    settings: &Settings,
    number: u32,
    unsure: &Option<Unsure>,
    replicas: &[Replica<D>],
    rows: &MapView<D::Piece>,
) -> Result<Listed<Note>, NoMemory>
    requires of { IsOfSettings settings.now number }
    requires most { length replicas.now ≤ MAX_REPLICAS }
    requires open { (j : ℕ) (r : Copy D) → At replicas.now j r → IsOpenCopy r }
    requires width { rows.now.replicas ≡ length replicas.now }
    ensures are { IfOk result (NotesTell settings.now number unsure.now (sights_of rows.now) (map replica_seen replicas.now)) }
    ensures fits { IfOk result (AllByRecursion FitsNote) }
{
    match unsure {
        None => Ok(Listed::new(alloc)),
        Some(unsure) => {
            let kept = kept_in(&unsure.change, replicas, rows);
            notes_from(alloc, settings, number, unsure.tag.line, kept.as_slice())
        }
    }
}
