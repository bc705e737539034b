//! A block of lines over the volumes and the Directory of a store.
ghost use Rattle.std.specs.Prelude.{◌≡◌, ◌≢◌, ◌<◌, ◌≤◌, ◌-◌, ◌^◌, ℕ, List, Bool, length, map, take, IfOk, OnErr, OnOk};
ghost use Rattle.std.specs.List.{AllByRecursion, AllZip};
ghost use Rattle.hay_legal.specs.declared.known.DirKnown.{DirKnown};
ghost use Rattle.hay_legal.specs.declared.known.Known.{Known};
ghost use Rattle.hay_legal.specs.declared.known.VolumeKnown.{VolumeKnown};
ghost use Rattle.hay_legal.specs.declared.turn.LaneItem.{LaneItem};
ghost use Rattle.hay_legal.specs.declared.turn.LogNote.{LogNote};
ghost use Rattle.hay_legal.specs.declared.turn.RowNote.{RowNote};
ghost use Rattle.hay_reply.specs.Fits.{FitsReply};
ghost use Rattle.hay_legal.specs.Known.{EachPair};
ghost use Rattle.hay_lane.specs.Lanes.{IsLaterArm};
ghost use Rattle.hay_block.specs.Frames.{AreFit, HasRoom};
ghost use Rattle.hay_block.specs.Lines.{AnswersBad, AnswersSuited, AreItems, BlameArms, IsServed};
ghost use Rattle.hay_shared_volume.specs.Making.{AreSeated, IsVolumeOf, VolumeStands, count_of};
ghost use Rattle.hay_block.specs.Making.{LeavesDirectory};
ghost use Rattle.hay_block.specs.Stores.{AreUpwards, AreVolumes, CountsRise, FusesStay, RanLegally, StoreStands, line_of_tag, notes_from};
ghost use Rattle.hay_block.specs.Parts.{IsSameParts, NotesTell};

use crate::block::{Locked, Rooms, run_locked};
use crate::locks::DirectoryLocks;
use crate::notes::{fronts_of, log_notes};
use crate::text::ReplyText;
use crate::worker::Job;
use hay_base::NoMemory;
use hay_disk::{Arm, Disk, Piece};
use hay_front::Tag;
use hay_lanes::Gate;
use hay_legal::turn::LogNote;
use hay_logical::Logical;
use hay_needle::Settings;
use hay_reader::LaneSeat;
use hay_script::MAX_LANES;
use hay_shared_volume::SharedVolume;
use hay_volume_lock::VolumeSeat;
use std::alloc::Global;
use std::sync::Wait;
use std::thread::Threads;

/// The volumes of a store in their order, its Directory, and the arms of the lanes of a block.
pub struct StoreParts<W, F, A> {
    pub volumes: Vec<W>,
    pub directory: F,
    pub arms: Vec<LaneSeat<A>>,
}

/// What was entered in a block: a note on each volume with changes, and how many rows stood before, with the tags of those that came.
#[derive(Drop)]
pub struct BlockNotes {
    pub logs: Vec<LogNote>,
    pub rows: u64,
    pub added: Vec<Tag>,
}

/// The replies of each lane, in the order of its lines, and the notes behind them, which may want memory.
#[derive(Drop)]
pub struct BlockAnswers {
    pub replies: Vec<Vec<ReplyText>>,
    pub notes: Result<BlockNotes, NoMemory>,
}

// What a block takes before its locks: which machines are drained, how many changes and rows stand, and room.
struct Ready<V, S: Drop, T: Drop, A> {
    drained: Vec<bool>,
    fronts: Vec<u64>,
    rows: u64,
    rooms: Rooms<V, S, T, A>,
}

fn ready_for<D, L, V, S, T, A, F, U>(
    alloc: Global,
    parts: &StoreParts<Logical<D>, F, A>,
    lanes: usize,
) -> Result<Ready<V, S, T, A>, NoMemory>
where
    D: Disk,
    L: DirectoryLocks<Seat = T, Directory = F, Room = U>,
    S: Drop,
    T: Drop,
    A: Drop,
    F: Drop,
    U: Drop,
    ensures long { IfOk result (λ r. (settings : Settings) → L.is_of parts.now.directory settings → length r.drained.items ≡ settings.machines) }
    ensures drained { IfOk result (λ r. (known : DirKnown) (drained : List Bool) → L.stands parts.now.directory known drained → r.drained.items ≡ drained) }
    ensures rows { IfOk result (λ r. (known : DirKnown) (drained : List Bool) → L.stands parts.now.directory known drained → r.rows ≡ length known.rows) }
    ensures fronts { IfOk result (λ r. AllZip (λ volume front. (known : VolumeKnown) → VolumeStands D.Tells D.files D.Piece.Tells volume known → front ≡ length known.log)
        parts.now.volumes.items r.fronts.items) }
    ensures room { IfOk result (λ r. HasRoom lanes (length parts.now.volumes.items) r.rooms) }
{
    let drained = L::drained(alloc, &parts.directory)?;
    let fronts = fronts_of::<D>(alloc, parts.volumes.as_slice())?;
    let rows = L::rows(&parts.directory);
    let rooms = Rooms::new(alloc, lanes, parts.volumes.len())?;
    Ok(Ready {
        drained,
        fronts,
        rows,
        rooms,
    })
}

// Ends the Directory's lock.
fn unlocked<L, T, A, W, F, U, R>(
    rt: &R,
    locked: Locked<L, T, A, W>,
    room: U,
) -> (StoreParts<W, F, A>, Vec<Tag>)
where
    L: DirectoryLocks<Seat = T, Directory = F, Room = U>,
    T: Drop,
    A: Drop,
    W: Drop,
    F: Drop,
    U: Drop,
    R: Wait,
    requires made { (directory : F) × (settings : Settings) × L.is_made locked.lock room directory settings (length locked.seats.items)
        × AreSeated L.fits locked.lock settings (length locked.seats.items) locked.seats.items }
    ensures volumes { result.0.volumes ≡ locked.volumes }
    ensures arms { result.0.arms ≡ locked.arms }
    ensures left { (directory : F) (settings : Settings) → L.is_made locked.lock room directory settings (length locked.seats.items) →
        AreSeated L.fits locked.lock settings (length locked.seats.items) locked.seats.items →
        LeavesDirectory L.sight L.stands L.faults L.fuses directory locked.seats.items result.0.directory result.1.items × L.is_of result.0.directory settings }
{
    let Locked {
        lock,
        seats,
        volumes,
        arms,
    } = locked;
    let (directory, added) = lock.close(rt, seats, room);
    let parts = StoreParts {
        volumes,
        directory,
        arms,
    };
    (parts, added)
}

// The notes of a block over so many volumes.
fn notes_of(
    alloc: Global,
    volumes: u32,
    fronts: &[u64],
    tags: &[Vec<Tag>],
    rows: u64,
    added: Vec<Tag>,
) -> Result<BlockNotes, NoMemory>
    requires many { length fronts.now ≡ volumes }
    requires as_many { length tags.now ≡ volumes }
    ensures logs { IfOk result (λ notes. notes.logs.items ≡ notes_from 0 fronts.now (map (λ own. map line_of_tag own.items) tags.now)) }
    ensures rows { IfOk result (λ notes. notes.rows ≡ rows) }
    ensures added { IfOk result (λ notes. notes.added ≡ added) }
{
    let logs = log_notes(alloc, fronts, tags)?;
    Ok(BlockNotes { logs, rows, added })
}

// Reads how many fetches of each arm have failed, which is a number of 64 bits.
fn read_counts<P: Piece, A: Arm<P>>(arms: &[LaneSeat<A>])
    ensures { AllByRecursion (λ arm. A.fault_count arm ≤ 2 ^ 64 - 1) arms.now }
{
    for arm in arms {
        let _faults = arm.faults::<P>();
    }
}

/// Answers all lines of all lanes, lane `i` those of list `i` with arm `i`, by locks that are made of the volumes and of the Directory for
/// them, and end behind them. Behind `NoMemory` all stands as it stood, and no line was answered.
pub fn run_block<D, P, L, T, A, F, U, G, R>(
    rt: &R,
    alloc: Global,
    settings: Settings,
    parts: StoreParts<Logical<D>, F, A>,
    jobs: &[Vec<Job>],
    gate: &G,
) -> (StoreParts<Logical<D>, F, A>, Result<BlockAnswers, NoMemory>)
where
    D: Disk<Piece = P> + Send + Sync,
    P: Piece + Send + Sync,
    L: DirectoryLocks<Seat = T, Directory = F, Room = U> + Send + Sync,
    T: Send + Drop,
    A: Arm<P> + Send + Drop,
    F: Drop,
    U: Drop,
    G: Gate + Sync,
    R: Threads + Wait + Sync,
    requires fit { AreFit settings }
    requires volumes { AreVolumes IsVolumeOf settings parts.volumes.items }
    requires directory { L.is_of parts.directory settings }
    requires arms { length parts.arms.items ≡ length jobs.now }
    requires some { 0 < length jobs.now }
    requires few { length jobs.now ≤ MAX_LANES }
    requires served { AllByRecursion (λ js. AllByRecursion (λ job. IsServed job.item) js.items) jobs.now }
    ensures volumes { AreVolumes IsVolumeOf settings result.0.volumes.items }
    ensures directory { L.is_of result.0.directory settings }
    ensures arms { length result.0.arms.items ≡ length jobs.now }
    ensures refused { OnErr result.1 (IsSameParts (VolumeStands D.Tells D.files P.Tells) (count_of D.fault_count) (count_of D.fuse_count) settings parts result.0) }
    // Whatever the disks tell, each line is answered, by a reply that suits it, no count of a disk or of an arm falls, and no fuse is set. An arm that
    // was sure is so still, with the same count, and is told as no cause.
    ensures replies { IfOk result.1 (λ answers. AllZip (λ js rs. length js.items ≡ length rs.items) jobs.now answers.replies.items) }
    ensures suits { IfOk result.1 (λ answers. AllZip (λ js rs. AllZip (AnswersSuited settings) js.items rs.items) jobs.now answers.replies.items) }
    ensures bad { IfOk result.1 (λ answers. AllZip (λ js rs. AllZip AnswersBad js.items rs.items) jobs.now answers.replies.items) }
    ensures blames { IfOk result.1 (λ answers. BlameArms A.is_sure A.fault_count parts.arms.items result.0.arms.items (map (λ rs. rs.items) answers.replies.items)) }
    ensures fits { IfOk result.1 (λ answers. AllByRecursion (λ rs. AllByRecursion FitsReply rs.items) answers.replies.items) }
    ensures upwards { IfOk result.1 (λ answers. IfOk answers.notes (λ notes. AreUpwards settings.volumes notes.logs.items)) }
    ensures arms_rise { AllZip (IsLaterArm A.is_sure A.fault_count) parts.arms.items result.0.arms.items }
    ensures rises { CountsRise settings (count_of D.fault_count) L.faults parts.volumes.items parts.directory result.0.volumes.items result.0.directory }
    ensures unfused { FusesStay settings (count_of D.fuse_count) L.fuses parts.volumes.items parts.directory result.0.volumes.items result.0.directory }
    // Where the disks tell, the lines are a legal block of what was known, in any order that keeps each lane's own, with these notes, and
    // the parts stand for what is known behind it.
    ensures legal { IfOk result.1 (λ answers. (k : Known) (others : List ℕ) →
        StoreStands (VolumeStands D.Tells D.files P.Tells) (count_of D.fault_count) (count_of D.fuse_count) L.stands L.faults L.fuses A.fault_count settings parts.volumes.items
        parts.directory parts.arms.items others k →
        AllByRecursion (λ f. f ≤ 2 ^ 64 - 1) others → (items : List LaneItem) →
        AreItems (map (λ js. js.items) jobs.now) (map (λ rs. rs.items) answers.replies.items) items → EachPair (λ a b. a.line ≢ b.line) items →
        (logs : List LogNote) × (rows : RowNote) × IfOk answers.notes (NotesTell logs rows)
        × RanLegally (VolumeStands D.Tells D.files P.Tells) (count_of D.fault_count) (count_of D.fuse_count) L.stands L.faults L.fuses A.fault_count settings k items logs rows
        result.0.volumes.items result.0.directory result.0.arms.items others) }
{
    let Ok(ready) = ready_for::<D, L, SharedVolume<D, P>, VolumeSeat<D, P>, T, A, F, U>(
        alloc,
        &parts,
        jobs.len(),
    ) else {
        return (parts, Err(NoMemory));
    };
    let Ready {
        drained,
        fronts,
        rows,
        rooms,
    } = ready;
    let StoreParts {
        volumes,
        directory,
        arms,
    } = parts;
    match L::new(rt, alloc, settings, directory, jobs.len() as u32) {
        Ok((lock, seats, room)) => {
            let locked = Locked {
                lock,
                seats,
                volumes,
                arms,
            };
            let (locked, tags, answer) = run_locked::<D, P, L, T, A, G, R>(
                rt, alloc, settings, drained, rooms, locked, jobs, gate,
            );
            let (parts, added) = unlocked::<L, T, A, Logical<D>, F, U, R>(rt, locked, room);
            read_counts::<P, A>(parts.arms.as_slice());
            match answer {
                Ok(replies) => {
                    let notes = notes_of(
                        alloc,
                        settings.volumes,
                        fronts.as_slice(),
                        tags.as_slice(),
                        rows,
                        added,
                    );
                    (parts, Ok(BlockAnswers { replies, notes }))
                }
                Err(error) => (parts, Err(error)),
            }
        }
        Err((directory, error)) => {
            rooms.destroy_empty();
            let parts = StoreParts {
                volumes,
                directory,
                arms,
            };
            (parts, Err(error))
        }
    }
}
