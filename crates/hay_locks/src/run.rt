//! The lines of a block, answered at the locks of the volumes and of the Directory of a store.
ghost use Rattle.std.specs.Prelude.{◌≡◌, ◌≢◌, ◌≤◌, ◌<◌, ◌-◌, ◌^◌, ℕ, List, length, map, IfOk, OnErr};
ghost use Rattle.std.specs.List.{AllByRecursion, AllZip};
ghost use Rattle.hay_reply.specs.Fits.{FitsReply};
ghost use Rattle.hay_legal.specs.declared.known.Known.{Known};
ghost use Rattle.hay_legal.specs.declared.turn.LaneItem.{LaneItem};
ghost use Rattle.hay_legal.specs.declared.turn.LogNote.{LogNote};
ghost use Rattle.hay_legal.specs.declared.turn.RowNote.{RowNote};
ghost use Rattle.hay_legal.specs.Known.{EachPair};
ghost use Rattle.hay_lane.specs.Lanes.{IsLaterArm};
ghost use Rattle.hay_block.specs.Frames.{AreFit};
ghost use Rattle.hay_block.specs.Lines.{AnswersBad, AnswersSuited, AreItems, BlameArms, IsServed};
ghost use Rattle.hay_block.specs.Parts.{NotesTell};
ghost use Rattle.hay_block.specs.Stores.{AreUpwards, AreVolumes, CountsRise, FusesStay};
ghost use Rattle.hay_locks.specs.Blocks.{AreSameParts, PartsStand, RanOnParts};
ghost use Rattle.hay_locks.specs.Making.{IsDirectoryOf, rows_count_of};
ghost use Rattle.hay_shared_volume.specs.Making.{IsVolumeOf, count_of};

use crate::directory::SharedDirectory;
use hay_base::NoMemory;
use hay_block::{BlockAnswers, Job, StoreParts, run_block};
use hay_directory::Directory;
use hay_directory_lock::DirectorySeat;
use hay_disk::{Arm, Disk, Piece};
use hay_lanes::Gate;
use hay_logical::Logical;
use hay_needle::Settings;
use hay_script::MAX_LANES;
use std::alloc::Global;
use std::sync::Wait;
use std::thread::Threads;

/// Answers all lines of all lanes, lane `i` those of list `i` with arm `i`, by locks that are made of the volumes and of the Directory
/// of a store for them, and end behind them. Behind `NoMemory` all stands as it stood, and no line was answered.
pub fn run_on_locks<D, P, A, G, R>(
    rt: &R,
    alloc: Global,
    settings: Settings,
    parts: StoreParts<Logical<D>, Directory<D>, A>,
    jobs: &[Vec<Job>],
    gate: &G,
) -> (
    StoreParts<Logical<D>, Directory<D>, A>,
    Result<BlockAnswers, NoMemory>,
)
where
    D: Disk<Piece = P> + Send + Sync,
    P: Piece + Send + Sync,
    A: Arm<P> + Send + Drop,
    G: Gate + Sync,
    R: Threads + Wait + Sync,
    requires fit { AreFit settings }
    requires volumes { AreVolumes IsVolumeOf settings parts.volumes.items }
    requires directory { IsDirectoryOf parts.directory settings }
    requires arms { length parts.arms.items ≡ length jobs.now }
    requires some { 0 < length jobs.now }
    requires few { length jobs.now ≤ MAX_LANES }
    requires served { AllByRecursion (λ js. AllByRecursion (λ job. IsServed job.item) js.items) jobs.now }
    ensures volumes { AreVolumes IsVolumeOf settings result.0.volumes.items }
    ensures directory { IsDirectoryOf result.0.directory settings }
    ensures arms { length result.0.arms.items ≡ length jobs.now }
    ensures refused { OnErr result.1 (AreSameParts D.Tells D.files P.Tells D.fault_count D.fuse_count settings parts result.0) }
    // Whatever the disks tell, each line is answered, by a reply that suits it, no count of a disk or of an arm falls, no fuse is set, and a sure arm stays so
    // and is told as no cause.
    ensures replies { IfOk result.1 (λ answers. AllZip (λ js rs. length js.items ≡ length rs.items) jobs.now answers.replies.items) }
    ensures fits { IfOk result.1 (λ answers. AllByRecursion (λ rs. AllByRecursion FitsReply rs.items) answers.replies.items) }
    ensures upwards { IfOk result.1 (λ answers. IfOk answers.notes (λ notes. AreUpwards settings.volumes notes.logs.items)) }
    ensures suits { IfOk result.1 (λ answers. AllZip (λ js rs. AllZip (AnswersSuited settings) js.items rs.items) jobs.now answers.replies.items) }
    ensures bad { IfOk result.1 (λ answers. AllZip (λ js rs. AllZip AnswersBad js.items rs.items) jobs.now answers.replies.items) }
    ensures blames { IfOk result.1 (λ answers. BlameArms A.is_sure A.fault_count parts.arms.items result.0.arms.items (map (λ rs. rs.items) answers.replies.items)) }
    ensures rises { CountsRise settings (count_of D.fault_count) (rows_count_of D.fault_count) parts.volumes.items parts.directory result.0.volumes.items result.0.directory }
    ensures unfused { FusesStay settings (count_of D.fuse_count) (rows_count_of D.fuse_count) parts.volumes.items parts.directory result.0.volumes.items result.0.directory }
    ensures arms_rise { AllZip (IsLaterArm A.is_sure A.fault_count) parts.arms.items result.0.arms.items }
    // Where the disks tell, the lines are a legal block of what was known, in any order that keeps each lane's own, with these notes, and
    // the parts stand for what is known behind it.
    ensures legal { IfOk result.1 (λ answers. (k : Known) (others : List ℕ) →
        PartsStand D.Tells D.files P.Tells D.fault_count D.fuse_count A.fault_count settings parts others k →
        AllByRecursion (λ f. f ≤ 2 ^ 64 - 1) others → (items : List LaneItem) →
        AreItems (map (λ js. js.items) jobs.now) (map (λ rs. rs.items) answers.replies.items) items → EachPair (λ a b. a.line ≢ b.line) items →
        (logs : List LogNote) × (rows : RowNote) × IfOk answers.notes (NotesTell logs rows)
        × RanOnParts D.Tells D.files P.Tells D.fault_count D.fuse_count A.fault_count settings k items logs rows result.0 others) }
{
    run_block::<
        D,
        P,
        SharedDirectory<D>,
        DirectorySeat<D>,
        A,
        Directory<D>,
        hay_directory_lock::SeatRoom<D>,
        G,
        R,
    >(rt, alloc, settings, parts, jobs, gate)
}
