//! A block of lines over an open store.
ghost use Rattle.std.specs.Prelude.{◌≡◌, ◌≢◌, ◌<◌, ◌≤◌, ◌+◌, ◌++◌, List, drop, length, map, reverse, vec_capacity, IfOk, OnErr, IsErr};
ghost use Rattle.std.specs.List.{AllByRecursion, AllZip};
ghost use Rattle.hay_reply.specs.Fits.{FitsNote, FitsReply};
ghost use Rattle.hay_legal.specs.declared.known.Known.{Known};
ghost use Rattle.hay_legal.specs.declared.turn.LaneItem.{LaneItem};
ghost use Rattle.hay_legal.specs.Known.{EachPair, NoneFalls};
ghost use Rattle.hay_block.specs.Lines.{AnswersBad, AnswersSuited, AreItems, BlameArms, IsServed};
ghost use Rattle.hay_directory.specs.State.{home_of};
ghost use Rattle.hay_cluster.specs.Causes.{StaySure};
ghost use Rattle.hay_cluster.specs.State.{Stands};
ghost use Rattle.hay_cluster.specs.Store.{IsShaped, IsUp, disks_of};
ghost use Rattle.hay_cluster_block.specs.Blocks.{RanBlock, StaysAs};
ghost use Rattle.hay_cluster_block.specs.Notes.{AreBlockNotes, AreWithin, TellsRowsOf, entered_notes, entered_rows};
ghost use Rattle.hay_cluster_block.specs.Rows.{all_jobs};

use crate::arms::{apart, read_counts, together};
use crate::notes::notes_of;
use hay_base::NoMemory;
use hay_block::{BlockAnswers, Job, ReplyText, StoreParts};
use hay_cluster::{Cluster, ClusterParts};
use hay_directory::Directory;
use hay_disk::{Arm, Disk, Piece};
use hay_lanes::Gate;
use hay_locks::run_on_locks;
use hay_logical::Logical;
use hay_needle::Settings;
use hay_reader::LaneSeat;
use hay_reply::Note;
use hay_script::MAX_LANES;
use std::alloc::Global;
use std::sync::Wait;
use std::thread::Threads;

/// The replies of each lane, in the order of its lines, and the notes behind them, which may want memory.
#[derive(Drop)]
pub struct BlockReplies {
    pub replies: Vec<Vec<ReplyText>>,
    pub notes: Result<Vec<Note>, NoMemory>,
}

// The answers of a block, with its notes as they are written.
fn told<D: Disk>(
    alloc: Global,
    directory: &Directory<D>,
    jobs: &[Vec<Job>],
    answers: BlockAnswers,
) -> BlockReplies
    ensures replies { result.replies ≡ answers.replies }
    ensures notes { IfOk answers.notes (λ entered. IfOk result.notes (λ notes. notes.items ≡ entered_notes (home_of directory.now) jobs.now entered)) }
    ensures within { IfOk answers.notes (λ entered. IfOk result.notes (λ notes. AreWithin directory.now.settings.volumes (entered_rows (home_of directory.now) jobs.now entered))) }
    ensures wanted { OnErr answers.notes (IsErr result.notes) }
    ensures fits { IfOk result.notes (λ notes. AllByRecursion FitsNote notes.items) }
{
    let BlockAnswers { replies, notes } = answers;
    match notes {
        Ok(entered) => BlockReplies {
            replies,
            notes: notes_of(alloc, directory, jobs, entered),
        },
        Err(error) => BlockReplies {
            replies,
            notes: Err(error),
        },
    }
}

// The store of the parts that a block leaves, and of the arms of the other lanes.
fn restored<D: Disk, A: Arm<D::Piece>>(
    settings: Settings,
    parts: StoreParts<Logical<D>, Directory<D>, A>,
    others: Vec<LaneSeat<A>>,
) -> Cluster<D, A>
    requires shape { IsShaped (record {
      settings = settings;
      directory = parts.directory;
      volumes = parts.volumes.items;
      arms = parts.arms.items ++ reverse others.items;
    }) }
    requires room { length parts.arms.items + length others.items ≤ vec_capacity others }
    ensures settings { result.settings ≡ settings }
    ensures directory { result.directory ≡ parts.directory }
    ensures volumes { result.volumes ≡ parts.volumes.items }
    ensures arms { result.arms ≡ parts.arms.items ++ reverse others.items }
{
    let StoreParts {
        volumes,
        directory,
        arms,
    } = parts;
    Cluster::from_parts(ClusterParts {
        settings,
        directory,
        volumes,
        arms: together(arms, others),
    })
}

/// Answers all lines of all lanes, lane `i` those of list `i`, each lane by a thread of its own. Behind `NoMemory` no line was answered, and
/// the store stands for what it stood for.
pub fn run_block<D, P, A, G, R>(
    rt: &R,
    alloc: Global,
    cluster: Cluster<D, A>,
    jobs: &[Vec<Job>],
    gate: &G,
) -> (Cluster<D, A>, Result<BlockReplies, NoMemory>)
where
    D: Disk<Piece = P> + Send + Sync,
    P: Piece + Send + Sync,
    A: Arm<P> + Send + Drop,
    G: Gate + Sync,
    R: Threads + Wait + Sync,
    requires up { IsUp cluster }
    requires some { 0 < length jobs.now }
    requires few { length jobs.now ≤ MAX_LANES }
    requires served { AllByRecursion (λ js. AllByRecursion (λ job. IsServed job.item) js.items) jobs.now }
    ensures up { IsUp result.0 }
    ensures settings { result.0.settings ≡ cluster.settings }
    // Whatever the disks tell, each line is answered by a reply that suits it, each row that a note tells is of a volume of the store and of a line that put its pair,
    // no count falls, the arm of a lane that the block has not is as it was, and a sure arm stays sure and is told as no cause.
    ensures replies { IfOk result.1 (λ answers. AllZip (λ js rs. length js.items ≡ length rs.items) jobs.now answers.replies.items) }
    ensures suits { IfOk result.1 (λ answers. AllZip (λ js rs. AllZip (AnswersSuited cluster.settings) js.items rs.items) jobs.now answers.replies.items) }
    ensures bad { IfOk result.1 (λ answers. AllZip (λ js rs. AllZip AnswersBad js.items rs.items) jobs.now answers.replies.items) }
    ensures blames { IfOk result.1 (λ answers. BlameArms A.is_sure A.fault_count cluster.arms result.0.arms (map (λ rs. rs.items) answers.replies.items)) }
    ensures fits { IfOk result.1 (λ answers. AllByRecursion (λ rs. AllByRecursion FitsReply rs.items) answers.replies.items) }
    ensures notes { IfOk result.1 (λ answers. IfOk answers.notes (λ notes. AreBlockNotes cluster.settings.volumes notes.items × AllByRecursion FitsNote notes.items)) }
    ensures rows { IfOk result.1 (λ answers. IfOk answers.notes (λ notes. AllByRecursion (TellsRowsOf (home_of result.0.directory) (all_jobs jobs.now)) notes.items)) }
    ensures counts { NoneFalls (map D.fault_count (disks_of cluster)) (map D.fault_count (disks_of result.0)) }
    ensures fuses { map D.fuse_count (disks_of result.0) ≡ map D.fuse_count (disks_of cluster) }
    ensures arm_counts { NoneFalls (map A.fault_count cluster.arms) (map A.fault_count result.0.arms) }
    ensures other_arms { drop (length jobs.now) result.0.arms ≡ drop (length jobs.now) cluster.arms }
    ensures sure_arms { StaySure A.is_sure A.fault_count cluster.arms result.0.arms }
    ensures refused { OnErr result.1 (StaysAs D.Tells D.files P.Tells D.fault_count D.fuse_count A.fault_count cluster result.0) }
    // Where the disks tell, the lines are a legal block of what was known, in any order that keeps each lane's own, the notes tell of all
    // new entries and rows, and the store stands for what is known behind it.
    ensures legal { D.Tells → IfOk result.1 (λ answers. (k : Known) →
        Stands D.files P.Tells D.fault_count D.fuse_count A.fault_count cluster k → (items : List LaneItem) →
        AreItems (map (λ js. js.items) jobs.now) (map (λ rs. rs.items) answers.replies.items) items → EachPair (λ a b. a.line ≢ b.line) items →
        RanBlock D.files P.Tells D.fault_count D.fuse_count A.fault_count k items answers.notes result.0) }
{
    let ClusterParts {
        settings,
        directory,
        volumes,
        arms,
    } = cluster.into_parts();
    match apart(alloc, arms, jobs.len()) {
        Ok((arms, others)) => {
            read_counts::<P, A>(others.as_slice());
            let parts = StoreParts {
                volumes,
                directory,
                arms,
            };
            let (parts, answer) = run_on_locks(rt, alloc, settings, parts, jobs, gate);
            match answer {
                Ok(answers) => {
                    let replies = told(alloc, &parts.directory, jobs, answers);
                    (restored(settings, parts, others), Ok(replies))
                }
                Err(error) => (restored(settings, parts, others), Err(error)),
            }
        }
        Err((arms, error)) => {
            let parts = ClusterParts {
                settings,
                directory,
                volumes,
                arms,
            };
            (Cluster::from_parts(parts), Err(error))
        }
    }
}
