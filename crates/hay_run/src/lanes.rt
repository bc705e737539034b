//! A block of lanes, answered.
ghost use Rattle.std.specs.Prelude.{◌≡◌, ◌⊎◌, ◌≤◌, [], ◌∷◌, map, Err, OnOk, OnErr, IsErrOf};
ghost use Rattle.hay_disk.specs.Counts.{Rose};
ghost use Rattle.hay_disk.specs.Streams.{Wrote};
ghost use Rattle.hay_legal.specs.declared.known.Known.{Known};
ghost use Rattle.hay_legal.specs.Items.Asked.{Block};
ghost use Rattle.hay_legal.specs.Known.{NoneFalls};
ghost use Rattle.hay_cluster.specs.Causes.{StaySure};
ghost use Rattle.hay_cluster.specs.State.{Stands, Holds};
ghost use Rattle.hay_cluster.specs.Store.{IsUp, disks_of};
ghost use Rattle.hay_run.specs.declared.stops.Stop.{Stop};
ghost use Rattle.hay_run.specs.Blocks.{IsBlockOf};
ghost use Rattle.hay_run.specs.Causing.{tally_of, Caused, StopCaused};
ghost use Rattle.hay_run.specs.Turns.{AnswersAll, AnswersPart, Appends, IsFormatted, Keeps};

use crate::block::LaneBlock;
use crate::deal::deal_lines;
use crate::stops::Stop;
use crate::writing::{write_answers, write_bad_lines};
use hay_base::NoMemory;
use hay_cluster::Cluster;
use hay_cluster_block::run_block;
use hay_disk::{Arm, Disk, Sink};
use hay_lanes::Gate;
use std::alloc::Global;
use std::sync::Wait;
use std::thread::Threads;

/// Answers the lines of a block, each lane beside the others, and writes the replies and the notes. Where memory is wanting before that,
/// no line is answered, and nothing is written. A block without a command leaves the store as it is.
pub fn answer_block<D, A, G, K, R>(
    rt: &R,
    alloc: Global,
    cluster: Cluster<D, A>,
    block: LaneBlock,
    sink: &mut K,
    gate: &G,
) -> (Cluster<D, A>, Result<(), Stop>)
where
    D: Disk + Send + Sync,
    D::Piece: Send + Sync,
    A: Arm<D::Piece> + Send + Drop,
    G: Gate + Sync,
    K: Sink,
    R: Threads + Wait + Sync,
    requires up { IsUp cluster }
    requires block { IsBlockOf block.lanes block.lines }
    ensures answers { OnOk result.1 (AnswersAll D.Tells (Stands D.files D.Piece.Tells D.fault_count D.fuse_count A.fault_count) (Block block.lines ∷ []) cluster
        (K.written sink.old) result.0 (K.written sink.new)) }
    ensures part { IsErrOf result.1 Stop.Output → AnswersPart D.Tells (Stands D.files D.Piece.Tells D.fault_count D.fuse_count A.fault_count)
        (Holds D.files D.fault_count D.fuse_count A.fault_count) (Block block.lines ∷ []) cluster (K.written sink.old) result.0 (K.written sink.new) }
    ensures memory { IsErrOf result.1 Stop.NoMemory → AnswersPart D.Tells (Stands D.files D.Piece.Tells D.fault_count D.fuse_count A.fault_count)
        (Holds D.files D.fault_count D.fuse_count A.fault_count) (Block block.lines ∷ []) cluster (K.written sink.old) result.0 (K.written sink.new)
        ⊎ (Keeps D.Tells (Stands D.files D.Piece.Tells D.fault_count D.fuse_count A.fault_count) cluster result.0 × (sink.new ≡ sink.old)) }
    ensures caused { OnOk result.1 (Caused D.Tells Wrote cluster.settings (tally_of D.files D.drawn D.fault_count D.fuse_count A.fault_count A.is_sure cluster)
        (tally_of D.files D.drawn D.fault_count D.fuse_count A.fault_count A.is_sure result.0) (Block block.lines ∷ []) (K.written sink.old) (K.written sink.new)) }
    ensures stop_caused { (stop : Stop) → result.1 ≡ Err stop → StopCaused D.Tells cluster.settings
        (tally_of D.files D.drawn D.fault_count D.fuse_count A.fault_count A.is_sure cluster) (tally_of D.files D.drawn D.fault_count D.fuse_count A.fault_count A.is_sure result.0)
        stop (Block block.lines ∷ []) (K.written sink.old) (K.written sink.new) }
    ensures stops { OnErr result.1 ((result.1 ≡ Err Stop.Output) ⊎ (result.1 ≡ Err Stop.NoMemory)) }
    ensures cause { IsErrOf result.1 Stop.Output → Rose (K.fault_count sink.old) (K.fault_count sink.new) }
    ensures count { K.fault_count sink.old ≤ K.fault_count sink.new }
    ensures up { IsUp result.0 }
    ensures faults { NoneFalls (map D.fault_count (disks_of cluster)) (map D.fault_count (disks_of result.0)) }
    ensures arm_faults { NoneFalls (map A.fault_count cluster.arms) (map A.fault_count result.0.arms) }
    ensures sure_arms { StaySure A.is_sure A.fault_count cluster.arms result.0.arms }
    ensures formatted { D.Tells → (k : Known) → Stands D.files D.Piece.Tells D.fault_count D.fuse_count A.fault_count cluster k → IsFormatted D.files result.0 }
    ensures appends { Appends (K.written sink.old) (K.written sink.new) }
    ensures settings { result.0.settings ≡ cluster.settings }
{
    if !block.has_command() {
        let lines = block.into_lines();
        let written = write_bad_lines(alloc, lines.as_slice(), sink);
        return (cluster, written);
    }
    let lanes = block.lanes();
    let Ok((jobs, places)) = deal_lines(alloc, lanes, block.into_lines()) else {
        return (cluster, Err(Stop::NoMemory));
    };
    let (cluster, outcome) = run_block(rt, alloc, cluster, jobs.as_slice(), gate);
    match outcome {
        Ok(answers) => {
            let written = write_answers(alloc, places.as_slice(), &answers, sink);
            (cluster, written)
        }
        Err(NoMemory) => (cluster, Err(Stop::NoMemory)),
    }
}
