//! Turn after turn, to the end of a script.
ghost use Rattle.std.specs.Prelude.{◌≡◌, ℕ, ◌+◌, ◌≤◌, List, length, map, Some, Err, OnOk, IsErrOf};
ghost use Rattle.hay_disk.specs.Counts.{Rose};
ghost use Rattle.hay_legal.specs.declared.known.Known.{Known};
ghost use Rattle.hay_legal.specs.Known.{NoneFalls};
ghost use Rattle.hay_cluster.specs.State.{Stands, Holds};
ghost use Rattle.hay_cluster.specs.Causes.{StaySure};
ghost use Rattle.hay_cluster.specs.Store.{IsUp, disks_of};
ghost use Rattle.hay_run.specs.declared.stops.Stop.{Stop};
ghost use Rattle.hay_run.specs.Causing.{tally_of, AllCaused, CausedUntil};
ghost use Rattle.hay_lines.specs.Stream.{IsReadToEnd, TookAtMost};
ghost use Rattle.hay_run.specs.Turns.{Appends, Serves, ServedUntil, Halts, IsFormatted};

use crate::stops::Stop;
use crate::turns::turn;
use hay_cluster::Cluster;
use hay_disk::{Arm, Disk, Sink, Source};
use hay_lanes::Gate;
use hay_lines::ScriptLines;
use hay_script::MAX_SCRIPT;
use std::alloc::Global;
use std::sync::Wait;
use std::thread::Threads;

/// Answers what a script asks for, from first to last.
pub fn serve<D, A, G, S, K, R>(
    rt: &R,
    alloc: Global,
    mut cluster: Cluster<D, A>,
    source: &mut S,
    sink: &mut K,
    gate: &G,
) -> (Cluster<D, A>, Result<(), Stop>)
where
    D: Disk + Send + Sync,
    D::Piece: Send + Sync,
    A: Arm<D::Piece> + Send + Drop,
    G: Gate + Sync,
    S: Source,
    K: Sink,
    R: Threads + Wait + Sync,
    requires up { IsUp cluster }
    ensures served { OnOk result.1 (Serves D.Tells (Stands D.files D.Piece.Tells D.fault_count D.fuse_count A.fault_count) (S.left source.old) cluster (K.written sink.old) result.0
        (K.written sink.new)) }
    ensures stopped { (stop : Stop) → result.1 ≡ Err stop → ServedUntil D.Tells (Stands D.files D.Piece.Tells D.fault_count D.fuse_count A.fault_count)
        (Holds D.files D.fault_count D.fuse_count A.fault_count) stop (S.left source.old) cluster (K.written sink.old) (S.left source.new) result.0 (K.written sink.new) }
    ensures caused { OnOk result.1 (AllCaused D.Tells cluster.settings (tally_of D.files D.drawn D.fault_count D.fuse_count A.fault_count A.is_sure cluster)
        (tally_of D.files D.drawn D.fault_count D.fuse_count A.fault_count A.is_sure result.0) (S.left source.old) (K.written sink.old) (K.written sink.new)) }
    ensures stop_caused { (stop : Stop) → result.1 ≡ Err stop → CausedUntil D.Tells cluster.settings
        (tally_of D.files D.drawn D.fault_count D.fuse_count A.fault_count A.is_sure cluster) (tally_of D.files D.drawn D.fault_count D.fuse_count A.fault_count A.is_sure result.0)
        stop (S.left source.old) (K.written sink.old) (S.left source.new) (K.written sink.new) }
    ensures ended { OnOk result.1 (IsReadToEnd (S.left source.old) (S.left source.new)) }
    ensures short { OnOk result.1 ((script : List ℕ) → S.left source.old ≡ Some script → length script ≤ MAX_SCRIPT) }
    ensures long { IsErrOf result.1 Stop.TooLong → (script : List ℕ) → S.left source.old ≡ Some script
        → (rest : List ℕ) × (S.left source.new ≡ Some rest) × (length script ≡ MAX_SCRIPT + 1 + length rest) }
    ensures taken { (IsErrOf result.1 Stop.TooLong → ⊥) → TookAtMost MAX_SCRIPT (S.left source.old) (S.left source.new) }
    ensures source { IsErrOf result.1 Stop.Input → Rose (S.fault_count source.old) (S.fault_count source.new) }
    ensures source_count { S.fault_count source.old ≤ S.fault_count source.new }
    ensures sink { IsErrOf result.1 Stop.Output → Rose (K.fault_count sink.old) (K.fault_count sink.new) }
    ensures sink_count { K.fault_count sink.old ≤ K.fault_count sink.new }
    ensures halted { IsErrOf result.1 Stop.Store → Halts D.Tells (Stands D.files D.Piece.Tells D.fault_count D.fuse_count A.fault_count) D.files D.fault_count cluster result.0
        (K.written sink.old) (K.written sink.new) }
    ensures faults { NoneFalls (map D.fault_count (disks_of cluster)) (map D.fault_count (disks_of result.0)) }
    ensures arm_faults { NoneFalls (map A.fault_count cluster.arms) (map A.fault_count result.0.arms) }
    ensures sure_arms { StaySure A.is_sure A.fault_count cluster.arms result.0.arms }
    ensures formatted { D.Tells → (k : Known) → Stands D.files D.Piece.Tells D.fault_count D.fuse_count A.fault_count cluster k → IsFormatted D.files result.0 }
    ensures appends { Appends (K.written sink.old) (K.written sink.new) }
    ensures settings { result.0.settings ≡ cluster.settings }
{
    let mut script = ScriptLines::new(alloc);
    let mut number: u64 = 1;
    'turns: loop {
        let (after, outcome) = turn(rt, alloc, cluster, &mut script, number, source, sink, gate);
        cluster = after;
        match outcome {
            Ok(next) => number = next,
            Err(stop) => return (cluster, Err(stop)),
        }
        if script.is_ended() {
            return (cluster, Ok(()));
        }
    }
}
