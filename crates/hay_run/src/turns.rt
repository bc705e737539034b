//! One turn: what comes next is read, answered and written.
ghost use Rattle.std.specs.Prelude.{◌≡◌, ◌≢◌, ◌⊎◌, ℕ, ◌+◌, ◌^◌, ◌<◌, ◌≤◌, [], ◌∷◌, map, false, Some, None, Err, IfOk, OnOk, OnErr, IsErrOf};
ghost use Rattle.hay_disk.specs.Counts.{Rose};
ghost use Rattle.hay_disk.specs.Streams.{Wrote, WrotePart};
ghost use Rattle.hay_script.specs.Script.{IsWithin, IsWithinLine};
ghost use Rattle.hay_script.specs.declared.Command.TheVariants as asks;
ghost use Rattle.hay_reply.specs.declared.Note.{Note};
ghost use Rattle.hay_reply.specs.Fits.{FitsNote};
ghost use Rattle.hay_reply.specs.Replies as texts;
ghost use Rattle.hay_legal.specs.declared.turn.Item.TheVariants as item;
ghost use Rattle.hay_legal.specs.Items.{outside};
ghost use Rattle.hay_legal.specs.declared.known.Known.{Known};
ghost use Rattle.hay_legal.specs.Known.{NoneFalls};
ghost use Rattle.hay_legal.specs.Items.Asked.{Alone};
ghost use Rattle.hay_cluster.specs.State.{Stands, Holds};
ghost use Rattle.hay_cluster.specs.Causes.{StaySure};
ghost use Rattle.hay_cluster.specs.Store.{IsUp, disks_of};
ghost use Rattle.hay_run.specs.declared.stops.Stop.{Stop};
ghost use Rattle.hay_run.specs.Causing.{tally_of, Caused, StopCaused, TurnStops, TurnCaused};
ghost use Rattle.hay_run.specs.Items.{TookItems, TookOpen};
ghost use Rattle.hay_run.specs.Reads.{FitsRead, items_asked};
ghost use Rattle.hay_lines.specs.Lines.{TookPart, TookOver, TookSome};
ghost use Rattle.hay_lines.specs.Stream.{rest_of, budget, Accounts, IsTooLong};
ghost use Rattle.hay_run.specs.Stops.{note_of};
ghost use Rattle.hay_run.specs.Turns.{AnswersAll, AnswersPart, Appends, Keeps, Turned, RefusesRestart, Broke, Halts, IsFormatted};
ghost use Rattle.hay_run.specs.Stopping.{RefusedAsked, BrokeAsked};

use crate::block::{LaneBlock, read_block};
use crate::lanes::answer_block;
use crate::said::next_said;
use crate::stops::Stop;
use crate::writing::{write_refusal, write_reply, write_restarted};
use hay_cluster::{Cluster, ClusterFault};
use hay_core::CoreTag;
use hay_disk::{Arm, Disk, Sink, Source};
use hay_lanes::{Gate, Point};
use hay_lines::ScriptLines;
use hay_reply::Reply;
use hay_script::{Command, Line, MAX_SCRIPT};
use std::alloc::Global;
use std::sync::Wait;
use std::thread::Threads;

/// Answers a plain command, and writes the reply. The gate is passed by lane 0 before the command and behind its answer.
fn plain<D: Disk, A: Arm<D::Piece>, K: Sink, G: Gate>(
    alloc: Global,
    cluster: &mut Cluster<D, A>,
    number: u64,
    command: &Command,
    sink: &mut K,
    gate: &G,
) -> Result<(), Stop>
    requires within { IsWithin command.now }
    requires goes_on { (pick : ℕ) → command.now ≢ asks.Restart pick }
    requires up { IsUp cluster.old }
    ensures answers { OnOk result (AnswersAll D.Tells (Stands D.files D.Piece.Tells D.fault_count D.fuse_count A.fault_count) (Alone number (item.Command command.now) ∷ [])
        cluster.old (K.written sink.old) cluster.new (K.written sink.new)) }
    ensures part { OnErr result (AnswersPart D.Tells (Stands D.files D.Piece.Tells D.fault_count D.fuse_count A.fault_count)
        (Holds D.files D.fault_count D.fuse_count A.fault_count) (Alone number (item.Command command.now) ∷ []) cluster.old (K.written sink.old) cluster.new (K.written sink.new)) }
    ensures caused { OnOk result (Caused D.Tells Wrote cluster.old.settings (tally_of D.files D.drawn D.fault_count D.fuse_count A.fault_count A.is_sure cluster.old)
        (tally_of D.files D.drawn D.fault_count D.fuse_count A.fault_count A.is_sure cluster.new) (Alone number (item.Command command.now) ∷ []) (K.written sink.old) (K.written sink.new)) }
    ensures stop_caused { (stop : Stop) → result ≡ Err stop → StopCaused D.Tells cluster.old.settings
        (tally_of D.files D.drawn D.fault_count D.fuse_count A.fault_count A.is_sure cluster.old)
        (tally_of D.files D.drawn D.fault_count D.fuse_count A.fault_count A.is_sure cluster.new) stop (Alone number (item.Command command.now) ∷ []) (K.written sink.old) (K.written sink.new) }
    ensures stops { OnErr result ((result ≡ Err Stop.Output) ⊎ (result ≡ Err Stop.NoMemory)) }
    ensures cause { IsErrOf result Stop.Output → Rose (K.fault_count sink.old) (K.fault_count sink.new) }
    ensures count { K.fault_count sink.old ≤ K.fault_count sink.new }
    ensures up { IsUp cluster.new }
    ensures faults { NoneFalls (map D.fault_count (disks_of cluster.old)) (map D.fault_count (disks_of cluster.new)) }
    ensures arm_faults { NoneFalls (map A.fault_count cluster.old.arms) (map A.fault_count cluster.new.arms) }
    ensures sure_arms { StaySure A.is_sure A.fault_count cluster.old.arms cluster.new.arms }
    ensures formatted { D.Tells → (k : Known) → Stands D.files D.Piece.Tells D.fault_count D.fuse_count A.fault_count cluster.old k → IsFormatted D.files cluster.new }
    ensures appends { Appends (K.written sink.old) (K.written sink.new) }
    ensures settings { cluster.new.settings ≡ cluster.old.settings }
{
    let tag = CoreTag {
        lane: 0,
        line: number,
    };
    gate.pass(0, number, Point::Start);
    let reply = cluster.answer(alloc, tag, command);
    gate.pass(0, number, Point::Answered);
    write_reply(alloc, number, &reply, sink)
}

/// Ends a restart that was refused, and answers why the run stops.
fn refuse<K: Sink>(alloc: Global, number: u64, fault: ClusterFault, sink: &mut K) -> Stop
    ensures wanting { fault ≡ ClusterFault.NoMemory → (result ≢ Stop.Store) × WrotePart (K.written sink.old) (texts.numbered_line number Reply.NoMem) (K.written sink.new) }
    ensures told { result ≡ Stop.Store → (note : Note) × (note_of fault ≡ Some note) × Wrote (K.written sink.old) (texts.note_line note) (K.written sink.new) }
    ensures fits { (note : Note) → note_of fault ≡ Some note → FitsNote note }
    ensures part { (note : Note) → note_of fault ≡ Some note → (result ≡ Stop.Store) ⊎ WrotePart (K.written sink.old) (texts.note_line note) (K.written sink.new) }
    ensures stops { (result ≡ Stop.Output) ⊎ (result ≡ Stop.NoMemory) ⊎ (result ≡ Stop.Store) }
    ensures cause { result ≡ Stop.Output → Rose (K.fault_count sink.old) (K.fault_count sink.new) }
    ensures count { K.fault_count sink.old ≤ K.fault_count sink.new }
    ensures appends { Appends (K.written sink.old) (K.written sink.new) }
{
    if let ClusterFault::NoMemory = fault {
        return match write_reply(alloc, number, &Reply::NoMem, sink) {
            Ok(()) => Stop::NoMemory,
            Err(stop) => stop,
        };
    }
    write_refusal(alloc, fault, sink)
}

/// Restarts the store, and writes the reply and its notes. The gate is passed as by a plain command.
fn restart<D: Disk, A: Arm<D::Piece>, K: Sink, G: Gate>(
    alloc: Global,
    cluster: &mut Cluster<D, A>,
    number: u64,
    pick: u64,
    sink: &mut K,
    gate: &G,
) -> Result<(), Stop>
    requires up { IsUp cluster.old }
    ensures answers { OnOk result (AnswersAll D.Tells (Stands D.files D.Piece.Tells D.fault_count D.fuse_count A.fault_count) (Alone number (item.Command (asks.Restart pick)) ∷ [])
        cluster.old (K.written sink.old) cluster.new (K.written sink.new)) }
    ensures broke { (IsErrOf result Stop.Output ⊎ IsErrOf result Stop.NoMemory) → BrokeAsked D.Tells (Stands D.files D.Piece.Tells D.fault_count D.fuse_count A.fault_count)
        (Holds D.files D.fault_count D.fuse_count A.fault_count) number (Alone number (item.Command (asks.Restart pick)) ∷ []) cluster.old (K.written sink.old) cluster.new (K.written sink.new) }
    ensures refused { IsErrOf result Stop.Store → RefusedAsked D.Tells Wrote (Stands D.files D.Piece.Tells D.fault_count D.fuse_count A.fault_count)
        (Holds D.files D.fault_count D.fuse_count A.fault_count) number (Alone number (item.Command (asks.Restart pick)) ∷ []) cluster.old (K.written sink.old) cluster.new (K.written sink.new) }
    ensures halted { IsErrOf result Stop.Store → Halts D.Tells (Stands D.files D.Piece.Tells D.fault_count D.fuse_count A.fault_count) D.files D.fault_count cluster.old cluster.new
        (K.written sink.old) (K.written sink.new) }
    ensures caused { OnOk result (Caused D.Tells Wrote cluster.old.settings (tally_of D.files D.drawn D.fault_count D.fuse_count A.fault_count A.is_sure cluster.old)
        (tally_of D.files D.drawn D.fault_count D.fuse_count A.fault_count A.is_sure cluster.new) (Alone number (item.Command (asks.Restart pick)) ∷ []) (K.written sink.old) (K.written sink.new)) }
    ensures stop_caused { (stop : Stop) → result ≡ Err stop → StopCaused D.Tells cluster.old.settings
        (tally_of D.files D.drawn D.fault_count D.fuse_count A.fault_count A.is_sure cluster.old)
        (tally_of D.files D.drawn D.fault_count D.fuse_count A.fault_count A.is_sure cluster.new) stop (Alone number (item.Command (asks.Restart pick)) ∷ []) (K.written sink.old)
        (K.written sink.new) }
    ensures stops { OnErr result ((result ≡ Err Stop.Output) ⊎ (result ≡ Err Stop.NoMemory) ⊎ (result ≡ Err Stop.Store)) }
    ensures cause { IsErrOf result Stop.Output → Rose (K.fault_count sink.old) (K.fault_count sink.new) }
    ensures count { K.fault_count sink.old ≤ K.fault_count sink.new }
    ensures up { OnOk result (IsUp cluster.new) }
    ensures faults { NoneFalls (map D.fault_count (disks_of cluster.old)) (map D.fault_count (disks_of cluster.new)) }
    ensures arm_faults { NoneFalls (map A.fault_count cluster.old.arms) (map A.fault_count cluster.new.arms) }
    ensures sure_arms { StaySure A.is_sure A.fault_count cluster.old.arms cluster.new.arms }
    ensures formatted { D.Tells → (k : Known) → Stands D.files D.Piece.Tells D.fault_count D.fuse_count A.fault_count cluster.old k → IsFormatted D.files cluster.new }
    ensures appends { Appends (K.written sink.old) (K.written sink.new) }
    ensures settings { cluster.new.settings ≡ cluster.old.settings }
{
    gate.pass(0, number, Point::Start);
    match cluster.restart(alloc, pick) {
        Ok(notes) => {
            gate.pass(0, number, Point::Answered);
            write_restarted(alloc, number, cluster.rows(), notes.as_slice(), sink)
        }
        Err(fault) => Err(refuse(alloc, number, fault, sink)),
    }
}

/// Answers what a line asks for by itself, and writes the reply.
fn respond<D: Disk, A: Arm<D::Piece>, K: Sink, G: Gate>(
    alloc: Global,
    cluster: &mut Cluster<D, A>,
    number: u64,
    said: Line,
    sink: &mut K,
    gate: &G,
) -> Result<(), Stop>
    requires within { IsWithinLine said }
    requires up { IsUp cluster.old }
    ensures answers { OnOk result (AnswersAll D.Tells (Stands D.files D.Piece.Tells D.fault_count D.fuse_count A.fault_count) (outside number said).0 cluster.old
        (K.written sink.old) cluster.new (K.written sink.new)) }
    ensures broke { (IsErrOf result Stop.Output ⊎ IsErrOf result Stop.NoMemory) → BrokeAsked D.Tells (Stands D.files D.Piece.Tells D.fault_count D.fuse_count A.fault_count)
        (Holds D.files D.fault_count D.fuse_count A.fault_count) number (outside number said).0 cluster.old (K.written sink.old) cluster.new (K.written sink.new) }
    ensures refused { IsErrOf result Stop.Store → RefusedAsked D.Tells Wrote (Stands D.files D.Piece.Tells D.fault_count D.fuse_count A.fault_count)
        (Holds D.files D.fault_count D.fuse_count A.fault_count) number (outside number said).0 cluster.old (K.written sink.old) cluster.new (K.written sink.new) }
    ensures halted { IsErrOf result Stop.Store → Halts D.Tells (Stands D.files D.Piece.Tells D.fault_count D.fuse_count A.fault_count) D.files D.fault_count cluster.old cluster.new
        (K.written sink.old) (K.written sink.new) }
    ensures caused { OnOk result (Caused D.Tells Wrote cluster.old.settings (tally_of D.files D.drawn D.fault_count D.fuse_count A.fault_count A.is_sure cluster.old)
        (tally_of D.files D.drawn D.fault_count D.fuse_count A.fault_count A.is_sure cluster.new) (outside number said).0 (K.written sink.old) (K.written sink.new)) }
    ensures stop_caused { (stop : Stop) → result ≡ Err stop → StopCaused D.Tells cluster.old.settings
        (tally_of D.files D.drawn D.fault_count D.fuse_count A.fault_count A.is_sure cluster.old)
        (tally_of D.files D.drawn D.fault_count D.fuse_count A.fault_count A.is_sure cluster.new) stop (outside number said).0 (K.written sink.old) (K.written sink.new) }
    ensures stops { OnErr result ((result ≡ Err Stop.Output) ⊎ (result ≡ Err Stop.NoMemory) ⊎ (result ≡ Err Stop.Store)) }
    ensures cause { IsErrOf result Stop.Output → Rose (K.fault_count sink.old) (K.fault_count sink.new) }
    ensures count { K.fault_count sink.old ≤ K.fault_count sink.new }
    ensures up { OnOk result (IsUp cluster.new) }
    ensures faults { NoneFalls (map D.fault_count (disks_of cluster.old)) (map D.fault_count (disks_of cluster.new)) }
    ensures arm_faults { NoneFalls (map A.fault_count cluster.old.arms) (map A.fault_count cluster.new.arms) }
    ensures sure_arms { StaySure A.is_sure A.fault_count cluster.old.arms cluster.new.arms }
    ensures formatted { D.Tells → (k : Known) → Stands D.files D.Piece.Tells D.fault_count D.fuse_count A.fault_count cluster.old k → IsFormatted D.files cluster.new }
    ensures appends { Appends (K.written sink.old) (K.written sink.new) }
    ensures settings { cluster.new.settings ≡ cluster.old.settings }
{
    match said {
        Line::Skip | Line::Lanes(_) => Ok(()),
        Line::Plain(Command::Restart { pick }) => restart(alloc, cluster, number, pick, sink, gate),
        Line::Plain(command) => plain(alloc, cluster, number, &command, sink, gate),
        Line::Bad | Line::End | Line::InLane { .. } => {
            write_reply(alloc, number, &Reply::BadLine, sink)
        }
    }
}

/// What comes next in a script: nothing more, a line by itself, or a block.
#[derive(Drop)]
pub enum TurnRead {
    Nothing,
    Line(Line),
    Block(LaneBlock),
}

/// Takes what comes next, and answers with the number of the line behind it. It isn't called once the end was met.
fn read_turn<S: Source>(
    alloc: Global,
    script: &mut ScriptLines,
    number: u64,
    source: &mut S,
) -> Result<(TurnRead, u64), Stop>
    requires open { script.old.ended ≡ false }
    requires few { number + budget MAX_SCRIPT script.old < 2 ^ 64 }
    ensures took { IfOk result (λ read. TookItems number None (rest_of (S.left source.old) script.old) (items_asked number read.0) read.1 (rest_of (S.left source.new) script.new) script.new.ended) }
    ensures fits { IfOk result (λ read. FitsRead read.0) }
    ensures few { IfOk result (λ read. read.1 + budget MAX_SCRIPT script.new ≤ number + budget MAX_SCRIPT script.old) }
    ensures accounts { OnOk result (Accounts (S.left source.old) script.old (S.left source.new) script.new) }
    ensures stopped_accounts { (IsErrOf result Stop.Input ⊎ IsErrOf result Stop.NoMemory) → Accounts (S.left source.old) script.old (S.left source.new) script.new }
    ensures left { OnOk result (budget MAX_SCRIPT script.new < budget MAX_SCRIPT script.old) }
    ensures limit { script.new.taken ≤ MAX_SCRIPT }
    ensures none_held { (IsErrOf result Stop.Input ⊎ IsErrOf result Stop.TooLong) → script.new.bytes ≡ [] }
    ensures input { IsErrOf result Stop.Input → TookOpen TookPart number None (rest_of (S.left source.old) script.old) (rest_of (S.left source.new) script.new) }
    ensures over { IsErrOf result Stop.TooLong → TookOpen TookOver number None (rest_of (S.left source.old) script.old) (rest_of (S.left source.new) script.new) }
    ensures memory { IsErrOf result Stop.NoMemory → TookSome (rest_of (S.left source.old) script.old) (rest_of (S.left source.new) script.new) }
    ensures long { IsErrOf result Stop.TooLong → IsTooLong MAX_SCRIPT (S.left source.old) script.old (S.left source.new) }
    ensures stops { OnErr result ((result ≡ Err Stop.Input) ⊎ (result ≡ Err Stop.NoMemory) ⊎ (result ≡ Err Stop.TooLong)) }
    ensures cause { IsErrOf result Stop.Input → Rose (S.fault_count source.old) (S.fault_count source.new) }
    ensures count { S.fault_count source.old ≤ S.fault_count source.new }
{
    let Some(said) = next_said(alloc, script, source, None)? else {
        return Ok((TurnRead::Nothing, number));
    };
    if let Line::Lanes(lanes) = said {
        let (block, next) = read_block(alloc, script, number + 1, lanes, source)?;
        return Ok((TurnRead::Block(block), next));
    }
    Ok((TurnRead::Line(said), number + 1))
}

/// Answers what was read, and writes the answer.
fn answer<D, A, G, K, R>(
    rt: &R,
    alloc: Global,
    mut cluster: Cluster<D, A>,
    number: u64,
    read: TurnRead,
    sink: &mut K,
    gate: &G,
) -> (Cluster<D, A>, Result<(), Stop>)
where
    D: Disk + Send + Sync,
    D::Piece: Send + Sync,
    A: Arm<D::Piece> + Send + Drop,
    G: Gate + Sync,
    K: Sink,
    R: Threads + Wait + Sync,
    requires fits { FitsRead read }
    requires up { IsUp cluster }
    ensures answers { OnOk result.1 (AnswersAll D.Tells (Stands D.files D.Piece.Tells D.fault_count D.fuse_count A.fault_count) (items_asked number read) cluster
        (K.written sink.old) result.0 (K.written sink.new)) }
    ensures broke { IsErrOf result.1 Stop.Output → BrokeAsked D.Tells (Stands D.files D.Piece.Tells D.fault_count D.fuse_count A.fault_count)
        (Holds D.files D.fault_count D.fuse_count A.fault_count) number (items_asked number read) cluster (K.written sink.old) result.0 (K.written sink.new) }
    ensures memory { IsErrOf result.1 Stop.NoMemory → BrokeAsked D.Tells (Stands D.files D.Piece.Tells D.fault_count D.fuse_count A.fault_count)
        (Holds D.files D.fault_count D.fuse_count A.fault_count) number (items_asked number read) cluster (K.written sink.old) result.0 (K.written sink.new)
        ⊎ (Keeps D.Tells (Stands D.files D.Piece.Tells D.fault_count D.fuse_count A.fault_count) cluster result.0 × (sink.new ≡ sink.old)) }
    ensures refused { IsErrOf result.1 Stop.Store → RefusedAsked D.Tells Wrote (Stands D.files D.Piece.Tells D.fault_count D.fuse_count A.fault_count)
        (Holds D.files D.fault_count D.fuse_count A.fault_count) number (items_asked number read) cluster (K.written sink.old) result.0 (K.written sink.new) }
    ensures halted { IsErrOf result.1 Stop.Store → Halts D.Tells (Stands D.files D.Piece.Tells D.fault_count D.fuse_count A.fault_count) D.files D.fault_count cluster result.0
        (K.written sink.old) (K.written sink.new) }
    ensures caused { OnOk result.1 (Caused D.Tells Wrote cluster.settings (tally_of D.files D.drawn D.fault_count D.fuse_count A.fault_count A.is_sure cluster)
        (tally_of D.files D.drawn D.fault_count D.fuse_count A.fault_count A.is_sure result.0) (items_asked number read) (K.written sink.old) (K.written sink.new)) }
    ensures stop_caused { (stop : Stop) → result.1 ≡ Err stop → StopCaused D.Tells cluster.settings
        (tally_of D.files D.drawn D.fault_count D.fuse_count A.fault_count A.is_sure cluster) (tally_of D.files D.drawn D.fault_count D.fuse_count A.fault_count A.is_sure result.0)
        stop (items_asked number read) (K.written sink.old) (K.written sink.new) }
    ensures stops { OnErr result.1 ((result.1 ≡ Err Stop.Output) ⊎ (result.1 ≡ Err Stop.NoMemory) ⊎ (result.1 ≡ Err Stop.Store)) }
    ensures cause { IsErrOf result.1 Stop.Output → Rose (K.fault_count sink.old) (K.fault_count sink.new) }
    ensures count { K.fault_count sink.old ≤ K.fault_count sink.new }
    ensures up { OnOk result.1 (IsUp result.0) }
    ensures faults { NoneFalls (map D.fault_count (disks_of cluster)) (map D.fault_count (disks_of result.0)) }
    ensures arm_faults { NoneFalls (map A.fault_count cluster.arms) (map A.fault_count result.0.arms) }
    ensures sure_arms { StaySure A.is_sure A.fault_count cluster.arms result.0.arms }
    ensures formatted { D.Tells → (k : Known) → Stands D.files D.Piece.Tells D.fault_count D.fuse_count A.fault_count cluster k → IsFormatted D.files result.0 }
    ensures appends { Appends (K.written sink.old) (K.written sink.new) }
    ensures settings { result.0.settings ≡ cluster.settings }
{
    match read {
        TurnRead::Nothing => (cluster, Ok(())),
        TurnRead::Line(said) => {
            let outcome = respond(alloc, &mut cluster, number, said, sink, gate);
            (cluster, outcome)
        }
        TurnRead::Block(block) => answer_block(rt, alloc, cluster, block, sink, gate),
    }
}

/// Takes what comes next, answers it and writes the answer. Answers with the number of the next line. It isn't called
/// once the end was met.
pub fn turn<D, A, G, S, K, R>(
    rt: &R,
    alloc: Global,
    cluster: Cluster<D, A>,
    script: &mut ScriptLines,
    number: u64,
    source: &mut S,
    sink: &mut K,
    gate: &G,
) -> (Cluster<D, A>, Result<u64, Stop>)
where
    D: Disk + Send + Sync,
    D::Piece: Send + Sync,
    A: Arm<D::Piece> + Send + Drop,
    G: Gate + Sync,
    S: Source,
    K: Sink,
    R: Threads + Wait + Sync,
    requires open { script.old.ended ≡ false }
    requires few { number + budget MAX_SCRIPT script.old < 2 ^ 64 }
    requires up { IsUp cluster }
    ensures turned { IfOk result.1 (λ next. Turned D.Tells (Stands D.files D.Piece.Tells D.fault_count D.fuse_count A.fault_count) cluster number
        (rest_of (S.left source.old) script.old) (K.written sink.old) result.0 next (rest_of (S.left source.new) script.new) script.new.ended (K.written sink.new)) }
    ensures few { IfOk result.1 (λ next. next + budget MAX_SCRIPT script.new ≤ number + budget MAX_SCRIPT script.old) }
    ensures accounts { OnOk result.1 (Accounts (S.left source.old) script.old (S.left source.new) script.new) }
    ensures stopped_accounts { (IsErrOf result.1 Stop.Input ⊎ IsErrOf result.1 Stop.NoMemory ⊎ IsErrOf result.1 Stop.Output ⊎ IsErrOf result.1 Stop.Store)
        → Accounts (S.left source.old) script.old (S.left source.new) script.new }
    ensures left { OnOk result.1 (budget MAX_SCRIPT script.new < budget MAX_SCRIPT script.old) }
    ensures limit { script.new.taken ≤ MAX_SCRIPT }

    // What was taken and written where the run stops here.
    ensures none_held { (IsErrOf result.1 Stop.Input ⊎ IsErrOf result.1 Stop.TooLong) → script.new.bytes ≡ [] }
    ensures input { IsErrOf result.1 Stop.Input → TookOpen TookPart number None (rest_of (S.left source.old) script.old) (rest_of (S.left source.new) script.new)
        × (result.0 ≡ cluster) × (sink.new ≡ sink.old) }
    ensures over { IsErrOf result.1 Stop.TooLong → TookOpen TookOver number None (rest_of (S.left source.old) script.old) (rest_of (S.left source.new) script.new)
        × (result.0 ≡ cluster) × (sink.new ≡ sink.old) }
    ensures output { IsErrOf result.1 Stop.Output → Broke D.Tells (Stands D.files D.Piece.Tells D.fault_count D.fuse_count A.fault_count)
        (Holds D.files D.fault_count D.fuse_count A.fault_count) cluster number (rest_of (S.left source.old) script.old) (K.written sink.old) result.0
        (rest_of (S.left source.new) script.new) (K.written sink.new) }
    ensures memory { IsErrOf result.1 Stop.NoMemory → (TookSome (rest_of (S.left source.old) script.old) (rest_of (S.left source.new) script.new)
        × Keeps D.Tells (Stands D.files D.Piece.Tells D.fault_count D.fuse_count A.fault_count) cluster result.0 × (sink.new ≡ sink.old))
        ⊎ Broke D.Tells (Stands D.files D.Piece.Tells D.fault_count D.fuse_count A.fault_count) (Holds D.files D.fault_count D.fuse_count A.fault_count) cluster number
        (rest_of (S.left source.old) script.old) (K.written sink.old) result.0 (rest_of (S.left source.new) script.new) (K.written sink.new) }
    ensures store { IsErrOf result.1 Stop.Store → RefusesRestart D.Tells Wrote (Stands D.files D.Piece.Tells D.fault_count D.fuse_count A.fault_count)
        (Holds D.files D.fault_count D.fuse_count A.fault_count) cluster number (rest_of (S.left source.old) script.old) (K.written sink.old) result.0
        (rest_of (S.left source.new) script.new) (K.written sink.new) }

    // What was written has its causes, whatever the disks tell.
    ensures caused { IfOk result.1 (λ next. TurnCaused D.Tells cluster.settings (tally_of D.files D.drawn D.fault_count D.fuse_count A.fault_count A.is_sure cluster)
        (tally_of D.files D.drawn D.fault_count D.fuse_count A.fault_count A.is_sure result.0) number (rest_of (S.left source.old) script.old) (K.written sink.old) next
        (rest_of (S.left source.new) script.new) script.new.ended (K.written sink.new)) }
    ensures stop_caused { (stop : Stop) → result.1 ≡ Err stop → TurnStops D.Tells cluster.settings
        (tally_of D.files D.drawn D.fault_count D.fuse_count A.fault_count A.is_sure cluster) (tally_of D.files D.drawn D.fault_count D.fuse_count A.fault_count A.is_sure result.0)
        stop number (rest_of (S.left source.old) script.old) (K.written sink.old) (rest_of (S.left source.new) script.new) (K.written sink.new) }

    // The causes of each stop.
    ensures long { IsErrOf result.1 Stop.TooLong → IsTooLong MAX_SCRIPT (S.left source.old) script.old (S.left source.new) }
    ensures source { IsErrOf result.1 Stop.Input → Rose (S.fault_count source.old) (S.fault_count source.new) }
    ensures source_count { S.fault_count source.old ≤ S.fault_count source.new }
    ensures sink { IsErrOf result.1 Stop.Output → Rose (K.fault_count sink.old) (K.fault_count sink.new) }
    ensures sink_count { K.fault_count sink.old ≤ K.fault_count sink.new }
    ensures halted { IsErrOf result.1 Stop.Store → Halts D.Tells (Stands D.files D.Piece.Tells D.fault_count D.fuse_count A.fault_count) D.files D.fault_count cluster result.0
        (K.written sink.old) (K.written sink.new) }
    ensures up { OnOk result.1 (IsUp result.0) }
    ensures faults { NoneFalls (map D.fault_count (disks_of cluster)) (map D.fault_count (disks_of result.0)) }
    ensures arm_faults { NoneFalls (map A.fault_count cluster.arms) (map A.fault_count result.0.arms) }
    ensures sure_arms { StaySure A.is_sure A.fault_count cluster.arms result.0.arms }
    ensures formatted { D.Tells → (k : Known) → Stands D.files D.Piece.Tells D.fault_count D.fuse_count A.fault_count cluster k → IsFormatted D.files result.0 }
    ensures appends { Appends (K.written sink.old) (K.written sink.new) }
    ensures settings { result.0.settings ≡ cluster.settings }
{
    match read_turn(alloc, script, number, source) {
        Ok((read, next)) => {
            let (cluster, outcome) = answer(rt, alloc, cluster, number, read, sink, gate);
            match outcome {
                Ok(()) => (cluster, Ok(next)),
                Err(stop) => (cluster, Err(stop)),
            }
        }
        Err(stop) => (cluster, Err(stop)),
    }
}
