//! A run, from its words to its status.
ghost use Rattle.std.specs.Prelude.{◌≡◌, ◌⊎◌, ℕ, ◌+◌, ◌<◌, ◌≤◌, List, ◌++◌, length, map, false, Some, Err, OnOk, OnErr, IsErrOf, string_bytes};
ghost use Rattle.hay_disk.specs.Counts.{Rose, IsCounted};
ghost use Rattle.hay_mount.specs.Mounts.{AreIn, AreArmsIn, SameFrom};
ghost use Rattle.hay_reply.specs.Replies as texts;
ghost use Rattle.hay_legal.specs.declared.known.Known.{Known};
ghost use Rattle.hay_needle.specs.declared.settings.Settings.{Settings};
ghost use Rattle.hay_legal.specs.Known.{disk_count};
ghost use Rattle.hay_legal.specs.Statuses.{Ending, status_of};
ghost use Rattle.hay_cluster.specs.Draws.{EachDrewLittle, FlushedDrewLittle, no_look};
ghost use Rattle.hay_cluster.specs.Outside.{IsUndamaged, IsVoid, KeepsContents, outside_of, read_of};
ghost use Rattle.hay_cluster.specs.Store.{IsBuilt};
ghost use Rattle.hay_run.specs.declared.stops.Stop.{Stop};
ghost use Rattle.hay_run.specs.Causing.{CausedRun, ending_in};
ghost use Rattle.hay_run.specs.Draws.{AsksNothing, drawn_of};
ghost use Rattle.hay_lines.specs.Stream.{IsReadToEnd, TookAtMost};
ghost use Rattle.hay_run.specs.Stops.{ending_of};
ghost use Rattle.hay_run.specs.Runs.{HasOpened, IsNotOpened, IsSureStill, IsTaken, RanTo, WasRead};
ghost use Rattle.hay_run.specs.Fuses.{AsksNoFuse, KeepsFuses};
ghost use Rattle.hay_run.specs.Turns.{Appends};
ghost use Rattle.hay_run.specs.Audits.{AuditsTo};
ghost use Rattle.hay_run.specs.Checking.{ChecksTo, IsUnchanged};
ghost use Rattle.hay_run.specs.Loads.{IsLoad};
ghost use Rattle.hay_run.specs.Words.{IsAudit, IsAuditStatus, IsCommand, IsDrill, SaysAudit, SaysCheck, SaysDrill, SaysLoad, SaysRun};
ghost use Rattle.hay_drill.specs.Script.{settings as day_settings};
ghost use Rattle.hay_run.specs.Drills.{DrillsTo, RefusedRun};

use crate::audit::audit_transcript;
use crate::check::check_store;
use crate::drill::{tell_stop, write_summary};
use crate::held::{HeldScript, HeldTranscript};
use crate::load::load_puts;
use crate::serve::serve;
use crate::stops::Stop;
use crate::words::read_mode;
use crate::writing::{write_header, write_refusal};
use hay_base::NoMemory;
use hay_cli::Mode;
use hay_cluster::Cluster;
use hay_disk::{Disk, Shelf, Sink, Source};
use hay_drill::{drill_script, drill_settings};
use hay_lanes::Gate;
use hay_needle::Settings;
use hay_script::MAX_SCRIPT;
use std::alloc::Global;
use std::sync::Wait;
use std::thread::Threads;

/// Writes the header, opens a store on the disks of the shelf, answers the script, and gives the disks back.
fn run_script<H, S, K, G, R>(
    rt: &R,
    alloc: Global,
    settings: Settings,
    source: &mut S,
    sink: &mut K,
    shelf: &mut H,
    gate: &G,
) -> Result<(), Stop>
where
    H: Shelf,
    H::Disk: Send + Sync,
    <H::Disk as Disk>::Piece: Send + Sync,
    H::Arm: Send,
    S: Source,
    K: Sink,
    G: Gate + Sync,
    R: Threads + Wait + Sync,
    requires built { IsBuilt settings }
    requires disks_in { AreIn (disk_count settings) (H.disks shelf.old) }
    requires arms_in { AreArmsIn 8 (H.arms shelf.old) }
    ensures ran { H.Disk.Tells → OnOk result ((k : Known) →
        IsTaken settings (outside_of (H.fault_count shelf.old) (H.disks shelf.old) (H.arms shelf.old)) k → (script held : List ℕ) →
        S.left source.old ≡ Some script → K.written sink.old ≡ Some held →
        RanTo settings k Ending.ReadAll script (S.left source.new) (outside_of (H.fault_count shelf.old) (H.disks shelf.old) (H.arms shelf.old))
        (outside_of (H.fault_count shelf.new) (H.disks shelf.new) (H.arms shelf.new)) held (K.written sink.new)) }
    ensures stopped { H.Disk.Tells → (stop : Stop) → result ≡ Err stop → (k : Known) →
        IsTaken settings (outside_of (H.fault_count shelf.old) (H.disks shelf.old) (H.arms shelf.old)) k → (script held : List ℕ) →
        S.left source.old ≡ Some script → K.written sink.old ≡ Some held →
        RanTo settings k (ending_of stop) script (S.left source.new) (outside_of (H.fault_count shelf.old) (H.disks shelf.old) (H.arms shelf.old))
        (outside_of (H.fault_count shelf.new) (H.disks shelf.new) (H.arms shelf.new)) held (K.written sink.new) }
    ensures caused { (script held : List ℕ) → S.left source.old ≡ Some script → K.written sink.old ≡ Some held →
        CausedRun H.Disk.Tells settings (ending_in result) script (S.left source.new) (outside_of (H.fault_count shelf.old) (H.disks shelf.old) (H.arms shelf.old))
        (outside_of (H.fault_count shelf.new) (H.disks shelf.new) (H.arms shelf.new)) (λ lane. (H.arms shelf.old lane).is_sure) (H.disks shelf.old) (H.disks shelf.new) held (K.written sink.new) }
    ensures ended { OnOk result (IsReadToEnd (S.left source.old) (S.left source.new)) }
    ensures short { OnOk result ((script : List ℕ) → S.left source.old ≡ Some script → length script ≤ MAX_SCRIPT) }
    ensures long { IsErrOf result Stop.TooLong → (script : List ℕ) → S.left source.old ≡ Some script →
        (rest : List ℕ) × (S.left source.new ≡ Some rest) × (length script ≡ MAX_SCRIPT + 1 + length rest) }
    ensures taken { (IsErrOf result Stop.TooLong → ⊥) → TookAtMost MAX_SCRIPT (S.left source.old) (S.left source.new) }
    ensures source { IsErrOf result Stop.Input → Rose (S.fault_count source.old) (S.fault_count source.new) }
    ensures source_count { S.fault_count source.old ≤ S.fault_count source.new }
    ensures sink { IsErrOf result Stop.Output → Rose (K.fault_count sink.old) (K.fault_count sink.new) }
    ensures sink_count { K.fault_count sink.old ≤ K.fault_count sink.new }
    ensures store { IsErrOf result Stop.Store →
        IsNotOpened H.Disk.Tells settings (H.disks shelf.old) (H.disks shelf.new)
        (outside_of (H.fault_count shelf.old) (H.disks shelf.old) (H.arms shelf.old))
        (outside_of (H.fault_count shelf.new) (H.disks shelf.new) (H.arms shelf.new)) (S.left source.old) (S.left source.new) (K.written sink.old) (K.written sink.new) }
    ensures disks_back { AreIn (disk_count settings) (H.disks shelf.new) }
    ensures arms_back { AreArmsIn 8 (H.arms shelf.new) }
    ensures faults { (slot : ℕ) → slot < disk_count settings →
        (H.disks shelf.old slot).fault_count ≤ (H.disks shelf.new slot).fault_count }
    ensures fuses { (slot : ℕ) → slot < disk_count settings → KeepsFuses (H.disks shelf.old slot).fuse_count (H.disks shelf.new slot).fuse_count }
    ensures unfused { AsksNoFuse (S.left source.old) → (slot : ℕ) → slot < disk_count settings → (H.disks shelf.new slot).fuse_count ≡ (H.disks shelf.old slot).fuse_count }
    ensures arm_faults { (lane : ℕ) → lane < 8 →
        (H.arms shelf.old lane).fault_count ≤ (H.arms shelf.new lane).fault_count }
    ensures other_slots { SameFrom (disk_count settings) (H.disks shelf.old) (H.disks shelf.new) }
    ensures other_lanes { SameFrom 8 (H.arms shelf.old) (H.arms shelf.new) }
    ensures sound { H.Disk.Tells → HasOpened result ⊎ WasRead (S.left source.old) (S.left source.new) → IsUndamaged settings (λ slot. read_of (H.disks shelf.old slot)) }
    ensures formatted { H.Disk.Tells → HasOpened result ⊎ WasRead (S.left source.old) (S.left source.new) →
        (k : Known) → IsTaken settings (outside_of (H.fault_count shelf.old) (H.disks shelf.old) (H.arms shelf.old)) k →
        (slot : ℕ) → slot < disk_count settings → IsVoid (read_of (H.disks shelf.new slot)) → ⊥ }
    ensures contents { H.Disk.Tells → AsksNothing (S.left source.old) → KeepsContents settings (λ slot. read_of (H.disks shelf.old slot)) (λ slot. read_of (H.disks shelf.new slot)) }
    ensures drew { H.Disk.Tells → OnOk result (AsksNothing (S.left source.old) →
        EachDrewLittle settings (λ slot. read_of (H.disks shelf.new slot)) no_look (drawn_of (H.disks shelf.old)) (drawn_of (H.disks shelf.new))) }
    ensures flushed { H.Disk.Tells → OnOk result ((k : Known) →
        IsTaken settings (outside_of (H.fault_count shelf.old) (H.disks shelf.old) (H.arms shelf.old)) k → AsksNothing (S.left source.old) →
        FlushedDrewLittle settings k (drawn_of (H.disks shelf.old)) (drawn_of (H.disks shelf.new))) }
    ensures sure_arms { (lane : ℕ) → lane < 8 → IsSureStill (H.arms shelf.old lane) (H.arms shelf.new lane) }
    ensures appends { Appends (K.written sink.old) (K.written sink.new) }
    ensures shelf { H.fault_count shelf.old ≤ H.fault_count shelf.new }
{
    write_header(alloc, &settings, sink)?;
    let cluster = match Cluster::open(alloc, settings, shelf) {
        Ok(cluster) => cluster,
        Err(fault) => return Err(write_refusal(alloc, fault, sink)),
    };
    let (cluster, outcome) = serve(rt, alloc, cluster, source, sink, gate);
    cluster.close(shelf);
    outcome
}

/// Runs the script of a day's use, and writes the summary of what the store answered. Where the store was not opened, at first or at
/// its restart, the line that tells why is written.
fn run_drill<H, K, G, R>(
    rt: &R,
    alloc: Global,
    count: u32,
    first: u64,
    sink: &mut K,
    shelf: &mut H,
    gate: &G,
) -> Result<(), Stop>
where
    H: Shelf,
    H::Disk: Send + Sync,
    <H::Disk as Disk>::Piece: Send + Sync,
    H::Arm: Send,
    K: Sink,
    G: Gate + Sync,
    R: Threads + Wait + Sync,
    requires few { count ≤ 1000 }
    requires disks_in { AreIn (disk_count day_settings) (H.disks shelf.old) }
    requires arms_in { AreArmsIn 8 (H.arms shelf.old) }
    ensures drilled { H.Disk.Tells → (k : Known) →
        IsTaken day_settings (outside_of (H.fault_count shelf.old) (H.disks shelf.old) (H.arms shelf.old)) k → (held : List ℕ) →
        K.written sink.old ≡ Some held →
        DrillsTo count first k (ending_in result) (outside_of (H.fault_count shelf.old) (H.disks shelf.old) (H.arms shelf.old))
        (outside_of (H.fault_count shelf.new) (H.disks shelf.new) (H.arms shelf.new)) held (K.written sink.new) }
    ensures refused { IsErrOf result Stop.Store → RefusedRun H.Disk.Tells count first (outside_of (H.fault_count shelf.old) (H.disks shelf.old) (H.arms shelf.old))
        (outside_of (H.fault_count shelf.new) (H.disks shelf.new) (H.arms shelf.new)) (λ lane. (H.arms shelf.old lane).is_sure) (H.disks shelf.old) (H.disks shelf.new)
        (K.written sink.old) (K.written sink.new) }
    ensures sound { H.Disk.Tells → OnOk result (IsUndamaged day_settings (λ slot. read_of (H.disks shelf.old slot))) }
    ensures formatted { H.Disk.Tells → OnOk result ((k : Known) →
        IsTaken day_settings (outside_of (H.fault_count shelf.old) (H.disks shelf.old) (H.arms shelf.old)) k → (slot : ℕ) → slot < disk_count day_settings →
        IsVoid (read_of (H.disks shelf.new slot)) → ⊥) }
    ensures unfused { (slot : ℕ) → slot < disk_count day_settings → (H.disks shelf.new slot).fuse_count ≡ (H.disks shelf.old slot).fuse_count }
    ensures stops { OnErr result ((result ≡ Err Stop.Output) ⊎ (result ≡ Err Stop.NoMemory) ⊎ (result ≡ Err Stop.Store)) }
    ensures sink { IsErrOf result Stop.Output → Rose (K.fault_count sink.old) (K.fault_count sink.new) }
    ensures sink_count { K.fault_count sink.old ≤ K.fault_count sink.new }
    ensures appends { Appends (K.written sink.old) (K.written sink.new) }
    ensures disks_back { AreIn (disk_count day_settings) (H.disks shelf.new) }
    ensures arms_back { AreArmsIn 8 (H.arms shelf.new) }
    ensures faults { (slot : ℕ) → slot < disk_count day_settings →
        (H.disks shelf.old slot).fault_count ≤ (H.disks shelf.new slot).fault_count }
    ensures arm_faults { (lane : ℕ) → lane < 8 →
        (H.arms shelf.old lane).fault_count ≤ (H.arms shelf.new lane).fault_count }
    ensures other_slots { SameFrom (disk_count day_settings) (H.disks shelf.old) (H.disks shelf.new) }
    ensures other_lanes { SameFrom 8 (H.arms shelf.old) (H.arms shelf.new) }
    ensures sure_arms { (lane : ℕ) → lane < 8 → IsSureStill (H.arms shelf.old lane) (H.arms shelf.new lane) }
    ensures shelf { H.fault_count shelf.old ≤ H.fault_count shelf.new }
{
    let mut script = Vec::new(alloc);
    drill_script(alloc, count, first, &mut script)?;
    let mut source = HeldScript::new(script);
    let mut transcript = HeldTranscript::new(alloc);
    let settings = drill_settings();
    match run_script(
        rt,
        alloc,
        settings,
        &mut source,
        &mut transcript,
        shelf,
        gate,
    ) {
        Ok(()) => write_summary(alloc, count, first, transcript.bytes(), sink),
        Err(stop) => Err(tell_stop(stop, transcript.bytes(), sink)),
    }
}

/// The status of a run that came to this.
fn status_in(outcome: Result<(), Stop>) -> u8
    ensures { result ≡ status_of (ending_in outcome) }
{
    match outcome {
        Ok(()) => 0,
        Err(stop) => stop.status(),
    }
}

/// The status of a drill, whose disks and arms are given back.
fn drill_store<H, K, G, R>(
    rt: &R,
    alloc: Global,
    count: u32,
    first: u64,
    sink: &mut K,
    shelf: &mut H,
    gate: &G,
) -> u8
where
    H: Shelf,
    H::Disk: Send + Sync,
    <H::Disk as Disk>::Piece: Send + Sync,
    H::Arm: Send,
    K: Sink,
    G: Gate + Sync,
    R: Threads + Wait + Sync,
    requires few { count ≤ 1000 }
    requires disks_in { (slot : ℕ) → (H.disks shelf.old slot).is_out ≡ false }
    requires arms_in { (lane : ℕ) → (H.arms shelf.old lane).is_out ≡ false }
    ensures drilled { H.Disk.Tells → (k : Known) →
        IsTaken day_settings (outside_of (H.fault_count shelf.old) (H.disks shelf.old) (H.arms shelf.old)) k → (held : List ℕ) →
        K.written sink.old ≡ Some held → (ending : Ending) → result ≡ status_of ending →
        DrillsTo count first k ending (outside_of (H.fault_count shelf.old) (H.disks shelf.old) (H.arms shelf.old))
        (outside_of (H.fault_count shelf.new) (H.disks shelf.new) (H.arms shelf.new)) held (K.written sink.new) }
    ensures refused { result ≡ 6 → RefusedRun H.Disk.Tells count first (outside_of (H.fault_count shelf.old) (H.disks shelf.old) (H.arms shelf.old))
        (outside_of (H.fault_count shelf.new) (H.disks shelf.new) (H.arms shelf.new)) (λ lane. (H.arms shelf.old lane).is_sure) (H.disks shelf.old) (H.disks shelf.new)
        (K.written sink.old) (K.written sink.new) }
    ensures sound { H.Disk.Tells → result ≡ 0 → IsUndamaged day_settings (λ slot. read_of (H.disks shelf.old slot)) }
    ensures formatted { H.Disk.Tells → result ≡ 0 → (k : Known) →
        IsTaken day_settings (outside_of (H.fault_count shelf.old) (H.disks shelf.old) (H.arms shelf.old)) k → (slot : ℕ) → slot < disk_count day_settings →
        IsVoid (read_of (H.disks shelf.new slot)) → ⊥ }
    ensures unfused { (slot : ℕ) → slot < disk_count day_settings → (H.disks shelf.new slot).fuse_count ≡ (H.disks shelf.old slot).fuse_count }
    ensures status { (result ≡ 0) ⊎ (result ≡ 3) ⊎ (result ≡ 5) ⊎ (result ≡ 6) }
    ensures sink { IsCounted (K.fault_count sink.old) (K.fault_count sink.new) (result ≡ 3) }
    ensures appends { Appends (K.written sink.old) (K.written sink.new) }
    ensures disks_back { (slot : ℕ) → (H.disks shelf.new slot).is_out ≡ false }
    ensures arms_back { (lane : ℕ) → (H.arms shelf.new lane).is_out ≡ false }
    ensures faults { (slot : ℕ) → (H.disks shelf.old slot).fault_count ≤ (H.disks shelf.new slot).fault_count }
    ensures arm_faults { (lane : ℕ) → (H.arms shelf.old lane).fault_count ≤ (H.arms shelf.new lane).fault_count }
    ensures other_slots { SameFrom (disk_count day_settings) (H.disks shelf.old) (H.disks shelf.new) }
    ensures other_lanes { SameFrom 8 (H.arms shelf.old) (H.arms shelf.new) }
    ensures sure_arms { (lane : ℕ) → IsSureStill (H.arms shelf.old lane) (H.arms shelf.new lane) }
    ensures shelf { H.fault_count shelf.old ≤ H.fault_count shelf.new }
{
    status_in(run_drill(rt, alloc, count, first, sink, shelf, gate))
}

/// Runs a script on the disks of a shelf, from slot 0 upwards, or checks these disks, or loads the puts of a script in batches, or
/// judges a transcript of a script, or runs the script of a day's use, and answers with the status. The words are `run`, `check`, `load`
/// or `audit` and the options, or `drill` and two numbers. The transcript of the script, a line for each disk, the line of the
/// judgement, or the summary of the day goes to the sink, and the disks and arms are given back whatever the status is. A check and a
/// drill read nothing of the source, and a check changes no byte of a disk. An audit takes no disk.
///
/// | status | comes |
/// |---|---|
/// | 0 | the script was read to its end, and all of it was answered; or a drill's summary was written; or all disks were checked, and none is damaged; or the transcript is lawful |
/// | 2 | the words are no command, and nothing was touched |
/// | 3 | the sink failed |
/// | 4 | the source failed |
/// | 5 | memory was wanting outside of a reply, or to a restart |
/// | 6 | the store was not opened, at first or at a restart, a disk was not checked, or one failed in a load, as the last line tells |
/// | 7 | the script, or the transcript that is judged, is longer than it may be |
/// | 8 | all disks were checked, and one is damaged |
/// | 9 | the transcript is not lawful |
/// | 10 | what came is no script with a transcript |
/// | 11 | it is open whether the transcript is lawful |
pub fn run<H, S, K, G, R>(
    rt: &R,
    alloc: Global,
    words: &[String],
    source: &mut S,
    sink: &mut K,
    shelf: &mut H,
    gate: &G,
) -> u8
where
    H: Shelf,
    H::Disk: Send + Sync,
    <H::Disk as Disk>::Piece: Send + Sync,
    H::Arm: Send,
    S: Source,
    K: Sink,
    G: Gate + Sync,
    R: Threads + Wait + Sync,
    requires disks_in { (slot : ℕ) → (H.disks shelf.old slot).is_out ≡ false }
    requires arms_in { (lane : ℕ) → (H.arms shelf.old lane).is_out ≡ false }
    // The headline: what was read, answered and written, and what the disks given back hold, at each status but 2.
    ensures ran { H.Disk.Tells → (settings : Settings) (k : Known) → SaysRun (map string_bytes words.now) settings →
        IsTaken settings (outside_of (H.fault_count shelf.old) (H.disks shelf.old) (H.arms shelf.old)) k → (script held : List ℕ) →
        S.left source.old ≡ Some script → K.written sink.old ≡ Some held → (ending : Ending) → result ≡ status_of ending →
        RanTo settings k ending script (S.left source.new) (outside_of (H.fault_count shelf.old) (H.disks shelf.old) (H.arms shelf.old))
        (outside_of (H.fault_count shelf.new) (H.disks shelf.new) (H.arms shelf.new)) held (K.written sink.new) }
    // The same of the text and its causes, whatever the disks tell.
    ensures caused { (settings : Settings) → SaysRun (map string_bytes words.now) settings → (script held : List ℕ) →
        S.left source.old ≡ Some script → K.written sink.old ≡ Some held → (ending : Ending) → result ≡ status_of ending →
        CausedRun H.Disk.Tells settings ending script (S.left source.new) (outside_of (H.fault_count shelf.old) (H.disks shelf.old) (H.arms shelf.old))
        (outside_of (H.fault_count shelf.new) (H.disks shelf.new) (H.arms shelf.new)) (λ lane. (H.arms shelf.old lane).is_sure) (H.disks shelf.old) (H.disks shelf.new) held (K.written sink.new) }

    // A check: what was written of the disks, and what is left of them, at each status but 2.
    ensures checked { (settings : Settings) → SaysCheck (map string_bytes words.now) settings →
        ChecksTo H.Disk.Tells settings result (outside_of (H.fault_count shelf.old) (H.disks shelf.old) (H.arms shelf.old))
        (outside_of (H.fault_count shelf.new) (H.disks shelf.new) (H.arms shelf.new)) (K.written sink.old) (K.written sink.new) }
    ensures unchanged { (settings : Settings) → SaysCheck (map string_bytes words.now) settings →
        (slot : ℕ) → IsUnchanged H.Disk.Tells (H.disks shelf.old slot) (H.disks shelf.new slot) }
    ensures unused { (settings : Settings) → SaysCheck (map string_bytes words.now) settings →
        (source.new ≡ source.old) × (H.arms shelf.new ≡ H.arms shelf.old) × SameFrom (disk_count settings) (H.disks shelf.old) (H.disks shelf.new) }

    // A load: what was read, answered and written, and what the disks given back hold, at each status but 2.
    ensures loaded { (settings : Settings) → SaysLoad (map string_bytes words.now) settings →
        IsLoad H.Disk.Tells settings result (H.disks shelf.old) (H.disks shelf.new) (H.arms shelf.old) (H.arms shelf.new)
        (H.fault_count shelf.old) (H.fault_count shelf.new) (S.left source.old) (S.left source.new) (K.written sink.old) (K.written sink.new) }

    // An audit: what was judged and written, at each status but 2.
    ensures audited { (settings : Settings) → SaysAudit (map string_bytes words.now) settings →
        AuditsTo settings result (S.left source.old) (S.left source.new) (K.written sink.old) (K.written sink.new) × (shelf.new ≡ shelf.old) }

    // A drill: what was written, and what the disks given back hold, at each status but 2.
    ensures drilled { H.Disk.Tells → (count first : ℕ) (k : Known) → SaysDrill (map string_bytes words.now) count first →
        IsTaken day_settings (outside_of (H.fault_count shelf.old) (H.disks shelf.old) (H.arms shelf.old)) k → (held : List ℕ) →
        K.written sink.old ≡ Some held → (ending : Ending) → result ≡ status_of ending →
        DrillsTo count first k ending (outside_of (H.fault_count shelf.old) (H.disks shelf.old) (H.arms shelf.old))
        (outside_of (H.fault_count shelf.new) (H.disks shelf.new) (H.arms shelf.new)) held (K.written sink.new) }
    // Whatever the disks tell, why its store was not opened.
    ensures drill_refused { result ≡ 6 → (count first : ℕ) → SaysDrill (map string_bytes words.now) count first →
        RefusedRun H.Disk.Tells count first (outside_of (H.fault_count shelf.old) (H.disks shelf.old) (H.arms shelf.old))
        (outside_of (H.fault_count shelf.new) (H.disks shelf.new) (H.arms shelf.new)) (λ lane. (H.arms shelf.old lane).is_sure) (H.disks shelf.old) (H.disks shelf.new)
        (K.written sink.old) (K.written sink.new) }
    // Behind a drill that was answered to its end, nothing of what was read of the disks was damaged, and each disk is given back formatted.
    ensures drill_sound { H.Disk.Tells → result ≡ 0 → IsDrill (map string_bytes words.now) → IsUndamaged day_settings (λ slot. read_of (H.disks shelf.old slot)) }
    ensures drill_formatted { H.Disk.Tells → result ≡ 0 → IsDrill (map string_bytes words.now) → (k : Known) →
        IsTaken day_settings (outside_of (H.fault_count shelf.old) (H.disks shelf.old) (H.arms shelf.old)) k → (slot : ℕ) → slot < disk_count day_settings →
        IsVoid (read_of (H.disks shelf.new slot)) → ⊥ }
    // It sets no fuse, at any status, whatever the disks and the sink tell.
    ensures drill_fuses { IsDrill (map string_bytes words.now) → (slot : ℕ) → slot < disk_count day_settings →
        (H.disks shelf.new slot).fuse_count ≡ (H.disks shelf.old slot).fuse_count }
    ensures drill_status { IsDrill (map string_bytes words.now) → (result ≡ 0) ⊎ (result ≡ 3) ⊎ (result ≡ 5) ⊎ (result ≡ 6) }
    ensures drill_unused { IsDrill (map string_bytes words.now) →
        (source.new ≡ source.old) × SameFrom (disk_count day_settings) (H.disks shelf.old) (H.disks shelf.new) }

    // When each status comes.
    ensures status { (result ≡ 2) ⊎ ((ending : Ending) × (result ≡ status_of ending)) ⊎ ((result ≡ 8) × ((settings : Settings) × SaysCheck (map string_bytes words.now) settings))
        ⊎ (IsAuditStatus result × IsAudit (map string_bytes words.now)) }
    ensures usage { result ≡ 2 → IsCommand (map string_bytes words.now) → ⊥ }
    ensures command { (IsCommand (map string_bytes words.now) → ⊥) → (result ≡ 2) ⊎ (result ≡ 5) }
    ensures untouched { (result ≡ 2) ⊎ (IsCommand (map string_bytes words.now) → ⊥) → (source.new ≡ source.old) × (sink.new ≡ sink.old) × (shelf.new ≡ shelf.old) }
    ensures ended { result ≡ 0 → (settings : Settings) → SaysRun (map string_bytes words.now) settings → IsReadToEnd (S.left source.old) (S.left source.new) }
    ensures sink { IsCounted (K.fault_count sink.old) (K.fault_count sink.new) (result ≡ 3) }
    ensures source { IsCounted (S.fault_count source.old) (S.fault_count source.new) (result ≡ 4) }
    ensures store { result ≡ 6 → (settings : Settings) → SaysRun (map string_bytes words.now) settings →
        IsNotOpened H.Disk.Tells settings (H.disks shelf.old) (H.disks shelf.new)
        (outside_of (H.fault_count shelf.old) (H.disks shelf.old) (H.arms shelf.old))
        (outside_of (H.fault_count shelf.new) (H.disks shelf.new) (H.arms shelf.new)) (S.left source.old) (S.left source.new) (K.written sink.old) (K.written sink.new) }
    // Behind an opening that succeeded, nothing of what was read of the disks is damaged.
    ensures sound { H.Disk.Tells → (result ≡ 0) ⊎ (result ≡ 4) ⊎ (result ≡ 7) ⊎ WasRead (S.left source.old) (S.left source.new) → (settings : Settings)
        → SaysRun (map string_bytes words.now) settings →
        IsUndamaged settings (λ slot. read_of (H.disks shelf.old slot)) }
    // Behind such an opening each disk is given back formatted.
    ensures formatted { H.Disk.Tells → (result ≡ 0) ⊎ (result ≡ 4) ⊎ (result ≡ 7) ⊎ WasRead (S.left source.old) (S.left source.new) →
        (settings : Settings) (k : Known) → SaysRun (map string_bytes words.now) settings →
        IsTaken settings (outside_of (H.fault_count shelf.old) (H.disks shelf.old) (H.arms shelf.old)) k → (slot : ℕ) → slot < disk_count settings →
        IsVoid (read_of (H.disks shelf.new slot)) → ⊥ }
    // A run that is asked for nothing changes no byte of a disk that was not void, whatever its status.
    ensures contents { H.Disk.Tells → (settings : Settings) → SaysRun (map string_bytes words.now) settings → AsksNothing (S.left source.old) →
        KeepsContents settings (λ slot. read_of (H.disks shelf.old slot)) (λ slot. read_of (H.disks shelf.new slot)) }
    // With status 0 it reads of each volume file little more than the needles that have no record: of one whose
    // needles all have theirs, the superblock, the head of the last needle and the end mark.
    ensures drew { H.Disk.Tells → result ≡ 0 → (settings : Settings) → SaysRun (map string_bytes words.now) settings → AsksNothing (S.left source.old) →
        EachDrewLittle settings (λ slot. read_of (H.disks shelf.new slot)) no_look (drawn_of (H.disks shelf.old)) (drawn_of (H.disks shelf.new)) }
    ensures flushed { H.Disk.Tells → result ≡ 0 → (settings : Settings) (k : Known) → SaysRun (map string_bytes words.now) settings →
        IsTaken settings (outside_of (H.fault_count shelf.old) (H.disks shelf.old) (H.arms shelf.old)) k → AsksNothing (S.left source.old) →
        FlushedDrewLittle settings k (drawn_of (H.disks shelf.old)) (drawn_of (H.disks shelf.new)) }
    ensures long { result ≡ 7 → (IsAudit (map string_bytes words.now) → ⊥) → (script : List ℕ) → S.left source.old ≡ Some script →
        (rest : List ℕ) × (S.left source.new ≡ Some rest) × (length script ≡ MAX_SCRIPT + 1 + length rest) }
    ensures short { result ≡ 0 → (settings : Settings) → SaysRun (map string_bytes words.now) settings → (script : List ℕ) → S.left source.old ≡ Some script → length script ≤ MAX_SCRIPT }
    ensures taken { (result ≡ 7 → ⊥) → (IsAudit (map string_bytes words.now) → ⊥) → TookAtMost MAX_SCRIPT (S.left source.old) (S.left source.new) }

    // What is given back at each status. Nothing is taken but what the settings name.
    ensures disks_back { (slot : ℕ) → (H.disks shelf.new slot).is_out ≡ false }
    ensures arms_back { (lane : ℕ) → (H.arms shelf.new lane).is_out ≡ false }
    ensures faults { (slot : ℕ) → (H.disks shelf.old slot).fault_count ≤ (H.disks shelf.new slot).fault_count }
    ensures fuses { (slot : ℕ) → KeepsFuses (H.disks shelf.old slot).fuse_count (H.disks shelf.new slot).fuse_count }
    ensures unfused { AsksNoFuse (S.left source.old) → (slot : ℕ) → (H.disks shelf.new slot).fuse_count ≡ (H.disks shelf.old slot).fuse_count }
    ensures arm_faults { (lane : ℕ) → (H.arms shelf.old lane).fault_count ≤ (H.arms shelf.new lane).fault_count }
    ensures sure_arms { (lane : ℕ) → IsSureStill (H.arms shelf.old lane) (H.arms shelf.new lane) }
    ensures appends { Appends (K.written sink.old) (K.written sink.new) }
    ensures other_slots { (settings : Settings) → SaysRun (map string_bytes words.now) settings →
        SameFrom (disk_count settings) (H.disks shelf.old) (H.disks shelf.new) }
    ensures other_lanes { SameFrom 8 (H.arms shelf.old) (H.arms shelf.new) }
    ensures shelf { H.fault_count shelf.old ≤ H.fault_count shelf.new }
{
    let settings = match read_mode(alloc, words) {
        Ok(Some(Mode::Run(settings))) => settings,
        Ok(Some(Mode::Check(settings))) => return check_store(alloc, settings, sink, shelf),
        Ok(Some(Mode::Load(settings))) => return load_puts(alloc, settings, source, sink, shelf),
        Ok(Some(Mode::Audit(settings))) => return audit_transcript(alloc, &settings, source, sink),
        Ok(Some(Mode::Drill { count, first })) => {
            return drill_store(rt, alloc, count, first, sink, shelf, gate);
        }
        Ok(None) => return 2,
        Err(NoMemory) => return Stop::NoMemory.status(),
    };
    match run_script(rt, alloc, settings, source, sink, shelf, gate) {
        Ok(()) => 0,
        Err(stop) => stop.status(),
    }
}
