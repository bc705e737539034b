//! An audit: whether a transcript is one that a store may have written in answer to a script. No disk is opened.
ghost use Rattle.std.specs.Prelude.{◌≡◌, ◌⊎◌, ◌≤◌, Err, IfOk, OnOk, OnErr, IsErrOf, string_bytes};
ghost use Rattle.hay_disk.specs.Counts.{IsCounted, Rose};
ghost use Rattle.hay_disk.specs.Streams.{Wrote, WrotePart};
ghost use Rattle.hay_lines.specs.Stream.{TookAtMost};
ghost use Rattle.hay_frame.specs.Frames.{IsOverlong, IsUnframed};
ghost use Rattle.hay_cluster.specs.Store.{IsBuilt};
ghost use Rattle.hay_run.specs.Turns.{Appends};
ghost use Rattle.hay_run.specs.Audits as audits;
ghost use Rattle.hay_run.specs.Audits.{AuditsTo, IsJudgedFrame};

use crate::stops::Stop;
use crate::writing::write_text;
use hay_audit::{Judgement, audit};
use hay_base::NoMemory;
use hay_disk::{Sink, Source};
use hay_frame::{FRAME, FrameFault, read_frame};
use hay_needle::Settings;
use std::alloc::Global;

/// The line of a judgement.
fn line_of(alloc: Global, judgement: &Judgement) -> Result<String, NoMemory>
    ensures { IfOk result (λ line. string_bytes line ≡ audits.judgement_line judgement.now) }
{
    let mut line = String::new(alloc);
    match judgement {
        Judgement::Lawful { turns } => writeln!(line, "lawful {turns}")?,
        Judgement::Unlawful { turns } => writeln!(line, "unlawful {turns}")?,
        Judgement::Open { turns } => writeln!(line, "open {turns}")?,
    }
    Ok(line)
}

/// Writes a judgement.
fn write_judgement<K: Sink>(alloc: Global, judgement: &Judgement, sink: &mut K) -> Result<(), Stop>
    ensures wrote { OnOk result (Wrote (K.written sink.old) (audits.judgement_line judgement.now) (K.written sink.new)) }
    ensures part { IsErrOf result Stop.Output → WrotePart (K.written sink.old) (audits.judgement_line judgement.now) (K.written sink.new) }
    ensures none { IsErrOf result Stop.NoMemory → K.written sink.new ≡ K.written sink.old }
    ensures stops { OnErr result ((result ≡ Err Stop.Output) ⊎ (result ≡ Err Stop.NoMemory)) }
    ensures cause { IsErrOf result Stop.Output → Rose (K.fault_count sink.old) (K.fault_count sink.new) }
    ensures count { K.fault_count sink.old ≤ K.fault_count sink.new }
    ensures appends { Appends (K.written sink.old) (K.written sink.new) }
{
    let line = line_of(alloc, judgement)?;
    write_text(sink, line.as_bytes())
}

/// Takes a frame, and judges its transcript.
fn judge<S: Source>(
    alloc: Global,
    settings: &Settings,
    source: &mut S,
) -> Result<Judgement, FrameFault>
    requires { IsBuilt settings.now }
    ensures judged { IfOk result (IsJudgedFrame settings.now (S.left source.old) (S.left source.new)) }
    ensures bad { IsErrOf result FrameFault.Bad → IsUnframed (S.left source.old) }
    ensures long { IsErrOf result FrameFault.TooLong → IsOverlong (S.left source.old) (S.left source.new) }
    ensures taken { (IsErrOf result FrameFault.TooLong → ⊥) → TookAtMost FRAME (S.left source.old) (S.left source.new) }
    ensures cause { IsErrOf result FrameFault.Input → Rose (S.fault_count source.old) (S.fault_count source.new) }
    ensures count { S.fault_count source.old ≤ S.fault_count source.new }
{
    let frame = read_frame(alloc, source)?;
    let script = frame.script.as_slice();
    let transcript = frame.transcript.as_slice();
    match audit(alloc, settings, script, transcript) {
        Ok(judgement) => Ok(judgement),
        Err(NoMemory) => Err(FrameFault::NoMemory),
    }
}

/// The status of a judgement.
fn judgement_status(judgement: &Judgement) -> u8
    ensures { result ≡ audits.judgement_status judgement.now }
{
    match judgement {
        Judgement::Lawful { .. } => 0,
        Judgement::Unlawful { .. } => 9,
        Judgement::Open { .. } => 11,
    }
}

/// The status where there is no judgement.
fn fault_status(fault: FrameFault) -> u8
    ensures { result ≡ audits.fault_status fault }
{
    match fault {
        FrameFault::Input => 4,
        FrameFault::NoMemory => 5,
        FrameFault::TooLong => 7,
        FrameFault::Bad => 10,
    }
}

/// Takes a frame from the source, judges its transcript by its script, writes the judgement, and answers with the status.
pub fn audit_transcript<S: Source, K: Sink>(
    alloc: Global,
    settings: &Settings,
    source: &mut S,
    sink: &mut K,
) -> u8
    requires { IsBuilt settings.now }
    ensures audited { AuditsTo settings.now result (S.left source.old) (S.left source.new) (K.written sink.old) (K.written sink.new) }
    ensures sink { IsCounted (K.fault_count sink.old) (K.fault_count sink.new) (result ≡ 3) }
    ensures source { IsCounted (S.fault_count source.old) (S.fault_count source.new) (result ≡ 4) }
    ensures appends { Appends (K.written sink.old) (K.written sink.new) }
{
    let judgement = match judge(alloc, settings, source) {
        Ok(judgement) => judgement,
        Err(fault) => return fault_status(fault),
    };
    match write_judgement(alloc, &judgement, sink) {
        Ok(()) => judgement_status(&judgement),
        Err(stop) => stop.status(),
    }
}
