//! One line: it is read, what it ends is loaded, and the replies are written.
ghost use Rattle.std.specs.Prelude.{◌≡◌, ◌⊎◌, ◌+◌, ◌^◌, ◌<◌, ◌≤◌, [], length, false, true, None, Err, IfOk, OnOk, OnErr, IsOk, IsErrOf};
ghost use Rattle.hay_disk.specs.Counts.{Rose};
ghost use Rattle.hay_disk.specs.Streams.{Wrote, WrotePart};
ghost use Rattle.hay_script.specs.Script.{IsWithinLine};
ghost use Rattle.hay_lines.specs.Stream.{rest_of, budget, Accounts, IsReadToEnd, IsTooLong};
ghost use Rattle.hay_load.specs.declared.loading.LoadEnd.{LoadEnd};
ghost use Rattle.hay_load.specs.Gathering.{closed, line_step};
ghost use Rattle.hay_load.specs.Loads.{IsLoading, held_of};
ghost use Rattle.hay_batch.specs.Stores.{IsShaped, KeepsCounts};
ghost use Rattle.hay_loading.specs.declared.stops.Stop.{Stop};
ghost use Rattle.hay_loading.specs.Lines.{Appends, Stops, StopsIn, Takes, Told};

use crate::said::next_said;
use crate::stops::Stop;
use crate::writing::write_text;
use hay_disk::{Disk, Sink, Source};
use hay_lines::ScriptLines;
use hay_load::{LoadEnd, Loading};
use hay_script::{Line, MAX_SCRIPT};
use std::alloc::Global;

// Writes what was told of lines, and answers why the load stops, if it does.
fn write_told<K: Sink>(told: Result<(), LoadEnd>, text: &[u8], sink: &mut K) -> Result<(), Stop>
    ensures ok { OnOk result (IsOk told × Wrote (K.written sink.old) text.now (K.written sink.new)) }
    ensures store { IsErrOf result Stop.Store → IsErrOf told LoadEnd.Failed × Wrote (K.written sink.old) text.now (K.written sink.new) }
    ensures memory { IsErrOf result Stop.NoMemory → IsErrOf told LoadEnd.NoMemory × (sink.new ≡ sink.old) }
    ensures output { IsErrOf result Stop.Output → (IsOk told ⊎ IsErrOf told LoadEnd.Failed) × WrotePart (K.written sink.old) text.now (K.written sink.new) × (0 < length text.now) }
    ensures stops { OnErr result ((result ≡ Err Stop.Output) ⊎ (result ≡ Err Stop.NoMemory) ⊎ (result ≡ Err Stop.Store)) }
    ensures cause { IsErrOf result Stop.Output → Rose (K.fault_count sink.old) (K.fault_count sink.new) }
    ensures count { K.fault_count sink.old ≤ K.fault_count sink.new }
    ensures appends { Appends (K.written sink.old) (K.written sink.new) }
{
    match told {
        Ok(()) => write_text(sink, text),
        Err(LoadEnd::Failed) => {
            write_text(sink, text)?;
            Err(Stop::Store)
        }
        Err(LoadEnd::NoMemory) => Err(Stop::NoMemory),
    }
}

// Loads what a line ends, and writes the replies.
fn take_line<D: Disk, K: Sink>(
    alloc: Global,
    load: &mut Loading<D>,
    number: u64,
    line: Line,
    sink: &mut K,
) -> Result<(), Stop>
    requires loading { IsLoading D.Tells D.files load.old }
    requires within { IsWithinLine line }
    ensures told { OnOk result (Told D.Tells D.files Wrote (line_step load.old.store.settings number (held_of load.old.held) line).groups
        load.old.store load.new.store (K.written sink.old) (K.written sink.new)) }
    ensures held { OnOk result (held_of load.new.held ≡ (line_step load.old.store.settings number (held_of load.old.held) line).held) }
    ensures next { OnOk result (IsLoading D.Tells D.files load.new) }
    ensures stopped { (why : Stop) → result ≡ Err why →
        StopsIn D.Tells D.files D.fault_count why (line_step load.old.store.settings number (held_of load.old.held) line).groups
        load.old.store load.new.store (K.written sink.old) (K.written sink.new) }
    ensures stops { OnErr result ((result ≡ Err Stop.Output) ⊎ (result ≡ Err Stop.NoMemory) ⊎ (result ≡ Err Stop.Store)) }
    ensures shape { (load.new.store.settings ≡ load.old.store.settings) × IsShaped load.new.store }
    ensures counts { KeepsCounts D.fault_count D.fuse_count load.old.store load.new.store }
    ensures cause { IsErrOf result Stop.Output → Rose (K.fault_count sink.old) (K.fault_count sink.new) }
    ensures count { K.fault_count sink.old ≤ K.fault_count sink.new }
    ensures appends { Appends (K.written sink.old) (K.written sink.new) }
{
    let mut text = Vec::new(alloc);
    let told = load.take(alloc, number, line, &mut text);
    write_told(told, text.as_slice(), sink)
}

/// Loads the batch that is open at the end of the lines, if there is one, and writes the reply.
pub fn take_end<D: Disk, K: Sink>(
    alloc: Global,
    load: &mut Loading<D>,
    sink: &mut K,
) -> Result<(), Stop>
    requires loading { IsLoading D.Tells D.files load.old }
    ensures told { OnOk result (Told D.Tells D.files Wrote (closed (held_of load.old.held)) load.old.store load.new.store (K.written sink.old) (K.written sink.new)) }
    ensures stopped { (why : Stop) → result ≡ Err why →
        StopsIn D.Tells D.files D.fault_count why (closed (held_of load.old.held)) load.old.store load.new.store (K.written sink.old) (K.written sink.new) }
    ensures stops { OnErr result ((result ≡ Err Stop.Output) ⊎ (result ≡ Err Stop.NoMemory) ⊎ (result ≡ Err Stop.Store)) }
    ensures shape { (load.new.store.settings ≡ load.old.store.settings) × IsShaped load.new.store }
    ensures counts { KeepsCounts D.fault_count D.fuse_count load.old.store load.new.store }
    ensures cause { IsErrOf result Stop.Output → Rose (K.fault_count sink.old) (K.fault_count sink.new) }
    ensures count { K.fault_count sink.old ≤ K.fault_count sink.new }
    ensures appends { Appends (K.written sink.old) (K.written sink.new) }
{
    let mut text = Vec::new(alloc);
    let told = load.end(alloc, &mut text);
    write_told(told, text.as_slice(), sink)
}

/// Takes the next line, loads what it ends, and writes the replies. Answers with the number of the line behind it. It isn't
/// called once the end was met.
pub fn step<D: Disk, S: Source, K: Sink>(
    alloc: Global,
    load: &mut Loading<D>,
    script: &mut ScriptLines,
    number: u64,
    source: &mut S,
    sink: &mut K,
) -> Result<u64, Stop>
    requires open { script.old.ended ≡ false }
    requires few { number + budget MAX_SCRIPT script.old < 2 ^ 64 }
    requires loading { IsLoading D.Tells D.files load.old }
    ensures takes { IfOk result (λ next. Takes D.Tells D.files load.old number (rest_of (S.left source.old) script.old) (K.written sink.old)
        load.new next (rest_of (S.left source.new) script.new) (K.written sink.new) script.new.ended) }
    ensures next { OnOk result (IsLoading D.Tells D.files load.new) }
    ensures at_end { OnOk result (script.new.ended ≡ true → IsReadToEnd (rest_of (S.left source.old) script.old) (rest_of (S.left source.new) script.new)) }
    ensures stopped { (why : Stop) → result ≡ Err why →
        Stops D.Tells D.files D.fault_count why load.old number (rest_of (S.left source.old) script.old) (K.written sink.old) load.new.store (K.written sink.new) (S.left source.new) }
    ensures shape { (load.new.store.settings ≡ load.old.store.settings) × IsShaped load.new.store }
    ensures counts { KeepsCounts D.fault_count D.fuse_count load.old.store load.new.store }

    // How much was read.
    ensures few { IfOk result (λ next. next + budget MAX_SCRIPT script.new ≤ number + budget MAX_SCRIPT script.old) }
    ensures left { OnOk result (budget MAX_SCRIPT script.new < budget MAX_SCRIPT script.old) }
    ensures accounts { OnOk result (Accounts (S.left source.old) script.old (S.left source.new) script.new) }
    ensures stopped_accounts { (IsErrOf result Stop.TooLong → ⊥) → Accounts (S.left source.old) script.old (S.left source.new) script.new }
    ensures limit { script.new.taken ≤ MAX_SCRIPT }
    ensures long { IsErrOf result Stop.TooLong → IsTooLong MAX_SCRIPT (S.left source.old) script.old (S.left source.new) }

    ensures source { IsErrOf result Stop.Input → Rose (S.fault_count source.old) (S.fault_count source.new) }
    ensures source_count { S.fault_count source.old ≤ S.fault_count source.new }
    ensures sink { IsErrOf result Stop.Output → Rose (K.fault_count sink.old) (K.fault_count sink.new) }
    ensures sink_count { K.fault_count sink.old ≤ K.fault_count sink.new }
    ensures appends { Appends (K.written sink.old) (K.written sink.new) }
{
    let Some(line) = next_said(alloc, script, source)? else {
        return Ok(number);
    };
    take_line(alloc, load, number, line, sink)?;
    Ok(number + 1)
}
