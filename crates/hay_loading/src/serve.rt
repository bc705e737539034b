//! Line after line, to the end of a script.
ghost use Rattle.std.specs.Prelude.{◌≡◌, ℕ, ◌+◌, ◌≤◌, List, length, Some, None, Err, OnOk, IsErrOf};
ghost use Rattle.hay_disk.specs.Counts.{Rose};
ghost use Rattle.hay_lines.specs.Stream.{IsReadToEnd, TookAtMost};
ghost use Rattle.hay_load.specs.Loads.{IsLoading};
ghost use Rattle.hay_batch.specs.Stores.{IsShaped, KeepsCounts};
ghost use Rattle.hay_loading.specs.declared.stops.Stop.{Stop};
ghost use Rattle.hay_loading.specs.Lines.{Appends, ServesAll, ServesUntil};

use crate::steps::{step, take_end};
use crate::stops::Stop;
use hay_disk::{Disk, Sink, Source};
use hay_lines::ScriptLines;
use hay_load::Loading;
use hay_script::MAX_SCRIPT;
use std::alloc::Global;

/// Loads the puts of a script, from first to last, and writes what is told of them.
pub fn serve<D: Disk, S: Source, K: Sink>(
    alloc: Global,
    load: &mut Loading<D>,
    source: &mut S,
    sink: &mut K,
) -> Result<(), Stop>
    requires loading { IsLoading D.Tells D.files load.old }
    requires none { load.old.held ≡ None }
    ensures served { OnOk result (ServesAll D.Tells D.files (S.left source.old) load.old.store load.new.store (K.written sink.old) (K.written sink.new)) }
    ensures stopped { (why : Stop) → result ≡ Err why →
        ServesUntil D.Tells D.files D.fault_count D.fuse_count why (S.left source.old) (S.left source.new) load.old.store load.new.store (K.written sink.old) (K.written sink.new) }
    ensures shape { (load.new.store.settings ≡ load.old.store.settings) × IsShaped load.new.store }
    ensures counts { KeepsCounts D.fault_count D.fuse_count load.old.store load.new.store }
    ensures ended { OnOk result (IsReadToEnd (S.left source.old) (S.left source.new)) }
    ensures short { OnOk result ((script : List ℕ) → S.left source.old ≡ Some script → length script ≤ MAX_SCRIPT) }
    ensures long { IsErrOf result Stop.TooLong → (script : List ℕ) → S.left source.old ≡ Some script →
        (rest : List ℕ) × (S.left source.new ≡ Some rest) × (length script ≡ MAX_SCRIPT + 1 + length rest) }
    ensures taken { (IsErrOf result Stop.TooLong → ⊥) → TookAtMost MAX_SCRIPT (S.left source.old) (S.left source.new) }
    ensures source { IsErrOf result Stop.Input → Rose (S.fault_count source.old) (S.fault_count source.new) }
    ensures source_count { S.fault_count source.old ≤ S.fault_count source.new }
    ensures sink { IsErrOf result Stop.Output → Rose (K.fault_count sink.old) (K.fault_count sink.new) }
    ensures sink_count { K.fault_count sink.old ≤ K.fault_count sink.new }
    ensures appends { Appends (K.written sink.old) (K.written sink.new) }
{
    let mut script = ScriptLines::new(alloc);
    let mut number: u64 = 1;
    'lines: loop {
        number = step(alloc, load, &mut script, number, source, sink)?;
        if script.is_ended() {
            return take_end(alloc, load, sink);
        }
    }
}
