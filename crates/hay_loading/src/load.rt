//! A load, from an opened shelf to its status.
ghost use Rattle.std.specs.Prelude.{◌≡◌, ◌≢◌, ◌⊎◌, ℕ, ◌+◌, ◌<◌, ◌≤◌, List, ◌++◌, length, Option, Some, Err, OnOk, IsErrOf, IsOk};
ghost use Rattle.hay_disk.specs.Counts.{Rose, IsCounted};
ghost use Rattle.hay_disk.specs.Streams.{Wrote};
ghost use Rattle.hay_mount.specs.Mounts.{AreIn, SameFrom};
ghost use Rattle.hay_reply.specs.Replies as texts;
ghost use Rattle.hay_lines.specs.Stream.{IsReadToEnd, TookAtMost};
ghost use Rattle.hay_batch.specs.Shelves.{IsLimited, IsUndamagedBelow, disk_count, reads_of};
ghost use Rattle.hay_loading.specs.declared.stops.Stop.{Stop};
ghost use Rattle.hay_loading.specs.Endings.{CountsOn, Ends, HaltsBehind, IsStatus, LoadsTo, ReadFront, ReadOver};
ghost use Rattle.hay_loading.specs.Lines.{Appends};

use crate::serve::serve;
use crate::stops::Stop;
use crate::writing::{write_header, write_refusal};
use hay_batch::LoadStore;
use hay_disk::{Shelf, Sink, Source};
use hay_load::Loading;
use hay_needle::Settings;
use hay_script::MAX_SCRIPT;
use std::alloc::Global;

// Opens a store on the disks of the shelf, loads the puts of the script, and gives the disks back.
fn load_script<H: Shelf, S: Source, K: Sink>(
    alloc: Global,
    settings: Settings,
    source: &mut S,
    sink: &mut K,
    shelf: &mut H,
) -> Result<(), Stop>
    requires limits { IsLimited settings }
    requires disks_in { AreIn (disk_count settings) (H.disks shelf.old) }
    ensures ends { (script : List ℕ) (before : Option (List ℕ)) → S.left source.old ≡ Some script → Wrote before (texts.header_line settings) (K.written sink.old) →
        Ends H.Disk.Tells settings script (H.disks shelf.old) (H.disks shelf.new) (H.fault_count shelf.old) (H.fault_count shelf.new) before (K.written sink.new) (S.left source.new) result }
    ensures halts { IsErrOf result Stop.Input → (script : List ℕ) (before : Option (List ℕ)) → S.left source.old ≡ Some script → Wrote before (texts.header_line settings) (K.written sink.old) →
        HaltsBehind H.Disk.Tells settings script (H.disks shelf.old) (H.disks shelf.new) (H.fault_count shelf.old) (H.fault_count shelf.new) before (K.written sink.new)
        (λ read. ReadFront script read (S.left source.new)) }
    ensures halts_over { IsErrOf result Stop.TooLong → (script : List ℕ) (before : Option (List ℕ)) → S.left source.old ≡ Some script → Wrote before (texts.header_line settings) (K.written sink.old) →
        HaltsBehind H.Disk.Tells settings script (H.disks shelf.old) (H.disks shelf.new) (H.fault_count shelf.old) (H.fault_count shelf.new) before (K.written sink.new)
        (λ read. ReadOver script read (S.left source.new)) }
    ensures sound { H.Disk.Tells → IsOk result ⊎ IsErrOf result Stop.Input ⊎ IsErrOf result Stop.TooLong ⊎ (S.left source.new ≢ S.left source.old) →
        IsUndamagedBelow settings (disk_count settings) (reads_of (H.disks shelf.old)) }
    ensures ended { OnOk result (IsReadToEnd (S.left source.old) (S.left source.new)) }
    ensures short { OnOk result ((script : List ℕ) → S.left source.old ≡ Some script → length script ≤ MAX_SCRIPT) }
    ensures long { IsErrOf result Stop.TooLong → (script : List ℕ) → S.left source.old ≡ Some script →
        (rest : List ℕ) × (S.left source.new ≡ Some rest) × (length script ≡ MAX_SCRIPT + 1 + length rest) }
    ensures taken { (IsErrOf result Stop.TooLong → ⊥) → TookAtMost MAX_SCRIPT (S.left source.old) (S.left source.new) }
    ensures source { IsErrOf result Stop.Input → Rose (S.fault_count source.old) (S.fault_count source.new) }
    ensures source_count { S.fault_count source.old ≤ S.fault_count source.new }
    ensures sink { IsErrOf result Stop.Output → Rose (K.fault_count sink.old) (K.fault_count sink.new) }
    ensures sink_count { K.fault_count sink.old ≤ K.fault_count sink.new }
    ensures appends { Appends (K.written sink.old) (K.written sink.new) }
    ensures disks_back { AreIn (disk_count settings) (H.disks shelf.new) }
    ensures counts { (slot : ℕ) → slot < disk_count settings → CountsOn (H.disks shelf.old slot) (H.disks shelf.new slot) }
    ensures other_slots { SameFrom (disk_count settings) (H.disks shelf.old) (H.disks shelf.new) }
    ensures lanes { H.arms shelf.new ≡ H.arms shelf.old }
    ensures shelf { H.fault_count shelf.old ≤ H.fault_count shelf.new }
{
    let store = match LoadStore::open(alloc, settings, shelf) {
        Ok(store) => store,
        Err(fault) => return Err(write_refusal(alloc, fault, sink)),
    };
    let mut load = Loading::new(store);
    let outcome = serve(alloc, &mut load, source, sink);
    load.store.close(shelf);
    outcome
}

// Writes the header, and loads the puts of the script into the store on the disks of the shelf.
fn load_headed<H: Shelf, S: Source, K: Sink>(
    alloc: Global,
    settings: Settings,
    source: &mut S,
    sink: &mut K,
    shelf: &mut H,
) -> Result<(), Stop>
    requires limits { IsLimited settings }
    requires disks_in { AreIn (disk_count settings) (H.disks shelf.old) }
    ensures ends { (script : List ℕ) → S.left source.old ≡ Some script →
        Ends H.Disk.Tells settings script (H.disks shelf.old) (H.disks shelf.new) (H.fault_count shelf.old) (H.fault_count shelf.new) (K.written sink.old) (K.written sink.new)
        (S.left source.new) result }
    ensures halts { IsErrOf result Stop.Input → (script : List ℕ) → S.left source.old ≡ Some script →
        HaltsBehind H.Disk.Tells settings script (H.disks shelf.old) (H.disks shelf.new) (H.fault_count shelf.old) (H.fault_count shelf.new) (K.written sink.old)
        (K.written sink.new) (λ read. ReadFront script read (S.left source.new)) }
    ensures halts_over { IsErrOf result Stop.TooLong → (script : List ℕ) → S.left source.old ≡ Some script →
        HaltsBehind H.Disk.Tells settings script (H.disks shelf.old) (H.disks shelf.new) (H.fault_count shelf.old) (H.fault_count shelf.new) (K.written sink.old)
        (K.written sink.new) (λ read. ReadOver script read (S.left source.new)) }
    ensures sound { H.Disk.Tells → IsOk result ⊎ IsErrOf result Stop.Input ⊎ IsErrOf result Stop.TooLong ⊎ (S.left source.new ≢ S.left source.old) →
        IsUndamagedBelow settings (disk_count settings) (reads_of (H.disks shelf.old)) }
    ensures ended { OnOk result (IsReadToEnd (S.left source.old) (S.left source.new)) }
    ensures short { OnOk result ((script : List ℕ) → S.left source.old ≡ Some script → length script ≤ MAX_SCRIPT) }
    ensures long { IsErrOf result Stop.TooLong → (script : List ℕ) → S.left source.old ≡ Some script →
        (rest : List ℕ) × (S.left source.new ≡ Some rest) × (length script ≡ MAX_SCRIPT + 1 + length rest) }
    ensures taken { (IsErrOf result Stop.TooLong → ⊥) → TookAtMost MAX_SCRIPT (S.left source.old) (S.left source.new) }
    ensures source { IsErrOf result Stop.Input → Rose (S.fault_count source.old) (S.fault_count source.new) }
    ensures source_count { S.fault_count source.old ≤ S.fault_count source.new }
    ensures sink { IsErrOf result Stop.Output → Rose (K.fault_count sink.old) (K.fault_count sink.new) }
    ensures sink_count { K.fault_count sink.old ≤ K.fault_count sink.new }
    ensures appends { Appends (K.written sink.old) (K.written sink.new) }
    ensures disks_back { AreIn (disk_count settings) (H.disks shelf.new) }
    ensures counts { (slot : ℕ) → slot < disk_count settings → CountsOn (H.disks shelf.old slot) (H.disks shelf.new slot) }
    ensures other_slots { SameFrom (disk_count settings) (H.disks shelf.old) (H.disks shelf.new) }
    ensures lanes { H.arms shelf.new ≡ H.arms shelf.old }
    ensures shelf { H.fault_count shelf.old ≤ H.fault_count shelf.new }
{
    write_header(alloc, &settings, sink)?;
    load_script(alloc, settings, source, sink, shelf)
}

/// Loads the puts of a script into the store on the disks of a shelf, from slot 0 upwards, in batches, and answers with the status
/// of the load. Void disks are formatted; others must be of these settings. The disks are given back whatever the status is.
///
/// | status | comes |
/// |---|---|
/// | 0 | the script was read to its end, and all of it was answered |
/// | 3 | the sink failed |
/// | 4 | the source failed |
/// | 5 | memory was wanting |
/// | 6 | the store was not opened, or a disk failed while a batch was loaded, as the last line tells |
/// | 7 | the script is longer than a script may be |
pub fn load_store<H: Shelf, S: Source, K: Sink>(
    alloc: Global,
    settings: Settings,
    source: &mut S,
    sink: &mut K,
    shelf: &mut H,
) -> u8
    requires limits { IsLimited settings }
    requires disks_in { AreIn (disk_count settings) (H.disks shelf.old) }
    // What was answered and written at each status, and what the disks given back hold.
    ensures loaded { (script : List ℕ) → S.left source.old ≡ Some script →
        LoadsTo H.Disk.Tells settings script (H.disks shelf.old) (H.disks shelf.new) (H.fault_count shelf.old) (H.fault_count shelf.new) (K.written sink.old) (K.written sink.new)
        (S.left source.new) result }

    // Where the source failed, or the script is too long, just what ends with the lines that were read was answered.
    ensures halts { result ≡ 4 → (script : List ℕ) → S.left source.old ≡ Some script →
        HaltsBehind H.Disk.Tells settings script (H.disks shelf.old) (H.disks shelf.new) (H.fault_count shelf.old) (H.fault_count shelf.new) (K.written sink.old)
        (K.written sink.new) (λ read. ReadFront script read (S.left source.new)) }
    ensures halts_over { result ≡ 7 → (script : List ℕ) → S.left source.old ≡ Some script →
        HaltsBehind H.Disk.Tells settings script (H.disks shelf.old) (H.disks shelf.new) (H.fault_count shelf.old) (H.fault_count shelf.new) (K.written sink.old)
        (K.written sink.new) (λ read. ReadOver script read (S.left source.new)) }

    // Where a script was read to its end, or as far as it could be, or any of it was, nothing that an opening reads of the disks was damaged.
    ensures sound { H.Disk.Tells → (result ≡ 0) ⊎ (result ≡ 4) ⊎ (result ≡ 7) ⊎ (S.left source.new ≢ S.left source.old) →
        IsUndamagedBelow settings (disk_count settings) (reads_of (H.disks shelf.old)) }

    // When each status comes.
    ensures status { IsStatus result }
    ensures ended { result ≡ 0 → IsReadToEnd (S.left source.old) (S.left source.new) }
    ensures short { result ≡ 0 → (script : List ℕ) → S.left source.old ≡ Some script → length script ≤ MAX_SCRIPT }
    ensures long { result ≡ 7 → (script : List ℕ) → S.left source.old ≡ Some script →
        (rest : List ℕ) × (S.left source.new ≡ Some rest) × (length script ≡ MAX_SCRIPT + 1 + length rest) }
    ensures taken { (result ≡ 7 → ⊥) → TookAtMost MAX_SCRIPT (S.left source.old) (S.left source.new) }
    ensures source { IsCounted (S.fault_count source.old) (S.fault_count source.new) (result ≡ 4) }
    ensures sink { IsCounted (K.fault_count sink.old) (K.fault_count sink.new) (result ≡ 3) }
    ensures appends { Appends (K.written sink.old) (K.written sink.new) }

    // What is given back at each status. Nothing is taken but what the settings name.
    ensures disks_back { AreIn (disk_count settings) (H.disks shelf.new) }
    ensures counts { (slot : ℕ) → slot < disk_count settings → CountsOn (H.disks shelf.old slot) (H.disks shelf.new slot) }
    ensures other_slots { SameFrom (disk_count settings) (H.disks shelf.old) (H.disks shelf.new) }
    ensures lanes { H.arms shelf.new ≡ H.arms shelf.old }
    ensures shelf { H.fault_count shelf.old ≤ H.fault_count shelf.new }
{
    match load_headed(alloc, settings, source, sink, shelf) {
        Ok(()) => 0,
        Err(stop) => stop.status(),
    }
}
