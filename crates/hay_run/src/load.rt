//! A load of a store: what `hay_loading` says of the disks of the store is said of the whole shelf.
ghost use Rattle.std.specs.Prelude.{◌≡◌, ℕ, ◌+◌, ◌≤◌, List, length, Some, false};
ghost use Rattle.hay_disk.specs.Counts.{IsCounted};
ghost use Rattle.hay_mount.specs.Mounts.{SameFrom};
ghost use Rattle.hay_legal.specs.Statuses.{Ending, status_of};
ghost use Rattle.hay_cluster.specs.Store.{IsBuilt};
ghost use Rattle.hay_lines.specs.Stream.{TookAtMost};
ghost use Rattle.hay_run.specs.Loads.{IsLoad};
ghost use Rattle.hay_run.specs.Runs.{IsSureStill};
ghost use Rattle.hay_run.specs.Turns.{Appends};

use hay_disk::{Shelf, Sink, Source};
use hay_loading::load_store;
use hay_needle::Settings;
use hay_script::MAX_SCRIPT;
use std::alloc::Global;

/// Loads the puts of a script into the store on the disks of a shelf, and answers with the status of the load.
pub fn load_puts<H: Shelf, S: Source, K: Sink>(
    alloc: Global,
    settings: Settings,
    source: &mut S,
    sink: &mut K,
    shelf: &mut H,
) -> u8
    requires built { IsBuilt settings }
    requires disks_in { (slot : ℕ) → (H.disks shelf.old slot).is_out ≡ false }
    requires arms_in { (lane : ℕ) → (H.arms shelf.old lane).is_out ≡ false }
    ensures loaded { IsLoad H.Disk.Tells settings result (H.disks shelf.old) (H.disks shelf.new) (H.arms shelf.old) (H.arms shelf.new)
        (H.fault_count shelf.old) (H.fault_count shelf.new) (S.left source.old) (S.left source.new) (K.written sink.old) (K.written sink.new) }
    ensures status { (ending : Ending) × (result ≡ status_of ending) }
    ensures sink { IsCounted (K.fault_count sink.old) (K.fault_count sink.new) (result ≡ 3) }
    ensures source { IsCounted (S.fault_count source.old) (S.fault_count source.new) (result ≡ 4) }
    ensures long { result ≡ 7 → (script : List ℕ) → S.left source.old ≡ Some script →
        (rest : List ℕ) × (S.left source.new ≡ Some rest) × (length script ≡ MAX_SCRIPT + 1 + length rest) }
    ensures taken { (result ≡ 7 → ⊥) → TookAtMost MAX_SCRIPT (S.left source.old) (S.left source.new) }
    ensures disks_back { (slot : ℕ) → (H.disks shelf.new slot).is_out ≡ false }
    ensures arms_back { (lane : ℕ) → (H.arms shelf.new lane).is_out ≡ false }
    ensures faults { (slot : ℕ) → (H.disks shelf.old slot).fault_count ≤ (H.disks shelf.new slot).fault_count }
    ensures arm_faults { (lane : ℕ) → (H.arms shelf.old lane).fault_count ≤ (H.arms shelf.new lane).fault_count }
    ensures sure_arms { (lane : ℕ) → IsSureStill (H.arms shelf.old lane) (H.arms shelf.new lane) }
    ensures appends { Appends (K.written sink.old) (K.written sink.new) }
    ensures other_lanes { SameFrom 8 (H.arms shelf.old) (H.arms shelf.new) }
    ensures shelf { H.fault_count shelf.old ≤ H.fault_count shelf.new }
{
    load_store(alloc, settings, source, sink, shelf)
}
