//! A compaction of a replica.

ghost use Rattle.std.specs.Prelude.{◌≡◌, ◌⊎◌, ◌≤◌, ◌<◌, ◌+◌, ℕ, Bool, true, false, length, Option, Some, None, Err, IfOk, IfErr, IfSome, IfNone, OnOk, OnErr, IsErrOf};
ghost use Rattle.std.specs.List.{AllByRecursion};
ghost use Rattle.hay_needle.specs.Sizes.{needle_total};
ghost use Rattle.hay_needle.specs.declared.needle.Pair.{Pair};
ghost use Rattle.hay_map.specs.declared.place.Place.TheVariants as place;
ghost use Rattle.hay_map.specs.Rows.{last_place};
ghost use Rattle.hay_volume.specs.Needles.{LacksNeedleWithin};
ghost use Rattle.hay_open.specs.Finds.{ArePlacesWithin};
ghost use Rattle.hay_open.specs.Stored.{Stored, index_file, volume_file};
ghost use Rattle.hay_compact.specs.Copying.{HeadStands, IsLatest, IsNextWithin, IsPassedOrStands};
ghost use Rattle.hay_compact.specs.Finishing.{ArePhotos, AreThePlaces, IsSeen};
ghost use Rattle.hay_physical.specs.OpenCopies.{CanBegin, IsFrozen, IsOpenCopy, IsUp, KeepsEnd, KeepsHead, bare_of, copied_of, end_of, faults_at_end, generation_of, goal_of};
ghost use Rattle.hay_physical.specs.OpenCopies.{is_frozen, is_stuck, next_of, volume_bytes};
ghost use Rattle.hay_physical.specs.Faults.{IsBeginFault, IsPeekFault, IsRunFault};
ghost use Rattle.hay_physical.specs.Replicas.{Anywhere, HasWholeNeedle, Holds, KeepsSight, MayDelete, MayDeletePlace, ShowsCell, Stands};
ghost use Rattle.hay_physical.specs.CompactionRuns.{EndsRun, HasNext, HasPair, HasRun, IsPeeked, IsTight, RemovedBoth, Run, Swaps, stepped};

use crate::fault::ReplicaFault;
use crate::replica::Replica;
use crate::state::{Copier, Phase};
use hay_disk::Disk;
use hay_map::OpenCell;
use hay_needle::{CellHead, LAST_GENERATION};
use std::alloc::Global;

impl<D: Disk> Replica<D> {
    /// Begins a compaction, and answers the generation that it makes. `Busy` comes exactly where one stands, and `Worn` where
    /// the generation is the last one. A refusal leaves none.
    pub fn begin(&mut self, alloc: Global) -> Result<u64, ReplicaFault>
        requires open { IsOpenCopy self.old }

        ensures frozen { IsFrozen self.old → (result ≡ Err ReplicaFault.Frozen) × (self.new ≡ self.old) }
        ensures thawed { IsErrOf result ReplicaFault.Frozen → IsFrozen self.old }
        ensures busy { (goal : ℕ) → IsUp self.old → goal_of self.old ≡ Some goal → (result ≡ Err (ReplicaFault.Busy goal)) × (self.new ≡ self.old) }
        ensures idle { (goal : ℕ) → result ≡ Err (ReplicaFault.Busy goal) → goal_of self.old ≡ Some goal }
        ensures worn { IsUp self.old → goal_of self.old ≡ None → LAST_GENERATION ≤ generation_of self.old → (result ≡ Err ReplicaFault.Worn) × (self.new ≡ self.old) }
        ensures most { IsErrOf result ReplicaFault.Worn → (goal_of self.old ≡ None) × (generation_of self.old ≡ LAST_GENERATION) }
        ensures last { D.Tells → (s : Stored) → Stands D.files self.old s → IsErrOf result ReplicaFault.Worn → s.generation ≡ LAST_GENERATION }

        // The photos stand as they stood, and all cells are to be examined.
        ensures begun { D.Tells → (s : Stored) → Stands D.files self.old s →
            IfOk result (λ goal. (goal ≡ s.generation + 1) × HasRun D.files self.new s (Some (record { goal = goal; left = length s.cells; tight = true }))) }
        ensures goal { IfOk result (λ goal. (goal ≡ generation_of self.old + 1) × (goal_of self.old ≡ None) × (goal_of self.new ≡ Some goal)) }
        ensures small { IfOk result (λ goal. goal ≤ LAST_GENERATION) }
        ensures first { OnOk result (next_of self.new ≡ 64) }
        ensures memory { IsErrOf result ReplicaFault.NoMemory → CanBegin self.old }
        ensures failed { (faults : ℕ) → result ≡ Err (ReplicaFault.Failed faults) → CanBegin self.old }
        ensures stands { D.Tells → (s : Stored) → Stands D.files self.old s → Stands D.files self.new s }
        ensures deletes { D.Tells → (place : ℕ) → MayDelete D.files self.old place → MayDelete D.files self.new place }
        ensures sees { D.Tells → KeepsSight D.files Anywhere self.old self.new }
        ensures up { OnOk result (IsUp self.new) }
        ensures kept { OnErr result (self.new.phase ≡ self.old.phase) }
        ensures open { IsOpenCopy self.new }
        ensures same { is_frozen self.new ≡ is_frozen self.old }
        ensures stuck { is_stuck self.new ≡ is_stuck self.old }
        ensures stays { KeepsEnd self.old self.new }
        ensures bare { bare_of self.new ≡ bare_of self.old }
        ensures bytes { D.Tells → volume_bytes D.files self.new ≡ volume_bytes D.files self.old }
        ensures head_file { D.Tells → KeepsHead D.files self.old self.new }

        ensures causes { IfErr result (IsBeginFault (D.fault_count self.old.disk) (D.fault_count self.new.disk)) }
        ensures counts { D.fault_count self.old.disk ≤ D.fault_count self.new.disk }
        ensures fuses { D.fuse_count self.new.disk ≡ D.fuse_count self.old.disk }
        ensures sup { self.new.sup ≡ self.old.sup }
    {
        match &mut self.phase {
            Phase::Open(files) => files.begin(alloc, &mut self.disk, &self.sup),
            Phase::Closed => unreachable!(),
        }
    }

    /// The generation that a compaction makes, if one stands.
    pub fn standing(&self) -> Option<u64>
        ensures is { result ≡ goal_of self.now }
        ensures most { IfSome result (λ goal. goal ≤ LAST_GENERATION) }
        ensures next { IfSome result (λ goal. goal ≡ generation_of self.now + 1) }
    {
        match &self.phase {
            Phase::Open(files) => match &files.copier {
                Copier::Standing(compactor) => Some(compactor.generation()),
                Copier::Ended { .. } => None,
            },
            Phase::Closed => None,
        }
    }

    /// How many cells the compaction that stands has copied, and 0 where none stands.
    pub fn copied(&self) -> u64
        ensures { result ≡ copied_of self.now }
    {
        match &self.phase {
            Phase::Open(files) => match &files.copier {
                Copier::Standing(compactor) => compactor.copied(),
                Copier::Ended { .. } => 0,
            },
            Phase::Closed => 0,
        }
    }

    /// The next cell that the compaction is to examine, by the head of its needle, or none at the end of the current volume
    /// file. `Ended` comes exactly where no compaction stands. `Failed` and `Damaged` end it. It takes no memory.
    pub fn peek(&mut self) -> Result<Option<CellHead>, ReplicaFault>
        requires open { IsOpenCopy self.old }

        ensures frozen { IsFrozen self.old → (result ≡ Err ReplicaFault.Frozen) × (self.new ≡ self.old) }
        ensures thawed { IsErrOf result ReplicaFault.Frozen → IsFrozen self.old }
        ensures ended { IsUp self.old → goal_of self.old ≡ None → (result ≡ Err (ReplicaFault.Ended (faults_at_end self.old))) × (self.new ≡ self.old) }
        ensures none { (faults : ℕ) → result ≡ Err (ReplicaFault.Ended faults) → goal_of self.old ≡ None }

        // On any disk the cell may be copied. Where the disk tells, its pair has a last cell.
        ensures peeked { IfOk result (λ next. IfSome next (λ head. IsPeeked self.new head)) }
        ensures next { D.Tells → (s : Stored) (run : Run) → HasRun D.files self.old s (Some run) →
            IfOk result (λ next. IfSome next (λ head. HasNext D.files self.new s run head × HasPair s.cells head.pair)) }
        ensures all { D.Tells → (s : Stored) (run : Run) → HasRun D.files self.old s (Some run) →
            IfOk result (λ next. IfNone next (run.left ≡ 0)) }
        ensures whole { D.Tells → (s : Stored) (run : Run) → HasRun D.files self.old s (Some run) →
            (at : ℕ) → result ≡ Err (ReplicaFault.Damaged at) → ⊥ }
        ensures damaged { (at : ℕ) → result ≡ Err (ReplicaFault.Damaged at) → IsNextWithin (end_of self.old) (next_of self.old) at }
        // Where the disk tells, whatever it has, the head stands there, and there is no needle where damage is.
        ensures head { D.Tells → IfOk result (λ next. IfSome next (λ head. HeadStands (next_of self.new) head (volume_bytes D.files self.new))) }
        ensures lacks { D.Tells → (at : ℕ) → result ≡ Err (ReplicaFault.Damaged at) → LacksNeedleWithin (end_of self.old) at (volume_bytes D.files self.old) }
        ensures memory { result ≡ Err ReplicaFault.NoMemory → ⊥ }

        // It stands where it stood, unless a failure or damage ended it.
        ensures run { D.Tells → (s : Stored) (run : Run) → HasRun D.files self.old s (Some run) → OnOk result (HasRun D.files self.new s (Some run)) }
        ensures goal { OnOk result (goal_of self.new ≡ goal_of self.old) }
        ensures place { goal_of self.new ≡ goal_of self.old → next_of self.new ≡ next_of self.old }
        ensures at_end { IfOk result (λ next. IfNone next (end_of self.new ≤ next_of self.new)) }
        ensures more { IfOk result (λ next. IfSome next (λ head. next_of self.new < end_of self.new)) }
        ensures ends { IfErr result (EndsRun (D.fault_count self.new.disk) self.old self.new) }
        ensures stands { D.Tells → (s : Stored) → Stands D.files self.old s → Stands D.files self.new s }
        ensures deletes { D.Tells → (place : ℕ) → MayDelete D.files self.old place → MayDelete D.files self.new place }
        ensures sees { D.Tells → KeepsSight D.files Anywhere self.old self.new }
        ensures open { IsOpenCopy self.new }
        ensures same { is_frozen self.new ≡ is_frozen self.old }
        ensures stuck { is_stuck self.new ≡ is_stuck self.old }
        ensures stays { KeepsEnd self.old self.new }
        ensures bare { bare_of self.new ≡ bare_of self.old }
        ensures bytes { D.Tells → volume_bytes D.files self.new ≡ volume_bytes D.files self.old }
        ensures head_file { D.Tells → KeepsHead D.files self.old self.new }

        ensures causes { IfErr result (IsPeekFault (D.fault_count self.old.disk) (D.fault_count self.new.disk)) }
        ensures counts { D.fault_count self.old.disk ≤ D.fault_count self.new.disk }
        ensures fuses { D.fuse_count self.new.disk ≡ D.fuse_count self.old.disk }
        ensures sup { self.new.sup ≡ self.old.sup }
    {
        match &mut self.phase {
            Phase::Open(files) => files.peek(&mut self.disk),
            Phase::Closed => unreachable!(),
        }
    }

    /// Examines the cell that `peek` gave: it is copied if it is not deleted and `latest` is its place. `latest` is the place of
    /// the last cell of its pair, or none where that cell is deleted. The rest of its needle is read only where it is copied.
    /// `NoMemory` leaves the compaction where it stood, and `Failed` and `Damaged` end it.
    pub fn copy(&mut self, cell: CellHead, latest: Option<u64>) -> Result<(), ReplicaFault>
        requires open { IsOpenCopy self.old }
        requires peeked { IsUp self.old → IsPeeked self.old cell }

        ensures frozen { IsFrozen self.old → (result ≡ Err ReplicaFault.Frozen) × (self.new ≡ self.old) }
        ensures thawed { IsErrOf result ReplicaFault.Frozen → IsFrozen self.old }
        ensures ended { IsUp self.old → goal_of self.old ≡ None → (result ≡ Err (ReplicaFault.Ended (faults_at_end self.old))) × (self.new ≡ self.old) }
        ensures none { (faults : ℕ) → result ≡ Err (ReplicaFault.Ended faults) → goal_of self.old ≡ None }

        // One cell less is left.
        ensures run { D.Tells → (s : Stored) (run : Run) → HasNext D.files self.old s run cell → IsLatest s.cells cell.pair latest →
            OnOk result (HasRun D.files self.new s (Some (stepped run))) }
        ensures whole { D.Tells → (s : Stored) (run : Run) → HasNext D.files self.old s run cell →
            (at : ℕ) → result ≡ Err (ReplicaFault.Damaged at) → ⊥ }
        ensures damaged { (at : ℕ) → result ≡ Err (ReplicaFault.Damaged at) → IsNextWithin (end_of self.old) (next_of self.old) at }
        // Where the disk tells, whatever it has, the cell is deleted, or is not the last of its pair, or its needle stands there.
        ensures met { D.Tells → OnOk result (IsPassedOrStands (next_of self.old) cell latest (volume_bytes D.files self.old)) }
        // Where the head stands there, there is no needle where damage is.
        ensures lacks { D.Tells → HeadStands (next_of self.old) cell (volume_bytes D.files self.old) → (at : ℕ) → result ≡ Err (ReplicaFault.Damaged at) →
            LacksNeedleWithin (end_of self.old) at (volume_bytes D.files self.old) }
        ensures memory { D.Tells → IsErrOf result ReplicaFault.NoMemory → (s : Stored) (run : Run) → HasRun D.files self.old s (Some run) → HasRun D.files self.new s (Some run) }
        ensures goal { OnOk result (goal_of self.new ≡ goal_of self.old) }
        ensures moved { OnOk result (next_of self.new ≡ next_of self.old + needle_total cell.size) }
        ensures place { OnErr result (goal_of self.new ≡ goal_of self.old → next_of self.new ≡ next_of self.old) }
        ensures ends { IfErr result (EndsRun (D.fault_count self.new.disk) self.old self.new) }
        ensures stands { D.Tells → (s : Stored) → Stands D.files self.old s → Stands D.files self.new s }
        ensures deletes { D.Tells → (place : ℕ) → MayDelete D.files self.old place → MayDelete D.files self.new place }
        ensures sees { D.Tells → KeepsSight D.files Anywhere self.old self.new }
        ensures open { IsOpenCopy self.new }
        ensures same { is_frozen self.new ≡ is_frozen self.old }
        ensures stuck { is_stuck self.new ≡ is_stuck self.old }
        ensures stays { KeepsEnd self.old self.new }
        ensures bare { bare_of self.new ≡ bare_of self.old }
        ensures bytes { D.Tells → volume_bytes D.files self.new ≡ volume_bytes D.files self.old }
        ensures head_file { D.Tells → KeepsHead D.files self.old self.new }

        ensures causes { IfErr result (IsPeekFault (D.fault_count self.old.disk) (D.fault_count self.new.disk)) }
        ensures counts { D.fault_count self.old.disk ≤ D.fault_count self.new.disk }
        ensures fuses { D.fuse_count self.new.disk ≡ D.fuse_count self.old.disk }
        ensures sup { self.new.sup ≡ self.old.sup }
    {
        match &mut self.phase {
            Phase::Open(files) => files.copy(&mut self.disk, cell, latest),
            Phase::Closed => unreachable!(),
        }
    }

    /// Ends a compaction whose cells are all examined, and makes its files the current ones. Answers the places of the photos:
    /// a pair that is not listed has none. The old files are taken away then; where that fails they stay, and it is no refusal.
    ///
    /// Any refusal ends the compaction. `Failed` freezes the replica where the head may name either generation.
    pub fn finish(&mut self) -> Result<Vec<OpenCell<D::Piece>>, ReplicaFault>
        requires open { IsOpenCopy self.old }

        ensures frozen { IsFrozen self.old → (result ≡ Err ReplicaFault.Frozen) × (self.new ≡ self.old) }
        ensures thawed { IsErrOf result ReplicaFault.Frozen → IsFrozen self.old }
        ensures ended { IsUp self.old → goal_of self.old ≡ None → (result ≡ Err (ReplicaFault.Ended (faults_at_end self.old))) × (self.new ≡ self.old) }
        ensures none { (faults : ℕ) → result ≡ Err (ReplicaFault.Ended faults) → goal_of self.old ≡ None }

        // The replica stands for the cells that were copied.
        ensures swapped { D.Tells → (s : Stored) (run : Run) → Stands D.files self.old s → HasRun D.files self.old s (Some run) → run.left ≡ 0 →
            IfOk result (λ places. (t : Stored) × Swaps s t × IsTight run s t × Stands D.files self.new t × AreThePlaces D.Piece.Tells t.cells places.items) }
        ensures counted { D.Tells → OnOk result ((t : Stored) → Stands D.files self.new t → length t.cells ≡ copied_of self.old) }
        ensures moved { OnOk result (generation_of self.new ≡ generation_of self.old + 1) }
        ensures named { (goal : ℕ) → goal_of self.old ≡ Some goal → OnOk result (generation_of self.new ≡ goal) }
        ensures small { OnOk result (generation_of self.new ≤ LAST_GENERATION) }
        ensures none_bare { OnOk result (bare_of self.new ≡ 0) }
        ensures from { OnOk result (64 ≤ end_of self.new) }
        ensures shorter { OnOk result (end_of self.new ≤ end_of self.old) }
        ensures up { OnOk result (IsUp self.new) }
        ensures going { OnOk result (is_stuck self.new ≡ false) }
        ensures can_delete { D.Tells → IfOk result (λ places. (pair : Pair) → MayDeletePlace D.files self.new (last_place places.items pair place.Gone)) }
        // On any disk each place lies within the new file.
        ensures within { IfOk result (λ places. ArePlacesWithin (end_of self.new) places.items) }
        ensures photos { IfOk result (λ places. ArePhotos places.items) }
        // Each place is one that was looked at, each needle that one has is a whole one, and each cell of the new file can be seen.
        ensures seen { D.Tells → IfOk result (λ places. (pair : Pair) → IsSeen (last_place places.items pair place.Gone)) }
        ensures needles { D.Tells → IfOk result (λ places. (pair : Pair) → HasWholeNeedle D.Piece.Tells (last_place places.items pair place.Gone)) }
        ensures shows { D.Tells → OnOk result ((s : Stored) → Stands D.files self.new s → AllByRecursion (ShowsCell D.files self.new) s.cells) }

        // The files of the old generation are gone, but for one whose removal failed.
        ensures removed { D.Tells → OnOk result (RemovedBoth (D.files self.new.disk) (volume_file (generation_of self.old)) (index_file (generation_of self.old))
            (D.fault_count self.old.disk) (D.fault_count self.new.disk)) }

        // A refusal leaves the photos, or a frozen replica, on whose disk stands what stood or what was to stand.
        ensures refused { D.Tells → (s : Stored) (run : Run) → Stands D.files self.old s → HasRun D.files self.old s (Some run) → run.left ≡ 0 →
            OnErr result (Stands D.files self.new s
            ⊎ (IsFrozen self.new × ((t : Stored) × Swaps s t × IsTight run s t × Holds D.files self.new (is_stuck self.old) s t))) }
        ensures kept { D.Tells → (s : Stored) → Stands D.files self.old s → OnErr result (IsUp self.new → Stands D.files self.new s) }
        ensures froze { IsUp self.old → IsFrozen self.new → result ≡ Err (ReplicaFault.Failed (D.fault_count self.new.disk)) }
        ensures still { OnErr result ((is_stuck self.new ≡ is_stuck self.old) × (generation_of self.new ≡ generation_of self.old)) }
        ensures stays { OnErr result (end_of self.new ≡ end_of self.old) }
        ensures still_bare { OnErr result (bare_of self.new ≡ bare_of self.old) }
        ensures deletes { D.Tells → (place : ℕ) → MayDelete D.files self.old place → OnErr result (MayDelete D.files self.new place) }
        ensures sees { D.Tells → OnErr result (KeepsSight D.files Anywhere self.old self.new) }
        // The head is written only where the files are swapped, or the replica is frozen.
        ensures head_file { D.Tells → OnErr result (IsUp self.new → KeepsHead D.files self.old self.new) }
        ensures goal { goal_of self.new ≡ None }
        ensures faults { (goal : ℕ) → IsUp self.old → goal_of self.old ≡ Some goal → faults_at_end self.new ≡ D.fault_count self.new.disk }
        ensures open { IsOpenCopy self.new }

        ensures causes { IfErr result (IsRunFault (D.fault_count self.old.disk) (D.fault_count self.new.disk)) }
        ensures counts { D.fault_count self.old.disk ≤ D.fault_count self.new.disk }
        ensures fuses { D.fuse_count self.new.disk ≡ D.fuse_count self.old.disk }
        ensures sup { self.new.sup ≡ self.old.sup }
    {
        match &mut self.phase {
            Phase::Open(files) => files.finish(&mut self.disk),
            Phase::Closed => unreachable!(),
        }
    }

    /// Lets go of a compaction that stands. The disk is not called.
    pub fn drop_run(&mut self)
        ensures goal { goal_of self.new ≡ None }
        ensures faults { (goal : ℕ) → goal_of self.old ≡ Some goal → faults_at_end self.new ≡ D.fault_count self.new.disk }
        ensures idle { goal_of self.old ≡ None → self.new ≡ self.old }
        ensures stands { D.Tells → (s : Stored) → Stands D.files self.old s → Stands D.files self.new s }
        ensures holds { D.Tells → (stuck : Bool) (s t : Stored) → Holds D.files self.old stuck s t → Holds D.files self.new stuck s t }
        ensures deletes { D.Tells → (place : ℕ) → MayDelete D.files self.old place → MayDelete D.files self.new place }
        ensures sees { D.Tells → KeepsSight D.files Anywhere self.old self.new }
        ensures up { IsUp self.old → IsUp self.new }
        ensures open { IsOpenCopy self.old → IsOpenCopy self.new }
        ensures same { is_frozen self.new ≡ is_frozen self.old }
        ensures stuck { is_stuck self.new ≡ is_stuck self.old }
        ensures stays { KeepsEnd self.old self.new }
        ensures bare { bare_of self.new ≡ bare_of self.old }
        ensures disk { self.new.disk ≡ self.old.disk }
        ensures sup { self.new.sup ≡ self.old.sup }
    {
        match &mut self.phase {
            Phase::Open(files) => files.end_run(&self.disk),
            Phase::Closed => {}
        }
    }
}
