//! A compaction of an open replica.

ghost use Rattle.std.specs.Prelude.{◌≡◌, ◌⊎◌, ◌≤◌, ◌<◌, ◌+◌, ◌^◌, ℕ, [], Some, None, true, false, length, Err, IfOk, IfErr, IfSome, IfNone, OnOk, OnErr, IsErrOf};
ghost use Rattle.hay_needle.specs.Sizes.{needle_total};
ghost use Rattle.hay_needle.specs.declared.needle.Pair.{Pair};
ghost use Rattle.hay_needle.specs.declared.settings.Super.{Super};
ghost use Rattle.hay_map.specs.declared.place.Place.TheVariants as place;
ghost use Rattle.hay_map.specs.Rows.{last_place};
ghost use Rattle.hay_volume.specs.Needles.{LacksNeedleWithin};
ghost use Rattle.hay_open.specs.Finds.{ArePlacesWithin};
ghost use Rattle.hay_open.specs.Stored.{Stored};
ghost use Rattle.hay_compact.specs.Copying.{HeadStands, IsLatest, IsNextWithin, IsPassedOrStands, KeepsOtherFiles, Stage};
ghost use Rattle.hay_compact.specs.Finishing.{ArePhotos, AreThePlaces, IsSeen};
ghost use Rattle.hay_physical.specs.OpenCopies.{copier_copied, copier_faults, copier_goal, copier_next};
ghost use Rattle.hay_physical.specs.Faults.{IsBeginFault, IsPeekFault, IsRunFault};
ghost use Rattle.hay_physical.specs.Replicas.{FilesReady, FilesStand, HasWholeNeedle, IsBounded, IsCopierReady, IsSettled, MayFind, MayFlagPlace};
ghost use Rattle.hay_physical.specs.CompactionRuns.{CopierPeeked, EndsBy, EndsInDelete, FilesPeek, FilesRun, IsTight, KeepsFiles, RemovedBoth, RepeatsIn, Run, Swaps, stepped};
ghost use Rattle.hay_physical.specs.declared.state.Copier.TheVariants.{Ended, Standing};

use crate::fault::ReplicaFault;
use crate::state::{Copier, OpenFiles};
use hay_compact::Compactor;
use hay_disk::{Disk, DiskFault};
use hay_map::OpenCell;
use hay_needle::{CellHead, LAST_GENERATION, Pair, Super};
use hay_volume::CellFault;
use std::alloc::Global;
use std::mem;

impl OpenFiles {
    // Begins a compaction, and answers the generation that it makes.
    pub(crate) fn begin<D: Disk>(
        &mut self,
        alloc: Global,
        disk: &mut D,
        sup: &Super,
    ) -> Result<u64, ReplicaFault>
        ensures frozen { self.old.frozen ≡ true → (result ≡ Err ReplicaFault.Frozen) × (self.new ≡ self.old) × (disk.new ≡ disk.old) }
        ensures thawed { IsErrOf result ReplicaFault.Frozen → self.old.frozen ≡ true }
        ensures busy { (goal : ℕ) → self.old.frozen ≡ false → copier_goal self.old.copier ≡ Some goal
            → (result ≡ Err (ReplicaFault.Busy goal)) × (disk.new ≡ disk.old) }
        ensures idle { (goal : ℕ) → result ≡ Err (ReplicaFault.Busy goal) → copier_goal self.old.copier ≡ Some goal }
        ensures worn { self.old.frozen ≡ false → copier_goal self.old.copier ≡ None → LAST_GENERATION ≤ self.old.head.generation
            → (result ≡ Err ReplicaFault.Worn) × (disk.new ≡ disk.old) }
        ensures most { IsErrOf result ReplicaFault.Worn → (copier_goal self.old.copier ≡ None) × (LAST_GENERATION ≤ self.old.head.generation) }

        ensures begun { IfOk result (λ goal. (self.old.frozen ≡ false) × (copier_goal self.old.copier ≡ None) × (goal ≡ self.old.head.generation + 1) × (goal ≤ LAST_GENERATION)
            × (copier_goal self.new.copier ≡ Some goal)) }
        ensures first { OnOk result (copier_next self.new.copier ≡ 64) }
        ensures memory { IsErrOf result ReplicaFault.NoMemory → (copier_goal self.old.copier ≡ None) × (self.old.head.generation < LAST_GENERATION) }
        ensures failed { (faults : ℕ) → result ≡ Err (ReplicaFault.Failed faults) → (copier_goal self.old.copier ≡ None) × (self.old.head.generation < LAST_GENERATION) }
        ensures run { D.Tells → IfOk result (λ goal. (s : Stored) → FilesStand sup.now (D.files disk.old) self.old s →
            FilesRun sup.now (D.files disk.new) self.new s (record { goal = goal; left = length s.cells; tight = true })) }
        ensures making { D.Tells → OnOk result (IsCopierReady (D.files disk.new) self.new) }
        ensures err { OnErr result (self.new ≡ self.old) }
        ensures keeps { KeepsFiles self.old self.new }
        ensures bounded { IsBounded sup.now.settings.capacity self.old → IsBounded sup.now.settings.capacity self.new }

        ensures others { D.Tells → KeepsOtherFiles (self.old.head.generation + 1) (D.files disk.old) (D.files disk.new) }
        ensures causes { IfErr result (IsBeginFault (D.fault_count disk.old) (D.fault_count disk.new)) }
        ensures counts { D.fault_count disk.old ≤ D.fault_count disk.new }
        ensures fuses { D.fuse_count disk.new ≡ D.fuse_count disk.old }
    {
        if self.frozen {
            return Err(ReplicaFault::Frozen);
        }
        if let Copier::Standing(compactor) = &self.copier {
            return Err(ReplicaFault::Busy {
                generation: compactor.generation(),
            });
        }
        if self.head.current() >= LAST_GENERATION {
            return Err(ReplicaFault::Worn);
        }
        let generation = self.head.current() + 1;
        match Compactor::begin(alloc, disk, sup, generation) {
            Ok(compactor) => {
                self.copier = Copier::Standing(compactor);
                Ok(generation)
            }
            Err(DiskFault::NoMemory) => Err(ReplicaFault::NoMemory),
            Err(DiskFault::Failed) => Err(ReplicaFault::Failed {
                faults: disk.faults(),
            }),
        }
    }

    // The next cell of the current volume file, by its head, or none at its end.
    pub(crate) fn peek<D: Disk>(&mut self, disk: &mut D) -> Result<Option<CellHead>, ReplicaFault>
        ensures frozen { self.old.frozen ≡ true → (result ≡ Err ReplicaFault.Frozen) × (self.new ≡ self.old) × (disk.new ≡ disk.old) }
        ensures thawed { IsErrOf result ReplicaFault.Frozen → self.old.frozen ≡ true }
        ensures ended { self.old.frozen ≡ false → copier_goal self.old.copier ≡ None
            → (result ≡ Err (ReplicaFault.Ended (copier_faults self.old.copier))) × (self.new ≡ self.old) × (disk.new ≡ disk.old) }
        ensures none { (faults : ℕ) → result ≡ Err (ReplicaFault.Ended faults) → copier_goal self.old.copier ≡ None }

        ensures peeked { IfOk result (λ next. IfSome next (λ head. CopierPeeked self.new.volume.end self.new.copier head)) }
        ensures end { IfOk result (λ next. IfNone next (self.new.volume.end ≤ copier_next self.new.copier)) }
        ensures more { IfOk result (λ next. IfSome next (λ head. copier_next self.new.copier < self.new.volume.end)) }
        ensures place { copier_goal self.new.copier ≡ copier_goal self.old.copier → copier_next self.new.copier ≡ copier_next self.old.copier }
        ensures next { D.Tells → (sup : Super) (s : Stored) (run : Run) → FilesRun sup (D.files disk.old) self.old s run →
            IfOk result (λ next. IfSome next (λ head. FilesPeek sup (D.files disk.new) self.new s run head)) }
        ensures all { D.Tells → (sup : Super) (s : Stored) (run : Run) → FilesRun sup (D.files disk.old) self.old s run →
            IfOk result (λ next. IfNone next (run.left ≡ 0)) }
        ensures whole { D.Tells → (sup : Super) (s : Stored) (run : Run) → FilesRun sup (D.files disk.old) self.old s run →
            (at : ℕ) → result ≡ Err (ReplicaFault.Damaged at) → ⊥ }
        ensures damaged { (at : ℕ) → result ≡ Err (ReplicaFault.Damaged at) → IsNextWithin self.old.volume.end (copier_next self.old.copier) at }
        // Where the disk tells, the head stands there, and there is no needle where damage is.
        ensures head { D.Tells → IfOk result (λ next. IfSome next (λ head. HeadStands (copier_next self.new.copier) head (D.files disk.new self.old.volume.file).now)) }
        ensures lacks { D.Tells → self.old.volume.end + 8 < 2 ^ 64 → (at : ℕ) → result ≡ Err (ReplicaFault.Damaged at) →
            LacksNeedleWithin self.old.volume.end at (D.files disk.old self.old.volume.file).now }
        ensures memory { result ≡ Err ReplicaFault.NoMemory → ⊥ }

        // It stands where it stood, unless a failure or damage ended it.
        ensures run { D.Tells → (sup : Super) (s : Stored) (run : Run) → FilesRun sup (D.files disk.old) self.old s run →
            OnOk result (FilesRun sup (D.files disk.new) self.new s run) }
        ensures ok { OnOk result (copier_goal self.new.copier ≡ copier_goal self.old.copier) }
        ensures err { IfErr result (EndsBy (D.fault_count disk.new) self.old.copier self.new.copier) }
        ensures making { D.Tells → IsCopierReady (D.files disk.old) self.old → IsCopierReady (D.files disk.new) self.new }
        ensures goal { (copier_goal self.new.copier ≡ copier_goal self.old.copier) ⊎ (copier_goal self.new.copier ≡ None) }
        ensures keeps { KeepsFiles self.old self.new }
        ensures bounded { (capacity : ℕ) → IsBounded capacity self.old → IsBounded capacity self.new }

        ensures files { D.Tells → D.files disk.new ≡ D.files disk.old }
        ensures causes { IfErr result (IsPeekFault (D.fault_count disk.old) (D.fault_count disk.new)) }
        ensures counts { D.fault_count disk.old ≤ D.fault_count disk.new }
        ensures fuses { D.fuse_count disk.new ≡ D.fuse_count disk.old }
    {
        if self.frozen {
            return Err(ReplicaFault::Frozen);
        }
        match &self.copier {
            Copier::Ended { faults } => Err(ReplicaFault::Ended { faults: *faults }),
            Copier::Standing(compactor) => match compactor.peek(disk, &self.volume) {
                Ok(next) => Ok(next),
                Err(fault) => Err(self.broken_off(disk, fault)),
            },
        }
    }

    // Examines the cell that was peeked at. `latest` is the place of the last cell of its pair, or none where that is deleted.
    pub(crate) fn copy<D: Disk>(
        &mut self,
        disk: &mut D,
        cell: CellHead,
        latest: Option<u64>,
    ) -> Result<(), ReplicaFault>
        requires peeked { self.old.frozen ≡ false → CopierPeeked self.old.volume.end self.old.copier cell }
        requires making { D.Tells → self.old.frozen ≡ false → IsCopierReady (D.files disk.old) self.old }
        requires settled { IsSettled self.old }

        ensures frozen { self.old.frozen ≡ true → (result ≡ Err ReplicaFault.Frozen) × (self.new ≡ self.old) × (disk.new ≡ disk.old) }
        ensures thawed { IsErrOf result ReplicaFault.Frozen → self.old.frozen ≡ true }
        ensures ended { self.old.frozen ≡ false → copier_goal self.old.copier ≡ None
            → (result ≡ Err (ReplicaFault.Ended (copier_faults self.old.copier))) × (self.new ≡ self.old) × (disk.new ≡ disk.old) }
        ensures none { (faults : ℕ) → result ≡ Err (ReplicaFault.Ended faults) → copier_goal self.old.copier ≡ None }

        ensures run { D.Tells → (sup : Super) (s : Stored) (run : Run) → FilesPeek sup (D.files disk.old) self.old s run cell → IsLatest s.cells cell.pair latest →
            OnOk result (FilesRun sup (D.files disk.new) self.new s (stepped run)) }
        ensures whole { D.Tells → (sup : Super) (s : Stored) (run : Run) → FilesPeek sup (D.files disk.old) self.old s run cell →
            (at : ℕ) → result ≡ Err (ReplicaFault.Damaged at) → ⊥ }
        ensures damaged { (at : ℕ) → result ≡ Err (ReplicaFault.Damaged at) → IsNextWithin self.old.volume.end (copier_next self.old.copier) at }
        ensures met { D.Tells → OnOk result (IsPassedOrStands (copier_next self.old.copier) cell latest (D.files disk.old self.old.volume.file).now) }
        ensures lacks { D.Tells → HeadStands (copier_next self.old.copier) cell (D.files disk.old self.old.volume.file).now → (at : ℕ) → result ≡ Err (ReplicaFault.Damaged at) →
            LacksNeedleWithin self.old.volume.end at (D.files disk.old self.old.volume.file).now }
        ensures memory { D.Tells → IsErrOf result ReplicaFault.NoMemory → (sup : Super) (s : Stored) (run : Run) → FilesRun sup (D.files disk.old) self.old s run →
            FilesRun sup (D.files disk.new) self.new s run }
        ensures moved { OnOk result (copier_next self.new.copier ≡ copier_next self.old.copier + needle_total cell.size) }
        ensures place { OnErr result (copier_goal self.new.copier ≡ copier_goal self.old.copier → copier_next self.new.copier ≡ copier_next self.old.copier) }
        ensures ok { OnOk result (copier_goal self.new.copier ≡ copier_goal self.old.copier) }
        ensures err { IfErr result (EndsBy (D.fault_count disk.new) self.old.copier self.new.copier) }
        ensures making { D.Tells → self.old.frozen ≡ false → IsCopierReady (D.files disk.new) self.new }
        ensures goal { (copier_goal self.new.copier ≡ copier_goal self.old.copier) ⊎ (copier_goal self.new.copier ≡ None) }
        ensures keeps { KeepsFiles self.old self.new }
        ensures bounded { (capacity : ℕ) → IsBounded capacity self.old → IsBounded capacity self.new }

        ensures others { D.Tells → KeepsOtherFiles (self.old.head.generation + 1) (D.files disk.old) (D.files disk.new) }
        ensures causes { IfErr result (IsPeekFault (D.fault_count disk.old) (D.fault_count disk.new)) }
        ensures counts { D.fault_count disk.old ≤ D.fault_count disk.new }
        ensures fuses { D.fuse_count disk.new ≡ D.fuse_count disk.old }
    {
        if self.frozen {
            return Err(ReplicaFault::Frozen);
        }
        match &mut self.copier {
            Copier::Ended { faults } => Err(ReplicaFault::Ended { faults: *faults }),
            Copier::Standing(compactor) => match compactor.copy(disk, &self.volume, cell, latest) {
                Ok(_) => Ok(()),
                Err(fault) => Err(self.broken_off(disk, fault)),
            },
        }
    }

    // Why a compaction did not go on. Want of memory lets it stand, and all else ends it.
    fn broken_off<D: Disk>(&mut self, disk: &D, fault: CellFault) -> ReplicaFault
        ensures memory { fault ≡ CellFault.NoMemory → (result ≡ ReplicaFault.NoMemory) × (self.new ≡ self.old) }
        ensures failed { fault ≡ CellFault.Failed → (result ≡ ReplicaFault.Failed (D.fault_count disk.now)) × (self.new ≡ record self.old { copier = Ended (D.fault_count disk.now) }) }
        ensures damaged { (at : ℕ) → fault ≡ CellFault.Damaged at → (result ≡ ReplicaFault.Damaged at) × (self.new ≡ record self.old { copier = Ended (D.fault_count disk.now) }) }
        ensures bounded { (capacity : ℕ) → IsBounded capacity self.old → IsBounded capacity self.new }
    {
        let refusal = match fault {
            CellFault::NoMemory => return ReplicaFault::NoMemory,
            CellFault::Failed => ReplicaFault::Failed {
                faults: disk.faults(),
            },
            CellFault::Damaged { at } => ReplicaFault::Damaged { at },
        };
        self.copier = Copier::Ended {
            faults: disk.faults(),
        };
        refusal
    }

    // Repeats a delete in the compaction that stands, if any. A failure ends it.
    pub(crate) fn repeat_delete<D: Disk>(&mut self, disk: &mut D, pair: Pair)
        requires making { D.Tells → IsCopierReady (D.files disk.old) self.old }
        requires settled { IsSettled self.old }

        ensures repeated { D.Tells → (stage : Stage) → self.old.copier ≡ Standing stage → RepeatsIn (D.files disk.old) (D.files disk.new) self.old pair stage self.new.copier }
        ensures idle { copier_goal self.old.copier ≡ None → (self.new ≡ self.old) × (disk.new ≡ disk.old) }
        ensures ends { EndsInDelete (D.fault_count disk.old) (D.fault_count disk.new) self.old.copier self.new.copier }
        ensures place { copier_goal self.new.copier ≡ copier_goal self.old.copier → copier_next self.new.copier ≡ copier_next self.old.copier }
        ensures making { D.Tells → IsCopierReady (D.files disk.new) self.new }
        ensures keeps { KeepsFiles self.old self.new }
        ensures bounded { (capacity : ℕ) → IsBounded capacity self.old → IsBounded capacity self.new }

        ensures others { D.Tells → KeepsOtherFiles (self.old.head.generation + 1) (D.files disk.old) (D.files disk.new) }
        ensures counts { D.fault_count disk.old ≤ D.fault_count disk.new }
        ensures fuses { D.fuse_count disk.new ≡ D.fuse_count disk.old }
    {
        if let Copier::Standing(compactor) = &mut self.copier {
            if compactor.repeat_delete(disk, pair).is_err() {
                self.copier = Copier::Ended {
                    faults: disk.faults(),
                };
            }
        }
    }

    // Ends the compaction that stands, if any.
    pub(crate) fn end_run<D: Disk>(&mut self, disk: &D)
        ensures ended { (goal : ℕ) → copier_goal self.old.copier ≡ Some goal → self.new.copier ≡ Ended (D.fault_count disk.now) }
        ensures idle { copier_goal self.old.copier ≡ None → self.new ≡ self.old }
        ensures none { copier_goal self.new.copier ≡ None }
        ensures keeps { KeepsFiles self.old self.new }
        ensures bounded { (capacity : ℕ) → IsBounded capacity self.old → IsBounded capacity self.new }
    {
        if let Copier::Standing(_) = &self.copier {
            self.copier = Copier::Ended {
                faults: disk.faults(),
            };
        }
    }

    // Ends the compaction, and makes its files the current ones. Answers the places of the photos.
    pub(crate) fn finish<D: Disk>(
        &mut self,
        disk: &mut D,
    ) -> Result<Vec<OpenCell<D::Piece>>, ReplicaFault>
        requires ready { D.Tells → self.old.frozen ≡ false → FilesReady (D.files disk.old) self.old }
        requires making { D.Tells → self.old.frozen ≡ false → IsCopierReady (D.files disk.old) self.old }
        requires settled { IsSettled self.old }

        ensures frozen { self.old.frozen ≡ true → (result ≡ Err ReplicaFault.Frozen) × (self.new ≡ self.old) × (disk.new ≡ disk.old) }
        ensures thawed { IsErrOf result ReplicaFault.Frozen → self.old.frozen ≡ true }
        ensures ended { self.old.frozen ≡ false → copier_goal self.old.copier ≡ None
            → (result ≡ Err (ReplicaFault.Ended (copier_faults self.old.copier))) × (self.new ≡ self.old) × (disk.new ≡ disk.old) }
        ensures none { (faults : ℕ) → result ≡ Err (ReplicaFault.Ended faults) → copier_goal self.old.copier ≡ None }

        ensures swapped { D.Tells → (sup : Super) (s : Stored) (run : Run) → FilesStand sup (D.files disk.old) self.old s → FilesRun sup (D.files disk.old) self.old s run → run.left ≡ 0 →
            IfOk result (λ places. (t : Stored) × Swaps s t × IsTight run s t × FilesStand sup (D.files disk.new) self.new t × AreThePlaces D.Piece.Tells t.cells places.items) }
        ensures counted { D.Tells → OnOk result ((sup : Super) (t : Stored) → FilesStand sup (D.files disk.new) self.new t → length t.cells ≡ copier_copied self.old.copier) }
        ensures open { OnOk result ((self.new.frozen ≡ false) × (self.new.index.frozen ≡ false)) }
        ensures moved { OnOk result (self.new.head.generation ≡ self.old.head.generation + 1) }
        ensures named { (goal : ℕ) → copier_goal self.old.copier ≡ Some goal → OnOk result (self.new.head.generation ≡ goal) }
        ensures flushed { OnOk result (self.new.index.pending ≡ []) }
        ensures shorter { (capacity : ℕ) → IsBounded capacity self.old → OnOk result (self.new.volume.end ≤ self.old.volume.end) }
        ensures goal { copier_goal self.new.copier ≡ None }
        ensures removed { D.Tells → OnOk result (RemovedBoth (D.files disk.new) self.old.volume.file self.old.index.file (D.fault_count disk.old) (D.fault_count disk.new)) }
        ensures kept { D.Tells → (sup : Super) (s : Stored) → self.old.frozen ≡ false → FilesStand sup (D.files disk.old) self.old s →
            OnErr result (self.new.frozen ≡ false → FilesStand sup (D.files disk.new) self.new s) }
        ensures unsure { D.Tells → (sup : Super) (s : Stored) (run : Run) → self.old.frozen ≡ false → FilesStand sup (D.files disk.old) self.old s
            → FilesRun sup (D.files disk.old) self.old s run → run.left ≡ 0 →
            OnErr result (self.new.frozen ≡ true → (t : Stored) × Swaps s t × IsTight run s t × MayFind sup (D.files disk.new) self.old.index.frozen s t) }
        ensures froze { self.new.frozen ≡ true → self.old.frozen ≡ false → result ≡ Err (ReplicaFault.Failed (D.fault_count disk.new)) }
        ensures same { OnErr result (KeepsFiles self.old (record self.new { frozen = self.old.frozen })) }
        ensures faults { (goal : ℕ) → self.old.frozen ≡ false → copier_goal self.old.copier ≡ Some goal → self.new.copier ≡ Ended (D.fault_count disk.new) }

        ensures ready { D.Tells → self.new.frozen ≡ false → FilesReady (D.files disk.new) self.new }
        ensures flags { D.Tells → IfOk result (λ places. (pair : Pair) → MayFlagPlace (D.files disk.new) self.new (last_place places.items pair place.Gone)) }
        ensures bounded { (capacity : ℕ) → IsBounded capacity self.old → IsBounded capacity self.new }
        ensures within { IfOk result (λ places. ArePlacesWithin self.new.volume.end places.items) }
        ensures photos { IfOk result (λ places. ArePhotos places.items) }
        ensures seen { D.Tells → IfOk result (λ places. (pair : Pair) → IsSeen (last_place places.items pair place.Gone)) }
        ensures needles { D.Tells → IfOk result (λ places. (pair : Pair) → HasWholeNeedle D.Piece.Tells (last_place places.items pair place.Gone)) }
        ensures volume { D.Tells → self.old.frozen ≡ false → OnErr result (D.files disk.new self.old.volume.file ≡ D.files disk.old self.old.volume.file) }
        ensures head_file { D.Tells → self.old.frozen ≡ false → OnErr result (self.new.frozen ≡ false → D.files disk.new 0 ≡ D.files disk.old 0) }

        ensures causes { IfErr result (IsRunFault (D.fault_count disk.old) (D.fault_count disk.new)) }
        ensures counts { D.fault_count disk.old ≤ D.fault_count disk.new }
        ensures fuses { D.fuse_count disk.new ≡ D.fuse_count disk.old }
    {
        if self.frozen {
            return Err(ReplicaFault::Frozen);
        }
        match mem::replace(&mut self.copier, Copier::Ended { faults: 0 }) {
            Copier::Ended { faults } => {
                self.copier = Copier::Ended { faults };
                Err(ReplicaFault::Ended { faults })
            }
            Copier::Standing(compactor) => {
                let answer = self.make_current(disk, compactor);
                self.copier = Copier::Ended {
                    faults: disk.faults(),
                };
                answer
            }
        }
    }
}
