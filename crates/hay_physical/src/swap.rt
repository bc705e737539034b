//! The end of a compaction of an open replica.

ghost use Rattle.std.specs.Prelude.{◌≡◌, ◌≢◌, ◌≤◌, ◌+◌, ℕ, List, [], length, true, false, Err, IfOk, IfErr, OnOk, OnErr, IsErrOf};
ghost use Rattle.hay_disk.specs.Disk.{KeepsOthers};
ghost use Rattle.hay_disk.specs.Gate.{IsGate};
ghost use Rattle.hay_head.specs.Head.{head_magic, row_place};
ghost use Rattle.hay_needle.specs.declared.needle.Cell.{Cell};
ghost use Rattle.hay_needle.specs.declared.needle.Pair.{Pair};
ghost use Rattle.hay_needle.specs.declared.settings.Super.{Super};
ghost use Rattle.hay_map.specs.declared.place.Place.TheVariants as place;
ghost use Rattle.hay_map.specs.Rows.{last_place};
ghost use Rattle.hay_open.specs.Finds.{ArePlacesWithin};
ghost use Rattle.hay_open.specs.Stored.{Stored, volume_file};
ghost use Rattle.hay_compact.specs.Copying.{IsMaking, Making, stored_of};
ghost use Rattle.hay_compact.specs.Finishing.{ArePhotos, AreThePlaces, IsSeen};
ghost use Rattle.hay_physical.specs.Faults.{IsRunFault};
ghost use Rattle.hay_physical.specs.Replicas.{FilesReady, FilesStand, HasWholeNeedle, MayFind, MayFlagPlace};
ghost use Rattle.hay_physical.specs.CompactionRuns.{KeepsBut, MaySwitch, RemovedBoth, Switches};

use crate::fault::ReplicaFault;
use crate::state::OpenFiles;
use hay_compact::{Compactor, Finished};
use hay_disk::{Disk, DiskFault};
use hay_map::OpenCell;
use hay_needle::LAST_GENERATION;

impl OpenFiles {
    // Makes the files of a compaction whole, and then the current ones.
    pub(crate) fn make_current<D: Disk>(
        &mut self,
        disk: &mut D,
        compactor: Compactor,
    ) -> Result<Vec<OpenCell<D::Piece>>, ReplicaFault>
        requires open { self.old.frozen ≡ false }
        requires next { compactor.generation ≡ self.old.head.generation + 1 }
        requires small { compactor.generation ≤ LAST_GENERATION }
        requires making { D.Tells → IsMaking (D.files disk.old) compactor }
        requires ready { D.Tells → FilesReady (D.files disk.old) self.old }

        ensures stands { D.Tells → (sup : Super) (s : Stored) (fresh : List Cell) → FilesStand sup (D.files disk.old) self.old s → Making sup (D.files disk.old) compactor fresh →
            IfOk result (λ places. FilesStand sup (D.files disk.new) self.new (stored_of compactor fresh) × AreThePlaces D.Piece.Tells fresh places.items) }
        ensures counted { D.Tells → OnOk result ((sup : Super) (t : Stored) → FilesStand sup (D.files disk.new) self.new t → length t.cells ≡ length compactor.index.pending) }
        ensures open { OnOk result ((self.new.frozen ≡ false) × (self.new.index.frozen ≡ false)) }
        ensures behind { compactor.volume.end ≤ compactor.next }
        ensures most { self.old.head.generation ≤ LAST_GENERATION → self.new.head.generation ≤ LAST_GENERATION }
        ensures named { self.old.volume.file ≡ volume_file self.old.head.generation → self.new.volume.file ≡ volume_file self.new.head.generation }
        ensures from { 64 ≤ self.old.volume.end → 64 ≤ self.new.volume.end }
        ensures within { IfOk result (λ places. ArePlacesWithin self.new.volume.end places.items) }
        ensures limit { (capacity : ℕ) → self.old.volume.capacity ≡ capacity → compactor.capacity ≡ capacity → self.new.volume.capacity ≡ capacity }
        ensures moved { OnOk result (self.new.head.generation ≡ self.old.head.generation + 1) }
        ensures flushed { OnOk result (self.new.index.pending ≡ []) }
        ensures shorter { OnOk result (self.new.volume.end ≤ compactor.next) }
        ensures flags { D.Tells → IfOk result (λ places. (pair : Pair) → MayFlagPlace (D.files disk.new) self.new (last_place places.items pair place.Gone)) }
        ensures seen { D.Tells → IfOk result (λ places. (pair : Pair) → IsSeen (last_place places.items pair place.Gone)) }
        ensures needles { D.Tells → IfOk result (λ places. (pair : Pair) → HasWholeNeedle D.Piece.Tells (last_place places.items pair place.Gone)) }
        ensures photos { IfOk result (λ places. ArePhotos places.items) }
        ensures ready { D.Tells → self.new.frozen ≡ false → FilesReady (D.files disk.new) self.new }
        ensures copier { self.new.copier ≡ self.old.copier }
        ensures removed { D.Tells → OnOk result (RemovedBoth (D.files disk.new) self.old.volume.file self.old.index.file (D.fault_count disk.old) (D.fault_count disk.new)) }

        // A refusal leaves what stood, but where the head was not written whole an opening finds that or the new files.
        ensures kept { D.Tells → (sup : Super) (s : Stored) → FilesStand sup (D.files disk.old) self.old s →
            OnErr result (self.new.frozen ≡ false → FilesStand sup (D.files disk.new) self.new s) }
        ensures unsure { D.Tells → (sup : Super) (s : Stored) (fresh : List Cell) → FilesStand sup (D.files disk.old) self.old s → Making sup (D.files disk.old) compactor fresh →
            OnErr result (self.new.frozen ≡ true → MayFind sup (D.files disk.new) self.old.index.frozen s (stored_of compactor fresh)) }
        ensures err { OnErr result (self.new ≡ record self.old { frozen = self.new.frozen }) }
        ensures froze { self.new.frozen ≡ true → result ≡ Err (ReplicaFault.Failed (D.fault_count disk.new)) }
        ensures volume { D.Tells → OnErr result (D.files disk.new self.old.volume.file ≡ D.files disk.old self.old.volume.file) }
        ensures head_file { D.Tells → OnErr result (self.new.frozen ≡ false → D.files disk.new 0 ≡ D.files disk.old 0) }

        ensures none { (faults : ℕ) → result ≡ Err (ReplicaFault.Ended faults) → ⊥ }
        ensures thawed { IsErrOf result ReplicaFault.Frozen → ⊥ }
        ensures causes { IfErr result (IsRunFault (D.fault_count disk.old) (D.fault_count disk.new)) }
        ensures counts { D.fault_count disk.old ≤ D.fault_count disk.new }
        ensures fuses { D.fuse_count disk.new ≡ D.fuse_count disk.old }
    {
        match compactor.finish(disk) {
            Ok(finished) => self.swap(disk, finished),
            Err(DiskFault::NoMemory) => Err(ReplicaFault::NoMemory),
            Err(DiskFault::Failed) => Err(ReplicaFault::Failed {
                faults: disk.faults(),
            }),
        }
    }

    // Has the head name the next generation, whose files these are, and takes the old ones away.
    fn swap<D: Disk>(
        &mut self,
        disk: &mut D,
        finished: Finished<D::Piece>,
    ) -> Result<Vec<OpenCell<D::Piece>>, ReplicaFault>
        requires open { self.old.frozen ≡ false }
        requires most { self.old.head.generation + 1 ≤ LAST_GENERATION }
        requires gate { D.Tells → IsGate head_magic (row_place (self.old.head.generation + 1)) (D.files disk.old 0) }

        ensures swapped { IfOk result (λ places. (places ≡ finished.places)
            × (self.new ≡ record self.old { head = record { generation = self.old.head.generation + 1 }; volume = finished.volume; index = finished.index })) }
        ensures switches { D.Tells → 0 ≢ self.old.volume.file → 0 ≢ self.old.index.file → OnOk result (Switches (D.files disk.old 0) (D.files disk.new 0) self.old.head.generation) }
        ensures others { D.Tells → OnOk result (KeepsBut self.old.volume.file self.old.index.file (D.files disk.old) (D.files disk.new)) }
        ensures removed { D.Tells → OnOk result (RemovedBoth (D.files disk.new) self.old.volume.file self.old.index.file (D.fault_count disk.old) (D.fault_count disk.new)) }

        ensures left { D.Tells → OnErr result (MaySwitch (D.files disk.old 0) (D.files disk.new 0) self.old.head.generation) }
        ensures err_others { D.Tells → OnErr result (KeepsOthers 0 (D.files disk.old) (D.files disk.new)) }
        ensures err { OnErr result (self.new ≡ record self.old { frozen = self.new.frozen }) }
        ensures kept { D.Tells → OnErr result (self.new.frozen ≡ false → D.files disk.new ≡ D.files disk.old) }
        ensures froze { self.new.frozen ≡ true → result ≡ Err (ReplicaFault.Failed (D.fault_count disk.new)) }

        ensures none { (faults : ℕ) → result ≡ Err (ReplicaFault.Ended faults) → ⊥ }
        ensures thawed { IsErrOf result ReplicaFault.Frozen → ⊥ }
        ensures causes { IfErr result (IsRunFault (D.fault_count disk.old) (D.fault_count disk.new)) }
        ensures counts { D.fault_count disk.old ≤ D.fault_count disk.new }
        ensures fuses { D.fuse_count disk.new ≡ D.fuse_count disk.old }
    {
        let generation = self.head.current() + 1;
        match self.head.switch(disk, generation) {
            Ok(()) => Ok(self.adopt(disk, finished)),
            Err(DiskFault::NoMemory) => Err(ReplicaFault::NoMemory),
            Err(DiskFault::Failed) => {
                self.frozen = true;
                Err(ReplicaFault::Failed {
                    faults: disk.faults(),
                })
            }
        }
    }

    // Takes these files for the current ones, and the old ones away. Where that fails they stay, which changes nothing.
    fn adopt<D: Disk>(
        &mut self,
        disk: &mut D,
        finished: Finished<D::Piece>,
    ) -> Vec<OpenCell<D::Piece>>
        ensures places { result ≡ finished.places }
        ensures adopted { self.new ≡ record self.old { volume = finished.volume; index = finished.index } }
        ensures removed { D.Tells → RemovedBoth (D.files disk.new) self.old.volume.file self.old.index.file (D.fault_count disk.old) (D.fault_count disk.new) }
        ensures others { D.Tells → (n : ℕ) → n ≢ self.old.volume.file → n ≢ self.old.index.file → D.files disk.new n ≡ D.files disk.old n }
        ensures counts { D.fault_count disk.old ≤ D.fault_count disk.new }
        ensures fuses { D.fuse_count disk.new ≡ D.fuse_count disk.old }
    {
        let Finished {
            volume,
            index,
            places,
        } = finished;
        let old_volume = self.volume.file();
        let old_index = self.index.file;
        self.volume = volume;
        self.index = index;
        let _ = disk.remove(old_volume);
        let _ = disk.remove(old_index);
        places
    }
}
