//! Changes of the files of an open replica.

ghost use Rattle.std.specs.Prelude.{◌≡◌, ◌≢◌, ◌⊎◌, ◌≤◌, ◌<◌, ◌+◌, ℕ, List, [], true, false, length, Err, IfOk, IfErr, OnOk, OnErr, IsErrOf};
ghost use Rattle.hay_needle.specs.Sizes.{needle_total};
ghost use Rattle.hay_needle.specs.declared.needle.Cookie.{Cookie};
ghost use Rattle.hay_needle.specs.declared.needle.Pair.{Pair};
ghost use Rattle.hay_needle.specs.declared.settings.Super.{Super};
ghost use Rattle.hay_needle.specs.declared.needle.Cell.{Cell};
ghost use Rattle.hay_volume.specs.Cells.{StandsCell, live_cell};
ghost use Rattle.hay_open.specs.Stored.{IsSealedCell, Stored};
ghost use Rattle.hay_physical.specs.Faults.{IsDeleteFault, IsFlushFault, IsPutFault};
ghost use Rattle.hay_physical.specs.Replicas.{FilesReady, FilesStand, HasLive, IsLastCell, IsWholeNeedle, KeepsBefore, MayFind, MayFlag, all_recorded, with_cell, without_cell};
ghost use Rattle.hay_physical.specs.CompactionRuns.{KeepsCopier};
ghost use Rattle.hay_physical.specs.declared.state.Copier.TheVariants.{Ended};
ghost use Rattle.hay_disk.specs.Disk.{Changes, KeepsOthers, Seals};

use crate::fault::ReplicaFault;
use crate::state::{Copier, OpenFiles};
use hay_disk::{Disk, DiskFault, Failed};
use hay_index::Record;
use hay_map::Sealed;
use hay_needle::{Cookie, MAX_PHOTO, Pair, total_of};
use hay_volume::VolumeFault;
use std::alloc::Global;

// The place of the flags in a needle.
pub(crate) const FLAGS_AT: usize = 28;

impl OpenFiles {
    // Takes no more changes. A compaction ends.
    pub(crate) fn freeze<D: Disk>(&mut self, disk: &D)
        ensures { self.new ≡ record self.old { frozen = true; copier = Ended (D.fault_count disk.now) } }
    {
        self.frozen = true;
        self.copier = Copier::Ended {
            faults: disk.faults(),
        };
    }

    // A change failed: no more are taken.
    fn failed<D: Disk>(&mut self, disk: &D) -> ReplicaFault
        ensures fault { result ≡ ReplicaFault.Failed (D.fault_count disk.now) }
        ensures froze { self.new ≡ record self.old { frozen = true; copier = Ended (D.fault_count disk.now) } }
    {
        self.freeze(disk);
        ReplicaFault::Failed {
            faults: disk.faults(),
        }
    }

    // Whether the needle of a photo of this size and the end mark behind it fit into the volume file.
    pub(crate) fn room(&self, size: u32) -> Result<(), ReplicaFault>
        ensures full { let need = needle_total size in self.now.volume.capacity < self.now.volume.end + need + 8
            → result ≡ Err (ReplicaFault.Full self.now.volume.end need self.now.volume.capacity) }
        ensures fits { OnErr result (self.now.volume.capacity < self.now.volume.end + needle_total size + 8) }
    {
        let need = total_of(size);
        let end = self.volume.end();
        let capacity = self.volume.capacity();
        if capacity < need + 8 || capacity - (need + 8) < end {
            return Err(ReplicaFault::Full {
                end,
                need,
                capacity,
            });
        }
        Ok(())
    }

    // Stores a photo, and answers its needle.
    pub(crate) fn put<D: Disk>(
        &mut self,
        alloc: Global,
        disk: &mut D,
        pair: Pair,
        cookie: Cookie,
        bytes: &[u8],
    ) -> Result<Sealed<D::Piece>, ReplicaFault>
        requires size { length bytes.now ≤ MAX_PHOTO }
        requires ready { D.Tells → self.old.frozen ≡ false → FilesReady (D.files disk.old) self.old }

        ensures frozen { self.old.frozen ≡ true → (result ≡ Err ReplicaFault.Frozen) × (self.new ≡ self.old) × (disk.new ≡ disk.old) }
        ensures thawed { IsErrOf result ReplicaFault.Frozen → self.old.frozen ≡ true }
        ensures full { let need = needle_total (length bytes.now) in self.old.frozen ≡ false → self.old.volume.capacity < self.old.volume.end + need + 8
            → (result ≡ Err (ReplicaFault.Full self.old.volume.end need self.old.volume.capacity)) × (self.new ≡ self.old) × (disk.new ≡ disk.old) }
        ensures fits { (end need capacity : ℕ) → result ≡ Err (ReplicaFault.Full end need capacity)
            → self.old.volume.capacity < self.old.volume.end + needle_total (length bytes.now) + 8 }

        ensures stored { D.Tells → (sup : Super) (s : Stored) → FilesStand sup (D.files disk.old) self.old s →
            IfOk result (λ needle. FilesStand sup (D.files disk.new) self.new (with_cell s pair cookie bytes.now)
            × IsSealedCell D.Piece.Tells (live_cell s.end pair cookie bytes.now) needle) }
        // Whatever the disk has, the needle that is answered is a whole one.
        ensures whole { D.Tells → IfOk result (IsWholeNeedle D.Piece.Tells) }
        ensures open { OnOk result (self.new.frozen ≡ false) }
        ensures refused { D.Tells → (sup : Super) (s : Stored) → self.old.frozen ≡ false → FilesStand sup (D.files disk.old) self.old s →
            OnErr result (((self.new.frozen ≡ false) × FilesStand sup (D.files disk.new) self.new s)
            ⊎ ((self.new.frozen ≡ true) × MayFind sup (D.files disk.new) self.old.index.frozen s (with_cell s pair cookie bytes.now))) }
        ensures kept { OnErr result (self.new.frozen ≡ false → self.new ≡ self.old) }
        ensures unchanged { D.Tells → IsErrOf result ReplicaFault.NoMemory → self.new.frozen ≡ false → D.files disk.new ≡ D.files disk.old }
        ensures added { D.Tells → (sup : Super) (s : Stored) → self.old.frozen ≡ false → FilesStand sup (D.files disk.old) self.old s →
            IsErrOf result ReplicaFault.NoMemory → self.new.frozen ≡ true →
            MayFind sup (D.files disk.new) self.old.index.frozen (with_cell s pair cookie bytes.now) (with_cell s pair cookie bytes.now) }
        ensures froze { IfErr result (λ fault. (faults : ℕ) → fault ≡ ReplicaFault.Failed faults → self.new.frozen ≡ true) }
        ensures stuck { self.new.index.frozen ≡ self.old.index.frozen }

        ensures ready { D.Tells → self.new.frozen ≡ false → FilesReady (D.files disk.new) self.new }
        ensures flags { D.Tells → (place : ℕ) → MayFlag (D.files disk.old self.old.volume.file) self.old.volume.end place
            → MayFlag (D.files disk.new self.new.volume.file) self.new.volume.end place }
        ensures flag { D.Tells → IfOk result (λ needle. MayFlag (D.files disk.new self.new.volume.file) self.new.volume.end needle.at) }
        ensures place { IfOk result (λ needle. needle.at ≡ self.old.volume.end) }
        ensures moved { OnOk result (self.new.volume.end ≡ self.old.volume.end + needle_total (length bytes.now)) }
        ensures noted { OnOk result (length self.new.index.pending ≡ length self.old.index.pending + 1) }
        ensures volume { (self.new.volume.file ≡ self.old.volume.file) × (self.old.volume.end ≤ self.new.volume.end) }
        ensures limit { self.new.volume.capacity ≡ self.old.volume.capacity }
        ensures before { D.Tells → KeepsBefore self.old.volume.end (D.files disk.old self.old.volume.file) (D.files disk.new self.old.volume.file) }
        ensures copier { KeepsCopier self.old self.new }
        ensures others { D.Tells → KeepsOthers self.old.volume.file (D.files disk.old) (D.files disk.new) }

        ensures causes { IfErr result (IsPutFault (D.fault_count disk.old) (D.fault_count disk.new)) }
        ensures counts { D.fault_count disk.old ≤ D.fault_count disk.new }
        ensures fuses { D.fuse_count disk.new ≡ D.fuse_count disk.old }
    {
        if self.frozen {
            return Err(ReplicaFault::Frozen);
        }
        let size = bytes.len() as u32;
        self.room(size)?;
        let at = self.add(alloc, disk, pair, cookie, bytes)?;
        self.give(disk, at, size)
    }

    // Notes the record of a photo and appends its cell, for which there is room, and answers its place.
    fn add<D: Disk>(
        &mut self,
        alloc: Global,
        disk: &mut D,
        pair: Pair,
        cookie: Cookie,
        bytes: &[u8],
    ) -> Result<u64, ReplicaFault>
        requires size { length bytes.now ≤ MAX_PHOTO }
        requires room { self.old.volume.end + needle_total (length bytes.now) + 8 ≤ self.old.volume.capacity }
        requires ready { D.Tells → FilesReady (D.files disk.old) self.old }

        ensures place { IfOk result (λ at. at ≡ self.old.volume.end) }
        ensures moved { OnOk result (self.new.volume.end ≡ self.old.volume.end + needle_total (length bytes.now)) }
        ensures noted { OnOk result (length self.new.index.pending ≡ length self.old.index.pending + 1) }
        ensures added { D.Tells → (sup : Super) (s : Stored) → FilesStand sup (D.files disk.old) self.old s →
            OnOk result (FilesStand sup (D.files disk.new) self.new (with_cell s pair cookie bytes.now)) }
        ensures stands { D.Tells → IfOk result (λ at. StandsCell at (D.files disk.new self.new.volume.file).now (live_cell at pair cookie bytes.now)) }
        ensures open { OnOk result (self.new.frozen ≡ self.old.frozen) }
        ensures refused { D.Tells → (sup : Super) (s : Stored) → FilesStand sup (D.files disk.old) self.old s →
            OnErr result (((self.new.frozen ≡ self.old.frozen) × FilesStand sup (D.files disk.new) self.new s)
            ⊎ ((self.new.frozen ≡ true) × MayFind sup (D.files disk.new) self.old.index.frozen s (with_cell s pair cookie bytes.now))) }
        ensures kept { OnErr result (self.new.frozen ≡ false → self.new ≡ self.old) }
        ensures froze { IfErr result (λ fault. (faults : ℕ) → fault ≡ ReplicaFault.Failed faults → self.new.frozen ≡ true) }
        ensures unchanged { IsErrOf result ReplicaFault.NoMemory → (self.new ≡ self.old) × (D.Tells → D.files disk.new ≡ D.files disk.old) }
        ensures never_frozen { IsErrOf result ReplicaFault.Frozen → ⊥ }
        ensures never_full { (end need capacity : ℕ) → result ≡ Err (ReplicaFault.Full end need capacity) → ⊥ }
        ensures stuck { self.new.index.frozen ≡ self.old.index.frozen }

        ensures ready { D.Tells → self.old.frozen ≡ false → self.new.frozen ≡ false → FilesReady (D.files disk.new) self.new }
        ensures flags { D.Tells → (place : ℕ) → MayFlag (D.files disk.old self.old.volume.file) self.old.volume.end place
            → MayFlag (D.files disk.new self.new.volume.file) self.new.volume.end place }
        ensures last { D.Tells → IfOk result (λ at. IsLastCell (D.files disk.new self.new.volume.file) self.new.volume.end at (needle_total (length bytes.now))) }
        ensures volume { (self.new.volume.file ≡ self.old.volume.file) × (self.old.volume.end ≤ self.new.volume.end) }
        ensures limit { self.new.volume.capacity ≡ self.old.volume.capacity }
        ensures before { D.Tells → KeepsBefore self.old.volume.end (D.files disk.old self.old.volume.file) (D.files disk.new self.old.volume.file) }
        ensures copier { self.old.frozen ≡ false → KeepsCopier self.old self.new }
        ensures others { D.Tells → KeepsOthers self.old.volume.file (D.files disk.old) (D.files disk.new) }

        ensures causes { IfErr result (IsPutFault (D.fault_count disk.old) (D.fault_count disk.new)) }
        ensures counts { D.fault_count disk.old ≤ D.fault_count disk.new }
        ensures fuses { D.fuse_count disk.new ≡ D.fuse_count disk.old }
    {
        let record = Record {
            pair,
            at: self.volume.end(),
            size: bytes.len() as u32,
        };
        if self.index.note(record).is_err() {
            return Err(ReplicaFault::NoMemory);
        }
        match self.volume.append(alloc, disk, pair, cookie, bytes) {
            Ok(at) => Ok(at),
            Err(VolumeFault::NoMemory) => {
                self.index.unnote();
                Err(ReplicaFault::NoMemory)
            }
            Err(VolumeFault::Failed) => Err(self.failed(disk)),
            Err(VolumeFault::Full { .. }) => unreachable!(),
        }
    }

    // Gives out the needle of the last cell.
    fn give<D: Disk>(
        &mut self,
        disk: &mut D,
        at: u64,
        size: u32,
    ) -> Result<Sealed<D::Piece>, ReplicaFault>
        requires size { size ≤ MAX_PHOTO }
        requires ready { D.Tells → FilesReady (D.files disk.old) self.old }
        requires last { D.Tells → IsLastCell (D.files disk.old self.old.volume.file) self.old.volume.end at (needle_total size) }

        ensures given { D.Tells → (sup : Super) (s : Stored) (pair : Pair) (cookie : Cookie) (photo : List ℕ) →
            FilesStand sup (D.files disk.old) self.old (with_cell s pair cookie photo) → at ≡ s.end → size ≡ length photo →
            IfOk result (λ needle. FilesStand sup (D.files disk.new) self.new (with_cell s pair cookie photo)
            × IsSealedCell D.Piece.Tells (live_cell s.end pair cookie photo) needle) }
        ensures whole { D.Tells → (cell : Cell) → StandsCell at (D.files disk.old self.old.volume.file).now cell → length cell.bytes ≡ size → IfOk result (IsWholeNeedle D.Piece.Tells) }
        ensures stayed { OnOk result (self.new ≡ self.old) }
        ensures froze { OnErr result (self.new ≡ record self.old { frozen = true; copier = Ended (D.fault_count disk.new) }) }
        ensures kept { D.Tells → OnErr result (D.files disk.new ≡ D.files disk.old) }
        ensures ready { D.Tells → OnOk result (FilesReady (D.files disk.new) self.new) }
        ensures flags { D.Tells → (place : ℕ) → MayFlag (D.files disk.old self.old.volume.file) at place → MayFlag (D.files disk.new self.old.volume.file) at place }
        ensures place { IfOk result (λ needle. needle.at ≡ at) }
        ensures flag { D.Tells → IfOk result (λ needle. (needle.at ≡ at) × MayFlag (D.files disk.new self.old.volume.file) self.old.volume.end at) }
        ensures seals { D.Tells → Seals at (needle_total size) 28 (D.files disk.old self.old.volume.file) (D.files disk.new self.old.volume.file) }
        ensures never_frozen { IsErrOf result ReplicaFault.Frozen → ⊥ }
        ensures never_full { (end need capacity : ℕ) → result ≡ Err (ReplicaFault.Full end need capacity) → ⊥ }
        ensures others { D.Tells → KeepsOthers self.old.volume.file (D.files disk.old) (D.files disk.new) }

        ensures causes { IfErr result (IsPutFault (D.fault_count disk.old) (D.fault_count disk.new)) }
        ensures counts { D.fault_count disk.old ≤ D.fault_count disk.new }
        ensures fuses { D.fuse_count disk.new ≡ D.fuse_count disk.old }
    {
        match disk.seal(self.volume.file(), at, total_of(size) as usize, FLAGS_AT) {
            Ok(piece) => Ok(Sealed::new(at, size, piece)),
            Err(DiskFault::NoMemory) => {
                self.freeze(disk);
                Err(ReplicaFault::NoMemory)
            }
            Err(DiskFault::Failed) => Err(self.failed(disk)),
        }
    }

    // Marks the live cell at this place as deleted.
    pub(crate) fn delete<D: Disk>(&mut self, disk: &mut D, at: u64) -> Result<(), ReplicaFault>
        requires ready { D.Tells → self.old.frozen ≡ false → FilesReady (D.files disk.old) self.old }
        requires flag { D.Tells → self.old.frozen ≡ false → MayFlag (D.files disk.old self.old.volume.file) self.old.volume.end at }

        ensures frozen { self.old.frozen ≡ true → (result ≡ Err ReplicaFault.Frozen) × (self.new ≡ self.old) × (disk.new ≡ disk.old) }
        ensures thawed { IsErrOf result ReplicaFault.Frozen → self.old.frozen ≡ true }
        ensures deleted { D.Tells → (sup : Super) (s : Stored) → FilesStand sup (D.files disk.old) self.old s → HasLive at s.cells →
            OnOk result (FilesStand sup (D.files disk.new) self.new (without_cell s at)) }
        ensures open { OnOk result (self.new.frozen ≡ false) }
        ensures refused { D.Tells → (sup : Super) (s : Stored) → self.old.frozen ≡ false → FilesStand sup (D.files disk.old) self.old s → HasLive at s.cells →
            OnErr result ((self.new.frozen ≡ true) × MayFind sup (D.files disk.new) self.old.index.frozen s (without_cell s at)) }
        ensures froze { OnErr result (self.new.frozen ≡ true) }
        ensures stuck { self.new.index.frozen ≡ self.old.index.frozen }
        ensures noted { self.new.index.pending ≡ self.old.index.pending }

        ensures ready { D.Tells → self.new.frozen ≡ false → FilesReady (D.files disk.new) self.new }
        ensures flags { D.Tells → (place : ℕ) → MayFlag (D.files disk.old self.old.volume.file) self.old.volume.end place
            → MayFlag (D.files disk.new self.new.volume.file) self.new.volume.end place }
        ensures volume { self.new.volume ≡ self.old.volume }
        ensures changes { D.Tells → self.old.frozen ≡ false → Changes (at + 28) 1 (D.files disk.old self.old.volume.file) (D.files disk.new self.old.volume.file) }
        ensures copier { KeepsCopier self.old self.new }
        ensures others { D.Tells → KeepsOthers self.old.volume.file (D.files disk.old) (D.files disk.new) }

        ensures causes { IfErr result (IsDeleteFault (D.fault_count disk.old) (D.fault_count disk.new)) }
        ensures counts { D.fault_count disk.old ≤ D.fault_count disk.new }
        ensures fuses { D.fuse_count disk.new ≡ D.fuse_count disk.old }
    {
        if self.frozen {
            return Err(ReplicaFault::Frozen);
        }
        match self.volume.flag(disk, at) {
            Ok(()) => Ok(()),
            Err(Failed) => Err(self.failed(disk)),
        }
    }

    // Appends the records of the cells that have none, and answers their number.
    pub(crate) fn flush<D: Disk>(&mut self, disk: &mut D) -> Result<u64, ReplicaFault>
        requires { D.Tells → self.old.frozen ≡ false → FilesReady (D.files disk.old) self.old }

        ensures frozen { self.old.frozen ≡ true → (result ≡ Err ReplicaFault.Frozen) × (self.new ≡ self.old) × (disk.new ≡ disk.old) }
        ensures still { self.old.index.frozen ≡ true → (result ≡ Err ReplicaFault.Frozen) × (self.new ≡ self.old) × (disk.new ≡ disk.old) }
        ensures thawed { IsErrOf result ReplicaFault.Frozen → (self.old.frozen ≡ true) ⊎ (self.old.index.frozen ≡ true) }
        ensures flushed { D.Tells → (sup : Super) (s : Stored) → FilesStand sup (D.files disk.old) self.old s →
            IfOk result (λ n. (n + s.records ≡ length s.cells) × FilesStand sup (D.files disk.new) self.new (all_recorded s)) }
        ensures refused { D.Tells → (sup : Super) (s : Stored) → FilesStand sup (D.files disk.old) self.old s →
            OnErr result (FilesStand sup (D.files disk.new) self.new s) }
        ensures open { self.new.frozen ≡ self.old.frozen }
        ensures going { OnOk result (self.new.index.frozen ≡ false) }
        ensures stuck { IfErr result (λ fault. (faults : ℕ) → fault ≡ ReplicaFault.Failed faults → self.new.index.frozen ≡ true) }
        ensures tried { IfErr result (λ fault. (faults : ℕ) → fault ≡ ReplicaFault.Failed faults → 0 < length self.old.index.pending) }
        ensures stayed { IsErrOf result ReplicaFault.NoMemory → self.new ≡ self.old }
        ensures number { IfOk result (λ n. n ≡ length self.old.index.pending) }
        ensures none { OnOk result (self.new.index.pending ≡ []) }
        ensures still_noted { OnErr result (self.new.index.pending ≡ self.old.index.pending) }

        ensures ready { D.Tells → self.new.frozen ≡ false → FilesReady (D.files disk.new) self.new }
        ensures flags { D.Tells → (place : ℕ) → MayFlag (D.files disk.old self.old.volume.file) self.old.volume.end place
            → MayFlag (D.files disk.new self.new.volume.file) self.new.volume.end place }
        ensures copier { (self.new.copier ≡ self.old.copier) × (self.new.head ≡ self.old.head) × (self.new.volume ≡ self.old.volume) }
        ensures cells { D.Tells → D.files disk.new self.old.volume.file ≡ D.files disk.old self.old.volume.file }
        ensures others { D.Tells → KeepsOthers self.old.index.file (D.files disk.old) (D.files disk.new) }

        ensures causes { IfErr result (IsFlushFault (D.fault_count disk.old) (D.fault_count disk.new)) }
        ensures counts { D.fault_count disk.old ≤ D.fault_count disk.new }
        ensures fuses { D.fuse_count disk.new ≡ D.fuse_count disk.old }
    {
        if self.frozen || self.index.is_frozen() {
            return Err(ReplicaFault::Frozen);
        }
        match self.index.flush(disk) {
            Ok(count) => Ok(count),
            Err(DiskFault::NoMemory) => Err(ReplicaFault::NoMemory),
            Err(DiskFault::Failed) => Err(ReplicaFault::Failed {
                faults: disk.faults(),
            }),
        }
    }
}
