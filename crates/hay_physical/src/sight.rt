//! What the place of a photo means, seen by its needle.

ghost use Rattle.std.specs.Prelude.{◌≡◌, ◌≤◌, ◌+◌, ℕ, List, Bool, false, drop, length, Option, Err, IfOk, IfErr, OnOk, OnErr};
ghost use Rattle.hay_needle.specs.Needle.{BeginsWithNeedle};
ghost use Rattle.hay_needle.specs.Sizes.{needle_total};
ghost use Rattle.hay_needle.specs.declared.needle.Cell.{Cell};
ghost use Rattle.hay_needle.specs.declared.needle.Needle.{Needle};
ghost use Rattle.hay_disk.specs.Disk.{IsSolid, KeepsOthers, MayLeave, Seals};
ghost use Rattle.hay_disk.specs.Gate.{HasBytesAt};
ghost use Rattle.hay_volume.specs.Cells.{HasPlace, IsCellAt, StandsCell, cell_head};
ghost use Rattle.hay_compact.specs.Finishing.{IsSeen};
ghost use Rattle.hay_open.specs.Stored.{PlaceOf, Stored};
ghost use Rattle.hay_volume.specs.Needles.{LacksNeedleOf};
ghost use Rattle.hay_physical.specs.OpenCopies.{IsOpenCopy, volume_bytes};
ghost use Rattle.hay_physical.specs.Faults.{IsSightFault};
ghost use Rattle.hay_physical.specs.Replicas.{Holds, IsSightOf, IsToldBy, IsUnsealed, KeepsSight, MayDelete, MayDeletePlace, MayLook, MaySee, Stands, StandsIn, UnsealedBy};
ghost use Rattle.hay_physical.specs.CompactionRuns.{HasRun, Run};

use crate::fault::ReplicaFault;
use crate::files::FLAGS_AT;
use crate::replica::Replica;
use crate::state::{OpenFiles, Phase};
use hay_disk::{Disk, DiskFault};
use hay_map::{Place, Sealed};
use hay_needle::{CellHead, MAX_PHOTO, total_of};
use hay_volume::CellFault;

impl OpenFiles {
    // The head of the cell of a photo of this size that stands at `at`. `out` then has its needle.
    fn look<D: Disk>(
        &self,
        disk: &mut D,
        at: u64,
        size: u32,
        out: &mut Vec<u8>,
    ) -> Result<CellHead, ReplicaFault>
        ensures cell { IfOk result (λ head. (cell : Cell) × IsCellAt at out.new.items cell × (head ≡ cell_head cell)) }
        ensures stands { D.Tells → OnOk result (HasBytesAt at out.new.items (D.files disk.old self.now.volume.file).now) }
        ensures asked { IfOk result (λ head. (head.at ≡ at) × (head.size ≡ size)) }
        ensures most { OnOk result (size ≤ MAX_PHOTO) }

        ensures place { (k : ℕ) → result ≡ Err (ReplicaFault.Damaged k) → k ≡ at }
        ensures damaged { D.Tells → (k : ℕ) → result ≡ Err (ReplicaFault.Damaged k) →
            (n : Needle) → BeginsWithNeedle (drop at (D.files disk.old self.now.volume.file).now) n → length n.photo.bytes ≡ size → ⊥ }

        ensures same { D.Tells → D.files disk.new ≡ D.files disk.old }
        ensures drawn { D.Tells → (n : ℕ) → D.drawn disk.new n ≤ D.drawn disk.old n + needle_total size }
        ensures causes { IfErr result (IsSightFault (D.fault_count disk.old) (D.fault_count disk.new)) }
        ensures counts { D.fault_count disk.old ≤ D.fault_count disk.new }
        ensures fuses { D.fuse_count disk.new ≡ D.fuse_count disk.old }
    {
        match self.volume.cell_within(disk, at, size, out) {
            Ok(head) => Ok(head),
            Err(CellFault::Damaged { at }) => Err(ReplicaFault::Damaged { at }),
            Err(CellFault::NoMemory) => Err(ReplicaFault::NoMemory),
            Err(CellFault::Failed) => Err(ReplicaFault::Failed {
                faults: disk.faults(),
            }),
        }
    }

    // The place of the cell of this head: its needle is given out, unless it is deleted.
    fn place_of<D: Disk>(
        &self,
        disk: &mut D,
        head: CellHead,
    ) -> Result<Place<D::Piece>, ReplicaFault>
        requires size { head.size ≤ MAX_PHOTO }
        requires may { D.Tells → MayLook (D.files disk.old self.now.volume.file) self.now.volume.end head.at head.size }

        ensures sight { IfOk result (λ place. (cell : Cell) → head ≡ cell_head cell → IsSightOf cell place) }
        ensures place { D.Tells → (cell : Cell) → StandsCell head.at (D.files disk.old self.now.volume.file).now cell → head ≡ cell_head cell →
            IfOk result (λ place. IsSeen place × PlaceOf D.Piece.Tells (Some cell) place) }
        ensures seals { D.Tells → Seals head.at (needle_total head.size) 28 (D.files disk.old self.now.volume.file) (D.files disk.new self.now.volume.file) }
        ensures others { D.Tells → KeepsOthers self.now.volume.file (D.files disk.old) (D.files disk.new) }
        ensures kept { D.Tells → OnErr result (D.files disk.new ≡ D.files disk.old) }
        ensures undamaged { (k : ℕ) → result ≡ Err (ReplicaFault.Damaged k) → ⊥ }
        ensures drawn { D.Tells → (n : ℕ) → D.drawn disk.new n ≡ D.drawn disk.old n }
        ensures causes { IfErr result (IsSightFault (D.fault_count disk.old) (D.fault_count disk.new)) }
        ensures counts { D.fault_count disk.old ≤ D.fault_count disk.new }
        ensures fuses { D.fuse_count disk.new ≡ D.fuse_count disk.old }
    {
        if head.deleted {
            return Ok(Place::Gone);
        }
        let total = total_of(head.size) as usize;
        match disk.seal(self.volume.file(), head.at, total, FLAGS_AT) {
            Ok(piece) => Ok(Place::Live(Sealed::new(head.at, head.size, piece))),
            Err(DiskFault::NoMemory) => Err(ReplicaFault::NoMemory),
            Err(DiskFault::Failed) => Err(ReplicaFault::Failed {
                faults: disk.faults(),
            }),
        }
    }

    // The place of a photo of this size, by its needle at `at`, which `out` then has.
    pub(crate) fn cell<D: Disk>(
        &self,
        disk: &mut D,
        at: u64,
        size: u32,
        out: &mut Vec<u8>,
    ) -> Result<Place<D::Piece>, ReplicaFault>
        requires may { D.Tells → MayLook (D.files disk.old self.now.volume.file) self.now.volume.end at size }

        ensures needle { IfOk result (λ place. (cell : Cell) × IsCellAt at out.new.items cell × (length cell.bytes ≡ size) × IsSightOf cell place) }
        ensures stands { D.Tells → OnOk result (HasBytesAt at out.new.items (D.files disk.old self.now.volume.file).now) }
        ensures known { D.Tells → (cell : Cell) → StandsCell at (D.files disk.old self.now.volume.file).now cell →
            IfOk result (λ place. IsSeen place × PlaceOf D.Piece.Tells (Some cell) place) }
        ensures place { (k : ℕ) → result ≡ Err (ReplicaFault.Damaged k) → k ≡ at }
        ensures damaged { D.Tells → (k : ℕ) → result ≡ Err (ReplicaFault.Damaged k) →
            (n : Needle) → BeginsWithNeedle (drop at (D.files disk.old self.now.volume.file).now) n → length n.photo.bytes ≡ size → ⊥ }

        ensures seals { D.Tells → Seals at (needle_total size) 28 (D.files disk.old self.now.volume.file) (D.files disk.new self.now.volume.file) }
        ensures others { D.Tells → KeepsOthers self.now.volume.file (D.files disk.old) (D.files disk.new) }
        ensures kept { D.Tells → OnErr result (D.files disk.new ≡ D.files disk.old) }
        ensures drawn { D.Tells → (n : ℕ) → D.drawn disk.new n ≤ D.drawn disk.old n + needle_total size }
        ensures causes { IfErr result (IsSightFault (D.fault_count disk.old) (D.fault_count disk.new)) }
        ensures counts { D.fault_count disk.old ≤ D.fault_count disk.new }
        ensures fuses { D.fuse_count disk.new ≡ D.fuse_count disk.old }
    {
        match self.look(disk, at, size, out) {
            Ok(head) => self.place_of(disk, head),
            Err(fault) => Err(fault),
        }
    }
}

impl<D: Disk> Replica<D> {
    /// Sees what the place of a photo of this size means, by its needle at `at`: it is live, or it was deleted. No byte behind
    /// the needle is read, and `out` has it at `Ok`.
    ///
    /// `Damaged` comes exactly where no needle of this size stands there. No refusal freezes the replica, and nothing of it
    /// changes.
    pub fn cell(
        &mut self,
        at: u64,
        size: u32,
        out: &mut Vec<u8>,
    ) -> Result<Place<D::Piece>, ReplicaFault>
        requires open { IsOpenCopy self.old }
        requires see { D.Tells → MaySee D.files self.old at size }

        // On any disk it is live or gone by a whole needle of the size. Where the disk tells, that stands there.
        ensures needle { IfOk result (λ place. (cell : Cell) × IsCellAt at out.new.items cell × (length cell.bytes ≡ size) × IsSightOf cell place
            × (D.Tells → StandsIn D.files self.old cell)) }
        // A cell that is known to stand there is seen as what it is, and is not damaged.
        ensures known { D.Tells → (cell : Cell) → StandsIn D.files self.old cell → cell.at ≡ at →
            IfOk result (λ place. IsSeen place × PlaceOf D.Piece.Tells (Some cell) place) }
        ensures damaged { D.Tells → (k : ℕ) → result ≡ Err (ReplicaFault.Damaged k) →
            (cell : Cell) → StandsIn D.files self.old cell → cell.at ≡ at → length cell.bytes ≡ size → ⊥ }
        ensures place { (k : ℕ) → result ≡ Err (ReplicaFault.Damaged k) → k ≡ at }
        // Where the disk tells, it is seen by the needle of the size that stands there, and is damaged where none does.
        ensures told { D.Tells → IfOk result (IsToldBy size at (volume_bytes D.files self.old)) }
        ensures lacks { D.Tells → (k : ℕ) → result ≡ Err (ReplicaFault.Damaged k) → LacksNeedleOf size at (volume_bytes D.files self.old) }
        ensures can_delete { D.Tells → IfOk result (λ place. MayDeletePlace D.files self.new place) }

        // A piece may be given out, and nothing else changes.
        ensures same { self.new ≡ record self.old { disk = self.new.disk } }
        ensures now { D.Tells → (n : ℕ) → (D.files self.new.disk n).now ≡ (D.files self.old.disk n).now }
        ensures kept { D.Tells → OnErr result (D.files self.new.disk ≡ D.files self.old.disk) }
        ensures solid { D.Tells → (n : ℕ) → IsSolid (D.files self.old.disk n) → IsSolid (D.files self.new.disk n) }
        ensures leaves { D.Tells → (image : ℕ → List ℕ) → MayLeave (D.files self.new.disk) image → MayLeave (D.files self.old.disk) image }
        ensures stands { D.Tells → (s : Stored) → Stands D.files self.old s → HasPlace at s.cells → Stands D.files self.new s }
        ensures run { D.Tells → (s : Stored) (run : Option Run) → Stands D.files self.old s → HasPlace at s.cells → HasRun D.files self.old s run → HasRun D.files self.new s run }
        ensures holds { D.Tells → (stuck : Bool) (s t : Stored) → Holds D.files self.old stuck s t → Holds D.files self.new stuck s t }
        ensures deletes { D.Tells → (place : ℕ) → IsUnsealed at size place → MayDelete D.files self.old place → MayDelete D.files self.new place }
        ensures sees { D.Tells → KeepsSight D.files (UnsealedBy at size) self.old self.new }

        ensures drawn { D.Tells → (n : ℕ) → D.drawn self.new.disk n ≤ D.drawn self.old.disk n + needle_total size }
        ensures causes { IfErr result (IsSightFault (D.fault_count self.old.disk) (D.fault_count self.new.disk)) }
        ensures counts { D.fault_count self.old.disk ≤ D.fault_count self.new.disk }
        ensures fuses { D.fuse_count self.new.disk ≡ D.fuse_count self.old.disk }
    {
        match &self.phase {
            Phase::Open(files) => files.cell(&mut self.disk, at, size, out),
            Phase::Closed => unreachable!(),
        }
    }
}
