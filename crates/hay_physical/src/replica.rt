//! A replica, closed or open.

ghost use Rattle.std.specs.Prelude.{◌≡◌, ◌⊎◌, ◌≤◌, ◌<◌, ◌+◌, ◌*◌, ℕ, List, Bool, true, false, length, Option, None, Err, IfOk, IfErr, OnOk, OnErr, IsErrOf};
ghost use Rattle.hay_needle.specs.declared.settings.Super.{Super};
ghost use Rattle.hay_needle.specs.Sizes.{needle_total};
ghost use Rattle.hay_needle.specs.declared.needle.Cookie.{Cookie};
ghost use Rattle.hay_needle.specs.declared.needle.Pair.{Pair};
ghost use Rattle.hay_disk.specs.Counts.{Rose, IsNext};
ghost use Rattle.hay_disk.specs.Disk.{IsSolid, MayLeave};
ghost use Rattle.hay_volume.specs.Cells.{live_cell};
ghost use Rattle.hay_map.specs.declared.place.Place.TheVariants as place;
ghost use Rattle.hay_map.specs.Rows.{last_place};
ghost use Rattle.hay_open.specs.Damage.{IsOpeningDamage};
ghost use Rattle.hay_open.specs.Finds.{ArePlacesWithin};
ghost use Rattle.hay_open.specs.Stored.{IsReplicaFile, IsSealedCell, IsVoid, OpensAs, PlaceOf, Stored, fresh_stored, last_cell};
ghost use Rattle.hay_physical.specs.declared.state.Phase.TheVariants.{Closed};
ghost use Rattle.hay_physical.specs.CompactionRuns.{HasLastAt, HasRun, Run, longer, loosened};
ghost use Rattle.std.specs.List.{AllByRecursion};
ghost use Rattle.std.specs.Option.{option_map};
ghost use Rattle.hay_physical.specs.OpenCopies.{EndedAt, HasCapacity, IsFrozen, IsOpenCopy, IsUp, KeepsEnd, KeepsHead, bare_of, capacity_of, contents_of, end_of, generation_of, volume_bytes};
ghost use Rattle.hay_physical.specs.OpenCopies.{goal_of, is_frozen, is_stuck, next_of};
ghost use Rattle.hay_physical.specs.Draws.{DrewRecorded};
ghost use Rattle.hay_physical.specs.Readings.{IsReadOn};
ghost use Rattle.hay_physical.specs.Faults.{IsDeleteFault, IsFlushFault, IsPutFault};
ghost use Rattle.hay_needle.specs.Tables.{pair_eq};
ghost use Rattle.hay_physical.specs.Replicas.{Anywhere, ApartFrom, ArePlacesApart, HasLive, HasLiveNeedle, HasWholeNeedle, Holds, IsApart, IsIdleCopy, IsLike, IsWholeNeedle};
ghost use Rattle.hay_physical.specs.Replicas.{KeepsSight, MayDelete, MayDeletePlace, MaySee, MaySeePlace, ShowsCell, Stands, all_recorded, with_cell, without_cell};

use crate::fault::ReplicaFault;
use crate::state::{Copier, OpenFiles, Phase};
use hay_disk::Disk;
use hay_map::{OpenCell, Sealed};
use hay_needle::{Cookie, LAST_GENERATION, MAX_PHOTO, Pair, Super};
use hay_open::{OpenFault, Opened, open_replica};
use std::alloc::Global;
use std::marker::Model;

/// A replica of a logical volume.
#[derive(Drop)]
pub struct Replica<D: Disk> {
    pub(crate) sup: Super,
    pub(crate) disk: D,
    pub(crate) phase: Phase,
}

impl<D: Disk> Model for Replica<D> {
    ghost use Rattle.hay_physical.specs.OpenCopies.{Copy};
    ghost use Rattle.hay_physical.specs.Replicas.{IsBoundedPhase, IsReady, IsSettledPhase};

    ghost Value = { Copy D };

    ghost view = { λ r. record { sup = r.sup; disk = r.disk; phase = r.phase } };

    ghost invariant = { λ r. IsReady D.Tells D.files (record { sup = r.sup; disk = r.disk; phase = r.phase }) × IsSettledPhase r.phase
        × IsBoundedPhase r.sup.settings.capacity r.phase };
}

impl<D: Disk> Replica<D> {
    /// A closed replica. The superblock gives the settings, the volume and the replica. The disk is not called.
    pub fn new(disk: D, sup: Super) -> Replica<D>
        ensures { result ≡ record { sup = sup; disk = disk; phase = Closed } }
    {
        Replica {
            sup,
            disk,
            phase: Phase::Closed,
        }
    }

    /// Opens the disk: a void one is formatted, and any other is read. Answers the places of its photos.
    /// A refusal leaves the replica closed.
    pub fn open(&mut self, alloc: Global) -> Result<Vec<OpenCell<D::Piece>>, OpenFault>
        requires closed { self.old.phase ≡ Closed }
        requires idle { D.Tells → IsIdleCopy D.files self.old }

        // A disk that is void or whole is opened as what it has, and the places are those of its photos.
        ensures opened { D.Tells → (s : Stored) → OpensAs self.old.sup (contents_of D.files self.old.disk) s → IfOk result (λ cells.
            Stands D.files self.new s
            × ((pair : Pair) → PlaceOf D.Piece.Tells (last_cell s.cells pair) (last_place cells.items pair place.None))) }
        // On any disk the generation, the end, the cells without a record and the places are those that its files give.
        ensures reads { D.Tells → IfOk result (λ cells. IsReadOn D.files D.Piece.Tells self.new cells.items) }
        // Behind a stop that is what the stop may have left.
        ensures reopened { D.Tells → (stuck : Bool) (s t : Stored) → Holds D.files self.old stuck s t → IfOk result (λ cells. (found : Stored)
            × (IsLike stuck s found ⊎ IsLike stuck t found) × Stands D.files self.new found
            × ((pair : Pair) → PlaceOf D.Piece.Tells (last_cell found.cells pair) (last_place cells.items pair place.None))) }
        // Nothing of what was read is damaged.
        ensures undamaged { D.Tells → OnOk result ((file at : ℕ) → IsOpeningDamage self.old.sup (contents_of D.files self.old.disk) file at → ⊥) }
        ensures undamaged_now { D.Tells → OnOk result ((file at : ℕ) → IsOpeningDamage self.old.sup (contents_of D.files self.new.disk) file at → ⊥) }
        // Little of the volume file was read: hardly more than the needles that have no record.
        ensures drawn { D.Tells → IfOk result (λ cells.
            DrewRecorded self.old.sup (contents_of D.files self.new.disk) (D.drawn self.old.disk) (D.drawn self.new.disk) cells.items) }
        ensures up { OnOk result (IsUp self.new) }
        ensures stuck { OnOk result (is_stuck self.new ≡ false) }
        ensures alone { goal_of self.new ≡ None }
        ensures most { OnOk result (generation_of self.new ≤ LAST_GENERATION) }
        // On any disk the cells that have no record stand before the end, and so does each needle that a place has.
        ensures from { OnOk result (64 + bare_of self.new * needle_total 0 ≤ end_of self.new) }
        ensures within { IfOk result (λ cells. ArePlacesWithin (end_of self.new) cells.items) }
        // Whatever the disk had, each photo that was found can be deleted.
        ensures can_delete { D.Tells → IfOk result (λ cells. (pair : Pair) → MayDeletePlace D.files self.new (last_place cells.items pair place.None)) }
        // Each that was not looked at can be seen, and its needle is apart from the flags of others. Each cell that stands can be
        // seen.
        ensures can_see { D.Tells → IfOk result (λ cells. (pair : Pair) → MaySeePlace D.files self.new (last_place cells.items pair place.None)) }
        ensures apart { D.Tells → IfOk result (λ cells. (pair other : Pair) → pair_eq pair other ≡ false →
            ArePlacesApart (last_place cells.items pair place.None) (last_place cells.items other place.None)) }
        ensures shows { D.Tells → OnOk result ((s : Stored) → Stands D.files self.new s → AllByRecursion (ShowsCell D.files self.new) s.cells) }
        // Each needle that a place has is a whole one.
        ensures needles { D.Tells → IfOk result (λ cells. (pair : Pair) → HasWholeNeedle D.Piece.Tells (last_place cells.items pair place.None)) }
        // One that is a photo's stands in the volume file, and is not deleted.
        ensures live { D.Tells → IfOk result (λ cells. (pair : Pair) → HasLiveNeedle (volume_bytes D.files self.new) (last_place cells.items pair place.None)) }

        // What a refusal leaves, and its cause.
        ensures closed { OnErr result (self.new.phase ≡ Closed) }
        ensures kept { D.Tells → (IsVoid (contents_of D.files self.old.disk) → ⊥) →
            (n : ℕ) → ((D.files self.new.disk n).now ≡ (D.files self.old.disk n).now) × IsSolid (D.files self.new.disk n) }
        // Whatever a stop leaves of a disk that was void, an opening of it finds nothing, by whatever superblock.
        ensures nothing { D.Tells → IsVoid (contents_of D.files self.old.disk) → (image : ℕ → List ℕ) → MayLeave (D.files self.new.disk) image →
            (other : Super) (s : Stored) → OpensAs other image s → s ≡ fresh_stored }
        ensures left { D.Tells → (stuck : Bool) (s t : Stored) → Holds D.files self.old stuck s t → OnErr result (Holds D.files self.new stuck s t) }
        // Whatever the disk tells, damage is named in a file of a replica.
        ensures file { (file at : ℕ) → result ≡ Err (OpenFault.Damaged file at) → IsReplicaFile file }
        ensures damaged { D.Tells → (file at : ℕ) → result ≡ Err (OpenFault.Damaged file at) → IsOpeningDamage self.old.sup (contents_of D.files self.old.disk) file at }
        ensures only { D.Tells → (s : Stored) → OpensAs self.old.sup (contents_of D.files self.old.disk) s →
            (file at : ℕ) → result ≡ Err (OpenFault.Damaged file at) → ⊥ }
        ensures whole { D.Tells → (stuck : Bool) (s t : Stored) → Holds D.files self.old stuck s t →
            (file at : ℕ) → result ≡ Err (OpenFault.Damaged file at) → ⊥ }
        ensures failed { IfErr result (λ fault. (faults : ℕ) → fault ≡ OpenFault.Failed faults →
            Rose (D.fault_count self.old.disk) (D.fault_count self.new.disk) × (faults ≡ D.fault_count self.new.disk)) }
        ensures counts { D.fault_count self.old.disk ≤ D.fault_count self.new.disk }
        ensures fuses { D.fuse_count self.new.disk ≡ D.fuse_count self.old.disk }
        ensures sup { self.new.sup ≡ self.old.sup }
    {
        let Opened {
            head,
            volume,
            index,
            cells,
            records: _,
            orphans: _,
        } = open_replica(alloc, &mut self.disk, &self.sup)?;
        self.phase = Phase::Open(OpenFiles {
            head,
            volume,
            index,
            frozen: false,
            copier: Copier::Ended { faults: 0 },
        });
        Ok(cells)
    }

    /// Whether the needle of a photo of this size and the end mark behind it fit into the volume file.
    pub fn room(&self, size: u32) -> Result<(), ReplicaFault>
        requires open { IsOpenCopy self.now }
        ensures full { let need = needle_total size in capacity_of self.now < end_of self.now + need + 8
            → result ≡ Err (ReplicaFault.Full (end_of self.now) need (capacity_of self.now)) }
        ensures fits { OnErr result (capacity_of self.now < end_of self.now + needle_total size + 8) }
        ensures known { D.Tells → (s : Stored) → Stands D.files self.now s → (end_of self.now ≡ s.end) × (capacity_of self.now ≡ self.now.sup.settings.capacity) }
        ensures capacity { HasCapacity self.now }
    {
        match &self.phase {
            Phase::Open(files) => files.room(size),
            Phase::Closed => unreachable!(),
        }
    }

    /// Stores a photo, and answers its needle. Where the volume file has no room, that is found before all else.
    /// `Failed` freezes the replica, and so does `NoMemory` once the cell was added.
    pub fn put(
        &mut self,
        alloc: Global,
        pair: Pair,
        cookie: Cookie,
        bytes: &[u8],
    ) -> Result<Sealed<D::Piece>, ReplicaFault>
        requires size { length bytes.now ≤ MAX_PHOTO }
        requires open { IsOpenCopy self.old }

        ensures frozen { IsFrozen self.old → (result ≡ Err ReplicaFault.Frozen) × (self.new ≡ self.old) }
        ensures thawed { IsErrOf result ReplicaFault.Frozen → IsFrozen self.old }
        ensures full { let need = needle_total (length bytes.now) in IsUp self.old → capacity_of self.old < end_of self.old + need + 8
            → (result ≡ Err (ReplicaFault.Full (end_of self.old) need (capacity_of self.old))) × (self.new ≡ self.old) }
        ensures fits { (end need capacity : ℕ) → result ≡ Err (ReplicaFault.Full end need capacity)
            → capacity_of self.old < end_of self.old + needle_total (length bytes.now) + 8 }

        ensures stored { D.Tells → (s : Stored) → Stands D.files self.old s →
            IfOk result (λ needle. Stands D.files self.new (with_cell s pair cookie bytes.now)
            × IsSealedCell D.Piece.Tells (live_cell s.end pair cookie bytes.now) needle) }
        // Whatever the disk has, the needle that is answered is a whole one.
        ensures whole { D.Tells → IfOk result (IsWholeNeedle D.Piece.Tells) }
        ensures up { OnOk result (IsUp self.new) }

        ensures can_delete { D.Tells → IfOk result (λ needle. MayDelete D.files self.new needle.at) }
        ensures deletes { D.Tells → (place : ℕ) → MayDelete D.files self.old place → MayDelete D.files self.new place }
        ensures sees { D.Tells → KeepsSight D.files Anywhere self.old self.new }
        ensures apart { D.Tells → IfOk result (λ needle. (at size : ℕ) → MaySee D.files self.old at size → IsApart at size needle.at) }

        // A refusal leaves the photos, or a frozen replica, on whose disk the photo stands or not.
        ensures refused { D.Tells → (s : Stored) → Stands D.files self.old s → OnErr result (Stands D.files self.new s
            ⊎ (IsFrozen self.new × Holds D.files self.new (is_stuck self.old) s (with_cell s pair cookie bytes.now))) }
        ensures kept { OnErr result (IsUp self.new → self.new.phase ≡ self.old.phase) }
        // Want of memory comes before any change, or behind the new cell, and then freezes the replica.
        ensures unchanged { D.Tells → IsErrOf result ReplicaFault.NoMemory → IsUp self.new → D.files self.new.disk ≡ D.files self.old.disk }
        ensures added { D.Tells → (s : Stored) → Stands D.files self.old s → IsErrOf result ReplicaFault.NoMemory → IsFrozen self.new →
            Holds D.files self.new (is_stuck self.old) (with_cell s pair cookie bytes.now) (with_cell s pair cookie bytes.now) }
        ensures froze { IfErr result (λ fault. (faults : ℕ) → fault ≡ ReplicaFault.Failed faults → IsFrozen self.new) }
        ensures open { IsOpenCopy self.new }
        ensures stuck { is_stuck self.new ≡ is_stuck self.old }

        // A compaction that stands has one more cell to examine. A freeze ends it.
        ensures run { D.Tells → (s : Stored) (run : Option Run) → Stands D.files self.old s → HasRun D.files self.old s run →
            OnOk result (HasRun D.files self.new (with_cell s pair cookie bytes.now) (option_map longer run)) }
        ensures run_stays { D.Tells → (s : Stored) (run : Option Run) → Stands D.files self.old s → HasRun D.files self.old s run →
            OnErr result (IsUp self.new → HasRun D.files self.new s run) }
        ensures dropped { IsFrozen self.new → goal_of self.new ≡ None }
        ensures goal { IsUp self.new → goal_of self.new ≡ goal_of self.old }
        ensures moved { OnOk result (end_of self.new ≡ end_of self.old + needle_total (length bytes.now)) }
        ensures grows { end_of self.old ≤ end_of self.new }
        ensures there { IfOk result (λ needle. needle.at ≡ end_of self.old) }
        ensures bare { OnOk result (bare_of self.new ≡ bare_of self.old + 1) }
        ensures place { IsUp self.new → next_of self.new ≡ next_of self.old }
        ensures generation { generation_of self.new ≡ generation_of self.old }

        ensures causes { IfErr result (IsPutFault (D.fault_count self.old.disk) (D.fault_count self.new.disk)) }
        ensures counts { D.fault_count self.old.disk ≤ D.fault_count self.new.disk }
        ensures fuses { D.fuse_count self.new.disk ≡ D.fuse_count self.old.disk }
        ensures sup { self.new.sup ≡ self.old.sup }
    {
        match &mut self.phase {
            Phase::Open(files) => files.put(alloc, &mut self.disk, pair, cookie, bytes),
            Phase::Closed => unreachable!(),
        }
    }

    /// Deletes the photo of a pair, whose last cell stands at this place, and repeats that in a compaction that stands: a
    /// failure there ends it, and is no refusal. It takes no memory. `Failed` freezes the replica.
    pub fn delete(&mut self, pair: Pair, at: u64) -> Result<(), ReplicaFault>
        requires open { IsOpenCopy self.old }
        requires flag { D.Tells → IsUp self.old → MayDelete D.files self.old at }

        ensures frozen { IsFrozen self.old → (result ≡ Err ReplicaFault.Frozen) × (self.new ≡ self.old) }
        ensures thawed { IsErrOf result ReplicaFault.Frozen → IsFrozen self.old }

        ensures deleted { D.Tells → (s : Stored) → Stands D.files self.old s → HasLive at s.cells →
            OnOk result (Stands D.files self.new (without_cell s at)) }
        ensures up { OnOk result (IsUp self.new) }

        ensures deletes { D.Tells → (place : ℕ) → MayDelete D.files self.old place → MayDelete D.files self.new place }
        // A cell whose needle does not have this flag is seen as before, also where the delete failed.
        ensures sees { D.Tells → KeepsSight D.files (ApartFrom at) self.old self.new }

        // A refusal leaves a frozen replica, on whose disk the photo is deleted or not.
        ensures refused { D.Tells → (s : Stored) → Stands D.files self.old s → HasLive at s.cells →
            OnErr result (IsFrozen self.new × Holds D.files self.new (is_stuck self.old) s (without_cell s at)) }
        ensures froze { OnErr result (IsFrozen self.new) }
        ensures open { IsOpenCopy self.new }
        ensures stuck { is_stuck self.new ≡ is_stuck self.old }
        ensures stays { KeepsEnd self.old self.new }

        // A compaction that stands follows, or ends where the disk's count of faults rose. A freeze ends it.
        ensures run { D.Tells → (s : Stored) (run : Option Run) → Stands D.files self.old s → HasRun D.files self.old s run → HasLastAt s.cells pair at →
            OnOk result (HasRun D.files self.new (without_cell s at) (option_map loosened run) ⊎ (goal_of self.new ≡ None)) }
        ensures dropped { IsFrozen self.new → goal_of self.new ≡ None }
        ensures goal { OnOk result ((goal_of self.new ≡ goal_of self.old)
            ⊎ (EndedAt (D.fault_count self.new.disk) self.new × Rose (D.fault_count self.old.disk) (D.fault_count self.new.disk))) }
        ensures place { goal_of self.new ≡ goal_of self.old → next_of self.new ≡ next_of self.old }
        ensures bare { bare_of self.new ≡ bare_of self.old }

        ensures causes { IfErr result (IsDeleteFault (D.fault_count self.old.disk) (D.fault_count self.new.disk)) }
        ensures counts { D.fault_count self.old.disk ≤ D.fault_count self.new.disk }
        ensures fuses { D.fuse_count self.new.disk ≡ D.fuse_count self.old.disk }
        ensures sup { self.new.sup ≡ self.old.sup }
    {
        match &mut self.phase {
            Phase::Open(files) => match files.delete(&mut self.disk, at) {
                Ok(()) => {
                    files.repeat_delete(&mut self.disk, pair);
                    Ok(())
                }
                Err(fault) => Err(fault),
            },
            Phase::Closed => unreachable!(),
        }
    }

    /// Gives the cells without a record theirs, and answers how many these were. `Frozen` comes where the replica is
    /// frozen or its index. `Failed` freezes the index alone.
    pub fn flush(&mut self) -> Result<u64, ReplicaFault>
        requires open { IsOpenCopy self.old }

        ensures frozen { IsFrozen self.old ⊎ (is_stuck self.old ≡ true) → (result ≡ Err ReplicaFault.Frozen) × (self.new ≡ self.old) }
        ensures thawed { IsErrOf result ReplicaFault.Frozen → IsFrozen self.old ⊎ (is_stuck self.old ≡ true) }

        ensures flushed { D.Tells → (s : Stored) → Stands D.files self.old s →
            IfOk result (λ n. (n + s.records ≡ length s.cells) × Stands D.files self.new (all_recorded s)) }
        ensures number { IfOk result (λ n. n ≡ bare_of self.old) }
        ensures none_bare { OnOk result (bare_of self.new ≡ 0) }
        ensures still_bare { OnErr result (bare_of self.new ≡ bare_of self.old) }
        ensures going { OnOk result (is_stuck self.new ≡ false) }
        ensures up { OnOk result (IsUp self.new) }

        ensures deletes { D.Tells → (place : ℕ) → MayDelete D.files self.old place → MayDelete D.files self.new place }
        ensures sees { D.Tells → KeepsSight D.files Anywhere self.old self.new }

        // A refusal leaves the photos and the records.
        ensures refused { D.Tells → (s : Stored) → Stands D.files self.old s → OnErr result (Stands D.files self.new s) }
        ensures stuck { IfErr result (λ fault. (faults : ℕ) → fault ≡ ReplicaFault.Failed faults → is_stuck self.new ≡ true) }
        ensures tried { IfErr result (λ fault. (faults : ℕ) → fault ≡ ReplicaFault.Failed faults → 0 < bare_of self.old) }
        ensures stayed { IsErrOf result ReplicaFault.NoMemory → self.new.phase ≡ self.old.phase }
        ensures open { IsOpenCopy self.new }
        ensures same { is_frozen self.new ≡ is_frozen self.old }

        ensures run { D.Tells → (s : Stored) (run : Option Run) → Stands D.files self.old s → HasRun D.files self.old s run →
            OnOk result (HasRun D.files self.new (all_recorded s) run) }
        ensures run_stays { D.Tells → (s : Stored) (run : Option Run) → Stands D.files self.old s → HasRun D.files self.old s run →
            OnErr result (HasRun D.files self.new s run) }
        ensures goal { goal_of self.new ≡ goal_of self.old }
        ensures place { next_of self.new ≡ next_of self.old }
        ensures stays { KeepsEnd self.old self.new }
        ensures head_file { D.Tells → KeepsHead D.files self.old self.new }

        ensures causes { IfErr result (IsFlushFault (D.fault_count self.old.disk) (D.fault_count self.new.disk)) }
        ensures counts { D.fault_count self.old.disk ≤ D.fault_count self.new.disk }
        ensures fuses { D.fuse_count self.new.disk ≡ D.fuse_count self.old.disk }
        ensures sup { self.new.sup ≡ self.old.sup }
    {
        match &mut self.phase {
            Phase::Open(files) => files.flush(&mut self.disk),
            Phase::Closed => unreachable!(),
        }
    }

    /// Takes no more changes. A compaction that stands ends.
    pub fn freeze(&mut self)
        requires { IsOpenCopy self.old }
        ensures frozen { IsFrozen self.new }
        ensures dropped { EndedAt (D.fault_count self.new.disk) self.new }
        ensures held { D.Tells → (s : Stored) → Stands D.files self.old s → Holds D.files self.new (is_stuck self.old) s s }
        ensures holds { D.Tells → (stuck : Bool) (s t : Stored) → Holds D.files self.old stuck s t → Holds D.files self.new stuck s t }
        ensures sees { D.Tells → KeepsSight D.files Anywhere self.old self.new }
        ensures stuck { is_stuck self.new ≡ is_stuck self.old }
        ensures bare { bare_of self.new ≡ bare_of self.old }
        ensures stays { KeepsEnd self.old self.new }
        ensures disk { self.new.disk ≡ self.old.disk }
        ensures sup { self.new.sup ≡ self.old.sup }
    {
        match &mut self.phase {
            Phase::Open(files) => files.freeze(&self.disk),
            Phase::Closed => unreachable!(),
        }
    }

    /// Whether a change failed, or the replica was frozen. A closed one is not.
    pub fn is_frozen(&self) -> bool
        ensures { result ≡ is_frozen self.now }
    {
        match &self.phase {
            Phase::Open(files) => files.frozen,
            Phase::Closed => false,
        }
    }

    /// Whether a flush failed. A closed replica has no index that is stuck.
    pub fn is_stuck(&self) -> bool
        ensures { result ≡ is_stuck self.now }
    {
        match &self.phase {
            Phase::Open(files) => files.index.is_frozen(),
            Phase::Closed => false,
        }
    }

    /// The generation of the files.
    pub fn generation(&self) -> u64
        requires { IsOpenCopy self.now }
        ensures is { result ≡ generation_of self.now }
        ensures known { D.Tells → (s : Stored) → Stands D.files self.now s → result ≡ s.generation }
    {
        match &self.phase {
            Phase::Open(files) => files.head.current(),
            Phase::Closed => unreachable!(),
        }
    }

    /// Where the cells end.
    pub fn end(&self) -> u64
        requires { IsOpenCopy self.now }
        ensures is { result ≡ end_of self.now }
        ensures known { D.Tells → (s : Stored) → Stands D.files self.now s → result ≡ s.end }
    {
        match &self.phase {
            Phase::Open(files) => files.volume.end(),
            Phase::Closed => unreachable!(),
        }
    }

    /// How many calls of the disk have failed.
    pub fn faults(&self) -> u64
        ensures { result ≡ D.fault_count self.now.disk }
    {
        self.disk.faults()
    }

    /// Sets a fuse on the disk.
    pub fn fuse(&mut self, calls: u64)
        ensures stands { D.Tells → (s : Stored) → Stands D.files self.old s → Stands D.files self.new s }
        ensures holds { D.Tells → (stuck : Bool) (s t : Stored) → Holds D.files self.old stuck s t → Holds D.files self.new stuck s t }
        ensures deletes { D.Tells → (place : ℕ) → MayDelete D.files self.old place → MayDelete D.files self.new place }
        ensures sees { D.Tells → KeepsSight D.files Anywhere self.old self.new }
        ensures idle { D.Tells → IsIdleCopy D.files self.old → IsIdleCopy D.files self.new }
        ensures run { D.Tells → (s : Stored) (run : Option Run) → HasRun D.files self.old s run → HasRun D.files self.new s run }
        ensures same { self.new ≡ record self.old { disk = self.new.disk } }
        ensures files { D.Tells → D.files self.new.disk ≡ D.files self.old.disk }
        ensures faults { D.fault_count self.new.disk ≡ D.fault_count self.old.disk }
        ensures fuses { IsNext (D.fuse_count self.old.disk) (D.fuse_count self.new.disk) }
    {
        self.disk.fuse(calls);
    }

    /// Stops the disk and starts it again: the replica is closed then. `pick` chooses what the stop leaves.
    pub fn stop(&mut self, pick: u64)
        ensures closed { self.new.phase ≡ Closed }
        ensures idle { D.Tells → IsIdleCopy D.files self.new }
        ensures left { D.Tells → MayLeave (D.files self.old.disk) (contents_of D.files self.new.disk) }
        ensures stood { D.Tells → (s : Stored) → Stands D.files self.old s → Holds D.files self.new (is_stuck self.old) s s }
        ensures holds { D.Tells → (stuck : Bool) (s t : Stored) → Holds D.files self.old stuck s t → Holds D.files self.new stuck s t }
        ensures drawn { D.Tells → (n : ℕ) → D.drawn self.new.disk n ≡ 0 }
        ensures faults { D.fault_count self.new.disk ≡ D.fault_count self.old.disk }
        ensures fuses { D.fuse_count self.new.disk ≡ D.fuse_count self.old.disk }
        ensures sup { self.new.sup ≡ self.old.sup }
    {
        self.disk.power_cycle(pick);
        self.phase = Phase::Closed;
    }

    /// Gives the disk back.
    pub fn into_disk(self) -> D
        ensures { result ≡ self.disk }
    {
        let Replica {
            sup: _,
            disk,
            phase: _,
        } = self;
        disk
    }
}
