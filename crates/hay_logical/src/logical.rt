//! A logical volume.
ghost use Rattle.std.specs.Prelude.{◌≡◌, ◌≢◌, ◌⊎◌, ◌≤◌, ◌<◌, ◌+◌, ◌++◌, ◌∷◌, [], ℕ, List, Option, Some, None, true, false, length, map, option_map, Ok, Err, IfOk, IfErr, IfSome};
ghost use Rattle.std.specs.Prelude.{IfNone, IsOk, OnOk, OnErr};
ghost use Rattle.std.specs.List.{AllByRecursion};
ghost use Rattle.hay_disk.specs.Counts.{IsNext, Rose};
ghost use Rattle.hay_disk.specs.Disk.{MayLeave};
ghost use Rattle.hay_legal.specs.declared.known.VolumeKnown.{VolumeKnown};
ghost use Rattle.hay_legal.specs.Known.{machine_of, now, replica_at, room_refusal_of};
ghost use Rattle.hay_legal.specs.Plain.{frozen_by, without_run};
ghost use Rattle.hay_needle.specs.Tables.{outcome_at};
ghost use Rattle.hay_reply.specs.Fits.{FitsNote};
ghost use Rattle.hay_map.specs.Places.{PlaceMeans, place_in};
ghost use Rattle.hay_map.specs.Rows.{ChangesRows, HasRoom, row_at};
ghost use Rattle.hay_map.specs.declared.view.MapOp.TheVariants as map_op;
ghost use Rattle.hay_open.specs.Damage.{IsOpeningDamage};
ghost use Rattle.hay_open.specs.Stored.{OpensAs, Stored};
ghost use Rattle.hay_open.specs.declared.fault.OpenFault.TheVariants as open_fault;
ghost use Rattle.hay_physical.specs.declared.state.Phase.TheVariants.{Closed};
ghost use Rattle.hay_physical.specs.OpenCopies.{Copy, KeepsHead, contents_of, generation_of, goal_of, is_stuck, next_of, volume_bytes};
ghost use Rattle.hay_physical.specs.OpenCopies as copies;
ghost use Rattle.hay_physical.specs.Replicas.{HasWholeNeedle};
ghost use Rattle.hay_compact.specs.Finishing.{IsSeen};
ghost use Rattle.hay_logical.specs.Draws.{DrewAt, HasDrawnNothing, looked_pair};
ghost use Rattle.hay_logical.specs.Fits.{At, PlaceStands, super_of};
ghost use Rattle.hay_logical.specs.Notes.{NotesTell, ToldUnsure};
ghost use Rattle.hay_logical.specs.Readings.{IsReadAs};
ghost use Rattle.hay_logical.specs.Refusals.{IsUntouchedBy};
ghost use Rattle.hay_logical.specs.Seen.{AreEnds, BeginRefusedSeen, BeginSeen, ChangesAt, CompactRefusedSeen, CompactSeen, DeleteRefusedSeen, EraseSeen, FinishRefusedSeen};
ghost use Rattle.hay_logical.specs.Seen.{FinishSeen, FlushRefusedSeen, FlushSeen, FreezesSeen, HideSeen, IsEnded, IsFoundAs, OpenSeen, PutRefusedSeen, PutSeen, ReplicaSeen};
ghost use Rattle.hay_logical.specs.Seen.{RoomRefusedSeen, RoomSeen, StepRefusedSeen, StepSeen, WriteSeen, begun, replica_seen, volume_seen};
ghost use Rattle.hay_logical.specs.Needles.{AreToldBy, DeletesTold, HasLiveNeedles, HeadsLead, HeadsLeadOn, HeadsLeadPart, IsDamagedCell, IsDamagedLook, LacksCell, LacksCellAnew};
ghost use Rattle.hay_logical.specs.Needles.{LacksCellLeft, LacksSeenOn};
ghost use Rattle.hay_logical.specs.Sights.{AreSightsOf, DeleteRefusedSights, DeletesSights, ErasesSights, FindsPhoto, KeepsSights, LiesWithinEach, LookRefusedSights, LooksAtPair};
ghost use Rattle.hay_logical.specs.Sights.{SeeRefusedSights, SeesPair, StoresSights, SwapsSights, sights_of};
ghost use Rattle.hay_logical.specs.ReplicaCalls.{AllIdle, IsRefusedAt, IsSeenBy, KeepsAbove, KeepsDisk, KeepsFiles, KeepsRuns, KeepsStuck, LosesRun, RoomFor, SetsPlaceAt};
ghost use Rattle.hay_logical.specs.Volumes.{HasAll, HasSupers, IsClosed, IsMachineOf, IsOfSettings, IsOpenVolume, IsSame, KeepsCounts, Volume};
ghost use Rattle.hay_logical.specs.Unshown.{GivesUp, IsErased, IsWritten, IsWrittenFor, ShowsSame};
ghost use Rattle.hay_logical.specs.Stands.{Holds, IsFirst, IsIdleVolume, IsTightAt, Stands, Stopped};
ghost use Rattle.hay_logical.specs.Answers.{BeginRefused, BreaksPutOff, CompactRefused, DeleteRefused, FinishRefused, FlushRefused, HasSizes, IsBeginFault, IsBegun};
ghost use Rattle.hay_logical.specs.Answers.{IsCompactFault, IsCompacted, IsDeleteFault, IsDeleted, IsFinished, IsFlushFault, IsFlushed, IsPut, IsPutFault, IsReopened, IsRoomFault};
ghost use Rattle.hay_logical.specs.Answers.{IsRunFault, IsSightFault, IsStepped, IsTightened, PutRefused, RemovesOld, StepRefused, change_at, room_answer};

use crate::fault::{LogicalFault, Unopened};
use crate::notes::{machine_of, notes_of};
use crate::refusals::{answer_at, has_live, is_untouched, put_refusal, unfinished_by};
use crate::replicas::{delete_each, ends_of, flush_at, fuse_at, put_each, room_in, stop_each};
use crate::runs::{NewFiles, begin_at, compact_at, drop_run_at, drop_runs, finish_at, step_at};
use crate::sights::{open_all, see_at};
use crate::unsure::{Change, Unsure};
use crate::written::{Erased, Written};
use hay_base::{Listed, NoMemory};
use hay_core::CoreTag;
use hay_disk::{Disk, Piece};
use hay_map::{MapView, Row};
use hay_needle::{
    Cookie, FileKind, LAST_GENERATION, MAX_PHOTO, MAX_REPLICAS, Pair, Settings, Super,
};
use hay_open::OpenFault;
use hay_physical::Replica;
use hay_reply::Note;
use std::alloc::Global;
use std::marker::Model;

/// The place of a pair's photo on each replica, and how many changes were made since the opening.
#[derive(Drop)]
pub struct Looked<P: Piece> {
    pub front: u64,
    pub row: Row<P>,
}

/// A logical volume.
#[derive(Drop)]
pub struct Logical<D: Disk> {
    settings: Settings,
    number: u32,
    // Room for four is taken at the start.
    replicas: Vec<Replica<D>>,
    rows: MapView<D::Piece>,
    front: u64,
    frozen: Option<u32>,
    unsure: Option<Unsure>,
}

impl<D: Disk> Model for Logical<D> {
    ghost use Rattle.std.specs.Prelude.{◌≤◌};
    ghost use Rattle.std.specs.Vec.{vec_capacity};
    ghost use Rattle.hay_needle.specs.declared.settings.TheConstants.{MAX_REPLICAS};
    ghost use Rattle.hay_logical.specs.Volumes.{CanReach, IsShaped, Volume};

    ghost Value = { Volume D D.Piece };

    ghost view = { λ v. record {
      settings = v.settings;
      number = v.number;
      replicas = v.replicas.items;
      rows = v.rows;
      front = v.front;
      frozen = v.frozen;
      unsure = v.unsure;
    } };

    ghost invariant = { λ v. IsShaped (record {
      settings = v.settings;
      number = v.number;
      replicas = v.replicas.items;
      rows = v.rows;
      front = v.front;
      frozen = v.frozen;
      unsure = v.unsure;
    }) × (MAX_REPLICAS ≤ vec_capacity v.replicas) × CanReach D.Tells D.files D.Piece.Tells v.replicas.items v.rows };
}

impl<D: Disk> Logical<D> {
    /// A closed volume without replicas. It has the memory for them.
    pub fn new(alloc: Global, settings: Settings, number: u32) -> Result<Logical<D>, NoMemory>
        requires { IsOfSettings settings number }
        ensures settings { IfOk result (λ volume. (volume.settings ≡ settings) × (volume.number ≡ number)) }
        ensures replicas { IfOk result (λ volume. volume.replicas ≡ []) }
        ensures unsure { IfOk result (λ volume. (volume.frozen ≡ None) × (volume.unsure ≡ None)) }
    {
        let Ok(replicas) = Vec::with_capacity(alloc, MAX_REPLICAS as usize) else {
            return Err(NoMemory);
        };
        Ok(Logical {
            settings,
            number,
            replicas,
            rows: MapView::new(alloc, settings.replicas),
            front: 0,
            frozen: None,
            unsure: None,
        })
    }

    /// Adds the disk of the next replica, which is closed.
    pub fn add(&mut self, disk: D)
        requires { length self.old.replicas < self.old.settings.replicas }
        ensures { self.new ≡ record self.old {
          replicas = self.old.replicas ++ record { sup = super_of self.old.settings self.old.number (length self.old.replicas); disk = disk; phase = Closed } ∷ [];
        } }
    {
        let sup = Super {
            settings: self.settings,
            kind: FileKind::Volume,
            volume: self.number,
            replica: self.replicas.len() as u32,
            generation: 0,
        };
        self.replicas.push_reserved(Replica::new(disk, sup));
    }

    /// Opens each replica in order, and answers the notes of a change that was broken off before the stop: of each
    /// replica, whether it has it. A refusal leaves some of the replicas closed.
    pub fn open(&mut self, alloc: Global) -> Result<Listed<Note>, Unopened>
        requires all { HasAll self.old }
        requires closed { IsClosed self.old }
        requires idle { D.Tells → IsIdleVolume D.files self.old }

        // The volume stands for what the disks had, or behind a stop for what that may have left.
        ensures first { D.Tells → (k : VolumeKnown) → IsFirst D.files self.old k →
            IfOk result (λ notes. (notes ≡ []) × Stands D.files D.Piece.Tells self.new k) }
        ensures reopened { D.Tells → (k : VolumeKnown) → Stopped D.files self.old k →
            IfOk result (λ notes. IsReopened D.files D.Piece.Tells k notes self.new) }
        ensures told { IfOk result (NotesTell self.old.settings self.old.number self.old.unsure (sights_of self.new.rows) (volume_seen self.new).replicas) }
        // Where the disk tells, a place of a deletion that was broken off, and that was not looked at, has no needle of its size,
        // and one that is a photo's has its needle, which is not deleted.
        ensures told_places { D.Tells → OnOk result ((j : ℕ) (r : Copy D) → At self.new.replicas j r →
            ToldUnsure self.old.unsure (sights_of self.new.rows) j (volume_bytes D.files r)) }
        ensures fits { IfOk result (AllByRecursion FitsNote) }
        ensures settled { OnOk result (self.new.unsure ≡ None) }
        // No disk is void then.
        ensures formatted { D.Tells → OnOk result ((j : ℕ) (r : Copy D) → At self.new.replicas j r → contents_of D.files r.disk 0 ≡ [] → ⊥) }
        ensures thawed { OnOk result (self.new.frozen ≡ None) }
        ensures open { OnOk result (IsOpenVolume self.new) }
        // Nothing of what was read of the disks is damaged.
        ensures undamaged { D.Tells → OnOk result ((j : ℕ) (r : Copy D) → At self.old.replicas j r →
            (file at : ℕ) → IsOpeningDamage r.sup (contents_of D.files r.disk) file at → ⊥) }
        ensures undamaged_now { D.Tells → OnOk result ((j : ℕ) (r r' : Copy D) → At self.old.replicas j r → At self.new.replicas j r' →
            (file at : ℕ) → IsOpeningDamage r.sup (contents_of D.files r'.disk) file at → ⊥) }
        // Of each volume file little more was read than the needles that have no record, and the needle of the pair whose delete
        // was broken off.
        ensures drew { D.Tells → OnOk result ((j : ℕ) (r r' : Copy D) → At self.old.replicas j r → At self.new.replicas j r' →
            DrewAt D.files D.drawn (looked_pair self.old.unsure) r r') }

        // What a refusal leaves, and its cause.
        ensures left { D.Tells → (k : VolumeKnown) → Stopped D.files self.old k → OnErr result (Holds D.files self.new k) }
        ensures kept { D.Tells → (j : ℕ) (r r' : Copy D) → At self.old.replicas j r → At self.new.replicas j r' → KeepsDisk D.files r r' }
        ensures refused { IfErr result (IsRefusedAt D.Tells D.files D.fault_count self.old.replicas self.new.replicas) }
        ensures whole { D.Tells → (k : VolumeKnown) → Stopped D.files self.old k → (replica file at : ℕ) →
            result ≡ Err (record { replica = replica; fault = open_fault.Damaged file at }) → ⊥ }

        ensures counts { KeepsCounts D.fault_count D.fuse_count self.old.replicas self.new.replicas }
        ensures same { IsSame self.old self.new }
        // A disk that is void or whole is found as what it has, whatever the others have.
        ensures finds { D.Tells → OnOk result ((j : ℕ) (r r' : Copy D) (s : Stored) → At self.old.replicas j r → At self.new.replicas j r' →
            OpensAs r.sup (contents_of D.files r.disk) s → IsFoundAs s (replica_seen r') × AreSightsOf s (sights_of self.new.rows) j) }
        // Any disk that tells is found as its files say, as far as they were read.
        ensures read { D.Tells → OnOk result ((j : ℕ) (r : Copy D) → At self.new.replicas j r →
            IsReadAs r.sup (contents_of D.files r.disk) (replica_seen r) (λ pair. sights_of self.new.rows pair j)) }
        // On any disk that tells the needle of each place that is a photo's stands, and is not deleted.
        ensures live { D.Tells → OnOk result ((j : ℕ) (r : Copy D) → At self.new.replicas j r →
            HasLiveNeedles (sights_of self.new.rows) j (volume_bytes D.files r)) }
        ensures seen { OnOk result (OpenSeen (volume_seen self.new)) }
        ensures within { OnOk result (LiesWithinEach (sights_of self.new.rows) (volume_seen self.new).replicas) }
    {
        self.rows = MapView::new(alloc, self.settings.replicas);
        match open_all(
            self.replicas.as_mut_slice(),
            &mut self.rows,
            alloc,
            &self.unsure,
        ) {
            Ok(()) => {}
            Err(refusal) => return Err(refusal),
        }
        let Ok(notes) = notes_of(
            alloc,
            &self.settings,
            self.number,
            &self.unsure,
            self.replicas.as_slice(),
            &self.rows,
        ) else {
            return Err(Unopened {
                replica: 0,
                fault: OpenFault::NoMemory,
            });
        };
        self.front = 0;
        self.frozen = None;
        self.unsure = None;
        Ok(notes)
    }

    /// Whether the volume takes a photo of this size: `ReadOnly` where it is frozen, and then `Full` for the lowest
    /// replica that lacks room.
    pub fn room(&self, size: u32) -> Result<(), LogicalFault>
        requires open { IsOpenVolume self.now }
        ensures known { D.Tells → (k : VolumeKnown) → Stands D.files D.Piece.Tells self.now k →
            result ≡ room_answer self.now.settings k.frozen (room_refusal_of self.now.settings self.now.number k size) }
        ensures frozen { (m : ℕ) → self.now.frozen ≡ Some m → result ≡ Err (LogicalFault.ReadOnly m) }
        ensures fits { OnOk result ((self.now.frozen ≡ None) × ((j : ℕ) (r : Copy D) → At self.now.replicas j r → RoomFor size r)) }
        ensures takes { self.now.frozen ≡ None → ((j : ℕ) (r : Copy D) → At self.now.replicas j r → RoomFor size r) → IsOk result }
        ensures thawed { self.now.frozen ≡ None → (m : ℕ) → result ≡ Err (LogicalFault.ReadOnly m) → ⊥ }
        ensures causes { IfErr result (IsRoomFault self.now.settings self.now.number) }
        ensures seen { OnOk result (RoomSeen self.now.settings size (volume_seen self.now)) }
        ensures refused_seen { IfErr result (RoomRefusedSeen self.now.settings self.now.number size (volume_seen self.now)) }
    {
        if let Some(machine) = self.frozen {
            return Err(LogicalFault::ReadOnly { machine });
        }
        let Err(lacking) = room_in(self.replicas.as_slice(), size) else {
            return Ok(());
        };
        let machine = machine_of(&self.settings, self.number, lacking.at);
        Err(answer_at(machine, lacking.fault))
    }

    /// The places of a pair's photo. It takes no memory.
    pub fn look(&self, pair: Pair) -> Looked<D::Piece>
        ensures front { result.front ≡ self.now.front }
        ensures row { result.row ≡ row_at self.now.rows pair }
        ensures long { length result.row ≡ self.now.settings.replicas }
        ensures known { D.Tells → (k : VolumeKnown) → Stands D.files D.Piece.Tells self.now k → (result.front ≡ length k.log)
            × ((j : ℕ) (r : Copy D) → At self.now.replicas j r → PlaceStands D.files D.Piece.Tells r pair (place_in result.row j) (outcome_at (now k (replica_at k j)) pair)) }
        // Where the disk tells, whatever it has, the piece that a place has tells, and is a whole needle.
        ensures whole { D.Tells → (j : ℕ) (r : Copy D) → At self.now.replicas j r → copies.IsOpenCopy r → HasWholeNeedle D.Piece.Tells (place_in result.row j) }
    {
        Looked {
            front: self.front,
            row: self.rows.row(pair),
        }
    }

    /// The rows once more.
    pub fn copy_rows(&self, alloc: Global) -> Result<MapView<D::Piece>, NoMemory>
        ensures replicas { IfOk result (λ rows. rows.replicas ≡ self.now.settings.replicas) }
        ensures rows { IfOk result (λ rows. (pair : Pair) → row_at rows pair ≡ row_at self.now.rows pair) }
    {
        self.rows.copy(alloc)
    }

    /// Writes a photo to each replica in order. The rows show it once it is given to `show`, before any other change.
    /// `Failed` freezes the volume, and so does `NoMemory` once a disk was changed.
    pub fn write(
        &mut self,
        alloc: Global,
        tag: CoreTag,
        pair: Pair,
        cookie: Cookie,
        bytes: &[u8],
    ) -> Result<Written<D::Piece>, LogicalFault>
        requires size { length bytes.now ≤ MAX_PHOTO }
        requires open { IsOpenVolume self.old }
        ensures written { D.Tells → (k : VolumeKnown) → Stands D.files D.Piece.Tells self.old k →
            IfOk result (λ written. IsWritten D.files D.Piece.Tells k pair cookie bytes.now written self.new) }
        ensures fits { IfOk result (λ written. IsWrittenFor D.Tells D.files D.Piece.Tells written self.new) }
        ensures of { IfOk result (λ written. (written.pair ≡ pair) × (written.position ≡ self.old.front + 1) × (length written.row ≡ self.old.settings.replicas)) }
        ensures still { OnOk result (ShowsSame self.old self.new) }
        ensures refused { D.Tells → (k : VolumeKnown) → Stands D.files D.Piece.Tells self.old k →
            IfErr result (PutRefused D.files D.Piece.Tells k tag pair cookie bytes.now self.old self.new) }
        ensures causes { IfErr result (IsPutFault D.fault_count self.old.settings self.old.number self.old.replicas self.new.replicas) }
        ensures takes { self.old.frozen ≡ None → ((j : ℕ) (r : Copy D) → At self.old.replicas j r → RoomFor (length bytes.now) r) → IfErr result BreaksPutOff }
        // Where the volume is frozen or a replica lacks room, all stays. A refusal that left no change pending changed no byte.
        ensures read_only { (m : ℕ) → result ≡ Err (LogicalFault.ReadOnly m) → self.new ≡ self.old }
        ensures full { (m end need capacity : ℕ) → result ≡ Err (LogicalFault.Full m end need capacity) → self.new ≡ self.old }
        ensures files { OnErr result (self.new.unsure ≡ self.old.unsure → KeepsFiles D.Tells D.files self.old.replicas self.new.replicas) }
        // A refusal that left no change pending leaves a compaction tight that was so.
        ensures tight { D.Tells → (j : ℕ) → IsTightAt D.files self.old j → OnErr result (self.new.unsure ≡ self.old.unsure → IsTightAt D.files self.new j) }
        ensures kept { OnErr result ((pair : Pair) → row_at self.new.rows pair ≡ row_at self.old.rows pair) }
        // Each replica behind one whose disk failed keeps its files.
        ensures above { (m count : ℕ) → result ≡ Err (LogicalFault.Failed m count) →
            KeepsAbove D.Tells D.files self.old.settings self.old.number m self.old.replicas self.new.replicas }
        ensures stuck { KeepsStuck self.old.replicas self.new.replicas }
        ensures open { IsOpenVolume self.new }
        ensures counts { KeepsCounts D.fault_count D.fuse_count self.old.replicas self.new.replicas }
        ensures same { IsSame self.old self.new }
        ensures seen { OnOk result (WriteSeen (length bytes.now) (volume_seen self.old) (volume_seen self.new)) }
        ensures ends { IfOk result (λ written. AreEnds written.ends (volume_seen self.old).replicas) }
        ensures refused_seen { IfErr result (PutRefusedSeen self.old.settings self.old.number tag (length bytes.now) (volume_seen self.old) (volume_seen self.new)) }
    {
        self.room(bytes.len() as u32)?;
        let Some(position) = self.front.checked_add(1) else {
            return Err(LogicalFault::NoMemory);
        };
        if self.rows.reserve().is_err() {
            return Err(LogicalFault::NoMemory);
        }
        let ends = ends_of(self.replicas.as_slice());
        match put_each(self.replicas.as_mut_slice(), alloc, pair, cookie, bytes) {
            Ok(row) => Ok(Written {
                pair,
                row,
                position,
                ends,
            }),
            Err(broken) => {
                if is_untouched(self.replicas.as_slice(), &broken) {
                    return Err(LogicalFault::NoMemory);
                }
                let refusal = put_refusal(&self.settings, self.number, &broken);
                self.frozen = Some(refusal.machine);
                self.unsure = Some(Unsure {
                    tag,
                    change: Change::Put { ends },
                });
                Err(refusal.fault)
            }
        }
    }

    /// Shows a photo that was written, and answers the position of the change. It takes no memory.
    pub fn show(&mut self, written: Written<D::Piece>) -> u64
        requires { IsWrittenFor D.Tells D.files D.Piece.Tells written self.old }
        ensures put { D.Tells → (k : VolumeKnown) (tag : CoreTag) (pair : Pair) (cookie : Cookie) (bytes : List ℕ) →
            IsWritten D.files D.Piece.Tells k pair cookie bytes written self.old → IsPut D.files D.Piece.Tells k tag pair cookie bytes result self.new }
        ensures position { result ≡ written.position }
        ensures rows { ChangesRows (map_op.Put written.pair written.row) self.old.rows self.new.rows }
        ensures still { self.new ≡ record self.old { rows = self.new.rows; front = written.position } }
        // Of whatever replicas, whose cells ended there before it was written.
        ensures sights { (replicas : List ReplicaSeen) → length replicas ≡ self.old.settings.replicas → AreEnds written.ends replicas →
            StoresSights written.pair replicas (sights_of self.old.rows) (sights_of self.new.rows) }
    {
        give_row::<D>(&mut self.rows, written.pair, written.row);
        self.front = written.position;
        written.position
    }

    /// Gives up a change that stands on each replica and was not shown, for want of memory: the volume is frozen by the
    /// machine of its first replica with the change pending, and each compaction ends.
    pub fn give_up(&mut self, tag: CoreTag, change: Change)
        requires { IsOpenVolume self.old }
        ensures pending { D.Tells → (k : VolumeKnown) → GivesUp D.files D.Piece.Tells k tag change self.old self.new }
        ensures still { self.new ≡ record self.old {
          replicas = self.new.replicas;
          frozen = Some (machine_of self.old.settings self.old.number 0);
          unsure = Some (record { tag = tag; change = change });
        } }
        ensures ended { AllIdle self.new.replicas }
        ensures open { IsOpenVolume self.new }
        ensures counts { KeepsCounts D.fault_count D.fuse_count self.old.replicas self.new.replicas }
        ensures same { IsSame self.old self.new }
        ensures seen { self.old.frozen ≡ None →
            FreezesSeen (machine_of self.old.settings self.old.number 0) (Some (record { tag = tag; change = change })) (volume_seen self.old) (volume_seen self.new) }
    {
        self.halt();
        self.unsure = Some(Unsure { tag, change });
    }

    /// Freezes a volume by the machine of its first replica, and each compaction ends. One that is frozen stays as it is.
    pub fn freeze(&mut self)
        requires { IsOpenVolume self.old }
        ensures frozen { D.Tells → (k : VolumeKnown) → Stands D.files D.Piece.Tells self.old k → k.frozen ≡ None →
            Stands D.files D.Piece.Tells self.new (frozen_by (machine_of self.old.settings self.old.number 0) k) }
        ensures again { (m : ℕ) → self.old.frozen ≡ Some m → self.new ≡ self.old }
        ensures still { self.old.frozen ≡ None → self.new ≡ record self.old {
          replicas = self.new.replicas;
          frozen = Some (machine_of self.old.settings self.old.number 0);
        } }
        ensures open { IsOpenVolume self.new }
        ensures counts { KeepsCounts D.fault_count D.fuse_count self.old.replicas self.new.replicas }
        ensures same { IsSame self.old self.new }
        ensures seen { self.old.frozen ≡ None → FreezesSeen (machine_of self.old.settings self.old.number 0) self.old.unsure (volume_seen self.old) (volume_seen self.new) }
    {
        if self.frozen.is_some() {
            return;
        }
        self.halt();
    }

    // Freezes the volume by the machine of its first replica. Each compaction ends.
    fn halt(&mut self)
        requires { IsOpenVolume self.old }
        ensures still { self.new ≡ record self.old {
          replicas = self.new.replicas;
          frozen = Some (machine_of self.old.settings self.old.number 0);
        } }
        ensures each { (j : ℕ) (r r' : Copy D) → At self.old.replicas j r → At self.new.replicas j r' → LosesRun D.Tells D.files r r' }
        ensures ended { AllIdle self.new.replicas }
        ensures settled { self.old.frozen ≡ None → self.old.unsure ≡ None }
        ensures open { IsOpenVolume self.new }
        ensures counts { KeepsCounts D.fault_count D.fuse_count self.old.replicas self.new.replicas }
        ensures same { IsSame self.old self.new }
    {
        drop_runs(self.replicas.as_mut_slice());
        self.frozen = Some(machine_of(&self.settings, self.number, 0));
    }

    /// Stores a photo on each replica in order, and then in the rows, and answers the position of the change.
    /// `Failed` freezes the volume, and so does `NoMemory` once a disk was changed.
    pub fn put(
        &mut self,
        alloc: Global,
        tag: CoreTag,
        pair: Pair,
        cookie: Cookie,
        bytes: &[u8],
    ) -> Result<u64, LogicalFault>
        requires size { length bytes.now ≤ MAX_PHOTO }
        requires open { IsOpenVolume self.old }
        ensures stored { D.Tells → (k : VolumeKnown) → Stands D.files D.Piece.Tells self.old k →
            IfOk result (λ position. IsPut D.files D.Piece.Tells k tag pair cookie bytes.now position self.new) }
        ensures refused { D.Tells → (k : VolumeKnown) → Stands D.files D.Piece.Tells self.old k →
            IfErr result (PutRefused D.files D.Piece.Tells k tag pair cookie bytes.now self.old self.new) }
        ensures causes { IfErr result (IsPutFault D.fault_count self.old.settings self.old.number self.old.replicas self.new.replicas) }
        ensures takes { self.old.frozen ≡ None → ((j : ℕ) (r : Copy D) → At self.old.replicas j r → RoomFor (length bytes.now) r) → IfErr result BreaksPutOff }
        ensures stored_unsure { OnOk result (self.new.unsure ≡ self.old.unsure) }
        ensures still { OnOk result (self.new.frozen ≡ self.old.frozen) }
        // Where the volume is frozen or a replica lacks room, all stays. A refusal that left no change pending changed no byte.
        ensures read_only { (m : ℕ) → result ≡ Err (LogicalFault.ReadOnly m) → self.new ≡ self.old }
        ensures full { (m end need capacity : ℕ) → result ≡ Err (LogicalFault.Full m end need capacity) → self.new ≡ self.old }
        ensures files { OnErr result (self.new.unsure ≡ self.old.unsure → KeepsFiles D.Tells D.files self.old.replicas self.new.replicas) }
        // Each replica behind one whose disk failed keeps its files.
        ensures above { (m count : ℕ) → result ≡ Err (LogicalFault.Failed m count) →
            KeepsAbove D.Tells D.files self.old.settings self.old.number m self.old.replicas self.new.replicas }
        ensures stuck { KeepsStuck self.old.replicas self.new.replicas }
        ensures open { IsOpenVolume self.new }
        ensures counts { KeepsCounts D.fault_count D.fuse_count self.old.replicas self.new.replicas }
        ensures same { IsSame self.old self.new }
        ensures seen { IfOk result (λ position. PutSeen (length bytes.now) position (volume_seen self.old) (volume_seen self.new)) }
        ensures refused_seen { IfErr result (PutRefusedSeen self.old.settings self.old.number tag (length bytes.now) (volume_seen self.old) (volume_seen self.new)) }
        ensures sights { OnOk result (StoresSights pair (volume_seen self.old).replicas (sights_of self.old.rows) (sights_of self.new.rows)) }
        ensures refused_sights { OnErr result (KeepsSights (sights_of self.old.rows) (sights_of self.new.rows)) }
    {
        let written = self.write(alloc, tag, pair, cookie, bytes)?;
        Ok(self.show(written))
    }

    /// Sees the place of a pair's photo on a replica, where it was not looked at yet: one read of its needle, which `out` then
    /// has, and of no other byte. Answers the places with that one seen, which needs no look a second time. A place that was
    /// seen is answered as it is.
    ///
    /// A refusal leaves each place, and none freezes the volume, which may be frozen. `Damaged` comes where no needle of that
    /// size stands there.
    pub fn see(
        &mut self,
        replica: u32,
        pair: Pair,
        out: &mut Vec<u8>,
    ) -> Result<Looked<D::Piece>, LogicalFault>
        requires within { replica < self.old.settings.replicas }
        requires open { IsOpenVolume self.old }

        // What the volume stands for stays, and the place means the photo that the pair has on the replica.
        ensures stands { D.Tells → (k : VolumeKnown) → Stands D.files D.Piece.Tells self.old k → Stands D.files D.Piece.Tells self.new k }
        ensures known { D.Tells → (k : VolumeKnown) → Stands D.files D.Piece.Tells self.old k →
            IfOk result (λ looked. (looked.front ≡ length k.log)
            × PlaceMeans D.Piece.Tells pair (place_in looked.row replica) (outcome_at (now k (replica_at k replica)) pair)) }
        ensures undamaged { D.Tells → (k : VolumeKnown) → Stands D.files D.Piece.Tells self.old k →
            (m at : ℕ) → result ≡ Err (LogicalFault.Damaged m at) → ⊥ }

        // On any disk the place is one that was seen, and every other place stays.
        ensures seen { IfOk result (λ looked. IsSeen (place_in looked.row replica)) }
        ensures row { IfOk result (λ looked. SetsPlaceAt pair replica (place_in looked.row replica) self.old.rows self.new.rows) }
        ensures answered { IfOk result (λ looked. (looked.front ≡ self.new.front) × (looked.row ≡ row_at self.new.rows pair)) }
        ensures kept { OnErr result ((other : Pair) → row_at self.new.rows other ≡ row_at self.old.rows other) }
        ensures sights { OnOk result (SeesPair pair replica (sights_of self.old.rows) (sights_of self.new.rows)) }
        // A refusal comes only where it was not looked at yet.
        ensures refused_sights { IfErr result (SeeRefusedSights pair replica (sights_of self.old.rows) (sights_of self.new.rows)) }
        // Where the disk tells, a place is what the needle is that stands there, and damaged where none of its size does.
        ensures told { D.Tells → AreToldBy D.files self.old.replicas pair (sights_of self.old.rows) (sights_of self.new.rows) }
        ensures damaged { D.Tells → (m place : ℕ) → result ≡ Err (LogicalFault.Damaged m place) →
            IsDamagedLook D.files self.old.settings self.old.number self.old.replicas pair m place (sights_of self.old.rows) }
        ensures lacks { D.Tells → (m place : ℕ) → result ≡ Err (LogicalFault.Damaged m place) → LacksSeenOn D.files self.old.replicas pair replica place (sights_of self.old.rows) }

        // A place that was not looked at yet is what the needle shows that was read. Where the disk tells, its piece has that photo.
        ensures needle { (IsSeen (place_in (row_at self.old.rows pair) replica) → ⊥) →
            IfOk result (λ looked. IsSeenBy D.Tells D.Piece.Tells out.new.items (place_in looked.row replica)) }

        // The disk that failed is the replica's, and every other replica stays.
        ensures causes { IfErr result (IsSightFault D.fault_count self.old.settings self.old.number self.old.replicas self.new.replicas) }
        ensures machine { (m count : ℕ) → result ≡ Err (LogicalFault.Failed m count) → m ≡ machine_of self.old.settings self.old.number replica }
        ensures others { (j : ℕ) → (j ≡ replica → ⊥) → (r r' : Copy D) → At self.old.replicas j r → At self.new.replicas j r' → r' ≡ r }
        // Behind a look each file has its bytes.
        ensures files { KeepsFiles D.Tells D.files self.old.replicas self.new.replicas }
        ensures stuck { KeepsStuck self.old.replicas self.new.replicas }
        ensures tight { D.Tells → (k : VolumeKnown) → Stands D.files D.Piece.Tells self.old k → (j : ℕ) → IsTightAt D.files self.old j → IsTightAt D.files self.new j }
        ensures open { IsOpenVolume self.new }
        ensures counts { KeepsCounts D.fault_count D.fuse_count self.old.replicas self.new.replicas }
        ensures same { IsSame self.old self.new }
        ensures unchanged { volume_seen self.new ≡ volume_seen self.old }
        ensures still { (self.new.frozen ≡ self.old.frozen) × (self.new.front ≡ self.old.front) × (self.new.unsure ≡ self.old.unsure) }
    {
        match self.see_in(replica, pair, out) {
            Ok(()) => Ok(Looked {
                front: self.front,
                row: self.rows.row(pair),
            }),
            Err(fault) => Err(fault),
        }
    }

    // Sees the place of a pair's photo on a replica, where it was not looked at yet.
    fn see_in(&mut self, replica: u32, pair: Pair, out: &mut Vec<u8>) -> Result<(), LogicalFault>
        requires within { replica < self.old.settings.replicas }
        requires open { IsOpenVolume self.old }
        ensures stands { D.Tells → (k : VolumeKnown) → Stands D.files D.Piece.Tells self.old k → Stands D.files D.Piece.Tells self.new k }
        ensures known { D.Tells → (k : VolumeKnown) → Stands D.files D.Piece.Tells self.old k →
            OnOk result ((self.new.front ≡ length k.log) × PlaceMeans D.Piece.Tells pair (place_in (row_at self.new.rows pair) replica) (outcome_at (now k (replica_at k replica)) pair)) }
        ensures undamaged { D.Tells → (k : VolumeKnown) → Stands D.files D.Piece.Tells self.old k →
            (m at : ℕ) → result ≡ Err (LogicalFault.Damaged m at) → ⊥ }
        ensures seen { OnOk result (IsSeen (place_in (row_at self.new.rows pair) replica)) }
        ensures row { OnOk result (SetsPlaceAt pair replica (place_in (row_at self.new.rows pair) replica) self.old.rows self.new.rows) }
        ensures kept { OnErr result ((other : Pair) → row_at self.new.rows other ≡ row_at self.old.rows other) }
        ensures sights { OnOk result (SeesPair pair replica (sights_of self.old.rows) (sights_of self.new.rows)) }
        ensures see_refused { IfErr result (SeeRefusedSights pair replica (sights_of self.old.rows) (sights_of self.new.rows)) }
        ensures told { D.Tells → AreToldBy D.files self.old.replicas pair (sights_of self.old.rows) (sights_of self.new.rows) }
        ensures damaged { D.Tells → (m place : ℕ) → result ≡ Err (LogicalFault.Damaged m place) →
            IsDamagedLook D.files self.old.settings self.old.number self.old.replicas pair m place (sights_of self.old.rows) }
        ensures lacks { D.Tells → (m place : ℕ) → result ≡ Err (LogicalFault.Damaged m place) → LacksSeenOn D.files self.old.replicas pair replica place (sights_of self.old.rows) }
        ensures refused_sights { IfErr result (LookRefusedSights self.old.settings self.old.number pair (sights_of self.old.rows) (sights_of self.new.rows)) }
        ensures needle { (IsSeen (place_in (row_at self.old.rows pair) replica) → ⊥) →
            OnOk result (IsSeenBy D.Tells D.Piece.Tells out.new.items (place_in (row_at self.new.rows pair) replica)) }
        ensures causes { IfErr result (IsSightFault D.fault_count self.old.settings self.old.number self.old.replicas self.new.replicas) }
        ensures machine { (m count : ℕ) → result ≡ Err (LogicalFault.Failed m count) → m ≡ machine_of self.old.settings self.old.number replica }
        ensures others { (j : ℕ) → (j ≡ replica → ⊥) → (r r' : Copy D) → At self.old.replicas j r → At self.new.replicas j r' → r' ≡ r }
        ensures files { KeepsFiles D.Tells D.files self.old.replicas self.new.replicas }
        ensures stuck { KeepsStuck self.old.replicas self.new.replicas }
        ensures tight { D.Tells → (k : VolumeKnown) → Stands D.files D.Piece.Tells self.old k → (j : ℕ) → IsTightAt D.files self.old j → IsTightAt D.files self.new j }
        ensures open { IsOpenVolume self.new }
        ensures counts { KeepsCounts D.fault_count D.fuse_count self.old.replicas self.new.replicas }
        ensures same { IsSame self.old self.new }
        ensures unchanged { volume_seen self.new ≡ volume_seen self.old }
        ensures still { (self.new.frozen ≡ self.old.frozen) × (self.new.front ≡ self.old.front) × (self.new.unsure ≡ self.old.unsure) }
        ensures runs { (j : ℕ) (r r' : Copy D) → At self.old.replicas j r → At self.new.replicas j r' → goal_of r' ≡ goal_of r }
    {
        let machine = machine_of(&self.settings, self.number, replica);
        match see_at(
            self.replicas.as_mut_slice(),
            replica as usize,
            &mut self.rows,
            pair,
            out,
        ) {
            Ok(()) => Ok(()),
            Err(fault) => Err(answer_at(machine, fault)),
        }
    }

    // Sees each place of a pair's photo that was not looked at yet.
    fn see_each(&mut self, pair: Pair, out: &mut Vec<u8>) -> Result<(), LogicalFault>
        requires open { IsOpenVolume self.old }
        ensures stands { D.Tells → (k : VolumeKnown) → Stands D.files D.Piece.Tells self.old k → Stands D.files D.Piece.Tells self.new k }
        ensures undamaged { D.Tells → (k : VolumeKnown) → Stands D.files D.Piece.Tells self.old k →
            (m at : ℕ) → result ≡ Err (LogicalFault.Damaged m at) → ⊥ }
        ensures seen { OnOk result ((j : ℕ) → j < self.new.settings.replicas → IsSeen (place_in (row_at self.new.rows pair) j)) }
        ensures sights { OnOk result (LooksAtPair pair (sights_of self.old.rows) (sights_of self.new.rows)) }
        ensures refused_sights { IfErr result (LookRefusedSights self.old.settings self.old.number pair (sights_of self.old.rows) (sights_of self.new.rows)) }
        ensures told { D.Tells → AreToldBy D.files self.old.replicas pair (sights_of self.old.rows) (sights_of self.new.rows) }
        ensures damaged { D.Tells → (m place : ℕ) → result ≡ Err (LogicalFault.Damaged m place) →
            IsDamagedLook D.files self.old.settings self.old.number self.old.replicas pair m place (sights_of self.old.rows) }
        ensures causes { IfErr result (IsSightFault D.fault_count self.old.settings self.old.number self.old.replicas self.new.replicas) }
        ensures files { KeepsFiles D.Tells D.files self.old.replicas self.new.replicas }
        ensures stuck { KeepsStuck self.old.replicas self.new.replicas }
        ensures tight { D.Tells → (k : VolumeKnown) → Stands D.files D.Piece.Tells self.old k → (j : ℕ) → IsTightAt D.files self.old j → IsTightAt D.files self.new j }
        ensures open { IsOpenVolume self.new }
        ensures counts { KeepsCounts D.fault_count D.fuse_count self.old.replicas self.new.replicas }
        ensures same { IsSame self.old self.new }
        ensures unchanged { volume_seen self.new ≡ volume_seen self.old }
        ensures still { (self.new.frozen ≡ self.old.frozen) × (self.new.front ≡ self.old.front) × (self.new.unsure ≡ self.old.unsure) }
        ensures runs { (j : ℕ) (r r' : Copy D) → At self.old.replicas j r → At self.new.replicas j r' → goal_of r' ≡ goal_of r }
    {
        for replica in 0..self.settings.replicas {
            self.see_in(replica, pair, out)?;
        }
        Ok(())
    }

    /// Deletes a pair's photo from each replica that has it, in order. The rows show that once it is given to `hide`, before any
    /// other change. It first sees each place of the pair that was not looked at yet, as `see` does, and `out` has a needle
    /// then: what refuses that leaves the volume as it stood, and so do `ReadOnly` and `Gone`. Behind that it takes no memory,
    /// and `Failed` freezes the volume. A compaction whose disk fails as it follows ends, and that is no refusal.
    pub fn erase(
        &mut self,
        tag: CoreTag,
        pair: Pair,
        out: &mut Vec<u8>,
    ) -> Result<Erased, LogicalFault>
        requires open { IsOpenVolume self.old }
        ensures erased { D.Tells → (k : VolumeKnown) → Stands D.files D.Piece.Tells self.old k →
            IfOk result (λ erased. IsErased D.files D.fault_count D.Piece.Tells k pair erased self.old self.new) }
        ensures of { IfOk result (λ erased. (erased.pair ≡ pair) × (erased.position ≡ self.old.front + 1)) }
        ensures still { OnOk result ((self.new.front ≡ self.old.front) × (self.new.frozen ≡ self.old.frozen) × (self.new.unsure ≡ self.old.unsure)) }
        ensures refused { D.Tells → (k : VolumeKnown) → Stands D.files D.Piece.Tells self.old k →
            IfErr result (DeleteRefused D.files D.Piece.Tells k tag pair self.new) }
        ensures frozen { (m : ℕ) → self.old.frozen ≡ Some m → (result ≡ Err (LogicalFault.ReadOnly m)) × (self.new ≡ self.old) }
        ensures thawed { self.old.frozen ≡ None → (m : ℕ) → result ≡ Err (LogicalFault.ReadOnly m) → ⊥ }
        ensures causes { IfErr result (IsDeleteFault D.fault_count self.old.settings self.old.number self.old.replicas self.new.replicas) }
        // A refusal that left no change pending changed no byte of a file.
        ensures files { OnErr result (self.new.unsure ≡ self.old.unsure → KeepsFiles D.Tells D.files self.old.replicas self.new.replicas) }
        // Each replica behind one whose disk failed keeps its files.
        ensures above { (m count : ℕ) → result ≡ Err (LogicalFault.Failed m count) →
            KeepsAbove D.Tells D.files self.old.settings self.old.number m self.old.replicas self.new.replicas }
        ensures stuck { KeepsStuck self.old.replicas self.new.replicas }
        ensures tight { D.Tells → (k : VolumeKnown) → Stands D.files D.Piece.Tells self.old k → (j : ℕ) → IsTightAt D.files self.old j →
            OnErr result (self.new.unsure ≡ self.old.unsure → IsTightAt D.files self.new j) }
        ensures open { IsOpenVolume self.new }
        ensures counts { KeepsCounts D.fault_count D.fuse_count self.old.replicas self.new.replicas }
        ensures same { IsSame self.old self.new }
        ensures after { OnOk result (EraseSeen (volume_seen self.old) (volume_seen self.new)) }
        ensures refused_seen { IfErr result (DeleteRefusedSeen tag pair (volume_seen self.old) (volume_seen self.new)) }
        ensures sights { OnOk result (FindsPhoto pair self.old.settings.replicas (sights_of self.old.rows) (sights_of self.new.rows)) }
        ensures refused_sights { IfErr result (DeleteRefusedSights self.old.settings self.old.number pair self.new.frozen (sights_of self.old.rows) (sights_of self.new.rows)) }
        // Where the disk tells, what a look made of a place is what the needle is that stands there, and a refusal tells damage where none
        // of its size does.
        ensures told { D.Tells → AreToldBy D.files self.old.replicas pair (sights_of self.old.rows) (sights_of self.new.rows) }
        ensures damaged { D.Tells → (m place : ℕ) → result ≡ Err (LogicalFault.Damaged m place) →
            IsDamagedLook D.files self.old.settings self.old.number self.old.replicas pair m place (sights_of self.old.rows) }
        // A compaction ended only where its disk's count of faults rose.
        ensures ended { OnOk result (KeepsRuns D.fault_count self.old.replicas self.new.replicas) }
    {
        if let Some(machine) = self.frozen {
            return Err(LogicalFault::ReadOnly { machine });
        }
        self.see_each(pair, out)?;
        self.erase_seen(tag, pair)
    }

    /// Deletes a pair's photo, of which each place was seen, from each replica that has it, as `erase` does.
    pub fn erase_seen(&mut self, tag: CoreTag, pair: Pair) -> Result<Erased, LogicalFault>
        requires open { IsOpenVolume self.old }
        requires seen { (j : ℕ) → j < self.old.settings.replicas → IsSeen (place_in (row_at self.old.rows pair) j) }
        requires thawed { self.old.frozen ≡ None }
        ensures erased { D.Tells → (k : VolumeKnown) → Stands D.files D.Piece.Tells self.old k →
            IfOk result (λ erased. IsErased D.files D.fault_count D.Piece.Tells k pair erased self.old self.new) }
        ensures of { IfOk result (λ erased. (erased.pair ≡ pair) × (erased.position ≡ self.old.front + 1)) }
        ensures still { OnOk result (self.new ≡ record self.old { replicas = self.new.replicas }) }
        ensures refused { D.Tells → (k : VolumeKnown) → Stands D.files D.Piece.Tells self.old k →
            IfErr result (DeleteRefused D.files D.Piece.Tells k tag pair self.new) }
        ensures causes { IfErr result (IsDeleteFault D.fault_count self.old.settings self.old.number self.old.replicas self.new.replicas) }
        ensures undamaged { (m at : ℕ) → result ≡ Err (LogicalFault.Damaged m at) → ⊥ }
        ensures thawed { (m : ℕ) → result ≡ Err (LogicalFault.ReadOnly m) → ⊥ }
        ensures files { OnErr result (self.new.unsure ≡ self.old.unsure → KeepsFiles D.Tells D.files self.old.replicas self.new.replicas) }
        ensures tight { D.Tells → (j : ℕ) → IsTightAt D.files self.old j → OnErr result (self.new.unsure ≡ self.old.unsure → IsTightAt D.files self.new j) }
        ensures rows { KeepsSights (sights_of self.old.rows) (sights_of self.new.rows) }
        ensures kept { OnErr result ((pair : Pair) → row_at self.new.rows pair ≡ row_at self.old.rows pair) }
        // Each replica behind one whose disk failed keeps its files.
        ensures above { (m count : ℕ) → result ≡ Err (LogicalFault.Failed m count) →
            KeepsAbove D.Tells D.files self.old.settings self.old.number m self.old.replicas self.new.replicas }
        ensures stuck { KeepsStuck self.old.replicas self.new.replicas }
        ensures open { IsOpenVolume self.new }
        ensures counts { KeepsCounts D.fault_count D.fuse_count self.old.replicas self.new.replicas }
        ensures same { IsSame self.old self.new }
        ensures after { OnOk result (EraseSeen (volume_seen self.old) (volume_seen self.new)) }
        ensures refused_seen { IfErr result (DeleteRefusedSeen tag pair (volume_seen self.old) (volume_seen self.new)) }
        ensures sights { OnOk result (FindsPhoto pair self.old.settings.replicas (sights_of self.old.rows) (sights_of self.new.rows)) }
        ensures refused_sights { IfErr result (DeleteRefusedSights self.old.settings self.old.number pair self.new.frozen (sights_of self.old.rows) (sights_of self.new.rows)) }
        // A compaction ended only where its disk's count of faults rose.
        ensures ended { OnOk result (KeepsRuns D.fault_count self.old.replicas self.new.replicas) }
    {
        let row = self.rows.row(pair);
        if !has_live(&row) {
            return Err(LogicalFault::Gone { front: self.front });
        }
        let Some(position) = self.front.checked_add(1) else {
            return Err(LogicalFault::NoMemory);
        };
        match delete_each(self.replicas.as_mut_slice(), pair, &row) {
            Ok(()) => Ok(Erased { pair, position }),
            Err(failed) => {
                let machine = machine_of(&self.settings, self.number, failed.at);
                self.frozen = Some(machine);
                self.unsure = Some(Unsure {
                    tag,
                    change: Change::Delete { pair },
                });
                Err(LogicalFault::Failed {
                    machine,
                    faults: failed.faults,
                })
            }
        }
    }

    /// Deletes from the rows a photo that was deleted from each replica, and answers the position of the change. It takes no
    /// memory.
    pub fn hide(&mut self, erased: Erased) -> u64
        ensures deleted { D.Tells → (k : VolumeKnown) (tag : CoreTag) (pair : Pair) (before : Volume D D.Piece) →
            IsErased D.files D.fault_count D.Piece.Tells k pair erased before self.old →
            IsDeleted D.files D.fault_count D.Piece.Tells k tag pair result before self.new }
        ensures position { result ≡ erased.position }
        ensures rows { ChangesRows (map_op.Del erased.pair) self.old.rows self.new.rows }
        ensures still { self.new ≡ record self.old { rows = self.new.rows; front = erased.position } }
        ensures sights { ErasesSights erased.pair (sights_of self.old.rows) (sights_of self.new.rows) }
    {
        self.rows.del(erased.pair);
        self.front = erased.position;
        erased.position
    }

    /// Deletes a pair's photo from each replica that has it, as `erase` does, and then from the rows, and answers the position
    /// of the change.
    pub fn delete(
        &mut self,
        tag: CoreTag,
        pair: Pair,
        out: &mut Vec<u8>,
    ) -> Result<u64, LogicalFault>
        requires open { IsOpenVolume self.old }
        ensures deleted { D.Tells → (k : VolumeKnown) → Stands D.files D.Piece.Tells self.old k →
            IfOk result (λ position. IsDeleted D.files D.fault_count D.Piece.Tells k tag pair position self.old self.new) }
        ensures refused { D.Tells → (k : VolumeKnown) → Stands D.files D.Piece.Tells self.old k →
            IfErr result (DeleteRefused D.files D.Piece.Tells k tag pair self.new) }
        ensures frozen { (m : ℕ) → self.old.frozen ≡ Some m → (result ≡ Err (LogicalFault.ReadOnly m)) × (self.new ≡ self.old) }
        ensures thawed { self.old.frozen ≡ None → (m : ℕ) → result ≡ Err (LogicalFault.ReadOnly m) → ⊥ }
        ensures causes { IfErr result (IsDeleteFault D.fault_count self.old.settings self.old.number self.old.replicas self.new.replicas) }
        ensures deleted_unsure { OnOk result (self.new.unsure ≡ self.old.unsure) }
        ensures still { OnOk result (self.new.frozen ≡ self.old.frozen) }
        // A refusal that left no change pending changed no byte of a file.
        ensures files { OnErr result (self.new.unsure ≡ self.old.unsure → KeepsFiles D.Tells D.files self.old.replicas self.new.replicas) }
        // Each replica behind one whose disk failed keeps its files.
        ensures above { (m count : ℕ) → result ≡ Err (LogicalFault.Failed m count) →
            KeepsAbove D.Tells D.files self.old.settings self.old.number m self.old.replicas self.new.replicas }
        ensures stuck { KeepsStuck self.old.replicas self.new.replicas }
        ensures open { IsOpenVolume self.new }
        ensures counts { KeepsCounts D.fault_count D.fuse_count self.old.replicas self.new.replicas }
        ensures same { IsSame self.old self.new }
        ensures after { IfOk result (λ position. HideSeen position (volume_seen self.old) (volume_seen self.new)) }
        ensures refused_seen { IfErr result (DeleteRefusedSeen tag pair (volume_seen self.old) (volume_seen self.new)) }
        ensures sights { OnOk result (DeletesSights pair self.old.settings.replicas (sights_of self.old.rows) (sights_of self.new.rows)) }
        ensures refused_sights { IfErr result (DeleteRefusedSights self.old.settings self.old.number pair self.new.frozen (sights_of self.old.rows) (sights_of self.new.rows)) }
        ensures told { D.Tells → OnOk result (DeletesTold D.files self.old.replicas pair self.old.settings.replicas (sights_of self.old.rows) (sights_of self.new.rows)) }
        ensures refused_told { D.Tells → OnErr result (AreToldBy D.files self.old.replicas pair (sights_of self.old.rows) (sights_of self.new.rows)) }
        ensures damaged { D.Tells → (m place : ℕ) → result ≡ Err (LogicalFault.Damaged m place) →
            IsDamagedLook D.files self.old.settings self.old.number self.old.replicas pair m place (sights_of self.old.rows) }
        // A compaction ended only where its disk's count of faults rose.
        ensures ended { OnOk result (KeepsRuns D.fault_count self.old.replicas self.new.replicas) }
    {
        let erased = self.erase(tag, pair, out)?;
        Ok(self.hide(erased))
    }

    /// Gives the cells of a replica without an index record theirs, and answers how many these were. `ReadOnly` comes
    /// where the volume is frozen, or the replica's index, which `Failed` freezes.
    pub fn flush(&mut self, replica: u32) -> Result<u64, LogicalFault>
        requires within { replica < self.old.settings.replicas }
        requires open { IsOpenVolume self.old }
        ensures flushed { D.Tells → (k : VolumeKnown) → Stands D.files D.Piece.Tells self.old k →
            IfOk result (λ number. IsFlushed D.files D.Piece.Tells k replica number self.new) }
        ensures refused { D.Tells → (k : VolumeKnown) → Stands D.files D.Piece.Tells self.old k →
            IfErr result (FlushRefused D.files D.Piece.Tells k replica self.old self.new) }
        ensures frozen { (m : ℕ) → self.old.frozen ≡ Some m → (result ≡ Err (LogicalFault.ReadOnly m)) × (self.new ≡ self.old) }
        ensures untouched { IfErr result (λ fault. IsUntouchedBy fault → self.new ≡ self.old) }
        ensures stuck_index { self.old.frozen ≡ None → (m : ℕ) → result ≡ Err (LogicalFault.ReadOnly m) →
            (m ≡ machine_of self.old.settings self.old.number replica) × ((r : Copy D) → At self.old.replicas replica r → is_stuck r ≡ true) }
        ensures causes { IfErr result (IsFlushFault D.fault_count self.old.settings self.old.number replica self.old.replicas self.new.replicas) }
        ensures unsure { self.new.unsure ≡ self.old.unsure }
        ensures still { self.new ≡ record self.old { replicas = self.new.replicas } }
        ensures others { (j : ℕ) → (j ≡ replica → ⊥) → (r r' : Copy D) → At self.old.replicas j r → At self.new.replicas j r' → r' ≡ r }
        // The head of the replica stays.
        ensures head_file { D.Tells → (r r' : Copy D) → At self.old.replicas replica r → At self.new.replicas replica r' → KeepsHead D.files r r' }
        ensures loose { OnOk result ((r : Copy D) → At self.new.replicas replica r → is_stuck r ≡ false) }
        ensures tight { D.Tells → (j : ℕ) → IsTightAt D.files self.old j → IsTightAt D.files self.new j }
        ensures open { IsOpenVolume self.new }
        ensures counts { KeepsCounts D.fault_count D.fuse_count self.old.replicas self.new.replicas }
        ensures same { IsSame self.old self.new }
        ensures seen { IfOk result (λ number. FlushSeen replica number (volume_seen self.old) (volume_seen self.new)) }
        ensures refused_seen { IfErr result (FlushRefusedSeen self.old.settings self.old.number replica (volume_seen self.old) (volume_seen self.new)) }
    {
        if let Some(machine) = self.frozen {
            return Err(LogicalFault::ReadOnly { machine });
        }
        let machine = machine_of(&self.settings, self.number, replica);
        match flush_at(self.replicas.as_mut_slice(), replica as usize) {
            Ok(count) => Ok(count),
            Err(fault) => Err(answer_at(machine, fault)),
        }
    }

    /// Begins a compaction of a replica, and answers the generation that it makes. `Busy` comes where one stands, and
    /// `Worn` where the replica's generation is the last one. A refusal leaves what stood.
    pub fn begin(&mut self, alloc: Global, replica: u32) -> Result<u64, LogicalFault>
        requires within { replica < self.old.settings.replicas }
        requires open { IsOpenVolume self.old }
        ensures begun { D.Tells → (k : VolumeKnown) → Stands D.files D.Piece.Tells self.old k →
            IfOk result (λ generation. IsBegun D.files D.Piece.Tells k replica generation self.new) }
        ensures refused { D.Tells → (k : VolumeKnown) → Stands D.files D.Piece.Tells self.old k →
            IfErr result (BeginRefused D.files D.Piece.Tells k replica self.old self.new) }
        ensures frozen { (m : ℕ) → self.old.frozen ≡ Some m → (result ≡ Err (LogicalFault.ReadOnly m)) × (self.new ≡ self.old) }
        ensures thawed { self.old.frozen ≡ None → (m : ℕ) → result ≡ Err (LogicalFault.ReadOnly m) → ⊥ }
        ensures untouched { IfErr result (λ fault. IsUntouchedBy fault → self.new ≡ self.old) }
        ensures causes { IfErr result (IsBeginFault D.fault_count self.old.settings self.old.number replica self.old.replicas self.new.replicas) }
        ensures unsure { self.new.unsure ≡ self.old.unsure }
        ensures still { self.new ≡ record self.old { replicas = self.new.replicas } }
        ensures others { (j : ℕ) → (j ≡ replica → ⊥) → (r r' : Copy D) → At self.old.replicas j r → At self.new.replicas j r' → r' ≡ r }
        // The head of the replica stays.
        ensures head_file { D.Tells → (r r' : Copy D) → At self.old.replicas replica r → At self.new.replicas replica r' → KeepsHead D.files r r' }
        ensures stuck { KeepsStuck self.old.replicas self.new.replicas }
        ensures tight { D.Tells → (k : VolumeKnown) → Stands D.files D.Piece.Tells self.old k → OnOk result (IsTightAt D.files self.new replica) }
        ensures open { IsOpenVolume self.new }
        ensures counts { KeepsCounts D.fault_count D.fuse_count self.old.replicas self.new.replicas }
        ensures same { IsSame self.old self.new }
        ensures seen { IfOk result (λ goal. BeginSeen replica goal (volume_seen self.old) (volume_seen self.new)) }
        ensures refused_seen { IfErr result (BeginRefusedSeen self.old.settings self.old.number replica (volume_seen self.old) (volume_seen self.new)) }
    {
        if let Some(machine) = self.frozen {
            return Err(LogicalFault::ReadOnly { machine });
        }
        let machine = machine_of(&self.settings, self.number, replica);
        match begin_at(self.replicas.as_mut_slice(), replica as usize, alloc) {
            Ok(generation) => Ok(generation),
            Err(fault) => Err(answer_at(machine, fault)),
        }
    }

    /// Examines so many cells of a replica for its compaction, or all that are left, and answers how many these were.
    /// `Idle` comes where none stands. `Failed` and `Damaged` end it, and `NoMemory` leaves it behind some of the cells.
    pub fn step(&mut self, replica: u32, cells: u32) -> Result<u64, LogicalFault>
        requires within { replica < self.old.settings.replicas }
        requires open { IsOpenVolume self.old }
        ensures stepped { D.Tells → (k : VolumeKnown) → Stands D.files D.Piece.Tells self.old k →
            IfOk result (λ number. IsStepped D.files D.Piece.Tells k replica cells number self.new) }
        ensures refused { D.Tells → (k : VolumeKnown) → Stands D.files D.Piece.Tells self.old k →
            IfErr result (StepRefused D.files D.Piece.Tells k replica cells self.old self.new) }
        ensures frozen { (m : ℕ) → self.old.frozen ≡ Some m → (result ≡ Err (LogicalFault.ReadOnly m)) × (self.new ≡ self.old) }
        ensures thawed { self.old.frozen ≡ None → (m : ℕ) → result ≡ Err (LogicalFault.ReadOnly m) → ⊥ }
        ensures untouched { IfErr result (λ fault. IsUntouchedBy fault → self.new ≡ self.old) }
        ensures causes { IfErr result (IsRunFault D.fault_count self.old.settings self.old.number replica self.old.replicas self.new.replicas) }
        ensures unsure { self.new.unsure ≡ self.old.unsure }
        ensures still { self.new ≡ record self.old { replicas = self.new.replicas } }
        ensures others { (j : ℕ) → (j ≡ replica → ⊥) → (r r' : Copy D) → At self.old.replicas j r → At self.new.replicas j r' → r' ≡ r }
        // The head of the replica stays.
        ensures head_file { D.Tells → (r r' : Copy D) → At self.old.replicas replica r → At self.new.replicas replica r' → KeepsHead D.files r r' }
        ensures stuck { KeepsStuck self.old.replicas self.new.replicas }
        // A compaction that was tight stays so, and so does every other one.
        ensures tight { D.Tells → (k : VolumeKnown) → Stands D.files D.Piece.Tells self.old k → (j : ℕ) → IsTightAt D.files self.old j → OnOk result (IsTightAt D.files self.new j) }
        ensures tight_partly { D.Tells → (k : VolumeKnown) → Stands D.files D.Piece.Tells self.old k → (j : ℕ) → IsTightAt D.files self.old j →
            result ≡ Err LogicalFault.NoMemory → IsTightAt D.files self.new j }
        ensures open { IsOpenVolume self.new }
        ensures counts { KeepsCounts D.fault_count D.fuse_count self.old.replicas self.new.replicas }
        ensures same { IsSame self.old self.new }
        ensures seen { IfOk result (λ number. StepSeen replica cells number (volume_seen self.old) (volume_seen self.new)) }
        ensures refused_seen { IfErr result (StepRefusedSeen self.old.settings self.old.number replica cells (volume_seen self.old) (volume_seen self.new)) }
        // Where the disk tells, the heads of the cells that were examined stand one behind another, also where memory was wanting then,
        // each with its needle where it was copied, and no needle is where damage is.
        ensures lead { D.Tells → (r r' : Copy D) → At self.old.replicas replica r → At self.new.replicas replica r' →
            IfOk result (λ number. HeadsLead (sights_of self.old.rows) replica number (next_of r) (next_of r') (volume_bytes D.files r)) }
        ensures part { D.Tells → (r r' : Copy D) → At self.old.replicas replica r → At self.new.replicas replica r' → result ≡ Err LogicalFault.NoMemory →
            HeadsLeadPart (sights_of self.old.rows) replica cells (next_of r) (next_of r') (volume_bytes D.files r) }
        ensures damaged { D.Tells → (m place : ℕ) → result ≡ Err (LogicalFault.Damaged m place)
            → IsDamagedCell D.files self.old.replicas replica (LacksCell (sights_of self.old.rows) replica cells place) }
    {
        if let Some(machine) = self.frozen {
            return Err(LogicalFault::ReadOnly { machine });
        }
        if self.standing(replica).is_none() {
            return Err(LogicalFault::Idle);
        }
        let machine = machine_of(&self.settings, self.number, replica);
        match step_at(
            self.replicas.as_mut_slice(),
            replica as usize,
            &self.rows,
            cells as u64,
        ) {
            Ok(number) => Ok(number),
            Err(fault) => Err(answer_at(machine, fault)),
        }
    }

    /// Examines what is left for a replica's compaction, makes its files the current ones, and then changes the rows. A photo
    /// that is gone stays so, whatever the new files have. Answers them, by whose cells the rows changed. Any refusal but
    /// `ReadOnly` and `Idle` ends the compaction.
    ///
    /// `Failed` freezes the volume where the replica may stand before the swap or behind it.
    pub fn finish_files(&mut self, replica: u32) -> Result<NewFiles<D::Piece>, LogicalFault>
        requires within { replica < self.old.settings.replicas }
        requires open { IsOpenVolume self.old }
        ensures finished { D.Tells → (k : VolumeKnown) → Stands D.files D.Piece.Tells self.old k →
            IfOk result (λ files. IsFinished D.files D.Piece.Tells k replica files.generation self.new) }
        ensures tightened { D.Tells → (k : VolumeKnown) → Stands D.files D.Piece.Tells self.old k → IsTightAt D.files self.old replica →
            OnOk result (IsTightened D.files D.Piece.Tells k replica self.new) }
        ensures rows { IfOk result (λ files. ChangesRows (map_op.Swap replica files.cells) self.old.rows self.new.rows) }
        ensures sizes { D.Tells → IfOk result (λ files. (r : Copy D) → At self.new.replicas replica r → HasSizes D.files r files.end files.count) }
        ensures still { OnOk result ((self.new.front ≡ self.old.front) × (self.new.frozen ≡ self.old.frozen)) }
        ensures removed { D.Tells → (k : VolumeKnown) → Stands D.files D.Piece.Tells self.old k →
            OnOk result (RemovesOld D.files D.fault_count k replica self.old self.new) }
        ensures refused { D.Tells → (k : VolumeKnown) → Stands D.files D.Piece.Tells self.old k →
            IfErr result (FinishRefused D.files D.Piece.Tells k replica self.old self.new) }
        ensures frozen { (m : ℕ) → self.old.frozen ≡ Some m → (result ≡ Err (LogicalFault.ReadOnly m)) × (self.new ≡ self.old) }
        ensures thawed { self.old.frozen ≡ None → (m : ℕ) → result ≡ Err (LogicalFault.ReadOnly m) → ⊥ }
        ensures untouched { IfErr result (λ fault. IsUntouchedBy fault → self.new ≡ self.old) }
        ensures causes { IfErr result (IsRunFault D.fault_count self.old.settings self.old.number replica self.old.replicas self.new.replicas) }
        ensures kept { OnErr result ((pair : Pair) → row_at self.new.rows pair ≡ row_at self.old.rows pair) }
        ensures front { self.new.front ≡ self.old.front }
        ensures unsure { self.new.unsure ≡ self.old.unsure }
        // Every other replica stays, unless the call froze the volume: then its compaction ended, and nothing but that.
        ensures others { self.new.frozen ≡ self.old.frozen → (j : ℕ) → (j ≡ replica → ⊥) → (r r' : Copy D) → At self.old.replicas j r → At self.new.replicas j r' → r' ≡ r }
        ensures beside { (j : ℕ) → (j ≡ replica → ⊥) → (r r' : Copy D) → At self.old.replicas j r → At self.new.replicas j r' → LosesRun D.Tells D.files r r' }
        // Where it was refused, and takes changes still, the head of the replica stays.
        ensures head_file { D.Tells → OnErr result (self.new.frozen ≡ None → (r r' : Copy D) → At self.old.replicas replica r → At self.new.replicas replica r' → KeepsHead D.files r r') }
        ensures loose { OnOk result ((r : Copy D) → At self.new.replicas replica r → is_stuck r ≡ false) }
        ensures stuck { OnErr result (KeepsStuck self.old.replicas self.new.replicas) }
        ensures open { IsOpenVolume self.new }
        ensures counts { KeepsCounts D.fault_count D.fuse_count self.old.replicas self.new.replicas }
        ensures same { IsSame self.old self.new }
        ensures seen { IfOk result (λ files. FinishSeen replica files.generation files.end (volume_seen self.old) (volume_seen self.new)) }
        ensures refused_seen { IfErr result (FinishRefusedSeen self.old.settings self.old.number replica (volume_seen self.old) (volume_seen self.new)) }
        ensures lead { D.Tells → OnOk result ((r : Copy D) → At self.old.replicas replica r → HeadsLeadOn (sights_of self.old.rows) replica (replica_seen r) (volume_bytes D.files r)) }
        ensures froze { D.Tells → self.old.frozen ≡ None → (m : ℕ) → self.new.frozen ≡ Some m → (r : Copy D) → At self.old.replicas replica r →
            HeadsLeadOn (sights_of self.old.rows) replica (replica_seen r) (volume_bytes D.files r) }
        ensures damaged { D.Tells → (m place : ℕ) → result ≡ Err (LogicalFault.Damaged m place)
            → IsDamagedCell D.files self.old.replicas replica (LacksCellLeft (sights_of self.old.rows) replica place) }
        ensures sights { OnOk result (SwapsSights replica (volume_seen self.new).replicas (sights_of self.old.rows) (sights_of self.new.rows)) }
        ensures refused_sights { OnErr result (KeepsSights (sights_of self.old.rows) (sights_of self.new.rows)) }
    {
        if let Some(machine) = self.frozen {
            return Err(LogicalFault::ReadOnly { machine });
        }
        if self.standing(replica).is_none() {
            return Err(LogicalFault::Idle);
        }
        match finish_at(
            self.replicas.as_mut_slice(),
            replica as usize,
            &mut self.rows,
        ) {
            Ok(files) => Ok(files),
            Err(unswapped) => {
                let unfinished = unfinished_by(&self.settings, self.number, replica, unswapped);
                self.frozen = unfinished.frozen;
                Err(unfinished.fault)
            }
        }
    }

    /// Finishes a compaction as `finish_files` does, and answers the new generation.
    pub fn finish(&mut self, replica: u32) -> Result<u64, LogicalFault>
        requires within { replica < self.old.settings.replicas }
        requires open { IsOpenVolume self.old }
        ensures finished { D.Tells → (k : VolumeKnown) → Stands D.files D.Piece.Tells self.old k →
            IfOk result (λ generation. IsFinished D.files D.Piece.Tells k replica generation self.new) }
        ensures tightened { D.Tells → (k : VolumeKnown) → Stands D.files D.Piece.Tells self.old k → IsTightAt D.files self.old replica →
            OnOk result (IsTightened D.files D.Piece.Tells k replica self.new) }
        ensures removed { D.Tells → (k : VolumeKnown) → Stands D.files D.Piece.Tells self.old k →
            OnOk result (RemovesOld D.files D.fault_count k replica self.old self.new) }
        ensures refused { D.Tells → (k : VolumeKnown) → Stands D.files D.Piece.Tells self.old k →
            IfErr result (FinishRefused D.files D.Piece.Tells k replica self.old self.new) }
        ensures frozen { (m : ℕ) → self.old.frozen ≡ Some m → (result ≡ Err (LogicalFault.ReadOnly m)) × (self.new ≡ self.old) }
        ensures thawed { self.old.frozen ≡ None → (m : ℕ) → result ≡ Err (LogicalFault.ReadOnly m) → ⊥ }
        ensures untouched { IfErr result (λ fault. IsUntouchedBy fault → self.new ≡ self.old) }
        ensures still { OnOk result (self.new.frozen ≡ self.old.frozen) }
        ensures causes { IfErr result (IsRunFault D.fault_count self.old.settings self.old.number replica self.old.replicas self.new.replicas) }
        ensures unsure { self.new.unsure ≡ self.old.unsure }
        // Every other replica stays, unless the call froze the volume: then its compaction ended, and nothing but that.
        ensures others { self.new.frozen ≡ self.old.frozen → (j : ℕ) → (j ≡ replica → ⊥) → (r r' : Copy D) → At self.old.replicas j r → At self.new.replicas j r' → r' ≡ r }
        ensures beside { (j : ℕ) → (j ≡ replica → ⊥) → (r r' : Copy D) → At self.old.replicas j r → At self.new.replicas j r' → LosesRun D.Tells D.files r r' }
        // Where it was refused, and takes changes still, the head of the replica stays.
        ensures head_file { D.Tells → OnErr result (self.new.frozen ≡ None → (r r' : Copy D) → At self.old.replicas replica r → At self.new.replicas replica r' → KeepsHead D.files r r') }
        ensures loose { OnOk result ((r : Copy D) → At self.new.replicas replica r → is_stuck r ≡ false) }
        ensures stuck { OnErr result (KeepsStuck self.old.replicas self.new.replicas) }
        ensures open { IsOpenVolume self.new }
        ensures counts { KeepsCounts D.fault_count D.fuse_count self.old.replicas self.new.replicas }
        ensures same { IsSame self.old self.new }
        ensures seen { IfOk result (λ generation. (end : ℕ) × FinishSeen replica generation end (volume_seen self.old) (volume_seen self.new)) }
        ensures refused_seen { IfErr result (FinishRefusedSeen self.old.settings self.old.number replica (volume_seen self.old) (volume_seen self.new)) }
        ensures lead { D.Tells → OnOk result ((r : Copy D) → At self.old.replicas replica r → HeadsLeadOn (sights_of self.old.rows) replica (replica_seen r) (volume_bytes D.files r)) }
        ensures froze { D.Tells → self.old.frozen ≡ None → (m : ℕ) → self.new.frozen ≡ Some m → (r : Copy D) → At self.old.replicas replica r →
            HeadsLeadOn (sights_of self.old.rows) replica (replica_seen r) (volume_bytes D.files r) }
        ensures damaged { D.Tells → (m place : ℕ) → result ≡ Err (LogicalFault.Damaged m place)
            → IsDamagedCell D.files self.old.replicas replica (LacksCellLeft (sights_of self.old.rows) replica place) }
        ensures sights { OnOk result (SwapsSights replica (volume_seen self.new).replicas (sights_of self.old.rows) (sights_of self.new.rows)) }
        ensures refused_sights { OnErr result (KeepsSights (sights_of self.old.rows) (sights_of self.new.rows)) }
    {
        let files = self.finish_files(replica)?;
        Ok(files.generation)
    }

    /// Begins a compaction of a replica and finishes it: its files have just the photos that stand then. A refusal
    /// leaves what one of `begin` or `finish_files` does.
    pub fn compact_files(
        &mut self,
        alloc: Global,
        replica: u32,
    ) -> Result<NewFiles<D::Piece>, LogicalFault>
        requires within { replica < self.old.settings.replicas }
        requires open { IsOpenVolume self.old }
        ensures compacted { D.Tells → (k : VolumeKnown) → Stands D.files D.Piece.Tells self.old k →
            IfOk result (λ files. IsCompacted D.files D.Piece.Tells k replica files.generation self.new) }
        ensures rows { IfOk result (λ files. ChangesRows (map_op.Swap replica files.cells) self.old.rows self.new.rows) }
        ensures sizes { D.Tells → IfOk result (λ files. (r : Copy D) → At self.new.replicas replica r → HasSizes D.files r files.end files.count) }
        ensures still { OnOk result ((self.new.front ≡ self.old.front) × (self.new.frozen ≡ self.old.frozen)) }
        ensures removed { D.Tells → (k : VolumeKnown) → Stands D.files D.Piece.Tells self.old k →
            OnOk result (RemovesOld D.files D.fault_count k replica self.old self.new) }
        ensures refused { D.Tells → (k : VolumeKnown) → Stands D.files D.Piece.Tells self.old k →
            IfErr result (CompactRefused D.files D.Piece.Tells k replica self.old self.new) }
        ensures frozen { (m : ℕ) → self.old.frozen ≡ Some m → (result ≡ Err (LogicalFault.ReadOnly m)) × (self.new ≡ self.old) }
        ensures thawed { self.old.frozen ≡ None → (m : ℕ) → result ≡ Err (LogicalFault.ReadOnly m) → ⊥ }
        ensures untouched { IfErr result (λ fault. IsUntouchedBy fault → self.new ≡ self.old) }
        ensures causes { IfErr result (IsCompactFault D.fault_count self.old.settings self.old.number replica self.old.replicas self.new.replicas) }
        ensures kept { OnErr result ((pair : Pair) → row_at self.new.rows pair ≡ row_at self.old.rows pair) }
        ensures front { self.new.front ≡ self.old.front }
        ensures unsure { self.new.unsure ≡ self.old.unsure }
        // Every other replica stays, unless the call froze the volume: then its compaction ended, and nothing but that.
        ensures others { self.new.frozen ≡ self.old.frozen → (j : ℕ) → (j ≡ replica → ⊥) → (r r' : Copy D) → At self.old.replicas j r → At self.new.replicas j r' → r' ≡ r }
        ensures beside { (j : ℕ) → (j ≡ replica → ⊥) → (r r' : Copy D) → At self.old.replicas j r → At self.new.replicas j r' → LosesRun D.Tells D.files r r' }
        // Where it was refused, and takes changes still, the head of the replica stays.
        ensures head_file { D.Tells → OnErr result (self.new.frozen ≡ None → (r r' : Copy D) → At self.old.replicas replica r → At self.new.replicas replica r' → KeepsHead D.files r r') }
        ensures loose { OnOk result ((r : Copy D) → At self.new.replicas replica r → is_stuck r ≡ false) }
        ensures stuck { OnErr result (KeepsStuck self.old.replicas self.new.replicas) }
        ensures open { IsOpenVolume self.new }
        ensures counts { KeepsCounts D.fault_count D.fuse_count self.old.replicas self.new.replicas }
        ensures same { IsSame self.old self.new }
        ensures seen { IfOk result (λ files. CompactSeen replica files.generation files.end (volume_seen self.old) (volume_seen self.new)) }
        ensures refused_seen { IfErr result (CompactRefusedSeen self.old.settings self.old.number replica (volume_seen self.old) (volume_seen self.new)) }
        ensures lead { D.Tells → OnOk result ((r : Copy D) → At self.old.replicas replica r → HeadsLeadOn (sights_of self.old.rows) replica (begun (replica_seen r)) (volume_bytes D.files r)) }
        ensures froze { D.Tells → self.old.frozen ≡ None → (m : ℕ) → self.new.frozen ≡ Some m → (r : Copy D) → At self.old.replicas replica r →
            HeadsLeadOn (sights_of self.old.rows) replica (begun (replica_seen r)) (volume_bytes D.files r) }
        ensures damaged { D.Tells → (m place : ℕ) → result ≡ Err (LogicalFault.Damaged m place)
            → IsDamagedCell D.files self.old.replicas replica (LacksCellAnew (sights_of self.old.rows) replica place) }
        ensures sights { OnOk result (SwapsSights replica (volume_seen self.new).replicas (sights_of self.old.rows) (sights_of self.new.rows)) }
        ensures refused_sights { OnErr result (KeepsSights (sights_of self.old.rows) (sights_of self.new.rows)) }
    {
        if let Some(machine) = self.frozen {
            return Err(LogicalFault::ReadOnly { machine });
        }
        match compact_at(
            self.replicas.as_mut_slice(),
            replica as usize,
            &mut self.rows,
            alloc,
        ) {
            Ok(files) => Ok(files),
            Err(unswapped) => {
                let unfinished = unfinished_by(&self.settings, self.number, replica, unswapped);
                self.frozen = unfinished.frozen;
                Err(unfinished.fault)
            }
        }
    }

    /// Compacts a replica as `compact_files` does, and answers the new generation.
    pub fn compact(&mut self, alloc: Global, replica: u32) -> Result<u64, LogicalFault>
        requires within { replica < self.old.settings.replicas }
        requires open { IsOpenVolume self.old }
        ensures compacted { D.Tells → (k : VolumeKnown) → Stands D.files D.Piece.Tells self.old k →
            IfOk result (λ generation. IsCompacted D.files D.Piece.Tells k replica generation self.new) }
        ensures removed { D.Tells → (k : VolumeKnown) → Stands D.files D.Piece.Tells self.old k →
            OnOk result (RemovesOld D.files D.fault_count k replica self.old self.new) }
        ensures refused { D.Tells → (k : VolumeKnown) → Stands D.files D.Piece.Tells self.old k →
            IfErr result (CompactRefused D.files D.Piece.Tells k replica self.old self.new) }
        ensures frozen { (m : ℕ) → self.old.frozen ≡ Some m → (result ≡ Err (LogicalFault.ReadOnly m)) × (self.new ≡ self.old) }
        ensures thawed { self.old.frozen ≡ None → (m : ℕ) → result ≡ Err (LogicalFault.ReadOnly m) → ⊥ }
        ensures untouched { IfErr result (λ fault. IsUntouchedBy fault → self.new ≡ self.old) }
        ensures still { OnOk result (self.new.frozen ≡ self.old.frozen) }
        ensures causes { IfErr result (IsCompactFault D.fault_count self.old.settings self.old.number replica self.old.replicas self.new.replicas) }
        ensures unsure { self.new.unsure ≡ self.old.unsure }
        // Every other replica stays, unless the call froze the volume: then its compaction ended, and nothing but that.
        ensures others { self.new.frozen ≡ self.old.frozen → (j : ℕ) → (j ≡ replica → ⊥) → (r r' : Copy D) → At self.old.replicas j r → At self.new.replicas j r' → r' ≡ r }
        ensures beside { (j : ℕ) → (j ≡ replica → ⊥) → (r r' : Copy D) → At self.old.replicas j r → At self.new.replicas j r' → LosesRun D.Tells D.files r r' }
        // Where it was refused, and takes changes still, the head of the replica stays.
        ensures head_file { D.Tells → OnErr result (self.new.frozen ≡ None → (r r' : Copy D) → At self.old.replicas replica r → At self.new.replicas replica r' → KeepsHead D.files r r') }
        ensures loose { OnOk result ((r : Copy D) → At self.new.replicas replica r → is_stuck r ≡ false) }
        ensures stuck { OnErr result (KeepsStuck self.old.replicas self.new.replicas) }
        ensures open { IsOpenVolume self.new }
        ensures counts { KeepsCounts D.fault_count D.fuse_count self.old.replicas self.new.replicas }
        ensures same { IsSame self.old self.new }
        ensures seen { IfOk result (λ generation. (end : ℕ) × CompactSeen replica generation end (volume_seen self.old) (volume_seen self.new)) }
        ensures refused_seen { IfErr result (CompactRefusedSeen self.old.settings self.old.number replica (volume_seen self.old) (volume_seen self.new)) }
        ensures lead { D.Tells → OnOk result ((r : Copy D) → At self.old.replicas replica r → HeadsLeadOn (sights_of self.old.rows) replica (begun (replica_seen r)) (volume_bytes D.files r)) }
        ensures froze { D.Tells → self.old.frozen ≡ None → (m : ℕ) → self.new.frozen ≡ Some m → (r : Copy D) → At self.old.replicas replica r →
            HeadsLeadOn (sights_of self.old.rows) replica (begun (replica_seen r)) (volume_bytes D.files r) }
        ensures damaged { D.Tells → (m place : ℕ) → result ≡ Err (LogicalFault.Damaged m place)
            → IsDamagedCell D.files self.old.replicas replica (LacksCellAnew (sights_of self.old.rows) replica place) }
        ensures sights { OnOk result (SwapsSights replica (volume_seen self.new).replicas (sights_of self.old.rows) (sights_of self.new.rows)) }
        ensures refused_sights { OnErr result (KeepsSights (sights_of self.old.rows) (sights_of self.new.rows)) }
    {
        let files = self.compact_files(alloc, replica)?;
        Ok(files.generation)
    }

    /// Ends the compaction that stands at a replica, if one does.
    pub fn end_run(&mut self, replica: u32)
        requires within { replica < self.old.settings.replicas }
        requires open { IsOpenVolume self.old }
        ensures stands { D.Tells → (k : VolumeKnown) → Stands D.files D.Piece.Tells self.old k → Stands D.files D.Piece.Tells self.new (change_at k replica without_run) }
        ensures still { self.new ≡ record self.old { replicas = self.new.replicas } }
        ensures ended { (r : Copy D) → At self.new.replicas replica r → goal_of r ≡ None }
        ensures others { (j : ℕ) → (j ≡ replica → ⊥) → (r r' : Copy D) → At self.old.replicas j r → At self.new.replicas j r' → r' ≡ r }
        ensures open { IsOpenVolume self.new }
        ensures counts { KeepsCounts D.fault_count D.fuse_count self.old.replicas self.new.replicas }
        ensures same { IsSame self.old self.new }
        ensures seen { ChangesAt replica IsEnded (volume_seen self.old) (volume_seen self.new) }
    {
        drop_run_at(self.replicas.as_mut_slice(), replica as usize);
    }

    /// The generation that a compaction of a replica makes, if one stands.
    pub fn standing(&self, replica: u32) -> Option<u64>
        requires { replica < length self.now.replicas }
        ensures is { (r : Copy D) → At self.now.replicas replica r → result ≡ goal_of r }
        ensures known { D.Tells → (k : VolumeKnown) → Stands D.files D.Piece.Tells self.now k →
            result ≡ option_map (λ run. run.goal) (replica_at k replica).run }
        ensures most { IfSome result (λ goal. goal ≤ LAST_GENERATION) }
        ensures next { IfSome result (λ goal. (r : Copy D) → At self.now.replicas replica r → goal ≡ generation_of r + 1) }
    {
        self.replicas.as_slice()[replica as usize].standing()
    }

    /// The machine by which the volume is frozen.
    pub fn frozen(&self) -> Option<u32>
        ensures is { result ≡ self.now.frozen }
        ensures on { IfSome result (IsMachineOf self.now.settings self.now.number) }
        ensures settled { IfNone result (self.now.unsure ≡ None) }
        ensures known { D.Tells → (k : VolumeKnown) → Stands D.files D.Piece.Tells self.now k → result ≡ k.frozen }
    {
        self.frozen
    }

    /// How many changes were made since the opening.
    pub fn front(&self) -> u64
        ensures is { result ≡ self.now.front }
        ensures known { D.Tells → (k : VolumeKnown) → Stands D.files D.Piece.Tells self.now k → result ≡ length k.log }
        // Each replica has the superblock of its place.
        ensures sups { HasSupers self.now }
    {
        self.front
    }

    /// How many calls of a replica's disk have failed.
    pub fn faults(&self, replica: u32) -> u64
        requires { replica < length self.now.replicas }
        ensures { (r : Copy D) → At self.now.replicas replica r → result ≡ D.fault_count r.disk }
    {
        self.replicas.as_slice()[replica as usize].faults()
    }

    /// Sets a fuse on a replica's disk.
    pub fn fuse(&mut self, replica: u32, calls: u32)
        requires { replica < length self.old.replicas }
        ensures stands { D.Tells → (k : VolumeKnown) → Stands D.files D.Piece.Tells self.old k → Stands D.files D.Piece.Tells self.new k }
        ensures open { IsOpenVolume self.old → IsOpenVolume self.new }
        ensures fused { (r r' : Copy D) → At self.old.replicas replica r → At self.new.replicas replica r' →
            IsNext (D.fuse_count r.disk) (D.fuse_count r'.disk) × (D.fault_count r'.disk ≡ D.fault_count r.disk) }
        ensures files { D.Tells → (r r' : Copy D) → At self.old.replicas replica r → At self.new.replicas replica r' → D.files r'.disk ≡ D.files r.disk }
        ensures tight { D.Tells → (j : ℕ) → IsTightAt D.files self.old j → IsTightAt D.files self.new j }
        ensures others { (j : ℕ) → (j ≡ replica → ⊥) → (r r' : Copy D) → At self.old.replicas j r → At self.new.replicas j r' → r' ≡ r }
        ensures count { length self.new.replicas ≡ length self.old.replicas }
        ensures still { self.new ≡ record self.old { replicas = self.new.replicas } }
        ensures unsure { self.new.unsure ≡ self.old.unsure }
        ensures same { IsSame self.old self.new }
        ensures unchanged { volume_seen self.new ≡ volume_seen self.old }
    {
        fuse_at(self.replicas.as_mut_slice(), replica as usize, calls);
    }

    /// Stops each disk. `pick` chooses what that leaves.
    pub fn stop(&mut self, pick: u64)
        ensures stopped { D.Tells → (k : VolumeKnown) → Stands D.files D.Piece.Tells self.old k → Stopped D.files self.new k }
        ensures closed { IsClosed self.new }
        ensures idle { D.Tells → IsIdleVolume D.files self.new }
        ensures all { length self.new.replicas ≡ length self.old.replicas }
        ensures counts { (j : ℕ) (r r' : Copy D) → At self.old.replicas j r → At self.new.replicas j r' →
            (D.fault_count r'.disk ≡ D.fault_count r.disk) × (D.fuse_count r'.disk ≡ D.fuse_count r.disk) }
        ensures drawn { D.Tells → (j : ℕ) (r : Copy D) → At self.new.replicas j r → HasDrawnNothing D.drawn r }
        ensures unsure { self.new.unsure ≡ self.old.unsure }
        ensures same { IsSame self.old self.new }
    {
        stop_each(self.replicas.as_mut_slice(), pick);
    }

    /// Gives back the disk of the last replica that is there.
    pub fn take(&mut self) -> Option<D>
        ensures disk { IfSome result (λ disk. (r : Copy D) × (self.old.replicas ≡ self.new.replicas ++ r ∷ []) × (disk ≡ r.disk)) }
        ensures none { IfNone result (self.old.replicas ≡ []) }
        ensures same { IsSame self.old self.new }
    {
        let replica = self.replicas.pop()?;
        Some(replica.into_disk())
    }
}

// Gives a pair a row, for which there is room.
fn give_row<D: Disk>(rows: &mut MapView<D::Piece>, pair: Pair, row: Row<D::Piece>)
    requires room { HasRoom rows.old }
    requires long { length row ≡ rows.old.replicas }
    ensures { ChangesRows (map_op.Put pair row) rows.old rows.new }
{
    if rows.put(pair, &row).is_err() {
        unreachable!();
    }
}
