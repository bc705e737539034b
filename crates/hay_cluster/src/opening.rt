//! How a store is opened, restarted and closed.
ghost use Rattle.std.specs.Prelude.{◌≡◌, ◌⊎◌, ◌++◌, [], ◌≤◌, ◌<◌, ◌+◌, ◌*◌, ℕ, List, None, length, map, reverse, slice_get, slice_index, Err, IfOk, OnOk, OnErr, IfErr};
ghost use Rattle.std.specs.List.{AllByRecursion, AllZip};
ghost use Rattle.std.specs.Vec.{vec_capacity};
ghost use Rattle.hay_disk.specs.Counts.{Rose};
ghost use Rattle.hay_mount.specs.Mounts.{AreIn, AreOut, AreArmsIn, AreArmsOut, InOrder, IsArmBack, IsMountedArm, IsMountedDisk, IsPutBack, SameFrom};
ghost use Rattle.hay_reply.specs.Fits.{FitsNote};
ghost use Rattle.hay_legal.specs.declared.known.Known.{Known};
ghost use Rattle.hay_legal.specs.Known.{NoneFalls, FaultsRose, disk_count};
ghost use Rattle.hay_legal.specs.Known as known;
ghost use Rattle.hay_legal.specs.Restarts.{IsRestarted};
ghost use Rattle.hay_legal.specs.Statuses.{HoldsNew};
ghost use Rattle.hay_directory.specs.Rows.{OpensRows};
ghost use Rattle.hay_directory.specs.State as directory;
ghost use Rattle.hay_logical.specs.Fits.{IsReplica};
ghost use Rattle.hay_logical.specs.Stands.{IsIdleVolume};
ghost use Rattle.hay_logical.specs.Volumes.{IsClosed};
ghost use Rattle.hay_cluster.specs.Causes.{HasFaultCause, HasFile};
ghost use Rattle.hay_cluster.specs.Draws.{DrawsVolume, EachDrewLittle, FlushedDrewLittle, StopsDrawing, drawn_in, looked_in, no_look, none_drawn};
ghost use Rattle.hay_cluster.specs.Outside.{AreSoundBelow, CountsOn, FormatsVoid, IsDamagedDisk, IsKept, IsUndamaged, IsUndamagedBelow, IsVoid, KeepsContents, outside_of, read_of};
ghost use Rattle.hay_cluster.specs.Opening.{FillsVolume, Gathers, IsResting, IsEmptyVolume, LeavesDirectory, LeavesVolume, OpensDirectory, OpensParts, OpensVolume};
ghost use Rattle.hay_cluster.specs.Opening.{RefusesDirectory, RefusesParts, RefusesVolume, RefusesVolumes, StopsDirectory, StopsVolume};
ghost use Rattle.hay_cluster.specs.Needles.{PendingTold, PhotosStand};
ghost use Rattle.hay_cluster.specs.Seen.{OpensSeen, ReadsEach, ReadsSeen, TellsSeen, store_seen};
ghost use Rattle.hay_cluster.specs.State.{LeftAt, Stands};
ghost use Rattle.hay_cluster.specs.Store.{IsBuilt, IsShaped, IsUp, IsVolumeOf, contents_in, disks_of};

use crate::cluster::Cluster;
use crate::fault::{ClusterFault, no_directory, not_mounted, not_opened};
use hay_base::{Listed, NoMemory};
use hay_directory::Directory;
use hay_disk::{Arm, Disk, Shelf};
use hay_logical::{Logical, Unopened};
use hay_mount::{Mounted, mount, unmount};
use hay_needle::Settings;
use hay_reader::LaneSeat;
use hay_reply::Note;
use std::alloc::Global;

impl<D: Disk, A: Arm<D::Piece>> Cluster<D, A> {
    /// Opens a store on the disks of a shelf, from slot 0 upwards: void disks are formatted, and any others must be of
    /// these settings. A refusal gives the disks and arms back.
    pub fn open<H: Shelf<Disk = D, Arm = A>>(
        alloc: Global,
        settings: Settings,
        shelf: &mut H,
    ) -> Result<Cluster<D, A>, ClusterFault>
        requires built { IsBuilt settings }
        requires disks_in { AreIn (disk_count settings) (H.disks shelf.old) }
        requires arms_in { AreArmsIn 8 (H.arms shelf.old) }

        // The store stands for what the disks have, where they have it wholly, but for disks' counts that rose.
        ensures opened { D.Tells → (k : Known) →
            HoldsNew (IsReplica settings) (OpensRows settings) settings (outside_of (H.fault_count shelf.old) (H.disks shelf.old) (H.arms shelf.old)) k →
            IfOk result (λ store. (t : Known) × FaultsRose k t × Stands D.files D.Piece.Tells D.fault_count D.fuse_count A.fault_count store t) }
        // Nothing that it read of a disk is damaged.
        ensures sound { D.Tells → OnOk result (IsUndamaged settings (λ slot. read_of (H.disks shelf.old slot))) }
        // Nothing that a disk had is changed but where it was void: whether the store was opened or not.
        ensures contents { D.Tells → IfOk result (λ store. KeepsContents settings (λ slot. read_of (H.disks shelf.old slot)) (contents_in D.files store)) }
        ensures formatted { D.Tells → IfOk result (λ store. FormatsVoid settings (λ slot. read_of (H.disks shelf.old slot)) (contents_in D.files store)) }
        ensures contents_back { D.Tells → OnErr result (KeepsContents settings (λ slot. read_of (H.disks shelf.old slot)) (λ slot. read_of (H.disks shelf.new slot))) }
        // Of each volume file it read little more than the needles that have no record: of one whose needles all have theirs,
        // the superblock, the head of the last needle and the end mark.
        ensures drew { D.Tells → IfOk result (λ store.
            EachDrewLittle settings (contents_in D.files store) no_look (λ slot. (H.disks shelf.old slot).drawn) (drawn_in D.drawn store)) }
        ensures flushed { D.Tells → (k : Known) →
            HoldsNew (IsReplica settings) (OpensRows settings) settings (outside_of (H.fault_count shelf.old) (H.disks shelf.old) (H.arms shelf.old)) k →
            IfOk result (λ store. FlushedDrewLittle settings k (λ slot. (H.disks shelf.old slot).drawn) (drawn_in D.drawn store)) }
        ensures settings { IfOk result (λ store. store.settings ≡ settings) }
        ensures up { IfOk result IsUp }
        ensures opens { IfOk result (λ store. OpensSeen settings (store_seen store)) }
        // So each disk is found that is void or whole, and the rows of the Directory's one.
        ensures reads { D.Tells → IfOk result (λ store. ReadsSeen settings (λ slot. read_of (H.disks shelf.old slot)) (store_seen store)) }
        // Each disk is found as its files say, whatever else it has.
        ensures reads_each { D.Tells → IfOk result (λ store. ReadsEach settings (contents_in D.files store) (store_seen store)) }
        // On any disk each place that is a photo's has its needle.
        ensures live { D.Tells → IfOk result (λ store. PhotosStand settings (contents_in D.files store) (store_seen store)) }
        ensures counts { IfOk result (λ store. (slot : ℕ) → slot < disk_count settings →
            CountsOn (H.disks shelf.old slot) (slice_index (map D.fault_count (disks_of store)) slot) (slice_index (map D.fuse_count (disks_of store)) slot)) }
        ensures arm_counts { IfOk result (λ store. (lane : ℕ) → lane < 8 →
            slice_index (map A.fault_count store.arms) lane ≡ (H.arms shelf.old lane).fault_count) }
        ensures sure_arms { IfOk result (λ store. (lane : ℕ) (arm : A) → slice_get store.arms lane ≡ Some arm → A.is_sure arm ≡ (H.arms shelf.old lane).is_sure) }
        ensures disks { IfOk result (λ store. length (disks_of store) ≡ disk_count settings) }
        ensures lanes { IfOk result (λ store. length store.arms ≡ 8) }
        ensures disks_out { OnOk result (AreOut (disk_count settings) (H.disks shelf.new)) }
        ensures arms_out { OnOk result (AreArmsOut 8 (H.arms shelf.new)) }

        // What a refusal leaves, and its cause.
        ensures kept { D.Tells → OnErr result ((slot : ℕ) → slot < disk_count settings → IsKept slot (H.disks shelf.old slot) (H.disks shelf.new slot)) }
        ensures disks_back { OnErr result (AreIn (disk_count settings) (H.disks shelf.new)) }
        ensures arms_back { OnErr result (AreArmsIn 8 (H.arms shelf.new)) }
        ensures back_counts { OnErr result ((slot : ℕ) → slot < disk_count settings →
            CountsOn (H.disks shelf.old slot) (H.disks shelf.new slot).fault_count (H.disks shelf.new slot).fuse_count) }
        ensures back_arms { OnErr result ((lane : ℕ) → lane < 8 → IsArmBack (H.arms shelf.old lane) (H.arms shelf.new lane)) }
        ensures shelf { IfErr result (λ fault. (faults : ℕ) → fault ≡ ClusterFault.Shelf faults →
            Rose (H.fault_count shelf.old) (H.fault_count shelf.new) × (faults ≡ H.fault_count shelf.new)) }
        ensures failed { IfErr result (λ fault. (slot faults : ℕ) → fault ≡ ClusterFault.Failed slot faults → (slot < disk_count settings)
            × Rose (H.disks shelf.old slot).fault_count (H.disks shelf.new slot).fault_count × (faults ≡ (H.disks shelf.new slot).fault_count)) }
        ensures failed_lowest { D.Tells → (slot faults : ℕ) → result ≡ Err (ClusterFault.Failed slot faults) →
            IsUndamagedBelow settings slot (λ slot. read_of (H.disks shelf.old slot)) }
        // So it is as given back, and no disk in a lower slot is void then: the one that is told of is the first that was not opened.
        ensures failed_first { D.Tells → (slot faults : ℕ) → result ≡ Err (ClusterFault.Failed slot faults) →
            AreSoundBelow settings slot (λ slot. read_of (H.disks shelf.new slot)) }
        ensures damaged_first { D.Tells → (slot file at : ℕ) → result ≡ Err (ClusterFault.Damaged slot file at) →
            AreSoundBelow settings slot (λ slot. read_of (H.disks shelf.new slot)) }
        ensures damaged_within { (slot file at : ℕ) → result ≡ Err (ClusterFault.Damaged slot file at) → HasFile settings slot file }
        ensures damaged { D.Tells → (slot file at : ℕ) → result ≡ Err (ClusterFault.Damaged slot file at) →
            IsDamagedDisk settings (λ slot. read_of (H.disks shelf.old slot)) slot file at × IsDamagedDisk settings (λ slot. read_of (H.disks shelf.new slot)) slot file at }

        ensures other_slots { SameFrom (disk_count settings) (H.disks shelf.old) (H.disks shelf.new) }
        ensures other_lanes { SameFrom 8 (H.arms shelf.old) (H.arms shelf.new) }
        ensures counted { H.fault_count shelf.old ≤ H.fault_count shelf.new }
    {
        let volumes = empty_volumes(alloc, &settings)?;
        let (disks, seats) = take_parts(alloc, shelf, disk_count(&settings))?;
        let mut cluster = assemble(alloc, settings, volumes, disks, seats);
        match cluster.open_parts(alloc) {
            Ok(_notes) => Ok(cluster),
            Err(fault) => {
                cluster.close(shelf);
                Err(fault)
            }
        }
    }

    /// Cuts the disks' power, and opens what is left, from slot 0 upwards; `pick` chooses what that is. The answer tells
    /// what became of each change that had failed, volume by volume, and then of a row. A refusal leaves a store that is
    /// down, and that can only be closed.
    pub fn restart(&mut self, alloc: Global, pick: u64) -> Result<Listed<Note>, ClusterFault>
        requires up { IsUp self.old }
        ensures reopened { D.Tells → (k : Known) →
            Stands D.files D.Piece.Tells D.fault_count D.fuse_count A.fault_count self.old k → IfOk result (λ notes. (t : Known)
            × IsRestarted self.new.settings k self.new.directory.count notes t
            × Stands D.files D.Piece.Tells D.fault_count D.fuse_count A.fault_count self.new t) }
        // Whatever the disks tell, the notes are of what was pending, and nothing is then.
        ensures tells { IfOk result (TellsSeen self.old.settings (store_seen self.old) (store_seen self.new)) }
        ensures fits { IfOk result (AllByRecursion FitsNote) }
        ensures opens { OnOk result (OpensSeen self.old.settings (store_seen self.new)) }
        // A place of a deletion that was pending is not left not looked at where a needle of its size stands.
        ensures told { D.Tells → OnOk result (PendingTold self.old.settings (contents_in D.files self.new) (store_seen self.old) (store_seen self.new)) }
        // Each disk is found as what it has then, as at a first opening.
        ensures reads { D.Tells → OnOk result (ReadsSeen self.old.settings (contents_in D.files self.new) (store_seen self.new)) }
        ensures reads_each { D.Tells → OnOk result (ReadsEach self.old.settings (contents_in D.files self.new) (store_seen self.new)) }
        ensures live { D.Tells → OnOk result (PhotosStand self.old.settings (contents_in D.files self.new) (store_seen self.new)) }
        ensures up { OnOk result (IsUp self.new) }
        // Nothing that it read of a disk is damaged.
        ensures sound { D.Tells → OnOk result (IsUndamaged self.old.settings (contents_in D.files self.new)) }
        // Of each volume file it read little more than the needles that have no record, and the needle of a photo whose delete
        // was broken off.
        ensures drew { D.Tells → OnOk result (EachDrewLittle self.old.settings (contents_in D.files self.new) (looked_in self.old) none_drawn (drawn_in D.drawn self.new)) }

        // What a refusal leaves, and its cause.
        ensures left { D.Tells → (k : Known) →
            Stands D.files D.Piece.Tells D.fault_count D.fuse_count A.fault_count self.old k →
            OnErr result (LeftAt D.files D.fault_count D.fuse_count A.fault_count k self.new) }
        ensures cause { IfErr result (HasFaultCause self.old.settings (map D.fault_count (disks_of self.old)) (map D.fault_count (disks_of self.new))) }
        // No disk is void then.
        ensures formatted { D.Tells → (k : Known) →
            Stands D.files D.Piece.Tells D.fault_count D.fuse_count A.fault_count self.old k →
            OnErr result ((slot : ℕ) → slot < disk_count self.new.settings → IsVoid (contents_in D.files self.new slot) → ⊥) }
        ensures whole { D.Tells → (k : Known) →
            Stands D.files D.Piece.Tells D.fault_count D.fuse_count A.fault_count self.old k →
            (slot file at : ℕ) → result ≡ Err (ClusterFault.Damaged slot file at) → ⊥ }
        ensures damaged { D.Tells → (slot file at : ℕ) → result ≡ Err (ClusterFault.Damaged slot file at) →
            IsDamagedDisk self.old.settings (contents_in D.files self.new) slot file at }
        // The disk that is told of is the first that was not opened.
        ensures failed_first { D.Tells → (slot faults : ℕ) → result ≡ Err (ClusterFault.Failed slot faults) →
            AreSoundBelow self.old.settings slot (contents_in D.files self.new) }
        ensures damaged_first { D.Tells → (slot file at : ℕ) → result ≡ Err (ClusterFault.Damaged slot file at) →
            AreSoundBelow self.old.settings slot (contents_in D.files self.new) }

        ensures counts { NoneFalls (map D.fault_count (disks_of self.old)) (map D.fault_count (disks_of self.new)) }
        ensures fuses { map D.fuse_count (disks_of self.new) ≡ map D.fuse_count (disks_of self.old) }
        ensures arms { self.new.arms ≡ self.old.arms }
        ensures settings { self.new.settings ≡ self.old.settings }
    {
        self.stop(pick);
        self.open_parts(alloc)
    }

    // Stops all disks, and starts them again.
    fn stop(&mut self, pick: u64)
        ensures directory { StopsDirectory D.Tells D.files D.fault_count D.fuse_count self.old.directory self.new.directory }
        ensures volumes { AllZip (StopsVolume D.Tells D.files D.Piece.Tells D.fault_count D.fuse_count) self.old.volumes self.new.volumes }
        ensures drawn { D.Tells → AllZip (StopsDrawing D.drawn) self.old.volumes self.new.volumes }
        ensures arms { self.new.arms ≡ self.old.arms }
        ensures settings { self.new.settings ≡ self.old.settings }
        ensures shape { IsShaped self.new }
    {
        self.directory.stop(pick);
        stop_volumes(self.volumes.as_mut_slice(), pick);
    }

    // Opens the Directory and then each volume, and answers the notes of the volumes and then of the Directory.
    fn open_parts(&mut self, alloc: Global) -> Result<Listed<Note>, ClusterFault>
        requires directory { IsResting D.Tells D.files self.old.directory }
        requires closed { AllByRecursion IsClosed self.old.volumes }
        requires idle { D.Tells → AllByRecursion (IsIdleVolume D.files) self.old.volumes }
        ensures opened { IfOk result (OpensParts D.Tells D.files D.Piece.Tells D.fault_count D.fuse_count self.old.directory self.new.directory self.old.volumes self.new.volumes) }
        ensures drew { D.Tells → OnOk result (AllZip (DrawsVolume D.files D.drawn) self.old.volumes self.new.volumes) }
        ensures refused { IfErr result (RefusesParts D.Tells D.files D.fault_count self.old.settings self.old.directory self.new.directory self.old.volumes self.new.volumes) }
        ensures directory { LeavesDirectory D.Tells D.files D.fault_count D.fuse_count self.old.directory self.new.directory }
        ensures volumes { AllZip (LeavesVolume D.Tells D.files D.Piece.Tells D.fault_count D.fuse_count) self.old.volumes self.new.volumes }
        ensures arms { self.new.arms ≡ self.old.arms }
        ensures settings { self.new.settings ≡ self.old.settings }
        ensures shape { IsShaped self.new }
    {
        let settings = self.settings;
        let row_notes = open_directory(alloc, &mut self.directory)?;
        let mut notes = open_volumes(alloc, &settings, self.volumes.as_mut_slice())?;
        notes.append(&mut row_notes.into_vec())?;
        Ok(Listed::from_vec(notes))
    }
}

// Takes the disks of the first slots, so many, and the arms of the lanes, each with its seat. A refusal leaves none of
// them out.
fn take_parts<H: Shelf>(
    alloc: Global,
    shelf: &mut H,
    slots: u32,
) -> Result<(Vec<H::Disk>, Vec<LaneSeat<H::Arm>>), ClusterFault>
    requires disks_in { AreIn slots (H.disks shelf.old) }
    requires arms_in { AreArmsIn 8 (H.arms shelf.old) }
    ensures disks { IfOk result (λ parts. InOrder (λ slot disk. IsMountedDisk H.Disk.Tells H.Disk.files H.Disk.drawn H.Disk.fault_count H.Disk.fuse_count (H.disks shelf.old slot)
        disk) 0 parts.0.items) }
    ensures arms { IfOk result (λ parts. InOrder (λ lane arm. IsMountedArm H.Arm.fault_count H.Arm.is_sure (H.arms shelf.old lane) arm) 0 parts.1.items) }
    ensures disk_count { IfOk result (λ parts. length parts.0.items ≡ slots) }
    ensures arm_count { IfOk result (λ parts. length parts.1.items ≡ 8) }
    ensures disks_out { OnOk result (AreOut slots (H.disks shelf.new)) }
    ensures arms_out { OnOk result (AreArmsOut 8 (H.arms shelf.new)) }

    // What a refusal leaves, and its cause.
    ensures put_back { OnErr result ((slot : ℕ) → slot < slots → IsPutBack H.Disk.Tells (H.disks shelf.old slot) (H.disks shelf.new slot)) }
    ensures arms_back { OnErr result ((lane : ℕ) → lane < 8 → IsArmBack (H.arms shelf.old lane) (H.arms shelf.new lane)) }
    ensures cause { IfErr result (λ fault. (fault ≡ ClusterFault.NoMemory) ⊎ ((faults : ℕ) × (fault ≡ ClusterFault.Shelf faults)
        × Rose (H.fault_count shelf.old) (H.fault_count shelf.new) × (faults ≡ H.fault_count shelf.new))) }

    ensures other_slots { SameFrom slots (H.disks shelf.old) (H.disks shelf.new) }
    ensures other_lanes { SameFrom 8 (H.arms shelf.old) (H.arms shelf.new) }
    ensures counted { H.fault_count shelf.old ≤ H.fault_count shelf.new }
{
    let Mounted { disks, arms } = match mount(alloc, shelf, slots) {
        Ok(mounted) => mounted,
        Err(fault) => return Err(not_mounted(fault)),
    };
    match seats_of(alloc, arms) {
        Ok(seats) => Ok((disks, seats)),
        Err(arms) => {
            unmount(shelf, Mounted { disks, arms });
            Err(ClusterFault::NoMemory)
        }
    }
}

// Opens the Directory.
fn open_directory<D: Disk>(
    alloc: Global,
    directory: &mut Directory<D>,
) -> Result<Listed<Note>, ClusterFault>
    requires { IsResting D.Tells D.files directory.old }
    ensures opened { IfOk result (OpensDirectory D.Tells D.files directory.old directory.new) }
    ensures refused { IfErr result (RefusesDirectory D.Tells D.files D.fault_count directory.old directory.new) }
    ensures moves { LeavesDirectory D.Tells D.files D.fault_count D.fuse_count directory.old directory.new }
{
    match directory.open_rows(alloc) {
        Ok(opened) => Ok(opened.notes),
        Err(fault) => Err(no_directory(fault)),
    }
}

// Opens each volume, and answers their notes.
fn open_volumes<D: Disk>(
    alloc: Global,
    settings: &Settings,
    volumes: &mut [Logical<D>],
) -> Result<Vec<Note>, ClusterFault>
    requires built { IsBuilt settings.now }
    requires many { length volumes.old ≡ settings.now.volumes }
    requires numbers { InOrder (IsVolumeOf settings.now) 0 volumes.old }
    requires closed { AllByRecursion IsClosed volumes.old }
    requires idle { D.Tells → AllByRecursion (IsIdleVolume D.files) volumes.old }
    ensures opened { IfOk result (λ notes. Gathers (OpensVolume D.Tells D.files D.Piece.Tells D.fault_count D.fuse_count) volumes.old volumes.new notes.items) }
    ensures drew { D.Tells → OnOk result (AllZip (DrawsVolume D.files D.drawn) volumes.old volumes.new) }
    ensures refused { IfErr result (RefusesVolumes D.Tells D.files D.fault_count settings.now volumes.old volumes.new) }
    ensures moves { AllZip (LeavesVolume D.Tells D.files D.Piece.Tells D.fault_count D.fuse_count) volumes.old volumes.new }
{
    let mut notes = Vec::new(alloc);
    for (number, volume) in volumes.iter_mut().enumerate() {
        open_volume(alloc, settings, volume, number as u32, &mut notes)?;
    }
    Ok(notes)
}

// Opens a volume, and adds its notes.
fn open_volume<D: Disk>(
    alloc: Global,
    settings: &Settings,
    volume: &mut Logical<D>,
    number: u32,
    notes: &mut Vec<Note>,
) -> Result<(), ClusterFault>
    requires built { IsBuilt settings.now }
    requires within { number < settings.now.volumes }
    requires is { IsVolumeOf settings.now number volume.old }
    requires closed { IsClosed volume.old }
    requires idle { D.Tells → IsIdleVolume D.files volume.old }
    ensures opened { OnOk result ((more : List Note) × (notes.new.items ≡ notes.old.items ++ more)
        × OpensVolume D.Tells D.files D.Piece.Tells D.fault_count D.fuse_count volume.old volume.new more) }
    ensures drew { D.Tells → OnOk result (DrawsVolume D.files D.drawn volume.old volume.new) }
    ensures refused { IfErr result (RefusesVolume D.Tells D.files D.fault_count settings.now number volume.old volume.new) }
    ensures moves { LeavesVolume D.Tells D.files D.Piece.Tells D.fault_count D.fuse_count volume.old volume.new }
{
    match volume.open(alloc) {
        Ok(more) => {
            notes.append(&mut more.into_vec())?;
            Ok(())
        }
        Err(Unopened { replica, fault }) => {
            Err(not_opened(slot_of(settings, number, replica), fault))
        }
    }
}

// Stops each volume.
fn stop_volumes<D: Disk>(volumes: &mut [Logical<D>], pick: u64)
    ensures stops { AllZip (StopsVolume D.Tells D.files D.Piece.Tells D.fault_count D.fuse_count) volumes.old volumes.new }
    ensures drawn { D.Tells → AllZip (StopsDrawing D.drawn) volumes.old volumes.new }
{
    for volume in volumes.iter_mut() {
        volume.stop(pick);
    }
}

// A closed store of these disks and arms.
fn assemble<D: Disk, A: Arm<D::Piece>>(
    alloc: Global,
    settings: Settings,
    mut volumes: Vec<Logical<D>>,
    mut disks: Vec<D>,
    seats: Vec<LaneSeat<A>>,
) -> Cluster<D, A>
    requires built { IsBuilt settings }
    requires many { length volumes.items ≡ settings.volumes }
    requires empty { InOrder (IsEmptyVolume settings) 0 volumes.items }
    requires disks { length disks.items ≡ disk_count settings }
    requires lanes { length seats.items ≡ 8 }
    ensures settings { result.settings ≡ settings }
    ensures fresh { directory.IsFresh result.directory }
    ensures closed { AllByRecursion IsClosed result.volumes }
    ensures unsure { AllByRecursion (λ volume. volume.unsure ≡ None) result.volumes }
    ensures disks { disks_of result ≡ disks.items }
    ensures arms { result.arms ≡ seats.items }
    ensures shape { IsShaped result }
{
    disks.reverse(); // so that the lowest slot is the last
    let Some(first) = disks.pop() else {
        unreachable!();
    };
    fill_volumes(&settings, volumes.as_mut_slice(), &mut disks);
    Cluster {
        settings,
        directory: Directory::new(alloc, settings, first),
        volumes,
        seats,
    }
}

// Gives each volume its disks, from the last disk down.
fn fill_volumes<D: Disk>(settings: &Settings, volumes: &mut [Logical<D>], disks: &mut Vec<D>)
    requires empty { InOrder (IsEmptyVolume settings.now) 0 volumes.old }
    requires enough { length disks.old.items ≡ length volumes.old * settings.now.replicas }
    ensures { Gathers FillsVolume volumes.old volumes.new (reverse disks.old.items) }
{
    for volume in volumes.iter_mut() {
        fill_volume(settings, volume, disks);
    }
}

// Gives a volume its disks.
fn fill_volume<D: Disk>(settings: &Settings, volume: &mut Logical<D>, disks: &mut Vec<D>)
    requires empty { volume.old.replicas ≡ [] }
    requires settings { volume.old.settings ≡ settings.now }
    requires enough { settings.now.replicas ≤ length disks.old.items }
    ensures taken { (taken : List D) × (reverse disks.old.items ≡ taken ++ reverse disks.new.items) × FillsVolume volume.old volume.new taken }
    ensures fewer { length disks.new.items + settings.now.replicas ≡ length disks.old.items }
{
    for _replica in 0..settings.replicas {
        let Some(disk) = disks.pop() else {
            unreachable!();
        };
        volume.add(disk);
    }
}

// The volumes of a store, without disks.
fn empty_volumes<D: Disk>(
    alloc: Global,
    settings: &Settings,
) -> Result<Vec<Logical<D>>, ClusterFault>
    requires { IsBuilt settings.now }
    ensures count { IfOk result (λ volumes. length volumes.items ≡ settings.now.volumes) }
    ensures empty { IfOk result (λ volumes. InOrder (IsEmptyVolume settings.now) 0 volumes.items) }
    ensures no_memory { IfErr result (λ fault. fault ≡ ClusterFault.NoMemory) }
{
    let mut volumes = Vec::with_capacity(alloc, settings.volumes as usize)?;
    for number in 0..settings.volumes {
        match Logical::new(alloc, *settings, number) {
            Ok(volume) => volumes.push_reserved(volume),
            Err(NoMemory) => return Err(ClusterFault::NoMemory),
        }
    }
    Ok(volumes)
}

// A seat for each arm. For want of memory the arms are given back.
fn seats_of<A: Drop>(alloc: Global, mut arms: Vec<A>) -> Result<Vec<LaneSeat<A>>, Vec<A>>
    ensures ok { IfOk result (λ seats. seats.items ≡ arms.items) }
    ensures err { IfErr result (λ back. back.items ≡ arms.items) }
{
    let Ok(mut seats) = Vec::with_capacity(alloc, arms.len()) else {
        return Err(arms);
    };
    while let Some(arm) = arms.pop() {
        match LaneSeat::new(alloc, arm) {
            Ok(seat) => seats.push_reserved(seat),
            Err((arm, _)) => {
                arms.push_reserved(arm);
                return Err(unseated(arms, seats));
            }
        }
    }
    seats.reverse();
    Ok(seats)
}

// The arms, with those of the seats behind them, from the last seat on.
fn unseated<A: Drop>(mut arms: Vec<A>, mut seats: Vec<LaneSeat<A>>) -> Vec<A>
    requires { length arms.items + length seats.items ≤ vec_capacity arms }
    ensures { result.items ≡ arms.items ++ reverse seats.items }
{
    while let Some(seat) = seats.pop() {
        arms.push_reserved(seat.into_arm());
    }
    arms
}

// How many disks a store has.
fn disk_count(settings: &Settings) -> u32
    requires { IsBuilt settings.now }
    ensures is { result ≡ known.disk_count settings.now }
    ensures few { result ≤ 257 }
{
    1 + settings.volumes * settings.replicas
}

// The slot of a replica's disk.
fn slot_of(settings: &Settings, volume: u32, replica: u32) -> u32
    requires built { IsBuilt settings.now }
    requires volume { volume < settings.now.volumes }
    requires replica { replica < settings.now.replicas }
    ensures is { result ≡ known.slot_of settings.now volume replica }
    ensures within { result < known.disk_count settings.now }
{
    1 + volume * settings.replicas + replica
}
