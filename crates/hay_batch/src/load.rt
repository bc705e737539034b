//! Loading a batch.

ghost use Rattle.std.specs.Prelude.{◌≡◌, ◌≢◌, ◌⊎◌, ◌≤◌, ◌<◌, ◌+◌, ◌++◌, ◌*◌, ◌-◌, ◌^◌, min, ℕ, List, None, All, length, map, Err, IfErr, IfOk, OnOk};
ghost use Rattle.hay_disk.specs.Counts.{Rose};
ghost use Rattle.hay_batch.specs.declared.replicas.AppendFault.{AppendFault};
ghost use Rattle.hay_batch.specs.declared.fault.FullTry.{FullTry};
ghost use Rattle.hay_batch.specs.declared.fault.LoadFault.{LoadFault};
ghost use Rattle.hay_batch.specs.declared.photo.NewPhoto.{NewPhoto};
ghost use Rattle.hay_batch.specs.declared.replica.LoadReplica.{LoadReplica};
ghost use Rattle.hay_needle.specs.declared.needle.Cell.{Cell};
ghost use Rattle.hay_needle.specs.Tables.{look, rows_of};
ghost use Rattle.hay_volume.specs.Cells.{needles_of};
ghost use Rattle.hay_dirfile.specs.declared.row.DirRow.{DirRow};
ghost use Rattle.hay_batch.specs.Batches.{AreDistinct, IsBatch, batch_total, new_cells, new_row, shown_of};
ghost use Rattle.hay_batch.specs.Directories.{HoldsRows, IsFirstHome, MaySettle};
ghost use Rattle.hay_batch.specs.Directories as directories;
ghost use Rattle.hay_batch.specs.Homes.{AddsHomes, home_among};
ghost use Rattle.hay_batch.specs.Replicas.{Adds, At, HasRoom, IsReady, MayAdd};
ghost use Rattle.hay_batch.specs.Shelves.{LeavesBatch, MayLeaveDisks, OpensStore, StandsAs, StoredStore, with_stored};
ghost use Rattle.hay_batch.specs.Stores.{AreContents, AreTries, Contents, FailsAt, Images, IsDiskFault, IsReadyStore, IsShaped, IsTargetOf, KeepsCounts, KeepsFiles};
ghost use Rattle.hay_batch.specs.Stores.{LeavesWithOrWithout, MayLeaveStore, MovesEnds, ReplicaAt, Stands, with_batch};

use crate::directory::LoadDirectory;
use crate::fault::LoadFault;
use crate::photo::{NewPhoto, batch_total};
use crate::replicas::{AppendFault, append_each};
use crate::store::LoadStore;
use hay_disk::{Disk, DiskFault};
use hay_needle::{MAX_REPLICAS, Settings};
use std::alloc::Global;

/// A batch that was loaded: into this volume, and so many rows there are now.
#[derive(Clone, Copy, Debug, PartialEq, Eq)]
pub struct Loaded {
    pub volume: u32,
    pub rows: u64,
}

// Adds the rows by which a batch is kept in a volume.
fn settle_rows<D: Disk>(
    directory: &mut LoadDirectory<D>,
    alloc: Global,
    photos: &[NewPhoto],
    volume: u32,
) -> Result<Loaded, LoadFault>
    requires batch { IsBatch photos.now }
    requires ready { D.Tells → directories.IsReady D.files directory.old }
    ensures loaded { IfOk result (λ loaded. (loaded.volume ≡ volume) × (loaded.rows ≡ directory.new.rows)) }
    ensures settled { D.Tells → OnOk result ((superblock : List ℕ) (volumes : ℕ) (rows : List DirRow) → volume < volumes →
        HoldsRows D.files superblock volumes rows directory.old → HoldsRows D.files superblock volumes (rows ++ map (new_row volume) photos.now) directory.new) }
    ensures next { D.Tells → OnOk result (directories.IsReady D.files directory.new) }
    ensures homes { OnOk result (AddsHomes (map (new_row volume) photos.now) directory.old.homes directory.new.homes) }
    ensures rows { OnOk result (directory.new.rows ≡ min (directory.old.rows + length photos.now) (2 ^ 64 - 1)) }
    ensures left { D.Tells → MaySettle D.files volume photos.now directory.old directory.new }
    ensures later { D.fault_count directory.old.disk ≤ D.fault_count directory.new.disk }
    ensures fuses { D.fuse_count directory.new.disk ≡ D.fuse_count directory.old.disk }
    ensures failed { IfErr result (λ fault. (slot faults : ℕ) → fault ≡ LoadFault.Failed slot faults → (slot ≡ 0)
        × Rose (D.fault_count directory.old.disk) (D.fault_count directory.new.disk) × (faults ≡ D.fault_count directory.new.disk)) }
    ensures faults { IfErr result IsDiskFault }
{
    match directory.settle(alloc, photos, volume) {
        Ok(()) => Ok(Loaded {
            volume,
            rows: directory.rows,
        }),
        Err(DiskFault::Failed) => Err(LoadFault::Failed {
            slot: 0,
            faults: directory.disk.faults(),
        }),
        Err(DiskFault::NoMemory) => Err(LoadFault::NoMemory),
    }
}

// Why a batch is not loaded into a volume, where a replica refused it.
fn refused(settings: &Settings, volume: u32, fault: AppendFault) -> LoadFault
    requires few { settings.now.replicas ≤ MAX_REPLICAS }
    requires volume { volume < 64 }
    requires replica { (j faults : ℕ) → fault ≡ AppendFault.Failed j faults → j < settings.now.replicas }
    ensures failed { (j faults : ℕ) → fault ≡ AppendFault.Failed j faults → result ≡ LoadFault.Failed (1 + volume * settings.now.replicas + j) faults }
    ensures no_memory { fault ≡ AppendFault.NoMemory → result ≡ LoadFault.NoMemory }
{
    match fault {
        AppendFault::Failed { replica, faults } => LoadFault::Failed {
            slot: 1 + volume * settings.replicas + replica,
            faults,
        },
        AppendFault::NoMemory => LoadFault::NoMemory,
    }
}

impl<D: Disk> LoadStore<D> {
    // Adds the cells of a batch to each replica of a volume.
    fn append(&mut self, alloc: Global, photos: &[NewPhoto], volume: u32) -> Result<(), AppendFault>
        requires shape { IsShaped self.old }
        requires batch { IsBatch photos.now }
        requires there { volume < self.old.settings.volumes }
        requires ready { D.Tells → (j : ℕ) (r : LoadReplica D) → ReplicaAt self.old volume j r → IsReady D.files r }
        requires room { (j : ℕ) (r : LoadReplica D) → ReplicaAt self.old volume j r → HasRoom (batch_total photos.now) r }
        ensures same { self.new.directory ≡ self.old.directory }
        ensures shape { (self.new.settings ≡ self.old.settings) × IsShaped self.new }
        ensures added { OnOk result ((j : ℕ) (r r' : LoadReplica D) → ReplicaAt self.old volume j r → ReplicaAt self.new volume j r' → Adds D.Tells D.files photos.now r r') }
        ensures left { D.Tells → (j : ℕ) (r r' : LoadReplica D) → ReplicaAt self.old volume j r → ReplicaAt self.new volume j r' → MayAdd D.files photos.now r r' }
        ensures others { (v j : ℕ) (r r' : LoadReplica D) → v ≢ volume → ReplicaAt self.old v j r → ReplicaAt self.new v j r' → r' ≡ r }
        ensures counts { KeepsCounts D.fault_count D.fuse_count self.old self.new }
        ensures failed { IfErr result (λ fault. (j faults : ℕ) → fault ≡ AppendFault.Failed j faults → (j < self.old.settings.replicas)
            × ((r r' : LoadReplica D) → ReplicaAt self.old volume j r → ReplicaAt self.new volume j r' → Rose (D.fault_count r.disk) (D.fault_count r'.disk) × (faults ≡ D.fault_count r'.disk))) }
    {
        let target = &mut self.volumes[volume as usize];
        append_each(target.replicas.as_mut_slice(), alloc, photos)
    }

    // Loads a batch into a volume that has room for it: its cells on each replica, and then its rows.
    fn load_into(
        &mut self,
        alloc: Global,
        photos: &[NewPhoto],
        volume: u32,
    ) -> Result<Loaded, LoadFault>
        requires shape { IsShaped self.old }
        requires batch { IsBatch photos.now }
        requires there { volume < self.old.settings.volumes }
        requires ready { D.Tells → IsReadyStore D.files self.old }
        requires room { (j : ℕ) (r : LoadReplica D) → ReplicaAt self.old volume j r → HasRoom (batch_total photos.now) r }
        ensures shape { (self.new.settings ≡ self.old.settings) × IsShaped self.new }
        ensures answer { IfOk result (λ loaded. (loaded.volume ≡ volume) × (loaded.rows ≡ self.new.directory.rows)) }
        ensures loaded { D.Tells → OnOk result ((k : Contents) → Stands D.files self.old k → Stands D.files self.new (with_batch volume photos.now k)) }
        ensures next { D.Tells → OnOk result (IsReadyStore D.files self.new) }
        ensures homes { OnOk result (AddsHomes (map (new_row volume) photos.now) self.old.directory.homes self.new.directory.homes) }
        ensures rows { OnOk result (self.new.directory.rows ≡ min (self.old.directory.rows + length photos.now) (2 ^ 64 - 1)) }
        ensures ends { OnOk result (MovesEnds volume photos.now self.old self.new) }
        ensures left { D.Tells → (k : Contents) (left : Images) → Stands D.files self.old k → MayLeaveStore D.files self.new left →
            LeavesWithOrWithout self.old.settings volume photos.now k left }
        ensures files { D.Tells → KeepsFiles D.files self.old self.new }
        ensures counts { KeepsCounts D.fault_count D.fuse_count self.old self.new }
        ensures failed { IfErr result (λ fault. (slot faults : ℕ) → fault ≡ LoadFault.Failed slot faults → FailsAt D.fault_count volume self.old self.new slot faults) }
        ensures faults { IfErr result IsDiskFault }
    {
        match self.append(alloc, photos, volume) {
            Ok(()) => settle_rows(&mut self.directory, alloc, photos, volume),
            Err(fault) => Err(refused(&self.settings, volume, fault)),
        }
    }

    /// Loads a batch of one key into the first volume that the key tries in which each replica has room: its cells on each
    /// replica in order, and then its rows. A value that refused with `Failed` or `NoMemory` must not be used for another.
    pub fn load_batch(&mut self, alloc: Global, photos: &[NewPhoto]) -> Result<Loaded, LoadFault>
        requires batch { IsBatch photos.now }
        requires key { (key : ℕ) × All (λ (photo : NewPhoto). photo.pair.key ≡ key) photos.now }
        requires distinct { AreDistinct photos.now }
        requires shape { IsShaped self.old }
        requires ready { D.Tells → IsReadyStore D.files self.old }

        // `Known` comes exactly where a photo of the batch has a home, and first.
        ensures homes { ((volume : ℕ) × (result ≡ Err (LoadFault.Known volume)) × IsFirstHome self.old.directory.homes photos.now volume)
            ⊎ (((volume : ℕ) → result ≡ Err (LoadFault.Known volume) → ⊥) × All (λ (photo : NewPhoto). home_among self.old.directory.homes photo.pair ≡ None) photos.now) }

        // `Full` comes only where no try has room, and names each.
        ensures full { IfErr result (λ fault. (tries : List FullTry) → fault ≡ LoadFault.Full tries → (key : ℕ) → All (λ (photo : NewPhoto). photo.pair.key ≡ key) photos.now →
            AreTries self.old key (batch_total photos.now) self.old.settings.volumes tries) }
        ensures kept { IfErr result (λ fault. (IsDiskFault fault → ⊥) → self.new ≡ self.old) }

        // The volume is the first try with room.
        ensures room { IfOk result (λ loaded. IsTargetOf self.old photos.now loaded.volume) }
        ensures rows { IfOk result (λ loaded. loaded.rows ≡ self.new.directory.rows) }

        // Whatever the disks tell, the pairs of a batch that was loaded are known then, its rows are counted, and the cells of its
        // volume's replicas end behind it.
        ensures settled { IfOk result (λ loaded. AddsHomes (map (new_row loaded.volume) photos.now) self.old.directory.homes self.new.directory.homes) }
        ensures counted { OnOk result (self.new.directory.rows ≡ min (self.old.directory.rows + length photos.now) (2 ^ 64 - 1)) }
        ensures ends { IfOk result (λ loaded. MovesEnds loaded.volume photos.now self.old self.new) }

        // At `Ok` the store has the batch, all of it is on the disks, and the next batch may follow.
        ensures loaded { D.Tells → (k : Contents) → Stands D.files self.old k → IfOk result (λ loaded. Stands D.files self.new (with_batch loaded.volume photos.now k)) }
        ensures next { D.Tells → OnOk result (IsReadyStore D.files self.new) }

        // Wherever the cells of the batch come last, each of its pairs has its photo.
        ensures shows { (cells : List Cell) (at i : ℕ) (photo : NewPhoto) → At photos.now i photo → look (rows_of (needles_of (cells ++ new_cells at photos.now))) photo.pair ≡ shown_of photo }

        // Whatever a stop leaves, then or after any refusal, is what there was; or has no row of the batch, or the whole batch in the first try with room.
        ensures left { D.Tells → (k : Contents) (left : Images) → Stands D.files self.old k → MayLeaveStore D.files self.new left →
            AreContents self.old.settings k left ⊎ ((volume : ℕ) × IsTargetOf self.old photos.now volume × LeavesWithOrWithout self.old.settings volume photos.now k left) }

        // The same of what an opening finds: at `Ok`, and in whatever a stop leaves.
        ensures stored { D.Tells → (s : StoredStore) → StandsAs D.files self.old s → IfOk result (λ loaded. StandsAs D.files self.new (with_stored loaded.volume photos.now s)) }
        ensures left_stored { D.Tells → (s : StoredStore) (image : ℕ → ℕ → List ℕ) → StandsAs D.files self.old s → MayLeaveDisks D.files self.new image →
            OpensStore self.old.settings image s ⊎ ((volume : ℕ) × IsTargetOf self.old photos.now volume × LeavesBatch self.old.settings volume photos.now image s) }

        ensures files { D.Tells → KeepsFiles D.files self.old self.new }
        ensures shape { (self.new.settings ≡ self.old.settings) × IsShaped self.new }
        ensures counts { KeepsCounts D.fault_count D.fuse_count self.old self.new }

        // The disk that failed is that of the Directory, or that of a replica of the first try with room.
        ensures failed { IfErr result (λ fault. (slot faults : ℕ) → fault ≡ LoadFault.Failed slot faults →
            (volume : ℕ) × IsTargetOf self.old photos.now volume × FailsAt D.fault_count volume self.old self.new slot faults) }
    {
        if let Some(volume) = self.directory.first_home(photos) {
            return Err(LoadFault::Known { volume });
        }
        let need = batch_total(photos);
        match self.find_room(alloc, photos[0].pair.key, need) {
            Ok(volume) => self.load_into(alloc, photos, volume),
            Err(fault) => Err(fault),
        }
    }
}
