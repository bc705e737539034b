//! The Directory on its disk.
ghost use Rattle.std.specs.Prelude.{◌≡◌, ◌≤◌, ◌<◌, ℕ, List, Bool, [], ◌∷◌, ◌++◌, None, Some, true, false, length, map, replicate, slice_index_or, slice_set, Err, IfOk, OnOk};
ghost use Rattle.std.specs.Prelude.{OnErr, IfErr, IfSome, IsErrOf, is_some};
ghost use Rattle.hay_needle.specs.declared.settings.Settings.{Settings};
ghost use Rattle.hay_disk.specs.Counts.{Rose, IsNext};
ghost use Rattle.hay_disk.specs.Disk.{IsFree, IsImage, IsSolid, KeepsOthers, MayLeave};
ghost use Rattle.std.specs.List.{AllByRecursion};
ghost use Rattle.hay_dirfile.specs.Journal.{IsDamagedJournal};
ghost use Rattle.hay_reply.specs.Fits.{FitsNote};
ghost use Rattle.hay_needle.specs.declared.needle.Pair.{Pair};
ghost use Rattle.hay_legal.specs.declared.known.DirKnown.{DirKnown};
ghost use Rattle.hay_legal.specs.declared.known.HomeRow.{HomeRow};
ghost use Rattle.hay_legal.specs.Known.{home_in};
ghost use Rattle.hay_legal.specs.Restarts.{directory_with, kept_row, row_notes};
ghost use Rattle.hay_directory.specs.Notes.{notes_by};
ghost use Rattle.hay_directory.specs.Homes.{HomesWithin, KeepsHomes, SetsHome};
ghost use Rattle.hay_directory.specs.Rows.{OpensRows, RowsWithin, dir_row, home_row, journal_super};
ghost use Rattle.hay_directory.specs.Seen.{ClosedSeen, DrainSeen, KeepsSeen, OpenSeen, PendsSeen, SettleRefusedSeen, SettleSeen, ShowSeen, directory_seen};
ghost use Rattle.hay_directory.specs.State.{Holds, IsClosed, IsFresh, IsFrozen, IsRowWritten, IsUnshown, IsUp, LeavesMode, Stands, Stopped, home_of, is_frozen, unsure_of};

use crate::fault::DirFault;
use crate::homes::Homes;
use crate::load::{Loaded, load};
use crate::mode::{Mode, Unsure, WrittenRow};
use hay_base::{Listed, NoMemory};
use hay_core::CoreTag;
use hay_dirfile::{DirRow, Journal, OpenFault};
use hay_disk::{Disk, DiskFault};
use hay_needle::{MAX_MACHINES, Pair, Settings};
use hay_reply::Note;
use std::alloc::Global;
use std::collections::HashMap;
use std::marker::Model;

// The most machines that settings may have.
const MOST_MACHINES: usize = MAX_MACHINES as usize;

/// What an opening found: the note of a row that was pending, if there was one, and all rows.
#[derive(Drop)]
pub struct Opened {
    pub notes: Listed<Note>,
    pub rows: Vec<DirRow>,
}

/// The homes of pairs, in a journal on a disk, and the drained machines.
#[derive(Drop)]
pub struct Directory<D: Disk> {
    settings: Settings,
    disk: D,
    journal: Journal,
    homes: Homes,
    /// How many rows the journal has.
    count: u64,
    /// By machine.
    drained: [bool; MOST_MACHINES],
    mode: Mode,
}

impl<D: Disk> Model for Directory<D> {
    ghost use Rattle.std.specs.Prelude.{take};
    ghost use Rattle.hay_directory.specs.State.{State, IsSound};

    ghost Value = { State D };

    ghost view = { λ d. record {
      settings = d.settings;
      disk = d.disk;
      journal = d.journal;
      homes = d.homes.volumes;
      room = d.homes.room;
      count = d.count;
      drained = take d.settings.machines d.drained;
      mode = d.mode;
    } };

    ghost invariant = { λ d. IsSound D.Tells D.files (record {
      settings = d.settings;
      disk = d.disk;
      journal = d.journal;
      homes = d.homes.volumes;
      room = d.homes.room;
      count = d.count;
      drained = take d.settings.machines d.drained;
      mode = d.mode;
    }) };
}

impl<D: Disk> Directory<D> {
    /// A closed directory on this disk. No call of the disk is made, and no memory is taken.
    pub fn new(alloc: Global, settings: Settings, disk: D) -> Directory<D>
        requires { settings.machines ≤ MAX_MACHINES }
        ensures settings { result.settings ≡ settings }
        ensures disk { result.disk ≡ disk }
        ensures fresh { IsFresh result }
    {
        Directory {
            settings,
            disk,
            journal: Journal { end: 0 },
            homes: Homes::new(alloc),
            count: 0,
            drained: [false; MOST_MACHINES],
            mode: Mode::Closed(None),
        }
    }

    /// Opens the journal, and answers the note of a row that was pending at the stop, if there was one. A void disk is
    /// formatted. A refusal leaves the directory closed, and what stood on a disk that was not void.
    pub fn open(&mut self, alloc: Global) -> Result<Listed<Note>, OpenFault>
        requires closed { IsClosed self.old }
        requires solid { D.Tells → IsSolid (D.files self.old.disk 0) }
        requires free { D.Tells → IsFree (D.files self.old.disk 0) }

        // The first opening finds the rows that the disk has.
        ensures opened { D.Tells → IsFresh self.old → IfOk result (λ notes. (notes ≡ []) × ((rows : List HomeRow)
            × OpensRows self.old.settings (λ n. (D.files self.old.disk n).now) rows
            × Stands D.files self.new (directory_with rows) (replicate self.old.settings.machines false))) }

        // A later one finds the rows, and tells whether the pending one was kept.
        ensures reopened { D.Tells → (known : DirKnown) → Stopped D.files self.old known → IfOk result (λ notes. (kept : Bool)
            × (notes ≡ row_notes known.pending kept)
            × Stands D.files self.new (directory_with (known.rows ++ kept_row known.pending kept)) (replicate self.old.settings.machines false)) }
        ensures up { OnOk result (IsUp self.new) }
        // Whatever the disk has, it tells of the row that was pending, and none is then.
        ensures told { IfOk result (λ notes. notes ≡ notes_by (unsure_of self.old.mode) (home_of self.new)) }
        ensures fits { IfOk result (AllByRecursion FitsNote) }
        ensures serves { OnOk result (self.new.mode ≡ Mode.Open) }
        ensures seen { OnOk result ((rows : List HomeRow) × OpenSeen self.old.settings.machines rows (directory_seen self.new)) }

        // What a refusal leaves, and its cause.
        ensures closed { OnErr result (IsClosed self.new × (self.new.mode ≡ self.old.mode)) }
        ensures refused_seen { OnErr result (ClosedSeen self.old.settings.machines (directory_seen self.old) (directory_seen self.new)) }
        ensures stopped { D.Tells → (known : DirKnown) → Stopped D.files self.old known → OnErr result (Stopped D.files self.new known) }
        ensures failed { (faults : ℕ) → result ≡ Err (OpenFault.Failed faults) →
            (faults ≡ D.fault_count self.new.disk) × Rose (D.fault_count self.old.disk) (D.fault_count self.new.disk) }
        ensures damaged { D.Tells → (file at : ℕ) → result ≡ Err (OpenFault.Damaged file at) →
            (file ≡ 0) × (0 < length (D.files self.old.disk 0).now)
            × IsDamagedJournal (journal_super self.old.settings) (D.files self.old.disk 0).now at }
        ensures file { (file at : ℕ) → result ≡ Err (OpenFault.Damaged file at) → file ≡ 0 }
        ensures undamaged { D.Tells → 0 < length (D.files self.old.disk 0).now →
            OnOk result ((at : ℕ) → IsDamagedJournal (journal_super self.old.settings) (D.files self.old.disk 0).now at → ⊥) }
        ensures undamaged_now { D.Tells → OnOk result ((at : ℕ) → IsDamagedJournal (journal_super self.old.settings) (D.files self.new.disk 0).now at → ⊥) }
        ensures formatted { D.Tells → OnOk result (0 < length (D.files self.new.disk 0).now) }
        // Whatever a stop leaves of a void disk has no rows, by whatever settings, then or after a refusal.
        ensures nothing { D.Tells → (D.files self.old.disk 0).now ≡ [] → (image : ℕ → List ℕ) (rows : List HomeRow) →
            (other : Settings) → IsImage (D.files self.new.disk 0) (image 0) → OpensRows other image rows → rows ≡ [] }
        ensures whole { D.Tells → (rows : List HomeRow) (file at : ℕ) →
            OpensRows self.old.settings (λ n. (D.files self.old.disk n).now) rows →
            result ≡ Err (OpenFault.Damaged file at) → ⊥ }

        ensures same { D.Tells → 0 < length (D.files self.old.disk 0).now → D.files self.new.disk ≡ D.files self.old.disk }
        ensures others { D.Tells → KeepsOthers 0 (D.files self.old.disk) (D.files self.new.disk) }
        ensures settings { self.new.settings ≡ self.old.settings }
        ensures later { D.fault_count self.old.disk ≤ D.fault_count self.new.disk }
        ensures fuses { D.fuse_count self.new.disk ≡ D.fuse_count self.old.disk }
    {
        let opened = self.open_rows(alloc)?;
        Ok(opened.notes)
    }

    /// Opens the journal, and answers its rows, and the note of a row that was pending at the stop, if there was one. A void disk
    /// is formatted. A refusal leaves the directory closed, and what stood on a disk that was not void.
    pub fn open_rows(&mut self, alloc: Global) -> Result<Opened, OpenFault>
        requires closed { IsClosed self.old }
        requires solid { D.Tells → IsSolid (D.files self.old.disk 0) }
        requires free { D.Tells → IsFree (D.files self.old.disk 0) }

        // The first opening finds the rows that the disk has.
        ensures opened { D.Tells → IsFresh self.old → IfOk result (λ opened. (opened.notes ≡ [])
            × OpensRows self.old.settings (λ n. (D.files self.old.disk n).now) (map home_row opened.rows.items)
            × Stands D.files self.new (directory_with (map home_row opened.rows.items)) (replicate self.old.settings.machines false)) }
        // A later one finds the rows, and tells whether the pending one was kept.
        ensures reopened { D.Tells → (known : DirKnown) → Stopped D.files self.old known → IfOk result (λ opened. (kept : Bool)
            × (opened.notes ≡ row_notes known.pending kept) × (map home_row opened.rows.items ≡ known.rows ++ kept_row known.pending kept)
            × Stands D.files self.new (directory_with (known.rows ++ kept_row known.pending kept)) (replicate self.old.settings.machines false)) }
        // Any opening finds the rows that the disk has then.
        ensures rows { D.Tells → IfOk result (λ opened. OpensRows self.old.settings (λ n. (D.files self.new.disk n).now) (map home_row opened.rows.items)) }
        // Whatever the disk has, the rows are of volumes that there are, the homes are by the rows, and no machine is drained.
        ensures within { IfOk result (λ opened. RowsWithin self.new.settings.volumes (map home_row opened.rows.items)) }
        ensures homes { IfOk result (λ opened. (pair : Pair) → home_of self.new pair ≡ home_in (map home_row opened.rows.items) pair) }
        ensures undrained { OnOk result (self.new.drained ≡ replicate self.old.settings.machines false) }
        ensures up { OnOk result (IsUp self.new) }
        // Whatever the disk has, it tells of the row that was pending, and none is then.
        ensures told { IfOk result (λ opened. opened.notes ≡ notes_by (unsure_of self.old.mode) (home_of self.new)) }
        ensures fits { IfOk result (λ opened. AllByRecursion FitsNote opened.notes) }
        ensures serves { OnOk result (self.new.mode ≡ Mode.Open) }
        ensures seen { IfOk result (λ opened. OpenSeen self.old.settings.machines (map home_row opened.rows.items) (directory_seen self.new)) }

        // What a refusal leaves, and its cause.
        ensures closed { OnErr result (IsClosed self.new × (self.new.mode ≡ self.old.mode)) }
        ensures refused_seen { OnErr result (ClosedSeen self.old.settings.machines (directory_seen self.old) (directory_seen self.new)) }
        ensures stopped { D.Tells → (known : DirKnown) → Stopped D.files self.old known → OnErr result (Stopped D.files self.new known) }
        ensures failed { (faults : ℕ) → result ≡ Err (OpenFault.Failed faults) →
            (faults ≡ D.fault_count self.new.disk) × Rose (D.fault_count self.old.disk) (D.fault_count self.new.disk) }
        ensures damaged { D.Tells → (file at : ℕ) → result ≡ Err (OpenFault.Damaged file at) →
            (file ≡ 0) × (0 < length (D.files self.old.disk 0).now)
            × IsDamagedJournal (journal_super self.old.settings) (D.files self.old.disk 0).now at }
        ensures file { (file at : ℕ) → result ≡ Err (OpenFault.Damaged file at) → file ≡ 0 }
        ensures undamaged { D.Tells → 0 < length (D.files self.old.disk 0).now →
            OnOk result ((at : ℕ) → IsDamagedJournal (journal_super self.old.settings) (D.files self.old.disk 0).now at → ⊥) }
        ensures undamaged_now { D.Tells → OnOk result ((at : ℕ) → IsDamagedJournal (journal_super self.old.settings) (D.files self.new.disk 0).now at → ⊥) }
        ensures formatted { D.Tells → OnOk result (0 < length (D.files self.new.disk 0).now) }
        // Whatever a stop leaves of a void disk has no rows, by whatever settings, then or after a refusal.
        ensures nothing { D.Tells → (D.files self.old.disk 0).now ≡ [] → (image : ℕ → List ℕ) (rows : List HomeRow) →
            (other : Settings) → IsImage (D.files self.new.disk 0) (image 0) → OpensRows other image rows → rows ≡ [] }
        ensures whole { D.Tells → (rows : List HomeRow) (file at : ℕ) →
            OpensRows self.old.settings (λ n. (D.files self.old.disk n).now) rows →
            result ≡ Err (OpenFault.Damaged file at) → ⊥ }

        ensures same { D.Tells → 0 < length (D.files self.old.disk 0).now → D.files self.new.disk ≡ D.files self.old.disk }
        ensures others { D.Tells → KeepsOthers 0 (D.files self.old.disk) (D.files self.new.disk) }
        ensures settings { self.new.settings ≡ self.old.settings }
        ensures later { D.fault_count self.old.disk ≤ D.fault_count self.new.disk }
        ensures fuses { D.fuse_count self.new.disk ≡ D.fuse_count self.old.disk }
    {
        let unsure = self.mode.unsure();
        self.homes = Homes::new(alloc); // before memory is taken for others
        let loaded = load(alloc, &mut self.disk, &self.settings, unsure)?;
        let Loaded {
            journal,
            homes,
            count,
            rows,
            notes,
        } = loaded;
        self.journal = journal;
        self.homes = homes;
        self.count = count;
        self.mode = Mode::Open;
        Ok(Opened { notes, rows })
    }

    /// The home of a pair, which is a volume that there is.
    pub fn home(&self, pair: Pair) -> Option<u32>
        ensures kept { result ≡ home_of self.now pair }
        ensures below { IfSome result (λ volume. volume < self.now.settings.volumes) }
        ensures known { (known : DirKnown) (drained : List Bool) → Stands D.files self.now known drained → result ≡ home_in known.rows pair }
    {
        self.homes.get(pair)
    }

    /// The table of the homes once more: the volume of each pair that has one.
    pub fn copy_homes(&self) -> Result<HashMap<(u64, u32), u32>, NoMemory>
        ensures same { IfOk result (λ homes. homes.entries ≡ self.now.homes) }
        ensures within { HomesWithin self.now.settings.volumes self.now.homes }
    {
        self.homes.copy()
    }

    /// How many rows there are.
    pub fn rows(&self) -> u64
        ensures count { result ≡ self.now.count }
        ensures known { (known : DirKnown) (drained : List Bool) → Stands D.files self.now known drained → result ≡ length known.rows }
    {
        self.count
    }

    /// Whether a row failed since the opening.
    pub fn is_frozen(&self) -> bool
        ensures frozen { result ≡ is_frozen self.now.mode }
        ensures pending { IsUp self.now → result ≡ is_some (directory_seen self.now).pending }
        ensures within { IfSome (unsure_of self.now.mode) (λ unsure. unsure.row.volume < self.now.settings.volumes) }
        ensures known { (known : DirKnown) (drained : List Bool) → Stands D.files self.now known drained → result ≡ known.frozen }
    {
        match self.mode {
            Mode::Frozen(_) => true,
            Mode::Closed(_) => false,
            Mode::Open => false,
        }
    }

    /// Gives a pair, which has no home, one. The row is on the disk then. `NoMemory` changes nothing, and `Failed` freezes
    /// the directory: the row is pending.
    pub fn settle(&mut self, tag: CoreTag, pair: Pair, volume: u32) -> Result<(), DirFault>
        requires up { IsUp self.old }
        requires volume { volume < self.old.settings.volumes }
        requires homeless { home_of self.old pair ≡ None }

        ensures settled { D.Tells → (known : DirKnown) (drained : List Bool) → Stands D.files self.old known drained →
            OnOk result (Stands D.files self.new (record known { rows = known.rows ++ record { pair = pair; volume = volume } ∷ [] }) drained) }
        ensures no_memory { D.Tells → (known : DirKnown) (drained : List Bool) → Stands D.files self.old known drained →
            IsErrOf result DirFault.NoMemory → Stands D.files self.new known drained }
        ensures pending { D.Tells → (known : DirKnown) (drained : List Bool) (faults : ℕ) → Stands D.files self.old known drained →
            result ≡ Err (DirFault.Failed faults) → Stands D.files self.new (record known {
              frozen = true;
              pending = Some (record { tag = tag; row = record { pair = pair; volume = volume } });
            }) drained }

        // Something is known of a directory at any time.
        ensures stood { D.Tells → (known : DirKnown) × Stands D.files self.old known self.old.drained }
        // Whatever the disk has, the row is pending only where it failed.
        ensures mode { OnOk result (self.new.mode ≡ self.old.mode) }
        ensures refused_mode { IfErr result (LeavesMode (record { tag = tag; row = record { pair = pair; volume = volume } }) self.old.mode self.new.mode) }
        ensures seen { OnOk result (SettleSeen pair volume (directory_seen self.old) (directory_seen self.new)) }
        ensures refused_seen { IfErr result (SettleRefusedSeen tag pair volume (directory_seen self.old) (directory_seen self.new)) }

        ensures drained { self.new.drained ≡ self.old.drained }

        // A frozen directory refuses, and nothing else is refused so.
        ensures frozen { IsFrozen self.old → IsErrOf result DirFault.Frozen }
        ensures only_frozen { IsErrOf result DirFault.Frozen → IsFrozen self.old × (self.new ≡ self.old) }
        ensures failed { (faults : ℕ) → result ≡ Err (DirFault.Failed faults) →
            (faults ≡ D.fault_count self.new.disk) × Rose (D.fault_count self.old.disk) (D.fault_count self.new.disk) }

        ensures up { IsUp self.new }
        ensures settings { self.new.settings ≡ self.old.settings }
        ensures later { D.fault_count self.old.disk ≤ D.fault_count self.new.disk }
        ensures fuses { D.fuse_count self.new.disk ≡ D.fuse_count self.old.disk }
    {
        let written = self.write_row(tag, DirRow { pair, volume })?;
        self.show_row(written);
        Ok(())
    }

    /// Writes the row of a pair, which has no home, to the disk. The homes do not have it before it is shown: until then the
    /// directory is frozen and the row is pending, and it stays so where what is answered is dropped. Room for the home is taken
    /// before the disk is called. `NoMemory` changes nothing, and `Failed` freezes the directory too.
    pub fn write_row(&mut self, tag: CoreTag, row: DirRow) -> Result<WrittenRow, DirFault>
        requires up { IsUp self.old }
        requires volume { row.volume < self.old.settings.volumes }
        requires homeless { home_of self.old row.pair ≡ None }

        ensures row { IfOk result (λ written. written ≡ record { unsure = record { tag = tag; row = row } }) }
        ensures written { D.Tells → (known : DirKnown) (drained : List Bool) → Stands D.files self.old known drained →
            OnOk result (IsRowWritten D.files self.new known drained (home_row row)) }
        // Something is known of a directory at any time.
        ensures stood { D.Tells → (known : DirKnown) × Stands D.files self.old known self.old.drained }
        ensures sound { D.Tells → OnOk result ((known : DirKnown) × (drained : List Bool) × IsRowWritten D.files self.new known drained (home_row row)) }
        ensures unshown { OnOk result (IsUnshown self.new (record { tag = tag; row = row })) }
        // Until it is shown it is pending.
        ensures given_up { D.Tells → (known : DirKnown) (drained : List Bool) → Stands D.files self.old known drained →
            OnOk result (Stands D.files self.new (record known { frozen = true; pending = Some (record { tag = tag; row = home_row row }) }) drained) }
        ensures no_memory { D.Tells → (known : DirKnown) (drained : List Bool) → Stands D.files self.old known drained →
            IsErrOf result DirFault.NoMemory → Stands D.files self.new known drained }
        ensures pending { D.Tells → (known : DirKnown) (drained : List Bool) (faults : ℕ) → Stands D.files self.old known drained →
            result ≡ Err (DirFault.Failed faults) →
            Stands D.files self.new (record known { frozen = true; pending = Some (record { tag = tag; row = home_row row }) }) drained }

        // Whatever the disk has.
        ensures homes { KeepsHomes self.old.homes self.new.homes }
        ensures drained { self.new.drained ≡ self.old.drained }
        ensures refused_mode { IfErr result (LeavesMode (record { tag = tag; row = row }) self.old.mode self.new.mode) }
        ensures seen { OnOk result (PendsSeen (record { tag = tag; row = row }) (directory_seen self.old) (directory_seen self.new)) }
        ensures refused_seen { IfErr result (SettleRefusedSeen tag row.pair row.volume (directory_seen self.old) (directory_seen self.new)) }
        ensures frozen { IsFrozen self.old → IsErrOf result DirFault.Frozen }
        ensures only_frozen { IsErrOf result DirFault.Frozen → IsFrozen self.old × (self.new ≡ self.old) }
        ensures failed { (faults : ℕ) → result ≡ Err (DirFault.Failed faults) →
            (faults ≡ D.fault_count self.new.disk) × Rose (D.fault_count self.old.disk) (D.fault_count self.new.disk) }
        ensures up { IsUp self.new }
        ensures settings { self.new.settings ≡ self.old.settings }
        ensures later { D.fault_count self.old.disk ≤ D.fault_count self.new.disk }
        ensures fuses { D.fuse_count self.new.disk ≡ D.fuse_count self.old.disk }
    {
        if self.is_frozen() {
            return Err(DirFault::Frozen);
        }
        let Ok(()) = self.homes.reserve(1) else {
            return Err(DirFault::NoMemory);
        };
        let unsure = Unsure { tag, row };
        self.mode = Mode::Frozen(unsure);
        match self.journal.settle_row(&mut self.disk, row) {
            Ok(()) => Ok(WrittenRow { unsure }),
            Err(DiskFault::NoMemory) => {
                self.mode = Mode::Open;
                Err(DirFault::NoMemory)
            }
            Err(DiskFault::Failed) => Err(DirFault::Failed {
                faults: self.disk.faults(),
            }),
        }
    }

    /// Shows a row that was written: its pair has its home, and the directory is no longer frozen. No memory is taken, and no
    /// call of the disk is made.
    pub fn show_row(&mut self, written: WrittenRow)
        requires unshown { IsUnshown self.old written.unsure }
        requires written { D.Tells → (known : DirKnown) × (drained : List Bool) × IsRowWritten D.files self.old known drained (home_row written.unsure.row) }
        ensures shown { D.Tells → (known : DirKnown) (drained : List Bool) →
            IsRowWritten D.files self.old known drained (home_row written.unsure.row) →
            Stands D.files self.new (record known { rows = known.rows ++ home_row written.unsure.row ∷ [] }) drained }
        ensures serves { self.new.mode ≡ Mode.Open }
        ensures home { SetsHome written.unsure.row.pair (Some written.unsure.row.volume) self.old.homes self.new.homes }
        ensures seen { ShowSeen written.unsure (directory_seen self.old) (directory_seen self.new) }
        ensures disk { self.new.disk ≡ self.old.disk }
        ensures settings { self.new.settings ≡ self.old.settings }
        ensures drained { self.new.drained ≡ self.old.drained }
    {
        let WrittenRow { unsure } = written;
        let row = unsure.row;
        let _homes = self.homes.len(); // few enough that the rows can be counted
        let Ok(()) = self.homes.insert(row.pair, row.volume) else {
            unreachable!()
        };
        self.count += 1;
        self.mode = Mode::Open;
    }

    /// Closes a machine to changes.
    pub fn drain(&mut self, machine: u32)
        requires up { IsUp self.old }
        requires machine { machine < self.old.settings.machines }
        ensures only { self.new ≡ record self.old { drained = slice_set self.old.drained machine true } }
        ensures seen { DrainSeen machine true (directory_seen self.old) (directory_seen self.new) }
        ensures stands { (known : DirKnown) (drained : List Bool) → Stands D.files self.old known drained →
            Stands D.files self.new known (slice_set drained machine true) }
    {
        self.set_drained(machine, true);
    }

    /// Opens a machine to changes again.
    pub fn undrain(&mut self, machine: u32)
        requires up { IsUp self.old }
        requires machine { machine < self.old.settings.machines }
        ensures only { self.new ≡ record self.old { drained = slice_set self.old.drained machine false } }
        ensures seen { DrainSeen machine false (directory_seen self.old) (directory_seen self.new) }
        ensures stands { (known : DirKnown) (drained : List Bool) → Stands D.files self.old known drained →
            Stands D.files self.new known (slice_set drained machine false) }
    {
        self.set_drained(machine, false);
    }

    // Drains a machine, or no longer.
    fn set_drained(&mut self, machine: u32, is_drained: bool)
        requires up { IsUp self.old }
        requires machine { machine < self.old.settings.machines }
        ensures { self.new ≡ record self.old { drained = slice_set self.old.drained machine is_drained } }
    {
        self.drained[machine as usize] = is_drained;
    }

    /// Whether a machine is drained.
    pub fn drained(&self, machine: u32) -> bool
        requires { machine < self.now.settings.machines }
        ensures is { result ≡ slice_index_or self.now.drained machine false }
        ensures known { (known : DirKnown) (drained : List Bool) → Stands D.files self.now known drained →
            result ≡ slice_index_or drained machine false }
    {
        self.drained[machine as usize]
    }

    /// The drains by machine once more.
    pub fn copy_drains(&self, alloc: Global) -> Result<Vec<bool>, NoMemory>
        ensures same { IfOk result (λ drains. drains.items ≡ self.now.drained) }
        ensures long { length self.now.drained ≡ self.now.settings.machines }
        ensures known { (known : DirKnown) (drained : List Bool) → Stands D.files self.now known drained → IfOk result (λ drains. drains.items ≡ drained) }
    {
        let machines = self.settings.machines as usize;
        Ok(Vec::from_slice(alloc, &self.drained[..machines])?)
    }

    /// How many calls of the disk have failed.
    pub fn faults(&self) -> u64
        ensures { result ≡ D.fault_count self.now.disk }
    {
        self.disk.faults()
    }

    /// Sets a fuse on the disk.
    pub fn fuse(&mut self, calls: u32)
        ensures only { self.new ≡ record self.old { disk = self.new.disk } }
        ensures seen { KeepsSeen (directory_seen self.old) (directory_seen self.new) }
        ensures same { D.Tells → D.files self.new.disk ≡ D.files self.old.disk }
        ensures stands { D.Tells → (known : DirKnown) (drained : List Bool) → Stands D.files self.old known drained → Stands D.files self.new known drained }
        ensures faults { D.fault_count self.new.disk ≡ D.fault_count self.old.disk }
        ensures fuses { IsNext (D.fuse_count self.old.disk) (D.fuse_count self.new.disk) }
    {
        self.disk.fuse(u64::from(calls));
    }

    /// Stops the disk and starts it again; `pick` chooses what it then holds. The directory is closed, and no machine is
    /// drained.
    pub fn stop(&mut self, pick: u64)
        ensures stopped { D.Tells → (known : DirKnown) (drained : List Bool) → Stands D.files self.old known drained → Stopped D.files self.new known }
        ensures again { D.Tells → (known : DirKnown) → Stopped D.files self.old known → Stopped D.files self.new known }
        ensures holds { D.Tells → (known : DirKnown) → Holds D.files self.old known → Holds D.files self.new known }
        ensures left { D.Tells → MayLeave (D.files self.old.disk) (λ n. (D.files self.new.disk n).now) }
        ensures solid { D.Tells → (n : ℕ) → IsSolid (D.files self.new.disk n) }
        ensures free { D.Tells → (n : ℕ) → IsFree (D.files self.new.disk n) }
        ensures closed { IsClosed self.new × (self.new.mode ≡ Mode.Closed (unsure_of self.old.mode)) }
        ensures seen { ClosedSeen self.old.settings.machines (directory_seen self.old) (directory_seen self.new) }
        ensures undrained { self.new.drained ≡ replicate self.old.settings.machines false }
        ensures long { length self.old.drained ≡ self.old.settings.machines }
        ensures settings { self.new.settings ≡ self.old.settings }
        ensures faults { D.fault_count self.new.disk ≡ D.fault_count self.old.disk }
        ensures fuses { D.fuse_count self.new.disk ≡ D.fuse_count self.old.disk }
    {
        self.mode = Mode::Closed(self.mode.unsure());
        self.drained = [false; MOST_MACHINES];
        self.disk.power_cycle(pick);
    }

    /// Gives the disk back.
    pub fn into_disk(self) -> D
        ensures { result ≡ self.disk }
    {
        let Directory {
            settings: _,
            disk,
            journal: _,
            homes: _,
            count: _,
            drained: _,
            mode: _,
        } = self;
        disk
    }
}
