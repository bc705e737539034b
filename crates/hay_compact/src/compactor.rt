//! A compaction that is under way.

ghost use Rattle.std.specs.Prelude.{◌≡◌, ◌⊎◌, ◌≢◌, ◌≤◌, ◌<◌, ◌+◌, ◌∷◌, [], List, ℕ, length, map, drop, Err, IsTrue, IfOk, OnOk, OnErr, IsErr, IsErrOf, IfSome, IfNone, ◌↔◌, Ok, Some, true, false, ◌^◌};
ghost use Rattle.hay_disk.specs.Counts.{IsCounted};
ghost use Rattle.hay_disk.specs.Disk.{Files, KeepsOthers};
ghost use Rattle.hay_needle.specs.declared.needle.Cell.{Cell};
ghost use Rattle.hay_needle.specs.declared.settings.Super.{Super};
ghost use Rattle.hay_needle.specs.Needle.{live};
ghost use Rattle.hay_needle.specs.Sizes.{needle_total};
ghost use Rattle.hay_needle.specs.Tables.{live_needles, table_of};
ghost use Rattle.hay_volume.specs.Cells.{IsMarked, IsVolume, StandsCell, cell_head, needles_of};
ghost use Rattle.hay_volume.specs.declared.fault.CellFault.{CellFault};
ghost use Rattle.hay_volume.specs.declared.volume.VolumeFile.{VolumeFile};
ghost use Rattle.hay_open.specs.Stored.{index_file, volume_file};
ghost use Rattle.hay_volume.specs.Needles.{HasNeedleOf, LacksNeedleWithin};
ghost use Rattle.hay_compact.specs.Copying.{Copies, Copying, HasPeeked, HeadStands, HasRead, IsCopy, IsHeadOf, IsLatest};
ghost use Rattle.hay_compact.specs.Copying.{IsMaking, IsNextWithin, IsPassedOrStands, KeepsOtherFiles, Making, MovesOn, Repeats, live_among, renewed_needle};

use crate::standing::{LastCell, Standing};
use hay_base::NoMemory;
use hay_disk::{Disk, DiskFault, Failed};
use hay_index::{IndexFile, Record};
use hay_needle::{
    CellHead, Cookie, FileKind, HEAD_LEN, LAST_GENERATION, MAX_PHOTO, NEEDLE_MAGIC, Pair, Super,
    encode_rest, total_of,
};
use hay_open::head_at;
use hay_volume::{CellFault, VolumeFault, VolumeFile};
use std::alloc::Global;
use std::marker::Model;

// The number of bytes of the end mark.
const MARK_LEN: u64 = 8;

/// The files of the new generation, and how far the current one is examined.
#[derive(Drop)]
pub struct Compactor {
    pub(crate) generation: u64,
    /// The bytes that the new volume file may have once it is the current one. What is copied is never longer than what it
    /// is copied from, so until then nothing bounds it.
    pub(crate) capacity: u64,
    pub(crate) volume: VolumeFile,
    /// The records of the cells that were copied are noted in it.
    pub(crate) index: IndexFile,
    pub(crate) standing: Standing,
    /// Where the next cell of the current volume file stands.
    pub(crate) next: u64,
    /// The needle that was read last.
    pub(crate) bytes: Vec<u8>,
    /// What is written of it: its needle anew, and the end mark behind it.
    pub(crate) anew: Vec<u8>,
}

impl Model for Compactor {
    ghost use Rattle.hay_compact.specs.Copying.{IsSafe, Stage};

    ghost Value = { Stage };

    ghost view = { λ c. record { generation = c.generation; capacity = c.capacity; volume = c.volume; index = c.index; standing = c.standing; next = c.next; bytes = c.bytes.items } };

    ghost invariant = { λ c. IsSafe c.generation c.volume c.index c.next };
}

impl Compactor {
    /// Begins the files of a new generation: what stands in their place is taken away, and each gets a superblock and the
    /// end mark. Four changing calls.
    pub fn begin<D: Disk>(
        alloc: Global,
        disk: &mut D,
        sup: &Super,
        generation: u64,
    ) -> Result<Compactor, DiskFault>
        requires { generation ≤ LAST_GENERATION }

        // Nothing is examined, and nothing is copied.
        ensures begun { D.Tells → IfOk result (λ stage. (old : VolumeFile) (superblock : List ℕ) (cells : List Cell) →
            IsVolume superblock (D.files disk.old old.file).now cells old.end →
            old.file ≢ volume_file generation → old.file ≢ index_file generation →
            Copying sup.now (D.files disk.new) old stage cells [] 0) }
        ensures made { D.Tells → IfOk result (λ stage. Making sup.now (D.files disk.new) stage []) }
        ensures names { IfOk result (λ stage. stage.generation ≡ generation) }
        ensures capacity { IfOk result (λ stage. stage.capacity ≡ sup.now.settings.capacity) }
        ensures first { IfOk result (λ stage. stage.next ≡ 64) }

        ensures others { D.Tells → KeepsOtherFiles generation (D.files disk.old) (D.files disk.new) }
        ensures drawn { D.Tells → (n : ℕ) → D.drawn disk.new n ≡ D.drawn disk.old n }
        ensures counted { IsCounted (D.fault_count disk.old) (D.fault_count disk.new) (IsErrOf result DiskFault.Failed) }
        ensures fuses { D.fuse_count disk.new ≡ D.fuse_count disk.old }
    {
        let volume_file = (2 * generation + 1) as u32;
        let index_file = (2 * generation + 2) as u32;
        disk.remove(volume_file)?;
        disk.remove(index_file)?;
        let volume = VolumeFile::format(
            disk,
            volume_file,
            &super_of(sup, FileKind::Volume, generation),
        )?;
        let index = IndexFile::format(
            alloc,
            disk,
            index_file,
            &super_of(sup, FileKind::Index, generation),
        )?;
        Ok(Compactor {
            generation,
            capacity: volume.capacity(),
            volume: VolumeFile::adopt(volume_file, volume.end(), u64::MAX),
            index,
            standing: Standing::new(alloc),
            next: volume.end(),
            bytes: Vec::new(alloc),
            anew: Vec::new(alloc),
        })
    }

    /// The generation that is made.
    pub fn generation(&self) -> u64
        ensures { result ≡ self.now.generation }
    {
        self.generation
    }

    /// How many cells the new volume file has.
    pub fn copied(&self) -> u64
        ensures { result ≡ length self.now.index.pending }
    {
        self.index.pending() as u64
    }

    /// Whether all cells of the current volume file were examined.
    pub fn ready(&self, old: &VolumeFile) -> bool
        ensures end { IsTrue result ↔ (old.now.end ≤ self.now.next) }
        ensures all { (sup : Super) (files : Files) (current fresh : List Cell) (examined : ℕ) →
            Copying sup files old.now self.now current fresh examined → (IsTrue result ↔ (examined ≡ length current)) }

        // Then the new file has the table of the current one, and where nothing was changed meanwhile, its live needles, each of
        // version 2.
        ensures table { (sup : Super) (files : Files) (current fresh : List Cell) (examined : ℕ) →
            Copying sup files old.now self.now current fresh examined → IsTrue result →
            Copies fresh current examined → table_of (needles_of fresh) ≡ table_of (needles_of current) }
        ensures live { (sup : Super) (files : Files) (current fresh : List Cell) (examined : ℕ) →
            Copying sup files old.now self.now current fresh examined → IsTrue result →
            needles_of fresh ≡ map renewed_needle (live_among examined (needles_of current)) → needles_of fresh ≡ map renewed_needle (live_needles (needles_of current)) }
    {
        old.end() <= self.next
    }

    /// The next cell of the current volume file, or none at its end, by the head of its needle. Nothing else is read.
    ///
    /// `Damaged` comes only where that file has no needle at this place. It takes no memory.
    pub fn peek<D: Disk>(
        &self,
        disk: &mut D,
        old: &VolumeFile,
    ) -> Result<Option<CellHead>, CellFault>
        // On any disk the cell may be copied.
        ensures peeked { IfOk result (λ next. IfSome next (λ head. HasPeeked old.now.end self.now.next head)) }
        ensures end { IfOk result (λ next. IfNone next (old.now.end ≤ self.now.next)) }
        ensures more { IfOk result (λ next. IfSome next (λ head. self.now.next < old.now.end)) }
        ensures cell { D.Tells → (sup : Super) (current fresh : List Cell) (examined : ℕ) →
            Copying sup (D.files disk.old) old.now self.now current fresh examined →
            IfOk result (λ next. IfSome next (λ head. (cell : Cell)
            × (drop examined current ≡ cell ∷ drop (examined + 1) current)
            × IsHeadOf self.now.next head cell)) }
        ensures all { D.Tells → (sup : Super) (current fresh : List Cell) (examined : ℕ) →
            Copying sup (D.files disk.old) old.now self.now current fresh examined →
            IfOk result (λ next. IfNone next (examined ≡ length current)) }

        ensures place { (k : ℕ) → result ≡ Err (CellFault.Damaged k) → IsNextWithin old.now.end self.now.next k }
        ensures whole { D.Tells → (sup : Super) (current fresh : List Cell) (examined k : ℕ) →
            Copying sup (D.files disk.old) old.now self.now current fresh examined → result ≡ Err (CellFault.Damaged k) → ⊥ }
        // Where the disk tells, whatever it has, the head stands there, and there is no needle where damage is.
        ensures head { D.Tells → IfOk result (λ next. IfSome next (λ head. HeadStands self.now.next head (D.files disk.old old.now.file).now)) }
        ensures lacks { D.Tells → old.now.end + 8 < 2 ^ 64 → (k : ℕ) → result ≡ Err (CellFault.Damaged k) →
            LacksNeedleWithin old.now.end k (D.files disk.old old.now.file).now }
        ensures memory { result ≡ Err CellFault.NoMemory → ⊥ }

        ensures same { D.Tells → D.files disk.new ≡ D.files disk.old }
        ensures drawn { D.Tells → OnOk result (D.drawn disk.new old.now.file ≤ D.drawn disk.old old.now.file + 36) }
        ensures drawn_none { D.Tells → IfOk result (λ next. IfNone next ((n : ℕ) → D.drawn disk.new n ≡ D.drawn disk.old n)) }
        ensures drawn_others { D.Tells → KeepsOthers old.now.file (D.drawn disk.old) (D.drawn disk.new) }
        ensures counted { IsCounted (D.fault_count disk.old) (D.fault_count disk.new) (IsErrOf result CellFault.Failed) }
        ensures fuses { D.fuse_count disk.new ≡ D.fuse_count disk.old }
    {
        if self.ready(old) {
            return Ok(None);
        }
        let Some(head) = head_at(disk, old.file(), self.next)? else {
            return Err(CellFault::Damaged { at: self.next });
        };
        let room = old.end().saturating_add(MARK_LEN).saturating_sub(self.next);
        if room < total_of(head.size) + MARK_LEN {
            return Err(CellFault::Damaged { at: self.next });
        }
        Ok(Some(head))
    }

    /// Examines the cell that was peeked at: it is written anew, in version 2, if it is not deleted and `latest` is its place,
    /// and the answer is whether it was. `latest` is the place of the last cell of its pair in the current volume file, or none
    /// where that cell is deleted. The rest of its needle is read where it is written anew, and only there.
    ///
    /// `Damaged` comes only where the current volume file has no needle at this place. `NoMemory` leaves the compaction where it
    /// stood. After `Failed` it must not go on.
    pub fn copy<D: Disk>(
        &mut self,
        disk: &mut D,
        old: &VolumeFile,
        cell: CellHead,
        latest: Option<u64>,
    ) -> Result<bool, CellFault>
        requires peeked { HasPeeked old.now.end self.old.next cell }
        requires making { D.Tells → IsMaking (D.files disk.old) self.old }

        ensures examined { D.Tells → IfOk result (λ copied. (sup : Super) (current fresh : List Cell) (examined : ℕ) (c : Cell) →
            Copying sup (D.files disk.old) old.now self.old current fresh examined →
            drop examined current ≡ c ∷ drop (examined + 1) current →
            IsHeadOf self.old.next cell c →
            IsLatest current c.pair latest →
            MovesOn sup (D.files disk.new) old.now self.new current fresh examined c self.old.volume.end copied) }
        // A cell that is deleted, or is not the last of its pair, is passed over, whatever its needle has behind the head.
        ensures passed { (cell.deleted ≡ true) ⊎ (latest ≢ Some self.old.next) → (result ≡ Ok false) × (disk.new ≡ disk.old) }
        // Where the disk tells, whatever it has, any other one's needle stands there.
        ensures met { D.Tells → OnOk result (IsPassedOrStands self.old.next cell latest (D.files disk.old old.now.file).now) }
        ensures whole { D.Tells → (sup : Super) (current fresh : List Cell) (examined k : ℕ) (c : Cell) →
            Copying sup (D.files disk.old) old.now self.old current fresh examined →
            drop examined current ≡ c ∷ drop (examined + 1) current →
            IsHeadOf self.old.next cell c → result ≡ Err (CellFault.Damaged k) → ⊥ }
        ensures place { (k : ℕ) → result ≡ Err (CellFault.Damaged k) → IsNextWithin old.now.end self.old.next k }
        // Where the disk tells and the head stands there, whatever else it has, there is no needle where damage is.
        ensures lacks { D.Tells → HeadStands self.old.next cell (D.files disk.old old.now.file).now → (k : ℕ) → result ≡ Err (CellFault.Damaged k) →
            LacksNeedleWithin old.now.end k (D.files disk.old old.now.file).now }
        ensures stands { D.Tells → IsErrOf result CellFault.NoMemory → (sup : Super) (current fresh : List Cell) (examined : ℕ) →
            Copying sup (D.files disk.old) old.now self.old current fresh examined →
            Copying sup (D.files disk.new) old.now self.new current fresh examined }
        ensures kept { D.Tells → IsErrOf result CellFault.NoMemory → D.files disk.new ≡ D.files disk.old }
        ensures making { D.Tells → OnOk result (IsMaking (D.files disk.new) self.new) }
        ensures made { D.Tells → IsErrOf result CellFault.NoMemory → IsMaking (D.files disk.new) self.new }

        ensures moved { OnOk result (self.new.next ≡ self.old.next + needle_total cell.size) }
        ensures stayed { OnErr result (self.new.next ≡ self.old.next) }
        ensures names { self.new.generation ≡ self.old.generation }
        ensures capacity { self.new.capacity ≡ self.old.capacity }
        ensures others { D.Tells → KeepsOthers self.old.volume.file (D.files disk.old) (D.files disk.new) }
        ensures drawn { D.Tells → D.drawn disk.new old.now.file ≤ D.drawn disk.old old.now.file + needle_total cell.size }
        ensures drawn_others { D.Tells → KeepsOthers old.now.file (D.drawn disk.old) (D.drawn disk.new) }
        ensures counted { IsCounted (D.fault_count disk.old) (D.fault_count disk.new) (IsErrOf result CellFault.Failed) }
        ensures fuses { D.fuse_count disk.new ≡ D.fuse_count disk.old }
    {
        if cell.deleted || latest != Some(self.next) {
            self.next += total_of(cell.size);
            return Ok(false);
        }
        self.read(disk, old, cell)?;
        self.append(disk, cell)?;
        Ok(true)
    }

    // Reads the needle of the next cell, which has this head.
    fn read<D: Disk>(
        &mut self,
        disk: &mut D,
        old: &VolumeFile,
        head: CellHead,
    ) -> Result<(), CellFault>
        requires { HasPeeked old.now.end self.old.next head }
        ensures read { OnOk result (HasRead self.new.next self.new.bytes head) }
        ensures copy { D.Tells → OnOk result ((cell : Cell) → StandsCell self.old.next (D.files disk.old old.now.file).now cell →
            IsCopy self.new.next self.new.bytes head cell) }
        // Where the disk tells, whatever it has, the needle stands there.
        ensures there { D.Tells → OnOk result (HasNeedleOf head.size head.deleted self.old.next (D.files disk.old old.now.file).now) }
        ensures place { (k : ℕ) → result ≡ Err (CellFault.Damaged k) → k ≡ self.old.next }
        ensures whole { D.Tells → (k : ℕ) (cell : Cell) → StandsCell self.old.next (D.files disk.old old.now.file).now cell → head ≡ cell_head cell →
            result ≡ Err (CellFault.Damaged k) → ⊥ }

        // The compaction stands where it stood.
        ensures stands { self.new ≡ record self.old { bytes = self.new.bytes } }
        ensures same { D.Tells → D.files disk.new ≡ D.files disk.old }
        ensures drawn { D.Tells → D.drawn disk.new old.now.file ≤ D.drawn disk.old old.now.file + needle_total head.size }
        ensures drawn_others { D.Tells → KeepsOthers old.now.file (D.drawn disk.old) (D.drawn disk.new) }
        ensures counted { IsCounted (D.fault_count disk.old) (D.fault_count disk.new) (IsErrOf result CellFault.Failed) }
        ensures fuses { D.fuse_count disk.new ≡ D.fuse_count disk.old }
    {
        let read = old.cell_within(disk, self.next, head.size, &mut self.bytes)?;
        if read != head {
            return Err(CellFault::Damaged { at: self.next });
        }
        Ok(())
    }

    // Writes the cell that was read anew, in version 2.
    fn append<D: Disk>(&mut self, disk: &mut D, cell: CellHead) -> Result<(), CellFault>
        requires read { HasRead self.old.next self.old.bytes cell }
        requires alive { cell.deleted ≡ false }
        requires making { D.Tells → IsMaking (D.files disk.old) self.old }

        ensures examined { D.Tells → OnOk result ((sup : Super) (old : VolumeFile) (current fresh : List Cell) (examined : ℕ) (c : Cell) →
            Copying sup (D.files disk.old) old self.old current fresh examined →
            drop examined current ≡ c ∷ drop (examined + 1) current →
            IsCopy self.old.next self.old.bytes cell c →
            IsLatest current c.pair (Some self.old.next) →
            MovesOn sup (D.files disk.new) old self.new current fresh examined c self.old.volume.end true) }
        ensures stands { D.Tells → IsErrOf result CellFault.NoMemory → (sup : Super) (old : VolumeFile) (current fresh : List Cell) (examined : ℕ) →
            Copying sup (D.files disk.old) old self.old current fresh examined →
            Copying sup (D.files disk.new) old self.new current fresh examined }
        ensures kept { D.Tells → IsErrOf result CellFault.NoMemory → D.files disk.new ≡ D.files disk.old }
        ensures making { D.Tells → OnOk result (IsMaking (D.files disk.new) self.new) }
        ensures made { D.Tells → IsErrOf result CellFault.NoMemory → IsMaking (D.files disk.new) self.new }
        ensures damaged { (k : ℕ) → result ≡ Err (CellFault.Damaged k) → ⊥ }

        ensures moved { OnOk result (self.new.next ≡ self.old.next + needle_total cell.size) }
        ensures stayed { OnErr result (self.new.next ≡ self.old.next) }
        ensures names { self.new.generation ≡ self.old.generation }
        ensures capacity { self.new.capacity ≡ self.old.capacity }
        ensures others { D.Tells → KeepsOthers self.old.volume.file (D.files disk.old) (D.files disk.new) }
        ensures drawn { D.Tells → (n : ℕ) → D.drawn disk.new n ≡ D.drawn disk.old n }
        ensures counted { IsCounted (D.fault_count disk.old) (D.fault_count disk.new) (IsErrOf result CellFault.Failed) }
        ensures fuses { D.fuse_count disk.new ≡ D.fuse_count disk.old }
    {
        let photo = &self.bytes.as_slice()[HEAD_LEN..HEAD_LEN + cell.size as usize];
        encode_marked(cell.pair, cell.cookie, photo, &mut self.anew)?;
        self.standing.reserve(cell.pair)?;
        let row = Record {
            pair: cell.pair,
            at: self.volume.end(),
            size: cell.size,
        };
        self.index.note(row)?;
        match self.volume.append_loose(disk, self.anew.as_slice()) {
            Ok(at) => {
                self.standing
                    .set(cell.pair, LastCell { at, deleted: false });
                self.next += total_of(cell.size);
                Ok(())
            }
            Err(fault) => {
                self.index.unnote();
                Err(refusal(fault))
            }
        }
    }

    /// Repeats a delete: the pair's last cell in the new file, whatever version it is, is marked as deleted. One write, also
    /// where that cell is deleted already. Where the pair has no cell there, nothing is called. It takes no memory. After
    /// `Failed` the compaction must not go on.
    pub fn repeat_delete<D: Disk>(&mut self, disk: &mut D, pair: Pair) -> Result<(), Failed>
        requires { D.Tells → IsMaking (D.files disk.old) self.old }

        ensures repeated { D.Tells → OnOk result ((sup : Super) (old : VolumeFile) (current fresh : List Cell) (examined : ℕ) →
            Copying sup (D.files disk.old) old self.old current fresh examined →
            Repeats sup (D.files disk.new) old self.new current fresh examined pair) }
        ensures making { D.Tells → OnOk result (IsMaking (D.files disk.new) self.new) }

        ensures next { self.new.next ≡ self.old.next }
        ensures names { self.new.generation ≡ self.old.generation }
        ensures capacity { self.new.capacity ≡ self.old.capacity }
        ensures others { D.Tells → KeepsOthers self.old.volume.file (D.files disk.old) (D.files disk.new) }
        ensures drawn { D.Tells → (n : ℕ) → D.drawn disk.new n ≡ D.drawn disk.old n }
        ensures counted { IsCounted (D.fault_count disk.old) (D.fault_count disk.new) (IsErr result) }
        ensures fuses { D.fuse_count disk.new ≡ D.fuse_count disk.old }
    {
        let Some(last) = self.standing.last(pair) else {
            return Ok(());
        };
        self.volume.flag_loose(disk, last.at)?;
        self.standing.set(
            pair,
            LastCell {
                at: last.at,
                deleted: true,
            },
        );
        Ok(())
    }
}

// The superblock of a file of this generation.
fn super_of(sup: &Super, kind: FileKind, generation: u64) -> Super
    ensures { result ≡ record sup.now { kind = kind; generation = generation } }
{
    Super {
        settings: sup.settings,
        kind,
        volume: sup.volume,
        replica: sup.replica,
        generation,
    }
}

// A photo's needle, in version 2, and the end mark behind it: `out` then has these bytes, and nothing else.
fn encode_marked(
    pair: Pair,
    cookie: Cookie,
    photo: &[u8],
    out: &mut Vec<u8>,
) -> Result<(), NoMemory>
    requires { length photo.now ≤ MAX_PHOTO }
    ensures { OnOk result (IsMarked out.new.items (live pair cookie photo.now)) }
{
    out.clear();
    out.extend_from_slice(&NEEDLE_MAGIC.to_be_bytes())?;
    encode_rest(pair, cookie, photo, out)
}

// Why a cell was not copied.
fn refusal(fault: VolumeFault) -> CellFault
    requires { (fault ≡ VolumeFault.Failed) ⊎ (fault ≡ VolumeFault.NoMemory) }
    ensures failed { result ≡ CellFault.Failed → fault ≡ VolumeFault.Failed }
    ensures no_memory { result ≡ CellFault.NoMemory → fault ≡ VolumeFault.NoMemory }
    ensures damaged { (k : ℕ) → result ≡ CellFault.Damaged k → ⊥ }
{
    match fault {
        VolumeFault::Failed => CellFault::Failed,
        VolumeFault::NoMemory => CellFault::NoMemory,
        VolumeFault::Full { .. } => unreachable!(), // nothing bounds the new file
    }
}
