//! The fold over the lines of a script.

ghost use Rattle.std.specs.Prelude.{◌≡◌, ◌<◌, ◌≤◌, ◌∷◌, [], ℕ, List, None, length, IfErr, IfOk, OnOk, IsErrOf};
ghost use Rattle.hay_script.specs.Script.{IsWithin, IsWithinLine};
ghost use Rattle.hay_batch.specs.Shelves.{MayLeaveDisks, StandsAs, StoredStore};
ghost use Rattle.hay_batch.specs.Stores.{IsReadyStore, IsShaped, KeepsCounts};
ghost use Rattle.hay_load.specs.declared.loading.BatchEnd.{BatchEnd};
ghost use Rattle.hay_load.specs.declared.loading.LoadEnd.{LoadEnd};
ghost use Rattle.hay_load.specs.Answers.{Remembered};
ghost use Rattle.hay_load.specs.Replies.{FitsLoad};
ghost use Rattle.hay_load.specs.Gathering.{Batch, IsGathered, bad_step, closed, command_step, line_step, put_step};
ghost use Rattle.hay_load.specs.Loads.{Answered, FailsBatch, FailsFirst, IsLoading, LeavesFirst, LeavesNew, Loads, Remembers, Suited, held_of};

use crate::batch::{Gathered, photo_of};
use crate::failing::failed_reply;
use crate::reply::{LoadReply, full_reply, load_line};
use hay_base::NoMemory;
use hay_batch::{LoadFault, LoadStore, Loaded, NewPhoto};
use hay_disk::Disk;
use hay_needle::MAX_PHOTO;
use hay_reply::Reply;
use hay_script::{Command, Line};
use std::alloc::Global;

/// Why a load ends before its script.
#[derive(Clone, Copy, Debug, PartialEq, Eq)]
pub enum LoadEnd {
    /// A disk failed, as the last line that was added tells.
    Failed,
    /// Memory was wanting.
    NoMemory,
}

impl From<NoMemory> for LoadEnd {
    ghost use Rattle.std.specs.Prelude.{◌≡◌};
    ghost use Rattle.hay_load.specs.declared.loading.LoadEnd.{LoadEnd};

    ghost from_gives = { λ _ end. end ≡ LoadEnd.NoMemory };

    fn from(_fault: NoMemory) -> LoadEnd {
        LoadEnd::NoMemory
    }
}

// Why a batch has no reply.
#[derive(Clone, Copy, Debug, PartialEq, Eq)]
pub(crate) enum BatchEnd {
    // The disk of this slot failed, and its count of faults rose to this.
    Failed { slot: u32, faults: u64 },
    NoMemory,
}

impl From<NoMemory> for BatchEnd {
    ghost use Rattle.std.specs.Prelude.{◌≡◌};
    ghost use Rattle.hay_load.specs.declared.loading.BatchEnd.{BatchEnd};

    ghost from_gives = { λ _ end. end ≡ BatchEnd.NoMemory };

    fn from(_fault: NoMemory) -> BatchEnd {
        BatchEnd::NoMemory
    }
}

// Loads a batch.
fn answer<D: Disk>(
    store: &mut LoadStore<D>,
    alloc: Global,
    photos: &[NewPhoto],
) -> Result<LoadReply, BatchEnd>
    requires gathered { IsGathered photos.now }
    requires shape { IsShaped store.old }
    requires ready { D.Tells → IsReadyStore D.files store.old }
    ensures answered { D.Tells → (s : StoredStore) → StandsAs D.files store.old s → IfOk result (λ reply. Answered D.files store.old.settings s photos.now reply store.new) }
    ensures fits { IfOk result FitsLoad }
    ensures suited { (known : Remembered) → Remembers store.old known → IfOk result (λ reply. Suited store.old.settings known photos.now reply store.new) }
    ensures left { D.Tells → (s : StoredStore) (image : ℕ → ℕ → List ℕ) → StandsAs D.files store.old s → MayLeaveDisks D.files store.new image →
        LeavesNew store.old.settings photos.now image s }
    ensures next { D.Tells → OnOk result (IsReadyStore D.files store.new) }
    ensures shape { (store.new.settings ≡ store.old.settings) × IsShaped store.new }
    ensures counts { KeepsCounts D.fault_count D.fuse_count store.old store.new }
    ensures failed { IfErr result (λ end. (slot faults : ℕ) → end ≡ BatchEnd.Failed slot faults → FailsBatch D.fault_count photos.now store.old store.new slot faults) }
{
    match store.load_batch(alloc, photos) {
        Ok(Loaded { volume, rows }) => Ok(LoadReply::Loaded {
            volume,
            photos: photos.len() as u64,
            rows,
        }),
        Err(LoadFault::Known { volume }) => Ok(LoadReply::Known { volume }),
        Err(LoadFault::Full { tries }) => match full_reply(alloc, tries.as_slice()) {
            Ok(reply) => Ok(reply),
            Err(NoMemory) => Err(BatchEnd::NoMemory),
        },
        Err(LoadFault::Failed { slot, faults }) => Err(BatchEnd::Failed { slot, faults }),
        Err(LoadFault::NoMemory) => Err(BatchEnd::NoMemory),
    }
}

// Loads a batch, and adds the line of its reply.
fn load<D: Disk>(
    store: &mut LoadStore<D>,
    alloc: Global,
    batch: &Gathered,
    out: &mut Vec<u8>,
) -> Result<(), LoadEnd>
    requires gathered { IsGathered batch.now.photos.items }
    requires shape { IsShaped store.old }
    requires replicas { 0 < store.old.settings.replicas }
    requires ready { D.Tells → IsReadyStore D.files store.old }
    ensures loads { OnOk result (Loads D.Tells D.files (Batch batch.now.line batch.now.photos.items ∷ []) store.old store.new out.old.items out.new.items) }
    ensures left { D.Tells → (s : StoredStore) (image : ℕ → ℕ → List ℕ) → StandsAs D.files store.old s → MayLeaveDisks D.files store.new image →
        LeavesNew store.old.settings batch.now.photos.items image s }
    ensures next { D.Tells → OnOk result (IsReadyStore D.files store.new) }
    ensures shape { (store.new.settings ≡ store.old.settings) × IsShaped store.new }
    ensures counts { KeepsCounts D.fault_count D.fuse_count store.old store.new }
    ensures failed { IsErrOf result LoadEnd.Failed → FailsFirst D.fault_count (Batch batch.now.line batch.now.photos.items ∷ []) store.old store.new out.old.items out.new.items }
{
    match answer(store, alloc, batch.photos.as_slice()) {
        Ok(reply) => {
            load_line(alloc, batch.line, &reply, out)?;
            Ok(())
        }
        Err(BatchEnd::Failed { slot, faults }) => {
            let reply = failed_reply(&store.settings, slot, faults);
            load_line(alloc, batch.line, &LoadReply::Other(reply), out)?;
            Err(LoadEnd::Failed)
        }
        Err(BatchEnd::NoMemory) => Err(LoadEnd::NoMemory),
    }
}

/// A store that is loaded, and the batch that is open.
#[derive(Drop)]
pub struct Loading<D> {
    pub store: LoadStore<D>,
    pub held: Option<Gathered>,
}

impl<D: Disk> Loading<D> {
    /// A load that has taken no line.
    pub fn new(store: LoadStore<D>) -> Loading<D>
        requires shape { IsShaped store }
        requires replicas { 0 < store.settings.replicas }
        requires ready { D.Tells → IsReadyStore D.files store }
        ensures made { result ≡ record { store = store; held = None } }
        ensures ready { IsLoading D.Tells D.files result }
    {
        Loading { store, held: None }
    }

    /// Ends the open batch, if there is one, at the end of the lines: it is loaded, and the line of its reply is added.
    pub fn end(&mut self, alloc: Global, out: &mut Vec<u8>) -> Result<(), LoadEnd>
        requires { IsLoading D.Tells D.files self.old }
        ensures loads { OnOk result (Loads D.Tells D.files (closed (held_of self.old.held)) self.old.store self.new.store out.old.items out.new.items) }
        ensures none { self.new.held ≡ None }
        ensures next { OnOk result (IsLoading D.Tells D.files self.new) }
        ensures left { D.Tells → (s : StoredStore) (image : ℕ → ℕ → List ℕ) → StandsAs D.files self.old.store s → MayLeaveDisks D.files self.new.store image →
            LeavesFirst self.old.store.settings (closed (held_of self.old.held)) image s }
        ensures shape { (self.new.store.settings ≡ self.old.store.settings) × IsShaped self.new.store }
        ensures counts { KeepsCounts D.fault_count D.fuse_count self.old.store self.new.store }
        ensures failed { IsErrOf result LoadEnd.Failed → FailsFirst D.fault_count (closed (held_of self.old.held)) self.old.store self.new.store out.old.items out.new.items }
    {
        match self.held.take() {
            Some(batch) => load(&mut self.store, alloc, &batch, out),
            None => Ok(()),
        }
    }

    // Takes a line that is no put: it ends the open batch, and is a bad line.
    fn bad(&mut self, alloc: Global, number: u64, out: &mut Vec<u8>) -> Result<(), LoadEnd>
        requires { IsLoading D.Tells D.files self.old }
        ensures loads { OnOk result (Loads D.Tells D.files (bad_step number (held_of self.old.held)).groups self.old.store self.new.store out.old.items out.new.items) }
        ensures none { self.new.held ≡ None }
        ensures next { OnOk result (IsLoading D.Tells D.files self.new) }
        ensures left { D.Tells → (s : StoredStore) (image : ℕ → ℕ → List ℕ) → StandsAs D.files self.old.store s → MayLeaveDisks D.files self.new.store image →
            LeavesFirst self.old.store.settings (bad_step number (held_of self.old.held)).groups image s }
        ensures shape { (self.new.store.settings ≡ self.old.store.settings) × IsShaped self.new.store }
        ensures counts { KeepsCounts D.fault_count D.fuse_count self.old.store self.new.store }
        ensures failed { IsErrOf result LoadEnd.Failed → FailsFirst D.fault_count (bad_step number (held_of self.old.held)).groups self.old.store self.new.store out.old.items out.new.items }
    {
        self.end(alloc, out)?;
        load_line(alloc, number, &LoadReply::Other(Reply::BadLine), out)?;
        Ok(())
    }

    // Takes a put: its photo joins the open batch, or opens another.
    fn put(
        &mut self,
        alloc: Global,
        number: u64,
        photo: NewPhoto,
        out: &mut Vec<u8>,
    ) -> Result<(), LoadEnd>
        requires loading { IsLoading D.Tells D.files self.old }
        requires size { length photo.bytes ≤ MAX_PHOTO }
        ensures loads { OnOk result (Loads D.Tells D.files (put_step number (held_of self.old.held) photo).groups self.old.store self.new.store out.old.items out.new.items) }
        ensures held { OnOk result (held_of self.new.held ≡ (put_step number (held_of self.old.held) photo).held) }
        ensures next { OnOk result (IsLoading D.Tells D.files self.new) }
        ensures left { D.Tells → (s : StoredStore) (image : ℕ → ℕ → List ℕ) → StandsAs D.files self.old.store s → MayLeaveDisks D.files self.new.store image →
            LeavesFirst self.old.store.settings (put_step number (held_of self.old.held) photo).groups image s }
        ensures shape { (self.new.store.settings ≡ self.old.store.settings) × IsShaped self.new.store }
        ensures counts { KeepsCounts D.fault_count D.fuse_count self.old.store self.new.store }
        ensures failed { IsErrOf result LoadEnd.Failed → FailsFirst D.fault_count (put_step number (held_of self.old.held) photo).groups self.old.store self.new.store out.old.items out.new.items }
    {
        let Some(batch) = self.held.take() else {
            self.held = Some(Gathered::new(alloc, number, photo)?);
            return Ok(());
        };
        if batch.joins(&photo) {
            self.held = Some(batch.with(photo)?);
            return Ok(());
        }
        load(&mut self.store, alloc, &batch, out)?;
        self.held = Some(Gathered::new(alloc, number, photo)?);
        Ok(())
    }

    // Takes a command.
    fn command(
        &mut self,
        alloc: Global,
        number: u64,
        command: Command,
        out: &mut Vec<u8>,
    ) -> Result<(), LoadEnd>
        requires loading { IsLoading D.Tells D.files self.old }
        requires within { IsWithin command }
        ensures loads { OnOk result (let step = command_step self.old.store.settings number (held_of self.old.held) command in
            Loads D.Tells D.files step.groups self.old.store self.new.store out.old.items out.new.items) }
        ensures held { OnOk result (held_of self.new.held ≡ (command_step self.old.store.settings number (held_of self.old.held) command).held) }
        ensures next { OnOk result (IsLoading D.Tells D.files self.new) }
        ensures left { D.Tells → (s : StoredStore) (image : ℕ → ℕ → List ℕ) → StandsAs D.files self.old.store s → MayLeaveDisks D.files self.new.store image →
            LeavesFirst self.old.store.settings (command_step self.old.store.settings number (held_of self.old.held) command).groups image s }
        ensures shape { (self.new.store.settings ≡ self.old.store.settings) × IsShaped self.new.store }
        ensures counts { KeepsCounts D.fault_count D.fuse_count self.old.store self.new.store }
        ensures failed { IsErrOf result LoadEnd.Failed → FailsFirst D.fault_count (command_step self.old.store.settings number (held_of self.old.held) command).groups
            self.old.store self.new.store out.old.items out.new.items }
    {
        match command {
            Command::Put { pair, photo } => {
                let photo = photo_of(&self.store.settings, pair, photo);
                self.put(alloc, number, photo, out)
            }
            Command::Read { .. }
            | Command::Get { .. }
            | Command::Del { .. }
            | Command::Url { .. }
            | Command::Flush { .. }
            | Command::Compact { .. }
            | Command::Begin { .. }
            | Command::Step { .. }
            | Command::Finish { .. }
            | Command::Drain { .. }
            | Command::Undrain { .. }
            | Command::Fuse { .. }
            | Command::FuseDir { .. }
            | Command::Restart { .. } => self.bad(alloc, number, out),
        }
    }

    /// Takes the line of this number: the groups that it ends are answered, and the lines of the replies are added. A value
    /// that refused must not be used for another line.
    pub fn take(
        &mut self,
        alloc: Global,
        number: u64,
        line: Line,
        out: &mut Vec<u8>,
    ) -> Result<(), LoadEnd>
        requires loading { IsLoading D.Tells D.files self.old }
        requires within { IsWithinLine line }

        // At `Ok` what the line ends is answered, and the open batch is the one that the line leaves open.
        ensures loads { OnOk result (Loads D.Tells D.files (line_step self.old.store.settings number (held_of self.old.held) line).groups self.old.store self.new.store out.old.items out.new.items) }
        ensures held { OnOk result (held_of self.new.held ≡ (line_step self.old.store.settings number (held_of self.old.held) line).held) }
        ensures next { OnOk result (IsLoading D.Tells D.files self.new) }

        // Whatever a stop leaves, then or after a refusal, has no row of the first batch that the line ends, or the whole batch.
        ensures left { D.Tells → (s : StoredStore) (image : ℕ → ℕ → List ℕ) → StandsAs D.files self.old.store s → MayLeaveDisks D.files self.new.store image →
            LeavesFirst self.old.store.settings (line_step self.old.store.settings number (held_of self.old.held) line).groups image s }
        ensures shape { (self.new.store.settings ≡ self.old.store.settings) × IsShaped self.new.store }
        ensures counts { KeepsCounts D.fault_count D.fuse_count self.old.store self.new.store }
        ensures failed { IsErrOf result LoadEnd.Failed → FailsFirst D.fault_count (line_step self.old.store.settings number (held_of self.old.held) line).groups
            self.old.store self.new.store out.old.items out.new.items }
    {
        match line {
            Line::Skip => Ok(()),
            Line::Plain(command) => self.command(alloc, number, command, out),
            Line::Bad | Line::InLane { .. } | Line::Lanes(_) | Line::End => self.bad(
                alloc, number, out,
            ),
        }
    }
}
