//! Compactions of replicas.
ghost use Rattle.std.specs.Prelude.{◌≡◌, ◌≤◌, ◌<◌, ℕ, if◌then◌else◌, true, false, length, map, None, Err, IfOk, OnOk, OnErr};
ghost use Rattle.hay_map.specs.Places.{place_in};
ghost use Rattle.hay_physical.specs.OpenCopies.{Copy, IsUp, goal_of, is_frozen, next_of, volume_bytes};
ghost use Rattle.hay_logical.specs.Fits.{At};
ghost use Rattle.hay_logical.specs.Needles.{HeadsLead, HeadsLeadOn, HeadsLeadPart, IsDamagedCell, LacksCell, LacksCellAnew, LacksCellLeft};
ghost use Rattle.hay_logical.specs.Sights.{sights_of};
ghost use Rattle.hay_logical.specs.Seen.{BeginsTo, BreaksStep, ChangesRun, IsEnded, StepsTo, SwapSeen, begun, replica_seen};
ghost use Rattle.hay_logical.specs.ReplicaCalls.Start.{Examined, Fresh, Going};
ghost use Rattle.hay_logical.specs.ReplicaCalls.{AllIdle, BeginsAt, CallsOne, ExaminesAt, KeepsPlaces, LosesRun, StaysInReach, StepsAt, SwapsAt, SwapsOne, latest_of, still_gone, still_gone_cell};
ghost use Rattle.hay_logical.specs.Volumes.{KeepsCounts};

use hay_base::Listed;
use hay_disk::{Disk, Piece};
use hay_map::{MapView, OpenCell, Place, Row};
use hay_needle::MAX_REPLICAS;
use hay_physical::{Replica, ReplicaFault};
use std::alloc::Global;

/// Why a compaction did not end with a swap.
#[derive(Clone, Copy, Debug, PartialEq, Eq)]
pub(crate) enum Unswapped {
    /// It was refused, and the replica takes changes as before.
    Refused(ReplicaFault),
    /// The disk failed, and its count of faults rose to this: the head may name either generation.
    Unsure { faults: u64 },
}

/// The new files of a replica: their generation, the cells to which its photos moved, where the cells of the volume file end,
/// and how many these are, also of photos that were deleted meanwhile.
#[derive(Drop)]
pub struct NewFiles<P: Piece> {
    pub generation: u64,
    pub cells: Listed<OpenCell<P>>,
    pub end: u64,
    pub count: u64,
}

/// Lets go of the compaction of each replica.
pub(crate) fn drop_runs<D: Disk>(replicas: &mut [Replica<D>])
    ensures count { length replicas.new ≡ length replicas.old }
    ensures each { (j : ℕ) (r r' : Copy D) → At replicas.old j r → At replicas.new j r' → LosesRun D.Tells D.files r r' }
    ensures idle { AllIdle replicas.new }
{
    for replica in replicas.iter_mut() {
        replica.drop_run();
    }
}

/// Lets go of the compaction of one replica.
pub(crate) fn drop_run_at<D: Disk>(replicas: &mut [Replica<D>], at: usize)
    requires { at < length replicas.old }
    ensures one { CallsOne at replicas.old replicas.new }
    ensures loses { (r r' : Copy D) → At replicas.old at r → At replicas.new at r' → LosesRun D.Tells D.files r r' }
    ensures idle { (r : Copy D) → At replicas.new at r → goal_of r ≡ None }
    ensures seen { (r r' : Copy D) → At replicas.old at r → At replicas.new at r' → IsEnded (replica_seen r) (replica_seen r') }
{
    replicas[at].drop_run();
}

/// Begins a compaction of one replica, and answers the generation that it makes.
pub(crate) fn begin_at<D: Disk>(
    replicas: &mut [Replica<D>],
    at: usize,
    alloc: Global,
) -> Result<u64, ReplicaFault>
    requires within { at < length replicas.old }
    requires up { (j : ℕ) (r : Copy D) → At replicas.old j r → IsUp r }
    ensures one { CallsOne at replicas.old replicas.new }
    ensures begins { (r r' : Copy D) → At replicas.old at r → At replicas.new at r' → BeginsAt D.Tells D.files D.fault_count r r' result }
    ensures counts { KeepsCounts D.fault_count D.fuse_count replicas.old replicas.new }
    ensures seen { (r r' : Copy D) → At replicas.old at r → At replicas.new at r' → IfOk result (λ goal. BeginsTo goal (replica_seen r) (replica_seen r')) }
    ensures kept { (r r' : Copy D) → At replicas.old at r → At replicas.new at r' → OnErr result (replica_seen r' ≡ replica_seen r) }
{
    replicas[at].begin(alloc)
}

/// Examines so many cells of one replica, or all that are left, and answers how many these were.
pub(crate) fn step_at<D: Disk>(
    replicas: &mut [Replica<D>],
    at: usize,
    rows: &MapView<D::Piece>,
    cells: u64,
) -> Result<u64, ReplicaFault>
    requires within { at < length replicas.old }
    requires most { length replicas.old ≤ MAX_REPLICAS }
    requires width { rows.now.replicas ≡ length replicas.old }
    requires up { (j : ℕ) (r : Copy D) → At replicas.old j r → IsUp r }
    requires standing { (r : Copy D) → At replicas.old at r → goal_of r ≡ None → ⊥ }
    ensures one { CallsOne at replicas.old replicas.new }
    ensures steps { (r r' : Copy D) → At replicas.old at r → At replicas.new at r' →
        StepsAt D.Tells D.files D.fault_count D.Piece.Tells rows.now at cells r r' result }
    ensures counts { KeepsCounts D.fault_count D.fuse_count replicas.old replicas.new }
    ensures seen { (r r' : Copy D) → At replicas.old at r → At replicas.new at r' → IfOk result (λ number. StepsTo cells number (replica_seen r) (replica_seen r')) }
    ensures left { (r r' : Copy D) → At replicas.old at r → At replicas.new at r' → OnErr result (BreaksStep (replica_seen r) (replica_seen r')) }
    ensures lead { D.Tells → (r r' : Copy D) → At replicas.old at r → At replicas.new at r' →
        IfOk result (λ number. HeadsLead (sights_of rows.now) at number (next_of r) (next_of r') (volume_bytes D.files r)) }
    ensures part { D.Tells → (r r' : Copy D) → At replicas.old at r → At replicas.new at r' → result ≡ Err ReplicaFault.NoMemory →
        HeadsLeadPart (sights_of rows.now) at cells (next_of r) (next_of r') (volume_bytes D.files r) }
    ensures damaged { D.Tells → (place : ℕ) → result ≡ Err (ReplicaFault.Damaged place) → IsDamagedCell D.files replicas.old at (LacksCell (sights_of rows.now) at cells place) }
{
    step(&mut replicas[at], at as u32, rows, cells)
}

/// Ends the compaction of one replica, and gives its photos their new places. Where it takes no changes then, the
/// compactions of the others end.
pub(crate) fn finish_at<D: Disk>(
    replicas: &mut [Replica<D>],
    at: usize,
    rows: &mut MapView<D::Piece>,
) -> Result<NewFiles<D::Piece>, Unswapped>
    requires within { at < length replicas.old }
    requires most { length replicas.old ≤ MAX_REPLICAS }
    requires width { rows.old.replicas ≡ length replicas.old }
    requires up { (j : ℕ) (r : Copy D) → At replicas.old j r → IsUp r }
    requires standing { (r : Copy D) → At replicas.old at r → goal_of r ≡ None → ⊥ }
    ensures one { SwapsOne D.Tells D.files at replicas.old replicas.new }
    ensures swaps { (r r' : Copy D) → At replicas.old at r → At replicas.new at r' →
        SwapsAt D.Tells D.files D.fault_count D.Piece.Tells Going rows.old rows.new at r r' result }
    ensures stays { (r r' : Copy D) → At replicas.old at r → At replicas.new at r' → OnErr result (StaysInReach D.Tells D.files r r') }
    ensures places { KeepsPlaces rows.old rows.new at result }
    ensures counts { KeepsCounts D.fault_count D.fuse_count replicas.old replicas.new }
    ensures seen { (r r' : Copy D) → At replicas.old at r → At replicas.new at r' → IfOk result (λ files. SwapSeen files.generation files.end (replica_seen r) (replica_seen r')) }
    ensures kept { (r r' : Copy D) → At replicas.old at r → At replicas.new at r' → OnErr result (ChangesRun (replica_seen r) (replica_seen r')) }
    ensures lead { D.Tells → OnOk result ((r : Copy D) → At replicas.old at r → HeadsLeadOn (sights_of rows.old) at (replica_seen r) (volume_bytes D.files r)) }
    ensures unsure { D.Tells → (f : ℕ) → result ≡ Err (Unswapped.Unsure f) → (r : Copy D) → At replicas.old at r → HeadsLeadOn (sights_of rows.old) at (replica_seen r) (volume_bytes D.files r) }
    ensures damaged { D.Tells → (place : ℕ) → result ≡ Err (Unswapped.Refused (ReplicaFault.Damaged place)) → IsDamagedCell D.files replicas.old at (LacksCellLeft (sights_of rows.old) at place) }
{
    let result = finish(&mut replicas[at], at as u32, rows);
    drop_behind(replicas, at);
    result
}

/// Begins a compaction of one replica and ends it at once, as `finish_at` does.
pub(crate) fn compact_at<D: Disk>(
    replicas: &mut [Replica<D>],
    at: usize,
    rows: &mut MapView<D::Piece>,
    alloc: Global,
) -> Result<NewFiles<D::Piece>, Unswapped>
    requires within { at < length replicas.old }
    requires most { length replicas.old ≤ MAX_REPLICAS }
    requires width { rows.old.replicas ≡ length replicas.old }
    requires up { (j : ℕ) (r : Copy D) → At replicas.old j r → IsUp r }
    ensures one { SwapsOne D.Tells D.files at replicas.old replicas.new }
    ensures swaps { (r r' : Copy D) → At replicas.old at r → At replicas.new at r' →
        SwapsAt D.Tells D.files D.fault_count D.Piece.Tells Fresh rows.old rows.new at r r' result }
    ensures stays { (r r' : Copy D) → At replicas.old at r → At replicas.new at r' → OnErr result (StaysInReach D.Tells D.files r r') }
    ensures places { KeepsPlaces rows.old rows.new at result }
    ensures counts { KeepsCounts D.fault_count D.fuse_count replicas.old replicas.new }
    ensures seen { (r r' : Copy D) → At replicas.old at r → At replicas.new at r' → IfOk result (λ files. SwapSeen files.generation files.end (replica_seen r) (replica_seen r')) }
    ensures kept { (r r' : Copy D) → At replicas.old at r → At replicas.new at r' → OnErr result (ChangesRun (replica_seen r) (replica_seen r')) }
    ensures lead { D.Tells → OnOk result ((r : Copy D) → At replicas.old at r → HeadsLeadOn (sights_of rows.old) at (begun (replica_seen r)) (volume_bytes D.files r)) }
    ensures unsure { D.Tells → (f : ℕ) → result ≡ Err (Unswapped.Unsure f) → (r : Copy D) → At replicas.old at r
        → HeadsLeadOn (sights_of rows.old) at (begun (replica_seen r)) (volume_bytes D.files r) }
    ensures damaged { D.Tells → (place : ℕ) → result ≡ Err (Unswapped.Refused (ReplicaFault.Damaged place)) → IsDamagedCell D.files replicas.old at (LacksCellAnew (sights_of rows.old) at place) }
{
    let result = compact(&mut replicas[at], at as u32, rows, alloc);
    drop_behind(replicas, at);
    result
}

// Lets go of each compaction where this replica takes no changes.
fn drop_behind<D: Disk>(replicas: &mut [Replica<D>], at: usize)
    requires { at < length replicas.old }
    ensures count { length replicas.new ≡ length replicas.old }
    ensures each { (j : ℕ) (r r' : Copy D) → At replicas.old j r → At replicas.new j r' → LosesRun D.Tells D.files r r' }
    ensures still { (r : Copy D) → At replicas.old at r → is_frozen r ≡ false → replicas.new ≡ replicas.old }
    ensures idle { (r : Copy D) → At replicas.old at r → is_frozen r ≡ true → AllIdle replicas.new }
{
    if replicas[at].is_frozen() {
        drop_runs(replicas);
    }
}

// Begins a compaction and ends it at once.
fn compact<D: Disk>(
    replica: &mut Replica<D>,
    at: u32,
    rows: &mut MapView<D::Piece>,
    alloc: Global,
) -> Result<NewFiles<D::Piece>, Unswapped>
    requires up { IsUp replica.old }
    requires within { at < rows.old.replicas }
    ensures swaps { SwapsAt D.Tells D.files D.fault_count D.Piece.Tells Fresh rows.old rows.new at replica.old replica.new result }
    ensures stays { OnErr result (StaysInReach D.Tells D.files replica.old replica.new) }
    ensures places { KeepsPlaces rows.old rows.new at result }
    ensures counts { D.fault_count replica.old.disk ≤ D.fault_count replica.new.disk }
    ensures fuses { D.fuse_count replica.new.disk ≡ D.fuse_count replica.old.disk }
    ensures seen { IfOk result (λ files. SwapSeen files.generation files.end (replica_seen replica.old) (replica_seen replica.new)) }
    ensures kept { OnErr result (ChangesRun (replica_seen replica.old) (replica_seen replica.new)) }
    ensures lead { D.Tells → OnOk result (HeadsLeadOn (sights_of rows.old) at (begun (replica_seen replica.old)) (volume_bytes D.files replica.old)) }
    ensures unsure { D.Tells → (f : ℕ) → result ≡ Err (Unswapped.Unsure f) → HeadsLeadOn (sights_of rows.old) at (begun (replica_seen replica.old)) (volume_bytes D.files replica.old) }
    ensures damaged { D.Tells → (place : ℕ) → result ≡ Err (Unswapped.Refused (ReplicaFault.Damaged place))
        → LacksCellAnew (sights_of rows.old) at place (replica_seen replica.old) (volume_bytes D.files replica.old) }
{
    match replica.begin(alloc) {
        Ok(_) => finish(replica, at, rows),
        Err(fault) => Err(Unswapped::Refused(fault)),
    }
}

// Examines all cells that are left, and swaps the files. A refusal ends the compaction.
fn finish<D: Disk>(
    replica: &mut Replica<D>,
    at: u32,
    rows: &mut MapView<D::Piece>,
) -> Result<NewFiles<D::Piece>, Unswapped>
    requires up { IsUp replica.old }
    requires within { at < rows.old.replicas }
    requires standing { goal_of replica.old ≡ None → ⊥ }
    ensures swaps { SwapsAt D.Tells D.files D.fault_count D.Piece.Tells Going rows.old rows.new at replica.old replica.new result }
    ensures stays { OnErr result (StaysInReach D.Tells D.files replica.old replica.new) }
    ensures places { KeepsPlaces rows.old rows.new at result }
    ensures counts { D.fault_count replica.old.disk ≤ D.fault_count replica.new.disk }
    ensures fuses { D.fuse_count replica.new.disk ≡ D.fuse_count replica.old.disk }
    ensures seen { IfOk result (λ files. SwapSeen files.generation files.end (replica_seen replica.old) (replica_seen replica.new)) }
    ensures kept { OnErr result (ChangesRun (replica_seen replica.old) (replica_seen replica.new)) }
    ensures lead { D.Tells → OnOk result (HeadsLeadOn (sights_of rows.old) at (replica_seen replica.old) (volume_bytes D.files replica.old)) }
    ensures unsure { D.Tells → (f : ℕ) → result ≡ Err (Unswapped.Unsure f) → HeadsLeadOn (sights_of rows.old) at (replica_seen replica.old) (volume_bytes D.files replica.old) }
    ensures damaged { D.Tells → (place : ℕ) → result ≡ Err (Unswapped.Refused (ReplicaFault.Damaged place))
        → LacksCellLeft (sights_of rows.old) at place (replica_seen replica.old) (volume_bytes D.files replica.old) }
{
    // There are fewer cells than bytes.
    let most = replica.end();
    match step(replica, at, rows, most) {
        Ok(_) => swap(replica, at, rows),
        Err(fault) => {
            replica.drop_run();
            Err(Unswapped::Refused(fault))
        }
    }
}

// Swaps the files of a replica whose cells are all examined, and gives its photos their new places.
fn swap<D: Disk>(
    replica: &mut Replica<D>,
    at: u32,
    rows: &mut MapView<D::Piece>,
) -> Result<NewFiles<D::Piece>, Unswapped>
    requires up { IsUp replica.old }
    requires within { at < rows.old.replicas }
    requires standing { goal_of replica.old ≡ None → ⊥ }
    ensures swaps { SwapsAt D.Tells D.files D.fault_count D.Piece.Tells Examined rows.old rows.new at replica.old replica.new result }
    ensures stays { OnErr result (StaysInReach D.Tells D.files replica.old replica.new) }
    ensures places { KeepsPlaces rows.old rows.new at result }
    ensures counts { D.fault_count replica.old.disk ≤ D.fault_count replica.new.disk }
    ensures fuses { D.fuse_count replica.new.disk ≡ D.fuse_count replica.old.disk }
    ensures seen { IfOk result (λ files. SwapSeen files.generation files.end (replica_seen replica.old) (replica_seen replica.new)) }
    ensures kept { OnErr result (ChangesRun (replica_seen replica.old) (replica_seen replica.new)) }
    ensures undamaged { (place : ℕ) → result ≡ Err (Unswapped.Refused (ReplicaFault.Damaged place)) → ⊥ }
{
    let count = replica.copied();
    match replica.finish() {
        Ok(mut places) => {
            keep_gone(places.as_mut_slice(), rows, at);
            rows.swap(at, places.as_slice());
            Ok(NewFiles {
                generation: replica.generation(),
                cells: Listed::from_vec(places),
                end: replica.end(),
                count,
            })
        }
        Err(fault) => Err(why_unswapped(replica, fault)),
    }
}

// A photo that is gone stays so, whatever the new files of the replica have.
fn keep_gone<P: Piece>(cells: &mut [OpenCell<P>], rows: &MapView<P>, at: u32)
    requires { at < rows.now.replicas }
    ensures { cells.new ≡ map (still_gone_cell rows.now at) cells.old }
{
    for cell in cells.iter_mut() {
        let row = rows.row(cell.pair);
        keep_gone_in(&row, at as usize, cell);
    }
}

// The photo of a cell stays gone where its row has it so.
fn keep_gone_in<P: Piece>(row: &Row<P>, at: usize, cell: &mut OpenCell<P>)
    requires { at < length row.now }
    ensures { cell.new ≡ record cell.old { place = still_gone (place_in row.now at) cell.old.place } }
{
    match row.place(at) {
        Place::Gone => cell.place = Place::Gone,
        Place::None => (),
        Place::Live(_) => (),
        Place::Unseen { .. } => (),
    }
}

// Why a replica's files were not swapped.
fn why_unswapped<D: Disk>(replica: &Replica<D>, fault: ReplicaFault) -> Unswapped
    ensures frozen { is_frozen replica.now ≡ true → result ≡ Unswapped.Unsure (D.fault_count replica.now.disk) }
    ensures up { is_frozen replica.now ≡ false → result ≡ Unswapped.Refused fault }
{
    if replica.is_frozen() {
        Unswapped::Unsure {
            faults: replica.faults(),
        }
    } else {
        Unswapped::Refused(fault)
    }
}

// Examines so many cells, or all that are left, and answers how many these were.
fn step<D: Disk>(
    replica: &mut Replica<D>,
    at: u32,
    rows: &MapView<D::Piece>,
    cells: u64,
) -> Result<u64, ReplicaFault>
    requires up { IsUp replica.old }
    requires within { at < rows.now.replicas }
    requires standing { goal_of replica.old ≡ None → ⊥ }
    ensures steps { StepsAt D.Tells D.files D.fault_count D.Piece.Tells rows.now at cells replica.old replica.new result }
    ensures counts { D.fault_count replica.old.disk ≤ D.fault_count replica.new.disk }
    ensures fuses { D.fuse_count replica.new.disk ≡ D.fuse_count replica.old.disk }
    ensures seen { IfOk result (λ number. StepsTo cells number (replica_seen replica.old) (replica_seen replica.new)) }
    ensures left { OnErr result (BreaksStep (replica_seen replica.old) (replica_seen replica.new)) }
    ensures lead { D.Tells → IfOk result (λ number. HeadsLead (sights_of rows.now) at number (next_of replica.old) (next_of replica.new) (volume_bytes D.files replica.old)) }
    ensures part { D.Tells → result ≡ Err ReplicaFault.NoMemory → HeadsLeadPart (sights_of rows.now) at cells (next_of replica.old) (next_of replica.new) (volume_bytes D.files replica.old) }
    ensures damaged { D.Tells → (place : ℕ) → result ≡ Err (ReplicaFault.Damaged place) → LacksCell (sights_of rows.now) at cells place (replica_seen replica.old) (volume_bytes D.files replica.old) }
{
    for examined in 0..cells {
        match examine(replica, at, rows) {
            Ok(true) => {}
            Ok(false) => return Ok(examined),
            Err(fault) => return Err(fault),
        }
    }
    Ok(cells)
}

// Examines the next cell, and answers whether one was left.
fn examine<D: Disk>(
    replica: &mut Replica<D>,
    at: u32,
    rows: &MapView<D::Piece>,
) -> Result<bool, ReplicaFault>
    requires up { IsUp replica.old }
    requires within { at < rows.now.replicas }
    requires standing { goal_of replica.old ≡ None → ⊥ }
    ensures examines { ExaminesAt D.Tells D.files D.fault_count D.Piece.Tells rows.now at replica.old replica.new result }
    ensures counts { D.fault_count replica.old.disk ≤ D.fault_count replica.new.disk }
    ensures fuses { D.fuse_count replica.new.disk ≡ D.fuse_count replica.old.disk }
    ensures seen { IfOk result (λ more. StepsTo 1 (if more then 1 else 0) (replica_seen replica.old) (replica_seen replica.new)) }
    ensures left { OnErr result (BreaksStep (replica_seen replica.old) (replica_seen replica.new)) }
    ensures bytes { D.Tells → volume_bytes D.files replica.new ≡ volume_bytes D.files replica.old }
    ensures lead { D.Tells → IfOk result (λ more. HeadsLead (sights_of rows.now) at (if more then 1 else 0) (next_of replica.old) (next_of replica.new) (volume_bytes D.files replica.old)) }
    ensures wanting { result ≡ Err ReplicaFault.NoMemory → next_of replica.new ≡ next_of replica.old }
    ensures damaged { D.Tells → (place : ℕ) → result ≡ Err (ReplicaFault.Damaged place) → LacksCell (sights_of rows.now) at 1 place (replica_seen replica.old) (volume_bytes D.files replica.old) }
{
    match replica.peek() {
        Ok(None) => Ok(false),
        Ok(Some(cell)) => {
            let latest = latest_in(&rows.row(cell.pair), at as usize);
            match replica.copy(cell, latest) {
                Ok(()) => Ok(true),
                Err(fault) => Err(fault),
            }
        }
        Err(fault) => Err(fault),
    }
}

// The place of the last cell of a replica's photo in a row, if the photo was not seen as deleted.
fn latest_in<P: Piece>(row: &Row<P>, at: usize) -> Option<u64>
    requires { at < length row.now }
    ensures { result ≡ latest_of (place_in row.now at) }
{
    match row.place(at) {
        Place::Live(needle) => Some(needle.at()),
        Place::Unseen { at, .. } => Some(*at),
        Place::Gone => None,
        Place::None => None,
    }
}
