//! Calls that go over the replicas in order.
ghost use Rattle.std.specs.Prelude.{◌≡◌, ◌≤◌, ◌<◌, ◌+◌, ℕ, Option, false, length, replicate, slice_index, IfOk, IfErr, OnOk, OnErr, slice_set};
ghost use Rattle.hay_needle.specs.declared.needle.Pair.{Pair};
ghost use Rattle.hay_map.specs.Places.{place_in};
ghost use Rattle.hay_map.specs.Rows.{row_at};
ghost use Rattle.hay_map.specs.Sealed.{SealedNeedle};
ghost use Rattle.hay_map.specs.declared.place.Place.TheVariants as place;
ghost use Rattle.hay_physical.specs.OpenCopies.{Copy, HasCapacity, IsOpenCopy, IsUp, end_of, is_frozen, is_stuck};
ghost use Rattle.hay_physical.specs.declared.state.Phase.TheVariants.{Closed};
ghost use Rattle.hay_physical.specs.Replicas as physical;
ghost use Rattle.hay_physical.specs.CompactionRuns.{HasRun, Run};
ghost use Rattle.hay_open.specs.Stored.{Stored};
ghost use Rattle.hay_logical.specs.Draws.{DrewRecordedAt, HasDrawnNothing};
ghost use Rattle.hay_logical.specs.Fits.{At};
ghost use Rattle.hay_logical.specs.Refusals.{IsUntouched};
ghost use Rattle.hay_logical.specs.Volumes.{CanReach, KeepsCounts, ReachesPlaces};
ghost use Rattle.hay_logical.specs.Seen.{DeleteSeen, FlushesTo, grown, replica_seen};
ghost use Rattle.hay_logical.specs.ReplicaCalls.{AllIdle, CallsOne, DeleteLeaves, DeletesAt, EndsRuns, FlushesAt, FollowsAt, FusesAt, IsOpenFault, IsRefusedAt, KeepsDisk, KeepsFiles};
ghost use Rattle.hay_logical.specs.ReplicaCalls.{LacksRoom, LeftAt, Lengthens, OpensAt, PutLeaves, PutsAt, RoomFor, StaysBeside, StaysInReach, Stops};

use crate::fault::Unopened;
use crate::refusals::is_untouched;
use crate::runs::drop_runs;
use hay_base::NoMemory;
use hay_disk::Disk;
use hay_map::{MapView, Place, Row};
use hay_needle::{Cookie, MAX_PHOTO, MAX_REPLICAS, Pair};
use hay_open::OpenFault;
use hay_physical::{Replica, ReplicaFault};
use std::alloc::Global;

/// The replica that refused, and why.
#[derive(Clone, Copy, Debug, PartialEq, Eq)]
pub(crate) struct Broken {
    pub at: u32,
    pub fault: ReplicaFault,
}

/// The disk of this replica failed, and its count of faults rose to this.
#[derive(Clone, Copy, Debug, PartialEq, Eq)]
pub(crate) struct DiskFailed {
    pub at: u32,
    pub faults: u64,
}

/// Where the cells of each replica end.
pub(crate) fn ends_of<D: Disk>(replicas: &[Replica<D>]) -> [u64; 4]
    requires most { length replicas.now ≤ MAX_REPLICAS }
    requires open { (j : ℕ) (r : Copy D) → At replicas.now j r → IsOpenCopy r }
    ensures { (j : ℕ) (r : Copy D) → At replicas.now j r → slice_index result j ≡ end_of r }
{
    let mut ends = [0; 4];
    for (j, replica) in replicas.iter().enumerate() {
        ends[j] = replica.end();
    }
    ends
}

/// The lowest replica that lacks room for a photo of this size.
pub(crate) fn room_in<D: Disk>(replicas: &[Replica<D>], size: u32) -> Result<(), Broken>
    requires most { length replicas.now ≤ MAX_REPLICAS }
    requires open { (j : ℕ) (r : Copy D) → At replicas.now j r → IsOpenCopy r }
    ensures fits { OnOk result ((j : ℕ) (r : Copy D) → At replicas.now j r → RoomFor size r) }
    ensures lacks { IfErr result (LacksRoom size replicas.now) }
    ensures capacities { OnOk result ((j : ℕ) (r : Copy D) → At replicas.now j r → HasCapacity r) }
    ensures lacks_capacities { IfErr result (λ broken. (j : ℕ) (r : Copy D) → j ≤ broken.at → At replicas.now j r → HasCapacity r) }
{
    for (j, replica) in replicas.iter().enumerate() {
        match replica.room(size) {
            Ok(()) => {}
            Err(fault) => {
                return Err(Broken {
                    at: j as u32,
                    fault,
                });
            }
        }
    }
    Ok(())
}

/// Stores a photo on each replica in order, and answers its places. A put that is broken off ends each compaction, unless
/// nothing was changed.
pub(crate) fn put_each<D: Disk>(
    replicas: &mut [Replica<D>],
    alloc: Global,
    pair: Pair,
    cookie: Cookie,
    bytes: &[u8],
) -> Result<Row<D::Piece>, Broken>
    requires most { length replicas.old ≤ MAX_REPLICAS }
    requires size { length bytes.now ≤ MAX_PHOTO }
    requires up { (j : ℕ) (r : Copy D) → At replicas.old j r → IsUp r }
    requires room { (j : ℕ) (r : Copy D) → At replicas.old j r → RoomFor (length bytes.now) r }
    ensures counts { KeepsCounts D.fault_count D.fuse_count replicas.old replicas.new }
    ensures seen { OnOk result ((j : ℕ) (r r' : Copy D) → At replicas.old j r → At replicas.new j r' → replica_seen r' ≡ grown (length bytes.now) (replica_seen r)) }
    ensures refused_seen { IfErr result (λ broken. IsUntouched replicas.new broken → (j : ℕ) (r r' : Copy D) → At replicas.old j r → At replicas.new j r' →
        replica_seen r' ≡ replica_seen r) }
    ensures places { IfOk result (λ row. length row ≡ length replicas.old) }
    ensures put { IfOk result (λ row. (j : ℕ) (r r' : Copy D) → At replicas.old j r → At replicas.new j r' →
        PutsAt D.Tells D.files D.Piece.Tells pair cookie bytes.now r r' (place_in row j)) }
    ensures reach { (j : ℕ) (r r' : Copy D) → At replicas.old j r → At replicas.new j r' → StaysInReach D.Tells D.files r r' }
    ensures ends { Lengthens replicas.old replicas.new }
    ensures broken { IfErr result (PutLeaves D.Tells D.files D.fault_count pair cookie bytes.now replicas.old replicas.new) }
    ensures untouched { IfErr result (λ broken. IsUntouched replicas.new broken → KeepsFiles D.Tells D.files replicas.old replicas.new) }
    ensures runs { IfErr result (EndsRuns D.Tells D.files replicas.old replicas.new) }
{
    match put_in_order(replicas, alloc, pair, cookie, bytes) {
        Ok(row) => Ok(row),
        Err(broken) => {
            if !is_untouched(replicas, &broken) {
                drop_runs(replicas);
            }
            Err(broken)
        }
    }
}

// Stores a photo on each replica in order, and answers its places.
fn put_in_order<D: Disk>(
    replicas: &mut [Replica<D>],
    alloc: Global,
    pair: Pair,
    cookie: Cookie,
    bytes: &[u8],
) -> Result<Row<D::Piece>, Broken>
    requires most { length replicas.old ≤ MAX_REPLICAS }
    requires size { length bytes.now ≤ MAX_PHOTO }
    requires up { (j : ℕ) (r : Copy D) → At replicas.old j r → IsUp r }
    requires room { (j : ℕ) (r : Copy D) → At replicas.old j r → RoomFor (length bytes.now) r }
    ensures counts { KeepsCounts D.fault_count D.fuse_count replicas.old replicas.new }
    ensures seen { OnOk result ((j : ℕ) (r r' : Copy D) → At replicas.old j r → At replicas.new j r' → replica_seen r' ≡ grown (length bytes.now) (replica_seen r)) }
    ensures refused_seen { IfErr result (λ broken. IsUntouched replicas.new broken → (j : ℕ) (r r' : Copy D) → At replicas.old j r → At replicas.new j r' →
        replica_seen r' ≡ replica_seen r) }
    ensures places { IfOk result (λ row. length row ≡ length replicas.old) }
    ensures put { IfOk result (λ row. (j : ℕ) (r r' : Copy D) → At replicas.old j r → At replicas.new j r' →
        PutsAt D.Tells D.files D.Piece.Tells pair cookie bytes.now r r' (place_in row j)) }
    ensures reach { (j : ℕ) (r r' : Copy D) → At replicas.old j r → At replicas.new j r' → StaysInReach D.Tells D.files r r' }
    ensures ends { Lengthens replicas.old replicas.new }
    ensures broken { IfErr result (PutLeaves D.Tells D.files D.fault_count pair cookie bytes.now replicas.old replicas.new) }
    ensures untouched { IfErr result (λ broken. IsUntouched replicas.new broken → KeepsFiles D.Tells D.files replicas.old replicas.new) }
    ensures others { IfErr result (λ broken. (j : ℕ) (r r' : Copy D) → broken.at < j → At replicas.old j r → At replicas.new j r' → r' ≡ r) }
    ensures run { IfErr result (λ broken. (r r' : Copy D) → At replicas.old broken.at r → At replicas.new broken.at r' → IsUp r' → D.Tells → (s : Stored) (run : Option Run) →
        physical.Stands D.files r s → HasRun D.files r s run → HasRun D.files r' s run) }
{
    let mut row = Row::new();
    for (j, replica) in replicas.iter_mut().enumerate() {
        match replica.put(alloc, pair, cookie, bytes) {
            Ok(needle) => row.push(Place::Live(needle)),
            Err(fault) => {
                return Err(Broken {
                    at: j as u32,
                    fault,
                });
            }
        }
    }
    Ok(row)
}

/// Deletes the photo of a pair on each replica where the row has it, in order. One that is broken off ends each
/// compaction.
pub(crate) fn delete_each<D: Disk>(
    replicas: &mut [Replica<D>],
    pair: Pair,
    row: &Row<D::Piece>,
) -> Result<(), DiskFailed>
    requires most { length replicas.old ≤ MAX_REPLICAS }
    requires places { length row.now ≡ length replicas.old }
    requires up { (j : ℕ) (r : Copy D) → At replicas.old j r → IsUp r }
    requires live { D.Tells → (j : ℕ) (r : Copy D) → At replicas.old j r → (needle : SealedNeedle) → place_in row.now j ≡ place.Live needle → physical.MayDelete D.files r needle.at }
    ensures counts { KeepsCounts D.fault_count D.fuse_count replicas.old replicas.new }
    ensures seen { OnOk result ((j : ℕ) (r r' : Copy D) → At replicas.old j r → At replicas.new j r' → DeleteSeen (replica_seen r) (replica_seen r')) }
    ensures deleted { OnOk result ((j : ℕ) (r r' : Copy D) → At replicas.old j r → At replicas.new j r' →
        DeletesAt D.Tells D.files (place_in row.now j) r r') }
    ensures follow { OnOk result ((j : ℕ) (r r' : Copy D) → At replicas.old j r → At replicas.new j r' →
        FollowsAt D.Tells D.files D.fault_count pair (place_in row.now j) r r') }
    ensures reach { (j : ℕ) (r r' : Copy D) → At replicas.old j r → At replicas.new j r' → StaysBeside D.Tells D.files (place_in row.now j) r r' }
    ensures ends { Lengthens replicas.old replicas.new }
    ensures broken { IfErr result (DeleteLeaves D.Tells D.files D.fault_count row.now replicas.old replicas.new) }
    ensures runs { OnErr result (AllIdle replicas.new) }
{
    match delete_in_order(replicas, pair, row) {
        Ok(()) => Ok(()),
        Err(failed) => {
            drop_runs(replicas);
            Err(failed)
        }
    }
}

// Deletes the photo of a pair on each replica where the row has it, in order.
fn delete_in_order<D: Disk>(
    replicas: &mut [Replica<D>],
    pair: Pair,
    row: &Row<D::Piece>,
) -> Result<(), DiskFailed>
    requires most { length replicas.old ≤ MAX_REPLICAS }
    requires places { length row.now ≡ length replicas.old }
    requires up { (j : ℕ) (r : Copy D) → At replicas.old j r → IsUp r }
    requires live { D.Tells → (j : ℕ) (r : Copy D) → At replicas.old j r → (needle : SealedNeedle) → place_in row.now j ≡ place.Live needle → physical.MayDelete D.files r needle.at }
    ensures counts { KeepsCounts D.fault_count D.fuse_count replicas.old replicas.new }
    ensures seen { OnOk result ((j : ℕ) (r r' : Copy D) → At replicas.old j r → At replicas.new j r' → DeleteSeen (replica_seen r) (replica_seen r')) }
    ensures deleted { OnOk result ((j : ℕ) (r r' : Copy D) → At replicas.old j r → At replicas.new j r' →
        DeletesAt D.Tells D.files (place_in row.now j) r r') }
    ensures follow { OnOk result ((j : ℕ) (r r' : Copy D) → At replicas.old j r → At replicas.new j r' →
        FollowsAt D.Tells D.files D.fault_count pair (place_in row.now j) r r') }
    ensures reach { (j : ℕ) (r r' : Copy D) → At replicas.old j r → At replicas.new j r' → StaysBeside D.Tells D.files (place_in row.now j) r r' }
    ensures ends { Lengthens replicas.old replicas.new }
    ensures broken { IfErr result (DeleteLeaves D.Tells D.files D.fault_count row.now replicas.old replicas.new) }
{
    for (j, replica) in replicas.iter_mut().enumerate() {
        if let Place::Live(needle) = row.place(j) {
            match replica.delete(pair, needle.at()) {
                Ok(()) => {}
                Err(_) => {
                    return Err(DiskFailed {
                        at: j as u32,
                        faults: replica.faults(),
                    });
                }
            }
        }
    }
    Ok(())
}

/// Stops each disk.
pub(crate) fn stop_each<D: Disk>(replicas: &mut [Replica<D>], pick: u64)
    ensures count { length replicas.new ≡ length replicas.old }
    ensures stopped { (j : ℕ) (r r' : Copy D) → At replicas.old j r → At replicas.new j r' → Stops D.Tells D.files D.fault_count D.fuse_count r r' }
    ensures drawn { D.Tells → (j : ℕ) (r r' : Copy D) → At replicas.old j r → At replicas.new j r' → HasDrawnNothing D.drawn r' }
{
    for replica in replicas.iter_mut() {
        replica.stop(pick);
    }
}

/// Gives the cells of one replica without a record theirs.
pub(crate) fn flush_at<D: Disk>(replicas: &mut [Replica<D>], at: usize) -> Result<u64, ReplicaFault>
    requires within { at < length replicas.old }
    requires up { (j : ℕ) (r : Copy D) → At replicas.old j r → IsUp r }
    ensures one { CallsOne at replicas.old replicas.new }
    ensures flushes { (r r' : Copy D) → At replicas.old at r → At replicas.new at r' → FlushesAt D.Tells D.files D.fault_count r r' result }
    ensures counts { KeepsCounts D.fault_count D.fuse_count replicas.old replicas.new }
    ensures seen { (r r' : Copy D) → At replicas.old at r → At replicas.new at r' → IfOk result (λ number. FlushesTo number (replica_seen r) (replica_seen r')) }
    ensures left { (r r' : Copy D) → At replicas.old at r → At replicas.new at r' → OnErr result (replica_seen r' ≡ record (replica_seen r) { stuck = is_stuck r' }) }
{
    replicas[at].flush()
}

/// Sets a fuse on the disk of one replica.
pub(crate) fn fuse_at<D: Disk>(replicas: &mut [Replica<D>], at: usize, calls: u32)
    requires { at < length replicas.old }
    ensures one { CallsOne at replicas.old replicas.new }
    ensures fuses { (r r' : Copy D) → At replicas.old at r → At replicas.new at r' → FusesAt D.Tells D.files D.fault_count D.fuse_count r r' }
{
    replicas[at].fuse(u64::from(calls));
}

/// Opens each replica in order, and gives it its places in the rows, which have none of any replica.
pub(crate) fn open_each<D: Disk>(
    replicas: &mut [Replica<D>],
    rows: &mut MapView<D::Piece>,
    alloc: Global,
) -> Result<(), Unopened>
    requires most { length replicas.old ≤ MAX_REPLICAS }
    requires width { rows.old.replicas ≡ length replicas.old }
    requires empty { (pair : Pair) → row_at rows.old pair ≡ replicate (length replicas.old) place.None }
    requires closed { (j : ℕ) (r : Copy D) → At replicas.old j r → r.phase ≡ Closed }
    requires idle { D.Tells → (j : ℕ) (r : Copy D) → At replicas.old j r → physical.IsIdleCopy D.files r }
    ensures counts { KeepsCounts D.fault_count D.fuse_count replicas.old replicas.new }
    ensures width { rows.new.replicas ≡ rows.old.replicas }
    ensures thawed { OnErr result ((j : ℕ) (r : Copy D) → At replicas.new j r → is_frozen r ≡ false) }
    ensures opened { OnOk result ((j : ℕ) (r r' : Copy D) → At replicas.old j r → At replicas.new j r' →
        OpensAt D.Tells D.files D.Piece.Tells rows.new j r r') }
    ensures drew { D.Tells → OnOk result ((j : ℕ) (r r' : Copy D) → At replicas.old j r → At replicas.new j r' →
        DrewRecordedAt D.files D.drawn rows.new j r r') }
    ensures left { (j : ℕ) (r r' : Copy D) → At replicas.old j r → At replicas.new j r' → LeftAt D.Tells D.files r r' }
    ensures kept { D.Tells → (j : ℕ) (r r' : Copy D) → At replicas.old j r → At replicas.new j r' → KeepsDisk D.files r r' }
    ensures reach { CanReach D.Tells D.files D.Piece.Tells replicas.new rows.new }
    ensures refused { IfErr result (IsRefusedAt D.Tells D.files D.fault_count replicas.old replicas.new) }
{
    for (j, replica) in replicas.iter_mut().enumerate() {
        match open_one(replica, rows, alloc, j as u32) {
            Ok(()) => {}
            Err(fault) => {
                return Err(Unopened {
                    replica: j as u32,
                    fault,
                });
            }
        }
    }
    Ok(())
}

// Opens a replica, and gives it its places in the rows, which have none of it.
fn open_one<D: Disk>(
    replica: &mut Replica<D>,
    rows: &mut MapView<D::Piece>,
    alloc: Global,
    j: u32,
) -> Result<(), OpenFault>
    requires within { j < rows.old.replicas }
    requires closed { replica.old.phase ≡ Closed }
    requires idle { D.Tells → physical.IsIdleCopy D.files replica.old }
    requires long { (pair : Pair) → length (row_at rows.old pair) ≡ rows.old.replicas }
    requires empty { (pair : Pair) → place_in (row_at rows.old pair) j ≡ place.None }
    ensures opened { OnOk result (OpensAt D.Tells D.files D.Piece.Tells rows.new j replica.old replica.new) }
    ensures drew { D.Tells → OnOk result (DrewRecordedAt D.files D.drawn rows.new j replica.old replica.new) }
    ensures left { LeftAt D.Tells D.files replica.old replica.new }
    ensures thawed { is_frozen replica.new ≡ false }
    ensures kept { D.Tells → KeepsDisk D.files replica.old replica.new }
    ensures reach { D.Tells → ReachesPlaces D.files D.Piece.Tells rows.new j replica.new }
    ensures refused { IfErr result (IsOpenFault D.Tells D.files D.fault_count replica.old replica.new) }
    ensures others { (pair : Pair) (i : ℕ) → (i ≡ j → ⊥) → place_in (row_at rows.new pair) i ≡ place_in (row_at rows.old pair) i }
    ensures long { (pair : Pair) → length (row_at rows.new pair) ≡ rows.new.replicas }
    ensures width { rows.new.replicas ≡ rows.old.replicas }
    ensures counts { D.fault_count replica.old.disk ≤ D.fault_count replica.new.disk }
    ensures fuses { D.fuse_count replica.new.disk ≡ D.fuse_count replica.old.disk }
{
    match replica.open(alloc) {
        Ok(cells) => match rows.load(j, cells.as_slice()) {
            Ok(()) => Ok(()),
            Err(NoMemory) => Err(OpenFault::NoMemory),
        },
        Err(fault) => Err(fault),
    }
}
