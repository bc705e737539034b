//! Looks at places that were not seen yet.
ghost use Rattle.std.specs.Prelude.{◌≡◌, ◌≤◌, ◌<◌, ℕ, Bool, false, length, replicate, None, IfErr, MatchOption, OnOk, OnErr};
ghost use Rattle.hay_map.specs.Places.{place_in};
ghost use Rattle.hay_map.specs.Rows.{row_at};
ghost use Rattle.hay_map.specs.declared.place.Place.TheVariants as place;
ghost use Rattle.hay_open.specs.Stored.{Stored};
ghost use Rattle.hay_compact.specs.Finishing.{IsSeen};
ghost use Rattle.hay_physical.specs.declared.state.Phase.TheVariants.{Closed};
ghost use Rattle.hay_physical.specs.OpenCopies.{Copy, IsOpenCopy, is_frozen, volume_bytes};
ghost use Rattle.hay_physical.specs.Faults.{IsSightFault};
ghost use Rattle.hay_physical.specs.Replicas as physical;
ghost use Rattle.hay_logical.specs.Draws.{DrawsAtMost, DrewAt, look_total, looked_pair, looked_total};
ghost use Rattle.hay_logical.specs.Fits.{At};
ghost use Rattle.hay_logical.specs.Needles.{HasLiveNeedles, TellsNeedle};
ghost use Rattle.hay_logical.specs.Notes.{IsToldPlace, SeesUnsure, ToldUnsure};
ghost use Rattle.hay_logical.specs.Sights.{sights_of};
ghost use Rattle.hay_logical.specs.ReplicaCalls.{CallsOne, IsLookFault, IsRefusedAt, IsSeenBy, IsUnseenAt, KeepsDisk, LeftAt, LooksAt, OpensAt, PlacesAre, SeesRow, SightsAt};
ghost use Rattle.hay_logical.specs.Volumes.{CanReach, KeepsCounts};

use crate::fault::Unopened;
use crate::replicas::open_each;
use crate::unsure::{Change, Unsure};
use hay_disk::Disk;
use hay_map::{MapView, Place};
use hay_needle::{MAX_REPLICAS, Pair};
use hay_open::OpenFault;
use hay_physical::{Replica, ReplicaFault};
use std::alloc::Global;

/// Sees the place of a pair on one replica, where it was not looked at yet, and gives it to the rows.
pub(crate) fn see_at<D: Disk>(
    replicas: &mut [Replica<D>],
    at: usize,
    rows: &mut MapView<D::Piece>,
    pair: Pair,
    out: &mut Vec<u8>,
) -> Result<(), ReplicaFault>
    requires within { at < length replicas.old }
    requires most { length replicas.old ≤ MAX_REPLICAS }
    requires width { rows.old.replicas ≡ length replicas.old }
    requires open { (j : ℕ) (r : Copy D) → At replicas.old j r → IsOpenCopy r }
    requires may { D.Tells → (r : Copy D) → At replicas.old at r → physical.MaySeePlace D.files r (place_in (row_at rows.old pair) at) }
    ensures one { CallsOne at replicas.old replicas.new }
    ensures sights { (r r' : Copy D) → At replicas.old at r → At replicas.new at r' →
        SightsAt D.Tells D.files D.fault_count D.Piece.Tells pair rows.old rows.new at r r' result }
    ensures drawn { D.Tells → (r r' : Copy D) → At replicas.old at r → At replicas.new at r' →
        DrawsAtMost D.drawn (look_total (place_in (row_at rows.old pair) at)) r r' }
    ensures row { SeesRow pair at rows.old rows.new result }
    ensures told { D.Tells → (r : Copy D) → At replicas.old at r → TellsNeedle (volume_bytes D.files r) pair at rows.old rows.new result }
    ensures needle { (IsSeen (place_in (row_at rows.old pair) at) → ⊥) → OnOk result (IsSeenBy D.Tells D.Piece.Tells out.new.items (place_in (row_at rows.new pair) at)) }
    ensures counts { KeepsCounts D.fault_count D.fuse_count replicas.old replicas.new }
{
    see(&mut replicas[at], at as u32, rows, pair, out)
}

// Sees the place of a pair on a replica, where it was not looked at yet.
fn see<D: Disk>(
    replica: &mut Replica<D>,
    at: u32,
    rows: &mut MapView<D::Piece>,
    pair: Pair,
    out: &mut Vec<u8>,
) -> Result<(), ReplicaFault>
    requires open { IsOpenCopy replica.old }
    requires within { at < rows.old.replicas }
    requires may { D.Tells → physical.MaySeePlace D.files replica.old (place_in (row_at rows.old pair) at) }
    ensures sights { SightsAt D.Tells D.files D.fault_count D.Piece.Tells pair rows.old rows.new at replica.old replica.new result }
    ensures drawn { D.Tells → DrawsAtMost D.drawn (look_total (place_in (row_at rows.old pair) at)) replica.old replica.new }
    ensures row { SeesRow pair at rows.old rows.new result }
    ensures told { D.Tells → TellsNeedle (volume_bytes D.files replica.old) pair at rows.old rows.new result }
    ensures needle { (IsSeen (place_in (row_at rows.old pair) at) → ⊥) → OnOk result (IsSeenBy D.Tells D.Piece.Tells out.new.items (place_in (row_at rows.new pair) at)) }
    ensures counts { D.fault_count replica.old.disk ≤ D.fault_count replica.new.disk }
    ensures fuses { D.fuse_count replica.new.disk ≡ D.fuse_count replica.old.disk }
{
    let row = rows.row(pair);
    match row.place(at as usize) {
        Place::None | Place::Live(_) | Place::Gone => Ok(()),
        Place::Unseen { at: place, size } => match replica.cell(*place, *size, out) {
            Ok(seen) => match rows.see(pair, at, seen) {
                Ok(()) => Ok(()),
                Err(_) => Err(ReplicaFault::NoMemory),
            },
            Err(fault) => Err(fault),
        },
    }
}

// Sees the place of a pair on each replica. One whose needle is damaged stays unseen.
fn see_undamaged<D: Disk>(
    replicas: &mut [Replica<D>],
    rows: &mut MapView<D::Piece>,
    pair: Pair,
    out: &mut Vec<u8>,
) -> Result<(), Unopened>
    requires most { length replicas.old ≤ MAX_REPLICAS }
    requires width { rows.old.replicas ≡ length replicas.old }
    requires open { (j : ℕ) (r : Copy D) → At replicas.old j r → IsOpenCopy r }
    requires reach { CanReach D.Tells D.files D.Piece.Tells replicas.old rows.old }
    ensures looks { (j : ℕ) (r r' : Copy D) → At replicas.old j r → At replicas.new j r' → LooksAt D.Tells D.files D.Piece.Tells rows.old rows.new j r r' }
    ensures seen { D.Tells → OnOk result ((j : ℕ) (r : Copy D) (s : Stored) → At replicas.old j r →
        physical.Stands D.files r s → PlacesAre D.Piece.Tells rows.old j s → IsSeen (place_in (row_at rows.new pair) j)) }
    ensures told { D.Tells → OnOk result ((j : ℕ) (r : Copy D) → At replicas.old j r → HasLiveNeedles (sights_of rows.old) j (volume_bytes D.files r) →
        IsToldPlace (sights_of rows.new pair j) (volume_bytes D.files r)) }
    ensures drawn { D.Tells → (j : ℕ) (r r' : Copy D) → At replicas.old j r → At replicas.new j r' →
        DrawsAtMost D.drawn (look_total (place_in (row_at rows.old pair) j)) r r' }
    ensures refused { IfErr result (IsUnseenAt D.fault_count replicas.old replicas.new) }
    ensures width { rows.new.replicas ≡ rows.old.replicas }
    ensures counts { KeepsCounts D.fault_count D.fuse_count replicas.old replicas.new }
{
    for at in 0..replicas.len() {
        if let Err(fault) = see_at(replicas, at, rows, pair, out) {
            if let Some(fault) = ending_fault(fault) {
                return Err(Unopened {
                    replica: at as u32,
                    fault,
                });
            }
        }
    }
    Ok(())
}

// Why a look ends an opening, if it does: a needle that is damaged does not.
fn ending_fault(fault: ReplicaFault) -> Option<OpenFault>
    requires { (before : ℕ) × (after : ℕ) × IsSightFault before after fault }
    ensures cause { (before after : ℕ) → IsSightFault before after fault → MatchOption result ((at : ℕ) × (fault ≡ ReplicaFault.Damaged at)) (IsLookFault before after) }
    ensures damaged { (at : ℕ) → fault ≡ ReplicaFault.Damaged at → result ≡ None }
{
    match fault {
        ReplicaFault::Failed { faults } => Some(OpenFault::Failed { faults }),
        ReplicaFault::NoMemory => Some(OpenFault::NoMemory),
        ReplicaFault::Damaged { .. } => None,
        ReplicaFault::Frozen
        | ReplicaFault::Full { .. }
        | ReplicaFault::Busy { .. }
        | ReplicaFault::Ended { .. }
        | ReplicaFault::Worn => unreachable!(),
    }
}

// Sees, on each replica, the place of a photo whose delete was broken off. One whose needle is damaged stays unseen.
fn see_broken_off<D: Disk>(
    replicas: &mut [Replica<D>],
    rows: &mut MapView<D::Piece>,
    unsure: &Option<Unsure>,
    out: &mut Vec<u8>,
) -> Result<(), Unopened>
    requires most { length replicas.old ≤ MAX_REPLICAS }
    requires width { rows.old.replicas ≡ length replicas.old }
    requires open { (j : ℕ) (r : Copy D) → At replicas.old j r → IsOpenCopy r }
    requires reach { CanReach D.Tells D.files D.Piece.Tells replicas.old rows.old }
    ensures looks { (j : ℕ) (r r' : Copy D) → At replicas.old j r → At replicas.new j r' → LooksAt D.Tells D.files D.Piece.Tells rows.old rows.new j r r' }
    ensures seen { D.Tells → OnOk result ((j : ℕ) (r : Copy D) (s : Stored) → At replicas.old j r →
        physical.Stands D.files r s → PlacesAre D.Piece.Tells rows.old j s → SeesUnsure unsure.now rows.new j) }
    ensures told { D.Tells → OnOk result ((j : ℕ) (r : Copy D) → At replicas.old j r → HasLiveNeedles (sights_of rows.old) j (volume_bytes D.files r) →
        ToldUnsure unsure.now (sights_of rows.new) j (volume_bytes D.files r)) }
    ensures drawn { D.Tells → (j : ℕ) (r r' : Copy D) → At replicas.old j r → At replicas.new j r' →
        DrawsAtMost D.drawn (looked_total (looked_pair unsure.now) rows.old j) r r' }
    ensures refused { IfErr result (IsUnseenAt D.fault_count replicas.old replicas.new) }
    ensures width { rows.new.replicas ≡ rows.old.replicas }
    ensures counts { KeepsCounts D.fault_count D.fuse_count replicas.old replicas.new }
{
    match unsure {
        None => Ok(()),
        Some(unsure) => match unsure.change {
            Change::Put { .. } => Ok(()),
            Change::Delete { pair } => see_undamaged(replicas, rows, pair, out),
        },
    }
}

/// Opens each replica in order, and then sees on each the place of a photo whose delete was broken off.
pub(crate) fn open_all<D: Disk>(
    replicas: &mut [Replica<D>],
    rows: &mut MapView<D::Piece>,
    alloc: Global,
    unsure: &Option<Unsure>,
) -> Result<(), Unopened>
    requires most { length replicas.old ≤ MAX_REPLICAS }
    requires width { rows.old.replicas ≡ length replicas.old }
    requires empty { (pair : Pair) → row_at rows.old pair ≡ replicate (length replicas.old) place.None }
    requires closed { (j : ℕ) (r : Copy D) → At replicas.old j r → r.phase ≡ Closed }
    requires idle { D.Tells → (j : ℕ) (r : Copy D) → At replicas.old j r → physical.IsIdleCopy D.files r }
    ensures counts { KeepsCounts D.fault_count D.fuse_count replicas.old replicas.new }
    ensures width { rows.new.replicas ≡ rows.old.replicas }
    ensures thawed { OnErr result ((j : ℕ) (r : Copy D) → At replicas.new j r → is_frozen r ≡ false) }
    ensures opened { OnOk result ((j : ℕ) (r r' : Copy D) → At replicas.old j r → At replicas.new j r' →
        OpensAt D.Tells D.files D.Piece.Tells rows.new j r r') }
    // Little of each volume file was read.
    ensures drew { D.Tells → OnOk result ((j : ℕ) (r r' : Copy D) → At replicas.old j r → At replicas.new j r' →
        DrewAt D.files D.drawn (looked_pair unsure.now) r r') }
    // Behind a stop the place that tells of the change was seen.
    ensures seen { D.Tells → OnOk result ((j : ℕ) (r : Copy D) → At replicas.old j r → (stuck : Bool) (s t : Stored) →
        physical.Holds D.files r stuck s t → SeesUnsure unsure.now rows.new j) }
    // Whatever the disk has, no needle of the recorded size is where it was not, and that of a photo is there, and not deleted.
    ensures told { D.Tells → OnOk result ((j : ℕ) (r : Copy D) → At replicas.new j r → ToldUnsure unsure.now (sights_of rows.new) j (volume_bytes D.files r)) }
    ensures left { (j : ℕ) (r r' : Copy D) → At replicas.old j r → At replicas.new j r' → LeftAt D.Tells D.files r r' }
    ensures kept { D.Tells → (j : ℕ) (r r' : Copy D) → At replicas.old j r → At replicas.new j r' → KeepsDisk D.files r r' }
    ensures reach { CanReach D.Tells D.files D.Piece.Tells replicas.new rows.new }
    ensures refused { IfErr result (IsRefusedAt D.Tells D.files D.fault_count replicas.old replicas.new) }
{
    match open_each(replicas, rows, alloc) {
        Ok(()) => {
            let mut out = Vec::new(alloc);
            see_broken_off(replicas, rows, unsure, &mut out)
        }
        Err(refusal) => Err(refusal),
    }
}
