//! The replicas of a volume.

ghost use Rattle.std.specs.Prelude.{◌≡◌, ◌≤◌, ◌<◌, ℕ, length, IfErr, IfNone, IfSome, OnOk};
ghost use Rattle.hay_disk.specs.Counts.{Rose};
ghost use Rattle.hay_batch.specs.declared.replica.LoadReplica.{LoadReplica};
ghost use Rattle.hay_batch.specs.declared.replicas.AppendFault.{AppendFault};
ghost use Rattle.hay_batch.specs.Batches.{IsBatch, batch_total, max_total};
ghost use Rattle.hay_batch.specs.Replicas.{Adds, At, HasRoom, IsFirstFull, IsReady, MayAdd};

use crate::photo::NewPhoto;
use crate::replica::LoadReplica;
use hay_disk::{Disk, DiskFault};
use hay_needle::MAX_REPLICAS;
use std::alloc::Global;

/// Why a batch was not added to each replica.
#[derive(Clone, Copy, Debug, PartialEq, Eq)]
pub(crate) enum AppendFault {
    /// The disk of this replica failed, and its count of faults rose to this.
    Failed { replica: u32, faults: u64 },
    /// Memory was wanting.
    NoMemory,
}

/// The lowest replica that lacks room for needles of so many bytes.
pub(crate) fn first_full<D>(replicas: &[LoadReplica<D>], need: u64) -> Option<(u32, u64)>
    requires few { length replicas.now ≤ MAX_REPLICAS }
    requires need { need ≤ max_total }
    ensures full { IfSome result (λ full. (r : LoadReplica D) × IsFirstFull need replicas.now full.0 r × (full.1 ≡ r.volume.end)) }
    ensures room { IfNone result ((j : ℕ) (r : LoadReplica D) → At replicas.now j r → HasRoom need r) }
{
    for (j, replica) in replicas.iter().enumerate() {
        let volume = &replica.volume;
        if volume.capacity < need + 8 || volume.capacity - (need + 8) < volume.end {
            return Some((j as u32, volume.end));
        }
    }
    None
}

/// Adds the cells of a batch to each replica in order. Where one refused, none must be used for another batch.
pub(crate) fn append_each<D: Disk>(
    replicas: &mut [LoadReplica<D>],
    alloc: Global,
    photos: &[NewPhoto],
) -> Result<(), AppendFault>
    requires few { length replicas.old ≤ MAX_REPLICAS }
    requires batch { IsBatch photos.now }
    requires ready { D.Tells → (j : ℕ) (r : LoadReplica D) → At replicas.old j r → IsReady D.files r }
    requires room { (j : ℕ) (r : LoadReplica D) → At replicas.old j r → HasRoom (batch_total photos.now) r }
    ensures count { length replicas.new ≡ length replicas.old }
    ensures added { OnOk result ((j : ℕ) (r r' : LoadReplica D) → At replicas.old j r → At replicas.new j r' → Adds D.Tells D.files photos.now r r') }
    ensures left { D.Tells → (j : ℕ) (r r' : LoadReplica D) → At replicas.old j r → At replicas.new j r' → MayAdd D.files photos.now r r' }
    ensures failed { IfErr result (λ fault. (j faults : ℕ) → fault ≡ AppendFault.Failed j faults → (r r' : LoadReplica D) → At replicas.old j r → At replicas.new j r' →
        Rose (D.fault_count r.disk) (D.fault_count r'.disk) × (faults ≡ D.fault_count r'.disk)) }
    ensures there { IfErr result (λ fault. (j faults : ℕ) → fault ≡ AppendFault.Failed j faults → j < length replicas.old) }
    ensures counts { (j : ℕ) (r r' : LoadReplica D) → At replicas.old j r → At replicas.new j r' → D.fault_count r.disk ≤ D.fault_count r'.disk }
    ensures fuses { (j : ℕ) (r r' : LoadReplica D) → At replicas.old j r → At replicas.new j r' → D.fuse_count r'.disk ≡ D.fuse_count r.disk }
{
    for (j, replica) in replicas.iter_mut().enumerate() {
        match replica.append(alloc, photos) {
            Ok(()) => {}
            Err(DiskFault::Failed) => {
                return Err(AppendFault::Failed {
                    replica: j as u32,
                    faults: replica.disk.faults(),
                });
            }
            Err(DiskFault::NoMemory) => return Err(AppendFault::NoMemory),
        }
    }
    Ok(())
}
