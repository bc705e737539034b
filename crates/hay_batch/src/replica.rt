//! A replica to which batches are added.

ghost use Rattle.std.specs.Prelude.{◌≡◌, OnOk, OnErr, IsErrOf};
ghost use Rattle.hay_disk.specs.Counts.{IsCounted};
ghost use Rattle.hay_disk.specs.declared.disk.DiskFault.{DiskFault};
ghost use Rattle.hay_batch.specs.Batches.{IsBatch, batch_total};
ghost use Rattle.hay_batch.specs.Replicas.{Adds, HasRoom, IsReady, MayAdd};

use crate::append::append_many;
use crate::photo::NewPhoto;
use hay_disk::{Disk, DiskFault};
use hay_volume::{VolumeFault, VolumeFile};
use std::alloc::Global;

/// The disk of a replica that was opened, and its current volume file.
#[derive(Drop)]
pub struct LoadReplica<D> {
    pub disk: D,
    pub volume: VolumeFile,
}

impl<D: Disk> LoadReplica<D> {
    // Adds the cells of a batch for which there is room. One that refused must not be used for another.
    pub(crate) fn append(&mut self, alloc: Global, photos: &[NewPhoto]) -> Result<(), DiskFault>
        requires batch { IsBatch photos.now }
        requires ready { D.Tells → IsReady D.files self.old }
        requires room { HasRoom (batch_total photos.now) self.old }
        ensures added { OnOk result (Adds D.Tells D.files photos.now self.old self.new) }
        ensures stayed { OnErr result (self.new.volume ≡ self.old.volume) }
        ensures left { D.Tells → MayAdd D.files photos.now self.old self.new }
        ensures counted { IsCounted (D.fault_count self.old.disk) (D.fault_count self.new.disk) (IsErrOf result DiskFault.Failed) }
        ensures fuses { D.fuse_count self.new.disk ≡ D.fuse_count self.old.disk }
    {
        match append_many(&mut self.volume, alloc, &mut self.disk, photos) {
            Ok(_) => Ok(()),
            Err(VolumeFault::Failed) => Err(DiskFault::Failed),
            Err(VolumeFault::Full { .. }) => unreachable!(),
            Err(VolumeFault::NoMemory) => Err(DiskFault::NoMemory),
        }
    }
}
