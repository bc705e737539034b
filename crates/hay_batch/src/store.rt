//! A store to which batches are loaded.

ghost use Rattle.std.specs.Prelude.{◌≡◌, ◌⊎◌, ◌≤◌, ◌<◌, ◌+◌, ◌%◌, ℕ, List, Err, IfErr, IfOk};
ghost use Rattle.hay_needle.specs.declared.settings.Settings.{Settings};
ghost use Rattle.hay_batch.specs.Batches.{max_total};
ghost use Rattle.hay_batch.specs.declared.fault.FullTry.{FullTry};
ghost use Rattle.hay_batch.specs.declared.fault.LoadFault.{LoadFault};
ghost use Rattle.hay_batch.specs.declared.replica.LoadReplica.{LoadReplica};
ghost use Rattle.hay_batch.specs.declared.store.LoadVolume.{LoadVolume};
ghost use Rattle.hay_batch.specs.Replicas.{At, HasRoom};
ghost use Rattle.hay_batch.specs.Stores.{AreTries, IsShaped, try_at};

use crate::directory::LoadDirectory;
use crate::fault::{FullTry, LoadFault};
use crate::replica::LoadReplica;
use crate::replicas::first_full;
use hay_base::Listed;
use hay_needle::Settings;
use std::alloc::Global;

/// The replicas of a volume, in order.
#[derive(Drop)]
pub struct LoadVolume<D> {
    pub replicas: Vec<LoadReplica<D>>,
}

/// A store whose disks were opened.
#[derive(Drop)]
pub struct LoadStore<D> {
    pub settings: Settings,
    pub directory: LoadDirectory<D>,
    pub volumes: Vec<LoadVolume<D>>,
}

// The volume that a batch of this key tries at this turn.
fn try_at(settings: &Settings, key: u64, turn: u32) -> u32
    requires { 0 < settings.now.volumes }
    ensures is { result ≡ try_at settings.now key turn }
    ensures below { result < settings.now.volumes }
{
    let volumes = settings.volumes;
    let volume = (u128::from(key) + u128::from(turn)) % u128::from(volumes);
    volume as u32
}

// The machine of a replica of a volume.
fn machine_of(settings: &Settings, volume: u32, replica: u32) -> u32
    requires { 0 < settings.now.machines }
    ensures { result ≡ (volume + replica) % settings.now.machines }
{
    let machines = settings.machines;
    let machine = (u64::from(volume) + u64::from(replica)) % u64::from(machines);
    machine as u32
}

impl<D> LoadStore<D> {
    // The first try in which each replica has room for needles of so many bytes.
    pub(crate) fn find_room(&self, alloc: Global, key: u64, need: u64) -> Result<u32, LoadFault>
        requires shape { IsShaped self.now }
        requires need { need ≤ max_total }
        ensures there { IfOk result (λ volume. volume < self.now.settings.volumes) }
        ensures room { IfOk result (λ volume. (w : LoadVolume D) → At self.now.volumes.items volume w → (j : ℕ) (r : LoadReplica D) → At w.replicas.items j r → HasRoom need r) }
        ensures first { IfOk result (λ volume. (turn : ℕ) × (volume ≡ try_at self.now.settings key turn) × (tries : List FullTry) × AreTries self.now key need turn tries) }
        ensures full { IfErr result (λ fault. (tries : List FullTry) → fault ≡ LoadFault.Full tries → AreTries self.now key need self.now.settings.volumes tries) }
        ensures faults { IfErr result (λ fault. ((tries : List FullTry) × (fault ≡ LoadFault.Full tries)) ⊎ (fault ≡ LoadFault.NoMemory)) }
    {
        let mut tries = Listed::new(alloc);
        for turn in 0..self.settings.volumes {
            let volume = try_at(&self.settings, key, turn);
            let replicas = self.volumes[volume as usize].replicas.as_slice();
            let Some((replica, end)) = first_full(replicas, need) else {
                return Ok(volume);
            };
            let full = FullTry {
                volume,
                machine: machine_of(&self.settings, volume, replica),
                end,
                need,
            };
            let Ok(()) = tries.push(full) else {
                return Err(LoadFault::NoMemory);
            };
        }
        Err(LoadFault::Full { tries })
    }
}
