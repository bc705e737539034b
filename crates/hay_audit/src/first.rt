//! A store on void disks, as formatted.

ghost use Rattle.std.specs.Prelude.{◌≡◌, IfOk, replicate, false};
ghost use Rattle.hay_legal.specs.Known as known;

use crate::pairs::{Log, Rows};
use crate::state::{Directory, ReplicaState, State, VolumeState};
use crate::table::Table;
use hay_base::{Listed, NoMemory};
use hay_needle::Settings;
use std::alloc::Global;

pub(crate) fn fresh_replica(alloc: Global) -> ReplicaState
    ensures { result ≡ known.empty_replica }
{
    ReplicaState {
        base: Table::new(alloc),
        end: 64,
        cells: 0,
        bare: 0,
        generation: 0,
        stuck: false,
        run: None,
        poised: false,
    }
}

#[tactic(auto, using(crate::proofs::Lists::replicate_next))]
fn fresh_replicas(alloc: Global, count: u32) -> Result<Listed<ReplicaState>, NoMemory>
    ensures { IfOk result (λ replicas. replicas ≡ replicate count known.empty_replica) }
{
    let mut replicas = Listed::new(alloc);
    for _i in 0..count {
        replicas.push(fresh_replica(alloc))?;
    }
    Ok(replicas)
}

fn fresh_volume(alloc: Global, settings: &Settings) -> Result<VolumeState, NoMemory>
    ensures { IfOk result (λ volume. volume ≡ known.fresh_volume settings.now) }
{
    let replicas = fresh_replicas(alloc, settings.replicas)?;
    Ok(VolumeState {
        log: Log::new(alloc),
        frozen: None,
        pending: None,
        replicas,
    })
}

#[tactic(auto, using(crate::proofs::Lists::replicate_next))]
fn fresh_volumes(alloc: Global, settings: &Settings) -> Result<Listed<VolumeState>, NoMemory>
    ensures { IfOk result (λ volumes. volumes ≡ replicate settings.now.volumes (known.fresh_volume settings.now)) }
{
    let mut volumes = Listed::new(alloc);
    for _i in 0..settings.volumes {
        volumes.push(fresh_volume(alloc, settings)?)?;
    }
    Ok(volumes)
}

fn zeros(alloc: Global, count: usize) -> Result<Listed<u64>, NoMemory>
    ensures { IfOk result (λ zeros. zeros ≡ replicate count 0) }
{
    Ok(Listed::from_vec(vec![in alloc; 0u64; count]?))
}

pub(crate) fn undrained(alloc: Global, count: usize) -> Result<Listed<bool>, NoMemory>
    ensures { IfOk result (λ drained. drained ≡ replicate count false) }
{
    Ok(Listed::from_vec(vec![in alloc; false; count]?))
}

/// The state of a store as formatted, where nothing has failed yet.
pub(crate) fn fresh_state(alloc: Global, settings: &Settings) -> Result<State, NoMemory>
    ensures { IfOk result (λ state. state ≡ known.fresh_unharmed settings.now) }
{
    let disks = 1 + settings.volumes as usize * settings.replicas as usize;
    let volumes = fresh_volumes(alloc, settings)?;
    let drained = undrained(alloc, settings.machines as usize)?;
    let faults = zeros(alloc, disks)?;
    let arms = zeros(alloc, 8)?;
    let fuses = zeros(alloc, disks)?;
    Ok(State {
        volumes,
        directory: Directory {
            rows: Rows::new(alloc),
            frozen: false,
            pending: None,
        },
        drained,
        faults,
        arms,
        fuses,
    })
}
