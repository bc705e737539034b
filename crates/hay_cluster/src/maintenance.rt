//! Flushes and compactions: work on one replica of a volume, which changes no photo.
ghost use Rattle.std.specs.Prelude.{◌≡◌, ◌⊎◌, ◌<◌, ℕ, None, Some, Err, map, IfOk, IfErr, OnErr, OnOk};
ghost use Rattle.hay_core.specs.declared.entry.CoreTag.{CoreTag};
ghost use Rattle.hay_reply.specs.Fits.{FitsReply};
ghost use Rattle.hay_legal.specs.declared.known.Known.{Known};
ghost use Rattle.hay_legal.specs.declared.known.VolumeKnown.{VolumeKnown};
ghost use Rattle.hay_legal.specs.Known.{NoneFalls};
ghost use Rattle.hay_legal.specs.Suiting.{Suits};
ghost use Rattle.hay_physical.specs.OpenCopies.{Copy, KeepsHead, volume_bytes};
ghost use Rattle.hay_logical.specs.Fits.{At};
ghost use Rattle.hay_logical.specs.Needles.{IsDamagedCell};
ghost use Rattle.hay_logical.specs.Refusals.{IsUntouchedBy};
ghost use Rattle.hay_logical.specs.Seen.{replica_seen, volume_seen};
ghost use Rattle.hay_logical.specs.Stands as logical;
ghost use Rattle.hay_logical.specs.Volumes.{IsOpenVolume, IsSame, KeepsCounts};
ghost use Rattle.hay_cluster.specs.Causes.{IsCaused, RefusesWork};
ghost use Rattle.hay_cluster.specs.Leaving.{LeavesByWork};
ghost use Rattle.hay_cluster.specs.Maintenance.{HasSwapped, IsDone, IsRefused, IsRefusedAs, IsReplicaFault, MayWantMemory, command_of, done_as};
ghost use Rattle.hay_cluster.specs.Needles.{LacksWork, LeadsPart, LeadsSwap, LeadsWork, RunsIntoDamage, WorkTold};
ghost use Rattle.hay_cluster.specs.Seen.{AnswersWork, WorkRefusedSeen, WorkSeen, store_seen};
ghost use Rattle.hay_logical.specs.Sights.{KeepsSights, sights_of};
ghost use Rattle.hay_cluster.specs.Sights.{DoneSights, WorkSights, told_by};
ghost use Rattle.hay_cluster.specs.State.{Answered, Stands};
ghost use Rattle.hay_cluster.specs.Store.{IsUp, contents_in, disks_of};

use crate::changes::read_only;
use crate::closed::replica_on;
use crate::cluster::Cluster;
use hay_disk::{Arm, Disk};
use hay_logical::{Logical, LogicalFault};
use hay_reply::Reply;
use std::alloc::Global;

/// What is asked of one replica.
#[derive(Clone, Copy, Debug, PartialEq, Eq)]
pub(crate) enum Maintenance {
    /// Gives the cells without an index record theirs.
    Flush,
    /// Begins a compaction.
    Begin,
    /// Examines so many cells for the compaction that stands.
    Step { cells: u32 },
    /// Finishes the compaction that stands.
    Finish,
    /// Begins a compaction and finishes it.
    Compact,
}

#[tactic(auto, using(crate::proofs::Moves::none_falls))]
impl<D: Disk, A: Arm<D::Piece>> Cluster<D, A> {
    /// Does maintenance work on the replica of a volume on a machine.
    pub(crate) fn maintain(
        &mut self,
        alloc: Global,
        volume: u32,
        machine: u32,
        work: Maintenance,
    ) -> Reply
        requires up { IsUp self.old }
        ensures legal { D.Tells → (k : Known) (tag : CoreTag) → Stands D.files D.Piece.Tells D.fault_count D.fuse_count A.fault_count self.old k →
            Answered D.files D.Piece.Tells D.fault_count D.fuse_count A.fault_count k tag (command_of work volume machine) result self.new }
        ensures causes { IsCaused self.old.settings (map D.fault_count (disks_of self.old)) (map D.fault_count (disks_of self.new)) result }
        ensures suits { (line : ℕ) → Suits self.old.settings line (command_of work volume machine) result }
        ensures fits { FitsReply result }
        ensures counts { NoneFalls (map D.fault_count (disks_of self.old)) (map D.fault_count (disks_of self.new)) }
        ensures fuses { map D.fuse_count (disks_of self.new) ≡ map D.fuse_count (disks_of self.old) }
        ensures contents { D.Tells → LeavesByWork self.old.settings volume machine result (store_seen self.new).volumes (contents_in D.files self.old) (contents_in D.files self.new) }
        ensures arms { self.new.arms ≡ self.old.arms }
        ensures seen { AnswersWork self.old.settings work volume machine result (store_seen self.old) (store_seen self.new) }
        ensures sights { WorkSights self.old.settings (told_by result) (store_seen self.old) (store_seen self.new) }
        ensures damaged { D.Tells → RunsIntoDamage self.old.settings (contents_in D.files self.old) (store_seen self.old) work volume machine result }
        ensures told { D.Tells → WorkTold self.old.settings (contents_in D.files self.old) (store_seen self.old) (store_seen self.new) work volume machine result }
        ensures settings { self.new.settings ≡ self.old.settings }
        ensures up { IsUp self.new }
    {
        let Some(replica) = replica_on(&self.settings, volume, machine) else {
            return Reply::Nowhere;
        };
        match self.maintain_in(alloc, volume, replica, work) {
            Ok(number) => done(volume, machine, work, number),
            Err(fault) => refused(alloc, volume, machine, fault),
        }
    }
}

/// Does maintenance work on a replica of a volume, and answers its number: of the cells that got a record or were
/// examined, or of the generation that is made.
pub(crate) fn maintain<D: Disk>(
    volume: &mut Logical<D>,
    alloc: Global,
    replica: u32,
    work: Maintenance,
) -> Result<u64, LogicalFault>
    requires within { replica < volume.old.settings.replicas }
    requires open { IsOpenVolume volume.old }
    ensures done { D.Tells → (k : VolumeKnown) → logical.Stands D.files D.Piece.Tells volume.old k →
        IfOk result (λ number. IsDone D.files D.Piece.Tells work k replica number volume.new) }
    ensures refused { D.Tells → (k : VolumeKnown) → logical.Stands D.files D.Piece.Tells volume.old k →
        IfErr result (IsRefused D.files D.Piece.Tells work k replica volume.old volume.new) }
    ensures causes { IfErr result (IsReplicaFault D.fault_count volume.old.settings work volume.old.number replica volume.old.replicas volume.new.replicas) }
    ensures seen { IfOk result (λ number. WorkSeen work replica number (volume_seen volume.old) (volume_seen volume.new)) }
    ensures refused_seen { IfErr result (λ fault. WorkRefusedSeen volume.old.settings work volume.old.number replica fault (volume_seen volume.old) (volume_seen volume.new)) }
    ensures sights { OnOk result (DoneSights work replica (volume_seen volume.new) (sights_of volume.old.rows) (sights_of volume.new.rows)) }
    ensures refused_sights { OnErr result (KeepsSights (sights_of volume.old.rows) (sights_of volume.new.rows)) }
    // Where the disk tells, heads lead to where damage is told, and no cell is there; and so far as work that was done came, or wanted memory,
    // or froze the volume.
    ensures damaged { D.Tells → (m place : ℕ) → result ≡ Err (LogicalFault.Damaged m place)
        → IsDamagedCell D.files volume.old.replicas replica (LacksWork (sights_of volume.old.rows) replica work place) }
    ensures lead { D.Tells → (r r' : Copy D) → At volume.old.replicas replica r → At volume.new.replicas replica r' →
        IfOk result (λ number. LeadsWork (sights_of volume.old.rows) replica work number (replica_seen r) (replica_seen r') (volume_bytes D.files r)) }
    ensures part { D.Tells → (r r' : Copy D) → At volume.old.replicas replica r → At volume.new.replicas replica r' →
        IfErr result (λ fault. MayWantMemory fault → LeadsPart (sights_of volume.old.rows) replica work (replica_seen r) (replica_seen r') (volume_bytes D.files r)) }
    ensures froze { D.Tells → volume.old.frozen ≡ None → (m : ℕ) → volume.new.frozen ≡ Some m → (r : Copy D) → At volume.old.replicas replica r →
        LeadsSwap (sights_of volume.old.rows) replica work (replica_seen r) (volume_bytes D.files r) }
    // Where the volume takes changes then, the files were swapped, or the head stays.
    ensures head_file { D.Tells → volume.new.frozen ≡ None → (r r' : Copy D) → At volume.old.replicas replica r → At volume.new.replicas replica r' →
        HasSwapped work result ⊎ KeepsHead D.files r r' }
    // A volume that is frozen refuses, and of the others a flush alone, where the replica's index takes no records.
    ensures frozen { (m : ℕ) → volume.old.frozen ≡ Some m → result ≡ Err (LogicalFault.ReadOnly m) }
    ensures untouched { IfErr result (λ fault. IsUntouchedBy fault → volume.new ≡ volume.old) }
    ensures open { IsOpenVolume volume.new }
    ensures others { (j : ℕ) → (j ≡ replica → ⊥) → (r r' : Copy D) → At volume.old.replicas j r → At volume.new.replicas j r' → r'.disk ≡ r.disk }
    ensures counts { KeepsCounts D.fault_count D.fuse_count volume.old.replicas volume.new.replicas }
    ensures same { IsSame volume.old volume.new }
{
    if let Some(machine) = volume.frozen() {
        return Err(LogicalFault::ReadOnly { machine });
    }
    match work {
        Maintenance::Flush => volume.flush(replica),
        Maintenance::Begin => volume.begin(alloc, replica),
        Maintenance::Step { cells } => volume.step(replica, cells),
        Maintenance::Finish => volume.finish(replica),
        Maintenance::Compact => volume.compact(alloc, replica),
    }
}

// What work is answered that was done.
fn done(volume: u32, machine: u32, work: Maintenance, number: u64) -> Reply
    ensures is { result ≡ done_as volume machine work number }
    ensures fits { FitsReply result }
{
    match work {
        Maintenance::Flush => Reply::Flushed {
            volume,
            machine,
            records: number,
        },
        Maintenance::Begin => Reply::Begun {
            volume,
            machine,
            generation: number,
        },
        Maintenance::Step { cells: _ } => Reply::Stepped {
            volume,
            machine,
            cells: number,
        },
        Maintenance::Finish | Maintenance::Compact => Reply::Compacted {
            volume,
            machine,
            generation: number,
        },
    }
}

// What work is answered that a volume did not do.
fn refused(alloc: Global, volume: u32, machine: u32, fault: LogicalFault) -> Reply
    requires { RefusesWork fault }
    ensures is { IsRefusedAs volume machine fault result }
    ensures fits { FitsReply result }
{
    match fault {
        LogicalFault::ReadOnly { machine } => read_only(alloc, volume, machine),
        LogicalFault::Failed { machine, faults } => Reply::Failed {
            volume,
            machine,
            faults,
        },
        LogicalFault::Busy {
            machine,
            generation,
        } => Reply::Busy {
            volume,
            machine,
            generation,
        },
        LogicalFault::Worn { machine } => Reply::Worn { volume, machine },
        LogicalFault::Idle => Reply::Idle { volume, machine },
        LogicalFault::Damaged { machine, at } => Reply::Damaged {
            volume,
            machine,
            at,
        },
        LogicalFault::NoMemory => Reply::NoMem,
        LogicalFault::Full { .. } | LogicalFault::Gone { .. } => unreachable!(),
    }
}
