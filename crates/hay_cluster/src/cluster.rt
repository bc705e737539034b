//! A store, and how it is opened, stopped and closed.
ghost use Rattle.std.specs.Prelude.{◌≡◌, ◌≢◌, ◌<◌, ℕ, length, map};
ghost use Rattle.hay_legal.specs.declared.known.Known.{Known};
ghost use Rattle.hay_legal.specs.Known.{NoneFalls};
ghost use Rattle.hay_legal.specs.Suiting.{Suits};
ghost use Rattle.hay_script.specs.Script.{IsWithin};
ghost use Rattle.hay_reply.specs.Fits.{FitsReply};
ghost use Rattle.hay_cluster.specs.Causes.{EndsRuns, IsCaused, LeavesFuses, StaySure};
ghost use Rattle.hay_cluster.specs.Leaving.{LeavesContents};
ghost use Rattle.hay_cluster.specs.Needles.{MeetsNeedles, TellsDamage};
ghost use Rattle.hay_cluster.specs.Passing.{IsSureArm, PassesBefore};
ghost use Rattle.hay_cluster.specs.Reads.{counts_of};
ghost use Rattle.hay_cluster.specs.Seen.{Answers, store_seen};
ghost use Rattle.hay_cluster.specs.Sights.{LeavesSights};
ghost use Rattle.hay_cluster.specs.State.{Answered, Stands};
ghost use Rattle.hay_cluster.specs.Store.{IsUp, contents_in, disks_of};

use crate::maintenance::Maintenance;
use hay_core::CoreTag;
use hay_directory::Directory;
use hay_disk::{Arm, Disk};
use hay_logical::Logical;
use hay_needle::Settings;
use hay_reader::LaneSeat;
use hay_reply::Reply;
use hay_script::Command;
use std::alloc::Global;
use std::marker::Model;

/// An open store.
#[derive(Drop)]
pub struct Cluster<D: Disk, A: Arm<D::Piece>> {
    pub(crate) settings: Settings,
    pub(crate) directory: Directory<D>,
    pub(crate) volumes: Vec<Logical<D>>,
    pub(crate) seats: Vec<LaneSeat<A>>,
}

impl<D: Disk, A: Arm<D::Piece>> Model for Cluster<D, A> {
    ghost use Rattle.hay_cluster.specs.Store.{Open, IsShaped};

    ghost Value = { Open D D.Piece A };

    ghost view = { λ c. record {
      settings = c.settings;
      directory = c.directory;
      volumes = c.volumes.items;
      arms = c.seats.items;
    } };

    ghost invariant = { λ c. IsShaped (record {
      settings = c.settings;
      directory = c.directory;
      volumes = c.volumes.items;
      arms = c.seats.items;
    }) };
}

impl<D: Disk, A: Arm<D::Piece>> Cluster<D, A> {
    /// Answers a command of this lane and line.
    #[tactic(auto, using(crate::proofs::Moves::none_falls))]
    pub fn answer(&mut self, alloc: Global, tag: CoreTag, command: &Command) -> Reply
        requires within { IsWithin command.now }
        requires no_restart { (pick : ℕ) → command.now ≢ Command.Restart pick }
        requires lane { tag.lane < 8 }
        requires up { IsUp self.old }
        ensures legal { D.Tells → (k : Known) →
            Stands D.files D.Piece.Tells D.fault_count D.fuse_count A.fault_count self.old k →
            Answered D.files D.Piece.Tells D.fault_count D.fuse_count A.fault_count k tag command.now result self.new }
        // A reply tells of a disk's failure only where the count that it prints rose in this call.
        ensures causes { IsCaused self.old.settings (map D.fault_count (disks_of self.old)) (map D.fault_count (disks_of self.new)) result }
        // A reply is one that its command may be given.
        ensures suits { Suits self.old.settings tag.line command.now result }
        ensures fits { FitsReply result }
        // A sure arm stays so.
        ensures sure_arms { StaySure A.is_sure A.fault_count self.old.arms self.new.arms }
        ensures counts { NoneFalls (map D.fault_count (disks_of self.old)) (map D.fault_count (disks_of self.new)) }
        // A fuse is set by its command alone, on the disk that it names.
        ensures fuses { LeavesFuses self.old.settings command.now (map D.fuse_count (disks_of self.old)) (map D.fuse_count (disks_of self.new)) }
        // What reads give of the disks is changed as the reply tells, and by work on a replica on its disk alone.
        ensures contents { D.Tells → LeavesContents self.old.settings command.now result (store_seen self.old).volumes (store_seen self.new).volumes (contents_in D.files self.old)
            (contents_in D.files self.new) }
        ensures arm_counts { NoneFalls (map A.fault_count self.old.arms) (map A.fault_count self.new.arms) }
        // What it tells of what is seen in memory is so, whatever the disks tell, and what is seen is changed as it tells.
        ensures seen { Answers self.old.settings tag command.now result (store_seen self.old) (store_seen self.new) }
        // So it is with the photos.
        ensures sights { LeavesSights self.old.settings command.now result (store_seen self.old) (store_seen self.new) }
        // The replicas that a read tries before the one that answers were passed over, each for its cause.
        ensures passes { PassesBefore D.Tells self.old.settings (IsSureArm A.is_sure self.old.arms tag.lane) (contents_in D.files self.new) tag command.now
            (counts_of D.fault_count A.fault_count self.old) (counts_of D.fault_count A.fault_count self.new) (store_seen self.new) result }
        // Where the disks tell, damage that a delete or a compaction tells stands there.
        ensures damaged { D.Tells → TellsDamage self.old.settings (contents_in D.files self.old) (store_seen self.old) command.now result }
        // What looks and steps made of places and cells is so by the needles that stand there: no damage is met without being told.
        ensures told { D.Tells → MeetsNeedles self.old.settings (contents_in D.files self.old) (store_seen self.old) (store_seen self.new) command.now result }
        // A delete ends a compaction only where the count of its replica's disk rose in this call.
        ensures ended { EndsRuns self.old.settings result (store_seen self.old) (store_seen self.new) (map D.fault_count (disks_of self.old)) (map D.fault_count (disks_of self.new)) }
        ensures settings { self.new.settings ≡ self.old.settings }
        ensures up { IsUp self.new }
    {
        match command {
            Command::Put { pair, photo } => self.put(alloc, tag, *pair, photo.as_slice()),
            Command::Read { pair, cookie } => self.read(alloc, tag, *pair, *cookie),
            Command::Get { url } => self.get(alloc, tag, url),
            Command::Del { pair } => self.delete(alloc, tag, *pair),
            Command::Url { pair } => self.url(tag, *pair),
            Command::Flush { volume, machine } => {
                self.maintain(alloc, *volume, *machine, Maintenance::Flush)
            }
            Command::Drain { machine } => self.drain(*machine),
            Command::Undrain { machine } => self.undrain(*machine),
            Command::Fuse {
                volume,
                machine,
                calls,
            } => self.fuse(*volume, *machine, *calls),
            Command::FuseDir { calls } => self.fuse_dir(*calls),
            Command::Compact { volume, machine } => {
                self.maintain(alloc, *volume, *machine, Maintenance::Compact)
            }
            Command::Begin { volume, machine } => {
                self.maintain(alloc, *volume, *machine, Maintenance::Begin)
            }
            Command::Step {
                volume,
                machine,
                cells,
            } => self.maintain(
                alloc,
                *volume,
                *machine,
                Maintenance::Step { cells: *cells },
            ),
            Command::Finish { volume, machine } => {
                self.maintain(alloc, *volume, *machine, Maintenance::Finish)
            }
            Command::Restart { pick: _ } => unreachable!(),
        }
    }

    /// How many rows there are.
    pub fn rows(&self) -> u64
        ensures count { result ≡ self.now.directory.count }
        ensures known { D.Tells → (k : Known) →
            Stands D.files D.Piece.Tells D.fault_count D.fuse_count A.fault_count self.now k → result ≡ length k.directory.rows }
    {
        self.directory.rows()
    }
}
