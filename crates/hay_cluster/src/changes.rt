//! Deletes, drains and fuses, and the URLs of photos.
ghost use Rattle.std.specs.Prelude.{◌≡◌, ℕ, false, true, map};
ghost use Rattle.hay_script.specs.declared.Command.TheVariants as asks;
ghost use Rattle.hay_core.specs.declared.entry.CoreTag.{CoreTag};
ghost use Rattle.hay_reply.specs.Fits.{FitsReply};
ghost use Rattle.hay_legal.specs.declared.known.Known.{Known};
ghost use Rattle.hay_legal.specs.Known.{NoneFalls};
ghost use Rattle.hay_legal.specs.Suiting.{Suits};
ghost use Rattle.hay_cluster.specs.Causes.{EndsRuns, IsCaused, RefusesDelete, SetsFuse, SetsFuseOn};
ghost use Rattle.hay_cluster.specs.Changes.{IsDeleteReply, IsReadOnly};
ghost use Rattle.hay_cluster.specs.Leaving.{AnySlot, KeepsIn, LeavesByDelete};
ghost use Rattle.hay_cluster.specs.Needles.{IsDamagedLookOn, LooksTold};
ghost use Rattle.hay_cluster.specs.Seen.{AnswersDelete, AnswersDrain, AnswersRead, Keeps, store_seen};
ghost use Rattle.hay_cluster.specs.Sights.{DeleteSights, KeepsPhotos, told_by};
ghost use Rattle.hay_cluster.specs.State.{Answered, Stands};
ghost use Rattle.hay_cluster.specs.Store.{IsUp, contents_in, disks_of};

use crate::closed::replica_on;
use crate::cluster::Cluster;
use hay_base::Listed;
use hay_core::CoreTag;
use hay_directory::machine_of;
use hay_disk::{Arm, Disk};
use hay_logical::LogicalFault;
use hay_needle::Pair;
use hay_reply::{ClosedBy, Reply};
use hay_url::{Url, cookie_of};
use std::alloc::Global;

#[tactic(auto, using(crate::proofs::Moves::none_falls))]
impl<D: Disk, A: Arm<D::Piece>> Cluster<D, A> {
    /// Deletes the photo of a pair.
    pub(crate) fn delete(&mut self, alloc: Global, tag: CoreTag, pair: Pair) -> Reply
        requires up { IsUp self.old }
        ensures legal { D.Tells → (k : Known) → Stands D.files D.Piece.Tells D.fault_count D.fuse_count A.fault_count self.old k →
            Answered D.files D.Piece.Tells D.fault_count D.fuse_count A.fault_count k tag (asks.Del pair) result self.new }
        ensures causes { IsCaused self.old.settings (map D.fault_count (disks_of self.old)) (map D.fault_count (disks_of self.new)) result }
        ensures suits { Suits self.old.settings tag.line (asks.Del pair) result }
        ensures fits { FitsReply result }
        ensures counts { NoneFalls (map D.fault_count (disks_of self.old)) (map D.fault_count (disks_of self.new)) }
        ensures fuses { map D.fuse_count (disks_of self.new) ≡ map D.fuse_count (disks_of self.old) }
        ensures contents { D.Tells → LeavesByDelete self.old.settings result (store_seen self.old).volumes (store_seen self.new).volumes (contents_in D.files self.old) (contents_in D.files self.new) }
        ensures arms { self.new.arms ≡ self.old.arms }
        ensures seen { AnswersDelete self.old.settings tag pair result (store_seen self.old) (store_seen self.new) }
        ensures sights { DeleteSights self.old.settings pair (told_by result) (store_seen self.old) (store_seen self.new) }
        ensures damaged { D.Tells → (v m place : ℕ) → result ≡ Reply.Damaged v m place → IsDamagedLookOn self.old.settings (contents_in D.files self.old) (store_seen self.old) v pair m place }
        ensures told { D.Tells → LooksTold self.old.settings (contents_in D.files self.old) (store_seen self.old) (store_seen self.new) pair (told_by result) }
        ensures ended { EndsRuns self.old.settings result (store_seen self.old) (store_seen self.new) (map D.fault_count (disks_of self.old)) (map D.fault_count (disks_of self.new)) }
        ensures settings { self.new.settings ≡ self.old.settings }
        ensures up { IsUp self.new }
    {
        let Some(volume) = self.home(pair) else {
            return Reply::Unknown { rows: self.rows() };
        };
        if let Some(machine) = self.closed_by(volume) {
            return read_only(alloc, volume, machine);
        }
        let mut needle = Vec::new(alloc);
        match self.delete_in(tag, pair, volume, &mut needle) {
            Ok(position) => Reply::Deleted {
                volume,
                position,
                rows: self.rows(),
            },
            Err(fault) => delete_refusal(alloc, volume, self.rows(), fault),
        }
    }

    /// The URL by which a photo is read.
    pub(crate) fn url(&mut self, tag: CoreTag, pair: Pair) -> Reply
        requires up { IsUp self.old }
        ensures legal { D.Tells → (k : Known) → Stands D.files D.Piece.Tells D.fault_count D.fuse_count A.fault_count self.old k →
            Answered D.files D.Piece.Tells D.fault_count D.fuse_count A.fault_count k tag (asks.Url pair) result self.new }
        ensures causes { IsCaused self.old.settings (map D.fault_count (disks_of self.old)) (map D.fault_count (disks_of self.new)) result }
        ensures suits { Suits self.old.settings tag.line (asks.Url pair) result }
        ensures fits { FitsReply result }
        ensures counts { NoneFalls (map D.fault_count (disks_of self.old)) (map D.fault_count (disks_of self.new)) }
        ensures fuses { map D.fuse_count (disks_of self.new) ≡ map D.fuse_count (disks_of self.old) }
        ensures disks { disks_of self.new ≡ disks_of self.old }
        ensures arms { self.new.arms ≡ self.old.arms }
        ensures seen { AnswersRead pair result (store_seen self.old) (store_seen self.new) }
        ensures sights { KeepsPhotos (store_seen self.old) (store_seen self.new) }
        ensures settings { self.new.settings ≡ self.old.settings }
        ensures up { IsUp self.new }
    {
        let rows = self.rows();
        let Some(volume) = self.home(pair) else {
            return Reply::Unknown { rows };
        };
        let start = self.start_of(tag);
        Reply::Url {
            rows,
            url: Url {
                machine: machine_of(&self.settings, volume, start),
                volume,
                pair,
                cookie: cookie_of(&self.settings.secret, pair.key),
            },
        }
    }

    /// Closes a machine to changes.
    pub(crate) fn drain(&mut self, machine: u32) -> Reply
        requires up { IsUp self.old }
        ensures legal { D.Tells → (k : Known) (tag : CoreTag) → Stands D.files D.Piece.Tells D.fault_count D.fuse_count A.fault_count self.old k →
            Answered D.files D.Piece.Tells D.fault_count D.fuse_count A.fault_count k tag (asks.Drain machine) result self.new }
        ensures causes { IsCaused self.old.settings (map D.fault_count (disks_of self.old)) (map D.fault_count (disks_of self.new)) result }
        ensures suits { (line : ℕ) → Suits self.old.settings line (asks.Drain machine) result }
        ensures fits { FitsReply result }
        ensures counts { NoneFalls (map D.fault_count (disks_of self.old)) (map D.fault_count (disks_of self.new)) }
        ensures fuses { map D.fuse_count (disks_of self.new) ≡ map D.fuse_count (disks_of self.old) }
        ensures disks { disks_of self.new ≡ disks_of self.old }
        ensures arms { self.new.arms ≡ self.old.arms }
        ensures seen { AnswersDrain machine true (Reply.Drained machine) result (store_seen self.old) (store_seen self.new) }
        ensures sights { KeepsPhotos (store_seen self.old) (store_seen self.new) }
        ensures settings { self.new.settings ≡ self.old.settings }
        ensures up { IsUp self.new }
    {
        if machine >= self.settings.machines {
            return Reply::Nowhere;
        }
        self.set_drained(machine, true);
        Reply::Drained { machine }
    }

    /// Opens a machine to changes again.
    pub(crate) fn undrain(&mut self, machine: u32) -> Reply
        requires up { IsUp self.old }
        ensures legal { D.Tells → (k : Known) (tag : CoreTag) → Stands D.files D.Piece.Tells D.fault_count D.fuse_count A.fault_count self.old k →
            Answered D.files D.Piece.Tells D.fault_count D.fuse_count A.fault_count k tag (asks.Undrain machine) result self.new }
        ensures causes { IsCaused self.old.settings (map D.fault_count (disks_of self.old)) (map D.fault_count (disks_of self.new)) result }
        ensures suits { (line : ℕ) → Suits self.old.settings line (asks.Undrain machine) result }
        ensures fits { FitsReply result }
        ensures counts { NoneFalls (map D.fault_count (disks_of self.old)) (map D.fault_count (disks_of self.new)) }
        ensures fuses { map D.fuse_count (disks_of self.new) ≡ map D.fuse_count (disks_of self.old) }
        ensures disks { disks_of self.new ≡ disks_of self.old }
        ensures arms { self.new.arms ≡ self.old.arms }
        ensures seen { AnswersDrain machine false (Reply.Undrained machine) result (store_seen self.old) (store_seen self.new) }
        ensures sights { KeepsPhotos (store_seen self.old) (store_seen self.new) }
        ensures settings { self.new.settings ≡ self.old.settings }
        ensures up { IsUp self.new }
    {
        if machine >= self.settings.machines {
            return Reply::Nowhere;
        }
        self.set_drained(machine, false);
        Reply::Undrained { machine }
    }

    /// Sets a fuse on the disk of the replica of a volume on a machine.
    pub(crate) fn fuse(&mut self, volume: u32, machine: u32, calls: u32) -> Reply
        requires up { IsUp self.old }
        ensures legal { D.Tells → (k : Known) (tag : CoreTag) → Stands D.files D.Piece.Tells D.fault_count D.fuse_count A.fault_count self.old k →
            Answered D.files D.Piece.Tells D.fault_count D.fuse_count A.fault_count k tag (asks.Fuse volume machine calls) result self.new }
        ensures causes { IsCaused self.old.settings (map D.fault_count (disks_of self.old)) (map D.fault_count (disks_of self.new)) result }
        ensures suits { (line : ℕ) → Suits self.old.settings line (asks.Fuse volume machine calls) result }
        ensures fits { FitsReply result }
        ensures counts { NoneFalls (map D.fault_count (disks_of self.old)) (map D.fault_count (disks_of self.new)) }
        ensures fuses { SetsFuseOn self.old.settings volume machine (map D.fuse_count (disks_of self.old)) (map D.fuse_count (disks_of self.new)) }
        ensures contents { D.Tells → KeepsIn self.old.settings AnySlot (contents_in D.files self.old) (contents_in D.files self.new) }
        ensures arms { self.new.arms ≡ self.old.arms }
        ensures seen { Keeps (store_seen self.old) (store_seen self.new) }
        ensures sights { KeepsPhotos (store_seen self.old) (store_seen self.new) }
        ensures settings { self.new.settings ≡ self.old.settings }
        ensures up { IsUp self.new }
    {
        let Some(replica) = replica_on(&self.settings, volume, machine) else {
            return Reply::Nowhere;
        };
        self.fuse_in(volume, replica, calls);
        Reply::Fused {
            volume,
            machine,
            calls,
        }
    }

    /// Sets a fuse on the Directory's disk.
    pub(crate) fn fuse_dir(&mut self, calls: u32) -> Reply
        requires up { IsUp self.old }
        ensures legal { D.Tells → (k : Known) (tag : CoreTag) → Stands D.files D.Piece.Tells D.fault_count D.fuse_count A.fault_count self.old k →
            Answered D.files D.Piece.Tells D.fault_count D.fuse_count A.fault_count k tag (asks.FuseDir calls) result self.new }
        ensures causes { IsCaused self.old.settings (map D.fault_count (disks_of self.old)) (map D.fault_count (disks_of self.new)) result }
        ensures suits { (line : ℕ) → Suits self.old.settings line (asks.FuseDir calls) result }
        ensures fits { FitsReply result }
        ensures counts { NoneFalls (map D.fault_count (disks_of self.old)) (map D.fault_count (disks_of self.new)) }
        ensures fuses { SetsFuse 0 (map D.fuse_count (disks_of self.old)) (map D.fuse_count (disks_of self.new)) }
        ensures contents { D.Tells → KeepsIn self.old.settings AnySlot (contents_in D.files self.old) (contents_in D.files self.new) }
        ensures arms { self.new.arms ≡ self.old.arms }
        ensures seen { Keeps (store_seen self.old) (store_seen self.new) }
        ensures sights { KeepsPhotos (store_seen self.old) (store_seen self.new) }
        ensures settings { self.new.settings ≡ self.old.settings }
        ensures up { IsUp self.new }
    {
        self.fuse_directory(calls);
        Reply::FusedDir { calls }
    }
}

// The refusal of a change of a volume that is closed by this machine.
pub(crate) fn read_only(alloc: Global, volume: u32, machine: u32) -> Reply
    ensures is { IsReadOnly volume machine result }
    ensures fits { FitsReply result }
{
    match Listed::one(alloc, ClosedBy { volume, machine }) {
        Ok(tries) => Reply::ReadOnly { tries },
        Err(_) => Reply::NoMem,
    }
}

// What a delete is answered that a volume did not make.
fn delete_refusal(alloc: Global, volume: u32, rows: u64, fault: LogicalFault) -> Reply
    requires { RefusesDelete fault }
    ensures is { IsDeleteReply volume rows fault result }
    ensures fits { FitsReply result }
{
    match fault {
        LogicalFault::Gone { front } => Reply::Absent {
            volume,
            front,
            rows,
        },
        LogicalFault::Failed { machine, faults } => Reply::Failed {
            volume,
            machine,
            faults,
        },
        LogicalFault::ReadOnly { machine } => read_only(alloc, volume, machine),
        LogicalFault::Damaged { machine, at } => Reply::Damaged {
            volume,
            machine,
            at,
        },
        LogicalFault::NoMemory => Reply::NoMem,
        LogicalFault::Full { .. }
        | LogicalFault::Busy { .. }
        | LogicalFault::Worn { .. }
        | LogicalFault::Idle => unreachable!(),
    }
}
