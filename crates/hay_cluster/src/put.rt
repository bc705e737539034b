//! Puts.
ghost use Rattle.std.specs.Prelude.{◌≡◌, ◌≤◌, ◌<◌, ℕ, List, [], ◌∷◌, false, Ok, None, Some, length, map, IfOk};
ghost use Rattle.std.specs.List.{AllByRecursion, AllZip, list_any};
ghost use Rattle.hay_legal.specs.declared.known.Known.{Known};
ghost use Rattle.hay_legal.specs.Known.{NoneFalls, all_tries, home_of, refusal_of, taker_of};
ghost use Rattle.hay_legal.specs.Plain.{wants_room, as_closed};
ghost use Rattle.hay_legal.specs.Suiting.{Refuses, Suits};
ghost use Rattle.hay_script.specs.declared.Command.TheVariants as asks;
ghost use Rattle.hay_reply.specs.Fits.{FitsRefused, FitsReply};
ghost use Rattle.hay_directory.specs.State as directory;
ghost use Rattle.hay_cluster.specs.Causes.{IsCaused, RefusesPut};
ghost use Rattle.hay_cluster.specs.Leaving.{IsBeside, LeavesByPut, LeavesIn, LeavesReplicas, MayAddRow};
ghost use Rattle.hay_cluster.specs.Puts as puts;
ghost use Rattle.hay_cluster.specs.Puts.{IsPutReply, IsRefusal, IsTried, StoredAs, TakesPhoto};
ghost use Rattle.hay_cluster.specs.Seen.{AnswersPut, IsTaker, PutsAt, RefusesPhoto, store_seen};
ghost use Rattle.hay_cluster.specs.Sights.{PutSights, told_by};
ghost use Rattle.hay_cluster.specs.State.{Answered, Stands};
ghost use Rattle.hay_cluster.specs.Store.{IsUp, contents_in, disks_of};

use crate::cluster::Cluster;
use hay_base::{Listed, NoMemory};
use hay_core::CoreTag;
use hay_directory::{DirFault, tries};
use hay_disk::{Arm, Disk};
use hay_logical::LogicalFault;
use hay_needle::{MAX_PHOTO, Pair};
use hay_reply::{ClosedBy, Refused, Reply};
use hay_url::cookie_of;
use std::alloc::Global;

/// What a put's tries came to.
#[derive(Drop)]
pub enum Tried {
    /// This volume takes the photo.
    Taker(u32),
    /// Each refuses.
    Nobody(Listed<Refused>),
}

impl<D: Disk, A: Arm<D::Piece>> Cluster<D, A> {
    /// Stores a photo in its pair's home, or in the first of its tries that takes it.
    pub(crate) fn put(&mut self, alloc: Global, tag: CoreTag, pair: Pair, bytes: &[u8]) -> Reply
        requires size { length bytes.now ≤ MAX_PHOTO }
        requires up { IsUp self.old }
        ensures legal { D.Tells → (k : Known) → Stands D.files D.Piece.Tells D.fault_count D.fuse_count A.fault_count self.old k →
            Answered D.files D.Piece.Tells D.fault_count D.fuse_count A.fault_count k tag (asks.Put pair bytes.now) result self.new }
        ensures causes { IsCaused self.old.settings (map D.fault_count (disks_of self.old)) (map D.fault_count (disks_of self.new)) result }
        ensures suits { Suits self.old.settings tag.line (asks.Put pair bytes.now) result }
        ensures fits { FitsReply result }
        ensures counts { NoneFalls (map D.fault_count (disks_of self.old)) (map D.fault_count (disks_of self.new)) }
        ensures fuses { map D.fuse_count (disks_of self.new) ≡ map D.fuse_count (disks_of self.old) }
        ensures contents { D.Tells → LeavesByPut self.old.settings pair result (store_seen self.old).volumes (store_seen self.new).volumes (contents_in D.files self.old)
            (contents_in D.files self.new) }
        ensures arms { self.new.arms ≡ self.old.arms }
        ensures seen { AnswersPut self.old.settings tag pair (length bytes.now) result (store_seen self.old) (store_seen self.new) }
        ensures sights { PutSights self.old.settings pair (told_by result) (store_seen self.old) (store_seen self.new) }
        ensures settings { self.new.settings ≡ self.old.settings }
        ensures up { IsUp self.new }
    {
        let size = bytes.len() as u32;
        let Some(volume) = self.home(pair) else {
            return match self.find_taker(alloc, pair, size) {
                Ok(tried) => self.put_tried(alloc, tag, pair, bytes, tried),
                Err(NoMemory) => Reply::NoMem,
            };
        };
        match self.refusal(volume, size) {
            Some(refused) => refuse_one(alloc, refused),
            None => self.put_at(alloc, tag, pair, bytes, volume),
        }
    }

    // The first of a pair's tries that takes a photo of this size, or why none does.
    fn find_taker(&self, alloc: Global, pair: Pair, size: u32) -> Result<Tried, NoMemory>
        requires up { IsUp self.now }
        ensures known { D.Tells → (k : Known) → Stands D.files D.Piece.Tells D.fault_count D.fuse_count A.fault_count self.now k → IfOk result (IsTried self.now.settings k pair size) }
        ensures within { (volume : ℕ) → result ≡ Ok (Tried.Taker volume) → volume < self.now.settings.volumes }
        ensures takes { (volume : ℕ) → result ≡ Ok (Tried.Taker volume) → TakesPhoto self.now volume size }
        ensures refused { (refused : List Refused) → result ≡ Ok (Tried.Nobody refused) → AllZip (Refuses self.now.settings size) (all_tries self.now.settings pair) refused }
        ensures fits { (refused : List Refused) → result ≡ Ok (Tried.Nobody refused) → AllByRecursion FitsRefused refused }
        ensures seen { (volume : ℕ) → result ≡ Ok (Tried.Taker volume) → IsTaker self.now.settings (store_seen self.now) pair size volume }
        ensures refused_seen { (refused : List Refused) → result ≡ Ok (Tried.Nobody refused) →
            AllZip (RefusesPhoto self.now.settings (store_seen self.now) size) (all_tries self.now.settings pair) refused }
    {
        let mut refused = Listed::new(alloc);
        for turn in 0..self.settings.volumes {
            let volume = tries(&self.settings, pair.key, turn);
            match self.refusal(volume, size) {
                None => return Ok(Tried::Taker(volume)),
                Some(refusal) => refused.push(refusal)?,
            }
        }
        Ok(Tried::Nobody(refused))
    }

    // Stores the first photo of a pair in the volume that takes it, if one does.
    fn put_tried(
        &mut self,
        alloc: Global,
        tag: CoreTag,
        pair: Pair,
        bytes: &[u8],
        tried: Tried,
    ) -> Reply
        requires size { length bytes.now ≤ MAX_PHOTO }
        requires homeless { directory.home_of self.old.directory pair ≡ None }
        requires within { (volume : ℕ) → tried ≡ Tried.Taker volume → volume < self.old.settings.volumes }
        requires takes { (volume : ℕ) → tried ≡ Tried.Taker volume → TakesPhoto self.old volume (length bytes.now) }
        requires refused { (refused : List Refused) → tried ≡ Tried.Nobody refused → AllZip (Refuses self.old.settings (length bytes.now)) (all_tries self.old.settings pair) refused }
        requires fits { (refused : List Refused) → tried ≡ Tried.Nobody refused → AllByRecursion FitsRefused refused }
        requires seen { (volume : ℕ) → tried ≡ Tried.Taker volume → IsTaker self.old.settings (store_seen self.old) pair (length bytes.now) volume }
        requires refused_seen { (refused : List Refused) → tried ≡ Tried.Nobody refused →
            AllZip (RefusesPhoto self.old.settings (store_seen self.old) (length bytes.now)) (all_tries self.old.settings pair) refused }
        requires up { IsUp self.old }
        ensures legal { D.Tells → (k : Known) → Stands D.files D.Piece.Tells D.fault_count D.fuse_count A.fault_count self.old k → home_of k pair ≡ None →
            IsTried self.old.settings k pair (length bytes.now) tried →
            Answered D.files D.Piece.Tells D.fault_count D.fuse_count A.fault_count k tag (asks.Put pair bytes.now) result self.new }
        ensures causes { IsCaused self.old.settings (map D.fault_count (disks_of self.old)) (map D.fault_count (disks_of self.new)) result }
        ensures suits { Suits self.old.settings tag.line (asks.Put pair bytes.now) result }
        ensures fits { FitsReply result }
        ensures counts { NoneFalls (map D.fault_count (disks_of self.old)) (map D.fault_count (disks_of self.new)) }
        ensures fuses { map D.fuse_count (disks_of self.new) ≡ map D.fuse_count (disks_of self.old) }
        ensures contents { D.Tells → LeavesByPut self.old.settings pair result (store_seen self.old).volumes (store_seen self.new).volumes (contents_in D.files self.old)
            (contents_in D.files self.new) }
        ensures arms { self.new.arms ≡ self.old.arms }
        ensures seen { AnswersPut self.old.settings tag pair (length bytes.now) result (store_seen self.old) (store_seen self.new) }
        ensures sights { PutSights self.old.settings pair (told_by result) (store_seen self.old) (store_seen self.new) }
        ensures settings { self.new.settings ≡ self.old.settings }
        ensures up { IsUp self.new }
    {
        match tried {
            Tried::Taker(volume) => self.put_new(alloc, tag, pair, bytes, volume),
            Tried::Nobody(refused) => refuse(alloc, refused),
        }
    }

    // Stores the first photo of a pair in this volume, which becomes its home.
    fn put_new(
        &mut self,
        alloc: Global,
        tag: CoreTag,
        pair: Pair,
        bytes: &[u8],
        volume: u32,
    ) -> Reply
        requires size { length bytes.now ≤ MAX_PHOTO }
        requires volume { volume < self.old.settings.volumes }
        requires takes { TakesPhoto self.old volume (length bytes.now) }
        requires seen { IsTaker self.old.settings (store_seen self.old) pair (length bytes.now) volume }
        requires homeless { directory.home_of self.old.directory pair ≡ None }
        requires up { IsUp self.old }
        ensures legal { D.Tells → (k : Known) → Stands D.files D.Piece.Tells D.fault_count D.fuse_count A.fault_count self.old k →
            home_of k pair ≡ None → taker_of self.old.settings k pair (length bytes.now) ≡ Some volume
            → Answered D.files D.Piece.Tells D.fault_count D.fuse_count A.fault_count k tag (asks.Put pair bytes.now) result self.new }
        ensures causes { IsCaused self.old.settings (map D.fault_count (disks_of self.old)) (map D.fault_count (disks_of self.new)) result }
        ensures suits { Suits self.old.settings tag.line (asks.Put pair bytes.now) result }
        ensures fits { FitsReply result }
        ensures counts { NoneFalls (map D.fault_count (disks_of self.old)) (map D.fault_count (disks_of self.new)) }
        ensures fuses { map D.fuse_count (disks_of self.new) ≡ map D.fuse_count (disks_of self.old) }
        ensures contents { D.Tells → LeavesByPut self.old.settings pair result (store_seen self.old).volumes (store_seen self.new).volumes (contents_in D.files self.old)
            (contents_in D.files self.new) }
        ensures arms { self.new.arms ≡ self.old.arms }
        ensures seen { AnswersPut self.old.settings tag pair (length bytes.now) result (store_seen self.old) (store_seen self.new) }
        ensures sights { PutSights self.old.settings pair (told_by result) (store_seen self.old) (store_seen self.new) }
        ensures settings { self.new.settings ≡ self.old.settings }
        ensures up { IsUp self.new }
    {
        match self.settle(tag, pair, volume) {
            Ok(()) => self.put_at(alloc, tag, pair, bytes, volume),
            Err(fault) => settle_refusal(fault),
        }
    }

    // Stores a photo in this volume, which takes it.
    fn put_at(
        &mut self,
        alloc: Global,
        tag: CoreTag,
        pair: Pair,
        bytes: &[u8],
        volume: u32,
    ) -> Reply
        requires size { length bytes.now ≤ MAX_PHOTO }
        requires volume { volume < self.old.settings.volumes }
        requires takes { TakesPhoto self.old volume (length bytes.now) }
        requires up { IsUp self.old }
        ensures stored { D.Tells → (k : Known) → Stands D.files D.Piece.Tells D.fault_count D.fuse_count A.fault_count self.old k →
            refusal_of self.old.settings k (length bytes.now) volume ≡ None →
            StoredAs D.files D.Piece.Tells D.fault_count D.fuse_count A.fault_count self.old.settings k tag pair bytes.now volume result self.new }
        ensures causes { IsCaused self.old.settings (map D.fault_count (disks_of self.old)) (map D.fault_count (disks_of self.new)) result }
        ensures suits { Suits self.old.settings tag.line (asks.Put pair bytes.now) result }
        ensures fits { FitsReply result }
        ensures counts { NoneFalls (map D.fault_count (disks_of self.old)) (map D.fault_count (disks_of self.new)) }
        ensures fuses { map D.fuse_count (disks_of self.new) ≡ map D.fuse_count (disks_of self.old) }
        ensures beside { LeavesIn (IsBeside self.old.settings volume) (disks_of self.old) (disks_of self.new) }
        ensures replicas { D.Tells → LeavesReplicas self.old.settings result (store_seen self.old).volumes (store_seen self.new).volumes (contents_in D.files self.old) (contents_in D.files self.new) }
        ensures adds { MayAddRow result }
        ensures arms { self.new.arms ≡ self.old.arms }
        ensures seen { PutsAt self.old.settings tag (length bytes.now) volume result (store_seen self.old) (store_seen self.new) }
        ensures sights { PutSights self.old.settings pair (told_by result) (store_seen self.old) (store_seen self.new) }
        ensures settings { self.new.settings ≡ self.old.settings }
        ensures up { IsUp self.new }
    {
        let cookie = cookie_of(&self.settings.secret, pair.key);
        match self.put_in(alloc, tag, pair, cookie, bytes, volume) {
            Ok(position) => Reply::Stored {
                volume,
                position,
                rows: self.rows(),
                cookie,
            },
            Err(fault) => put_refusal(alloc, volume, fault),
        }
    }
}

// What a put is answered whose pair got no home.
fn settle_refusal(fault: DirFault) -> Reply
    ensures is { result ≡ puts.settle_reply fault }
    ensures fits { FitsReply result }
{
    match fault {
        DirFault::Frozen => Reply::ReadOnlyDir,
        DirFault::NoMemory => Reply::NoMem,
        DirFault::Failed { faults } => Reply::FailedDir { faults },
    }
}

// What a put is answered that a volume did not store.
fn put_refusal(alloc: Global, volume: u32, fault: LogicalFault) -> Reply
    requires { RefusesPut fault }
    ensures is { IsPutReply volume fault result }
    ensures fits { FitsReply result }
{
    match fault {
        LogicalFault::Failed { machine, faults } => Reply::Failed {
            volume,
            machine,
            faults,
        },
        LogicalFault::ReadOnly { machine } => {
            refuse_one(alloc, Refused::Closed { volume, machine })
        }
        LogicalFault::Full {
            machine,
            end,
            need,
            capacity: _,
        } => refuse_one(
            alloc,
            Refused::NoRoom {
                volume,
                machine,
                end,
                need,
            },
        ),
        LogicalFault::NoMemory => Reply::NoMem,
        LogicalFault::Gone { .. }
        | LogicalFault::Busy { .. }
        | LogicalFault::Worn { .. }
        | LogicalFault::Idle
        | LogicalFault::Damaged { .. } => unreachable!(),
    }
}

// What a put is answered that all its tries refuse: it is full where one at least wants room.
fn refuse(alloc: Global, refused: Listed<Refused>) -> Reply
    requires fits { AllByRecursion FitsRefused refused }
    ensures is { IsRefusal refused result }
    ensures fits { FitsReply result }
{
    if has_lack(refused.as_slice()) {
        return Reply::Full { tries: refused };
    }
    match closed_of(alloc, refused.as_slice()) {
        Ok(tries) => Reply::ReadOnly { tries },
        Err(NoMemory) => Reply::NoMem,
    }
}

fn refuse_one(alloc: Global, refused: Refused) -> Reply
    requires fits { FitsRefused refused }
    ensures is { IsRefusal (refused ∷ []) result }
    ensures fits { FitsReply result }
{
    match Listed::one(alloc, refused) {
        Ok(all) => refuse(alloc, all),
        Err(NoMemory) => Reply::NoMem,
    }
}

// Whether one of these at least wants room.
fn has_lack(refused: &[Refused]) -> bool
    ensures { result ≡ list_any wants_room refused.now }
{
    refused
        .iter()
        .any(|refusal| matches!(refusal, Refused::NoRoom { .. }))
}

// The machines by which volumes are closed, where none wants room.
fn closed_of(alloc: Global, refused: &[Refused]) -> Result<Listed<ClosedBy>, NoMemory>
    requires { list_any wants_room refused.now ≡ false }
    ensures { IfOk result (λ closed. map as_closed closed ≡ refused.now) }
{
    let mut closed = Listed::new(alloc);
    for refusal in refused {
        if let Refused::Closed { volume, machine } = refusal {
            closed.push(ClosedBy {
                volume: *volume,
                machine: *machine,
            })?;
        }
    }
    Ok(closed)
}
