//! Reads, and gets by URL.
ghost use Rattle.std.specs.Prelude.{◌≡◌, ◌⊎◌, ◌≤◌, ◌<◌, ◌+◌, ◌%◌, ◌^◌, ℕ, List, [], Some, Err, length, map, slice_index, IfOk, IfErr, IfSome, IfNone, OnOk};
ghost use Rattle.std.specs.List.{AllByRecursion};
ghost use Rattle.hay_script.specs.declared.Command.TheVariants as asks;
ghost use Rattle.hay_legal.specs.declared.known.Known.{Known};
ghost use Rattle.std.specs.Option.{ForSome};
ghost use Rattle.std.specs.Vec.{vec_capacity};
ghost use Rattle.hay_reply.specs.Fits.{FitsPassed, FitsReply, IsLarge};
ghost use Rattle.hay_reader.specs.Causes.{ComeFirst};
ghost use Rattle.hay_reader.specs.Shown.{HasBytes, ShowsAt};
ghost use Rattle.hay_legal.specs.Known.{NoneFalls, home_of, slot_of, volume_at};
ghost use Rattle.hay_legal.specs.Known as known;
ghost use Rattle.hay_legal.specs.Plain.{start_of};
ghost use Rattle.hay_legal.specs.Suiting.{ShowsOf, Suits, start_at};
ghost use Rattle.hay_cluster.specs.Causes.{IsCaused, StaySure};
ghost use Rattle.hay_cluster.specs.Needles.{AreToldAs, FileAt, LooksTold};
ghost use Rattle.hay_cluster.specs.Passing.{IsOfPlace, IsSureArm, TriesBefore};
ghost use Rattle.hay_cluster.specs.Reads.{AwaitsFor, CannotSee, FoundPasses, FoundSays, FoundSees, IsFoundAs, IsSeenAt, IsSeenByAt, IsSightCause, IsSightFault, IsWhole, MayHave};
ghost use Rattle.hay_cluster.specs.Reads.{NeverIn, PassesFrom, ReadPasses, ReadSays, ReadSees, ShownAs, StopsUnseen, counts_of, outcomes_of, passed_at};
ghost use Rattle.hay_cluster.specs.Leaving.{AnySlot, KeepsIn};
ghost use Rattle.hay_cluster.specs.Parts.{Comes};
ghost use Rattle.hay_cluster.specs.Seen.{Keeps, Shows, VolumeAt, home_seen, store_seen};
ghost use Rattle.hay_cluster.specs.Sights.{ChangesPhotos, KeepsPhotos, ReadSights, told_by};
ghost use Rattle.hay_logical.specs.Needles.{LacksSeen};
ghost use Rattle.hay_logical.specs.Sights.{LooksAtPair, SeesPair};
ghost use Rattle.hay_cluster.specs.State.{Answered, Stands};
ghost use Rattle.hay_cluster.specs.Store.{IsBuilt, IsUp, contents_in, disks_of};

use crate::closed::replica_on;
use crate::cluster::Cluster;
use hay_base::{Listed, NoMemory};
use hay_core::CoreTag;
use hay_directory::machine_of;
use hay_disk::{Arm, Disk};
use hay_logical::{LogicalFault, Looked};
use hay_needle::{Bytes, Cookie, MAX_PHOTO, MAX_REPLICAS, Pair, Settings};
use hay_reader::{Causes, PassedReplica, ReadReply, show_seen};
use hay_reply::{Cause, Passed, Reply};
use hay_url::Url;
use std::alloc::Global;

/// What a read found, once each place that it came to was seen. A replica is named by its number in the volume.
#[derive(Drop)]
pub enum Found {
    Photo { replica: u32 },
    Gone { replica: u32 },
    WrongCookie { replica: u32 },
    /// Every replica was passed over.
    Unreadable { causes: Causes },
    NoMemory,
}

impl<D: Disk, A: Arm<D::Piece>> Cluster<D, A> {
    /// The replica from which a line reads first.
    pub(crate) fn start_of(&self, tag: CoreTag) -> u32
        ensures is { result ≡ start_of self.now.settings tag }
        ensures within { result < self.now.settings.replicas }
    {
        (tag.line % u64::from(self.settings.replicas)) as u32
    }

    /// Shows the photo of a pair to who has its cookie.
    #[tactic(auto, using(crate::proofs::Moves::none_falls))]
    pub(crate) fn read(&mut self, alloc: Global, tag: CoreTag, pair: Pair, cookie: Cookie) -> Reply
        requires lane { tag.lane < 8 }
        requires up { IsUp self.old }
        ensures legal { D.Tells → (k : Known) → Stands D.files D.Piece.Tells D.fault_count D.fuse_count A.fault_count self.old k →
            Answered D.files D.Piece.Tells D.fault_count D.fuse_count A.fault_count k tag (asks.Read pair cookie) result self.new }
        ensures causes { IsCaused self.old.settings (map D.fault_count (disks_of self.old)) (map D.fault_count (disks_of self.new)) result }
        ensures suits { Suits self.old.settings tag.line (asks.Read pair cookie) result }
        ensures fits { FitsReply result }
        ensures sure_arms { StaySure A.is_sure A.fault_count self.old.arms self.new.arms }
        ensures counts { NoneFalls (map D.fault_count (disks_of self.old)) (map D.fault_count (disks_of self.new)) }
        ensures fuses { map D.fuse_count (disks_of self.new) ≡ map D.fuse_count (disks_of self.old) }
        ensures contents { D.Tells → KeepsIn self.old.settings AnySlot (contents_in D.files self.old) (contents_in D.files self.new) }
        ensures arm_counts { NoneFalls (map A.fault_count self.old.arms) (map A.fault_count self.new.arms) }
        ensures seen { Keeps (store_seen self.old) (store_seen self.new) }
        ensures sights { ReadSights self.old.settings pair (told_by result) (store_seen self.old) (store_seen self.new) }
        ensures told { D.Tells → LooksTold self.old.settings (contents_in D.files self.old) (store_seen self.old) (store_seen self.new) pair (told_by result) }
        ensures passes { TriesBefore D.Tells self.old.settings (IsSureArm A.is_sure self.old.arms tag.lane) (contents_in D.files self.new) tag.lane (start_at self.old.settings tag.line) pair
            (counts_of D.fault_count A.fault_count self.old) (counts_of D.fault_count A.fault_count self.new) (store_seen self.new) (told_by result) }
        ensures shows { Shows (store_seen self.old) pair result }
        ensures settings { self.new.settings ≡ self.old.settings }
        ensures up { IsUp self.new }
    {
        let Some(volume) = self.home(pair) else {
            return Reply::Unknown { rows: self.rows() };
        };
        let start = self.start_of(tag);
        self.show(alloc, tag, volume, pair, cookie, start)
    }

    /// Shows the photo of a URL, if it names a replica of the home of its pair.
    pub(crate) fn get(&mut self, alloc: Global, tag: CoreTag, url: &Url) -> Reply
        requires lane { tag.lane < 8 }
        requires up { IsUp self.old }
        ensures legal { D.Tells → (k : Known) → Stands D.files D.Piece.Tells D.fault_count D.fuse_count A.fault_count self.old k →
            Answered D.files D.Piece.Tells D.fault_count D.fuse_count A.fault_count k tag (asks.Get url.now) result self.new }
        ensures causes { IsCaused self.old.settings (map D.fault_count (disks_of self.old)) (map D.fault_count (disks_of self.new)) result }
        ensures suits { Suits self.old.settings tag.line (asks.Get url.now) result }
        ensures fits { FitsReply result }
        ensures sure_arms { StaySure A.is_sure A.fault_count self.old.arms self.new.arms }
        ensures counts { NoneFalls (map D.fault_count (disks_of self.old)) (map D.fault_count (disks_of self.new)) }
        ensures fuses { map D.fuse_count (disks_of self.new) ≡ map D.fuse_count (disks_of self.old) }
        ensures contents { D.Tells → KeepsIn self.old.settings AnySlot (contents_in D.files self.old) (contents_in D.files self.new) }
        ensures arm_counts { NoneFalls (map A.fault_count self.old.arms) (map A.fault_count self.new.arms) }
        ensures seen { Keeps (store_seen self.old) (store_seen self.new) }
        ensures sights { ReadSights self.old.settings url.now.pair (told_by result) (store_seen self.old) (store_seen self.new) }
        ensures told { D.Tells → LooksTold self.old.settings (contents_in D.files self.old) (store_seen self.old) (store_seen self.new) url.now.pair (told_by result) }
        ensures passes { (start : ℕ) → known.replica_on self.old.settings url.now.volume url.now.machine ≡ Some start
            → TriesBefore D.Tells self.old.settings (IsSureArm A.is_sure self.old.arms tag.lane) (contents_in D.files self.new) tag.lane start url.now.pair
            (counts_of D.fault_count A.fault_count self.old) (counts_of D.fault_count A.fault_count self.new) (store_seen self.new) (told_by result) }
        ensures shows { Shows (store_seen self.old) url.now.pair result }
        ensures settings { self.new.settings ≡ self.old.settings }
        ensures up { IsUp self.new }
    {
        let Some(start) = replica_on(&self.settings, url.volume, url.machine) else {
            return Reply::Nowhere;
        };
        let Some(volume) = self.home(url.pair) else {
            return Reply::Unknown { rows: self.rows() };
        };
        if volume != url.volume {
            return Reply::Moved {
                volume,
                rows: self.rows(),
            };
        }
        self.show(alloc, tag, volume, url.pair, url.cookie, start)
    }

    // Shows the photo of a pair, from this replica of its home on.
    fn show(
        &mut self,
        alloc: Global,
        tag: CoreTag,
        volume: u32,
        pair: Pair,
        cookie: Cookie,
        start: u32,
    ) -> Reply
        requires lane { tag.lane < 8 }
        requires volume { volume < self.old.settings.volumes }
        requires start { start < self.old.settings.replicas }
        requires home { home_seen (store_seen self.old) pair ≡ Some volume }
        requires up { IsUp self.old }
        ensures shown { D.Tells → (k : Known) → Stands D.files D.Piece.Tells D.fault_count D.fuse_count A.fault_count self.old k → home_of k pair ≡ Some volume →
            ShownAs D.files D.Piece.Tells D.fault_count D.fuse_count A.fault_count self.old.settings k tag start pair cookie result self.new }
        ensures here { ShowsOf self.old.settings start volume result ⊎ (result ≡ Reply.NoMem) }
        ensures fits { FitsReply result }
        ensures causes { IsCaused self.old.settings (map D.fault_count (disks_of self.old)) (map D.fault_count (disks_of self.new)) result }
        ensures sure_arms { StaySure A.is_sure A.fault_count self.old.arms self.new.arms }
        ensures counts { NoneFalls (map D.fault_count (disks_of self.old)) (map D.fault_count (disks_of self.new)) }
        ensures fuses { map D.fuse_count (disks_of self.new) ≡ map D.fuse_count (disks_of self.old) }
        ensures contents { D.Tells → KeepsIn self.old.settings AnySlot (contents_in D.files self.old) (contents_in D.files self.new) }
        ensures arm_counts { NoneFalls (map A.fault_count self.old.arms) (map A.fault_count self.new.arms) }
        ensures seen { Keeps (store_seen self.old) (store_seen self.new) }
        ensures sights { ReadSights self.old.settings pair (told_by result) (store_seen self.old) (store_seen self.new) }
        ensures told { D.Tells → LooksTold self.old.settings (contents_in D.files self.old) (store_seen self.old) (store_seen self.new) pair (told_by result) }
        ensures passes { TriesBefore D.Tells self.old.settings (IsSureArm A.is_sure self.old.arms tag.lane) (contents_in D.files self.new) tag.lane start pair
            (counts_of D.fault_count A.fault_count self.old) (counts_of D.fault_count A.fault_count self.new) (store_seen self.new) (told_by result) }
        ensures shows { Shows (store_seen self.old) pair result }
        ensures settings { self.new.settings ≡ self.old.settings }
        ensures up { IsUp self.new }
    {
        let Ok(mut photo) = Vec::with_capacity(alloc, MAX_PHOTO as usize) else {
            return Reply::NoMem;
        };
        let rows = self.rows();
        let (front, found) = self.fetch(alloc, tag.lane, volume, pair, cookie, start, &mut photo);
        match found {
            Found::Photo { replica } => Reply::Photo {
                volume,
                machine: machine_of(&self.settings, volume, replica),
                front,
                rows,
                photo: bytes_of(photo),
            },
            Found::Gone { replica } => Reply::Gone {
                volume,
                machine: machine_of(&self.settings, volume, replica),
                front,
                rows,
            },
            Found::WrongCookie { replica } => Reply::WrongCookie {
                volume,
                machine: machine_of(&self.settings, volume, replica),
                front,
                rows,
            },
            Found::Unreadable { causes } => {
                match passed_of(alloc, &self.settings, volume, causes.as_slice()) {
                    Ok(causes) => Reply::Unreadable {
                        volume,
                        front,
                        rows,
                        causes,
                    },
                    Err(NoMemory) => Reply::NoMem,
                }
            }
            Found::NoMemory => Reply::NoMem,
        }
    }

    // Reads the photo of a pair in a volume, from this replica on, with a lane's arm. A place that was not looked at yet is seen
    // where the read comes to it. Answers how many changes the volume had, and what was found.
    fn fetch(
        &mut self,
        alloc: Global,
        lane: u32,
        volume: u32,
        pair: Pair,
        cookie: Cookie,
        start: u32,
        photo: &mut Vec<u8>,
    ) -> (u64, Found)
        requires lane { lane < 8 }
        requires volume { volume < self.old.settings.volumes }
        requires start { start < self.old.settings.replicas }
        requires empty { photo.old.items ≡ [] }
        requires room { MAX_PHOTO ≤ vec_capacity photo.old }
        requires up { IsUp self.old }
        ensures says { D.Tells → (k : Known) → Stands D.files D.Piece.Tells D.fault_count D.fuse_count A.fault_count self.old k →
            (result.0 ≡ length (volume_at k volume).log)
            × FoundSays cookie (outcomes_of self.old.settings (volume_at k volume) pair) photo.new.items result.1
            × Comes D.files D.Piece.Tells D.fault_count D.fuse_count A.fault_count k k self.new }
        ensures passes { FoundPasses (NeverIn D.Tells D.files D.Piece.Tells D.fault_count D.fuse_count A.fault_count A.is_sure self.old lane) self.old.settings lane volume start
            (counts_of D.fault_count A.fault_count self.old) (counts_of D.fault_count A.fault_count self.new)
            (IsOfPlace D.Tells self.old.settings (contents_in D.files self.new) (store_seen self.new) volume pair) result.1 }
        ensures bytes { (replica : ℕ) → result.1 ≡ Found.Photo replica → length photo.new.items ≤ MAX_PHOTO }
        ensures sure_arms { StaySure A.is_sure A.fault_count self.old.arms self.new.arms }
        ensures counts { NoneFalls (map D.fault_count (disks_of self.old)) (map D.fault_count (disks_of self.new)) }
        ensures fuses { map D.fuse_count (disks_of self.new) ≡ map D.fuse_count (disks_of self.old) }
        ensures contents { D.Tells → KeepsIn self.old.settings AnySlot (contents_in D.files self.old) (contents_in D.files self.new) }
        ensures arm_counts { NoneFalls (map A.fault_count self.old.arms) (map A.fault_count self.new.arms) }
        ensures seen { Keeps (store_seen self.old) (store_seen self.new) }
        ensures looks { ChangesPhotos volume (LooksAtPair pair) (store_seen self.old) (store_seen self.new) }
        ensures sees { FoundSees ((store_seen self.new).places volume pair) result.1 }
        ensures told { D.Tells → AreToldAs self.old.settings (contents_in D.files self.old) (store_seen self.old) volume pair ((store_seen self.new).places volume) }
        ensures front { VolumeAt volume (λ seen. result.0 ≡ seen.front) (store_seen self.old) }
        ensures settings { self.new.settings ≡ self.old.settings }
        ensures up { IsUp self.new }
    {
        let (front, mut read) = self.read_first(lane, volume, pair, cookie, start, photo);
        for _ in 0..self.settings.replicas {
            let ReadReply::Unseen { replica, causes } = read else {
                break;
            };
            let Ok((passed, needle)) = self.see_or_pass(alloc, volume, pair, replica, causes) else {
                return (front, Found::NoMemory);
            };
            read = self.read_more(lane, volume, pair, cookie, start, passed, needle, photo);
        }
        (front, found_of(read))
    }

    // Begins a read. Answers how many changes the volume had, and what was read until a place that was not looked at yet.
    fn read_first(
        &mut self,
        lane: u32,
        volume: u32,
        pair: Pair,
        cookie: Cookie,
        start: u32,
        photo: &mut Vec<u8>,
    ) -> (u64, ReadReply)
        requires lane { lane < 8 }
        requires volume { volume < self.old.settings.volumes }
        requires start { start < self.old.settings.replicas }
        requires empty { photo.old.items ≡ [] }
        requires room { MAX_PHOTO ≤ vec_capacity photo.old }
        requires up { IsUp self.old }
        ensures says { D.Tells → (k : Known) → Stands D.files D.Piece.Tells D.fault_count D.fuse_count A.fault_count self.old k →
            (result.0 ≡ length (volume_at k volume).log)
            × ReadSays cookie (outcomes_of self.old.settings (volume_at k volume) pair) photo.new.items result.1
            × Comes D.files D.Piece.Tells D.fault_count D.fuse_count A.fault_count k k self.new }
        ensures passes { ReadPasses (NeverIn D.Tells D.files D.Piece.Tells D.fault_count D.fuse_count A.fault_count A.is_sure self.old lane) self.old.settings lane volume start
            (counts_of D.fault_count A.fault_count self.old) (counts_of D.fault_count A.fault_count self.new)
            (IsOfPlace D.Tells self.old.settings (contents_in D.files self.new) (store_seen self.new) volume pair) [] result.1 }
        ensures stops { StopsUnseen self.old volume pair result.1 }
        ensures sees { ReadSees ((store_seen self.new).places volume pair) result.1 }
        ensures bytes { HasBytes photo.new.items result.1 }
        ensures room { vec_capacity photo.old ≤ vec_capacity photo.new }
        ensures sure_arms { StaySure A.is_sure A.fault_count self.old.arms self.new.arms }
        ensures volumes { self.new.volumes ≡ self.old.volumes }
        ensures disks { disks_of self.new ≡ disks_of self.old }
        ensures arm_counts { NoneFalls (map A.fault_count self.old.arms) (map A.fault_count self.new.arms) }
        ensures seen { store_seen self.new ≡ store_seen self.old }
        ensures front { VolumeAt volume (λ seen. result.0 ≡ seen.front) (store_seen self.old) }
        ensures settings { self.new.settings ≡ self.old.settings }
        ensures up { IsUp self.new }
    {
        let Looked { front, row } = self.volumes.as_slice()[volume as usize].look(pair);
        let read = self.seats.as_mut_slice()[lane as usize].show(
            &row,
            cookie,
            start as usize,
            photo,
        );
        (front, read)
    }

    // Goes on with a read behind the replicas that were passed over. Where the place of the next was seen, `needle` is what was read.
    fn read_more(
        &mut self,
        lane: u32,
        volume: u32,
        pair: Pair,
        cookie: Cookie,
        start: u32,
        passed: Causes,
        needle: Option<Vec<u8>>,
        photo: &mut Vec<u8>,
    ) -> ReadReply
        requires lane { lane < 8 }
        requires volume { volume < self.old.settings.volumes }
        requires start { start < self.old.settings.replicas }
        requires first { ComeFirst start self.old.settings.replicas passed }
        requires fewer { length passed ≤ self.old.settings.replicas }
        requires may_stand { MayHave (IsOfPlace D.Tells self.old.settings (contents_in D.files self.old) (store_seen self.old) volume pair) passed }
        requires needle { ForSome needle (λ bytes. (length passed < self.old.settings.replicas)
            × IsSeenByAt D.Tells D.Piece.Tells self.old volume pair ((start + length passed) % self.old.settings.replicas) bytes.items) }
        requires empty { photo.old.items ≡ [] }
        requires room { MAX_PHOTO ≤ vec_capacity photo.old }
        requires up { IsUp self.old }
        ensures says { D.Tells → (k : Known) → Stands D.files D.Piece.Tells D.fault_count D.fuse_count A.fault_count self.old k →
            ReadSays cookie (outcomes_of self.old.settings (volume_at k volume) pair) photo.new.items result
            × Comes D.files D.Piece.Tells D.fault_count D.fuse_count A.fault_count k k self.new }
        ensures passes { ReadPasses (NeverIn D.Tells D.files D.Piece.Tells D.fault_count D.fuse_count A.fault_count A.is_sure self.old lane) self.old.settings lane volume start
            (counts_of D.fault_count A.fault_count self.old) (counts_of D.fault_count A.fault_count self.new)
            (IsOfPlace D.Tells self.old.settings (contents_in D.files self.new) (store_seen self.new) volume pair) passed result }
        ensures stops { StopsUnseen self.old volume pair result }
        ensures sees { ReadSees ((store_seen self.new).places volume pair) result }
        ensures most { (slice_index (map A.fault_count self.new.arms) lane ≡ slice_index (map A.fault_count self.old.arms) lane)
            ⊎ (slice_index (map A.fault_count self.new.arms) lane < 2 ^ 64) }
        ensures bytes { HasBytes photo.new.items result }
        ensures room { vec_capacity photo.old ≤ vec_capacity photo.new }
        ensures sure_arms { StaySure A.is_sure A.fault_count self.old.arms self.new.arms }
        ensures volumes { self.new.volumes ≡ self.old.volumes }
        ensures disks { disks_of self.new ≡ disks_of self.old }
        ensures arm_counts { NoneFalls (map A.fault_count self.old.arms) (map A.fault_count self.new.arms) }
        ensures seen { store_seen self.new ≡ store_seen self.old }
        ensures settings { self.new.settings ≡ self.old.settings }
        ensures up { IsUp self.new }
    {
        match needle {
            Some(needle) => self.read_seen(
                volume,
                pair,
                cookie,
                start,
                passed,
                needle.as_slice(),
                photo,
            ),
            None => self.read_fetched(lane, volume, pair, cookie, start, passed, photo),
        }
    }

    // Goes on with a read at a place that was seen, from the needle that was read to see it.
    fn read_seen(
        &self,
        volume: u32,
        pair: Pair,
        cookie: Cookie,
        start: u32,
        passed: Causes,
        needle: &[u8],
        photo: &mut Vec<u8>,
    ) -> ReadReply
        requires volume { volume < self.now.settings.volumes }
        requires start { start < self.now.settings.replicas }
        requires first { ComeFirst start self.now.settings.replicas passed }
        requires fewer { length passed < self.now.settings.replicas }
        requires needle { IsSeenByAt D.Tells D.Piece.Tells self.now volume pair ((start + length passed) % self.now.settings.replicas) needle.now }
        requires empty { photo.old.items ≡ [] }
        requires room { MAX_PHOTO ≤ vec_capacity photo.old }
        ensures says { D.Tells → (k : Known) → Stands D.files D.Piece.Tells D.fault_count D.fuse_count A.fault_count self.now k →
            ReadSays cookie (outcomes_of self.now.settings (volume_at k volume) pair) photo.new.items result }
        ensures next { ShowsAt ((start + length passed) % self.now.settings.replicas) result }
        ensures sees { ReadSees ((store_seen self.now).places volume pair) result }
        ensures bytes { HasBytes photo.new.items result }
        ensures room { vec_capacity photo.old ≤ vec_capacity photo.new }
    {
        let Looked { front: _, row } = self.volumes.as_slice()[volume as usize].look(pair);
        show_seen(&row, cookie, start as usize, passed, needle, photo)
    }

    // Goes on with a read behind the replicas that were passed over, by fetches.
    fn read_fetched(
        &mut self,
        lane: u32,
        volume: u32,
        pair: Pair,
        cookie: Cookie,
        start: u32,
        passed: Causes,
        photo: &mut Vec<u8>,
    ) -> ReadReply
        requires lane { lane < 8 }
        requires volume { volume < self.old.settings.volumes }
        requires start { start < self.old.settings.replicas }
        requires first { ComeFirst start self.old.settings.replicas passed }
        requires fewer { length passed ≤ self.old.settings.replicas }
        requires may_stand { MayHave (IsOfPlace D.Tells self.old.settings (contents_in D.files self.old) (store_seen self.old) volume pair) passed }
        requires empty { photo.old.items ≡ [] }
        requires room { MAX_PHOTO ≤ vec_capacity photo.old }
        requires up { IsUp self.old }
        ensures says { D.Tells → (k : Known) → Stands D.files D.Piece.Tells D.fault_count D.fuse_count A.fault_count self.old k →
            ReadSays cookie (outcomes_of self.old.settings (volume_at k volume) pair) photo.new.items result
            × Comes D.files D.Piece.Tells D.fault_count D.fuse_count A.fault_count k k self.new }
        ensures passes { ReadPasses (NeverIn D.Tells D.files D.Piece.Tells D.fault_count D.fuse_count A.fault_count A.is_sure self.old lane) self.old.settings lane volume start
            (counts_of D.fault_count A.fault_count self.old) (counts_of D.fault_count A.fault_count self.new)
            (IsOfPlace D.Tells self.old.settings (contents_in D.files self.new) (store_seen self.new) volume pair) passed result }
        ensures stops { StopsUnseen self.old volume pair result }
        ensures sees { ReadSees ((store_seen self.new).places volume pair) result }
        ensures most { (slice_index (map A.fault_count self.new.arms) lane ≡ slice_index (map A.fault_count self.old.arms) lane)
            ⊎ (slice_index (map A.fault_count self.new.arms) lane < 2 ^ 64) }
        ensures bytes { HasBytes photo.new.items result }
        ensures room { vec_capacity photo.old ≤ vec_capacity photo.new }
        ensures sure_arms { StaySure A.is_sure A.fault_count self.old.arms self.new.arms }
        ensures volumes { self.new.volumes ≡ self.old.volumes }
        ensures disks { disks_of self.new ≡ disks_of self.old }
        ensures arm_counts { NoneFalls (map A.fault_count self.old.arms) (map A.fault_count self.new.arms) }
        ensures seen { store_seen self.new ≡ store_seen self.old }
        ensures settings { self.new.settings ≡ self.old.settings }
        ensures up { IsUp self.new }
    {
        let Looked { front: _, row } = self.volumes.as_slice()[volume as usize].look(pair);
        self.seats.as_mut_slice()[lane as usize].show_more(
            &row,
            cookie,
            start as usize,
            passed,
            photo,
        )
    }

    // Sees the place of a pair on the replica at which a read stopped, or passes the replica over. Answers the replicas that are
    // passed over, and the needle by which the place was seen.
    fn see_or_pass(
        &mut self,
        alloc: Global,
        volume: u32,
        pair: Pair,
        replica: u32,
        causes: Causes,
    ) -> Result<(Causes, Option<Vec<u8>>), NoMemory>
        requires volume { volume < self.old.settings.volumes }
        requires replica { replica < self.old.settings.replicas }
        requires few { length causes < MAX_REPLICAS }
        requires apart { AllByRecursion (λ over. (over.replica < self.old.settings.replicas) × (over.replica ≡ replica → ⊥)) causes }
        requires may_stand { MayHave (IsOfPlace D.Tells self.old.settings (contents_in D.files self.old) (store_seen self.old) volume pair) causes }
        requires up { IsUp self.old }
        ensures stands { D.Tells → (k : Known) → Stands D.files D.Piece.Tells D.fault_count D.fuse_count A.fault_count self.old k →
            Comes D.files D.Piece.Tells D.fault_count D.fuse_count A.fault_count k k self.new }
        ensures passes { (lane start : ℕ) → ComeFirst start self.old.settings.replicas causes → replica ≡ (start + length causes) % self.old.settings.replicas →
            IfOk result (λ sight. PassesFrom (NeverIn D.Tells D.files D.Piece.Tells D.fault_count D.fuse_count A.fault_count A.is_sure self.old lane) self.old.settings lane volume start
            (counts_of D.fault_count A.fault_count self.old) (counts_of D.fault_count A.fault_count self.new) causes sight.0) }
        ensures on { IfOk result (λ sight. (length sight.0 ≡ length causes + 1) ⊎ ((length sight.0 ≡ length causes) × IsSeenAt self.new volume pair replica)) }
        ensures needle { (IsSeenAt self.old volume pair replica → ⊥) →
            IfOk result (λ sight. IfSome sight.1 (λ needle. (sight.0 ≡ causes) × IsSeenByAt D.Tells D.Piece.Tells self.new volume pair replica needle.items)) }
        ensures over { IfOk result (λ sight. IfNone sight.1 (length sight.0 ≡ length causes + 1)) }
        ensures others { (j : ℕ) → j < self.old.settings.replicas → (j ≡ replica → ⊥) →
            slice_index (map D.fault_count (disks_of self.new)) (slot_of self.old.settings volume j) ≡ slice_index (map D.fault_count (disks_of self.old)) (slot_of self.old.settings volume j) }
        ensures counts { NoneFalls (map D.fault_count (disks_of self.old)) (map D.fault_count (disks_of self.new)) }
        ensures fuses { map D.fuse_count (disks_of self.new) ≡ map D.fuse_count (disks_of self.old) }
        ensures contents { D.Tells → KeepsIn self.old.settings AnySlot (contents_in D.files self.old) (contents_in D.files self.new) }
        ensures arms { self.new.arms ≡ self.old.arms }
        ensures seen { Keeps (store_seen self.old) (store_seen self.new) }
        ensures looks { ChangesPhotos volume (LooksAtPair pair) (store_seen self.old) (store_seen self.new) }
        ensures told { D.Tells → AreToldAs self.old.settings (contents_in D.files self.old) (store_seen self.old) volume pair ((store_seen self.new).places volume) }
        ensures may_stand { IfOk result (λ sight. MayHave (IsOfPlace D.Tells self.old.settings (contents_in D.files self.new) (store_seen self.new) volume pair) sight.0) }
        ensures settings { self.new.settings ≡ self.old.settings }
        ensures up { IsUp self.new }
    {
        let mut needle = Vec::new(alloc);
        match self.see_in(volume, replica, pair, &mut needle) {
            Ok(()) => Ok((causes, Some(needle))),
            Err(fault) => {
                let cause = cause_of(fault)?;
                let mut passed = causes;
                passed.push(PassedReplica { replica, cause });
                Ok((passed, None))
            }
        }
    }

    // Sees the place of a pair on a replica of a volume, by its needle, which `out` then has.
    fn see_in(
        &mut self,
        volume: u32,
        replica: u32,
        pair: Pair,
        out: &mut Vec<u8>,
    ) -> Result<(), LogicalFault>
        requires volume { volume < self.old.settings.volumes }
        requires replica { replica < self.old.settings.replicas }
        requires up { IsUp self.old }
        ensures stands { D.Tells → (k : Known) → Stands D.files D.Piece.Tells D.fault_count D.fuse_count A.fault_count self.old k →
            Comes D.files D.Piece.Tells D.fault_count D.fuse_count A.fault_count k k self.new }
        ensures undamaged { IsWhole D.Tells D.files D.Piece.Tells D.fault_count D.fuse_count A.fault_count self.old → (m at : ℕ) → result ≡ Err (LogicalFault.Damaged m at) → ⊥ }
        ensures seen { OnOk result (IsSeenAt self.new volume pair replica) }
        ensures needle { (IsSeenAt self.old volume pair replica → ⊥) → OnOk result (IsSeenByAt D.Tells D.Piece.Tells self.new volume pair replica out.new.items) }
        ensures causes { IfErr result (IsSightFault (slot_of self.old.settings volume replica) (map D.fault_count (disks_of self.old)) (map D.fault_count (disks_of self.new))) }
        ensures others { (j : ℕ) → j < self.old.settings.replicas → (j ≡ replica → ⊥) →
            slice_index (map D.fault_count (disks_of self.new)) (slot_of self.old.settings volume j) ≡ slice_index (map D.fault_count (disks_of self.old)) (slot_of self.old.settings volume j) }
        ensures counts { NoneFalls (map D.fault_count (disks_of self.old)) (map D.fault_count (disks_of self.new)) }
        ensures fuses { map D.fuse_count (disks_of self.new) ≡ map D.fuse_count (disks_of self.old) }
        ensures contents { D.Tells → KeepsIn self.old.settings AnySlot (contents_in D.files self.old) (contents_in D.files self.new) }
        ensures arms { self.new.arms ≡ self.old.arms }
        ensures unchanged { Keeps (store_seen self.old) (store_seen self.new) }
        ensures sights { OnOk result (ChangesPhotos volume (SeesPair pair replica) (store_seen self.old) (store_seen self.new)) }
        ensures told { D.Tells → AreToldAs self.old.settings (contents_in D.files self.old) (store_seen self.old) volume pair ((store_seen self.new).places volume) }
        ensures lacks { D.Tells → (m place : ℕ) → result ≡ Err (LogicalFault.Damaged m place) →
            FileAt self.old.settings (contents_in D.files self.old) (store_seen self.old) volume replica (λ r file. LacksSeen file place ((store_seen self.old).places volume pair replica)) }
        ensures refused_sights { IfErr result (λ fault. KeepsPhotos (store_seen self.old) (store_seen self.new) × AwaitsFor fault ((store_seen self.old).places volume pair replica)) }
        ensures settings { self.new.settings ≡ self.old.settings }
        ensures up { IsUp self.new }
    {
        match self.volumes.as_mut_slice()[volume as usize].see(replica, pair, out) {
            Ok(_) => Ok(()),
            Err(fault) => Err(fault),
        }
    }
}

// What was found by a read that did not stop at a place.
fn found_of(read: ReadReply) -> Found
    requires { (replica : ℕ) (causes : List PassedReplica) → read ≡ ReadReply.Unseen replica causes → ⊥ }
    ensures { IsFoundAs read result }
{
    match read {
        ReadReply::Photo { replica } => Found::Photo { replica },
        ReadReply::Gone { replica } => Found::Gone { replica },
        ReadReply::WrongCookie { replica } => Found::WrongCookie { replica },
        ReadReply::Unreadable { causes } => Found::Unreadable { causes },
        ReadReply::Unseen { .. } => unreachable!(),
    }
}

// Why a replica is passed over whose place could not be seen.
fn cause_of(fault: LogicalFault) -> Result<Cause, NoMemory>
    requires { CannotSee fault }
    ensures { IfOk result (IsSightCause fault) }
{
    match fault {
        LogicalFault::Failed { machine: _, faults } => Ok(Cause::Disk { faults }),
        LogicalFault::Damaged { machine: _, at } => Ok(Cause::Damage { at }),
        LogicalFault::NoMemory => Err(NoMemory),
        LogicalFault::ReadOnly { .. }
        | LogicalFault::Full { .. }
        | LogicalFault::Gone { .. }
        | LogicalFault::Busy { .. }
        | LogicalFault::Worn { .. }
        | LogicalFault::Idle => unreachable!(),
    }
}

// The bytes of a photo that was read.
fn bytes_of(photo: Vec<u8>) -> Bytes
    ensures is { result ≡ photo.items }
    ensures bytes { (i : ℕ) → slice_index result i < 256 }
    ensures long { IsLarge (length result) }
{
    Bytes::from_vec(photo)
}

// The machines of the replicas of a volume that were passed over.
fn passed_of(
    alloc: Global,
    settings: &Settings,
    volume: u32,
    causes: &[PassedReplica],
) -> Result<Listed<Passed>, NoMemory>
    requires { IsBuilt settings.now }
    ensures is { IfOk result (λ passed. passed ≡ map (passed_at settings.now volume) causes.now) }
    ensures fits { IfOk result (λ passed. AllByRecursion FitsPassed passed) }
{
    let mut passed = Listed::new(alloc);
    for over in causes {
        passed.push(passed_replica(settings, volume, *over))?;
    }
    Ok(passed)
}

// A replica of a volume that was passed over, by its machine.
fn passed_replica(settings: &Settings, volume: u32, over: PassedReplica) -> Passed
    requires { IsBuilt settings.now }
    ensures is { result ≡ passed_at settings.now volume over }
    ensures fits { FitsPassed result }
{
    Passed {
        machine: machine_of(settings, volume, over.replica),
        cause: over.cause,
    }
}
