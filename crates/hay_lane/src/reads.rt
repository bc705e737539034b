//! Reads, and gets by URL.
ghost use Rattle.std.specs.Prelude.{◌≡◌, ◌⊎◌, ◌≤◌, ◌<◌, ◌+◌, ◌%◌, ◌^◌, [], ℕ, List, Some, length, map, IfOk, OnErr};
ghost use Rattle.std.specs.List.{AllByRecursion};
ghost use Rattle.std.specs.Vec.{vec_capacity};
ghost use Rattle.hay_script.specs.declared.Command.TheVariants as asks;
ghost use Rattle.hay_legal.specs.Known as known;
ghost use Rattle.hay_legal.specs.Suiting.{ShowsOf, Suits};
ghost use Rattle.hay_meeting.specs.Acts.{Start};
ghost use Rattle.hay_meeting.specs.Sights.{Sight};
ghost use Rattle.hay_holdings.specs.Lines.{IsAnswered, Sees};
ghost use Rattle.hay_disk.specs.Counts.{StaysSure};
ghost use Rattle.hay_map.specs.Places.{place_in};
ghost use Rattle.hay_reader.specs.Causes.{ComeFirst};
ghost use Rattle.hay_reader.specs.Shown.{HasBytes, ReadsRow};
ghost use Rattle.hay_reader.specs.Tried.{CanShow, HasItsPhoto};
ghost use Rattle.hay_reader.specs.declared.causes.PassedReplica.{PassedReplica};
ghost use Rattle.hay_lane.specs.Fuses.{IsUnfused};
ghost use Rattle.hay_lane.specs.Blames.{Blames, BlamesOn, causes_told};
ghost use Rattle.hay_lane.specs.Lanes.{IsLaterArm, IsOf, IsSeated, sight};
ghost use Rattle.hay_lane.specs.Reads.{FoundWithin, FrozeBehind, HasFound, HasRead, IsFoundAs, IsFoundReply, IsNext, IsSightCause, ShowTells, ShownWithin, StopsBehind};
ghost use Rattle.hay_lane.specs.Reads.{causes_found, causes_in, causes_read, passed_at};
ghost use Rattle.hay_shared_volume.specs.Looks.{WasSeen};
ghost use Rattle.hay_reply.specs.Fits.{FitsPassed, FitsReply};
ghost use Rattle.hay_reply.specs.declared.Reply.TheVariants as reply;
ghost use Rattle.hay_shared_volume.specs.Seats.{IsSeatOf, WasAt, sight_of};

use crate::calls::DirectoryCalls;
use crate::lane::{Lane, Shared};
use crate::places::{replica_on, start_of};
use hay_base::{Listed, NoMemory};
use hay_core::CoreTag;
use hay_directory::machine_of;
use hay_disk::{Arm, Disk, Piece};
use hay_lanes::{Gate, Point};
use hay_map::Row;
use hay_needle::{Bytes, Cookie, MAX_PHOTO, Pair, Settings};
use hay_reader::{Causes, LaneSeat, PassedReplica, ReadReply, show_seen};
use hay_reply::{Cause, Passed, Reply};
use hay_shared_volume::{Looked, SharedVolume, SightFault};
use hay_url::Url;
use hay_volume_lock::VolumeSeat;
use std::alloc::Global;
use std::sync::Wait;

/// What a read found, once each place that it came to was seen. A replica is named by its number in the volume.
#[derive(Drop)]
pub enum Found {
    Photo { replica: u32 },
    Gone { replica: u32 },
    WrongCookie { replica: u32 },
    /// Every replica was passed over.
    Unreadable { causes: Causes },
}

impl<D: Disk<Piece = P>, P: Piece, L: DirectoryCalls> Shared<SharedVolume<D, P>, L> {
    /// Shows the photo of a pair to who has its cookie.
    pub fn read<R: Wait, A: Arm<P>, G: Gate>(
        &self,
        rt: &R,
        alloc: Global,
        lane: &mut Lane<VolumeSeat<D, P>, L::Seat, A>,
        tag: CoreTag,
        pair: Pair,
        cookie: Cookie,
        gate: &G,
    ) -> Reply
        requires seated { IsSeated IsSeatOf L.fits self.now tag.lane lane.old }
        ensures seated { IsSeated IsSeatOf L.fits self.now tag.lane lane.new }
        ensures same { (start : Start) → IsOf (WasAt D.Tells D.files P.Tells D.fault_count D.fuse_count) L.is_at self.now.settings start lane.old
            → IsOf (WasAt D.Tells D.files P.Tells D.fault_count D.fuse_count) L.is_at self.now.settings start lane.new }
        ensures unfused { IsUnfused sight_of L.sight lane.old → IsUnfused sight_of L.sight lane.new }
        ensures arm { IsLaterArm A.is_sure A.fault_count lane.old.arm lane.new.arm }
        ensures answered { (start : Start) → IsOf (WasAt D.Tells D.files P.Tells D.fault_count D.fuse_count) L.is_at self.now.settings start lane.old →
            IsAnswered self.now.settings start self.now.drained.items tag (asks.Read pair cookie) result
            (sight sight_of L.sight A.fault_count lane.old) (sight sight_of L.sight A.fault_count lane.new) }
        ensures suits { Suits self.now.settings tag.line (asks.Read pair cookie) result }
        ensures blames { Blames A.is_sure A.fault_count lane.old.arm lane.new.arm (causes_told result) }
        ensures fits { FitsReply result }
    {
        let (rows, home) = self.home_in_view(rt, lane, tag, pair);
        let Some(volume) = home else {
            return Reply::Unknown { rows };
        };
        let first = start_of(&self.settings, tag);
        self.show(
            rt, alloc, lane, tag, volume, rows, pair, cookie, first, gate,
        )
    }

    /// Shows the photo of a URL, if it names a replica of the home of its pair.
    pub fn get<R: Wait, A: Arm<P>, G: Gate>(
        &self,
        rt: &R,
        alloc: Global,
        lane: &mut Lane<VolumeSeat<D, P>, L::Seat, A>,
        tag: CoreTag,
        url: &Url,
        gate: &G,
    ) -> Reply
        requires seated { IsSeated IsSeatOf L.fits self.now tag.lane lane.old }
        ensures seated { IsSeated IsSeatOf L.fits self.now tag.lane lane.new }
        ensures same { (start : Start) → IsOf (WasAt D.Tells D.files P.Tells D.fault_count D.fuse_count) L.is_at self.now.settings start lane.old
            → IsOf (WasAt D.Tells D.files P.Tells D.fault_count D.fuse_count) L.is_at self.now.settings start lane.new }
        ensures unfused { IsUnfused sight_of L.sight lane.old → IsUnfused sight_of L.sight lane.new }
        ensures arm { IsLaterArm A.is_sure A.fault_count lane.old.arm lane.new.arm }
        ensures answered { (start : Start) → IsOf (WasAt D.Tells D.files P.Tells D.fault_count D.fuse_count) L.is_at self.now.settings start lane.old →
            IsAnswered self.now.settings start self.now.drained.items tag (asks.Get url.now) result (sight sight_of L.sight A.fault_count lane.old) (sight sight_of L.sight A.fault_count lane.new) }
        ensures suits { Suits self.now.settings tag.line (asks.Get url.now) result }
        ensures blames { Blames A.is_sure A.fault_count lane.old.arm lane.new.arm (causes_told result) }
        ensures fits { FitsReply result }
    {
        let Some(first) = replica_on(&self.settings, url.volume, url.machine) else {
            return Reply::Nowhere;
        };
        let (rows, home) = self.home_in_view(rt, lane, tag, url.pair);
        let Some(volume) = home else {
            return Reply::Unknown { rows };
        };
        if volume != url.volume {
            return Reply::Moved { volume, rows };
        }
        self.show(
            rt, alloc, lane, tag, volume, rows, url.pair, url.cookie, first, gate,
        )
    }

    // Shows the photo of a pair, from this replica of its home on. The lane saw the home at so many rows.
    fn show<R: Wait, A: Arm<P>, G: Gate>(
        &self,
        rt: &R,
        alloc: Global,
        lane: &mut Lane<VolumeSeat<D, P>, L::Seat, A>,
        tag: CoreTag,
        volume: u32,
        rows: u64,
        pair: Pair,
        cookie: Cookie,
        first: u32,
        gate: &G,
    ) -> Reply
        requires seated { IsSeated IsSeatOf L.fits self.now tag.lane lane.old }
        requires volume { volume < self.now.settings.volumes }
        requires first { first < self.now.settings.replicas }
        ensures seated { IsSeated IsSeatOf L.fits self.now tag.lane lane.new }
        ensures same { (start : Start) → IsOf (WasAt D.Tells D.files P.Tells D.fault_count D.fuse_count) L.is_at self.now.settings start lane.old
            → IsOf (WasAt D.Tells D.files P.Tells D.fault_count D.fuse_count) L.is_at self.now.settings start lane.new }
        ensures unfused { IsUnfused sight_of L.sight lane.old → IsUnfused sight_of L.sight lane.new }
        ensures arm { IsLaterArm A.is_sure A.fault_count lane.old.arm lane.new.arm }
        ensures tells { (start : Start) (a : Sight) → IsOf (WasAt D.Tells D.files P.Tells D.fault_count D.fuse_count) L.is_at self.now.settings start lane.old →
            Sees self.now.settings start self.now.drained.items tag pair rows (Some volume) a (sight sight_of L.sight A.fault_count lane.old) →
            ShowTells self.now.settings start self.now.drained.items tag pair cookie rows volume first result a (sight sight_of L.sight A.fault_count lane.new) }
        ensures suits { ShowsOf self.now.settings first volume result ⊎ (result ≡ reply.NoMem) }
        ensures blames { Blames A.is_sure A.fault_count lane.old.arm lane.new.arm (causes_told result) }
        ensures fits { FitsReply result }
    {
        let Ok(mut photo) = Vec::with_capacity(alloc, MAX_PHOTO as usize) else {
            return Reply::NoMem;
        };
        match self.fetch(
            rt, alloc, lane, tag, volume, pair, cookie, first, &mut photo, gate,
        ) {
            Ok((front, found)) => {
                found_reply(alloc, &self.settings, volume, front, rows, photo, found)
            }
            Err(NoMemory) => Reply::NoMem,
        }
    }

    // Reads the photo of a pair in a volume, from this replica on. A place that was not looked at yet is seen where the read comes to
    // it. Answers the front of the volume that the lane was shown, and what was found.
    fn fetch<R: Wait, A: Arm<P>, G: Gate>(
        &self,
        rt: &R,
        alloc: Global,
        lane: &mut Lane<VolumeSeat<D, P>, L::Seat, A>,
        tag: CoreTag,
        volume: u32,
        pair: Pair,
        cookie: Cookie,
        first: u32,
        photo: &mut Vec<u8>,
        gate: &G,
    ) -> Result<(u64, Found), NoMemory>
        requires seated { IsSeated IsSeatOf L.fits self.now tag.lane lane.old }
        requires volume { volume < self.now.settings.volumes }
        requires first { first < self.now.settings.replicas }
        requires empty { photo.old.items ≡ [] }
        requires room { MAX_PHOTO ≤ vec_capacity photo.old }
        ensures seated { IsSeated IsSeatOf L.fits self.now tag.lane lane.new }
        ensures same { (start : Start) → IsOf (WasAt D.Tells D.files P.Tells D.fault_count D.fuse_count) L.is_at self.now.settings start lane.old
            → IsOf (WasAt D.Tells D.files P.Tells D.fault_count D.fuse_count) L.is_at self.now.settings start lane.new }
        ensures unfused { IsUnfused sight_of L.sight lane.old → IsUnfused sight_of L.sight lane.new }
        ensures arm { IsLaterArm A.is_sure A.fault_count lane.old.arm lane.new.arm }
        ensures within { IfOk result (λ answer. FoundWithin first self.now.settings.replicas photo.new.items answer.1) }
        ensures blames { IfOk result (λ answer. Blames A.is_sure A.fault_count lane.old.arm lane.new.arm (causes_found answer.1)) }
        ensures found { (start : Start) (d : ℕ) (a : Sight) → IsOf (WasAt D.Tells D.files P.Tells D.fault_count D.fuse_count) L.is_at self.now.settings start lane.old →
            Sees self.now.settings start self.now.drained.items tag pair d (Some volume) a (sight sight_of L.sight A.fault_count lane.old) →
            IfOk result (λ answer. HasFound self.now.settings start self.now.drained.items tag pair d volume first cookie answer.0 photo.new.items answer.1
            a (sight sight_of L.sight A.fault_count lane.new)) }
        ensures wanted { (start : Start) (d : ℕ) (a : Sight) → IsOf (WasAt D.Tells D.files P.Tells D.fault_count D.fuse_count) L.is_at self.now.settings start lane.old →
            Sees self.now.settings start self.now.drained.items tag pair d (Some volume) a (sight sight_of L.sight A.fault_count lane.old) →
            OnErr result (FrozeBehind self.now.settings start self.now.drained.items tag pair d volume first a (sight sight_of L.sight A.fault_count lane.new)) }
    {
        let (mut looked, mut read) = self.read_first(
            rt, lane, tag, volume, pair, cookie, first, photo, gate,
        );
        for _ in 0..self.settings.replicas {
            let ReadReply::Unseen { replica, causes } = read else {
                break;
            };
            (looked, read) = self.read_on(
                rt, alloc, lane, tag, volume, pair, cookie, first, looked, replica, causes, photo,
            )?;
        }
        Ok((looked.front, found_of(read)))
    }

    // Begins a read: looks at the places of the pair, passes the gate, and reads until a place that was not looked at yet.
    fn read_first<R: Wait, A: Arm<P>, G: Gate>(
        &self,
        rt: &R,
        lane: &mut Lane<VolumeSeat<D, P>, L::Seat, A>,
        tag: CoreTag,
        volume: u32,
        pair: Pair,
        cookie: Cookie,
        first: u32,
        photo: &mut Vec<u8>,
        gate: &G,
    ) -> (Looked<P>, ReadReply)
        requires seated { IsSeated IsSeatOf L.fits self.now tag.lane lane.old }
        requires volume { volume < self.now.settings.volumes }
        requires first { first < self.now.settings.replicas }
        requires empty { photo.old.items ≡ [] }
        requires room { MAX_PHOTO ≤ vec_capacity photo.old }
        ensures seated { IsSeated IsSeatOf L.fits self.now tag.lane lane.new }
        ensures same { (start : Start) → IsOf (WasAt D.Tells D.files P.Tells D.fault_count D.fuse_count) L.is_at self.now.settings start lane.old
            → IsOf (WasAt D.Tells D.files P.Tells D.fault_count D.fuse_count) L.is_at self.now.settings start lane.new }
        ensures unfused { IsUnfused sight_of L.sight lane.old → IsUnfused sight_of L.sight lane.new }
        ensures arm { IsLaterArm A.is_sure A.fault_count lane.old.arm lane.new.arm }
        ensures long { length result.0.row ≡ self.now.settings.replicas }
        ensures stops { StopsBehind first self.now.settings.replicas 0 result.1 }
        ensures shown { ShownWithin first self.now.settings.replicas result.1 }
        ensures blames { Blames A.is_sure A.fault_count lane.old.arm lane.new.arm (causes_read result.1) }
        ensures bytes { HasBytes photo.new.items result.1 }
        ensures room { MAX_PHOTO ≤ vec_capacity photo.new }
        ensures tells { (start : Start) (d : ℕ) (a : Sight) → IsOf (WasAt D.Tells D.files P.Tells D.fault_count D.fuse_count) L.is_at self.now.settings start lane.old →
            Sees self.now.settings start self.now.drained.items tag pair d (Some volume) a (sight sight_of L.sight A.fault_count lane.old) →
            HasRead self.now.settings start self.now.drained.items tag pair d volume first P.Tells cookie result.0 photo.new.items result.1
            a (sight sight_of L.sight A.fault_count lane.new) }
    {
        let looked = self.look_at(rt, lane, tag, volume, pair);
        gate.pass(tag.lane, tag.line, Point::Looked);
        let read = lane.arm.show(&looked.row, cookie, first as usize, photo);
        (looked, read)
    }

    // Goes on with a read at a place that was not looked at yet, which it sees, or passes the replica over.
    fn read_on<R: Wait, A: Arm<P>>(
        &self,
        rt: &R,
        alloc: Global,
        lane: &mut Lane<VolumeSeat<D, P>, L::Seat, A>,
        tag: CoreTag,
        volume: u32,
        pair: Pair,
        cookie: Cookie,
        first: u32,
        looked: Looked<P>,
        replica: u32,
        causes: Causes,
        photo: &mut Vec<u8>,
    ) -> Result<(Looked<P>, ReadReply), NoMemory>
        requires seated { IsSeated IsSeatOf L.fits self.now tag.lane lane.old }
        requires volume { volume < self.now.settings.volumes }
        requires first { first < self.now.settings.replicas }
        requires long { length looked.row ≡ self.now.settings.replicas }
        requires next { IsNext first self.now.settings.replicas causes replica }
        requires empty { photo.old.items ≡ [] }
        requires room { MAX_PHOTO ≤ vec_capacity photo.old }
        ensures seated { IsSeated IsSeatOf L.fits self.now tag.lane lane.new }
        ensures same { (start : Start) → IsOf (WasAt D.Tells D.files P.Tells D.fault_count D.fuse_count) L.is_at self.now.settings start lane.old
            → IsOf (WasAt D.Tells D.files P.Tells D.fault_count D.fuse_count) L.is_at self.now.settings start lane.new }
        ensures unfused { IsUnfused sight_of L.sight lane.old → IsUnfused sight_of L.sight lane.new }
        ensures arm { IsLaterArm A.is_sure A.fault_count lane.old.arm lane.new.arm }
        ensures long { IfOk result (λ on. length on.0.row ≡ self.now.settings.replicas) }
        ensures stops { IfOk result (λ on. StopsBehind first self.now.settings.replicas (length causes + 1) on.1) }
        ensures shown { IfOk result (λ on. ShownWithin first self.now.settings.replicas on.1) }
        ensures blames { IfOk result (λ on. BlamesOn A.is_sure A.fault_count lane.old.arm lane.new.arm (causes_in causes) (causes_read on.1)) }
        ensures bytes { IfOk result (λ on. HasBytes photo.new.items on.1) }
        ensures room { MAX_PHOTO ≤ vec_capacity photo.new }
        ensures tells { (start : Start) (d : ℕ) (a : Sight) → IsOf (WasAt D.Tells D.files P.Tells D.fault_count D.fuse_count) L.is_at self.now.settings start lane.old →
            HasRead self.now.settings start self.now.drained.items tag pair d volume first P.Tells cookie looked [] (ReadReply.Unseen replica causes)
            a (sight sight_of L.sight A.fault_count lane.old) →
            IfOk result (λ on. HasRead self.now.settings start self.now.drained.items tag pair d volume first P.Tells cookie on.0 photo.new.items on.1
            a (sight sight_of L.sight A.fault_count lane.new)) }
        ensures wanted { (start : Start) (d : ℕ) (a : Sight) → IsOf (WasAt D.Tells D.files P.Tells D.fault_count D.fuse_count) L.is_at self.now.settings start lane.old →
            HasRead self.now.settings start self.now.drained.items tag pair d volume first P.Tells cookie looked [] (ReadReply.Unseen replica causes)
            a (sight sight_of L.sight A.fault_count lane.old) →
            OnErr result (FrozeBehind self.now.settings start self.now.drained.items tag pair d volume first a (sight sight_of L.sight A.fault_count lane.new)) }
    {
        let mut needle = Vec::new(alloc);
        match self.see_at(rt, lane, tag, volume, pair, replica, &mut needle) {
            Ok(seen) => {
                let read = read_seen(
                    &mut lane.arm,
                    &seen.row,
                    cookie,
                    first,
                    causes,
                    needle.as_slice(),
                    photo,
                );
                Ok((seen, read))
            }
            Err(fault) => {
                let cause = cause_of(fault)?;
                let mut passed = causes;
                passed.push(PassedReplica { replica, cause });
                let read = lane
                    .arm
                    .show_more(&looked.row, cookie, first as usize, passed, photo);
                Ok((looked, read))
            }
        }
    }
}

// Goes on with a read at a place that was seen, by the bytes from which it was seen, or else by fetches.
fn read_seen<P: Piece, A: Arm<P>>(
    arm: &mut LaneSeat<A>,
    row: &Row<P>,
    cookie: Cookie,
    first: u32,
    passed: Causes,
    needle: &[u8],
    photo: &mut Vec<u8>,
) -> ReadReply
    requires first { first < length row.now }
    requires order { ComeFirst first (length row.now) passed }
    requires fewer { length passed < length row.now }
    requires seen { WasSeen (place_in row.now ((first + length passed) % length row.now)) }
    requires needle { (needle.now ≡ []) ⊎ CanShow needle.now (place_in row.now ((first + length passed) % length row.now)) }
    requires empty { photo.old.items ≡ [] }
    requires room { MAX_PHOTO ≤ vec_capacity photo.old }
    ensures reads { (needle.now ≡ []) ⊎ HasItsPhoto needle.now (place_in row.now ((first + length passed) % length row.now)) →
        ReadsRow P.Tells (record { sure = A.is_sure arm.old; before = A.fault_count arm.old; after = A.fault_count arm.new }) first row.now cookie passed photo.new.items result }
    ensures stops { StopsBehind first (length row.now) (length passed + 1) result }
    ensures stays_sure { StaysSure (A.is_sure arm.old) (A.is_sure arm.new) (A.fault_count arm.old) (A.fault_count arm.new) }
    ensures later { A.fault_count arm.old ≤ A.fault_count arm.new }
    ensures most { (A.fault_count arm.new ≡ A.fault_count arm.old) ⊎ (A.fault_count arm.new < 2 ^ 64) }
    ensures shown { ShownWithin first (length row.now) result }
    ensures blames { BlamesOn A.is_sure A.fault_count arm.old arm.new (causes_in passed) (causes_read result) }
    ensures bytes { HasBytes photo.new.items result }
    ensures room { MAX_PHOTO ≤ vec_capacity photo.new }
{
    if needle.is_empty() {
        return arm.show_more(row, cookie, first as usize, passed, photo);
    }
    show_seen(row, cookie, first as usize, passed, needle, photo)
}

// What was found by a read that did not stop at a place.
fn found_of(read: ReadReply) -> Found
    requires { (replica : ℕ) (causes : List PassedReplica) → read ≡ ReadReply.Unseen replica causes → ⊥ }
    ensures is { IsFoundAs read result }
{
    match read {
        ReadReply::Photo { replica } => Found::Photo { replica },
        ReadReply::Gone { replica } => Found::Gone { replica },
        ReadReply::WrongCookie { replica } => Found::WrongCookie { replica },
        ReadReply::Unreadable { causes } => Found::Unreadable { causes },
        ReadReply::Unseen { .. } => unreachable!(),
    }
}

// Why a replica is passed over whose place was not seen.
fn cause_of(fault: SightFault) -> Result<Cause, NoMemory>
    ensures is { IsSightCause fault result }
{
    match fault {
        SightFault::Failed { faults } => Ok(Cause::Disk { faults }),
        SightFault::Damaged { at } => Ok(Cause::Damage { at }),
        SightFault::NoMemory => Err(NoMemory),
    }
}

// The bytes of a photo, in no more room than they take, since a block keeps its replies to its end. A copy leaves nothing of the
// room for the largest photo behind; where memory does not allow one, the rest of that room is given back.
fn fitted(alloc: Global, mut photo: Vec<u8>) -> Bytes
    ensures { result ≡ photo.items }
{
    if let Ok(bytes) = photo.as_slice().to_vec(alloc) {
        return Bytes::from_vec(bytes);
    }
    photo.shrink_to_fit();
    Bytes::from_vec(photo)
}

// The reply to what was found at a front of a pair's home, where there are so many rows.
fn found_reply(
    alloc: Global,
    settings: &Settings,
    volume: u32,
    front: u64,
    rows: u64,
    photo: Vec<u8>,
    found: Found,
) -> Reply
    requires { 0 < settings.now.machines }
    ensures is { IsFoundReply settings.now volume front rows photo.items found result }
    ensures fits { FitsReply result }
{
    match found {
        Found::Photo { replica } => Reply::Photo {
            volume,
            machine: machine_of(settings, volume, replica),
            front,
            rows,
            photo: fitted(alloc, photo),
        },
        Found::Gone { replica } => Reply::Gone {
            volume,
            machine: machine_of(settings, volume, replica),
            front,
            rows,
        },
        Found::WrongCookie { replica } => Reply::WrongCookie {
            volume,
            machine: machine_of(settings, volume, replica),
            front,
            rows,
        },
        Found::Unreadable { causes } => {
            match passed_of(alloc, settings, volume, causes.as_slice()) {
                Ok(causes) => Reply::Unreadable {
                    volume,
                    front,
                    rows,
                    causes,
                },
                Err(NoMemory) => Reply::NoMem,
            }
        }
    }
}

// The machines of the replicas of a volume that were passed over.
fn passed_of(
    alloc: Global,
    settings: &Settings,
    volume: u32,
    causes: &[PassedReplica],
) -> Result<Listed<Passed>, NoMemory>
    requires { 0 < settings.now.machines }
    ensures is { IfOk result (λ passed. passed ≡ map (passed_at settings.now volume) causes.now) }
    ensures fits { IfOk result (AllByRecursion FitsPassed) }
{
    let mut passed = Listed::new(alloc);
    for over in causes {
        passed.push(passed_replica(settings, volume, *over))?;
    }
    Ok(passed)
}

// A replica of a volume that was passed over, by its machine.
fn passed_replica(settings: &Settings, volume: u32, over: PassedReplica) -> Passed
    requires { 0 < settings.now.machines }
    ensures is { result ≡ passed_at settings.now volume over }
    ensures fits { FitsPassed result }
{
    Passed {
        machine: machine_of(settings, volume, over.replica),
        cause: over.cause,
    }
}
