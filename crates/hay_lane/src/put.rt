//! Puts.
ghost use Rattle.std.specs.Prelude.{◌≡◌, ◌≤◌, ◌<◌, ℕ, false, None, length, map, IfOk, IfSome, List};
ghost use Rattle.std.specs.List.{AllByRecursion, AllZip, list_any};
ghost use Rattle.hay_script.specs.declared.Command.TheVariants as asks;
ghost use Rattle.hay_legal.specs.Known.{all_tries};
ghost use Rattle.hay_legal.specs.Plain.{as_closed, wants_room};
ghost use Rattle.hay_legal.specs.Suiting.{Refuses, Suits};
ghost use Rattle.hay_meeting.specs.Acts.{Start};
ghost use Rattle.hay_meeting.specs.Sights.{Sight};
ghost use Rattle.hay_holdings.specs.Lines.{HasTaker, IsAnswered, Sees, Settled};
ghost use Rattle.hay_lane.specs.Fuses.{IsUnfused};
ghost use Rattle.hay_lane.specs.Lanes.{IsOf, IsSeated, sight};
ghost use Rattle.hay_lane.specs.Puts.{IsPutReply, IsRefusal, TriesTell, TryTells, room_refusal, settle_reply};
ghost use Rattle.hay_reply.specs.Fits.{FitsClosed, FitsRefused, FitsReply};
ghost use Rattle.hay_shared_volume.specs.Seats.{IsSeatOf, WasAt, sight_of};

use crate::calls::DirectoryCalls;
use crate::lane::{Lane, Shared};
use crate::places::drained_by;
use crate::replies::read_only;
use hay_base::{Listed, NoMemory};
use hay_core::CoreTag;
use hay_directory::{DirFault, tries};
use hay_disk::{Arm, Disk, Piece};
use hay_lanes::{Gate, OpenGate};
use hay_needle::{Cookie, MAX_PHOTO, Pair};
use hay_reply::{ClosedBy, Refused, Reply};
use hay_shared_volume::{Put, Room, SharedVolume};
use hay_url::cookie_of;
use hay_volume_lock::VolumeSeat;
use std::alloc::Global;
use std::sync::Wait;

/// What a put's tries came to.
#[derive(Drop)]
pub enum Tries {
    /// This volume takes the photo.
    Taker(u32),
    /// Each refuses.
    Nobody(Listed<Refused>),
    NoMemory,
}

impl<D: Disk<Piece = P>, P: Piece, L: DirectoryCalls> Shared<SharedVolume<D, P>, L> {
    /// Stores a photo in its pair's home, or in the first of its tries that takes it. The gate is passed where the home of a pair that
    /// had one is held.
    pub fn put<R: Wait, A: Arm<P>, G: Gate>(
        &self,
        rt: &R,
        alloc: Global,
        lane: &mut Lane<VolumeSeat<D, P>, L::Seat, A>,
        tag: CoreTag,
        pair: Pair,
        bytes: &[u8],
        gate: &G,
    ) -> Reply
        requires seated { IsSeated IsSeatOf L.fits self.now tag.lane lane.old }
        requires size { length bytes.now ≤ MAX_PHOTO }
        ensures seated { IsSeated IsSeatOf L.fits self.now tag.lane lane.new }
        ensures same { (start : Start) → IsOf (WasAt D.Tells D.files P.Tells D.fault_count D.fuse_count) L.is_at self.now.settings start lane.old
            → IsOf (WasAt D.Tells D.files P.Tells D.fault_count D.fuse_count) L.is_at self.now.settings start lane.new }
        ensures unfused { IsUnfused sight_of L.sight lane.old → IsUnfused sight_of L.sight lane.new }
        ensures arm { lane.new.arm ≡ lane.old.arm }
        ensures answered { (start : Start) → IsOf (WasAt D.Tells D.files P.Tells D.fault_count D.fuse_count) L.is_at self.now.settings start lane.old →
            IsAnswered self.now.settings start self.now.drained.items tag (asks.Put pair bytes.now) result
            (sight sight_of L.sight A.fault_count lane.old) (sight sight_of L.sight A.fault_count lane.new) }
        ensures suits { Suits self.now.settings tag.line (asks.Put pair bytes.now) result }
        ensures fits { FitsReply result }
    {
        let (rows, home) = self.home_in_view(rt, lane, tag, pair);
        match home {
            Some(volume) => self.put_home(rt, alloc, lane, tag, pair, bytes, volume, rows, gate),
            None => self.put_first(rt, alloc, lane, tag, pair, bytes),
        }
    }

    // Stores a photo of a pair that the lane saw without a home.
    fn put_first<R: Wait, A: Arm<P>>(
        &self,
        rt: &R,
        alloc: Global,
        lane: &mut Lane<VolumeSeat<D, P>, L::Seat, A>,
        tag: CoreTag,
        pair: Pair,
        bytes: &[u8],
    ) -> Reply
        requires seated { IsSeated IsSeatOf L.fits self.now tag.lane lane.old }
        requires size { length bytes.now ≤ MAX_PHOTO }
        ensures seated { IsSeated IsSeatOf L.fits self.now tag.lane lane.new }
        ensures same { (start : Start) → IsOf (WasAt D.Tells D.files P.Tells D.fault_count D.fuse_count) L.is_at self.now.settings start lane.old
            → IsOf (WasAt D.Tells D.files P.Tells D.fault_count D.fuse_count) L.is_at self.now.settings start lane.new }
        ensures unfused { IsUnfused sight_of L.sight lane.old → IsUnfused sight_of L.sight lane.new }
        ensures arm { lane.new.arm ≡ lane.old.arm }
        ensures answered { (start : Start) (d : ℕ) (a : Sight) → IsOf (WasAt D.Tells D.files P.Tells D.fault_count D.fuse_count) L.is_at self.now.settings start lane.old →
            Sees self.now.settings start self.now.drained.items tag pair d None a (sight sight_of L.sight A.fault_count lane.old) →
            IsAnswered self.now.settings start self.now.drained.items tag (asks.Put pair bytes.now) result a (sight sight_of L.sight A.fault_count lane.new) }
        ensures suits { Suits self.now.settings tag.line (asks.Put pair bytes.now) result }
        ensures fits { FitsReply result }
    {
        match self.find_taker(rt, alloc, lane, tag, pair, bytes.len() as u32) {
            Tries::Taker(volume) => self.put_taker(rt, alloc, lane, tag, pair, bytes, volume),
            Tries::Nobody(refused) => refuse(alloc, refused),
            Tries::NoMemory => Reply::NoMem,
        }
    }

    // The first of a pair's tries that takes a photo of this size, or why none does.
    fn find_taker<R: Wait, A: Arm<P>>(
        &self,
        rt: &R,
        alloc: Global,
        lane: &mut Lane<VolumeSeat<D, P>, L::Seat, A>,
        tag: CoreTag,
        pair: Pair,
        size: u32,
    ) -> Tries
        requires seated { IsSeated IsSeatOf L.fits self.now tag.lane lane.old }
        requires size { size ≤ MAX_PHOTO }
        ensures seated { IsSeated IsSeatOf L.fits self.now tag.lane lane.new }
        ensures same { (start : Start) → IsOf (WasAt D.Tells D.files P.Tells D.fault_count D.fuse_count) L.is_at self.now.settings start lane.old
            → IsOf (WasAt D.Tells D.files P.Tells D.fault_count D.fuse_count) L.is_at self.now.settings start lane.new }
        ensures unfused { IsUnfused sight_of L.sight lane.old → IsUnfused sight_of L.sight lane.new }
        ensures arm { lane.new.arm ≡ lane.old.arm }
        ensures within { (volume : ℕ) → result ≡ Tries.Taker volume → volume < self.now.settings.volumes }
        ensures refuse { (refused : List Refused) → result ≡ Tries.Nobody refused → AllZip (Refuses self.now.settings size) (all_tries self.now.settings pair) refused }
        ensures fits { (refused : List Refused) → result ≡ Tries.Nobody refused → AllByRecursion FitsRefused refused }
        ensures tried { (start : Start) (d : ℕ) (a : Sight) → IsOf (WasAt D.Tells D.files P.Tells D.fault_count D.fuse_count) L.is_at self.now.settings start lane.old →
            Sees self.now.settings start self.now.drained.items tag pair d None a (sight sight_of L.sight A.fault_count lane.old) →
            TriesTell self.now.settings start self.now.drained.items tag pair size result a (sight sight_of L.sight A.fault_count lane.new) }
    {
        let mut refused = Listed::new(alloc);
        for turn in 0..self.settings.volumes {
            let volume = tries(&self.settings, pair.key, turn);
            match self.refusal(rt, lane, tag, volume, size) {
                None => return Tries::Taker(volume),
                Some(refusal) => match refused.push(refusal) {
                    Ok(()) => {}
                    Err(NoMemory) => return Tries::NoMemory,
                },
            }
        }
        Tries::Nobody(refused)
    }

    // Why a volume does not take a photo of this size, if it does not.
    fn refusal<R: Wait, A: Arm<P>>(
        &self,
        rt: &R,
        lane: &mut Lane<VolumeSeat<D, P>, L::Seat, A>,
        tag: CoreTag,
        volume: u32,
        size: u32,
    ) -> Option<Refused>
        requires seated { IsSeated IsSeatOf L.fits self.now tag.lane lane.old }
        requires volume { volume < self.now.settings.volumes }
        requires size { size ≤ MAX_PHOTO }
        ensures seated { IsSeated IsSeatOf L.fits self.now tag.lane lane.new }
        ensures same { (start : Start) → IsOf (WasAt D.Tells D.files P.Tells D.fault_count D.fuse_count) L.is_at self.now.settings start lane.old
            → IsOf (WasAt D.Tells D.files P.Tells D.fault_count D.fuse_count) L.is_at self.now.settings start lane.new }
        ensures unfused { IsUnfused sight_of L.sight lane.old → IsUnfused sight_of L.sight lane.new }
        ensures arm { lane.new.arm ≡ lane.old.arm }
        ensures tells { (start : Start) → IsOf (WasAt D.Tells D.files P.Tells D.fault_count D.fuse_count) L.is_at self.now.settings start lane.old →
            TryTells self.now.settings start self.now.drained.items tag volume size result (sight sight_of L.sight A.fault_count lane.old) (sight sight_of L.sight A.fault_count lane.new) }
        ensures refuses { IfSome result (Refuses self.now.settings size volume) }
        ensures fits { IfSome result FitsRefused }
    {
        let Some(machine) = drained_by(&self.settings, self.drained.as_slice(), volume) else {
            let room = self.room_at(rt, lane, tag, volume, size);
            return refusal_for(volume, room);
        };
        let machine = self.closed_at(rt, lane, tag, volume, machine);
        Some(Refused::Closed { volume, machine })
    }

    // Stores the first photo of a pair in the volume that takes it, or in the home that the pair has got.
    fn put_taker<R: Wait, A: Arm<P>>(
        &self,
        rt: &R,
        alloc: Global,
        lane: &mut Lane<VolumeSeat<D, P>, L::Seat, A>,
        tag: CoreTag,
        pair: Pair,
        bytes: &[u8],
        volume: u32,
    ) -> Reply
        requires seated { IsSeated IsSeatOf L.fits self.now tag.lane lane.old }
        requires volume { volume < self.now.settings.volumes }
        requires size { length bytes.now ≤ MAX_PHOTO }
        ensures seated { IsSeated IsSeatOf L.fits self.now tag.lane lane.new }
        ensures same { (start : Start) → IsOf (WasAt D.Tells D.files P.Tells D.fault_count D.fuse_count) L.is_at self.now.settings start lane.old
            → IsOf (WasAt D.Tells D.files P.Tells D.fault_count D.fuse_count) L.is_at self.now.settings start lane.new }
        ensures unfused { IsUnfused sight_of L.sight lane.old → IsUnfused sight_of L.sight lane.new }
        ensures arm { lane.new.arm ≡ lane.old.arm }
        ensures answered { (start : Start) (a : Sight) → IsOf (WasAt D.Tells D.files P.Tells D.fault_count D.fuse_count) L.is_at self.now.settings start lane.old →
            HasTaker self.now.settings start self.now.drained.items tag pair (length bytes.now) volume a (sight sight_of L.sight A.fault_count lane.old) →
            IsAnswered self.now.settings start self.now.drained.items tag (asks.Put pair bytes.now) result a (sight sight_of L.sight A.fault_count lane.new) }
        ensures suits { Suits self.now.settings tag.line (asks.Put pair bytes.now) result }
        ensures fits { FitsReply result }
    {
        match self.settle_home(rt, lane, tag, pair, volume) {
            Ok((home, rows)) => self.put_home(
                rt, alloc, lane, tag, pair, bytes, home, rows, &OpenGate,
            ),
            Err(fault) => settle_refusal(fault),
        }
    }

    // Stores a photo in its pair's home, where there are so many rows.
    fn put_home<R: Wait, A: Arm<P>, G: Gate>(
        &self,
        rt: &R,
        alloc: Global,
        lane: &mut Lane<VolumeSeat<D, P>, L::Seat, A>,
        tag: CoreTag,
        pair: Pair,
        bytes: &[u8],
        volume: u32,
        rows: u64,
        gate: &G,
    ) -> Reply
        requires seated { IsSeated IsSeatOf L.fits self.now tag.lane lane.old }
        requires volume { volume < self.now.settings.volumes }
        requires size { length bytes.now ≤ MAX_PHOTO }
        ensures seated { IsSeated IsSeatOf L.fits self.now tag.lane lane.new }
        ensures same { (start : Start) → IsOf (WasAt D.Tells D.files P.Tells D.fault_count D.fuse_count) L.is_at self.now.settings start lane.old
            → IsOf (WasAt D.Tells D.files P.Tells D.fault_count D.fuse_count) L.is_at self.now.settings start lane.new }
        ensures unfused { IsUnfused sight_of L.sight lane.old → IsUnfused sight_of L.sight lane.new }
        ensures arm { lane.new.arm ≡ lane.old.arm }
        ensures answered { (start : Start) (a : Sight) → IsOf (WasAt D.Tells D.files P.Tells D.fault_count D.fuse_count) L.is_at self.now.settings start lane.old →
            Settled self.now.settings start self.now.drained.items tag pair (length bytes.now) rows volume a (sight sight_of L.sight A.fault_count lane.old) →
            IsAnswered self.now.settings start self.now.drained.items tag (asks.Put pair bytes.now) result a (sight sight_of L.sight A.fault_count lane.new) }
        ensures suits { Suits self.now.settings tag.line (asks.Put pair bytes.now) result }
        ensures fits { FitsReply result }
    {
        let Some(machine) = drained_by(&self.settings, self.drained.as_slice(), volume) else {
            let cookie = cookie_of(&self.settings.secret, pair.key);
            let answer = self.put_at(rt, alloc, lane, tag, volume, pair, cookie, bytes, gate);
            return put_reply(alloc, volume, rows, cookie, answer);
        };
        let machine = self.closed_at(rt, lane, tag, volume, machine);
        read_only(alloc, volume, machine)
    }
}

// Why a volume that no drain closes does not take a photo, if it does not.
fn refusal_for(volume: u32, room: Room) -> Option<Refused>
    ensures is { result ≡ room_refusal volume room }
    ensures fits { IfSome result FitsRefused }
{
    match room {
        Room::Fits => None,
        Room::Frozen { machine } => Some(Refused::Closed { volume, machine }),
        Room::Lacks { machine, end, need } => Some(Refused::NoRoom {
            volume,
            machine,
            end,
            need,
        }),
    }
}

// What a put is answered whose pair got no home.
fn settle_refusal(fault: DirFault) -> Reply
    ensures is { result ≡ settle_reply fault }
    ensures fits { FitsReply result }
{
    match fault {
        DirFault::Frozen => Reply::ReadOnlyDir,
        DirFault::NoMemory => Reply::NoMem,
        DirFault::Failed { faults } => Reply::FailedDir { faults },
    }
}

// What a put is answered at its pair's home, where there are so many rows.
fn put_reply(alloc: Global, volume: u32, rows: u64, cookie: Cookie, answer: Put) -> Reply
    ensures is { IsPutReply volume rows cookie answer result }
    ensures fits { FitsReply result }
{
    match answer {
        Put::Stored { position } => Reply::Stored {
            volume,
            position,
            rows,
            cookie,
        },
        Put::Frozen { machine } => read_only(alloc, volume, machine),
        Put::Lacks { machine, end, need } => {
            match Listed::one(
                alloc,
                Refused::NoRoom {
                    volume,
                    machine,
                    end,
                    need,
                },
            ) {
                Ok(tries) => Reply::Full { tries },
                Err(NoMemory) => Reply::NoMem,
            }
        }
        Put::Failed { machine, faults } => Reply::Failed {
            volume,
            machine,
            faults,
        },
        Put::NoMemory => Reply::NoMem,
    }
}

// What a put is answered that all its tries refuse: it is full where one at least wants room.
fn refuse(alloc: Global, refused: Listed<Refused>) -> Reply
    requires fits { AllByRecursion FitsRefused refused }
    ensures is { IsRefusal refused result }
    ensures fits { FitsReply result }
{
    if has_lack(refused.as_slice()) {
        return Reply::Full { tries: refused };
    }
    match closed_of(alloc, refused.as_slice()) {
        Ok(tries) => Reply::ReadOnly { tries },
        Err(NoMemory) => Reply::NoMem,
    }
}

// Whether one of these at least wants room.
fn has_lack(refused: &[Refused]) -> bool
    ensures { result ≡ list_any wants_room refused.now }
{
    refused
        .iter()
        .any(|refusal| matches!(refusal, Refused::NoRoom { .. }))
}

// The machines by which volumes are closed, where none wants room.
fn closed_of(alloc: Global, refused: &[Refused]) -> Result<Listed<ClosedBy>, NoMemory>
    requires { list_any wants_room refused.now ≡ false }
    ensures is { IfOk result (λ closed. map as_closed closed ≡ refused.now) }
    ensures fits { IfOk result (AllByRecursion FitsClosed) }
{
    let mut closed = Listed::new(alloc);
    for refusal in refused {
        if let Refused::Closed { volume, machine } = refusal {
            closed.push(ClosedBy {
                volume: *volume,
                machine: *machine,
            })?;
        }
    }
    Ok(closed)
}
