//! The seat of a lane that reads.
ghost use Rattle.std.specs.Prelude.{◌≡◌, ◌<◌, ◌≤◌, ◌+◌, ◌%◌, ◌^◌, ◌⊎◌, [], true, length, IfOk, IfErr};
ghost use Rattle.std.specs.Vec.{vec_capacity};
ghost use Rattle.hay_disk.specs.Counts.{StaysSure};
ghost use Rattle.hay_map.specs.Places.{place_in};
ghost use Rattle.hay_reader.specs.Tried.{CanShow, HasItsPhoto, PlaceGives, FailsBy, PutsOut};
ghost use Rattle.hay_reader.specs.Causes.{ArmUse, ComeFirst};
ghost use Rattle.hay_reader.specs.Shown.{reply_at, ReadsRow, ShowsAt, ShowsRead, NoArm, HasBytes};

use crate::trial::{Shown, show_place, try_place};
use crate::{Causes, PassedReplica};
use hay_base::NoMemory;
use hay_disk::{Arm, Piece};
use hay_map::{Place, Row};
use hay_needle::{Cookie, MAX_NEEDLE, MAX_PHOTO};
use hay_reply::Cause;
use std::alloc::Global;
use std::marker::Model;

/// What a read found. A replica is named by its number in the row.
#[derive(Drop)]
pub enum ReadReply {
    /// The photo, whose bytes were put out.
    Photo { replica: u32 },
    Gone { replica: u32 },
    WrongCookie { replica: u32 },
    /// The replica's place was not looked at yet, and those before it were passed over.
    Unseen { replica: u32, causes: Causes },
    /// Every replica was passed over.
    Unreadable { causes: Causes },
}

/// A lane's arm, and a buffer with room for the longest needle. A clause sees the arm.
#[derive(Drop)]
pub struct LaneSeat<A> {
    arm: A,
    needle: Vec<u8>,
}

impl<A> Model for LaneSeat<A> {
    ghost use Rattle.std.specs.Prelude.{◌≤◌};
    ghost use Rattle.std.specs.Vec.{vec_capacity};
    ghost use Rattle.hay_needle.specs.declared.total.TheConstants.{MAX_NEEDLE};

    ghost Value = { A };

    ghost view = { λ s. s.arm };

    ghost invariant = { λ s. MAX_NEEDLE ≤ vec_capacity s.needle };
}

impl<A> LaneSeat<A> {
    /// The seat of this arm. `NoMemory` gives the arm back.
    pub fn new(alloc: Global, arm: A) -> Result<LaneSeat<A>, (A, NoMemory)>
        ensures ok { IfOk result (λ seat. seat ≡ arm) }
        ensures err { IfErr result (λ back. back.0 ≡ arm) }
    {
        match Vec::with_capacity(alloc, MAX_NEEDLE) {
            Ok(needle) => Ok(LaneSeat { arm, needle }),
            Err(_) => Err((arm, NoMemory)),
        }
    }

    /// The arm.
    pub fn into_arm(self) -> A
        ensures { result ≡ self }
    {
        let LaneSeat { arm, needle: _ } = self;
        arm
    }

    /// How many fetches of the arm have failed.
    pub fn faults<P: Piece>(&self) -> u64
    where
        A: Arm<P>,
        ensures { result ≡ A.fault_count self.now }
    {
        self.arm.faults()
    }

    /// Shows the photo of the row's pair: tries the replicas in turn, from `start` on, and puts the photo's bytes out. It takes no
    /// memory, as `out` has room for the largest photo.
    pub fn show<P: Piece>(
        &mut self,
        row: &Row<P>,
        cookie: Cookie,
        start: usize,
        out: &mut Vec<u8>,
    ) -> ReadReply
    where
        A: Arm<P>,
        requires start { start < length row.now }
        requires empty { out.old.items ≡ [] }
        requires room { MAX_PHOTO ≤ vec_capacity out.old }
        ensures reads { ReadsRow P.Tells (record { sure = A.is_sure self.old; before = A.fault_count self.old; after = A.fault_count self.new }) start row.now cookie [] out.new.items result }
        ensures sure { A.is_sure self.old ≡ true → NoArm [] result }
        ensures stays_sure { StaysSure (A.is_sure self.old) (A.is_sure self.new) (A.fault_count self.old) (A.fault_count self.new) }
        ensures later { A.fault_count self.old ≤ A.fault_count self.new }
        ensures most { (A.fault_count self.new ≡ A.fault_count self.old) ⊎ (A.fault_count self.new < 2 ^ 64) }
        ensures bytes { HasBytes out.new.items result }
        ensures room { vec_capacity out.old ≤ vec_capacity out.new }
    {
        self.show_more(row, cookie, start, Causes::new(), out)
    }

    /// Goes on with a read, where `passed` are the replicas that come first from `start` on and were passed over: it leaves them
    /// out, and tries the others in turn. It takes no memory, as `out` has room for the largest photo.
    pub fn show_more<P: Piece>(
        &mut self,
        row: &Row<P>,
        cookie: Cookie,
        start: usize,
        passed: Causes,
        out: &mut Vec<u8>,
    ) -> ReadReply
    where
        A: Arm<P>,
        requires start { start < length row.now }
        requires first { ComeFirst start (length row.now) passed }
        requires fewer { length passed ≤ length row.now }
        requires empty { out.old.items ≡ [] }
        requires room { MAX_PHOTO ≤ vec_capacity out.old }

        // What is shown is what stands at the replica's place. A replica is passed over in this call only where its fetch failed in
        // this call, or where no needle begins there.
        ensures reads { ReadsRow P.Tells (record { sure = A.is_sure self.old; before = A.fault_count self.old; after = A.fault_count self.new }) start row.now cookie passed out.new.items result }
        ensures sure { A.is_sure self.old ≡ true → NoArm passed result }
        ensures stays_sure { StaysSure (A.is_sure self.old) (A.is_sure self.new) (A.fault_count self.old) (A.fault_count self.new) }
        ensures later { A.fault_count self.old ≤ A.fault_count self.new }
        ensures most { (A.fault_count self.new ≡ A.fault_count self.old) ⊎ (A.fault_count self.new < 2 ^ 64) }
        ensures bytes { HasBytes out.new.items result }
        ensures room { vec_capacity out.old ≤ vec_capacity out.new }
    {
        let mut causes = passed;
        for step in causes.len()..row.len() {
            let replica = (start + step) % row.len();
            match self.try_replica(row.place(replica), cookie, out) {
                Ok(shown) => return reply_of(shown, replica as u32, causes),
                Err(cause) => causes.push(PassedReplica {
                    replica: replica as u32,
                    cause,
                }),
            }
        }
        ReadReply::Unreadable { causes }
    }

    fn try_replica<P: Piece>(
        &mut self,
        place: &Place<P>,
        cookie: Cookie,
        out: &mut Vec<u8>,
    ) -> Result<Shown, Cause>
    where
        A: Arm<P>,
        requires empty { out.old.items ≡ [] }
        requires room { MAX_PHOTO ≤ vec_capacity out.old }
        ensures gives { PlaceGives P.Tells (A.is_sure self.old) cookie out.new.items place.now result }
        ensures cause { IfErr result (FailsBy (A.fault_count self.old) (A.fault_count self.new)) }
        ensures later { A.fault_count self.old ≤ A.fault_count self.new }
        ensures most { (A.fault_count self.new ≡ A.fault_count self.old) ⊎ (A.fault_count self.new < 2 ^ 64) }
        ensures stays_sure { StaysSure (A.is_sure self.old) (A.is_sure self.new) (A.fault_count self.old) (A.fault_count self.new) }
        ensures bytes { PutsOut out.new.items result }
        ensures room { vec_capacity out.old ≤ vec_capacity out.new }
    {
        try_place(&mut self.arm, &mut self.needle, place, cookie, out)
    }
}

/// Goes on with a read at a place that was seen, from the bytes that were read to see it, where `passed` are the replicas that come
/// first from `start` on and were passed over. It uses no arm, and takes no memory, as `out` has room for the largest photo.
pub fn show_seen<P: Piece>(
    row: &Row<P>,
    cookie: Cookie,
    start: usize,
    passed: Causes,
    needle: &[u8],
    out: &mut Vec<u8>,
) -> ReadReply
    requires start { start < length row.now }
    requires first { ComeFirst start (length row.now) passed }
    requires fewer { length passed < length row.now }
    requires needle { CanShow needle.now (place_in row.now ((start + length passed) % length row.now)) }
    requires empty { out.old.items ≡ [] }
    requires room { MAX_PHOTO ≤ vec_capacity out.old }

    // The bytes are shown, whatever a piece tells. Where they have the photo of the place, that is what stands there. No replica is
    // passed over in this call.
    ensures shows { ShowsRead cookie out.new.items needle.now passed ((start + length passed) % length row.now)
        (place_in row.now ((start + length passed) % length row.now)) result }
    ensures reads { (arm : ArmUse) → HasItsPhoto needle.now (place_in row.now ((start + length passed) % length row.now)) →
        ReadsRow P.Tells arm start row.now cookie passed out.new.items result }
    ensures next { ShowsAt ((start + length passed) % length row.now) result }
    ensures bytes { HasBytes out.new.items result }
    ensures room { vec_capacity out.old ≤ vec_capacity out.new }
{
    let replicas = row.len();
    let replica = (start + passed.len()) % replicas;
    let shown = show_place(row.place(replica), needle, cookie, out);
    reply_of(shown, replica as u32, passed)
}

fn reply_of(shown: Shown, replica: u32, causes: Causes) -> ReadReply
    ensures { result ≡ reply_at replica causes shown }
{
    match shown {
        Shown::Photo => ReadReply::Photo { replica },
        Shown::Gone => ReadReply::Gone { replica },
        Shown::WrongCookie => ReadReply::WrongCookie { replica },
        Shown::Unseen => ReadReply::Unseen { replica, causes },
    }
}
