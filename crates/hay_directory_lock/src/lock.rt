//! The lock and its seats.
ghost use Rattle.std.specs.Prelude.{◌≡◌, ◌+◌, ◌<◌, ℕ, Bool, List, true, false, IfErr, IfOk, IfSome, OnOk};
ghost use Rattle.hay_holdings.specs.Rows.{Drained, FusedDir, HomeShown};
ghost use Rattle.hay_legal.specs.declared.known.DirKnown.{DirKnown};
ghost use Rattle.hay_directory.specs.State.{IsUp, Stands};
ghost use Rattle.hay_directory_lock.specs.Opening.{AreNewSeats, AreSeated, Closes};
ghost use Rattle.hay_directory_lock.specs.Seats.{IsSeated, sight};
ghost use Rattle.hay_directory_lock.specs.Standing.{StandsAt, standing_of};
ghost use Rattle.hay_directory_lock.specs.Answers.{IsTold, OneHolding, OneLook, SettlesAs, UnfusedHolding};
ghost use Rattle.hay_directory_lock.specs.Begun.{BegunAt};

use crate::kept::KeptDirectory;
use crate::open::{SeatRoom, apart, front_of, joined, show_each};
use hay_base::NoMemory;
use hay_core::CoreTag;
use hay_directory::{DirFault, Directory};
use hay_dirfile::DirRow;
use hay_disk::Disk;
use hay_front::{Seat, Tag};
use hay_needle::{Pair, Settings};
use hay_turn::{Turn, TurnSeat};
use hay_views::HomeView;
use std::alloc::Global;
use std::marker::Model;
use std::sync::Wait;

/// The Directory behind its lock. Clauses see which lock it is, how many seats it has, the settings, and how many rows stood
/// where it was made.
pub struct DirectoryLock<D: Disk> {
    turn: Turn<KeptDirectory<D>>,
    seats: u32,
    settings: Settings,
    stood: u64,
}

impl<D: Disk> Model for DirectoryLock<D> {
    ghost use Rattle.hay_directory_lock.specs.Seats.{LockState};

    ghost Value = { LockState };

    ghost view = { λ l. record { turn = l.turn; seats = l.seats; settings = l.settings; stood = l.stood } };
}

/// A lock, its seats in the order of their lanes, and room for when it ends.
pub struct NewLock<D: Disk> {
    pub lock: DirectoryLock<D>,
    pub seats: Vec<DirectorySeat<D>>,
    pub room: SeatRoom<D>,
}

/// A lane's seat at the lock, with its seat of the published homes.
#[derive(Drop)]
pub struct DirectorySeat<D: Disk> {
    pub(crate) turn: TurnSeat<KeptDirectory<D>>,
    pub(crate) view: Seat<HomeView>,
}

impl<D: Disk> Model for DirectorySeat<D> {
    ghost use Rattle.hay_directory_lock.specs.Seats.{DirectorySeatState};

    ghost Value = { DirectorySeatState D };

    ghost view = { λ s. record { turn = s.turn; view = s.view } };
}

// The rows that stood at first and those that were published since.
fn all_rows<R: Wait>(rt: &R, stood: u64, published: u64) -> u64
    ensures { result ≡ stood + published }
{
    let Some(rows) = stood.checked_add(published) else {
        // There are fewer rows than numbers of 64 bits.
        for _ in rt.forever() {}
        unreachable!()
    };
    rows
}

impl<D: Disk> DirectoryLock<D> {
    /// The lock of a Directory that is up, and a seat for each lane. Its homes are published as they stand. `NoMemory` gives the
    /// Directory back.
    pub fn new<R: Wait>(
        rt: &R,
        alloc: Global,
        settings: Settings,
        directory: Directory<D>,
        seats: u32,
    ) -> Result<NewLock<D>, (Directory<D>, NoMemory)>
        requires some { 0 < seats }
        requires settings { directory.settings ≡ settings }
        requires up { IsUp directory }
        ensures made { IfOk result (λ made. (begun : BegunAt D) × (begun.directory ≡ directory) × (made.lock.settings ≡ settings)
            × (made.lock.seats ≡ seats) × (made.room ≡ seats) × AreNewSeats made.lock begun made.seats.items) }
        ensures stood { OnOk result ((known : DirKnown) (drained : List Bool) → Stands D.files directory known drained →
            StandsAt D.fault_count D.fuse_count directory (standing_of D.fault_count D.fuse_count directory known drained)) }
        ensures refused { IfErr result (λ back. back.0 ≡ directory) }
    {
        let Ok(room) = SeatRoom::new(alloc, seats) else {
            return Err((directory, NoMemory));
        };
        let Ok(lanes) = Vec::with_capacity(alloc, seats as usize) else {
            return Err((directory, NoMemory));
        };
        let Ok((front, views)) = front_of(rt, alloc, &directory, settings.volumes, seats) else {
            return Err((directory, NoMemory));
        };
        let stood = directory.rows();
        match Turn::new(alloc, KeptDirectory { directory, front }, seats) {
            Ok((turn, turns)) => {
                let lock = DirectoryLock {
                    turn,
                    seats,
                    settings,
                    stood,
                };
                let seats = joined(turns, views, lanes);
                Ok(NewLock { lock, seats, room })
            }
            Err((kept, error)) => Err((kept.end(rt, views), error)),
        }
    }

    /// Ends the lock with all its seats, and gives the Directory back, and the tags of the rows that were added. It may wait for looks
    /// that are under way, behind which none returns.
    pub fn close<R: Wait>(
        self,
        rt: &R,
        seats: Vec<DirectorySeat<D>>,
        room: SeatRoom<D>,
    ) -> (Directory<D>, Vec<Tag>)
        requires room { room ≡ self.seats }
        requires seats { (begun : BegunAt D) × AreSeated self begun seats.items }
        ensures { (begun : BegunAt D) → AreSeated self begun seats.items →
            Closes D.Tells D.files D.fault_count D.fuse_count self begun seats.items result.0 result.1.items }
    {
        let (turns, mut views) = apart(seats, room);
        let DirectoryLock {
            turn,
            seats: _,
            settings: _,
            stood: _,
        } = self;
        let KeptDirectory { directory, front } = turn.close(turns);
        show_each(rt, &front, views.as_mut_slice());
        let tags = front.close(rt, views);
        (directory, tags)
    }

    /// How many rows there are, and the home of a pair among them, by one look without the lock. It takes no memory.
    pub fn home<R: Wait>(
        &self,
        rt: &R,
        seat: &mut DirectorySeat<D>,
        pair: Pair,
    ) -> (u64, Option<u32>)
        requires seated { (begun : BegunAt D) × (lane : ℕ) × IsSeated self.now begun lane seat.old }
        ensures seated { (begun : BegunAt D) (lane : ℕ) → IsSeated self.now begun lane seat.old → IsSeated self.now begun lane seat.new }
        ensures below { IfSome result.1 (λ home. home < self.now.settings.volumes) }
        ensures shown { IsTold D.fault_count D.fuse_count self.now seat.old (λ start. HomeShown start pair result.0 result.1 (sight seat.old) (sight seat.new)) }
        ensures looked { OneLook (sight seat.old) (sight seat.new) }
    {
        let (published, home) = seat.view.look(rt, &pair);
        (all_rows(rt, self.stood, published), home)
    }

    /// Gives a pair a home, unless it has one, and answers its home and how many rows there are. The row is on the disk then, and is
    /// shown. `Frozen` comes where a row is pending, and changes nothing; `Failed` leaves the row pending, and so may `NoMemory`.
    pub fn settle<R: Wait>(
        &self,
        rt: &R,
        seat: &mut DirectorySeat<D>,
        tag: CoreTag,
        pair: Pair,
        volume: u32,
    ) -> Result<(u32, u64), DirFault>
        requires seated { (begun : BegunAt D) × IsSeated self.now begun tag.lane seat.old }
        requires volume { volume < self.now.settings.volumes }
        ensures seated { (begun : BegunAt D) (lane : ℕ) → IsSeated self.now begun lane seat.old → IsSeated self.now begun lane seat.new }
        ensures below { IfOk result (λ answer. answer.0 < self.now.settings.volumes) }
        ensures settles { IsTold D.fault_count D.fuse_count self.now seat.old (λ start. SettlesAs start (record { pair = pair; volume = volume }) tag result (sight seat.old) (sight seat.new)) }
        ensures held { UnfusedHolding tag (sight seat.old) (sight seat.new) }
    {
        let mut kept = self.turn.hold(rt, &mut seat.turn);
        let (answer, made) = kept.settle(rt, &mut seat.view, tag, DirRow { pair, volume });
        self.turn.free(&mut seat.turn, kept, made);
        match answer {
            Ok((home, published)) => Ok((home, all_rows(rt, self.stood, published))),
            Err(fault) => Err(fault),
        }
    }

    /// Closes a machine to changes.
    pub fn drain<R: Wait>(&self, rt: &R, seat: &mut DirectorySeat<D>, tag: CoreTag, machine: u32)
        requires seated { (begun : BegunAt D) × IsSeated self.now begun tag.lane seat.old }
        requires machine { machine < self.now.settings.machines }
        ensures seated { (begun : BegunAt D) (lane : ℕ) → IsSeated self.now begun lane seat.old → IsSeated self.now begun lane seat.new }
        ensures drained { IsTold D.fault_count D.fuse_count self.now seat.old (λ start. Drained start tag machine true (sight seat.old) (sight seat.new)) }
        ensures held { UnfusedHolding tag (sight seat.old) (sight seat.new) }
    {
        self.set_drained(rt, seat, tag, machine, true);
    }

    /// Opens a machine to changes again.
    pub fn undrain<R: Wait>(&self, rt: &R, seat: &mut DirectorySeat<D>, tag: CoreTag, machine: u32)
        requires seated { (begun : BegunAt D) × IsSeated self.now begun tag.lane seat.old }
        requires machine { machine < self.now.settings.machines }
        ensures seated { (begun : BegunAt D) (lane : ℕ) → IsSeated self.now begun lane seat.old → IsSeated self.now begun lane seat.new }
        ensures drained { IsTold D.fault_count D.fuse_count self.now seat.old (λ start. Drained start tag machine false (sight seat.old) (sight seat.new)) }
        ensures held { UnfusedHolding tag (sight seat.old) (sight seat.new) }
    {
        self.set_drained(rt, seat, tag, machine, false);
    }

    // Drains a machine, or no longer.
    fn set_drained<R: Wait>(
        &self,
        rt: &R,
        seat: &mut DirectorySeat<D>,
        tag: CoreTag,
        machine: u32,
        is_drained: bool,
    )
        requires seated { (begun : BegunAt D) × IsSeated self.now begun tag.lane seat.old }
        requires machine { machine < self.now.settings.machines }
        ensures seated { (begun : BegunAt D) (lane : ℕ) → IsSeated self.now begun lane seat.old → IsSeated self.now begun lane seat.new }
        ensures drained { IsTold D.fault_count D.fuse_count self.now seat.old (λ start. Drained start tag machine is_drained (sight seat.old) (sight seat.new)) }
        ensures held { UnfusedHolding tag (sight seat.old) (sight seat.new) }
    {
        let mut kept = self.turn.hold(rt, &mut seat.turn);
        let act = kept.set_drained(rt, &mut seat.view, tag, machine, is_drained);
        self.turn.free(&mut seat.turn, kept, Some(act));
    }

    /// Sets a fuse on the disk.
    pub fn fuse<R: Wait>(&self, rt: &R, seat: &mut DirectorySeat<D>, tag: CoreTag, calls: u32)
        requires seated { (begun : BegunAt D) × IsSeated self.now begun tag.lane seat.old }
        ensures seated { (begun : BegunAt D) (lane : ℕ) → IsSeated self.now begun lane seat.old → IsSeated self.now begun lane seat.new }
        ensures fused { IsTold D.fault_count D.fuse_count self.now seat.old (λ start. FusedDir start tag (sight seat.old) (sight seat.new)) }
        ensures held { OneHolding tag (sight seat.old) (sight seat.new) }
    {
        let mut kept = self.turn.hold(rt, &mut seat.turn);
        let act = kept.fuse(rt, &mut seat.view, tag, calls);
        self.turn.free(&mut seat.turn, kept, Some(act));
    }
}
