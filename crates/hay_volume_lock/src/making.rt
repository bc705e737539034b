//! How a lock and its seats are made, and how they end.
ghost use Rattle.std.specs.Prelude.{◌≡◌, ◌<◌, length, replicate, IfErr, IfOk};
ghost use Rattle.std.specs.List.{AllByRecursion};
ghost use Rattle.hay_front.specs.Fronts.{IsBehind};
ghost use Rattle.hay_logical.specs.Volumes.{HasAll, IsOfSettings, IsOpenVolume};
ghost use Rattle.hay_volume_lock.specs.Opening.{AreSeated, Closes, IsFirst, ShowsFirst};
ghost use Rattle.hay_volume_lock.specs.Seats.{AreNew};
ghost use Rattle.hay_volume_lock.specs.declared.guarded.Opened.{Opened};

use crate::ended::Ended;
use crate::guarded::Guarded;
use crate::lock::VolumeLock;
use crate::seat::VolumeSeat;
use crate::told::Places;
use hay_base::NoMemory;
use hay_core::CoreTag;
use hay_disk::{Disk, Piece};
use hay_front::{Front, Seat, Tag, View};
use hay_logical::Logical;
use hay_needle::Settings;
use hay_turn::{Turn, TurnSeat};
use std::alloc::Global;
use std::marker::Model;
use std::sync::Wait;

/// A lock, its seats in the order of their numbers, and room for when it ends.
pub struct NewLock<D: Disk<Piece = P>, P: Piece> {
    pub lock: VolumeLock<D, P>,
    pub seats: Vec<VolumeSeat<D, P>>,
    pub room: SeatRoom<TurnSeat<Guarded<D, P>>, Seat<Places<D>>>,
}

/// Room for the parts of all seats, those at the turn and those at the view. Clauses see for how many seats.
#[derive(Drop)]
pub struct SeatRoom<T: Drop, V: Drop> {
    seats: u32,
    turns: Vec<T>,
    views: Vec<V>,
}

impl<T: Drop, V: Drop> Model for SeatRoom<T, V> {
    ghost use Rattle.std.specs.Prelude.{◌≡◌, ◌≤◌, ℕ, [], vec_capacity};

    ghost Value = { ℕ };

    ghost view = { λ r. r.seats };

    ghost invariant = { λ r. ((r.turns.items ≡ []) × (r.seats ≤ vec_capacity r.turns)) × ((r.views.items ≡ []) × (r.seats ≤ vec_capacity r.views)) };
}

impl<T: Drop, V: Drop> SeatRoom<T, V> {
    fn new(alloc: Global, seats: u32) -> Result<SeatRoom<T, V>, NoMemory>
        ensures { IfOk result (λ room. room ≡ seats) }
    {
        Ok(SeatRoom {
            seats,
            turns: Vec::with_capacity(alloc, seats as usize)?,
            views: Vec::with_capacity(alloc, seats as usize)?,
        })
    }
}

// Two views of the rows of a volume.
fn views_of<D: Disk>(
    alloc: Global,
    logical: &Logical<D>,
    replicas: u32,
) -> Result<(Places<D>, Places<D>), NoMemory>
    requires { replicas ≡ logical.now.settings.replicas }
    ensures { IfOk result (λ views. IsFirst logical.now views.0 × (views.1 ≡ views.0)) }
{
    let rows = logical.copy_rows(alloc)?;
    Places::two(alloc, logical, rows, replicas)
}

// The front of the rows of a volume, and so many seats at it.
fn publish<D: Disk<Piece = P>, P: Piece, R: Wait>(
    rt: &R,
    alloc: Global,
    logical: &Logical<D>,
    replicas: u32,
    seats: u32,
) -> Result<(Front<Places<D>>, Vec<Seat<Places<D>>>), NoMemory>
    requires all { HasAll logical.now }
    requires width { replicas ≡ logical.now.settings.replicas }
    requires some { 0 < seats }
    ensures { IfOk result (λ r. ShowsFirst logical.now r.0 × (r.1.items ≡ replicate seats r.0.shown)) }
{
    let (first, second) = views_of(alloc, logical, replicas)?;
    Front::new(rt, alloc, first, second, seats)
}

// Shows each seat all that was published.
fn show_each<T: View, R: Wait>(rt: &R, front: &Front<T>, seats: &mut [Seat<T>])
    requires { AllByRecursion (λ s. s.front ≡ front.now.shown.front) seats.old }
    ensures { AllByRecursion (λ s. IsBehind s front.now.shown) seats.old }
{
    for i in 0..seats.len() {
        front.show_all(rt, &mut seats[i]);
    }
}

impl<D: Disk<Piece = P>, P: Piece> VolumeLock<D, P> {
    /// The lock of an open volume, and a seat for each lane. The rows are published as they stand. `NoMemory` gives the volume back.
    pub fn new<R: Wait>(
        rt: &R,
        alloc: Global,
        settings: Settings,
        logical: Logical<D>,
        seats: u32,
    ) -> Result<NewLock<D, P>, (Logical<D>, NoMemory)>
        requires some { 0 < seats }
        requires settings { logical.settings ≡ settings }
        requires of { IsOfSettings settings logical.number }
        requires open { IsOpenVolume logical }
        ensures made { IfOk result (λ made. (made.room ≡ seats) × AreNew made.lock logical seats made.seats.items) }
        ensures refused { IfErr result (λ back. back.0 ≡ logical) }
    {
        let Ok(room) = SeatRoom::new(alloc, seats) else {
            return Err((logical, NoMemory));
        };
        let Ok(mut lanes) = Vec::with_capacity(alloc, seats as usize) else {
            return Err((logical, NoMemory));
        };
        let Ok((front, views)) = publish(rt, alloc, &logical, settings.replicas, seats) else {
            return Err((logical, NoMemory));
        };
        let stood = logical.front();
        let nobody = CoreTag { lane: 0, line: 0 };
        let kept = Guarded {
            settings,
            logical,
            front,
            begun: [nobody; 4],
            ended: Ended::none(),
        };
        match Turn::new(alloc, kept, seats) {
            Ok((turn, turns)) => {
                let mut views = views.into_iter();
                for own in turns {
                    let Some(view) = views.next() else {
                        unreachable!()
                    };
                    lanes.push_reserved(VolumeSeat {
                        turn: own,
                        view,
                        stood,
                    });
                }
                let lock = VolumeLock { turn };
                Ok(NewLock {
                    lock,
                    seats: lanes,
                    room,
                })
            }
            Err((kept, error)) => {
                let Guarded {
                    settings: _,
                    logical,
                    front,
                    begun: _,
                    ended: _,
                } = kept;
                let _tags = front.close(rt, views);
                Err((logical, error))
            }
        }
    }

    /// Ends the lock with all its seats, and gives the volume back, and the tags of the changes that were entered. It may wait for
    /// looks that are under way, behind which none returns.
    pub fn close<R: Wait>(
        self,
        rt: &R,
        seats: Vec<VolumeSeat<D, P>>,
        room: SeatRoom<TurnSeat<Guarded<D, P>>, Seat<Places<D>>>,
    ) -> (Logical<D>, Vec<Tag>)
        requires room { length seats.items ≡ room }
        requires seats { (opened : Opened D P) × AreSeated self opened seats.items }
        ensures { (opened : Opened D P) → AreSeated self opened seats.items →
            Closes D.Tells D.files P.Tells D.fault_count D.fuse_count opened seats.items result.0 result.1.items }
    {
        let SeatRoom {
            seats: _,
            mut turns,
            mut views,
        } = room;
        for seat in seats {
            let VolumeSeat {
                turn,
                view,
                stood: _,
            } = seat;
            turns.push_reserved(turn);
            views.push_reserved(view);
        }
        let VolumeLock { turn } = self;
        let Guarded {
            settings: _,
            logical,
            front,
            begun: _,
            ended: _,
        } = turn.close(turns);
        show_each(rt, &front, views.as_mut_slice());
        let tags = front.close(rt, views);
        (logical, tags)
    }
}
