//! The seats of the lock, made and ended.
ghost use Rattle.std.specs.Prelude.{◌≡◌, ◌<◌, ◌≤◌, [], length, map, replicate, vec_len, vec_capacity, Some, IfOk, false};
ghost use Rattle.std.specs.List.{AllByRecursion};
ghost use Rattle.hay_front.specs.Fronts.{IsBehind};
ghost use Rattle.hay_views.specs.HomeLooks.{rows_among};

use crate::kept::KeptDirectory;
use crate::lock::DirectorySeat;
use hay_base::NoMemory;
use hay_directory::Directory;
use hay_disk::Disk;
use hay_front::{Front, Seat, View};
use hay_turn::TurnSeat;
use hay_views::HomeView;
use std::alloc::Global;
use std::marker::Model;
use std::sync::Wait;

/// Room for the parts of all seats, for when the lock ends. Clauses see for how many seats.
#[derive(Drop)]
pub struct SeatRoom<D: Disk> {
    seats: u32,
    turns: Vec<TurnSeat<KeptDirectory<D>>>,
    views: Vec<Seat<HomeView>>,
}

impl<D: Disk> Model for SeatRoom<D> {
    ghost use Rattle.std.specs.Prelude.{◌≡◌, ◌≤◌, ℕ, [], vec_capacity};

    ghost Value = { ℕ };

    ghost view = { λ r. r.seats };

    ghost invariant = { λ r. ((r.turns.items ≡ []) × (r.seats ≤ vec_capacity r.turns)) × ((r.views.items ≡ []) × (r.seats ≤ vec_capacity r.views)) };
}

impl<D: Disk> SeatRoom<D> {
    pub(crate) fn new(alloc: Global, seats: u32) -> Result<SeatRoom<D>, NoMemory>
        ensures { IfOk result (λ room. room ≡ seats) }
    {
        Ok(SeatRoom {
            seats,
            turns: Vec::with_capacity(alloc, seats as usize)?,
            views: Vec::with_capacity(alloc, seats as usize)?,
        })
    }
}

/// The front of the homes of a Directory, and its seats.
pub(crate) fn front_of<D: Disk, R: Wait>(
    rt: &R,
    alloc: Global,
    directory: &Directory<D>,
    volumes: u32,
    seats: u32,
) -> Result<(Front<HomeView>, Vec<Seat<HomeView>>), NoMemory>
    requires some { 0 < seats }
    requires volumes { volumes ≡ directory.now.settings.volumes }
    ensures base { IfOk result (λ made. made.0.shown.base ≡ Some (record { volumes = volumes; rows = rows_among directory.now.homes }, tt)) }
    ensures blank { IfOk result (λ made. (made.0.shown.deeds ≡ []) × (made.0.log ≡ []) × (made.0.closed ≡ false)) }
    ensures seats { IfOk result (λ made. made.1.items ≡ replicate seats made.0.shown) }
{
    let first = HomeView::of_table(volumes, directory.copy_homes()?);
    let second = HomeView::of_table(volumes, directory.copy_homes()?);
    Front::new(rt, alloc, first, second, seats)
}

/// Gives each lane its seats.
pub(crate) fn joined<D: Disk>(
    turns: Vec<TurnSeat<KeptDirectory<D>>>,
    views: Vec<Seat<HomeView>>,
    mut seats: Vec<DirectorySeat<D>>,
) -> Vec<DirectorySeat<D>>
    requires as_many { length views.items ≡ length turns.items }
    requires room { (seats.items ≡ []) × (vec_len turns ≤ vec_capacity seats) }
    ensures turns { map (λ seat. seat.turn) result.items ≡ turns.items }
    ensures views { map (λ seat. seat.view) result.items ≡ views.items }
{
    let mut views = views.into_iter();
    for turn in turns {
        let Some(view) = views.next() else {
            unreachable!()
        };
        seats.push_reserved(DirectorySeat { turn, view });
    }
    seats
}

/// Shows each seat all that was published.
pub(crate) fn show_each<T: View, R: Wait>(rt: &R, front: &Front<T>, seats: &mut [Seat<T>])
    requires { AllByRecursion (λ s. s.front ≡ front.now.shown.front) seats.old }
    ensures { AllByRecursion (λ s. IsBehind s front.now.shown) seats.old }
{
    for i in 0..seats.len() {
        front.show_all(rt, &mut seats[i]);
    }
}

/// Takes the seats of all lanes apart, in their order.
pub(crate) fn apart<D: Disk>(
    seats: Vec<DirectorySeat<D>>,
    room: SeatRoom<D>,
) -> (Vec<TurnSeat<KeptDirectory<D>>>, Vec<Seat<HomeView>>)
    requires { length seats.items ≡ room }
    ensures turns { result.0.items ≡ map (λ seat. seat.turn) seats.items }
    ensures views { result.1.items ≡ map (λ seat. seat.view) seats.items }
{
    let SeatRoom {
        seats: _,
        mut turns,
        mut views,
    } = room;
    for seat in seats {
        let DirectorySeat { turn, view } = seat;
        turns.push_reserved(turn);
        views.push_reserved(view);
    }
    (turns, views)
}
