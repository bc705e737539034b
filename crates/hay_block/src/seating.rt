//! The seats of lanes, volume by volume.
ghost use Rattle.std.specs.Prelude.{◌≡◌, ◌<◌, ◌≤◌, [], ℕ, Some, length, slice_get, vec_len, vec_capacity};
ghost use Rattle.std.specs.List.{AllByRecursion};
ghost use Rattle.hay_block.specs.Seats.{HasMore, HaveMore};

use hay_lane::Lane;

// Gives a lane its seat at the next volume.
fn give_seat<S: Drop, T: Drop, A>(lane: &mut Lane<S, T, A>, seat: S)
    requires { vec_len lane.old.volumes < vec_capacity lane.old.volumes }
    ensures { HasMore seat lane.old lane.new }
{
    lane.volumes.push_reserved(seat);
}

// Takes its seat at the last volume.
fn take_seat<S: Drop, T: Drop, A>(lane: &mut Lane<S, T, A>) -> S
    requires { 0 < vec_len lane.old.volumes }
    ensures { HasMore result lane.new lane.old }
{
    let Some(seat) = lane.volumes.pop() else {
        unreachable!()
    };
    seat
}

/// Gives each lane its seat at the next volume, in their order.
pub fn give_seats<S: Drop, T: Drop, A>(lanes: &mut [Lane<S, T, A>], seats: Vec<S>)
    requires as_many { length seats.items ≡ length lanes.old }
    requires room { AllByRecursion (λ l. vec_len l.volumes < vec_capacity l.volumes) lanes.old }
    ensures seats { HaveMore lanes.old seats.items lanes.new }
    ensures same { length lanes.new ≡ length lanes.old }
{
    let mut seats = seats.into_iter();
    for i in 0..lanes.len() {
        let Some(seat) = seats.next() else {
            unreachable!()
        };
        give_seat(&mut lanes[i], seat);
    }
}

/// Takes the seat of each lane at the last volume, in their order.
pub fn take_seats<S: Drop, T: Drop, A>(lanes: &mut [Lane<S, T, A>], mut seats: Vec<S>) -> Vec<S>
    requires room { (seats.items ≡ []) × (length lanes.old ≤ vec_capacity seats) }
    requires some { AllByRecursion (λ l. 0 < vec_len l.volumes) lanes.old }
    ensures seats { HaveMore lanes.new result.items lanes.old }
    ensures as_many { length result.items ≡ length lanes.old }
    ensures same { length lanes.new ≡ length lanes.old }
{
    for i in 0..lanes.len() {
        let seat = take_seat(&mut lanes[i]);
        seats.push_reserved(seat);
    }
    seats
}
