//! Lanes, made of their seats and arms, and taken apart.
ghost use Rattle.std.specs.Prelude.{◌≡◌, ◌≤◌, [], length, map, vec_len, vec_capacity, IfOk};
ghost use Rattle.std.specs.List.{AllByRecursion};

use hay_base::NoMemory;
use hay_lane::Lane;
use hay_reader::LaneSeat;
use std::alloc::Global;

/// Room for the seats of so many lanes at all volumes.
pub(crate) fn seat_rooms<S: Drop>(
    alloc: Global,
    lanes: usize,
    volumes: usize,
) -> Result<Vec<Vec<S>>, NoMemory>
    ensures many { IfOk result (λ rooms. vec_len rooms ≡ lanes) }
    ensures each { IfOk result (λ rooms. AllByRecursion (λ room. (room.items ≡ []) × (volumes ≤ vec_capacity room)) rooms.items) }
{
    let mut rooms = Vec::with_capacity(alloc, lanes)?;
    for _ in 0..lanes {
        rooms.push_reserved(Vec::with_capacity(alloc, volumes)?);
    }
    Ok(rooms)
}

/// The lanes that have these seats and arms, in their order.
pub(crate) fn joined<S: Drop, T: Drop, A: Drop>(
    rooms: Vec<Vec<S>>,
    directory: Vec<T>,
    arms: Vec<LaneSeat<A>>,
    mut lanes: Vec<Lane<S, T, A>>,
) -> Vec<Lane<S, T, A>>
    requires rooms { length rooms.items ≡ length directory.items }
    requires arms { length arms.items ≡ length directory.items }
    requires room { (lanes.items ≡ []) × (vec_len directory ≤ vec_capacity lanes) }
    ensures volumes { map (λ l. l.volumes) result.items ≡ rooms.items }
    ensures directory { map (λ l. l.directory) result.items ≡ directory.items }
    ensures arms { map (λ l. l.arm) result.items ≡ arms.items }
{
    let mut rooms = rooms.into_iter();
    let mut arms = arms.into_iter();
    for directory in directory {
        let Some(volumes) = rooms.next() else {
            unreachable!()
        };
        let Some(arm) = arms.next() else {
            unreachable!()
        };
        lanes.push_reserved(Lane {
            volumes,
            directory,
            arm,
        });
    }
    lanes
}

/// The seats of lanes at the Directory, and their arms, in their order.
pub(crate) fn apart<S: Drop, T: Drop, A: Drop>(
    lanes: Vec<Lane<S, T, A>>,
    mut directory: Vec<T>,
    mut arms: Vec<LaneSeat<A>>,
) -> (Vec<T>, Vec<LaneSeat<A>>)
    requires directory { (directory.items ≡ []) × (vec_len lanes ≤ vec_capacity directory) }
    requires arms { (arms.items ≡ []) × (vec_len lanes ≤ vec_capacity arms) }
    ensures directory { result.0.items ≡ map (λ l. l.directory) lanes.items }
    ensures arms { result.1.items ≡ map (λ l. l.arm) lanes.items }
{
    for lane in lanes {
        let Lane {
            volumes: _,
            directory: seat,
            arm,
        } = lane;
        directory.push_reserved(seat);
        arms.push_reserved(arm);
    }
    (directory, arms)
}
