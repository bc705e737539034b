//! The arms of a block's lanes, and those of the other lanes.
ghost use Rattle.std.specs.Prelude.{◌≡◌, ◌≤◌, ◌+◌, ◌-◌, ◌^◌, ◌++◌, length, take, drop, reverse, vec_capacity, IfOk, IfErr};
ghost use Rattle.std.specs.List.{AllByRecursion};

use hay_base::NoMemory;
use hay_disk::{Arm, Piece};
use hay_reader::LaneSeat;
use std::alloc::Global;

/// The arms of the first lanes in their order, and the others from the last lane down, with room for all. `NoMemory` gives the arms back.
pub(crate) fn apart<A>(
    alloc: Global,
    mut arms: Vec<LaneSeat<A>>,
    lanes: usize,
) -> Result<(Vec<LaneSeat<A>>, Vec<LaneSeat<A>>), (Vec<LaneSeat<A>>, NoMemory)>
    requires { lanes ≤ length arms.items }
    ensures first { IfOk result (λ split. split.0.items ≡ take lanes arms.items) }
    ensures others { IfOk result (λ split. split.1.items ≡ reverse (drop lanes arms.items)) }
    ensures room { IfOk result (λ split. length arms.items ≤ vec_capacity split.1) }
    ensures refused { IfErr result (λ back. back.0 ≡ arms) }
{
    let Ok(mut first) = Vec::with_capacity(alloc, lanes) else {
        return Err((arms, NoMemory));
    };
    arms.reverse();
    for _ in 0..lanes {
        let Some(arm) = arms.pop() else {
            unreachable!()
        };
        first.push_reserved(arm);
    }
    Ok((first, arms))
}

/// All arms in the order of their lanes: these of the first lanes, and the others from the last lane down, with room for all.
pub(crate) fn together<A>(
    mut first: Vec<LaneSeat<A>>,
    mut others: Vec<LaneSeat<A>>,
) -> Vec<LaneSeat<A>>
    requires room { length first.items + length others.items ≤ vec_capacity others }
    ensures { result.items ≡ first.items ++ reverse others.items }
{
    while let Some(arm) = first.pop() {
        others.push_reserved(arm);
    }
    first.destroy_empty();
    others.reverse();
    others
}

/// Reads how many fetches of each arm have failed, which is a number of 64 bits.
pub(crate) fn read_counts<P: Piece, A: Arm<P>>(arms: &[LaneSeat<A>])
    ensures { AllByRecursion (λ arm. A.fault_count arm ≤ 2 ^ 64 - 1) arms.now }
{
    for arm in arms {
        let _faults = arm.faults::<P>();
    }
}
