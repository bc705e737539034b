//! The rule of the table: what its slot holds, and what a seat knows.

use crate::kept::Kept;
use atomic_table::TableRule;
use std::collections::LinkedList;
use std::marker::PhantomData;
use std::snapshot::Snapshot;

/// What the slot holds: nothing while a turn is held, else the value. An act is only ever told to a step, for the proof.
#[derive(Drop)]
pub enum Slot<T, A> {
    Empty,
    Value(T),
    Told(A),
}

/// Where a seat is.
pub enum Stage {
    Idle,
    /// It drew a ticket.
    Waiting,
    /// Its ticket is served.
    Called,
    /// It has taken the value.
    Holding,
    /// It has given the value back.
    Given,
}

/// What a seat of the table knows. No value of it is made.
pub struct SeatView<T, B, E> {
    /// The first value, which the table's maker alone knows.
    pub origin: Option<T>,
    pub start: Option<B>,
    /// How many seats there are.
    pub seats: u64,
    /// The number of the first seat that it is.
    pub first: u64,
    /// The own acts of each seat that it is: of one, or of several that are joined.
    pub owns: LinkedList<LinkedList<E>>,
    /// The history, as far as it was seen.
    pub seen: LinkedList<E>,
    /// What another seat had seen.
    pub told: LinkedList<E>,
    /// The acts of this hold.
    pub made: LinkedList<E>,
    pub stage: Stage,
    pub ticket: u64,
}

/// What the table is told when it is made.
#[derive(Drop)]
pub struct About<T> {
    pub value: Snapshot<T>,
    pub seats: u64,
}

/// The rule of the table.
pub struct InTurn<T> {
    marker: PhantomData<T>,
}

impl<T: Kept> TableRule<Slot<T, T::Act>, SeatView<T, T::Start, T::Act>, About<T>> for InTurn<T> {
    ghost use Rattle.hay_turn.specs.Ruled.{Ruled, maker_view};

    ghost holds = { λ k. Ruled T.by T.stands k.seats };

    ghost first = { λ k. maker_view k.value.value k.seats };
}
