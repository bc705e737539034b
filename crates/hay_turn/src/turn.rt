//! The lock and its seats.
ghost use Rattle.std.specs.Prelude.{◌≡◌, List, ◌+◌, ◌<◌, ◌^◌, ◌%◌, ◌++◌, ◌∷◌, [], ◌≤◌, true, false, length, Some, IfOk, IfErr, vec_len, vec_capacity};
ghost use mathlib.Core.List.{IsPrefix};
ghost use Rattle.std.specs.Mem.{manually_drop_value};
ghost use Rattle.atomic_table.specs.Seated.{TableId};
ghost use Rattle.hay_turn.specs.Acts.{AllOf};
ghost use Rattle.hay_turn.specs.Ruled.{maker_view, fresh, merged};
ghost use Rattle.hay_turn.specs.Slots.{acts_in};
ghost use Rattle.hay_turn.specs.Steps.{after_draw, after_wait, after_take, after_tell, after_give, after_serve, Shows};
ghost use Rattle.hay_turn.specs.Seats.{SeatState, seat_state, AreNew, IsSeat, Holds, MayFree, after_free, Meets, AreAll, Closes};
ghost use Rattle.hay_turn.specs.declared.rule.Slot.TheVariants.{Empty};
ghost use Rattle.hay_turn.specs.declared.rule.Stage.TheVariants.{Idle, Waiting, Called, Holding, Given};

use crate::door::Door;
use crate::kept::Kept;
use crate::plays::{Draw, Give, Learn, Look, Merge, Note, ReadTurn, Serve, SplitFirst, Take, Tell};
use crate::rule::{About, InTurn, SeatView, Slot};
use atomic_table::{Refused, Seat, Table};
use hay_base::NoMemory;
use std::alloc::Global;
use std::marker::Model;
use std::mem::ManuallyDrop;
use std::snapshot::Snapshot;
use std::sync::Wait;
use std::thread;

type SlotOf<T> = Slot<T, <T as Kept>::Act>;

type Token<T> = Seat<SlotOf<T>, SeatView<T, <T as Kept>::Start, <T as Kept>::Act>>;

type Slots<T> = Table<
    SlotOf<T>,
    SeatView<T, <T as Kept>::Start, <T as Kept>::Act>,
    About<T>,
    InTurn<T>,
    Global,
>;

/// The lock. Clauses see which lock it is.
#[derive(Drop)]
pub struct Turn<T: Kept> {
    table: Slots<T>,
    door: Door,
}

impl<T: Kept> Model for Turn<T> {
    ghost Value = { TableId };

    ghost view = { λ t. t.table.shared.table_id };

    ghost invariant = { λ t. (t.table.shared.table_id.words ≡ 2) × (t.table.shared.table_id.slots ≡ 1) };
}

/// A seat at the lock, which has no bytes. Clauses see its lock and number, the start, all acts that it has seen, those that are
/// its own, and whether it holds the turn.
///
/// It may be dropped whatever the value is: the token has no bytes, and is let go as it is.
#[derive(Drop)]
pub struct TurnSeat<T: Kept> {
    token: ManuallyDrop<Token<T>>,
}

impl<T: Kept> Model for TurnSeat<T> {
    ghost Value = { SeatState T.Start T.Act };

    ghost view = { λ s. seat_state (manually_drop_value s.token).table_id (manually_drop_value s.token).me.0 };

    ghost invariant = { λ s. IsSeat (manually_drop_value s.token).me };
}

impl<T: Kept> TurnSeat<T> {
    fn of(token: Token<T>) -> TurnSeat<T>
        requires { IsSeat token.me }
        ensures { result ≡ seat_state token.table_id token.me.0 }
    {
        TurnSeat {
            token: ManuallyDrop::new(token),
        }
    }

    fn into_token(self) -> Token<T>
        ensures seat { IsSeat result.me }
        ensures same { seat_state result.table_id result.me.0 ≡ self }
    {
        let Self { token } = self;
        ManuallyDrop::into_inner(token)
    }
}

impl<T: Kept> Turn<T> {
    /// A lock round the value, and its seats, numbered from 0. `NoMemory` gives the value back.
    pub fn new(
        alloc: Global,
        value: T,
        seats: u32,
    ) -> Result<(Turn<T>, Vec<TurnSeat<T>>), (T, NoMemory)>
        requires some { 0 < seats }
        requires start { (b : T.Start) × T.stands b [] value }
        ensures made { IfOk result (λ r. (b : T.Start) × T.stands b [] value × (vec_len r.1 ≡ seats) × AreNew r.0 (Some b) seats r.1.items) }
        ensures refused { IfErr result (λ r. r.0 ≡ value) }
    {
        let about = About {
            value: Snapshot::of(&value),
            seats: seats as u64,
        };
        let Ok(room) = Vec::with_capacity(alloc, seats as usize) else {
            return Err((value, NoMemory));
        };
        let Ok(mut slots) = Vec::with_capacity(alloc, 1) else {
            return Err((value, NoMemory));
        };
        slots.push_reserved(Slot::Value(value));
        match Table::new(alloc, &[0, 0], slots, &about) {
            Ok((table, mut maker)) => {
                table.shared.load::<Learn<T>>(&mut maker, 0);
                let turn = Turn {
                    table,
                    door: Door::new(),
                };
                let made_seats = turn.make_seats(room, maker, seats);
                Ok((turn, made_seats))
            }
            Err(Refused { mut slots }) => {
                let last = slots.pop();
                slots.destroy_empty();
                let Some(Slot::Value(value)) = last else {
                    unreachable!()
                };
                Err((value, NoMemory))
            }
        }
    }

    // Splits the seats off.
    fn make_seats(
        &self,
        mut made_seats: Vec<TurnSeat<T>>,
        mut maker: Token<T>,
        seats: u32,
    ) -> Vec<TurnSeat<T>>
        requires own { maker.table_id ≡ self.now }
        requires some { 0 < seats }
        requires room { (made_seats.items ≡ []) × (seats ≤ vec_capacity made_seats) }
        requires fresh { maker.me ≡ (fresh maker.me.0.origin maker.me.0.start seats 0, []) }
        requires start { (b : T.Start) × (maker.me.0.start ≡ Some b) }
        ensures len { vec_len result ≡ seats }
        ensures new { AreNew self.now maker.me.0.start seats result.items }
    {
        for i in 0..seats - 1 {
            let token = self.table.shared.split_seat::<SplitFirst<T>>(&mut maker);
            made_seats.push_reserved(TurnSeat::of(token));
        }
        made_seats.push_reserved(TurnSeat::of(maker));
        made_seats
    }

    // Draws a ticket.
    fn draw(&self, token: &mut Token<T>) -> u64
        requires own { token.old.table_id ≡ self.now }
        requires idle { (token.old.me.0.stage ≡ Idle) × (length token.old.me.0.owns ≡ 1) }
        ensures same { (token.new.table_id ≡ token.old.table_id) × (token.new.id ≡ token.old.id) }
        ensures ticket { result ≡ token.new.me.0.ticket % 2 ^ 64 }
        ensures drawn { token.new.me ≡ (after_draw token.old.me.0 token.new.me.0.ticket, token.old.me.1) }
    {
        self.table.shared.fetch_add::<Draw<T>>(token, 0, 1)
    }

    // Reads the turn that is served, and says whether it is this one.
    fn is_next(&self, token: &mut Token<T>, ticket: u64) -> bool
        requires own { token.old.table_id ≡ self.now }
        requires waiting { (token.old.me.0.stage ≡ Waiting) × (ticket ≡ token.old.me.0.ticket % 2 ^ 64) }
        ensures same { (token.new.table_id ≡ token.old.table_id) × (token.new.id ≡ token.old.id) }
        ensures yes { result ≡ true → token.new.me ≡ (after_wait token.old.me.0, token.old.me.1) }
        ensures no { result ≡ false → token.new.me ≡ token.old.me }
    {
        self.table.shared.load::<ReadTurn<T>>(token, 1) == ticket
    }

    // Waits until the ticket is served.
    fn wait<R: Wait>(&self, rt: &R, token: &mut Token<T>, ticket: u64)
        requires own { token.old.table_id ≡ self.now }
        requires waiting { (token.old.me.0.stage ≡ Waiting) × (ticket ≡ token.old.me.0.ticket % 2 ^ 64) }
        ensures same { (token.new.table_id ≡ token.old.table_id) × (token.new.id ≡ token.old.id) }
        ensures called { token.new.me ≡ (after_wait token.old.me.0, token.old.me.1) }
    {
        for _ in rt.forever() {
            if self.is_next(token, ticket) {
                return;
            }
            thread::yield_now();
        }
        unreachable!()
    }

    fn take(&self, token: &mut Token<T>) -> T
        requires own { token.old.table_id ≡ self.now }
        requires called { (token.old.me.0.stage ≡ Called) × (token.old.me.1 ≡ []) }
        ensures same { (token.new.table_id ≡ token.old.table_id) × (token.new.id ≡ token.old.id) }
        ensures taken { token.new.me ≡ (after_take token.old.me.0 token.new.me.0.seen, (0, Empty) ∷ []) }
        ensures shows { Shows T.by T.stands token.old.me.0 result token.new.me.0.seen }
    {
        self.table.shared.load::<Take<T>>(token, 1);
        let Slot::Value(value) = self.table.shared.exchange(token, 0, Slot::Empty) else {
            unreachable!()
        };
        value
    }

    // Tells of an act. It is for the proof alone.
    fn tell_one(&self, token: &mut Token<T>, act: T::Act)
        requires own { token.old.table_id ≡ self.now }
        requires holding { (token.old.me.0.stage ≡ Holding) × (length token.old.me.0.owns ≡ 1) }
        ensures same { (token.new.table_id ≡ token.old.table_id) × (token.new.id ≡ token.old.id) }
        ensures said { token.new.me ≡ (after_tell token.old.me.0 (act ∷ []), token.old.me.1) }
    {
        let said = Slot::Told(act);
        self.table
            .shared
            .compare_exchange_with::<Tell<T>>(token, 1, 0, 0, &said);
        let Slot::Told(_act) = said else {
            unreachable!()
        };
    }

    // Tells of an act, or of none.
    fn tell(&self, token: &mut Token<T>, made: Option<T::Act>)
        requires own { token.old.table_id ≡ self.now }
        requires holding { (token.old.me.0.stage ≡ Holding) × (length token.old.me.0.owns ≡ 1) }
        ensures same { (token.new.table_id ≡ token.old.table_id) × (token.new.id ≡ token.old.id) }
        ensures said { token.new.me ≡ (after_tell token.old.me.0 (acts_in made), token.old.me.1) }
    {
        if let Some(act) = made {
            self.tell_one(token, act);
        }
    }

    // Puts the value back.
    fn give(&self, token: &mut Token<T>, value: T)
        requires own { token.old.table_id ≡ self.now }
        requires holding { (token.old.me.0.stage ≡ Holding) × (token.old.me.1 ≡ (0, Empty) ∷ []) }
        requires one { (o : List T.Act) × (token.old.me.0.owns ≡ o ∷ []) }
        requires start { (b : T.Start) × (token.old.me.0.start ≡ Some b) × T.stands b (token.old.me.0.seen ++ token.old.me.0.made) value }
        requires mine { AllOf T.by token.old.me.0.first token.old.me.0.made }
        ensures same { (token.new.table_id ≡ token.old.table_id) × (token.new.id ≡ token.old.id) }
        ensures given { token.new.me ≡ (after_give token.old.me.0, []) }
    {
        let old = self.table.shared.exchange(token, 0, Slot::Value(value));
        let Slot::Empty = old else { unreachable!() };
        self.table.shared.load::<Give<T>>(token, 1);
    }

    // Serves the next turn.
    fn serve(&self, token: &mut Token<T>)
        requires own { token.old.table_id ≡ self.now }
        requires given { token.old.me.0.stage ≡ Given }
        ensures same { (token.new.table_id ≡ token.old.table_id) × (token.new.id ≡ token.old.id) }
        ensures idle { token.new.me ≡ (after_serve token.old.me.0, token.old.me.1) }
    {
        self.table.shared.fetch_add::<Serve<T>>(token, 1, 1);
    }

    /// Waits for this seat's turn, and takes the value, which stands for a history that begins with all that this seat has seen.
    pub fn hold<R: Wait>(&self, rt: &R, seat: &mut TurnSeat<T>) -> T
        requires own { seat.old.turn ≡ self.now }
        requires idle { seat.old.holds ≡ false }
        ensures { Holds T.by T.stands seat.old seat.new result }
    {
        self.door.enter(rt);
        let token = &mut *seat.token;
        let ticket = self.draw(token);
        self.wait(rt, token, ticket);
        self.take(token)
    }

    /// Puts the value back, and lets the next seat have its turn. The value stands for what was held and then the act that this
    /// seat made, if it made one. The act is for the proof alone, and is dropped.
    pub fn free(&self, seat: &mut TurnSeat<T>, value: T, made: Option<T::Act>)
        requires own { seat.old.turn ≡ self.now }
        requires holding { seat.old.holds ≡ true }
        requires may { MayFree T.by T.stands seat.old value (acts_in made) }
        ensures { seat.new ≡ after_free seat.old (acts_in made) }
    {
        let token = &mut *seat.token;
        self.tell(token, made);
        self.give(token, value);
        self.serve(token);
        self.door.leave();
    }

    /// What the other seat has seen, this one then has seen too. Neither holds a turn.
    pub fn meet(&self, seat: &mut TurnSeat<T>, other: &mut TurnSeat<T>)
        requires own { (seat.old.turn ≡ self.now) × (other.old.turn ≡ self.now) }
        requires idle { (seat.old.holds ≡ false) × (other.old.holds ≡ false) }
        ensures met { Meets T.by T.stands seat.old other.old seat.new }
        ensures same { other.new ≡ other.old }
    {
        let note = self.table.shared.split_seat::<Note<T>>(&mut *other.token);
        let token = &mut *seat.token;
        self.table.shared.join_seat::<Note<T>>(token, note);
        self.table.shared.load::<Look<T>>(token, 1);
    }

    // A seat joins the seats behind it, and then has seen what they had.
    fn join(&self, mut seat: Token<T>, later: Token<T>) -> Token<T>
        requires own { (seat.table_id ≡ self.now) × (later.table_id ≡ self.now) }
        requires idle { (seat.me.0.stage ≡ Idle) × (later.me.0.stage ≡ Idle) × (later.me.1 ≡ []) }
        requires some { (0 < length seat.me.0.owns) × (0 < length later.me.0.owns) }
        requires next { later.me.0.first ≡ seat.me.0.first + length seat.me.0.owns }
        ensures same { result.table_id ≡ seat.table_id }
        ensures joined { (h : List T.Act) × (result.me ≡ (record (merged seat.me.0 later.me.0) { seen = h }, seat.me.1)) × IsPrefix seat.me.0.seen h × IsPrefix later.me.0.seen h }
    {
        self.table.shared.join_seat::<Merge<T>>(&mut seat, later);
        self.table.shared.load::<Look<T>>(&mut seat, 1);
        seat
    }

    /// Ends the lock, with all its seats in their order, of which none holds a turn. The value stands for a history which begins
    /// with what each of them has seen. Each act in it is an own act of one of them, and each own act stands once.
    pub fn close(self, mut seats: Vec<TurnSeat<T>>) -> T
        requires { AreAll self seats.items }
        ensures { Closes T.by T.stands seats.items result }
    {
        let Some(last) = seats.pop() else {
            unreachable!()
        };
        let mut token = last.into_token();
        while let Some(seat) = seats.pop() {
            let before = seat.into_token();
            token = self.join(before, token);
        }
        let Turn { table, door: _ } = self;
        let mut closed = table.close_with(token);
        let Slot::Value(value) = closed.take(0) else {
            unreachable!()
        };
        closed.free();
        value
    }
}
