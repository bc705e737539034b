//! The front: the writer's side, with the log.
ghost use Rattle.std.specs.Prelude.{◌≡◌, ◌+◌, ◌<◌, ◌≤◌, ◌^◌, ◌⊎◌, length, map, IfOk, IfErr, Some, true, false, [], replicate, filter, vec_len, vec_capacity};
ghost use Rattle.hay_front.specs.Fronts.{MayPublish, Holds, with_deed, IsBehind, RowOf, logged};
ghost use Rattle.hay_front.specs.Shows.{IsNamed};

use crate::history::{History, Known};
use crate::pair::put_back;
use crate::seat::Seat;
use crate::shown::{Change, PairOf, begin, reader_of, show};
use crate::view::View;
use hay_base::NoMemory;
use std::alloc::Global;
use std::marker::Model;
use std::sync::Wait;

/// Which command made an operation: the number of the seats that it was made with, its lane, and its line in that lane's script.
#[derive(Clone, Copy, Debug, PartialEq, Eq)]
pub struct Tag {
    pub seat: u32,
    pub lane: u32,
    pub line: u64,
}

/// What had been published when an operation was. Clauses see that.
#[derive(Drop)]
pub struct Receipt<T: View> {
    front: u64,
    shown: Known<T>,
}

impl<T: View> Model for Receipt<T> {
    ghost use Rattle.std.specs.Prelude.{◌≡◌, length, filter};
    ghost use Rattle.hay_front.specs.Fronts.{Witness};

    ghost Value = { Witness T.Means T.Start T.Deed };

    ghost view = { λ r. r.shown };

    ghost invariant = { λ r. r.front ≡ length (filter T.is_counted r.shown.deeds) };
}

/// A view, with the log of the operations that count. Clauses see what was published, what stands in the log, and whether it is
/// closed to publishing. It is not `Drop`, since it waits for looks that are under way: end it by `close`.
pub struct Front<T: View> {
    // A publish has it while it goes on.
    pair: Option<PairOf<T>>,
    // Has the operation whose publish closed the front, too.
    history: History<T>,
    shown: Known<T>,
    log: Vec<Tag>,
    closed: bool,
}

impl<T: View> Model for Front<T> {
    ghost use Rattle.std.specs.Prelude.{◌≡◌, length, filter};
    ghost use Rattle.hay_front.specs.Entries.{LogEntry, entries};
    ghost use Rattle.hay_front.specs.Fronts.{FrontState};
    ghost use Rattle.hay_front.specs.Insides.{IsFront};

    ghost Value = { FrontState T.Means T.Start T.Deed (LogEntry T.Deed) };

    ghost view = { λ f. record { shown = f.shown; log = entries f.log.items (filter T.is_counted f.shown.deeds); closed = f.closed } };

    ghost invariant = { λ f. IsFront T.is_counted (λ s. s.seen.book) (λ s. s.seen.log) f.pair f.history f.shown (length f.log.items) f.closed };
}

// A seat for each reader, all of which know what was published.
fn make_seats<T: View>(
    mut pair: PairOf<T>,
    all: &Known<T>,
    mut made_seats: Vec<Seat<T>>,
    seats: u32,
) -> Result<(PairOf<T>, Vec<Seat<T>>), PairOf<T>>
    requires room { (made_seats.items ≡ []) × (seats ≤ vec_capacity made_seats) }
    requires named { IsNamed (λ q. q.book) pair.known all.now.front }
    ensures { IfOk result (λ r. (r.0 ≡ pair) × (r.1.items ≡ replicate seats all.now)) }
{
    for i in 0..seats {
        let Ok(reader) = reader_of(&mut pair) else {
            return Err(pair);
        };
        made_seats.push_reserved(Seat::new(all.again(), reader));
    }
    Ok((pair, made_seats))
}

// The front behind an operation.
fn front_behind(log: &Vec<Tag>, is_counted: bool, tag: Tag) -> u64
    requires { vec_len log.now < vec_capacity log.now }
    ensures { result ≡ length (logged is_counted log.now.items tag) }
{
    if is_counted {
        log.len() as u64 + 1
    } else {
        log.len() as u64
    }
}

fn enter(log: &mut Vec<Tag>, is_counted: bool, tag: Tag)
    requires { vec_len log.old < vec_capacity log.old }
    ensures { log.new.items ≡ logged is_counted log.old.items tag }
{
    if is_counted {
        log.push_reserved(tag);
    }
}

impl<T: View> Front<T> {
    /// A front of a view, and seats that know as much as it. The two views mean the same. `NoMemory` drops them.
    pub fn new<R: Wait>(
        rt: &R,
        alloc: Global,
        first: T,
        second: T,
        seats: u32,
    ) -> Result<(Front<T>, Vec<Seat<T>>), NoMemory>
        requires same { T.means second ≡ T.means first }
        requires some { 0 < seats }
        requires fact { (b : T.Start) × T.fact b (T.means first) [] }
        ensures { IfOk result (λ r. (b : T.Start) × T.fact b (T.means first) [] × (r.0.shown.base ≡ Some (T.means first, b)) × (r.0.shown.deeds ≡ []) × (r.0.closed ≡ false)
            × (r.0.log ≡ []) × (r.1.items ≡ replicate seats r.0.shown)) }
    {
        let history = History::begin(&first)?;
        let room = Vec::with_capacity(alloc, seats as usize)?;
        let shown = history.known();
        let pair = begin(rt, alloc, first, second, &shown, seats)?;
        match make_seats(pair, &shown, room, seats) {
            Ok((pair, made_seats)) => {
                let front = Front {
                    pair: Some(pair),
                    history,
                    shown,
                    log: Vec::new(alloc),
                    closed: false,
                };
                Ok((front, made_seats))
            }
            Err(pair) => {
                pair.end(rt);
                Err(NoMemory)
            }
        }
    }

    /// The seat then has seen all that was published.
    pub fn show_all<R: Wait>(&self, rt: &R, seat: &mut Seat<T>)
        requires { seat.old.front ≡ self.now.shown.front }
        ensures seen { IsBehind seat.old self.now.shown × (seat.new ≡ self.now.shown) }
        ensures fact { Holds T.fact self.now.shown }
    {
        if !seat.is_behind(&self.shown) {
            // No seat has seen more than was published.
            for _ in rt.forever() {}
            unreachable!();
        }
        seat.see(&self.shown);
    }

    /// The row of a key after all that was published, which the seat then has seen.
    pub fn row_now<R: Wait>(&self, rt: &R, seat: &mut Seat<T>, key: &T::Key) -> T::Row
        requires { seat.old.front ≡ self.now.shown.front }
        ensures seen { IsBehind seat.old self.now.shown × (seat.new ≡ self.now.shown) }
        ensures fact { Holds T.fact self.now.shown }
        ensures row { RowOf T.after T.row_is self.now.shown key.now result }
    {
        self.show_all(rt, seat);
        let (_, row) = seat.look(rt, key);
        self.show_all(rt, seat);
        row
    }

    /// The number of operations that count.
    #[tactic(auto, using(crate::proofs::Entries::entries_length))]
    pub fn front(&self) -> u64
        ensures log { result ≡ length self.now.log }
        ensures counted { result ≡ length (filter T.is_counted self.now.shown.deeds) }
    {
        self.log.len() as u64
    }

    pub fn is_closed(&self) -> bool
        ensures { result ≡ self.now.closed }
    {
        self.closed
    }

    /// The tags of the operations that count, in order.
    #[tactic(auto, using(crate::proofs::Entries::entries_tags, crate::proofs::Entries::entries_deeds))]
    pub fn log(&self) -> &[Tag]
        ensures tags { result.now ≡ map (λ e. e.tag) self.now.log }
        ensures counted { map (λ e. e.deed) self.now.log ≡ filter T.is_counted self.now.shown.deeds }
    {
        self.log.as_slice()
    }

    /// Publishes an operation, and enters its tag into the log if it counts. It may wait for looks that are under way. The other copy
    /// takes the operation at the next publish, and either may want memory: `NoMemory` publishes nothing, and closes the front.
    pub fn publish<R: Wait>(
        &mut self,
        rt: &R,
        seat: &mut Seat<T>,
        tag: Tag,
        op: T::Op,
    ) -> Result<Receipt<T>, NoMemory>
        requires seat { seat.old.front ≡ self.old.shown.front }
        requires open { self.old.closed ≡ false }
        requires fact { MayPublish T.fact self.old.shown (T.deed op) }
        ensures seen { IsBehind seat.old self.old.shown × (seat.new ≡ self.new.shown) }
        ensures done { IfOk result (λ r. (self.new ≡ record {
          shown = with_deed self.old.shown (T.deed op);
          log = logged (T.is_counted (T.deed op)) self.old.log (record { tag = tag; deed = T.deed op });
          closed = false;
        }) × (r ≡ self.new.shown)) }
        ensures refused { IfErr result (λ _. self.new ≡ record { shown = self.old.shown; log = self.old.log; closed = true }) }
    {
        self.show_all(rt, seat);
        // Where it is refused it stays closed.
        self.closed = true;
        let is_counted = T::counts(&op);
        if !self.history.has_room() {
            return Err(NoMemory);
        }
        self.log.reserve(1)?;
        let front = front_behind(&self.log, is_counted, tag);
        self.history.add(rt, &op);
        let all = self.history.known();
        let change = Change {
            op,
            seen: all.seen(),
            count: all.count(),
            front,
        };
        let Some(pair) = self.pair.take() else {
            unreachable!()
        };
        match show(rt, pair, change) {
            Ok(pair) => put_back(&mut self.pair, pair),
            Err(pair) => {
                put_back(&mut self.pair, pair);
                return Err(NoMemory);
            }
        }
        enter(&mut self.log, is_counted, tag);
        self.shown = all.again();
        self.closed = false;
        seat.see(&all);
        Ok(Receipt { front, shown: all })
    }

    /// Ends the front with all of its seats, and gives its log. It may wait for looks that are under way.
    #[tactic(auto, using(crate::proofs::Entries::entries_tags, crate::proofs::Entries::entries_deeds))]
    pub fn close<R: Wait>(self, rt: &R, seats: Vec<Seat<T>>) -> Vec<Tag>
        ensures tags { result.items ≡ map (λ e. e.tag) self.log }
        ensures counted { map (λ e. e.deed) self.log ≡ filter T.is_counted self.shown.deeds }
    {
        drop(seats);
        let Front {
            pair,
            history: _,
            shown: _,
            log,
            closed: _,
        } = self;
        let Some(pair) = pair else { unreachable!() };
        pair.end(rt);
        log
    }
}

impl<T: View> Receipt<T> {
    /// The front at its operation.
    pub fn front(&self) -> u64
        ensures { result ≡ length (filter T.is_counted self.now.deeds) }
    {
        self.front
    }
}

impl<T: View> Seat<T> {
    /// The seat then has seen all for which the receipt stands.
    pub fn learn(&mut self, receipt: &Receipt<T>)
        requires { self.old.front ≡ receipt.now.front }
        ensures learnt { IsBehind self.old self.new × IsBehind receipt.now self.new }
        ensures no_more { (self.new ≡ self.old) ⊎ (self.new ≡ receipt.now) }
    {
        self.learn_of(&receipt.shown);
    }
}
