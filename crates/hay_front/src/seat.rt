//! A look, on a seat alone.
ghost use Rattle.std.specs.Prelude.{◌≡◌, ◌⊎◌, IsTrue, length, filter, Some};
ghost use Rattle.hay_front.specs.Fronts.{Witness, IsBehind, RowOf, Holds};
ghost use Rattle.hay_front.specs.Shows.{IsNamed};

use crate::history::Known;
use crate::pair::put_back;
use crate::shown::{ReaderOf, Sees};
use crate::view::View;
use std::marker::Model;
use std::sync::Wait;

/// What one caller has seen of a front, with its place to look at it. Contracts see it as a `Witness`.
#[derive(Drop)]
pub struct Seat<T: View> {
    known: Known<T>,
    // A look has it while it goes on.
    reader: Option<ReaderOf<T>>,
}

impl<T: View> Model for Seat<T> {
    ghost use Rattle.std.specs.Prelude.{◌≡◌, Some};
    ghost use Rattle.hay_front.specs.Fronts.{Witness};
    ghost use Rattle.hay_front.specs.Shows.{IsSeated};

    ghost Value = { Witness T.Means T.Start T.Deed };

    ghost view = { λ s. s.known };

    ghost invariant = { λ s. IsSeated (λ r. r.place.me.0.client) (λ q. q.book) s.reader s.known.front };
}

// Looks until it is shown all that was known. It gives what was shown then, the front of that, and the row.
fn find<T: View, R: Wait>(
    rt: &R,
    known: &Known<T>,
    mut reader: ReaderOf<T>,
    key: &T::Key,
) -> (Known<T>, ReaderOf<T>, u64, T::Row)
    requires { IsNamed (λ q. q.book) reader.place.me.0.client known.now.front }
    ensures seen { IsBehind known.now result.0 }
    ensures named { IsNamed (λ q. q.book) result.1.place.me.0.client result.0.front }
    ensures fact { Holds T.fact result.0 }
    ensures front { result.2 ≡ length (filter T.is_counted result.0.deeds) }
    ensures row { RowOf T.after T.row_is result.0 key.now result.3 }
{
    for _ in rt.forever() {
        match reader.enter_as::<Sees<T>>() {
            Ok(reading) => {
                let shown = reading.get();
                let now = Known::of(&shown.seen, shown.count);
                if known.is_behind(&now) {
                    let row = shown.view.row(key);
                    let front = shown.front;
                    return (now, reading.leave(), front, row);
                }
                reader = reading.leave();
            }
            Err(back) => reader = back,
        }
    }
    unreachable!()
}

impl<T: View> Seat<T> {
    pub(crate) fn new(known: Known<T>, reader: ReaderOf<T>) -> Seat<T>
        requires { IsNamed (λ q. q.book) reader.place.me.0.client known.front }
        ensures { result ≡ known }
    {
        Seat {
            known,
            reader: Some(reader),
        }
    }

    /// The front and the row of a key, of what is shown. It has all that this seat had seen. It takes no memory and no lock. Once
    /// the front has ended, by its `close`, no look returns.
    pub fn look<R: Wait>(&mut self, rt: &R, key: &T::Key) -> (u64, T::Row)
        ensures seen { IsBehind self.old self.new }
        ensures fact { Holds T.fact self.new }
        ensures front { result.0 ≡ length (filter T.is_counted self.new.deeds) }
        ensures row { RowOf T.after T.row_is self.new key.now result.1 }
    {
        let Some(reader) = self.reader.take() else {
            unreachable!()
        };
        let (now, reader, front, row) = find(rt, &self.known, reader, key);
        self.known = now;
        put_back(&mut self.reader, reader);
        (front, row)
    }

    // Whether it has seen no more than the other.
    pub(crate) fn is_behind(&self, other: &Known<T>) -> bool
        requires { self.now.front ≡ other.now.front }
        ensures { IsTrue result → IsBehind self.now other.now }
    {
        self.known.is_behind(other)
    }

    // It then has seen that.
    pub(crate) fn see(&mut self, known: &Known<T>)
        requires { known.now.front ≡ self.old.front }
        ensures same { self.new ≡ known.now }
        ensures fact { Holds T.fact known.now }
    {
        self.known = known.again();
    }

    /// The seat then has seen all for which the receipt stands.
    pub(crate) fn learn_of(&mut self, known: &Known<T>)
        requires { self.old.front ≡ known.now.front }
        ensures learnt { IsBehind self.old self.new × IsBehind known.now self.new }
        ensures no_more { (self.new ≡ self.old) ⊎ (self.new ≡ known.now) }
    {
        if self.known.is_behind(known) {
            self.known = known.again();
        }
    }
}
