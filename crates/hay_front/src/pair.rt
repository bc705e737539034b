//! The writer of two copies. It has a model, so that another struct may have it as a field.
ghost use Rattle.std.specs.Prelude.{◌≡◌, ℕ, ◌<◌, ◌^◌, ◌++◌, ◌∷◌, [], drop, fold, None, Some, IfOk, MatchResult};
ghost use Rattle.left_right.specs.Register.{Admits, TurnsAt, Forks, Merges};
ghost use Rattle.hay_front.specs.Pairs.{PairState};

use atomic_table::{Join, Split};
use crossbeam_utils::rule::{Outcome, Protocol};
use hay_base::NoMemory;
use left_right::Absorb;
use left_right::reader::Reader;
use left_right::writer::Writer;
use std::alloc::Global;
use std::marker::Model;
use std::mem;
use std::sync::Wait;

/// Clauses see the copy that readers take, the operations that they do not see yet, and what the writer knows. It is not `Drop`:
/// end it by `end`.
pub struct Pair<S: Absorb<O> + Drop, O: Drop, Q, P: Protocol<S, Option<Q>>> {
    writer: Writer<S, O, Option<Q>, P>,
}

impl<S: Absorb<O> + Drop, O: Drop, Q, P: Protocol<S, Option<Q>>> Model for Pair<S, O, Q, P> {
    ghost Value = { PairState S O Q };

    ghost view = { λ p. record { shown = p.writer.desk.shown.value; pending = drop p.writer.behind p.writer.log.items; known = p.writer.desk.place.me.0.client } };
}

/// The writer tells a reader all that it knows itself, which is all that the reader then knows.
pub struct Tells;

impl<V> Split<V> for Tells {
    ghost left = { λ v. v };

    ghost right = { λ v. v };
}

impl<Q> Join<Option<Q>> for Tells {
    ghost use Rattle.std.specs.Prelude.{None};

    ghost both = { λ v w. w };

    ghost spent = { None };
}

/// Puts back what was taken, where the call that has it gives it back.
pub fn put_back<X>(place: &mut Option<X>, value: X)
    requires { place.old ≡ None }
    ensures { place.new ≡ Some value }
{
    let old = mem::replace(place, Some(value));
    let None = old else { unreachable!() };
}

impl<S: Absorb<O> + Drop, O: Drop, Q, P: Protocol<S, Option<Q>>> Pair<S, O, Q, P> {
    /// The two copies, for so many readers.
    pub fn new(
        alloc: Global,
        first: S,
        second: S,
        readers: usize,
    ) -> Result<Pair<S, O, Q, P>, NoMemory>
        requires readers { (0 < readers) × (readers < 2 ^ 32) }
        requires alike { S.state first ≡ S.state second }
        requires rule { P.holds first (P.first ∷ []) }
        ensures { IfOk result (λ p. (p.shown ≡ first) × (p.pending ≡ []) × (p.known ≡ P.first)) }
    {
        match Writer::new(alloc, first, second, readers) {
            Ok(writer) => Ok(Pair { writer }),
            Err(_) => Err(NoMemory),
        }
    }

    /// A reader that knows what the writer knows.
    pub fn reader(&mut self) -> Result<Reader<S, Option<Q>, P>, NoMemory>
        requires admits { Admits P.holds P.first }
        requires forks { (id : ℕ) → Forks P.holds id self.old.known self.old.known self.old.known }
        requires merges { (id other : ℕ) → Merges P.holds id P.first other self.old.known self.old.known None }
        ensures same { self.new ≡ self.old }
        ensures told { IfOk result (λ r. r.place.me.0.client ≡ self.old.known) }
    {
        let Ok(mut reader) = self.writer.factory().reader() else {
            return Err(NoMemory);
        };
        reader.learn::<Tells>(self.writer.tell::<Tells>());
        Ok(reader)
    }

    pub fn append(&mut self, op: O) -> Result<(), O>
        ensures { MatchResult result (λ _. self.new ≡ record self.old { pending = self.old.pending ++ op ∷ [] }) (λ x. (x ≡ op) × (self.new ≡ self.old)) }
    {
        self.writer.append(op)
    }

    /// Shows readers a copy that has each operation.
    pub fn publish_as<M: Outcome<S, Option<Q>>, R: Wait>(
        self,
        rt: &R,
    ) -> Result<Pair<S, O, Q, P>, Pair<S, O, Q, P>>
        requires { (id : ℕ) (next : S) → S.state next ≡ fold S.applied (S.state self.shown) self.pending → TurnsAt P.holds id self.known self.shown next M.then }
        ensures { MatchResult result (λ p. (S.state p.shown ≡ fold S.applied (S.state self.shown) self.pending) × (p.pending ≡ []) × M.then self.known self.shown p.shown p.known)
            (λ p. (p.shown ≡ self.shown) × (p.pending ≡ self.pending) × (p.known ≡ self.known)) }
    {
        let Self { writer } = self;
        let (writer, result) = writer.publish_as::<M, R>(rt);
        match result {
            Ok(()) => Ok(Pair { writer }),
            Err(_) => Err(Pair { writer }),
        }
    }

    /// Waits for the readers, which then can read no more.
    pub fn end<R: Wait>(self, rt: &R) {
        let Self { writer } = self;
        let _shown = writer.take(rt);
    }
}
