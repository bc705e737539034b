//! Lists that only clauses see.
ghost use Rattle.std.specs.Prelude.{◌≡◌, ◌++◌, ◌∷◌, []};

use std::marker::Model;
use std::mem::{self, ManuallyDrop};
use std::snapshot::Snapshot;

/// Items in order, for clauses alone. It has no bytes, takes no memory, and is let go as it is, whatever the size of an item.
#[derive(Drop)]
pub struct Past<T> {
    chain: ManuallyDrop<Snapshot<Chain<T>>>,
}

impl<T> Model for Past<T> {
    ghost use Rattle.std.specs.Prelude.{List};
    ghost use Rattle.std.specs.Mem.{manually_drop_value};

    ghost Value = { List T };

    ghost view = { λ p. (manually_drop_value p.chain).value };
}

#[cycle(chain)]
#[derive(Drop)]
struct Chain<T> {
    link: Link<T>,
}

#[cycle(chain)]
#[derive(Drop)]
enum Link<T> {
    Start,
    Behind {
        before: Snapshot<Chain<T>>,
        item: Snapshot<T>,
    },
}

impl<T> Model for Chain<T> {
    ghost use Rattle.std.specs.Prelude.{List, length};

    ghost Value = { List T };

    ghost use Rattle.hay_views.specs.Chains.{items};

    ghost view = { λ c. items c.link };

    ghost size = { length };

    ghost use Rattle.std.proofs.Common.{arith, length-append};

    ghost size_decreases = { λ c h. Prim.grind (arith, length-append) };
}

impl<T> Past<T> {
    /// No items.
    pub fn new() -> Past<T>
        ensures { result ≡ [] }
    {
        let start = Chain { link: Link::Start };
        Past {
            chain: ManuallyDrop::new(Snapshot::of(&start)),
        }
    }

    /// Adds an item at the end.
    pub fn add(&mut self, item: &T)
        ensures { self.new ≡ self.old ++ item.now ∷ [] }
    {
        let before = mem::replace(self, Past::new());
        let chain = Chain {
            link: Link::Behind {
                before: ManuallyDrop::into_inner(before.chain),
                item: Snapshot::of(item),
            },
        };
        self.chain = ManuallyDrop::new(Snapshot::of(&chain));
    }
}

/// A value as it was, for clauses alone. It has no bytes, and is let go as it is, whatever the size of the value.
#[derive(Drop)]
pub struct Moment<T> {
    of: ManuallyDrop<Snapshot<T>>,
}

impl<T> Model for Moment<T> {
    ghost use Rattle.std.specs.Mem.{manually_drop_value};

    ghost Value = { T };

    ghost view = { λ m. (manually_drop_value m.of).value };
}

impl<T> Moment<T> {
    pub fn of(value: &T) -> Moment<T>
        ensures { result ≡ value.now }
    {
        Moment {
            of: ManuallyDrop::new(Snapshot::of(value)),
        }
    }
}
