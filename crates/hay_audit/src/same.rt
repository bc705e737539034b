//! Whether two values are the same. What is said to be the same is equal; a judge that takes equal values for others keeps more than it needs.

ghost use Rattle.std.specs.Prelude.{◌≡◌, IsTrue};

use crate::boxes::Slack;
use crate::pairs::{Log, Rows};
use crate::state::{Directory, ReplicaState, VolumeState};
use hay_base::Listed;
use hay_core::{Entry, Logged};
use hay_legal::known::{HomeRow, Pending, PendingRow, Run};

/// A value that is compared with another one.
pub(crate) trait Same {
    /// Whether the other one is seen to be equal.
    fn is_same(&self, other: &Self) -> bool
        ensures same { IsTrue result → self.now ≡ other.now };
}

fn same_all<T: Same>(items: &[T], others: &[T]) -> bool
    ensures { IsTrue result → items.now ≡ others.now }
{
    if items.len() != others.len() {
        return false;
    }
    for i in 0..items.len() {
        if !items[i].is_same(&others[i]) {
            return false;
        }
    }
    true
}

impl<T: Same> Same for Listed<T> {
    fn is_same(&self, other: &Listed<T>) -> bool {
        same_all(self.as_slice(), other.as_slice())
    }
}

impl<T: Same> Same for Option<T> {
    fn is_same(&self, other: &Option<T>) -> bool {
        match (self, other) {
            (None, None) => true,
            (Some(value), Some(other)) => value.is_same(other),
            (None, Some(_)) | (Some(_), None) => false,
        }
    }
}

impl Same for bool {
    fn is_same(&self, other: &bool) -> bool {
        *self == *other
    }
}

impl Same for u32 {
    fn is_same(&self, other: &u32) -> bool {
        *self == *other
    }
}

impl Same for Slack {
    fn is_same(&self, other: &Slack) -> bool {
        self.end == other.end && self.cells == other.cells && self.bare == other.bare
    }
}

impl Same for Entry {
    fn is_same(&self, other: &Entry) -> bool {
        match (self, other) {
            (
                Entry::Put {
                    pair,
                    cookie,
                    bytes,
                },
                Entry::Put {
                    pair: other_pair,
                    cookie: other_cookie,
                    bytes: other_bytes,
                },
            ) => {
                pair == other_pair
                    && cookie == other_cookie
                    && bytes.as_slice() == other_bytes.as_slice()
            }
            (Entry::Del { pair }, Entry::Del { pair: other_pair }) => pair == other_pair,
            (Entry::Put { .. }, Entry::Del { .. }) | (Entry::Del { .. }, Entry::Put { .. }) => {
                false
            }
        }
    }
}

impl Same for Logged {
    fn is_same(&self, other: &Logged) -> bool {
        self.tag == other.tag && self.entry.is_same(&other.entry)
    }
}

impl Same for Log {
    fn is_same(&self, other: &Log) -> bool {
        same_all(self.as_slice(), other.as_slice())
    }
}

impl Same for Run {
    fn is_same(&self, other: &Run) -> bool {
        self.goal == other.goal && self.left == other.left
    }
}

impl Same for Pending {
    fn is_same(&self, other: &Pending) -> bool {
        self.tag == other.tag && self.failed == other.failed && self.entry.is_same(&other.entry)
    }
}

impl Same for ReplicaState {
    fn is_same(&self, other: &ReplicaState) -> bool {
        self.run.is_same(&other.run)
            && self.end == other.end
            && self.cells == other.cells
            && self.bare == other.bare
            && self.generation == other.generation
            && self.stuck == other.stuck
            && self.poised == other.poised
            && self.base.is_same(&other.base)
    }
}

impl Same for VolumeState {
    fn is_same(&self, other: &VolumeState) -> bool {
        self.frozen.is_same(&other.frozen)
            && self.replicas.is_same(&other.replicas)
            && self.pending.is_same(&other.pending)
            && self.log.is_same(&other.log)
    }
}

impl Same for HomeRow {
    fn is_same(&self, other: &HomeRow) -> bool {
        self.pair == other.pair && self.volume == other.volume
    }
}

impl Same for PendingRow {
    fn is_same(&self, other: &PendingRow) -> bool {
        self.tag == other.tag && self.row.is_same(&other.row)
    }
}

impl Same for Rows {
    fn is_same(&self, other: &Rows) -> bool {
        same_all(self.as_slice(), other.as_slice())
    }
}

impl Same for Directory {
    fn is_same(&self, other: &Directory) -> bool {
        self.frozen == other.frozen
            && self.pending.is_same(&other.pending)
            && self.rows.is_same(&other.rows)
    }
}
