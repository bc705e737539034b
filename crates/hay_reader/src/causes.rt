//! Why replicas were passed over.
ghost use Rattle.std.specs.Prelude.{◌≡◌, ◌<◌, ◌≤◌, ◌++◌, ◌∷◌, [], length};

use arrayvec::ArrayVec;
use hay_needle::MAX_REPLICAS;
use hay_reply::Cause;
use std::marker::Model;

/// A replica that was passed over, and why.
#[derive(Clone, Copy)]
pub struct PassedReplica {
    pub replica: u32,
    pub cause: Cause,
}

impl Default for PassedReplica {
    fn default() -> PassedReplica {
        PassedReplica {
            replica: 0,
            cause: Cause::Arm { faults: 0 },
        }
    }
}

/// The replicas that were passed over, four at most, in the order in which they were tried. A clause sees a list.
#[derive(Drop)]
pub struct Causes {
    passed: ArrayVec<PassedReplica, 4>,
}

impl Model for Causes {
    ghost use Rattle.std.specs.Prelude.{List};
    ghost use Rattle.hay_reader.specs.declared.causes.PassedReplica.{PassedReplica};

    ghost Value = { List PassedReplica };

    ghost view = { λ c. c.passed.items };
}

impl Causes {
    pub(crate) fn new() -> Causes
        ensures { result ≡ [] }
    {
        Causes {
            passed: ArrayVec::new(),
        }
    }

    /// Adds a replica that was passed over.
    pub fn push(&mut self, passed: PassedReplica)
        requires { length self.old < MAX_REPLICAS }
        ensures { self.new ≡ self.old ++ passed ∷ [] }
    {
        self.passed.push(passed);
    }

    pub(crate) fn len(&self) -> usize
        ensures { result ≡ length self.now }
    {
        self.passed.len()
    }

    pub fn as_slice(&self) -> &[PassedReplica]
        ensures is { result.now ≡ self.now }
        ensures most { length result.now ≤ MAX_REPLICAS }
    {
        self.passed.as_slice()
    }
}
