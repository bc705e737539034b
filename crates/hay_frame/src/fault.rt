//! Why there is no frame.
ghost use Rattle.std.specs.Prelude.{◌≡◌};

use std::alloc::{AllocError, AllocFailed};

/// Why there is no frame.
#[derive(Clone, Copy, Debug, PartialEq, Eq)]
pub enum FrameFault {
    /// The source failed, and its count of faults rose.
    Input,
    /// Memory was wanting.
    NoMemory,
    /// The transcript is longer than one may be.
    TooLong,
    /// The input is no frame.
    Bad,
}

impl From<AllocError> for FrameFault {
    ghost use Rattle.hay_frame.specs.declared.fault.FrameFault.TheVariants as fault;

    ghost from_gives = { λ _ e. e ≡ fault.NoMemory };

    fn from(_fault: AllocError) -> Self {
        FrameFault::NoMemory
    }
}

impl<T: Drop> From<AllocFailed<T>> for FrameFault {
    ghost use Rattle.hay_frame.specs.declared.fault.FrameFault.TheVariants as fault;

    ghost from_gives = { λ _ e. e ≡ fault.NoMemory };

    fn from(_fault: AllocFailed<T>) -> Self {
        FrameFault::NoMemory
    }
}
