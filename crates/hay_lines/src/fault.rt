//! Why no more of a script was read.
ghost use Rattle.std.specs.Prelude.{◌≡◌};

use hay_base::NoMemory;
use std::alloc::AllocError;

/// Why no more of a script was read.
#[derive(Clone, Copy, Debug, PartialEq, Eq)]
pub enum LineFault {
    /// The source failed, and its count of faults rose.
    Input,
    /// A script may not be longer than what was taken, and more came.
    TooLong,
    /// Memory was wanting.
    NoMemory,
}

impl From<NoMemory> for LineFault {
    ghost use Rattle.hay_lines.specs.declared.fault.LineFault.TheVariants as fault;

    ghost from_gives = { λ _ e. e ≡ fault.NoMemory };

    fn from(_fault: NoMemory) -> Self {
        LineFault::NoMemory
    }
}

impl From<AllocError> for LineFault {
    ghost use Rattle.hay_lines.specs.declared.fault.LineFault.TheVariants as fault;

    ghost from_gives = { λ _ e. e ≡ fault.NoMemory };

    fn from(_fault: AllocError) -> Self {
        LineFault::NoMemory
    }
}
