//! Why a run ends before its script does.
ghost use Rattle.std.specs.Prelude.{◌≡◌};

use hay_base::NoMemory;
use hay_lines::LineFault;
use std::alloc::AllocFailed;

/// Why a run ended before its script did.
#[derive(Clone, Copy, Debug, PartialEq, Eq)]
pub enum Stop {
    /// The sink failed.
    Output,
    /// The source failed.
    Input,
    /// Memory was wanting.
    NoMemory,
    /// The store was not opened.
    Store,
    /// The script is longer than one may be.
    TooLong,
}

impl Stop {
    ghost use Rattle.hay_legal.specs.Statuses.{status_of};
    ghost use Rattle.hay_run.specs.Stops.{ending_of};

    /// The status of a run that stops so.
    pub fn status(self) -> u8
        ensures { result ≡ status_of (ending_of self) }
    {
        match self {
            Stop::Output => 3,
            Stop::Input => 4,
            Stop::NoMemory => 5,
            Stop::Store => 6,
            Stop::TooLong => 7,
        }
    }
}

impl From<LineFault> for Stop {
    ghost use Rattle.hay_run.specs.Stops.{stop_of};

    ghost from_gives = { λ fault stop. stop ≡ stop_of fault };

    fn from(fault: LineFault) -> Self {
        match fault {
            LineFault::Input => Stop::Input,
            LineFault::TooLong => Stop::TooLong,
            LineFault::NoMemory => Stop::NoMemory,
        }
    }
}

impl From<NoMemory> for Stop {
    ghost use Rattle.hay_run.specs.declared.stops.Stop.TheVariants as stop;

    ghost from_gives = { λ _ e. e ≡ stop.NoMemory };

    fn from(_fault: NoMemory) -> Self {
        Stop::NoMemory
    }
}

impl<T: Drop> From<AllocFailed<T>> for Stop {
    ghost use Rattle.hay_run.specs.declared.stops.Stop.TheVariants as stop;

    ghost from_gives = { λ _ e. e ≡ stop.NoMemory };

    fn from(_fault: AllocFailed<T>) -> Self {
        Stop::NoMemory
    }
}
