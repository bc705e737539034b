//! Why a load ends before its script does.
ghost use Rattle.std.specs.Prelude.{◌≡◌};

use hay_base::NoMemory;
use hay_lines::LineFault;

/// Why a load ended before its script did.
#[derive(Clone, Copy, Debug, PartialEq, Eq)]
pub enum Stop {
    /// The sink failed.
    Output,
    /// The source failed.
    Input,
    /// Memory was wanting.
    NoMemory,
    /// The store was not opened, or a disk of it failed.
    Store,
    /// The script is longer than one may be.
    TooLong,
}

impl Stop {
    ghost use Rattle.hay_loading.specs.Stops.{status_of};

    /// The status of a load that stops so.
    pub fn status(self) -> u8
        ensures { result ≡ status_of self }
    {
        match self {
            Stop::Output => 3,
            Stop::Input => 4,
            Stop::NoMemory => 5,
            Stop::Store => 6,
            Stop::TooLong => 7,
        }
    }
}

impl From<LineFault> for Stop {
    ghost use Rattle.hay_loading.specs.Stops.{stop_of};

    ghost from_gives = { λ fault stop. stop ≡ stop_of fault };

    fn from(fault: LineFault) -> Self {
        match fault {
            LineFault::Input => Stop::Input,
            LineFault::TooLong => Stop::TooLong,
            LineFault::NoMemory => Stop::NoMemory,
        }
    }
}

impl From<NoMemory> for Stop {
    ghost use Rattle.hay_loading.specs.declared.stops.Stop.TheVariants as stop;

    ghost from_gives = { λ _ e. e ≡ stop.NoMemory };

    fn from(_fault: NoMemory) -> Self {
        Stop::NoMemory
    }
}
