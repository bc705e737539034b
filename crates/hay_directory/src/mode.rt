//! Whether a directory serves.
ghost use Rattle.std.specs.Prelude.{◌≡◌};

use hay_core::CoreTag;
use hay_dirfile::DirRow;

/// A row that failed. The journal may have it or not.
#[derive(Clone, Copy, Debug, PartialEq, Eq)]
pub struct Unsure {
    pub tag: CoreTag,
    pub row: DirRow,
}

/// A row that the disk has, and that the homes do not have before it is shown.
#[derive(Debug, Drop, PartialEq, Eq)]
pub struct WrittenRow {
    pub unsure: Unsure,
}

/// Whether a directory serves.
#[derive(Clone, Copy, Debug, PartialEq, Eq)]
pub enum Mode {
    /// It is not open. Its next opening tells what became of this row.
    Closed(Option<Unsure>),
    Open,
    /// It takes no row since this one.
    Frozen(Unsure),
}

impl Mode {
    ghost use Rattle.hay_directory.specs.State.{unsure_of};

    /// The row that the journal may have or not.
    pub fn unsure(self) -> Option<Unsure>
        ensures { result ≡ unsure_of self }
    {
        match self {
            Mode::Closed(unsure) => unsure,
            Mode::Open => None,
            Mode::Frozen(unsure) => Some(unsure),
        }
    }
}
