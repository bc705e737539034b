//! The words of the command line.
//!
//! It stands on the settings of `hay_needle` and on `clap` and `hex`. `specs/Commands.antt` says which words are a command and which mode they say;
//! `read_words` gives that mode, and a fault of usage exactly where the words are no command, but for want of memory.
#![tactic(auto)]

mod drill;
mod folder;
mod options;
mod run;
mod values;

ghost use Rattle.std.specs.Prelude.{◌≡◌, map, Some, None, IfOk, IsErrOf, string_bytes};
ghost use Rattle.hay_cli.specs.declared.Mode.{Mode};
ghost use Rattle.hay_cli.specs.Commands as commands;
ghost use Rattle.hay_cli.specs.Reading as reading;

use drill::read_drill;
pub use folder::folder_of;
use hay_needle::Settings;
use run::{read_audit, read_store};
use std::alloc::{AllocError, Global};

/// What the words ask for.
#[derive(Clone, Copy, Debug, PartialEq, Eq)]
pub enum Mode {
    /// Runs a script on a store with these settings.
    Run(Settings),
    /// Checks a store with these settings.
    Check(Settings),
    /// Loads the photos of a script into a store with these settings.
    Load(Settings),
    /// Judges a transcript by the rules of a store with these settings.
    Audit(Settings),
    /// Runs a script of its own over `count` photos, 1 to 1,000, from the key `first` upwards.
    Drill { count: u32, first: u64 },
}

/// Why there is no mode.
#[derive(Clone, Copy, Debug, PartialEq, Eq)]
pub enum CliFault {
    /// The words are no command.
    Usage,
    NoMemory,
}

impl From<AllocError> for CliFault {
    ghost use Rattle.hay_cli.specs.declared.CliFault.TheVariants as fault;

    ghost from_gives = { λ _ e. e ≡ fault.NoMemory };

    fn from(_error: AllocError) -> CliFault {
        CliFault::NoMemory
    }
}

/// What the words behind the program's name ask for.
///
/// The first word is `run`, `check`, `load`, `audit` or `drill`. Options follow `run`, `check`, `load` and `audit`, each at most once, as
/// `--name VALUE` or `--name=VALUE`:
///
/// | option | value | if left out |
/// |---|---|---|
/// | `machines` | 1 to 16 | 1 |
/// | `volumes` | 1 to 64 | 1 |
/// | `replicas` | 1 to 4, and no more than the machines | 1 |
/// | `capacity` | 4,096 to 1,073,741,824 bytes | 67,108,864 |
/// | `secret` | 64 hexadecimal digits of either case | all zero |
/// | `folder`, but not behind `audit` | a path of at least one byte | no folder |
///
/// Two numbers follow `drill`: the photos, 1 to 1,000, and the first key, of 64 bits. A number is 1 to 20 decimal digits.
pub fn read_words(alloc: Global, words: &[String]) -> Result<Mode, CliFault>
    ensures said { IfOk result (commands.Says (map string_bytes words.now)) }
    ensures usage { IsErrOf result CliFault.Usage → (mode : Mode) → commands.Says (map string_bytes words.now) mode → ⊥ }

    // The same by the computed mode.
    ensures mode { IfOk result (λ mode. reading.mode_of (map string_bytes words.now) ≡ Some mode) }
    ensures no_mode { IsErrOf result CliFault.Usage → reading.mode_of (map string_bytes words.now) ≡ None }
{
    mode_of_words(alloc, words)
}

fn mode_of_words(alloc: Global, words: &[String]) -> Result<Mode, CliFault>
    ensures mode { IfOk result (λ mode. reading.mode_of (map string_bytes words.now) ≡ Some mode) }
    ensures no_mode { IsErrOf result CliFault.Usage → reading.mode_of (map string_bytes words.now) ≡ None }
{
    let [mode, ..] = words else {
        return Err(CliFault::Usage);
    };
    match mode.as_str() {
        "run" => Ok(Mode::Run(read_store(alloc, "run", words)?)),
        "check" => Ok(Mode::Check(read_store(alloc, "check", words)?)),
        "load" => Ok(Mode::Load(read_store(alloc, "load", words)?)),
        "audit" => Ok(Mode::Audit(read_audit(alloc, words)?)),
        "drill" => read_drill(alloc, words),
        _ => Err(CliFault::Usage),
    }
}
