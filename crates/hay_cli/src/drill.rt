//! The mode that runs a script of its own.
ghost use Rattle.std.specs.Prelude.{◌≡◌, map, drop, option_map, Some, None, IfOk, IsErrOf, string_bytes};
ghost use Rattle.clap.specs.Words.{app_of};
ghost use Rattle.hay_cli.specs.Commands as commands;
ghost use Rattle.hay_cli.specs.Reading as reading;
ghost use Rattle.hay_cli.specs.Parsed.{drill_app};

use crate::values::read_number;
use crate::{CliFault, Mode};
use clap::error::ErrorKind;
use clap::{Arg, Command};
use std::alloc::{AllocError, Global};

fn drill_command(alloc: Global, mode: &str) -> Result<Command<'_>, AllocError>
    ensures { IfOk result (λ c. app_of c ≡ drill_app mode.now) }
{
    Command::new(alloc, mode)
        .disable_help_flag(true)
        .arg(Arg::new(alloc, "count"))?
        .arg(Arg::new(alloc, "first"))
}

fn drill_mode(count: Option<&str>, first: Option<&str>) -> Option<Mode>
    ensures { result ≡ reading.drill_by (option_map (λ s. s.now) count.entry) (option_map (λ s. s.now) first.entry) }
{
    let count = read_number(count?, 1, 1_000)?;
    let first = read_number(first?, 0, u64::MAX)?;
    Some(Mode::Drill {
        count: count as u32,
        first,
    })
}

pub fn read_drill(alloc: Global, words: &[String]) -> Result<Mode, CliFault>
    ensures said { IfOk result (λ mode. reading.drill_of (drop 1 (map string_bytes words.now)) ≡ Some mode) }
    ensures usage { IsErrOf result CliFault.Usage → reading.drill_of (drop 1 (map string_bytes words.now)) ≡ None }
{
    if words.len() != 3 {
        return Err(CliFault::Usage);
    }
    let command = drill_command(alloc, "drill")?;
    match command.try_get_matches_from(words) {
        Ok(matches) => match drill_mode(matches.get_str("count"), matches.get_str("first")) {
            Some(mode) => Ok(mode),
            None => Err(CliFault::Usage),
        },
        Err(error) => match error.kind() {
            ErrorKind::OutOfMemory => Err(CliFault::NoMemory),
            _ => Err(CliFault::Usage),
        },
    }
}
