//! Options with values, as `clap` takes them from the words.
ghost use Rattle.std.specs.Prelude.{◌≡◌, map, drop, None, IfOk, IsErrOf, string_bytes};
ghost use Rattle.std.specs.List.{list_any};
ghost use Rattle.clap.specs.Words.{app_of};
ghost use Rattle.hay_cli.specs.Reading.{options_of};
ghost use Rattle.hay_cli.specs.Parsed as parsed;

use crate::CliFault;
use clap::error::ErrorKind;
use clap::{Arg, ArgMatches, Command};
use std::alloc::{AllocError, Global};

/// A command that takes each of the names as an option with one value.
fn options_command<'a>(
    alloc: Global,
    mode: &'a str,
    names: &[&'a str],
) -> Result<Command<'a>, AllocError>
    ensures { IfOk result (λ c. app_of c ≡ parsed.options_app mode.now (map (λ s. s.now) names.now)) }
{
    let mut command = Command::new(alloc, mode).disable_help_flag(true);
    for name in names {
        command = command.arg(Arg::new(alloc, name).long(name))?;
    }
    Ok(command)
}

fn is_dashes(word: &str) -> bool
    ensures { result ≡ parsed.is_dashes word.now }
{
    word == "--"
}

fn has_dashes(words: &[String]) -> bool
    ensures { result ≡ list_any (λ word. parsed.is_dashes (string_bytes word)) words.now }
{
    words.iter().any(|word| is_dashes(word.as_str()))
}

/// Whether a word behind the first is `--`.
fn are_ended(words: &[String]) -> bool
    ensures { result ≡ parsed.has_dashes (drop 1 (map string_bytes words.now)) }
{
    match words {
        [_, given @ ..] => has_dashes(given),
        [] => false,
    }
}

/// The options of the words behind the first.
pub fn parse_options<'a>(
    alloc: Global,
    mode: &'a str,
    names: &[&'a str],
    words: &'a [String],
) -> Result<ArgMatches<'a>, CliFault>
    ensures ok { IfOk result (λ m. parsed.GivesOptions (map (λ s. s.now) names.now) (map string_bytes words.now) m) }
    ensures usage { IsErrOf result CliFault.Usage → options_of (map (λ s. s.now) names.now) (drop 1 (map string_bytes words.now)) ≡ None }
{
    if are_ended(words) {
        return Err(CliFault::Usage);
    }
    let command = options_command(alloc, mode, names)?;
    match command.try_get_matches_from(words) {
        Ok(matches) => Ok(matches),
        Err(error) => match error.kind() {
            ErrorKind::OutOfMemory => Err(CliFault::NoMemory),
            _ => Err(CliFault::Usage),
        },
    }
}
