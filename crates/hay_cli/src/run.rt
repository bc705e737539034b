//! The modes that take a store by its options.
ghost use Rattle.std.specs.Prelude.{◌≡◌, map, drop, Some, None, IfOk, IsErrOf, string_bytes};
ghost use Rattle.clap.specs.Words.{found_of, first_value};
ghost use Rattle.hay_cli.specs.Commands as commands;
ghost use Rattle.hay_cli.specs.Reading as reading;

use crate::CliFault;
use crate::options::parse_options;
use crate::values::{is_folder, number_value, secret_value, small_value};
use clap::ArgMatches;
use hay_needle::{
    MAX_CAPACITY, MAX_MACHINES, MAX_REPLICAS, MAX_VOLUMES, MIN_CAPACITY, Settings, USUAL_CAPACITY,
};
use std::alloc::Global;

static RUN_NAMES: [&str; 6] = [
    "machines", "volumes", "replicas", "capacity", "secret", "folder",
];

static AUDIT_NAMES: [&str; 5] = ["machines", "volumes", "replicas", "capacity", "secret"];

/// The settings, where the values are within their limits.
fn read_settings(matches: &ArgMatches<'_>) -> Option<Settings>
    ensures { result ≡ reading.settings_of (first_value (found_of matches.now)) }
{
    if !is_folder(matches.get_str("folder")) {
        return None;
    }
    let machines = small_value(matches.get_str("machines"), 1, 1, MAX_MACHINES)?;
    let volumes = small_value(matches.get_str("volumes"), 1, 1, MAX_VOLUMES)?;
    let replicas = small_value(matches.get_str("replicas"), 1, 1, MAX_REPLICAS)?;
    let capacity = number_value(
        matches.get_str("capacity"),
        USUAL_CAPACITY,
        MIN_CAPACITY,
        MAX_CAPACITY,
    )?;
    let secret = secret_value(matches.get_str("secret"))?;
    if replicas > machines {
        return None;
    }
    Some(Settings {
        machines,
        volumes,
        replicas,
        capacity,
        secret,
    })
}

/// The settings that options of these names behind the word of a mode give.
fn read_options<'a>(
    alloc: Global,
    mode: &'a str,
    names: &[&'a str],
    words: &'a [String],
) -> Result<Settings, CliFault>
    ensures said { IfOk result (λ settings. reading.store_of (map (λ s. s.now) names.now) (drop 1 (map string_bytes words.now)) ≡ Some settings) }
    ensures usage { IsErrOf result CliFault.Usage → reading.store_of (map (λ s. s.now) names.now) (drop 1 (map string_bytes words.now)) ≡ None }
{
    let matches = parse_options(alloc, mode, names, words)?;
    match read_settings(&matches) {
        Some(settings) => Ok(settings),
        None => Err(CliFault::Usage),
    }
}

/// The settings that the options behind the word of a mode give.
pub fn read_store(alloc: Global, mode: &str, words: &[String]) -> Result<Settings, CliFault>
    ensures said { IfOk result (λ settings. reading.store_of commands.run_names (drop 1 (map string_bytes words.now)) ≡ Some settings) }
    ensures usage { IsErrOf result CliFault.Usage → reading.store_of commands.run_names (drop 1 (map string_bytes words.now)) ≡ None }
{
    read_options(alloc, mode, RUN_NAMES.as_slice(), words)
}

/// The settings that the options behind `audit` give.
pub fn read_audit(alloc: Global, words: &[String]) -> Result<Settings, CliFault>
    ensures said { IfOk result (λ settings. reading.store_of commands.audit_names (drop 1 (map string_bytes words.now)) ≡ Some settings) }
    ensures usage { IsErrOf result CliFault.Usage → reading.store_of commands.audit_names (drop 1 (map string_bytes words.now)) ≡ None }
{
    read_options(alloc, "audit", AUDIT_NAMES.as_slice(), words)
}
