//! The commands.
ghost use Rattle.std.specs.Prelude.{◌≡◌, ◌^◌, IfOk, IfSome, option_and_then, option_map};
ghost use Rattle.hay_script.specs.declared.Command.TheVariants.{Read, Step, Fuse};
ghost use Rattle.hay_script.specs.Script as grammar;

use crate::Command;
use crate::numbers::{read_cookie, read_count, read_large, read_pair, read_small};
use crate::photo::read_photo;
use crate::words::{is, split_word};
use hay_base::NoMemory;
use hay_url::parse_url;
use std::alloc::Global;

/// The command of a line's words, if they are one.
pub fn read_command(alloc: Global, line: &[u8]) -> Result<Option<Command>, NoMemory>
    ensures said { IfOk result (λ said. said ≡ grammar.command_of (grammar.words_of line.now)) }
    ensures within { IfOk result (λ said. IfSome said grammar.IsWithin) }
{
    let Some((verb, rest)) = split_word(line) else {
        return Ok(None);
    };
    let Some((first, rest)) = split_word(rest) else {
        return Ok(read_alone(verb));
    };
    let Some((second, rest)) = split_word(rest) else {
        return Ok(read_with_one(verb, first));
    };
    let Some((third, rest)) = split_word(rest) else {
        return Ok(read_with_two(verb, first, second));
    };
    match split_word(rest) {
        Some(_) => Ok(None),
        None => read_with_three(alloc, verb, first, second, third),
    }
}

fn read_alone(verb: &[u8]) -> Option<Command>
    ensures said { result ≡ grammar.command_alone verb.now }
    ensures within { IfSome result grammar.IsWithin }
{
    if is(verb, "restart") {
        Some(Command::Restart { pick: 0 })
    } else {
        None
    }
}

fn read_with_one(verb: &[u8], first: &[u8]) -> Option<Command>
    ensures said { result ≡ grammar.command_of_one verb.now first.now }
    ensures within { IfSome result grammar.IsWithin }
{
    if is(verb, "get") {
        Some(Command::Get {
            url: parse_url(first).ok()?,
        })
    } else if is(verb, "drain") {
        read_small(first).map(|machine| Command::Drain { machine })
    } else if is(verb, "undrain") {
        read_small(first).map(|machine| Command::Undrain { machine })
    } else if is(verb, "restart") {
        read_large(first).map(|pick| Command::Restart { pick })
    } else {
        None
    }
}

fn read_with_two(verb: &[u8], first: &[u8], second: &[u8]) -> Option<Command>
    ensures said { result ≡ grammar.command_of_two verb.now first.now second.now }
    ensures within { IfSome result grammar.IsWithin }
{
    if is(verb, "del") {
        read_pair(first, second).map(|pair| Command::Del { pair })
    } else if is(verb, "url") {
        read_pair(first, second).map(|pair| Command::Url { pair })
    } else if is(verb, "flush") {
        let volume = read_small(first)?;
        let machine = read_small(second)?;
        Some(Command::Flush { volume, machine })
    } else if is(verb, "compact") {
        let volume = read_small(first)?;
        let machine = read_small(second)?;
        Some(Command::Compact { volume, machine })
    } else if is(verb, "begin") {
        let volume = read_small(first)?;
        let machine = read_small(second)?;
        Some(Command::Begin { volume, machine })
    } else if is(verb, "finish") {
        let volume = read_small(first)?;
        let machine = read_small(second)?;
        Some(Command::Finish { volume, machine })
    } else if is(verb, "fuse") && is(first, "dir") {
        read_small(second).map(|calls| Command::FuseDir { calls })
    } else {
        None
    }
}

fn read_with_cookie(key: &[u8], alt: &[u8], cookie: &[u8]) -> Option<Command>
    ensures { result ≡ option_and_then (λ pair. option_map (Read pair) (grammar.cookie_of_text cookie.now)) (grammar.pair_of_text key.now alt.now) }
{
    let pair = read_pair(key, alt)?;
    let cookie = read_cookie(cookie)?;
    Some(Command::Read { pair, cookie })
}

fn read_step(volume: &[u8], machine: &[u8], cells: &[u8]) -> Option<Command>
    ensures { result ≡ grammar.with_three Step volume.now machine.now (grammar.from_one (2 ^ 32) cells.now) }
{
    let volume = read_small(volume)?;
    let machine = read_small(machine)?;
    let cells = read_count(cells, u32::MAX)?;
    Some(Command::Step {
        volume,
        machine,
        cells,
    })
}

fn read_fuse(volume: &[u8], machine: &[u8], calls: &[u8]) -> Option<Command>
    ensures { result ≡ grammar.with_three Fuse volume.now machine.now (grammar.small calls.now) }
{
    let volume = read_small(volume)?;
    let machine = read_small(machine)?;
    let calls = read_small(calls)?;
    Some(Command::Fuse {
        volume,
        machine,
        calls,
    })
}

fn read_with_three(
    alloc: Global,
    verb: &[u8],
    first: &[u8],
    second: &[u8],
    third: &[u8],
) -> Result<Option<Command>, NoMemory>
    ensures said { IfOk result (λ said. said ≡ grammar.command_of_three verb.now first.now second.now third.now) }
    ensures within { IfOk result (λ said. IfSome said grammar.IsWithin) }
{
    if is(verb, "put") {
        let Some(pair) = read_pair(first, second) else {
            return Ok(None);
        };
        let photo = read_photo(alloc, third)?;
        Ok(photo.map(|photo| Command::Put { pair, photo }))
    } else if is(verb, "read") {
        Ok(read_with_cookie(first, second, third))
    } else if is(verb, "step") {
        Ok(read_step(first, second, third))
    } else if is(verb, "fuse") {
        Ok(read_fuse(first, second, third))
    } else {
        Ok(None)
    }
}
