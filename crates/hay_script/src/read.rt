//! Reading a line.
ghost use Rattle.std.specs.Prelude.{◌≡◌, IfOk, ◌∷◌, codes};
ghost use Rattle.hay_script.specs.Script as grammar;

use crate::commands::read_command;
use crate::numbers::{read_below, read_count};
use crate::words::{MAX_LANES, is, is_fair, split_word};
use crate::{Command, Line};
use hay_base::NoMemory;
use std::alloc::Global;

/// What a line says, outside of a block or in a block of so many lanes. The line comes without its line feed, and with a
/// space for a carriage return before it.
pub fn read_line(alloc: Global, line: &[u8], lanes: Option<u32>) -> Result<Line, NoMemory>
    ensures said { IfOk result (λ said. said ≡ grammar.line_of lanes line.now) }
    ensures within { IfOk result grammar.IsWithinLine }
{
    if is_skipped(line) {
        return Ok(Line::Skip);
    }
    if !is_fair(line) {
        return Ok(Line::Bad);
    }
    match lanes {
        None => read_outside(alloc, line),
        Some(lanes) => read_inside(alloc, line, lanes),
    }
}

fn is_skipped(line: &[u8]) -> bool
    ensures { result ≡ grammar.is_skipped (grammar.words_of line.now) }
{
    match split_word(line) {
        None => true,
        Some((word, _)) => word.starts_with(b"#"),
    }
}

fn plain(command: Option<Command>) -> Line
    ensures { result ≡ grammar.plain_by command }
{
    match command {
        Some(command) => Line::Plain(command),
        None => Line::Bad,
    }
}

fn read_outside(alloc: Global, line: &[u8]) -> Result<Line, NoMemory>
    ensures said { IfOk result (λ said. said ≡ grammar.outside_line (grammar.words_of line.now)) }
    ensures within { IfOk result grammar.IsWithinLine }
{
    match split_word(line) {
        Some((verb, rest)) if is(verb, "lanes") => Ok(read_lanes(rest)),
        _ => Ok(plain(read_command(alloc, line)?)),
    }
}

/// What a line says whose first word is `lanes`.
fn read_lanes(rest: &[u8]) -> Line
    ensures said { result ≡ grammar.outside_line (codes "lanes" ∷ grammar.words_of rest.now) }
    ensures within { grammar.IsWithinLine result }
{
    let Some((count, rest)) = split_word(rest) else {
        return Line::Bad;
    };
    match (split_word(rest), read_count(count, MAX_LANES)) {
        (None, Some(lanes)) => Line::Lanes(lanes),
        _ => Line::Bad,
    }
}

fn read_inside(alloc: Global, line: &[u8], lanes: u32) -> Result<Line, NoMemory>
    ensures said { IfOk result (λ said. said ≡ grammar.inside_line lanes (grammar.words_of line.now)) }
    ensures within { IfOk result grammar.IsWithinLine }
{
    let Some((word, rest)) = split_word(line) else {
        return Ok(Line::Bad);
    };
    if split_word(rest).is_none() {
        return Ok(if is(word, "end") {
            Line::End
        } else {
            Line::Bad
        });
    }
    let command = read_command(alloc, rest)?;
    Ok(in_lane(read_below(word, lanes), command))
}

fn in_lane(lane: Option<u32>, command: Option<Command>) -> Line
    ensures { result ≡ grammar.lane_line lane command }
{
    match (lane, command) {
        (Some(lane), Some(command)) if may_stand_in_lane(&command) => Line::InLane {
            lane,
            command,
        },
        _ => Line::Bad,
    }
}

fn may_stand_in_lane(command: &Command) -> bool
    ensures { result ≡ grammar.may_stand_in_lane command.now }
{
    matches!(
        command,
        Command::Put { .. }
            | Command::Read { .. }
            | Command::Get { .. }
            | Command::Del { .. }
            | Command::Url { .. }
            | Command::Flush { .. }
            | Command::Compact { .. }
    )
}
