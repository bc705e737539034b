//! The lines of a script.

ghost use Rattle.std.specs.Prelude.{◌≡◌, ◌∷◌, ◌+◌, ◌<◌, ◌≤◌, drop, length, slice_index, IfOk};
ghost use Rattle.hay_script.specs.Script as grammar;

use hay_base::NoMemory;
use std::alloc::Global;

/// The byte at a place: a carriage return before a line feed counts as a space.
fn byte_at(script: &[u8], i: usize) -> u8
    requires { i < length script.now }
    ensures { result ≡ grammar.seen_byte (slice_index script.now i) (drop (i + 1) script.now) }
{
    let byte = script[i];
    if byte == b'\r' && script[i + 1..].starts_with(b"\n") {
        b' '
    } else {
        byte
    }
}

/// The line that begins at a place, and the place behind it.
pub(crate) fn next_line(
    alloc: Global,
    script: &[u8],
    at: usize,
) -> Result<(Vec<u8>, usize), NoMemory>
    requires { at < length script.now }
    ensures line { IfOk result (λ read. grammar.lines_of (drop at script.now) ≡ (read.0).items ∷ grammar.lines_of (drop read.1 script.now)) }
    ensures behind { IfOk result (λ read. (at < read.1) × (read.1 ≤ length script.now)) }
{
    let mut line = Vec::new(alloc);
    for i in at..script.len() {
        if script[i] == b'\n' {
            return Ok((line, i + 1));
        }
        line.push(byte_at(script, i))?;
    }
    Ok((line, script.len()))
}
