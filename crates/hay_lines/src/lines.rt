//! Reads a script line by line.
ghost use Rattle.std.specs.Prelude.{◌≡◌, ◌≢◌, ◌⊎◌, ◌<◌, ◌≤◌, [], ◌∷◌, ◌++◌, ◌+◌, ℕ, List, length, drop, true, false, Err, if◌then◌else◌, IfOk, IfSome, OnOk, OnErr, IsErrOf};
ghost use Rattle.hay_disk.specs.Counts.{Rose};
ghost use Rattle.hay_script.specs.Script.{IsWithinLine};
ghost use Rattle.hay_lines.specs.Said.{SaysNext};
ghost use Rattle.hay_lines.specs.Stream.{rest_of, budget, Accounts, IsTooLong};
ghost use Rattle.hay_lines.specs.Lines.{Keeps, NoFeed, fed_text, TookPart, TookOver, TookSome, ReadsLine, long_fed, long_last};

use crate::bytes::ScriptBytes;
use crate::fault::LineFault;
use crate::start::{LineRead, LineStart};
use hay_base::NoMemory;
use hay_disk::Source;
use hay_script::{Line, MAX_LINE, MAX_SCRIPT, read_line};
use memchr::memchr;
use std::alloc::Global;
use std::marker::Model;

/// Ends a line at its line feed: a carriage return before it counts as a space.
fn end_by_feed(line: &mut Vec<u8>)
    requires { NoFeed line.old.items }
    ensures { line.new.items ≡ fed_text line.old.items }
{
    let length = line.len();
    if length == 0 {
        return;
    }
    if line[length - 1] == b'\r' {
        line[length - 1] = b' ';
    }
}

/// Keeps more bytes of a line, unless the line is too long with them, and answers whether it is too long.
fn keep(line: &mut Vec<u8>, long: bool, span: &[u8]) -> Result<bool, NoMemory>
    ensures { IfOk result (λ now. (given : List ℕ) → Keeps long line.old.items given → Keeps now line.new.items (given ++ span.now)) }
{
    if long || line.len() + span.len() > MAX_LINE {
        return Ok(true);
    }
    line.extend_from_slice(span)?;
    Ok(false)
}

/// The bytes before the first line feed, or all, and whether there is a line feed.
fn split_feed(held: &[u8]) -> (&[u8], bool)
    ensures free { NoFeed result.0.now }
    ensures fed { result.1 ≡ true → held.now ≡ result.0.now ++ 10 ∷ drop (length result.0.now + 1) held.now }
    ensures whole { result.1 ≡ false → result.0.now ≡ held.now }
{
    match memchr(b'\n', held) {
        Some(at) => (&held[..at], true),
        None => (held, false),
    }
}

/// What came of a line that a line feed ends.
fn read_fed(line: &mut Vec<u8>, long: bool, start: LineStart) -> LineRead
    requires { long ≡ false → NoFeed line.old.items }
    ensures kind { result ≡ (if long then long_fed start else LineRead.Line) }
    ensures text { long ≡ false → line.new.items ≡ fed_text line.old.items }
{
    if long {
        return start.fed();
    }
    end_by_feed(line);
    LineRead::Line
}

/// What came of a line behind which the script ends.
fn read_last(line: &[u8], long: bool, start: LineStart) -> LineRead
    ensures long { long ≡ true → result ≡ long_last start }
    ensures end { long ≡ false → line.now ≡ [] → result ≡ LineRead.End }
    ensures kind { long ≡ false → line.now ≢ [] → result ≡ LineRead.Line }
{
    if long {
        start.last()
    } else if line.is_empty() {
        LineRead::End
    } else {
        LineRead::Line
    }
}

/// Takes the next line, without its line feed, or meets the end. It isn't called once the end was met.
fn next_line<S: Source>(
    bytes: &mut ScriptBytes,
    source: &mut S,
    line: &mut Vec<u8>,
) -> Result<LineRead, LineFault>
    requires { bytes.old.ended ≡ false }
    ensures line { IfOk result (λ read. ReadsLine read line.new.items (rest_of (S.left source.old) bytes.old) (rest_of (S.left source.new) bytes.new) bytes.new.ended) }
    ensures accounts { OnOk result (Accounts (S.left source.old) bytes.old (S.left source.new) bytes.new) }
    ensures stopped_accounts { (IsErrOf result LineFault.Input ⊎ IsErrOf result LineFault.NoMemory) → Accounts (S.left source.old) bytes.old (S.left source.new) bytes.new }
    ensures left { OnOk result (budget MAX_SCRIPT bytes.new < budget MAX_SCRIPT bytes.old) }
    ensures limit { bytes.new.taken ≤ MAX_SCRIPT }
    ensures none_held { (IsErrOf result LineFault.Input ⊎ IsErrOf result LineFault.TooLong) → bytes.new.bytes ≡ [] }
    ensures failed { IsErrOf result LineFault.Input → TookPart (rest_of (S.left source.old) bytes.old) (rest_of (S.left source.new) bytes.new) }
    ensures memory { IsErrOf result LineFault.NoMemory → TookPart (rest_of (S.left source.old) bytes.old) (rest_of (S.left source.new) bytes.new) }
    ensures over { IsErrOf result LineFault.TooLong → TookOver (rest_of (S.left source.old) bytes.old) (rest_of (S.left source.new) bytes.new) }
    ensures long { IsErrOf result LineFault.TooLong → IsTooLong MAX_SCRIPT (S.left source.old) bytes.old (S.left source.new) }
    ensures stops { OnErr result ((result ≡ Err LineFault.Input) ⊎ (result ≡ Err LineFault.NoMemory) ⊎ (result ≡ Err LineFault.TooLong)) }
    ensures cause { IsErrOf result LineFault.Input → Rose (S.fault_count source.old) (S.fault_count source.new) }
    ensures count { S.fault_count source.old ≤ S.fault_count source.new }
{
    line.clear();
    let mut start = LineStart::Blank;
    let mut long = false;
    'taking: loop {
        bytes.hold(source)?;
        let (span, fed) = split_feed(bytes.held());
        let count = span.len();
        start = start.behind(span);
        long = keep(line, long, span)?;
        if fed {
            bytes.pass(count + 1);
            return Ok(read_fed(line, long, start));
        }
        if count == 0 {
            return Ok(read_last(line.as_slice(), long, start));
        }
        bytes.pass(count);
    }
}

/// A script, line by line.
#[derive(Drop)]
pub struct ScriptLines {
    bytes: ScriptBytes,
    line: Vec<u8>,
}

impl Model for ScriptLines {
    ghost use Rattle.hay_lines.specs.Stream.{Held};

    ghost Value = { Held };

    ghost view = { λ s. s.bytes };
}

impl ScriptLines {
    pub fn new(alloc: Global) -> Self
        ensures bytes { result.bytes ≡ [] }
        ensures taken { result.taken ≡ 0 }
        ensures ended { result.ended ≡ false }
    {
        ScriptLines {
            bytes: ScriptBytes::new(),
            line: Vec::new(alloc),
        }
    }

    /// Whether the end was met.
    pub fn is_ended(&self) -> bool
        ensures { result ≡ self.now.ended }
    {
        self.bytes.is_ended()
    }

    /// Takes the next line and reads it, outside of a block or in one of so many lanes, or meets the end. It isn't
    /// called once the end was met.
    pub fn next_said<S: Source>(
        &mut self,
        alloc: Global,
        source: &mut S,
        lanes: Option<u32>,
    ) -> Result<Option<Line>, LineFault>
        requires { self.old.ended ≡ false }
        ensures said { IfOk result (λ next. SaysNext lanes next (rest_of (S.left source.old) self.old) (rest_of (S.left source.new) self.new) self.new.ended) }
        ensures within { IfOk result (λ next. IfSome next IsWithinLine) }
        ensures accounts { OnOk result (Accounts (S.left source.old) self.old (S.left source.new) self.new) }
        ensures stopped_accounts { (IsErrOf result LineFault.Input ⊎ IsErrOf result LineFault.NoMemory) → Accounts (S.left source.old) self.old (S.left source.new) self.new }
        ensures left { OnOk result (budget MAX_SCRIPT self.new < budget MAX_SCRIPT self.old) }
        ensures limit { self.new.taken ≤ MAX_SCRIPT }
        ensures none_held { (IsErrOf result LineFault.Input ⊎ IsErrOf result LineFault.TooLong) → self.new.bytes ≡ [] }
        ensures failed { IsErrOf result LineFault.Input → TookPart (rest_of (S.left source.old) self.old) (rest_of (S.left source.new) self.new) }
        ensures memory { IsErrOf result LineFault.NoMemory → TookSome (rest_of (S.left source.old) self.old) (rest_of (S.left source.new) self.new) }
        ensures over { IsErrOf result LineFault.TooLong → TookOver (rest_of (S.left source.old) self.old) (rest_of (S.left source.new) self.new) }
        ensures long { IsErrOf result LineFault.TooLong → IsTooLong MAX_SCRIPT (S.left source.old) self.old (S.left source.new) }
        ensures stops { OnErr result ((result ≡ Err LineFault.Input) ⊎ (result ≡ Err LineFault.NoMemory) ⊎ (result ≡ Err LineFault.TooLong)) }
        ensures cause { IsErrOf result LineFault.Input → Rose (S.fault_count source.old) (S.fault_count source.new) }
        ensures count { S.fault_count source.old ≤ S.fault_count source.new }
    {
        match next_line(&mut self.bytes, source, &mut self.line)? {
            LineRead::End => Ok(None),
            LineRead::Skipped => Ok(Some(Line::Skip)),
            LineRead::TooLong => Ok(Some(Line::Bad)),
            LineRead::Line => Ok(Some(read_line(alloc, self.line.as_slice(), lanes)?)),
        }
    }
}
