//! The first line of a frame, which says how long the script is.
ghost use Rattle.std.specs.Prelude.{◌≡◌, ◌⊎◌, ◌+◌, ◌^◌, ◌<◌, ◌≤◌, nat_lt, if◌then◌else◌, [], ◌∷◌, ◌++◌, length, Err, vec_len, IfOk, IsErrOf, OnErr};
ghost use Rattle.std.specs.Char.{is_ascii_digit};
ghost use Rattle.std.specs.List.{list_all};
ghost use Rattle.std.specs.Str.Parse.{AllDigits, digits_value};
ghost use Rattle.hay_disk.specs.Counts.{Rose};
ghost use Rattle.hay_disk.specs.Streams.{Took};
ghost use Rattle.hay_script.specs.Script.{below};
ghost use Rattle.hay_lines.specs.Lines.{NoFeed};
ghost use Rattle.hay_lines.specs.Stream.{TookAtMost};
ghost use Rattle.hay_frame.specs.Frames.{length_in, TookNoLine};

use crate::bytes::take_byte;
use crate::fault::FrameFault;
use hay_disk::Source;
use hay_script::MAX_SCRIPT;
use std::alloc::Global;

const FEED: u8 = b'\n';

/// A good first line has at most so many bytes, with its line feed.
pub const LINE: usize = 28;

/// Takes the first line, without its line feed. One that is longer than a good one is refused at its first byte too many.
pub fn take_line<S: Source>(alloc: Global, source: &mut S) -> Result<Vec<u8>, FrameFault>
    ensures line { IfOk result (λ line. NoFeed line.items × Took (S.left source.old) (line.items ++ 10 ∷ []) (S.left source.new)) }
    ensures within { IfOk result (λ line. vec_len line < LINE) }
    ensures none { IsErrOf result FrameFault.Bad → TookNoLine (S.left source.old) (S.left source.new) }
    ensures taken { TookAtMost LINE (S.left source.old) (S.left source.new) }
    ensures stops { OnErr result ((result ≡ Err FrameFault.Input) ⊎ (result ≡ Err FrameFault.NoMemory) ⊎ (result ≡ Err FrameFault.Bad)) }
    ensures cause { IsErrOf result FrameFault.Input → Rose (S.fault_count source.old) (S.fault_count source.new) }
    ensures count { S.fault_count source.old ≤ S.fault_count source.new }
{
    let mut line = Vec::new(alloc);
    'taking: while line.len() < LINE {
        let Some(byte) = take_byte(source)? else {
            return Err(FrameFault::Bad);
        };
        if byte == FEED {
            return Ok(line);
        }
        line.push(byte)?;
    }
    Err(FrameFault::Bad)
}

fn is_decimal(text: &[u8]) -> bool
    ensures { result ≡ list_all is_ascii_digit text.now }
{
    text.iter().all(|byte| byte.is_ascii_digit())
}

/// The number of decimal digits, if it fits.
fn read_digits(text: &[u8]) -> Option<u64>
    requires some { 0 < length text.now }
    requires digits { AllDigits 10 text.now }
    ensures { result ≡ (if nat_lt (digits_value 10 text.now) (2 ^ 64) then Some (digits_value 10 text.now) else None) }
{
    match str::from_utf8(text) {
        Ok(text) => u64::from_str_radix(text, 10).ok(),
        Err(_) => None,
    }
}

/// The length of a script, in 1 to 20 decimal digits.
fn read_length(text: &[u8]) -> Option<u64>
    ensures { result ≡ below (MAX_SCRIPT + 1) text.now }
{
    if text.is_empty() || text.len() > 20 || !is_decimal(text) {
        return None;
    }
    read_digits(text).filter(|length| *length <= MAX_SCRIPT)
}

/// The length of the script that a first line says, where it is good.
pub fn script_length(line: &[u8]) -> Option<u64>
    ensures { result ≡ length_in line.now }
{
    if line.starts_with(b"script ") {
        read_length(&line[7..])
    } else {
        None
    }
}
