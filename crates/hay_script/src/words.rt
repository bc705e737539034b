//! The words of a line, which spaces and tabs part.
ghost use Rattle.std.specs.Prelude.{◌≡◌, ◌∷◌, [], not, position, MatchOption, bytes_eq};
ghost use Rattle.std.specs.List.{list_all};
ghost use Rattle.hay_script.specs.Script as grammar;

use memchr::memchr2;

/// A script has at most so many bytes.
pub const MAX_SCRIPT: u64 = 1_073_741_824;

/// A block has at most so many commands.
pub const MAX_COMMANDS: u32 = 65_536;

/// A block has at most so many lanes.
pub const MAX_LANES: u32 = 8;

/// The most bytes that a line has, without its line feed.
pub const MAX_LINE: usize = 33_554_560;

fn is_blank(byte: u8) -> bool
    ensures { result ≡ grammar.is_blank byte }
{
    (byte == b' ') | (byte == b'\t')
}

fn first_blank(line: &[u8]) -> Option<usize>
    ensures { result ≡ position grammar.is_blank line.now }
{
    memchr2(b' ', b'\t', line)
}

fn first_other(line: &[u8]) -> Option<usize>
    ensures { result ≡ position (λ b. not (grammar.is_blank b)) line.now }
{
    line.iter().position(|byte| !is_blank(*byte))
}

/// The first word, and the rest of the line.
pub fn split_word(line: &[u8]) -> Option<(&[u8], &[u8])>
    ensures { MatchOption result
        (grammar.words_of line.now ≡ [])
        (λ parts. grammar.words_of line.now ≡ parts.0.now ∷ grammar.words_of parts.1.now) }
{
    let line = &line[first_other(line)?..];
    let end = first_blank(line).unwrap_or(line.len());
    Some((&line[..end], &line[end..]))
}

fn is_written(byte: u8) -> bool
    ensures { result ≡ grammar.is_written byte }
{
    is_blank(byte) | ((byte >= 33) & (byte <= 126))
}

fn are_written(line: &[u8]) -> bool
    ensures { result ≡ list_all grammar.is_written line.now }
{
    let mut all = true;
    for byte in line {
        all = all & is_written(*byte);
    }
    all
}

/// Whether a line is not too long, and of printable ASCII, spaces and tabs.
pub fn is_fair(line: &[u8]) -> bool
    ensures { result ≡ grammar.is_fair line.now }
{
    line.len() <= MAX_LINE && are_written(line)
}

/// Whether a word is this text.
pub fn is(word: &[u8], text: &str) -> bool
    ensures { result ≡ bytes_eq word.now text.now }
{
    word == text.as_bytes()
}
