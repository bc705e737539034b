//! The folder that the words name.
ghost use Rattle.std.specs.Prelude.{◌≡◌, List, map, drop, slice_get, [], IsNone, option_map, codes, string_bytes};
ghost use Rattle.clap.specs.Lexer.{strip_byte, name_and_value, long_of};
ghost use Rattle.hay_cli.specs.Commands as commands;
ghost use Rattle.hay_cli.specs.Reading as reading;
ghost use Rattle.hay_cli.specs.Commands.{Given};

/// What follows a first hyphen.
fn strip_dash(word: &str) -> Option<&str>
    ensures { option_map (λ s. s.now) result ≡ strip_byte 45 word.now }
{
    word.strip_prefix('-')
}

/// What stands before the first `=`, and what stands behind it if there is one.
fn split_value(text: &str) -> (&str, Option<&str>)
    ensures { (result.0.now, option_map (λ s. s.now) result.1) ≡ name_and_value text.now }
{
    match text.split_once('=') {
        Some((name, value)) => (name, Some(value)),
        None => (text, None),
    }
}

/// The name and the value of `--name` or `--name=value`.
fn option_word(word: &str) -> Option<(&str, Option<&str>)>
    ensures { option_map (λ p. (p.0.now, option_map (λ s. s.now) p.1)) result ≡ long_of word.now }
{
    let rest = strip_dash(strip_dash(word)?)?;
    if rest.is_empty() {
        return None;
    }
    Some(split_value(rest))
}

/// The folder that a word gives, alone or with the next word.
fn folder_word<'a>(word: &'a str, next: Option<&'a str>) -> Option<Option<&'a str>>
    ensures { option_map (option_map (λ s. s.now)) result ≡ reading.folder_step (long_of word.entry.now) (option_map (λ s. s.now) next.entry) }
{
    match option_word(word) {
        Some(("folder", Some(path))) => Some(Some(path)),
        Some(("folder", None)) => Some(next),
        _ => None,
    }
}

fn next_word(words: &[String], at: usize) -> Option<&str>
    ensures { option_map (λ s. s.now) result ≡ slice_get (map string_bytes words.now) at }
{
    words.get(at).map(|word| word.as_str())
}

fn find_folder(words: &[String]) -> Option<&str>
    ensures { option_map (λ s. s.now) result ≡ reading.folder_in (drop 1 (map string_bytes words.now)) }
{
    for i in 1..words.len() {
        let next = next_word(words, i + 1);
        if let Some(found) = folder_word(words[i].as_str(), next) {
            return found;
        }
    }
    None
}

/// The value of the first option `folder` of the words, as `--folder VALUE` or `--folder=VALUE`. Of words that are a command it is
/// their folder, and an audit has none.
pub fn folder_of(words: &[String]) -> Option<&str>
    ensures scan { option_map (λ s. s.now) result ≡ reading.folder_in (drop 1 (map string_bytes words.now)) }
    ensures same { (given : List Given) → commands.AreOptions commands.run_names [] given (drop 1 (map string_bytes words.now))
        → option_map (λ s. s.now) result ≡ commands.value_of given (codes "folder") }
    ensures audit { (given : List Given) → commands.AreOptions commands.audit_names [] given (drop 1 (map string_bytes words.now)) → IsNone result }
{
    find_folder(words)
}
