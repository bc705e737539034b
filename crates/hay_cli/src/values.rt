//! The values of words.
ghost use Rattle.std.specs.Prelude.{◌≡◌, option_map};
ghost use Rattle.std.specs.Char.{is_ascii_digit};
ghost use Rattle.std.specs.List.{list_all};
ghost use Rattle.hay_cli.specs.Commands as commands;

fn is_decimal(text: &str) -> bool
    ensures { result ≡ list_all is_ascii_digit text.now }
{
    text.as_bytes().iter().all(|byte| byte.is_ascii_digit())
}

/// A number within bounds, in 1 to 20 decimal digits.
pub fn read_number(text: &str, low: u64, high: u64) -> Option<u64>
    ensures { result ≡ commands.number_in low high text.now }
{
    if text.is_empty() || text.len() > 20 || !is_decimal(text) {
        return None;
    }
    let number = text.parse().ok()?;
    if low <= number && number <= high {
        Some(number)
    } else {
        None
    }
}

/// The number that is given, or the usual one.
pub fn number_value(value: Option<&str>, usual: u64, low: u64, high: u64) -> Option<u64>
    ensures { result ≡ commands.number_or usual low high (option_map (λ s. s.now) value.entry) }
{
    match value {
        None => Some(usual),
        Some(text) => read_number(text, low, high),
    }
}

/// The same of 32 bits.
pub fn small_value(value: Option<&str>, usual: u32, low: u32, high: u32) -> Option<u32>
    ensures { result ≡ commands.number_or usual low high (option_map (λ s. s.now) value.entry) }
{
    match value {
        None => Some(usual),
        Some(text) => Some(read_number(text, low as u64, high as u64)? as u32),
    }
}

/// The secret of 64 hexadecimal digits, or the zero secret.
pub fn secret_value(value: Option<&str>) -> Option<[u8; 32]>
    ensures { result ≡ commands.secret_or (option_map (λ s. s.now) value.entry) }
{
    let mut bytes = [0u8; 32];
    let Some(text) = value else {
        return Some(bytes);
    };
    if text.len() != 64 {
        return None;
    }
    hex::decode_to_slice(text, &mut bytes).ok()?;
    Some(bytes)
}

/// Whether a path that is given has a byte.
pub fn is_folder(value: Option<&str>) -> bool
    ensures { result ≡ commands.folder_passes (option_map (λ s. s.now) value.entry) }
{
    match value {
        None => true,
        Some(path) => !path.is_empty(),
    }
}
