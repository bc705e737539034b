//! The text of a URL.
ghost use Rattle.std.specs.Prelude.{◌≡◌, ◌++◌, IfOk, OnOk, OnErr, string_bytes};
ghost use Rattle.std.specs.Int.{w32, to_be_bytes};
ghost use Rattle.hex.specs.Hex.{encode_lower};
ghost use Rattle.hay_url.specs.Url as spelling;

use crate::Url;
use hay_base::NoMemory;
use hay_needle::Cookie;
use std::alloc::{AllocError, Global};

fn long_digits(alloc: Global, number: u64) -> Result<String, AllocError>
    ensures { IfOk result (λ text. string_bytes text ≡ spelling.long_hex number) }
{
    hex::encode(alloc, number.to_be_bytes())
}

fn short_digits(alloc: Global, number: u32) -> Result<String, AllocError>
    ensures { IfOk result (λ text. string_bytes text ≡ encode_lower (to_be_bytes w32 number)) }
{
    hex::encode(alloc, number.to_be_bytes())
}

/// Adds the text of a URL. `NoMemory` adds nothing.
pub fn url_text(alloc: Global, url: &Url, out: &mut String) -> Result<(), NoMemory>
    ensures ok { OnOk result (string_bytes out.new ≡ string_bytes out.old ++ spelling.url_text url.now) }
    ensures err { OnErr result (string_bytes out.new ≡ string_bytes out.old) }
{
    let machine = url.machine;
    let volume = url.volume;
    let key = long_digits(alloc, url.pair.key)?;
    let alt = short_digits(alloc, url.pair.alt)?;
    let cookie = long_digits(alloc, url.cookie.0)?;
    let text = format!(in alloc; "http://store/{machine}/{volume},{key}_{alt}_{cookie}")?;
    out.push_str(text.as_str())?;
    Ok(())
}

/// Adds the 16 digits of a cookie. `NoMemory` adds nothing.
pub fn cookie_text(alloc: Global, cookie: Cookie, out: &mut String) -> Result<(), NoMemory>
    ensures ok { OnOk result (string_bytes out.new ≡ string_bytes out.old ++ spelling.cookie_text cookie) }
    ensures err { OnErr result (string_bytes out.new ≡ string_bytes out.old) }
{
    let digits = long_digits(alloc, cookie.0)?;
    out.push_str(digits.as_str())?;
    Ok(())
}
