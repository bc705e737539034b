//! URLs of photos, and the cookie that a key has in a store.
//!
//! It stands on the values of `hay_needle`, on `rand_chacha` and on `hex`. The text of a URL is exact in both directions: each URL
//! has one text, and `read_url` takes just these texts and says of any other where it stops being one. A cookie is known by its
//! two words of ChaCha20.
#![tactic(auto)]

mod cookie;
mod read;
mod text;

pub use cookie::cookie_of;
use hay_needle::{Cookie, Pair};
pub use read::{parse_url, read_url};
pub use text::{cookie_text, url_text};

/// What the URL of a photo says.
#[derive(Clone, Copy, Debug)]
pub struct Url {
    pub machine: u32,
    pub volume: u32,
    pub pair: Pair,
    pub cookie: Cookie,
}

/// Why a text is no URL's.
#[derive(Clone, Copy, Debug, PartialEq, Eq)]
pub enum UrlFault {
    /// The longest beginning of the text with which a URL begins has this many bytes.
    Bad { at: usize },
}
