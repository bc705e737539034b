//! The cookie of a key.
ghost use Rattle.std.specs.Prelude.{◌≡◌};
ghost use Rattle.hay_url.specs.Url.{cookie_of};

use hay_needle::Cookie;
use rand_chacha::ChaCha20Rng;
use rand_core::SeedableRng;
use rand_core::utils::NextWord;

/// The cookie that every photo with this key has in a store with this secret: the first two words of ChaCha20 under the
/// secret on the stream whose number is the key, the first word below the second.
pub fn cookie_of(secret: &[u8; 32], key: u64) -> Cookie
    ensures { result ≡ cookie_of secret.now key }
{
    let mut words = ChaCha20Rng::from_seed(*secret);
    words.set_stream(key);
    let low = words.next_word();
    let high = words.next_word();
    Cookie(u64::from(high) << 32 | u64::from(low))
}
