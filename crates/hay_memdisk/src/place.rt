//! What is kept beside each byte of a file in memory.
ghost use Rattle.std.specs.Prelude.{◌≡◌, ◌⊎◌, ◌≤◌, ◌<◌, ◌+◌, ◌^◌, ℕ, true, false, min, max, length, get_or, OnOk, OnErr};
ghost use Rattle.hay_memdisk.specs.Places.{no_place};

use rand_chacha::ChaCha8Rng;
use rand_core::{Rng, SeedableRng};
use std::alloc::AllocError;

/// What is kept beside a byte: its value at the last sync, the byte that was last asked for, and whether a stop may
/// change it.
#[derive(Clone, Copy)]
pub(crate) struct Place {
    pub(crate) solid: u8,
    pub(crate) asked: u8,
    pub(crate) loose: bool,
}

impl Place {
    /// A place where nothing was written yet.
    pub(crate) const NONE: Place = Place {
        solid: 0,
        asked: 0,
        loose: true,
    };
}

/// A range that has the places written since the last sync: from its first place to that after its last.
#[derive(Clone, Copy)]
pub(crate) struct Written {
    pub(crate) from: usize,
    pub(crate) to: usize,
}

impl Written {
    /// The range of no place.
    pub(crate) const NONE: Written = Written {
        from: usize::MAX,
        to: 0,
    };

    /// The least range that has the places of this one and those from `from` to before `to`.
    pub(crate) fn widen(self, from: usize, to: usize) -> Written
        ensures from { result.from ≡ min self.from from }
        ensures to { result.to ≡ max self.to to }
    {
        Written {
            from: self.from.min(from),
            to: self.to.max(to),
        }
    }
}

/// What a stop leaves of a range of loose bytes.
#[derive(Clone, Copy)]
enum Left {
    Solid,
    Asked,
    Drawn,
}

// At least as many places as there are to be bytes.
#[tactic(auto, using(crate::proofs::PlaceLemmas::pushed_places))]
pub(crate) fn grow(places: &mut Vec<Place>, len: usize) -> Result<(), AllocError>
    ensures held { length places.old.items ≤ length places.new.items }
    ensures grown { OnOk result (len ≤ length places.new.items) }
    ensures full { OnErr result (length places.old.items < len) }
    ensures same { (k : ℕ) → get_or places.new.items k no_place ≡ get_or places.old.items k no_place }
{
    'room: for _ in places.len()..len {
        places.push(Place::NONE)?;
    }
    Ok(())
}

// The places of bytes that were asked for.
pub(crate) fn mark(places: &mut [Place], at: usize, bytes: &[u8])
    requires { at + length bytes.now ≤ length places.old }
    ensures others { (k : ℕ) → (k < at) ⊎ (at + length bytes.now ≤ k) → get_or places.new k no_place ≡ get_or places.old k no_place }
    ensures loose { (k : ℕ) → at ≤ k → k < at + length bytes.now → (get_or places.new k no_place).loose ≡ true }
{
    for i in 0..bytes.len() {
        let place = places[at + i];
        places[at + i] = Place {
            solid: place.solid,
            asked: bytes[i],
            loose: true,
        };
    }
}

// The written places of bytes that are on the disk.
pub(crate) fn settle(places: &mut [Place], bytes: &[u8], written: Written)
    requires { length bytes.now ≤ length places.old }
    ensures others { (k : ℕ) → (k < written.from) ⊎ (written.to ≤ k) → get_or places.new k no_place ≡ get_or places.old k no_place }
    ensures solid { (k : ℕ) → written.from ≤ k → k < written.to → k < length bytes.now → (get_or places.new k no_place).loose ≡ false }
{
    for i in written.from..written.to.min(bytes.len()) {
        let place = places[i];
        places[i] = Place {
            solid: bytes[i],
            asked: place.asked,
            loose: false,
        };
    }
}

// Each loose byte as it was at the last sync.
pub(crate) fn restore(bytes: &mut [u8], places: &[Place])
    requires { length bytes.old ≤ length places.now }
    ensures solid { (k : ℕ) → (get_or places.now k no_place).loose ≡ false → get_or bytes.new k 0 ≡ get_or bytes.old k 0 }
    ensures loose { (k : ℕ) → k < length bytes.old → (get_or places.now k no_place).loose ≡ true → get_or bytes.new k 0 ≡ (get_or places.now k no_place).solid }
{
    for i in 0..bytes.len() {
        if places[i].loose {
            bytes[i] = places[i].solid;
        }
    }
}

// Each range of loose bytes as it was at the last sync, as it was asked for, or drawn.
pub(crate) fn scatter(bytes: &mut [u8], places: &[Place], rng: &mut ChaCha8Rng)
    requires { length bytes.old ≤ length places.now }
    ensures { (k : ℕ) → (get_or places.now k no_place).loose ≡ false → get_or bytes.new k 0 ≡ get_or bytes.old k 0 }
{
    let mut left = Left::Solid;
    let mut in_range = false;
    for i in 0..bytes.len() {
        let place = places[i];
        if place.loose {
            if !in_range {
                left = draw_left(rng);
            }
            bytes[i] = byte_left(place, left, rng);
        }
        in_range = place.loose;
    }
}

fn draw_left(rng: &mut ChaCha8Rng) -> Left {
    match rng.next_u32() % 3 {
        0 => Left::Solid,
        1 => Left::Asked,
        _ => Left::Drawn,
    }
}

fn byte_left(place: Place, left: Left, rng: &mut ChaCha8Rng) -> u8 {
    match left {
        Left::Solid => place.solid,
        Left::Asked => place.asked,
        Left::Drawn => (rng.next_u32() % 256) as u8,
    }
}

// What draws the image of a file that a pick chooses.
pub(crate) fn image_rng(pick: u64, file: u32) -> ChaCha8Rng {
    let mut key = [0; 32];
    key[..8].copy_from_slice(&pick.to_le_bytes());
    let mut rng = ChaCha8Rng::from_seed(key);
    rng.set_stream(file as u64);
    rng
}

// A number from `least` to `most`.
pub(crate) fn draw_between(rng: &mut ChaCha8Rng, least: usize, most: usize) -> usize
    requires order { least ≤ most }
    requires small { most < 2 ^ 63 }
    ensures least { least ≤ result }
    ensures most { result ≤ most }
{
    let room = (most - least) as u64 + 1;
    least + (rng.next_u64() % room) as usize
}
