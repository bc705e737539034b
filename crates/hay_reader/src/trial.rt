//! The try of one replica.
ghost use Rattle.std.specs.Prelude.{◌≡◌, ◌≤◌, ◌<◌, ◌+◌, ◌^◌, ◌⊎◌, ◌++◌, [], Bool, true, length, vec_len, max, Ok, IfErr};
ghost use Rattle.std.specs.Vec.{vec_capacity};
ghost use Rattle.hay_disk.specs.Counts.{IsCounted, StaysSure};
ghost use Rattle.hay_reader.specs.Tried.{CanShow, HasItsPhoto, IsOfSeen, NeedleGives, PlaceGives, ReadsBytes, ShowsSeen, FailsBy, IsDamageAt, PutsOut};

use hay_disk::{Arm, Failed, Piece};
use hay_map::{Place, Sealed};
use hay_needle::{Cookie, MAX_NEEDLE, MAX_PHOTO, read_needle, total_of};
use hay_reply::Cause;

/// What a replica showed.
#[derive(Clone, Copy, Debug)]
pub enum Shown {
    Photo,
    Gone,
    WrongCookie,
    /// Its place was not looked at yet.
    Unseen,
}

/// Tries the replica of this place. The buffer has room for the longest needle.
pub fn try_place<P: Piece, A: Arm<P>>(
    arm: &mut A,
    buffer: &mut Vec<u8>,
    place: &Place<P>,
    cookie: Cookie,
    out: &mut Vec<u8>,
) -> Result<Shown, Cause>
    requires buffer { MAX_NEEDLE ≤ vec_capacity buffer.old }
    requires empty { out.old.items ≡ [] }
    requires room { MAX_PHOTO ≤ vec_capacity out.old }
    ensures gives { PlaceGives P.Tells (A.is_sure arm.old) cookie out.new.items place.now result }
    ensures cause { IfErr result (FailsBy (A.fault_count arm.old) (A.fault_count arm.new)) }
    ensures later { A.fault_count arm.old ≤ A.fault_count arm.new }
    ensures most { (A.fault_count arm.new ≡ A.fault_count arm.old) ⊎ (A.fault_count arm.new < 2 ^ 64) }
    ensures stays_sure { StaysSure (A.is_sure arm.old) (A.is_sure arm.new) (A.fault_count arm.old) (A.fault_count arm.new) }
    ensures bytes { PutsOut out.new.items result }
    ensures room { vec_capacity out.old ≤ vec_capacity out.new }
    ensures buffer { vec_capacity buffer.old ≤ vec_capacity buffer.new }
{
    match place {
        Place::Live(needle) => try_needle(arm, buffer, needle, cookie, out),
        Place::Unseen { .. } => Ok(Shown::Unseen),
        Place::None | Place::Gone => Ok(Shown::Gone),
    }
}

/// What the replica of this place shows, by the bytes that were read when the place was seen.
pub fn show_place<P: Piece>(
    place: &Place<P>,
    needle: &[u8],
    cookie: Cookie,
    out: &mut Vec<u8>,
) -> Shown
    requires needle { CanShow needle.now place.now }
    requires empty { out.old.items ≡ [] }
    requires room { MAX_PHOTO ≤ vec_capacity out.old }
    ensures gives { (sure : Bool) → HasItsPhoto needle.now place.now → PlaceGives P.Tells sure cookie out.new.items place.now (Ok result) }
    ensures shows { ShowsSeen cookie out.new.items needle.now place.now result }
    ensures seen { IsOfSeen result }
    ensures bytes { PutsOut out.new.items (Ok result) }
    ensures room { vec_capacity out.old ≤ vec_capacity out.new }
{
    match place {
        Place::Live(sealed) => match read_photo(needle, sealed.at(), cookie, out) {
            Ok(shown) => shown,
            Err(_) => unreachable!(),
        },
        Place::None | Place::Gone => Shown::Gone,
        Place::Unseen { .. } => unreachable!(),
    }
}

fn try_needle<P: Piece, A: Arm<P>>(
    arm: &mut A,
    buffer: &mut Vec<u8>,
    needle: &Sealed<P>,
    cookie: Cookie,
    out: &mut Vec<u8>,
) -> Result<Shown, Cause>
    requires buffer { MAX_NEEDLE ≤ vec_capacity buffer.old }
    requires empty { out.old.items ≡ [] }
    requires room { MAX_PHOTO ≤ vec_capacity out.old }
    ensures gives { NeedleGives P.Tells (A.is_sure arm.old) cookie out.new.items needle.now result }
    ensures cause { IfErr result (FailsBy (A.fault_count arm.old) (A.fault_count arm.new)) }
    ensures later { A.fault_count arm.old ≤ A.fault_count arm.new }
    ensures most { A.fault_count arm.new < 2 ^ 64 }
    ensures stays_sure { StaysSure (A.is_sure arm.old) (A.is_sure arm.new) (A.fault_count arm.old) (A.fault_count arm.new) }
    ensures bytes { PutsOut out.new.items result }
    ensures room { vec_capacity out.old ≤ vec_capacity out.new }
    ensures buffer { vec_capacity buffer.old ≤ vec_capacity buffer.new }
{
    let total = total_of(needle.size()) as usize;
    grow(buffer, total);
    let bytes = &mut buffer[..total];
    let fetched = needle.fetch(arm, bytes);
    let faults = arm.faults();
    match fetched {
        Ok(count) => read_photo(&bytes[..count], needle.at(), cookie, out),
        Err(Failed) => Err(Cause::Arm { faults }),
    }
}

// Makes the buffer at least so long. Its room behind the longest needle so far stays untouched.
fn grow(buffer: &mut Vec<u8>, len: usize)
    requires room { len ≤ vec_capacity buffer.old }
    ensures long { vec_len buffer.new ≡ max (vec_len buffer.old) len }
    ensures room { vec_capacity buffer.old ≤ vec_capacity buffer.new }
{
    if buffer.len() < len {
        // There is room, so that no memory is wanted.
        let _ = buffer.resize(len, 0);
    }
}

// Reads the needle that was fetched.
fn read_photo(bytes: &[u8], at: u64, cookie: Cookie, out: &mut Vec<u8>) -> Result<Shown, Cause>
    requires empty { out.old.items ≡ [] }
    requires room { MAX_PHOTO ≤ vec_capacity out.old }
    ensures reads { ReadsBytes cookie out.new.items bytes.now result }
    ensures damage { IfErr result (IsDamageAt at) }
    ensures bytes { PutsOut out.new.items result }
    ensures room { vec_capacity out.old ≤ vec_capacity out.new }
{
    match read_needle(bytes) {
        Ok(needle) => {
            if needle.cookie.0 == cookie.0 {
                put_out(needle.bytes, out);
                Ok(Shown::Photo)
            } else {
                Ok(Shown::WrongCookie)
            }
        }
        Err(_) => Err(Cause::Damage { at }),
    }
}

// Puts bytes out, for which there is room.
fn put_out(bytes: &[u8], out: &mut Vec<u8>)
    requires empty { out.old.items ≡ [] }
    requires room { length bytes.now ≤ vec_capacity out.old }
    ensures bytes { out.new.items ≡ bytes.now }
    ensures room { vec_capacity out.old ≤ vec_capacity out.new }
{
    // There is room, so that no memory is wanted.
    let _ = out.extend_from_slice(bytes);
}
