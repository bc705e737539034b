//! What a disk's failure is answered.

ghost use Rattle.std.specs.Prelude.{◌≡◌, ◌<◌, ◌%◌, ◌+◌, ℕ};
ghost use Rattle.hay_reply.specs.declared.Reply.{Reply};
ghost use Rattle.hay_reply.specs.Fits.{FitsReply};
ghost use Rattle.hay_batch.specs.Shelves.{slot_of};

use hay_needle::Settings;
use hay_reply::Reply;

/// The disk of this slot failed, and its count of faults rose to this: that of the Directory, or that of a replica.
pub(crate) fn failed_reply(settings: &Settings, slot: u32, faults: u64) -> Reply
    requires machines { 0 < settings.now.machines }
    requires replicas { 0 < settings.now.replicas }
    ensures fits { FitsReply result }
    ensures directory { slot ≡ 0 → result ≡ Reply.FailedDir faults }
    ensures replica { (v j : ℕ) → j < settings.now.replicas → slot ≡ slot_of settings.now v j → result ≡ Reply.Failed v ((v + j) % settings.now.machines) faults }
{
    if slot == 0 {
        return Reply::FailedDir { faults };
    }
    let replicas = settings.replicas;
    let place = slot - 1;
    let volume = place / replicas;
    let machine = (u64::from(volume) + u64::from(place % replicas)) % u64::from(settings.machines);
    Reply::Failed {
        volume,
        machine: machine as u32,
        faults,
    }
}
