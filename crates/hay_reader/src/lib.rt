//! The read of a photo by the row of its places.
//!
//! A lane's seat has an arm and a buffer with room for the longest needle, of which a read touches no more than its needle. It tries
//! the replicas in turn: a place without a photo says that the photo is gone, and a needle that is fetched and read tells the photo or
//! the wrong cookie. At a place that was not looked at yet the read stops, and goes on once the caller looked, from what the look read. A replica is passed over
//! only where its fetch failed in this call, or where what was fetched is no needle, or where the caller's look failed. A read takes no
//! memory.
//! It stands on hay_base, hay_needle, hay_disk, hay_map and hay_reply.
#![tactic(auto)]

mod causes;
mod seat;
mod trial;

pub use causes::{Causes, PassedReplica};
pub use seat::{LaneSeat, ReadReply, show_seen};
