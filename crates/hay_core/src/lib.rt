//! A logical volume without bytes and threads: the entries of its log, the tables that they make, and `Core`, the machine of
//! its replicas, of the holder of its lock and of its readers, which goes from one device call to the next.
//! It stands on the values of `hay_needle`. `Core::step` makes of a volume exactly what `specs/Transitions` says. `run_events` has the
//! law over every list of events: a good volume stays good, a reader is shown what stood at its front, an opened replica has
//! what the whole log makes of it, and an entry whose holding ended unfailed is in the log until the volume next rises.
#![tactic(auto)]

mod calls;
mod duplicates;
mod entry;
mod events;
mod holds;
mod laws;
mod machine;
mod needles;
mod readers;
mod sides;
mod table;

pub use entry::{CoreTag, Entry, Logged};
pub use laws::run_events;
pub use machine::{Core, CoreReply, Doubt, Event, Hold, Mapped, Reader, Side, Spot, Work};
pub use table::Table;
