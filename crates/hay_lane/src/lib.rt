//! How a lane answers its lines, by calls at the locks that it shares with other lanes.
//!
//! A volume's lock is a `SharedVolume`, and `DirectoryCalls` says what a call at the Directory's tells, as `hay_holdings` has it. A lane has
//! a seat at each volume and one at the Directory, and an arm; what it knows of all locks is a `Sight` of `hay_meeting`. Each command but a
//! restart is answered by calls, one behind the other, and the answer is the one that `hay_meeting` asks for between these two sights. A
//! read takes no lock, but where a place was not looked at yet, which is then seen by one holding of its volume. Reads alone use the arm.
//! Whatever the disks tell, its count does not fall, and a sure arm stays sure, with the same count. All holds over any disk.
#![tactic(auto)]

mod calls;
mod changes;
mod compact;
mod dispatch;
mod lane;
mod places;
mod put;
mod reads;
mod replies;
mod steps;
mod upkeep;

pub use calls::DirectoryCalls;
pub use lane::{Lane, Shared};
