//! The Directory behind its lock, with its homes published, for one block of lanes.
//!
//! Lanes share one Directory. Each has a seat, which looks at the homes without the lock, and holds the lock for each change. What a
//! call found and did is said as `hay_holdings` says it of the Directory, from what the lane's seat knew before to what it knows then:
//! which acts of all lanes it has seen, which are its own, and which rows it was shown. That is told for all that may have stood of the
//! Directory where the lock was made, whatever its disk tells. Behind the lock the Directory is always what those acts left of that, and
//! where its disk tells, the disk has all of it. A row is shown to lookers once it is on the disk. Where it cannot be shown for want of
//! memory, the Directory is frozen with the row pending, as where the disk failed.
//!
//! `DirectoryLock::new` makes a lock of any Directory that is up: frozen or not, with a row pending, with machines drained. Its seats have
//! seen nothing. `close` gives the Directory back: it is what one history left, which begins with what each seat has seen, shows what
//! each was shown, and has exactly the own acts of all, with the tags of the rows that were added. Where memory is wanting `new` gives
//! the Directory back as it was.
//!
//! It stands on hay_directory, hay_turn, hay_front and the published homes of hay_views, and on hay_holdings for what a call tells.
//! Acts are for clauses alone, and none is kept. It promises nothing of time or fairness.
#![tactic(auto)]

mod act;
mod kept;
mod lock;
mod open;

pub use act::RowAct;
pub use kept::{Begun, KeptDirectory};
pub use lock::{DirectoryLock, DirectorySeat, NewLock};
pub use open::SeatRoom;
