//! A logical volume behind a lock, with its rows published for lanes that do not hold it. At a seat a lane looks at the rows, asks
//! whether the volume is frozen and has room, stores and deletes photos, sees places, flushes a replica, sets a fuse on its disk, and
//! begins, steps and ends a compaction of it.
//!
//! A lane has a seat at each volume. A call at a seat holds the volume once, and tells what it found and what act it made; or it looks
//! at the published rows without the lock. Clauses see of a seat what its lane knows of the volume, as `hay_meeting` has it, and each
//! answer is a call of `hay_holdings`: so a lane's calls add up to the answers of its lines. What a call tells of what stands holds
//! where the disk tells what it has, and for all that the volume stood for where the lock was made; that it fails only where a count
//! of faults rose holds on any disk.
//!
//! `VolumeLock::new` makes a lock of any open volume, whatever changes it has behind it, and `close` gives the volume back: it is what
//! one history of acts left, of which each seat's own ones are known, with the tags of the changes that were entered. Where memory is
//! wanting `new` gives the volume back as it was.
//!
//! `Guarded` is what stands behind the lock, and `specs/Keeping` says for which acts it stands. An act takes no memory: it has the
//! volume as it was behind it, for clauses alone, which see a `VolumeAct`. `Told` is what the published rows tell. In `specs/Answers`
//! each answer of a call is a call of `hay_holdings`. It stands on hay_logical, hay_turn, hay_front and hay_views, and promises nothing
//! of time or fairness.
//!
//! In `proofs/`, `Growing` has what an act makes of what stands behind the lock, `Finding` how the answers of a logical volume are
//! those calls, `Holding` what a holding tells of its lane, `Telling` what a look at the published rows does, and `Opening` how a lock
//! is made and ends. `Published` has what the rows tell behind one change more, `Publishing` what a holding leaves that publishes a
//! change, and what it tells; `Putting` and `Seeing` are puts and places that are seen, `Deleting` and `Erasing` deletes, which see
//! each place first within the same holding. `Examining` and `Stepping` are steps of a compaction, `Finishing` how one ends without a
//! swap, `Swapping`, `Moving` and `Ending` the laws of a swap and of the places that it publishes, `Losing` and `Lost` how a line finds its
//! compaction ended by other lanes, `Owning` what is told of the line's own one, and `Tightening` what holds of one since whose
//! beginning no entry came, so that a swap tells its sizes. `Doings` has acts with one more.
#![tactic(auto)]

mod act;
mod changes;
mod compactions;
mod compacts;
mod deletes;
mod ended;
mod finishes;
mod guarded;
mod lock;
mod making;
mod refusals;
mod seat;
mod sights;
mod told;
mod tries;

pub use act::Act;
pub use compactions::Examined;
pub use ended::Ended;
pub use guarded::{Guarded, Opened};
pub use lock::VolumeLock;
pub use making::{NewLock, SeatRoom};
pub use refusals::{Finished, Uncompacted, Unfinished, Unflushed};
pub use seat::VolumeSeat;
pub use told::{Places, Told};
