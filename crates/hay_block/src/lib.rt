//! A block of lines that lanes answer beside each other, over a lock for each volume and one for the Directory. Locks are made for one
//! block and end with it, so nothing has happened where it begins, and all that happened is known where it ends.
//!
//! `run_block` takes the volumes and the Directory of a store with the arms of its lanes, and gives them back: it makes the locks, a
//! `SharedVolume` of each volume and one of the Directory such as the trait `DirectoryLocks` says, answers the lines, and ends the locks.
//! `give_seats` and `take_seats` bring the seats of a lock to their lanes and back, and `run_lines` answers all lines of all lanes, each by
//! a `LaneWorker` and `hay_lane`. A lane makes each reply into text as soon as it has it, and gives out a `ReplyText`: in clauses that is
//! the reply, of which the text alone is kept. Where memory is wanting for the text it is the reply, and its text is made behind the block.
//!
//! `specs/Making` says what is told where the Directory's lock is made and where it ends, as `hay_shared_volume` does of a volume's,
//! `Frames` how the locks are made and end one behind the other, and `Stores` what the store stands for. `specs/Ends` says what is known
//! where the locks are made and where they end, `Behind` what stands then and which notes tell of it, `Texts` what is kept of a reply,
//! and `Lines` and `Seats` what the lanes answer and where they sit. By `specs/Law` and `Lanes` the
//! lines of such a block are legal, whatever the order in which the lanes came to the locks. `hay_meeting` asks for what follows, and
//! has it from here:
//!
//! | what is asked | where it is known |
//! |---|---|
//! | one to eight lanes, and no line twice | the script that was read |
//! | what stands before the lines, and that it is regular | what the store stands for; each lock tells what stood where it was made |
//! | no lane has seen or done anything | a new lock's seats are new |
//! | the counts of the arms, before and behind | what the store stands for; the arms come back with their lanes |
//! | the lines are those of lanes, each from what its lane knew | what each worker answered, in the order of its jobs |
//! | the acts at each lock are own acts of its seats, and begin with what each has seen | where a lock ends |
//! | they may follow one another, and have a count for each replica | what stands behind a lock, where its disks tell |
//! | what stands behind the lines | what those acts left, and the counts of disks behind them |
//! | no count is above 2^64 - 1 | counts that are read behind the locks' end, since no act bounds them |
#![tactic(auto)]

mod block;
mod frame;
mod locks;
mod notes;
mod parts;
mod run;
mod seating;
mod store;
mod text;
mod worker;

pub use locks::DirectoryLocks;
pub use run::run_lines;
pub use seating::{give_seats, take_seats};
pub use store::{BlockAnswers, BlockNotes, StoreParts, run_block};
pub use text::ReplyText;
pub use worker::{Job, LaneWorker};
