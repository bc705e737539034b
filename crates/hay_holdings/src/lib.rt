//! What one call at a lock tells of a lane, and what the calls of one line are together: the answer of that line.
//!
//! A lane has two seats at each lock, at the turn and at the published view. A call holds the lock once, finds what acts had been made,
//! and makes one act or none; or it looks at the view alone. In `specs/`, `Holdings` says what the seats know behind a holding or a look,
//! `Volumes` and `Rows` have the clause of each call by its answer, `Sights` makes a call a step of the lane, and `Lines` says how far a
//! line has come behind several: which tries refused a photo, what a read passed over, what a compaction did.
//!
//! In `proofs/` there is a law for each command and reply: from the line's calls, in their order, follows what `hay_meeting` asks of its
//! answer. `Worked` has lines that are answered so.
//!
//! It stands on `hay_meeting`. It has no code.
#![tactic(auto)]
