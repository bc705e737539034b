//! The journal of the Directory: a superblock, a row for each pair that was given its volume, and the end mark, eight
//! bytes that are not the row magic. What stands behind the end mark counts for nothing. A row is the magic `HOMEROW1`,
//! key (8 bytes), alternate key (4) and volume (4), the highest byte first.
//! It stands on `hay_needle`, `hay_disk` and, for reading a file of rows, `hay_head`.
//!
//! A settled row is added at the end, and whatever a stop leaves has the rows with the new one or without it. Opening
//! answers by the bytes: the rows exactly where the file is such a journal, and else the first place that is damaged; a
//! file of size 0 is formatted.
#![tactic(auto)]

mod fault;
mod journal;
mod row;
mod scan;

pub use fault::OpenFault;
pub use journal::Journal;
pub use row::{DirRow, ROW_LEN};
pub use scan::{Due, JOURNAL_FILE, read_row};
