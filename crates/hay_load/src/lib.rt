//! A bulk load: the puts of a script, gathered into batches and loaded.
//! It stands on `hay_needle`, `hay_url`, `hay_script`, `hay_reply` and `hay_batch`, and on what these stand on.
//!
//! `specs/Gathering.antt` says which batches the lines of a script make: puts that follow each other make one as long as they
//! are of one key and of distinct pairs and fit in a batch. Any other line is a bad line, and ends the batch before it.
//! `specs/Answers.antt` says what each batch is answered, and what the disks hold then; a batch that is refused changes
//! nothing. A disk's failure ends the load: whatever a stop leaves has no row of its batch, or the whole batch.
#![tactic(auto)]

mod batch;
mod failing;
mod loading;
mod reply;

pub use batch::Gathered;
pub use loading::{LoadEnd, Loading};
pub use reply::{LoadReply, load_line};
