//! A day's use of a store: its script, and the summary of what the store answers.
//!
//! It stands on the words of `hay_url` and `hay_reply`, and on `hex`. There is one script for each number of photos and first key, and one summary
//! of a list of replies; `specs/` says both, and what is written is just that. Nothing here runs a store.
#![tactic(auto)]

mod script;
mod summary;

pub use script::{drill_script, drill_settings};
pub use summary::{Summary, summary_text};
