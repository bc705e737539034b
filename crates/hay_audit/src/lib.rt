//! Whether a transcript is one that legal turns of a script may have written, decided without a store.
//!
//! It stands on `hay_legal`, whose turns are legal, and on `hay_audit_steps`, which says what states to keep: boxes, each of states that differ in
//! the sizes of their replicas alone. Judged are the items before the first that is open: a block, or a command of which the transcript says that
//! it wanted memory.
#![tactic(auto)]

mod answers;
mod boxes;
mod change;
mod closed;
mod counts;
mod cuts;
mod del;
mod duplicates;
mod faults;
mod first;
mod fits;
mod freezes;
mod fuses;
mod items;
mod joins;
mod judge;
mod keeps;
mod lay;
mod looks;
mod notes;
mod pairs;
mod parts;
mod photos;
mod places;
mod plain;
mod puts;
mod refusals;
mod reopens;
mod replicas;
mod rooms;
mod same;
mod shows;
mod spread;
mod state;
mod steps;
mod table;
mod unreadable;
mod upkeep;
mod urls;
mod wants;

pub use judge::{Judgement, audit};
