//! The lines of a block at the locks of a store, for any disk.
//!
//! `SharedDirectory` is the Directory's lock that lanes share, with the calls that `hay_lane` asks for, in its words, and as `hay_block`
//! makes it for one block of lines: of a Directory that is up, ending with all its seats. `specs/Directories` says which seats are of it, and
//! when it was made round a store that stood so; `specs/Making` of which Directory it was made, and when a Directory stands for what is
//! known of it. In `proofs/`, `Made` has what a new lock tells, `Ending` what one leaves that ends, `RegularRows` that what stands is such
//! as a block needs it, and `Sending` what threads may share. `run_on_locks` runs a block by these locks and those of `hay_shared_volume`.
#![tactic(auto)]

mod directory;
mod making;
mod run;

pub use directory::SharedDirectory;
pub use run::run_on_locks;
