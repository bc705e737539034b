//! Disks, pieces, arms, sources, sinks and shelves in memory. They tell everything that they hold.
//!
//! It stands on `hay_disk`, whose traits it meets, and draws with ChaCha what a power cycle leaves.
//!
//! - `SureDisk` never fails, and `SureShelf` holds such disks.
//! - `MemDisk` fails where it is told to: at the calls of a list, and at the changing calls behind a fuse. Its power
//!   cycle loses what was not synced, by a pick. `MemShelf` holds such disks.
//! - `MemArm`, `MemSource` and `MemSink` fail at the calls of a list.
//!
//! A piece shares its bytes with its duplicates and is never freed: its bytes stay in memory until the program ends.
#![tactic(auto)]

mod arm;
mod disk;
mod failures;
mod file;
mod piece;
mod place;
mod shelf;
mod slots;
mod stream;
mod sure;
mod sure_shelf;

pub use arm::MemArm;
pub use disk::MemDisk;
pub use piece::MemPiece;
pub use shelf::MemShelf;
pub use stream::{MemSink, MemSource};
pub use sure::SureDisk;
pub use sure_shelf::SureShelf;
