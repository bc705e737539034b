//! The load of a script's photos into a store: its puts come in, in batches they are loaded, and what each batch and bad line is
//! answered goes out. It stands on the batches of `hay_load`, on the lines of `hay_lines`, the texts of `hay_reply`, and on the
//! source, the sink and the shelf that `hay_disk` describes.
//!
//! What it promises, where the source, the sink and the disks tell, and the disks are void or of the load's settings: with status 0
//! the bytes written are the header and the replies to all batches and bad lines of the script, in order; in whatever a stop leaves
//! of the disks given back an opening finds what they had and the batches that were told as loaded. Each other status comes for its
//! own cause alone; then the first batches and bad lines are answered, which end with lines that were read, and one batch more may
//! be loaded whole, into the first volume that has room for it. Whatever the disks tell, the replies suit what is remembered of the
//! store from its opening on: its rows, and where the cells of each replica end. `specs/Endings.antt` says so status by status.
#![tactic(auto)]

mod load;
mod said;
mod serve;
mod steps;
mod stops;
mod writing;

pub use load::load_store;
