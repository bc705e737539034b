//! The disks of a store and the arms of its lanes, taken together from a shelf and given back together. It stands on
//! `hay_disk`.
//!
//! Either all of them are taken or none: a refusal gives back what had been taken, and a stop leaves of each of these
//! disks what reads gave of it before. To give back takes no memory and cannot fail.
#![tactic(auto)]

mod arms;
mod disks;
mod fault;
mod mounted;

pub use disks::{give_disks, take_disks};
pub use fault::MountFault;
pub use mounted::{LANES, Mounted, mount, unmount};
