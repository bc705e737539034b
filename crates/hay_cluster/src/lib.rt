//! The store behind the program: one command is answered at a time, each by the rules of legality.
//! It stands on the Directory of `hay_directory`, on the volumes of `hay_logical` and on the lanes' seats of
//! `hay_reader`, with a shelf of disks and arms below. What it promises is said of the known state of `hay_legal`: an
//! answer is legal from the state before it, a restart finds one of that state's outcomes, and the disks that are given
//! back hold the state behind the last one.
//!
//! The Directory's disk is in slot 0, and behind it, volume by volume, are the disks of the replicas. A command has to do
//! with the disks of one volume at most, and a put with the Directory's. A change that fails freezes its volume, or the
//! Directory, until a restart, which tells what the disks kept of it.
#![tactic(auto)]

mod changes;
mod closed;
mod closing;
mod cluster;
mod fault;
mod lending;
mod maintenance;
mod opening;
mod parts;
mod put;
mod reading;

pub use cluster::Cluster;
pub use fault::ClusterFault;
pub use lending::ClusterParts;
pub use put::Tried;
