//! Request queues: jobs of several clients, which one worker takes from one bounded queue.
//! It stands on hay_base, hay_lanes and crossbeam_channel. It promises of every schedule, if the calls return: what a worker has
//! taken of a client is a beginning of what the client sent, in its order, each job once, and nothing behind the client's end; and
//! where both are settled it is all that the client sent. Of time, of waiting and of the order between clients it says nothing.
#![tactic(auto)]

mod desk;
mod laws;
mod message;
mod rule;
mod serve;
mod share;

pub use desk::{Client, Desk, Ended, MAX_DEPTH, Worker};
pub use laws::taken_begins_sent;
pub use message::Job;
pub use serve::serve_lanes;
