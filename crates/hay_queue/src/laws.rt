//! What the rule of a desk says at every moment.
ghost use Rattle.hay_queue.specs.Laws.{EndsAreLast, TakenBeginsSent};

use crate::message::Job;

/// At every moment of every schedule what a worker has taken of a client is a beginning of what the client has sent, in its order
/// and each job once. Where the client's end was taken it is all, and nothing of the client is left in the queue. The desk's calls
/// keep the rule from which this follows. This call does nothing.
pub fn taken_begins_sent<J: Job>()
    ensures begins { TakenBeginsSent J.named }
    ensures last { EndsAreLast J.named }
{}
