//! The rule of a queue: what it holds, and what its passes know.
use crate::message::{Job, Message};
use crossbeam_channel::protocol::{Join, Lesson, Outcome, Protocol, Split};
use std::collections::LinkedList;

/// The names of a client's jobs, in order, and whether its end stands behind them.
pub struct Stream {
    pub names: LinkedList<u64>,
    pub ended: bool,
}

/// What a pass knows: the worker's, what was taken of each client; a client's, its number and what it sent.
/// No value of it is made.
pub struct Knows {
    pub takes: bool,
    pub heard: LinkedList<Stream>,
    pub sends: bool,
    pub number: u32,
    pub sent: Stream,
}

pub struct InOrder;

impl<J: Job> Protocol<Message<J>, Knows> for InOrder {
    ghost use Rattle.hay_queue.specs.Rule.{Kept, first_pass};

    ghost holds = { Kept J.named };

    ghost first = { first_pass };
}

/// A new client's pass is split off the worker's.
pub(crate) struct Admit;

impl Split<Knows> for Admit {
    ghost use Rattle.hay_queue.specs.Rule.{one_client_more, new_client};

    ghost left = { one_client_more };

    ghost right = { new_client };
}

/// The worker's pass takes in a client's.
pub(crate) struct Account;

impl Join<Knows> for Account {
    ghost use Rattle.hay_queue.specs.Rule.{accounted, nobody};

    ghost both = { accounted };

    ghost spent = { nobody };
}

impl<J: Job> Lesson<Message<J>, Knows> for Account {
    ghost use Rattle.hay_queue.specs.Rule.{IsSettled};

    ghost fact = { λ v items. IsSettled v };
}

pub(crate) struct Send;

impl<J: Job> Outcome<Message<J>, Knows> for Send {
    ghost use Rattle.hay_queue.specs.Rule.{sent};

    ghost then = { sent J.named };
}

impl<J: Job> Lesson<Message<J>, Knows> for Send {
    ghost use Rattle.std.specs.Prelude.{⊤};

    ghost fact = { λ v items. ⊤ };
}

pub(crate) struct Take;

impl<J: Job> Outcome<Message<J>, Knows> for Take {
    ghost use Rattle.hay_queue.specs.Rule.{took};

    ghost then = { took J.named };
}

impl<J: Job> Lesson<Message<J>, Knows> for Take {
    ghost use Rattle.std.specs.Prelude.{⊤};

    ghost fact = { λ v items. ⊤ };
}
