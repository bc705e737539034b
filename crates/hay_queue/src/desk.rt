//! A queue of several clients' jobs, and its passes.
ghost use Rattle.std.specs.Prelude.{◌≡◌, ◌<◌, ◌≤◌, ◌+◌, ◌++◌, ◌∷◌, [], true, false, All, length, replicate, Some, slice_get, IfOk, IfSome, IfNone, vec_capacity};
ghost use Rattle.crossbeam_channel.specs.Claims.{view, IsSeatAt, IsKeyed};
ghost use Rattle.crossbeam_channel.specs.Ends.{sends_on, receives_on};
ghost use Rattle.hay_queue.specs.Desks.{DeskId, id_of, Sent, Taken, sent_by, taken_at, desk_of, sent_of, taken_of, IsClient, IsWorker, AreNew, AreAll, AllEnded, unended_streams, TakesEnds, TakesJob};
ghost use Rattle.hay_queue.specs.declared.rule.Stream.{Stream};
ghost use Rattle.hay_queue.specs.Rule.{first_pass, sent, took};
ghost use Rattle.hay_queue.specs.Streams.{empty, stream, name_of, TakesNext};

use crate::message::{Job, Message};
use crate::rule::{Account, Admit, InOrder, Knows, Send, Take};
use crossbeam_channel::{Pass, RuledReceiver, RuledSender, bounded_with};
use hay_base::NoMemory;
use std::alloc::Global;
use std::marker::Model;
use std::sync::Wait;
use std::thread;

/// A queue has room for at most so many jobs.
pub const MAX_DEPTH: usize = 1_024;

/// A bounded queue from several clients to one worker. Clauses see which it is.
#[derive(Drop)]
pub struct Desk<J: Job> {
    sender: RuledSender<Message<J>, Knows, InOrder>,
    receiver: RuledReceiver<Message<J>, Knows, InOrder>,
}

impl<J: Job> Model for Desk<J> {
    ghost Value = { DeskId J };

    ghost view = { λ d. id_of (sends_on d.sender) };

    ghost invariant = { λ d. (receives_on d.receiver ≡ sends_on d.sender) × IsKeyed (sends_on d.sender) };
}

/// A client of a desk. Clauses see its desk, its number and the names of the jobs that it has sent.
#[derive(Drop)]
pub struct Client<J: Job> {
    pass: Pass<Message<J>, Knows>,
    number: u32,
    count: u64,
}

impl<J: Job> Model for Client<J> {
    ghost Value = { Sent J };

    ghost view = { λ c. sent_of c.pass };

    ghost invariant = { λ c. IsClient c.pass false × (c.number ≡ (sent_of c.pass).number) × (c.count ≡ length (sent_of c.pass).names) };
}

/// A client that has sent its end. Clauses see it as they saw the client.
#[derive(Drop)]
pub struct Ended<J: Job> {
    pass: Pass<Message<J>, Knows>,
}

impl<J: Job> Model for Ended<J> {
    ghost Value = { Sent J };

    ghost view = { λ c. sent_of c.pass };

    ghost invariant = { λ c. IsClient c.pass true };
}

/// The worker of a desk. Clauses see its desk and, of each client, the names of the jobs that it has taken, and whether it has
/// taken the client's end.
#[derive(Drop)]
pub struct Worker<J: Job> {
    pass: Pass<Message<J>, Knows>,
    unended: u32,
}

impl<J: Job> Model for Worker<J> {
    ghost Value = { Taken J };

    ghost view = { λ w. taken_of w.pass };

    ghost invariant = { λ w. IsWorker w.pass × (w.unended ≡ unended_streams (taken_of w.pass).streams) };
}

impl<J: Job> Desk<J> {
    /// A desk whose queue holds so many jobs, its clients, numbered from 0, and its worker.
    pub fn open(
        alloc: Global,
        clients: u32,
        depth: usize,
    ) -> Result<(Desk<J>, Vec<Client<J>>, Worker<J>), NoMemory>
        requires clients { (0 < clients) × (clients ≤ 8) }
        requires depth { (0 < depth) × (depth ≤ MAX_DEPTH) }
        ensures clients { IfOk result (λ r. AreNew r.0 clients r.1.items) }
        ensures worker { IfOk result (λ r. r.2 ≡ taken_at r.0 (replicate clients empty)) }
    {
        let room = Vec::with_capacity(alloc, clients as usize)?;
        let (sender, receiver, pass) = bounded_with(alloc, depth)?;
        let desk = Desk { sender, receiver };
        let (admitted, worker) = desk.admit(room, pass, clients);
        Ok((desk, admitted, worker))
    }

    // Splits the clients' passes off.
    fn admit(
        &self,
        mut admitted: Vec<Client<J>>,
        mut pass: Pass<Message<J>, Knows>,
        clients: u32,
    ) -> (Vec<Client<J>>, Worker<J>)
        requires own { (desk_of pass ≡ self.now) × (pass.me.1 ≡ []) }
        requires room { (admitted.items ≡ []) × (clients ≤ vec_capacity admitted) }
        requires first { view pass ≡ first_pass }
        ensures clients { AreNew self.now clients result.0.items }
        ensures worker { result.1 ≡ taken_at self.now (replicate clients empty) }
    {
        for number in 0..clients {
            let client = self.sender.another::<Admit>(&mut pass);
            admitted.push_reserved(Client {
                pass: client,
                number,
                count: 0,
            });
        }
        let worker = Worker {
            pass,
            unended: clients,
        };
        (admitted, worker)
    }

    // Sends a message, once there is room.
    fn push<R: Wait>(&self, rt: &R, pass: &mut Pass<Message<J>, Knows>, mut message: Message<J>)
        requires client { (desk_of pass.old ≡ self.now) × IsClient pass.old false }
        requires next { (message.from ≡ (view pass.old).number) × (message.place ≡ length (view pass.old).sent.names) }
        ensures own { (desk_of pass.new ≡ desk_of pass.old) × (pass.new.me.1 ≡ []) }
        ensures sent { sent J.named (view pass.old) message (view pass.new) }
    {
        for _ in rt.forever() {
            match self.sender.send_as::<Send, R>(rt, pass, message) {
                Ok(()) => return,
                Err(refused) => message = refused.into_inner(),
            }
            thread::yield_now();
        }
        unreachable!()
    }

    /// Sends a job, once the queue has room, and answers how many jobs this client had sent before. The queue takes some 2^61
    /// messages in all: a send beyond them waits for ever.
    pub fn send<R: Wait>(&self, rt: &R, client: &mut Client<J>, job: J) -> u64
        requires { client.old.desk ≡ self.now }
        ensures before { result ≡ length client.old.names }
        ensures sent { client.new ≡ sent_by self.now client.old.number (client.old.names ++ J.named job ∷ []) }
    {
        let place = client.count;
        let message = Message {
            from: client.number,
            place,
            job: Some(job),
        };
        let count = next_count(rt, place);
        self.push(rt, &mut client.pass, message);
        client.count = count;
        place
    }

    /// Sends the client's end, once the queue has room.
    pub fn end<R: Wait>(&self, rt: &R, client: Client<J>) -> Ended<J>
        requires { client.desk ≡ self.now }
        ensures { result ≡ client }
    {
        let Client {
            mut pass,
            number,
            count,
        } = client;
        let message = Message {
            from: number,
            place: count,
            job: None,
        };
        self.push(rt, &mut pass, message);
        Ended { pass }
    }

    // Takes one message, once there is one.
    fn pop<R: Wait>(&self, rt: &R, pass: &mut Pass<Message<J>, Knows>) -> Message<J>
        requires worker { (desk_of pass.old ≡ self.now) × IsWorker pass.old }
        ensures own { (desk_of pass.new ≡ desk_of pass.old) × (pass.new.me.1 ≡ []) }
        ensures taken { took J.named (view pass.old) result (view pass.new) }
    {
        for _ in rt.forever() {
            if let Ok(message) = self.receiver.recv_as::<Take, R>(rt, pass) {
                return message;
            }
            thread::yield_now();
        }
        unreachable!()
    }

    // Takes one message, once there is one: its client, its place, and its job, or none for the client's end.
    fn take_next<R: Wait>(&self, rt: &R, worker: &mut Worker<J>) -> (u32, u64, Option<J>)
        requires { worker.old.desk ≡ self.now }
        ensures own { worker.new.desk ≡ self.now }
        ensures taken { TakesNext worker.old.streams worker.new.streams result.0 result.1 (name_of J.named result.2) }
    {
        let Message { from, place, job } = self.pop(rt, &mut worker.pass);
        match job {
            Some(job) => (from, place, Some(job)),
            None => {
                worker.unended -= 1;
                (from, place, None)
            }
        }
    }

    /// Takes the next job, once there is one: its client, its place among the client's jobs, and the job. `None` where every
    /// client's end was taken.
    pub fn take<R: Wait>(&self, rt: &R, worker: &mut Worker<J>) -> Option<(u32, u64, J)>
        requires { worker.old.desk ≡ self.now }
        ensures own { worker.new.desk ≡ self.now }
        ensures job { IfSome result (λ r. TakesJob worker.old.streams worker.new.streams r.0 r.1 (J.named r.2)) }
        ensures none { IfNone result (TakesEnds worker.old.streams worker.new.streams × AllEnded worker.new.streams) }
    {
        for _ in rt.forever() {
            if worker.has_all_ends() {
                return None;
            }
            let (from, place, said) = self.take_next(rt, worker);
            if let Some(job) = said {
                return Some((from, place, job));
            }
        }
        unreachable!()
    }

    // Takes a client's pass back. Where its end was taken, all that it sent was.
    fn account(&self, worker: &mut Worker<J>, client: Ended<J>)
        requires { (worker.old.desk ≡ self.now) × (client.desk ≡ self.now) }
        ensures same { worker.new ≡ worker.old }
        ensures settled { (s : Stream) → slice_get worker.old.streams client.number ≡ Some s → s.ended ≡ true → s ≡ stream client.names true }
    {
        let Ended { pass } = client;
        self.sender.absorb::<Account>(&mut worker.pass, pass);
        self.sender.learn_as::<Account>(&mut worker.pass);
    }

    /// Ends the desk, with all its clients. What the worker has taken of each is all that it sent.
    pub fn settle(self, mut worker: Worker<J>, ended: Vec<Ended<J>>) -> Worker<J>
        requires worker { (worker.desk ≡ self) × AllEnded worker.streams }
        requires clients { AreAll self (length worker.streams) ended.items }
        ensures same { result ≡ worker }
        ensures settled { All (λ c. slice_get worker.streams c.number ≡ Some (stream c.names true)) ended.items }
    {
        for client in ended {
            self.account(&mut worker, client);
        }
        worker
    }
}

impl<J: Job> Worker<J> {
    // Every client's end was taken.
    fn has_all_ends(&self) -> bool
        ensures { result ≡ true → AllEnded self.now.streams }
    {
        self.unended == 0
    }
}

// The number behind it. Behind the last there is none, and the call waits for ever.
fn next_count<R: Wait>(rt: &R, count: u64) -> u64
    ensures { result ≡ count + 1 }
{
    for _ in rt.forever() {
        if let Some(next) = count.checked_add(1) {
            return next;
        }
        thread::yield_now();
    }
    unreachable!()
}
