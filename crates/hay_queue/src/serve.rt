//! Workers that serve lanes from request queues.
ghost use Rattle.std.specs.Prelude.{◌≡◌, ◌≢◌, ◌<◌, ◌≤◌, ◌^◌, [], ◌∷◌, ◌++◌, All, length, replicate, map, vec_len, vec_capacity, None, Some, slice_get, IsSome, IfOk, IfErr, IfSome, IfNone, ℕ};
ghost use Rattle.hay_queue.specs.Benches.{AnswersCall, AreClients, AreReady, AreSent, HasRooms, IsKit, IsReady, IsServed, MayAnswerAll, OutsAt, Served, Serving, kit_in, worker_in};
ghost use Rattle.hay_queue.specs.Desks.{AllEnded, AreNew, sent_by, taken_at};
ghost use Rattle.hay_queue.specs.Serves.{MayServe, ServesLanes, StaysReady};
ghost use Rattle.hay_queue.specs.Shares.{lane_at};
ghost use Rattle.hay_queue.specs.Streams.{empty};

use crate::desk::{Client, Desk, Ended, MAX_DEPTH, Worker};
use crate::message::Job;
use crate::share::Share;
use hay_base::NoMemory;
use hay_lanes::{Gate, Point, Work};
use std::alloc::Global;
use std::sync::Wait;
use std::thread::Threads;
use std::{mem, thread};

// A job's place in its lane.
#[derive(Drop)]
struct Call {
    place: u64,
}

impl Job for Call {
    ghost named = { λ c. c.place };

    fn name(&self) -> u64 {
        self.place
    }
}

// The clients of a desk, and room for those that have ended.
#[derive(Drop)]
struct Senders {
    clients: Vec<Client<Call>>,
    ended: Vec<Ended<Call>>,
}

// A desk with its passes.
#[derive(Drop)]
struct Post {
    desk: Desk<Call>,
    senders: Senders,
    taker: Worker<Call>,
}

// Room for the answers to each lane of a worker, and its desk, where it has a lane.
#[derive(Drop)]
struct Kit<O> {
    outs: Vec<Vec<O>>,
    post: Option<Post>,
}

#[derive(Drop)]
struct Bench<W: Work> {
    worker: W,
    kit: Kit<W::Out>,
}

// Sends all calls of a client's lane.
fn send_lane<J, R: Wait>(
    rt: &R,
    desk: &Desk<Call>,
    share: Share,
    jobs: &[Vec<J>],
    client: usize,
    sender: &mut Client<Call>,
)
    requires lane { lane_at share.seat share.seats client < length jobs.now }
    requires own { (sender.old.desk ≡ desk.now) × (sender.old.names ≡ []) }
    ensures same { (sender.new.desk ≡ sender.old.desk) × (sender.new.number ≡ sender.old.number) }
    ensures sent { (js : _) → slice_get jobs.now (lane_at share.seat share.seats client) ≡ Some js → length sender.new.names ≡ length js.items }
{
    let calls = jobs[share.lane(client, jobs.len())].len();
    for place in 0..calls {
        let place = place as u64;
        desk.send(rt, sender, Call { place });
    }
}

// Sends the ends of all clients.
fn end_all<R: Wait>(
    rt: &R,
    desk: &Desk<Call>,
    clients: Vec<Client<Call>>,
    mut ended: Vec<Ended<Call>>,
) -> Vec<Ended<Call>>
    requires own { All (λ c. c.desk ≡ desk.now) clients.items }
    requires room { (ended.items ≡ []) × (vec_len clients ≤ vec_capacity ended) }
    ensures { result.items ≡ clients.items }
{
    for client in clients {
        ended.push_reserved(desk.end(rt, client));
    }
    ended
}

// Sends all calls of all lanes of a desk, each lane in a thread of its own where one can be made, and then the ends.
fn send_all<J: Sync, R: Threads + Wait + Sync>(
    rt: &R,
    desk: &Desk<Call>,
    share: Share,
    jobs: &[Vec<J>],
    senders: Senders,
) -> Vec<Ended<Call>>
    requires lanes { AreClients share.seat share.seats (vec_len senders.clients) jobs.now × (length jobs.now ≤ 8) }
    requires senders { AreReady desk.now senders }
    ensures { AreSent share.seat share.seats desk.now jobs.now (vec_len senders.clients) result.items }
{
    let one_lane = |client: usize, sender: &mut Client<Call>|
        requires { (lane_at share.seat share.seats client < length jobs.now) × (length jobs.now ≤ 8) × (sender.old ≡ sent_by desk.now client []) }
        ensures { (sender.new.desk ≡ sender.old.desk) × (sender.new.number ≡ sender.old.number)
            × ((js : _) → slice_get jobs.entry.now (lane_at share.seat share.seats client) ≡ Some js → length sender.new.names ≡ length js.items) }
    { send_lane(rt, desk, share, jobs, client, sender) };
    let Senders { mut clients, ended } = senders;
    let threads = clients.len().max(1);
    thread::for_each_mut(rt, clients.as_mut_slice(), threads, &one_lane);
    end_all(rt, desk, clients, ended)
}

// Answers a client's call, if its lane has a job there.
fn answer_call<W: Work, R: Wait, G: Gate>(
    rt: &R,
    alloc: Global,
    share: Share,
    jobs: &[Vec<W::Job>],
    client: usize,
    place: usize,
    gate: &G,
    bench: &mut Bench<W>,
)
    requires client { (client < vec_len bench.old.kit.outs) × (lane_at share.seat share.seats client < length jobs.now) }
    requires few { length jobs.now ≤ 8 }
    requires may { MayAnswerAll share.seat share.seats W.may_answer jobs.now bench.old.worker }
    requires next { (js os : _) → slice_get jobs.now (lane_at share.seat share.seats client) ≡ Some js → slice_get bench.old.kit.outs.items client ≡ Some os
        → place < length js.items → vec_len os < vec_capacity os }
    ensures { (js os : _) → slice_get jobs.now (lane_at share.seat share.seats client) ≡ Some js → slice_get bench.old.kit.outs.items client ≡ Some os
        → AnswersCall W.answers (lane_at share.seat share.seats client) client place js os bench.old bench.new }
{
    let lane = share.lane(client, jobs.len());
    if let Some(job) = jobs[lane].as_slice().get(place) {
        gate.pass(lane as u32, W::line(job), Point::Start);
        let out = bench.worker.answer(rt, alloc, lane as u32, job, gate);
        bench.kit.outs[client].push_reserved(out);
        gate.pass(lane as u32, W::line(job), Point::Answered);
    }
}

// Answers all calls of a desk, in the order in which they are taken.
fn answer_all<W: Work, R: Wait, G: Gate>(
    rt: &R,
    alloc: Global,
    desk: &Desk<Call>,
    share: Share,
    jobs: &[Vec<W::Job>],
    gate: &G,
    mut bench: Bench<W>,
    mut taker: Worker<Call>,
) -> (Bench<W>, Worker<Call>)
    requires lanes { AreClients share.seat share.seats (vec_len bench.kit.outs) jobs.now × (length jobs.now ≤ 8) }
    requires taker { taker ≡ taken_at desk.now (replicate (vec_len bench.kit.outs) empty) }
    requires rooms { HasRooms share.seat share.seats jobs.now (vec_len bench.kit.outs) bench.kit.outs.items }
    requires may { MayAnswerAll share.seat share.seats W.may_answer jobs.now bench.worker × StaysReady W.may_answer W.answers }
    ensures taker { (result.1.desk ≡ desk.now) × (length result.1.streams ≡ vec_len bench.kit.outs) × AllEnded result.1.streams }
    ensures served { Serving share.seat share.seats W.answers jobs.now bench.worker result.1.streams result.0.worker result.0.kit.outs.items }
{
    for _ in rt.forever() {
        let Some((client, place, _call)) = desk.take(rt, &mut taker) else {
            return (bench, taker);
        };
        answer_call(
            rt,
            alloc,
            share,
            jobs,
            client as usize,
            place as usize,
            gate,
            &mut bench,
        );
    }
    unreachable!()
}

// Serves all lanes of a worker, which has a thread of its own beside its clients where one can be made.
fn serve_bench<W: Work, R: Threads + Wait + Sync, G: Gate + Sync>(
    rt: &R,
    alloc: Global,
    share: Share,
    jobs: &[Vec<W::Job>],
    gate: &G,
    mut bench: Bench<W>,
) -> Bench<W>
    requires kit { IsKit share.seat share.seats jobs.now bench.kit }
    requires few { length jobs.now ≤ 8 }
    requires may { MayAnswerAll share.seat share.seats W.may_answer jobs.now bench.worker × StaysReady W.may_answer W.answers }
    ensures { Served share.seat share.seats W.answers jobs.now bench.worker result.worker result.kit.outs.items }
{
    let Some(post) = bench.kit.post.take() else {
        return bench;
    };
    let Post {
        desk,
        senders,
        taker,
    } = post;
    let shared = &desk;
    let ((bench, taker), ended) = thread::join(
        rt,
        move || -> (Bench<W>, Worker<Call>)
            requires { AreClients share.seat share.seats (vec_len bench.kit.outs) jobs.now × (length jobs.now ≤ 8)
                × (taker ≡ taken_at shared.now (replicate (vec_len bench.kit.outs) empty)) × HasRooms share.seat share.seats jobs.now (vec_len bench.kit.outs) bench.kit.outs.items
                × MayAnswerAll share.seat share.seats W.may_answer jobs.now bench.worker × StaysReady W.may_answer W.answers }
            ensures { (result.1.desk ≡ shared.entry.now) × (length result.1.streams ≡ vec_len bench.kit.outs) × AllEnded result.1.streams
                × Serving share.seat share.seats W.answers jobs.entry.now bench.worker result.1.streams result.0.worker result.0.kit.outs.items }
        { answer_all(rt, alloc, shared, share, jobs, gate, bench, taker) },
        move || -> Vec<Ended<Call>>
            requires { AreClients share.seat share.seats (vec_len senders.clients) jobs.now × (length jobs.now ≤ 8) × AreReady shared.now senders }
            ensures { AreSent share.seat share.seats shared.entry.now jobs.entry.now (vec_len senders.clients) result.items }
        { send_all(rt, shared, share, jobs, senders) },
    );
    desk.settle(taker, ended);
    bench
}

// Room for the answers to each lane of a worker.
fn rooms_for<J, O: Drop>(
    alloc: Global,
    share: Share,
    jobs: &[Vec<J>],
    clients: usize,
) -> Result<Vec<Vec<O>>, NoMemory>
    requires { AreClients share.seat share.seats clients jobs.now }
    ensures { IfOk result (λ rooms. HasRooms share.seat share.seats jobs.now clients rooms.items) }
{
    let mut rooms = Vec::with_capacity(alloc, clients)?;
    for client in 0..clients {
        let lane = share.lane(client, jobs.len());
        rooms.push_reserved(Vec::with_capacity(alloc, jobs[lane].len())?);
    }
    Ok(rooms)
}

// What a worker needs for its lanes.
fn kit_for<J, O: Drop>(
    alloc: Global,
    share: Share,
    jobs: &[Vec<J>],
    depth: usize,
) -> Result<Kit<O>, NoMemory>
    requires seat { share.seat < share.seats }
    requires few { length jobs.now ≤ 8 }
    requires depth { (0 < depth) × (depth ≤ MAX_DEPTH) }
    ensures { IfOk result (λ kit. IsKit share.seat share.seats jobs.now kit) }
{
    let clients = share.clients(jobs.len());
    let outs = rooms_for(alloc, share, jobs, clients)?;
    if clients == 0 {
        return Ok(Kit { outs, post: None });
    }
    let (desk, clients, taker) = Desk::open(alloc, clients as u32, depth)?;
    let ended = Vec::with_capacity(alloc, clients.len())?;
    let senders = Senders { clients, ended };
    let post = Post {
        desk,
        senders,
        taker,
    };
    let post = Some(post);
    Ok(Kit { outs, post })
}

fn kits_for<J, O: Drop>(
    alloc: Global,
    seats: usize,
    jobs: &[Vec<J>],
    depth: usize,
) -> Result<Vec<Kit<O>>, NoMemory>
    requires few { length jobs.now ≤ 8 }
    requires depth { (0 < depth) × (depth ≤ MAX_DEPTH) }
    ensures len { IfOk result (λ kits. vec_len kits ≡ seats) }
    ensures each { IfOk result (λ kits. (seat : ℕ) (kit : _) → slice_get kits.items seat ≡ Some kit → IsKit seat seats jobs.now kit) }
{
    let mut kits = Vec::with_capacity(alloc, seats)?;
    for seat in 0..seats {
        kits.push_reserved(kit_for(alloc, Share { seat, seats }, jobs, depth)?);
    }
    Ok(kits)
}

// Gives each worker its kit.
fn benches_of<W: Work>(
    workers: Vec<W>,
    kits: Vec<Kit<W::Out>>,
    mut benches: Vec<Option<Bench<W>>>,
) -> Vec<Option<Bench<W>>>
    requires seats { length kits.items ≡ length workers.items }
    requires room { (benches.items ≡ []) × (vec_len workers ≤ vec_capacity benches) }
    ensures workers { map worker_in result.items ≡ map (λ w. Some w) workers.items }
    ensures kits { map kit_in result.items ≡ map (λ k. Some k) kits.items }
{
    let mut kits = kits.into_iter();
    for worker in workers {
        let Some(kit) = kits.next() else {
            unreachable!()
        };
        benches.push_reserved(Some(Bench { worker, kit }));
    }
    benches
}

// Serves all lanes of the worker that stands there.
fn serve_slot<W: Work, R: Threads + Wait + Sync, G: Gate + Sync>(
    rt: &R,
    alloc: Global,
    share: Share,
    jobs: &[Vec<W::Job>],
    gate: &G,
    slot: &mut Option<Bench<W>>,
)
    requires ready { IsReady share.seat share.seats W.may_answer jobs.now slot.old × (length jobs.now ≤ 8) × StaysReady W.may_answer W.answers }
    ensures { IsServed share.seat share.seats W.answers jobs.now slot.old slot.new }
{
    if let Some(bench) = slot.take() {
        *slot = Some(serve_bench(rt, alloc, share, jobs, gate, bench));
    }
}

// Serves all lanes, each worker in a thread of its own where one can be made.
fn serve_benches<W: Work, R: Threads + Wait + Sync, G: Gate + Sync>(
    rt: &R,
    alloc: Global,
    seats: usize,
    jobs: &[Vec<W::Job>],
    gate: &G,
    mut benches: Vec<Option<Bench<W>>>,
) -> Vec<Option<Bench<W>>>
    requires seats { vec_len benches ≡ seats }
    requires few { length jobs.now ≤ 8 }
    requires stays { StaysReady W.may_answer W.answers }
    requires ready { (seat : ℕ) (slot : _) → slice_get benches.items seat ≡ Some slot → IsReady seat seats W.may_answer jobs.now slot }
    ensures same { vec_len result ≡ seats }
    ensures served { (seat : ℕ) (slot after : _) → slice_get benches.items seat ≡ Some slot → slice_get result.items seat ≡ Some after → IsServed seat seats W.answers jobs.now slot after }
{
    let one_slot = |seat: usize, slot: &mut Option<Bench<W>>|
        requires { IsReady seat seats W.may_answer jobs.now slot.old × (length jobs.now ≤ 8) × StaysReady W.may_answer W.answers }
        ensures { IsServed seat seats W.answers jobs.entry.now slot.old slot.new }
    { serve_slot(rt, alloc, Share { seat, seats }, jobs, gate, slot) };
    let threads = seats.max(1);
    thread::for_each_mut(rt, benches.as_mut_slice(), threads, &one_slot);
    benches
}

// The workers, and their kits.
fn parts_of<W: Work>(
    benches: Vec<Option<Bench<W>>>,
    mut workers: Vec<W>,
    mut kits: Vec<Kit<W::Out>>,
) -> (Vec<W>, Vec<Kit<W::Out>>)
    requires all { All (λ slot. IsSome slot) benches.items }
    requires workers { (workers.items ≡ []) × (vec_len benches ≤ vec_capacity workers) }
    requires kits { (kits.items ≡ []) × (vec_len benches ≤ vec_capacity kits) }
    ensures workers { map (λ w. Some w) result.0.items ≡ map worker_in benches.items }
    ensures kits { map (λ k. Some k) result.1.items ≡ map kit_in benches.items }
{
    for slot in benches {
        let Some(bench) = slot else { unreachable!() };
        let Bench { worker, kit } = bench;
        workers.push_reserved(worker);
        kits.push_reserved(kit);
    }
    (workers, kits)
}

fn take_outs<O: Drop>(alloc: Global, kit: &mut Kit<O>, client: usize) -> Vec<O>
    requires { client < length kit.old.outs.items }
    ensures taken { slice_get kit.old.outs.items client ≡ Some result }
    ensures others { (other : ℕ) → other ≢ client → slice_get kit.new.outs.items other ≡ slice_get kit.old.outs.items other }
{
    mem::replace(&mut kit.outs[client], Vec::new(alloc))
}

// The answers to each lane, in the order of the lanes.
fn gather<O: Drop>(
    alloc: Global,
    mut kits: Vec<Kit<O>>,
    lanes: usize,
    mut answers: Vec<Vec<O>>,
) -> Vec<Vec<O>>
    requires seats { 0 < vec_len kits }
    requires all { (lane : ℕ) → lane < lanes → (os : _) × OutsAt kits.items (vec_len kits) lane os }
    requires room { (answers.items ≡ []) × (lanes ≤ vec_capacity answers) }
    ensures len { vec_len result ≡ lanes }
    ensures each { (lane : ℕ) (os : _) → lane < lanes → OutsAt kits.items (vec_len kits) lane os → slice_get result.items lane ≡ Some os }
{
    let seats = kits.len();
    for lane in 0..lanes {
        let outs = take_outs(alloc, &mut kits[lane % seats], lane / seats);
        answers.push_reserved(outs);
    }
    answers
}

/// Answers all jobs of all lanes: worker `i` those of the lanes `L` with `L mod W = i`, for `W` workers, in an order in which each
/// lane's jobs keep theirs. Each worker and each lane has a thread of its own where threads can be made; where none can, a call
/// whose lanes don't fit in their queues waits for ever. The memory is taken before the first job. `NoMemory` gives the workers
/// back, and no job was answered.
pub fn serve_lanes<W: Work, G: Gate + Sync, R: Threads + Wait + Sync>(
    rt: &R,
    alloc: Global,
    workers: Vec<W>,
    jobs: &[Vec<W::Job>],
    depth: usize,
    gate: &G,
) -> Result<(Vec<W>, Vec<Vec<W::Out>>), (Vec<W>, NoMemory)>
    requires workers { 0 < vec_len workers }
    requires lanes { length jobs.now ≤ 8 }
    requires depth { (0 < depth) × (depth ≤ MAX_DEPTH) }
    requires may { MayServe W.may_answer workers.items (map (λ v. v.items) jobs.now) }
    requires stays { StaysReady W.may_answer W.answers }
    ensures answered { IfOk result (λ r. ServesLanes W.answers workers.items (map (λ v. v.items) jobs.now) r.0.items (map (λ v. v.items) r.1.items)) }
    ensures refused { IfErr result (λ r. r.0.items ≡ workers.items) }
{
    let seats = workers.len();
    let Ok(kits) = kits_for::<W::Job, W::Out>(alloc, seats, jobs, depth) else {
        return Err((workers, NoMemory));
    };
    let Ok(benches) = Vec::with_capacity(alloc, seats) else {
        return Err((workers, NoMemory));
    };
    let Ok(after) = Vec::with_capacity(alloc, seats) else {
        return Err((workers, NoMemory));
    };
    let Ok(served) = Vec::with_capacity(alloc, seats) else {
        return Err((workers, NoMemory));
    };
    let Ok(answers) = Vec::with_capacity(alloc, jobs.len()) else {
        return Err((workers, NoMemory));
    };
    let benches = benches_of(workers, kits, benches);
    let benches = serve_benches(rt, alloc, seats, jobs, gate, benches);
    let (after, kits) = parts_of(benches, after, served);
    Ok((after, gather(alloc, kits, jobs.len(), answers)))
}
