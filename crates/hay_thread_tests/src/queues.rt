//! What no clause says: that the calls return, that a full queue waits, and that workers run beside each other.
ghost use Rattle.std.specs.Prelude.{◌≡◌, IfOk};

use hay_base::NoMemory;
use hay_lanes::{Gate, OpenGate, Work};
use hay_queue::{Client, Desk, Ended, Job, Worker, serve_lanes, taken_begins_sent};
use std::alloc::Global;
use std::sync::Wait;
use std::sync::atomic::{AtomicU64, Ordering};
use std::test::*;
use std::thread;

// A worker that counts its answers.
#[derive(Drop)]
struct Counter {
    count: u64,
}

#[derive(Drop)]
struct Counted {
    lane: u32,
    job: u64,
    count: u64,
}

impl Work for Counter {
    ghost use Rattle.std.specs.Prelude.{⊤};

    type Job = u64;

    type Out = Counted;

    ghost may_answer = { λ worker lane job. ⊤ };

    ghost answers = { λ worker lane job after out. ⊤ };

    fn line(job: &u64) -> u64 {
        *job
    }

    fn answer<R: Wait, G: Gate>(
        &mut self,
        _rt: &R,
        _alloc: Global,
        lane: u32,
        job: &u64,
        _gate: &G,
    ) -> Counted {
        self.count = self.count.wrapping_add(1);
        Counted {
            lane,
            job: *job,
            count: self.count,
        }
    }
}

fn counters(alloc: Global, workers: u64) -> Result<Vec<Counter>, NoMemory> {
    let mut all = Vec::new(alloc);
    for _ in 0..workers {
        all.push(Counter { count: 0 })?;
    }
    Ok(all)
}

fn jobs_of(alloc: Global, lane: u64, jobs: u64) -> Result<Vec<u64>, NoMemory> {
    let mut all = Vec::new(alloc);
    for job in 0..jobs {
        all.push(lane.wrapping_mul(1_000_000).wrapping_add(job))?;
    }
    Ok(all)
}

fn lanes(alloc: Global, clients: u64, jobs: u64) -> Result<Vec<Vec<u64>>, NoMemory> {
    let mut all = Vec::new(alloc);
    for lane in 0..clients {
        all.push(jobs_of(alloc, lane, jobs)?)?;
    }
    Ok(all)
}

// The answers are to these jobs, in order, and the worker's count rises.
fn are_answers(lane: usize, jobs: &[u64], outs: &[Counted]) -> bool {
    let mut count = 0;
    for (job, out) in jobs.iter().zip(outs) {
        if out.lane as usize != lane || out.job != *job || out.count <= count {
            return false;
        }
        count = out.count;
    }
    jobs.len() == outs.len()
}

#[test]
fn lanes_are_served_in_order(rt: HostRuntime) -> Result<(), Fail> {
    let heap = rt.alloc();
    for (clients, jobs) in [(1u64, 1_488u64), (2, 744), (8, 186)] {
        for workers in [1u64, 2, 8] {
            for depth in [1usize, 16, 1_024] {
                let counters = counters(heap, workers).ok().ok_or("memory")?;
                let lanes = lanes(heap, clients, jobs).ok().ok_or("memory")?;
                let lanes = lanes.as_slice();
                assert!(rt; 0 < counters.len() && lanes.len() <= 8);
                assert!(rt; 0 < depth && depth <= 1_024);
                let served = serve_lanes(&rt, heap, counters, lanes, depth, &OpenGate);
                let (after, outs) = served.ok().ok_or("memory")?;
                let told = after.iter().map(|w| w.count).fold(0, u64::wrapping_add);
                assert_eq!(rt; told, 1_488);
                for (lane, (jobs, outs)) in lanes.iter().zip(&outs).enumerate() {
                    assert!(rt;
                        are_answers(lane, jobs.as_slice(), outs.as_slice()),
                        "lane {lane} of {clients}, {workers} workers, {depth}"
                    );
                }
            }
        }
    }
    Ok(())
}

// A worker that answers once another is answering too.
#[derive(Drop)]
struct Meeter<'a> {
    here: &'a AtomicU64,
}

impl<'a> Work for Meeter<'a> {
    ghost use Rattle.std.specs.Prelude.{⊤};

    type Job = u64;

    type Out = u64;

    ghost may_answer = { λ worker lane job. ⊤ };

    ghost answers = { λ worker lane job after out. ⊤ };

    fn line(job: &u64) -> u64 {
        *job
    }

    fn answer<R: Wait, G: Gate>(
        &mut self,
        rt: &R,
        _alloc: Global,
        _lane: u32,
        job: &u64,
        _gate: &G,
    ) -> u64 {
        self.here.fetch_add(1, Ordering::SeqCst);
        for _ in rt.forever() {
            if self.here.load(Ordering::SeqCst) >= 2 {
                break;
            }
            thread::yield_now();
        }
        *job
    }
}

#[test]
fn two_workers_run_beside_each_other(rt: HostRuntime) -> Result<(), Fail> {
    let heap = rt.alloc();
    let here = AtomicU64::new(0);
    let workers = vec![in heap; Meeter { here: &here }, Meeter { here: &here }]?;
    let jobs = [vec![in heap; 5u64]?, vec![in heap; 6u64]?];
    let served = serve_lanes(&rt, heap, workers, &jobs, 1, &OpenGate);
    let (_, outs) = served.ok().ok_or("memory")?;
    assert_eq!(rt; outs[0].as_slice(), [5u64].as_slice());
    assert_eq!(rt; outs[1].as_slice(), [6u64].as_slice());
    Ok(())
}

#[derive(Drop)]
struct Named {
    name: u64,
}

impl Job for Named {
    ghost named = { λ j. j.name };

    fn name(&self) -> u64 {
        self.name
    }
}

// A desk of one client, whose queue holds one job.
fn narrow_desk(alloc: Global) -> Result<(Desk<Named>, Client<Named>, Worker<Named>), NoMemory>
    ensures { IfOk result (λ r. (r.1.desk ≡ r.0) × (r.2.desk ≡ r.0)) }
{
    let (desk, mut clients, worker) = Desk::open(alloc, 1, 1)?;
    let client = clients.swap_remove(0);
    Ok((desk, client, worker))
}

// Sends two jobs and the end, and counts the jobs as they are sent.
fn send_two<R: Wait>(
    rt: &R,
    desk: &Desk<Named>,
    mut client: Client<Named>,
    sent: &AtomicU64,
) -> Ended<Named>
    requires { client.desk ≡ desk.now }
{
    desk.send(rt, &mut client, Named { name: 7 });
    sent.store(1, Ordering::SeqCst);
    desk.send(rt, &mut client, Named { name: 8 });
    sent.store(2, Ordering::SeqCst);
    desk.end(rt, client)
}

// How many jobs were sent before the first was taken, long after the first was sent; and the names of what is taken.
fn take_late<R: Wait>(
    rt: &R,
    desk: &Desk<Named>,
    mut worker: Worker<Named>,
    sent: &AtomicU64,
) -> (u64, [Option<u64>; 3])
    requires { worker.desk ≡ desk.now }
{
    for _ in rt.forever() {
        if sent.load(Ordering::SeqCst) > 0 {
            break;
        }
        thread::yield_now();
    }
    for _ in 0..100_000u64 {
        thread::yield_now();
    }
    let before = sent.load(Ordering::SeqCst);
    let first = desk.take(rt, &mut worker).map(|taken| taken.2.name());
    let second = desk.take(rt, &mut worker).map(|taken| taken.2.name());
    let third = desk.take(rt, &mut worker).map(|taken| taken.2.name());
    (before, [first, second, third])
}

#[test]
fn a_full_queue_waits(rt: HostRuntime) -> Result<(), Fail> {
    taken_begins_sent::<Named>();
    let (desk, client, worker) = narrow_desk(rt.alloc()).ok().ok_or("memory")?;
    let sent = AtomicU64::new(0);
    let (desk, sent) = (&desk, &sent);
    let handle = &rt;
    let ((before, taken), _ended) = thread::join(
        handle,
        move || -> (u64, [Option<u64>; 3])
            requires { worker.desk ≡ desk.now }
        { take_late(handle, desk, worker, sent) },
        move || -> Ended<Named>
            requires { client.desk ≡ desk.now }
        { send_two(handle, desk, client, sent) },
    );
    assert_eq!(rt; before, 1);
    assert_eq!(rt; taken, [Some(7), Some(8), None]);
    Ok(())
}
