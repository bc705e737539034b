ghost use Rattle.std.specs.Prelude.{◌<◌};

mod draw;
mod plain;

use draw::{Draw, Job, Strike};
use hay_base::{Listed, NoMemory};
use hay_core::{Core, CoreReply, CoreTag, Event, Work, run_events};
use hay_needle::{Cookie, Needle, Outcome, Pair, Photo};
use plain::{Change, Plain};
use std::alloc::Global;
use std::process::Abort;
use std::test::*;

fn pair_of(pair: u8) -> Pair {
    Pair {
        key: (pair % 2) as u64,
        alt: (pair / 2) as u32,
    }
}

// A photo of one byte, whose cookie goes by the byte.
fn photo(alloc: Global, byte: u8) -> Result<Photo, NoMemory> {
    Ok(Photo {
        cookie: Cookie(byte as u64 + 100),
        bytes: Listed::one(alloc, byte)?,
    })
}

// No photo that is put has the byte 0.
fn byte_of(photo: &Photo) -> u8 {
    match photo.bytes.as_slice() {
        [byte] if photo.cookie == Cookie(*byte as u64 + 100) => *byte,
        _ => 0,
    }
}

fn put(alloc: Global, pair: u8, byte: u8) -> Result<Event, NoMemory> {
    Ok(Event::Begin {
        tag: CoreTag { lane: 2, line: 5 },
        work: Work::Put {
            pair: pair_of(pair),
            photo: photo(alloc, byte)?,
        },
    })
}

fn look(pair: u8) -> Event {
    Event::Look {
        reader: 3,
        pair: pair_of(pair),
    }
}

fn fetch(replica: u32) -> Event {
    Event::Fetch { reader: 3, replica }
}

// ONE PUT, EVENT BY EVENT

#[derive(Clone, Copy, Debug, PartialEq, Eq)]
enum Told {
    Done,
    Nothing,
    Photo(u8),
    Refused,
}

fn told_by(reply: &CoreReply) -> Told {
    match reply {
        CoreReply::Done => Told::Done,
        CoreReply::Shown(Outcome::Nothing) => Told::Nothing,
        CoreReply::Shown(Outcome::Photo(photo)) => Told::Photo(byte_of(photo)),
        CoreReply::NotEnabled => Told::Refused,
    }
}

fn are_told(replies: &[CoreReply], wanted: &[Told]) -> bool {
    let mut same = replies.len() == wanted.len();
    for (reply, wanted) in replies.iter().zip(wanted.iter()) {
        same = same && told_by(reply) == *wanted;
    }
    same
}

// A put on one replica as far as its third device call, and then these events.
fn put_and(alloc: Global, tail: Vec<Event>, wanted: &[Told]) -> Result<bool, NoMemory> {
    let mut core = Core::new(alloc, 1)?;
    let mut events = Vec::new(alloc);
    events.push(put(alloc, 1, 7)?)?;
    for _ in 0..3 {
        events.push(Event::DeviceOk)?;
    }
    for event in tail {
        events.push(event)?;
    }
    let replies = run_events(alloc, &mut core, &events)?;
    Ok(are_told(&replies, wanted))
}

// Before the fourth device call nothing can be published; behind it the put is, and is shown.
fn published(alloc: Global) -> Result<bool, NoMemory> {
    let mut tail = Vec::new(alloc);
    tail.push(Event::Publish)?;
    tail.push(Event::DeviceOk)?;
    tail.push(Event::Publish)?;
    tail.push(Event::EndHold)?;
    tail.push(look(1))?;
    tail.push(fetch(0))?;
    let done = Told::Done;
    let wanted = [
        done,
        done,
        done,
        done,
        Told::Refused,
        done,
        done,
        done,
        done,
        Told::Photo(7),
    ];
    put_and(alloc, tail, &wanted)
}

// A stop behind the third device call.
fn stopped(alloc: Global, keep: bool) -> Result<bool, NoMemory> {
    let mut tail = Vec::new(alloc);
    tail.push(stop(alloc, [keep].as_slice(), [true].as_slice())?)?;
    tail.push(Event::OpenCall { replica: 0 })?;
    tail.push(look(1))?;
    tail.push(fetch(0))?;
    let done = Told::Done;
    let last = if keep { Told::Photo(7) } else { Told::Nothing };
    put_and(
        alloc,
        tail,
        &[done, done, done, done, done, done, done, last],
    )
}

#[test]
fn one_put(rt: HostRuntime) -> Result<(), Fail> {
    let alloc = rt.alloc();
    assert!(rt; published(alloc).ok().ok_or("memory")?);
    assert!(rt; stopped(alloc, true).ok().ok_or("memory")?);
    assert!(rt; stopped(alloc, false).ok().ok_or("memory")?);
    Ok(())
}

// RANDOM LISTS, BESIDE MAPS

fn bools(alloc: Global, values: &[bool]) -> Result<Listed<bool>, NoMemory> {
    let mut list = Listed::new(alloc);
    for value in values {
        list.push(*value)?;
    }
    Ok(list)
}

fn stop(alloc: Global, keep: &[bool], rows: &[bool]) -> Result<Event, NoMemory> {
    Ok(Event::Stop {
        keep: bools(alloc, keep)?,
        rows: bools(alloc, rows)?,
    })
}

fn begun(alloc: Global, job: Job) -> Result<Event, NoMemory> {
    let work = match job {
        Job::Change(
            Change {
                pair,
                photo: Some(byte),
            },
        ) => return put(alloc, pair, byte),
        Job::Change(change) => Work::Del {
            pair: pair_of(change.pair),
        },
        Job::Flush(side) => Work::Flush { side },
        Job::Start(side) => Work::Start { side },
        Job::Step(side, cells) => Work::Step { side, cells },
        Job::Finish(side) => Work::Finish { side },
    };
    Ok(Event::Begin {
        tag: CoreTag { lane: 1, line: 4 },
        work,
    })
}

fn is_done(alloc: Global, core: &mut Core, event: Event) -> Result<bool, NoMemory> {
    Ok(matches!(core.step(alloc, &event)?, CoreReply::Done))
}

fn make_calls(alloc: Global, core: &mut Core, most: u64) -> Result<(), NoMemory> {
    for _ in 0..most {
        if !is_done(alloc, core, Event::DeviceOk)? {
            return Ok(());
        }
    }
    Ok(())
}

#[derive(Clone, Copy, Debug, PartialEq, Eq)]
enum End {
    Refused,
    Whole,
    Failed,
    Stopped,
}

// One holding, as far as it comes.
fn hold(alloc: Global, core: &mut Core, job: Job, strike: Strike) -> Result<End, NoMemory> {
    if !is_done(alloc, core, begun(alloc, job)?)? {
        return Ok(End::Refused);
    }
    match strike {
        Strike::Never => {}
        Strike::Stops(calls) => {
            make_calls(alloc, core, calls)?;
            return Ok(End::Stopped);
        }
        Strike::Fails(calls) => {
            make_calls(alloc, core, calls)?;
            if is_done(alloc, core, Event::DeviceFailed)? && is_done(alloc, core, Event::EndHold)? {
                return Ok(End::Failed);
            }
        }
        Strike::ReadFails(calls) => {
            make_calls(alloc, core, calls)?;
            if is_done(alloc, core, Event::ReadFailed)? && is_done(alloc, core, Event::EndHold)? {
                return Ok(End::Failed);
            }
        }
    }
    make_calls(alloc, core, 1_000)?;
    is_done(alloc, core, Event::Publish)?;
    let ended = is_done(alloc, core, Event::EndHold)?;
    Ok(if ended { End::Whole } else { End::Stopped })
}

// What a change comes to in the maps.
fn change(plain: &mut Plain, change: Change, strike: Strike) -> Result<End, NoMemory> {
    if plain.frozen || plain.calls(change) == 0 {
        return Ok(End::Refused);
    }
    match strike {
        Strike::Never => {
            plain.publish(change)?;
            Ok(End::Whole)
        }
        Strike::Stops(calls) => {
            plain.change(change, calls, false)?;
            Ok(End::Stopped)
        }
        Strike::Fails(calls) => {
            plain.change(change, calls, true)?;
            plain.frozen = true;
            Ok(End::Failed)
        }
        Strike::ReadFails(calls) => {
            plain.change(change, calls, false)?;
            plain.frozen = true;
            Ok(End::Failed)
        }
    }
}

fn held(needles: &[Needle], pair: u8) -> Option<u8> {
    let mut held = None;
    for needle in needles {
        if needle.pair == pair_of(pair) {
            held = if needle.deleted {
                None
            } else {
                Some(byte_of(&needle.photo))
            };
        }
    }
    held
}

fn is_held(core: &Core, plain: &Plain, pair: u8) -> bool {
    let mut same = core.frozen == plain.frozen;
    for (side, replica) in core.sides.as_slice().iter().zip(plain.replicas.iter()) {
        same = same && held(side.current.as_slice(), pair) == replica.held(pair);
    }
    same
}

fn is_shown(alloc: Global, core: &mut Core, plain: &Plain, pair: u8) -> Result<bool, NoMemory> {
    let mut same = is_done(alloc, core, look(pair))?;
    for (number, replica) in (0u32..).zip(plain.replicas.iter()) {
        let wanted = match replica.shown(pair) {
            None => Told::Nothing,
            Some(byte) => Told::Photo(byte),
        };
        same = same && told_by(&core.step(alloc, &fetch(number))?) == wanted;
    }
    Ok(same)
}

fn is_same(alloc: Global, core: &mut Core, plain: &Plain) -> Result<bool, NoMemory> {
    let mut same = true;
    for pair in 0..3 {
        same = same && is_held(core, plain, pair) && is_shown(alloc, core, plain, pair)?;
    }
    Ok(same)
}

// A stop, and another one before both replicas are open: no doubt is left for it.
fn reopen(alloc: Global, core: &mut Core, keep: &[bool], rows: &[bool]) -> Result<bool, NoMemory> {
    Ok(
        is_done(alloc, core, stop(alloc, keep, rows)?)?
            && !is_done(alloc, core, look(0))?
            && is_done(alloc, core, Event::OpenCall { replica: 0 })?
            && is_done(alloc, core, stop(alloc, rows, keep)?)?
            && is_done(alloc, core, Event::OpenCall { replica: 1 })?
            && !is_done(alloc, core, look(0))?
            && is_done(alloc, core, Event::OpenCall { replica: 0 })?,
    )
}

// How often something was met that is worth a test.
#[derive(Clone, Copy)]
struct Met {
    whole: u32,
    failed: u32,
    stopped: u32,
    swapped: usize,
}

fn one_round(
    rt: &impl Abort,
    alloc: Global,
    core: &mut Core,
    plain: &mut Plain,
    draw: &mut Draw,
    met: &mut Met,
) -> Result<(), NoMemory> {
    let compacts = core.sides.as_slice().iter().any(|side| side.copy.is_some());
    let (job, strike) = draw.round(plain, compacts);
    let end = hold(alloc, core, job, strike)?;
    if let Job::Change(wanted) = job {
        assert_eq!(rt; end, change(plain, wanted, strike)?);
    }
    match end {
        End::Refused => {}
        End::Whole => met.whole = met.whole.saturating_add(1),
        End::Failed => met.failed = met.failed.saturating_add(1),
        End::Stopped => met.stopped = met.stopped.saturating_add(1),
    }
    let unsure = matches!(job, Job::Finish(_)) && end == End::Failed;
    if unsure || end == End::Stopped || plain.frozen && draw.is_one_in(3) {
        let keep = [draw.is_one_in(2), draw.is_one_in(2)];
        let rows = [draw.is_one_in(2), draw.is_one_in(2)];
        assert!(rt; reopen(alloc, core, &keep, &rows)?);
        plain.reopen(&keep)?;
    }
    assert!(rt; is_same(alloc, core, plain)?);
    Ok(())
}

fn one_list(
    rt: &impl Abort,
    alloc: Global,
    draw: &mut Draw,
    met: &mut Met,
) -> Result<(), NoMemory> {
    let mut core = Core::new(alloc, 2)?;
    let mut plain = Plain::new(alloc)?;
    for _ in 0..60 {
        one_round(rt, alloc, &mut core, &mut plain, draw, met)?;
    }
    for side in core.sides.as_slice() {
        met.swapped = met.swapped.saturating_add(side.past.len());
    }
    Ok(())
}

#[test]
fn random_lists(rt: HostRuntime) -> Result<(), Fail> {
    let mut draw = Draw::new(2010);
    let mut met = Met {
        whole: 0,
        failed: 0,
        stopped: 0,
        swapped: 0,
    };
    for _ in 0..100 {
        one_list(&rt, rt.alloc(), &mut draw, &mut met)
            .ok()
            .ok_or("memory")?;
    }
    assert!(rt;
        met.whole > 1_000 && met.swapped > 100,
        "too little was whole"
    );
    assert!(rt;
        met.failed > 100 && met.stopped > 100,
        "too little went wrong"
    );
    Ok(())
}
