//! Scripts with fuses, compactions and restarts over one to four replicas: all replies agree with the calls that a fuse let pass,
//! and with the notes of the restarts.

mod replica;
mod script;
mod story;
mod tally;

use super::store::Store;
use super::told::{holds, same_status, same_text};
use script::{FUSES, Round, commands_of, script_of};
use std::alloc::Global;
use std::process::Abort;
use std::str;
use std::sync::Wait;
use std::test::Fail;
use std::thread::Threads;
use story::Story;
use tally::Tally;

const PICKS: [u64; 3] = [0, 1, 7];

/// Runs a script, and answers what it met.
fn run_script(
    rt: &(impl Abort + Threads + Wait + Sync),
    alloc: Global,
    round: Round,
) -> Result<Tally, Fail> {
    let replicas = round.replicas;
    let commands = commands_of(alloc, round)?;
    let script = script_of(alloc, commands.as_slice())?;
    let count = format!(in alloc; "{replicas}")?;
    let words = [
        "run",
        "--machines",
        count.as_str(),
        "--replicas",
        count.as_str(),
    ];
    let ran = Store::new(alloc).run(rt, &words, script.as_bytes())?;
    same_status(rt, ran.status, 0);
    let transcript = str::from_utf8(ran.written.as_slice())
        .ok()
        .ok_or("no text")?;
    let mut story = Story::new(alloc, transcript, replicas)?;
    let replies = story.replies(commands.as_slice())?;
    same_text(rt, transcript, replies.as_str(), script.as_str());
    Ok(story.tally)
}

/// Runs a script for each replica, fuse and pick. Each kind of failure is met at least ten times.
fn run_scripts(
    rt: &(impl Abort + Threads + Wait + Sync),
    alloc: Global,
    replicas: u64,
) -> Result<(), Fail> {
    let mut met = Tally::new();
    for machine in 0..replicas {
        for calls in 0..FUSES {
            for pick in PICKS {
                let round = Round {
                    replicas,
                    machine,
                    calls,
                    pick,
                };
                met.add(&run_script(rt, alloc, round)?);
            }
        }
    }
    holds(rt, met.least() >= 10, "a kind of failure is rare", &[]);
    Ok(())
}

#[test]
fn one_replica_agrees_with_its_notes(rt: HostRuntime) -> Result<(), Fail> {
    run_scripts(&rt, rt.alloc(), 1)
}

#[test]
fn two_replicas_agree_with_their_notes(rt: HostRuntime) -> Result<(), Fail> {
    run_scripts(&rt, rt.alloc(), 2)
}

#[test]
fn three_replicas_agree_with_their_notes(rt: HostRuntime) -> Result<(), Fail> {
    run_scripts(&rt, rt.alloc(), 3)
}

#[test]
fn four_replicas_agree_with_their_notes(rt: HostRuntime) -> Result<(), Fail> {
    run_scripts(&rt, rt.alloc(), 4)
}
