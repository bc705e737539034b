//! The program `haystack`: runs the script on standard input over disks in memory, or over files in the folder that
//! `--folder` names, and writes the transcript to standard output; or stores the puts of a script in batches; or checks these disks,
//! and writes what each is; or judges a transcript, without a disk; or runs the script of a day's use over disks in memory, and writes
//! what its replies sum up to.
//! Everything that matters stands in `hay_run`.
#![tactic(auto)]

#[cfg(test)]
mod tests;

use hay_base::NoMemory;
use hay_cli::folder_of;
use hay_filedisk::{FileShelf, StdinSource, StdoutSink};
use hay_lanes::OpenGate;
use hay_memdisk::MemShelf;
use hay_run::run;
use std::env::Env;
use std::process::ExitCode;
use std::{env, io};

/// The words are no text.
const USAGE: u8 = 2;

/// Memory was wanting before the run began.
const NO_MEMORY: u8 = 5;

/// The words behind the program's name.
fn words_of<R: Env + AllocGlobal>(rt: &R) -> io::Result<Vec<String>> {
    let mut words = Vec::new(rt.alloc());
    for word in env::args(rt)?.skip(1) {
        words.push(word)?;
    }
    Ok(words)
}

/// What standard error is told of a status.
fn message_of(status: u8) -> Option<&'static str> {
    match status {
        2 => Some("haystack: usage"),
        3 => Some("haystack: output fault"),
        4 => Some("haystack: input fault"),
        5 => Some("haystack: no memory"),
        6 => Some("haystack: store not opened"),
        7 => Some("haystack: script too long"),
        8 => Some("haystack: damage found"),
        9 => Some("haystack: not lawful"),
        10 => Some("haystack: bad frame"),
        11 => Some("haystack: not decided"),
        _ => None,
    }
}

fn main(rt: HostRuntime) -> ExitCode {
    let status = match words_of(&rt) {
        Ok(words) => {
            let alloc = rt.alloc();
            let words = words.as_slice();
            let mut source = StdinSource::new(rt.stdin());
            let mut sink = StdoutSink::new(rt.stdout());
            match folder_of(words) {
                Some(folder) => match FileShelf::new(rt, alloc, folder) {
                    Ok(mut shelf) => run(
                        &rt,
                        alloc,
                        words,
                        &mut source,
                        &mut sink,
                        &mut shelf,
                        &OpenGate,
                    ),
                    Err(NoMemory) => NO_MEMORY,
                },
                None => {
                    let mut shelf = MemShelf::new(alloc);
                    run(
                        &rt,
                        alloc,
                        words,
                        &mut source,
                        &mut sink,
                        &mut shelf,
                        &OpenGate,
                    )
                }
            }
        }
        Err(error) if error.kind() == io::ErrorKind::OutOfMemory => NO_MEMORY,
        Err(_) => USAGE,
    };
    if let Some(message) = message_of(status) {
        // There is nobody left to tell that this failed.
        let _ = eprintln!(rt; "{message}");
    }
    ExitCode::from(status)
}
