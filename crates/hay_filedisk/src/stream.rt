//! Standard input as a source, and standard output as a sink.
ghost use Rattle.std.specs.Prelude.{◌≤◌, length, IfOk};

use hay_disk::{Failed, Sink, Source};
use std::io;
use std::io::{ErrorKind, Read, Stdin, Stdout, Write};

/// Standard input.
#[derive(Drop)]
pub struct StdinSource {
    input: Stdin,
    faults: u64,
}

impl StdinSource {
    pub fn new(input: Stdin) -> StdinSource {
        StdinSource { input, faults: 0 }
    }
}

// Reads what comes next. A read that a signal interrupts is tried again.
fn get(input: &mut Stdin, out: &mut [u8]) -> io::Result<usize>
    ensures within { IfOk result (λ n. n ≤ length out.old) }
{
    'tries: for _ in 0..u64::MAX {
        match input.read(out) {
            Ok(count) => return Ok(count),
            Err(error) if error.kind() == ErrorKind::Interrupted => {}
            Err(error) => return Err(error),
        }
    }
    Err(ErrorKind::Interrupted.into())
}

impl Source for StdinSource {
    ghost use Rattle.std.specs.Prelude.{None};

    ghost left = { λ _. None };

    ghost fault_count = { λ source. source.faults };

    fn read(&mut self, out: &mut [u8]) -> Result<usize, Failed> {
        match get(&mut self.input, out) {
            Ok(count) => Ok(count),
            Err(_) => {
                self.faults = self.faults.saturating_add(1);
                Err(Failed)
            }
        }
    }

    fn faults(&self) -> u64 {
        self.faults
    }
}

/// Standard output.
#[derive(Drop)]
pub struct StdoutSink {
    output: Stdout,
    faults: u64,
}

impl StdoutSink {
    pub fn new(output: Stdout) -> StdoutSink {
        StdoutSink { output, faults: 0 }
    }
}

// Writes all of the bytes, and sends them on.
fn put(output: &mut Stdout, bytes: &[u8]) -> io::Result<()> {
    output.write_all(bytes)?;
    output.flush()
}

impl Sink for StdoutSink {
    ghost use Rattle.std.specs.Prelude.{None};

    ghost written = { λ _. None };

    ghost fault_count = { λ sink. sink.faults };

    fn write(&mut self, bytes: &[u8]) -> Result<(), Failed> {
        match put(&mut self.output, bytes) {
            Ok(()) => Ok(()),
            Err(_) => {
                self.faults = self.faults.saturating_add(1);
                Err(Failed)
            }
        }
    }

    fn faults(&self) -> u64 {
        self.faults
    }
}
