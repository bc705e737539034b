//! A source and a sink in memory, for a script that is made here and a transcript that is read here.
ghost use Rattle.std.specs.Prelude.{◌≡◌, ◌≤◌, [], Some, length};

use hay_disk::{Failed, Sink, Source};
use std::alloc::Global;

/// Gives the bytes of a script. It never fails.
#[derive(Debug, Drop)]
pub struct HeldScript {
    bytes: Vec<u8>,
    taken: usize,
    ghost inside: { taken ≤ length bytes.items },
}

impl HeldScript {
    ghost use Rattle.hay_run.specs.Held.{script_left};

    pub fn new(bytes: Vec<u8>) -> HeldScript
        ensures { script_left result ≡ Some bytes.items }
    {
        HeldScript { bytes, taken: 0 }
    }
}

impl Source for HeldScript {
    ghost use Rattle.hay_run.specs.Held.{script_left, script_faults};

    ghost left = { script_left };

    ghost fault_count = { script_faults };

    fn read(&mut self, out: &mut [u8]) -> Result<usize, Failed> {
        let count = out.len().min(self.bytes.len() - self.taken);
        out[..count].copy_from_slice(&self.bytes[self.taken..self.taken + count]);
        self.taken += count;
        Ok(count)
    }

    fn faults(&self) -> u64 {
        0
    }
}

/// Keeps a transcript, and fails where it finds no room.
#[derive(Debug, Drop)]
pub struct HeldTranscript {
    bytes: Vec<u8>,
    faults: u64,
}

impl HeldTranscript {
    ghost use Rattle.hay_run.specs.Held.{transcript_written};

    pub fn new(alloc: Global) -> HeldTranscript
        ensures { transcript_written result ≡ Some [] }
    {
        HeldTranscript {
            bytes: Vec::new(alloc),
            faults: 0,
        }
    }

    pub fn bytes(&self) -> &[u8]
        ensures { transcript_written self.now ≡ Some result.now }
    {
        &self.bytes
    }
}

impl Sink for HeldTranscript {
    ghost use Rattle.hay_run.specs.Held.{transcript_written, transcript_faults};

    ghost written = { transcript_written };

    ghost fault_count = { transcript_faults };

    fn write(&mut self, bytes: &[u8]) -> Result<(), Failed> {
        if self.bytes.extend_from_slice(bytes).is_err() {
            self.faults = self.faults.saturating_add(1);
            return Err(Failed);
        }
        Ok(())
    }

    fn faults(&self) -> u64 {
        self.faults
    }
}
