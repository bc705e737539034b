//! Sources and sinks in memory.
ghost use Rattle.std.specs.Prelude.{◌≡◌, ◌≤◌, ◌<◌, [], Some, length, OnOk, OnErr};

use crate::failures::Failures;
use hay_base::NoMemory;
use hay_disk::{Failed, Sink, Source};
use std::alloc::Global;

/// Gives bytes of its own, a step at a time, and fails at the reads that it was told to.
#[derive(Drop)]
pub struct MemSource {
    bytes: Vec<u8>,
    taken: usize,
    step: usize,
    failures: Failures,
    ghost inside: { taken ≤ length bytes.items },
    ghost steps: { 0 < step },
}

impl MemSource {
    ghost use Rattle.hay_memdisk.specs.Streams.{source_left, source_faults, source_listed};

    /// A source of these bytes, of which one read gives at most `step`.
    pub fn new(alloc: Global, bytes: Vec<u8>, step: usize) -> MemSource
        requires { 0 < step }
        ensures left { source_left result ≡ Some bytes.items }
        ensures faults { source_faults result ≡ 0 }
    {
        MemSource {
            bytes,
            taken: 0,
            step,
            failures: Failures::new(alloc),
        }
    }

    /// Makes it fail at these reads, numbered from 1 since the source was made, and no others. `NoMemory` leaves it as
    /// it was.
    pub fn fail(&mut self, calls: &[u64]) -> Result<(), NoMemory>
        ensures listed { OnOk result (source_listed self.new ≡ calls.now) }
        ensures err { OnErr result (source_listed self.new ≡ source_listed self.old) }
        ensures left { source_left self.new ≡ source_left self.old }
        ensures faults { source_faults self.new ≡ source_faults self.old }
    {
        self.failures.list(calls)
    }
}

impl Source for MemSource {
    ghost use Rattle.hay_memdisk.specs.Streams.{source_left, source_faults};

    ghost left = { source_left };

    ghost fault_count = { source_faults };

    fn read(&mut self, out: &mut [u8]) -> Result<usize, Failed> {
        if self.failures.next_fails() {
            return Err(Failed);
        }
        let count = self.step.min(out.len()).min(self.bytes.len() - self.taken);
        out[..count].copy_from_slice(&self.bytes[self.taken..self.taken + count]);
        self.taken += count;
        Ok(count)
    }

    fn faults(&self) -> u64 {
        self.failures.faults()
    }
}

/// Keeps bytes, and fails at the writes that it was told to, and where it finds no room. A write that was told to fail
/// keeps the first half of its bytes.
#[derive(Drop)]
pub struct MemSink {
    bytes: Vec<u8>,
    failures: Failures,
}

impl MemSink {
    ghost use Rattle.hay_memdisk.specs.Streams.{sink_written, sink_faults, sink_listed};

    /// A sink without bytes.
    pub fn new(alloc: Global) -> MemSink
        ensures written { sink_written result ≡ Some [] }
        ensures faults { sink_faults result ≡ 0 }
    {
        MemSink {
            bytes: Vec::new(alloc),
            failures: Failures::new(alloc),
        }
    }

    /// Makes it fail at these writes, numbered from 1 since the sink was made, and no others. `NoMemory` leaves it as it
    /// was.
    pub fn fail(&mut self, calls: &[u64]) -> Result<(), NoMemory>
        ensures listed { OnOk result (sink_listed self.new ≡ calls.now) }
        ensures err { OnErr result (sink_listed self.new ≡ sink_listed self.old) }
        ensures written { sink_written self.new ≡ sink_written self.old }
        ensures faults { sink_faults self.new ≡ sink_faults self.old }
    {
        self.failures.list(calls)
    }

    /// The bytes written.
    pub fn bytes(&self) -> &[u8]
        ensures { sink_written self.now ≡ Some result.now }
    {
        &self.bytes
    }
}

impl Sink for MemSink {
    ghost use Rattle.hay_memdisk.specs.Streams.{sink_written, sink_faults};

    ghost written = { sink_written };

    ghost fault_count = { sink_faults };

    fn write(&mut self, bytes: &[u8]) -> Result<(), Failed> {
        if self.failures.next_fails() {
            let _ = self.bytes.extend_from_slice(&bytes[..bytes.len() / 2]);
            return Err(Failed);
        }
        if self.bytes.extend_from_slice(bytes).is_err() {
            self.failures.fault();
            return Err(Failed);
        }
        Ok(())
    }

    fn faults(&self) -> u64 {
        self.failures.faults()
    }
}
