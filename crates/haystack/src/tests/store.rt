//! A store in memory, over which scripts run, and what a run tells.

ghost use Rattle.std.specs.Prelude.{◌≡◌, ℕ, false};
ghost use Rattle.hay_memdisk.specs.MemShelf.{mem_arms, mem_disks};

use super::told::{holds, same, same_status};
use hay_disk::{Disk, Shelf};
use hay_lanes::{Gate, OpenGate};
use hay_memdisk::{MemArm, MemDisk, MemShelf, MemSink, MemSource};
use hay_run::run;
use std::alloc::Global;
use std::process::Abort;
use std::sync::Wait;
use std::test::Fail;
use std::thread::Threads;

/// The words of a run with the settings that hold where none are said.
pub(super) const RUN: &[&str] = &["run"];

/// The first line of its transcript.
const HEADER: &[u8] = b"haystack 1 1 1 67108864\n";

/// How many bytes a read of the script gives at most, and the read and the write that fail, by their numbers from 1.
#[derive(Clone, Copy)]
pub(super) struct Streams {
    pub step: usize,
    pub failed_read: u64,
    pub failed_write: u64,
}

/// No call fails.
pub(super) const NO_FAULTS: Streams = Streams {
    step: 65_536,
    failed_read: 0,
    failed_write: 0,
};

/// What a run writes, and its status.
#[derive(Drop)]
pub(super) struct Ran {
    pub status: u8,
    pub written: Vec<u8>,
}

impl Ran {
    /// Looks for this status and this transcript.
    pub(super) fn is(&self, rt: &impl Abort, status: u8, transcript: &[u8]) {
        same(rt, self.written.as_slice(), transcript);
        same_status(rt, self.status, status);
    }

    /// Looks for this status, and for the header with this text behind it.
    pub(super) fn tells(&self, rt: &impl Abort, status: u8, told: &str) {
        let parts = self.written.as_slice().split_at_checked(HEADER.len());
        let (header, rest) = parts.expect(rt, "a header");
        same(rt, header, HEADER);
        same(rt, rest, told.as_bytes());
        same_status(rt, self.status, status);
    }

    /// Looks for this status, and for these bytes at the front.
    pub(super) fn begins(&self, rt: &impl Abort, status: u8, front: &[u8]) {
        let written = self.written.as_slice();
        holds(
            rt,
            written.starts_with(front),
            "a transcript's front",
            written,
        );
        same_status(rt, self.status, status);
    }

    /// Looks for this status, and for this text at the end.
    pub(super) fn ends(&self, rt: &impl Abort, status: u8, end: &str) {
        let written = self.written.as_slice();
        holds(rt, written.ends_with(end.as_bytes()), end, written);
        same_status(rt, self.status, status);
    }

    /// Looks for the status of a run whose output fails, and for a front of what it would write.
    pub(super) fn is_cut_of(&self, rt: &impl Abort, whole: &[u8]) {
        let written = self.written.as_slice();
        holds(rt, whole.starts_with(written), "a cut transcript", written);
        same_status(rt, self.status, 3);
    }
}

fn words_of(alloc: Global, words: &[&str]) -> Result<Vec<String>, Fail> {
    let mut all = Vec::new(alloc);
    for word in words {
        all.push(String::from_str(alloc, word)?)?;
    }
    Ok(all)
}

fn source_of(alloc: Global, script: &[u8], streams: Streams) -> Result<MemSource, Fail> {
    let mut source = MemSource::new(alloc, script.to_vec(alloc)?, streams.step.max(1));
    source.fail(&[streams.failed_read])?;
    Ok(source)
}

fn sink_of(alloc: Global, streams: Streams) -> Result<MemSink, Fail> {
    let mut sink = MemSink::new(alloc);
    sink.fail(&[streams.failed_write])?;
    Ok(sink)
}

/// The status of a run over a shelf, where each lane passes this gate.
fn status_of<H: Shelf>(
    rt: &(impl Threads + Wait + Sync),
    alloc: Global,
    words: &[String],
    source: &mut MemSource,
    sink: &mut MemSink,
    shelf: &mut H,
    gate: &(impl Gate + Sync),
) -> u8
where
    H::Disk: Send + Sync,
    <H::Disk as Disk>::Piece: Send + Sync,
    H::Arm: Send,
    requires disks { (slot : ℕ) → (H.disks shelf.old slot).is_out ≡ false }
    requires arms { (lane : ℕ) → (H.arms shelf.old lane).is_out ≡ false }
    ensures disks { (slot : ℕ) → (H.disks shelf.new slot).is_out ≡ false }
    ensures arms { (lane : ℕ) → (H.arms shelf.new lane).is_out ≡ false }
{
    run(rt, alloc, words, source, sink, shelf, gate)
}

/// What a run over a shelf writes, and its status, where each lane passes this gate.
pub(super) fn run_on<H: Shelf>(
    rt: &(impl Threads + Wait + Sync),
    alloc: Global,
    words: &[&str],
    script: &[u8],
    streams: Streams,
    shelf: &mut H,
    gate: &(impl Gate + Sync),
) -> Result<Ran, Fail>
where
    H::Disk: Send + Sync,
    <H::Disk as Disk>::Piece: Send + Sync,
    H::Arm: Send,
    requires disks { (slot : ℕ) → (H.disks shelf.old slot).is_out ≡ false }
    requires arms { (lane : ℕ) → (H.arms shelf.old lane).is_out ≡ false }
    ensures disks { (slot : ℕ) → (H.disks shelf.new slot).is_out ≡ false }
    ensures arms { (lane : ℕ) → (H.arms shelf.new lane).is_out ≡ false }
{
    let words = words_of(alloc, words)?;
    let mut source = source_of(alloc, script, streams)?;
    let mut sink = sink_of(alloc, streams)?;
    let status = status_of(
        rt,
        alloc,
        words.as_slice(),
        &mut source,
        &mut sink,
        shelf,
        gate,
    );
    let written = sink.bytes().to_vec(alloc)?;
    Ok(Ran { status, written })
}

/// Stops the Directory's disk.
fn stop_directory(shelf: &mut MemShelf, pick: u64)
    requires disks { (slot : ℕ) → (mem_disks shelf.old slot).is_out ≡ false }
    requires arms { (lane : ℕ) → (mem_arms shelf.old lane).is_out ≡ false }
    ensures disks { (slot : ℕ) → (mem_disks shelf.new slot).is_out ≡ false }
    ensures arms { (lane : ℕ) → (mem_arms shelf.new lane).is_out ≡ false }
{
    match shelf.disk_mut(0) {
        Some(disk) => disk.power_cycle(pick),
        None => {}
    }
}

/// A shelf none of whose disks and arms is out.
#[derive(Drop)]
pub(super) struct Store {
    alloc: Global,
    shelf: MemShelf,
    ghost disks: { (slot : ℕ) → (mem_disks shelf slot).is_out ≡ false },
    ghost arms: { (lane : ℕ) → (mem_arms shelf lane).is_out ≡ false },
}

impl Store {
    /// A store without disks.
    pub(super) fn new(alloc: Global) -> Store {
        Store {
            alloc,
            shelf: MemShelf::new(alloc),
        }
    }

    /// Puts a disk into a slot.
    pub(super) fn put_disk(&mut self, slot: u32, disk: MemDisk) -> Result<(), Fail> {
        self.shelf.put_disk(slot, disk)?;
        Ok(())
    }

    /// Puts an arm into a lane whose fetches of these numbers fail.
    pub(super) fn put_arm(&mut self, lane: u32, fails: &[u64]) -> Result<(), Fail> {
        let mut arm = MemArm::new(self.alloc);
        arm.fail(fails)?;
        self.shelf.put_arm(lane, arm)?;
        Ok(())
    }

    /// Puts an empty disk into a slot that lets so many changing calls pass.
    pub(super) fn put_fused(&mut self, slot: u32, calls: u64) -> Result<(), Fail> {
        let mut disk = MemDisk::new(self.alloc);
        disk.fuse(calls);
        self.put_disk(slot, disk)
    }

    /// Stops the Directory's disk.
    pub(super) fn stop_directory(&mut self, pick: u64) {
        stop_directory(&mut self.shelf, pick);
    }

    /// The bytes of a file; none where there is no disk.
    pub(super) fn bytes(&self, slot: u32, file: u32) -> &[u8] {
        match self.shelf.disk(slot) {
            Some(disk) => disk.bytes(file),
            None => &[],
        }
    }

    /// How many bytes were read of the volume file of the disk in a slot.
    pub(super) fn drawn(&self, slot: u32) -> u64 {
        match self.shelf.disk(slot) {
            Some(disk) => disk.drawn(1),
            None => 0,
        }
    }

    /// How many bytes the first files of the disk in slot 1 have.
    pub(super) fn lens(&self) -> [usize; 7] {
        let mut lens = [0; 7];
        for (file, len) in (0..).zip(lens.iter_mut()) {
            *len = self.bytes(1, file).len();
        }
        lens
    }

    /// A copy of the first three files of a disk, with these bytes in place of one of them.
    fn disk_with(&self, slot: u32, file: u32, bytes: &[u8]) -> Result<MemDisk, Fail> {
        let mut disk = MemDisk::new(self.alloc);
        for other in 0..3 {
            let kept = self.bytes(slot, other);
            disk.set_bytes(other, if other == file { bytes } else { kept })?;
        }
        Ok(disk)
    }

    /// A copy of the first three disks, with these bytes in place of a file.
    pub(super) fn with_file(&self, slot: u32, file: u32, bytes: &[u8]) -> Result<Store, Fail> {
        let mut copy = Store::new(self.alloc);
        for other in 0..3 {
            let changed = if other == slot { file } else { 3 };
            copy.put_disk(other, self.disk_with(other, changed, bytes)?)?;
        }
        Ok(copy)
    }

    /// Runs a script under these words, where the streams fail so and each lane passes this gate.
    pub(super) fn run_with(
        &mut self,
        rt: &(impl Threads + Wait + Sync),
        words: &[&str],
        script: &[u8],
        streams: Streams,
        gate: &(impl Gate + Sync),
    ) -> Result<Ran, Fail> {
        run_on(
            rt,
            self.alloc,
            words,
            script,
            streams,
            &mut self.shelf,
            gate,
        )
    }

    /// Runs a script under these words.
    pub(super) fn run(
        &mut self,
        rt: &(impl Threads + Wait + Sync),
        words: &[&str],
        script: &[u8],
    ) -> Result<Ran, Fail> {
        self.run_with(rt, words, script, NO_FAULTS, &OpenGate)
    }

    /// Runs a script under these words, and looks for the status and the transcript.
    pub(super) fn answers(
        &mut self,
        rt: &(impl Abort + Threads + Wait + Sync),
        words: &[&str],
        script: &[u8],
        status: u8,
        transcript: &[u8],
    ) -> Result<(), Fail> {
        self.run(rt, words, script)?.is(rt, status, transcript);
        Ok(())
    }
}

/// The store that a script leaves.
pub(super) fn store_of(
    rt: &(impl Abort + Threads + Wait + Sync),
    alloc: Global,
    words: &[&str],
    script: &[u8],
) -> Result<Store, Fail> {
    let mut store = Store::new(alloc);
    let ran = store.run(rt, words, script)?;
    same_status(rt, ran.status, 0);
    Ok(store)
}
