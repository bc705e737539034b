//! The Directory's lock that lanes share.

use hay_core::CoreTag;
use hay_directory::DirFault;
use hay_directory_lock::{DirectoryLock, DirectorySeat};
use hay_disk::Disk;
use hay_lane::DirectoryCalls;
use hay_needle::Pair;
use std::marker::Model;
use std::snapshot::Snapshot;
use std::sync::Wait;

/// The Directory's lock that lanes share, and what its first seat was when it was made, for clauses alone.
pub struct SharedDirectory<D: Disk> {
    pub lock: DirectoryLock<D>,
    pub first: Snapshot<DirectorySeat<D>>,
}

impl<D: Disk> DirectoryCalls for SharedDirectory<D> {
    ghost use Rattle.hay_directory_lock.specs.Seats.{sight as row_sight};
    ghost use Rattle.hay_locks.specs.Directories.{IsRowSeatOf, RowsWereAt};

    type Seat = DirectorySeat<D>;

    ghost sight = { row_sight };

    ghost fits = { IsRowSeatOf };

    ghost is_at = { RowsWereAt D.fault_count D.fuse_count };

    fn home<R: Wait>(&self, rt: &R, seat: &mut DirectorySeat<D>, pair: Pair) -> (u64, Option<u32>) {
        self.lock.home(rt, seat, pair)
    }

    fn settle<R: Wait>(
        &self,
        rt: &R,
        seat: &mut DirectorySeat<D>,
        tag: CoreTag,
        pair: Pair,
        volume: u32,
    ) -> Result<(u32, u64), DirFault> {
        self.lock.settle(rt, seat, tag, pair, volume)
    }

    fn drain<R: Wait>(&self, rt: &R, seat: &mut DirectorySeat<D>, tag: CoreTag, machine: u32) {
        self.lock.drain(rt, seat, tag, machine);
    }

    fn undrain<R: Wait>(&self, rt: &R, seat: &mut DirectorySeat<D>, tag: CoreTag, machine: u32) {
        self.lock.undrain(rt, seat, tag, machine);
    }

    fn fuse<R: Wait>(&self, rt: &R, seat: &mut DirectorySeat<D>, tag: CoreTag, calls: u32) {
        self.lock.fuse(rt, seat, tag, calls);
    }
}
