//! How the lock of the Directory is made, and how it ends.
ghost use Rattle.std.specs.Prelude.{length};
ghost use Rattle.hay_needle.specs.declared.settings.Settings.{Settings};
ghost use Rattle.hay_directory.specs.State.{State};
ghost use Rattle.hay_directory_lock.specs.Seats.{sight as row_sight};
ghost use Rattle.hay_block.specs.Making.{LeavesDirectory};
ghost use Rattle.hay_locks.specs.Directories.{IsRowSeatOf};
ghost use Rattle.hay_locks.specs.Making.{DirectoryStands, IsDirectoryOf, IsMadeOfRows, rows_count_of};
ghost use Rattle.hay_shared_volume.specs.Making.{AreSeated};

use crate::directory::SharedDirectory;
use hay_base::NoMemory;
use hay_block::DirectoryLocks;
use hay_directory::Directory;
use hay_directory_lock::{DirectoryLock, DirectorySeat};
use hay_disk::Disk;
use hay_front::Tag;
use hay_needle::{Pair, Settings};
use std::alloc::Global;
use std::snapshot::Snapshot;
use std::sync::Wait;

impl<D: Disk> DirectoryLocks for SharedDirectory<D> {
    type Directory = Directory<D>;

    type Room = hay_directory_lock::SeatRoom<D>;

    ghost stands = { DirectoryStands D.Tells D.files };

    ghost faults = { rows_count_of D.fault_count };

    ghost fuses = { rows_count_of D.fuse_count };

    ghost is_of = { IsDirectoryOf };

    ghost is_made = { IsMadeOfRows };

    fn rows(directory: &Directory<D>) -> u64 {
        directory.rows()
    }

    fn drained(alloc: Global, directory: &Directory<D>) -> Result<Vec<bool>, NoMemory> {
        directory.copy_drains(alloc)
    }

    fn home(directory: &Directory<D>, pair: Pair) -> Option<u32> {
        directory.home(pair)
    }

    fn new<R: Wait>(
        rt: &R,
        alloc: Global,
        settings: Settings,
        directory: Directory<D>,
        lanes: u32,
    ) -> Result<
        (
            SharedDirectory<D>,
            Vec<DirectorySeat<D>>,
            hay_directory_lock::SeatRoom<D>,
        ),
        (Directory<D>, NoMemory),
    > {
        let _frozen = directory.is_frozen();
        match DirectoryLock::new(rt, alloc, settings, directory, lanes) {
            Ok(hay_directory_lock::NewLock { lock, seats, room }) => {
                let first = Snapshot::of(&seats[0]);
                let shared = SharedDirectory { lock, first };
                Ok((shared, seats, room))
            }
            Err(back) => Err(back),
        }
    }

    fn close<R: Wait>(
        self,
        rt: &R,
        seats: Vec<DirectorySeat<D>>,
        room: hay_directory_lock::SeatRoom<D>,
    ) -> (Directory<D>, Vec<Tag>)
        requires made { (directory : State D) × (settings : Settings)
            × IsMadeOfRows self room directory settings (length seats.items) × AreSeated IsRowSeatOf self settings (length seats.items) seats.items }
        ensures left { (directory : State D) (settings : Settings) → IsMadeOfRows self room directory settings (length seats.items) →
            AreSeated IsRowSeatOf self settings (length seats.items) seats.items →
            LeavesDirectory row_sight (DirectoryStands D.Tells D.files) (rows_count_of D.fault_count) (rows_count_of D.fuse_count) directory seats.items result.0 result.1.items }
        ensures of { (directory : State D) (settings : Settings) → IsMadeOfRows self room directory settings (length seats.items) → IsDirectoryOf result.0 settings }
    {
        let SharedDirectory { lock, first: _ } = self;
        let (directory, tags) = lock.close(rt, seats, room);
        let _faults = directory.faults();
        (directory, tags)
    }
}
