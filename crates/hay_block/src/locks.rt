//! How the lock of the Directory is made, and how it ends.
ghost use Rattle.std.specs.Prelude.{◌≡◌, ◌<◌, ℕ, Bool, List, length, IfErr, IfOk};
ghost use Rattle.hay_needle.specs.declared.settings.Settings.{Settings};
ghost use Rattle.hay_legal.specs.declared.known.DirKnown.{DirKnown};
ghost use Rattle.hay_legal.specs.Known.{home_in};
ghost use Rattle.hay_block.specs.Making.{AreAtRows, IsRegularDirectory, LeavesDirectory};
ghost use Rattle.hay_shared_volume.specs.Making.{AreSeated, AreUnseen};

use hay_base::NoMemory;
use hay_front::Tag;
use hay_lane::DirectoryCalls;
use hay_needle::{Pair, Settings};
use std::alloc::Global;
use std::sync::Wait;

/// The lock of the Directory, which is made for one block and ends with it.
pub trait DirectoryLocks: DirectoryCalls {
    /// A Directory without a lock.
    type Directory: Drop;

    /// Room for all seats, for when the lock ends.
    type Room: Drop;

    /// This is known of the Directory, whose disk tells what it has, and these machines are drained.
    ghost stands: { Self.Directory → DirKnown → List Bool → Type 0 };

    /// How many calls of its disk have failed, and how many fuses were set on it.
    ghost faults: { Self.Directory → ℕ };

    ghost fuses: { Self.Directory → ℕ };

    /// It is an open Directory of a store of these settings.
    ghost is_of: { Self.Directory → Settings → Type 0 };

    /// The lock and its room were made of this Directory, for so many lanes.
    ghost is_made: { Self → Self.Room → Self.Directory → Settings → ℕ → Type 0 };

    /// How many rows it has.
    fn rows(directory: &Self::Directory) -> u64
        ensures { (known : DirKnown) (drained : List Bool) → stands directory.now known drained → result ≡ length known.rows };

    /// Whether each machine is drained.
    fn drained(alloc: Global, directory: &Self::Directory) -> Result<Vec<bool>, NoMemory>
        ensures long { IfOk result (λ drains. (settings : Settings) → is_of directory.now settings → length drains.items ≡ settings.machines) }
        ensures known { IfOk result (λ drains. (known : DirKnown) (drained : List Bool) → stands directory.now known drained → drains.items ≡ drained) };

    /// The home of a pair.
    fn home(directory: &Self::Directory, pair: Pair) -> Option<u32>
        ensures { (known : DirKnown) (drained : List Bool) → stands directory.now known drained → result ≡ home_in known.rows pair };

    /// The lock of a Directory, and a seat for each lane, in their order. `NoMemory` gives the Directory back as it was.
    fn new<R: Wait>(
        rt: &R,
        alloc: Global,
        settings: Settings,
        directory: Self::Directory,
        lanes: u32,
    ) -> Result<(Self, Vec<Self::Seat>, Self::Room), (Self::Directory, NoMemory)>
        requires some { 0 < lanes }
        requires of { is_of directory settings }
        ensures made { IfOk result (λ made. is_made made.0 made.2 directory settings lanes) }
        ensures seated { IfOk result (λ made. AreSeated Self.fits made.0 settings lanes made.1.items) }
        ensures unseen { IfOk result (λ made. AreUnseen Self.sight made.1.items) }
        ensures told { IfOk result (λ made. AreAtRows Self.is_at stands faults fuses directory made.1.items) }
        ensures regular { (known : DirKnown) (drained : List Bool) → stands directory known drained → IsRegularDirectory settings known }
        ensures refused { IfErr result (λ back. back.0 ≡ directory) };

    /// Ends the lock with all its seats, and gives the Directory back, and the tags of the rows that were added. It may wait for looks
    /// that are under way, behind which none returns.
    fn close<R: Wait>(
        self,
        rt: &R,
        seats: Vec<Self::Seat>,
        room: Self::Room,
    ) -> (Self::Directory, Vec<Tag>)
        requires made { (directory : Self.Directory) × (settings : Settings)
            × is_made self room directory settings (length seats.items) × AreSeated Self.fits self settings (length seats.items) seats.items }
        ensures left { (directory : Self.Directory) (settings : Settings) → is_made self room directory settings (length seats.items) →
            AreSeated Self.fits self settings (length seats.items) seats.items →
            LeavesDirectory Self.sight stands faults fuses directory seats.items result.0 result.1.items }
        ensures of { (directory : Self.Directory) (settings : Settings) → is_made self room directory settings (length seats.items) → is_of result.0 settings };
}
