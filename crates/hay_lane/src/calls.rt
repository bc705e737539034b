//! What a lane calls at the Directory's lock.
ghost use Rattle.std.specs.Prelude.{◌<◌, ℕ, true, false, IfOk, IfSome};
ghost use Rattle.hay_needle.specs.declared.settings.Settings.{Settings};
ghost use Rattle.hay_legal.specs.declared.known.HomeRow.{HomeRow};
ghost use Rattle.hay_meeting.specs.declared.act.DirAct.{DirAct};
ghost use Rattle.hay_meeting.specs.Acts.{Start};
ghost use Rattle.hay_meeting.specs.Locks.{LockSight};
ghost use Rattle.hay_holdings.specs.Rows.{Drained, FusedDir, HomeShown};
ghost use Rattle.hay_lane.specs.Fuses.{SetNoRowFuse};
ghost use Rattle.hay_lane.specs.Tellings.{SettleTells};
ghost use Rattle.hay_shared_volume.specs.Tellings.{Stays};

use hay_core::CoreTag;
use hay_directory::DirFault;
use hay_needle::Pair;
use std::sync::Wait;

/// The Directory behind its lock.
pub trait DirectoryCalls {
    type Seat: Drop;

    /// What the seat's lane knows of the Directory.
    ghost sight: { Self.Seat → LockSight DirAct HomeRow };

    /// The seat is of this lock, for a store of these settings, and of this lane.
    ghost fits: { Self → Settings → ℕ → Self.Seat → Type 0 };

    /// This stood where the lock was made.
    ghost is_at: { Self.Seat → Start → Type 0 };

    /// How many rows there are, and the home of a pair among them, by one look.
    fn home<R: Wait>(&self, rt: &R, seat: &mut Self::Seat, pair: Pair) -> (u64, Option<u32>)
        requires fits { (settings : Settings) × (lane : ℕ) × fits self.now settings lane seat.old }
        ensures stays { Stays fits is_at self.now seat.old seat.new }
        ensures below { (settings : Settings) (lane : ℕ) → fits self.now settings lane seat.old → IfSome result.1 (λ home. home < settings.volumes) }
        ensures unfused { SetNoRowFuse (sight seat.old).own → SetNoRowFuse (sight seat.new).own }
        ensures tells { (start : Start) → is_at seat.old start → HomeShown start pair result.0 result.1 (sight seat.old) (sight seat.new) };

    /// Gives a pair a home, unless it has one, and answers its home and how many rows there are.
    fn settle<R: Wait>(
        &self,
        rt: &R,
        seat: &mut Self::Seat,
        tag: CoreTag,
        pair: Pair,
        volume: u32,
    ) -> Result<(u32, u64), DirFault>
        requires fits { (settings : Settings) × fits self.now settings tag.lane seat.old × (volume < settings.volumes) }
        ensures stays { Stays fits is_at self.now seat.old seat.new }
        ensures below { (settings : Settings) (lane : ℕ) → fits self.now settings lane seat.old → IfOk result (λ answer. answer.0 < settings.volumes) }
        ensures unfused { SetNoRowFuse (sight seat.old).own → SetNoRowFuse (sight seat.new).own }
        ensures tells { (start : Start) → is_at seat.old start → SettleTells start tag (record { pair = pair; volume = volume }) result (sight seat.old) (sight seat.new) };

    /// Closes a machine to changes.
    fn drain<R: Wait>(&self, rt: &R, seat: &mut Self::Seat, tag: CoreTag, machine: u32)
        requires fits { (settings : Settings) × fits self.now settings tag.lane seat.old × (machine < settings.machines) }
        ensures stays { Stays fits is_at self.now seat.old seat.new }
        ensures tells { (start : Start) → is_at seat.old start → Drained start tag machine true (sight seat.old) (sight seat.new) };

    /// Opens a machine to changes again.
    fn undrain<R: Wait>(&self, rt: &R, seat: &mut Self::Seat, tag: CoreTag, machine: u32)
        requires fits { (settings : Settings) × fits self.now settings tag.lane seat.old × (machine < settings.machines) }
        ensures stays { Stays fits is_at self.now seat.old seat.new }
        ensures tells { (start : Start) → is_at seat.old start → Drained start tag machine false (sight seat.old) (sight seat.new) };

    /// Sets a fuse on the disk.
    fn fuse<R: Wait>(&self, rt: &R, seat: &mut Self::Seat, tag: CoreTag, calls: u32)
        requires fits { (settings : Settings) × fits self.now settings tag.lane seat.old }
        ensures stays { Stays fits is_at self.now seat.old seat.new }
        ensures tells { (start : Start) → is_at seat.old start → FusedDir start tag (sight seat.old) (sight seat.new) };
}
