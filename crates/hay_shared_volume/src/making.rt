//! How the lock of a volume is made, and how it ends.
ghost use Rattle.std.specs.Prelude.{◌≡◌, ◌≤◌, ◌<◌, ◌-◌, ◌^◌, ℕ, Some, length, IfErr, IfOk};
ghost use Rattle.hay_needle.specs.declared.settings.Settings.{Settings};
ghost use Rattle.hay_legal.specs.declared.known.Run.{Run};
ghost use Rattle.hay_legal.specs.declared.known.VolumeKnown.{VolumeKnown};
ghost use Rattle.hay_legal.specs.Known.{replica_at};
ghost use Rattle.hay_logical.specs.Stands.{Stands};
ghost use Rattle.hay_logical.specs.Volumes.{Volume};
ghost use Rattle.hay_shared_volume.specs.Making.{AreAt, AreSeated, AreUnseen, IsMadeOf, IsRegularVolume, IsVolumeOf, LeavesVolume, VolumeStands, count_of};
ghost use Rattle.hay_shared_volume.specs.Seats.{IsSeatOf, WasAt, sight_of};

use crate::volume::SharedVolume;
use hay_base::NoMemory;
use hay_disk::{Disk, Piece};
use hay_front::{Seat, Tag};
use hay_logical::Logical;
use hay_needle::{LAST_GENERATION, Settings};
use hay_script::MAX_LANES;
use hay_turn::TurnSeat;
use hay_volume_lock::{Guarded, NewLock, Places, SeatRoom, VolumeLock, VolumeSeat};
use std::alloc::Global;
use std::marker::Model;
use std::snapshot::Snapshot;
use std::sync::Wait;

/// Room for the parts of a volume's seats, for when its lock ends. Clauses see for how many seats.
#[derive(Drop)]
pub struct VolumeRoom<D: Disk<Piece = P>, P: Piece> {
    room: SeatRoom<TurnSeat<Guarded<D, P>>, Seat<Places<D>>>,
}

impl<D: Disk<Piece = P>, P: Piece> Model for VolumeRoom<D, P> {
    ghost use Rattle.std.specs.Prelude.{ℕ};

    ghost Value = { ℕ };

    ghost view = { λ r. r.room };
}

// Reads which compactions stand at a volume, of which each makes a generation that there may be.
fn read_goals<D: Disk>(volume: &Logical<D>, replicas: u32)
    requires { replicas ≤ length volume.now.replicas }
    ensures { D.Tells → (k : VolumeKnown) → Stands D.files D.Piece.Tells volume.now k → (j : ℕ) → j < replicas →
        (run : Run) → (replica_at k j).run ≡ Some run → run.goal ≤ LAST_GENERATION }
{
    for replica in 0..replicas {
        let _goal = volume.standing(replica);
    }
}

// Reads how many calls of the disk of each replica have failed, which is a number of 64 bits.
fn read_faults<D: Disk>(volume: &Logical<D>, replicas: u32)
    requires { replicas ≤ length volume.now.replicas }
    ensures { (j : ℕ) → j < replicas → count_of D.fault_count volume.now j ≤ 2 ^ 64 - 1 }
{
    for replica in 0..replicas {
        let _faults = volume.faults(replica);
    }
}

impl<D: Disk<Piece = P>, P: Piece> SharedVolume<D, P> {
    /// The lock of a volume, and a seat for each lane, in their order. `NoMemory` gives the volume back as it was.
    pub fn new<R: Wait>(
        rt: &R,
        alloc: Global,
        settings: Settings,
        volume: Logical<D>,
        lanes: u32,
    ) -> Result<
        (SharedVolume<D, P>, Vec<VolumeSeat<D, P>>, VolumeRoom<D, P>),
        (Logical<D>, NoMemory),
    >
        requires some { 0 < lanes }
        requires few { lanes ≤ MAX_LANES }
        requires of { (number : ℕ) × IsVolumeOf volume settings number }
        ensures made { IfOk result (λ made. (number : ℕ) → IsVolumeOf volume settings number → IsMadeOf made.0 made.2 volume settings number lanes) }
        ensures seated { IfOk result (λ made. (number : ℕ) → IsVolumeOf volume settings number → AreSeated (IsSeatOf number) made.0 settings lanes made.1.items) }
        ensures unseen { IfOk result (λ made. AreUnseen sight_of made.1.items) }
        ensures told { IfOk result (λ made. (number : ℕ) → IsVolumeOf volume settings number
            → AreAt (WasAt D.Tells D.files P.Tells D.fault_count D.fuse_count) (VolumeStands D.Tells D.files P.Tells) (count_of D.fault_count) (count_of D.fuse_count) settings
            number volume made.1.items) }
        ensures regular { (number : ℕ) → IsVolumeOf volume settings number → (known : VolumeKnown) → VolumeStands D.Tells D.files P.Tells volume known → IsRegularVolume settings known }
        ensures refused { IfErr result (λ back. back.0 ≡ volume) }
    {
        read_goals(&volume, settings.replicas);
        match VolumeLock::new(rt, alloc, settings, volume, lanes) {
            Ok(NewLock { lock, seats, room }) => {
                let first = Snapshot::of(&seats[0]);
                let shared = SharedVolume {
                    settings,
                    lock,
                    first,
                };
                Ok((shared, seats, VolumeRoom { room }))
            }
            Err(back) => Err(back),
        }
    }

    /// Ends the lock with all its seats, and gives the volume back, and the tags of the changes that were entered. It may wait for looks
    /// that are under way, behind which none returns.
    pub fn close<R: Wait>(
        self,
        rt: &R,
        seats: Vec<VolumeSeat<D, P>>,
        room: VolumeRoom<D, P>,
    ) -> (Logical<D>, Vec<Tag>)
        requires made { (volume : Volume D P) × (settings : Settings) × (number : ℕ)
            × IsMadeOf self room volume settings number (length seats.items) × AreSeated (IsSeatOf number) self settings (length seats.items) seats.items }
        ensures left { (volume : Volume D P) (settings : Settings) (number : ℕ) → IsMadeOf self room volume settings number (length seats.items) →
            AreSeated (IsSeatOf number) self settings (length seats.items) seats.items →
            LeavesVolume sight_of (VolumeStands D.Tells D.files P.Tells) (count_of D.fault_count) (count_of D.fuse_count) settings number volume seats.items result.0 result.1.items }
        ensures of { (volume : Volume D P) (settings : Settings) (number : ℕ) → IsMadeOf self room volume settings number (length seats.items) → IsVolumeOf result.0 settings number }
    {
        let SharedVolume {
            settings,
            lock,
            first: _,
        } = self;
        let VolumeRoom { room } = room;
        let (volume, tags) = lock.close(rt, seats, room);
        read_faults(&volume, settings.replicas);
        let _front = volume.front();
        (volume, tags)
    }
}
