//! The Directory and the front of its homes, as they stand behind the lock.
ghost use Rattle.std.specs.Prelude.{◌≡◌, ◌<◌, ◌++◌, ◌∷◌, [], List, Bool, slice_set, IfOk};
ghost use Rattle.std.specs.List.{AllByRecursion};
ghost use Rattle.hay_front.specs.Fronts.{IsBehind};
ghost use Rattle.hay_turn.specs.Slots.{acts_in};
ghost use Rattle.hay_meeting.specs.declared.act.DirAct.{DirAct};
ghost use Rattle.hay_meeting.specs.Acts.{Start, row_did_of};
ghost use Rattle.hay_holdings.specs.Rows.{MadeRow};
ghost use Rattle.hay_history.specs.LaneSteps.RowDid.{Drains, FusesRow};
ghost use Rattle.hay_legal.specs.declared.known.DirKnown.{DirKnown};
ghost use Rattle.hay_directory.specs.Rows.{home_row};
ghost use Rattle.hay_directory.specs.State.{IsUp, Stands};
ghost use Rattle.hay_directory_lock.specs.Standing.{KeptFor, StandsAt};
ghost use Rattle.hay_directory_lock.specs.Begun.{BegunAt};
ghost use Rattle.hay_directory_lock.specs.Answers.{Settles};
ghost use Rattle.hay_directory_lock.specs.Acts.{SetNoFuse};

use crate::act::RowAct;
use hay_core::CoreTag;
use hay_directory::{DirFault, Directory};
use hay_dirfile::DirRow;
use hay_disk::Disk;
use hay_front::{Front, Seat, Tag};
use hay_legal::known::HomeRow;
use hay_meeting::DirDid;
use hay_turn::Kept;
use hay_views::HomeView;
use std::marker::Model;
use std::sync::Wait;

/// What stood where the lock was made: the Directory, and what was published of its homes. No value is made.
pub struct Begun<D: Disk> {
    directory: Directory<D>,
    view: Seat<HomeView>,
}

impl<D: Disk> Model for Begun<D> {
    ghost use Rattle.hay_directory_lock.specs.Begun.{BegunAt};

    ghost Value = { BegunAt D };

    ghost view = { λ b. record { directory = b.directory; view = b.view } };
}

/// The Directory, and the front of its homes. It is not `Drop`, since the front waits for looks that are under way: end it by `end`.
pub struct KeptDirectory<D: Disk> {
    pub directory: Directory<D>,
    pub front: Front<HomeView>,
}

impl<D: Disk> Kept for KeptDirectory<D> {
    type Start = Begun<D>;

    type Act = RowAct<D>;

    ghost by = { λ a. a.seat };

    ghost stands = { λ begun acts kept. KeptFor D.Tells D.files D.fault_count D.fuse_count begun acts kept.directory kept.front };
}

fn front_tag(tag: CoreTag) -> Tag
    ensures { result ≡ record { seat = tag.lane; lane = tag.lane; line = tag.line } }
{
    Tag {
        seat: tag.lane,
        lane: tag.lane,
        line: tag.line,
    }
}

// Drains a machine, or no longer.
fn mark<D: Disk>(directory: &mut Directory<D>, machine: u32, is_drained: bool)
    requires up { IsUp directory.old }
    requires machine { machine < directory.old.settings.machines }
    ensures only { directory.new ≡ record directory.old { drained = slice_set directory.old.drained machine is_drained } }
    ensures stands { (known : DirKnown) (drained : List Bool) → Stands D.files directory.old known drained →
        Stands D.files directory.new known (slice_set drained machine is_drained) }
{
    if is_drained {
        directory.drain(machine);
    } else {
        directory.undrain(machine);
    }
}

impl<D: Disk> KeptDirectory<D> {
    /// Gives the pair of the row that home, if it has none. It answers the home and how many rows were published since the lock was made.
    pub(crate) fn settle<R: Wait>(
        &mut self,
        rt: &R,
        view: &mut Seat<HomeView>,
        tag: CoreTag,
        row: DirRow,
    ) -> (Result<(u32, u64), DirFault>, Option<RowAct<D>>)
        requires kept { (begun : BegunAt D) × (acts : List DirAct) × KeptFor D.Tells D.files D.fault_count D.fuse_count begun acts self.old.directory self.old.front }
        requires view { view.old.front ≡ self.old.front.shown.front }
        requires volume { row.volume < self.old.directory.settings.volumes }
        ensures kept { (begun : BegunAt D) (acts : List DirAct) → KeptFor D.Tells D.files D.fault_count D.fuse_count begun acts self.old.directory self.old.front →
            KeptFor D.Tells D.files D.fault_count D.fuse_count begun (acts ++ acts_in result.1) self.new.directory self.new.front }
        ensures from { IsBehind view.old self.old.front.shown }
        ensures shown { view.new ≡ self.new.front.shown }
        ensures act { AllByRecursion (λ act. (act.tag ≡ tag) × (act.seat ≡ tag.lane)) (acts_in result.1) }
        ensures unfused { SetNoFuse (acts_in result.1) }
        ensures below { IfOk result.0 (λ answer. answer.0 < self.old.directory.settings.volumes) }
        ensures settles { (start : Start) (begun : BegunAt D) (acts : List DirAct) → KeptFor D.Tells D.files D.fault_count D.fuse_count begun acts self.old.directory self.old.front →
            StandsAt D.fault_count D.fuse_count begun.directory start.directory → Settles start (home_row row) result.0 acts result.1 }
    {
        self.front.show_all(rt, view);
        if let Some(home) = self.directory.home(row.pair) {
            return (Ok((home, self.front.front())), None);
        }
        let home = HomeRow {
            pair: row.pair,
            volume: row.volume,
        };
        let written = match self.directory.write_row(tag, row) {
            Ok(written) => written,
            Err(DirFault::Frozen) => return (Err(DirFault::Frozen), None),
            Err(DirFault::NoMemory) => {
                let act = RowAct::of(tag, DirDid::TriesRow, &self.directory);
                return (Err(DirFault::NoMemory), Some(act));
            }
            Err(DirFault::Failed { faults }) => {
                let act = RowAct::of(tag, DirDid::PendsRow(home), &self.directory);
                return (Err(DirFault::Failed { faults }), Some(act));
            }
        };
        let Ok(_receipt) = self.front.publish(rt, view, front_tag(tag), row) else {
            let act = RowAct::of(tag, DirDid::PendsRow(home), &self.directory);
            return (Err(DirFault::NoMemory), Some(act));
        };
        self.directory.show_row(written);
        let act = RowAct::of(tag, DirDid::AddsRow(home), &self.directory);
        (Ok((row.volume, self.front.front())), Some(act))
    }

    /// Closes a machine to changes, or opens it again.
    pub(crate) fn set_drained<R: Wait>(
        &mut self,
        rt: &R,
        view: &mut Seat<HomeView>,
        tag: CoreTag,
        machine: u32,
        is_drained: bool,
    ) -> RowAct<D>
        requires kept { (begun : BegunAt D) × (acts : List DirAct) × KeptFor D.Tells D.files D.fault_count D.fuse_count begun acts self.old.directory self.old.front }
        requires view { view.old.front ≡ self.old.front.shown.front }
        requires machine { machine < self.old.directory.settings.machines }
        ensures kept { (begun : BegunAt D) (acts : List DirAct) → KeptFor D.Tells D.files D.fault_count D.fuse_count begun acts self.old.directory self.old.front →
            KeptFor D.Tells D.files D.fault_count D.fuse_count begun (acts ++ result ∷ []) self.new.directory self.new.front }
        ensures from { IsBehind view.old self.old.front.shown }
        ensures shown { view.new ≡ self.new.front.shown }
        ensures act { (result.tag ≡ tag) × (result.seat ≡ tag.lane) }
        ensures did { row_did_of result.did ≡ Drains machine is_drained }
    {
        self.front.show_all(rt, view);
        mark(&mut self.directory, machine, is_drained);
        let did = DirDid::Drains {
            machine,
            is: is_drained,
        };
        RowAct::of(tag, did, &self.directory)
    }

    /// Sets a fuse on the disk.
    pub(crate) fn fuse<R: Wait>(
        &mut self,
        rt: &R,
        view: &mut Seat<HomeView>,
        tag: CoreTag,
        calls: u32,
    ) -> RowAct<D>
        requires view { view.old.front ≡ self.old.front.shown.front }
        ensures kept { (begun : BegunAt D) (acts : List DirAct) → KeptFor D.Tells D.files D.fault_count D.fuse_count begun acts self.old.directory self.old.front →
            KeptFor D.Tells D.files D.fault_count D.fuse_count begun (acts ++ result ∷ []) self.new.directory self.new.front }
        ensures from { IsBehind view.old self.old.front.shown }
        ensures shown { view.new ≡ self.new.front.shown }
        ensures act { (result.tag ≡ tag) × (result.seat ≡ tag.lane) }
        ensures did { row_did_of result.did ≡ FusesRow }
    {
        self.front.show_all(rt, view);
        self.directory.fuse(calls);
        RowAct::of(tag, DirDid::FusesRow, &self.directory)
    }

    /// Ends the front with all its seats, and gives the Directory.
    pub(crate) fn end<R: Wait>(self, rt: &R, views: Vec<Seat<HomeView>>) -> Directory<D>
        ensures { result ≡ self.directory }
    {
        let KeptDirectory { directory, front } = self;
        let _tags = front.close(rt, views);
        directory
    }
}
