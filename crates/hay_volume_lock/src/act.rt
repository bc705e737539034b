//! What a holding did.
ghost use Rattle.std.specs.Prelude.{◌≡◌};
ghost use Rattle.hay_volume_lock.specs.Acts.{act_of};

use hay_core::{CoreTag, Entry};
use hay_disk::Disk;
use hay_logical::Logical;
use hay_views::{Moment, Past};
use std::marker::Model;

/// What was done to a volume. What it has of a change, and of compactions that a delete ended, is for clauses alone.
#[derive(Drop)]
pub enum Made {
    /// Nothing was changed, though a call of a disk may have failed.
    Tries,
    /// The change was made. A delete ended the compactions of these replicas, since their disks failed.
    Enters {
        entry: Moment<Entry>,
        ended: Past<bool>,
    },
    /// The volume was frozen by the machine with the change pending; the flag tells whether a disk failed.
    Pends {
        machine: u32,
        entry: Moment<Entry>,
        failed: bool,
    },
    /// The volume was frozen by the machine.
    Freezes {
        machine: u32,
    },
    Flushes {
        replica: u32,
    },
    /// A flush of the replica failed.
    Sticks {
        replica: u32,
    },
    Begins {
        replica: u32,
    },
    Fuses {
        replica: u32,
    },
    Examines {
        replica: u32,
        cells: u64,
    },
    Ends {
        replica: u32,
    },
    Swaps {
        replica: u32,
        end: u64,
        cells: u64,
        frozen: Option<u32>,
    },
    Poises {
        machine: u32,
        replica: u32,
    },
}

/// An act for a line, and the volume behind it. It is for clauses alone, which see a `VolumeAct`.
#[derive(Drop)]
pub struct Act<D: Disk> {
    tag: CoreTag,
    made: Made,
    after: Moment<Logical<D>>,
}

impl<D: Disk> Model for Act<D> {
    ghost use Rattle.hay_meeting.specs.declared.act.VolumeAct.{VolumeAct};
    ghost use Rattle.hay_volume_lock.specs.Acts.{act_of};

    ghost Value = { VolumeAct };

    ghost view = { λ a. act_of D.fault_count D.fuse_count a.tag a.made a.after.replicas };
}

impl<D: Disk> Act<D> {
    /// The line did this, and left the volume so.
    pub(crate) fn new(tag: CoreTag, made: Made, after: &Logical<D>) -> Act<D>
        ensures { result ≡ act_of D.fault_count D.fuse_count tag made after.now.replicas }
    {
        Act {
            tag,
            made,
            after: Moment::of(after),
        }
    }
}
