//! What a seat did with the Directory.
ghost use Rattle.std.specs.Prelude.{◌≡◌};
ghost use Rattle.hay_meeting.specs.declared.act.DirDid.{DirDid};

use hay_core::CoreTag;
use hay_directory::Directory;
use hay_disk::Disk;
use hay_meeting::DirDid;
use std::marker::Model;
use std::snapshot::Snapshot;

/// What a seat did with the Directory in one holding, and the Directory behind it. It is for clauses alone.
#[derive(Drop)]
pub struct RowAct<D: Disk> {
    tag: CoreTag,
    did: DirDid,
    behind: Snapshot<Directory<D>>,
}

impl<D: Disk> Model for RowAct<D> {
    ghost use Rattle.hay_meeting.specs.declared.act.DirAct.{DirAct};

    ghost Value = { DirAct };

    ghost view = { λ a. record {
      seat = a.tag.lane;
      tag = a.tag;
      did = a.did;
      faults = D.fault_count a.behind.value.disk;
      fuses = D.fuse_count a.behind.value.disk;
    } };
}

impl<D: Disk> RowAct<D> {
    pub(crate) fn of(tag: CoreTag, did: DirDid, behind: &Directory<D>) -> RowAct<D>
        ensures { result ≡ record { seat = tag.lane; tag = tag; did = did; faults = D.fault_count behind.now.disk; fuses = D.fuse_count behind.now.disk } }
    {
        RowAct {
            tag,
            did,
            behind: Snapshot::of(behind),
        }
    }
}
