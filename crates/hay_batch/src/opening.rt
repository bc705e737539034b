//! Opening the disk of the Directory, and that of a replica.

ghost use Rattle.std.specs.Prelude.{◌≡◌, IfErr, IfOk};
ghost use Rattle.hay_disk.specs.Disk.{IsFree, IsSolid};
ghost use Rattle.hay_batch.specs.Openings.{journal_super};
ghost use Rattle.hay_batch.specs.Slots.{IsAtRest, OpensFile, OpensJournal, RefusesFile, RefusesJournal};

use crate::homes::Homes;
use hay_dirfile::{Journal, OpenFault as JournalFault};
use hay_disk::Disk;
use hay_needle::{FileKind, Settings, Super};
use hay_open::{OpenFault, open_replica};
use hay_volume::VolumeFile;
use std::alloc::Global;

/// What is kept of a journal that was opened: where its rows end, the homes by them, and how many there are.
#[derive(Drop)]
pub(crate) struct OpenJournal {
    pub journal: Journal,
    pub homes: Homes,
    pub rows: u64,
}

// What stands at the front of a journal.
fn journal_super(settings: &Settings) -> Super
    ensures { result ≡ journal_super settings.now }
{
    Super {
        settings: *settings,
        kind: FileKind::Journal,
        volume: 0,
        replica: 0,
        generation: 0,
    }
}

/// Opens the Directory's disk.
pub(crate) fn open_journal<D: Disk>(
    alloc: Global,
    disk: &mut D,
    settings: &Settings,
) -> Result<OpenJournal, JournalFault>
    requires solid { D.Tells → IsSolid (D.files disk.old 0) }
    requires free { D.Tells → IsFree (D.files disk.old 0) }
    ensures opened { IfOk result (OpensJournal D.Tells D.files D.fault_count D.fuse_count settings.now disk.old disk.new) }
    ensures refused { IfErr result (RefusesJournal D.Tells D.files D.fault_count D.fuse_count settings.now disk.old disk.new) }
{
    let sup = journal_super(settings);
    let (journal, rows) = Journal::open(alloc, disk, &sup)?;
    let mut homes = Homes::new(alloc);
    let Ok(()) = homes.add_rows(rows.as_slice()) else {
        return Err(JournalFault::NoMemory);
    };
    let rows = rows.len() as u64;
    Ok(OpenJournal {
        journal,
        homes,
        rows,
    })
}

/// Opens the disk of a replica, and answers its volume file. The superblock gives the settings, the volume and the replica.
pub(crate) fn open_file<D: Disk>(
    alloc: Global,
    disk: &mut D,
    sup: &Super,
) -> Result<VolumeFile, OpenFault>
    requires { IsAtRest D.Tells D.files disk.old }
    ensures opened { IfOk result (OpensFile D.Tells D.files D.fault_count D.fuse_count sup.now disk.old disk.new) }
    ensures refused { IfErr result (RefusesFile D.Tells D.files D.fault_count D.fuse_count sup.now disk.old disk.new) }
{
    match open_replica(alloc, disk, sup) {
        Ok(opened) => {
            let volume = opened.volume;
            Ok(volume)
        }
        Err(fault) => Err(fault),
    }
}
