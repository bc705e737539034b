//! The files of a replica's disk, and what stands at the front of each.

ghost use Rattle.std.specs.Prelude.{◌≡◌, ◌≤◌, ◌+◌, ◌*◌};
ghost use Rattle.hay_needle.specs.Super.{SuperFits};
ghost use Rattle.hay_open.specs.Stored as stored;

use hay_needle::{FileKind, LAST_GENERATION, Super};

/// The head file.
pub const HEAD_FILE: u32 = 0;

/// The volume file of a generation.
pub fn volume_file(generation: u64) -> u32
    ensures { generation ≤ LAST_GENERATION → result ≡ stored.volume_file generation }
{
    2 * generation.min(LAST_GENERATION) as u32 + 1
}

/// The index file of a generation.
pub fn index_file(generation: u64) -> u32
    ensures { generation ≤ LAST_GENERATION → result ≡ stored.index_file generation }
{
    2 * generation.min(LAST_GENERATION) as u32 + 2
}

/// The superblock of the head file.
pub fn head_super(sup: &Super) -> Super
    ensures { result ≡ stored.head_super sup.now }
{
    Super {
        kind: FileKind::Head,
        generation: 0,
        ..*sup
    }
}

/// The numbers behind a reference fit their types, once each was read.
pub fn read_numbers(sup: &Super)
    ensures { SuperFits sup.now }
{
    let _machines = sup.settings.machines;
    let _volumes = sup.settings.volumes;
    let _replicas = sup.settings.replicas;
    let _capacity = sup.settings.capacity;
    let _volume = sup.volume;
    let _replica = sup.replica;
    let _generation = sup.generation;
}

/// The superblock of the volume file of a generation.
pub fn volume_super(sup: &Super, generation: u64) -> Super
    ensures is { result ≡ stored.volume_super sup.now generation }
    ensures fits { SuperFits result }
{
    read_numbers(sup);
    Super {
        kind: FileKind::Volume,
        generation,
        ..*sup
    }
}

/// The superblock of the index file of a generation.
pub fn index_super(sup: &Super, generation: u64) -> Super
    ensures { result ≡ stored.index_super sup.now generation }
{
    Super {
        kind: FileKind::Index,
        generation,
        ..*sup
    }
}
