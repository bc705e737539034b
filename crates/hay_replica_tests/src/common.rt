//! The pairs, the superblock and the folders of these tests.
#![tactic(auto)]

use hay_needle::{FileKind, Pair, Settings, Super};
use std::alloc::Global;
use std::fs::Files;
use std::io::ErrorKind;
use std::test::Fail;

pub(crate) const FIRST: Pair = Pair { key: 7, alt: 1 };

pub(crate) const SECOND: Pair = Pair { key: 7, alt: 2 };

pub(crate) const SUP: Super = Super {
    settings: Settings {
        machines: 1,
        volumes: 1,
        replicas: 1,
        capacity: 4096,
        secret: [0; 32],
    },
    kind: FileKind::Volume,
    volume: 0,
    replica: 0,
    generation: 0,
};

// No folder of an earlier run.
pub(crate) fn clear(files: &impl Files, alloc: Global, folder: &str) -> Result<(), Fail> {
    match files.remove_dir_all(alloc, folder) {
        Err(error) if error.kind() != ErrorKind::NotFound => Err(error.into()),
        _ => Ok(()),
    }
}
