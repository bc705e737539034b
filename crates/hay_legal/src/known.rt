//! What the store stands at between two turns.
use hay_base::Listed;
use hay_core::{CoreTag, Entry, Logged, Table};
use hay_needle::Pair;

/// A change that was made in part, and whether its line was answered `failed`.
#[derive(Drop)]
pub struct Pending {
    pub tag: CoreTag,
    pub entry: Entry,
    pub failed: bool,
}

/// A standing compaction: the generation that is made, and the cells that are left.
#[derive(Clone, Copy)]
pub struct Run {
    pub goal: u64,
    pub left: u64,
}

#[derive(Drop)]
pub struct ReplicaKnown {
    pub base: Table,
    pub end: u64,
    pub cells: u64,
    pub bare: u64,
    pub generation: u64,
    pub stuck: bool,
    pub run: Option<Run>,
    pub poised: bool,
}

#[derive(Drop)]
pub struct VolumeKnown {
    pub log: Listed<Logged>,
    pub frozen: Option<u32>,
    pub pending: Option<Pending>,
    pub replicas: Listed<ReplicaKnown>,
}

/// A pair, and the volume that has it.
#[derive(Clone, Copy)]
pub struct HomeRow {
    pub pair: Pair,
    pub volume: u32,
}

#[derive(Drop)]
pub struct PendingRow {
    pub tag: CoreTag,
    pub row: HomeRow,
}

#[derive(Drop)]
pub struct DirKnown {
    pub rows: Listed<HomeRow>,
    pub frozen: bool,
    pub pending: Option<PendingRow>,
}

/// Counts of faults and fuses are by slot, those of the arms by lane, and drains by machine.
#[derive(Drop)]
pub struct Known {
    pub volumes: Listed<VolumeKnown>,
    pub directory: DirKnown,
    pub drained: Listed<bool>,
    pub faults: Listed<u64>,
    pub arms: Listed<u64>,
    pub fuses: Listed<u64>,
}
