//! What a check answers.

/// What the contents of a disk are.
#[derive(Clone, Copy, Debug, PartialEq, Eq)]
pub enum Verdict {
    /// Its first file is empty.
    Void,
    /// The Directory's disk: a journal of so many rows.
    Rows {
        rows: u64,
    },
    /// The disk of a replica: its current generation, how many cells its volume file has, how many pairs have a photo,
    /// how many cells have a record in the index, where the cells end, and how many of them are of version 1.
    Whole {
        generation: u64,
        cells: u64,
        live: u64,
        records: u64,
        end: u64,
        old: u64,
    },
    /// The first place that is not of the format.
    Damaged {
        file: u32,
        at: u64,
    },
}

/// Why a disk was not checked.
#[derive(Clone, Copy, Debug, PartialEq, Eq)]
pub enum CheckFault {
    /// The disk failed, and its count of faults, which is this now, rose.
    Failed { faults: u64 },
    /// Memory was wanting.
    NoMemory,
}
