//! How a line is answered by what its calls answered.
ghost use Rattle.hay_lane.specs.Replies.{IsBeginReply, IsCompactionReply, IsDeleteReply, IsFinishReply, IsFlushReply, IsReadOnly, IsStepReply};
ghost use Rattle.hay_reply.specs.Fits.{FitsReply};

use hay_base::Listed;
use hay_reply::{ClosedBy, Reply};
use hay_shared_volume::{Begin, Compaction, Delete, Finish, Flush, Step};
use std::alloc::Global;

/// The refusal of a change of a volume that is closed by this machine.
pub(crate) fn read_only(alloc: Global, volume: u32, machine: u32) -> Reply
    ensures is { IsReadOnly volume machine result }
    ensures fits { FitsReply result }
{
    match Listed::one(alloc, ClosedBy { volume, machine }) {
        Ok(tries) => Reply::ReadOnly { tries },
        Err(_) => Reply::NoMem,
    }
}

/// The reply to a delete at the pair's home, where there are so many rows.
pub(crate) fn delete_reply(alloc: Global, volume: u32, rows: u64, answer: Delete) -> Reply
    ensures is { IsDeleteReply volume rows answer result }
    ensures fits { FitsReply result }
{
    match answer {
        Delete::Deleted { position } => Reply::Deleted {
            volume,
            position,
            rows,
        },
        Delete::Absent { front } => Reply::Absent {
            volume,
            front,
            rows,
        },
        Delete::Frozen { machine } => read_only(alloc, volume, machine),
        Delete::Failed { machine, faults } => Reply::Failed {
            volume,
            machine,
            faults,
        },
        Delete::Damaged { machine, at } => Reply::Damaged {
            volume,
            machine,
            at,
        },
        Delete::NoMemory => Reply::NoMem,
    }
}

/// The reply to a flush of the replica on the machine.
pub(crate) fn flush_reply(alloc: Global, volume: u32, machine: u32, answer: Flush) -> Reply
    ensures is { IsFlushReply volume machine answer result }
    ensures fits { FitsReply result }
{
    match answer {
        Flush::Flushed { cells } => Reply::Flushed {
            volume,
            machine,
            records: cells,
        },
        Flush::Frozen { machine } => read_only(alloc, volume, machine),
        Flush::Stuck => read_only(alloc, volume, machine),
        Flush::Failed { faults } => Reply::Failed {
            volume,
            machine,
            faults,
        },
        Flush::NoMemory => Reply::NoMem,
    }
}

/// The reply to the beginning of a compaction of the replica on the machine.
pub(crate) fn begin_reply(alloc: Global, volume: u32, machine: u32, answer: Begin) -> Reply
    ensures is { IsBeginReply volume machine answer result }
    ensures fits { FitsReply result }
{
    match answer {
        Begin::Begun { generation } => Reply::Begun {
            volume,
            machine,
            generation,
        },
        Begin::Frozen { machine } => read_only(alloc, volume, machine),
        Begin::Busy { generation } => Reply::Busy {
            volume,
            machine,
            generation,
        },
        Begin::Worn => Reply::Worn { volume, machine },
        Begin::Failed { faults } => Reply::Failed {
            volume,
            machine,
            faults,
        },
        Begin::NoMemory => Reply::NoMem,
    }
}

/// The reply to a step of it.
pub(crate) fn step_reply(alloc: Global, volume: u32, machine: u32, answer: Step) -> Reply
    ensures is { IsStepReply volume machine answer result }
    ensures fits { FitsReply result }
{
    match answer {
        Step::Stepped { cells } => Reply::Stepped {
            volume,
            machine,
            cells,
        },
        Step::Frozen { machine } => read_only(alloc, volume, machine),
        Step::Idle => Reply::Idle { volume, machine },
        Step::Failed { faults } => Reply::Failed {
            volume,
            machine,
            faults,
        },
        Step::Damaged { at } => Reply::Damaged {
            volume,
            machine,
            at,
        },
        Step::NoMemory { .. } => Reply::NoMem,
    }
}

/// The reply to its end.
pub(crate) fn finish_reply(alloc: Global, volume: u32, machine: u32, answer: Finish) -> Reply
    ensures is { IsFinishReply volume machine answer result }
    ensures fits { FitsReply result }
{
    match answer {
        Finish::Compacted { generation } => Reply::Compacted {
            volume,
            machine,
            generation,
        },
        Finish::Frozen { machine } => read_only(alloc, volume, machine),
        Finish::Idle => Reply::Idle { volume, machine },
        Finish::Failed { faults } | Finish::Poised { faults } => Reply::Failed {
            volume,
            machine,
            faults,
        },
        Finish::Damaged { at } => Reply::Damaged {
            volume,
            machine,
            at,
        },
        Finish::NoMemory => Reply::NoMem,
    }
}

/// The reply to a whole compaction that was begun.
pub(crate) fn compaction_reply(
    alloc: Global,
    volume: u32,
    machine: u32,
    answer: Compaction,
) -> Reply
    ensures is { IsCompactionReply volume machine answer result }
    ensures fits { FitsReply result }
{
    match answer {
        Compaction::Compacted { generation } => Reply::Compacted {
            volume,
            machine,
            generation,
        },
        Compaction::Frozen { machine } => read_only(alloc, volume, machine),
        Compaction::Deleted { faults }
        | Compaction::Failed { faults }
        | Compaction::Poised { faults } => Reply::Failed {
            volume,
            machine,
            faults,
        },
        Compaction::Damaged { at } => Reply::Damaged {
            volume,
            machine,
            at,
        },
        Compaction::NoMemory => Reply::NoMem,
        Compaction::Idle => Reply::Idle { volume, machine },
    }
}
