//! The answers of a volume's lock, in a lane's words.
ghost use Rattle.std.specs.Prelude.{◌≡◌, ℕ, IfErr, IfSome};
ghost use Rattle.hay_needle.specs.declared.settings.Settings.{Settings};
ghost use Rattle.hay_volume_lock.specs.Refusing.{RefusesBegin, RefusesDelete, RefusesEnd, RefusesFlush, RefusesPut, RefusesRoom, RefusesRun, RefusesSight};
ghost use Rattle.hay_shared_volume.specs.Answers.{IsBegin, IsBeginRefused, IsCompaction, IsDelete, IsDeleteRefused, IsEndDone, IsEndRefused, IsFinish, IsFinishDone};
ghost use Rattle.hay_shared_volume.specs.Answers.{IsFinishRefused, IsFlush, IsFlushRefused, IsLost, IsPut, IsPutRefused, IsRoom, IsRoomRefused, IsSightFault, IsStep, IsStepHalted};
ghost use Rattle.hay_shared_volume.specs.Answers.{looked_as};

use crate::answers::{
    Begin, Compaction, Delete, Finish, Flush, Looked, Put, Room, SightFault, Step,
};
use hay_disk::Piece;
use hay_logical::LogicalFault;
use hay_volume_lock::{Examined, Finished, Uncompacted, Unfinished, Unflushed};

pub(crate) fn looked_of<P: Piece>(looked: hay_logical::Looked<P>) -> Looked<P>
    ensures { result ≡ looked_as looked }
{
    Looked {
        front: looked.front,
        row: looked.row,
    }
}

pub(crate) fn sight_fault_of(fault: LogicalFault) -> SightFault
    requires { (settings : Settings) × (v : ℕ) × RefusesSight settings v fault }
    ensures { IsSightFault fault result }
{
    match fault {
        LogicalFault::Failed { faults, .. } => SightFault::Failed { faults },
        LogicalFault::Damaged { at, .. } => SightFault::Damaged { at },
        LogicalFault::NoMemory => SightFault::NoMemory,
        LogicalFault::ReadOnly { .. }
        | LogicalFault::Full { .. }
        | LogicalFault::Gone { .. }
        | LogicalFault::Busy { .. }
        | LogicalFault::Worn { .. }
        | LogicalFault::Idle => unreachable!(),
    }
}

fn room_refused(fault: LogicalFault) -> Room
    requires { (settings : Settings) × (v : ℕ) × (size : ℕ) × RefusesRoom settings v size fault }
    ensures { IsRoomRefused fault result }
{
    match fault {
        LogicalFault::ReadOnly { machine } => Room::Frozen { machine },
        LogicalFault::Full {
            machine,
            end,
            need,
            ..
        } => Room::Lacks { machine, end, need },
        LogicalFault::Failed { .. }
        | LogicalFault::Gone { .. }
        | LogicalFault::Busy { .. }
        | LogicalFault::Worn { .. }
        | LogicalFault::Idle
        | LogicalFault::Damaged { .. }
        | LogicalFault::NoMemory => unreachable!(),
    }
}

pub(crate) fn room_of(answer: Result<(), LogicalFault>) -> Room
    requires { (settings : Settings) × (v : ℕ) × (size : ℕ) × IfErr answer (RefusesRoom settings v size) }
    ensures { IsRoom answer result }
{
    match answer {
        Ok(()) => Room::Fits,
        Err(fault) => room_refused(fault),
    }
}

fn put_refused(fault: LogicalFault) -> Put
    requires { (settings : Settings) × (v : ℕ) × (size : ℕ) × RefusesPut settings v size fault }
    ensures { IsPutRefused fault result }
{
    match fault {
        LogicalFault::ReadOnly { machine } => Put::Frozen { machine },
        LogicalFault::Full {
            machine,
            end,
            need,
            ..
        } => Put::Lacks { machine, end, need },
        LogicalFault::Failed { machine, faults } => Put::Failed { machine, faults },
        LogicalFault::NoMemory => Put::NoMemory,
        LogicalFault::Gone { .. }
        | LogicalFault::Busy { .. }
        | LogicalFault::Worn { .. }
        | LogicalFault::Idle
        | LogicalFault::Damaged { .. } => unreachable!(),
    }
}

pub(crate) fn put_of(answer: Result<u64, LogicalFault>) -> Put
    requires { (settings : Settings) × (v : ℕ) × (size : ℕ) × IfErr answer (RefusesPut settings v size) }
    ensures { IsPut answer result }
{
    match answer {
        Ok(position) => Put::Stored { position },
        Err(fault) => put_refused(fault),
    }
}

fn delete_refused(fault: LogicalFault) -> Delete
    requires { (settings : Settings) × (v : ℕ) × RefusesDelete settings v fault }
    ensures { IsDeleteRefused fault result }
{
    match fault {
        LogicalFault::ReadOnly { machine } => Delete::Frozen { machine },
        LogicalFault::Gone { front } => Delete::Absent { front },
        LogicalFault::Failed { machine, faults } => Delete::Failed { machine, faults },
        LogicalFault::Damaged { machine, at } => Delete::Damaged { machine, at },
        LogicalFault::NoMemory => Delete::NoMemory,
        LogicalFault::Full { .. }
        | LogicalFault::Busy { .. }
        | LogicalFault::Worn { .. }
        | LogicalFault::Idle => unreachable!(),
    }
}

pub(crate) fn delete_of(answer: Result<u64, LogicalFault>) -> Delete
    requires { (settings : Settings) × (v : ℕ) × IfErr answer (RefusesDelete settings v) }
    ensures { IsDelete answer result }
{
    match answer {
        Ok(position) => Delete::Deleted { position },
        Err(fault) => delete_refused(fault),
    }
}

fn flush_refused(fault: LogicalFault, frozen: Option<u32>) -> Flush
    requires { (settings : Settings) × (v : ℕ) × (j : ℕ) × RefusesFlush settings v j fault }
    ensures { IsFlushRefused fault frozen result }
{
    match fault {
        LogicalFault::ReadOnly { machine } => match frozen {
            Some(_) => Flush::Frozen { machine },
            None => Flush::Stuck,
        },
        LogicalFault::Failed { faults, .. } => Flush::Failed { faults },
        LogicalFault::NoMemory => Flush::NoMemory,
        LogicalFault::Full { .. }
        | LogicalFault::Gone { .. }
        | LogicalFault::Busy { .. }
        | LogicalFault::Worn { .. }
        | LogicalFault::Idle
        | LogicalFault::Damaged { .. } => unreachable!(),
    }
}

pub(crate) fn flush_of(answer: Result<u64, Unflushed>) -> Flush
    requires { (settings : Settings) × (v : ℕ) × (j : ℕ) × IfErr answer (λ unflushed. RefusesFlush settings v j unflushed.fault) }
    ensures { IsFlush answer result }
{
    match answer {
        Ok(cells) => Flush::Flushed { cells },
        Err(Unflushed { fault, frozen }) => flush_refused(fault, frozen),
    }
}

fn begin_refused(fault: LogicalFault) -> Begin
    requires { (settings : Settings) × (v : ℕ) × (j : ℕ) × RefusesBegin settings v j fault }
    ensures { IsBeginRefused fault result }
{
    match fault {
        LogicalFault::ReadOnly { machine } => Begin::Frozen { machine },
        LogicalFault::Busy { generation, .. } => Begin::Busy { generation },
        LogicalFault::Worn { .. } => Begin::Worn,
        LogicalFault::Failed { faults, .. } => Begin::Failed { faults },
        LogicalFault::NoMemory => Begin::NoMemory,
        LogicalFault::Full { .. }
        | LogicalFault::Gone { .. }
        | LogicalFault::Idle
        | LogicalFault::Damaged { .. } => unreachable!(),
    }
}

pub(crate) fn begin_of(answer: Result<u64, LogicalFault>) -> Begin
    requires { (settings : Settings) × (v : ℕ) × (j : ℕ) × IfErr answer (RefusesBegin settings v j) }
    ensures { IsBegin answer result }
{
    match answer {
        Ok(generation) => Begin::Begun { generation },
        Err(fault) => begin_refused(fault),
    }
}

fn step_halted(cells: u64, fault: LogicalFault) -> Step
    requires { (settings : Settings) × (v : ℕ) × (j : ℕ) × RefusesRun settings v j fault }
    ensures { IsStepHalted cells fault result }
{
    match fault {
        LogicalFault::ReadOnly { machine } => Step::Frozen { machine },
        LogicalFault::Idle => Step::Idle,
        LogicalFault::Failed { faults, .. } => Step::Failed { faults },
        LogicalFault::NoMemory => Step::NoMemory { cells: Some(cells) },
        LogicalFault::Damaged { at, .. } => Step::Damaged { at },
        LogicalFault::Full { .. }
        | LogicalFault::Gone { .. }
        | LogicalFault::Busy { .. }
        | LogicalFault::Worn { .. } => unreachable!(),
    }
}

pub(crate) fn step_of(examined: Examined) -> Step
    requires { (settings : Settings) × (v : ℕ) × (j : ℕ) × IfSome examined.refused (RefusesRun settings v j) }
    ensures { IsStep examined result }
{
    let cells = examined.cells;
    match examined.refused {
        None => Step::Stepped { cells },
        Some(fault) => step_halted(cells, fault),
    }
}

fn finish_done(generation: u64, frozen: bool) -> Finish
    ensures { IsFinishDone generation frozen result }
{
    if frozen {
        Finish::NoMemory
    } else {
        Finish::Compacted { generation }
    }
}

fn finish_refused(fault: LogicalFault, frozen: Option<u32>) -> Finish
    requires { (settings : Settings) × (v : ℕ) × (j : ℕ) × RefusesRun settings v j fault }
    ensures { IsFinishRefused fault frozen result }
{
    match fault {
        LogicalFault::ReadOnly { machine } => Finish::Frozen { machine },
        LogicalFault::Idle => Finish::Idle,
        LogicalFault::Failed { faults, .. } => match frozen {
            Some(_) => Finish::Poised { faults },
            None => Finish::Failed { faults },
        },
        LogicalFault::NoMemory => Finish::NoMemory,
        LogicalFault::Damaged { at, .. } => Finish::Damaged { at },
        LogicalFault::Full { .. }
        | LogicalFault::Gone { .. }
        | LogicalFault::Busy { .. }
        | LogicalFault::Worn { .. } => unreachable!(),
    }
}

pub(crate) fn finish_of(answer: Result<Finished, Unfinished>) -> Finish
    requires { (settings : Settings) × (v : ℕ) × (j : ℕ) × IfErr answer (λ unfinished. RefusesRun settings v j unfinished.fault) }
    ensures { IsFinish answer result }
{
    match answer {
        Ok(Finished { generation, frozen }) => finish_done(generation, frozen),
        Err(Unfinished { fault, frozen }) => finish_refused(fault, frozen),
    }
}

fn end_done(generation: u64, frozen: bool) -> Compaction
    ensures { IsEndDone generation frozen result }
{
    if frozen {
        Compaction::NoMemory
    } else {
        Compaction::Compacted { generation }
    }
}

fn end_refused(fault: LogicalFault, frozen: Option<u32>) -> Compaction
    requires { (settings : Settings) × (v : ℕ) × (j : ℕ) × RefusesRun settings v j fault }
    ensures { IsEndRefused fault frozen result }
{
    match fault {
        LogicalFault::Failed { faults, .. } => match frozen {
            Some(_) => Compaction::Poised { faults },
            None => Compaction::Failed { faults },
        },
        LogicalFault::NoMemory => Compaction::NoMemory,
        LogicalFault::Damaged { at, .. } => Compaction::Damaged { at },
        LogicalFault::ReadOnly { machine } => Compaction::Frozen { machine },
        LogicalFault::Idle => Compaction::Idle,
        LogicalFault::Full { .. }
        | LogicalFault::Gone { .. }
        | LogicalFault::Busy { .. }
        | LogicalFault::Worn { .. } => unreachable!(),
    }
}

fn lost(refusal: Uncompacted) -> Compaction
    requires { (settings : Settings) × (v : ℕ) × (j : ℕ) × RefusesEnd settings v j refusal }
    ensures { IsLost refusal result }
{
    match refusal {
        Uncompacted::Unfinished(Unfinished { fault, frozen }) => end_refused(fault, frozen),
        Uncompacted::Frozen { machine } => Compaction::Frozen { machine },
        Uncompacted::Deleted { faults } => Compaction::Deleted { faults },
        Uncompacted::Idle => Compaction::Idle,
    }
}

pub(crate) fn compaction_of(answer: Result<Finished, Uncompacted>) -> Compaction
    requires { (settings : Settings) × (v : ℕ) × (j : ℕ) × IfErr answer (RefusesEnd settings v j) }
    ensures { IsCompaction answer result }
{
    match answer {
        Ok(Finished { generation, frozen }) => end_done(generation, frozen),
        Err(refusal) => lost(refusal),
    }
}
