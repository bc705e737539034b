//! What the types of a reply's numbers say of it.

ghost use Rattle.std.specs.List.{AllByRecursion as Each};
ghost use Rattle.hex.specs.Hex.{IsBytes};
ghost use Rattle.hay_reply.specs.Fits.{FitsCause, FitsClosed, FitsPassed, FitsRefused, FitsReply, IsLarge, IsSmall};
ghost use Rattle.hay_url.specs.Url.{FitsUrl};
ghost use Rattle.hay_audit.specs.Kinds.{IsChange, IsRefusal, IsShort, IsSight, IsWork};

use hay_reply::{Cause, ClosedBy, Passed, Refused, Reply};
use hay_url::Url;

pub(crate) fn small(_number: u32)
    ensures { IsSmall _number }
{}

pub(crate) fn large(_number: u64)
    ensures { IsLarge _number }
{}

fn bytes(_bytes: &[u8])
    ensures { IsBytes _bytes.now }
{}

fn fit_url(url: &Url)
    ensures { FitsUrl url.now }
{
    small(url.machine);
    small(url.volume);
    large(url.pair.key);
    small(url.pair.alt);
    large(url.cookie.0);
}

fn fit_refused(refused: &Refused)
    ensures { FitsRefused refused.now }
{
    match refused {
        Refused::NoRoom {
            volume,
            machine,
            end,
            need,
        } => {
            small(*volume);
            small(*machine);
            large(*end);
            large(*need);
        }
        Refused::Closed { volume, machine } => {
            small(*volume);
            small(*machine);
        }
    }
}

fn fit_all_refused(tries: &[Refused])
    ensures { Each FitsRefused tries.now }
{
    for refused in tries {
        fit_refused(refused);
    }
}

fn fit_closed(by: ClosedBy)
    ensures { FitsClosed by }
{
    small(by.volume);
    small(by.machine);
}

fn fit_all_closed(tries: &[ClosedBy])
    ensures { Each FitsClosed tries.now }
{
    for by in tries {
        fit_closed(*by);
    }
}

fn fit_cause(cause: Cause)
    ensures { FitsCause cause }
{
    match cause {
        Cause::Arm { faults } => large(faults),
        Cause::Disk { faults } => large(faults),
        Cause::Damage { at } => large(at),
    }
}

fn fit_passed(passed: Passed)
    ensures { FitsPassed passed }
{
    small(passed.machine);
    fit_cause(passed.cause);
}

fn fit_all_passed(causes: &[Passed])
    ensures { Each FitsPassed causes.now }
{
    for passed in causes {
        fit_passed(*passed);
    }
}

fn fit_sight(reply: &Reply)
    ensures { IsSight reply.now → FitsReply reply.now }
{
    match reply {
        Reply::Photo {
            volume,
            machine,
            front,
            rows,
            photo,
        } => {
            small(*volume);
            small(*machine);
            large(*front);
            large(*rows);
            bytes(photo.as_slice());
            large(photo.len() as u64);
        }
        Reply::Gone {
            volume,
            machine,
            front,
            rows,
        }
        | Reply::WrongCookie {
            volume,
            machine,
            front,
            rows,
        } => {
            small(*volume);
            small(*machine);
            large(*front);
            large(*rows);
        }
        _ => {}
    }
}

fn fit_change(reply: &Reply)
    ensures { IsChange reply.now → FitsReply reply.now }
{
    match reply {
        Reply::Stored {
            volume,
            position,
            rows,
            cookie,
        } => {
            small(*volume);
            large(*position);
            large(*rows);
            large(cookie.0);
        }
        Reply::Deleted {
            volume,
            position,
            rows,
        } => {
            small(*volume);
            large(*position);
            large(*rows);
        }
        Reply::Absent {
            volume,
            front,
            rows,
        } => {
            small(*volume);
            large(*front);
            large(*rows);
        }
        _ => {}
    }
}

fn fit_work(reply: &Reply)
    ensures { IsWork reply.now → FitsReply reply.now }
{
    match reply {
        Reply::Flushed {
            volume,
            machine,
            records: number,
        }
        | Reply::Begun {
            volume,
            machine,
            generation: number,
        }
        | Reply::Stepped {
            volume,
            machine,
            cells: number,
        }
        | Reply::Compacted {
            volume,
            machine,
            generation: number,
        }
        | Reply::Busy {
            volume,
            machine,
            generation: number,
        } => {
            small(*volume);
            small(*machine);
            large(*number);
        }
        _ => {}
    }
}

fn fit_refusal(reply: &Reply)
    ensures { IsRefusal reply.now → FitsReply reply.now }
{
    match reply {
        Reply::Full { tries } => fit_all_refused(tries.as_slice()),
        Reply::ReadOnly { tries } => fit_all_closed(tries.as_slice()),
        Reply::Failed {
            volume,
            machine,
            faults: number,
        }
        | Reply::Damaged {
            volume,
            machine,
            at: number,
        } => {
            small(*volume);
            small(*machine);
            large(*number);
        }
        Reply::Unreadable {
            volume,
            front,
            rows,
            causes,
        } => {
            small(*volume);
            large(*front);
            large(*rows);
            fit_all_passed(causes.as_slice());
        }
        _ => {}
    }
}

fn fit_short(reply: &Reply)
    ensures { IsShort reply.now → FitsReply reply.now }
{
    match reply {
        Reply::Unknown { rows: number }
        | Reply::FailedDir { faults: number }
        | Reply::Restarted { rows: number } => large(*number),
        Reply::Moved { volume, rows } => {
            small(*volume);
            large(*rows);
        }
        Reply::Idle { volume, machine } | Reply::Worn { volume, machine } => {
            small(*volume);
            small(*machine);
        }
        Reply::Drained { machine: number }
        | Reply::Undrained { machine: number }
        | Reply::FusedDir { calls: number } => small(*number),
        _ => {}
    }
}

/// The numbers of a reply are those of its fields' types.
pub(crate) fn fits(reply: &Reply)
    ensures { FitsReply reply.now }
{
    match reply {
        Reply::Photo { .. } | Reply::Gone { .. } | Reply::WrongCookie { .. } => fit_sight(reply),
        Reply::Stored { .. } | Reply::Deleted { .. } | Reply::Absent { .. } => fit_change(reply),
        Reply::Flushed { .. }
        | Reply::Begun { .. }
        | Reply::Stepped { .. }
        | Reply::Compacted { .. }
        | Reply::Busy { .. } => fit_work(reply),
        Reply::Full { .. }
        | Reply::ReadOnly { .. }
        | Reply::Unreadable { .. }
        | Reply::Failed { .. }
        | Reply::Damaged { .. } => fit_refusal(reply),
        Reply::Url { rows, url } => {
            large(*rows);
            fit_url(url);
        }
        Reply::Fused {
            volume,
            machine,
            calls,
        } => {
            small(*volume);
            small(*machine);
            small(*calls);
        }
        Reply::Unknown { .. }
        | Reply::FailedDir { .. }
        | Reply::Restarted { .. }
        | Reply::Moved { .. }
        | Reply::Idle { .. }
        | Reply::Worn { .. }
        | Reply::Drained { .. }
        | Reply::Undrained { .. }
        | Reply::FusedDir { .. } => fit_short(reply),
        Reply::ReadOnlyDir | Reply::Nowhere | Reply::BadLine | Reply::NoMem => {}
    }
}
