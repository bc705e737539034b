//! The act of a holding, by what its call answered.
ghost use Rattle.std.specs.Prelude.{◌≡◌, ◌↔◌, ◌≤◌, ◌<◌, length, IsTrue, IfSome, Some, None};
ghost use Rattle.hay_volume_lock.specs.Acts.{act_of, counts};
ghost use Rattle.hay_volume_lock.specs.Tries.{IsBegunBy, IsTried, begin_made, flush_answer as answer_of, flush_made};
ghost use Rattle.hay_volume_lock.specs.declared.act.Made.{Made};

use crate::act::{Act, Made};
use crate::refusals::Unflushed;
use arrayvec::ArrayVec;
use hay_core::CoreTag;
use hay_disk::Disk;
use hay_logical::{Logical, LogicalFault};
use hay_needle::MAX_REPLICAS;

/// How many calls of each replica's disk have failed.
pub(crate) fn faults_of<D: Disk>(logical: &Logical<D>, replicas: u32) -> ArrayVec<u64, 4>
    requires all { length logical.now.replicas ≡ replicas }
    requires most { replicas ≤ MAX_REPLICAS }
    ensures { result.items ≡ counts D.fault_count logical.now.replicas }
{
    let mut faults = ArrayVec::new();
    for replica in 0..replicas {
        faults.push(logical.faults(replica));
    }
    faults
}

fn is_same(before: &[u64], now: &[u64]) -> bool
    ensures { IsTrue result ↔ (before.now ≡ now.now) }
{
    before == now
}

/// The act for what was done, and where nothing was changed, one for calls of the disks that have failed since these counts.
pub(crate) fn act_made<D: Disk>(
    logical: &Logical<D>,
    replicas: u32,
    before: &ArrayVec<u64, 4>,
    tag: CoreTag,
    did: Option<Made>,
) -> Option<Act<D>>
    requires all { length logical.now.replicas ≡ replicas }
    requires most { replicas ≤ MAX_REPLICAS }
    ensures did { (made : Made) → did ≡ Some made → result ≡ Some (act_of D.fault_count D.fuse_count tag made logical.now.replicas) }
    ensures tried { did ≡ None → IsTried D.fault_count D.fuse_count tag before.now.items logical.now.replicas result }
{
    if let Some(made) = did {
        return Some(Act::new(tag, made, logical));
    }
    let now = faults_of(logical, replicas);
    if is_same(before.as_slice(), now.as_slice()) {
        return None;
    }
    Some(Act::new(tag, Made::Tries, logical))
}

/// What a flush did.
pub(crate) fn flush_did(answer: &Result<u64, LogicalFault>, replica: u32) -> Option<Made>
    ensures { result ≡ flush_made replica answer.now }
{
    match answer {
        Ok(_) => Some(Made::Flushes { replica }),
        Err(LogicalFault::Failed { .. }) => Some(Made::Sticks { replica }),
        Err(_) => None,
    }
}

/// What a flush answers, where the volume is frozen by this machine.
pub(crate) fn flush_answer(
    answer: Result<u64, LogicalFault>,
    frozen: Option<u32>,
) -> Result<u64, Unflushed>
    ensures { result ≡ answer_of frozen answer }
{
    match answer {
        Ok(count) => Ok(count),
        Err(fault) => Err(Unflushed { fault, frozen }),
    }
}

/// What a call that begins a compaction did.
pub(crate) fn begin_did(answer: &Result<u64, LogicalFault>, replica: u32) -> Option<Made>
    ensures { result ≡ begin_made replica answer.now }
{
    match answer {
        Ok(_) => Some(Made::Begins { replica }),
        Err(LogicalFault::Failed { .. }) => Some(Made::Tries),
        Err(_) => None,
    }
}

/// Notes who began the compaction of a replica, if one was begun.
pub(crate) fn note_begun(
    begun: &mut [CoreTag; 4],
    answer: &Result<u64, LogicalFault>,
    tag: CoreTag,
    replica: u32,
)
    requires { replica < 4 }
    ensures { IsBegunBy tag replica answer.now begun.old begun.new }
{
    if answer.is_ok() {
        begun[replica as usize] = tag;
    }
}
