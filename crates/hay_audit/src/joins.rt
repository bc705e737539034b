//! Candidates that others stand for.

ghost use Rattle.std.specs.Prelude.{◌≡◌, ◌∷◌, ◌++◌, List, [], IfOk, IsTrue, OnOk};
ghost use Rattle.hay_legal.specs.Known.{NoneFalls};
ghost use Rattle.hay_audit_steps.specs.CheckerSteps.{AnyOf};
ghost use Rattle.hay_audit.specs.declared.judge.Candidate.{Candidate as CandidateOf};
ghost use Rattle.hay_audit.specs.Joined.{Covers, StandsFor, Joined};

use crate::boxes::BoxState;
use crate::judge::Candidate;
use crate::same::Same;
use hay_base::{Listed, NoMemory};
use std::alloc::Global;

fn none_falls(before: &[u64], after: &[u64]) -> bool
    ensures { IsTrue result → NoneFalls before.now after.now }
{
    if before.len() != after.len() {
        return false;
    }
    for i in 0..before.len() {
        if before[i] > after[i] {
            return false;
        }
    }
    true
}

/// Whether each state of the other box is one of this box, but that its counts may be higher.
fn covers(one: &BoxState, other: &BoxState) -> bool
    ensures { IsTrue result → Covers one.now other.now }
{
    let (base, above) = (&one.base, &other.base);
    none_falls(base.faults.as_slice(), above.faults.as_slice())
        && none_falls(base.arms.as_slice(), above.arms.as_slice())
        && base.drained.is_same(&above.drained)
        && one.low.is_same(&other.low)
        && one.high.is_same(&other.high)
        && base.volumes.is_same(&above.volumes)
        && base.directory.is_same(&above.directory)
}

fn stands_for(one: &Candidate, other: &Candidate) -> bool
    ensures { IsTrue result → StandsFor one.now other.now }
{
    one.at == other.at && covers(&one.state, &other.state)
}

/// Whether one of these stands for the candidate.
fn is_covered(kept: &[Candidate], candidate: &Candidate) -> bool
    ensures { IsTrue result → AnyOf (λ one. StandsFor one candidate.now) kept.now }
{
    for one in kept {
        if stands_for(one, candidate) {
            return true;
        }
    }
    false
}

/// Adds a candidate, if none of those that are kept stands for it.
fn keep(kept: &mut Listed<Candidate>, candidate: Candidate) -> Result<(), NoMemory>
    ensures { OnOk result ((done : List CandidateOf) → Joined done kept.old → Joined (done ++ candidate ∷ []) kept.new) }
{
    if is_covered(kept.as_slice(), &candidate) {
        return Ok(());
    }
    kept.push(candidate)?;
    Ok(())
}

/// The candidates without those for which one before them stands.
pub(crate) fn join(
    alloc: Global,
    candidates: Listed<Candidate>,
) -> Result<Listed<Candidate>, NoMemory>
    ensures { IfOk result (λ kept. Joined candidates kept) }
{
    let mut kept = Listed::new(alloc);
    for candidate in candidates.into_vec() {
        keep(&mut kept, candidate)?;
    }
    Ok(kept)
}
