//! What a script says next, where a fault of its reader ends the load.
ghost use Rattle.std.specs.Prelude.{◌≡◌, ◌⊎◌, ◌<◌, ◌≤◌, [], false, None, Err, IfOk, IfSome, OnOk, OnErr, IsErrOf};
ghost use Rattle.hay_disk.specs.Counts.{Rose};
ghost use Rattle.hay_script.specs.Script.{IsWithinLine};
ghost use Rattle.hay_lines.specs.Lines.{TookOver, TookPart, TookSome};
ghost use Rattle.hay_lines.specs.Said.{SaysNext};
ghost use Rattle.hay_lines.specs.Stream.{rest_of, budget, Accounts, IsTooLong};

use crate::stops::Stop;
use hay_disk::Source;
use hay_lines::ScriptLines;
use hay_script::{Line, MAX_SCRIPT};
use std::alloc::Global;

/// Takes the next line of a script and reads it, outside of a block, or meets the end. It isn't called once the end was met.
#[tactic(auto, using(crate::proofs::Reading::part_left, crate::proofs::Reading::over_left))]
pub fn next_said<S: Source>(
    alloc: Global,
    script: &mut ScriptLines,
    source: &mut S,
) -> Result<Option<Line>, Stop>
    requires { script.old.ended ≡ false }
    ensures said { IfOk result (λ next. SaysNext None next (rest_of (S.left source.old) script.old) (rest_of (S.left source.new) script.new) script.new.ended) }
    ensures within { IfOk result (λ next. IfSome next IsWithinLine) }
    ensures accounts { OnOk result (Accounts (S.left source.old) script.old (S.left source.new) script.new) }
    ensures stopped_accounts { (IsErrOf result Stop.TooLong → ⊥) → Accounts (S.left source.old) script.old (S.left source.new) script.new }
    ensures left { OnOk result (budget MAX_SCRIPT script.new < budget MAX_SCRIPT script.old) }
    ensures limit { script.new.taken ≤ MAX_SCRIPT }
    ensures long { IsErrOf result Stop.TooLong → IsTooLong MAX_SCRIPT (S.left source.old) script.old (S.left source.new) }
    ensures failed { IsErrOf result Stop.Input → TookPart (rest_of (S.left source.old) script.old) (S.left source.new) }
    ensures memory { IsErrOf result Stop.NoMemory → TookSome (rest_of (S.left source.old) script.old) (rest_of (S.left source.new) script.new) }
    ensures over { IsErrOf result Stop.TooLong → TookOver (rest_of (S.left source.old) script.old) (S.left source.new) }
    ensures stops { OnErr result ((result ≡ Err Stop.Input) ⊎ (result ≡ Err Stop.NoMemory) ⊎ (result ≡ Err Stop.TooLong)) }
    ensures cause { IsErrOf result Stop.Input → Rose (S.fault_count source.old) (S.fault_count source.new) }
    ensures count { S.fault_count source.old ≤ S.fault_count source.new }
{
    Ok(script.next_said(alloc, source, None)?)
}
