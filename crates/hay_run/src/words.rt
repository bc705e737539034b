//! The words of a run, of a check or of a load.
ghost use Rattle.std.specs.Prelude.{map, string_bytes, IfOk, IfSome, IfNone};
ghost use Rattle.hay_cli.specs.declared.Mode.{Mode};
ghost use Rattle.hay_cli.specs.Commands.{Says};
ghost use Rattle.hay_run.specs.Words.{HasBuilt};

use hay_base::NoMemory;
use hay_cli::{CliFault, Mode, read_words};
use std::alloc::Global;

/// What the words ask for, or none where they are no command.
pub fn read_mode(alloc: Global, words: &[String]) -> Result<Option<Mode>, NoMemory>
    ensures says { IfOk result (λ found. IfSome found (Says (map string_bytes words.now))) }
    ensures built { IfOk result (λ found. IfSome found HasBuilt) }
    ensures none { IfOk result (λ found. IfNone found ((mode : Mode) → Says (map string_bytes words.now) mode → ⊥)) }
{
    match read_words(alloc, words) {
        Ok(mode) => Ok(Some(mode)),
        Err(CliFault::Usage) => Ok(None),
        Err(CliFault::NoMemory) => Err(NoMemory),
    }
}
