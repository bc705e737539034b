//! The items of the lists in replies and notes.
ghost use Rattle.std.specs.Prelude.{◌≡◌, ◌++◌, OnOk, string_bytes, flat_map};
ghost use Rattle.hay_reply.specs.Replies as texts;

use crate::{Cause, ClosedBy, LineVolume, Passed, Refused};
use hay_base::{Listed, NoMemory};

/// An item of such a list.
pub trait Group {
    ghost use Rattle.std.specs.Prelude.{List, ℕ};

    ghost text: { Self → List ℕ };

    /// Adds the item's text.
    fn write(&self, out: &mut String) -> Result<(), NoMemory>
        ensures ok { OnOk result (string_bytes out.new ≡ string_bytes out.old ++ text self.now) };
}

impl Group for Refused {
    ghost text = { texts.refused_text };

    fn write(&self, out: &mut String) -> Result<(), NoMemory> {
        match self {
            Refused::NoRoom {
                volume,
                machine,
                end,
                need,
            } => write!(out, " {volume}:{machine}:{end}:{need}")?,
            Refused::Closed { volume, machine } => write!(out, " {volume}:{machine}:ro")?,
        }
        Ok(())
    }
}

impl Group for ClosedBy {
    ghost text = { texts.closed_text };

    fn write(&self, out: &mut String) -> Result<(), NoMemory> {
        let ClosedBy { volume, machine } = self;
        write!(out, " {volume}:{machine}")?;
        Ok(())
    }
}

impl Group for Passed {
    ghost text = { texts.passed_text };

    fn write(&self, out: &mut String) -> Result<(), NoMemory> {
        let machine = self.machine;
        match self.cause {
            Cause::Arm { faults } => write!(out, " {machine}:arm:{faults}")?,
            Cause::Disk { faults } => write!(out, " {machine}:disk:{faults}")?,
            Cause::Damage { at } => write!(out, " {machine}:damage:{at}")?,
        }
        Ok(())
    }
}

impl Group for LineVolume {
    ghost text = { texts.row_text };

    fn write(&self, out: &mut String) -> Result<(), NoMemory> {
        let LineVolume { line, volume } = self;
        write!(out, " {line}:{volume}")?;
        Ok(())
    }
}

impl Group for u64 {
    ghost text = { texts.field };

    fn write(&self, out: &mut String) -> Result<(), NoMemory> {
        write!(out, " {self}")?;
        Ok(())
    }
}

/// Adds the texts of items.
pub fn write_groups<G: Group>(groups: &Listed<G>, out: &mut String) -> Result<(), NoMemory>
    ensures { OnOk result (string_bytes out.new ≡ string_bytes out.old ++ flat_map G.text groups.now) }
{
    for group in groups.as_slice() {
        group.write(out)?;
    }
    Ok(())
}
