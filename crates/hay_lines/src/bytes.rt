//! The bytes of a script, from a source that gives any number of bytes at a time.
ghost use Rattle.std.specs.Prelude.{◌≡◌, ◌≢◌, ◌⊎◌, ◌<◌, ◌≤◌, [], drop, length, true, false, Err, OnOk, OnErr, IsErrOf};
ghost use Rattle.hay_disk.specs.Counts.{Rose};
ghost use Rattle.hay_disk.specs.Streams.{Took};
ghost use Rattle.hay_lines.specs.Stream.{rest_of, budget, Accounts, IsTooLong, TookAll, TookOne};

use crate::fault::LineFault;
use hay_disk::{Failed, Source};
use hay_script::MAX_SCRIPT;
use std::marker::Model;

// So many bytes are taken at a time at most.
const BUFFER: usize = 4_096;

/// What was taken from a source and not given out yet.
#[derive(Drop)]
pub struct ScriptBytes {
    buffer: [u8; BUFFER],
    from: usize,
    to: usize,
    taken: u64,
    ended: bool,
}

impl Model for ScriptBytes {
    ghost use Rattle.std.specs.Prelude.{◌≤◌, slice_range};
    ghost use Rattle.hay_script.specs.declared.words.TheConstants.{MAX_SCRIPT};
    ghost use Rattle.hay_lines.specs.declared.bytes.TheConstants.{BUFFER};
    ghost use Rattle.hay_lines.specs.Stream.{Held};

    ghost Value = { Held };

    ghost view = { λ r. record { bytes = slice_range r.buffer r.from r.to; taken = r.taken; ended = r.ended } };

    ghost invariant = { λ r. (r.from ≤ r.to) × (r.to ≤ BUFFER) × (r.taken ≤ MAX_SCRIPT) };
}

impl ScriptBytes {
    pub fn new() -> Self
        ensures bytes { result.bytes ≡ [] }
        ensures taken { result.taken ≡ 0 }
        ensures ended { result.ended ≡ false }
    {
        ScriptBytes {
            buffer: [0; BUFFER],
            from: 0,
            to: 0,
            taken: 0,
            ended: false,
        }
    }

    /// Whether the end was met.
    pub fn is_ended(&self) -> bool
        ensures { result ≡ self.now.ended }
    {
        self.ended
    }

    /// Takes some bytes, where none are held. None come at the end.
    fn fill<S: Source>(&mut self, source: &mut S) -> Result<(), LineFault>
        requires none { self.old.bytes ≡ [] }
        requires open { self.old.ended ≡ false }
        ensures ok { OnOk result (Took (rest_of (S.left source.old) self.old) [] (rest_of (S.left source.new) self.new)) }
        ensures end { OnOk result (self.new.bytes ≡ [] → TookAll (rest_of (S.left source.old) self.old) [] (rest_of (S.left source.new) self.new)) }
        ensures ended { OnOk result (self.new.bytes ≡ [] → self.new.ended ≡ true) }
        ensures open { OnOk result (self.new.bytes ≢ [] → self.new.ended ≡ false) }
        ensures accounts { OnOk result (Accounts (S.left source.old) self.old (S.left source.new) self.new) }
        ensures stopped_accounts { IsErrOf result LineFault.Input → Accounts (S.left source.old) self.old (S.left source.new) self.new }
        ensures left { OnOk result (budget MAX_SCRIPT self.new ≤ budget MAX_SCRIPT self.old) }
        ensures less { OnOk result (self.new.bytes ≡ [] → budget MAX_SCRIPT self.new < budget MAX_SCRIPT self.old) }
        ensures limit { self.new.taken ≤ MAX_SCRIPT }
        ensures none_held { OnErr result (self.new.bytes ≡ []) }
        ensures failed { IsErrOf result LineFault.Input → Took (rest_of (S.left source.old) self.old) [] (rest_of (S.left source.new) self.new) }
        ensures over { IsErrOf result LineFault.TooLong → TookOne (rest_of (S.left source.old) self.old) (rest_of (S.left source.new) self.new) }
        ensures long { IsErrOf result LineFault.TooLong → IsTooLong MAX_SCRIPT (S.left source.old) self.old (S.left source.new) }
        ensures stops { OnErr result ((result ≡ Err LineFault.Input) ⊎ (result ≡ Err LineFault.TooLong)) }
        ensures cause { IsErrOf result LineFault.Input → Rose (S.fault_count source.old) (S.fault_count source.new) }
        ensures count { S.fault_count source.old ≤ S.fault_count source.new }
    {
        self.from = 0;
        self.to = 0;
        let room = MAX_SCRIPT - self.taken;
        if room == 0 {
            // One byte more would make the script too long.
            let mut probe = [0u8; 1];
            return match source.read(&mut probe) {
                Ok(0) => {
                    self.ended = true;
                    Ok(())
                }
                Ok(_) => Err(LineFault::TooLong),
                Err(Failed) => Err(LineFault::Input),
            };
        }
        let most = if room < BUFFER as u64 {
            room as usize
        } else {
            BUFFER
        };
        match source.read(&mut self.buffer[..most]) {
            Ok(0) => {
                self.ended = true;
                Ok(())
            }
            Ok(count) => {
                self.to = count;
                self.taken += count as u64;
                Ok(())
            }
            Err(Failed) => Err(LineFault::Input),
        }
    }

    /// Sees to it that a byte is held, unless none is left.
    pub fn hold<S: Source>(&mut self, source: &mut S) -> Result<(), LineFault>
        requires { self.old.ended ≡ false }
        ensures ok { OnOk result (Took (rest_of (S.left source.old) self.old) [] (rest_of (S.left source.new) self.new)) }
        ensures end { OnOk result (self.new.bytes ≡ [] → TookAll (rest_of (S.left source.old) self.old) [] (rest_of (S.left source.new) self.new)) }
        ensures ended { OnOk result (self.new.bytes ≡ [] → self.new.ended ≡ true) }
        ensures open { OnOk result (self.new.bytes ≢ [] → self.new.ended ≡ false) }
        ensures accounts { OnOk result (Accounts (S.left source.old) self.old (S.left source.new) self.new) }
        ensures stopped_accounts { IsErrOf result LineFault.Input → Accounts (S.left source.old) self.old (S.left source.new) self.new }
        ensures left { OnOk result (budget MAX_SCRIPT self.new ≤ budget MAX_SCRIPT self.old) }
        ensures less { OnOk result (self.new.bytes ≡ [] → budget MAX_SCRIPT self.new < budget MAX_SCRIPT self.old) }
        ensures limit { self.new.taken ≤ MAX_SCRIPT }
        ensures none_held { OnErr result (self.new.bytes ≡ []) }
        ensures failed { IsErrOf result LineFault.Input → Took (rest_of (S.left source.old) self.old) [] (rest_of (S.left source.new) self.new) }
        ensures over { IsErrOf result LineFault.TooLong → TookOne (rest_of (S.left source.old) self.old) (rest_of (S.left source.new) self.new) }
        ensures long { IsErrOf result LineFault.TooLong → IsTooLong MAX_SCRIPT (S.left source.old) self.old (S.left source.new) }
        ensures stops { OnErr result ((result ≡ Err LineFault.Input) ⊎ (result ≡ Err LineFault.TooLong)) }
        ensures cause { IsErrOf result LineFault.Input → Rose (S.fault_count source.old) (S.fault_count source.new) }
        ensures count { S.fault_count source.old ≤ S.fault_count source.new }
    {
        if self.from == self.to {
            self.fill(source)
        } else {
            Ok(())
        }
    }

    /// What is held.
    pub fn held(&self) -> &[u8]
        ensures { result.now ≡ self.now.bytes }
    {
        &self.buffer[self.from..self.to]
    }

    /// Gives out so many of the bytes that are held.
    pub fn pass(&mut self, count: usize)
        requires { count ≤ length self.old.bytes }
        ensures bytes { self.new.bytes ≡ drop count self.old.bytes }
        ensures taken { self.new.taken ≡ self.old.taken }
        ensures ended { self.new.ended ≡ self.old.ended }
    {
        self.from += count;
    }
}
