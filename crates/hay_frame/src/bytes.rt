//! Bytes from a source that gives any number of them at a time.
ghost use Rattle.std.specs.Prelude.{◌≡◌, ◌⊎◌, ◌<◌, ◌≤◌, [], ◌∷◌, ℕ, Some, None, Err, vec_len, IfOk, OnOk, OnErr, IsErrOf};
ghost use Rattle.hay_disk.specs.Counts.{Rose};
ghost use Rattle.hay_disk.specs.Streams.{Took};
ghost use Rattle.hay_lines.specs.Stream.{TookAll, TookAtMost};

use crate::fault::FrameFault;
use hay_disk::{Failed, Source};
use std::alloc::Global;

// So many bytes are taken at a time at most.
const BUFFER: usize = 4_096;

/// Takes one byte. None comes at the end.
pub fn take_byte<S: Source>(source: &mut S) -> Result<Option<u8>, FrameFault>
    ensures some { IfOk result (λ next. (byte : ℕ) → next ≡ Some byte → Took (S.left source.old) (byte ∷ []) (S.left source.new)) }
    ensures none { IfOk result (λ next. next ≡ None → TookAll (S.left source.old) [] (S.left source.new)) }
    ensures failed { OnErr result (Took (S.left source.old) [] (S.left source.new)) }
    ensures stops { OnErr result (result ≡ Err FrameFault.Input) }
    ensures cause { OnErr result (Rose (S.fault_count source.old) (S.fault_count source.new)) }
    ensures count { S.fault_count source.old ≤ S.fault_count source.new }
{
    let mut byte = [0u8; 1];
    match source.read(&mut byte) {
        Ok(0) => Ok(None),
        Ok(_) => Ok(Some(byte[0])),
        Err(Failed) => Err(FrameFault::Input),
    }
}

/// Takes bytes until there are so many, or none are left.
pub fn take_bytes<S: Source>(
    alloc: Global,
    source: &mut S,
    most: usize,
) -> Result<Vec<u8>, FrameFault>
    ensures took { IfOk result (λ bytes. Took (S.left source.old) bytes.items (S.left source.new)) }
    ensures within { IfOk result (λ bytes. vec_len bytes ≤ most) }
    ensures end { IfOk result (λ bytes. vec_len bytes < most → TookAll (S.left source.old) bytes.items (S.left source.new)) }
    ensures taken { TookAtMost most (S.left source.old) (S.left source.new) }
    ensures stops { OnErr result ((result ≡ Err FrameFault.Input) ⊎ (result ≡ Err FrameFault.NoMemory)) }
    ensures cause { IsErrOf result FrameFault.Input → Rose (S.fault_count source.old) (S.fault_count source.new) }
    ensures count { S.fault_count source.old ≤ S.fault_count source.new }
{
    let mut bytes = Vec::new(alloc);
    let mut buffer = [0u8; BUFFER];
    'taking: loop {
        let room = buffer.len().min(most - bytes.len());
        if room == 0 {
            return Ok(bytes);
        }
        match source.read(&mut buffer[..room]) {
            Ok(0) => return Ok(bytes),
            Ok(count) => bytes.extend_from_slice(&buffer[..count])?,
            Err(Failed) => return Err(FrameFault::Input),
        }
    }
}
