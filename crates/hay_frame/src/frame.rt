//! A frame as it comes in.
ghost use Rattle.std.specs.Prelude.{◌≡◌, ◌⊎◌, ◌+◌, ◌≤◌, ◌++◌, Err, vec_len, IfOk, IsErrOf, OnErr};
ghost use Rattle.hay_disk.specs.Counts.{Rose};
ghost use Rattle.hay_disk.specs.Streams.{Took};
ghost use Rattle.hay_lines.specs.Stream.{IsReadToEnd, TookAll, TookAtMost};
ghost use Rattle.hay_frame.specs.Frames.{TookFrame, IsUnframed, IsOverlong, TookShort, TookBeyond};

use crate::bytes::{take_byte, take_bytes};
use crate::fault::FrameFault;
use crate::line::{LINE, script_length, take_line};
use hay_disk::Source;
use hay_script::MAX_SCRIPT;
use std::alloc::Global;

/// A transcript that is checked has at most so many bytes.
pub const TRANSCRIPT: usize = 1_073_741_824;

/// A frame has at most so many bytes: its first line, the script and the transcript.
pub const FRAME: u64 = 2_147_483_676;

/// A script, and what is said to be its transcript.
#[derive(Drop)]
pub struct Frame {
    pub script: Vec<u8>,
    pub transcript: Vec<u8>,
}

/// Takes a frame to the end of the input: the line `script N`, N bytes of script, up to 1,073,741,824 of them, and a transcript of at
/// most 1,073,741,824 bytes. `Bad` comes where the input is no frame, and `TooLong` where the transcript of a frame goes on behind its
/// longest. Memory is taken as bytes come, and not by what the first line says.
pub fn read_frame<S: Source>(alloc: Global, source: &mut S) -> Result<Frame, FrameFault>
    ensures framed { IfOk result (λ frame. TookFrame (S.left source.old) frame.script.items frame.transcript.items (S.left source.new)) }
    ensures within { IfOk result (λ frame. (vec_len frame.script ≤ MAX_SCRIPT) × (vec_len frame.transcript ≤ TRANSCRIPT)) }
    ensures bad { IsErrOf result FrameFault.Bad → IsUnframed (S.left source.old) }
    ensures long { IsErrOf result FrameFault.TooLong → IsOverlong (S.left source.old) (S.left source.new) }
    ensures cause { IsErrOf result FrameFault.Input → Rose (S.fault_count source.old) (S.fault_count source.new) }
    ensures count { S.fault_count source.old ≤ S.fault_count source.new }

    // What is no frame by its first line is refused there.
    ensures soon { IsErrOf result FrameFault.Bad → TookAtMost LINE (S.left source.old) (S.left source.new)
        ⊎ IsReadToEnd (S.left source.old) (S.left source.new) }
    ensures taken { (IsErrOf result FrameFault.TooLong → ⊥) → TookAtMost FRAME (S.left source.old) (S.left source.new) }
{
    let line = take_line(alloc, source)?;
    let Some(length) = script_length(line.as_slice()) else {
        return Err(FrameFault::Bad);
    };
    let script = take_script(alloc, source, length as usize)?;
    let transcript = take_transcript(alloc, source)?;
    Ok(Frame { script, transcript })
}

/// Takes a script of this length.
fn take_script<S: Source>(
    alloc: Global,
    source: &mut S,
    length: usize,
) -> Result<Vec<u8>, FrameFault>
    ensures took { IfOk result (λ script. (vec_len script ≡ length) × Took (S.left source.old) script.items (S.left source.new)) }
    ensures short { IsErrOf result FrameFault.Bad → TookShort length (S.left source.old) (S.left source.new) }
    ensures taken { TookAtMost length (S.left source.old) (S.left source.new) }
    ensures stops { OnErr result ((result ≡ Err FrameFault.Input) ⊎ (result ≡ Err FrameFault.NoMemory) ⊎ (result ≡ Err FrameFault.Bad)) }
    ensures cause { IsErrOf result FrameFault.Input → Rose (S.fault_count source.old) (S.fault_count source.new) }
    ensures count { S.fault_count source.old ≤ S.fault_count source.new }
{
    let script = take_bytes(alloc, source, length)?;
    if script.len() < length {
        return Err(FrameFault::Bad);
    }
    Ok(script)
}

/// Takes a transcript, to the end.
fn take_transcript<S: Source>(alloc: Global, source: &mut S) -> Result<Vec<u8>, FrameFault>
    ensures took { IfOk result (λ transcript. TookAll (S.left source.old) transcript.items (S.left source.new)) }
    ensures within { IfOk result (λ transcript. vec_len transcript ≤ TRANSCRIPT) }
    ensures long { IsErrOf result FrameFault.TooLong → TookBeyond TRANSCRIPT (S.left source.old) (S.left source.new) }
    ensures taken { (IsErrOf result FrameFault.TooLong → ⊥) → TookAtMost TRANSCRIPT (S.left source.old) (S.left source.new) }
    ensures stops { OnErr result ((result ≡ Err FrameFault.Input) ⊎ (result ≡ Err FrameFault.NoMemory) ⊎ (result ≡ Err FrameFault.TooLong)) }
    ensures cause { IsErrOf result FrameFault.Input → Rose (S.fault_count source.old) (S.fault_count source.new) }
    ensures count { S.fault_count source.old ≤ S.fault_count source.new }
{
    let transcript = take_bytes(alloc, source, TRANSCRIPT)?;
    if transcript.len() < TRANSCRIPT {
        return Ok(transcript);
    }
    match take_byte(source)? {
        Some(_byte) => Err(FrameFault::TooLong),
        None => Ok(transcript),
    }
}
