ghost use Rattle.std.specs.Prelude.{◌<◌};

use hay_frame::{Frame, FrameFault, read_frame};
use hay_memdisk::MemSource;
use std::alloc::Global;
use std::test::Fail;

/// What is read of these bytes from a source that gives so many at a time, and fails at these reads.
fn frame_of(
    alloc: Global,
    input: &str,
    step: usize,
    fails: &[u64],
) -> Result<Result<Frame, FrameFault>, Fail>
    requires { 0 < step }
{
    let mut bytes = Vec::new(alloc);
    bytes.extend_from_slice(input.as_bytes())?;
    let mut source = MemSource::new(alloc, bytes, step);
    source.fail(fails)?;
    Ok(read_frame(alloc, &mut source))
}

#[test]
fn frames(rt: HostRuntime) -> Result<(), Fail> {
    for (input, script, transcript) in [
        ("script 3\nabcdef", "abc", "def"),
        ("script 3\nabc", "abc", ""),
        ("script 0\n", "", ""),
        ("script 0\nscript 1\n", "", "script 1\n"),
        ("script 00000000000000000002\na\n\n", "a\n", "\n"),
    ] {
        for step in [1, 2, 4096] {
            let frame = frame_of(rt.alloc(), input, step, &[])?
                .ok()
                .ok_or("no frame")?;
            assert_eq!(rt; frame.script.as_slice(), script.as_bytes(), "{input}");
            assert_eq!(rt;
                frame.transcript.as_slice(),
                transcript.as_bytes(),
                "{input}"
            );
        }
    }
    Ok(())
}

#[test]
fn what_is_no_frame(rt: HostRuntime) -> Result<(), Fail> {
    for input in [
        "",
        "\n",
        "script",
        "script 3",
        "script 3\nab",
        "script \n",
        "script  1\na",
        "script +1\na",
        "script 1 \na",
        "script 1\r\na",
        "Script 1\na",
        "put 0 1 61\n",
        "script 1073741824\n",
        "script 1073741825\n",
        "script 18446744073709551617\na",
        "script 000000000000000000001\na",
    ] {
        let fault = frame_of(rt.alloc(), input, 4096, &[])?.err();
        assert_eq!(rt; fault, Some(FrameFault::Bad), "{input}");
    }
    Ok(())
}

/// In the first line, in the script, in the transcript and at its end.
#[test]
fn faults_of_the_source(rt: HostRuntime) -> Result<(), Fail> {
    for call in [1, 9, 10, 12, 13, 16] {
        let fault = frame_of(rt.alloc(), "script 3\nabcdef", 1, &[call])?.err();
        assert_eq!(rt; fault, Some(FrameFault::Input), "{call}");
    }
    assert!(rt; frame_of(rt.alloc(), "script 3\nabcdef", 1, &[17])?.is_ok());
    Ok(())
}
