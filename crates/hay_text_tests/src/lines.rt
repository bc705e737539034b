use hay_script::{Command, Line, read_line};
use std::alloc::Global;
use std::test::Fail;

#[test]
fn lines(rt: HostRuntime) -> Result<(), Fail> {
    for (line, lanes, said) in [
        ("", None, "Skip"),
        (" \t ", None, "Skip"),
        ("  # \x01", Some(2), "Skip"),
        ("put 0 1 68656c6c6f\r", None, "Bad"),
        (
            " put  0\t1 68656C6c6f ",
            None,
            "Plain(Put { pair: Pair { key: 0, alt: 1 }, photo: Listed { items: [104, 101, 108, 108, 111] } })",
        ),
        (
            "put 18446744073709551615 4294967295 -",
            None,
            "Plain(Put { pair: Pair { key: 18446744073709551615, alt: 4294967295 }, photo: Listed { items: [] } })",
        ),
        ("put 18446744073709551616 1 61", None, "Bad"),
        ("put 0 4294967296 61", None, "Bad"),
        (
            "put 00000000000000000007 1 x3:aB",
            None,
            "Plain(Put { pair: Pair { key: 7, alt: 1 }, photo: Listed { items: [171, 171, 171] } })",
        ),
        ("put 000000000000000000007 1 61", None, "Bad"),
        ("put 0 1 x0:61", None, "Bad"),
        ("put 0 1 x16777217:61", None, "Bad"),
        ("put 0 1 616", None, "Bad"),
        (
            "del 0 1",
            None,
            "Plain(Del { pair: Pair { key: 0, alt: 1 } })",
        ),
        (
            "read 0 1 903DF1A0ade0b876",
            None,
            "Plain(Read { pair: Pair { key: 0, alt: 1 }, cookie: Cookie(10393729187455219830) })",
        ),
        (
            "url 0 1",
            None,
            "Plain(Url { pair: Pair { key: 0, alt: 1 } })",
        ),
        ("step 0 1 0", None, "Bad"),
        (
            "step 0 1 64",
            None,
            "Plain(Step { volume: 0, machine: 1, cells: 64 })",
        ),
        ("fuse dir 3", None, "Plain(FuseDir { calls: 3 })"),
        (
            "fuse 0 1 0",
            None,
            "Plain(Fuse { volume: 0, machine: 1, calls: 0 })",
        ),
        ("restart", None, "Plain(Restart { pick: 0 })"),
        ("restart 9", None, "Plain(Restart { pick: 9 })"),
        ("lanes 8", None, "Lanes(8)"),
        ("lanes 9", None, "Bad"),
        ("end", None, "Bad"),
        ("end", Some(3), "End"),
        (
            "2 flush 0 1",
            Some(3),
            "InLane { lane: 2, command: Flush { volume: 0, machine: 1 } }",
        ),
        ("3 flush 0 1", Some(3), "Bad"),
        ("2 drain 0", Some(3), "Bad"),
        ("flush 0 1", Some(3), "Bad"),
        (
            "get http://store/02/2,0200000000000000_00000001_3736d58c374dc6c2",
            None,
            "Bad",
        ),
    ] {
        let read = read_line(rt.alloc(), line.as_bytes(), lanes)
            .ok()
            .ok_or("no memory")?;
        assert_eq!(rt;
            format!(in rt.alloc(); "{read:?}")?.as_str(),
            said,
            "{line}"
        );
    }
    Ok(())
}

/// A put with this text, so many digits and so many spaces behind its pair.
fn put_line(alloc: Global, text: &str, digits: u32, spaces: u32) -> Result<Vec<u8>, Fail> {
    let mut line = Vec::from_slice(alloc, b"put 0 1 ")?;
    line.extend_from_slice(text.as_bytes())?;
    line.resize(line.len() + digits as usize, b'6')?;
    line.resize(line.len() + spaces as usize, b' ')?;
    Ok(line)
}

/// How many bytes the photo has, where the line is a put.
fn photo_len(line: &Line) -> Option<usize> {
    if let Line::Plain(Command::Put { photo, .. }) = line {
        Some(photo.len())
    } else {
        None
    }
}

#[test]
fn limits(rt: HostRuntime) -> Result<(), Fail> {
    for (text, digits, spaces, size) in [
        ("x16777216:61", 0, 0, Some(16_777_216)),
        // A line of 33,554,560 bytes, and one of a byte more.
        ("", 33_554_432, 120, Some(16_777_216)),
        ("", 33_554_432, 121, None),
        ("", 33_554_434, 0, None),
    ] {
        let line = put_line(rt.alloc(), text, digits, spaces)?;
        let read = read_line(rt.alloc(), line.as_slice(), None)
            .ok()
            .ok_or("no memory")?;
        assert_eq!(rt; photo_len(&read), size, "{text} {digits} {spaces}");
    }
    Ok(())
}
