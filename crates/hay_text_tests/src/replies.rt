use hay_base::NoMemory;
use hay_needle::{Bytes, Cookie, Settings};
use hay_reply::{Reply, header_line, note_text, numbered_line, read_note, read_reply, reply_text};
use std::alloc::Global;

/// The reply has this text, the text is read, and what was read is written as this text again.
fn reads_back(alloc: Global, reply: &Reply, text: &str) -> Result<bool, NoMemory> {
    let mut written = Vec::new(alloc);
    reply_text(alloc, reply, &mut written)?;
    let Some(read) = read_reply(alloc, text.as_bytes())? else {
        return Ok(false);
    };
    let mut again = Vec::new(alloc);
    reply_text(alloc, &read, &mut again)?;
    Ok(written.as_slice() == text.as_bytes() && again.as_slice() == text.as_bytes())
}

/// The text is one of a reply, and that reply is written as this text again.
fn is_reply(alloc: Global, text: &str) -> Result<bool, NoMemory> {
    let Some(read) = read_reply(alloc, text.as_bytes())? else {
        return Ok(false);
    };
    let mut again = Vec::new(alloc);
    reply_text(alloc, &read, &mut again)?;
    Ok(again.as_slice() == text.as_bytes())
}

/// The same of a note.
fn is_note(alloc: Global, text: &str) -> Result<bool, NoMemory> {
    let Some(read) = read_note(alloc, text.as_bytes())? else {
        return Ok(false);
    };
    let mut again = Vec::new(alloc);
    note_text(alloc, &read, &mut again)?;
    Ok(again.as_slice() == text.as_bytes())
}

/// How a photo with these bytes is answered, and whether that is this text.
fn photo_reads_back(alloc: Global, bytes: &[u8], text: &str) -> Result<bool, NoMemory> {
    let photo = Bytes::from_vec(bytes.to_vec(alloc)?);
    let reply = Reply::Photo {
        volume: 5,
        machine: 6,
        front: 7,
        rows: 8,
        photo,
    };
    reads_back(alloc, &reply, text)
}

fn is_no_reply(alloc: Global, text: &str) -> Result<bool, NoMemory> {
    Ok(read_reply(alloc, text.as_bytes())?.is_none())
}

fn is_no_note(alloc: Global, text: &str) -> Result<bool, NoMemory> {
    Ok(read_note(alloc, text.as_bytes())?.is_none())
}

#[test]
fn changes(rt: HostRuntime) {
    let alloc = rt.alloc();
    let stored = Reply::Stored {
        volume: 0,
        position: 1,
        rows: 2,
        cookie: Cookie(0x903d_f1a0_ade0_b876),
    };
    assert_eq!(rt;
        reads_back(alloc, &stored, "stored 0 1 2 903df1a0ade0b876"),
        Ok(true)
    );
    let deleted = Reply::Deleted {
        volume: 4_294_967_295,
        position: 18_446_744_073_709_551_615,
        rows: 10,
    };
    assert_eq!(rt;
        reads_back(
            alloc,
            &deleted,
            "deleted 4294967295 18446744073709551615 10"
        ),
        Ok(true)
    );
    let absent = Reply::Absent {
        volume: 1,
        front: 3,
        rows: 2,
    };
    assert_eq!(rt; reads_back(alloc, &absent, "gone 1 3 2"), Ok(true));
}

#[test]
fn photos(rt: HostRuntime) {
    let alloc = rt.alloc();
    assert_eq!(rt;
        photo_reads_back(alloc, b"hello", "photo 5 6 7 8 68656c6c6f"),
        Ok(true)
    );
    assert_eq!(rt; photo_reads_back(alloc, b"", "photo 5 6 7 8 -"), Ok(true));
    assert_eq!(rt;
        photo_reads_back(
            alloc,
            b"aaaaaaaaaaaaaaa",
            "photo 5 6 7 8 616161616161616161616161616161"
        ),
        Ok(true)
    );
    assert_eq!(rt;
        photo_reads_back(alloc, b"aaaaaaaaaaaaaaaa", "photo 5 6 7 8 x16:61"),
        Ok(true)
    );
    assert_eq!(rt;
        photo_reads_back(
            alloc,
            b"aaaaaaaaaaaaaaab",
            "photo 5 6 7 8 61616161616161616161616161616162"
        ),
        Ok(true)
    );
}

#[test]
fn every_reply(rt: HostRuntime) {
    let alloc = rt.alloc();
    for text in [
        "gone 1 2 3 4",
        "wrong cookie 1 2 3 4",
        "unknown 9",
        "moved 2 1",
        "url 1 http://store/2/3,0200000000000000_00000001_3736d58c374dc6c2",
        "full 0:1:4040:56 2:3:ro",
        "readonly 0:1 2:3",
        "readonly dir",
        "unreadable 5 6 7 1:arm:2 0:disk:3 4:damage:64",
        "failed 0:1 2",
        "failed dir 3",
        "damaged 0:1 64",
        "fused 0:1 0",
        "fused dir 4294967295",
        "begun 1:2 3",
        "stepped 1:2 64",
        "compacted 1:2 3",
        "busy 1:2 65535",
        "idle 1:2",
        "worn 1:2",
        "flushed 0:1 2",
        "drained 3",
        "undrained 3",
        "restarted 4",
        "nowhere",
        "bad line",
        "nomem",
    ] {
        assert_eq!(rt; is_reply(alloc, text), Ok(true), "{text}");
    }
}

#[test]
fn no_replies(rt: HostRuntime) {
    let alloc = rt.alloc();
    for text in [
        "",
        " nowhere",
        "nowhere ",
        "Nomem",
        "unbuilt",
        "bad",
        "bad lines",
        "unknown 01",
        "unknown +1",
        "unknown 18446744073709551616",
        "unknown 000000000000000000001",
        "drained 4294967296",
        "idle 0 0",
        "idle 0:1:2",
        "failed 0:1 1 ",
        "failed 0:1  1",
        "failed dir",
        "gone 0 1",
        "gone 0 1 2 3 4",
        "wrong word 1 2 3 4",
        "stored 0 1 1 903DF1A0ADE0B876",
        "stored 0 1 1 903df1a0ade0b8760",
        "photo 0 0 1 1 x15:61",
        "photo 0 0 1 1 x16:6A",
        "photo 0 0 1 1 6A",
        "photo 0 0 1 1 616",
        "photo 0 0 1 1 61616161616161616161616161616161",
        "readonly dir 1",
        "full 0:1:ro:",
        "full 0:1",
        "unreadable 0 1 1 1:leg:2",
        "url 1 http://store/2/2,0200000000000000_00000001_3736d58c374dc6c",
        "kept dir 3",
    ] {
        assert_eq!(rt; is_no_reply(alloc, text), Ok(true), "{text}");
    }
}

#[test]
fn every_note(rt: HostRuntime) {
    let alloc = rt.alloc();
    for text in [
        "kept 0:1 3",
        "lost 0:1 3",
        "kept dir 3",
        "lost dir 3",
        "log 1 2 4 3",
        "rows 5 6:1 4:0",
        "open shelf 1",
        "open failed 2 3",
        "open damaged 1 2 64",
    ] {
        assert_eq!(rt; is_note(alloc, text), Ok(true), "{text}");
    }
}

#[test]
fn no_notes(rt: HostRuntime) {
    let alloc = rt.alloc();
    for text in [
        "",
        "kept",
        "kept dir 03",
        "kept 0 1 3",
        "lost 0:4294967296 3",
        "lost dir 3 ",
        "log 0",
        "log 0 0 2, 3",
        "rows 0 2",
        "rows 0 2:0:1",
        "open",
        "open shelf",
        "open drawer 1",
        "open shelf 1 2",
        "open damaged 1 2 64 0",
        "nomem",
    ] {
        assert_eq!(rt; is_no_note(alloc, text), Ok(true), "{text}");
    }
}

#[test]
fn lines(rt: HostRuntime) -> Result<(), NoMemory> {
    let alloc = rt.alloc();
    let settings = Settings {
        machines: 3,
        volumes: 4,
        replicas: 2,
        capacity: 67_108_864,
        secret: [0; 32],
    };
    let mut out = Vec::new(alloc);
    header_line(alloc, &settings, &mut out)?;
    numbered_line(alloc, 7, &Reply::Unknown { rows: 1 }, &mut out)?;
    assert_eq!(rt;
        out.as_slice(),
        b"haystack 3 4 2 67108864\n7 unknown 1\n".as_slice()
    );
    Ok(())
}
