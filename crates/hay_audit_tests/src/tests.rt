ghost use Rattle.std.specs.Prelude.{◌<◌};

use hay_audit::{Judgement, audit};
use hay_needle::Settings;
use hay_script::MAX_SCRIPT;
use std::alloc::AllocGlobal;
use std::process::Abort;
use std::test::*;

const ONE: Settings = Settings {
    machines: 1,
    volumes: 1,
    replicas: 1,
    capacity: 67_108_864,
    secret: [0; 32],
};

/// Room for one photo of five bytes: 64 of the superblock, 56 of its needle, 8 behind it.
const NARROW: Settings = Settings {
    machines: 1,
    volumes: 1,
    replicas: 1,
    capacity: 128,
    secret: [0; 32],
};

/// Room for two photos of one byte, and half of a third.
const SMALL: Settings = Settings {
    machines: 1,
    volumes: 1,
    replicas: 1,
    capacity: 239,
    secret: [0; 32],
};

const TWO: Settings = Settings {
    machines: 2,
    volumes: 2,
    replicas: 2,
    capacity: 67_108_864,
    secret: [0; 32],
};

/// What is said of the lines behind the header that the settings have.
fn says(
    rt: &(impl Abort + AllocGlobal),
    settings: &Settings,
    header: &str,
    script: &str,
    lines: &str,
    verdict: Judgement,
) -> Result<(), Fail>
    requires machines { 0 < settings.now.machines }
    requires volumes { 0 < settings.now.volumes }
    requires replicas { 0 < settings.now.replicas }
{
    let mut text = String::new(rt.alloc());
    text.push_str(header)?;
    text.push_str(lines)?;
    let script = script.as_bytes();
    assert!(rt; script.len() as u64 <= MAX_SCRIPT);
    let said = audit(rt.alloc(), settings, script, text.as_bytes())
        .ok()
        .ok_or("there is room")?;
    assert_eq!(rt; said, verdict);
    Ok(())
}

fn lawful(turns: u64) -> Judgement {
    Judgement::Lawful { turns }
}

fn unlawful(turns: u64) -> Judgement {
    Judgement::Unlawful { turns }
}

fn open(turns: u64) -> Judgement {
    Judgement::Open { turns }
}

const HEADER: &str = "haystack 1 1 1 67108864\n";

#[test]
fn puts_and_reads(rt: HostRuntime) -> Result<(), Fail> {
    let script = "put 0 1 68656c6c6f\nread 0 1 903df1a0ade0b876\nflap\nput 1 1 61\n";
    for (lines, verdict) in [
        (
            "1 stored 0 1 1 903df1a0ade0b876\n2 photo 0 0 1 1 68656c6c6f\n3 bad line\n4 failed 0:0 1\n",
            lawful(4),
        ),
        (
            "1 stored 0 1 1 903df1a0ade0b876\n2 photo 0 0 1 1 68656c6c70\n",
            unlawful(1),
        ),
        ("1 stored 0 2 1 903df1a0ade0b876\n", unlawful(0)),
        (
            "1 stored 0 1 1 903df1a0ade0b876\n2 unreadable 0 1 1 0:arm:1\n3 bad line\n4 failed dir 1\n",
            lawful(4),
        ),
        (
            "1 stored 0 1 1 903df1a0ade0b876\n2 unreadable 0 1 1 0:disk:1\n3 bad line\n4 failed dir 0\n",
            unlawful(3),
        ),
        (
            "1 stored 0 1 1 903df1a0ade0b876\n2 unreadable 0 1 1 0:damage:64\n",
            unlawful(1),
        ),
        (
            "1 stored 0 1 1 903df1a0ade0b876\n2 photo 0 0 1 1 68656c6c6f\n3 nomem\n",
            unlawful(2),
        ),
        ("1 nomem\n", open(0)),
    ] {
        says(&rt, &ONE, HEADER, script, lines, verdict)?;
    }
    Ok(())
}

#[test]
fn deletions(rt: HostRuntime) -> Result<(), Fail> {
    let script = "put 0 1 61\ndel 0 1\nread 0 1 903df1a0ade0b876\ndel 0 1\ndel 0 2\n";
    for (lines, verdict) in [
        (
            "1 stored 0 1 1 903df1a0ade0b876\n2 deleted 0 2 1\n3 gone 0 0 2 1\n4 gone 0 2 1\n5 unknown 1\n",
            lawful(5),
        ),
        (
            "1 stored 0 1 1 903df1a0ade0b876\n2 deleted 0 3 1\n",
            unlawful(1),
        ),
        (
            "1 stored 0 1 1 903df1a0ade0b876\n2 gone 0 1 1\n",
            unlawful(1),
        ),
        (
            "1 stored 0 1 1 903df1a0ade0b876\n2 deleted 0 2 1\n3 photo 0 0 2 1 61\n",
            unlawful(2),
        ),
        (
            "1 stored 0 1 1 903df1a0ade0b876\n2 deleted 0 2 1\n3 gone 0 0 2 1\n4 deleted 0 3 1\n",
            unlawful(3),
        ),
        (
            "1 stored 0 1 1 903df1a0ade0b876\n2 failed 0:0 1\n3 photo 0 0 1 1 61\n4 readonly 0:0\n5 unknown 1\n",
            lawful(5),
        ),
        (
            "1 stored 0 1 1 903df1a0ade0b876\n2 failed 0:0 1\n3 photo 0 0 1 1 61\n4 deleted 0 2 1\n5 unknown 1\n",
            lawful(5),
        ),
        (
            "1 stored 0 1 1 903df1a0ade0b876\n2 failed 0:0 1\n3 gone 0 0 1 1\n",
            unlawful(2),
        ),
        (
            "1 stored 0 1 1 903df1a0ade0b876\n2 deleted 0 2 1\n3 gone 0 0 2 1\n4 gone 0 2 1\n5 gone 0 2 1\n",
            unlawful(4),
        ),
    ] {
        says(&rt, &ONE, HEADER, script, lines, verdict)?;
    }
    Ok(())
}

#[test]
fn urls_and_gets(rt: HostRuntime) -> Result<(), Fail> {
    let header = "haystack 2 2 2 67108864\n";
    let script = "put 0 1 61\nurl 0 1\n\
        get http://store/1/0,0000000000000000_00000001_903df1a0ade0b876\n\
        get http://store/1/1,0000000000000000_00000001_903df1a0ade0b876\n\
        get http://store/2/0,0000000000000000_00000001_903df1a0ade0b876\n\
        get http://store/0/0,0000000000000000_00000002_903df1a0ade0b876\n";
    let stored =
        "1 stored 0 1 1 903df1a0ade0b876\n2 url 1 http://store/0/0,0000000000000000_00000001_903df1a0ade0b876\n";
    for (lines, verdict) in [
        (
            "3 photo 0 1 1 1 61\n4 moved 0 1\n5 nowhere\n6 unknown 1\n",
            lawful(6),
        ),
        (
            "3 photo 0 0 1 1 61\n4 moved 0 1\n5 nowhere\n6 unknown 1\n",
            lawful(6),
        ),
        (
            "3 unreadable 0 1 1 1:disk:1 0:arm:1\n4 moved 0 1\n5 nowhere\n6 unknown 1\n",
            lawful(6),
        ),
        ("3 unreadable 0 1 1 0:arm:1 1:disk:1\n", unlawful(2)),
        ("3 unreadable 0 1 1 1:arm:1 0:arm:1\n", unlawful(2)),
        ("3 unreadable 0 1 1 1:arm:1\n", unlawful(2)),
        ("3 photo 0 1 1 1 62\n", unlawful(2)),
        ("3 moved 0 1\n", unlawful(2)),
        ("3 photo 0 1 1 1 61\n4 moved 1 1\n", unlawful(3)),
        ("3 photo 0 1 1 1 61\n4 photo 0 1 1 1 61\n", unlawful(3)),
        (
            "3 photo 0 1 1 1 61\n4 moved 0 1\n5 photo 0 1 1 1 61\n",
            unlawful(4),
        ),
    ] {
        let mut text = String::new(rt.alloc());
        text.push_str(stored)?;
        text.push_str(lines)?;
        says(&rt, &TWO, header, script, text.as_str(), verdict)?;
    }
    let other =
        "1 stored 0 1 1 903df1a0ade0b876\n2 url 1 http://store/1/0,0000000000000000_00000001_903df1a0ade0b876\n";
    says(&rt, &TWO, header, script, other, unlawful(1))
}

#[test]
fn compactions(rt: HostRuntime) -> Result<(), Fail> {
    let script =
        "put 0 1 61\nflush 0 0\nstep 0 0 1\nbegin 0 0\nbegin 0 0\nput 0 1 62\nstep 0 0 9\nfinish 0 0\nflush 0 0\n";
    let begun =
        "1 stored 0 1 1 903df1a0ade0b876\n2 flushed 0:0 1\n3 idle 0:0\n4 begun 0:0 1\n5 busy 0:0 1\n6 stored 0 2 1 903df1a0ade0b876\n";
    for (lines, verdict) in [
        (
            "7 stepped 0:0 2\n8 failed 0:0 1\n9 flushed 0:0 1\n",
            lawful(9),
        ),
        (
            "7 stepped 0:0 2\n8 failed 0:0 1\n9 readonly 0:0\n",
            lawful(9),
        ),
        (
            "7 stepped 0:0 2\n8 failed 0:0 1\n9 flushed 0:0 2\n",
            unlawful(8),
        ),
        ("7 stepped 0:0 2\n8 failed 0:0 0\n", unlawful(7)),
        (
            "7 stepped 0:0 2\n8 compacted 0:0 1\n9 flushed 0:0 0\n",
            lawful(9),
        ),
        ("7 stepped 0:0 2\n8 compacted 0:0 2\n", unlawful(7)),
        ("7 stepped 0:0 2\n8 idle 0:0\n", unlawful(7)),
        ("7 stepped 0:0 9\n", unlawful(6)),
        ("7 stepped 0:1 2\n", unlawful(6)),
        ("7 failed 0:0 1\n8 idle 0:0\n9 flushed 0:0 1\n", lawful(9)),
        ("7 failed 0:0 1\n8 failed 0:0 2\n", unlawful(7)),
    ] {
        let mut text = String::new(rt.alloc());
        text.push_str(begun)?;
        text.push_str(lines)?;
        says(&rt, &ONE, HEADER, script, text.as_str(), verdict)?;
    }
    for (lines, verdict) in [
        (
            "1 stored 0 1 1 903df1a0ade0b876\n2 failed 0:0 1\n3 idle 0:0\n4 begun 0:0 2\n",
            unlawful(3),
        ),
        (
            "1 stored 0 1 1 903df1a0ade0b876\n2 flushed 0:0 0\n",
            unlawful(1),
        ),
    ] {
        says(&rt, &ONE, HEADER, script, lines, verdict)?;
    }
    Ok(())
}

#[test]
fn refused_puts(rt: HostRuntime) -> Result<(), Fail> {
    let header = "haystack 1 1 1 128\n";
    let script =
        "put 0 1 68656c6c6f\nput 0 2 61\ndrain 0\nput 0 2 61\ndel 0 1\nundrain 0\ndel 0 1\ndrain 1\ncompact 0 1\nput 0 1 61\n";
    for (lines, verdict) in [
        (
            "1 stored 0 1 1 903df1a0ade0b876\n2 full 0:0:120:56\n3 drained 0\n4 readonly 0:0\n5 readonly 0:0\n6 undrained 0\n7 deleted 0 2 1\n8 nowhere\n9 nowhere\n10 full 0:0:120:56\n",
            lawful(10),
        ),
        (
            "1 stored 0 1 1 903df1a0ade0b876\n2 full 0:0:121:56\n",
            unlawful(1),
        ),
        (
            "1 stored 0 1 1 903df1a0ade0b876\n2 full 0:0:120:56 0:0:120:56\n",
            unlawful(1),
        ),
        (
            "1 stored 0 1 1 903df1a0ade0b876\n2 readonly 0:0\n",
            unlawful(1),
        ),
        ("1 full 0:0:64:56\n", unlawful(0)),
        (
            "1 failed 0:0 1\n2 readonly 0:0\n3 drained 0\n4 readonly 0:0\n5 readonly 0:0\n6 undrained 0\n7 readonly 0:0\n8 nowhere\n9 nowhere\n10 readonly 0:0\n",
            lawful(10),
        ),
        ("1 failed 0:0 1\n2 full 0:0:64:56\n", unlawful(1)),
        (
            "1 failed dir 1\n2 readonly dir\n3 drained 0\n4 readonly 0:0\n5 unknown 0\n6 undrained 0\n7 unknown 0\n8 nowhere\n9 nowhere\n10 readonly dir\n",
            lawful(10),
        ),
        ("1 failed dir 1\n2 failed dir 2\n", unlawful(1)),
        ("1 readonly dir\n", unlawful(0)),
        ("1 failed 0:1 1\n", unlawful(0)),
        (
            "1 stored 0 1 1 903df1a0ade0b876\n2 full 0:0:120:56\n3 drained 1\n",
            unlawful(2),
        ),
    ] {
        says(&rt, &NARROW, header, script, lines, verdict)?;
    }
    Ok(())
}

#[test]
fn fuses_restarts_and_blocks(rt: HostRuntime) -> Result<(), Fail> {
    let script = "fuse 0 0 3\nfuse dir 4\nfuse 0 1 2\nrestart 1\nlanes 1\nend\n";
    for (lines, verdict) in [
        (
            "1 fused 0:0 3\n2 fused dir 4\n3 nowhere\n4 restarted 0\n",
            open(4),
        ),
        (
            "1 fused 0:0 3\n2 fused dir 4\n3 nowhere\n4 restarted 1\n",
            unlawful(3),
        ),
        ("1 fused 0:0 2\n", unlawful(0)),
        ("1 fused 0:0 3\n2 fused dir 3\n", unlawful(1)),
        ("1 fused 0:0 3\n2 fused dir 4\n3 fused 0:1 2\n", unlawful(2)),
    ] {
        says(&rt, &ONE, HEADER, script, lines, verdict)?;
    }
    says(&rt, &ONE, HEADER, "lanes 1\nend\n", "", open(0))
}

/// Behind a put, so that its pair has a row.
const PUT: &str = "put 0 1 61\nput 0 1 6262\nrestart 1\nread 0 1 903df1a0ade0b876\nflush 0 0\n";

#[test]
fn restarts(rt: HostRuntime) -> Result<(), Fail> {
    let stored = "1 stored 0 1 1 903df1a0ade0b876\n";
    for (lines, verdict) in [
        (
            "2 failed 0:0 1\n3 restarted 1\nkept 0:0 2\n4 photo 0 0 0 1 6262\n5 flushed 0:0 2\n",
            lawful(5),
        ),
        (
            "2 failed 0:0 1\n3 restarted 1\nlost 0:0 2\n4 photo 0 0 0 1 61\n5 flushed 0:0 1\n",
            lawful(5),
        ),
        (
            "2 failed 0:0 1\n3 restarted 1\nlost 0:0 2\n4 photo 0 0 0 1 6262\n",
            unlawful(3),
        ),
        ("2 failed 0:0 1\n3 restarted 1\nlost 0:0 1\n", unlawful(2)),
        ("2 failed 0:0 1\n3 restarted 1\n", unlawful(2)),
        ("2 failed 0:0 1\n3 nomem\n", open(2)),
        (
            "2 stored 0 2 1 903df1a0ade0b876\n3 restarted 1\n4 photo 0 0 0 1 6262\n5 flushed 0:0 2\n",
            lawful(5),
        ),
        (
            "2 stored 0 2 1 903df1a0ade0b876\n3 restarted 1\n4 photo 0 0 0 1 6262\n5 flushed 0:0 1\n",
            unlawful(4),
        ),
    ] {
        let mut text = String::new(rt.alloc());
        text.push_str(stored)?;
        text.push_str(lines)?;
        says(&rt, &ONE, HEADER, PUT, text.as_str(), verdict)?;
    }
    Ok(())
}

#[test]
fn ranges(rt: HostRuntime) -> Result<(), Fail> {
    let script =
        "put 0 1 61\nput 0 1 62\nbegin 0 0\nfinish 0 0\nput 0 2 x67108600:00\nflush 0 0\nrestart 1\nflush 0 0\n";
    let begun =
        "1 stored 0 1 1 903df1a0ade0b876\n2 stored 0 2 1 903df1a0ade0b876\n3 begun 0:0 1\n4 compacted 0:0 1\n";
    for (lines, verdict) in [
        (
            "5 bad line\n6 flushed 0:0 0\n7 restarted 1\n8 flushed 0:0 0\n",
            lawful(8),
        ),
        (
            "5 bad line\n6 failed 0:0 1\n7 restarted 1\n8 flushed 0:0 1\n",
            unlawful(7),
        ),
    ] {
        let mut text = String::new(rt.alloc());
        text.push_str(begun)?;
        text.push_str(lines)?;
        says(&rt, &ONE, HEADER, script, text.as_str(), verdict)?;
    }
    let narrow = "put 0 1 61\nput 0 1 62\nbegin 0 0\nfinish 0 0\nput 0 2 61\nput 0 2 61\n";
    let header = "haystack 1 1 1 239\n";
    for (lines, verdict) in [
        ("5 full 0:0:176:56\n6 full 0:0:176:56\n", lawful(6)),
        ("5 full 0:0:180:56\n", unlawful(4)),
        (
            "5 stored 0 3 2 903df1a0ade0b876\n6 stored 0 4 2 903df1a0ade0b876\n",
            unlawful(5),
        ),
        (
            "5 stored 0 3 2 903df1a0ade0b876\n6 full 0:0:176:56\n",
            lawful(6),
        ),
        (
            "5 stored 0 3 2 903df1a0ade0b876\n6 full 0:0:170:56\n",
            unlawful(5),
        ),
    ] {
        let mut text = String::new(rt.alloc());
        text.push_str(begun)?;
        text.push_str(lines)?;
        says(&rt, &SMALL, header, narrow, text.as_str(), verdict)?;
    }
    Ok(())
}
