use hay_drill::{Summary, drill_script, summary_text};
use std::alloc::Global;
use std::test::Fail;

/// The machines of the replicas of a day's store, volume by volume.
static REPLICAS: [&str; 16] = [
    "0 0", "0 1", "1 1", "1 2", "2 2", "2 3", "3 3", "3 0", "4 0", "4 1", "5 1", "5 2", "6 2",
    "6 3", "7 3", "7 0",
];

/// One line for each replica.
fn add_replicas(verb: &str, out: &mut String) -> Result<(), Fail> {
    for place in REPLICAS {
        writeln!(out, "{verb} {place}")?;
    }
    Ok(())
}

/// What a script has: lines, and between them those of the replicas.
fn whole(alloc: Global, changes: &str, block: &str, reads: &str) -> Result<String, Fail> {
    let mut text = String::from_str(alloc, changes)?;
    add_replicas("flush", &mut text)?;
    text.push_str(block)?;
    add_replicas("4 compact", &mut text)?;
    text.push_str("end\nrestart 0\n")?;
    text.push_str(reads)?;
    Ok(text)
}

fn has_script(alloc: Global, count: u32, first: u64, text: &str) -> Result<bool, Fail> {
    let mut script = Vec::new(alloc);
    script.push(b'>')?;
    drill_script(alloc, count, first, &mut script)
        .ok()
        .ok_or("no memory")?;
    let mut wanted = String::from_str(alloc, ">")?;
    wanted.push_str(text)?;
    Ok(script.as_slice() == wanted.as_bytes())
}

#[test]
fn one_photo(rt: HostRuntime) -> Result<(), Fail> {
    let changes = "put 0 1 x65536:00
put 0 2 x16384:00
put 0 3 x4096:00
put 0 4 x1024:00
put 0 1 x65536:ff
del 0 2
";
    let block = "lanes 5
0 read 0 1 903df1a0ade0b876
0 read 0 2 903df1a0ade0b876
0 read 0 3 903df1a0ade0b876
0 read 0 4 903df1a0ade0b876
";
    let reads = "read 0 1 903df1a0ade0b876
read 0 2 903df1a0ade0b876
read 0 3 903df1a0ade0b876
read 0 4 903df1a0ade0b876
";
    let text = whole(rt.alloc(), changes, block, reads)?;
    assert_eq!(rt; has_script(rt.alloc(), 1, 0, text.as_str())?, true);
    Ok(())
}

/// Behind the last key comes key 0.
#[test]
fn two_photos(rt: HostRuntime) -> Result<(), Fail> {
    let changes = "put 18446744073709551615 1 x65536:00
put 18446744073709551615 2 x16384:00
put 18446744073709551615 3 x4096:00
put 18446744073709551615 4 x1024:00
put 0 1 x65536:01
put 0 2 x16384:01
put 0 3 x4096:01
put 0 4 x1024:01
put 18446744073709551615 1 x65536:ff
del 18446744073709551615 2
";
    let block = "lanes 5
0 read 18446744073709551615 1 09b1574772bef6e2
0 read 18446744073709551615 2 09b1574772bef6e2
0 read 18446744073709551615 3 09b1574772bef6e2
0 read 18446744073709551615 4 09b1574772bef6e2
1 read 0 1 903df1a0ade0b876
1 read 0 2 903df1a0ade0b876
1 read 0 3 903df1a0ade0b876
1 read 0 4 903df1a0ade0b876
";
    let reads = "read 18446744073709551615 1 09b1574772bef6e2
read 18446744073709551615 2 09b1574772bef6e2
read 18446744073709551615 3 09b1574772bef6e2
read 18446744073709551615 4 09b1574772bef6e2
read 0 1 903df1a0ade0b876
read 0 2 903df1a0ade0b876
read 0 3 903df1a0ade0b876
read 0 4 903df1a0ade0b876
";
    let text = whole(rt.alloc(), changes, block, reads)?;
    assert_eq!(rt; has_script(rt.alloc(), 2, u64::MAX, text.as_str())?, true);
    Ok(())
}

#[test]
fn summaries(rt: HostRuntime) -> Result<(), Fail> {
    let alloc = rt.alloc();
    let summary = Summary {
        stored: 840,
        deleted: 29,
        photos: 1_542,
        photo_bytes: 33_865_728,
        gone: 58,
        flushed: 16,
        compacted: 16,
        rows: 800,
        other: 0,
    };
    let mut text = Vec::new(alloc);
    text.push(b'>')?;
    summary_text(alloc, 200, 0, &summary, &mut text)
        .ok()
        .ok_or("no memory")?;
    let wanted = ">drill 200 0
stored 840
deleted 29
photo 1542 33865728
gone 58
flushed 16
compacted 16
rows 800
other 0
";
    assert_eq!(rt; text.as_slice() == wanted.as_bytes(), true);
    Ok(())
}
