use hay_cli::{CliFault, Mode, folder_of, read_words};
use hay_needle::Settings;
use std::alloc::Global;
use std::test::Fail;

/// The words between the bars of a line.
fn words_of(alloc: Global, line: &str) -> Result<Vec<String>, Fail> {
    let mut words = Vec::new(alloc);
    for word in line.split('|') {
        words.push(String::from_str(alloc, word)?)?;
    }
    Ok(words)
}

fn mode_of(alloc: Global, line: &str) -> Result<Result<Mode, CliFault>, Fail> {
    let words = words_of(alloc, line)?;
    Ok(read_words(alloc, words.as_slice()))
}

fn has_folder(alloc: Global, line: &str, folder: Option<&str>) -> Result<bool, Fail> {
    let words = words_of(alloc, line)?;
    Ok(folder_of(words.as_slice()) == folder)
}

fn settings(machines: u32, volumes: u32, replicas: u32, capacity: u64) -> Settings {
    Settings {
        machines,
        volumes,
        replicas,
        capacity,
        secret: [0; 32],
    }
}

#[test]
fn runs(rt: HostRuntime) -> Result<(), Fail> {
    let alloc = rt.alloc();
    for (line, machines, volumes, replicas, capacity) in [
        ("run", 1, 1, 1, 67_108_864),
        (
            "run|--machines|3|--volumes|3|--replicas|2",
            3,
            3,
            2,
            67_108_864,
        ),
        ("run|--capacity=8192|--folder|store", 1, 1, 1, 8_192),
        (
            "run|--replicas=4|--machines=0016|--folder=-x=y|--volumes=64",
            16,
            64,
            4,
            67_108_864,
        ),
        (
            "run|--capacity|1073741824|--folder|-",
            1,
            1,
            1,
            1_073_741_824,
        ),
        (
            "run|--secret=0000000000000000000000000000000000000000000000000000000000000000",
            1,
            1,
            1,
            67_108_864,
        ),
    ] {
        let mode = Mode::Run(settings(machines, volumes, replicas, capacity));
        assert_eq!(rt; mode_of(alloc, line)?, Ok(mode), "{line}");
    }
    Ok(())
}

#[test]
fn drills_and_secrets(rt: HostRuntime) -> Result<(), Fail> {
    let alloc = rt.alloc();
    assert_eq!(rt;
        mode_of(alloc, "drill|200|0")?,
        Ok(Mode::Drill {
            count: 200,
            first: 0
        })
    );
    assert_eq!(rt;
        mode_of(alloc, "drill|1000|18446744073709551615")?,
        Ok(Mode::Drill {
            count: 1_000,
            first: 18_446_744_073_709_551_615
        })
    );
    let Mode::Run(settings) = mode_of(
        alloc,
        "run|--secret|000102030405060708090a0b0c0d0e0f101112131415161718191A1B1C1D1EfF",
    )?
    .ok()
    .ok_or("no mode")?
    else {
        return Err("no run".into());
    };
    assert_eq!(rt; settings.secret[0], 0);
    assert_eq!(rt; settings.secret[10], 10);
    assert_eq!(rt; settings.secret[30], 30);
    assert_eq!(rt; settings.secret[31], 255);
    Ok(())
}

/// A load has the options of a run.
#[test]
fn loads(rt: HostRuntime) -> Result<(), Fail> {
    let alloc = rt.alloc();
    assert_eq!(rt;
        mode_of(alloc, "load|--volumes|2|--capacity=4096|--folder|load")?,
        Ok(Mode::Load(settings(1, 2, 1, 4_096)))
    );
    assert_eq!(rt; mode_of(alloc, "load|200|0")?, Err(CliFault::Usage));
    assert_eq!(rt; mode_of(alloc, "load|--volumes|0")?, Err(CliFault::Usage));
    Ok(())
}

/// A check has the options of a run.
#[test]
fn checks(rt: HostRuntime) -> Result<(), Fail> {
    let alloc = rt.alloc();
    assert_eq!(rt;
        mode_of(alloc, "check")?,
        Ok(Mode::Check(settings(1, 1, 1, 67_108_864)))
    );
    assert_eq!(rt;
        mode_of(
            alloc,
            "check|--machines|3|--volumes=3|--replicas|2|--capacity=8192|--folder|check"
        )?,
        Ok(Mode::Check(settings(3, 3, 2, 8_192)))
    );
    Ok(())
}

/// An audit has the options of a run, but no folder.
#[test]
fn audits(rt: HostRuntime) -> Result<(), Fail> {
    let alloc = rt.alloc();
    assert_eq!(rt;
        mode_of(alloc, "audit")?,
        Ok(Mode::Audit(settings(1, 1, 1, 67_108_864)))
    );
    assert_eq!(rt;
        mode_of(
            alloc,
            "audit|--machines|3|--volumes=3|--replicas|2|--capacity=8192"
        )?,
        Ok(Mode::Audit(settings(3, 3, 2, 8_192)))
    );
    for line in ["audit|--folder|store", "audit|--folder=store", "audit|3"] {
        assert_eq!(rt; mode_of(alloc, line)?, Err(CliFault::Usage), "{line}");
    }
    Ok(())
}

#[test]
fn usage(rt: HostRuntime) -> Result<(), Fail> {
    let alloc = rt.alloc();
    assert_eq!(rt; read_words(alloc, &[]), Err(CliFault::Usage));
    for line in [
        "",
        "fly",
        "Run",
        "run|--volumes|0",
        "run|--volumes|65",
        "run|--machines|2|--replicas|3",
        "run|--replicas=2",
        "run|--capacity|4095",
        "run|--capacity|1073741825",
        "run|--machines",
        "run|--machines=",
        "run|--machines|",
        "run|--machines|17",
        "run|--machines|+4",
        "run|--machines|-4",
        "run|--machines|000000000000000000004",
        "run|--machines|4|--machines|4",
        "run|--machines=4|--machines|4",
        "run|--machines=4|--",
        "run|--|--machines=4",
        "run|--mach=4",
        "run|-machines=4",
        "run|machines=4",
        "run|--folder|-x",
        "run|--folder|--",
        "run|--folder=",
        "run|--secret=00",
        "run|--secret=000000000000000000000000000000000000000000000000000000000000000g",
        "run|-h",
        "run|--help",
        "run|--version",
        "run|help",
        "run|",
        "run|-é",
        "run|check",
        "Check",
        "check|run",
        "check|--volumes|0",
        "check|--replicas|2",
        "check|--folder=",
        "check|--slot|1",
        "drill",
        "drill|0|0",
        "drill|1001|0",
        "drill|5",
        "drill|5|18446744073709551616",
        "drill|5|7|9",
        "drill|--|5|7",
        "drill|5|--",
        "drill|-5|7",
    ] {
        assert_eq!(rt; mode_of(alloc, line)?, Err(CliFault::Usage), "{line}");
    }
    Ok(())
}

#[test]
fn folders(rt: HostRuntime) -> Result<(), Fail> {
    let alloc = rt.alloc();
    assert!(rt; has_folder(alloc, "run|--capacity=8192|--folder|store", Some("store"))?);
    assert!(rt; has_folder(alloc, "run|--folder=a=b|--machines|2", Some("a=b"))?);
    assert!(rt; has_folder(alloc, "run|--machines|2", None)?);
    assert!(rt; has_folder(alloc, "run", None)?);
    assert!(rt; has_folder(alloc, "check|--volumes|2|--folder|store", Some("store"))?);
    Ok(())
}
