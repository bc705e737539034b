use hay_needle::{Cookie, Pair};
use hay_url::{Url, UrlFault, cookie_of, read_url, url_text};
use std::test::Fail;

#[test]
fn cookies(rt: HostRuntime) {
    for (key, cookie) in [
        (0, 0x903d_f1a0_ade0_b876),
        (144_115_188_075_855_872, 0x3736_d58c_374d_c6c2),
    ] {
        assert_eq!(rt; cookie_of(&[0; 32], key), Cookie(cookie), "{key}");
    }
}

#[test]
fn urls(rt: HostRuntime) -> Result<(), Fail> {
    let url = Url {
        machine: 2,
        volume: 0,
        pair: Pair {
            key: 144_115_188_075_855_872,
            alt: 1,
        },
        cookie: Cookie(0x3736_d58c_374d_c6c2),
    };
    let text = "http://store/2/0,0200000000000000_00000001_3736d58c374dc6c2";
    let mut out = String::new(rt.alloc());
    url_text(rt.alloc(), &url, &mut out)
        .ok()
        .ok_or("no memory")?;
    assert_eq!(rt; out.as_str(), text);
    let read = read_url(text).ok().ok_or("refused")?;
    assert_eq!(rt; (read.machine, read.volume), (2, 0));
    assert_eq!(rt; (read.pair, read.cookie), (url.pair, url.cookie));
    for (text, at) in [
        ("", 0),
        ("https://store/", 4),
        ("http://store/", 13),
        ("http://store/02/2,", 14),
        ("http://store//2,", 13),
        ("http://store/4294967296/", 22),
        ("http://store/42949672950/", 23),
        ("http://store/2/2_", 16),
        ("http://store/2/2,020000000000000A", 32),
        ("http://store/2/2,02000000000000000", 33),
        (
            "http://store/2/0,0200000000000000_00000001_3736d58c374dc6c2 ",
            59,
        ),
    ] {
        assert_eq!(rt; read_url(text).err(), Some(UrlFault::Bad { at }), "{text}");
    }
    Ok(())
}
