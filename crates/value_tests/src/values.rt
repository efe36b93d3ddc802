//! Words and the values that they spell: numbers, durations, times, flags and encryption types; and
//! a point as text.

use kadm_values::{
    FlagChange, flags_in, print_time, push_point, read_duration, read_etype, read_etypes,
    read_flag, read_number, read_time, with_flags,
};
use kdb_base::{Etype, Point, Time};
use std::test::Fail;

// Dates of the Gregorian calendar with the seconds that `date -u` of GNU coreutils gives for them.
#[test]
fn times_both_ways(rt: HostRuntime) -> Result<(), Fail> {
    let known: [(&str, u32); 5] = [
        ("1970-01-01T00:00:00Z", 0),
        ("2000-02-29T12:30:45Z", 951_827_445),
        ("2023-11-14T22:13:20Z", 1_700_000_000),
        ("2100-03-01T00:00:00Z", 4_107_542_400),
        ("2106-02-07T06:28:15Z", 4_294_967_295),
    ];
    for (text, secs) in known {
        assert_eq!(rt; read_time(text.as_bytes()), Some(secs), "{text}");
        assert_eq!(rt; print_time(secs).as_slice(), text.as_bytes(), "{secs}");
    }
    Ok(())
}

#[test]
fn other_times(rt: HostRuntime) -> Result<(), Fail> {
    let known: [(&str, Option<u32>); 12] = [
        ("never", Some(0)),
        ("0", Some(0)),
        ("0000000017", Some(17)),
        ("4294967295", Some(4_294_967_295)),
        ("4294967296", None),
        ("00000000017", None),
        ("2023-02-29T00:00:00Z", None),
        ("2100-02-29T00:00:00Z", None),
        ("2016-12-31T23:59:60Z", None),
        ("1969-12-31T23:59:59Z", None),
        ("2106-02-07T06:28:16Z", None),
        ("2023-11-14t22:13:20Z", None),
    ];
    for (text, secs) in known {
        assert_eq!(rt; read_time(text.as_bytes()), secs, "{text}");
    }
    Ok(())
}

#[test]
fn numbers_and_durations(rt: HostRuntime) -> Result<(), Fail> {
    assert_eq!(rt; read_number(b"9999999999"), Some(9_999_999_999));
    assert_eq!(rt; read_number(b""), None);
    assert_eq!(rt; read_number(b"1x"), None);
    let known: [(&str, Option<u32>); 9] = [
        ("3600", Some(3_600)),
        ("1d2h3m4s", Some(93_784)),
        ("1d4s", Some(86_404)),
        ("000000000000000000000090m", Some(5_400)),
        ("4294967295s", Some(4_294_967_295)),
        ("49711d", None),
        ("2h1d", None),
        ("1h1h", None),
        ("h", None),
    ];
    for (text, secs) in known {
        assert_eq!(rt; read_duration(text.as_bytes()), secs, "{text}");
    }
    Ok(())
}

fn change(set: bool, bit: u32) -> Option<FlagChange> {
    Some(FlagChange { set, bit })
}

#[test]
fn flags(rt: HostRuntime) -> Result<(), Fail> {
    assert_eq!(rt; read_flag(b"+requires_preauth"), change(true, 0x80));
    assert_eq!(rt; read_flag(b"-requires_preauth"), change(false, 0x80));
    assert_eq!(rt; read_flag(b"-allow_tix"), change(true, 0x40));
    assert_eq!(rt; read_flag(b"+allow_tix"), change(false, 0x40));
    assert_eq!(rt; read_flag(b"+allow"), None);
    assert_eq!(rt; read_flag(b""), None);
    let set = flags_in(rt.alloc(), 0x2280).expect(&rt, "memory");
    assert_eq!(rt; set.len(), 3);
    assert_eq!(rt; set[0].word, b"requires_preauth".as_slice());
    assert_eq!(rt; set[1].bit, 0x200);
    assert!(rt; set[2].plus_sets);
    let changes = [
        FlagChange {
            set: true,
            bit: 0x80,
        },
        FlagChange {
            set: false,
            bit: 0x40,
        },
        FlagChange {
            set: false,
            bit: 0x80,
        },
    ];
    assert_eq!(rt; with_flags(0x2c0, &changes), 0x200);
    Ok(())
}

// Words, and texts near them that are none.
const WORDS: [(&str, Option<Etype>); 8] = [
    ("aes256-cts-hmac-sha1-96", Some(Etype::Aes256)),
    ("aes128-cts", Some(Etype::Aes128)),
    ("aes256-sha2", Some(Etype::Aes256Sha2)),
    ("aes128-cts-hmac-sha256-128", Some(Etype::Aes128Sha2)),
    ("aes256-cts-hmac-sha384-19", None),
    ("AES256-CTS", None),
    ("aes256-cts:normal", None),
    ("", None),
];

// Lists, with how many types they have and the first one, and texts near them that are none.
const LISTS: [(&str, Option<(usize, Etype)>); 9] = [
    ("aes256-cts,aes128-cts", Some((2, Etype::Aes256))),
    (
        "aes128-sha2:normal,aes256-sha1",
        Some((2, Etype::Aes128Sha2)),
    ),
    ("aes256-sha2", Some((1, Etype::Aes256Sha2))),
    ("aes256-cts,aes256-sha1", None),
    ("aes256-cts,", None),
    ("", None),
    ("aes256-cts:special", None),
    ("aes256-cts:normal:normal", None),
    ("aes256-cts, aes128-cts", None),
];

#[test]
fn encryption_types(rt: HostRuntime) -> Result<(), Fail> {
    for (word, etype) in WORDS {
        assert_eq!(rt; read_etype(word.as_bytes()), etype, "{word}");
    }
    for (text, told) in LISTS {
        let found = read_etypes(rt.alloc(), text.as_bytes()).expect(&rt, "memory");
        match found {
            Some(etypes) => assert_eq!(rt; Some((etypes.len(), etypes[0])), told, "{text}"),
            None => assert_eq!(rt; None, told, "{text}"),
        }
    }
    Ok(())
}

#[test]
fn points(rt: HostRuntime) -> Result<(), Fail> {
    let mut text = Vec::new(rt.alloc());
    let point = Point {
        sno: 7,
        time: Time::new(1_700_000_000, 42),
    };
    push_point(rt.alloc(), &mut text, &point).expect(&rt, "memory");
    assert_eq!(rt; text.as_slice(), b"7 1700000000.000042".as_slice());
    Ok(())
}
