use kdb_base::{Etype, Master, Masters, PlainKey};
use kdb_format::Reader;
use stash_file::{
    Entry, StashFault, has_key, is_end, read_entries, read_piece, read_stash, write_stash,
};
use std::alloc::Global;
use std::process::Abort;
use std::test::*;

const KEY: &[u8] = b"0123456789abcdef";

const LONG_KEY: &[u8] = b"0123456789abcdefghijklmnopqrstuv";

const START: &[u8] = b"\x05\x02";

// The size of an entry of K/M, the entry with the 8-bit version 2 and a key of type 17, and the size of
// one that has a 32-bit version besides. 1700000000 is 6553f100 in hexadecimal.
const SIZE: &[u8] = b"\0\0\0\x28";

const ENTRY: &[u8] =
    b"\0\x02\0\x01R\0\x01K\0\x01M\0\0\0\x01\x65\x53\xf1\0\x02\0\x11\0\x100123456789abcdef";

const WIDE_SIZE: &[u8] = b"\0\0\0\x2c";

const SHA2_ENTRY: &[u8] =
    b"\0\x02\0\x01R\0\x01K\0\x01M\0\0\0\x01\x65\x53\xf1\0\x02\0\x13\0\x100123456789abcdef";

const SHORT_SHA2_KEY: &[u8] =
    b"\0\x02\0\x01R\0\x01K\0\x01M\0\0\0\x01\x65\x53\xf1\0\x02\0\x14\0\x100123456789abcdef";

// The same of K/A, of a key of type 23, and with a byte of the key left out.
const OTHER: &[u8] =
    b"\0\x02\0\x01R\0\x01K\0\x01A\0\0\0\x01\x65\x53\xf1\0\x02\0\x11\0\x100123456789abcdef";

const SHORT_OTHER: &[u8] =
    b"\0\x02\0\x01R\0\x01K\0\x01A\0\0\0\x01\x65\x53\xf1\0\x02\0\x11\0\x0f0123456789abcde";

const TYPE_23: &[u8] =
    b"\0\x02\0\x01R\0\x01K\0\x01M\0\0\0\x01\x65\x53\xf1\0\x02\0\x17\0\x100123456789abcdef";

const SHORT_KEY: &[u8] =
    b"\0\x02\0\x01R\0\x01K\0\x01M\0\0\0\x01\x65\x53\xf1\0\x02\0\x11\0\x0f0123456789abcdef";

fn joined(alloc: Global, parts: &[&[u8]]) -> Result<Vec<u8>, Fail> {
    let mut out = Vec::new(alloc);
    for part in parts {
        out.extend_from_slice(part)?;
    }
    Ok(out)
}

#[test]
fn one_key_is_written(rt: HostRuntime) -> Result<(), Fail> {
    let key = PlainKey::from_bytes(Etype::Aes256, LONG_KEY);
    let masters = Masters::from_vec(vec![in rt.alloc(); Master { version: 1, key }]?);
    let stash = write_stash(rt.alloc(), b"EXAMPLE.ORG", 1700000000, &masters)?;
    let parts = [
        START,
        b"\0\0\0\x46\0\x02\0\x0bEXAMPLE.ORG\0\x01K\0\x01M\0\0\0\x01",
        b"\x65\x53\xf1\0\x01\0\x12\0\x20",
        LONG_KEY,
        b"\0\0\0\x01",
    ];
    assert_eq!(rt; stash.len(), 76);
    assert_eq!(rt; stash.as_slice(), joined(rt.alloc(), &parts)?.as_slice());
    Ok(())
}

/// A stash of these parts has a key of this version, or none.
fn check_stash(
    rt: &impl Abort,
    alloc: Global,
    parts: &[&[u8]],
    version: Option<u32>,
) -> Result<(), Fail> {
    let stash = joined(alloc, parts)?;
    let list = read_stash(alloc, &stash)?;
    let keys = list.as_slice();
    assert_eq!(rt; keys.first().map(|key| key.version), version);
    assert!(rt; keys.len() <= 1);
    Ok(())
}

/// The parts of a stash, and the version of its key.
const STASHES: [(&[&[u8]], Option<u32>); 10] = [
    (&[START], None),
    (&[START, SIZE, ENTRY], Some(2)),
    (&[START, WIDE_SIZE, ENTRY, b"\0\0\0\0"], Some(2)),
    (&[START, WIDE_SIZE, ENTRY, b"\0\0\x01\x02"], Some(258)),
    // A hole of three bytes.
    (&[START, b"\xff\xff\xff\xfdabc", SIZE, ENTRY], Some(2)),
    (&[START, SIZE, ENTRY, b"\0\0\0\0rubbish"], Some(2)),
    (&[START, SIZE, SHA2_ENTRY], Some(2)),
    (&[START, b"\0\0\0\0", SIZE, ENTRY], None),
    (&[START, SIZE, OTHER, SIZE, ENTRY], Some(2)),
    (&[START, SIZE, TYPE_23, SIZE, ENTRY], Some(2)),
];

#[test]
fn what_is_a_stash(rt: HostRuntime) -> Result<(), Fail> {
    for (parts, version) in STASHES.iter() {
        check_stash(&rt, rt.alloc(), parts, *version)?;
    }
    Ok(())
}

fn check_no_stash(rt: &impl Abort, alloc: Global, parts: &[&[u8]], place: u64) -> Result<(), Fail> {
    let stash = joined(alloc, parts)?;
    assert_eq!(rt;
        read_stash(alloc, &stash).err(),
        Some(StashFault::BadStash { place })
    );
    Ok(())
}

/// Parts of what is no stash, and the place of the fault.
const NO_STASHES: [(&[&[u8]], u64); 11] = [
    (&[b""], 0),
    (&[b"\x05"], 0),
    (&[b"\x05\x01", SIZE, ENTRY], 0),
    (&[START, SIZE, ENTRY, SIZE, SHORT_KEY], 46),
    (&[START, SIZE, SHORT_SHA2_KEY], 2),
    (&[START, b"\0\0\0\x46", &[0; 69]], 2),
    // The entry ends inside its key, and the file inside the entry.
    (&[START, b"\0\0\0\x27", ENTRY], 2),
    (&[START, WIDE_SIZE, ENTRY], 2),
    (&[START, b"\0\0\0\x27", OTHER], 2),
    (&[START, b"\xff\xff\xff\xfdab"], 2),
    (&[START, SIZE, ENTRY, b"\0\0\0"], 46),
];

#[test]
fn what_is_no_stash(rt: HostRuntime) -> Result<(), Fail> {
    for (parts, place) in NO_STASHES.iter() {
        check_no_stash(&rt, rt.alloc(), parts, *place)?;
    }
    Ok(())
}

fn check_entry(rt: &impl Abort, entry: &Entry) {
    assert!(rt; has_key(entry));
    assert_eq!(rt; entry.realm.as_slice(), b"R".as_slice());
    assert_eq!(rt; entry.parts.len(), 2);
    assert_eq!(rt; (entry.name_type, entry.time), (1, 1_700_000_000));
    assert_eq!(rt; (entry.version, entry.key_type), (2, 17));
    assert_eq!(rt;
        (entry.key.as_slice(), entry.bytes.as_slice()),
        (KEY, OTHER)
    );
}

#[test]
fn an_entry_is_told(rt: HostRuntime) -> Result<(), Fail> {
    let file = joined(rt.alloc(), &[b"\0\0\0\x28", OTHER, b"\0\0\0\0"])?;
    let mut reader = Reader::new(&file);
    assert!(rt; !is_end(&reader));
    let entry = read_piece(rt.alloc(), &mut reader)?;
    assert!(rt; is_end(&reader));
    assert!(rt; entry.is_some());
    if let Some(entry) = &entry {
        check_entry(&rt, entry);
    }
    Ok(())
}

fn check_two_entries(rt: &impl Abort, alloc: Global) -> Result<(), Fail> {
    let file = joined(alloc, &[START, SIZE, OTHER, SIZE, TYPE_23])?;
    let entries = read_entries(alloc, &file)?;
    assert_eq!(rt; entries.len(), 2);
    Ok(())
}

/// A short key of another principal is passed over in a stash, and refused in a keytab.
fn check_short_key(rt: &impl Abort, alloc: Global) -> Result<(), Fail> {
    let file = joined(alloc, &[START, SIZE, ENTRY, b"\0\0\0\x27", SHORT_OTHER])?;
    assert_eq!(rt;
        read_entries(alloc, &file).err(),
        Some(StashFault::BadStash { place: 46 })
    );
    let list = read_stash(alloc, &file)?;
    assert_eq!(rt; list.as_slice().len(), 1);
    Ok(())
}

#[test]
fn entries_of_a_keytab(rt: HostRuntime) -> Result<(), Fail> {
    check_two_entries(&rt, rt.alloc())?;
    check_short_key(&rt, rt.alloc())
}

#[test]
fn two_keys_are_read_back(rt: HostRuntime) -> Result<(), Fail> {
    let old = PlainKey::from_bytes(Etype::Aes128, KEY);
    let new = PlainKey::from_bytes(Etype::Aes256, LONG_KEY);
    let masters = Masters::from_vec(vec![in rt.alloc();
        Master {
            version: 1,
            key: old
        },
        Master {
            version: 258,
            key: new
        },
    ]?);
    let stash = write_stash(rt.alloc(), b"R", 0, &masters)?;
    let keys = read_stash(rt.alloc(), stash.as_slice())?.into_vec();
    assert_eq!(rt; keys.len(), 2);
    assert_eq!(rt; (keys[0].version, keys[0].key.as_slice()), (258, LONG_KEY));
    assert_eq!(rt; (keys[1].version, keys[1].key.as_slice()), (1, KEY));
    Ok(())
}
