use kdb_base::{Blob, Salt};
use policy_rules::Policy;
use princ_record::{
    Princ, RowFault, copy, copy_policy, decode, decode_policy, encode, encode_policy, encoded_len,
    is_row, is_row_1,
};
use std::alloc::Global;
use std::process::Abort;
use std::test::*;

const ALICE: &[u8] = b"\0\x07alice@R";

const MASTER: &[u8] = b"\0\x05K/M@R";

// +requires_preauth.
const PREAUTH: &[u8] = b"\0\0\0\x80";

// An hour, two hours, never, and the last second.
const LIVES: &[u8] = b"\0\0\x0e\x10\0\0\x1c\x20\0\0\0\0\xff\xff\xff\xff";

// 1700000000 is 6553f100 in hexadecimal, and a tagged list has its lowest byte first.
const TAGS: &[u8] =
    b"\0\x03\0\x01\0\x04\0\xf1\x53\x65\0\x02\0\x08\0\xf1\x53\x65a@R\0\0\x08\0\x02\x01\0";

const MASTER_TAGS: &[u8] =
    b"\0\x04\0\x02\0\x08\0\xf1\x53\x65a@R\0\0\x08\0\x02\x02\0\0\x09\0\x06\x01\0\0\xf1\x53\x65\0\x0a\0\x09\x01\0\x12\0\x03\0xyz";

const TWO_KEYS: &[u8] = b"\0\x02\0\x02\0\x12\0\0\0\0\0\x03xyz\0\x02\0\x11\0\x04\0\x01s\0\x02uv";

// The master keys of versions 2 and 1.
const MASTER_KEYS: &[u8] = b"\0\x02\0\x02\0\x14\0\0\0\0\0\x03xyz\0\x01\0\x11\0\0\0\0\0\x02uv";

// Four items, of which the last has two attributes.
const STRING_TAGS: &[u8] =
    b"\0\x04\0\x01\0\x04\0\xf1\x53\x65\0\x02\0\x08\0\xf1\x53\x65a@R\0\0\x08\0\x02\x01\0\0\x0b\0\x09a\0b c\0d\0\0";

// No password change, and an attribute.
const FRESH_TAGS: &[u8] =
    b"\0\x03\0\x02\0\x08\0\xf1\x53\x65a@R\0\0\x08\0\x02\x01\0\0\x0b\0\x04a\0b\0";

const ONE_KEY: &[u8] = b"\0\x01\0\x07\0\x12\0\x04\0\x01s\0\x03xyz";

const NO_KEYS: &[u8] = b"\0\0";

const POLICY: &[u8] = b"\0\x03std";

const NO_POLICY: &[u8] = b"\0\0";

const OLD: &[u8] = b"\0\x02\0\x01\0\x01\0\x12\0\x02op\0\x09\0\0";

const NO_OLD: &[u8] = b"\0\0";

fn joined(alloc: Global, parts: &[&[u8]]) -> Result<Vec<u8>, Fail> {
    let mut out = Vec::new(alloc);
    for part in parts {
        out.extend_from_slice(part)?;
    }
    Ok(out)
}

/// Whether a row is written as it was read, with as many bytes as are told.
fn is_written_back(alloc: Global, bytes: &[u8]) -> Result<bool, Fail> {
    let princ = decode(alloc, bytes)?;
    let text = encode(alloc, &princ)?;
    Ok(encoded_len(&princ) == bytes.len() && text.as_slice() == bytes)
}

fn is_equal_to_its_copy(alloc: Global, princ: &Princ) -> Result<bool, Fail> {
    let again = copy(alloc, princ)?;
    Ok(again == *princ)
}

/// Whether a copy of what a row says is equal to it.
fn is_copied(alloc: Global, bytes: &[u8]) -> Result<bool, Fail> {
    let princ = decode(alloc, bytes)?;
    is_equal_to_its_copy(alloc, &princ)
}

/// A row of these parts is written as it was read, and copied.
fn check_written(rt: &impl Abort, alloc: Global, parts: &[&[u8]]) -> Result<(), Fail> {
    let bytes = joined(alloc, parts)?;
    assert!(rt; is_written_back(alloc, &bytes)?, "{bytes:?}");
    assert!(rt; is_copied(alloc, &bytes)?, "{bytes:?}");
    Ok(())
}

/// Bytes of these parts are refused so, or are a row.
fn check_fault(
    rt: &impl Abort,
    alloc: Global,
    parts: &[&[u8]],
    fault: Option<RowFault>,
) -> Result<(), Fail> {
    let bytes = joined(alloc, parts)?;
    assert_eq!(rt; decode(alloc, &bytes).err(), fault, "{bytes:?}");
    Ok(())
}

const ROWS: [[&[u8]; 7]; 4] = [
    [ALICE, PREAUTH, LIVES, TAGS, TWO_KEYS, POLICY, OLD],
    [ALICE, PREAUTH, LIVES, TAGS, ONE_KEY, NO_POLICY, NO_OLD],
    [
        MASTER,
        PREAUTH,
        LIVES,
        MASTER_TAGS,
        MASTER_KEYS,
        NO_POLICY,
        NO_OLD,
    ],
    [
        b"\0\x04\\/@R",
        PREAUTH,
        LIVES,
        TAGS,
        NO_KEYS,
        NO_POLICY,
        NO_OLD,
    ],
];

#[test]
fn a_principal_is_written_and_copied(rt: HostRuntime) -> Result<(), Fail> {
    for row in ROWS.iter() {
        check_written(&rt, rt.alloc(), row)?;
    }
    Ok(())
}

/// The principal of these parts.
fn princ_of(alloc: Global, parts: &[&[u8]]) -> Result<Princ, Fail> {
    let bytes = joined(alloc, parts)?;
    Ok(decode(alloc, &bytes)?)
}

fn check_read(rt: &impl Abort, alloc: Global, parts: &[&[u8]]) -> Result<(), Fail> {
    let princ = princ_of(alloc, parts)?;
    assert_eq!(rt;
        (princ.attributes, princ.max_life, princ.max_renew),
        (0x80, 3600, 7200)
    );
    assert_eq!(rt;
        (princ.expire, princ.pw_expire, princ.modified),
        (0, u32::MAX, 1700000000)
    );
    Ok(())
}

#[test]
fn a_principal_is_read(rt: HostRuntime) -> Result<(), Fail> {
    for row in ROWS.iter() {
        check_read(&rt, rt.alloc(), row)?;
    }
    Ok(())
}

fn check_key(rt: &impl Abort, princ: &Princ) -> Result<(), Fail> {
    if let [key] = princ.keys.as_slice() {
        assert_eq!(rt; (key.kvno, key.etype.number()), (7, 18));
        assert!(rt;
            matches!(&key.salt, Salt::Special(bytes) if bytes.as_slice() == b"s".as_slice())
        );
        assert_eq!(rt; key.wrapped.as_slice(), b"xyz".as_slice());
        Ok(())
    } else {
        Err(Fail::from("not one key"))
    }
}

#[test]
fn a_key_is_read(rt: HostRuntime) -> Result<(), Fail> {
    let row = [ALICE, PREAUTH, LIVES, TAGS, ONE_KEY, NO_POLICY, NO_OLD];
    let princ = princ_of(rt.alloc(), &row)?;
    check_key(&rt, &princ)
}

const WRONG: [[&[u8]; 7]; 10] = [
    // A byte behind the row, and one too few.
    [ALICE, PREAUTH, LIVES, TAGS, ONE_KEY, POLICY, b"\0\0x"],
    [ALICE, PREAUTH, LIVES, TAGS, ONE_KEY, POLICY, b"\0"],
    // A bit that no flag has.
    [ALICE, b"\0\0\x04\x80", LIVES, TAGS, ONE_KEY, POLICY, NO_OLD],
    // The items of K/M missing there, and standing elsewhere.
    [MASTER, PREAUTH, LIVES, TAGS, ONE_KEY, POLICY, NO_OLD],
    [ALICE, PREAUTH, LIVES, MASTER_TAGS, ONE_KEY, POLICY, NO_OLD],
    // A key of version 0.
    [
        ALICE,
        PREAUTH,
        LIVES,
        TAGS,
        b"\0\x01\0\0\0\x12\0\0\0\0\0\x01x",
        POLICY,
        NO_OLD,
    ],
    // Versions that rise.
    [
        ALICE,
        PREAUTH,
        LIVES,
        TAGS,
        b"\0\x02\0\x01\0\x12\0\0\0\0\0\x01x\0\x02\0\x12\0\0\0\0\0\x01y",
        POLICY,
        NO_OLD,
    ],
    // Two keys of one version and one type.
    [
        ALICE,
        PREAUTH,
        LIVES,
        TAGS,
        b"\0\x02\0\x02\0\x12\0\0\0\0\0\x01x\0\x02\0\x12\0\0\0\0\0\x01y",
        POLICY,
        NO_OLD,
    ],
    // A normal salt with a byte.
    [
        ALICE,
        PREAUTH,
        LIVES,
        TAGS,
        b"\0\x01\0\x02\0\x12\0\0\0\x01s\0\x01x",
        POLICY,
        NO_OLD,
    ],
    // What is no policy's name.
    [ALICE, PREAUTH, LIVES, TAGS, ONE_KEY, b"\0\x04.std", NO_OLD],
];

#[test]
fn what_is_no_principal(rt: HostRuntime) -> Result<(), Fail> {
    for row in WRONG.iter() {
        check_fault(&rt, rt.alloc(), row, Some(RowFault::BadRecord))?;
    }
    Ok(())
}

/// A row with these tags tells of a change of the password, and of so many attributes.
fn check_tags(
    rt: &impl Abort,
    alloc: Global,
    tags: &[u8],
    set: Option<u32>,
    count: usize,
) -> Result<(), Fail> {
    let bytes = joined(
        alloc,
        &[ALICE, PREAUTH, LIVES, tags, ONE_KEY, POLICY, NO_OLD],
    )?;
    let princ = decode(alloc, &bytes)?;
    assert_eq!(rt; princ.pw_changed, set);
    assert_eq!(rt; princ.strings.as_slice().len(), count);
    assert!(rt; is_row(&princ) && !is_row_1(&princ));
    Ok(())
}

#[test]
fn a_row_with_attributes(rt: HostRuntime) -> Result<(), Fail> {
    check_tags(&rt, rt.alloc(), STRING_TAGS, Some(1700000000), 2)?;
    check_tags(&rt, rt.alloc(), FRESH_TAGS, None, 1)
}

#[test]
fn a_row_with_attributes_is_written_and_copied(rt: HostRuntime) -> Result<(), Fail> {
    for tags in &[STRING_TAGS, FRESH_TAGS] {
        check_written(
            &rt,
            rt.alloc(),
            &[ALICE, PREAUTH, LIVES, tags, ONE_KEY, POLICY, NO_OLD],
        )?;
    }
    Ok(())
}

fn is_refused(alloc: Global, name: &[u8], tags: &[u8], keys: &[u8]) -> Result<bool, Fail> {
    let bytes = joined(
        alloc,
        &[name, PREAUTH, LIVES, tags, keys, NO_POLICY, NO_OLD],
    )?;
    Ok(decode(alloc, &bytes).err() == Some(RowFault::BadRecord))
}

const ITEMS: &[u8] = b"\0\x02\0\x08\0\xf1\x53\x65a@R\0\0\x08\0\x02\x01\0";

/// Tags with so many items counted, and this behind two of them.
fn check_items(rt: &impl Abort, alloc: Global, count: &[u8], item: &[u8]) -> Result<(), Fail> {
    let tags = joined(alloc, &[count, ITEMS, item])?;
    assert!(rt; is_refused(alloc, ALICE, &tags, ONE_KEY)?, "{tags:?}");
    Ok(())
}

/// Seventeen attributes of four bytes are 44 bytes in hexadecimal.
fn many_tags(alloc: Global) -> Result<Vec<u8>, Fail> {
    let mut tags = joined(alloc, &[b"\0\x03", ITEMS, b"\0\x0b\0\x44"])?;
    for i in 0..17u8 {
        tags.extend_from_slice(&[b'a', b'a' + i, 0, 0])?;
    }
    Ok(tags)
}

/// How many items are counted, and what stands behind them.
const WRONG_ITEMS: [(&[u8], &[u8]); 7] = [
    // An item of no attribute, keys that fall, and equal ones.
    (b"\0\x03", b"\0\x0b\0\0"),
    (b"\0\x03", b"\0\x0b\0\x06b\0\0a\0\0"),
    (b"\0\x03", b"\0\x0b\0\x06a\0\0a\0\0"),
    // An item that is counted and missing, one that is not counted, and one too many.
    (b"\0\x03", b""),
    (b"\0\x02", b"\0\x0b\0\x04a\0b\0"),
    (b"\0\x04", b"\0\x0b\0\x04a\0b\0"),
    // Another type in its place.
    (b"\0\x03", b"\0\x0a\0\x04a\0b\0"),
];

#[test]
fn what_is_no_row_with_attributes(rt: HostRuntime) -> Result<(), Fail> {
    for (count, item) in WRONG_ITEMS.iter() {
        check_items(&rt, rt.alloc(), count, item)?;
    }
    let tags = many_tags(rt.alloc())?;
    assert!(rt; is_refused(rt.alloc(), ALICE, &tags, ONE_KEY)?);
    Ok(())
}

const WRONG_KEYS: [&[u8]; 4] = [
    // No keys, rising ones, two of one version, and another version than the record's.
    NO_KEYS,
    b"\0\x02\0\x02\0\x12\0\0\0\0\0\x01x\0\x03\0\x12\0\0\0\0\0\x01y",
    b"\0\x02\0\x02\0\x12\0\0\0\0\0\x01x\0\x02\0\x11\0\0\0\0\0\x01y",
    b"\0\x01\0\x03\0\x12\0\0\0\0\0\x01x",
];

#[test]
fn what_are_no_keys_of_the_master(rt: HostRuntime) -> Result<(), Fail> {
    assert!(rt; !is_refused(rt.alloc(), MASTER, MASTER_TAGS, MASTER_KEYS)?);
    for keys in WRONG_KEYS.iter() {
        assert!(rt;
            is_refused(rt.alloc(), MASTER, MASTER_TAGS, keys)?,
            "{keys:?}"
        );
    }
    // Attributes of K/M.
    let tags = joined(
        rt.alloc(),
        &[b"\0\x05", &MASTER_TAGS[2..], b"\0\x0b\0\x04a\0b\0"],
    )?;
    assert!(rt; is_refused(rt.alloc(), MASTER, &tags, MASTER_KEYS)?);
    Ok(())
}

/// So many keys of this type, of one byte each and of falling versions.
fn keys_of(alloc: Global, etype: u8, count: u8) -> Result<Vec<u8>, Fail> {
    let mut out = b"\0".to_vec(alloc)?;
    out.push(count)?;
    for older in 0..count {
        out.extend_from_slice(&[0, count - older, 0, etype])?;
        out.extend_from_slice(b"\0\0\0\0\0\x01x")?;
    }
    Ok(out)
}

/// So many remembered sets of a key of this type.
fn sets_of(alloc: Global, etype: u8, count: u8) -> Result<Vec<u8>, Fail> {
    let mut out = b"\0".to_vec(alloc)?;
    out.push(count)?;
    for older in 0..count {
        out.extend_from_slice(&[0, count - older, 0, 1, 0, etype])?;
        out.extend_from_slice(b"\0\x01x")?;
    }
    Ok(out)
}

/// A row with so many keys of a type, and so many remembered sets of one.
fn check_count(
    rt: &impl Abort,
    alloc: Global,
    etype: u8,
    count: u8,
    old: u8,
    sets: u8,
    fault: Option<RowFault>,
) -> Result<(), Fail> {
    let keys = keys_of(alloc, etype, count)?;
    let remembered = sets_of(alloc, old, sets)?;
    check_fault(
        rt,
        alloc,
        &[ALICE, PREAUTH, LIVES, TAGS, &keys, POLICY, &remembered],
        fault,
    )
}

const BAD: Option<RowFault> = Some(RowFault::BadRecord);

/// The type and the number of its keys, and those of what is remembered.
const COUNTS: [(u8, u8, u8, u8, Option<RowFault>); 8] = [
    (17, 32, 18, 15, None),
    (19, 1, 20, 1, None),
    (17, 33, 18, 15, BAD),
    (17, 32, 18, 16, BAD),
    (16, 1, 17, 1, BAD),
    (21, 1, 17, 1, BAD),
    (17, 1, 16, 1, BAD),
    (17, 1, 21, 1, BAD),
];

#[test]
fn how_many_keys_of_which_types(rt: HostRuntime) -> Result<(), Fail> {
    for (etype, count, old, sets, fault) in COUNTS.iter() {
        check_count(&rt, rt.alloc(), *etype, *count, *old, *sets, *fault)?;
    }
    Ok(())
}

const POLICY_ROW: &[u8] = b"\0\x03std\0\0\0\x3c\0\0\0\x0a\0\x08\0\x03\0\x02";

#[test]
fn a_policy_is_read(rt: HostRuntime) -> Result<(), Fail> {
    let policy = decode_policy(rt.alloc(), POLICY_ROW)?;
    assert_eq!(rt; policy.name(), b"std".as_slice());
    assert_eq!(rt; (policy.max_life(), policy.min_life()), (60, 10));
    assert_eq!(rt;
        (policy.min_length(), policy.min_classes(), policy.history()),
        (8, 3, 2)
    );
    Ok(())
}

fn check_copy(rt: &impl Abort, alloc: Global, policy: &Policy) -> Result<(), Fail> {
    let again: Policy = copy_policy(alloc, policy)?;
    let text: Blob = encode_policy(alloc, &again)?;
    assert_eq!(rt; text.as_slice(), POLICY_ROW);
    Ok(())
}

#[test]
fn a_policy_is_copied_and_written(rt: HostRuntime) -> Result<(), Fail> {
    let policy = decode_policy(rt.alloc(), POLICY_ROW)?;
    check_copy(&rt, rt.alloc(), &policy)
}

#[test]
fn what_is_no_policy(rt: HostRuntime) {
    let wrong: [&[u8]; 7] = [
        // A byte behind the row, and a name that begins with a dot.
        b"\0\x03std\0\0\0\x3c\0\0\0\x0a\0\x08\0\x03\0\x02x",
        b"\0\x03.td\0\0\0\x3c\0\0\0\x0a\0\x08\0\x03\0\x02",
        // A least length of 0, 0 and 6 classes, and a history of 0 and of 17.
        b"\0\x03std\0\0\0\x3c\0\0\0\x0a\0\0\0\x03\0\x02",
        b"\0\x03std\0\0\0\x3c\0\0\0\x0a\0\x08\0\0\0\x02",
        b"\0\x03std\0\0\0\x3c\0\0\0\x0a\0\x08\0\x06\0\x02",
        b"\0\x03std\0\0\0\x3c\0\0\0\x0a\0\x08\0\x03\0\0",
        b"\0\x03std\0\0\0\x3c\0\0\0\x0a\0\x08\0\x03\0\x11",
    ];
    for bytes in &wrong {
        assert_eq!(rt;
            decode_policy(rt.alloc(), bytes).err(),
            Some(RowFault::BadRecord),
            "{bytes:?}"
        );
    }
}
