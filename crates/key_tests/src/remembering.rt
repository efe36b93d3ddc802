use kdb_base::{Blob, Etype, MemoryOut, PlainKey, Salt};
use plain_keys::{
    Etypes, NewKeys, PlainItem, PlainItems, PlainSet, PlainSets, is_reused, items_of, made_keys,
    newest_keys, newest_kvno, normal_salt, password_keys, random_keys, remembered, settled_salt,
};
use princ_name::{Name, parse_name};
use std::alloc::Global;
use std::process::Abort;
use std::test::Fail;

fn key_of(etype: Etype, byte: u8) -> PlainKey {
    PlainKey::from_bytes(etype, &[byte; 32][..etype.key_len()])
}

fn salt(alloc: Global) -> Result<Blob, Fail> {
    let name = parse_name(alloc, b"raeburn@ATHENA.MIT.EDU", b"R")?;
    Ok(normal_salt(alloc, &name)?)
}

/// RFC 8009, appendix A: 16 bytes stand before that salt.
fn whole_salt(alloc: Global, salt: &[u8]) -> Result<Vec<u8>, Fail> {
    let mut whole = b"\x10\xdf\x9d\xd7\x83\xe5\xbc\x8a\xce\xa1\x73\x0e\x74\x35\x5f\x61".to_vec(
        alloc,
    )?;
    whole.extend_from_slice(salt)?;
    Ok(whole)
}

fn check_password(rt: &impl Abort, alloc: Global, salt: &[u8]) -> Result<(), Fail> {
    let keys = password_keys(alloc, b"password", salt, &[Etype::Aes128Sha2])?;
    let key = keys.as_slice().first().ok_or("no key")?;
    assert_eq!(rt;
        key.as_slice(),
        b"\x08\x9b\xca\x48\xb1\x05\xea\x6e\xa7\x7c\xa5\xd2\xf3\x9d\xc5\xe7".as_slice()
    );
    Ok(())
}

#[test]
fn a_password_has_its_keys(rt: HostRuntime) -> Result<(), Fail> {
    let salt = salt(rt.alloc())?;
    assert_eq!(rt; salt.as_slice(), b"ATHENA.MIT.EDUraeburn".as_slice());
    let whole = whole_salt(rt.alloc(), salt.as_slice())?;
    check_password(&rt, rt.alloc(), whole.as_slice())
}

/// The bytes 0 to 95.
fn block() -> [u8; 96] {
    let mut block = [0; 96];
    for at in 0..96usize {
        block[at] = at as u8;
    }
    block
}

#[test]
fn random_keys_take_their_bytes(rt: HostRuntime) -> Result<(), Fail> {
    let alloc = rt.alloc();
    let etypes = [Etype::Aes128, Etype::Aes256];
    let keys = random_keys(alloc, &block(), &etypes)?.into_vec();
    assert_eq!(rt; keys.len(), 2);
    // 16 bytes of a confounder stand behind the first key.
    assert_eq!(rt; keys[0].as_slice().first(), Some(&0));
    assert_eq!(rt; keys[1].as_slice().first(), Some(&32));
    assert_eq!(rt; keys[1].as_slice().last(), Some(&63));
    let fresh = items_of(alloc, 3, &keys)?;
    assert_eq!(rt; newest_kvno(fresh.as_slice()), 3);
    Ok(())
}

/// The keys of a password in two types, as version `kvno`.
fn password_items(alloc: Global, kvno: u16, password: u8) -> Result<PlainItems, MemoryOut> {
    items_of(
        alloc,
        kvno,
        &[
            key_of(Etype::Aes256, password),
            key_of(Etype::Aes128, password),
        ],
    )
}

/// The first password, as it is remembered.
fn first_remembered(alloc: Global) -> Result<PlainSets, Fail> {
    let first = password_items(alloc, 1, 1)?;
    Ok(remembered(alloc, 2, first.as_slice(), &[])?)
}

/// Which keys were in use while these stand behind the old ones.
fn check_used(rt: &impl Abort, keys: &[PlainItem], old: &[PlainSet]) {
    // The standing password and the one before it were in use. The same bytes in another type are another key.
    let rows = [
        (key_of(Etype::Aes256, 2), true),
        (key_of(Etype::Aes128, 1), true),
        (key_of(Etype::Aes128Sha2, 1), false),
        (key_of(Etype::Aes256, 3), false),
    ];
    for (key, used) in rows {
        assert_eq!(rt; is_reused(&[key], keys, old), used);
    }
}

/// The second password is remembered in place of the first.
fn check_next(
    rt: &impl Abort,
    alloc: Global,
    keys: &[PlainItem],
    old: &[PlainSet],
) -> Result<(), Fail> {
    let next = remembered(alloc, 2, keys, old)?;
    assert_eq!(rt; next.as_slice().len(), 1);
    assert!(rt; !is_reused(&[key_of(Etype::Aes256, 1)], &[], next.as_slice()));
    assert!(rt; is_reused(&[key_of(Etype::Aes256, 2)], &[], next.as_slice()));
    Ok(())
}

/// A history of one remembers none, and both keys are the newest.
fn check_none(
    rt: &impl Abort,
    alloc: Global,
    keys: &[PlainItem],
    old: &[PlainSet],
) -> Result<(), Fail> {
    let none = remembered(alloc, 1, keys, old)?;
    assert_eq!(rt; none.as_slice().len(), 0);
    let newest = newest_keys(alloc, keys)?;
    assert_eq!(rt; newest.as_slice().len(), 2);
    Ok(())
}

/// What is remembered of the second password behind the old ones.
fn check_second(rt: &impl Abort, alloc: Global, old: &[PlainSet]) -> Result<(), Fail> {
    let second = password_items(alloc, 2, 2)?;
    check_used(rt, second.as_slice(), old);
    check_next(rt, alloc, second.as_slice(), old)?;
    check_none(rt, alloc, second.as_slice(), old)
}

#[test]
fn a_history_of_two_remembers_one_password(rt: HostRuntime) -> Result<(), Fail> {
    let old = first_remembered(rt.alloc())?;
    check_second(&rt, rt.alloc(), old.as_slice())
}

/// A salt that is settled stays so.
fn check_settled(rt: &impl Abort, alloc: Global, name: &Name, settled: &Salt) -> Result<(), Fail> {
    let again = settled_salt(alloc, name, settled)?;
    assert!(rt; again == *settled);
    Ok(())
}

/// The salt of the name, and that it settles to itself.
fn check_salt(rt: &impl Abort, alloc: Global, name: &Name) -> Result<(), Fail> {
    let wanted = Salt::Special(Blob::from_bytes(alloc, b"Rhosta")?);
    let settled = settled_salt(alloc, name, &Salt::Normal)?;
    assert!(rt; settled == wanted);
    check_settled(rt, alloc, name, &settled)
}

/// One type asks for one key.
fn check_made(rt: &impl Abort, alloc: Global, name: &Name) -> Result<(), Fail> {
    let random = NewKeys::Random(Etypes::from_vec(vec![in alloc; Etype::Aes128]?));
    let made = made_keys(alloc, &[0; 32], name, &random)?;
    assert_eq!(rt; made.as_slice().len(), 1);
    Ok(())
}

#[test]
fn a_new_name_keeps_its_salt(rt: HostRuntime) -> Result<(), Fail> {
    let name = parse_name(rt.alloc(), b"host/a@R", b"R")?;
    check_salt(&rt, rt.alloc(), &name)?;
    check_made(&rt, rt.alloc(), &name)
}
