use first_rows::{CreateSpec, first_rows};
use kdb_base::{Etype, Masters, PlainKey, Time};
use master_keys::wrap;
use plain_keys::Password;
use princ_name::{Realm, is_realm};
use princ_record::Princ;
use princ_rows::Rows;
use std::alloc::Global;
use std::process::Abort;
use std::test::*;

/// The numbers from 0 on, over and over.
fn block() -> [u8; 2048] {
    let mut bytes = [0; 2048];
    for (at, byte) in bytes.iter_mut().enumerate() {
        *byte = (at % 256) as u8;
    }
    bytes
}

fn realm(alloc: Global) -> Result<Realm, Fail> {
    let text = b"EXAMPLE.ORG";
    if !is_realm(text) {
        return Err(Fail::from("a realm"));
    }
    Ok(Realm::from_bytes(alloc, text)?)
}

fn spec(alloc: Global, password: Option<Password>, etype: Etype) -> Result<CreateSpec, Fail> {
    let realm = realm(alloc)?;
    Ok(CreateSpec::new(realm, password, etype, 1000))
}

fn created(
    alloc: Global,
    password: Option<Password>,
    etype: Etype,
) -> Result<(Rows, Masters), Fail> {
    let spec = spec(alloc, password, etype)?;
    Ok(first_rows(alloc, &spec, Time::new(1_700_000_000, 0), &block())?)
}

/// The key of this type at this place of the block.
fn key_at(etype: Etype, at: usize) -> Result<PlainKey, Fail> {
    let bytes = block();
    let behind = bytes.get(at..).ok_or("in the block")?;
    let key = behind.get(..etype.key_len()).ok_or("in the block")?;
    Ok(PlainKey::from_bytes(etype, key))
}

/// The 16 bytes at this place of the block.
fn confounder_at(at: usize) -> Result<[u8; 16], Fail> {
    let bytes = block();
    let mut confounder = [0; 16];
    let behind = bytes.get(at..).ok_or("in the block")?;
    confounder.copy_from_slice(behind.get(..16).ok_or("in the block")?);
    Ok(confounder)
}

/// Whether the key at this place of the record is this one, wrapped with the 16 bytes at that place of the block.
fn is_wrapped(
    alloc: Global,
    princ: &Princ,
    index: usize,
    master: &PlainKey,
    key: &PlainKey,
    at: usize,
) -> Result<bool, Fail> {
    let confounder = confounder_at(at)?;
    let item = princ.keys.as_slice().get(index).ok_or("a key")?;
    let blob = wrap(alloc, master, key, &confounder)?;
    Ok(item.kvno == 1 && item.etype == key.etype() && item.wrapped.as_slice() == blob.as_slice())
}

/// A key of a record: its place there, its type, its place in the block, and that of its confounder behind it.
type Drawn = (usize, Etype, usize, usize);

/// The key is that of the block, in a record as it is created.
fn check_drawn(
    rt: &impl Abort,
    alloc: Global,
    princ: &Princ,
    master: &PlainKey,
    drawn: Drawn,
) -> Result<(), Fail> {
    let (index, etype, key_place, confounder_place) = drawn;
    let key = key_at(etype, key_place)?;
    assert!(rt; is_wrapped(alloc, princ, index, master, &key, confounder_place)?);
    assert!(rt; princ.attributes == 0 && princ.expire == 0 && princ.mkvno == 1);
    assert!(rt; princ.modified == 1_700_000_000 && princ.pw_changed == Some(1_700_000_000));
    assert_eq!(rt;
        princ.modifier.as_slice(),
        b"admin/local@EXAMPLE.ORG".as_slice()
    );
    Ok(())
}

/// The rows and the master key of a creation whose keys are all drawn.
fn check_random(
    rt: &impl Abort,
    alloc: Global,
    rows: &Rows,
    masters: &Masters,
) -> Result<(), Fail> {
    let master = key_at(Etype::Aes256, 0)?;
    assert!(rt; matches!(masters.as_slice(), [one] if one.version == 1 && one.key == master));
    assert!(rt; rows.policies().is_empty());
    let [first, second, third] = rows.princs() else {
        return Err(Fail::from("three principals"));
    };
    assert_eq!(rt; first.get().name.as_slice(), b"K/M@EXAMPLE.ORG".as_slice());
    assert_eq!(rt;
        second.get().name.as_slice(),
        b"kadmin/history@EXAMPLE.ORG".as_slice()
    );
    assert_eq!(rt;
        third.get().name.as_slice(),
        b"krbtgt/EXAMPLE.ORG@EXAMPLE.ORG".as_slice()
    );
    let cases = [
        (first.get(), (0, Etype::Aes256, 0, 32)),
        (second.get(), (0, Etype::Aes256, 48, 80)),
        (third.get(), (0, Etype::Aes256, 96, 128)),
        (third.get(), (1, Etype::Aes128, 144, 160)),
    ];
    for (princ, drawn) in cases {
        check_drawn(rt, alloc, princ, &master, drawn)?;
    }
    Ok(())
}

#[test]
fn random_keys_stand_one_after_another(rt: HostRuntime) -> Result<(), Fail> {
    let (rows, masters) = created(rt.alloc(), None, Etype::Aes256)?;
    check_random(&rt, rt.alloc(), &rows, &masters)
}

/// A key of a record: its place there, the key, the place of its confounder in the block, and how long it is wrapped.
type Wrapped = (usize, PlainKey, usize, usize);

fn check_wrapped(
    rt: &impl Abort,
    alloc: Global,
    princ: &Princ,
    master: &PlainKey,
    wrapped: Wrapped,
) -> Result<(), Fail> {
    let (index, key, place, len) = wrapped;
    assert!(rt; is_wrapped(alloc, princ, index, master, &key, place)?);
    let item = princ.keys.as_slice().get(index).ok_or("a key")?;
    assert_eq!(rt; item.wrapped.len(), len);
    Ok(())
}

/// The rows and the master key of a creation by a password.
fn check_by_password(
    rt: &impl Abort,
    alloc: Global,
    rows: &Rows,
    masters: &Masters,
) -> Result<(), Fail> {
    let [one] = masters.as_slice() else {
        return Err(Fail::from("one master key"));
    };
    // RFC 8009, section 4, with the salt EXAMPLE.ORGKM: by PBKDF2 and HMAC of another implementation.
    let key =
        b"\x40\x02\x93\x8d\x96\xd3\x10\xf9\x7c\x16\xec\xe2\xa1\x11\x23\xbd\x79\xd7\x89\xd3\xb6\x82\x33\x09\x5c\x48\x8d\x47\xa7\x7c\xa3\xe3";
    assert_eq!(rt; one.key.as_slice(), key.as_slice());
    let [first, second, third] = rows.princs() else {
        return Err(Fail::from("three principals"));
    };
    let cases = [
        (first.get(), (0, one.key, 0, 74)),
        (second.get(), (0, key_at(Etype::Aes256, 16)?, 48, 74)),
        (third.get(), (0, key_at(Etype::Aes256, 64)?, 96, 74)),
        (third.get(), (1, key_at(Etype::Aes128, 112)?, 128, 58)),
    ];
    for (princ, wrapped) in cases {
        check_wrapped(rt, alloc, princ, &one.key, wrapped)?;
    }
    Ok(())
}

#[test]
fn a_password_takes_none_of_the_block_for_its_key(rt: HostRuntime) -> Result<(), Fail> {
    let password = Password::from_bytes(rt.alloc(), b"masterpw")?;
    let (rows, masters) = created(rt.alloc(), Some(password), Etype::Aes256Sha2)?;
    check_by_password(&rt, rt.alloc(), &rows, &masters)
}
