ghost use Rattle.std.specs.Prelude.{IsTrue};
ghost use Rattle.policy_rules.specs.Names.{is_policy_name};

use kdb_base::{
    Activation, Activations, Blob, Etype, Master, Masters, MemoryOut, PlainKey, Point, Salt, Time,
};
use kdb_plain::{
    PlainPrinc, PlainPrincs, PolicyList, State, chain_len, copy_state, has_policy, has_room_for,
    has_string, history_key, master_of, plain_head, plain_of, policy_named, princ_named, row_len,
    users_of, with_string, without_string,
};
use plain_keys::{PlainItem, PlainItems, PlainSets, items_of};
use policy_rules::Policy;
use std::alloc::Global;
use std::process::Abort;
use std::test::Fail;
use tagged_data::StringAttributes;

fn key_of(etype: Etype, byte: u8) -> PlainKey {
    PlainKey::from_bytes(etype, &[byte; 32][..etype.key_len()])
}

/// A principal without keys, changed last by the administrator of the machine.
fn bare(alloc: Global, name: &[u8], mkvno: u16) -> Result<PlainPrinc, MemoryOut> {
    Ok(PlainPrinc {
        name: Blob::from_bytes(alloc, name)?,
        attributes: 0,
        max_life: 0,
        max_renew: 0,
        expire: 0,
        pw_expire: 0,
        pw_changed: Some(1700000000),
        modified: 1700000000,
        modifier: Blob::from_bytes(alloc, b"admin/local@EXAMPLE.ORG")?,
        mkvno,
        keys: PlainItems::from_vec(Vec::new(alloc)),
        policy: None,
        old: PlainSets::from_vec(Vec::new(alloc)),
        strings: StringAttributes::new(alloc),
    })
}

/// A salt of so many bytes, and the normal one for none.
fn salt_of(alloc: Global, len: usize) -> Result<Salt, MemoryOut> {
    if len == 0 {
        return Ok(Salt::Normal);
    }
    let bytes = vec![in alloc; b's'; len]?;
    Ok(Salt::Special(Blob::from_vec(bytes)))
}

/// One key more, with a salt of so many bytes.
fn push_item(
    alloc: Global,
    items: &mut Vec<PlainItem>,
    kvno: u16,
    etype: Etype,
    salt: usize,
) -> Result<(), MemoryOut> {
    let salt = salt_of(alloc, salt)?;
    let key = key_of(etype, 1);
    items.push(PlainItem { kvno, salt, key })?;
    Ok(())
}

/// So many keys of each of these types, with a salt of so many bytes.
fn items(
    alloc: Global,
    count: u16,
    etypes: &[Etype],
    salt: usize,
) -> Result<PlainItems, MemoryOut> {
    let mut items = Vec::new(alloc);
    for kvno in 0..count {
        for etype in etypes {
            push_item(alloc, &mut items, count - kvno, *etype, salt)?;
        }
    }
    Ok(PlainItems::from_vec(items))
}

/// A principal with so many keys of each of these types.
fn with_items(
    alloc: Global,
    name: &[u8],
    count: u16,
    etypes: &[Etype],
    salt: usize,
) -> Result<PlainPrinc, MemoryOut> {
    let keys = items(alloc, count, etypes, salt)?;
    let mut princ = bare(alloc, name, 1)?;
    princ.keys = keys;
    Ok(princ)
}

#[test]
fn rows_have_their_lengths(rt: HostRuntime) -> Result<(), Fail> {
    let alloc = rt.alloc();
    let both: &[Etype] = &[Etype::Aes256, Etype::Aes128];
    // K/M with 32 master keys of type 20, a renamed principal whose first name had 200 letters, and
    // kadmin/history under master keys of types 18 and 20.
    let rows: [(&[u8], Etype, u16, &[Etype], usize, u64); 4] = [
        (
            b"K/M@EXAMPLE.ORG",
            Etype::Aes256Sha2,
            32,
            &[Etype::Aes256Sha2],
            0,
            2779,
        ),
        (b"b@EXAMPLE.ORG", Etype::Aes256, 16, both, 211, 8889),
        (
            b"kadmin/history@EXAMPLE.ORG",
            Etype::Aes256,
            1,
            &[Etype::Aes256],
            0,
            174,
        ),
        (
            b"kadmin/history@EXAMPLE.ORG",
            Etype::Aes256Sha2,
            1,
            &[Etype::Aes256],
            0,
            186,
        ),
    ];
    for (name, master, count, etypes, salt, len) in &rows {
        let princ = with_items(alloc, name, *count, etypes, *salt)?;
        assert_eq!(rt; row_len(*master, Etype::Aes256, &princ), *len, "{name:?}");
    }
    Ok(())
}

/// The keys of a password in two types, as version `kvno`.
fn password_items(alloc: Global, kvno: u16, password: u8) -> Result<PlainItems, MemoryOut> {
    items_of(
        alloc,
        kvno,
        &[
            key_of(Etype::Aes256, password),
            key_of(Etype::Aes128, password),
        ],
    )
}

/// The master keys of versions 1 and 2.
fn two_masters(alloc: Global) -> Result<Masters, MemoryOut> {
    let items = vec![in alloc;
        Master {
            version: 1,
            key: key_of(Etype::Aes256, 1),
        },
        Master {
            version: 2,
            key: key_of(Etype::Aes256Sha2, 2),
        },
    ]?;
    Ok(Masters::from_vec(items))
}

/// Version 1 is active from 100 on, and version 2 from 200 on.
fn two_activations(alloc: Global) -> Result<Activations, MemoryOut> {
    let items = vec![in alloc;
        Activation {
            version: 1,
            secs: 100,
        },
        Activation {
            version: 2,
            secs: 200,
        },
    ]?;
    Ok(Activations::from_vec(items))
}

fn with_key(
    alloc: Global,
    name: &[u8],
    mkvno: u16,
    policy: Option<Blob>,
) -> Result<PlainPrinc, MemoryOut> {
    let keys = password_items(alloc, 1, 7)?;
    let mut princ = bare(alloc, name, mkvno)?;
    princ.keys = keys;
    princ.policy = policy;
    Ok(princ)
}

/// A policy of this name with a history of two.
fn policy(alloc: Global, name: &[u8]) -> Result<Policy, MemoryOut>
    requires { IsTrue (is_policy_name name.now) }
{
    let name = Blob::from_bytes(alloc, name)?;
    Ok(Policy::new(name, 0, 0, 8, 3, 2))
}

/// K/M, kadmin/history and alice, who has the policy std. All but K/M stand under `mkvno`.
fn state(alloc: Global, mkvno: u16) -> Result<State, Fail> {
    let named = Some(Blob::from_bytes(alloc, b"std")?);
    let princs = vec![in alloc;
        with_key(alloc, b"K/M@EXAMPLE.ORG", 2, None)?,
        with_key(alloc, b"alice@EXAMPLE.ORG", mkvno, named)?,
        with_key(alloc, b"kadmin/history@EXAMPLE.ORG", mkvno, None)?,
    ]?;
    let policies = vec![in alloc; policy(alloc, b"std")?]?;
    Ok(State {
        realm: Blob::from_bytes(alloc, b"EXAMPLE.ORG")?,
        masters: two_masters(alloc)?,
        activations: two_activations(alloc)?,
        princs: PlainPrincs::from_vec(princs).ok_or("the order of principals")?,
        policies: PolicyList::from_vec(policies).ok_or("the order of policies")?,
        point: Point {
            sno: 1,
            time: Time::new(1700000000, 0),
        },
    })
}

/// A copy of the state.
fn copied(alloc: Global) -> Result<State, Fail> {
    let state = state(alloc, 1)?;
    Ok(copy_state(alloc, &state)?)
}

/// What is there of the state, and what is not.
fn check_names(rt: &impl Abort, alloc: Global, state: &State) -> Result<(), Fail> {
    assert!(rt; princ_named(&state.princs, b"alice@EXAMPLE.ORG").is_some());
    assert!(rt; princ_named(&state.princs, b"bob@EXAMPLE.ORG").is_none());
    assert!(rt; has_policy(&state.policies, b"std"));
    assert!(rt; policy_named(&state.policies, b"default").is_none());
    assert_eq!(rt; users_of(&state.princs, b"std"), 1);
    assert!(rt; history_key(alloc, state)? == Some(key_of(Etype::Aes256, 7)));
    assert!(rt; master_of(&state.masters, 2) == Some(key_of(Etype::Aes256Sha2, 2)));
    // Two activations, and the key of type 20, which has 62 bytes under that of type 18.
    assert_eq!(rt; chain_len(&state.masters, &state.activations), 8 + 12 + 68);
    Ok(())
}

/// Two principals out of their order.
fn disordered(alloc: Global) -> Result<Vec<PlainPrinc>, Fail> {
    let later = bare(alloc, b"b@R", 1)?;
    let earlier = bare(alloc, b"a@R", 1)?;
    Ok(vec![in alloc; later, earlier]?)
}

#[test]
fn names_are_found(rt: HostRuntime) -> Result<(), Fail> {
    let others = disordered(rt.alloc())?;
    assert!(rt; PlainPrincs::from_vec(others).is_none());
    let state = copied(rt.alloc())?;
    check_names(&rt, rt.alloc(), &state)
}

/// The key of an attribute, which is this letter, and its value.
fn attribute(alloc: Global, letter: u8) -> Result<(Blob, Blob), Fail> {
    let key = Blob::from_bytes(alloc, &[letter])?;
    let value = Blob::from_bytes(alloc, b"x")?;
    Ok((key, value))
}

/// The attributes with that of this letter.
fn with_letter(
    alloc: Global,
    strings: StringAttributes,
    letter: u8,
) -> Result<StringAttributes, Fail> {
    let (key, value) = attribute(alloc, letter)?;
    Ok(with_string(strings, key, value)?)
}

/// The attributes of the letters up to p.
fn sixteen(alloc: Global) -> Result<StringAttributes, Fail> {
    let mut strings = StringAttributes::new(alloc);
    for letter in b'a'..=b'p' {
        strings = with_letter(alloc, strings, letter)?;
    }
    Ok(strings)
}

/// A principal with these attributes but for that of c.
fn without_c(alloc: Global, strings: StringAttributes) -> Result<PlainPrinc, Fail> {
    let mut princ = bare(alloc, b"alice@EXAMPLE.ORG", 1)?;
    princ.strings = without_string(strings, b"c");
    Ok(princ)
}

/// The principal's head with keys.
fn whole_of(alloc: Global, princ: &PlainPrinc) -> Result<PlainPrinc, Fail> {
    let keys = password_items(alloc, 1, 1)?;
    let head = plain_head(alloc, princ)?;
    Ok(plain_of(head, keys, PlainSets::from_vec(Vec::new(alloc))))
}

#[test]
fn attributes_are_set_and_taken_away(rt: HostRuntime) -> Result<(), Fail> {
    let strings = sixteen(rt.alloc())?;
    assert_eq!(rt; strings.as_slice().len(), 16);
    assert!(rt; has_room_for(&strings, b"c"));
    assert!(rt; !has_room_for(&strings, b"q"));
    let princ = without_c(rt.alloc(), strings)?;
    assert!(rt; !has_string(&princ.strings, b"c"));
    assert_eq!(rt; princ.strings.as_slice().len(), 15);
    let whole = whole_of(rt.alloc(), &princ)?;
    assert!(rt; whole.strings == princ.strings);
    Ok(())
}
