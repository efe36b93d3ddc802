//! Entries of worked examples: how long they are, and the blocks of the log behind them.

use super::*;
use kdb_base::{
    Activation, Activations, Blob, Etype, Master, Masters, MemoryOut, PlainKey, Point, Salt, Time,
};
use kdb_plain::{PlainOp, PlainPrinc, PlainPrincs, PolicyList, State, row_len, with_string};
use plain_keys::{PlainItem, PlainItems, PlainSets};
use std::alloc::Global;
use std::process::Abort;
use std::test::Fail;
use tagged_data::StringAttributes;

const SECS: u32 = 1_700_000_000;

fn key_of(etype: Etype) -> PlainKey {
    PlainKey::from_bytes(etype, &[7; 32][..etype.key_len()])
}

/// A principal without keys, attributes and a policy, changed last by the administrator of the machine.
fn bare(alloc: Global, name: &[u8], mkvno: u16) -> Result<PlainPrinc, MemoryOut> {
    let name = Blob::from_bytes(alloc, name)?;
    let modifier = Blob::from_bytes(alloc, b"admin/local@EXAMPLE.ORG")?;
    Ok(PlainPrinc {
        name,
        attributes: 0,
        max_life: 0,
        max_renew: 0,
        expire: 0,
        pw_expire: 0,
        pw_changed: None,
        modified: SECS,
        modifier,
        mkvno,
        keys: PlainItems::from_vec(Vec::new(alloc)),
        policy: None,
        old: PlainSets::from_vec(Vec::new(alloc)),
        strings: StringAttributes::new(alloc),
    })
}

/// A principal without a policy and remembered keys.
fn princ(
    alloc: Global,
    name: &[u8],
    mkvno: u16,
    keys: PlainItems,
    strings: StringAttributes,
) -> Result<PlainPrinc, MemoryOut> {
    let pw_changed = match keys.as_slice() {
        [] => None,
        _ => Some(SECS),
    };
    let mut princ = bare(alloc, name, mkvno)?;
    princ.pw_changed = pw_changed;
    princ.keys = keys;
    princ.strings = strings;
    Ok(princ)
}

/// A principal with these keys and no attributes.
fn with_keys(
    alloc: Global,
    name: &[u8],
    mkvno: u16,
    keys: PlainItems,
) -> Result<PlainPrinc, MemoryOut> {
    princ(alloc, name, mkvno, keys, StringAttributes::new(alloc))
}

/// A key of this version with a salt of so many bytes, or with the normal one.
fn item(
    alloc: Global,
    kvno: u16,
    etype: Etype,
    salt: Option<usize>,
) -> Result<PlainItem, MemoryOut> {
    let salt = match salt {
        Some(len) => Salt::Special(Blob::from_vec(vec![in alloc; b'n'; len]?)),
        None => Salt::Normal,
    };
    Ok(PlainItem {
        kvno,
        salt,
        key: key_of(etype),
    })
}

fn push_item(
    alloc: Global,
    items: &mut Vec<PlainItem>,
    kvno: u16,
    etype: Etype,
    salt: Option<usize>,
) -> Result<(), MemoryOut> {
    let item = item(alloc, kvno, etype, salt)?;
    items.push(item)?;
    Ok(())
}

/// One version of two keys.
fn push_version(
    alloc: Global,
    items: &mut Vec<PlainItem>,
    kvno: u16,
    salt: Option<usize>,
) -> Result<(), MemoryOut> {
    push_item(alloc, items, kvno, Etype::Aes256, salt)?;
    push_item(alloc, items, kvno, Etype::Aes128, salt)
}

/// So many versions of two keys, with salts of so many bytes, or with the normal one.
fn versions(alloc: Global, count: u16, salt: Option<usize>) -> Result<PlainItems, MemoryOut> {
    let mut items = Vec::new(alloc);
    for at in 0..count {
        push_version(alloc, &mut items, count - at, salt)?;
    }
    Ok(PlainItems::from_vec(items))
}

/// The key of version 1 of this type.
fn one_key(alloc: Global) -> Result<PlainItems, MemoryOut> {
    let items = vec![in alloc; item(alloc, 1, Etype::Aes256, None)?]?;
    Ok(PlainItems::from_vec(items))
}

/// The master key of version 1.
fn one_master(alloc: Global) -> Result<Masters, MemoryOut> {
    let items = vec![in alloc;
        Master {
            version: 1,
            key: key_of(Etype::Aes256),
        },
    ]?;
    Ok(Masters::from_vec(items))
}

/// The same and a newer one of another type.
fn two_masters(alloc: Global) -> Result<Masters, MemoryOut> {
    let items = vec![in alloc;
        Master {
            version: 1,
            key: key_of(Etype::Aes256),
        },
        Master {
            version: 2,
            key: key_of(Etype::Aes128Sha2),
        },
    ]?;
    Ok(Masters::from_vec(items))
}

/// Version 1 is active from the creation on.
fn one_activation(alloc: Global) -> Result<Activations, MemoryOut> {
    let items = vec![in alloc;
        Activation {
            version: 1,
            secs: SECS,
        },
    ]?;
    Ok(Activations::from_vec(items))
}

fn history(alloc: Global) -> Result<PlainPrinc, MemoryOut> {
    let keys = one_key(alloc)?;
    with_keys(alloc, b"kadmin/history@EXAMPLE.ORG", 1, keys)
}

/// kadmin/history under version 1.
fn princs(alloc: Global) -> Result<PlainPrincs, Fail> {
    let history = history(alloc)?;
    let princs = vec![in alloc; history]?;
    match PlainPrincs::from_vec(princs) {
        Some(princs) => Ok(princs),
        None => Err(Fail::from("the order of principals")),
    }
}

fn no_policies(alloc: Global) -> Result<PolicyList, Fail> {
    match PolicyList::from_vec(Vec::new(alloc)) {
        Some(policies) => Ok(policies),
        None => Err(Fail::from("the order of policies")),
    }
}

/// A state of these master keys, with kadmin/history under version 1.
fn state(alloc: Global, masters: Masters) -> Result<State, Fail> {
    let realm = Blob::from_bytes(alloc, b"EXAMPLE.ORG")?;
    let activations = one_activation(alloc)?;
    let policies = no_policies(alloc)?;
    let princs = princs(alloc)?;
    Ok(State {
        realm,
        masters,
        activations,
        princs,
        policies,
        point: Point {
            sno: 1,
            time: Time::new(SECS, 0),
        },
    })
}

/// How long the blocks are before a change, how long its entry is, and how long the blocks are behind it.
type Lengths = (u32, u64, u64);

/// Compares what is told of a change of the state.
fn check_in(
    rt: &impl Abort,
    alloc: Global,
    state: &State,
    op: &PlainOp,
    wanted: Lengths,
) -> Result<(), Fail> {
    let (block, len, behind) = wanted;
    assert_eq!(rt; entry_len_in(alloc, state, op)?, len);
    assert_eq!(rt; block_in(alloc, block, state, op)?, behind);
    Ok(())
}

/// The state under the master key of version 1.
fn first_state(alloc: Global) -> Result<State, Fail> {
    let masters = one_master(alloc)?;
    state(alloc, masters)
}

/// Compares what is told of a change.
fn check(rt: &impl Abort, alloc: Global, op: &PlainOp, wanted: Lengths) -> Result<(), Fail> {
    let state = first_state(alloc)?;
    check_in(rt, alloc, &state, op, wanted)
}

/// The change that puts a service with so many versions of two keys, under this version of the master key.
fn put_svc(alloc: Global, count: u16, mkvno: u16) -> Result<PlainOp, Fail> {
    let keys = versions(alloc, count, None)?;
    let svc = with_keys(alloc, b"svc@EXAMPLE.ORG", mkvno, keys)?;
    Ok(PlainOp::PutPrinc(svc))
}

fn check_svc(rt: &impl Abort, alloc: Global, count: u16, wanted: Lengths) -> Result<(), Fail> {
    let op = put_svc(alloc, count, 1)?;
    check(rt, alloc, &op, wanted)
}

/// One byte is left for the mark of a block.
#[test]
fn entry_fills_a_block_but_for_one_byte(rt: HostRuntime) -> Result<(), Fail> {
    for (count, wanted) in [(15, (2048, 2047, 2048)), (16, (2048, 2175, 4096))] {
        check_svc(&rt, rt.alloc(), count, wanted)?;
    }
    Ok(())
}

/// A key of two letters, and 1024 letters.
fn attribute(alloc: Global, at: u8) -> Result<(Blob, Blob), MemoryOut> {
    let key = Blob::from_bytes(alloc, &[b'a', b'a'.saturating_add(at)])?;
    let value = Blob::from_vec(vec![in alloc; b'x'; 1024]?);
    Ok((key, value))
}

/// The attributes with one more.
fn with_attribute(
    alloc: Global,
    strings: StringAttributes,
    at: u8,
) -> Result<StringAttributes, MemoryOut> {
    let (key, value) = attribute(alloc, at)?;
    with_string(strings, key, value)
}

/// So many attributes of a key of two letters and 1024 letters each.
fn attributes(alloc: Global, count: u8) -> Result<StringAttributes, MemoryOut> {
    let mut strings = StringAttributes::new(alloc);
    for at in 0..count {
        strings = with_attribute(alloc, strings, at)?;
    }
    Ok(strings)
}

/// A principal without keys and with so many such attributes.
fn bob(alloc: Global, count: u8) -> Result<PlainPrinc, MemoryOut> {
    let strings = attributes(alloc, count)?;
    let none = PlainItems::from_vec(Vec::new(alloc));
    princ(alloc, b"bob@EXAMPLE.ORG", 1, none, strings)
}

fn check_fourteen(rt: &impl Abort, alloc: Global) -> Result<(), Fail> {
    let fourteen = PlainOp::PutPrinc(bob(alloc, 14)?);
    check(rt, alloc, &fourteen, (14336, 14515, 16384))
}

fn check_fifteen(rt: &impl Abort, alloc: Global) -> Result<(), Fail> {
    let fifteen = bob(alloc, 15)?;
    assert_eq!(rt; row_len(Etype::Aes256, Etype::Aes256, &fifteen), 15507);
    let op = PlainOp::PutPrinc(fifteen);
    check(rt, alloc, &op, (16384, 15543, 16384))
}

/// The log begins anew with every second attribute, the seventh time with the fourteenth.
#[test]
fn attributes_lengthen_the_blocks(rt: HostRuntime) -> Result<(), Fail> {
    check_fourteen(&rt, rt.alloc())?;
    check_fifteen(&rt, rt.alloc())
}

/// A name of 212 bytes.
fn long_name(alloc: Global) -> Result<Blob, Fail> {
    let mut name = vec![in alloc; b'n'; 200]?;
    name.extend_from_slice(b"@EXAMPLE.ORG")?;
    Ok(Blob::from_vec(name))
}

/// A principal of another name, whose keys have the salt of that one.
fn renamed(alloc: Global) -> Result<PlainPrinc, MemoryOut> {
    let keys = versions(alloc, 16, Some(211))?;
    with_keys(alloc, b"b@EXAMPLE.ORG", 1, keys)
}

/// The entry of a renaming stands under the old name, of 212 bytes here, and each key keeps its salt, the realm and the
/// old name's 200 letters.
#[test]
fn entry_of_a_renaming_has_the_old_name(rt: HostRuntime) -> Result<(), Fail> {
    let old = long_name(rt.alloc())?;
    let renamed = renamed(rt.alloc())?;
    assert_eq!(rt; row_len(Etype::Aes256, Etype::Aes256, &renamed), 8889);
    let op = PlainOp::Rename(old, renamed);
    check(&rt, rt.alloc(), &op, (4096, 9122, 10240))
}

/// The keys of both master keys.
fn master_items(alloc: Global) -> Result<PlainItems, MemoryOut> {
    let mut items = Vec::new(alloc);
    push_item(alloc, &mut items, 2, Etype::Aes128Sha2, None)?;
    push_item(alloc, &mut items, 1, Etype::Aes256, None)?;
    Ok(PlainItems::from_vec(items))
}

/// K/M with both master keys.
fn master_entry(alloc: Global) -> Result<PlainPrinc, MemoryOut> {
    let keys = master_items(alloc)?;
    with_keys(alloc, b"K/M@EXAMPLE.ORG", 2, keys)
}

/// The change that adds the second one.
fn put_masters(alloc: Global) -> Result<PlainOp, Fail> {
    let activations = one_activation(alloc)?;
    let masters = two_masters(alloc)?;
    let entry = master_entry(alloc)?;
    Ok(PlainOp::PutMasters(entry, masters, activations))
}

/// Behind `add_mkey -e aes128-sha2` K/M's wrapped keys have 50 and 66 bytes, and the new key has 46 under the first
/// one. One of the two versions has an activation.
#[test]
fn entry_of_master_keys_has_their_chain(rt: HostRuntime) -> Result<(), Fail> {
    let op = put_masters(rt.alloc())?;
    check(&rt, rt.alloc(), &op, (2048, 329, 2048))
}

/// The state under both master keys.
fn second_state(alloc: Global) -> Result<State, Fail> {
    let masters = two_masters(alloc)?;
    state(alloc, masters)
}

fn check_rekeyed(
    rt: &impl Abort,
    alloc: Global,
    state: &State,
    mkvno: u16,
    wanted: u64,
) -> Result<(), Fail> {
    let op = put_svc(alloc, 1, mkvno)?;
    assert_eq!(rt; entry_len_in(alloc, state, &op)?, wanted);
    Ok(())
}

/// Each of the two keys has a tag of 16 bytes under the newer master key, where it has one of 12 under the older one.
#[test]
fn entry_of_a_rekeying_has_the_tags_of_its_version(rt: HostRuntime) -> Result<(), Fail> {
    let state = second_state(rt.alloc())?;
    for (mkvno, wanted) in [(1, 255), (2, 263)] {
        check_rekeyed(&rt, rt.alloc(), &state, mkvno, wanted)?;
    }
    Ok(())
}
