ghost use Rattle.std.specs.Prelude.{◌≡◌, ◌+◌, ◌<◌, IfOk, length};
ghost use Rattle.kdb_base.specs.Limits.{most_masters};
ghost use Rattle.master_keys.specs.Chain.{IsChain};
ghost use Rattle.master_keys.specs.Versions.{last_version};

use kdb_base::{AuxKey, AuxList, Blob, Etype, Master, Masters, PlainKey, Salt};
use master_keys::{
    ChainFault, MasterKey, add, holds_chain, new_chain, open_keys, open_with, purge, rewrap,
    unwrap, wrap,
};
use princ_record::{KeyItem, Keys, Princ};
use std::alloc::Global;
use std::process::Abort;
use std::test::Fail;

fn key_of(etype: Etype, byte: u8) -> PlainKey {
    PlainKey::from_bytes(etype, &[byte; 32][..etype.key_len()])
}

/// The key under the master key has so many bytes, of which these are the first, and is unwrapped again.
fn check_wrapping(
    rt: &impl Abort,
    alloc: Global,
    master: &PlainKey,
    key: &PlainKey,
    len: usize,
    front: &[u8],
) -> Result<(), Fail> {
    let blob = wrap(alloc, master, key, &[3; 16])?;
    assert_eq!(rt; blob.len(), len);
    assert!(rt; blob.as_slice().starts_with(front));
    let again = unwrap(alloc, master, key.etype(), blob.as_slice())?;
    assert!(rt; again == *key);
    Ok(())
}

#[test]
fn a_key_is_wrapped_and_unwrapped(rt: HostRuntime) -> Result<(), Fail> {
    // 18 bytes, the key, and the tag of the master key's type.
    let rows = [
        (Etype::Aes256, Etype::Aes128, 18 + 16 + 12, b"\x10\0"),
        (Etype::Aes128, Etype::Aes256Sha2, 18 + 32 + 12, b"\x20\0"),
        (
            Etype::Aes128Sha2,
            Etype::Aes128Sha2,
            18 + 16 + 16,
            b"\x10\0",
        ),
        (Etype::Aes256Sha2, Etype::Aes256, 18 + 32 + 24, b"\x20\0"),
    ];
    for (master, etype, len, front) in rows {
        let master = key_of(master, 1);
        let key = key_of(etype, 2);
        check_wrapping(&rt, rt.alloc(), &master, &key, len, front)?;
    }
    Ok(())
}

/// The bytes with another last one.
fn with_another_end(alloc: Global, bytes: &[u8]) -> Result<Vec<u8>, Fail> {
    let mut changed = bytes.to_vec(alloc)?;
    if let Some(last) = changed.last_mut() {
        *last ^= 1;
    }
    Ok(changed)
}

/// What is nearly a wrapped key under the master key: a front of it, what is changed, and the whole one for another type
/// and under another key.
fn check_near(
    rt: &impl Abort,
    alloc: Global,
    master: PlainKey,
    blob: &[u8],
    changed: &[u8],
) -> Result<(), Fail> {
    let short = blob.get(..29).ok_or("a short blob")?;
    let rows = [
        (master, Etype::Aes128, short),
        (master, Etype::Aes128, changed),
        (master, Etype::Aes256, blob),
        (key_of(Etype::Aes128, 4), Etype::Aes128, blob),
    ];
    for (key, etype, bytes) in &rows {
        let fault = unwrap(alloc, key, *etype, bytes).err();
        assert_eq!(rt; fault, Some(ChainFault::StashWrong), "{bytes:?}");
    }
    Ok(())
}

#[test]
fn what_is_no_wrapped_key(rt: HostRuntime) -> Result<(), Fail> {
    let master = key_of(Etype::Aes128, 1);
    let blob = wrap(rt.alloc(), &master, &key_of(Etype::Aes128, 2), &[3; 16])?;
    let changed = with_another_end(rt.alloc(), blob.as_slice())?;
    check_near(&rt, rt.alloc(), master, blob.as_slice(), changed.as_slice())
}

/// Why the key does not open the entry.
fn fault_of(alloc: Global, entry: &Princ, version: u16, key: &PlainKey) -> Option<ChainFault> {
    open_with(alloc, entry, version, key).err()
}

/// The same, by the runtime.
fn fault(rt: &HostRuntime, entry: &Princ, version: u16, key: &PlainKey) -> Option<ChainFault> {
    fault_of(rt.alloc(), entry, version, key)
}

#[tactic(auto, unfolding(master_keys::specs::Versions::last_version))]
fn first(rt: &HostRuntime, key: &PlainKey) -> Result<(Princ, Masters), Fail>
    ensures one { IfOk result (λ both. length both.1 ≡ 1) }
    ensures last { IfOk result (λ both. last_version both.1 ≡ 1) }
    ensures chain { IfOk result (λ both. IsChain both.0 both.1) }
{
    Ok(new_chain(rt.alloc(), b"R", key, 1700000000, &[5; 16])?)
}

/// The key of version 1 opens the entry to these master keys.
fn check_opening(
    rt: &impl Abort,
    alloc: Global,
    entry: &Princ,
    masters: &Masters,
    key: &PlainKey,
) -> Result<(), Fail> {
    let opened = open_with(alloc, entry, 1, key)?;
    assert!(rt; opened.as_slice() == masters.as_slice());
    Ok(())
}

/// The entry and the master keys of a first key.
fn check_first(
    rt: &impl Abort,
    alloc: Global,
    entry: &Princ,
    masters: &Masters,
    key: &PlainKey,
) -> Result<(), Fail> {
    assert_eq!(rt; entry.name.as_slice(), b"K/M@R".as_slice());
    assert_eq!(rt; entry.modifier.as_slice(), b"admin/local@R".as_slice());
    assert!(rt; masters.as_slice().len() == 1);
    check_opening(rt, alloc, entry, masters, key)?;
    assert_eq!(rt;
        fault_of(alloc, entry, 2, key),
        Some(ChainFault::UnknownMaster { version: 2 })
    );
    let other = key_of(Etype::Aes256, 2);
    assert_eq!(rt;
        fault_of(alloc, entry, 1, &other),
        Some(ChainFault::StashWrong)
    );
    Ok(())
}

#[test]
fn a_first_key_opens_its_chain(rt: HostRuntime) -> Result<(), Fail> {
    let key = key_of(Etype::Aes256, 1);
    let (entry, masters) = first(&rt, &key)?;
    check_first(&rt, rt.alloc(), &entry, &masters, &key)
}

fn item(rt: &HostRuntime, kvno: u16, newest: &PlainKey, key: &PlainKey) -> Result<KeyItem, Fail> {
    let wrapped = wrap(rt.alloc(), newest, key, &[6; 16])?;
    Ok(KeyItem {
        kvno,
        etype: key.etype(),
        salt: Salt::Normal,
        wrapped,
    })
}

/// The auxiliary key of version 1.
fn aux(rt: &HostRuntime, newest: &PlainKey, older: &PlainKey) -> Result<AuxList, Fail> {
    let key = AuxKey {
        version: 1,
        etype: newest.etype(),
        wrapped: wrap(rt.alloc(), older, newest, &[7; 16])?,
    };
    let mut list = Vec::new(rt.alloc());
    list.push(key)?;
    Ok(AuxList::from_vec(list))
}

fn no_aux(rt: &HostRuntime) -> AuxList {
    AuxList::from_vec(Vec::new(rt.alloc()))
}

/// The keys of versions 2 and 1, under the newest.
fn two_items(rt: &HostRuntime, newest: &PlainKey, older: &PlainKey) -> Result<Keys, Fail>
    ensures { IfOk result (λ keys. length keys ≡ 2) }
{
    Ok(Keys::from_vec(vec![in rt.alloc();
        item(rt, 2, newest, newest)?,
        item(rt, 1, newest, older)?,
    ]?))
}

/// Versions 2 and 1.
fn two_versions(rt: &HostRuntime, newest: &PlainKey, older: &PlainKey) -> Result<Princ, Fail>
    ensures { IfOk result (λ p. length p.keys ≡ 2) }
{
    let keys = two_items(rt, newest, older)?;
    let (mut entry, _) = first(rt, older)?;
    entry.mkvno = 2;
    entry.keys = keys;
    if let Some(part) = &mut entry.chain {
        part.aux = aux(rt, newest, older)?;
    }
    Ok(entry)
}

/// The key of this version, 1 or 2, opens the entry to both keys.
fn check_both(
    rt: &impl Abort,
    alloc: Global,
    entry: &Princ,
    version: u16,
    older: &PlainKey,
    newest: &PlainKey,
) -> Result<(), Fail> {
    let key = if version == 1 { older } else { newest };
    let opened = open_with(alloc, entry, version, key)?;
    assert!(rt;
        matches!(opened.as_slice(), [a, b] if a.version == 1 && a.key == *older && b.version == 2 && b.key == *newest)
    );
    Ok(())
}

/// Either key opens the entry by its version, and neither by that of the other.
fn check_either(
    rt: &impl Abort,
    alloc: Global,
    entry: &Princ,
    older: &PlainKey,
    newest: &PlainKey,
) -> Result<(), Fail> {
    for version in [1, 2] {
        check_both(rt, alloc, entry, version, older, newest)?;
    }
    assert_eq!(rt;
        fault_of(alloc, entry, 1, newest),
        Some(ChainFault::StashWrong)
    );
    assert_eq!(rt;
        fault_of(alloc, entry, 2, older),
        Some(ChainFault::StashWrong)
    );
    Ok(())
}

#[test]
fn either_key_opens_two_versions(rt: HostRuntime) -> Result<(), Fail> {
    let older = key_of(Etype::Aes128, 1);
    let newest = key_of(Etype::Aes256, 2);
    let mut entry = two_versions(&rt, &newest, &older)?;
    check_either(&rt, rt.alloc(), &entry, &older, &newest)?;
    if let Some(part) = &mut entry.chain {
        part.aux = no_aux(&rt);
    }
    assert_eq!(rt; fault(&rt, &entry, 1, &older), Some(ChainFault::StashWrong));
    // The newest key wants no auxiliary key.
    assert_eq!(rt; fault(&rt, &entry, 2, &newest), None);
    Ok(())
}

/// Bytes for confounders.
fn random<const N: usize>() -> [u8; N] {
    [8; N]
}

/// One more master key.
fn grown(
    rt: &HostRuntime,
    entry: &Princ,
    masters: &Masters,
    key: &PlainKey,
) -> Result<(Princ, Masters), Fail>
    requires chain { IsChain entry.now masters.now }
    requires few { length masters.now < most_masters }
    requires greatest { last_version masters.now < 65535 }
    ensures more { IfOk result (λ both. length both.1 ≡ length masters.now + 1) }
    ensures last { IfOk result (λ both. last_version both.1 ≡ last_version masters.now + 1) }
    ensures chain { IfOk result (λ both. IsChain both.0 both.1) }
{
    Ok(add(rt.alloc(), entry, masters, key, &random())?)
}

/// Two master keys, the second behind the first.
fn two_grown(
    rt: &HostRuntime,
    oldest: &PlainKey,
    older: &PlainKey,
) -> Result<(Princ, Masters), Fail>
    ensures two { IfOk result (λ both. length both.1 ≡ 2) }
    ensures last { IfOk result (λ both. last_version both.1 ≡ 2) }
    ensures chain { IfOk result (λ both. IsChain both.0 both.1) }
{
    let (entry, masters) = first(rt, oldest)?;
    grown(rt, &entry, &masters, older)
}

/// Three master keys, each behind those before it.
fn three_grown(
    rt: &HostRuntime,
    oldest: &PlainKey,
    older: &PlainKey,
    newest: &PlainKey,
) -> Result<(Princ, Masters), Fail>
    ensures last { IfOk result (λ both. last_version both.1 ≡ 3) }
    ensures chain { IfOk result (λ both. IsChain both.0 both.1) }
{
    let (entry, masters) = two_grown(rt, oldest, older)?;
    grown(rt, &entry, &masters, newest)
}

/// Whether this master key opens all of them.
fn opens_all(
    alloc: Global,
    entry: &Princ,
    masters: &Masters,
    master: &Master,
) -> Result<bool, Fail> {
    let opened = open_with(alloc, entry, master.version, &master.key)?;
    Ok(opened.as_slice() == masters.as_slice())
}

/// Whether each master key opens all of them.
fn each_opens_all(alloc: Global, entry: &Princ, masters: &Masters) -> Result<bool, Fail> {
    for master in masters.as_slice() {
        if !opens_all(alloc, entry, masters, master)? {
            return Ok(false);
        }
    }
    Ok(holds_chain(alloc, entry, masters)?)
}

/// Three versions, each of which opens all.
fn check_three(
    rt: &impl Abort,
    alloc: Global,
    entry: &Princ,
    masters: &Masters,
) -> Result<(), Fail> {
    assert!(rt; each_opens_all(alloc, entry, masters)?);
    assert!(rt;
        matches!(masters.as_slice(), [a, b, c] if a.version == 1 && b.version == 2 && c.version == 3)
    );
    Ok(())
}

/// What is left of three versions without the first, whose key opens nothing of it.
fn check_left(
    rt: &impl Abort,
    alloc: Global,
    left: &Princ,
    live: &Masters,
    oldest: &PlainKey,
) -> Result<(), Fail> {
    assert!(rt; each_opens_all(alloc, left, live)?);
    assert!(rt; live.as_slice().len() == 2);
    assert_eq!(rt;
        fault_of(alloc, left, 1, oldest),
        Some(ChainFault::UnknownMaster { version: 1 })
    );
    Ok(())
}

/// The first of three versions is purged. The others are no chain with the entry of before.
fn check_purged(
    rt: &impl Abort,
    alloc: Global,
    entry: &Princ,
    masters: &Masters,
    oldest: &PlainKey,
) -> Result<(), Fail>
    requires chain { IsChain entry.now masters.now }
    requires last { last_version masters.now ≡ 3 }
{
    let (left, live) = purge(alloc, entry, masters, &[1])?;
    assert!(rt; !holds_chain(alloc, entry, &live)?);
    check_left(rt, alloc, &left, &live, oldest)
}

#[test]
fn three_keys_of_three_types_open_each_other(rt: HostRuntime) -> Result<(), Fail> {
    let oldest = key_of(Etype::Aes128, 1);
    let older = key_of(Etype::Aes128Sha2, 2);
    let newest = key_of(Etype::Aes256Sha2, 3);
    let (entry, masters) = three_grown(&rt, &oldest, &older, &newest)?;
    check_three(&rt, rt.alloc(), &entry, &masters)?;
    check_purged(&rt, rt.alloc(), &entry, &masters, &oldest)
}

/// Versions 2 and 1, of which the second key has a salt of its own.
fn salted_versions(rt: &HostRuntime, newest: &PlainKey, older: &PlainKey) -> Result<Princ, Fail>
    ensures { IfOk result (λ p. length p.keys ≡ 2) }
{
    let salt = Salt::Special(Blob::from_bytes(rt.alloc(), b"salt")?);
    let mut princ = two_versions(rt, newest, older)?;
    let mut items = princ.keys.into_vec();
    items[1].salt = salt;
    princ.keys = Keys::from_vec(items);
    Ok(princ)
}

/// The keys are these under the master key.
fn check_opened(
    rt: &impl Abort,
    alloc: Global,
    items: &[KeyItem],
    master: &PlainKey,
    wanted: &[PlainKey],
) -> Result<(), Fail> {
    let master = MasterKey::new(master);
    let keys = open_keys(alloc, &master, items)?;
    assert!(rt; keys.as_slice() == wanted);
    Ok(())
}

/// The keys and the second one's salt are the same, under the fresh master key of version 7 alone.
fn check_rewrapped(
    rt: &impl Abort,
    alloc: Global,
    rewrapped: &Princ,
    old: &PlainKey,
    one: &PlainKey,
    fresh: &PlainKey,
) -> Result<(), Fail> {
    let items = rewrapped.keys.as_slice();
    assert!(rt; rewrapped.mkvno == 7 && items.len() == 2);
    assert!(rt;
        matches!(&items[1].salt, Salt::Special(salt) if salt.as_slice() == b"salt".as_slice())
    );
    check_opened(rt, alloc, items, fresh, &[*old, *one])?;
    for item in items {
        let fault = unwrap(alloc, old, item.etype, item.wrapped.as_slice()).err();
        assert_eq!(rt; fault, Some(ChainFault::StashWrong));
    }
    Ok(())
}

/// The principal is wrapped anew.
fn check_rewrapping(
    rt: &impl Abort,
    alloc: Global,
    princ: &Princ,
    old: &PlainKey,
    one: &PlainKey,
    fresh: &PlainKey,
) -> Result<(), Fail>
    requires { length princ.now.keys ≡ 2 }
{
    let rewrapped = rewrap(alloc, princ, old, 7, fresh, &random())?;
    check_rewrapped(rt, alloc, &rewrapped, old, one, fresh)
}

#[test]
fn two_keys_are_wrapped_anew(rt: HostRuntime) -> Result<(), Fail> {
    let one = key_of(Etype::Aes128, 1);
    let old = key_of(Etype::Aes256Sha2, 2);
    let fresh = key_of(Etype::Aes128Sha2, 3);
    let princ = salted_versions(&rt, &old, &one)?;
    check_rewrapping(&rt, rt.alloc(), &princ, &old, &one, &fresh)?;
    let fault = rewrap(rt.alloc(), &princ, &one, 7, &fresh, &random()).err();
    assert_eq!(rt; fault, Some(ChainFault::StashWrong));
    Ok(())
}
