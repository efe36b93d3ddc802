ghost use Rattle.std.specs.Prelude.{IfOk};
ghost use Rattle.princ_record.specs.RowLimits.{IsRow};

use kdb_base::limits::MAX_ROW_LEN;
use kdb_base::{Blob, Etype, Master, Masters, PlainKey, Salt};
use master_keys::{MasterKey, wrap};
use plain_keys::{PlainItem, is_reused};
use princ_keys::{KeyItem, Keys, OldKey, OldKeys, OldSet, OldSets};
use princ_name::parse_name;
use princ_record::{Princ, decode, encoded_len};
use princ_rows::{Op, Rows};
use row_keys::laws::keys_take_little_of_a_block;
use row_keys::{
    Unsound, check_rows, has_policy_row, kept_from, newest_version, open_items, open_princ,
    open_sets, record_named, records_under, records_with_policy, rekeyed_items, remembered_sets,
    settled_keys,
};
use std::alloc::Global;
use std::process::Abort;
use std::test::*;

fn key_of(etype: Etype, byte: u8) -> PlainKey {
    PlainKey::from_bytes(etype, &[byte; 32][..etype.key_len()])
}

fn item(kvno: u16, etype: Etype, byte: u8) -> PlainItem {
    PlainItem {
        kvno,
        salt: Salt::Normal,
        key: key_of(etype, byte),
    }
}

/// The numbers from 0 on.
fn block() -> [u8; 256] {
    let mut bytes = [0; 256];
    for (at, byte) in bytes.iter_mut().enumerate() {
        *byte = at as u8;
    }
    bytes
}

/// The blob of a key whose confounder stands at this place of the block.
fn blob_at(alloc: Global, master: &PlainKey, key: &PlainKey, at: usize) -> Result<Blob, Fail> {
    let bytes = block();
    let mut confounder = [0; 16];
    let behind = bytes.get(at..).ok_or("in the block")?;
    confounder.copy_from_slice(behind.get(..16).ok_or("in the block")?);
    Ok(wrap(alloc, master, key, &confounder)?)
}

/// New keys and old ones, wrapped with the bytes of the block.
fn rekeyed(
    alloc: Global,
    master: &PlainKey,
    drawn: bool,
    fresh: &[PlainItem],
    kept: &[PlainItem],
) -> Result<Vec<KeyItem>, Fail> {
    if fresh.len() > 2 || kept.len() > 2 {
        return Err(Fail::from("the block is for four keys"));
    }
    keys_take_little_of_a_block();
    let master = MasterKey::new(master);
    Ok(rekeyed_items(alloc, &master, drawn, &block(), fresh, kept)?)
}

/// The key is wrapped with the confounder at this place.
fn check_place(
    rt: &impl Abort,
    alloc: Global,
    kept: &KeyItem,
    key: &PlainKey,
    at: usize,
) -> Result<(), Fail> {
    let master = key_of(Etype::Aes256, 1);
    let blob = blob_at(alloc, &master, key, at)?;
    assert_eq!(rt; kept.wrapped.as_slice(), blob.as_slice());
    Ok(())
}

/// The master key opens the three keys.
fn check_opening(rt: &impl Abort, alloc: Global, wrapped: &[KeyItem]) -> Result<(), Fail> {
    let master = MasterKey::new(&key_of(Etype::Aes256, 1));
    let opened = open_items(alloc, &master, wrapped)?;
    assert!(rt; opened.as_slice().len() == 3);
    Ok(())
}

/// Each key is wrapped with the confounder of its place.
fn check_places(
    rt: &impl Abort,
    alloc: Global,
    drawn: bool,
    places: [usize; 3],
    fresh: &[PlainItem],
    kept: &[PlainItem],
) -> Result<(), Fail> {
    let wrapped = rekeyed(alloc, &key_of(Etype::Aes256, 1), drawn, fresh, kept)?;
    assert!(rt; wrapped.len() == 3);
    for ((kept, plain), at) in wrapped.iter().zip(fresh.iter().chain(kept)).zip(places) {
        check_place(rt, alloc, kept, &plain.key, at)?;
    }
    check_opening(rt, alloc, &wrapped)
}

#[test]
fn each_key_has_the_confounder_of_its_place(rt: HostRuntime) -> Result<(), Fail> {
    let fresh = [item(2, Etype::Aes256, 3), item(2, Etype::Aes128, 4)];
    let kept = [item(1, Etype::Aes128Sha2, 5)];
    // A drawn key has its own bytes before its confounder.
    for (drawn, places) in [(true, [32, 64, 80]), (false, [0, 16, 32])] {
        check_places(&rt, rt.alloc(), drawn, places, &fresh, &kept)?;
    }
    Ok(())
}

/// What is remembered of keys under a history key, where a history of this length counts.
fn remembered(
    rt: &HostRuntime,
    history: &PlainKey,
    count: u16,
    keys: &[PlainItem],
    old: OldSets,
) -> Result<OldSets, Fail> {
    if keys.len() > 4 {
        return Err(Fail::from("the block is for four keys"));
    }
    let history = MasterKey::new(history);
    Ok(remembered_sets(rt.alloc(), &history, count, &block(), keys, old)?)
}

fn no_sets(rt: &HostRuntime) -> OldSets {
    OldSets::from_vec(Vec::new(rt.alloc()))
}

/// The first password, of two keys.
fn first_remembered(rt: &HostRuntime, history: &PlainKey) -> Result<OldSets, Fail> {
    let keys = [item(1, Etype::Aes256, 1), item(1, Etype::Aes128, 2)];
    remembered(rt, history, 3, &keys, no_sets(rt))
}

/// One more, of one key.
fn next_remembered(
    rt: &HostRuntime,
    history: &PlainKey,
    kvno: u16,
    byte: u8,
    sets: OldSets,
) -> Result<OldSets, Fail> {
    let keys = [item(kvno, Etype::Aes256, byte)];
    remembered(rt, history, 3, &keys, sets)
}

fn three_remembered(rt: &HostRuntime, history: &PlainKey) -> Result<OldSets, Fail> {
    let sets = first_remembered(rt, history)?;
    let sets = next_remembered(rt, history, 2, 3, sets)?;
    next_remembered(rt, history, 3, 4, sets)
}

/// Whether the key was used before, where another one stands.
fn check_used(
    rt: &impl Abort,
    alloc: Global,
    ready: &MasterKey,
    sets: &[OldSet],
    key: PlainKey,
    used: bool,
) -> Result<(), Fail> {
    let plain = open_sets(alloc, ready, sets)?;
    let standing = [item(4, Etype::Aes256, 5)];
    assert_eq!(rt; is_reused(&[key], &standing, plain.as_slice()), used);
    Ok(())
}

/// What is left of three passwords.
fn check_sets(
    rt: &impl Abort,
    alloc: Global,
    ready: &MasterKey,
    sets: &[OldSet],
) -> Result<(), Fail> {
    let [newest, older] = sets else {
        return Err(Fail::from("two sets stay"));
    };
    assert!(rt; newest.kvno == 3 && older.kvno == 2);
    for (key, used) in [
        (key_of(Etype::Aes256, 3), true),
        (key_of(Etype::Aes256, 5), true),
        // The same bytes in another type, and a password that is forgotten.
        (key_of(Etype::Aes256Sha2, 3), false),
        (key_of(Etype::Aes256, 1), false),
    ] {
        check_used(rt, alloc, ready, sets, key, used)?;
    }
    Ok(())
}

#[test]
fn a_history_of_three_remembers_two_passwords(rt: HostRuntime) -> Result<(), Fail> {
    let history = key_of(Etype::Aes128Sha2, 7);
    let sets = three_remembered(&rt, &history)?;
    let ready = MasterKey::new(&history);
    check_sets(&rt, rt.alloc(), &ready, sets.as_slice())
}

/// What stays from version 3 on, once the keys are settled.
fn left_of(alloc: Global, wrapped: &[KeyItem]) -> Result<Keys, Fail> {
    let name = parse_name(alloc, b"host/a", b"R")?;
    let settled = settled_keys(alloc, &name, wrapped)?;
    Ok(kept_from(3, settled))
}

/// The key of version 3 alone is left, as it was wrapped, and with a salt of its own.
fn check_left(rt: &impl Abort, left: &[KeyItem], blob: &[u8]) -> Result<(), Fail> {
    let [only] = left else {
        return Err(Fail::from("one key is of version 3 or later"));
    };
    assert!(rt; newest_version(left) == 3 && only.wrapped.as_slice() == blob);
    // RFC 4120, section 4: the realm and the components.
    assert!(rt;
        matches!(&only.salt, Salt::Special(salt) if salt.as_slice() == b"Rhosta".as_slice())
    );
    Ok(())
}

/// The master key opens the two keys, the first of which is this one.
fn check_first(
    rt: &impl Abort,
    alloc: Global,
    master: &PlainKey,
    wrapped: &[KeyItem],
    key: &PlainKey,
) -> Result<(), Fail> {
    let master = MasterKey::new(master);
    let opened = open_items(alloc, &master, wrapped)?;
    assert!(rt; matches!(opened.as_slice(), [one, _] if one.kvno == 3 && one.key == *key));
    Ok(())
}

/// What is left of the wrapped keys, the first of which is this one.
fn check_settled(
    rt: &impl Abort,
    alloc: Global,
    master: &PlainKey,
    wrapped: &[KeyItem],
    key: &PlainKey,
) -> Result<(), Fail> {
    let blob = blob_at(alloc, master, key, 0)?;
    let left = left_of(alloc, wrapped)?;
    check_left(rt, left.as_slice(), blob.as_slice())
}

#[test]
fn keys_stay_and_settle_as_they_are_wrapped(rt: HostRuntime) -> Result<(), Fail> {
    let master = key_of(Etype::Aes128, 1);
    let plain = [item(3, Etype::Aes256, 3), item(2, Etype::Aes256, 2)];
    let wrapped = rekeyed(rt.alloc(), &master, false, &plain, &[])?;
    check_settled(&rt, rt.alloc(), &master, &wrapped, &plain[0].key)?;
    check_first(&rt, rt.alloc(), &master, &wrapped, &plain[0].key)
}

// ---- rows

fn push_count(out: &mut Vec<u8>, count: usize) -> Result<(), Fail> {
    let Ok(count) = u16::try_from(count) else {
        return Err(Fail::from("too many"));
    };
    out.extend_from_slice(&count.to_be_bytes())?;
    Ok(())
}

fn push_text(out: &mut Vec<u8>, bytes: &[u8]) -> Result<(), Fail> {
    push_count(out, bytes.len())?;
    out.extend_from_slice(bytes)?;
    Ok(())
}

/// A key as a row has it: version 1, type 18, a normal salt.
fn push_key(out: &mut Vec<u8>, wrapped: &[u8]) -> Result<(), Fail> {
    out.extend_from_slice(b"\0\x01\0\x12\0\0\0\0")?;
    push_text(out, wrapped)
}

/// What stands before the keys of a record of this name under version 1 of the master key, with this tagged list behind
/// the version's item.
fn push_front(out: &mut Vec<u8>, name: &[u8], tags: &[u8]) -> Result<(), Fail> {
    push_text(out, name)?;
    // No attributes and lives; a modification by a@R in 1700000000.
    out.extend_from_slice(&[0; 20])?;
    out.extend_from_slice(if tags.is_empty() {
        b"\0\x02"
    } else {
        b"\0\x04"
    })?;
    out.extend_from_slice(b"\0\x02\0\x08\0\xf1\x53\x65a@R\0\0\x08\0\x02\x01\0")?;
    out.extend_from_slice(tags)?;
    Ok(())
}

fn push_keys(out: &mut Vec<u8>, keys: &[Blob]) -> Result<(), Fail> {
    push_count(out, keys.len())?;
    for key in keys {
        push_key(out, key.as_slice())?;
    }
    Ok(())
}

/// A remembered key of type 18.
fn push_old_key(out: &mut Vec<u8>, wrapped: &[u8]) -> Result<(), Fail> {
    out.extend_from_slice(b"\0\x12")?;
    push_text(out, wrapped)
}

/// Remembered keys of one set.
fn push_old(out: &mut Vec<u8>, old: &[Blob]) -> Result<(), Fail> {
    out.extend_from_slice(b"\0\0\0\x01\0\x01")?;
    push_count(out, old.len())?;
    for key in old {
        push_old_key(out, key.as_slice())?;
    }
    Ok(())
}

/// A record of this name under version 1 of the master key, with this tagged list behind the version's item, these keys
/// and these remembered keys of one set.
fn record(
    alloc: Global,
    name: &[u8],
    tags: &[u8],
    keys: &[Blob],
    old: &[Blob],
) -> Result<Princ, Fail>
    ensures { IfOk result (λ p. IsRow p) }
{
    let mut bytes = Vec::new(alloc);
    push_front(&mut bytes, name, tags)?;
    push_keys(&mut bytes, keys)?;
    push_old(&mut bytes, old)?;
    let princ = decode(alloc, &bytes)?;
    if encoded_len(&princ) > MAX_ROW_LEN {
        return Err(Fail::from("too long"));
    }
    Ok(princ)
}

fn put(rows: &mut Rows, princ: Princ) -> Result<(), Fail>
    requires { IsRow princ }
{
    let op = Op::PutPrinc(princ);
    if !rows.has_room_for(&op) {
        return Err(Fail::from("no room"));
    }
    Ok(rows.apply(op)?)
}

/// What is asked of a case.
#[derive(Clone, Copy)]
struct Case {
    /// The key under which a@R has its key, and that under which it remembers one.
    under: PlainKey,
    history: PlainKey,
    /// The keys of kadmin/history, and whether it is there.
    keys: usize,
    secs: u32,
}

/// K/M, of which version 1 is active from the second 5 on, and has no auxiliary keys.
fn put_master(alloc: Global, rows: &mut Rows) -> Result<(), Fail> {
    let master = key_of(Etype::Aes256, 1);
    let chain = b"\0\x09\0\x06\x01\0\x05\0\0\0\0\x0a\0\0";
    let keys = [blob_at(alloc, &master, &master, 0)?];
    let princ = record(alloc, b"K/M@R", chain, &keys, &[])?;
    put(rows, princ)
}

/// a@R with a key and a remembered one.
fn put_own(alloc: Global, rows: &mut Rows, case: &Case) -> Result<(), Fail> {
    let own = [blob_at(alloc, &case.under, &key_of(Etype::Aes256, 3), 0)?];
    let old = [blob_at(alloc, &case.history, &key_of(Etype::Aes256, 4), 0)?];
    let princ = record(alloc, b"a@R", &[], &own, &old)?;
    put(rows, princ)
}

/// kadmin/history with its key.
fn put_history(alloc: Global, rows: &mut Rows) -> Result<(), Fail> {
    let master = key_of(Etype::Aes256, 1);
    let history = key_of(Etype::Aes256, 2);
    let keys = [blob_at(alloc, &master, &history, 0)?];
    let princ = record(alloc, b"kadmin/history@R", &[], &keys, &[])?;
    put(rows, princ)
}

fn put_all(alloc: Global, rows: &mut Rows, case: &Case) -> Result<(), Fail> {
    put_master(alloc, rows)?;
    put_own(alloc, rows, case)?;
    if case.keys > 0 {
        put_history(alloc, rows)?;
    }
    Ok(())
}

/// K/M, a@R with a key and a remembered one, and kadmin/history where it has keys.
fn rows_of(rt: &HostRuntime, case: &Case) -> Result<Rows, Fail> {
    let alloc = rt.alloc();
    let mut rows = Rows::from_vecs(Vec::new(alloc), Vec::new(alloc)).ok_or("no rows")?;
    put_all(alloc, &mut rows, case)?;
    Ok(rows)
}

fn judge(rt: &HostRuntime, case: &Case) -> Result<Result<(), Unsound>, Fail> {
    let alloc = rt.alloc();
    let rows = rows_of(rt, case)?;
    let mut masters = Vec::new(alloc);
    masters.push(Master {
        version: 1,
        key: key_of(Etype::Aes256, 1),
    })?;
    let masters = Masters::from_vec(masters);
    Ok(check_rows(alloc, &rows, &masters, b"R", case.secs))
}

#[test]
fn the_first_record_at_fault_is_told(rt: HostRuntime) -> Result<(), Fail> {
    let master = key_of(Etype::Aes256, 1);
    let history = key_of(Etype::Aes256, 2);
    let cases = [
        (master, history, 1, 5, Ok(())),
        (master, history, 1, 4, Err(Unsound::Row(0))),
        (history, history, 1, 5, Err(Unsound::Row(1))),
        (master, master, 1, 5, Err(Unsound::Row(1))),
        (master, master, 0, 5, Err(Unsound::Missing)),
    ];
    for (under, history, keys, secs, answer) in cases {
        let case = Case {
            under,
            history,
            keys,
            secs,
        };
        let found = judge(&rt, &case)?;
        assert!(rt; found == answer);
    }
    Ok(())
}

/// The key of the record and the one that it remembers.
fn check_plain(rt: &impl Abort, alloc: Global, case: &Case, found: &Princ) -> Result<(), Fail> {
    let master = MasterKey::new(&case.under);
    let history = MasterKey::new(&case.history);
    let plain = open_princ(alloc, &master, &history, found)?;
    assert!(rt;
        matches!(plain.keys.as_slice(), [k] if k.kvno == 1 && k.key == key_of(Etype::Aes256, 3))
    );
    assert!(rt; plain.old.as_slice().len() == 1);
    Ok(())
}

/// The records that are there, and those that are not.
fn check_found(rt: &impl Abort, alloc: Global, case: &Case, rows: &Rows) -> Result<(), Fail> {
    assert!(rt; record_named(rows, b"b@R").is_none());
    let found = record_named(rows, b"a@R").ok_or("a@R is there")?;
    check_plain(rt, alloc, case, found)?;
    assert_eq!(rt; records_under(rows, b"R", 1), 2);
    assert_eq!(rt; records_under(rows, b"OTHER", 1), 3);
    assert_eq!(rt; records_with_policy(rows, b"p"), 0);
    assert!(rt; !has_policy_row(rows, b"p"));
    Ok(())
}

#[test]
fn records_are_found_and_opened(rt: HostRuntime) -> Result<(), Fail> {
    let master = key_of(Etype::Aes256, 1);
    let history = key_of(Etype::Aes256, 2);
    let case = Case {
        under: master,
        history,
        keys: 1,
        secs: 5,
    };
    let rows = rows_of(&rt, &case)?;
    check_found(&rt, rt.alloc(), &case, &rows)
}
