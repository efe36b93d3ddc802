use kadm_commands::{
    KeyShown, KeysShown, MasterRow, MasterRows, NameList, PrincShown, PurgeRow, PurgeRows, Reply,
    Totals,
};
use kadm_replies::{print_refusal, print_reply};
use kdb_base::{
    Blob, Etype, Extract, ExtractList, Field, MemoryOut, PlainKey, Point, Refusal, Time,
};
use policy_rules::Policy;
use serving_versions::Cause;
use std::alloc::Global;
use std::process::Abort;
use std::test::*;
use tagged_data::{StringAttribute, StringAttributes};

fn point(sno: u32, secs: u32) -> Point {
    Point {
        sno,
        time: Time::new(secs, 0),
    }
}

fn two_keys(alloc: Global) -> Result<KeysShown, MemoryOut> {
    let mut keys = Vec::new(alloc);
    for etype in [Etype::Aes256, Etype::Aes128] {
        keys.push(KeyShown {
            kvno: 1,
            etype,
            special: false,
        })?;
    }
    Ok(KeysShown::from_vec(keys))
}

fn alice(alloc: Global) -> Result<PrincShown, MemoryOut> {
    Ok(PrincShown {
        name: Blob::from_bytes(alloc, b"alice@EXAMPLE.ORG")?,
        expire: 0,
        pw_expire: 0,
        pw_changed: Some(1_700_000_000),
        max_life: 0,
        max_renew: 0,
        modified: 1_700_000_000,
        modifier: Blob::from_bytes(alloc, b"admin/local@EXAMPLE.ORG")?,
        mkvno: 1,
        attributes: 0,
        policy: None,
        keys: two_keys(alloc)?,
    })
}

const ALICE: &str = "- principal alice@EXAMPLE.ORG
- expires never
- pwexpires never
- pwchanged 2023-11-14T22:13:20Z
- maxlife 0
- maxrenewlife 0
- modified 2023-11-14T22:13:20Z admin/local@EXAMPLE.ORG
- mkvno 1
- flags none
- policy -
- key 1 aes256-cts-hmac-sha1-96 normal
- key 1 aes128-cts-hmac-sha1-96 normal
ok
";

fn one_key(alloc: Global) -> Result<KeysShown, MemoryOut> {
    let mut keys = Vec::new(alloc);
    keys.push(KeyShown {
        kvno: 12,
        etype: Etype::Aes256Sha2,
        special: true,
    })?;
    Ok(KeysShown::from_vec(keys))
}

fn bob(alloc: Global) -> Result<PrincShown, MemoryOut> {
    let policy = Blob::from_bytes(alloc, b"std")?;
    let keys = one_key(alloc)?;
    let mut princ = alice(alloc)?;
    princ.pw_changed = None;
    princ.attributes = 0xc0;
    princ.policy = Some(policy);
    princ.keys = keys;
    Ok(princ)
}

const BOB: &str = "- principal alice@EXAMPLE.ORG
- expires never
- pwexpires never
- pwchanged never
- maxlife 0
- maxrenewlife 0
- modified 2023-11-14T22:13:20Z admin/local@EXAMPLE.ORG
- mkvno 1
- flags -allow_tix +requires_preauth
- policy std
- key 12 aes256-cts-hmac-sha384-192 special
ok
";

fn is_text(alloc: Global, reply: &Reply, expected: &str) -> Result<bool, MemoryOut> {
    let text = print_reply(alloc, reply)?;
    Ok(text.as_slice() == expected.as_bytes())
}

// The same of a reply that is given away.
fn prints(alloc: Global, reply: Reply, expected: &str) -> Result<bool, MemoryOut> {
    is_text(alloc, &reply, expected)
}

fn shows(alloc: Global, princ: PrincShown, expected: &str) -> Result<bool, MemoryOut> {
    prints(alloc, Reply::Shown(princ), expected)
}

fn shows_alice(alloc: Global) -> Result<bool, MemoryOut> {
    let princ = alice(alloc)?;
    shows(alloc, princ, ALICE)
}

fn shows_bob(alloc: Global) -> Result<bool, MemoryOut> {
    let princ = bob(alloc)?;
    shows(alloc, princ, BOB)
}

#[test]
fn principals(rt: HostRuntime) -> Result<(), Fail> {
    let alloc = rt.alloc();
    assert!(rt; shows_alice(alloc)?);
    assert!(rt; shows_bob(alloc)?);
    Ok(())
}

fn is_done(alloc: Global) -> Result<bool, MemoryOut> {
    let reply = Reply::Done(point(2, 1_700_000_000));
    prints(alloc, reply, "ok 2 1700000000.000000\n")
}

fn is_added(alloc: Global) -> Result<bool, MemoryOut> {
    let reply = Reply::MasterAdded(point(3, 1_700_000_000), 2);
    prints(alloc, reply, "ok 3 1700000000.000000 mkvno 2\n")
}

fn is_used(alloc: Global) -> Result<bool, MemoryOut> {
    let reply = Reply::MasterUsed(point(5, 1_700_000_000), 3, 1_700_003_600);
    let text = "ok 5 1700000000.000000 mkvno 3 from 2023-11-14T23:13:20Z\n";
    prints(alloc, reply, text)
}

fn is_rekeyed(alloc: Global) -> Result<bool, MemoryOut> {
    let totals = Totals {
        updated: 3,
        already: 0,
        gone: 1,
    };
    let text = "ok 3 principals processed: 3 updated, 0 already current, 1 gone\n";
    prints(alloc, Reply::Rekeyed(totals), text)
}

#[test]
fn changes(rt: HostRuntime) -> Result<(), Fail> {
    let alloc = rt.alloc();
    assert!(rt; is_done(alloc)?);
    assert!(rt; is_added(alloc)?);
    assert!(rt; is_used(alloc)?);
    assert!(rt; is_rekeyed(alloc)?);
    assert!(rt; prints(alloc, Reply::Stashed, "ok\n")?);
    Ok(())
}

fn master(version: u16, secs: Option<u32>, active: bool) -> MasterRow {
    MasterRow {
        version,
        etype: Etype::Aes256,
        secs,
        active,
    }
}

const MASTERS: &str = "- 1 aes256-cts-hmac-sha1-96 2023-11-14T22:13:20Z *
ok
";

const WAITING: &str = "- 2 aes256-cts-hmac-sha1-96 -
ok
";

const PURGED: &str = "- purged 2
ok 9 1700003600.000000 1 purged
";

const KEPT: &str = "- kept 3 protects 3
ok 0 purged
";

fn one_master(alloc: Global, row: MasterRow) -> Result<Reply, MemoryOut> {
    let mut rows = Vec::new(alloc);
    rows.push(row)?;
    Ok(Reply::MastersListed(MasterRows::from_vec(rows)))
}

fn lists(alloc: Global, row: MasterRow, expected: &str) -> Result<bool, MemoryOut> {
    let reply = one_master(alloc, row)?;
    prints(alloc, reply, expected)
}

#[test]
fn masters(rt: HostRuntime) -> Result<(), Fail> {
    let alloc = rt.alloc();
    assert!(rt; lists(alloc, master(1, Some(1_700_000_000), true), MASTERS)?);
    assert!(rt; lists(alloc, master(2, None, false), WAITING)?);
    Ok(())
}

fn one_purged(
    alloc: Global,
    point: Option<Point>,
    version: u16,
    cause: Option<Cause>,
) -> Result<Reply, MemoryOut> {
    let mut rows = Vec::new(alloc);
    rows.push(PurgeRow { version, cause })?;
    Ok(Reply::MastersPurged(point, PurgeRows::from_vec(rows)))
}

fn is_purged(alloc: Global) -> Result<bool, MemoryOut> {
    let reply = one_purged(alloc, Some(point(9, 1_700_003_600)), 2, None)?;
    prints(alloc, reply, PURGED)
}

fn is_kept(alloc: Global) -> Result<bool, MemoryOut> {
    let reply = one_purged(alloc, None, 3, Some(Cause::Protects(3)))?;
    prints(alloc, reply, KEPT)
}

#[test]
fn purges(rt: HostRuntime) -> Result<(), Fail> {
    let alloc = rt.alloc();
    assert!(rt; is_purged(alloc)?);
    assert!(rt; is_kept(alloc)?);
    Ok(())
}

#[test]
fn names(rt: HostRuntime) -> Result<(), Fail> {
    let alloc = rt.alloc();
    let mut names = Vec::new(alloc);
    names.push(Blob::from_bytes(alloc, b"a@R")?)?;
    let listed = Reply::Listed(NameList::from_vec(names));
    assert!(rt; is_text(alloc, &listed, "- a@R\nok\n")?);
    Ok(())
}

fn age(alloc: Global) -> Result<StringAttribute, MemoryOut> {
    Ok(StringAttribute {
        key: Blob::from_bytes(alloc, b"age")?,
        value: Blob::from_bytes(alloc, b"")?,
    })
}

#[test]
fn strings(rt: HostRuntime) -> Result<(), Fail> {
    let alloc = rt.alloc();
    let mut attributes = Vec::new(alloc);
    attributes.push(age(alloc)?)?;
    let strings = Reply::Strings(StringAttributes::from_vec(attributes));
    assert!(rt; is_text(alloc, &strings, "- age \nok\n")?);
    Ok(())
}

fn one_extracted(alloc: Global) -> Result<Reply, MemoryOut> {
    let mut keys = Vec::new(alloc);
    keys.push(Extract {
        kvno: 2,
        key: PlainKey::from_bytes(Etype::Aes128, b"\x00\x0a\xff3456789abcdef"),
    })?;
    Ok(Reply::Extracted(ExtractList::from_vec(keys)))
}

#[test]
fn extracts(rt: HostRuntime) -> Result<(), Fail> {
    let extracted = one_extracted(rt.alloc())?;
    let text = "- key 2 aes128-cts-hmac-sha1-96 000aff33343536373839616263646566\nok\n";
    assert!(rt; prints(rt.alloc(), extracted, text)?);
    Ok(())
}

#[test]
fn policies(rt: HostRuntime) -> Result<(), Fail> {
    let alloc = rt.alloc();
    let policy = Policy::new(Blob::from_bytes(alloc, b"std")?, 0, 86_400, 8, 3, 2);
    let text =
        "- policy std\n- maxlife 0\n- minlife 86400\n- minlength 8\n- minclasses 3\n- history 2\nok\n";
    assert!(rt; is_text(alloc, &Reply::PolicyShown(policy), text)?);
    Ok(())
}

fn tells(alloc: Global, letters: &[u8], expected: &str) -> Result<bool, MemoryOut> {
    let letters = Blob::from_bytes(alloc, letters)?;
    prints(alloc, Reply::Privileges(letters), expected)
}

#[test]
fn privileges(rt: HostRuntime) -> Result<(), Fail> {
    let alloc = rt.alloc();
    assert!(rt; tells(alloc, b"a", "- privileges a\nok\n")?);
    assert!(rt; tells(alloc, b"", "- privileges -\nok\n")?);
    Ok(())
}

const REFUSALS: [(Refusal, &str); 35] = [
    (Refusal::BadLine, "err 1 BadLine\n"),
    (Refusal::BadName { offset: 7 }, "err 2 BadName 7\n"),
    (Refusal::Duplicate, "err 3 Duplicate\n"),
    (Refusal::UnknownPrincipal, "err 4 UnknownPrincipal\n"),
    (Refusal::UnknownPolicy, "err 5 UnknownPolicy\n"),
    (Refusal::PolicyInUse { count: 3 }, "err 6 PolicyInUse 3\n"),
    (Refusal::Denied { line: 0 }, "err 7 Denied 0\n"),
    (Refusal::Protected, "err 8 Protected\n"),
    (Refusal::PassTooShort, "err 9 PassTooShort\n"),
    (Refusal::PassClasses, "err 10 PassClasses\n"),
    (Refusal::PassReused, "err 11 PassReused\n"),
    (
        Refusal::PassTooSoon { until: 951_827_445 },
        "err 12 PassTooSoon 2000-02-29T12:30:45Z\n",
    ),
    (
        Refusal::PassTooSoon { until: 0 },
        "err 12 PassTooSoon never\n",
    ),
    (
        Refusal::BadValue {
            field: Field::MaxRenewLife,
        },
        "err 13 BadValue maxrenewlife\n",
    ),
    (
        Refusal::RecordTooLarge {
            size: 4_294_967_296,
        },
        "err 14 RecordTooLarge 4294967296\n",
    ),
    (
        Refusal::TooManyMasters { limit: 4 },
        "err 15 TooManyMasters 4\n",
    ),
    (
        Refusal::UnknownMaster { version: 9 },
        "err 16 UnknownMaster 9\n",
    ),
    (Refusal::NoActiveMaster, "err 17 NoActiveMaster\n"),
    (Refusal::StashMissing, "err 18 StashMissing\n"),
    (Refusal::StashWrong, "err 19 StashWrong\n"),
    (Refusal::NotADatabase, "err 20 NotADatabase\n"),
    (Refusal::AlreadyThere, "err 21 AlreadyThere\n"),
    (
        Refusal::Damaged { file: 2, place: 40 },
        "err 22 Damaged 2 40\n",
    ),
    (Refusal::TimeEnd, "err 23 TimeEnd\n"),
    (Refusal::DumpBad { line: 5 }, "err 24 DumpBad 5\n"),
    (Refusal::Busy, "err 25 Busy\n"),
    (Refusal::Closed, "err 26 Closed\n"),
    (Refusal::LineTooLong, "err 27 LineTooLong\n"),
    (Refusal::KeysFull, "err 28 KeysFull\n"),
    (
        Refusal::RowsFull { limit: 100_000 },
        "err 29 RowsFull 100000\n",
    ),
    (
        Refusal::StringsFull { limit: 16 },
        "err 30 StringsFull 16\n",
    ),
    (Refusal::UnknownString, "err 31 UnknownString\n"),
    (Refusal::LockedDown, "err 32 LockedDown\n"),
    (Refusal::BadKeytab { place: 14 }, "err 33 BadKeytab 14\n"),
    (Refusal::UnknownEntry, "err 34 UnknownEntry\n"),
];

fn check_refusal(
    rt: &impl Abort,
    alloc: Global,
    refusal: &Refusal,
    expected: &str,
) -> Result<(), Fail> {
    let text = print_refusal(alloc, refusal)?;
    assert_eq!(rt; text.as_slice(), expected.as_bytes());
    Ok(())
}

fn refused(alloc: Global, refusal: Refusal) -> Result<Blob, MemoryOut> {
    let reply = Reply::Refused(refusal);
    print_reply(alloc, &reply)
}

#[test]
fn refusals(rt: HostRuntime) -> Result<(), Fail> {
    for (refusal, expected) in REFUSALS {
        check_refusal(&rt, rt.alloc(), &refusal, expected)?;
    }
    let text = refused(rt.alloc(), Refusal::Protected)?;
    assert_eq!(rt; text.as_slice(), b"err 8 Protected\n".as_slice());
    Ok(())
}
