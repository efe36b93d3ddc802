//! Records that are moved under another version of the master key, one by one.

ghost use Rattle.std.specs.Prelude.{IfOk, IfSome};
ghost use Rattle.mkey_tests.specs.Made.{MayBeStored};
ghost use Rattle.princ_record.specs.Princs.{IsPrinc};

use crate::databases::{
    Asked, CREATED, Database, LATER, Turn, check_created, check_lengths, check_reply, check_turns,
    created_with_other_keys, put, stored,
};
use crate::plans::{ADDED, OF_TWO_TYPES};
use kadm_commands::{Reply, Totals};
use kdb_base::limits::{MAX_KEYS, MAX_ROW_LEN};
use kdb_base::{Masters, PlainKey};
use kdb_places::may_apply;
use kdb_plain::master_of;
use master_keys::{MasterKey, open_keys};
use princ_record::{Princ, copy, encoded_len};
use princ_rows::Op;
use rekey_work::{Rewrapped, Settled, Taken, rewrap_outside, settle, take};
use std::alloc::Global;
use std::process::Abort;
use std::test::Fail;

/// The random bytes of a rewrapping.
fn confounders() -> [u8; 512] {
    [5; 512]
}

/// Takes a record whose keys the master key of its version opens.
#[tactic(auto, using(crate::proofs::Opened::opened_by))]
fn taken(
    alloc: Global,
    princ: &Princ,
    masters: &Masters,
    active: u16,
) -> Result<Option<Taken>, Fail>
    requires { IsPrinc princ.now }
{
    let items = princ.keys.as_slice();
    if princ.chain.is_some() || items.len() > MAX_KEYS || active == 0 {
        return Err(Fail::from("an ordinary record"));
    }
    if master_of(masters, active).is_none() {
        return Err(Fail::from("a listed version"));
    }
    let Some(old) = master_of(masters, princ.mkvno) else {
        return Err(Fail::from("its master key"));
    };
    let _keys = open_keys(alloc, &MasterKey::new(&old), items)?;
    Ok(take(alloc, princ, masters, active)?)
}

/// The work of one who takes a record that is under another version.
fn work(
    alloc: Global,
    database: &Database,
    at: usize,
    active: u16,
) -> Result<Option<Rewrapped>, Fail> {
    let princ = stored(&database.rows, at)?;
    let Some(taken) = taken(alloc, princ, &database.masters, active)? else {
        return Ok(None);
    };
    match rewrap_outside(alloc, taken, &confounders()) {
        Ok(work) => Ok(Some(work)),
        Err(_) => Err(Fail::from("no memory")),
    }
}

/// What becomes of work on the record at this place.
#[tactic(auto, using(crate::proofs::Stored::may_be_stored))]
fn settled_at(
    alloc: Global,
    database: &Database,
    at: usize,
    active: u16,
    work: Rewrapped,
) -> Result<Settled, Fail>
    ensures { IfOk result MayBeStored }
{
    let now = stored(&database.rows, at)?;
    work.holds_work();
    Ok(settle(alloc, Some(now), &database.masters, active, work)?)
}

/// Stores the record.
#[tactic(auto, unfolding(princ_rows::specs::Entries::IsOp))]
fn store(database: &mut Database, settled: Settled) -> Result<(), Fail>
    requires { MayBeStored settled }
{
    let Settled::Updated(made) = settled else {
        return Err(Fail::from("nothing to store"));
    };
    if encoded_len(&made) > MAX_ROW_LEN {
        return Err(Fail::from("a short record"));
    }
    let op = Op::PutPrinc(made);
    if !may_apply(&database.rows, &op) {
        return Err(Fail::from("no room"));
    }
    put(database, op)
}

/// Moves the record at this place under the version, where it is under another one.
fn moved(alloc: Global, database: &mut Database, at: usize, active: u16) -> Result<bool, Fail> {
    let Some(work) = work(alloc, database, at, active)? else {
        return Ok(false);
    };
    let settled = settled_at(alloc, database, at, active, work)?;
    store(database, settled)?;
    Ok(true)
}

/// How many of kadmin/history and krbtgt are moved under the version, and how many are under it already.
fn moved_all(alloc: Global, database: &mut Database, active: u16) -> Result<Totals, Fail> {
    let mut updated: u32 = 0;
    let mut already: u32 = 0;
    for at in 1..3 {
        if moved(alloc, database, at, active)? {
            updated = updated.saturating_add(1);
        } else {
            already = already.saturating_add(1);
        }
    }
    Ok(Totals {
        updated,
        already,
        gone: 0,
    })
}

/// Compares what is told of the moves.
fn check_totals(rt: &impl Abort, alloc: Global, totals: Totals, wanted: &str) -> Result<(), Fail> {
    let reply = Reply::Rekeyed(totals);
    check_reply(rt, alloc, &reply, wanted)
}

/// Moves them under version 3, and compares what is told.
fn check_moves(
    rt: &impl Abort,
    alloc: Global,
    database: &mut Database,
    wanted: &str,
) -> Result<(), Fail> {
    let totals = moved_all(alloc, database, 3)?;
    check_totals(rt, alloc, totals, wanted)
}

const MOVED: &str = "ok 2 principals processed: 2 updated, 0 already current, 0 gone\n";

const STAYED: &str = "ok 2 principals processed: 0 updated, 2 already current, 0 gone\n";

/// A database with three versions, and its records under the newest.
fn rekeyed(rt: &impl Abort, alloc: Global) -> Result<Database, Fail> {
    let mut database = check_created(rt, alloc, &ADDED)?;
    check_moves(rt, alloc, &mut database, MOVED)?;
    Ok(database)
}

/// A wrapped key is two bytes, 16 of the confounder, the key, and a tag of 12 bytes.
#[test]
fn records_are_moved_once(rt: HostRuntime) -> Result<(), Fail> {
    let mut database = rekeyed(&rt, rt.alloc())?;
    check_moves(&rt, rt.alloc(), &mut database, STAYED)?;
    check_lengths(&rt, &database, 2, &[62, 46])
}

/// Moves them under version 2, and compares how long their keys are.
fn check_tags(rt: &impl Abort, alloc: Global, database: &mut Database) -> Result<(), Fail> {
    let totals = moved_all(alloc, database, 2)?;
    check_totals(rt, alloc, totals, MOVED)?;
    check_lengths(rt, database, 1, &[66])?;
    check_lengths(rt, database, 2, &[66, 50])
}

/// Under a master key of aes128-cts-hmac-sha256-128 the tag has 16 bytes: a key of 32 bytes has 66, and one of 16 has
/// 50.
#[test]
fn tag_is_that_of_the_other_type(rt: HostRuntime) -> Result<(), Fail> {
    let mut database = check_created(&rt, rt.alloc(), &OF_TWO_TYPES)?;
    check_tags(&rt, rt.alloc(), &mut database)
}

/// Once no record is under versions 1 and 2, they go with their activations.
const PURGED: [Turn; 3] = [
    (
        Asked::Purge,
        LATER,
        "- purged 1\n- purged 2\n- kept 3 protects 2\nok 7 1700003600.000000 2 purged\n",
    ),
    (
        Asked::List,
        LATER,
        "- 3 aes256-cts-hmac-sha1-96 2023-11-14T23:13:20Z *\nok\n",
    ),
    (Asked::Use(1, None), LATER, "err 16 UnknownMaster 1\n"),
];

#[test]
fn versions_that_do_not_serve_are_purged(rt: HostRuntime) -> Result<(), Fail> {
    let mut database = rekeyed(&rt, rt.alloc())?;
    check_turns(&rt, rt.alloc(), &mut database, None, &PURGED)
}

/// What became of work.
#[derive(Clone, Copy, Debug, PartialEq)]
enum Became {
    Updated(u16),
    Already,
    Gone,
    /// The record that stands now was found in place of the one that was taken, and this version is active in place of
    /// its.
    AnotherRecord(Option<u16>),
    /// A record was told that does not stand now.
    StrangeRecord,
    SameRecord(Option<u16>),
}

/// What became of work where this record was found, and that one stands by its name now.
fn outcome_where(found: &Princ, now: Option<&Princ>, version: Option<u16>) -> Became {
    if now == Some(found) {
        Became::AnotherRecord(version)
    } else {
        Became::StrangeRecord
    }
}

/// What became of work, where this record stands by its name now.
fn outcome_of(settled: &Settled, now: Option<&Princ>) -> Became {
    match settled {
        Settled::Updated(made) => Became::Updated(made.mkvno),
        Settled::Already => Became::Already,
        Settled::Gone => Became::Gone,
        Settled::Changed(None, version) => Became::SameRecord(*version),
        Settled::Changed(Some(found), version) => outcome_where(found, now, *version),
    }
}

/// Takes krbtgt's record to move it under version 3, and tells what becomes of the work where this stands by its name
/// then, these are the master keys, and this version is active.
fn settled(
    alloc: Global,
    database: &Database,
    now: Option<&Princ>,
    masters: &Masters,
    active: u16,
) -> Result<Became, Fail>
    requires { IfSome now (λ stored. IsPrinc stored.now) }
{
    let work = work(alloc, database, 2, 3)?.ok_or("work")?;
    let settled = settle(alloc, now, masters, active, work)?;
    Ok(outcome_of(&settled, now))
}

#[test]
fn work_on_a_name_that_is_gone_is_not_stored(rt: HostRuntime) -> Result<(), Fail> {
    let database = check_created(&rt, rt.alloc(), &ADDED)?;
    let became = settled(rt.alloc(), &database, None, &database.masters, 3)?;
    assert_eq!(rt; became, Became::Gone);
    Ok(())
}

/// What becomes of work on krbtgt's record, which stands as it was taken, where these are the master keys and this
/// version is active.
fn check_settled(
    rt: &impl Abort,
    alloc: Global,
    database: &Database,
    masters: &Masters,
    active: u16,
    wanted: Became,
) -> Result<(), Fail> {
    let now = stored(&database.rows, 2)?;
    let became = settled(alloc, database, Some(now), masters, active)?;
    assert_eq!(rt; became, wanted);
    Ok(())
}

#[test]
fn work_is_stored_under_the_active_version_alone(rt: HostRuntime) -> Result<(), Fail> {
    let database = check_created(&rt, rt.alloc(), &ADDED)?;
    let cases = [
        (3, Became::Updated(3)),
        (2, Became::SameRecord(Some(2))),
        (1, Became::SameRecord(Some(1))),
    ];
    for (active, wanted) in cases {
        check_settled(
            &rt,
            rt.alloc(),
            &database,
            &database.masters,
            active,
            wanted,
        )?;
    }
    Ok(())
}

/// The same with other keys, since each change has random bytes of its own.
const WITH_OTHER_KEYS: [Turn; 3] = [
    (
        Asked::Use(1, None),
        CREATED,
        "ok 2 1700000000.000000 mkvno 1 from 2023-11-14T22:13:20Z\n",
    ),
    (
        Asked::Add(None),
        CREATED,
        "ok 3 1700000000.000000 mkvno 2\n",
    ),
    (
        Asked::Add(None),
        CREATED,
        "ok 4 1700000000.000000 mkvno 3\n",
    ),
];

#[test]
fn work_under_another_master_key_is_not_stored(rt: HostRuntime) -> Result<(), Fail> {
    let database = check_created(&rt, rt.alloc(), &ADDED)?;
    let other = check_created(&rt, rt.alloc(), &WITH_OTHER_KEYS)?;
    check_settled(
        &rt,
        rt.alloc(),
        &database,
        &other.masters,
        3,
        Became::SameRecord(None),
    )
}

/// What becomes of work on krbtgt's record of one database, where that of another one stands.
fn check_over_newer(
    rt: &impl Abort,
    alloc: Global,
    taken_from: &Database,
    database: &Database,
) -> Result<(), Fail> {
    let now = stored(&database.rows, 2)?;
    let became = settled(alloc, taken_from, Some(now), &database.masters, 3)?;
    assert_eq!(rt; became, Became::AnotherRecord(None));
    Ok(())
}

/// A record that was moved meanwhile is told in place of the one that was taken, and there is nothing more to do.
#[test]
fn work_over_a_newer_record_is_not_stored(rt: HostRuntime) -> Result<(), Fail> {
    let taken_from = check_created(&rt, rt.alloc(), &ADDED)?;
    let mut database = rekeyed(&rt, rt.alloc())?;
    check_over_newer(&rt, rt.alloc(), &taken_from, &database)?;
    assert!(rt; !moved(rt.alloc(), &mut database, 2, 3)?);
    Ok(())
}

/// A database whose krbtgt has other keys, under the same master key of version 3: the random bytes of the creation are
/// others, and those of the changes behind it the same.
fn newer(rt: &impl Abort, alloc: Global) -> Result<Database, Fail> {
    let mut other = created_with_other_keys(alloc)?;
    check_turns(rt, alloc, &mut other, None, &ADDED)?;
    check_moves(rt, alloc, &mut other, MOVED)?;
    Ok(other)
}

/// Stores this record in place of the one of its name.
fn replaced(alloc: Global, database: &mut Database, newer: &Princ) -> Result<(), Fail>
    requires { IsPrinc newer.now }
{
    let newer = copy(alloc, newer)?;
    store(database, Settled::Updated(newer))
}

/// The keys of the record at this place.
fn keys_at(alloc: Global, database: &Database, at: usize) -> Result<Vec<PlainKey>, Fail> {
    let princ = stored(&database.rows, at)?;
    let master = master_of(&database.masters, princ.mkvno).ok_or("its master key")?;
    let items = princ.keys.as_slice();
    Ok(open_keys(alloc, &MasterKey::new(&master), items)?)
}

/// What became of work on krbtgt's record.
fn outcome_at(database: &Database, settled: &Settled) -> Result<Became, Fail> {
    let now = stored(&database.rows, 2)?;
    Ok(outcome_of(settled, Some(now)))
}

/// Takes krbtgt's record to move it under version 3, and tells what becomes of the work where this record was stored in
/// place of it meanwhile.
fn settled_behind(alloc: Global, database: &mut Database, newer: &Princ) -> Result<Became, Fail>
    requires { IsPrinc newer.now }
{
    let work = work(alloc, database, 2, 3)?.ok_or("work")?;
    replaced(alloc, database, newer)?;
    let settled = settled_at(alloc, database, 2, 3, work)?;
    outcome_at(database, &settled)
}

/// The keys of krbtgt's record are others than before.
fn check_other_keys(
    rt: &impl Abort,
    alloc: Global,
    database: &Database,
    before: &[PlainKey],
) -> Result<(), Fail> {
    let behind = keys_at(alloc, database, 2)?;
    assert!(rt; before != behind.as_slice());
    Ok(())
}

/// What becomes of work where this record was stored meanwhile, and which keys stand then.
fn check_behind(
    rt: &impl Abort,
    alloc: Global,
    database: &mut Database,
    newer: &Princ,
) -> Result<(), Fail>
    requires { IsPrinc newer.now }
{
    let before = keys_at(alloc, database, 2)?;
    let became = settled_behind(alloc, database, newer)?;
    assert_eq!(rt; became, Became::AnotherRecord(None));
    check_other_keys(rt, alloc, database, &before)
}

/// A record whose keys were changed meanwhile stays as it is, and is told in place of the one that was taken. There is
/// nothing more to do, since its new keys are under version 3.
#[test]
fn work_over_other_keys_is_not_stored(rt: HostRuntime) -> Result<(), Fail> {
    let mut database = check_created(&rt, rt.alloc(), &ADDED)?;
    let other = newer(&rt, rt.alloc())?;
    check_behind(&rt, rt.alloc(), &mut database, stored(&other.rows, 2)?)?;
    assert!(rt; !moved(rt.alloc(), &mut database, 2, 3)?);
    Ok(())
}
