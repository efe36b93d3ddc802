use first_rows::{CreateSpec, first_rows};
use kdb_base::{Blob, Etype, Master, Masters, PlainKey, Refusal, Stop, Time};
use princ_name::{Realm, is_realm};
use princ_rows::Rows;
use stash_file::write_stash;
use stash_opening::find_masters;
use std::alloc::Global;
use std::process::Abort;
use std::test::*;

const SECS: u32 = 1_700_000_000;

const REALM: &[u8] = b"EXAMPLE.ORG";

fn realm(alloc: Global) -> Result<Realm, Fail> {
    if !is_realm(REALM) {
        return Err(Fail::from("a realm"));
    }
    Ok(Realm::from_bytes(alloc, REALM)?)
}

fn spec(alloc: Global) -> Result<CreateSpec, Fail> {
    let realm = realm(alloc)?;
    Ok(CreateSpec::new(realm, None, Etype::Aes256, 1000))
}

/// The rows of a new database, and its master keys.
fn created(alloc: Global) -> Result<(Rows, Masters), Fail> {
    let spec = spec(alloc)?;
    Ok(first_rows(alloc, &spec, Time::new(SECS, 0), &[7; 2048])?)
}

/// The stash of one master key of this version.
fn stash_of(rt: &HostRuntime, version: u16, byte: u8) -> Result<Blob, Fail> {
    let key = PlainKey::from_bytes(Etype::Aes256, &[byte; 32]);
    let mut masters = Vec::new(rt.alloc());
    masters.push(Master { version, key })?;
    let masters = Masters::from_vec(masters);
    Ok(write_stash(rt.alloc(), REALM, SECS, &masters)?)
}

/// Why the rows are refused with this stash, which stands in file 5.
fn refusal_of(
    alloc: Global,
    rows: &Rows,
    stash: Option<&[u8]>,
    secs: u32,
) -> Result<Option<Refusal>, Fail> {
    match find_masters(alloc, rows, REALM, stash, 5, secs) {
        Ok(_) => Ok(None),
        Err(Stop::Refused(why)) => Ok(Some(why)),
        Err(Stop::Halt(_)) => Err(Fail::from("memory was given")),
    }
}

/// Why the rows of a new database are refused with this stash.
fn refusal(alloc: Global, stash: Option<&[u8]>, secs: u32) -> Result<Option<Refusal>, Fail> {
    let (rows, _) = created(alloc)?;
    refusal_of(alloc, &rows, stash, secs)
}

/// The stash opens the rows to these master keys.
fn check_found(
    rt: &impl Abort,
    alloc: Global,
    rows: &Rows,
    masters: &Masters,
    stash: &[u8],
) -> Result<(), Fail> {
    let Ok(found) = find_masters(alloc, rows, REALM, Some(stash), 5, SECS) else {
        return Err(Fail::from("the stash opens the rows"));
    };
    assert!(rt; found.as_slice() == masters.as_slice());
    Ok(())
}

/// The stash of the master keys of a new database with these rows.
fn check_stash(rt: &impl Abort, alloc: Global, rows: &Rows, masters: &Masters) -> Result<(), Fail> {
    let stash = write_stash(alloc, REALM, SECS, masters)?;
    assert_eq!(rt; stash.len(), 76);
    let front = b"\x05\x02\0\0\0\x46\0\x02\0\x0bEXAMPLE.ORG\0\x01K\0\x01M\0\0\0\x01";
    assert!(rt; stash.as_slice().starts_with(front));
    check_found(rt, alloc, rows, masters, stash.as_slice())?;
    // One second earlier no version of the master key is active.
    let early = refusal(alloc, Some(stash.as_slice()), SECS - 1)?;
    assert_eq!(rt; early, Some(Refusal::StashWrong));
    Ok(())
}

#[test]
fn a_new_database_is_opened_by_its_stash(rt: HostRuntime) -> Result<(), Fail> {
    let (rows, masters) = created(rt.alloc())?;
    check_stash(&rt, rt.alloc(), &rows, &masters)
}

/// The rows of a new database are refused with this stash for this cause, or for none.
fn check_refusal(
    rt: &impl Abort,
    alloc: Global,
    stash: Option<&[u8]>,
    answer: Option<Refusal>,
) -> Result<(), Fail> {
    let found = refusal(alloc, stash, SECS)?;
    assert_eq!(rt; found, answer);
    Ok(())
}

/// A stash that is good, one of another version, and one of another key.
fn check_stashes<'a>(
    rt: &impl Abort,
    alloc: Global,
    good: &'a [u8],
    other: &'a [u8],
    wrong: &'a [u8],
) -> Result<(), Fail> {
    let short = good.get(..75).ok_or("a stash")?;
    let cases: [(Option<&[u8]>, Option<Refusal>); 9] = [
        (Some(good), None),
        (None, Some(Refusal::StashMissing)),
        (Some(b"\x05\x02"), Some(Refusal::StashMissing)),
        (Some(b"\x05\x02\0\0\0\0"), Some(Refusal::StashMissing)),
        (Some(b"\x05\x02\0\0\0\0more"), Some(Refusal::StashMissing)),
        (
            Some(b"\x05\x01"),
            Some(Refusal::Damaged { file: 5, place: 0 }),
        ),
        (Some(short), Some(Refusal::Damaged { file: 5, place: 2 })),
        (Some(other), Some(Refusal::UnknownMaster { version: 9 })),
        (Some(wrong), Some(Refusal::StashWrong)),
    ];
    for (stash, answer) in cases {
        check_refusal(rt, alloc, stash, answer)?;
    }
    Ok(())
}

#[test]
fn stashes_are_refused_for_their_causes(rt: HostRuntime) -> Result<(), Fail> {
    let good = stash_of(&rt, 1, 7)?;
    let other = stash_of(&rt, 9, 7)?;
    let wrong = stash_of(&rt, 1, 8)?;
    check_stashes(
        &rt,
        rt.alloc(),
        good.as_slice(),
        other.as_slice(),
        wrong.as_slice(),
    )
}
