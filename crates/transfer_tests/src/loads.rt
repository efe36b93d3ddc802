use dump_text::Dump;
use first_rows::{CreateSpec, first_rows};
use kdb_base::{Blob, Etype, Masters, Point, Refusal, Stop, Time};
use primary_loading::judge_dump;
use princ_name::{Realm, is_realm};
use princ_rows::Rows;
use stash_file::write_stash;
use std::alloc::Global;
use std::process::Abort;
use std::test::*;

const SECS: u32 = 1_700_000_000;

const REALM: &[u8] = b"EXAMPLE.ORG";

fn realm(alloc: Global, name: &[u8]) -> Result<Realm, Fail> {
    if !is_realm(name) {
        return Err(Fail::from("a realm"));
    }
    Ok(Realm::from_bytes(alloc, name)?)
}

/// The random bytes of a creation.
fn block() -> [u8; 2048] {
    [7; 2048]
}

fn spec(alloc: Global) -> Result<CreateSpec, Fail> {
    Ok(CreateSpec::new(realm(alloc, REALM)?, None, Etype::Aes256, 1000))
}

/// The rows of a new database, and its master keys.
fn made_rows(alloc: Global) -> Result<(Rows, Masters), Fail> {
    let spec = spec(alloc)?;
    Ok(first_rows(alloc, &spec, Time::new(SECS, 0), &block())?)
}

/// The rows of a new database, and the stash of its master keys.
fn created(alloc: Global) -> Result<(Rows, Blob), Fail> {
    let (rows, masters) = made_rows(alloc)?;
    Ok((rows, write_stash(alloc, REALM, SECS, &masters)?))
}

/// A dump of the rows of a new database, at a point of its own, and the stash of its master keys.
fn dump_of(alloc: Global, name: &[u8]) -> Result<(Dump, Blob), Fail> {
    let realm = realm(alloc, name)?;
    let (rows, stash) = created(alloc)?;
    let time = Time::new(SECS, 5);
    let dump = Dump {
        realm,
        point: Point { sno: 9, time },
        rows,
    };
    Ok((dump, stash))
}

/// Why the dump is refused with this stash, which stands in file 5.
fn refusal(
    alloc: Global,
    dump: &Dump,
    stash: Option<&[u8]>,
    secs: u32,
) -> Result<Option<Refusal>, Fail> {
    match judge_dump(alloc, dump, REALM, stash, 5, secs) {
        Ok(_) => Ok(None),
        Err(Stop::Refused(why)) => Ok(Some(why)),
        Err(Stop::Halt(_)) => Err(Fail::from("memory was given")),
    }
}

// How the dump is judged with this stash and without one.
fn check_times(rt: &impl Abort, alloc: Global, dump: &Dump, stash: &[u8]) -> Result<(), Fail> {
    let stash = Some(stash);
    // One second earlier no version of the master key is active.
    let cases: [(Option<&[u8]>, u32, Option<Refusal>); 3] = [
        (stash, SECS, None),
        (stash, SECS - 1, Some(Refusal::DumpBad { line: 4 })),
        (None, SECS, Some(Refusal::StashMissing)),
    ];
    for (stash, secs, wanted) in &cases {
        assert_eq!(rt; refusal(alloc, dump, *stash, *secs)?, *wanted);
    }
    Ok(())
}

// The dump of a new database has K/M, kadmin/history and krbtgt/EXAMPLE.ORG in its lines 4 to 6, and its end in line 7.
#[test]
fn dumps_are_judged_at_a_time(rt: HostRuntime) -> Result<(), Fail> {
    let (dump, stash) = dump_of(rt.alloc(), REALM)?;
    check_times(&rt, rt.alloc(), &dump, stash.as_slice())
}

// The dump is refused at this line.
fn check_line(
    rt: &impl Abort,
    alloc: Global,
    dump: &Dump,
    stash: &[u8],
    line: u32,
) -> Result<(), Fail> {
    let found = refusal(alloc, dump, Some(stash), SECS)?;
    assert_eq!(rt; found, Some(Refusal::DumpBad { line }));
    Ok(())
}

// The dump of another realm, and then in its own one without kadmin/history.
fn check_lines(rt: &impl Abort, alloc: Global, dump: &mut Dump, stash: &[u8]) -> Result<(), Fail> {
    check_line(rt, alloc, dump, stash, 2)?;
    dump.realm = realm(alloc, REALM)?;
    dump.rows.drop_princ(b"kadmin/history@EXAMPLE.ORG");
    check_line(rt, alloc, dump, stash, 6)
}

#[test]
fn dumps_are_refused_at_their_lines(rt: HostRuntime) -> Result<(), Fail> {
    let (mut dump, stash) = dump_of(rt.alloc(), b"EXAMPLE.COM")?;
    check_lines(&rt, rt.alloc(), &mut dump, stash.as_slice())
}
