//! How many bytes records have, those of the rows and as the plain state tells it.

ghost use Rattle.std.specs.Prelude.{IfOk};
ghost use Rattle.princ_record.specs.RowLimits.{IsRow};

use crate::databases::{
    Database, LOCAL, Turn, check_case, check_created, created, is_accepted, push_letters,
};
use crate::order::{BOB, OF_BOB, check_strings};
use kdb_base::Etype;
use kdb_plain::row_len;
use princ_record::{Princ, encoded_len};
use princ_rows::Rows;
use std::alloc::Global;
use std::process::Abort;
use std::test::Fail;

/// The record at this place, in the order of names.
fn stored(rows: &Rows, at: usize) -> Result<&Princ, Fail>
    ensures { IfOk result (λ p. IsRow p.now) }
{
    match rows.princs().get(at) {
        Some(row) => Ok(row.get()),
        None => Err(Fail::from("a record")),
    }
}

/// Compares how long the record at this place is, on both sides. Its keys are under keys of aes256-cts-hmac-sha1-96.
fn check_length(
    rt: &impl Abort,
    database: &Database,
    at: usize,
    wanted: usize,
) -> Result<(), Fail> {
    let princ = stored(&database.rows, at)?;
    assert_eq!(rt; encoded_len(princ), wanted);
    let state = database.plain.state();
    let plain = state.princs.as_slice().get(at).ok_or("a principal")?;
    let told = row_len(Etype::Aes256, Etype::Aes256, plain);
    assert_eq!(rt; told, wanted as u64);
    Ok(())
}

const SVC: [Turn; 1] = [("addprinc -randkey svc", "ok 2 1700000000.000000")];

fn check_versions(rt: &impl Abort, alloc: Global, database: &mut Database) -> Result<(), Fail> {
    check_length(rt, database, 3, 219)?;
    for _ in 0..14 {
        assert!(rt; is_accepted(rt, alloc, database, b"cpw -randkey -keepold svc")?);
    }
    check_length(rt, database, 3, 2011)?;
    assert!(rt; is_accepted(rt, alloc, database, b"cpw -randkey -keepold svc")?);
    check_length(rt, database, 3, 2139)
}

/// A version has 128 bytes: two keys of 62 and 46 wrapped bytes, and ten bytes with each. Beside its keys the record
/// has 45 bytes, its name of 15, the modifier's of 23, and 8 for when its keys were set.
#[test]
fn version_of_two_keys_has_128_bytes(rt: HostRuntime) -> Result<(), Fail> {
    let mut database = check_created(&rt, rt.alloc(), &SVC)?;
    check_versions(&rt, rt.alloc(), &mut database)
}

fn check_attributes(rt: &impl Abort, alloc: Global, database: &mut Database) -> Result<(), Fail> {
    check_length(rt, database, 1, 83)?;
    check_strings(rt, alloc, database, "setstr bob a", &OF_BOB[..15])?;
    check_length(rt, database, 1, 15507)
}

/// An attribute has 1028 bytes, and all of them four more.
#[test]
fn attribute_of_1024_letters_has_1028_bytes(rt: HostRuntime) -> Result<(), Fail> {
    let mut database = check_created(&rt, rt.alloc(), &[BOB])?;
    check_attributes(&rt, rt.alloc(), &mut database)
}

/// A line with 200 letters n between these.
fn long_line(alloc: Global, front: &str, behind: &[u8]) -> Result<Vec<u8>, Fail> {
    let mut line = front.as_bytes().to_vec(alloc)?;
    push_letters(&mut line, b'n', 200)?;
    line.extend_from_slice(behind)?;
    Ok(line)
}

fn add_long_name(rt: &impl Abort, alloc: Global, database: &mut Database) -> Result<(), Fail> {
    let line = long_line(alloc, "addprinc -randkey ", b"")?;
    assert!(rt; is_accepted(rt, alloc, database, &line)?);
    Ok(())
}

fn add_versions(rt: &impl Abort, alloc: Global, database: &mut Database) -> Result<(), Fail> {
    let line = long_line(alloc, "cpw -randkey -keepold ", b"")?;
    for _ in 0..15 {
        assert!(rt; is_accepted(rt, alloc, database, &line)?);
    }
    Ok(())
}

fn fill(rt: &impl Abort, alloc: Global, database: &mut Database) -> Result<(), Fail> {
    add_long_name(rt, alloc, database)?;
    add_versions(rt, alloc, database)
}

/// A database with a principal whose name has 200 letters, with 16 versions of two keys.
fn with_long_name(rt: &impl Abort, alloc: Global) -> Result<Database, Fail> {
    let mut database = created(alloc)?;
    fill(rt, alloc, &mut database)?;
    Ok(database)
}

fn rename(rt: &impl Abort, alloc: Global, database: &mut Database) -> Result<(), Fail> {
    let line = long_line(alloc, "renprinc ", b" b")?;
    let wanted = "ok 18 1700000000.000000";
    check_case(rt, alloc, database, None, LOCAL, &line, wanted)
}

fn check_renamed(rt: &impl Abort, alloc: Global, database: &mut Database) -> Result<(), Fail> {
    check_length(rt, database, 3, 2336)?;
    rename(rt, alloc, database)?;
    check_length(rt, database, 1, 8889)
}

/// Each of 32 keys then has the old salt, which is the realm's 11 bytes and the name's 200. The name has 199 bytes
/// less.
#[test]
fn new_name_makes_a_record_of_8889_bytes(rt: HostRuntime) -> Result<(), Fail> {
    let mut database = with_long_name(&rt, rt.alloc())?;
    check_renamed(&rt, rt.alloc(), &mut database)
}
