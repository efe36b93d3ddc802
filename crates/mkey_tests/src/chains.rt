//! As many versions as there may be.

use crate::databases::{Asked, CREATED, Database, Turn, answered, check_turns, created, stored};
use crate::plans::access;
use kadm_commands::Reply;
use kdb_base::{Etype, Master};
use master_keys::open_with;
use princ_record::encoded_len;
use std::alloc::Global;
use std::process::Abort;
use std::test::Fail;

fn is_added(reply: &Reply) -> bool {
    match reply {
        Reply::MasterAdded(_, _) => true,
        _ => false,
    }
}

/// Adds a version of this type.
fn add(alloc: Global, database: &mut Database, etype: Etype) -> Result<(), Fail> {
    let reply = answered(alloc, database, None, Asked::Add(Some(etype)), CREATED)?;
    if is_added(&reply) {
        Ok(())
    } else {
        Err(Fail::from("a version"))
    }
}

/// Adds 31 versions, of these types in turn.
fn add_all(alloc: Global, database: &mut Database, types: &[Etype]) -> Result<(), Fail> {
    for at in 0..31 {
        let etype = types.get(at % 4).ok_or("a type")?;
        add(alloc, database, *etype)?;
    }
    Ok(())
}

/// A database with 32 versions, the first of AES-256 and the others of these types in turn.
fn filled(alloc: Global, types: &[Etype]) -> Result<Database, Fail> {
    let mut database = created(alloc)?;
    add_all(alloc, &mut database, types)?;
    Ok(database)
}

const OF_ONE_TYPE: [Etype; 4] = [Etype::Aes256Sha2; 4];

const OF_ALL_TYPES: [Etype; 4] = [
    Etype::Aes128,
    Etype::Aes256,
    Etype::Aes128Sha2,
    Etype::Aes256Sha2,
];

/// There is no room for a version more.
const FULL: [Turn; 1] = [(Asked::Add(None), CREATED, "err 15 TooManyMasters 32\n")];

/// A denial is told before that.
const FULL_AND_DENIED: [Turn; 1] = [(Asked::Add(None), CREATED, "err 7 Denied 0\n")];

fn check_denied(rt: &impl Abort, alloc: Global, database: &mut Database) -> Result<(), Fail> {
    let denies = access(alloc, b"joe *\n")?;
    check_turns(rt, alloc, database, Some(&denies), &FULL_AND_DENIED)
}

#[test]
fn thirty_two_versions_are_the_most(rt: HostRuntime) -> Result<(), Fail> {
    let mut database = filled(rt.alloc(), &OF_ONE_TYPE)?;
    check_turns(&rt, rt.alloc(), &mut database, None, &FULL)?;
    check_denied(&rt, rt.alloc(), &mut database)
}

/// 32 keys under the newest, which is of a type with tags of 24 bytes, and that one under each of the others.
#[test]
fn greatest_record_of_master_keys_has_5261_bytes(rt: HostRuntime) -> Result<(), Fail> {
    let database = filled(rt.alloc(), &OF_ONE_TYPE)?;
    let entry = stored(&database.rows, 0)?;
    assert_eq!(rt; encoded_len(entry), 5261);
    Ok(())
}

/// From this master key all of them are opened.
fn check_opening(
    rt: &impl Abort,
    alloc: Global,
    database: &Database,
    master: &Master,
) -> Result<(), Fail> {
    let entry = stored(&database.rows, 0)?;
    let opened = open_with(alloc, entry, master.version, &master.key)?;
    assert!(rt; opened.as_slice() == database.masters.as_slice());
    Ok(())
}

fn check_openings(rt: &impl Abort, alloc: Global, database: &Database) -> Result<(), Fail> {
    assert_eq!(rt; database.masters.as_slice().len(), 32);
    for master in database.masters.as_slice() {
        check_opening(rt, alloc, database, master)?;
    }
    Ok(())
}

#[test]
fn each_of_thirty_two_versions_opens_all(rt: HostRuntime) -> Result<(), Fail> {
    let database = filled(rt.alloc(), &OF_ALL_TYPES)?;
    check_openings(&rt, rt.alloc(), &database)
}
