//! What the files of a disk stand for.

use kdb_base::{MemoryOut, Refusal, Stop};
use kdb_disk::MemoryDisk;
use kdb_store::Database;
use princ_rows::Rows;
use std::alloc::Global;
use std::test::Fail;

/// The database that the files of the disk stand for: None where they stand for none.
pub(crate) fn found(alloc: Global, disk: &mut MemoryDisk) -> Result<Option<Database>, Fail> {
    match Database::recover(alloc, disk) {
        Ok(database) => Ok(Some(database)),
        Err(Stop::Refused(Refusal::NotADatabase)) => Ok(None),
        Err(stop) => Err(Fail::from(stop)),
    }
}

/// Drops the database, if there is one, by a call of the library, so that no caller is proved with
/// all that it owns.
pub(crate) fn let_go_of_place(place: Option<Database>) {
    let held: Result<Option<Database>, MemoryOut> = Ok(place);
    let _ = held.err();
}

/// Reads the files of the disk, as an opening does, and keeps nothing.
pub(crate) fn look_through(alloc: Global, disk: &mut MemoryDisk) -> Result<(), Fail> {
    match found(alloc, disk).err() {
        None => Ok(()),
        Some(fail) => Err(fail),
    }
}

fn are_same_rows(one: &Rows, other: &Rows) -> bool {
    let (princs, others) = (one.princs(), other.princs());
    let (policies, other_policies) = (one.policies(), other.policies());
    if princs.len() != others.len() || policies.len() != other_policies.len() {
        return false;
    }
    for (princ, other) in princs.iter().zip(others) {
        if princ.get() != other.get() {
            return false;
        }
    }
    for (policy, other) in policies.iter().zip(other_policies) {
        if policy.get() != other.get() {
            return false;
        }
    }
    true
}

fn are_same_files(one: &Database, other: &Database) -> bool {
    one.format() == other.format()
        && one.log_size() == other.log_size()
        && one.block() == other.block()
        && one.stash() == other.stash()
        && one.realm().as_slice() == other.realm().as_slice()
}

fn are_same(one: &Database, other: &Database) -> bool {
    if one.held() != other.held() || !are_same_files(one, other) {
        return false;
    }
    let (first, last) = one.held();
    for sno in first.sno..last.sno {
        if one.log().entry(sno) != other.log().entry(sno) {
            return false;
        }
    }
    one.log().entry(last.sno) == other.log().entry(last.sno)
        && are_same_rows(one.rows(), other.rows())
}

/// Whether both are none, or one place: the realm, the format, the log's size and block, the stash, the rows, and
/// the entries that the log holds.
pub(crate) fn is_one_place(one: &Option<Database>, other: &Option<Database>) -> bool {
    match one {
        Some(one) => match other {
            Some(other) => are_same(one, other),
            None => false,
        },
        None => other.is_none(),
    }
}
