ghost use Rattle.std.specs.Prelude.{◌≡◌, [], IfOk};

use kdb_base::{Fails, Point, Refusal, Stop, Time};
use kdb_disk::MemoryDisk;
use princ_rows::Rows;
use std::alloc::Global;
use std::process::Abort;
use std::test::*;
use store_opening::create_parts;

fn no_rows(alloc: Global) -> Result<Rows, Fail>
    ensures { IfOk result (λ r. r.princs ≡ []) }
{
    match Rows::from_vecs(Vec::new(alloc), Vec::new(alloc)) {
        Some(rows) => Ok(rows),
        None => Err(Fail::from("no rows")),
    }
}

// Makes a database of no rows: 0 where it is made, 1 where there is one already.
fn make(alloc: Global, disk: &mut MemoryDisk) -> Result<u8, Fail> {
    let rows = no_rows(alloc)?;
    let base = Point {
        sno: 1,
        time: Time::new(1700000000, 0),
    };
    let realm = b"EXAMPLE.ORG";
    match create_parts(alloc, disk, 2, realm, rows, base, 2, 2048, Some(b"stash")).err() {
        None => Ok(0),
        Some(Stop::Refused(Refusal::AlreadyThere)) => Ok(1),
        Some(_) => Err(Fail::from("not made")),
    }
}

fn check_made_once(rt: &impl Abort, alloc: Global, disk: &mut MemoryDisk) -> Result<(), Fail> {
    assert_eq!(rt; make(alloc, disk)?, 0);
    // the first unit: KDBC, format 2, the realm, and the point
    assert!(rt;
        disk.bytes(1).starts_with(b"KDBC\0\x02\0\x0bEXAMPLE.ORG\0\0\0\x01\x65\x53\xf1\0\0\0\0\0\0")
    );
    assert_eq!(rt; disk.bytes(1).len(), 16384);
    assert_eq!(rt; disk.bytes(5), b"stash".as_slice());
    assert_eq!(rt; make(alloc, disk)?, 1);
    Ok(())
}

#[test]
fn a_database_is_made_once(rt: HostRuntime) -> Result<(), Fail> {
    let alloc = rt.alloc();
    let mut disk = MemoryDisk::new(alloc, Fails::none(alloc))?;
    check_made_once(&rt, alloc, &mut disk)
}
