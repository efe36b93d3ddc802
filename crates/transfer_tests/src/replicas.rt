//! A replica over a disk in memory.
ghost use Rattle.std.specs.Prelude.{◌≡◌, false, IfOk};
ghost use Rattle.replica_core.specs.Opened.{IsHeldOn, is_broken};

use kdb_base::Fails;
use kdb_disk::{Disk, MemoryDisk};
use princ_rows::{Entries, PollReply, ReplyCode};
use replica_core::{Replica, Taken4};
use std::alloc::Global;
use std::test::*;

/// Another answer than the one that was to come.
#[derive(Debug, Drop)]
struct Unexpected;

fn opened(alloc: Global, disk: &mut MemoryDisk) -> Result<Replica, Fail>
    ensures on { IfOk result (λ r. IsHeldOn r.database (⟦<MemoryDisk as Disk>⟧.view disk.new)) }
    ensures whole { IfOk result (λ r. is_broken r.database r.failed ≡ false) }
{
    match Replica::recover(alloc, disk, 100) {
        Ok(replica) => Ok(replica),
        Err(_) => Err(Fail::from(Unexpected)),
    }
}

#[test]
fn no_serial_comes_behind_no_database(rt: HostRuntime) -> Result<(), Fail> {
    let alloc = rt.alloc();
    let mut disk = MemoryDisk::new(alloc, Fails::none(alloc))?;
    let mut replica = opened(alloc, &mut disk)?;
    assert!(rt; replica.database().is_none());
    assert_eq!(rt; replica.point().sno, 0);
    let asked = replica.point();
    let none = Entries::from_vec(Vec::new(alloc));
    let answer = replica.take_reply(
        alloc,
        &mut disk,
        PollReply::new(ReplyCode::Nil, asked, none),
    );
    assert_eq!(rt; answer, Ok(Taken4::Nil));
    drop(replica);
    Ok(())
}
