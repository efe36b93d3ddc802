//! Logs in memory that hold made changes, those of each log of one time.

ghost use Rattle.std.specs.Prelude.{◌≡◌, ◌≢◌, ◌≤◌, ◌+◌, IfOk, OnOk, None, Some, length, ℕ};
ghost use Rattle.princ_name.specs.Printed.{IsPrinted};
ghost use Rattle.princ_rows.specs.Entries.{IsOp, logged};

use kdb_base::{Blob, Point, Time};
use princ_name::is_printed;
use princ_rows::entries::entry_len;
use princ_rows::entry_laws::entries_have_their_lengths;
use princ_rows::{Entry, Op};
use std::alloc::Global;
use std::test::Fail;
use update_log::{Log, NewLog};

/// The second of each entry, where no other is given.
pub(crate) const SECS: u32 = 1_700_000_000;

/// The point of this serial at this second.
pub(crate) fn at(sno: u32, secs: u32) -> Point {
    Point {
        sno,
        time: Time::new(secs, 0),
    }
}

/// The printed name.
pub(crate) fn printed(alloc: Global, text: &[u8]) -> Result<Blob, Fail>
    ensures { IfOk result IsPrinted }
{
    if !is_printed(text) {
        return Err(Fail::from("a printed name"));
    }
    Ok(Blob::from_bytes(alloc, text)?)
}

/// The entry of the change, behind the last one and at its time.
fn next_entry(last: &Point, op: Op) -> Result<Entry, Fail>
    requires op { IsOp (Some op) }
    ensures point { IfOk result (λ e. e.point ≡ record { sno = last.now.sno + 1; time = last.now.time }) }
    ensures change { IfOk result (λ e. e.op ≢ None) }
    ensures fits { IfOk result (λ e. IsOp e.op) }
    ensures short { IfOk result (λ e. (cell : ℕ) → length (logged (record { entry = e; cell = cell })) ≤ 2047) }
{
    entries_have_their_lengths();
    let op = Some(op);
    if last.sno == u32::MAX || entry_len(&op) > 2047 {
        drop(op);
        return Err(Fail::from("a later serial and a short entry"));
    }
    let point = Point {
        sno: last.sno + 1,
        time: last.time,
    };
    Ok(Entry { point, op })
}

/// Puts the change behind those that the log holds.
#[tactic(auto, using(update_log::proofs::Spelled::follows))]
pub(crate) fn append(alloc: Global, log: &mut Log, op: Op) -> Result<(), Fail>
    requires op { IsOp (Some op) }
    requires block { log.old.block ≡ 2048 }
    ensures { OnOk result (log.new.block ≡ 2048) }
{
    let (_, last) = log.held();
    let entry = next_entry(&last, op)?;
    let ready = log.ready(alloc, &entry, last.sno);
    drop(entry);
    let _body = ready?;
    log.take_prepared();
    Ok(())
}

/// A log of this base marker, which is to hold at most so many entries.
pub(crate) fn begun_at(alloc: Global, base: Point, size: u32) -> Result<Log, Fail>
    requires size { (2 ≤ size) × (size ≤ 10000) }
    ensures { IfOk result (λ log. log.block ≡ 2048) }
{
    let made = NewLog::new(alloc, 3, base, size, 2048, None)?;
    Ok(made.into_log())
}

/// A log of a base marker of this serial, which is to hold at most so many entries.
pub(crate) fn begun(alloc: Global, sno: u32, size: u32) -> Result<Log, Fail>
    requires size { (2 ≤ size) × (size ≤ 10000) }
    ensures { IfOk result (λ log. log.block ≡ 2048) }
{
    begun_at(alloc, at(sno, SECS), size)
}
