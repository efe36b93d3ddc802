//! A change of the database, with a log begun anew before it where one is due.

ghost use Rattle.std.specs.Prelude.{◌≡◌, ◌<◌, ◌≤◌, true, false, Err, OnErr, OnOk, Some, unwrap_or};
ghost use Rattle.kadm_commands.specs.declared.replies.Reply.TheVariants.{Done, Refused};
ghost use Rattle.kdb_base.specs.declared.outcomes.Halt.TheVariants.{MemoryOut as IsMemoryOut, DiskFault as IsDiskFault};
ghost use Rattle.kdb_base.specs.declared.outcomes.Refusal.TheVariants.{TimeEnd};
ghost use Rattle.kdb_disk.specs.Frames.{IsCall, IsCrashSafe};
ghost use Rattle.store_files.specs.Recovery.{LeavesPart};
ghost use Rattle.iprop_truths.specs.Parts.{IsPart, end_of};
ghost use Rattle.kdb_histories.specs.Calls.{HasTimeLeft};
ghost use Rattle.kdb_places.specs.Places.{point_of};
ghost use Rattle.kdb_histories.specs.Seen.{is_due};
ghost use Rattle.iprop_truths.specs.Blocks.{block_for};
ghost use Rattle.command_plans.specs.Given.{IsApplied};
ghost use Rattle.performed_plans.specs.Changes.{change_places};
ghost use Rattle.mkey_admin.specs.Plans.{reply_at};
ghost use Rattle.primary_core.specs.Deciding.{change_decided, ends_time, masters_changed, point_for, rows_changed};
ghost use Rattle.primary_core.specs.declared.decided.Decided.TheVariants.{Answer, Change};
ghost use Rattle.primary_core.specs.Opened.{place_of};
ghost use Rattle.princ_rows.specs.Entries.{IsOp, entry_len};
ghost use Rattle.princ_rows.specs.declared.entries.Op.{Op as Operation};
ghost use Rattle.store_files.specs.Kept.{IsOnDisk, place_kept};

use crate::decided::{Decided, DecidedChange};
use crate::moments::{first_in, is_last, next_in, reset_point};
use crate::primary::Primary;
use kadm_commands::Reply;
use kdb_base::{Halt, Masters, Point, Refusal, Time};
use kdb_disk::Disk;
use kdb_store::{Database, entry_length};
use mkey_admin::MasterChange;
use princ_rows::Op;
use std::alloc::Global;

// Whether an entry of this length begins the log anew. The last serial number of the log is given.
#[tactic(auto, using(crate::proofs::Serials::serial_below))]
fn is_due(database: &Database, sno: u32, len: usize) -> bool
    requires { sno ≡ (point_of (place_kept database.now)).sno }
    ensures due { (op : Operation) → len ≡ entry_len (Some op) → result ≡ is_due op (place_kept database.now) }
    ensures next { result ≡ false → sno < 4294967295 }
{
    sno == 4294967295 || len >= database.block() as usize
}

// The length of the blocks of the log that an entry of this length begins.
fn block_for(database: &Database, len: usize) -> u32
    requires { len < 16384 }
    ensures value { (op : Operation) → len ≡ entry_len (Some op) → result ≡ block_for op (place_kept database.now) }
    ensures range { (2048 ≤ result) × (result ≤ 16384) }
    ensures fits { len < result }
{
    if len >= database.block() as usize {
        (len as u32 / 2048 + 1) * 2048
    } else {
        database.block()
    }
}

// The point of a change whose entry has this length. None where the log is to begin anew and no later time is left.
fn point_for(database: &Database, len: usize, now: Time) -> Option<Point>
    ensures { (op : Operation) → len ≡ entry_len (Some op) → result ≡ point_for now op (place_kept database.now) }
{
    let last = database.point();
    if !is_due(database, last.sno, len) {
        return Some(next_in(last, now));
    }
    if is_last(last.time) {
        return None;
    }
    Some(first_in(last, now))
}

// What is answered where no later time is left.
fn too_late() -> Decided
    ensures { result ≡ Answer (Refused TimeEnd) }
{
    Decided::Answer(Reply::Refused(Refusal::TimeEnd))
}

/// A change at the clock's moment: it gets its point, and is refused where the log is to begin anew and no later time
/// is left.
pub(crate) fn decide_change(database: &Database, op: Op, now: Time) -> Decided
    requires { IsOp (Some op) }
    ensures { result ≡ change_decided now (rows_changed op) Done (place_kept database.now) }
{
    match point_for(database, entry_length(&op), now) {
        Some(point) => Decided::Change(DecidedChange { op, masters: None }, Reply::Done(point)),
        None => too_late(),
    }
}

// A change of master keys that gets this point.
fn at_point(change: MasterChange, point: Point) -> Decided
    ensures { result ≡ Change (masters_changed change) (reply_at point change.told) }
{
    let MasterChange { op, masters, told } = change;
    let change = DecidedChange {
        op,
        masters: Some(masters),
    };
    Decided::Change(change, told.reply(point))
}

/// The same of a change of master keys.
pub(crate) fn decide_master_change(database: &Database, change: MasterChange, now: Time) -> Decided
    requires { IsOp (Some change.op) }
    ensures { result
        ≡ change_decided now (masters_changed change) (λ point. reply_at point change.told) (place_kept database.now) }
{
    match point_for(database, entry_length(&change.op), now) {
        Some(point) => at_point(change, point),
        None => too_late(),
    }
}

// Makes the change behind a log that is begun anew.
fn change_anew<D: Disk>(
    alloc: Global,
    database: &mut Database,
    disk: &mut D,
    len: usize,
    op: Op,
    now: Time,
) -> Result<(), Halt>
    requires on { D.tells → IsOnDisk database.old (D.view disk.old) }
    requires whole { database.old.broken ≡ false }
    requires format { (place_kept database.old).format ≡ 2 }
    requires applied { IsApplied database.old.rows op }
    requires len { len ≡ entry_len (Some op) }
    requires short { len < 16384 }
    requires due { is_due op (place_kept database.old) ≡ true }
    requires left { HasTimeLeft (place_kept database.old) }
    ensures place { OnOk result
        (place_kept database.new ≡ end_of (place_kept database.old) (change_places now op (place_kept database.old))) }
    ensures on { D.tells → OnOk result (IsOnDisk database.new (D.view disk.new)) }
    ensures crash { IsCrashSafe D.Disk disk.old disk.new
        (LeavesPart (place_kept database.old) (change_places now op (place_kept database.old))) }
    ensures part { OnErr result
        (IsPart (place_kept database.old) (change_places now op (place_kept database.old)) (place_kept database.new)) }
    ensures rows { OnErr result ((place_kept database.new).rows ≡ (place_kept database.old).rows) }
    ensures memory { result ≡ Err IsMemoryOut → disk.new ≡ disk.old }
    ensures memory_place { result ≡ Err IsMemoryOut → place_kept database.new ≡ place_kept database.old }
    ensures still { D.tells → result ≡ Err IsMemoryOut → IsOnDisk database.new (D.view disk.new) }
    ensures whole { OnOk result (database.new.broken ≡ false) }
    ensures whole_still { result ≡ Err IsMemoryOut → database.new.broken ≡ false }
    ensures broken { result ≡ Err IsDiskFault → database.new.broken ≡ true }
    ensures call { IsCall D.Disk disk.old disk.new (result ≡ Err IsDiskFault) }
{
    let base = reset_point(database.point(), now);
    let block = block_for(database, len);
    let _point = database.reset_and_commit(alloc, disk, base, block, op, base.time)?;
    Ok(())
}

// Makes the change of rows, behind a log that is begun anew where one is due.
fn change_rows<D: Disk>(
    alloc: Global,
    database: &mut Database,
    disk: &mut D,
    op: Op,
    now: Time,
) -> Result<(), Halt>
    requires on { D.tells → IsOnDisk database.old (D.view disk.old) }
    requires whole { database.old.broken ≡ false }
    requires format { (place_kept database.old).format ≡ 2 }
    requires applied { IsApplied database.old.rows op }
    requires left { is_due op (place_kept database.old) ≡ true → HasTimeLeft (place_kept database.old) }
    ensures place { OnOk result
        (place_kept database.new ≡ end_of (place_kept database.old) (change_places now op (place_kept database.old))) }
    ensures on { D.tells → OnOk result (IsOnDisk database.new (D.view disk.new)) }
    ensures crash { IsCrashSafe D.Disk disk.old disk.new
        (LeavesPart (place_kept database.old) (change_places now op (place_kept database.old))) }
    ensures part { OnErr result
        (IsPart (place_kept database.old) (change_places now op (place_kept database.old)) (place_kept database.new)) }
    ensures rows { OnErr result ((place_kept database.new).rows ≡ (place_kept database.old).rows) }
    ensures memory { result ≡ Err IsMemoryOut → disk.new ≡ disk.old }
    ensures memory_place { result ≡ Err IsMemoryOut → place_kept database.new ≡ place_kept database.old }
    ensures still { D.tells → result ≡ Err IsMemoryOut → IsOnDisk database.new (D.view disk.new) }
    ensures whole { OnOk result (database.new.broken ≡ false) }
    ensures whole_still { result ≡ Err IsMemoryOut → database.new.broken ≡ false }
    ensures broken { result ≡ Err IsDiskFault → database.new.broken ≡ true }
    ensures call { IsCall D.Disk disk.old disk.new (result ≡ Err IsDiskFault) }
{
    let len = entry_length(&op);
    if is_due(database, database.point().sno, len) {
        return change_anew(alloc, database, disk, len, op, now);
    }
    let time = database.point().time.later(now);
    let _point = database.commit(alloc, disk, op, time)?;
    Ok(())
}

// Takes the master keys that a change brings, where it does.
fn renew(masters: &mut Masters, brought: Option<Masters>)
    ensures { masters.new ≡ unwrap_or brought masters.old }
{
    if let Some(brought) = brought {
        *masters = brought;
    }
}

/// Makes the change, behind a log that is begun anew where one is due. The master keys that it brings are taken once it
/// is made.
pub(crate) fn make_change<D: Disk>(
    alloc: Global,
    database: &mut Database,
    masters: &mut Masters,
    disk: &mut D,
    change: DecidedChange,
    now: Time,
) -> Result<(), Halt>
    requires on { D.tells → IsOnDisk database.old (D.view disk.old) }
    requires whole { database.old.broken ≡ false }
    requires format { (place_kept database.old).format ≡ 2 }
    requires applied { IsApplied database.old.rows change.op }
    requires left { is_due change.op (place_kept database.old) ≡ true → HasTimeLeft (place_kept database.old) }
    ensures masters { OnOk result (masters.new ≡ unwrap_or change.masters masters.old) }
    ensures masters_stay { OnErr result (masters.new ≡ masters.old) }
    ensures place { OnOk result (place_kept database.new
        ≡ end_of (place_kept database.old) (change_places now change.op (place_kept database.old))) }
    ensures on { D.tells → OnOk result (IsOnDisk database.new (D.view disk.new)) }
    ensures crash { IsCrashSafe D.Disk disk.old disk.new
        (LeavesPart (place_kept database.old) (change_places now change.op (place_kept database.old))) }
    ensures part { OnErr result (IsPart (place_kept database.old)
        (change_places now change.op (place_kept database.old)) (place_kept database.new)) }
    ensures rows { OnErr result ((place_kept database.new).rows ≡ (place_kept database.old).rows) }
    ensures memory { result ≡ Err IsMemoryOut → disk.new ≡ disk.old }
    ensures memory_place { result ≡ Err IsMemoryOut → place_kept database.new ≡ place_kept database.old }
    ensures still { D.tells → result ≡ Err IsMemoryOut → IsOnDisk database.new (D.view disk.new) }
    ensures whole { OnOk result (database.new.broken ≡ false) }
    ensures whole_still { result ≡ Err IsMemoryOut → database.new.broken ≡ false }
    ensures broken { result ≡ Err IsDiskFault → database.new.broken ≡ true }
    ensures call { IsCall D.Disk disk.old disk.new (result ≡ Err IsDiskFault) }
{
    let DecidedChange {
        op,
        masters: brought,
    } = change;
    match change_rows(alloc, database, disk, op, now) {
        Ok(()) => {
            renew(masters, brought);
            Ok(())
        }
        Err(halt) => Err(halt),
    }
}

impl Primary {
    /// Whether the log is to begin anew for the change, and no later time is left: the change is then not made.
    pub fn ends_time(&self, op: &Op) -> bool
        requires { IsOp (Some op.now) }
        ensures { result ≡ ends_time op.now (place_of self.now) }
    {
        let last = self.point();
        is_due(&self.database, last.sno, entry_length(op)) && is_last(last.time)
    }
}
