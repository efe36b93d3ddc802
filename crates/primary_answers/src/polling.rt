//! Replies to replicas that poll the log.

ghost use Rattle.std.specs.Prelude.{◌≡◌, ◌+◌, ◌-◌, ◌≤◌, [], IfOk, drop, map};
ghost use Rattle.iprop_reply.specs.Polls.{AreHeld, time_of, updates_after};
ghost use Rattle.iprop_reply.specs.declared.status.Status4.TheVariants.{Resync as IsResync};
ghost use Rattle.iprop_truths.specs.Polls.{code_of, told_of};
ghost use Rattle.kdb_base.specs.declared.moments.Point.{Point as At};
ghost use Rattle.primary_answers.specs.Listing.{told_reply};
ghost use Rattle.princ_rows.specs.Replies.{MayCome, number_of};
ghost use Rattle.update_log.specs.Logs.{entry_of};

use iprop_reply::{Status4, sno_status};
use iprop_truths::laws::updates_stand_behind_a_serial;
use kdb_base::{MemoryOut, Point, Time};
use princ_rows::{Entries, PollReply, ReplyCode, copy_entry};
use std::alloc::Global;
use update_log::Log;

// The time of the entry with this serial, where the log holds one.
fn time_at(log: &Log, sno: u32) -> Option<Time>
    ensures { (first last : At) → AreHeld first last (map entry_of log.now.held)
        → result ≡ time_of sno (map entry_of log.now.held) }
{
    match log.entry(sno) {
        Some(entry) => Some(entry.point.time),
        None => None,
    }
}

// The entries behind the one with this serial, up to the last one. What the log does not hold is answered by want of
// memory: it holds all that come behind one that it holds.
fn entries_behind(alloc: Global, log: &Log, sno: u32, last: u32) -> Result<Entries, MemoryOut>
    ensures { (first end : At) → AreHeld first end (map entry_of log.now.held) → end.sno ≡ last → first.sno ≤ sno
        → IfOk result (λ us. us ≡ drop (sno + 1 - first.sno) (map entry_of log.now.held)) }
{
    let mut items = Vec::new(alloc);
    for behind in sno..last {
        match log.entry(behind + 1) {
            Some(entry) => {
                let entry = copy_entry(alloc, entry)?;
                items.push(entry)?;
            }
            None => return Err(MemoryOut),
        }
    }
    Ok(Entries::from_vec(items))
}

// The code where the whole database has to be sent, and no more dumps may be begun or more may be.
fn resync_code(busy: bool) -> ReplyCode
    ensures number { number_of result ≡ code_of busy IsResync }
    ensures bare { MayCome result [] }
{
    if busy {
        ReplyCode::Busy
    } else {
        ReplyCode::FullResyncNeeded
    }
}

// The same point.
fn copied(point: &Point) -> Point
    ensures { result ≡ point.now }
{
    Point {
        sno: point.sno,
        time: point.time,
    }
}

/// A reply without updates.
pub fn bare_reply(alloc: Global, code: ReplyCode, asked: &Point) -> PollReply
    requires { MayCome code [] }
    ensures { result ≡ record { code = code; asked = asked.now; updates = [] } }
{
    PollReply::new(code, copied(asked), Entries::from_vec(Vec::new(alloc)))
}

/// The reply to a poll from this point of a log: what came behind it, that nothing did, or that a dump has to be taken,
/// or cannot be where as many are under way as may be.
///
/// # Errors
///
/// `MemoryOut` where memory is wanted and not given.
pub fn reply_to(alloc: Global, log: &Log, busy: bool, asked: &Point) -> Result<PollReply, MemoryOut>
    ensures { IfOk result
        (λ r. told_reply r ≡ told_of busy asked.now (updates_after asked.now (map entry_of log.now.held))) }
{
    updates_stand_behind_a_serial();
    log.holds_journal();
    let held = log.held();
    let last = held.1.sno;
    match sno_status(held, time_at(log, asked.sno), copied(asked)) {
        Status4::Resync => Ok(bare_reply(alloc, resync_code(busy), asked)),
        Status4::Nil => Ok(bare_reply(alloc, ReplyCode::Nil, asked)),
        Status4::Ok => {
            let updates = entries_behind(alloc, log, asked.sno, last)?;
            Ok(PollReply::new(ReplyCode::UpdateOk, copied(asked), updates))
        }
    }
}
