//! Replies to polls, taken by a replica.

ghost use Rattle.std.specs.Prelude.{◌≡◌, true, false, Err, List, None, Some, length, ℕ, if◌then◌else◌};
ghost use Rattle.std.specs.List.{All};
ghost use Rattle.iprop_reply.specs.Polls.{is_point};
ghost use Rattle.iprop_truths.specs.Polls.{nothing_new, reply_of, updates_here};
ghost use Rattle.kdb_base.specs.declared.outcomes.Halt.TheVariants.{DiskFault as IsDiskFault};
ghost use Rattle.kdb_disk.specs.Frames.{IsCall, IsCrashSafe};
ghost use Rattle.princ_rows.specs.Entries.{IsSent};
ghost use Rattle.princ_rows.specs.declared.entries.Entry.{Entry as Update};
ghost use Rattle.replica_core.specs.Opened.{HasSize, IsFaulty, IsHeldOn, IsWhole};
ghost use Rattle.replica_core.specs.Opened.{LeavesMade, is_broken, place_in, place_of};
ghost use Rattle.replica_core.specs.Taking.{IsAnswerOf, IsStopIn, OnHalt, UnlessFaulted};
ghost use Rattle.replica_core.specs.Taking.{UnlessHalted, stored_in, told_reply};
ghost use Rattle.replica_core.specs.declared.stops.ReplicaStop.TheVariants.{Halt as Halts};
ghost use Rattle.replica_steps.specs.Bridges.{MayBePart};
ghost use Rattle.replica_steps.specs.Judging.{WrongPoint, gap_in, is_based, is_taken};
ghost use Rattle.replica_steps.specs.Judging.{judged, made_by_reply, point_in, stop_at};
ghost use Rattle.replica_steps.specs.Replicas.{Take, place_after, task_makes};

use crate::judging::first_gap;
use crate::replica::{Replica, point_in};
use crate::stops::{ReplicaStop, Taken4};
use crate::updating::store_all;
use kdb_base::Point;
use kdb_disk::Disk;
use kdb_store::Database;
use princ_rows::{Entry, PollReply, ReplyCode};
use std::alloc::Global;

// Makes the updates in the database, where there is one.
fn store_in<D: Disk>(
    alloc: Global,
    database: &mut Option<Database>,
    disk: &mut D,
    updates: &[Entry],
) -> Result<(), ReplicaStop>
    requires on { D.tells → IsHeldOn database.old (D.view disk.old) }
    requires whole { IsWhole database.old }
    requires sized { (size : ℕ) × HasSize size database.old }
    requires sent { All IsSent updates.now }
    requires gap { gap_in (is_based (place_in database.old)) (point_in (place_in database.old)) updates.now ≡ None }
    ensures stop { (size : ℕ) → HasSize size database.old
        → IsStopIn result (stop_at size (place_in database.old) updates.now) }
    ensures place { (size : ℕ) → HasSize size database.old → UnlessHalted result (place_in database.new
        ≡ place_after (place_in database.old) (stored_in size updates.now (place_in database.old))) }
    ensures part { (size : ℕ) → HasSize size database.old → OnHalt result (MayBePart (place_in database.old)
        (stored_in size updates.now (place_in database.old)) (place_in database.new)) }
    ensures crash { (size : ℕ) → HasSize size database.old → IsCrashSafe D.Disk disk.old disk.new
        (LeavesMade (place_in database.old) (stored_in size updates.now (place_in database.old))) }
    ensures sized { (size : ℕ) → HasSize size database.old → HasSize size database.new }
    ensures none { place_in database.old ≡ None → disk.new ≡ disk.old }
    ensures based { is_based (place_in database.new) ≡ is_based (place_in database.old) }
    ensures on { D.tells → UnlessFaulted result (IsHeldOn database.new (D.view disk.new)) }
    ensures whole { UnlessFaulted result (IsWhole database.new) }
    ensures broken { result ≡ Err (Halts IsDiskFault) → IsFaulty database.new }
    ensures call { IsCall D.Disk disk.old disk.new (result ≡ Err (Halts IsDiskFault)) }
{
    match database {
        Some(database) => store_all(alloc, database, disk, updates),
        None => Ok(()),
    }
}

// Whether the reply answers this point.
fn is_point(asked: &Point, mine: &Point) -> bool
    ensures { result ≡ is_point asked.now mine.now }
{
    asked.sno == mine.sno
        && (asked.time.secs() == mine.time.secs() && asked.time.usecs() == mine.time.usecs())
}

// Stops a reply that answers another point than the replica's.
fn check_point(asked: &Point, mine: &Point) -> Result<(), ReplicaStop>
    ensures wrong { IsStopIn result
        (if is_point asked.now mine.now then None else Some (WrongPoint asked.now mine.now)) }
    ensures never { OnHalt result ⊥ }
{
    if is_point(asked, mine) {
        return Ok(());
    }
    Err(ReplicaStop::WrongPoint {
        reply: *asked,
        mine: *mine,
    })
}

// Whether there is a database.
fn is_based(database: &Option<Database>) -> bool
    ensures { result ≡ is_based (place_in database.now) }
{
    match database {
        Some(_) => true,
        None => false,
    }
}

// How many updates there are, where they run on from this point.
fn count(based: bool, at: &Point, updates: &[Entry]) -> u32
    requires { gap_in based at.now updates.now ≡ None }
    ensures { result ≡ length updates.now }
{
    let _sno = u32::from(at.sno);
    updates.len() as u32
}

// Takes a reply with updates: it is judged as a whole, and then they are made.
fn take_updates<D: Disk>(
    alloc: Global,
    database: &mut Option<Database>,
    disk: &mut D,
    asked: &Point,
    updates: &[Entry],
) -> Result<Taken4, ReplicaStop>
    requires on { D.tells → IsHeldOn database.old (D.view disk.old) }
    requires whole { IsWhole database.old }
    requires sized { (size : ℕ) × HasSize size database.old }
    requires sent { All IsSent updates.now }
    ensures answer { (size : ℕ) → HasSize size database.old
        → IsAnswerOf result (judged size (place_in database.old) (reply_of updates_here asked.now updates.now)) }
    ensures place { (size : ℕ) → HasSize size database.old
        → UnlessHalted result (place_in database.new ≡ place_after (place_in database.old)
        (made_by_reply size (place_in database.old) (reply_of updates_here asked.now updates.now))) }
    ensures part { (size : ℕ) → HasSize size database.old → OnHalt result (MayBePart (place_in database.old)
        (made_by_reply size (place_in database.old) (reply_of updates_here asked.now updates.now))
        (place_in database.new)) }
    ensures crash { (size : ℕ)
        → HasSize size database.old → IsCrashSafe D.Disk disk.old disk.new (LeavesMade (place_in database.old)
        (made_by_reply size (place_in database.old) (reply_of updates_here asked.now updates.now))) }
    ensures sized { (size : ℕ) → HasSize size database.old → HasSize size database.new }
    ensures untouched { is_taken (point_in (place_in database.old)) (reply_of updates_here asked.now updates.now)
        ≡ false → disk.new ≡ disk.old }
    // Without a database no device call is made.
    ensures none { place_in database.old ≡ None → disk.new ≡ disk.old }
    ensures based { is_based (place_in database.new) ≡ is_based (place_in database.old) }
    ensures on { D.tells → UnlessFaulted result (IsHeldOn database.new (D.view disk.new)) }
    ensures whole { UnlessFaulted result (IsWhole database.new) }
    ensures broken { result ≡ Err (Halts IsDiskFault) → IsFaulty database.new }
    ensures call { IsCall D.Disk disk.old disk.new (result ≡ Err (Halts IsDiskFault)) }
{
    let mine = point_in(database);
    match check_point(asked, &mine) {
        Ok(()) => {}
        Err(stop) => return Err(stop),
    }
    match first_gap(is_based(database), &mine, updates) {
        Ok(()) => {}
        Err(stop) => return Err(stop),
    }
    let count = count(is_based(database), &mine, updates);
    match store_in(alloc, database, disk, updates) {
        Ok(()) => Ok(Taken4::Updated(count)),
        Err(stop) => Err(stop),
    }
}

// Takes a reply with nothing new.
fn take_nothing(database: &Option<Database>, asked: &Point) -> Result<Taken4, ReplicaStop>
    ensures answer { (size : ℕ) (updates : List Update)
        → IsAnswerOf result (judged size (place_in database.now) (reply_of nothing_new asked.now updates)) }
    ensures never { OnHalt result ⊥ }
{
    match check_point(asked, &point_in(database)) {
        Ok(()) => Ok(Taken4::Nil),
        Err(stop) => Err(stop),
    }
}

// Takes a reply, by its code.
fn take<D: Disk>(
    alloc: Global,
    database: &mut Option<Database>,
    disk: &mut D,
    reply: &PollReply,
) -> Result<Taken4, ReplicaStop>
    requires on { D.tells → IsHeldOn database.old (D.view disk.old) }
    requires whole { IsWhole database.old }
    requires sized { (size : ℕ) × HasSize size database.old }
    ensures answer { (size : ℕ) → HasSize size database.old
        → IsAnswerOf result (judged size (place_in database.old) (told_reply reply.now)) }
    ensures place { (size : ℕ) → HasSize size database.old → UnlessHalted result (place_in database.new
        ≡ place_after (place_in database.old) (made_by_reply size (place_in database.old) (told_reply reply.now))) }
    ensures part { (size : ℕ) → HasSize size database.old → OnHalt result (MayBePart (place_in database.old)
        (made_by_reply size (place_in database.old) (told_reply reply.now)) (place_in database.new)) }
    ensures crash { (size : ℕ) → HasSize size database.old → IsCrashSafe D.Disk disk.old disk.new
        (LeavesMade (place_in database.old) (made_by_reply size (place_in database.old) (told_reply reply.now))) }
    ensures sized { (size : ℕ) → HasSize size database.old → HasSize size database.new }
    ensures untouched { is_taken (point_in (place_in database.old)) (told_reply reply.now) ≡ false
        → disk.new ≡ disk.old }
    // Without a database no device call is made.
    ensures none { place_in database.old ≡ None → disk.new ≡ disk.old }
    ensures based { is_based (place_in database.new) ≡ is_based (place_in database.old) }
    ensures on { D.tells → UnlessFaulted result (IsHeldOn database.new (D.view disk.new)) }
    ensures whole { UnlessFaulted result (IsWhole database.new) }
    ensures broken { result ≡ Err (Halts IsDiskFault) → IsFaulty database.new }
    ensures call { IsCall D.Disk disk.old disk.new (result ≡ Err (Halts IsDiskFault)) }
{
    match reply.code() {
        ReplyCode::UpdateOk => take_updates(alloc, database, disk, &reply.asked(), reply.updates()),
        ReplyCode::Nil => take_nothing(database, &reply.asked()),
        ReplyCode::FullResyncNeeded => Ok(Taken4::Resync),
        ReplyCode::Busy => Ok(Taken4::Busy),
        ReplyCode::PermDenied => Ok(Taken4::Denied),
    }
}

impl Replica {
    /// Takes the reply to a poll. It is judged as a whole before its first update is stored; then the updates are made
    /// one after another, each as a change. One that is too long for the log begins it anew at the same point.
    ///
    /// At each moment a crash leaves the place before, or one that an update makes.
    ///
    /// # Errors
    ///
    /// `WrongPoint` exactly where a reply with updates, or with nothing new, answers another point than the replica's.
    /// `Gap` where the serials of the updates do not run on from it, or their times fall, and nothing is then stored;
    /// or where one may not be made of the rows, and those before it are then stored. `Halt` where memory is wanted and
    /// not given, or the disk failed.
    pub fn take_reply<D: Disk>(
        &mut self,
        alloc: Global,
        disk: &mut D,
        reply: PollReply,
    ) -> Result<Taken4, ReplicaStop>
        requires on { D.tells → IsHeldOn self.old.database (D.view disk.old) }
        requires whole { is_broken self.old.database self.old.failed ≡ false }
        ensures answer { IsAnswerOf result (judged self.old.size (place_of self.old) (told_reply reply)) }
        ensures place { UnlessHalted result (place_of self.new ≡ place_after (place_of self.old)
            (task_makes self.old.size (place_of self.old) (Take (told_reply reply)))) }
        // Where it halted, what was made stands: the place before, or one that an update made.
        ensures part { OnHalt result (MayBePart (place_of self.old)
            (task_makes self.old.size (place_of self.old) (Take (told_reply reply))) (place_of self.new)) }
        ensures crash { IsCrashSafe D.Disk disk.old disk.new
            (LeavesMade (place_of self.old) (task_makes self.old.size (place_of self.old) (Take (told_reply reply)))) }
        ensures on { D.tells → UnlessFaulted result (IsHeldOn self.new.database (D.view disk.new)) }
        // A reply that is not taken, or is refused as a whole, comes to no device call.
        ensures untouched { is_taken (point_in (place_of self.old)) (told_reply reply) ≡ false → disk.new ≡ disk.old }
        // Nor does any without a database.
        ensures none { place_of self.old ≡ None → disk.new ≡ disk.old }
        ensures size { self.new.size ≡ self.old.size }
        ensures whole { UnlessFaulted result (is_broken self.new.database self.new.failed ≡ false) }
        ensures broken { result ≡ Err (Halts IsDiskFault) → is_broken self.new.database self.new.failed ≡ true }
        ensures call { IsCall D.Disk disk.old disk.new (result ≡ Err (Halts IsDiskFault)) }
    {
        take(alloc, &mut self.database, disk, &reply)
    }
}
