//! What is done to a replica, and where it stands behind that.

ghost use Rattle.std.specs.Prelude.{◌≡◌, false, IfOk};
ghost use Rattle.replica_core.specs.Opened.{IsHeldOn, is_broken};

use crate::spelled::{Reply, frames_of};
use dump_text::{Dump, DumpReader};
use iprop_wire::{Decoder, Message};
use kdb_base::{Fails, Halt, Point};
use kdb_disk::{Disk, MemoryDisk};
use kdb_store::Database;
use princ_rows::PollReply;
use replica_core::{Replica, ReplicaStop, Taken4};
use std::alloc::Global;
use std::process::Abort;
use std::test::Fail;

/// The serial of a point, its seconds since 1970 and its microseconds.
pub(crate) type At = (u32, u32, u32);

/// Calls of a replica that is opened for them. Dumps are given as texts, and replies as their frames.
#[derive(Clone, Copy)]
pub(crate) enum Step {
    /// The dump is loaded.
    Load(&'static [u8]),
    /// The reply is taken.
    Take(&'static [u8]),
    /// So is one that is spelled by its points.
    Answer(Reply),
    /// The dump is loaded, and then the reply is taken.
    LoadAndTake(&'static [u8], &'static [u8]),
    /// The reply is taken, and then it comes again.
    TakeTwice(&'static [u8]),
}

/// What the last call of a step answers.
#[derive(Clone, Copy, PartialEq)]
pub(crate) enum Answer {
    /// This point was loaded.
    Loaded(At),
    Taken(Taken4),
    /// The point of the reply, and the replica's own.
    WrongPoint(At, At),
    /// The serial that is wanted, and the point that was found.
    Gap(u32, At),
    /// The disk failed.
    DiskFault,
}

/// A step, what it answers, and where the replica stands behind it.
#[derive(Clone, Copy)]
pub(crate) struct Turn {
    pub(crate) step: Step,
    pub(crate) answer: Answer,
    /// Whether its calls come to any call of the disk.
    pub(crate) calls_disk: bool,
    pub(crate) point: At,
    /// The names of the principals.
    pub(crate) names: &'static [&'static [u8]],
}

// ---- what is given

fn dump_of(alloc: Global, text: &[u8]) -> Result<Dump, Fail> {
    let mut reader = DumpReader::new(alloc)?;
    reader.feed(text)?;
    Ok(reader.finish()?)
}

fn message_of(alloc: Global, frames: &[u8]) -> Result<Option<Message>, Fail> {
    let mut decoder = Decoder::new(alloc)?;
    decoder.feed(frames)?;
    Ok(decoder.next())
}

fn reply_of(alloc: Global, frames: &[u8]) -> Result<PollReply, Fail> {
    match message_of(alloc, frames)? {
        Some(Message::Reply(reply)) => Ok(reply),
        _ => Err(Fail::from("a reply")),
    }
}

// ---- one call

/// Opens the replica with a log of so many entries.
pub(crate) fn opened_with<D: Disk>(alloc: Global, disk: &mut D, size: u32) -> Result<Replica, Fail>
    ensures on { D.tells → IfOk result (λ r. IsHeldOn r.database (D.view disk.new)) }
    ensures whole { IfOk result (λ r. is_broken r.database r.failed ≡ false) }
{
    if size < 2 || size > 10000 {
        return Err(Fail::from("a size of a log"));
    }
    match Replica::recover(alloc, disk, size) {
        Ok(replica) => Ok(replica),
        Err(stop) => Err(Fail::from(stop)),
    }
}

/// Opens the replica with a log of 100 entries.
pub(crate) fn opened<D: Disk>(alloc: Global, disk: &mut D) -> Result<Replica, Fail>
    ensures on { D.tells → IfOk result (λ r. IsHeldOn r.database (D.view disk.new)) }
    ensures whole { IfOk result (λ r. is_broken r.database r.failed ≡ false) }
{
    opened_with(alloc, disk, 100)
}

/// What is compared of a point.
pub(crate) fn at(point: &Point) -> At {
    (point.sno, point.time.secs(), point.time.usecs())
}

fn answer_to(halt: Halt) -> Result<Answer, Fail> {
    match halt {
        Halt::DiskFault => Ok(Answer::DiskFault),
        Halt::MemoryOut => Err(Fail::from(halt)),
    }
}

fn answer_of(stop: ReplicaStop) -> Result<Answer, Fail> {
    match stop {
        ReplicaStop::WrongPoint { reply, mine } => Ok(Answer::WrongPoint(at(&reply), at(&mine))),
        ReplicaStop::Gap { want, found } => Ok(Answer::Gap(want, at(&found))),
        ReplicaStop::Halt(halt) => answer_to(halt),
    }
}

fn load<D: Disk>(
    alloc: Global,
    replica: &mut Replica,
    disk: &mut D,
    text: &[u8],
) -> Result<Answer, Fail>
    requires on { D.tells → IsHeldOn replica.old.database (D.view disk.old) }
    requires whole { is_broken replica.old.database replica.old.failed ≡ false }
{
    let dump = dump_of(alloc, text)?;
    match replica.load(alloc, disk, dump) {
        Ok(point) => Ok(Answer::Loaded(at(&point))),
        Err(halt) => answer_to(halt),
    }
}

fn take<D: Disk>(
    alloc: Global,
    replica: &mut Replica,
    disk: &mut D,
    frames: &[u8],
) -> Result<Answer, Fail>
    requires on { D.tells → IsHeldOn replica.old.database (D.view disk.old) }
    requires whole { is_broken replica.old.database replica.old.failed ≡ false }
{
    let reply = reply_of(alloc, frames)?;
    match replica.take_reply(alloc, disk, reply) {
        Ok(taken) => Ok(Answer::Taken(taken)),
        Err(stop) => answer_of(stop),
    }
}

fn take_spelled<D: Disk>(
    alloc: Global,
    replica: &mut Replica,
    disk: &mut D,
    reply: &Reply,
) -> Result<Answer, Fail>
    requires on { D.tells → IsHeldOn replica.old.database (D.view disk.old) }
    requires whole { is_broken replica.old.database replica.old.failed ≡ false }
{
    let frames = frames_of(alloc, reply)?;
    take(alloc, replica, disk, &frames)
}

// ---- two calls in a row

fn load_and_take<D: Disk>(
    alloc: Global,
    replica: &mut Replica,
    disk: &mut D,
    text: &[u8],
    frames: &[u8],
) -> Result<Answer, Fail>
    requires on { D.tells → IsHeldOn replica.old.database (D.view disk.old) }
    requires whole { is_broken replica.old.database replica.old.failed ≡ false }
{
    let dump = dump_of(alloc, text)?;
    match replica.load(alloc, disk, dump) {
        Ok(_) => take(alloc, replica, disk, frames),
        Err(halt) => Err(Fail::from(halt)),
    }
}

fn take_twice<D: Disk>(
    alloc: Global,
    replica: &mut Replica,
    disk: &mut D,
    frames: &[u8],
) -> Result<Answer, Fail>
    requires on { D.tells → IsHeldOn replica.old.database (D.view disk.old) }
    requires whole { is_broken replica.old.database replica.old.failed ≡ false }
{
    let reply = reply_of(alloc, frames)?;
    match replica.take_reply(alloc, disk, reply) {
        Ok(_) => take(alloc, replica, disk, frames),
        Err(_) => Err(Fail::from("a reply that is taken")),
    }
}

// ---- steps

/// Does the step to the replica, which is open: what its last call answers.
pub(crate) fn run<D: Disk>(
    alloc: Global,
    replica: &mut Replica,
    disk: &mut D,
    step: &Step,
) -> Result<Answer, Fail>
    requires on { D.tells → IsHeldOn replica.old.database (D.view disk.old) }
    requires whole { is_broken replica.old.database replica.old.failed ≡ false }
{
    match step {
        Step::Load(text) => load(alloc, replica, disk, text),
        Step::Take(frames) => take(alloc, replica, disk, frames),
        Step::Answer(reply) => take_spelled(alloc, replica, disk, reply),
        Step::LoadAndTake(text, frames) => load_and_take(alloc, replica, disk, text, frames),
        Step::TakeTwice(frames) => take_twice(alloc, replica, disk, frames),
    }
}

fn has_names(database: &Database, names: &[&[u8]]) -> bool {
    for name in names {
        if database.get(name).is_none() {
            return false;
        }
    }
    database.rows().princs().len() == names.len()
}

/// Whether the replica stands at this point, with the principals of these names.
pub(crate) fn stands(replica: &Replica, point: At, names: &[&[u8]]) -> bool {
    let named = match replica.database() {
        Some(database) => has_names(database, names),
        None => names.is_empty(),
    };
    named && at(&replica.point()) == point
}

// Whether the step answers what the turn says, and leaves the replica there.
fn is_done(alloc: Global, disk: &mut MemoryDisk, turn: &Turn) -> Result<bool, Fail> {
    let mut replica = opened(alloc, disk)?;
    let before = disk.calls();
    let answer = run(alloc, &mut replica, disk, &turn.step);
    let called = disk.calls() != before;
    let stands = stands(&replica, turn.point, turn.names);
    drop(replica);
    Ok(answer? == turn.answer && called == turn.calls_disk && stands)
}

// Whether the disk has the replica there.
fn is_found(alloc: Global, disk: &mut MemoryDisk, turn: &Turn) -> Result<bool, Fail> {
    let replica = opened(alloc, disk)?;
    let stands = stands(&replica, turn.point, turn.names);
    drop(replica);
    Ok(stands)
}

/// Takes the turn of this number.
pub(crate) fn check_turn(
    rt: &impl Abort,
    alloc: Global,
    disk: &mut MemoryDisk,
    turn: &Turn,
    number: u32,
) -> Result<(), Fail> {
    let done = is_done(alloc, disk, turn)?;
    assert!(rt; done, "turn {number}");
    let found = is_found(alloc, disk, turn)?;
    assert!(rt; found, "behind turn {number}");
    Ok(())
}

/// Takes the turns one after another, over an empty disk.
pub(crate) fn play(rt: &impl Abort, alloc: Global, turns: &[Turn]) -> Result<(), Fail> {
    let mut disk = MemoryDisk::new(alloc, Fails::none(alloc))?;
    let mut number = 0u32;
    for turn in turns {
        check_turn(rt, alloc, &mut disk, turn, number)?;
        number = number.saturating_add(1);
    }
    Ok(())
}
