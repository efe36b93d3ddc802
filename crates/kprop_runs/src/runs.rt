//! A replica's run.
ghost use Rattle.std.specs.Prelude.{◌≡◌, ◌≢◌, Err, IfSome, None, OnErr, OnOk, Some, false, map};
ghost use Rattle.iprop_links.specs.Arriving.{Counts};
ghost use Rattle.iprop_links.specs.Asking.{sent_in};
ghost use Rattle.kadm_replies.specs.Refusals.{refusal_text};
ghost use Rattle.kdb_disk.specs.Frames.{IsCall, IsCrashSafe};
ghost use Rattle.kdb_disk.specs.Moments.{LeavesOnly};
ghost use Rattle.kdb_ports.specs.Links.{Wire};
ghost use Rattle.kprop_runs.specs.Halts.{OnEnd};
ghost use Rattle.kprop_runs.specs.Longs.{AllEnd, GivesTooMuch, RunRoundsEnd, RunStopsLong, StopsLongIn};
ghost use Rattle.kprop_runs.specs.Openings.{opening, opening_by, opens_with};
ghost use Rattle.kprop_runs.specs.Runs.{HasRefusal, HasRounds, HasRun, HoldsRounds, IsRefusal, IsRun};
ghost use Rattle.kprop_runs.specs.Runs.{EndsSome, RunEndsSome, RunLeavesSome, StandsFor, first_stage, last_stage};
ghost use Rattle.kprop_runs.specs.Stages.{LeavesRounds, LeavesUntold};
ghost use Rattle.kprop_runs.specs.Words.{IsAsked, asked_in};
ghost use Rattle.replica_core.specs.Opened.{IsHeldOn, is_broken, place_of};
ghost use Rattle.store_files.specs.Found.{recovers};

use crate::halts::{RunHalt, status_after};
use crate::lines::{refuse, say_done};
use crate::rounds::all_rounds;
use crate::words::{Asked, read_asked};
use kdb_base::{Refusal, Status, Stop};
use kdb_disk::Disk;
use kdb_ports::{Link, Sink};
use replica_core::Replica;
use std::alloc::Global;

/// The rounds and the last line of a replica that was opened. It answers whether the replica refused what came.
fn run_rounds<L: Link, K: Sink, D: Disk>(
    alloc: Global,
    replica: &mut Replica,
    asked: &Asked,
    link: &mut L,
    sink: &mut K,
    disk: &mut D,
) -> Result<bool, RunHalt>
    requires on { D.tells → IsHeldOn replica.old.database (D.view disk.old) }
    requires whole { is_broken replica.old.database replica.old.failed ≡ false }
    requires asked { IsAsked asked.now }
    requires size { replica.old.size ≡ asked.now.size }
    ensures rounds { (w : Wire) → L.wire link.old ≡ Some w
        → HasRounds result asked.now (first_stage w (K.taken sink.old) (place_of replica.old)) (L.wire link.new)
        (K.taken sink.new) }
    ensures holds { D.tells → (w : Wire) → L.wire link.old ≡ Some w
        → OnErr result (HoldsRounds asked.now (first_stage w (K.taken sink.old) (place_of replica.old))
        (K.taken sink.new) (D.view disk.new)) }
    ensures stands { D.tells → (w : Wire) → L.wire link.old ≡ Some w
        → OnOk result (StandsFor (last_stage asked.now (first_stage w (K.taken sink.old) (place_of replica.old))).place
        (D.view disk.new)) }
    ensures crash { (w : Wire) → L.wire link.old ≡ Some w
        → IsCrashSafe D.Disk disk.old disk.new (LeavesRounds asked.now.name asked.now.size asked.now.rounds
        (first_stage w (K.taken sink.old) (place_of replica.old))) }
    ensures some { IsCrashSafe D.Disk disk.old disk.new
        (LeavesUntold asked.now.size asked.now.rounds (place_of replica.old)) }
    ensures ends_some { D.tells → OnOk result (EndsSome asked.now.size asked.now.rounds (place_of replica.old)
        (K.taken sink.new) (D.view disk.new)) }
    ensures too_long { (w : Wire) → L.wire link.old ≡ Some w → result ≡ Err RunHalt.InputTooLong
        → GivesTooMuch w.to_come }
    ensures long { (w : Wire) → L.wire link.old ≡ Some w → result ≡ Err RunHalt.InputTooLong
        → StopsLongIn asked.now.name asked.now.size asked.now.rounds
        (first_stage w (K.taken sink.old) (place_of replica.old)) (sent_in (L.wire link.new)) }
    ensures in_time { (w : Wire) → L.wire link.old ≡ Some w
        → OnOk result (AllEnd asked.now.name asked.now.size asked.now.rounds
        (first_stage w (K.taken sink.old) (place_of replica.old))) }
    ensures call { IsCall D.Disk disk.old disk.new (result ≡ Err RunHalt.DiskFault) }
    ensures links { Counts (L.faults link.old) (L.faults link.new) (result ≡ Err RunHalt.LinkFault) }
    ensures writes { Counts (K.faults sink.old) (K.faults sink.new) (result ≡ Err RunHalt.WriteFault) }
{
    let name = asked.name.as_slice();
    match all_rounds(alloc, replica, link, sink, disk, name, asked.rounds) {
        Ok(refused) => say_done(alloc, sink, &replica.point(), refused),
        Err(halt) => Err(halt),
    }
}

/// Opens the replica and does the rounds. It answers whether a refusal was written.
fn open_and_run<L: Link, K: Sink, D: Disk>(
    alloc: Global,
    asked: &Asked,
    link: &mut L,
    sink: &mut K,
    disk: &mut D,
) -> Result<bool, RunHalt>
    requires { IsAsked asked.now }
    ensures run { D.tells → (w : Wire) → L.wire link.old ≡ Some w
        → HasRun (opens_with asked.now (recovers (D.view disk.old).seen)) (recovers (D.view disk.old).seen) w
        (K.taken sink.old) (D.view disk.old) (D.view disk.new) (L.wire link.new) (K.taken sink.new) result }
    ensures some { D.tells → LeavesOnly (D.view disk.old) (D.view disk.new) (RunLeavesSome
        (opens_with asked.now (recovers (D.view disk.old).seen)) (recovers (D.view disk.old).seen) (D.view disk.old)) }
    ensures ends_some { D.tells → OnOk result (RunEndsSome (opens_with asked.now (recovers (D.view disk.old).seen))
        (K.taken sink.old) (K.taken sink.new) (D.view disk.old) (D.view disk.new)) }
    ensures too_long { (w : Wire) → L.wire link.old ≡ Some w → result ≡ Err RunHalt.InputTooLong
        → GivesTooMuch w.to_come }
    ensures long { D.tells → (w : Wire) → L.wire link.old ≡ Some w → result ≡ Err RunHalt.InputTooLong
        → RunStopsLong (opens_with asked.now (recovers (D.view disk.old).seen)) w (K.taken sink.old)
        (sent_in (L.wire link.new)) }
    ensures in_time { D.tells → (w : Wire) → L.wire link.old ≡ Some w
        → OnOk result (RunRoundsEnd (opens_with asked.now (recovers (D.view disk.old).seen)) w (K.taken sink.old)) }
    ensures call { IsCall D.Disk disk.old disk.new (result ≡ Err RunHalt.DiskFault) }
    ensures links { Counts (L.faults link.old) (L.faults link.new) (result ≡ Err RunHalt.LinkFault) }
    ensures writes { Counts (K.faults sink.old) (K.faults sink.new) (result ≡ Err RunHalt.WriteFault) }
{
    match Replica::recover(alloc, disk, asked.size) {
        Ok(opened) => {
            let mut replica = opened;
            let refused = run_rounds(alloc, &mut replica, asked, link, sink, disk);
            drop(replica);
            refused
        }
        Err(Stop::Refused(refusal)) => refuse(alloc, sink, &refusal),
        Err(Stop::Halt(halt)) => Err(RunHalt::from(halt)),
    }
}

/// Does what the words ask for, or refuses them. It answers whether a refusal was written.
fn run_asked<L: Link, K: Sink, D: Disk>(
    alloc: Global,
    asked: &Option<Asked>,
    link: &mut L,
    sink: &mut K,
    disk: &mut D,
) -> Result<bool, RunHalt>
    requires { IfSome asked.now IsAsked }
    ensures run { D.tells → (w : Wire) → L.wire link.old ≡ Some w
        → HasRun (opening_by asked.now (recovers (D.view disk.old).seen)) (recovers (D.view disk.old).seen) w
        (K.taken sink.old) (D.view disk.old) (D.view disk.new) (L.wire link.new) (K.taken sink.new) result }
    ensures some { D.tells → LeavesOnly (D.view disk.old) (D.view disk.new) (RunLeavesSome
        (opening_by asked.now (recovers (D.view disk.old).seen)) (recovers (D.view disk.old).seen) (D.view disk.old)) }
    ensures ends_some { D.tells → OnOk result (RunEndsSome (opening_by asked.now (recovers (D.view disk.old).seen))
        (K.taken sink.old) (K.taken sink.new) (D.view disk.old) (D.view disk.new)) }
    ensures other { asked.now ≡ None
        → HasRefusal (refusal_text Refusal.BadLine) (K.taken sink.old) (K.taken sink.new) result }
    ensures no_disk { asked.now ≡ None → disk.new ≡ disk.old }
    ensures no_link { asked.now ≡ None → link.new ≡ link.old }
    ensures too_long { (w : Wire) → L.wire link.old ≡ Some w → result ≡ Err RunHalt.InputTooLong
        → GivesTooMuch w.to_come }
    ensures long { D.tells → (w : Wire) → L.wire link.old ≡ Some w → result ≡ Err RunHalt.InputTooLong
        → RunStopsLong (opening_by asked.now (recovers (D.view disk.old).seen)) w (K.taken sink.old)
        (sent_in (L.wire link.new)) }
    ensures in_time { D.tells → (w : Wire) → L.wire link.old ≡ Some w
        → OnOk result (RunRoundsEnd (opening_by asked.now (recovers (D.view disk.old).seen)) w (K.taken sink.old)) }
    ensures call { IsCall D.Disk disk.old disk.new (result ≡ Err RunHalt.DiskFault) }
    ensures links { Counts (L.faults link.old) (L.faults link.new) (result ≡ Err RunHalt.LinkFault) }
    ensures writes { Counts (K.faults sink.old) (K.faults sink.new) (result ≡ Err RunHalt.WriteFault) }
{
    match asked {
        Some(asked) => open_and_run(alloc, asked, link, sink, disk),
        None => refuse(alloc, sink, &Refusal::BadLine),
    }
}

/// Does a replica's run: it judges the words, opens the replica on the disk, does so many rounds over the link, and
/// writes a line for each and a last one.
///
/// The words are the replica's name with its realm, in any spelling, the number of rounds, 0 to 4294967295, and the
/// size of its log, 2 to 10000; other words are answered by `err 1 BadLine`, and no file is touched. Files without a
/// control slot in force are a replica without a database; damaged ones are refused. In each round it says its printed
/// name on a new connection, polls at its own point, and asks for a dump where the reply wants that; its line has the
/// round's number, its word, and the replica's point after it. The last line is `ok` and the point.
///
/// The status is `Done` where all rounds were done and none was refused, `Refused` where a refusal was written. Where
/// it was stopped, a front of the bytes was sent and written, and where that has some of a round's line, the disk has
/// the place behind that round. A crash at any moment leaves a place of the opening, or one that a round begins at or
/// makes.
pub fn run_replica<L: Link, K: Sink, D: Disk>(
    alloc: Global,
    words: &[Vec<u8>],
    link: &mut L,
    sink: &mut K,
    disk: &mut D,
) -> Status
    // By the words, by what the files stand for, and by the bytes that the link's connections give.
    ensures run { D.tells → (w : Wire) → L.wire link.old ≡ Some w
        → IsRun (opening (map (λ word. word.items) words.now) (D.view disk.old).seen) (recovers (D.view disk.old).seen)
        w (K.taken sink.old) (D.view disk.old) (D.view disk.new) (L.wire link.new) (K.taken sink.new) result }

    // Of any link: what some replies and dumps make.
    ensures some { D.tells → LeavesOnly (D.view disk.old) (D.view disk.new)
        (RunLeavesSome (opening (map (λ word. word.items) words.now) (D.view disk.old).seen)
        (recovers (D.view disk.old).seen) (D.view disk.old)) }
    ensures ends_some { D.tells → OnEnd result (λ refused.
        RunEndsSome (opening (map (λ word. word.items) words.now) (D.view disk.old).seen) (K.taken sink.old)
        (K.taken sink.new) (D.view disk.old) (D.view disk.new)) }

    // Other words are refused, whatever is told: no file is touched, and no connection made.
    ensures other { asked_in (map (λ word. word.items) words.now) ≡ None
        → IsRefusal (refusal_text Refusal.BadLine) (K.taken sink.old) (K.taken sink.new) result }
    ensures no_disk { asked_in (map (λ word. word.items) words.now) ≡ None → disk.new ≡ disk.old }
    ensures no_link { asked_in (map (λ word. word.items) words.now) ≡ None → link.new ≡ link.old }

    // The causes.
    ensures too_long { (w : Wire) → L.wire link.old ≡ Some w → result ≡ Status.InputTooLong → GivesTooMuch w.to_come }
    ensures long { D.tells → (w : Wire) → L.wire link.old ≡ Some w → result ≡ Status.InputTooLong
        → RunStopsLong (opening (map (λ word. word.items) words.now) (D.view disk.old).seen) w (K.taken sink.old)
        (sent_in (L.wire link.new)) }
    ensures in_time { D.tells → (w : Wire) → L.wire link.old ≡ Some w
        → OnEnd result (λ refused.
        RunRoundsEnd (opening (map (λ word. word.items) words.now) (D.view disk.old).seen) w (K.taken sink.old)) }
    ensures call { IsCall D.Disk disk.old disk.new (result ≡ Status.DiskFault) }
    ensures links { Counts (L.faults link.old) (L.faults link.new) (result ≡ Status.LinkFault) }
    ensures writes { Counts (K.faults sink.old) (K.faults sink.new) (result ≡ Status.WriteFault) }
    ensures no_read { result ≢ Status.ReadFault }
{
    match read_asked(alloc, words) {
        Ok(asked) => status_after(run_asked(alloc, &asked, link, sink, disk)),
        Err(_) => Status::MemoryOut,
    }
}
