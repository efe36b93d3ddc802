//! The rounds of a replica, each told in a line.
ghost use Rattle.std.specs.Prelude.{◌≡◌, ◌≤◌, ◌||◌, Bool, Err, IfOk, OnErr, OnOk, Some, false, length};
ghost use Rattle.iprop_links.specs.Arriving.{Counts};
ghost use Rattle.iprop_links.specs.Asking.{sent_in};
ghost use Rattle.iprop_wire.specs.Frames.{most_behind};
ghost use Rattle.kdb_disk.specs.Frames.{IsCall, IsCrashSafe};
ghost use Rattle.kdb_ports.specs.Links.{Wire, first_of};
ghost use Rattle.kprop_rounds.specs.Rounds.{GivesNoEnd, LeavesSome, round_end};
ghost use Rattle.kprop_runs.specs.Longs.{AllEnd, GivesTooMuch, StopsLong, StopsLongIn};
ghost use Rattle.kprop_runs.specs.Stages.{HoldsIn, HoldsRound, LeavesRounds, LeavesUntold, MayCome, MayLead};
ghost use Rattle.kprop_runs.specs.Stages.{StandsAt, StopsIn, StopsRound, after_round, after_rounds, end_at, stage_of};
ghost use Rattle.replica_core.specs.Opened.{IsHeldOn, LeavesMade, is_broken, place_of};

use crate::halts::RunHalt;
use crate::lines::say_round;
use kdb_disk::Disk;
use kdb_ports::{Link, Sink};
use kprop_rounds::round;
use replica_core::Replica;
use std::alloc::Global;

/// A round of this number, and its line. It answers whether the replica refused what came.
fn turn<L: Link, K: Sink, D: Disk>(
    alloc: Global,
    replica: &mut Replica,
    link: &mut L,
    sink: &mut K,
    disk: &mut D,
    name: &[u8],
    number: u32,
) -> Result<bool, RunHalt>
    requires on { D.tells → IsHeldOn replica.old.database (D.view disk.old) }
    requires whole { is_broken replica.old.database replica.old.failed ≡ false }
    requires name { length name.now ≤ most_behind }
    ensures done { (w : Wire) (refused : Bool) → L.wire link.old ≡ Some w
        → IfOk result (λ bad. StandsAt
        (after_round name.now replica.old.size number (stage_of w (K.taken sink.old) (place_of replica.old) refused))
        (L.wire link.new) (K.taken sink.new) (place_of replica.new) (refused || bad)) }
    ensures stopped { (w : Wire) (refused : Bool) → L.wire link.old ≡ Some w
        → OnErr result
        (StopsRound name.now number (round_end replica.old.size (place_of replica.old) (first_of w.to_come))
        (stage_of w (K.taken sink.old) (place_of replica.old) refused) (sent_in (L.wire link.new)) (K.taken sink.new)) }
    ensures holds { D.tells → (w : Wire) (refused : Bool) → L.wire link.old ≡ Some w
        → OnErr result (HoldsRound number (round_end replica.old.size (place_of replica.old) (first_of w.to_come))
        (stage_of w (K.taken sink.old) (place_of replica.old) refused) (K.taken sink.new) (D.view disk.new)) }
    ensures crash { (w : Wire) → L.wire link.old ≡ Some w
        → IsCrashSafe D.Disk disk.old disk.new (LeavesMade (place_of replica.old)
        (round_end replica.old.size (place_of replica.old) (first_of w.to_come)).made) }
    ensures some { IsCrashSafe D.Disk disk.old disk.new (LeavesSome replica.old.size (place_of replica.old)) }
    ensures comes { D.tells → OnOk result (MayCome replica.old.size (place_of replica.old) (place_of replica.new)) }
    ensures on { D.tells → OnOk result (IsHeldOn replica.new.database (D.view disk.new)) }
    ensures whole { OnOk result (is_broken replica.new.database replica.new.failed ≡ false) }
    ensures size { replica.new.size ≡ replica.old.size }
    ensures too_long { (w : Wire) → L.wire link.old ≡ Some w → result ≡ Err RunHalt.InputTooLong
        → 4294967296 ≤ length (first_of w.to_come) }
    ensures long { (w : Wire) (refused : Bool) → L.wire link.old ≡ Some w → result ≡ Err RunHalt.InputTooLong
        → StopsLong name.now replica.old.size (stage_of w (K.taken sink.old) (place_of replica.old) refused)
        (sent_in (L.wire link.new)) }
    ensures in_time { (w : Wire) → L.wire link.old ≡ Some w
        → OnOk result (GivesNoEnd replica.old.size (place_of replica.old) (first_of w.to_come) → ⊥) }
    ensures call { IsCall D.Disk disk.old disk.new (result ≡ Err RunHalt.DiskFault) }
    ensures links { Counts (L.faults link.old) (L.faults link.new) (result ≡ Err RunHalt.LinkFault) }
    ensures writes { Counts (K.faults sink.old) (K.faults sink.new) (result ≡ Err RunHalt.WriteFault) }
{
    match round(alloc, replica, link, disk, name) {
        Ok(word) => {
            let point = replica.point();
            say_round(alloc, sink, number, &word, &point)
        }
        Err(halt) => Err(RunHalt::from(halt)),
    }
}

/// Whether one of the two holds.
fn either(before: bool, bad: bool) -> bool
    ensures { result ≡ (before || bad) }
{
    before || bad
}

/// So many rounds, each told in a line. It answers whether the replica refused what came in one of them.
pub(crate) fn all_rounds<L: Link, K: Sink, D: Disk>(
    alloc: Global,
    replica: &mut Replica,
    link: &mut L,
    sink: &mut K,
    disk: &mut D,
    name: &[u8],
    count: u32,
) -> Result<bool, RunHalt>
    requires on { D.tells → IsHeldOn replica.old.database (D.view disk.old) }
    requires whole { is_broken replica.old.database replica.old.failed ≡ false }
    requires name { length name.now ≤ most_behind }
    ensures done { (w : Wire) → L.wire link.old ≡ Some w
        → IfOk result (λ refused. StandsAt
        (after_rounds name.now replica.old.size count (stage_of w (K.taken sink.old) (place_of replica.old) false))
        (L.wire link.new) (K.taken sink.new) (place_of replica.new) refused) }
    ensures stopped { (w : Wire) → L.wire link.old ≡ Some w
        → OnErr result (StopsIn name.now replica.old.size count
        (stage_of w (K.taken sink.old) (place_of replica.old) false) (sent_in (L.wire link.new)) (K.taken sink.new)) }
    ensures holds { D.tells → (w : Wire) → L.wire link.old ≡ Some w
        → OnErr result (HoldsIn name.now replica.old.size count
        (stage_of w (K.taken sink.old) (place_of replica.old) false) (K.taken sink.new) (D.view disk.new)) }
    ensures crash { (w : Wire) → L.wire link.old ≡ Some w
        → IsCrashSafe D.Disk disk.old disk.new
        (LeavesRounds name.now replica.old.size count (stage_of w (K.taken sink.old) (place_of replica.old) false)) }
    // Of a link that tells nothing.
    ensures some { IsCrashSafe D.Disk disk.old disk.new (LeavesUntold replica.old.size count (place_of replica.old)) }
    ensures leads { D.tells
        → OnOk result (MayLead replica.old.size count (place_of replica.old) (place_of replica.new)) }
    ensures on { D.tells → OnOk result (IsHeldOn replica.new.database (D.view disk.new)) }
    ensures too_long { (w : Wire) → L.wire link.old ≡ Some w → result ≡ Err RunHalt.InputTooLong
        → GivesTooMuch w.to_come }
    ensures long { (w : Wire) → L.wire link.old ≡ Some w → result ≡ Err RunHalt.InputTooLong
        → StopsLongIn name.now replica.old.size count (stage_of w (K.taken sink.old) (place_of replica.old) false)
        (sent_in (L.wire link.new)) }
    ensures in_time { (w : Wire) → L.wire link.old ≡ Some w
        → OnOk result
        (AllEnd name.now replica.old.size count (stage_of w (K.taken sink.old) (place_of replica.old) false)) }
    ensures call { IsCall D.Disk disk.old disk.new (result ≡ Err RunHalt.DiskFault) }
    ensures links { Counts (L.faults link.old) (L.faults link.new) (result ≡ Err RunHalt.LinkFault) }
    ensures writes { Counts (K.faults sink.old) (K.faults sink.new) (result ≡ Err RunHalt.WriteFault) }
{
    let mut refused = false;
    for done in 0..count {
        match turn(alloc, replica, link, sink, disk, name, done + 1) {
            Ok(bad) => refused = either(refused, bad),
            Err(halt) => return Err(halt),
        }
    }
    Ok(refused)
}
