//! What was read of an input, loaded or refused. The reply to a load is printed before the load is made.

ghost use Rattle.std.specs.Prelude.{◌≡◌, ◌⊎◌, true, false, Err, IfErr, IfOk, OnErr, OnOk, Ok};
ghost use Rattle.kadm_commands.specs.declared.replies.Reply.TheVariants.{Done, Refused};
ghost use Rattle.kadm_loading.specs.Halts.{IsLoadingHalt, SparesOutput};
ghost use Rattle.kadm_loading.specs.Loads.{HasEnd, LeavesSome, LoadEnd, LoadsAs, LoadsTo, load_stage, places_loaded};
ghost use Rattle.kadm_replies.specs.Replies.{reply_text};
ghost use Rattle.session_base.specs.Stages.{IsStopped};
ghost use Rattle.session_base.specs.Halts.{Counts};
ghost use Rattle.kdb_disk.specs.Frames.{IsCall};
ghost use Rattle.kdb_disk.specs.Moments.{LeavesOnly};
ghost use Rattle.kdb_histories.specs.Calls.{HasTimeLeft};
ghost use Rattle.kdb_histories.specs.Seen.{reset_point};
ghost use Rattle.kdb_ports.specs.Parts.{SaidPart};
ghost use Rattle.kdb_ports.specs.Told.{after_told};
ghost use Rattle.primary_loading.specs.Opened.{place_of};
ghost use Rattle.store_files.specs.Kept.{IsOnDisk};
ghost use Rattle.store_files.specs.Recovery.{LeavesPart, RecoversTo};

use dump_text::Dump;
use kadm_commands::Reply;
use kdb_base::{MemoryOut, Point, Refusal, Stop, Time};
use kdb_disk::Disk;
use kdb_ports::{Sink, write_whole};
use primary_loading::{Primary, load};
use session_base::{Printed, SessionHalt, print, say};
use std::alloc::Global;
use store_files::laws::what_is_kept_is_recovered;

// The point at which the log would begin anew, or that of the last change where no later time is left.
fn base_or_last(primary: &Primary, now: Time) -> Point
    ensures { HasTimeLeft (place_of primary.now) → result ≡ reset_point now (place_of primary.now) }
{
    match primary.base_point(now) {
        Some(base) => base,
        None => primary.point(),
    }
}

// The reply to a load, which is written where one is made.
fn print_base(alloc: Global, primary: &Primary, now: Time) -> Result<Printed, MemoryOut>
    ensures { IfOk result (λ printed. HasTimeLeft (place_of primary.now)
        → printed.text ≡ reply_text (Done (reset_point now (place_of primary.now)))) }
{
    print(alloc, Reply::Done(base_or_last(primary, now)))
}

// Writes a printed reply whole. It takes no memory.
fn write_printed<K: Sink>(sink: &mut K, printed: &Printed) -> Result<bool, SessionHalt>
    ensures ok { OnOk result (K.taken sink.new ≡ after_told (K.taken sink.old) printed.now.text) }
    ensures answer { IfOk result (λ refused. refused ≡ false) }
    ensures err { OnErr result (SaidPart printed.now.text (K.taken sink.old) (K.taken sink.new)) }
    ensures halt { IfErr result (λ halt. halt ≡ SessionHalt.WriteFault) }
    ensures faults { Counts (K.faults sink.old) (K.faults sink.new) (result ≡ Err SessionHalt.WriteFault) }
{
    match write_whole(sink, printed.text.as_slice()) {
        Ok(()) => Ok(false),
        Err(_) => Err(SessionHalt::WriteFault),
    }
}

// Writes a refusal whole.
fn refuse<K: Sink>(alloc: Global, sink: &mut K, why: Refusal) -> Result<bool, SessionHalt>
    ensures ok { OnOk result (K.taken sink.new ≡ after_told (K.taken sink.old) (reply_text (Refused why))) }
    ensures answer { IfOk result (λ refused. refused ≡ true) }
    ensures err { OnErr result (SaidPart (reply_text (Refused why)) (K.taken sink.old) (K.taken sink.new)) }
    ensures memory { result ≡ Err SessionHalt.MemoryOut → sink.new ≡ sink.old }
    ensures halt { IfErr result (λ halt. (halt ≡ SessionHalt.MemoryOut) ⊎ (halt ≡ SessionHalt.WriteFault)) }
    ensures faults { Counts (K.faults sink.old) (K.faults sink.new) (result ≡ Err SessionHalt.WriteFault) }
{
    match say(alloc, sink, &Reply::Refused(why)) {
        Ok(()) => Ok(true),
        Err(halt) => Err(halt),
    }
}

// Loads a dump, and then writes the reply that was printed, or why it is refused.
fn load_printed<K: Sink, D: Disk>(
    alloc: Global,
    primary: &mut Primary,
    sink: &mut K,
    disk: &mut D,
    dump: Dump,
    now: Time,
    printed: &Printed,
) -> Result<bool, SessionHalt>
    requires on { D.tells → IsOnDisk primary.old.kept (D.view disk.old) }
    requires whole { primary.old.kept.broken ≡ false }
    requires stands { D.tells → RecoversTo (place_of primary.old) (D.view disk.old) }
    requires printed { HasTimeLeft (place_of primary.old)
        → printed.now.text ≡ reply_text (Done (reset_point now (place_of primary.old))) }
    ensures ended { (end : LoadEnd) → LoadsTo (place_of primary.old) primary.old.kept.control.stash now (Ok dump) end
        → IfOk result (LoadsAs end now primary.old primary.new (K.taken sink.old) (K.taken sink.new)) }
    ensures comes { OnOk result (HasEnd primary.old now (Ok dump)) }
    ensures kept { result ≡ Ok true → (primary.new ≡ primary.old) × (disk.new ≡ disk.old) }
    ensures stopped { D.tells → (end : LoadEnd)
        → LoadsTo (place_of primary.old) primary.old.kept.control.stash now (Ok dump) end
        → OnErr result (IsStopped (load_stage end now (place_of primary.old) (K.taken sink.old)) (K.taken sink.new)
        (D.view disk.new)) }
    ensures rests { IfErr result
        (λ halt. SparesOutput halt → (K.taken sink.new ≡ K.taken sink.old) × (disk.new ≡ disk.old)) }
    ensures moments { D.tells → (end : LoadEnd)
        → LoadsTo (place_of primary.old) primary.old.kept.control.stash now (Ok dump) end
        → LeavesOnly (D.view disk.old) (D.view disk.new)
        (LeavesPart (place_of primary.old) (places_loaded end now (place_of primary.old))) }
    ensures crash { D.tells → LeavesOnly (D.view disk.old) (D.view disk.new) (LeavesSome (place_of primary.old)) }
    ensures on { D.tells → OnOk result (IsOnDisk primary.new.kept (D.view disk.new)) }
    ensures whole { OnOk result (primary.new.kept.broken ≡ false) }
    ensures halt { IfErr result IsLoadingHalt }
    ensures call { IsCall D.Disk disk.old disk.new (result ≡ Err SessionHalt.DiskFault) }
    ensures writes { Counts (K.faults sink.old) (K.faults sink.new) (result ≡ Err SessionHalt.WriteFault) }
{
    match load(alloc, primary, disk, dump, now) {
        Ok(_) => {
            what_is_kept_is_recovered(disk);
            write_printed(sink, printed)
        }
        Err(Stop::Refused(why)) => refuse(alloc, sink, why),
        Err(Stop::Halt(halt)) => Err(SessionHalt::from(halt)),
    }
}

// Loads a dump. What memory the reply wants is taken first.
fn load_dump<K: Sink, D: Disk>(
    alloc: Global,
    primary: &mut Primary,
    sink: &mut K,
    disk: &mut D,
    dump: Dump,
    now: Time,
) -> Result<bool, SessionHalt>
    requires on { D.tells → IsOnDisk primary.old.kept (D.view disk.old) }
    requires whole { primary.old.kept.broken ≡ false }
    ensures ended { (end : LoadEnd) → LoadsTo (place_of primary.old) primary.old.kept.control.stash now (Ok dump) end
        → IfOk result (LoadsAs end now primary.old primary.new (K.taken sink.old) (K.taken sink.new)) }
    ensures comes { OnOk result (HasEnd primary.old now (Ok dump)) }
    ensures kept { result ≡ Ok true → (primary.new ≡ primary.old) × (disk.new ≡ disk.old) }
    ensures stopped { D.tells → (end : LoadEnd)
        → LoadsTo (place_of primary.old) primary.old.kept.control.stash now (Ok dump) end
        → OnErr result (IsStopped (load_stage end now (place_of primary.old) (K.taken sink.old)) (K.taken sink.new)
        (D.view disk.new)) }
    ensures rests { IfErr result
        (λ halt. SparesOutput halt → (K.taken sink.new ≡ K.taken sink.old) × (disk.new ≡ disk.old)) }
    ensures moments { D.tells → (end : LoadEnd)
        → LoadsTo (place_of primary.old) primary.old.kept.control.stash now (Ok dump) end
        → LeavesOnly (D.view disk.old) (D.view disk.new)
        (LeavesPart (place_of primary.old) (places_loaded end now (place_of primary.old))) }
    ensures crash { D.tells → LeavesOnly (D.view disk.old) (D.view disk.new) (LeavesSome (place_of primary.old)) }
    ensures on { D.tells → OnOk result (IsOnDisk primary.new.kept (D.view disk.new)) }
    ensures whole { OnOk result (primary.new.kept.broken ≡ false) }
    ensures halt { IfErr result IsLoadingHalt }
    ensures call { IsCall D.Disk disk.old disk.new (result ≡ Err SessionHalt.DiskFault) }
    ensures writes { Counts (K.faults sink.old) (K.faults sink.new) (result ≡ Err SessionHalt.WriteFault) }
{
    what_is_kept_is_recovered(disk);
    match print_base(alloc, primary, now) {
        Ok(printed) => load_printed(alloc, primary, sink, disk, dump, now, &printed),
        Err(_) => Err(SessionHalt::MemoryOut),
    }
}

/// Loads what was read, or refuses it by its first bad line.
pub(crate) fn answer<K: Sink, D: Disk>(
    alloc: Global,
    primary: &mut Primary,
    sink: &mut K,
    disk: &mut D,
    read: Result<Dump, u32>,
    now: Time,
) -> Result<bool, SessionHalt>
    requires on { D.tells → IsOnDisk primary.old.kept (D.view disk.old) }
    requires whole { primary.old.kept.broken ≡ false }
    ensures ended { (end : LoadEnd) → LoadsTo (place_of primary.old) primary.old.kept.control.stash now read end
        → IfOk result (LoadsAs end now primary.old primary.new (K.taken sink.old) (K.taken sink.new)) }
    ensures comes { OnOk result (HasEnd primary.old now read) }
    ensures kept { result ≡ Ok true → (primary.new ≡ primary.old) × (disk.new ≡ disk.old) }
    ensures stopped { D.tells → (end : LoadEnd)
        → LoadsTo (place_of primary.old) primary.old.kept.control.stash now read end
        → OnErr result (IsStopped (load_stage end now (place_of primary.old) (K.taken sink.old)) (K.taken sink.new)
        (D.view disk.new)) }
    ensures rests { IfErr result
        (λ halt. SparesOutput halt → (K.taken sink.new ≡ K.taken sink.old) × (disk.new ≡ disk.old)) }
    ensures moments { D.tells → (end : LoadEnd)
        → LoadsTo (place_of primary.old) primary.old.kept.control.stash now read end
        → LeavesOnly (D.view disk.old) (D.view disk.new)
        (LeavesPart (place_of primary.old) (places_loaded end now (place_of primary.old))) }
    ensures crash { D.tells → LeavesOnly (D.view disk.old) (D.view disk.new) (LeavesSome (place_of primary.old)) }
    ensures on { D.tells → OnOk result (IsOnDisk primary.new.kept (D.view disk.new)) }
    ensures whole { OnOk result (primary.new.kept.broken ≡ false) }
    ensures halt { IfErr result IsLoadingHalt }
    ensures call { IsCall D.Disk disk.old disk.new (result ≡ Err SessionHalt.DiskFault) }
    ensures writes { Counts (K.faults sink.old) (K.faults sink.new) (result ≡ Err SessionHalt.WriteFault) }
{
    what_is_kept_is_recovered(disk);
    match read {
        Ok(dump) => load_dump(alloc, primary, sink, disk, dump, now),
        Err(line) => refuse(alloc, sink, Refusal::DumpBad { line }),
    }
}
