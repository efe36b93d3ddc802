//! The log begun anew on request. The reply is printed before that: its point is known.

ghost use Rattle.std.specs.Prelude.{◌≡◌, ◌≢◌, false, Err, IfErr, IfOk, OnOk, Option, Some, ℕ};
ghost use Rattle.kadm_replies.specs.Replies.{reply_text};
ghost use Rattle.kadm_session.specs.Deciding.{Decides, IsLineSafe, StandsAt};
ghost use Rattle.session_base.specs.Draws.{told_draws};
ghost use Rattle.session_base.specs.Halts.{IsPerformHalt};
ghost use Rattle.kadm_session.specs.Renewing.{renewed};
ghost use Rattle.kadm_session.specs.declared.intake.Asked.TheVariants.{ResetsLog};
ghost use Rattle.kdb_disk.specs.Frames.{IsCall, IsCrashSafe};
ghost use Rattle.kdb_histories.specs.Calls.{HasTimeLeft, ResetLog};
ghost use Rattle.kdb_histories.specs.Seen.{reset_point, seen};
ghost use Rattle.kdb_model.specs.Calls.{is_last};
ghost use Rattle.kdb_places.specs.Places.{point_of};
ghost use Rattle.kdb_plain.specs.declared.states.State.{State};
ghost use Rattle.primary_core.specs.Opened.{HasState, MayLeave, place_of};
ghost use Rattle.store_files.specs.Kept.{IsOnDisk};

use crate::moments::holds_moment;
use kadm_commands::Reply;
use kdb_base::{Point, Refusal, Stop, Time};
use kdb_disk::Disk;
use kdb_ports::Clock;
use primary_core::Primary;
use session_base::{Printed, SessionHalt, print};
use std::alloc::Global;
use store_files::laws::what_is_kept_is_recovered;

// Begins the log anew, and gives the reply that was printed.
fn reset<D: Disk>(
    alloc: Global,
    primary: &mut Primary,
    disk: &mut D,
    printed: Printed,
    now: Time,
) -> Result<Printed, SessionHalt>
    requires left { is_last (point_of (place_of primary.old)).time ≡ false }
    requires on { D.tells → IsOnDisk primary.old.kept (D.view disk.old) }
    requires whole { primary.old.kept.broken ≡ false }
    ensures same { IfOk result (λ given. given ≡ printed) }
    ensures stands { (s : State) → HasState primary.old s
        → OnOk result (StandsAt primary.new (renewed now (seen (place_of primary.old) s))) }
    ensures crash { (s : State) → HasState primary.old s
        → IsCrashSafe D.Disk disk.old disk.new (MayLeave (place_of primary.old) s (ResetLog now)) }
    ensures time { OnOk result (HasTimeLeft (place_of primary.old)) }
    ensures on { D.tells → OnOk result (IsOnDisk primary.new.kept (D.view disk.new)) }
    ensures whole { OnOk result (primary.new.kept.broken ≡ false) }
    ensures realm { OnOk result (primary.new.kept.realm ≡ primary.old.kept.realm) }
    ensures memory { result ≡ Err SessionHalt.MemoryOut
        → (disk.new ≡ disk.old) × (place_of primary.new ≡ place_of primary.old) }
    ensures halt { IfErr result IsPerformHalt }
    ensures not_drawn { IfErr result (λ halt. halt ≢ SessionHalt.DrawFault) }
    ensures call { IsCall D.Disk disk.old disk.new (result ≡ Err SessionHalt.DiskFault) }
{
    primary.holds_opened();
    match primary.reset_log(alloc, disk, now) {
        Ok(_) => Ok(printed),
        // The primary is open, and a later time is left.
        Err(Stop::Refused(_)) => unreachable!(),
        Err(Stop::Halt(halt)) => Err(SessionHalt::from(halt)),
    }
}

// Begins the log anew at this point, which the reply tells.
fn renew_at<D: Disk>(
    alloc: Global,
    primary: &mut Primary,
    disk: &mut D,
    base: Point,
    now: Time,
) -> Result<Printed, SessionHalt>
    requires base { base ≡ reset_point now (place_of primary.old) }
    requires left { is_last (point_of (place_of primary.old)).time ≡ false }
    requires on { D.tells → IsOnDisk primary.old.kept (D.view disk.old) }
    requires whole { primary.old.kept.broken ≡ false }
    ensures reply { IfOk result (λ printed. printed.reply ≡ Reply.Done (reset_point now (place_of primary.old))) }
    ensures text { IfOk result (λ printed. printed.text ≡ reply_text printed.reply) }
    ensures stands { (s : State) → HasState primary.old s
        → OnOk result (StandsAt primary.new (renewed now (seen (place_of primary.old) s))) }
    ensures crash { (s : State) → HasState primary.old s
        → IsCrashSafe D.Disk disk.old disk.new (MayLeave (place_of primary.old) s (ResetLog now)) }
    ensures time { OnOk result (HasTimeLeft (place_of primary.old)) }
    ensures on { D.tells → OnOk result (IsOnDisk primary.new.kept (D.view disk.new)) }
    ensures whole { OnOk result (primary.new.kept.broken ≡ false) }
    ensures realm { OnOk result (primary.new.kept.realm ≡ primary.old.kept.realm) }
    ensures memory { result ≡ Err SessionHalt.MemoryOut
        → (disk.new ≡ disk.old) × (place_of primary.new ≡ place_of primary.old) }
    ensures halt { IfErr result IsPerformHalt }
    ensures not_drawn { IfErr result (λ halt. halt ≢ SessionHalt.DrawFault) }
    ensures call { IsCall D.Disk disk.old disk.new (result ≡ Err SessionHalt.DiskFault) }
{
    what_is_kept_is_recovered(disk);
    match print(alloc, Reply::Done(base)) {
        Ok(printed) => reset(alloc, primary, disk, printed, now),
        Err(_) => Err(SessionHalt::MemoryOut),
    }
}

/// Begins the log anew on request, and gives the reply: the point of the log's base marker, or `TimeEnd` where no later
/// time is left. The clock is read once, and nothing is drawn. Where memory is wanted and not there, nothing was done.
pub(crate) fn renew<D: Disk, C: Clock>(
    alloc: Global,
    primary: &mut Primary,
    disk: &mut D,
    clock: &mut C,
) -> Result<Printed, SessionHalt>
    requires on { D.tells → IsOnDisk primary.old.kept (D.view disk.old) }
    requires whole { primary.old.kept.broken ≡ false }
    // Whatever the source of random bytes tells, it tells the same behind it.
    ensures decided { (stream : Option (ℕ → ℕ)) (s : State)
        → HasState primary.old s → IfOk result (λ printed. Decides ResetsLog (told_draws (C.moments clock.old) stream)
        (seen (place_of primary.old) s) (Some printed.reply) primary.new (told_draws (C.moments clock.new) stream)) }
    ensures safe { (stream : Option (ℕ → ℕ)) (s : State) → HasState primary.old s → IsLineSafe D.Disk disk.old disk.new
        ResetsLog (told_draws (C.moments clock.old) stream) (seen (place_of primary.old) s) }
    ensures text { IfOk result (λ printed. printed.text ≡ reply_text printed.reply) }
    ensures on { D.tells → OnOk result (IsOnDisk primary.new.kept (D.view disk.new)) }
    ensures whole { OnOk result (primary.new.kept.broken ≡ false) }
    ensures realm { OnOk result (primary.new.kept.realm ≡ primary.old.kept.realm) }
    ensures memory { result ≡ Err SessionHalt.MemoryOut
        → (disk.new ≡ disk.old) × (place_of primary.new ≡ place_of primary.old) }
    ensures halt { IfErr result IsPerformHalt }
    ensures not_drawn { IfErr result (λ halt. halt ≢ SessionHalt.DrawFault) }
    ensures call { IsCall D.Disk disk.old disk.new (result ≡ Err SessionHalt.DiskFault) }
{
    what_is_kept_is_recovered(disk);
    let now = clock.now();
    holds_moment(now);
    match primary.base_point(now) {
        Some(base) => renew_at(alloc, primary, disk, base, now),
        None => match print(alloc, Reply::Refused(Refusal::TimeEnd)) {
            Ok(printed) => Ok(printed),
            Err(_) => Err(SessionHalt::MemoryOut),
        },
    }
}
