//! Commands of the administrator at the machine itself. All memory is taken before a change is made.

ghost use Rattle.std.specs.Prelude.{◌≡◌, ◌≢◌, true, false, Err, IfErr, IfOk, None, OnOk, Some, length};
ghost use Rattle.kadm_commands.specs.Commands.{IsCommand};
ghost use Rattle.kadm_replies.specs.Replies.{reply_text};
ghost use Rattle.kadm_session.specs.Deciding.{Decides, IsLineSafe, StandsAt};
ghost use Rattle.session_base.specs.Draws.{told_draws};
ghost use Rattle.kadm_session.specs.Events.{Performed};
ghost use Rattle.session_base.specs.Halts.{IsPerformHalt};
ghost use Rattle.kadm_session.specs.Input.{IsLineCommand};
ghost use Rattle.kadm_session.specs.Serving.{HasDrawCauses, LeavesUndone, StaysOpen};
ghost use Rattle.kadm_session.specs.Steps.{ask_at, local_client};
ghost use Rattle.kadm_session.specs.declared.intake.Asked.TheVariants.{Does};
ghost use Rattle.kdb_disk.specs.Frames.{IsCall, IsCrashSafe};
ghost use Rattle.kdb_histories.specs.Asks.{Ask, Replied, clock_of};
ghost use Rattle.kdb_histories.specs.Calls.{Perform};
ghost use Rattle.kdb_histories.specs.Seen.{after_ask, seen};
ghost use Rattle.kdb_plain.specs.declared.states.State.{State};
ghost use Rattle.primary_core.specs.Deciding.{is_judged};
ghost use Rattle.primary_core.specs.Opened.{HasState, IsDecided, MayLeave, MayMake, command_ask, place_of};
ghost use Rattle.primary_core.specs.declared.decided.DecidedChange.{DecidedChange as Changes};
ghost use Rattle.store_files.specs.Kept.{IsOnDisk};

use crate::clients::local_client;
use crate::moments::holds_moment;
use crate::stashing::{is_stash, restash};
use kadm_commands::{Command, Reply};
use kdb_base::{MemoryOut, Time};
use kdb_disk::Disk;
use kdb_ports::{Clock, Entropy};
use primary_core::laws::decisions_are_asked;
use primary_core::{Decided, DecidedChange, Primary, Ready, changes_make_places, prepare};
use princ_name::Name;
use session_base::{Printed, SessionHalt, draw, print};
use std::alloc::Global;
use store_files::laws::what_is_kept_is_recovered;

/// What a command comes to: its reply with its bytes, and the change that is to be made first, where there is one.
#[derive(Drop)]
pub struct Judged {
    pub printed: Printed,
    pub change: Option<DecidedChange>,
}

// Prints the reply of a change.
fn judged_change(alloc: Global, change: DecidedChange, reply: Reply) -> Result<Judged, MemoryOut>
    ensures reply { IfOk result (λ j. j.printed.reply ≡ reply) }
    ensures text { IfOk result (λ j. j.printed.text ≡ reply_text j.printed.reply) }
    ensures change { IfOk result (λ j. j.change ≡ Some change) }
{
    match print(alloc, reply) {
        Ok(printed) => Ok(Judged {
            printed,
            change: Some(change),
        }),
        Err(_) => Err(MemoryOut),
    }
}

// Prints the reply of a command that changes nothing.
fn judged_answer(alloc: Global, reply: Reply) -> Result<Judged, MemoryOut>
    ensures reply { IfOk result (λ j. j.printed.reply ≡ reply) }
    ensures text { IfOk result (λ j. j.printed.text ≡ reply_text j.printed.reply) }
    ensures change { IfOk result (λ j. j.change ≡ None) }
{
    match print(alloc, reply) {
        Ok(printed) => Ok(Judged {
            printed,
            change: None,
        }),
        Err(_) => Err(MemoryOut),
    }
}

// What a command of this client comes to, at a moment of the clock and with a block of random bytes.
fn judge_for(
    alloc: Global,
    primary: &Primary,
    client: &Name,
    ready: &Ready,
    now: Time,
    random: &[u8],
) -> Result<Judged, MemoryOut>
    requires command { IsCommand primary.now.kept.realm ready.now.command }
    requires judged { is_judged ready.now.command ≡ true }
    requires random { length random.now ≡ 2048 }
    requires whole { primary.now.kept.broken ≡ false }
    ensures decided { IfOk result (λ j.
        IsDecided primary.now (command_ask client.now None ready.now.command now random.now) j.printed.reply j.change) }
    ensures may { (change : Changes) → IfOk result (λ j. j.change ≡ Some change → MayMake primary.now now change) }
    ensures text { IfOk result (λ j. j.printed.text ≡ reply_text j.printed.reply) }
{
    match primary.decide(alloc, client, None, ready, now, random) {
        Ok(Decided::Answer(reply)) => judged_answer(alloc, reply),
        Ok(Decided::Change(change, reply)) => judged_change(alloc, change, reply),
        Err(_) => Err(MemoryOut),
    }
}

/// What a command of the local administrator comes to, at a moment of the clock and with a block of random bytes.
///
/// # Errors
///
/// `MemoryOut` where memory is wanted and not given.
pub fn judge(
    alloc: Global,
    primary: &Primary,
    ready: &Ready,
    now: Time,
    random: &[u8],
) -> Result<Judged, MemoryOut>
    requires command { IsCommand primary.now.kept.realm ready.now.command }
    requires judged { is_judged ready.now.command ≡ true }
    requires random { length random.now ≡ 2048 }
    requires whole { primary.now.kept.broken ≡ false }
    ensures decided { IfOk result (λ j. IsDecided primary.now (command_ask (local_client primary.now.kept.realm) None
        ready.now.command now random.now) j.printed.reply j.change) }
    ensures may { (change : Changes) → IfOk result (λ j. j.change ≡ Some change → MayMake primary.now now change) }
    ensures text { IfOk result (λ j. j.printed.text ≡ reply_text j.printed.reply) }
{
    match local_client(alloc, primary.realm().as_slice()) {
        Ok(client) => judge_for(alloc, primary, &client, ready, now, random),
        Err(_) => Err(MemoryOut),
    }
}

/// Makes the change, where there is one, and gives the reply that was printed.
///
/// # Errors
///
/// `DiskFault` where a call of the disk fails, and `MemoryOut` where memory is wanted and not given; then nothing was
/// done.
pub fn carry_out<D: Disk>(
    alloc: Global,
    primary: &mut Primary,
    disk: &mut D,
    judged: Judged,
    now: Time,
) -> Result<Printed, SessionHalt>
    requires on { D.tells → IsOnDisk primary.old.kept (D.view disk.old) }
    requires whole { primary.old.kept.broken ≡ false }
    requires may { (change : Changes) → judged.change ≡ Some change → MayMake primary.old now change }
    ensures same { IfOk result (λ printed. printed ≡ judged.printed) }
    ensures stands { (ask : Ask) (s : State)
        → clock_of ask ≡ now → IsDecided primary.old ask judged.printed.reply judged.change → HasState primary.old s
        → OnOk result (StandsAt primary.new (after_ask ask (seen (place_of primary.old) s))) }
    ensures crash { (ask : Ask) (s : State)
        → clock_of ask ≡ now → IsDecided primary.old ask judged.printed.reply judged.change → HasState primary.old s
        → IsCrashSafe D.Disk disk.old disk.new (MayLeave (place_of primary.old) s (Perform ask)) }
    ensures on { D.tells → OnOk result (IsOnDisk primary.new.kept (D.view disk.new)) }
    ensures whole { OnOk result (primary.new.kept.broken ≡ false) }
    ensures realm { OnOk result (primary.new.kept.realm ≡ primary.old.kept.realm) }
    ensures memory { result ≡ Err SessionHalt.MemoryOut
        → (disk.new ≡ disk.old) × (place_of primary.new ≡ place_of primary.old) }
    ensures halt { IfErr result IsPerformHalt }
    ensures not_drawn { IfErr result (λ halt. halt ≢ SessionHalt.DrawFault) }
    ensures call { IsCall D.Disk disk.old disk.new (result ≡ Err SessionHalt.DiskFault) }
{
    what_is_kept_is_recovered(disk);
    decisions_are_asked();
    changes_make_places();
    let Judged { printed, change } = judged;
    match change {
        None => Ok(printed),
        Some(change) => match primary.make(alloc, disk, change, now) {
            Ok(()) => Ok(printed),
            Err(halt) => Err(SessionHalt::from(halt)),
        },
    }
}

// Judges a command that is ready, and makes its change.
fn perform_judged<D: Disk>(
    alloc: Global,
    primary: &mut Primary,
    disk: &mut D,
    ready: &Ready,
    now: Time,
    random: &[u8],
) -> Result<Printed, SessionHalt>
    requires command { IsCommand primary.old.kept.realm ready.now.command }
    requires judged { is_judged ready.now.command ≡ true }
    requires random { length random.now ≡ 2048 }
    requires on { D.tells → IsOnDisk primary.old.kept (D.view disk.old) }
    requires whole { primary.old.kept.broken ≡ false }
    ensures performs { (s : State) → HasState primary.old s
        → IfOk result (λ printed. Performed (ask_at ready.now.command now random.now (seen (place_of primary.old) s))
        (seen (place_of primary.old) s) (Replied printed.reply)) }
    ensures stands { (s : State) → HasState primary.old s → OnOk result (StandsAt primary.new (after_ask
        (ask_at ready.now.command now random.now (seen (place_of primary.old) s)) (seen (place_of primary.old) s))) }
    ensures crash { (s : State) → HasState primary.old s → IsCrashSafe D.Disk disk.old disk.new (MayLeave
        (place_of primary.old) s (Perform (ask_at ready.now.command now random.now (seen (place_of primary.old) s)))) }
    ensures text { IfOk result (λ printed. printed.text ≡ reply_text printed.reply) }
    ensures on { D.tells → OnOk result (IsOnDisk primary.new.kept (D.view disk.new)) }
    ensures whole { OnOk result (primary.new.kept.broken ≡ false) }
    ensures realm { OnOk result (primary.new.kept.realm ≡ primary.old.kept.realm) }
    ensures memory { result ≡ Err SessionHalt.MemoryOut
        → (disk.new ≡ disk.old) × (place_of primary.new ≡ place_of primary.old) }
    ensures halt { IfErr result IsPerformHalt }
    ensures not_drawn { IfErr result (λ halt. halt ≢ SessionHalt.DrawFault) }
    ensures call { IsCall D.Disk disk.old disk.new (result ≡ Err SessionHalt.DiskFault) }
{
    what_is_kept_is_recovered(disk);
    match judge(alloc, primary, ready, now, random) {
        Ok(judged) => carry_out(alloc, primary, disk, judged, now),
        Err(_) => Err(SessionHalt::MemoryOut),
    }
}

// Does a command that is ready, at a moment of the clock and with a block of random bytes.
fn perform_at<D: Disk>(
    alloc: Global,
    primary: &mut Primary,
    disk: &mut D,
    ready: &Ready,
    now: Time,
    random: &[u8],
) -> Result<Printed, SessionHalt>
    requires command { IsLineCommand primary.old.kept.realm ready.now.command }
    requires random { length random.now ≡ 2048 }
    requires on { D.tells → IsOnDisk primary.old.kept (D.view disk.old) }
    requires whole { primary.old.kept.broken ≡ false }
    ensures performs { (s : State) → HasState primary.old s
        → IfOk result (λ printed. Performed (ask_at ready.now.command now random.now (seen (place_of primary.old) s))
        (seen (place_of primary.old) s) (Replied printed.reply)) }
    ensures stands { (s : State) → HasState primary.old s → OnOk result (StandsAt primary.new (after_ask
        (ask_at ready.now.command now random.now (seen (place_of primary.old) s)) (seen (place_of primary.old) s))) }
    ensures crash { (s : State) → HasState primary.old s → IsCrashSafe D.Disk disk.old disk.new (MayLeave
        (place_of primary.old) s (Perform (ask_at ready.now.command now random.now (seen (place_of primary.old) s)))) }
    ensures text { IfOk result (λ printed. printed.text ≡ reply_text printed.reply) }
    ensures on { D.tells → OnOk result (IsOnDisk primary.new.kept (D.view disk.new)) }
    ensures whole { OnOk result (primary.new.kept.broken ≡ false) }
    ensures realm { OnOk result (primary.new.kept.realm ≡ primary.old.kept.realm) }
    ensures memory { result ≡ Err SessionHalt.MemoryOut
        → (disk.new ≡ disk.old) × (place_of primary.new ≡ place_of primary.old) }
    ensures halt { IfErr result IsPerformHalt }
    ensures not_drawn { IfErr result (λ halt. halt ≢ SessionHalt.DrawFault) }
    ensures call { IsCall D.Disk disk.old disk.new (result ≡ Err SessionHalt.DiskFault) }
{
    if is_stash(ready.command()) {
        return restash(alloc, primary, disk, now);
    }
    perform_judged(alloc, primary, disk, ready, now, random)
}

// Does a command that is ready: a block of random bytes is drawn, and the clock is read, once each.
fn perform_ready<D: Disk, C: Clock, E: Entropy>(
    alloc: Global,
    primary: &mut Primary,
    disk: &mut D,
    clock: &mut C,
    entropy: &mut E,
    ready: &Ready,
) -> Result<Printed, SessionHalt>
    requires command { IsLineCommand primary.old.kept.realm ready.now.command }
    requires on { D.tells → IsOnDisk primary.old.kept (D.view disk.old) }
    requires whole { primary.old.kept.broken ≡ false }
    ensures decided { (s : State) → HasState primary.old s → IfOk result (λ printed. Decides (Does ready.now.command)
        (told_draws (C.moments clock.old) (E.stream entropy.old)) (seen (place_of primary.old) s)
        (Some printed.reply) primary.new (told_draws (C.moments clock.new) (E.stream entropy.new))) }
    ensures safe { (s : State) → HasState primary.old s → IsLineSafe D.Disk disk.old disk.new (Does ready.now.command)
        (told_draws (C.moments clock.old) (E.stream entropy.old)) (seen (place_of primary.old) s) }
    ensures text { IfOk result (λ printed. printed.text ≡ reply_text printed.reply) }
    ensures stays { StaysOpen D.Disk primary.old primary.new disk.new result }
    ensures undone { LeavesUndone disk.old disk.new primary.old primary.new result }
    ensures causes { HasDrawCauses D.Disk disk.old disk.new (E.faults entropy.old) (E.faults entropy.new) result }
{
    what_is_kept_is_recovered(disk);
    match draw(alloc, entropy, 2048) {
        Ok(random) => {
            let now = clock.now();
            holds_moment(now);
            perform_at(alloc, primary, disk, ready, now, random.as_slice())
        }
        Err(halt) => Err(halt),
    }
}

/// Does a command of the local administrator, and gives its reply. Where memory is wanted and not there, or no random
/// bytes are given, nothing was done.
pub(crate) fn perform<D: Disk, C: Clock, E: Entropy>(
    alloc: Global,
    primary: &mut Primary,
    disk: &mut D,
    clock: &mut C,
    entropy: &mut E,
    command: &Command,
) -> Result<Printed, SessionHalt>
    requires command { IsLineCommand primary.old.kept.realm command.now }
    requires on { D.tells → IsOnDisk primary.old.kept (D.view disk.old) }
    requires whole { primary.old.kept.broken ≡ false }
    ensures decided { (s : State) → HasState primary.old s → IfOk result (λ printed. Decides (Does command.now)
        (told_draws (C.moments clock.old) (E.stream entropy.old)) (seen (place_of primary.old) s)
        (Some printed.reply) primary.new (told_draws (C.moments clock.new) (E.stream entropy.new))) }
    ensures safe { (s : State) → HasState primary.old s → IsLineSafe D.Disk disk.old disk.new (Does command.now)
        (told_draws (C.moments clock.old) (E.stream entropy.old)) (seen (place_of primary.old) s) }
    ensures text { IfOk result (λ printed. printed.text ≡ reply_text printed.reply) }
    ensures stays { StaysOpen D.Disk primary.old primary.new disk.new result }
    ensures undone { LeavesUndone disk.old disk.new primary.old primary.new result }
    ensures causes { HasDrawCauses D.Disk disk.old disk.new (E.faults entropy.old) (E.faults entropy.new) result }
{
    what_is_kept_is_recovered(disk);
    match prepare(alloc, command, primary.realm().as_slice()) {
        Ok(ready) => perform_ready(alloc, primary, disk, clock, entropy, &ready),
        Err(_) => Err(SessionHalt::MemoryOut),
    }
}
