//! The command that writes the stash. Its reply is printed before the stash is written.

ghost use Rattle.std.specs.Prelude.{◌≡◌, ◌≢◌, false, true, Err, IfErr, IfOk, List, OnErr, OnOk, ℕ};
ghost use Rattle.kadm_commands.specs.declared.commands.Command.TheVariants.{Stash};
ghost use Rattle.kadm_replies.specs.Replies.{reply_text};
ghost use Rattle.kadm_session.specs.Deciding.{StandsAt};
ghost use Rattle.kadm_session.specs.Events.{Performed};
ghost use Rattle.session_base.specs.Halts.{IsPerformHalt};
ghost use Rattle.kadm_session.specs.Input.{is_stash};
ghost use Rattle.kadm_session.specs.Steps.{ask_at, local_client, refuses};
ghost use Rattle.kdb_disk.specs.Frames.{IsCall, IsCrashSafe};
ghost use Rattle.kdb_histories.specs.Asks.{Replied};
ghost use Rattle.kdb_histories.specs.Calls.{Perform};
ghost use Rattle.kdb_histories.specs.Seen.{after_ask, seen};
ghost use Rattle.kdb_plain.specs.declared.states.State.{State};
ghost use Rattle.primary_core.specs.Opened.{HasState, MayLeave, place_of};
ghost use Rattle.primary_core.specs.Refusing.{IsStashReply};
ghost use Rattle.store_files.specs.Kept.{IsOnDisk};

use crate::clients::local_client;
use kadm_commands::{Command, Reply};
use kdb_base::{MemoryOut, Time};
use kdb_disk::Disk;
use primary_core::Primary;
use princ_name::Name;
use session_base::{Printed, SessionHalt, print};
use std::alloc::Global;
use store_files::laws::what_is_kept_is_recovered;

/// Whether a command is the one that writes the stash.
pub(crate) fn is_stash(command: &Command) -> bool
    ensures { result ≡ is_stash command.now }
{
    matches!(command, Command::Stash)
}

// The reply that was printed, where it is the one; a refusal is printed.
fn stash_reply(alloc: Global, printed: Printed, reply: Reply) -> Result<Printed, MemoryOut>
    requires told { IsStashReply reply }
    requires printed { printed.reply ≡ Reply.Stashed }
    requires text { printed.text ≡ reply_text printed.reply }
    ensures reply { IfOk result (λ p. p.reply ≡ reply) }
    ensures text { IfOk result (λ p. p.text ≡ reply_text p.reply) }
    ensures refused { OnErr result (refuses reply ≡ true) }
{
    match reply {
        Reply::Refused(why) => print(alloc, Reply::Refused(why)),
        _ => Ok(printed),
    }
}

// Writes the stash for this client.
fn restash_for<D: Disk>(
    alloc: Global,
    primary: &mut Primary,
    disk: &mut D,
    client: &Name,
    now: Time,
) -> Result<Printed, SessionHalt>
    requires client { client.now ≡ local_client primary.old.kept.realm }
    requires on { D.tells → IsOnDisk primary.old.kept (D.view disk.old) }
    requires whole { primary.old.kept.broken ≡ false }
    ensures performs { (s : State) (random : List ℕ) → HasState primary.old s
        → IfOk result (λ printed. Performed (ask_at Stash now random (seen (place_of primary.old) s))
        (seen (place_of primary.old) s) (Replied printed.reply)) }
    ensures stands { (s : State) (random : List ℕ) → HasState primary.old s → OnOk result (StandsAt primary.new
        (after_ask (ask_at Stash now random (seen (place_of primary.old) s)) (seen (place_of primary.old) s))) }
    ensures crash { (s : State) (random : List ℕ) → HasState primary.old s → IsCrashSafe D.Disk disk.old disk.new
        (MayLeave (place_of primary.old) s (Perform (ask_at Stash now random (seen (place_of primary.old) s)))) }
    ensures text { IfOk result (λ printed. printed.text ≡ reply_text printed.reply) }
    ensures on { D.tells → OnOk result (IsOnDisk primary.new.kept (D.view disk.new)) }
    ensures whole { OnOk result (primary.new.kept.broken ≡ false) }
    ensures realm { OnOk result (primary.new.kept.realm ≡ primary.old.kept.realm) }
    ensures memory { result ≡ Err SessionHalt.MemoryOut
        → (disk.new ≡ disk.old) × (place_of primary.new ≡ place_of primary.old) }
    ensures halt { IfErr result IsPerformHalt }
    ensures not_drawn { IfErr result (λ halt. halt ≢ SessionHalt.DrawFault) }
    ensures call { IsCall D.Disk disk.old disk.new (result ≡ Err SessionHalt.DiskFault) }
{
    what_is_kept_is_recovered(disk);
    primary.holds_opened();
    match print(alloc, Reply::Stashed) {
        Ok(printed) => match primary.perform_stash(alloc, disk, client, None, now) {
            Ok(reply) => match stash_reply(alloc, printed, reply) {
                Ok(printed) => Ok(printed),
                Err(_) => Err(SessionHalt::MemoryOut),
            },
            Err(halt) => Err(SessionHalt::from(halt)),
        },
        Err(_) => Err(SessionHalt::MemoryOut),
    }
}

/// Writes the stash with all master keys, for the local administrator.
pub(crate) fn restash<D: Disk>(
    alloc: Global,
    primary: &mut Primary,
    disk: &mut D,
    now: Time,
) -> Result<Printed, SessionHalt>
    requires on { D.tells → IsOnDisk primary.old.kept (D.view disk.old) }
    requires whole { primary.old.kept.broken ≡ false }
    ensures performs { (s : State) (random : List ℕ) → HasState primary.old s
        → IfOk result (λ printed. Performed (ask_at Stash now random (seen (place_of primary.old) s))
        (seen (place_of primary.old) s) (Replied printed.reply)) }
    ensures stands { (s : State) (random : List ℕ) → HasState primary.old s → OnOk result (StandsAt primary.new
        (after_ask (ask_at Stash now random (seen (place_of primary.old) s)) (seen (place_of primary.old) s))) }
    ensures crash { (s : State) (random : List ℕ) → HasState primary.old s → IsCrashSafe D.Disk disk.old disk.new
        (MayLeave (place_of primary.old) s (Perform (ask_at Stash now random (seen (place_of primary.old) s)))) }
    ensures text { IfOk result (λ printed. printed.text ≡ reply_text printed.reply) }
    ensures on { D.tells → OnOk result (IsOnDisk primary.new.kept (D.view disk.new)) }
    ensures whole { OnOk result (primary.new.kept.broken ≡ false) }
    ensures realm { OnOk result (primary.new.kept.realm ≡ primary.old.kept.realm) }
    ensures memory { result ≡ Err SessionHalt.MemoryOut
        → (disk.new ≡ disk.old) × (place_of primary.new ≡ place_of primary.old) }
    ensures halt { IfErr result IsPerformHalt }
    ensures not_drawn { IfErr result (λ halt. halt ≢ SessionHalt.DrawFault) }
    ensures call { IsCall D.Disk disk.old disk.new (result ≡ Err SessionHalt.DiskFault) }
{
    what_is_kept_is_recovered(disk);
    match local_client(alloc, primary.realm().as_slice()) {
        Ok(client) => restash_for(alloc, primary, disk, &client, now),
        Err(_) => Err(SessionHalt::MemoryOut),
    }
}
