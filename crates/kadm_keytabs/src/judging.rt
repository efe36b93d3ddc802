//! The command for new random keys: what it comes to, and its change. All memory is taken before the change is made.

ghost use Rattle.std.specs.Prelude.{◌≡◌, ◌≢◌, true, false, Err, IfErr, IfOk, None, OnOk, Some, length};
ghost use Rattle.kadm_commands.specs.Commands.{AreEtypes, IsCommand, IsOwnName};
ghost use Rattle.kadm_keytabs.specs.Renewals.{IsOpenAt, ask_for, renew_command, wanted};
ghost use Rattle.kdb_disk.specs.Frames.{IsCall, IsCrashSafe};
ghost use Rattle.kdb_histories.specs.Asks.{Ask, clock_of};
ghost use Rattle.kdb_histories.specs.Seen.{after_ask, made_at, seen};
ghost use Rattle.kdb_histories.specs.Stages.{places};
ghost use Rattle.kdb_plain.specs.declared.states.State.{State};
ghost use Rattle.primary_core.specs.Deciding.{is_judged};
ghost use Rattle.primary_core.specs.Opened.{HasState, IsDecided, MayMake, command_ask, place_of};
ghost use Rattle.primary_core.specs.declared.decided.DecidedChange.{DecidedChange as Changes};
ghost use Rattle.session_base.specs.Halts.{IsPerformHalt};
ghost use Rattle.store_files.specs.Kept.{IsOnDisk};
ghost use Rattle.store_files.specs.Recovery.{LeavesPart};

use kadm_commands::{ChangeKeys, Command, Reply};
use kdb_base::{Etype, MemoryOut, Time};
use kdb_disk::Disk;
use plain_keys::{Etypes, NewKeys};
use primary_core::laws::decisions_are_asked;
use primary_core::{Decided, DecidedChange, Primary, Ready, changes_make_places, prepare};
use princ_name::Name;
use session_base::SessionHalt;
use std::alloc::Global;
use store_files::laws::what_is_kept_is_recovered;

/// What the command comes to: its reply, and the change that is to be made first, where there is one.
#[derive(Drop)]
pub(crate) struct Judged {
    pub reply: Reply,
    pub change: Option<DecidedChange>,
}

// `cpw -randkey`.
fn renew_command(alloc: Global, name: &Name, etypes: &[Etype]) -> Result<Command, MemoryOut>
    ensures { IfOk result (λ command. command ≡ renew_command name.now etypes.now) }
{
    let name = name.copied(alloc)?;
    let etypes = etypes.to_vec(alloc)?;
    Ok(Command::ChangeKeys(ChangeKeys {
        name,
        keys: NewKeys::Random(Etypes::from_vec(etypes)),
        keep_old: false,
    }))
}

// The command with all that it wants before it is judged.
fn ready_renewal(
    alloc: Global,
    realm: &[u8],
    name: &Name,
    etypes: &[Etype],
) -> Result<Ready, MemoryOut>
    requires name { IsOwnName realm.now name.now }
    requires etypes { AreEtypes etypes.now }
    ensures { IfOk result (λ ready. ready.command ≡ renew_command name.now etypes.now) }
{
    let command = renew_command(alloc, name, etypes)?;
    let ready = match prepare(alloc, &command, realm) {
        Ok(ready) => ready,
        Err(fault) => {
            drop(command);
            return Err(fault);
        }
    };
    drop(command);
    Ok(ready)
}

// What a command that is ready comes to, at a moment of the clock and with a block of random bytes.
fn judge_ready(
    alloc: Global,
    primary: &Primary,
    client: &Name,
    ready: &Ready,
    now: Time,
    random: &[u8],
) -> Result<Judged, MemoryOut>
    requires command { IsCommand primary.now.kept.realm ready.now.command }
    requires judged { is_judged ready.now.command ≡ true }
    requires random { length random.now ≡ 2048 }
    requires whole { primary.now.kept.broken ≡ false }
    ensures decided { IfOk result
        (λ j. IsDecided primary.now (command_ask client.now None ready.now.command now random.now) j.reply j.change) }
    ensures may { (change : Changes) → IfOk result (λ j. j.change ≡ Some change → MayMake primary.now now change) }
{
    match primary.decide(alloc, client, None, ready, now, random) {
        Ok(Decided::Answer(reply)) => Ok(Judged {
            reply,
            change: None,
        }),
        Ok(Decided::Change(change, reply)) => Ok(Judged {
            reply,
            change: Some(change),
        }),
        Err(_) => Err(MemoryOut),
    }
}

/// What the command of this client for new keys of these types comes to, at a moment of the clock and with a block of
/// random bytes.
pub(crate) fn judge_renewal(
    alloc: Global,
    primary: &Primary,
    client: &Name,
    name: &Name,
    etypes: &[Etype],
    now: Time,
    random: &[u8],
) -> Result<Judged, MemoryOut>
    requires name { IsOwnName primary.now.kept.realm name.now }
    requires etypes { AreEtypes etypes.now }
    requires random { length random.now ≡ 2048 }
    requires whole { primary.now.kept.broken ≡ false }
    ensures decided { IfOk result
        (λ j. IsDecided primary.now (ask_for (wanted client.now name.now etypes.now) now random.now) j.reply j.change) }
    ensures may { (change : Changes) → IfOk result (λ j. j.change ≡ Some change → MayMake primary.now now change) }
{
    let ready = ready_renewal(alloc, primary.realm().as_slice(), name, etypes)?;
    let judged = judge_ready(alloc, primary, client, &ready, now, random);
    drop(ready);
    judged
}

/// Makes the change, where there is one, and gives the reply.
pub(crate) fn carry_out<D: Disk>(
    alloc: Global,
    primary: &mut Primary,
    disk: &mut D,
    judged: Judged,
    now: Time,
) -> Result<Reply, SessionHalt>
    requires on { D.tells → IsOnDisk primary.old.kept (D.view disk.old) }
    requires whole { primary.old.kept.broken ≡ false }
    requires may { (change : Changes) → judged.change ≡ Some change → MayMake primary.old now change }
    ensures stands { (ask : Ask) (s : State) → clock_of ask ≡ now → IsDecided primary.old ask judged.reply judged.change
        → HasState primary.old s → OnOk result (IsOpenAt primary.new (after_ask ask (seen (place_of primary.old) s))) }
    ensures crash { (ask : Ask) (s : State) → clock_of ask ≡ now → IsDecided primary.old ask judged.reply judged.change
        → HasState primary.old s → IsCrashSafe D.Disk disk.old disk.new
        (LeavesPart (place_of primary.old) (places (made_at ask (seen (place_of primary.old) s)))) }
    ensures on { D.tells → OnOk result (IsOnDisk primary.new.kept (D.view disk.new)) }
    ensures whole { OnOk result (primary.new.kept.broken ≡ false) }
    ensures memory { result ≡ Err SessionHalt.MemoryOut
        → (disk.new ≡ disk.old) × (place_of primary.new ≡ place_of primary.old) }
    ensures halt { IfErr result IsPerformHalt }
    ensures not_drawn { IfErr result (λ halt. halt ≢ SessionHalt.DrawFault) }
    ensures call { IsCall D.Disk disk.old disk.new (result ≡ Err SessionHalt.DiskFault) }
{
    what_is_kept_is_recovered(disk);
    decisions_are_asked();
    changes_make_places();
    let Judged { reply, change } = judged;
    match change {
        None => Ok(reply),
        Some(change) => match primary.make(alloc, disk, change, now) {
            Ok(()) => Ok(reply),
            Err(halt) => Err(SessionHalt::from(halt)),
        },
    }
}
