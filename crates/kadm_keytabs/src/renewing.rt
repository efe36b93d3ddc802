//! New keys of a principal, made and added to a keytab.

ghost use Rattle.std.specs.Prelude.{◌≡◌, ◌≢◌, ◌⊎◌, false, ℕ, List, Option, Some, None};
ghost use Rattle.std.specs.Prelude.{Err, IfErr, IfOk, OnErr, OnOk, length, map};
ghost use Rattle.kadm_commands.specs.Commands.{AreEtypes, IsOwnName};
ghost use Rattle.kadm_keytabs.specs.Additions.{addition_by, keys_told};
ghost use Rattle.kadm_keytabs.specs.Answers.{refusal_answer};
ghost use Rattle.kadm_keytabs.specs.Renewals.{EndsRenewed, IsAsked, IsOpenAt, RenewalLeaves, RenewalStops, Renews};
ghost use Rattle.kadm_keytabs.specs.Renewals.{answer_of, ask_for, keys_behind, refused_in, renewal_of, wanted};
ghost use Rattle.kadm_keytabs.specs.Renewing.{AreFresh, IsCommandSafe, IsMade, IsOfInput, IsRenewed};
ghost use Rattle.kadm_keytabs.specs.Renewing.{IsRunSafe, extract_at, fresh_keys, version_told};
ghost use Rattle.kdb_base.specs.declared.outcomes.Refusal.TheVariants.{BadKeytab};
ghost use Rattle.kdb_disk.specs.Frames.{IsCall, IsCrashSafe};
ghost use Rattle.kdb_disk.specs.Moments.{LeavesOnly};
ghost use Rattle.kdb_histories.specs.Asks.{Ask, Replied, clock_of};
ghost use Rattle.kdb_histories.specs.Seen.{after_ask, answer_at, made_at, moment_at, seen};
ghost use Rattle.kdb_histories.specs.Stages.{places};
ghost use Rattle.kdb_model.specs.Laws.{IsMoment};
ghost use Rattle.kdb_plain.specs.declared.states.State.{State};
ghost use Rattle.primary_core.specs.Opened.{HasState, IsDecided, MayMake, place_of};
ghost use Rattle.primary_core.specs.declared.decided.DecidedChange.{DecidedChange as Changes};
ghost use Rattle.session_base.specs.Draws.{Draws, block_in, moment_in, told_draws};
ghost use Rattle.session_base.specs.Halts.{Counts, IsPerformHalt};
ghost use Rattle.session_base.specs.Stages.{IsStopped};
ghost use Rattle.session_base.specs.Wholes.{IsReadWhole, WereTaken};
ghost use Rattle.store_files.specs.Kept.{IsOnDisk};
ghost use Rattle.store_files.specs.Recovery.{LeavesPart};

use crate::adding::{answer_keys, keys_told};
use crate::answers::{Answer, refusal_answer, write_answer};
use crate::inputs::{read_input, read_keytab_input};
use crate::judging::{Judged, carry_out, judge_renewal};
use kadm_commands::Reply;
use kdb_base::{Etype, Extract, ExtractList, MemoryOut, PlainKey, Refusal, Time};
use kdb_disk::Disk;
use kdb_ports::{Clock, Entropy, Sink, Source};
use keytab_out::{KeytabFault, KeytabList};
use plain_keys::laws::distinct_types_want_little;
use plain_keys::random_keys;
use primary_core::Primary;
use primary_core::laws::decisions_are_asked;
use princ_name::Name;
use session_base::{SessionHalt, draw};
use std::alloc::Global;
use store_files::laws::what_is_kept_is_recovered;

// The version of keys that are told, and 0 without a key.
fn version_told(keys: &[Extract]) -> u16
    ensures { result ≡ version_told keys.now }
{
    match keys {
        [] => 0,
        [first, ..] => first.kvno,
    }
}

// Keys of this version.
fn keys_at(alloc: Global, kvno: u16, keys: &[PlainKey]) -> Result<ExtractList, MemoryOut>
    ensures { IfOk result (λ told. told ≡ map (extract_at kvno) keys.now) }
{
    let mut told = Vec::with_capacity(alloc, keys.len())?;
    for key in keys {
        told.push(Extract { kvno, key: *key })?;
    }
    Ok(ExtractList::from_vec(told))
}

// Random keys, of the version behind that of the old ones.
fn keys_after(
    alloc: Global,
    old: &[Extract],
    random: &[u8],
    etypes: &[Etype],
) -> Result<ExtractList, MemoryOut>
    requires etypes { AreEtypes etypes.now }
    requires random { length random.now ≡ 2048 }
    ensures { IfOk result (λ keys. keys ≡ fresh_keys old.now random.now etypes.now) }
{
    distinct_types_want_little();
    let Some(kvno) = version_told(old).checked_add(1) else {
        return Err(MemoryOut);
    };
    let keys = random_keys(alloc, random, etypes)?;
    keys_at(alloc, kvno, keys.as_slice())
}

// The keys that the command gives where it is not refused. They follow from those of before and the random bytes.
fn fresh_keys(
    alloc: Global,
    primary: &Primary,
    name: &Name,
    etypes: &[Etype],
    now: Time,
    random: &[u8],
) -> Result<ExtractList, MemoryOut>
    requires name { IsOwnName primary.now.kept.realm name.now }
    requires etypes { AreEtypes etypes.now }
    requires random { length random.now ≡ 2048 }
    requires whole { primary.now.kept.broken ≡ false }
    ensures { (s : State) → HasState primary.now s
        → IfOk result (λ keys. AreFresh s name.now random.now etypes.now keys) }
{
    match keys_told(alloc, primary, name, now) {
        Ok(Ok(old)) => keys_after(alloc, old.as_slice(), random, etypes),
        Ok(Err(_)) => Err(MemoryOut),
        Err(_) => Err(MemoryOut),
    }
}

// The refusal that a reply is.
fn refused_in(reply: &Reply) -> Option<Refusal>
    ensures { result ≡ refused_in reply.now }
{
    match reply {
        Reply::Refused(why) => Some(*why),
        _ => None,
    }
}

// The keys behind the command that comes to this reply, or its refusal, told before it is done.
fn keys_behind(
    alloc: Global,
    primary: &Primary,
    client: &Name,
    name: &Name,
    etypes: &[Etype],
    now: Time,
    random: &[u8],
    reply: &Reply,
) -> Result<Result<ExtractList, Refusal>, MemoryOut>
    requires name { IsOwnName primary.now.kept.realm name.now }
    requires etypes { AreEtypes etypes.now }
    requires random { length random.now ≡ 2048 }
    requires whole { primary.now.kept.broken ≡ false }
    ensures { (s : State) → HasState primary.now s
        → answer_at (ask_for (wanted client.now name.now etypes.now) now random.now) (seen (place_of primary.now) s)
        ≡ Replied reply.now
        → IfOk result (λ told. told ≡ keys_behind (refused_in reply.now)
        (keys_told (after_ask (ask_for (wanted client.now name.now etypes.now) now random.now)
        (seen (place_of primary.now) s)).state name.now)) }
{
    match refused_in(reply) {
        Some(why) => Ok(Err(why)),
        None => match fresh_keys(alloc, primary, name, etypes, now, random) {
            Ok(keys) => Ok(Ok(keys)),
            Err(_) => Err(MemoryOut),
        },
    }
}

// The keytab with the new keys behind the others, or the refusal.
fn answer_judged(
    alloc: Global,
    primary: &Primary,
    client: &Name,
    name: &Name,
    etypes: &[Etype],
    list: KeytabList,
    now: Time,
    random: &[u8],
    reply: &Reply,
) -> Result<Answer, MemoryOut>
    requires name { IsOwnName primary.now.kept.realm name.now }
    requires etypes { AreEtypes etypes.now }
    requires random { length random.now ≡ 2048 }
    requires whole { primary.now.kept.broken ≡ false }
    ensures { (s : State) → HasState primary.now s
        → answer_at (ask_for (wanted client.now name.now etypes.now) now random.now) (seen (place_of primary.now) s)
        ≡ Replied reply.now
        → IfOk result (λ answer. answer ≡ addition_by name.now (moment_at now (place_of primary.now)).secs list
        (keys_behind (refused_in reply.now)
        (keys_told (after_ask (ask_for (wanted client.now name.now etypes.now) now random.now)
        (seen (place_of primary.now) s)).state name.now))) }
{
    // A moment has microseconds of one second.
    let _micros = now.usecs();
    let secs = primary.point().time.later(now).secs();
    match keys_behind(alloc, primary, client, name, etypes, now, random, reply) {
        Ok(told) => answer_keys(alloc, name, secs, list, &told),
        Err(_) => Err(MemoryOut),
    }
}

// What the command comes to, and the answer.
#[derive(Drop)]
struct Renewal {
    judged: Judged,
    answer: Answer,
}

// Judges the command and makes the answer. Nothing is changed yet.
fn prepare_renewal(
    alloc: Global,
    primary: &Primary,
    client: &Name,
    name: &Name,
    etypes: &[Etype],
    list: KeytabList,
    now: Time,
    random: &[u8],
) -> Result<Renewal, MemoryOut>
    requires name { IsOwnName primary.now.kept.realm name.now }
    requires etypes { AreEtypes etypes.now }
    requires random { length random.now ≡ 2048 }
    requires whole { primary.now.kept.broken ≡ false }
    ensures decided { IfOk result (λ r. IsDecided primary.now
        (ask_for (wanted client.now name.now etypes.now) now random.now) r.judged.reply r.judged.change) }
    ensures may { (change : Changes)
        → IfOk result (λ r. r.judged.change ≡ Some change → MayMake primary.now now change) }
    ensures answer { (s : State) → HasState primary.now s → IfOk result (λ r. r.answer
        ≡ answer_of (wanted client.now name.now etypes.now) now random.now (seen (place_of primary.now) s) list) }
{
    decisions_are_asked();
    let judged = judge_renewal(alloc, primary, client, name, etypes, now, random)?;
    let reply = &judged.reply;
    let answer = match answer_judged(
        alloc, primary, client, name, etypes, list, now, random, reply,
    ) {
        Ok(answer) => answer,
        Err(fault) => {
            drop(judged);
            return Err(fault);
        }
    };
    Ok(Renewal { judged, answer })
}

// Makes the change, where there is one, and gives the answer.
fn make_renewal<D: Disk>(
    alloc: Global,
    primary: &mut Primary,
    disk: &mut D,
    renewal: Renewal,
    now: Time,
) -> Result<Answer, SessionHalt>
    requires on { D.tells → IsOnDisk primary.old.kept (D.view disk.old) }
    requires whole { primary.old.kept.broken ≡ false }
    requires may { (change : Changes) → renewal.judged.change ≡ Some change → MayMake primary.old now change }
    ensures same { IfOk result (λ answer. answer ≡ renewal.answer) }
    ensures stands { (ask : Ask) (s : State) → clock_of ask ≡ now
        → IsDecided primary.old ask renewal.judged.reply renewal.judged.change → HasState primary.old s
        → OnOk result (IsOpenAt primary.new (after_ask ask (seen (place_of primary.old) s))) }
    ensures crash { (ask : Ask) (s : State) → clock_of ask ≡ now
        → IsDecided primary.old ask renewal.judged.reply renewal.judged.change
        → HasState primary.old s → IsCrashSafe D.Disk disk.old disk.new
        (LeavesPart (place_of primary.old) (places (made_at ask (seen (place_of primary.old) s)))) }
    ensures on { D.tells → OnOk result (IsOnDisk primary.new.kept (D.view disk.new)) }
    ensures whole { OnOk result (primary.new.kept.broken ≡ false) }
    ensures memory { result ≡ Err SessionHalt.MemoryOut
        → (disk.new ≡ disk.old) × (place_of primary.new ≡ place_of primary.old) }
    ensures halt { IfErr result IsPerformHalt }
    ensures not_drawn { IfErr result (λ halt. halt ≢ SessionHalt.DrawFault) }
    ensures call { IsCall D.Disk disk.old disk.new (result ≡ Err SessionHalt.DiskFault) }
{
    let Renewal { judged, answer } = renewal;
    match carry_out(alloc, primary, disk, judged, now) {
        Ok(_reply) => Ok(answer),
        Err(halt) => Err(halt),
    }
}

// Makes new keys, and gives the keytab with them. All memory is taken before they are made.
fn renew_at<D: Disk>(
    alloc: Global,
    primary: &mut Primary,
    disk: &mut D,
    client: &Name,
    name: &Name,
    etypes: &[Etype],
    list: KeytabList,
    now: Time,
    random: &[u8],
) -> Result<Answer, SessionHalt>
    requires name { IsOwnName primary.old.kept.realm name.now }
    requires etypes { AreEtypes etypes.now }
    requires random { length random.now ≡ 2048 }
    requires on { D.tells → IsOnDisk primary.old.kept (D.view disk.old) }
    requires whole { primary.old.kept.broken ≡ false }
    ensures answer { (s : State) → HasState primary.old s → IfOk result (λ answer. answer
        ≡ answer_of (wanted client.now name.now etypes.now) now random.now (seen (place_of primary.old) s) list) }
    ensures stands { (s : State) → HasState primary.old s → OnOk result (IsOpenAt primary.new
        (after_ask (ask_for (wanted client.now name.now etypes.now) now random.now) (seen (place_of primary.old) s))) }
    ensures crash { (s : State)
        → HasState primary.old s → IsCrashSafe D.Disk disk.old disk.new (LeavesPart (place_of primary.old) (places
        (made_at (ask_for (wanted client.now name.now etypes.now) now random.now) (seen (place_of primary.old) s)))) }
    ensures done { (s : State) → HasState primary.old s → (disk.new ≡ disk.old)
        ⊎ IsAsked (ask_for (wanted client.now name.now etypes.now) now random.now) (seen (place_of primary.old) s) }
    ensures on { D.tells → OnOk result (IsOnDisk primary.new.kept (D.view disk.new)) }
    ensures whole { OnOk result (primary.new.kept.broken ≡ false) }
    ensures memory { result ≡ Err SessionHalt.MemoryOut
        → (disk.new ≡ disk.old) × (place_of primary.new ≡ place_of primary.old) }
    ensures halt { IfErr result IsPerformHalt }
    ensures not_drawn { IfErr result (λ halt. halt ≢ SessionHalt.DrawFault) }
    ensures call { IsCall D.Disk disk.old disk.new (result ≡ Err SessionHalt.DiskFault) }
{
    what_is_kept_is_recovered(disk);
    match prepare_renewal(alloc, primary, client, name, etypes, list, now, random) {
        Ok(renewal) => make_renewal(alloc, primary, disk, renewal, now),
        Err(_) => Err(SessionHalt::MemoryOut),
    }
}

// Tells a proof that a moment is one. It does nothing.
fn holds_moment(moment: Time)
    ensures { IsMoment moment }
{
    let _secs = moment.secs();
    let _usecs = moment.usecs();
}

// The same with what is drawn for it: a block of random bytes, and a moment of the clock.
fn renew_list<D: Disk, C: Clock, E: Entropy>(
    alloc: Global,
    primary: &mut Primary,
    disk: &mut D,
    clock: &mut C,
    entropy: &mut E,
    client: &Name,
    name: &Name,
    etypes: &[Etype],
    list: KeytabList,
) -> Result<Answer, SessionHalt>
    requires name { IsOwnName primary.old.kept.realm name.now }
    requires etypes { AreEtypes etypes.now }
    requires on { D.tells → IsOnDisk primary.old.kept (D.view disk.old) }
    requires whole { primary.old.kept.broken ≡ false }
    ensures made { (s : State) (draws : Draws) → HasState primary.old s
        → told_draws (C.moments clock.old) (E.stream entropy.old) ≡ Some draws
        → IfOk result (λ answer.
        IsMade (renewal_of (wanted client.now name.now etypes.now) draws (seen (place_of primary.old) s) list) answer
        primary.new (told_draws (C.moments clock.new) (E.stream entropy.new))) }
    ensures safe { (s : State)
        → HasState primary.old s → IsCommandSafe D.Disk disk.old disk.new (wanted client.now name.now etypes.now)
        (told_draws (C.moments clock.old) (E.stream entropy.old)) (seen (place_of primary.old) s) }
    ensures done { (s : State) (draws : Draws) → HasState primary.old s
        → told_draws (C.moments clock.old) (E.stream entropy.old) ≡ Some draws
        → (disk.new ≡ disk.old) ⊎ IsAsked (ask_for (wanted client.now name.now etypes.now) (moment_in draws)
        (block_in draws)) (seen (place_of primary.old) s) }
    ensures on { D.tells → OnOk result (IsOnDisk primary.new.kept (D.view disk.new)) }
    ensures whole { OnOk result (primary.new.kept.broken ≡ false) }
    ensures memory { result ≡ Err SessionHalt.MemoryOut
        → (disk.new ≡ disk.old) × (place_of primary.new ≡ place_of primary.old) }
    ensures drawn { result ≡ Err SessionHalt.DrawFault → (disk.new ≡ disk.old) × (primary.new ≡ primary.old) }
    ensures halt { IfErr result IsPerformHalt }
    ensures call { IsCall D.Disk disk.old disk.new (result ≡ Err SessionHalt.DiskFault) }
    ensures draws { Counts (E.faults entropy.old) (E.faults entropy.new) (result ≡ Err SessionHalt.DrawFault) }
{
    what_is_kept_is_recovered(disk);
    match draw(alloc, entropy, 2048) {
        Ok(random) => {
            let now = clock.now();
            holds_moment(now);
            renew_at(
                alloc,
                primary,
                disk,
                client,
                name,
                etypes,
                list,
                now,
                random.as_slice(),
            )
        }
        Err(halt) => Err(halt),
    }
}

// The line of an input that is no keytab.
fn refuse_input(alloc: Global, place: u64) -> Result<Answer, SessionHalt>
    ensures answer { IfOk result (λ answer. answer ≡ refusal_answer (BadKeytab place)) }
    ensures halt { IfErr result (λ halt. halt ≡ SessionHalt.MemoryOut) }
{
    match refusal_answer(alloc, Refusal::BadKeytab { place }) {
        Ok(answer) => Ok(answer),
        Err(_) => Err(SessionHalt::MemoryOut),
    }
}

// What is answered to an input, by what was kept of it. Nothing is drawn where it is no keytab.
fn renew_input<D: Disk, C: Clock, E: Entropy>(
    alloc: Global,
    primary: &mut Primary,
    disk: &mut D,
    clock: &mut C,
    entropy: &mut E,
    client: &Name,
    name: &Name,
    etypes: &[Etype],
    kept: &[u8],
) -> Result<Answer, SessionHalt>
    requires name { IsOwnName primary.old.kept.realm name.now }
    requires etypes { AreEtypes etypes.now }
    requires on { D.tells → IsOnDisk primary.old.kept (D.view disk.old) }
    requires whole { primary.old.kept.broken ≡ false }
    ensures renewed { (s : State) (draws : Draws) → HasState primary.old s
        → told_draws (C.moments clock.old) (E.stream entropy.old) ≡ Some draws
        → IfOk result (λ answer.
        IsRenewed (Renews (wanted client.now name.now etypes.now) draws (seen (place_of primary.old) s) kept.now) answer
        primary.new (told_draws (C.moments clock.new) (E.stream entropy.new))) }
    ensures safe { (s : State)
        → HasState primary.old s → IsRunSafe D.Disk disk.old disk.new (wanted client.now name.now etypes.now)
        (told_draws (C.moments clock.old) (E.stream entropy.old)) (seen (place_of primary.old) s) kept.now }
    ensures done { (s : State) (draws : Draws) → HasState primary.old s
        → told_draws (C.moments clock.old) (E.stream entropy.old) ≡ Some draws
        → (disk.new ≡ disk.old) ⊎ IsAsked (ask_for (wanted client.now name.now etypes.now) (moment_in draws)
        (block_in draws)) (seen (place_of primary.old) s) }
    ensures on { D.tells → OnOk result (IsOnDisk primary.new.kept (D.view disk.new)) }
    ensures whole { OnOk result (primary.new.kept.broken ≡ false) }
    ensures memory { result ≡ Err SessionHalt.MemoryOut
        → (disk.new ≡ disk.old) × (place_of primary.new ≡ place_of primary.old) }
    ensures drawn { result ≡ Err SessionHalt.DrawFault → (disk.new ≡ disk.old) × (primary.new ≡ primary.old) }
    ensures halt { IfErr result IsPerformHalt }
    ensures call { IsCall D.Disk disk.old disk.new (result ≡ Err SessionHalt.DiskFault) }
    ensures draws { Counts (E.faults entropy.old) (E.faults entropy.new) (result ≡ Err SessionHalt.DrawFault) }
{
    what_is_kept_is_recovered(disk);
    match read_keytab_input(alloc, kept) {
        Ok(list) => renew_list(
            alloc, primary, disk, clock, entropy, client, name, etypes, list,
        ),
        Err(KeytabFault::BadKeytab { place }) => refuse_input(alloc, place),
        Err(KeytabFault::MemoryOut) => Err(SessionHalt::MemoryOut),
    }
}

/// Reads a keytab from the source, makes new random keys of the principal, one of each of these types, as `cpw
/// -randkey` of the administrator at the machine itself, and writes the keytab with an entry for each of them behind
/// the others. A block of 2048 random bytes is drawn once the input was read as a keytab, and then the clock is read.
/// The time of the new entries is that of the change: the clock's, or that of the last change where it is later. It
/// answers whether a refusal was written in its place: `BadKeytab` where the input is no keytab of at most 1048576
/// bytes, and then nothing is drawn; else that of the command, and then nothing is changed.
///
/// # Errors
///
/// `ReadFault`, `WriteFault`, `DiskFault` and `DrawFault` only where that object's count of faults rose, `InputTooLong`
/// where 4294967296 bytes were taken and no end had come, `MemoryOut` where memory is wanted and not given. After all
/// but `WriteFault` nothing was written, and after all but that and `DiskFault` nothing was changed: all memory is
/// taken before the change, and the change stands before the first byte is written.
pub fn ktadd_renewing<S: Source, K: Sink, D: Disk, C: Clock, E: Entropy>(
    alloc: Global,
    primary: &mut Primary,
    disk: &mut D,
    clock: &mut C,
    entropy: &mut E,
    source: &mut S,
    sink: &mut K,
    client: &Name,
    name: &Name,
    etypes: &[Etype],
) -> Result<bool, SessionHalt>
    requires name { IsOwnName primary.old.kept.realm name.now }
    requires etypes { AreEtypes etypes.now }
    requires on { D.tells → IsOnDisk primary.old.kept (D.view disk.old) }
    requires whole { primary.old.kept.broken ≡ false }
    // All is said for the state that the rows show with the master keys that were found. Where the input, the clock and
    // the random bytes are told, what was written, the place, the state and what is left of both are what is said.
    ensures ended { (s : State) (text : List ℕ) (draws : Draws) → HasState primary.old s → S.left source.old ≡ Some text
        → told_draws (C.moments clock.old) (E.stream entropy.old) ≡ Some draws
        → IfOk result (λ refused.
        EndsRenewed (Renews (wanted client.now name.now etypes.now) draws (seen (place_of primary.old) s) text) refused
        (K.taken sink.old) (K.taken sink.new) primary.new (told_draws (C.moments clock.new) (E.stream entropy.new))) }
    ensures on { D.tells → OnOk result (IsOnDisk primary.new.kept (D.view disk.new)) }
    ensures whole { OnOk result (primary.new.kept.broken ≡ false) }

    // Where it stops early, the keys of which a byte was written are in every image. At any moment a crash leaves the
    // place before, or one that the command makes, whatever the input, the clock and the random bytes are.
    ensures stopped { D.tells → (s : State) → HasState primary.old s → OnErr result
        (IsStopped (RenewalStops (wanted client.now name.now etypes.now) (K.taken sink.old) (S.left source.old)
        (told_draws (C.moments clock.old) (E.stream entropy.old)) (seen (place_of primary.old) s)) (K.taken sink.new)
        (D.view disk.new)) }
    ensures moments { D.tells → (s : State) → HasState primary.old s → LeavesOnly (D.view disk.old) (D.view disk.new)
        (RenewalLeaves (wanted client.now name.now etypes.now) (S.left source.old)
        (told_draws (C.moments clock.old) (E.stream entropy.old)) (seen (place_of primary.old) s)) }
    // Where a file was touched, the command is an event of the primary's history.
    ensures done { (s : State) (draws : Draws) → HasState primary.old s
        → told_draws (C.moments clock.old) (E.stream entropy.old) ≡ Some draws
        → (disk.new ≡ disk.old) ⊎ IsAsked (ask_for (wanted client.now name.now etypes.now) (moment_in draws)
        (block_in draws)) (seen (place_of primary.old) s) }

    // For want of memory, of random bytes or of input nothing was done, and but for a fault of the sink itself nothing
    // was written.
    ensures memory { result ≡ Err SessionHalt.MemoryOut
        → (disk.new ≡ disk.old) × (place_of primary.new ≡ place_of primary.old) }
    ensures drawn { result ≡ Err SessionHalt.DrawFault → (disk.new ≡ disk.old) × (primary.new ≡ primary.old) }
    ensures unread { IfErr result (λ halt. IsOfInput halt
        → (disk.new ≡ disk.old) × (primary.new ≡ primary.old) × (clock.new ≡ clock.old) × (entropy.new ≡ entropy.old)) }
    ensures unwritten { IfErr result (λ halt. halt ≢ SessionHalt.WriteFault → sink.new ≡ sink.old) }

    // What was taken from the source, and the causes.
    ensures read { OnOk result (IsReadWhole (S.left source.old) (S.left source.new)) }
    ensures too_long { result ≡ Err SessionHalt.InputTooLong
        → WereTaken 4294967296 (S.left source.old) (S.left source.new) }
    ensures call { IsCall D.Disk disk.old disk.new (result ≡ Err SessionHalt.DiskFault) }
    ensures reads { Counts (S.faults source.old) (S.faults source.new) (result ≡ Err SessionHalt.ReadFault) }
    ensures writes { Counts (K.faults sink.old) (K.faults sink.new) (result ≡ Err SessionHalt.WriteFault) }
    ensures draws { Counts (E.faults entropy.old) (E.faults entropy.new) (result ≡ Err SessionHalt.DrawFault) }
{
    what_is_kept_is_recovered(disk);
    let kept = match read_input(alloc, source) {
        Ok(kept) => kept,
        Err(halt) => return Err(halt),
    };
    let kept = kept.as_slice();
    match renew_input(
        alloc, primary, disk, clock, entropy, client, name, etypes, kept,
    ) {
        Ok(answer) => {
            what_is_kept_is_recovered(disk);
            write_answer(sink, &answer)
        }
        Err(halt) => Err(halt),
    }
}
