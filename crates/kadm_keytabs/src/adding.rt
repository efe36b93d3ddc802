//! Keys of a principal that are added to a keytab.

ghost use Rattle.std.specs.Prelude.{◌≡◌, ◌≢◌, false, ℕ, List, Some, Err, IfErr, IfOk, OnOk};
ghost use Rattle.kadm_commands.specs.Commands.{IsOwnName};
ghost use Rattle.kadm_keytabs.specs.Additions.{Adds, addition_by, keys_told, reply_with};
ghost use Rattle.kadm_keytabs.specs.Answers.{Answers, IsFilterHalt, IsPartWritten, IsWritten};
ghost use Rattle.session_base.specs.Wholes.{IsReadWhole, WereTaken};
ghost use Rattle.session_base.specs.Halts.{Counts};
ghost use Rattle.kdb_plain.specs.declared.states.State.{State};
ghost use Rattle.primary_core.specs.Opened.{HasState};

use crate::answers::{Answer, keytab_answer, refusal_answer, write_answer};
use crate::inputs::{blank, read_input, read_keytab_input};
use kadm_commands::{Command, Reply};
use kdb_base::{ExtractList, MemoryOut, Refusal, Time};
use kdb_ports::{Sink, Source};
use keytab_out::{KeytabFault, KeytabList, add_entries};
use primary_core::laws::decisions_are_asked;
use primary_core::{Decided, Primary, prepare};
use princ_name::Name;
use session_base::SessionHalt;
use std::alloc::Global;

// The keys that a reply has, or its refusal.
fn keys_in(reply: Reply) -> Result<Result<ExtractList, Refusal>, MemoryOut>
    ensures { IfOk result (λ told. reply ≡ reply_with told) }
{
    match reply {
        Reply::Extracted(keys) => Ok(Ok(keys)),
        Reply::Refused(why) => Ok(Err(why)),
        _ => Err(MemoryOut),
    }
}

// The principal's keys as they stand. Where there is no access list nobody is denied, so that it does not matter who
// asks.
pub(crate) fn keys_told(
    alloc: Global,
    primary: &Primary,
    name: &Name,
    moment: Time,
) -> Result<Result<ExtractList, Refusal>, MemoryOut>
    requires name { IsOwnName primary.now.kept.realm name.now }
    requires whole { primary.now.kept.broken ≡ false }
    ensures { (s : State) → HasState primary.now s → IfOk result (λ told. told ≡ keys_told s name.now) }
{
    decisions_are_asked();
    let copy = name.copied(alloc)?;
    let command = Command::Extract(copy);
    let ready = prepare(alloc, &command, primary.realm().as_slice())?;
    let random = blank(alloc, 2048)?;
    match primary.decide(alloc, name, None, &ready, moment, &random) {
        Ok(Decided::Answer(reply)) => keys_in(reply),
        Ok(Decided::Change(_, _)) => Err(MemoryOut),
        Err(_) => Err(MemoryOut),
    }
}

// The keytab with the keys behind the others, or the refusal.
pub(crate) fn answer_keys(
    alloc: Global,
    name: &Name,
    secs: u32,
    list: KeytabList,
    told: &Result<ExtractList, Refusal>,
) -> Result<Answer, MemoryOut>
    ensures { IfOk result (λ answer. answer ≡ addition_by name.now secs list told.now) }
{
    let mut list = list;
    match told {
        Ok(keys) => match add_entries(alloc, &mut list, name, secs, keys) {
            Ok(()) => keytab_answer(alloc, &list),
            Err(_) => Err(MemoryOut),
        },
        Err(why) => refusal_answer(alloc, *why),
    }
}

// What is answered to a keytab.
fn answer_list(
    alloc: Global,
    primary: &Primary,
    name: &Name,
    moment: Time,
    list: KeytabList,
) -> Result<Answer, MemoryOut>
    requires name { IsOwnName primary.now.kept.realm name.now }
    requires whole { primary.now.kept.broken ≡ false }
    ensures { (s : State) → HasState primary.now s → IfOk result (λ answer. Adds s name.now moment list answer) }
{
    // A moment has microseconds of one second.
    let _micros = moment.usecs();
    let secs = primary.point().time.later(moment).secs();
    match keys_told(alloc, primary, name, moment) {
        Ok(told) => answer_keys(alloc, name, secs, list, &told),
        Err(_) => Err(MemoryOut),
    }
}

// What is answered to an input, by what was kept of it.
fn answer_input(
    alloc: Global,
    primary: &Primary,
    name: &Name,
    moment: Time,
    kept: &[u8],
) -> Result<Answer, MemoryOut>
    requires name { IsOwnName primary.now.kept.realm name.now }
    requires whole { primary.now.kept.broken ≡ false }
    ensures { (s : State) → HasState primary.now s
        → IfOk result (λ answer. Answers (Adds s name.now moment) kept.now answer) }
{
    match read_keytab_input(alloc, kept) {
        Ok(list) => answer_list(alloc, primary, name, moment, list),
        Err(KeytabFault::BadKeytab { place }) => {
            refusal_answer(alloc, Refusal::BadKeytab { place })
        }
        Err(KeytabFault::MemoryOut) => Err(MemoryOut),
    }
}

/// Reads a keytab from the source, and writes it to the sink with the keys of the principal's greatest version behind
/// it, in the record's order, as they stand in the database (`ktadd -norandkey`). Their time is that of `moment`, the
/// clock's when the database was opened, or that of the last change where it is later. It answers whether a refusal
/// was written in its place: `BadKeytab` where the input is no keytab of at most 1048576 bytes, then `Protected` where
/// the name is K/M or kadmin/history, then `UnknownPrincipal`. Nothing is changed, and nothing is drawn.
///
/// # Errors
///
/// `ReadFault` and `WriteFault` only where that object's count of faults rose, `InputTooLong` where 4294967296 bytes
/// were taken and no end had come, `MemoryOut` where memory is wanted and not given. All memory is taken before the
/// first byte is written.
pub fn ktadd_standing<S: Source, K: Sink>(
    alloc: Global,
    primary: &Primary,
    name: &Name,
    moment: Time,
    source: &mut S,
    sink: &mut K,
) -> Result<bool, SessionHalt>
    requires name { IsOwnName primary.now.kept.realm name.now }
    requires whole { primary.now.kept.broken ≡ false }
    // All is said for the state that the rows show with the master keys that were found.
    ensures ended { (s : State) (text : List ℕ) → HasState primary.now s → S.left source.old ≡ Some text
        → IfOk result (λ refused.
        IsWritten (Answers (Adds s name.now moment) text) refused (K.taken sink.old) (K.taken sink.new)) }
    ensures cut { (s : State) (text : List ℕ) → HasState primary.now s → S.left source.old ≡ Some text
        → result ≡ Err SessionHalt.WriteFault
        → IsPartWritten (Answers (Adds s name.now moment) text) (K.taken sink.old) (K.taken sink.new) }
    ensures unwritten { IfErr result (λ halt. halt ≢ SessionHalt.WriteFault → sink.new ≡ sink.old) }
    ensures read { OnOk result (IsReadWhole (S.left source.old) (S.left source.new)) }
    ensures too_long { result ≡ Err SessionHalt.InputTooLong
        → WereTaken 4294967296 (S.left source.old) (S.left source.new) }
    ensures halt { IfErr result IsFilterHalt }
    ensures reads { Counts (S.faults source.old) (S.faults source.new) (result ≡ Err SessionHalt.ReadFault) }
    ensures writes { Counts (K.faults sink.old) (K.faults sink.new) (result ≡ Err SessionHalt.WriteFault) }
{
    let kept = match read_input(alloc, source) {
        Ok(kept) => kept,
        Err(halt) => return Err(halt),
    };
    match answer_input(alloc, primary, name, moment, kept.as_slice()) {
        Ok(answer) => write_answer(sink, &answer),
        Err(_) => Err(SessionHalt::MemoryOut),
    }
}
