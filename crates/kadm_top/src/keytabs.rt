//! Keytabs that are read from the input and written anew.

ghost use Rattle.std.specs.Prelude.{◌≡◌, ◌≢◌, ◌≤◌, Bool, true, false, ℕ, length};
ghost use Rattle.std.specs.Prelude.{Option, Some, Ok, Err, IfErr, IfOk, OnOk};
ghost use Rattle.kadm_commands.specs.Commands.{IsOwnName};
ghost use Rattle.kadm_keytabs.specs.Additions.{Adds};
ghost use Rattle.kadm_keytabs.specs.Answers.{Answers, IsFilterHalt};
ghost use Rattle.kadm_keytabs.specs.Removals.{Removes};
ghost use Rattle.kadm_keytabs.specs.declared.answers.Answer.{Answer};
ghost use Rattle.session_base.specs.Draws.{Draws, told_draws};
ghost use Rattle.session_base.specs.Halts.{Counts};
ghost use Rattle.session_base.specs.Wholes.{IsReadWhole, WereTaken};
ghost use Rattle.kadm_top.specs.Openings.{AddsBy, AnswersTold, HasAdding, HasAddition, HasAnswer, HasKeytab};
ghost use Rattle.kadm_top.specs.Openings.{Opening, OpensDatabase, ReadsInput, adds_for, keytab_for};
ghost use Rattle.kadm_top.specs.Reads.{InputIsRead};
ghost use Rattle.kadm_top.specs.Run.{HasRun, HasWritten, told};
ghost use Rattle.kdb_disk.specs.Frames.{IsCall};
ghost use Rattle.kdb_plain.specs.declared.states.State.{State};
ghost use Rattle.keytab_words.specs.Words.{AreValid};
ghost use Rattle.primary_core.specs.Opened.{HasState, IsOpened};
ghost use Rattle.princ_name.specs.Names.{NameParts};
ghost use Rattle.princ_name.specs.Readings.{own_name_in};
ghost use Rattle.store_files.specs.Found.{found_in};

use crate::making::refuse;
use crate::renewing::renew;
use crate::run::DUMPS;
use kadm_keytabs::{ktadd_standing, ktremove};
use kdb_base::{Refusal, Stop, Time};
use kdb_disk::Disk;
use kdb_ports::{Clock, Entropy, Sink, Source};
use keytab_out::Which;
use keytab_words::{KeytabWords, read_own_name};
use primary_core::Primary;
use princ_name::Name;
use session_base::SessionHalt;
use std::alloc::Global;
use store_files::laws::what_is_kept_is_recovered;

/// Writes the keytab that the input is without these entries. It answers whether a refusal was written.
fn write_removed<S: Source, K: Sink>(
    alloc: Global,
    name: &Name,
    which: Which,
    source: &mut S,
    sink: &mut K,
) -> Result<bool, SessionHalt>
    ensures written { (what : Option Answer) → AnswersTold (Answers (Removes name.now which)) (S.left source.old) what
        → HasWritten what (K.taken sink.old) (K.taken sink.new) result }
    ensures answer { OnOk result (HasAnswer (Answers (Removes name.now which)) (S.left source.old)) }
    ensures read { OnOk result (IsReadWhole (S.left source.old) (S.left source.new)) }
    ensures too_long { result ≡ Err SessionHalt.InputTooLong
        → WereTaken 4294967296 (S.left source.old) (S.left source.new) }
    ensures halt { IfErr result IsFilterHalt }
    ensures reads { Counts (S.faults source.old) (S.faults source.new) (result ≡ Err SessionHalt.ReadFault) }
    ensures writes { Counts (K.faults sink.old) (K.faults sink.new) (result ≡ Err SessionHalt.WriteFault) }
{
    ktremove(alloc, name, which, source, sink)
}

/// Writes the keytab that the input is with the keys of this name behind it, over a database that is open. It answers
/// whether a refusal was written.
fn write_added<S: Source, K: Sink>(
    alloc: Global,
    opened: &Primary,
    name: &Name,
    moment: Time,
    source: &mut S,
    sink: &mut K,
) -> Result<bool, SessionHalt>
    requires name { IsOwnName opened.now.kept.realm name.now }
    requires whole { opened.now.kept.broken ≡ false }
    ensures written { (s : State) (what : Option Answer) → HasState opened.now s
        → AnswersTold (Answers (Adds s name.now moment)) (S.left source.old) what
        → HasWritten what (K.taken sink.old) (K.taken sink.new) result }
    ensures answer { (s : State) → HasState opened.now s
        → OnOk result (HasAnswer (Answers (Adds s name.now moment)) (S.left source.old)) }
    ensures read { OnOk result (IsReadWhole (S.left source.old) (S.left source.new)) }
    ensures too_long { result ≡ Err SessionHalt.InputTooLong
        → WereTaken 4294967296 (S.left source.old) (S.left source.new) }
    ensures halt { IfErr result IsFilterHalt }
    ensures reads { Counts (S.faults source.old) (S.faults source.new) (result ≡ Err SessionHalt.ReadFault) }
    ensures writes { Counts (K.faults sink.old) (K.faults sink.new) (result ≡ Err SessionHalt.WriteFault) }
{
    ktadd_standing(alloc, opened, name, moment, source, sink)
}

/// Writes the keytab with the keys of this name, or refuses the word that is none at this place, and reads no input.
fn add_named<S: Source, K: Sink>(
    alloc: Global,
    opened: &Primary,
    name: &Result<Name, u32>,
    moment: Time,
    source: &mut S,
    sink: &mut K,
) -> Result<bool, SessionHalt>
    requires name { IfOk name.now (IsOwnName opened.now.kept.realm) }
    requires whole { opened.now.kept.broken ≡ false }
    ensures written { (s : State) (reads : Bool) (what : Option Answer) → HasState opened.now s
        → AddsBy name.now s moment (S.left source.old) reads what
        → HasWritten what (K.taken sink.old) (K.taken sink.new) result }
    ensures addition { (s : State) → HasState opened.now s
        → OnOk result (HasAddition name.now s moment (S.left source.old)) }
    ensures read { (name_is : NameParts) → name.now ≡ Ok name_is
        → OnOk result (IsReadWhole (S.left source.old) (S.left source.new)) }
    ensures unread { (offset : ℕ) → name.now ≡ Err offset → source.new ≡ source.old }
    ensures input { InputIsRead S.left source.old source.new (result ≡ Ok false) (result ≡ Ok true)
        (result ≡ Err SessionHalt.InputTooLong) }
    ensures halt { IfErr result IsFilterHalt }
    ensures reads { Counts (S.faults source.old) (S.faults source.new) (result ≡ Err SessionHalt.ReadFault) }
    ensures writes { Counts (K.faults sink.old) (K.faults sink.new) (result ≡ Err SessionHalt.WriteFault) }
{
    match name {
        Ok(name) => write_added(alloc, opened, name, moment, source, sink),
        Err(offset) => match refuse(alloc, sink, Refusal::BadName { offset: *offset }) {
            Ok(()) => Ok(true),
            Err(halt) => Err(halt),
        },
    }
}

/// Reads the word as a name of the realm, and then writes the keytab with its keys.
fn add_opened<S: Source, K: Sink>(
    alloc: Global,
    word: &[u8],
    opened: Primary,
    moment: Time,
    source: &mut S,
    sink: &mut K,
) -> Result<bool, SessionHalt>
    requires short { length word.now ≤ 65536 }
    requires whole { opened.kept.broken ≡ false }
    ensures written { (s : State) (reads : Bool) (what : Option Answer) → HasState opened s
        → AddsBy (own_name_in word.now opened.kept.realm) s moment (S.left source.old) reads what
        → HasWritten what (K.taken sink.old) (K.taken sink.new) result }
    ensures addition { (s : State) → HasState opened s
        → OnOk result (HasAddition (own_name_in word.now opened.kept.realm) s moment (S.left source.old)) }
    ensures read { (name : NameParts) → own_name_in word.now opened.kept.realm ≡ Ok name
        → OnOk result (IsReadWhole (S.left source.old) (S.left source.new)) }
    ensures unread { (offset : ℕ) → own_name_in word.now opened.kept.realm ≡ Err offset → source.new ≡ source.old }
    ensures input { InputIsRead S.left source.old source.new (result ≡ Ok false) (result ≡ Ok true)
        (result ≡ Err SessionHalt.InputTooLong) }
    ensures opened { IsOpened opened }
    ensures halt { IfErr result IsFilterHalt }
    ensures reads { Counts (S.faults source.old) (S.faults source.new) (result ≡ Err SessionHalt.ReadFault) }
    ensures writes { Counts (K.faults sink.old) (K.faults sink.new) (result ≡ Err SessionHalt.WriteFault) }
{
    opened.holds_opened();
    let name = match read_own_name(alloc, word, opened.realm().as_slice()) {
        Ok(name) => name,
        Err(_) => return Err(SessionHalt::MemoryOut),
    };
    add_named(alloc, &opened, &name, moment, source, sink)
}

/// Opens the database, and adds the keys of a name to the keytab that the input is, as they stand. It answers whether
/// a refusal was written. The clock is read for the opening alone.
fn add<S: Source, K: Sink, D: Disk, C: Clock>(
    alloc: Global,
    word: &[u8],
    source: &mut S,
    sink: &mut K,
    disk: &mut D,
    clock: &mut C,
) -> Result<bool, SessionHalt>
    requires short { length word.now ≤ 65536 }
    ensures run { D.tells → (stream : Option (ℕ → ℕ)) (o : Opening)
        → adds_for word.now (S.left source.old) (found_in (D.view disk.old).seen)
        (told_draws (C.moments clock.old) stream) o
        → HasRun o (D.view disk.old) (D.view disk.new)
        (told (K.taken sink.old) (S.left source.old) (told_draws (C.moments clock.old) stream))
        (told (K.taken sink.new) (S.left source.new) (told_draws (C.moments clock.new) stream)) result }
    ensures opening { D.tells → (stream : Option (ℕ → ℕ)) (draws : Draws)
        → told_draws (C.moments clock.old) stream ≡ Some draws
        → OnOk result (HasAdding word.now (S.left source.old) (found_in (D.view disk.old).seen)
        (told_draws (C.moments clock.old) stream)) }
    ensures input { InputIsRead S.left source.old source.new (result ≡ Ok false) (result ≡ Ok true)
        (result ≡ Err SessionHalt.InputTooLong) }
    ensures unread { D.tells → (stream : Option (ℕ → ℕ)) (o : Opening)
        → adds_for word.now (S.left source.old) (found_in (D.view disk.old).seen)
        (told_draws (C.moments clock.old) stream) o
        → (ReadsInput o → ⊥) → source.new ≡ source.old }
    ensures not_drawn { IfErr result (λ halt. halt ≢ SessionHalt.DrawFault) }
    ensures call { IsCall D.Disk disk.old disk.new (result ≡ Err SessionHalt.DiskFault) }
    ensures reads { Counts (S.faults source.old) (S.faults source.new) (result ≡ Err SessionHalt.ReadFault) }
    ensures writes { Counts (K.faults sink.old) (K.faults sink.new) (result ≡ Err SessionHalt.WriteFault) }
{
    let moment = clock.now();
    match Primary::recover(alloc, disk, None, DUMPS, moment) {
        Ok(opened) => {
            what_is_kept_is_recovered(disk);
            add_opened(alloc, word, opened, moment, source, sink)
        }
        Err(Stop::Refused(refusal)) => match refuse(alloc, sink, refusal) {
            Ok(()) => Ok(true),
            Err(halt) => Err(halt),
        },
        Err(Stop::Halt(halt)) => Err(SessionHalt::from(halt)),
    }
}

/// Does what the words ask of a keytab. It answers whether a refusal was written.
pub(crate) fn run_keytab<S: Source, K: Sink, D: Disk, C: Clock, E: Entropy>(
    alloc: Global,
    words: KeytabWords,
    source: &mut S,
    sink: &mut K,
    disk: &mut D,
    clock: &mut C,
    entropy: &mut E,
) -> Result<bool, SessionHalt>
    requires valid { AreValid (Ok words) }
    ensures run { D.tells → (o : Opening)
        → keytab_for words (S.left source.old) (found_in (D.view disk.old).seen)
        (told_draws (C.moments clock.old) (E.stream entropy.old)) o
        → HasRun o (D.view disk.old) (D.view disk.new)
        (told (K.taken sink.old) (S.left source.old) (told_draws (C.moments clock.old) (E.stream entropy.old)))
        (told (K.taken sink.new) (S.left source.new) (told_draws (C.moments clock.new) (E.stream entropy.new))) result }
    ensures opening { D.tells → (draws : Draws) → told_draws (C.moments clock.old) (E.stream entropy.old) ≡ Some draws
        → OnOk result (HasKeytab words (S.left source.old) (found_in (D.view disk.old).seen)
        (told_draws (C.moments clock.old) (E.stream entropy.old))) }
    ensures input { InputIsRead S.left source.old source.new (result ≡ Ok false) (result ≡ Ok true)
        (result ≡ Err SessionHalt.InputTooLong) }
    ensures unread { D.tells → (o : Opening)
        → keytab_for words (S.left source.old) (found_in (D.view disk.old).seen)
        (told_draws (C.moments clock.old) (E.stream entropy.old)) o
        → (ReadsInput o → ⊥) → source.new ≡ source.old }
    ensures no_database { (OpensDatabase words → ⊥) → disk.new ≡ disk.old }
    ensures no_clock { (OpensDatabase words → ⊥) → clock.new ≡ clock.old }
    ensures no_draws { (OpensDatabase words → ⊥) → entropy.new ≡ entropy.old }
    ensures call { IsCall D.Disk disk.old disk.new (result ≡ Err SessionHalt.DiskFault) }
    ensures reads { Counts (S.faults source.old) (S.faults source.new) (result ≡ Err SessionHalt.ReadFault) }
    ensures writes { Counts (K.faults sink.old) (K.faults sink.new) (result ≡ Err SessionHalt.WriteFault) }
    ensures draws { Counts (E.faults entropy.old) (E.faults entropy.new) (result ≡ Err SessionHalt.DrawFault) }
{
    match words {
        KeytabWords::Remove(name, which) => write_removed(alloc, &name, which, source, sink),
        KeytabWords::AddStanding(word) => add(alloc, word.as_slice(), source, sink, disk, clock),
        KeytabWords::AddRenewed(word, etypes) => {
            let word = word.as_slice();
            let etypes = etypes.as_slice();
            renew(alloc, word, etypes, source, sink, disk, clock, entropy)
        }
    }
}
