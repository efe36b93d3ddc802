//! A whole run.

ghost use Rattle.std.specs.Prelude.{◌≡◌, ◌≤◌, ◌⊎◌, true, false, ℕ, List, Option};
ghost use Rattle.std.specs.Prelude.{Some, None, Ok, Err, map, IfErr, IfSome, OnOk};
ghost use Rattle.session_base.specs.Wholes.{IsReadWhole, WereTaken};
ghost use Rattle.session_base.specs.Draws.{Draws, told_draws};
ghost use Rattle.session_base.specs.Halts.{Counts, IsAnswerHalt};
ghost use Rattle.kadm_session.specs.Input.{IsAsked, asked_by};
ghost use Rattle.kadm_top.specs.Openings.{AsksInput, HasOpening, HasOpeningFor, IsOpening, NeedsDatabase};
ghost use Rattle.kadm_top.specs.Openings.{Opening, ReadsInput, WantsInput, asked_of, opens_for};
ghost use Rattle.kadm_top.specs.Reads.{InputIsRead, fresh};
ghost use Rattle.kadm_top.specs.Run.{HasCourse, HasRun, course_from, told};
ghost use Rattle.kadm_top.specs.Statuses.{HasCauses, IsRun, OnEnd, StatusHasCauses, faults};
ghost use Rattle.kadm_top.specs.Words.{AreSized, words_in};
ghost use Rattle.kadm_wire.specs.LineReadings.{words_answer};
ghost use Rattle.kdb_base.specs.declared.outcomes.Refusal.{Refusal as WhyNot};
ghost use Rattle.kdb_disk.specs.Frames.{IsCall};
ghost use Rattle.kdb_histories.specs.Seen.{seen};
ghost use Rattle.kdb_plain.specs.declared.states.State.{State};
ghost use Rattle.primary_core.specs.Opened.{HasState, IsOpened, place_of};
ghost use Rattle.store_files.specs.Found.{found_in};
ghost use Rattle.store_files.specs.Kept.{IsOnDisk};

use crate::accounting::tell;
use crate::asking::{Asking, LineWords, asked_by};
use crate::generating::generate;
use crate::keytabs::run_keytab;
use crate::loading::load;
use crate::making::{create, end, refuse};
use crate::statuses::status_after;
use crate::words::{Words, read_words};
use kadm_lines::LineReader;
use kadm_session::{Asked, serve, serve_one};
use kdb_base::{Refusal, Status, Stop};
use kdb_disk::Disk;
use kdb_ports::{Clock, Entropy, Sink, Source};
use primary_core::Primary;
use session_base::SessionHalt;
use std::alloc::Global;
use store_files::laws::what_is_kept_is_recovered;

/// How many dumps may be under way.
pub(crate) const DUMPS: u32 = 1;

/// Answers the input over a database that was opened.
fn answer_input<S: Source, K: Sink, D: Disk, C: Clock, E: Entropy>(
    alloc: Global,
    reader: &mut LineReader,
    opened: Primary,
    source: &mut S,
    sink: &mut K,
    disk: &mut D,
    clock: &mut C,
    entropy: &mut E,
) -> Result<bool, SessionHalt>
    requires front { reader.old ≡ fresh }
    requires on { D.tells → IsOnDisk opened.kept (D.view disk.old) }
    requires whole { opened.kept.broken ≡ false }
    ensures course { D.tells → (s : State) → HasState opened s
        → HasCourse (course_from None
        (told (K.taken sink.old) (S.left source.old) (told_draws (C.moments clock.old) (E.stream entropy.old)))
        (seen (place_of opened) s)) (D.view disk.old) (D.view disk.new)
        (told (K.taken sink.new) (S.left source.new) (told_draws (C.moments clock.new) (E.stream entropy.new))) result }
    ensures opened { IsOpened opened }
    ensures read { OnOk result (IsReadWhole (S.left source.old) (S.left source.new)) }
    ensures too_long { result ≡ Err SessionHalt.InputTooLong
        → WereTaken 4294967296 (S.left source.old) (S.left source.new) }
    ensures causes { HasCauses
        (faults (S.faults source.old) (K.faults sink.old) (D.faults disk.old) (E.faults entropy.old))
        (faults (S.faults source.new) (K.faults sink.new) (D.faults disk.new) (E.faults entropy.new)) result }
{
    opened.holds_opened();
    let mut primary = opened;
    let answered = serve(
        alloc,
        reader,
        &mut primary,
        disk,
        source,
        sink,
        clock,
        entropy,
    );
    what_is_kept_is_recovered(disk);
    answered
}

/// Answers one command over a database that was opened.
fn answer_alone<K: Sink, D: Disk, C: Clock, E: Entropy>(
    alloc: Global,
    asked: &Asked,
    opened: Primary,
    sink: &mut K,
    disk: &mut D,
    clock: &mut C,
    entropy: &mut E,
) -> Result<bool, SessionHalt>
    requires asked { IsAsked opened.kept.realm asked.now }
    requires on { D.tells → IsOnDisk opened.kept (D.view disk.old) }
    requires whole { opened.kept.broken ≡ false }
    ensures course { D.tells → (left : Option (List ℕ)) (s : State) → HasState opened s
        → HasCourse (course_from (Some asked.now)
        (told (K.taken sink.old) left (told_draws (C.moments clock.old) (E.stream entropy.old)))
        (seen (place_of opened) s)) (D.view disk.old) (D.view disk.new)
        (told (K.taken sink.new) left (told_draws (C.moments clock.new) (E.stream entropy.new))) result }
    ensures opened { IsOpened opened }
    ensures halt { IfErr result IsAnswerHalt }
    ensures call { IsCall D.Disk disk.old disk.new (result ≡ Err SessionHalt.DiskFault) }
    ensures writes { Counts (K.faults sink.old) (K.faults sink.new) (result ≡ Err SessionHalt.WriteFault) }
    ensures draws { Counts (E.faults entropy.old) (E.faults entropy.new) (result ≡ Err SessionHalt.DrawFault) }
{
    opened.holds_opened();
    let mut primary = opened;
    let answered = serve_one(alloc, &mut primary, disk, sink, clock, entropy, asked);
    what_is_kept_is_recovered(disk);
    answered
}

/// Answers what a line of these words asks for over a database that was opened.
fn answer_line<K: Sink, D: Disk, C: Clock, E: Entropy>(
    alloc: Global,
    words: &LineWords,
    opened: Primary,
    sink: &mut K,
    disk: &mut D,
    clock: &mut C,
    entropy: &mut E,
) -> Result<bool, SessionHalt>
    requires on { D.tells → IsOnDisk opened.kept (D.view disk.old) }
    requires whole { opened.kept.broken ≡ false }
    ensures course { D.tells → (left : Option (List ℕ)) (s : State) → HasState opened s
        → HasCourse (course_from (Some (asked_by (words_answer opened.kept.realm words.now)))
        (told (K.taken sink.old) left (told_draws (C.moments clock.old) (E.stream entropy.old)))
        (seen (place_of opened) s)) (D.view disk.old) (D.view disk.new)
        (told (K.taken sink.new) left (told_draws (C.moments clock.new) (E.stream entropy.new))) result }
    ensures opened { IsOpened opened }
    ensures halt { IfErr result IsAnswerHalt }
    ensures call { IsCall D.Disk disk.old disk.new (result ≡ Err SessionHalt.DiskFault) }
    ensures writes { Counts (K.faults sink.old) (K.faults sink.new) (result ≡ Err SessionHalt.WriteFault) }
    ensures draws { Counts (E.faults entropy.old) (E.faults entropy.new) (result ≡ Err SessionHalt.DrawFault) }
{
    opened.holds_opened();
    what_is_kept_is_recovered(disk);
    match asked_by(alloc, words, opened.realm().as_slice()) {
        Ok(asked) => answer_alone(alloc, &asked, opened, sink, disk, clock, entropy),
        Err(_) => Err(SessionHalt::MemoryOut),
    }
}

/// Answers what is asked over a database that was opened.
fn session<S: Source, K: Sink, D: Disk, C: Clock, E: Entropy>(
    alloc: Global,
    reader: &mut LineReader,
    asking: &Asking,
    opened: Primary,
    source: &mut S,
    sink: &mut K,
    disk: &mut D,
    clock: &mut C,
    entropy: &mut E,
) -> Result<bool, SessionHalt>
    requires front { reader.old ≡ fresh }
    requires on { D.tells → IsOnDisk opened.kept (D.view disk.old) }
    requires whole { opened.kept.broken ≡ false }
    ensures course { D.tells → (s : State) → HasState opened s
        → HasCourse (course_from (asked_of asking.now opened.kept.realm)
        (told (K.taken sink.old) (S.left source.old) (told_draws (C.moments clock.old) (E.stream entropy.old)))
        (seen (place_of opened) s)) (D.view disk.old) (D.view disk.new)
        (told (K.taken sink.new) (S.left source.new) (told_draws (C.moments clock.new) (E.stream entropy.new))) result }
    ensures opened { IsOpened opened }
    ensures read { AsksInput asking.now → OnOk result (IsReadWhole (S.left source.old) (S.left source.new)) }
    ensures unread { (AsksInput asking.now → ⊥) → source.new ≡ source.old }
    ensures too_long { result ≡ Err SessionHalt.InputTooLong
        → WereTaken 4294967296 (S.left source.old) (S.left source.new) }
    ensures causes { HasCauses
        (faults (S.faults source.old) (K.faults sink.old) (D.faults disk.old) (E.faults entropy.old))
        (faults (S.faults source.new) (K.faults sink.new) (D.faults disk.new) (E.faults entropy.new)) result }
{
    match asking {
        Asking::Input => answer_input(alloc, reader, opened, source, sink, disk, clock, entropy),
        Asking::Line(words) => answer_line(alloc, words, opened, sink, disk, clock, entropy),
        Asking::ResetsLog => {
            let asked = Asked::ResetsLog;
            answer_alone(alloc, &asked, opened, sink, disk, clock, entropy)
        }
    }
}

/// Opens the database and answers what it is asked.
fn open_and_answer<S: Source, K: Sink, D: Disk, C: Clock, E: Entropy>(
    alloc: Global,
    reader: &mut LineReader,
    size: Option<u32>,
    asking: &Asking,
    source: &mut S,
    sink: &mut K,
    disk: &mut D,
    clock: &mut C,
    entropy: &mut E,
) -> Result<bool, SessionHalt>
    requires front { reader.old ≡ fresh }
    requires size { IfSome size (λ n. (2 ≤ n) × (n ≤ 10000)) }
    ensures run { D.tells → (o : Opening)
        → opens_for size asking.now (found_in (D.view disk.old).seen)
        (told_draws (C.moments clock.old) (E.stream entropy.old)) o
        → HasRun o (D.view disk.old) (D.view disk.new)
        (told (K.taken sink.old) (S.left source.old) (told_draws (C.moments clock.old) (E.stream entropy.old)))
        (told (K.taken sink.new) (S.left source.new) (told_draws (C.moments clock.new) (E.stream entropy.new))) result }
    ensures opening { D.tells → (draws : Draws) → told_draws (C.moments clock.old) (E.stream entropy.old) ≡ Some draws
        → OnOk result (HasOpeningFor size asking.now (found_in (D.view disk.old).seen)
        (told_draws (C.moments clock.old) (E.stream entropy.old))) }
    ensures input { InputIsRead S.left source.old source.new (AsksInput asking.now × (result ≡ Ok false))
        (result ≡ Ok true) (result ≡ Err SessionHalt.InputTooLong) }
    ensures unread { D.tells → (o : Opening)
        → opens_for size asking.now (found_in (D.view disk.old).seen)
        (told_draws (C.moments clock.old) (E.stream entropy.old)) o
        → (ReadsInput o → ⊥) → source.new ≡ source.old }
    ensures alone { (AsksInput asking.now → ⊥) → source.new ≡ source.old }
    ensures causes { HasCauses
        (faults (S.faults source.old) (K.faults sink.old) (D.faults disk.old) (E.faults entropy.old))
        (faults (S.faults source.new) (K.faults sink.new) (D.faults disk.new) (E.faults entropy.new)) result }
{
    let moment = clock.now();
    match Primary::recover(alloc, disk, size, DUMPS, moment) {
        Ok(opened) => session(
            alloc, reader, asking, opened, source, sink, disk, clock, entropy,
        ),
        Err(Stop::Refused(refusal)) => match refuse(alloc, sink, refusal) {
            Ok(()) => Ok(true),
            Err(halt) => Err(halt),
        },
        Err(Stop::Halt(halt)) => Err(SessionHalt::from(halt)),
    }
}

/// Opens the database and answers what it is asked. It answers whether a refusal was written.
fn ask<S: Source, K: Sink, D: Disk, C: Clock, E: Entropy>(
    alloc: Global,
    size: Option<u32>,
    asking: &Asking,
    source: &mut S,
    sink: &mut K,
    disk: &mut D,
    clock: &mut C,
    entropy: &mut E,
) -> Result<bool, SessionHalt>
    requires size { IfSome size (λ n. (2 ≤ n) × (n ≤ 10000)) }
    ensures run { D.tells → (o : Opening)
        → opens_for size asking.now (found_in (D.view disk.old).seen)
        (told_draws (C.moments clock.old) (E.stream entropy.old)) o
        → HasRun o (D.view disk.old) (D.view disk.new)
        (told (K.taken sink.old) (S.left source.old) (told_draws (C.moments clock.old) (E.stream entropy.old)))
        (told (K.taken sink.new) (S.left source.new) (told_draws (C.moments clock.new) (E.stream entropy.new))) result }
    ensures opening { D.tells → (draws : Draws) → told_draws (C.moments clock.old) (E.stream entropy.old) ≡ Some draws
        → OnOk result (HasOpeningFor size asking.now (found_in (D.view disk.old).seen)
        (told_draws (C.moments clock.old) (E.stream entropy.old))) }
    ensures input { InputIsRead S.left source.old source.new (AsksInput asking.now × (result ≡ Ok false))
        (result ≡ Ok true) (result ≡ Err SessionHalt.InputTooLong) }
    ensures unread { D.tells → (o : Opening)
        → opens_for size asking.now (found_in (D.view disk.old).seen)
        (told_draws (C.moments clock.old) (E.stream entropy.old)) o
        → (ReadsInput o → ⊥) → source.new ≡ source.old }
    ensures alone { (AsksInput asking.now → ⊥) → source.new ≡ source.old }
    ensures causes { HasCauses
        (faults (S.faults source.old) (K.faults sink.old) (D.faults disk.old) (E.faults entropy.old))
        (faults (S.faults source.new) (K.faults sink.new) (D.faults disk.new) (E.faults entropy.new)) result }
{
    // What memory the input wants by itself is taken before a file is touched.
    match LineReader::new(alloc) {
        Ok(reader) => {
            let mut reader = reader;
            open_and_answer(
                alloc,
                &mut reader,
                size,
                asking,
                source,
                sink,
                disk,
                clock,
                entropy,
            )
        }
        Err(_) => Err(SessionHalt::MemoryOut),
    }
}

/// Does what the words ask for. It answers whether a refusal was written.
fn run_words<S: Source, K: Sink, D: Disk, C: Clock, E: Entropy>(
    alloc: Global,
    words: Result<Words, Refusal>,
    source: &mut S,
    sink: &mut K,
    disk: &mut D,
    clock: &mut C,
    entropy: &mut E,
) -> Result<bool, SessionHalt>
    requires { AreSized words }
    ensures run { D.tells → (o : Opening)
        → IsOpening words (S.left source.old) (D.view disk.old).seen
        (told_draws (C.moments clock.old) (E.stream entropy.old)) o
        → HasRun o (D.view disk.old) (D.view disk.new)
        (told (K.taken sink.old) (S.left source.old) (told_draws (C.moments clock.old) (E.stream entropy.old)))
        (told (K.taken sink.new) (S.left source.new) (told_draws (C.moments clock.new) (E.stream entropy.new))) result }
    ensures opening { D.tells → (draws : Draws) → told_draws (C.moments clock.old) (E.stream entropy.old) ≡ Some draws
        → OnOk result (HasOpening words (S.left source.old) (D.view disk.old).seen
        (told_draws (C.moments clock.old) (E.stream entropy.old))) }
    ensures input { InputIsRead S.left source.old source.new (WantsInput words × (result ≡ Ok false)) (result ≡ Ok true)
        (result ≡ Err SessionHalt.InputTooLong) }
    ensures unread { D.tells → (o : Opening)
        → IsOpening words (S.left source.old) (D.view disk.old).seen
        (told_draws (C.moments clock.old) (E.stream entropy.old)) o
        → (ReadsInput o → ⊥) → source.new ≡ source.old }
    ensures other_words { (WantsInput words → ⊥) → source.new ≡ source.old }
    ensures no_words { (refusal : WhyNot) → words ≡ Err refusal → disk.new ≡ disk.old }
    ensures no_database { (NeedsDatabase words → ⊥) → disk.new ≡ disk.old }
    ensures no_clock { (NeedsDatabase words → ⊥) → clock.new ≡ clock.old }
    ensures no_draws { (NeedsDatabase words → ⊥) → entropy.new ≡ entropy.old }
    ensures causes { HasCauses
        (faults (S.faults source.old) (K.faults sink.old) (D.faults disk.old) (E.faults entropy.old))
        (faults (S.faults source.new) (K.faults sink.new) (D.faults disk.new) (E.faults entropy.new)) result }
{
    match words {
        Ok(Words::Admin(size)) => {
            let asking = Asking::Input;
            ask(alloc, size, &asking, source, sink, disk, clock, entropy)
        }
        Ok(Words::Line(words)) => {
            let asking = Asking::Line(words);
            ask(alloc, None, &asking, source, sink, disk, clock, entropy)
        }
        Ok(Words::Renew) => {
            let asking = Asking::ResetsLog;
            ask(alloc, None, &asking, source, sink, disk, clock, entropy)
        }
        Ok(Words::Keytab(words)) => { run_keytab(alloc, words, source, sink, disk, clock, entropy) }
        Ok(Words::Load) => load(alloc, source, sink, disk, clock),
        Ok(Words::Tell(account)) => tell(alloc, account, sink, disk, clock),
        Ok(Words::Generate(script)) => generate(alloc, script, sink),
        Ok(Words::Create(spec)) => create(alloc, &spec, sink, disk, clock, entropy),
        Ok(Words::Destroy) => end(alloc, sink, disk),
        Err(refusal) => match refuse(alloc, sink, refusal) {
            Ok(()) => Ok(true),
            Err(halt) => Err(halt),
        },
    }
}

/// Does all that the program does: it judges the words, makes, ends or opens the database on the disk,
/// answers the lines of the source to the sink, and keeps the disk the way the replies say.
///
/// The words are `create REALM [-P PASS] [-e ETYPE] [-ulogsize N]`, `admin [-ulogsize N]`, `destroy [-f]`, `dump`,
/// `load`, `kproplog [-R]`, `report KIND`, `generate SEED COUNT`, `ktadd -norandkey NAME`, `ktadd [-e LIST] NAME` or
/// `ktremove NAME` with `all`, `old` or a version, where `--` may end the options, or a line of master keys or
/// `update_princ_encryption`, which is answered as in an input; other words are answered by `err 1 BadLine`, a bad
/// realm or value by `err 13 BadValue`, a bad name of `ktremove` by `err 2 BadName`, and no file is touched, nor by
/// `ktremove` or `generate`. A creation takes a moment of the clock and 2048 random bytes, an opening a moment, a load
/// another, a command both, and so does `ktadd` that makes new keys, and `update_princ_encryption` a moment and 512
/// bytes for each name that it asks. A reply or a keytab is written once its change is on the disk. A crash at any
/// moment leaves the database as it was, loaded, after some of the lines, with new keys, or between two rekeyings of a
/// line; where it returns early, a crash afterwards leaves it so behind each change of whose answer a byte was written,
/// and where neither the sink nor the disk failed, so many lines are answered in full, and beyond them nothing is done
/// but some rekeyings of the next line. When the input is read, no clause says.
pub fn run_local<S: Source, K: Sink, D: Disk, C: Clock, E: Entropy>(
    alloc: Global,
    words: &[Vec<u8>],
    source: &mut S,
    sink: &mut K,
    disk: &mut D,
    clock: &mut C,
    entropy: &mut E,
) -> Status
    // All is said of the opening that the words, the files, the clock and the source of random bytes give.
    ensures run { D.tells → (o : Opening)
        → IsOpening (words_in (map (λ word. word.items) words.now)) (S.left source.old) (D.view disk.old).seen
        (told_draws (C.moments clock.old) (E.stream entropy.old)) o
        → IsRun o (D.view disk.old) (D.view disk.new)
        (told (K.taken sink.old) (S.left source.old) (told_draws (C.moments clock.old) (E.stream entropy.old)))
        (told (K.taken sink.new) (S.left source.new) (told_draws (C.moments clock.new) (E.stream entropy.new))) result }

    // A run that goes through has such an opening, where the clock and the source of random bytes are told.
    ensures opening { D.tells → (draws : Draws) → told_draws (C.moments clock.old) (E.stream entropy.old) ≡ Some draws
        → OnEnd result (λ _. HasOpening (words_in (map (λ word. word.items) words.now)) (S.left source.old)
        (D.view disk.old).seen (told_draws (C.moments clock.old) (E.stream entropy.old))) }

    // What was read of the input. None is read but where the files hold a database for it.
    ensures input { InputIsRead S.left source.old source.new (WantsInput (words_in (map (λ word. word.items) words.now))
        × (result ≡ Status.Done)) (result ≡ Status.Refused) (result ≡ Status.InputTooLong) }
    ensures unread { D.tells → (o : Opening)
        → IsOpening (words_in (map (λ word. word.items) words.now)) (S.left source.old) (D.view disk.old).seen
        (told_draws (C.moments clock.old) (E.stream entropy.old)) o
        → (ReadsInput o → ⊥) → source.new ≡ source.old }
    ensures other_words { (WantsInput (words_in (map (λ word. word.items) words.now)) → ⊥) → source.new ≡ source.old }

    // Words that are refused touch no file. Neither do those that make a script or take entries out of a keytab, and
    // nothing is drawn for either.
    ensures no_words { (refusal : WhyNot) → words_in (map (λ word. word.items) words.now) ≡ Err refusal
        → disk.new ≡ disk.old }
    ensures no_database { (NeedsDatabase (words_in (map (λ word. word.items) words.now)) → ⊥) → disk.new ≡ disk.old }
    ensures no_clock { (NeedsDatabase (words_in (map (λ word. word.items) words.now)) → ⊥) → clock.new ≡ clock.old }
    ensures no_draws { (NeedsDatabase (words_in (map (λ word. word.items) words.now)) → ⊥) → entropy.new ≡ entropy.old }

    // The causes.
    ensures causes { StatusHasCauses
        (faults (S.faults source.old) (K.faults sink.old) (D.faults disk.old) (E.faults entropy.old))
        (faults (S.faults source.new) (K.faults sink.new) (D.faults disk.new) (E.faults entropy.new)) result }
{
    match read_words(alloc, words) {
        Ok(found) => status_after(run_words(alloc, found, source, sink, disk, clock, entropy)),
        Err(_) => Status::MemoryOut,
    }
}
