//! A session: the lines of an input, one after another.

ghost use Rattle.std.specs.Prelude.{◌≡◌, ◌≢◌, ◌<◌, ◌∷◌, ◌||◌, IsTrue, Bool, false, List, []};
ghost use Rattle.std.specs.Prelude.{Some, None, Err, IfErr, IfOk, OnOk, OnErr};
ghost use Rattle.kadm_lines.specs.Reader.{work_left};
ghost use Rattle.kadm_session.specs.Courses.{Ending, EndsAs, GoesOnFrom, IsDoneWhole, ending};
ghost use Rattle.kadm_session.specs.Deciding.{Decides, IsLineSafe};
ghost use Rattle.session_base.specs.Draws.{told_draws};
ghost use Rattle.session_base.specs.Halts.{Counts};
ghost use Rattle.kadm_session.specs.Input.{IsAsked};
ghost use Rattle.kadm_session.specs.Dumping.{dump_lines};
ghost use Rattle.kadm_session.specs.Intake.{coming, NoCommand};
ghost use Rattle.session_base.specs.Replies.{reply_in, text_in, text_of};
ghost use Rattle.kadm_session.specs.Serving.{EndsIdle, HasAnswerCauses, HasDrawCauses, HasInputCauses, LeavesAll};
ghost use Rattle.kadm_session.specs.Serving.{RestsHalfway, Serves, StaysOpen, StopsBetween, TakesInput, course_over};
ghost use Rattle.kadm_session.specs.Steps.{is_refusal, line_text, refuses};
ghost use Rattle.kadm_session.specs.Turns.{GoesOn};
ghost use Rattle.kadm_session.specs.declared.intake.Asked.{Asked as Asks};
ghost use Rattle.kadm_session.specs.declared.intake.Asked.TheVariants.{WritesDump};
ghost use Rattle.kdb_histories.specs.Seen.{seen};
ghost use Rattle.kdb_plain.specs.declared.states.State.{State};
ghost use Rattle.kdb_ports.specs.Parts.{SaidPart};
ghost use Rattle.kdb_ports.specs.Told.{after_told};
ghost use Rattle.primary_core.specs.Opened.{HasState, place_of};
ghost use Rattle.store_files.specs.Kept.{IsOnDisk};

use crate::commands::perform;
use crate::dumping::{AnswerStop, is_dump, take_draws, write_dump};
use crate::intake::{Asked, Next, next_command};
use crate::rekeying::rekey;
use crate::renewing::renew;
use kadm_commands::Reply;
use kadm_lines::LineReader;
use kdb_disk::Disk;
use kdb_ports::{Clock, Entropy, Sink, Source};
use primary_core::Primary;
use session_base::{Printed, SessionHalt, print, write_any};
use std::alloc::Global;
use store_files::laws::what_is_kept_is_recovered;

// Whether the reply is a refusal.
fn refuses(reply: &Reply) -> bool
    ensures { result ≡ refuses reply.now }
{
    matches!(reply, Reply::Refused(_))
}

// Whether there is a reply, and it is a refusal.
fn is_refusal(printed: &Option<Printed>) -> bool
    ensures { result ≡ is_refusal (reply_in printed.now) }
{
    match printed {
        Some(printed) => refuses(&printed.reply),
        None => false,
    }
}

// Does what is asked for, and gives the printed reply; none, where a line is skipped, and for a dump, which is written
// without one. The clock is read, and random bytes are drawn, where a line gives a command; for a log that is begun
// anew on request the clock alone is read. Where memory is wanted and not there, or no random bytes are given, nothing
// was done, but that of many that are rekeyed some may be.
fn decide<D: Disk, C: Clock, E: Entropy>(
    alloc: Global,
    primary: &mut Primary,
    disk: &mut D,
    clock: &mut C,
    entropy: &mut E,
    asked: &Asked,
) -> Result<Option<Printed>, SessionHalt>
    requires asked { IsAsked primary.old.kept.realm asked.now }
    requires on { D.tells → IsOnDisk primary.old.kept (D.view disk.old) }
    requires whole { primary.old.kept.broken ≡ false }
    ensures decided { (s : State) → HasState primary.old s → IfOk result (λ printed.
        Decides asked.now (told_draws (C.moments clock.old) (E.stream entropy.old)) (seen (place_of primary.old) s)
        (reply_in printed) primary.new (told_draws (C.moments clock.new) (E.stream entropy.new))) }
    ensures safe { (s : State) → HasState primary.old s → IsLineSafe D.Disk disk.old disk.new asked.now
        (told_draws (C.moments clock.old) (E.stream entropy.old)) (seen (place_of primary.old) s) }
    ensures text { IfOk result (λ printed. text_in printed ≡ text_of (reply_in printed)) }
    ensures stays { StaysOpen D.Disk primary.old primary.new disk.new result }
    ensures rests { (s : State) → HasState primary.old s → RestsHalfway D.Disk disk.new asked.now
        (told_draws (C.moments clock.old) (E.stream entropy.old)) (seen (place_of primary.old) s) result }
    ensures causes { HasDrawCauses D.Disk disk.old disk.new (E.faults entropy.old) (E.faults entropy.new) result }
{
    what_is_kept_is_recovered(disk);
    match asked {
        Asked::Nothing => Ok(None),
        Asked::Refused(refusal) => match print(alloc, Reply::Refused(*refusal)) {
            Ok(printed) => Ok(Some(printed)),
            Err(_) => Err(SessionHalt::MemoryOut),
        },
        Asked::Does(command) => match perform(alloc, primary, disk, clock, entropy, command) {
            Ok(printed) => Ok(Some(printed)),
            Err(halt) => Err(halt),
        },
        Asked::Rekeys(glob) => match rekey(alloc, primary, disk, clock, entropy, glob) {
            Ok(printed) => Ok(Some(printed)),
            Err(halt) => Err(halt),
        },
        Asked::ResetsLog => match renew(alloc, primary, disk, clock) {
            Ok(printed) => Ok(Some(printed)),
            Err(halt) => Err(halt),
        },
        Asked::WritesDump => match take_draws(alloc, clock, entropy) {
            Ok(()) => Ok(None),
            Err(halt) => Err(halt),
        },
    }
}

// Writes what is answered to a line: the reply that was printed, where there is one, or a dump. Only a dump takes
// memory.
fn write_answer<K: Sink>(
    alloc: Global,
    primary: &Primary,
    sink: &mut K,
    asked: &Asked,
    printed: &Option<Printed>,
) -> Result<(), AnswerStop>
    requires text { text_in printed.now ≡ text_of (reply_in printed.now) }
    ensures ok { OnOk result (K.taken sink.new
        ≡ after_told (K.taken sink.old) (line_text asked.now (place_of primary.now) (reply_in printed.now))) }
    ensures err { OnErr result (SaidPart (line_text asked.now (place_of primary.now) (reply_in printed.now))
        (K.taken sink.old) (K.taken sink.new)) }
    ensures memory { result ≡ Err AnswerStop.MemoryOut → (asked.now ≡ WritesDump)
        × SaidPart (dump_lines (place_of primary.now)) (K.taken sink.old) (K.taken sink.new) }
    ensures faults { Counts (K.faults sink.old) (K.faults sink.new) (result ≡ Err AnswerStop.WriteFault) }
{
    if is_dump(asked) {
        return write_dump(alloc, primary, sink);
    }
    match write_any(sink, printed) {
        Ok(()) => Ok(()),
        Err(_) => Err(AnswerStop::WriteFault),
    }
}

// Does what a line asks for, and then writes the answer. It says whether that is a refusal. But for that of a dump, the
// writing takes no memory: where memory is wanted and not there, nothing was written but for a front of a dump's lines,
// and nothing was done, but that of many that are rekeyed some may be.
fn answer<K: Sink, D: Disk, C: Clock, E: Entropy>(
    alloc: Global,
    primary: &mut Primary,
    disk: &mut D,
    sink: &mut K,
    clock: &mut C,
    entropy: &mut E,
    asked: &Asked,
) -> Result<bool, SessionHalt>
    requires asked { IsAsked primary.old.kept.realm asked.now }
    requires on { D.tells → IsOnDisk primary.old.kept (D.view disk.old) }
    requires whole { primary.old.kept.broken ≡ false }
    ensures next { (s : State) (refused : Bool) (more : List Asks) → HasState primary.old s
        → IfOk result (λ now_refused. GoesOnFrom (course_over (K.taken sink.old) refused (Some (asked.now ∷ more))
        (told_draws (C.moments clock.old) (E.stream entropy.old)) primary.old s)
        primary.new (K.taken sink.new) (refused || now_refused) (Some more)
        (told_draws (C.moments clock.new) (E.stream entropy.new))) }
    ensures serves { D.tells → (s : State) (refused : Bool) (more : List Asks) → HasState primary.old s
        → Serves (course_over (K.taken sink.old) refused (Some (asked.now ∷ more))
        (told_draws (C.moments clock.old) (E.stream entropy.old)) primary.old s)
        (D.view disk.old) (D.view disk.new) (K.taken sink.new) result }
    ensures stays { StaysOpen D.Disk primary.old primary.new disk.new result }
    ensures unsaid { asked.now ≢ WritesDump
        → IfErr result (λ halt. halt ≢ SessionHalt.WriteFault → sink.new ≡ sink.old) }
    ensures causes { HasAnswerCauses D.Disk disk.old disk.new (K.faults sink.old) (K.faults sink.new)
        (E.faults entropy.old) (E.faults entropy.new) result }
{
    let printed = match decide(alloc, primary, disk, clock, entropy, asked) {
        Ok(printed) => printed,
        Err(halt) => return Err(halt),
    };
    what_is_kept_is_recovered(disk);
    match write_answer(alloc, primary, sink, asked, &printed) {
        Ok(()) => Ok(is_refusal(&printed)),
        Err(AnswerStop::WriteFault) => Err(SessionHalt::WriteFault),
        Err(AnswerStop::MemoryOut) => Err(SessionHalt::MemoryOut),
    }
}

// Takes the next line of the input and answers it. Nothing, where the input has ended; else whether the reply was a
// refusal.
fn turn<S: Source, K: Sink, D: Disk, C: Clock, E: Entropy>(
    alloc: Global,
    reader: &mut LineReader,
    primary: &mut Primary,
    disk: &mut D,
    source: &mut S,
    sink: &mut K,
    clock: &mut C,
    entropy: &mut E,
) -> Result<Option<bool>, SessionHalt>
    requires on { D.tells → IsOnDisk primary.old.kept (D.view disk.old) }
    requires whole { primary.old.kept.broken ≡ false }
    ensures next { (s : State) (refused : Bool) → HasState primary.old s → IfOk result (λ turn. GoesOn turn
        (λ now_refused. GoesOnFrom
        (course_over (K.taken sink.old) refused (coming primary.old.kept.realm reader.old (S.left source.old))
        (told_draws (C.moments clock.old) (E.stream entropy.old)) primary.old s)
        primary.new (K.taken sink.new) (refused || now_refused) (coming primary.new.kept.realm reader.new
        (S.left source.new)) (told_draws (C.moments clock.new) (E.stream entropy.new)))
        (NoCommand (coming primary.old.kept.realm reader.old (S.left source.old)))) }
    ensures serves { D.tells → (s : State) (refused : Bool) → HasState primary.old s → Serves
        (course_over (K.taken sink.old) refused (coming primary.old.kept.realm reader.old (S.left source.old))
        (told_draws (C.moments clock.old) (E.stream entropy.old)) primary.old s)
        (D.view disk.old) (D.view disk.new) (K.taken sink.new) result }
    ensures stays { StaysOpen D.Disk primary.old primary.new disk.new result }
    ensures leaves { LeavesAll disk.old disk.new sink.old sink.new primary.old primary.new result }
    ensures end { EndsIdle (K.taken sink.old) (K.taken sink.new) primary.old primary.new reader.new
        (told_draws (C.moments clock.old) (E.stream entropy.old))
        (told_draws (C.moments clock.new) (E.stream entropy.new)) result }
    ensures falls { IfOk result (λ turn. turn ≢ None → work_left reader.new < work_left reader.old) }
    ensures takes { TakesInput reader.old reader.new (S.left source.old) (S.left source.new) result }
    ensures causes { HasInputCauses D.Disk disk.old disk.new (S.faults source.old) (S.faults source.new)
        (K.faults sink.old) (K.faults sink.new) (E.faults entropy.old) (E.faults entropy.new) result }
{
    what_is_kept_is_recovered(disk);
    let realm = primary.realm().as_slice();
    let asked = match next_command(alloc, reader, source, realm) {
        Ok(Next::Line(asked)) => asked,
        Ok(Next::End) => return Ok(None),
        Err(halt) => return Err(halt),
    };
    match answer(alloc, primary, disk, sink, clock, entropy, &asked) {
        Ok(refused) => Ok(Some(refused)),
        Err(halt) => Err(halt),
    }
}

/// Answers the lines of the input one after another, up to its end, each as a command of the administrator at the
/// machine itself. It answers whether a refusal was among the replies.
///
/// # Errors
///
/// Each but `MemoryOut` comes only where its object's count of faults rose, `InputTooLong` where 4294967296 bytes were
/// taken. After `MemoryOut`, `DrawFault`, `ReadFault` and `InputTooLong` so many commands were done, and the replies to
/// them are written in full; after the last two nothing else was done.
pub fn serve<S: Source, K: Sink, D: Disk, C: Clock, E: Entropy>(
    alloc: Global,
    reader: &mut LineReader,
    primary: &mut Primary,
    disk: &mut D,
    source: &mut S,
    sink: &mut K,
    clock: &mut C,
    entropy: &mut E,
) -> Result<bool, SessionHalt>
    requires on { D.tells → IsOnDisk primary.old.kept (D.view disk.old) }
    requires whole { primary.old.kept.broken ≡ false }
    // All is said for the state that the rows show with the master keys that were found. Where the input, the clock and
    // the random bytes are told, the replies, the place, the state and what is left of both are what is said.
    ensures ended { (s : State) (end : Ending) → HasState primary.old s → ending
        (course_over (K.taken sink.old) false (coming primary.old.kept.realm reader.old (S.left source.old))
        (told_draws (C.moments clock.old) (E.stream entropy.old)) primary.old s) ≡ Some end
        → IfOk result (λ refused.
        EndsAs (K.taken sink.new) refused primary.new (told_draws (C.moments clock.new) (E.stream entropy.new)) end) }
    // What each line asks for was done as events of the primary's history.
    ensures done { (s : State) → HasState primary.old s → OnOk result (IsDoneWhole
        (course_over (K.taken sink.old) false (coming primary.old.kept.realm reader.old (S.left source.old))
        (told_draws (C.moments clock.old) (E.stream entropy.old)) primary.old s)) }
    ensures stays { StaysOpen D.Disk primary.old primary.new disk.new result }

    // How it may stop early, and what a crash leaves at any moment: a place of the session, which the events of its
    // lines reach.
    ensures serves { D.tells → (s : State) → HasState primary.old s → Serves
        (course_over (K.taken sink.old) false (coming primary.old.kept.realm reader.old (S.left source.old))
        (told_draws (C.moments clock.old) (E.stream entropy.old)) primary.old s)
        (D.view disk.old) (D.view disk.new) (K.taken sink.new) result }

    // For want of input, and at the limit of the input, it stops between two lines.
    ensures between { D.tells → (s : State) → HasState primary.old s → StopsBetween
        (course_over (K.taken sink.old) false (coming primary.old.kept.realm reader.old (S.left source.old))
        (told_draws (C.moments clock.old) (E.stream entropy.old)) primary.old s)
        (K.taken sink.new) (D.view disk.new) result }

    // What was taken from the source.
    ensures over { OnOk result (IsTrue reader.new.over) }
    ensures takes { TakesInput reader.old reader.new (S.left source.old) (S.left source.new) result }
    ensures causes { HasInputCauses D.Disk disk.old disk.new (S.faults source.old) (S.faults source.new)
        (K.faults sink.old) (K.faults sink.new) (E.faults entropy.old) (E.faults entropy.new) result }
{
    what_is_kept_is_recovered(disk);
    let mut refused = false;
    loop {
        what_is_kept_is_recovered(disk);
        match turn(alloc, reader, primary, disk, source, sink, clock, entropy) {
            Ok(Some(now_refused)) => refused = refused || now_refused,
            Ok(None) => return Ok(refused),
            Err(halt) => return Err(halt),
        }
    }
}

/// Answers one command that did not come as a line of the input. It answers whether that was a refusal.
///
/// # Errors
///
/// As those of `serve`. But for `WriteFault` nothing was written, and after `MemoryOut` and `DrawFault` nothing was
/// done, but that of many that are rekeyed some may be, and after `MemoryOut` a front of a dump's lines may be written.
pub fn serve_one<K: Sink, D: Disk, C: Clock, E: Entropy>(
    alloc: Global,
    primary: &mut Primary,
    disk: &mut D,
    sink: &mut K,
    clock: &mut C,
    entropy: &mut E,
    asked: &Asked,
) -> Result<bool, SessionHalt>
    requires asked { IsAsked primary.old.kept.realm asked.now }
    requires on { D.tells → IsOnDisk primary.old.kept (D.view disk.old) }
    requires whole { primary.old.kept.broken ≡ false }
    // As a session of this command alone.
    ensures ended { (s : State) (end : Ending) → HasState primary.old s
        → ending (course_over (K.taken sink.old) false (Some (asked.now ∷ []))
        (told_draws (C.moments clock.old) (E.stream entropy.old)) primary.old s) ≡ Some end
        → IfOk result (λ refused.
        EndsAs (K.taken sink.new) refused primary.new (told_draws (C.moments clock.new) (E.stream entropy.new)) end) }
    ensures done { (s : State) → HasState primary.old s → OnOk result
        (IsDoneWhole (course_over (K.taken sink.old) false (Some (asked.now ∷ []))
        (told_draws (C.moments clock.old) (E.stream entropy.old)) primary.old s)) }
    ensures stays { StaysOpen D.Disk primary.old primary.new disk.new result }
    ensures serves { D.tells → (s : State) → HasState primary.old s
        → Serves (course_over (K.taken sink.old) false (Some (asked.now ∷ []))
        (told_draws (C.moments clock.old) (E.stream entropy.old)) primary.old s)
        (D.view disk.old) (D.view disk.new) (K.taken sink.new) result }
    // But for a fault of the sink itself, an error comes with nothing written; want of memory for a dump is told above.
    ensures unsaid { asked.now ≢ WritesDump
        → IfErr result (λ halt. halt ≢ SessionHalt.WriteFault → sink.new ≡ sink.old) }
    ensures causes { HasAnswerCauses D.Disk disk.old disk.new (K.faults sink.old) (K.faults sink.new)
        (E.faults entropy.old) (E.faults entropy.new) result }
{
    what_is_kept_is_recovered(disk);
    answer(alloc, primary, disk, sink, clock, entropy, asked)
}
