//! A database made, and one ended.

ghost use Rattle.std.specs.Prelude.{◌≡◌, ◌≢◌, ◌⊎◌, List, ℕ, Option, Err, IfErr, IfOk, OnOk, OnErr, length};
ghost use Rattle.kadm_loading.specs.Halts.{SparesOutput};
ghost use Rattle.session_base.specs.Draws.{Draws, told_draws};
ghost use Rattle.session_base.specs.Halts.{Counts, IsAnswerHalt};
ghost use Rattle.kadm_replies.specs.Replies.{reply_text};
ghost use Rattle.kadm_commands.specs.declared.replies.Reply.TheVariants.{Done};
ghost use Rattle.first_rows.specs.Creation.{first_point};
ghost use Rattle.kadm_top.specs.Openings.{ABlock, behind, create_of, destroy_of};
ghost use Rattle.kadm_top.specs.Run.{AreDrawn, HasRun, IsMade, ended_text, refusal_line, told};
ghost use Rattle.kadm_top.specs.Statuses.{IsMakingHalt, IsSayHalt};
ghost use Rattle.kdb_base.specs.Causes.{HasCause};
ghost use Rattle.kdb_base.specs.declared.outcomes.Halt.TheVariants.{DiskFault, MemoryOut};
ghost use Rattle.kdb_base.specs.declared.outcomes.Refusal.{Refusal as WhyNot};
ghost use Rattle.kdb_base.specs.declared.outcomes.Stop.TheVariants.{Refused, Halt as Halts};
ghost use Rattle.kdb_control.specs.Force.{in_force};
ghost use Rattle.kdb_control.specs.declared.force.Force.TheVariants.{Nothing};
ghost use Rattle.kdb_disk.specs.Frames.{IsCall};
ghost use Rattle.kdb_disk.specs.Moments.{Keeps, LeavesOnly};
ghost use Rattle.kdb_ports.specs.Parts.{SaidPart};
ghost use Rattle.kdb_ports.specs.Told.{after_told};
ghost use Rattle.primary_core.specs.Opening.{first_place};
ghost use Rattle.store_files.specs.Recovery.{Creates};
ghost use Rattle.store_opening.specs.Made.{AnswersMade};

use first_rows::CreateSpec;
use kadm_commands::Reply;
use kdb_base::{Point, Refusal, Stop, Time};
use kdb_disk::Disk;
use kdb_ports::{Clock, Entropy, Sink, WriteFailed, write_whole};
use primary_core::Primary;
use session_base::{SessionHalt, draw, print, say};
use std::alloc::Global;
use store_files::laws::what_is_kept_is_recovered;
use store_switches::destroy_files;

/// The answer to `destroy`.
const ENDED: &[u8] = b"ok\n";

/// The length of a block of random bytes.
const BLOCK: usize = 2048;

/// Writes a refusal of the words or of the opening.
pub(crate) fn refuse<K: Sink>(
    alloc: Global,
    sink: &mut K,
    refusal: Refusal,
) -> Result<(), SessionHalt>
    ensures ok { OnOk result (K.taken sink.new ≡ after_told (K.taken sink.old) (refusal_line refusal)) }
    ensures err { OnErr result (SaidPart (refusal_line refusal) (K.taken sink.old) (K.taken sink.new)) }
    ensures rests { IfErr result (λ halt. SparesOutput halt → sink.new ≡ sink.old) }
    ensures halt { IfErr result IsSayHalt }
    ensures faults { Counts (K.faults sink.old) (K.faults sink.new) (result ≡ Err SessionHalt.WriteFault) }
{
    let reply = Reply::Refused(refusal);
    match say(alloc, sink, &reply) {
        Ok(()) => Ok(()),
        Err(halt) => Err(halt),
    }
}

/// Makes the files of a database.
fn make_files<D: Disk>(
    alloc: Global,
    spec: &CreateSpec,
    disk: &mut D,
    moment: Time,
    random: &[u8],
) -> Result<(), Stop>
    requires { length random.now ≡ 2048 }
    ensures answer { D.tells → AnswersMade result (in_force ((D.view disk.old).seen 0)) }
    ensures made { D.tells → OnOk result (IsMade spec.now moment random.now (D.view disk.new)) }
    ensures moments { D.tells → LeavesOnly (D.view disk.old) (D.view disk.new)
        (Creates (D.view disk.old) (first_place spec.now moment random.now)) }
    ensures refused { D.tells → (refusal : WhyNot) → result ≡ Err (Refused refusal)
        → Keeps (D.view disk.old) (D.view disk.new) }
    ensures there { D.tells → in_force ((D.view disk.old).seen 0) ≢ Nothing
        → Keeps (D.view disk.old) (D.view disk.new) }
    ensures memory { result ≡ Err (Halts MemoryOut) → disk.new ≡ disk.old }
    ensures call { IsCall D.Disk disk.old disk.new (result ≡ Err (Halts DiskFault)) }
{
    match Primary::create(alloc, disk, spec, moment, random) {
        Ok(_) => {
            what_is_kept_is_recovered(disk);
            Ok(())
        }
        Err(stop) => Err(stop),
    }
}

/// Makes a database at a moment of the clock and with a block of random bytes, and writes the text of its
/// point.
fn make_printed<K: Sink, D: Disk>(
    alloc: Global,
    spec: &CreateSpec,
    sink: &mut K,
    disk: &mut D,
    moment: Time,
    random: &[u8],
    text: &[u8],
) -> Result<bool, SessionHalt>
    requires random { length random.now ≡ 2048 }
    requires text { text.now ≡ reply_text (Done (first_point moment)) }
    ensures run { D.tells → (left : Option (List ℕ)) (draws : Option Draws) → AreDrawn draws moment random.now
        → HasRun (create_of spec.now (in_force ((D.view disk.old).seen 0))) (D.view disk.old) (D.view disk.new)
        (told (K.taken sink.old) left draws) (told (K.taken sink.new) left (behind ABlock draws)) result }
    ensures halt { IfErr result IsMakingHalt }
    ensures writes { Counts (K.faults sink.old) (K.faults sink.new) (result ≡ Err SessionHalt.WriteFault) }
    ensures call { IsCall D.Disk disk.old disk.new (result ≡ Err SessionHalt.DiskFault) }
{
    match make_files(alloc, spec, disk, moment, random) {
        Ok(()) => match write_whole(sink, text) {
            Ok(()) => Ok(false),
            Err(_) => Err(SessionHalt::WriteFault),
        },
        Err(Stop::Refused(refusal)) => match refuse(alloc, sink, refusal) {
            Ok(()) => Ok(true),
            Err(halt) => Err(halt),
        },
        Err(Stop::Halt(halt)) => Err(SessionHalt::from(halt)),
    }
}

/// Makes a database, and answers its point, which is printed first: memory is taken before the first device
/// call.
fn make<K: Sink, D: Disk>(
    alloc: Global,
    spec: &CreateSpec,
    sink: &mut K,
    disk: &mut D,
    moment: Time,
    random: &[u8],
) -> Result<bool, SessionHalt>
    requires random { length random.now ≡ 2048 }
    ensures run { D.tells → (left : Option (List ℕ)) (draws : Option Draws) → AreDrawn draws moment random.now
        → HasRun (create_of spec.now (in_force ((D.view disk.old).seen 0))) (D.view disk.old) (D.view disk.new)
        (told (K.taken sink.old) left draws) (told (K.taken sink.new) left (behind ABlock draws)) result }
    ensures halt { IfErr result IsMakingHalt }
    ensures writes { Counts (K.faults sink.old) (K.faults sink.new) (result ≡ Err SessionHalt.WriteFault) }
    ensures call { IsCall D.Disk disk.old disk.new (result ≡ Err SessionHalt.DiskFault) }
{
    let point = Point {
        sno: 1,
        time: moment,
    };
    match print(alloc, Reply::Done(point)) {
        Ok(printed) => make_printed(
            alloc,
            spec,
            sink,
            disk,
            moment,
            random,
            printed.text.as_slice(),
        ),
        Err(_) => Err(SessionHalt::MemoryOut),
    }
}

/// Makes a database at the clock's next moment and with the next block of random bytes. Where none are given,
/// no file was touched.
pub(crate) fn create<K: Sink, D: Disk, C: Clock, E: Entropy>(
    alloc: Global,
    spec: &CreateSpec,
    sink: &mut K,
    disk: &mut D,
    clock: &mut C,
    entropy: &mut E,
) -> Result<bool, SessionHalt>
    ensures run { D.tells → (left : Option (List ℕ))
        → HasRun (create_of spec.now (in_force ((D.view disk.old).seen 0))) (D.view disk.old) (D.view disk.new)
        (told (K.taken sink.old) left (told_draws (C.moments clock.old) (E.stream entropy.old)))
        (told (K.taken sink.new) left (told_draws (C.moments clock.new) (E.stream entropy.new))) result }
    ensures halt { IfErr result IsAnswerHalt }
    ensures writes { Counts (K.faults sink.old) (K.faults sink.new) (result ≡ Err SessionHalt.WriteFault) }
    ensures call { IsCall D.Disk disk.old disk.new (result ≡ Err SessionHalt.DiskFault) }
    ensures draws { Counts (E.faults entropy.old) (E.faults entropy.new) (result ≡ Err SessionHalt.DrawFault) }
{
    let moment = clock.now();
    match draw(alloc, entropy, BLOCK) {
        Ok(random) => make(alloc, spec, sink, disk, moment, random.as_slice()),
        Err(halt) => Err(halt),
    }
}

/// Writes the answer to `destroy` whole.
#[tactic(auto, unfolding(crate::specs::Run::ended_text))]
fn say_ended<K: Sink>(sink: &mut K) -> Result<(), WriteFailed>
    ensures ok { OnOk result (K.taken sink.new ≡ after_told (K.taken sink.old) ended_text) }
    ensures err { OnErr result (SaidPart ended_text (K.taken sink.old) (K.taken sink.new)) }
    ensures cause { HasCause (K.faults sink.old) (K.faults sink.new) result }
{
    write_whole(sink, ENDED)
}

/// Ends the database.
pub(crate) fn end<K: Sink, D: Disk>(
    alloc: Global,
    sink: &mut K,
    disk: &mut D,
) -> Result<bool, SessionHalt>
    ensures run { D.tells → (left : Option (List ℕ)) (draws : Option Draws)
        → HasRun (destroy_of (in_force ((D.view disk.old).seen 0))) (D.view disk.old) (D.view disk.new)
        (told (K.taken sink.old) left draws) (told (K.taken sink.new) left draws) result }
    ensures halt { IfErr result IsMakingHalt }
    ensures writes { Counts (K.faults sink.old) (K.faults sink.new) (result ≡ Err SessionHalt.WriteFault) }
    ensures call { IsCall D.Disk disk.old disk.new (result ≡ Err SessionHalt.DiskFault) }
{
    match destroy_files(disk) {
        Ok(()) => match say_ended(sink) {
            Ok(()) => Ok(false),
            Err(_) => Err(SessionHalt::WriteFault),
        },
        Err(Stop::Refused(refusal)) => match refuse(alloc, sink, refusal) {
            Ok(()) => Ok(true),
            Err(halt) => Err(halt),
        },
        Err(Stop::Halt(halt)) => Err(SessionHalt::from(halt)),
    }
}
