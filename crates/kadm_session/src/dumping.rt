//! A dump as the answer to a line. It is written line by line, and never held whole.

ghost use Rattle.std.specs.Prelude.{◌≡◌, ◌⊎◌, Err, IfErr, OnErr, OnOk, option_map};
ghost use Rattle.kadm_session.specs.Dumping.{dump_answer, dump_lines};
ghost use Rattle.kadm_session.specs.Input.{is_dump};
ghost use Rattle.kdb_ports.specs.Parts.{SaidPart};
ghost use Rattle.kdb_ports.specs.Told.{after_told};
ghost use Rattle.primary_core.specs.Opened.{place_of};
ghost use Rattle.session_base.specs.Draws.{behind_command, told_draws};
ghost use Rattle.session_base.specs.Halts.{Counts};

use crate::intake::Asked;
use dump_text::{DumpStop, write_marked};
use kdb_ports::{Clock, Entropy, Sink, write_whole};
use primary_core::Primary;
use session_base::{SessionHalt, draw};
use std::alloc::Global;

/// Why an answer was not written whole.
#[derive(Clone, Copy, Debug, PartialEq, Eq)]
pub(crate) enum AnswerStop {
    WriteFault,
    MemoryOut,
}

/// Whether a dump is asked for.
pub(crate) fn is_dump(asked: &Asked) -> bool
    ensures { result ≡ is_dump asked.now }
{
    matches!(asked, Asked::WritesDump)
}

/// Takes the block of random bytes and the moment that each command takes. A dump needs neither.
pub(crate) fn take_draws<C: Clock, E: Entropy>(
    alloc: Global,
    clock: &mut C,
    entropy: &mut E,
) -> Result<(), SessionHalt>
    ensures taken { OnOk result (told_draws (C.moments clock.new) (E.stream entropy.new)
        ≡ option_map behind_command (told_draws (C.moments clock.old) (E.stream entropy.old))) }
    ensures halt { IfErr result (λ halt. (halt ≡ SessionHalt.MemoryOut) ⊎ (halt ≡ SessionHalt.DrawFault)) }
    ensures faults { Counts (E.faults entropy.old) (E.faults entropy.new) (result ≡ Err SessionHalt.DrawFault) }
{
    match draw(alloc, entropy, 2048) {
        Ok(_block) => {
            let _moment = clock.now();
            Ok(())
        }
        Err(halt) => Err(halt),
    }
}

/// Writes the lines of a dump, each behind its mark.
#[tactic(auto, unfolding(crate::specs::Dumping::dump_lines))]
fn write_lines<K: Sink>(alloc: Global, primary: &Primary, sink: &mut K) -> Result<(), AnswerStop>
    ensures ok { OnOk result (K.taken sink.new ≡ after_told (K.taken sink.old) (dump_lines (place_of primary.now))) }
    ensures err { OnErr result (SaidPart (dump_lines (place_of primary.now)) (K.taken sink.old) (K.taken sink.new)) }
    ensures faults { Counts (K.faults sink.old) (K.faults sink.new) (result ≡ Err AnswerStop.WriteFault) }
{
    let database = primary.database();
    let realm = database.realm().as_slice();
    match write_marked(alloc, b"- ", realm, database.point(), database.rows(), sink) {
        Ok(()) => Ok(()),
        Err(DumpStop::WriteFault) => Err(AnswerStop::WriteFault),
        Err(_) => Err(AnswerStop::MemoryOut),
    }
}

/// Writes a dump as an answer: its lines, each behind its mark, and then `ok`. Memory may be wanted while the lines are
/// written, and not behind them.
pub(crate) fn write_dump<K: Sink>(
    alloc: Global,
    primary: &Primary,
    sink: &mut K,
) -> Result<(), AnswerStop>
    ensures ok { OnOk result (K.taken sink.new ≡ after_told (K.taken sink.old) (dump_answer (place_of primary.now))) }
    ensures err { OnErr result (SaidPart (dump_answer (place_of primary.now)) (K.taken sink.old) (K.taken sink.new)) }
    ensures memory { result ≡ Err AnswerStop.MemoryOut
        → SaidPart (dump_lines (place_of primary.now)) (K.taken sink.old) (K.taken sink.new) }
    ensures faults { Counts (K.faults sink.old) (K.faults sink.new) (result ≡ Err AnswerStop.WriteFault) }
{
    match write_lines(alloc, primary, sink) {
        Ok(()) => match write_whole(sink, b"ok\n") {
            Ok(()) => Ok(()),
            Err(_) => Err(AnswerStop::WriteFault),
        },
        Err(stop) => Err(stop),
    }
}
