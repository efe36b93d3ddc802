//! What a run answers, with its bytes.

ghost use Rattle.std.specs.Prelude.{◌≡◌, Err, IfErr, IfOk, OnErr, OnOk};
ghost use Rattle.kadm_keytabs.specs.Answers.{keytab_answer, refusal_answer};
ghost use Rattle.session_base.specs.Halts.{Counts};
ghost use Rattle.kdb_ports.specs.Parts.{SaidPart};
ghost use Rattle.kdb_ports.specs.Told.{after_told};

use kadm_commands::Reply;
use kadm_replies::print_reply;
use kdb_base::{Blob, MemoryOut, Refusal};
use kdb_ports::{Sink, write_whole};
use keytab_out::{KeytabList, write_keytab};
use session_base::SessionHalt;
use std::alloc::Global;

/// The bytes of an answer, and whether they are a refusal. It does not print itself: what it has may be keys.
#[derive(Drop)]
pub struct Answer {
    pub text: Blob,
    pub refused: bool,
}

/// The keytab of these entries.
pub(crate) fn keytab_answer(alloc: Global, list: &KeytabList) -> Result<Answer, MemoryOut>
    ensures { IfOk result (λ answer. answer ≡ keytab_answer list.now) }
{
    let text = write_keytab(alloc, list)?;
    Ok(Answer {
        text,
        refused: false,
    })
}

/// The line of a refusal.
pub(crate) fn refusal_answer(alloc: Global, why: Refusal) -> Result<Answer, MemoryOut>
    ensures { IfOk result (λ answer. answer ≡ refusal_answer why) }
{
    let text = print_reply(alloc, &Reply::Refused(why))?;
    Ok(Answer {
        text,
        refused: true,
    })
}

/// Writes an answer whole, and tells whether it is a refusal. It takes no memory.
pub(crate) fn write_answer<K: Sink>(sink: &mut K, answer: &Answer) -> Result<bool, SessionHalt>
    ensures told { IfOk result (λ refused. refused ≡ answer.now.refused) }
    ensures ok { OnOk result (K.taken sink.new ≡ after_told (K.taken sink.old) answer.now.text) }
    ensures err { OnErr result (SaidPart answer.now.text (K.taken sink.old) (K.taken sink.new)) }
    ensures halt { IfErr result (λ halt. halt ≡ SessionHalt.WriteFault) }
    ensures faults { Counts (K.faults sink.old) (K.faults sink.new) (result ≡ Err SessionHalt.WriteFault) }
{
    match write_whole(sink, answer.text.as_slice()) {
        Ok(()) => Ok(answer.refused),
        Err(_) => Err(SessionHalt::WriteFault),
    }
}
