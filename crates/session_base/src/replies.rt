//! Replies with their bytes, and what is written of them.

ghost use Rattle.std.specs.Prelude.{◌≡◌, ◌⊎◌, Err, IfErr, IfOk, OnOk, OnErr};
ghost use Rattle.session_base.specs.Halts.{Counts};
ghost use Rattle.kdb_base.specs.Causes.{HasCause};
ghost use Rattle.kdb_ports.specs.Told.{after_told};
ghost use Rattle.kadm_replies.specs.Replies.{reply_text};
ghost use Rattle.kdb_ports.specs.Parts.{SaidPart};
ghost use Rattle.session_base.specs.Replies.{text_in};

use crate::halts::SessionHalt;
use kadm_commands::Reply;
use kadm_replies::print_reply;
use kdb_base::{Blob, MemoryOut};
use kdb_ports::{Sink, WriteFailed, write_whole};
use std::alloc::Global;

/// A reply with its bytes. It does not print itself: what `extract` answers are keys.
#[derive(Drop)]
pub struct Printed {
    pub reply: Reply,
    pub text: Blob,
}

/// Prints a reply. It is printed before its change is made: what follows a change wants no memory.
pub fn print(alloc: Global, reply: Reply) -> Result<Printed, MemoryOut>
    ensures reply { IfOk result (λ printed. printed.reply ≡ reply) }
    ensures text { IfOk result (λ printed. printed.text ≡ reply_text reply) }
{
    match print_reply(alloc, &reply) {
        Ok(text) => Ok(Printed { reply, text }),
        Err(_) => Err(MemoryOut),
    }
}

/// Writes a reply whole.
pub fn say<K: Sink>(alloc: Global, sink: &mut K, reply: &Reply) -> Result<(), SessionHalt>
    ensures ok { OnOk result (K.taken sink.new ≡ after_told (K.taken sink.old) (reply_text reply.now)) }
    ensures err { OnErr result (SaidPart (reply_text reply.now) (K.taken sink.old) (K.taken sink.new)) }
    ensures memory { result ≡ Err SessionHalt.MemoryOut → sink.new ≡ sink.old }
    ensures halt { IfErr result (λ halt. (halt ≡ SessionHalt.MemoryOut) ⊎ (halt ≡ SessionHalt.WriteFault)) }
    ensures faults { Counts (K.faults sink.old) (K.faults sink.new) (result ≡ Err SessionHalt.WriteFault) }
{
    match print_reply(alloc, reply) {
        Ok(text) => match write_whole(sink, text.as_slice()) {
            Ok(()) => Ok(()),
            Err(_) => Err(SessionHalt::WriteFault),
        },
        Err(_) => Err(SessionHalt::MemoryOut),
    }
}

/// Writes a printed reply whole, where there is one. It takes no memory.
pub fn write_any<K: Sink>(sink: &mut K, printed: &Option<Printed>) -> Result<(), WriteFailed>
    ensures ok { OnOk result (K.taken sink.new ≡ after_told (K.taken sink.old) (text_in printed.now)) }
    ensures err { OnErr result (SaidPart (text_in printed.now) (K.taken sink.old) (K.taken sink.new)) }
    ensures cause { HasCause (K.faults sink.old) (K.faults sink.new) result }
{
    match printed {
        Some(printed) => write_whole(sink, printed.text.as_slice()),
        None => Ok(()),
    }
}
